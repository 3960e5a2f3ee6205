//! Bytes gathered into large pieces before they are put.
//!
//! A sink may make a system call for each `put`. `Gather` keeps up to 16 KiB back, so that many small pieces go out
//! as few large ones, and counts the bytes that the sink has taken, up to the greatest u128. It allocates nothing.
//! What the bytes are is left to its users; `pieces` has the loop over values that are put as bytes.

ghost use Rattle.std.specs.Prelude.{◌≡◌, ◌+◌, ◌<◌, ◌≤◌, ℕ, List, [], ◌∷◌, ◌++◌, length, Ok, Option, OnOk, Bool};
ghost use Rattle.std.specs.Io.KnownBytes.{Appends};
ghost use Rattle.escpos_io.specs.Gather.{Carries};
ghost use Rattle.escpos_io.specs.Giving.{IsGiven};
ghost use Rattle.escpos_io.specs.Putting.{passage};

use crate::{ByteOut, Device, laws, put_all};
use arrayvec::ArrayVec;
use std::marker::Model;

/// The most bytes that are kept back.
pub const GATHERED_BYTES: usize = 16384;

const _: () = prove!(GATHERED_BYTES == 16384);

/// The bytes for one sink. Its model has those that are kept back, and how many the sink has taken (a count that
/// stops at the greatest u128).
///
/// After an `Err` the sink takes no more, and the `written` of a later error means nothing.
#[derive(Drop)]
pub struct Gather {
    piece: ArrayVec<u8, GATHERED_BYTES>,
    written: u128,
}

impl Model for Gather {
    ghost use Rattle.escpos_io.specs.Gather.{Gathered};

    ghost Value = { Gathered };

    ghost view = { λ g. record { kept = g.piece.items; written = g.written } };
}

impl Gather {
    /// A gather that keeps nothing back and has put nothing.
    pub fn new() -> Self
        ensures kept { result.kept ≡ [] }
        ensures written { result.written ≡ 0 }
        ensures carries { (sink : Option (List ℕ)) → Carries sink sink result [] }
    {
        Gather {
            piece: ArrayVec::new(),
            written: 0,
        }
    }

    /// Makes room for `count` more bytes, `GATHERED_BYTES` at most: if they don't fit, puts all that is kept back.
    ///
    /// On `Err` the sink has failed, and took exactly the first `written` of all bytes ever given (and so of these
    /// with any `more` after them), as long as these are few enough to be counted.
    #[inline]
    pub fn room<W: ByteOut>(&mut self, count: usize, writer: &mut W) -> Result<(), Device>
        requires { count ≤ GATHERED_BYTES }
        ensures given { IsGiven result (passage (W.written writer.old) (W.written writer.new) (W.failed writer.old) (W.failed writer.new))
            self.old self.new [] }
        ensures room { OnOk result (length self.new.kept + count ≤ GATHERED_BYTES) }
        ensures untouched { length self.old.kept + count ≤ GATHERED_BYTES
            → (result ≡ Ok tt) × (self.new ≡ self.old) × (writer.new ≡ writer.old) }
    {
        if count <= self.piece.remaining_capacity() {
            return Ok(());
        }
        self.flush(writer)
    }

    /// Appends `byte` to what is kept back, where there must be room for it (see `room`).
    #[inline]
    pub fn push(&mut self, byte: u8)
        requires { length self.old.kept < GATHERED_BYTES }
        ensures kept { self.new.kept ≡ self.old.kept ++ byte ∷ [] }
        ensures same_count { self.new.written ≡ self.old.written }
        ensures given { (sink : Option (List ℕ)) (failed : Bool) →
            IsGiven (Ok tt) (passage sink sink failed failed) self.old self.new (byte ∷ []) }
    {
        // Proof only: an appended byte counts as given.
        laws::given_in_place();
        self.piece.push(byte);
    }

    /// Appends `bytes` to what is kept back, where there must be room for them (see `room`).
    #[inline]
    pub fn extend(&mut self, bytes: &[u8])
        requires { length self.old.kept + length bytes.now ≤ GATHERED_BYTES }
        ensures kept { self.new.kept ≡ self.old.kept ++ bytes.now }
        ensures same_count { self.new.written ≡ self.old.written }
        ensures given { (sink : Option (List ℕ)) (failed : Bool) →
            IsGiven (Ok tt) (passage sink sink failed failed) self.old self.new bytes.now }
    {
        // Proof only: appended bytes count as given.
        laws::given_in_place();
        self.piece.try_extend_from_slice(bytes).unwrap();
    }

    /// Appends `bytes` to those that are kept back, and puts what doesn't fit.
    ///
    /// On `Err` the sink has failed, and took exactly the first `written` of all bytes ever given (and so of these
    /// with any `more` after them), as long as these are few enough to be counted.
    pub fn put<W: ByteOut>(&mut self, bytes: &[u8], writer: &mut W) -> Result<(), Device>
        ensures given { IsGiven result (passage (W.written writer.old) (W.written writer.new) (W.failed writer.old) (W.failed writer.new))
            self.old self.new bytes.now }
        ensures kept_back { length self.old.kept + length bytes.now ≤ GATHERED_BYTES
            → (result ≡ Ok tt) × (self.new.kept ≡ self.old.kept ++ bytes.now) × (writer.new ≡ writer.old) }
    {
        // Proof only: the calls below give the bytes as one call does.
        laws::given_in_turn();
        laws::given_in_the_front();
        laws::given_in_place();
        if bytes.len() > GATHERED_BYTES {
            self.flush(writer)?;
            return self.put_large(bytes, writer);
        }
        self.room(bytes.len(), writer)?;
        self.extend(bytes);
        Ok(())
    }

    /// Puts all that is kept back.
    ///
    /// On `Err` the sink has failed, and took exactly the first `written` of all bytes ever given (and so of these
    /// with any `more` after them), as long as these are few enough to be counted.
    #[inline(never)]
    pub fn flush<W: ByteOut>(&mut self, writer: &mut W) -> Result<(), Device>
        ensures ok { OnOk result ((first : Option (List ℕ)) (total : List ℕ) →
            Carries first (W.written writer.old) self.old total → Appends first (W.written writer.new) total) }
        ensures given { IsGiven result (passage (W.written writer.old) (W.written writer.new) (W.failed writer.old) (W.failed writer.new))
            self.old self.new [] }
        ensures empty { OnOk result (self.new.kept ≡ []) }
        ensures untouched { self.old.kept ≡ [] → (result ≡ Ok tt) × (self.new ≡ self.old) × (writer.new ≡ writer.old) }
    {
        match put_all(self.piece.as_slice(), writer) {
            Ok(()) => {
                self.written = self.written.saturating_add(self.piece.len() as u128);
                self.piece.clear();
                Ok(())
            }
            Err(device) => Err(Device {
                written: self.written.saturating_add(device.written),
            }),
        }
    }

    // Puts `bytes` without copying them; nothing may be kept back.
    fn put_large<W: ByteOut>(&mut self, bytes: &[u8], writer: &mut W) -> Result<(), Device>
        requires { self.old.kept ≡ [] }
        ensures given { IsGiven result (passage (W.written writer.old) (W.written writer.new) (W.failed writer.old) (W.failed writer.new))
            self.old self.new bytes.now }
        ensures empty { OnOk result (self.new.kept ≡ []) }
    {
        match put_all(bytes, writer) {
            Ok(()) => {
                self.written = self.written.saturating_add(bytes.len() as u128);
                Ok(())
            }
            Err(device) => Err(Device {
                written: self.written.saturating_add(device.written),
            }),
        }
    }
}
