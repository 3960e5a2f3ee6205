//! Puts a list of values, each as its bytes.
//!
//! Which values these are, commands or lines of text, is left to the crates that implement `Piece`.

ghost use Rattle.std.specs.Prelude.{◌≡◌, ℕ, List, length, Ok, OnOk, IfErr, IsTrue};
ghost use Rattle.std.specs.List.{flat_map};
ghost use Rattle.std.specs.Io.KnownBytes.{Appends};
ghost use Rattle.escpos_io.specs.Gather.{StopsIn};
ghost use Rattle.escpos_io.specs.Giving.{IsPiecePut};
ghost use Rattle.escpos_io.specs.Putting.{passage};

use crate::{ByteOut, Device, Gather};

/// The most bytes that one piece has. With this limit the bytes of all pieces of a slice can be counted.
pub const PIECE_BYTES: usize = 2_097_152;

const _: () = prove!(PIECE_BYTES == 2_097_152);

/// A value that is put as bytes.
///
/// An implementation appends short parts to the gather in place, after it has made room; parts that may be long it
/// puts as slices, which the gather copies only if they are small. The law `given_in_turn` joins such calls to one.
/// What `put` ensures then follows from `piece_put` for a call that gave all bytes, and from `piece_stopped` where
/// `?` returns an error.
pub trait Piece {
    // The bytes that it is put as.
    ghost bytes: { Self → List ℕ };

    /// Gives its bytes to `gather`, which puts what it has no room for into `writer`.
    ///
    /// On `Ok` there were at most `PIECE_BYTES` of them. On `Err` the sink has failed, and took exactly the first
    /// `written` of all bytes ever given to the gather, as long as those before the piece, and `PIECE_BYTES` more,
    /// are few enough to be counted.
    fn put<W: ByteOut>(&self, gather: &mut Gather, writer: &mut W) -> Result<(), Device>
        ensures { IsPiecePut result (passage (W.written writer.old) (W.written writer.new) (W.failed writer.old) (W.failed writer.new))
            gather.old gather.new (bytes self.now) };
}

/// Puts the bytes of `pieces`, one after another, into `writer`. Allocates nothing.
///
/// On `Ok` the writer has not failed, unless it had before; if there are no pieces, it isn't called. On `Err` it
/// has failed, and took exactly the first `written` of these bytes, fewer than there are.
pub fn put_pieces<P: Piece, W: ByteOut>(pieces: &[P], writer: &mut W) -> Result<(), Device>
    ensures ok { OnOk result (Appends (W.written writer.old) (W.written writer.new) (flat_map P.bytes pieces.now)) }
    ensures err { IfErr result (λ device.
        StopsIn (W.written writer.old) (W.written writer.new) (flat_map P.bytes pieces.now) device.written) }
    ensures untouched { length pieces.now ≡ 0 → (result ≡ Ok tt) × (writer.new ≡ writer.old) }
    ensures failed { IfErr result (λ _. IsTrue (W.failed writer.new)) }
    ensures not_failed { OnOk result (¬ IsTrue (W.failed writer.old) → ¬ IsTrue (W.failed writer.new)) }
{
    let mut gather = Gather::new();
    for piece in pieces {
        piece.put(&mut gather, writer)?;
    }
    gather.flush(writer)
}
