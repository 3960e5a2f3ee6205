//! The text that a call makes, as a sink of bytes that takes no more than so many.

ghost use Rattle.std.specs.Prelude.{◌≡◌, ◌≤◌, length, IsTrue};
ghost use Rattle.escpos_c.specs.declared.limited_text.TheConstants.{TEXT_LIMIT};

use crate::call_status::CallStatus;
use escpos_io::{ByteOut, Failed};
use std::alloc::{AllocError, Global};

/// The most bytes of a text that a call makes.
pub const TEXT_LIMIT: usize = 268_435_456;

const _: () = prove!(TEXT_LIMIT == 268_435_456);

/// A text that a job prints. It fails where a byte would be one too many, or an allocation fails.
#[derive(Drop)]
pub struct LimitedText {
    text: Vec<u8>,
    failed: bool,
    too_long: bool,
    ghost within: { length text.items ≤ TEXT_LIMIT },
    ghost full: { IsTrue too_long → length text.items ≡ TEXT_LIMIT },
}

impl LimitedText {
    ghost use Rattle.std.specs.Prelude.{◌≡◌, ◌+◌, ◌≤◌, [], false, length, max, Some, OnOk, vec_len, vec_capacity};
    ghost use Rattle.escpos_c.specs.Answered.{cut_short};
    ghost use Rattle.escpos_c.specs.LimitedText.{is_too_long, text_of};
    ghost use Rattle.escpos_c.specs.declared.limited_text.TheConstants.{TEXT_LIMIT};

    /// An empty text.
    pub fn new(alloc: Global) -> Self
        ensures written { ⟦<LimitedText as ByteOut>⟧.written result ≡ Some [] }
        ensures failed { ⟦<LimitedText as ByteOut>⟧.failed result ≡ false }
        ensures too_long { is_too_long result ≡ false }
    {
        LimitedText {
            text: Vec::new(alloc),
            failed: false,
            too_long: false,
        }
    }

    /// The bytes put so far.
    pub fn bytes(&self) -> &[u8]
        ensures text { result.now ≡ text_of self.now }
        ensures within { length result.now ≤ TEXT_LIMIT }
    {
        &self.text
    }

    /// How a call ends whose text isn't whole: it would be too long, or memory ran out.
    pub fn cut_short(&self) -> CallStatus
        ensures { result ≡ cut_short (is_too_long self.now) }
    {
        if self.too_long {
            CallStatus::TooLong
        } else {
            CallStatus::Memory
        }
    }

    // Makes room for so many more bytes, which the limit has room for. It asks for no more than the limit.
    fn make_room(&mut self, more: usize) -> Result<(), AllocError>
        requires { vec_len self.old.text + more ≤ TEXT_LIMIT }
        ensures same { self.new.text.items ≡ self.old.text.items }
        ensures room { OnOk result (vec_len self.new.text + more ≤ vec_capacity self.new.text) }
        ensures asked { vec_capacity self.new.text ≤ max (vec_capacity self.old.text) TEXT_LIMIT }
        ensures failed { self.new.failed ≡ self.old.failed }
        ensures too_long { self.new.too_long ≡ self.old.too_long }
    {
        let len = self.text.len();
        let capacity = self.text.capacity();
        if more <= capacity - len {
            return Ok(());
        }
        let wanted = capacity.saturating_mul(2).max(len + more).min(TEXT_LIMIT);
        self.text.reserve_exact(wanted - len)
    }
}

impl ByteOut for LimitedText {
    ghost use Rattle.std.specs.Prelude.{◌≡◌, ◌-◌, ◌<◌, ◌≤◌, ◌↔◌, ◌++◌, min, length, take, Some, IsTrue, IsErr, IfOk, MatchResult};
    ghost use Rattle.escpos_io.specs.Memory.{has_timed_out};
    ghost use Rattle.escpos_c.specs.declared.limited_text.TheConstants.{TEXT_LIMIT};

    ghost written = { λ sink. Some sink.text.items };

    ghost failed = { λ sink. sink.failed };

    ghost timed_out = { has_timed_out };

    fn put(&mut self, piece: &[u8]) -> Result<usize, Failed>
        ensures within { IfOk result (λ n. n ≤ length piece.now) }
        ensures progress { 0 < length piece.now → IfOk result (λ n. 0 < n) }
        ensures bytes { MatchResult result
            (λ n. self.new.text.items ≡ self.old.text.items ++ take n piece.now)
            (λ _. self.new.text.items ≡ self.old.text.items) }
        ensures failed { IsTrue self.new.failed ↔ IsErr result }
        ensures stays_failed { IsTrue self.old.failed → IsErr result }
        ensures timed_out { IsTrue (has_timed_out self.new) → IsErr result }
        ensures same_cause { IsTrue self.old.failed → has_timed_out self.new ≡ has_timed_out self.old }
    {
        if self.failed {
            return Err(Failed);
        }
        let taken = piece.len().min(TEXT_LIMIT - self.text.len());
        if taken == 0 && !piece.is_empty() {
            self.too_long = true;
            self.failed = true;
            return Err(Failed);
        }
        if self.make_room(taken).is_err() || self.text.extend_from_slice(&piece[..taken]).is_err() {
            self.failed = true;
            return Err(Failed);
        }
        Ok(taken)
    }

    fn has_failed(&self) -> bool {
        self.failed
    }

    // no write to memory waits
    fn has_timed_out(&self) -> bool {
        false
    }
}
