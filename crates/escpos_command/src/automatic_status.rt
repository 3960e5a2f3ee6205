//! A block of automatic status: the four bytes that a printer sends unasked when its condition has changed.
//!
//! The first byte shows that it is a block: bit 1 is clear in it, and bits 1 and 4 are set in a status byte. Bits 0 and 7
//! are clear, as in a status byte, so it isn't 37 either.

ghost use Rattle.std.specs.Prelude.{◌≡◌, ◌&&◌, ◌||◌, IsTrue};
ghost use Rattle.std.specs.Option.{SomeIff};
ghost use Rattle.escpos_command.specs.Blocks.{begins_block, continues_block, is_block, says_offline, says_cover_open, says_near_end, says_paper_end};

use crate::parameter::has_bit;
use std::marker::Model;

/// The four bytes of a block of automatic status. (Reference: GS a.)
#[derive(Clone, Copy, Debug, PartialEq, Eq)]
pub struct AutomaticStatus {
    bytes: [u8; 4],
}

impl Model for AutomaticStatus {
    ghost use Rattle.std.specs.Prelude.{List, ℕ, IsTrue};
    ghost use Rattle.escpos_command.specs.Blocks.{is_block};

    ghost Value = { List ℕ };

    ghost view = { λ status. status.bytes };

    ghost invariant = { λ status. IsTrue (is_block status.bytes) };

    ghost inverse = { λ bytes. record { bytes = bytes } };
}

impl AutomaticStatus {
    /// The block of these bytes; `None` where bit 4 of the first byte is clear, or its bit 0, 1 or 7 set; or where a further
    /// byte has bit 4 or 7 set.
    pub fn new(bytes: [u8; 4]) -> Option<Self>
        ensures { SomeIff result (IsTrue (is_block bytes)) bytes }
    {
        let [first, second, third, fourth] = bytes;
        if begins_block(first)
            && continues_block(second)
            && continues_block(third)
            && continues_block(fourth)
        {
            Some(AutomaticStatus { bytes })
        } else {
            None
        }
    }

    /// The four bytes as sent.
    pub fn bytes(self) -> [u8; 4]
        ensures kept { result ≡ self }
        ensures range { IsTrue (is_block result) }
    {
        self.bytes
    }

    /// Whether the printer is offline: bit 3 of the first byte.
    pub fn is_offline(self) -> bool
        ensures { result ≡ says_offline self }
    {
        has_bit(self.bytes[0], 3)
    }

    /// Whether its cover is open: bit 5 of the first byte.
    pub fn is_cover_open(self) -> bool
        ensures { result ≡ says_cover_open self }
    {
        has_bit(self.bytes[0], 5)
    }

    /// Whether its paper is near its end: bit 0 or 1 of the third byte.
    pub fn is_near_end(self) -> bool
        ensures { result ≡ says_near_end self }
    {
        has_bit(self.bytes[2], 0) || has_bit(self.bytes[2], 1)
    }

    /// Whether its paper has ended: bit 2 or 3 of the third byte.
    pub fn is_paper_end(self) -> bool
        ensures { result ≡ says_paper_end self }
    {
        has_bit(self.bytes[2], 2) || has_bit(self.bytes[2], 3)
    }
}

/// Whether a block may begin with this byte: bit 4 is set, and bits 0, 1 and 7 are clear.
pub fn begins_block(byte: u8) -> bool
    ensures { result ≡ begins_block byte }
{
    has_bit(byte, 4) && !has_bit(byte, 0) && !has_bit(byte, 1) && !has_bit(byte, 7)
}

/// Whether a block may go on with this byte: bits 4 and 7 are clear.
pub fn continues_block(byte: u8) -> bool
    ensures { result ≡ continues_block byte }
{
    !has_bit(byte, 4) && !has_bit(byte, 7)
}
