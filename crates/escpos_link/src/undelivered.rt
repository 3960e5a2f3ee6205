//! Bytes that are on their way from one end of a line to the other.
//!
//! They are added at the end and taken out at the start. Bytes that were taken out are dropped once they are more than
//! those that are left, so that a line that runs for long holds little, and each byte is moved at most once on average.

ghost use Rattle.std.specs.Prelude.{◌≡◌, ◌+◌, ◌<◌, ◌≤◌, min, List, [], ◌∷◌, ◌++◌, length, take, drop, vec_len, vec_capacity, IfOk, IsTrue, OnOk, OnErr, ◌↔◌};
ghost use Rattle.escpos_command.specs.declared.answer.Answer.{Answer};
ghost use Rattle.escpos_command.specs.Answers.{answer_bytes};
ghost use Rattle.escpos_host.specs.Machine.{taken_out};
ghost use Rattle.escpos_link.specs.EventTable.{answers_left};
ghost use Rattle.escpos_link.specs.Straight.{all_bytes};

use escpos_host::Host;
use escpos_printer::Printer;
use std::alloc::{AllocError, Global};
use std::marker::Model;

// The most bytes that leave a host at a time.
const PIECE_BYTES: usize = 512;

// The most bytes that an answer has.
const ANSWER_BYTES: usize = 7;

/// Bytes that were put on their way and not yet delivered.
#[derive(Debug, Drop)]
pub struct Undelivered {
    bytes: Vec<u8>,
    delivered: usize,
}

impl Model for Undelivered {
    ghost use Rattle.std.specs.Prelude.{ℕ, ◌≤◌, List, drop, length};

    ghost Value = { List ℕ };

    ghost view = { λ u. drop u.delivered u.bytes.items };

    ghost invariant = { λ u. u.delivered ≤ length u.bytes.items };
}

impl Undelivered {
    /// No bytes. Allocates nothing.
    pub fn new(alloc: Global) -> Self
        ensures { result ≡ [] }
    {
        Undelivered {
            bytes: Vec::new(alloc),
            delivered: 0,
        }
    }

    /// The first bytes, at most `most` of them.
    pub fn front(&self, most: usize) -> &[u8]
        ensures { result.now ≡ take most self.now }
    {
        let left = &self.bytes[self.delivered..];
        &left[..most.min(left.len())]
    }

    /// Takes this many bytes out at the start. Allocates nothing.
    pub fn deliver(&mut self, count: usize)
        requires { count ≤ length self.old }
        ensures { self.new ≡ drop count self.old }
    {
        self.delivered += count;
    }

    /// Whether there are no bytes.
    pub fn is_empty(&self) -> bool
        ensures { IsTrue result ↔ (self.now ≡ []) }
    {
        self.delivered == self.bytes.len()
    }

    /// Proof only: gives the caller this fact: the number of bytes is below `usize::MAX`.
    pub fn is_short(&self)
        ensures { length self.now < all_bytes }
    {
        // Proof only: the length of a list is a `usize`.
        let _ = self.bytes.len();
    }

    /// Drops all bytes. Allocates nothing.
    pub fn clear(&mut self)
        ensures { self.new ≡ [] }
    {
        self.bytes.clear();
        self.delivered = 0;
    }

    /// Puts these bytes at the end.
    ///
    /// `Err` is a failed allocation: then nothing has changed.
    pub fn put(&mut self, bytes: &[u8]) -> Result<(), AllocError>
        ensures put { OnOk result (self.new ≡ self.old ++ bytes.now) }
        ensures refused { OnErr result (self.new ≡ self.old) }
    {
        make_room(&mut self.bytes, &mut self.delivered, bytes.len())?;
        self.bytes.extend_from_slice(bytes)
    }

    /// Takes the next bytes out of a host, at most `most` and at most 512, puts them at the end, and returns how many.
    ///
    /// `Err` is a failed allocation: then nothing has changed.
    pub fn take_from_host(&mut self, host: &mut Host, most: usize) -> Result<usize, AllocError>
        ensures count { IfOk result (λ count. count ≡ min (min most 512) (length host.old.out)) }
        ensures moved { IfOk result (λ count. (host.new ≡ taken_out host.old count) × (self.new ≡ self.old ++ take count host.old.out)) }
        ensures refused { OnErr result ((host.new ≡ host.old) × (self.new ≡ self.old)) }
    {
        make_room(&mut self.bytes, &mut self.delivered, PIECE_BYTES)?;
        let mut piece = [0; PIECE_BYTES];
        let count = host.take_out(&mut piece[..most.min(PIECE_BYTES)]);
        self.bytes.extend_from_slice(&piece[..count])?;
        Ok(count)
    }

    /// Takes the oldest answer out of a printer, in which one must wait, and puts its bytes at the end.
    ///
    /// `Err` is a failed allocation: then nothing has changed.
    pub fn take_from_printer(&mut self, printer: &mut Printer) -> Result<(), AllocError>
        requires { 0 < length printer.old.waiting }
        ensures taken { OnOk result ((a : Answer) × (answers : List Answer) × (printer.old.waiting ≡ a ∷ answers)
            × (printer.new ≡ answers_left printer.old answers) × (self.new ≡ self.old ++ answer_bytes a)) }
        ensures refused { OnErr result ((printer.new ≡ printer.old) × (self.new ≡ self.old)) }
    {
        make_room(&mut self.bytes, &mut self.delivered, ANSWER_BYTES)?;
        if let Some(answer) = printer.take_answer() {
            self.bytes.extend_from_slice(answer.bytes().as_slice())?;
        }
        Ok(())
    }
}

// Makes room for `count` more bytes after those that are left. The delivered bytes are dropped first if they are more than
// the others.
fn make_room(bytes: &mut Vec<u8>, delivered: &mut usize, count: usize) -> Result<(), AllocError>
    requires { delivered.old ≤ vec_len bytes.old }
    ensures same { drop delivered.new bytes.new.items ≡ drop delivered.old bytes.old.items }
    ensures within { delivered.new ≤ vec_len bytes.new }
    ensures room { OnOk result (vec_len bytes.new + count ≤ vec_capacity bytes.new) }
{
    if *delivered > bytes.len() - *delivered {
        let _ = bytes.drain(..*delivered);
        *delivered = 0;
    }
    bytes.reserve(count)
}
