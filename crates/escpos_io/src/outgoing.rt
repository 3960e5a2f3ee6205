//! `Outgoing`: a standard writer as a sink of bytes.
//!
//! It adds what a standard writer doesn't promise: a failure is permanent. Buffers and flushes are left to the
//! writer.

ghost use Rattle.std.specs.Prelude.{◌≡◌, ◌<◌, ◌≤◌, ◌↔◌, false, length, take, IsTrue, IsErr, IfOk, MatchResult};
ghost use Rattle.std.specs.Io.KnownBytes.{Keeps, Appends};
ghost use Rattle.escpos_io.specs.Outgoing.{writer_of, has_failed, has_timed_out};

use crate::cause::Cause;
use crate::{ByteOut, Failed};
use std::io::Write;

/// A sink over a standard writer, such as a socket or standard output.
///
/// Any error of the writer, an interruption too, is a failure, and so is a write that takes no byte of a piece that isn't
/// empty; an error of the kinds `WouldBlock` and `TimedOut` is a time-out. After a failure the writer is never called again.
/// Nothing is flushed.
#[derive(Drop)]
pub struct Outgoing<W: Write> {
    writer: W,
    failed: Option<Cause>,
}

impl<W: Write> Outgoing<W> {
    /// A sink that puts its bytes into `writer`.
    pub fn new(writer: W) -> Self
        ensures writer { writer_of result ≡ writer }
        ensures written { ⟦<Outgoing<W> as ByteOut>⟧.written result ≡ W.contents writer }
        ensures failed { ⟦<Outgoing<W> as ByteOut>⟧.failed result ≡ false }
        ensures timed_out { ⟦<Outgoing<W> as ByteOut>⟧.timed_out result ≡ false }
    {
        Outgoing {
            writer,
            failed: None,
        }
    }

    /// The writer, with what was put into it.
    pub fn into_inner(self) -> W
        ensures { result ≡ writer_of self }
    {
        let Outgoing { writer, failed: _ } = self;
        writer
    }
}

impl<W: Write> ByteOut for Outgoing<W> {
    ghost written = { λ sink. W.contents (writer_of sink) };

    ghost failed = { has_failed };

    ghost timed_out = { has_timed_out };

    fn put(&mut self, piece: &[u8]) -> Result<usize, Failed>
        ensures within { IfOk result (λ n. n ≤ length piece.now) }
        ensures progress { 0 < length piece.now → IfOk result (λ n. 0 < n) }
        ensures bytes { MatchResult result
            (λ n. Appends (W.contents (writer_of self.old)) (W.contents (writer_of self.new)) (take n piece.now))
            (λ _. Keeps (W.contents (writer_of self.old)) (W.contents (writer_of self.new))) }
        ensures failed { IsTrue (has_failed self.new) ↔ IsErr result }
        ensures stays_failed { IsTrue (has_failed self.old) → IsErr result }
        ensures timed_out { IsTrue (has_timed_out self.new) → IsErr result }
        ensures same_cause { IsTrue (has_failed self.old) → has_timed_out self.new ≡ has_timed_out self.old }
        ensures not_written_after_failure { IsTrue (has_failed self.old) → writer_of self.new ≡ writer_of self.old }
    {
        if self.failed.is_some() {
            return Err(Failed);
        }
        match self.writer.write(piece) {
            Ok(taken) if taken > 0 || piece.is_empty() => return Ok(taken),
            Ok(_) => self.failed = Some(Cause::Fault),
            Err(error) => self.failed = Some(Cause::of(&error)),
        }
        Err(Failed)
    }

    fn has_failed(&self) -> bool {
        self.failed.is_some()
    }

    fn has_timed_out(&self) -> bool {
        self.failed.is_some_and(|cause| cause.is_time_out())
    }
}
