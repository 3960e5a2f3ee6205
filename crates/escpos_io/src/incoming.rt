//! `Incoming`: a standard reader as a source of bytes.
//!
//! It adds what a standard reader doesn't promise: an end and a failure are permanent. `source` has that state.

ghost use Rattle.std.specs.Prelude.{◌≡◌, ◌+◌, ◌-◌, ◌^◌, ◌<◌, ◌≤◌, ◌⊎◌, ◌↔◌, min, length, take, false, IsTrue, IsErr, IfOk, MatchResult};
ghost use Rattle.std.specs.Io.KnownBytes.{Keeps, Consumes, IsAtEnd};
ghost use Rattle.escpos_io.specs.Source.{bytes_to_come, has_failed_of};
ghost use Rattle.escpos_io.specs.Incoming.{reader_of, to_come_of, has_failed, has_ended, has_timed_out, pull_count_of};

use crate::cause::Cause;
use crate::source::Progress;
use crate::{ByteIn, Failed};
use std::io::Read;

/// A source over a standard reader, such as a socket or standard input.
///
/// Any error of the reader, an interruption too, is a failure; one of the kinds `WouldBlock` and `TimedOut` is a time-out.
/// After a failure, and after the end, the reader is never called again.
#[derive(Drop)]
pub struct Incoming<R: Read> {
    reader: R,
    progress: Progress,
    pulls: u64,
}

impl<R: Read> Incoming<R> {
    /// A source of what `reader` gives from now on.
    pub fn new(reader: R) -> Self
        ensures reader { reader_of result ≡ reader }
        ensures to_come { ⟦<Incoming<R> as ByteIn>⟧.to_come result ≡ R.remaining reader }
        ensures failed { ⟦<Incoming<R> as ByteIn>⟧.failed result ≡ false }
        ensures ended { ⟦<Incoming<R> as ByteIn>⟧.ended result ≡ false }
        ensures timed_out { ⟦<Incoming<R> as ByteIn>⟧.timed_out result ≡ false }
        ensures pull_count { ⟦<Incoming<R> as ByteIn>⟧.pull_count result ≡ 0 }
    {
        Incoming {
            reader,
            progress: Progress::Open,
            pulls: 0,
        }
    }

    /// The reader, with the bytes that it hasn't given yet.
    pub fn into_inner(self) -> R
        ensures { result ≡ reader_of self }
    {
        let Incoming {
            reader,
            progress: _,
            pulls: _,
        } = self;
        reader
    }

    // One read from a source that has neither failed nor ended.
    fn pull_open(&mut self, piece: &mut [u8]) -> Result<usize, Failed>
        requires { self.old.progress ≡ Progress.Open }
        ensures within { IfOk result (λ n. n ≤ length piece.old) }
        ensures bytes { MatchResult result
            (λ n. Consumes (R.remaining self.old.reader)
            (bytes_to_come self.new.progress (R.remaining self.new.reader)) (take n piece.new))
            (λ _. Keeps (R.remaining self.old.reader) (R.remaining self.new.reader)) }
        ensures failed { IsTrue (has_failed_of self.new.progress) ↔ IsErr result }
        ensures ended { (self.new.progress ≡ Progress.Ended)
            ↔ ((result ≡ Ok 0) × (0 < length piece.old)) }
        ensures same_count { self.new.pulls ≡ self.old.pulls }
    {
        match self.reader.read(piece) {
            Ok(0) if !piece.is_empty() => {
                self.progress = Progress::Ended;
                Ok(0)
            }
            Ok(taken) => Ok(taken),
            Err(error) => {
                self.progress = Progress::Failed(Cause::of(&error));
                Err(Failed)
            }
        }
    }
}

impl<R: Read> ByteIn for Incoming<R> {
    ghost to_come = { to_come_of R.remaining };

    ghost failed = { has_failed };

    ghost ended = { has_ended };

    ghost timed_out = { has_timed_out };

    ghost pull_count = { pull_count_of };

    fn pull(&mut self, piece: &mut [u8]) -> Result<usize, Failed>
        ensures within { IfOk result (λ n. n ≤ length piece.old) }
        ensures bytes { MatchResult result
            (λ n. Consumes (to_come_of R.remaining self.old) (to_come_of R.remaining self.new) (take n piece.new))
            (λ _. Keeps (to_come_of R.remaining self.old) (to_come_of R.remaining self.new)) }
        ensures failed { IsTrue (has_failed self.new) ↔ IsErr result }
        ensures stays_failed { IsTrue (has_failed self.old) → IsErr result }
        ensures ended { IsTrue (has_ended self.new) ↔ (IsTrue (has_ended self.old) ⊎ ((result ≡ Ok 0) × (0 < length piece.old))) }
        ensures stays_ended { IsTrue (has_ended self.old) → result ≡ Ok 0 }
        ensures at_end { IsTrue (has_ended self.new) → IsAtEnd (to_come_of R.remaining self.new) }
        ensures timed_out { IsTrue (has_timed_out self.new) → IsErr result }
        ensures same_cause { IsTrue (has_failed self.old) → has_timed_out self.new ≡ has_timed_out self.old }
        ensures counted { pull_count_of self.new ≡ min (pull_count_of self.old + 1) (2 ^ 64 - 1) }
        ensures not_read_after_failure { IsTrue (has_failed self.old)
            → (reader_of self.new ≡ reader_of self.old) × (piece.new ≡ piece.old) }
        ensures not_read_after_end { IsTrue (has_ended self.old)
            → (reader_of self.new ≡ reader_of self.old) × (piece.new ≡ piece.old) }
    {
        self.pulls = self.pulls.saturating_add(1);
        match self.progress {
            Progress::Open => self.pull_open(piece),
            Progress::Ended => Ok(0),
            Progress::Failed(_) => Err(Failed),
        }
    }

    fn has_failed(&self) -> bool {
        self.progress.has_failed()
    }

    fn has_timed_out(&self) -> bool {
        self.progress.has_timed_out()
    }

    fn has_ended(&self) -> bool {
        self.progress.has_ended()
    }

    fn pulls(&self) -> u64 {
        self.pulls
    }
}
