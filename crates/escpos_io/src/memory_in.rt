//! `MemoryIn`: a slice as a source of bytes, for tests.
//!
//! It gives few bytes a call, or fails from a given call on, as a test asks; programs read with `Incoming`.

ghost use Rattle.std.specs.Prelude.{◌≡◌, ◌+◌, ◌-◌, ◌^◌, ◌<◌, ◌≤◌, ◌⊎◌, ◌↔◌, min, max, length, take, drop, ◌++◌, ◌≢◌, false, None, Some, IsTrue, IsErr, IfOk, MatchResult};
ghost use Rattle.std.specs.Io.KnownBytes.{Keeps, Consumes, IsAtEnd};
ghost use Rattle.escpos_io.specs.Source.{IsDue};
ghost use Rattle.escpos_io.specs.Memory.{to_come_of, has_failed, has_ended, has_timed_out, pull_count_of, bytes_left, most_per_pull, pull_failing_from};

use crate::cause::Cause;
use crate::source::{Progress, is_due};
use crate::{ByteIn, Failed};

/// A source of the bytes of a slice, a few at a time, that may fail from a given call on.
#[derive(Debug, Drop)]
pub struct MemoryIn<'a> {
    left: &'a [u8],
    most: usize,
    from_call: Option<u64>,
    progress: Progress,
    pulls: u64,
}

impl<'a> MemoryIn<'a> {
    /// A source of `bytes`. One `pull` gives at most `most` of them; 0 counts as 1.
    pub fn new(bytes: &'a [u8], most: usize) -> Self
        ensures to_come { ⟦<MemoryIn<'a> as ByteIn>⟧.to_come result ≡ Some bytes.now }
        ensures failed { ⟦<MemoryIn<'a> as ByteIn>⟧.failed result ≡ false }
        ensures ended { ⟦<MemoryIn<'a> as ByteIn>⟧.ended result ≡ false }
        ensures pull_count { ⟦<MemoryIn<'a> as ByteIn>⟧.pull_count result ≡ 0 }
        ensures most { most_per_pull result ≡ max most 1 }
        ensures never_fails { pull_failing_from result ≡ None }
    {
        MemoryIn {
            left: bytes,
            most,
            from_call: None,
            progress: Progress::Open,
            pulls: 0,
        }
    }

    /// The same, where each call of `pull` from `from_call` on fails; the first call is number 1.
    ///
    /// If the end was found before that call, `pull` still returns 0 and doesn't fail.
    pub fn failing(bytes: &'a [u8], most: usize, from_call: u64) -> Self
        ensures to_come { ⟦<MemoryIn<'a> as ByteIn>⟧.to_come result ≡ Some bytes.now }
        ensures failed { ⟦<MemoryIn<'a> as ByteIn>⟧.failed result ≡ false }
        ensures ended { ⟦<MemoryIn<'a> as ByteIn>⟧.ended result ≡ false }
        ensures pull_count { ⟦<MemoryIn<'a> as ByteIn>⟧.pull_count result ≡ 0 }
        ensures most { most_per_pull result ≡ max most 1 }
        ensures fails { pull_failing_from result ≡ Some from_call }
    {
        MemoryIn {
            from_call: Some(from_call),
            ..MemoryIn::new(bytes, most)
        }
    }

    // Gives the next bytes; the source has neither failed nor ended.
    fn pull_open(&mut self, piece: &mut [u8]) -> usize
        requires { self.old.progress ≡ Progress.Open }
        ensures amount { result
            ≡ min (min (length (bytes_left self.old)) (length piece.old)) (most_per_pull self.old) }
        ensures bytes { bytes_left self.old ≡ take result piece.new ++ bytes_left self.new }
        ensures rest { drop result piece.new ≡ drop result piece.old }
        ensures not_failed { ¬ IsTrue (has_failed self.new) }
        ensures ended { (self.new.progress ≡ Progress.Ended)
            ↔ ((result ≡ 0) × (0 < length piece.old)) }
        ensures same_count { self.new.pulls ≡ self.old.pulls }
        ensures same_most { most_per_pull self.new ≡ most_per_pull self.old }
        ensures same_failing { pull_failing_from self.new ≡ pull_failing_from self.old }
    {
        let taken = self.left.len().min(piece.len()).min(self.most.max(1));
        piece[..taken].copy_from_slice(&self.left[..taken]);
        self.left = &self.left[taken..];
        if taken == 0 && !piece.is_empty() {
            self.progress = Progress::Ended;
        }
        taken
    }
}

impl ByteIn for MemoryIn<'_> {
    ghost to_come = { to_come_of };

    ghost failed = { has_failed };

    ghost ended = { has_ended };

    ghost timed_out = { has_timed_out };

    ghost pull_count = { pull_count_of };

    fn pull(&mut self, piece: &mut [u8]) -> Result<usize, Failed>
        ensures within { IfOk result (λ n. n ≤ length piece.old) }
        ensures bytes { MatchResult result
            (λ n. Consumes (to_come_of self.old) (to_come_of self.new) (take n piece.new))
            (λ _. Keeps (to_come_of self.old) (to_come_of self.new)) }
        ensures failed { IsTrue (has_failed self.new) ↔ IsErr result }
        ensures stays_failed { IsTrue (has_failed self.old) → IsErr result }
        ensures ended { IsTrue (has_ended self.new)
            ↔ (IsTrue (has_ended self.old) ⊎ ((result ≡ Ok 0) × (0 < length piece.old))) }
        ensures stays_ended { IsTrue (has_ended self.old) → result ≡ Ok 0 }
        ensures at_end { IsTrue (has_ended self.new) → IsAtEnd (to_come_of self.new) }
        ensures timed_out { IsTrue (has_timed_out self.new) → IsErr result }
        ensures same_cause { IsTrue (has_failed self.old) → has_timed_out self.new ≡ has_timed_out self.old }
        ensures counted { pull_count_of self.new ≡ min (pull_count_of self.old + 1) (2 ^ 64 - 1) }
        ensures fails { IsErr result → IsTrue (has_failed self.old)
            ⊎ IsDue (pull_failing_from self.old) (pull_count_of self.new) }
        ensures due { IsDue (pull_failing_from self.old) (pull_count_of self.new)
            → IsErr result ⊎ IsTrue (has_ended self.old) }
        ensures amount { ¬ IsTrue (has_ended self.old) → IfOk result (λ n.
            n ≡ min (min (length (bytes_left self.old)) (length piece.old)) (most_per_pull self.old)) }
        ensures rest { MatchResult result (λ n. drop n piece.new ≡ drop n piece.old) (λ _. piece.new ≡ piece.old) }
        ensures same_most { most_per_pull self.new ≡ most_per_pull self.old }
        ensures same_failing { pull_failing_from self.new ≡ pull_failing_from self.old }
    {
        self.pulls = self.pulls.saturating_add(1);
        match self.progress {
            Progress::Ended => return Ok(0),
            Progress::Failed(_) => return Err(Failed),
            Progress::Open => {}
        }
        if is_due(self.from_call, self.pulls) {
            self.progress = Progress::Failed(Cause::Fault);
            return Err(Failed);
        }
        Ok(self.pull_open(piece))
    }

    fn has_failed(&self) -> bool {
        self.progress.has_failed()
    }

    // no read of memory waits
    fn has_timed_out(&self) -> bool {
        false
    }

    fn has_ended(&self) -> bool {
        self.progress.has_ended()
    }

    fn pulls(&self) -> u64 {
        self.pulls
    }
}
