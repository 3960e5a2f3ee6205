//! The traits of a source and of a sink.
//!
//! Each says which bytes went through it, whether it has failed and whether it has ended, so that the contract of a
//! core can name the bytes that it was given and those that it gave. What a device is, a socket or a slice, is left
//! to the modules beside this one and to the programs.

ghost use Rattle.std.specs.Prelude.{◌≡◌, ℕ, ◌+◌, ◌-◌, ◌^◌, ◌<◌, ◌≤◌, ◌↔◌, ◌⊎◌, min, Bool, List, length, take, Option, IsTrue, IsErr, IfOk, MatchResult};
ghost use Rattle.std.specs.Io.KnownBytes.{Keeps, Appends, Consumes, IsAtEnd};

/// A device has failed; every later call fails too.
#[derive(Clone, Copy, Debug, PartialEq, Eq, Hash)]
pub struct Failed;

/// A source of bytes, such as one end of a link, standard input or a slice.
pub trait ByteIn {
    // The bytes still to come, where they are known; `None` claims nothing.
    ghost to_come: { Self → Option (List ℕ) };

    // A call has failed.
    ghost failed: { Self → Bool };

    // A call has found the end.
    ghost ended: { Self → Bool };

    // A call has failed because the device had waited as long as it may.
    ghost timed_out: { Self → Bool };

    // How often `pull` was called, up to the greatest u64.
    ghost pull_count: { Self → ℕ };

    /// Moves the next bytes to the start of `piece` and returns how many.
    ///
    /// 0 with a piece that isn't empty means that the bytes have ended; every later call returns 0 too. After
    /// `Failed`, which takes no byte, every later call fails.
    fn pull(&mut self, piece: &mut [u8]) -> Result<usize, Failed>
        ensures within { IfOk result (λ n. n ≤ length piece.old) }
        ensures bytes { MatchResult result
            (λ n. Consumes (to_come self.old) (to_come self.new) (take n piece.new))
            (λ _. Keeps (to_come self.old) (to_come self.new)) }
        ensures failed { IsTrue (failed self.new) ↔ IsErr result }
        ensures stays_failed { IsTrue (failed self.old) → IsErr result }
        ensures ended { IsTrue (ended self.new) ↔ (IsTrue (ended self.old) ⊎ ((result ≡ Ok 0) × (0 < length piece.old))) }
        ensures stays_ended { IsTrue (ended self.old) → result ≡ Ok 0 }
        ensures at_end { IsTrue (ended self.new) → IsAtEnd (to_come self.new) }
        ensures timed_out { IsTrue (timed_out self.new) → IsErr result }
        ensures same_cause { IsTrue (failed self.old) → timed_out self.new ≡ timed_out self.old }
        ensures counted { pull_count self.new ≡ min (pull_count self.old + 1) (2 ^ 64 - 1) };

    /// Whether a call of `pull` has failed.
    fn has_failed(&self) -> bool
        ensures { result ≡ failed self.now };

    /// Whether the failure is that the device had waited for a byte as long as it may.
    fn has_timed_out(&self) -> bool
        ensures { result ≡ timed_out self.now };

    /// Whether a `pull` with a piece that isn't empty has returned 0.
    fn has_ended(&self) -> bool
        ensures { result ≡ ended self.now };

    /// How many calls of `pull` there were; the count stops at the greatest u64.
    fn pulls(&self) -> u64
        ensures { result ≡ pull_count self.now };
}

/// A sink of bytes, such as the other end of a link, standard output or a slice.
pub trait ByteOut {
    // The bytes put so far, where they are known; `None` claims nothing.
    ghost written: { Self → Option (List ℕ) };

    // A call has failed.
    ghost failed: { Self → Bool };

    // A call has failed because the device had waited as long as it may.
    ghost timed_out: { Self → Bool };

    /// Takes a prefix of `piece`, and returns how many bytes that is.
    ///
    /// If the piece isn't empty, it takes at least one byte or fails. After `Failed`, which takes no byte, every
    /// later call fails.
    fn put(&mut self, piece: &[u8]) -> Result<usize, Failed>
        ensures within { IfOk result (λ n. n ≤ length piece.now) }
        ensures progress { 0 < length piece.now → IfOk result (λ n. 0 < n) }
        ensures bytes { MatchResult result
            (λ n. Appends (written self.old) (written self.new) (take n piece.now))
            (λ _. Keeps (written self.old) (written self.new)) }
        ensures failed { IsTrue (failed self.new) ↔ IsErr result }
        ensures stays_failed { IsTrue (failed self.old) → IsErr result }
        ensures timed_out { IsTrue (timed_out self.new) → IsErr result }
        ensures same_cause { IsTrue (failed self.old) → timed_out self.new ≡ timed_out self.old };

    /// Whether a call of `put` has failed.
    fn has_failed(&self) -> bool
        ensures { result ≡ failed self.now };

    /// Whether the failure is that the device had waited to take a byte as long as it may.
    fn has_timed_out(&self) -> bool
        ensures { result ≡ timed_out self.now };
}
