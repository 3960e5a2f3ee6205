//! `MemoryOut`: a slice as a sink of bytes, for tests.
//!
//! It takes few bytes a call, or fails from a given call on, as a test asks; programs write with `Outgoing`.

ghost use Rattle.std.specs.Prelude.{◌≡◌, ◌≤◌, length};

use crate::source::is_due;
use crate::{ByteOut, Failed};

/// A sink that puts its bytes into a slice. It fails once that is full, or from a given call on.
#[derive(Drop)]
pub struct MemoryOut<'a> {
    room: &'a mut [u8],
    len: usize,
    most: usize,
    from_call: Option<u64>,
    puts: u64,
    failed: bool,
    ghost within: { len ≤ length room.now },
}

impl<'a> MemoryOut<'a> {
    ghost use Rattle.std.specs.Prelude.{◌≡◌, ◌+◌, ◌≤◌, ◌<◌, ◌++◌, min, max, ◌-◌, [], false, None, Some, take, drop, length};
    ghost use Rattle.escpos_io.specs.Memory.{written_bytes, unwritten_bytes, room_left, most_per_put, put_failing_from, put_count};

    /// A sink with room for as many bytes as `room` has.
    pub fn new(room: &'a mut [u8]) -> Self
        ensures written { ⟦<MemoryOut<'a> as ByteOut>⟧.written result ≡ Some [] }
        ensures failed { ⟦<MemoryOut<'a> as ByteOut>⟧.failed result ≡ false }
        ensures room { room_left result ≡ length room.old }
        ensures not_called { put_count result ≡ 0 }
        ensures most { most_per_put result ≡ usize.MAX }
        ensures never_fails { put_failing_from result ≡ None }
        ensures same_reference { result.room.ghost_name ≡ room.entry.ghost_name }
        ensures same_room { result.room.now ≡ room.old }
    {
        MemoryOut::taking(room, usize::MAX)
    }

    /// The same, where each call of `put` from `from_call` on fails; the first call is number 1.
    pub fn failing(room: &'a mut [u8], from_call: u64) -> Self
        ensures written { ⟦<MemoryOut<'a> as ByteOut>⟧.written result ≡ Some [] }
        ensures failed { ⟦<MemoryOut<'a> as ByteOut>⟧.failed result ≡ false }
        ensures room { room_left result ≡ length room.old }
        ensures not_called { put_count result ≡ 0 }
        ensures most { most_per_put result ≡ usize.MAX }
        ensures fails { put_failing_from result ≡ Some from_call }
        ensures same_reference { result.room.ghost_name ≡ room.entry.ghost_name }
        ensures same_room { result.room.now ≡ room.old }
    {
        let mut sink = MemoryOut::new(room);
        sink.from_call = Some(from_call);
        sink
    }

    /// A sink that takes at most `most` bytes of a piece (0 counts as 1), with room for as many bytes as `room`
    /// has.
    pub fn taking(room: &'a mut [u8], most: usize) -> Self
        ensures written { ⟦<MemoryOut<'a> as ByteOut>⟧.written result ≡ Some [] }
        ensures failed { ⟦<MemoryOut<'a> as ByteOut>⟧.failed result ≡ false }
        ensures room { room_left result ≡ length room.old }
        ensures not_called { put_count result ≡ 0 }
        ensures most { most_per_put result ≡ max most 1 }
        ensures never_fails { put_failing_from result ≡ None }
        ensures same_reference { result.room.ghost_name ≡ room.entry.ghost_name }
        ensures same_room { result.room.now ≡ room.old }
    {
        MemoryOut {
            room,
            len: 0,
            most,
            from_call: None,
            puts: 0,
            failed: false,
        }
    }

    /// The bytes put so far.
    pub fn written(&self) -> &[u8]
        ensures { result.now ≡ written_bytes self.now }
    {
        &self.room[..self.len]
    }

    // Puts as long a prefix of `piece` as one call takes after what was put before, and returns its length.
    fn put_front(&mut self, piece: &[u8]) -> usize
        ensures amount { result
            ≡ min (min (length piece.now) (room_left self.old)) (most_per_put self.old) }
        ensures bytes { written_bytes self.new ≡ written_bytes self.old ++ take result piece.now }
        ensures room { room_left self.new + result ≡ room_left self.old }
        ensures rest { unwritten_bytes self.new ≡ drop result (unwritten_bytes self.old) }
        ensures same_failed { self.new.failed ≡ self.old.failed }
        ensures same_count { put_count self.new ≡ put_count self.old }
        ensures same_most { most_per_put self.new ≡ most_per_put self.old }
        ensures same_failing { put_failing_from self.new ≡ put_failing_from self.old }
        ensures same_reference { self.new.room.ghost_name ≡ self.old.room.ghost_name }
    {
        let taken = piece
            .len()
            .min(self.room.len() - self.len)
            .min(self.most.max(1));
        let end = self.len + taken;
        self.room[self.len..end].copy_from_slice(&piece[..taken]);
        self.len = end;
        taken
    }
}

impl ByteOut for MemoryOut<'_> {
    ghost use Rattle.std.specs.Prelude.{◌≡◌, ◌+◌, ◌-◌, ◌^◌, ◌<◌, ◌≤◌, ◌↔◌, ◌⊎◌, min, length, take, Some, IsTrue, IsErr, IfOk, MatchResult, ◌++◌, drop};
    ghost use Rattle.escpos_io.specs.Source.{IsDue};
    ghost use Rattle.escpos_io.specs.Memory.{written_bytes, unwritten_bytes, room_left, most_per_put, put_failing_from, put_count, has_timed_out};

    ghost written = { λ sink. Some (written_bytes sink) };

    ghost failed = { λ sink. sink.failed };

    ghost timed_out = { has_timed_out };

    fn put(&mut self, piece: &[u8]) -> Result<usize, Failed>
        ensures within { IfOk result (λ n. n ≤ length piece.now) }
        ensures progress { 0 < length piece.now → IfOk result (λ n. 0 < n) }
        ensures bytes { MatchResult result
            (λ n. written_bytes self.new ≡ written_bytes self.old ++ take n piece.now)
            (λ _. written_bytes self.new ≡ written_bytes self.old) }
        ensures failed { IsTrue self.new.failed ↔ IsErr result }
        ensures stays_failed { IsTrue self.old.failed → IsErr result }
        ensures timed_out { IsTrue (has_timed_out self.new) → IsErr result }
        ensures same_cause { IsTrue self.old.failed → has_timed_out self.new ≡ has_timed_out self.old }
        ensures fails { IsErr result ↔ (IsTrue self.old.failed
            ⊎ (IsDue (put_failing_from self.old) (put_count self.new)
            ⊎ ((0 < length piece.now) × (room_left self.old ≡ 0)))) }
        ensures amount { IfOk result (λ n.
            n ≡ min (min (length piece.now) (room_left self.old)) (most_per_put self.old)) }
        ensures room { IfOk result (λ n. room_left self.new + n ≡ room_left self.old) }
        ensures counted { put_count self.new ≡ min (put_count self.old + 1) (2 ^ 64 - 1) }
        ensures same_most { most_per_put self.new ≡ most_per_put self.old }
        ensures same_failing { put_failing_from self.new ≡ put_failing_from self.old }
        ensures rest { MatchResult result
            (λ n. unwritten_bytes self.new ≡ drop n (unwritten_bytes self.old))
            (λ _. unwritten_bytes self.new ≡ unwritten_bytes self.old) }
        ensures same_reference { self.new.room.ghost_name ≡ self.old.room.ghost_name }
    {
        self.puts = self.puts.saturating_add(1);
        let is_full = self.len == self.room.len() && !piece.is_empty();
        if self.failed || is_full || is_due(self.from_call, self.puts) {
            self.failed = true;
            return Err(Failed);
        }
        Ok(self.put_front(piece))
    }

    fn has_failed(&self) -> bool {
        self.failed
    }

    // no write to memory waits
    fn has_timed_out(&self) -> bool {
        false
    }
}
