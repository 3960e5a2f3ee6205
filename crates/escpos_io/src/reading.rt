//! Reads a whole input up to a limit.
//!
//! What the bytes mean, and what a program prints about an error, is left to the callers.

ghost use Rattle.std.specs.Prelude.{◌≡◌, ℕ, ◌+◌, ◌-◌, ◌<◌, ◌≤◌, List, length, take, vec_len, IsTrue, IfOk, OnOk, IfSome, IsErr, IsErrOf};
ghost use Rattle.std.specs.Io.KnownBytes.{Consumes, IsAtEnd};

use crate::{ByteIn, Failed};
use std::alloc::{AllocError, Global};

/// Why an input was not read to its end.
#[derive(Clone, Copy, Debug, PartialEq, Eq)]
pub enum ReadError {
    /// The input has more bytes than the limit.
    TooLong,
    /// The source failed.
    Failed,
    /// Out of memory.
    Memory,
}

impl From<AllocError> for ReadError {
    ghost use Rattle.escpos_io.specs.declared.reading.ReadError.{ReadError};

    ghost from_gives = { λ _ error. error ≡ ReadError.Memory };

    fn from(_error: AllocError) -> Self {
        ReadError::Memory
    }
}

impl From<Failed> for ReadError {
    ghost use Rattle.escpos_io.specs.declared.reading.ReadError.{ReadError};

    ghost from_gives = { λ _ error. error ≡ ReadError.Failed };

    fn from(_failed: Failed) -> Self {
        ReadError::Failed
    }
}

// The most bytes that one call of `pull` asks for.
const PULLED_BYTES: usize = 65536;

const _: () = prove!(PULLED_BYTES == 65_536);

/// Reads `reader` to its end, which must come after `limit` bytes at most.
///
/// It takes at most `limit` + 1 bytes, in pieces of up to 64 KiB, and calls `pull` at most `limit` + 1 times.
/// `Failed` comes exactly where the source has failed, before the call or during it. `TooLong` comes at the first
/// byte after the limit, which is taken; the source can go on after it. `Memory` comes where an allocation failed;
/// the bytes taken until then, `limit` at most, are lost.
pub fn read_to_end<R: ByteIn>(
    alloc: Global,
    reader: &mut R,
    limit: usize,
) -> Result<Vec<u8>, ReadError>
    ensures bytes { IfOk result (λ all.
        Consumes (R.to_come reader.old) (R.to_come reader.new) all.items) }
    ensures whole { IfOk result (λ all.
        IfSome (R.to_come reader.old) (λ bytes. all.items ≡ bytes)) }
    ensures within { IfOk result (λ all. vec_len all ≤ limit) }
    ensures ended { OnOk result (IsTrue (R.ended reader.new)) }
    ensures too_long { IsErrOf result ReadError.TooLong
        → IfSome (R.to_come reader.old) (λ bytes. limit < length bytes) }
    ensures failed { IsErrOf result ReadError.Failed → IsTrue (R.failed reader.new) }
    ensures only_failed { IsTrue (R.failed reader.new) → IsErrOf result ReadError.Failed }
    ensures not_failed { OnOk result (¬ IsTrue (R.failed reader.new)) }
    ensures stays_failed { IsTrue (R.failed reader.old) → IsErr result }
    ensures at_most { (taken : List ℕ) × (length taken ≤ limit + 1)
        × Consumes (R.to_come reader.old) (R.to_come reader.new) taken }
    ensures memory { IsErrOf result ReadError.Memory → (taken : List ℕ) × (length taken ≤ limit)
        × Consumes (R.to_come reader.old) (R.to_come reader.new) taken }
    ensures pulls { R.pull_count reader.new ≤ R.pull_count reader.old + limit + 1 }
{
    if reader.has_failed() {
        return Err(ReadError::Failed);
    }
    let mut piece = vec![in alloc; 0u8; PULLED_BYTES.min(limit.saturating_add(1))]?;
    let mut all = Vec::new(alloc);
    'pieces: loop {
        let taken = pull_piece(reader, &mut piece, limit - all.len())?;
        if taken == 0 {
            return Ok(all);
        }
        all.extend_from_slice(&piece[..taken])?;
    }
}

// Pulls the next bytes to the start of `piece` and returns how many; more than `room` of them is `TooLong`.
fn pull_piece<R: ByteIn>(reader: &mut R, piece: &mut [u8], room: usize) -> Result<usize, ReadError>
    requires { 0 < length piece.old }
    ensures within { IfOk result (λ n. (n ≤ room) × (n ≤ length piece.new)) }
    ensures bytes { IfOk result (λ n.
        Consumes (R.to_come reader.old) (R.to_come reader.new) (take n piece.new)) }
    ensures ended { IfOk result (λ n. n ≡ 0 → IsTrue (R.ended reader.new)) }
    ensures too_long { IsErrOf result ReadError.TooLong
        → Consumes (R.to_come reader.old) (R.to_come reader.new) (take (room + 1) piece.new)
        × (room < length piece.new) }
    ensures at_end { IfOk result (λ n. n ≡ 0 → IsAtEnd (R.to_come reader.new)) }
    ensures failed { IsErrOf result ReadError.Failed → IsTrue (R.failed reader.new) }
    ensures only_failed { IsTrue (R.failed reader.new) → IsErrOf result ReadError.Failed }
    ensures not_failed { OnOk result (¬ IsTrue (R.failed reader.new)) }
    ensures stays_failed { IsTrue (R.failed reader.old) → IsErr result }
    ensures at_most { (taken : List ℕ) × (length taken ≤ room + 1)
        × Consumes (R.to_come reader.old) (R.to_come reader.new) taken }
    ensures no_memory { ¬ IsErrOf result ReadError.Memory }
    ensures one_pull { R.pull_count reader.new ≤ R.pull_count reader.old + 1 }
{
    let asked = piece.len().min(room.saturating_add(1));
    let taken = reader.pull(&mut piece[..asked])?;
    if taken > room {
        return Err(ReadError::TooLong);
    }
    Ok(taken)
}
