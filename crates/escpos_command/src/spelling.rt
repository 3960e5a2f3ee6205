//! The bytes of a command: appended to a list, copied from a given place on, or put through a gather.

ghost use Rattle.std.specs.Prelude.{ℕ, List, ◌≡◌, ◌≤◌, ◌+◌, ◌-◌, ◌++◌, length, OnOk, OnErr, IsOk, vec_len, vec_capacity};
ghost use Rattle.escpos_command.specs.CommandTable.{row};
ghost use Rattle.escpos_command.specs.Copied.{Copied};
ghost use Rattle.escpos_command.specs.Laws.{longest_spelling};

use crate::command::{Command, LONGEST_PREFIX};
use escpos_io::{ByteOut, Device, Gather, Piece};
use std::alloc::AllocError;

/// The most bytes that a spelling has: graphics in the long form of 1,024 dots by 4,095 rows.
pub const LONGEST_SPELLING: usize = 524_177;

const _: () = prove!(LONGEST_SPELLING == 524_177);

impl Command {
    /// Appends the spelling, the command's row of the command table, to `out`.
    ///
    /// If the allocation fails, `out` is unchanged.
    pub fn spell(&self, out: &mut Vec<u8>) -> Result<(), AllocError>
        ensures ok { OnOk result (out.new.items ≡ out.old.items ++ row self.now) }
        ensures err { OnErr result (out.new.items ≡ out.old.items) }
        ensures no_memory { vec_len out.old + length (row self.now) ≤ vec_capacity out.old → IsOk result }
    {
        let parts = self.parts();
        out.reserve(self.spelled_len())?;
        out.extend_from_slice(parts.prefix).unwrap();
        out.extend_from_slice(parts.parameters.as_slice()).unwrap();
        out.extend_from_slice(parts.content).unwrap();
        out.extend_from_slice(parts.suffix).unwrap();
        Ok(())
    }

    /// The number of bytes of the spelling, at most 524,177. Allocates nothing.
    pub fn spelled_len(&self) -> usize
        ensures length { result ≡ length (row self.now) }
        ensures most { result ≤ longest_spelling }
    {
        let parts = self.parts();
        parts.prefix.len() + parts.parameters.len() + parts.content.len() + parts.suffix.len()
    }

    /// Copies the bytes of the spelling from place `from` on to the start of `out`, as many as there are and fit, and
    /// returns their number: 0 where `from` is at the end or after it. The rest of `out` is unchanged. Allocates nothing.
    pub fn spell_at(&self, from: usize, out: &mut [u8]) -> usize
        ensures { Copied out.old out.new (row self.now) from result }
    {
        let parts = self.parts();
        let mut skipped = from;
        let mut filled = copy_part(parts.prefix, skipped, 0, out);
        skipped = skipped.saturating_sub(parts.prefix.len());
        filled = copy_part(parts.parameters.as_slice(), skipped, filled, out);
        skipped = skipped.saturating_sub(parts.parameters.len());
        filled = copy_part(parts.content, skipped, filled, out);
        skipped = skipped.saturating_sub(parts.content.len());
        copy_part(parts.suffix, skipped, filled, out)
    }
}

// Copies one more part of some bytes to a buffer whose first `filled` bytes are taken, without those of its bytes that come
// before place `skipped`. Returns how many bytes of the buffer are taken then.
fn copy_part(part: &[u8], skipped: usize, filled: usize, out: &mut [u8]) -> usize
    requires { filled ≤ length out.old }
    ensures joined { (old done : List ℕ) (from : ℕ) → Copied old out.old done from filled → skipped ≡ from - length done
        → Copied old out.new (done ++ part.now) from result }
    ensures fits { result ≤ length out.new }
{
    filled + copy_from(part, skipped, &mut out[filled..])
}

// Copies bytes from place `from` on to the start of `out`, as many as there are and fit, and returns their number.
fn copy_from(bytes: &[u8], from: usize, out: &mut [u8]) -> usize
    ensures { Copied out.old out.new bytes.now from result }
{
    if from >= bytes.len() {
        return 0;
    }
    let count = out.len().min(bytes.len() - from);
    out[..count].copy_from_slice(&bytes[from..from + count]);
    count
}

impl Piece for Command {
    ghost bytes = { row };

    #[inline]
    fn put<W: ByteOut>(&self, gather: &mut Gather, writer: &mut W) -> Result<(), Device> {
        // Proof only: how long the spelling is.
        let _ = self.spelled_len();
        let parts = self.parts();
        gather.room(LONGEST_PREFIX, writer)?;
        gather.extend(parts.prefix);
        gather.extend(parts.parameters.as_slice());
        gather.put(parts.content, writer)?;
        gather.put(parts.suffix, writer)
    }
}
