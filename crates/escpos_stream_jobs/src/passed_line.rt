//! The line of a command that is passed over, in a listing.

ghost use Rattle.std.specs.Prelude.{◌≡◌, ◌≤◌, ◌+◌, ◌++◌, length, flat_map};
ghost use Rattle.escpos_io.specs.Giving.{IsGiven};
ghost use Rattle.escpos_io.specs.Putting.{passage};
ghost use Rattle.escpos_job_parts.specs.Lines.{byte_value};
ghost use Rattle.escpos_passed.specs.Table.{IsPassedBy};
ghost use Rattle.escpos_stream_jobs.specs.Check.{passed_front, passed_line};

use escpos_command::LF;
use escpos_io::{ByteOut, Device, GATHERED_BYTES, Gather, append_digits_after, append_number};
use escpos_passed::Row;

// The most bytes before the values: a number of at most 20 digits, a word, and a name of at most 11 letters.
const FRONT_BYTES: usize = 64;

const _: () = prove!(FRONT_BYTES == 64);

/// Gives the line of a command of this row, which has `place` bytes before it.
///
/// On `Err` the sink has failed, and took exactly the first `written` of all bytes ever given to the gather, as long as these are
/// few enough to be counted.
pub fn put_passed_line<W: ByteOut>(
    gather: &mut Gather,
    place: usize,
    row: &Row,
    bytes: &[u8],
    writer: &mut W,
) -> Result<(), Device>
    requires passed { IsPassedBy row.now bytes.now }
    ensures { IsGiven result (passage (W.written writer.old) (W.written writer.new) (W.failed writer.old) (W.failed writer.new))
        gather.old gather.new (passed_line place row.now bytes.now) }
{
    gather.room(FRONT_BYTES, writer)?;
    append_front(gather, place, row);
    put_values(gather, &bytes[row.prefix.named()..], writer)?;
    gather.put(&[LF], writer)
}

// Appends what stands before the values.
fn append_front(gather: &mut Gather, place: usize, row: &Row)
    requires { length gather.old.kept + FRONT_BYTES ≤ GATHERED_BYTES }
    ensures kept { gather.new.kept ≡ gather.old.kept ++ passed_front place row.now }
    ensures same_count { gather.new.written ≡ gather.old.written }
{
    append_number(gather, place);
    gather.extend(b" passed ");
    gather.extend(row.prefix.name().as_slice());
}

// Gives bytes as values, in parts.
fn put_values<W: ByteOut>(gather: &mut Gather, bytes: &[u8], writer: &mut W) -> Result<(), Device>
    ensures { IsGiven result (passage (W.written writer.old) (W.written writer.new) (W.failed writer.old) (W.failed writer.new))
        gather.old gather.new (flat_map byte_value bytes.now) }
{
    for byte in bytes {
        gather.room(3, writer)?;
        append_digits_after(gather, b' ', *byte);
    }
    Ok(())
}
