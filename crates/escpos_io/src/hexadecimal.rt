//! Bytes printed as hexadecimal digits, two for each byte, in lower case.

ghost use Rattle.std.specs.Prelude.{◌≡◌, ◌+◌, ◌*◌, ◌≤◌, ◌++◌, length};
ghost use Rattle.hex.specs.Hex.{encode_lower};
ghost use Rattle.escpos_io.specs.Giving.{IsGiven};
ghost use Rattle.escpos_io.specs.Putting.{passage};

use crate::{ByteOut, Device, GATHERED_BYTES, Gather};

/// How many bytes are encoded at once.
const PART_BYTES: usize = 256;

/// Gives the digits of `bytes` to `gather`, part by part, which puts what it has no room for into `writer`.
/// Allocates nothing.
///
/// On `Err` the sink has failed, and took exactly the first `written` of all bytes ever given to the gather, as
/// long as these are few enough to be counted.
pub fn put_digits<W: ByteOut>(
    gather: &mut Gather,
    bytes: &[u8],
    writer: &mut W,
) -> Result<(), Device>
    ensures { IsGiven result (passage (W.written writer.old) (W.written writer.new) (W.failed writer.old) (W.failed writer.new))
        gather.old gather.new (encode_lower bytes.now) }
{
    for part in bytes.chunks(PART_BYTES) {
        gather.room(2 * PART_BYTES, writer)?;
        append_digits(gather, part);
    }
    Ok(())
}

// Appends the digits of one part.
fn append_digits(gather: &mut Gather, bytes: &[u8])
    requires few { length bytes.now ≤ PART_BYTES }
    requires room { length gather.old.kept + 2 * PART_BYTES ≤ GATHERED_BYTES }
    ensures kept { gather.new.kept ≡ gather.old.kept ++ encode_lower bytes.now }
    ensures same_count { gather.new.written ≡ gather.old.written }
{
    let mut room = [0; 2 * PART_BYTES];
    let digits = &mut room[..2 * bytes.len()];
    hex::encode_to_slice(bytes, digits).unwrap();
    gather.extend(digits);
}
