//! Numbers as text, appended to the bytes that a gather keeps back: in decimal, or a byte as two hexadecimal
//! digits.

ghost use Rattle.std.specs.Prelude.{◌≡◌, ◌+◌, ◌≤◌, [], ◌∷◌, ◌++◌, length, decimal};
ghost use Rattle.hex.specs.Hex.{encode_lower};

use crate::{GATHERED_BYTES, Gather};
use itoa::Buffer;

/// Appends a number in decimal: 20 digits at most, for which there must be room.
pub fn append_number(gather: &mut Gather, number: usize)
    requires { length gather.old.kept + 20 ≤ GATHERED_BYTES }
    ensures kept { gather.new.kept ≡ gather.old.kept ++ decimal number }
    ensures same_count { gather.new.written ≡ gather.old.written }
    ensures short { length (decimal number) ≤ 20 }
{
    let mut buffer = Buffer::new();
    gather.extend(buffer.format(number).as_bytes());
}

/// Appends a number up to 255 in decimal: three digits at most, for which there must be room.
pub fn append_small_number(gather: &mut Gather, number: u8)
    requires { length gather.old.kept + 3 ≤ GATHERED_BYTES }
    ensures kept { gather.new.kept ≡ gather.old.kept ++ decimal number }
    ensures same_count { gather.new.written ≡ gather.old.written }
    ensures short { length (decimal number) ≤ 3 }
{
    let mut buffer = Buffer::new();
    gather.extend(buffer.format(number).as_bytes());
}

/// Appends a byte as it is, then another as two hexadecimal digits in lower case; there must be room for the three.
#[inline]
pub fn append_digits_after(gather: &mut Gather, first: u8, byte: u8)
    requires { length gather.old.kept + 3 ≤ GATHERED_BYTES }
    ensures kept { gather.new.kept ≡ gather.old.kept ++ first ∷ encode_lower (byte ∷ []) }
    ensures same_count { gather.new.written ≡ gather.old.written }
    ensures short { length (encode_lower (byte ∷ [])) ≡ 2 }
{
    let mut text = [first; 3];
    hex::encode_to_slice([byte], &mut text[1..]).unwrap();
    gather.extend(&text);
}
