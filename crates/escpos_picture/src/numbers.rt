//! Numbers of dots, appended to the bytes that a gather keeps back.

ghost use Rattle.std.specs.Prelude.{◌≡◌, ◌+◌, ◌≤◌, ◌++◌, length, codes, decimal};
ghost use Rattle.escpos_picture.specs.Numbers.{fraction, quarters};
ghost use Rattle.escpos_picture.specs.Places.{moved};

use crate::pen::{DEEPEST, MARGIN};
use escpos_io::{GATHERED_BYTES, Gather, append_number};

/// Appends a number of quarters of a dot, in dots: at most 23 bytes, for which there must be room.
pub fn append_quarters(gather: &mut Gather, count: usize)
    requires { length gather.old.kept + 23 ≤ GATHERED_BYTES }
    ensures kept { gather.new.kept ≡ gather.old.kept ++ quarters count }
    ensures same_count { gather.new.written ≡ gather.old.written }
    ensures short { length (quarters count) ≤ 23 }
{
    append_number(gather, count / 4);
    gather.extend(fraction(count % 4));
}

// The decimals of this many quarters, fewer than 4.
fn fraction(count: usize) -> &'static [u8]
    ensures text { result.now ≡ fraction count }
    ensures short { length result.now ≤ 3 }
{
    match count {
        0 => b"",
        1 => b".25",
        2 => b".5",
        _ => b".75",
    }
}

/// Appends a number between two texts.
pub fn append_between(gather: &mut Gather, before: &[u8], number: usize, after: &[u8])
    requires { length gather.old.kept + length before.now + 20 + length after.now ≤ GATHERED_BYTES }
    ensures kept { gather.new.kept ≡ gather.old.kept ++ before.now ++ decimal number ++ after.now }
    ensures same_count { gather.new.written ≡ gather.old.written }
    ensures short { length (decimal number) ≤ 20 }
{
    gather.extend(before);
    append_number(gather, number);
    gather.extend(after);
}

/// Appends the place of a group: so many dots from the left end of the line, and so many quarters of a dot under the top of the
/// first item.
pub fn append_place(gather: &mut Gather, x: usize, down: usize)
    requires near { x ≤ 4096 }
    requires small { down ≤ DEEPEST + 32768 }
    requires room { length gather.old.kept + 44 ≤ GATHERED_BYTES }
    ensures kept { gather.new.kept ≡ gather.old.kept ++ moved x down }
    ensures same_count { gather.new.written ≡ gather.old.written }
    ensures short { length (moved x down) ≤ 44 }
{
    append_number(gather, MARGIN + x);
    gather.push(b',');
    append_quarters(gather, 4 * MARGIN + down);
}
