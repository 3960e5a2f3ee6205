//! Spans of dots of one colour, appended to the data of a path along the middle of a line.

ghost use Rattle.std.specs.Prelude.{◌≡◌, ◌+◌, ◌≤◌, ◌<◌, ◌++◌, [], ◌∷◌, length, codes, decimal, true, false};
ghost use Rattle.escpos_picture.specs.Spans.{span, span_text, line_start};

use crate::numbers::append_between;
use escpos_io::{GATHERED_BYTES, Gather};

/// The most bytes that a span takes.
pub const SPAN_BYTES: usize = 23;

/// The most bytes that the path of a line begins with.
pub const LINE_START_BYTES: usize = 34;

const _: () = prove!(SPAN_BYTES == 23);

const _: () = prove!(LINE_START_BYTES == 34);

/// Appends the beginning of the path of a line.
pub fn append_line_start(gather: &mut Gather, line: usize)
    requires { length gather.old.kept + LINE_START_BYTES ≤ GATHERED_BYTES }
    ensures kept { gather.new.kept ≡ gather.old.kept ++ line_start line }
    ensures same_count { gather.new.written ≡ gather.old.written }
    ensures short { length gather.new.kept ≤ length gather.old.kept + LINE_START_BYTES }
{
    append_between(gather, b"<path d=\"M0 ", line, b".5");
}

/// Appends a span of this many dots.
#[inline]
pub fn append_span(gather: &mut Gather, is_black: bool, dots: usize)
    requires { length gather.old.kept + SPAN_BYTES ≤ GATHERED_BYTES }
    ensures kept { gather.new.kept ≡ gather.old.kept ++ span_text (span is_black dots) }
    ensures same_count { gather.new.written ≡ gather.old.written }
    ensures short { length gather.new.kept ≤ length gather.old.kept + SPAN_BYTES }
{
    if dots < 10 {
        append_digit(gather, is_black, b'0' + dots as u8);
    } else if is_black {
        append_between(gather, b"h", dots, b"");
    } else {
        append_between(gather, b"m", dots, b" 0");
    }
}

// Appends a span whose number of dots is this digit.
#[inline]
fn append_digit(gather: &mut Gather, is_black: bool, digit: u8)
    requires { length gather.old.kept + SPAN_BYTES ≤ GATHERED_BYTES }
    ensures black { is_black ≡ true → gather.new.kept ≡ gather.old.kept ++ codes "h" ++ digit ∷ [] }
    ensures white { is_black ≡ false → gather.new.kept ≡ gather.old.kept ++ codes "m" ++ digit ∷ codes " 0" }
    ensures same_count { gather.new.written ≡ gather.old.written }
{
    if is_black {
        gather.extend(&[b'h', digit]);
    } else {
        gather.extend(&[b'm', digit, b' ', b'0']);
    }
}
