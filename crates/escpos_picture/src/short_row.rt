//! The text of short rows, over the bytes of a buffer.
//!
//! A copy whose length the compiler knows takes a fraction of the time of one that is as long as each text. So all places of a
//! text are copied, and only those that it takes are counted; the next text is written over the others. White bytes, too, are
//! copied and not counted: a branch that depends on the dots takes longer than both copies, where white and black bytes come in no
//! order.

ghost use Rattle.std.specs.Prelude.{◌≡◌, ◌+◌, ◌*◌, ◌≤◌, ◌<◌, ◌++◌, length, take, false};
ghost use Rattle.escpos_picture.specs.Spans.{row_spans, spans_text, passed};
ghost use Rattle.escpos_picture.specs.Steps.{step_text, steps_text};
ghost use Rattle.escpos_picture.specs.ByteSpans.{byte_step, white_after, inner_rows_text};
ghost use Rattle.escpos_picture.specs.Rasters.{row_end, row_steps, rows_of};

use crate::byte_spans::{BYTE_SPANS_BYTES, byte_places, length_of};
use crate::moves::{
    MOVE_BYTES, SHORT_ROW_BYTES, back_length, back_places, white_length, white_places,
};

/// The most bytes that a byte of a row takes, with the white ones before it.
pub const STEP_BYTES: usize = BYTE_SPANS_BYTES + MOVE_BYTES;

const _: () = prove!(STEP_BYTES == 32);

/// Writes rows of `x` bytes each, none of which is the last of its path, over the bytes from `len` on: as many as there are and have
/// room, and at most so many. Returns how many bytes there are then, and how many rows were written.
#[inline]
pub fn append_rows(
    bytes: &mut [u8],
    len: usize,
    dots: &[u8],
    x: usize,
    most: usize,
) -> (usize, usize)
    requires short { 0 < most → x ≤ SHORT_ROW_BYTES }
    requires inside { len ≤ length bytes.old }
    ensures text { take result.0 bytes.new ≡ take len bytes.old ++ inner_rows_text (rows_of x result.1 dots.now) }
    ensures len { result.0 ≤ length bytes.old }
    ensures most { result.1 ≤ most }
    ensures within { x * result.1 ≤ length dots.now }
{
    // The compiler leaves out the loop over the bytes of a row where it knows how few there are.
    match x {
        1 => append_equal_rows(bytes, len, dots, 1, most),
        2 => append_equal_rows(bytes, len, dots, 2, most),
        3 => append_equal_rows(bytes, len, dots, 3, most),
        _ => append_equal_rows(bytes, len, dots, x, most),
    }
}

// `append_rows` at a number of bytes that the compiler may know.
#[inline(always)]
fn append_equal_rows(
    bytes: &mut [u8],
    len: usize,
    dots: &[u8],
    x: usize,
    most: usize,
) -> (usize, usize)
    requires short { 0 < most → x ≤ SHORT_ROW_BYTES }
    requires inside { len ≤ length bytes.old }
    ensures text { take result.0 bytes.new ≡ take len bytes.old ++ inner_rows_text (rows_of x result.1 dots.now) }
    ensures len { result.0 ≤ length bytes.old }
    ensures most { result.1 ≤ most }
    ensures within { x * result.1 ≤ length dots.now }
{
    let mut end = len;
    let mut rest = dots;
    let mut count = 0;
    while count < most && x <= rest.len() && STEP_BYTES * x + MOVE_BYTES <= bytes.len() - end {
        let (row, below) = rest.split_at(x);
        end = append_row(bytes, end, row, false);
        rest = below;
        count += 1;
    }
    (end, count)
}

/// Writes a row, which is the last of its path or isn't, over the bytes from `len` on. Returns how many bytes there are then.
#[inline(always)]
pub fn append_row(bytes: &mut [u8], len: usize, row: &[u8], is_last: bool) -> usize
    requires short { length row.now ≤ SHORT_ROW_BYTES }
    requires room { len + (STEP_BYTES * length row.now + MOVE_BYTES) ≤ length bytes.old }
    ensures text { take result bytes.new ≡ take len bytes.old ++ steps_text (row_steps is_last row.now) }
    ensures len { result ≤ len + (STEP_BYTES * length row.now + MOVE_BYTES) }
{
    let (end, count) = append_spans(bytes, len, row);
    append_end(bytes, end, is_last, count)
}

// Writes the spans of a row over the bytes from `len` on. Returns how many bytes there are then, and how many bytes of the row the
// spans pass.
#[inline(always)]
fn append_spans(bytes: &mut [u8], len: usize, row: &[u8]) -> (usize, usize)
    requires short { length row.now ≤ SHORT_ROW_BYTES }
    requires room { len + STEP_BYTES * length row.now ≤ length bytes.old }
    ensures text { take result.0 bytes.new ≡ take len bytes.old ++ spans_text (row_spans 0 row.now) }
    ensures len { result.0 ≤ len + STEP_BYTES * length row.now }
    ensures passed { 8 * result.1 ≡ passed (row_spans 0 row.now) }
    ensures within { result.1 ≤ length row.now }
{
    let mut end = len;
    let mut white = 0;
    for byte in row {
        (end, white) = append_byte(bytes, end, white, *byte);
    }
    (end, row.len() - white)
}

// Writes the spans of a byte over the bytes from `len` on, and before them so many white bytes, if it has a black dot. Returns how
// many bytes there are then, and how many white ones come right before the next byte of the row.
#[inline(always)]
fn append_byte(bytes: &mut [u8], len: usize, white: usize, byte: u8) -> (usize, usize)
    requires few { white ≤ SHORT_ROW_BYTES }
    requires room { len + STEP_BYTES ≤ length bytes.old }
    ensures text { take result.0 bytes.new ≡ take len bytes.old ++ byte_step white byte }
    ensures len { result.0 ≤ len + STEP_BYTES }
    ensures white { result.1 ≡ white_after white byte }
{
    let black = count_of_black(byte);
    let start = append_front(bytes, len, white_places(white), black * white_length(white));
    let end = append_front(bytes, start, byte_places(byte), black * length_of(byte));
    (end, (1 - black) * (white + 1))
}

// 1 if a byte has a black dot, otherwise 0.
#[inline(always)]
fn count_of_black(byte: u8) -> usize
    ensures none { byte ≡ 0 → result ≡ 0 }
    ensures some { (byte ≡ 0 → ⊥) → result ≡ 1 }
    ensures small { result ≤ 1 }
{
    usize::from(byte != 0)
}

// Writes the end of a row over the bytes from `len` on: of its path, or the way back over so many bytes. Returns how many bytes
// there are then.
#[inline(always)]
fn append_end(bytes: &mut [u8], len: usize, is_last: bool, count: usize) -> usize
    requires few { count ≤ SHORT_ROW_BYTES }
    requires room { len + MOVE_BYTES ≤ length bytes.old }
    ensures text { take result bytes.new ≡ take len bytes.old ++ step_text (row_end is_last (8 * count)) }
    ensures len { result ≤ len + MOVE_BYTES }
{
    if is_last {
        append_front(bytes, len, b"\"/>\n", 4)
    } else {
        append_front(bytes, len, back_places(count), back_length(count))
    }
}

// Writes all places over the bytes from `len` on, of which the first so many count. Returns how many bytes there are then.
#[inline(always)]
fn append_front(bytes: &mut [u8], len: usize, places: &[u8], count: usize) -> usize
    requires few { count ≤ length places.now }
    requires room { len + length places.now ≤ length bytes.old }
    ensures text { take result bytes.new ≡ take len bytes.old ++ take count places.now }
    ensures value { result ≡ len + count }
{
    copy_in(bytes, len, places);
    len + count
}

// Writes a part over the bytes from this place on.
#[inline(always)]
fn copy_in(bytes: &mut [u8], start: usize, part: &[u8])
    requires { start + length part.now ≤ length bytes.old }
    ensures front { take (start + length part.now) bytes.new ≡ take start bytes.old ++ part.now }
    ensures len { length bytes.new ≡ length bytes.old }
{
    bytes[start..start + part.len()].copy_from_slice(part);
}
