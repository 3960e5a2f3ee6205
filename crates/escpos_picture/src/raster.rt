//! Rasters: each band of rows as a path.

ghost use Rattle.std.specs.Prelude.{◌≡◌, ◌==◌, ◌||◌, ◌*◌, ◌+◌, ◌%◌, ◌≤◌, ◌<◌, ◌++◌, [], length, take, drop, true, OnOk};
ghost use Rattle.escpos_io.specs.Giving.{IsGiven};
ghost use Rattle.escpos_io.specs.Putting.{passage};
ghost use Rattle.escpos_picture.specs.Spans.{spans_text, white_span, byte_spans_text};
ghost use Rattle.escpos_picture.specs.Steps.{step_text, steps_text};
ghost use Rattle.escpos_picture.specs.SpanBuffer.{IsGivenInPart};
ghost use Rattle.escpos_picture.specs.Rasters.{rows_of, begins_band, band_start, row_end, row_steps, rows_text};
ghost use Rattle.escpos_picture.specs.Groups.{scale_text, raster_start, raster_drawing};

use crate::byte_spans::{byte_places, length_of};
use crate::moves::{MOVE_BYTES, SHORT_ROW_BYTES};
use crate::numbers::{append_between, append_place};
use crate::pen::{DEEPEST, across, downwards, indent};
use crate::short_row::STEP_BYTES;
use crate::span::{LINE_START_BYTES, append_line_start, append_span};
use crate::span_buffer::{SPAN_BUFFER_BYTES, SpanBuffer};
use escpos_command::{LineWidth, Scale};
use escpos_io::{ByteOut, Device, GATHERED_BYTES, Gather};
use escpos_paper::{DOT_BYTES, Dots, Placing};

/// The most bytes that come before the rows of a raster.
const START_BYTES: usize = 256;

const _: () = prove!(START_BYTES == 256);

/// The rows that share a path. With a path for each row, rasters a byte wide take nearly twice the bytes; with one path for a
/// raster, an attribute may have more than 10 million bytes, which readers of XML refuse.
const BAND_ROWS: usize = 64;

const _: () = prove!(BAND_ROWS == 64);

/// The size of a raster and how it is printed.
#[derive(Clone, Copy, Debug, PartialEq, Eq)]
pub struct Frame {
    /// Where it stands in the line.
    pub align: Placing,
    /// How its dots are scaled.
    pub scale: Scale,
    /// The bytes in each row.
    pub x: u16,
    /// The rows.
    pub y: u16,
}

/// Gives the drawing of a raster on a line of this width whose upper edge is this many quarters of a dot down the paper.
///
/// On `Err` the sink has failed, and took exactly the first `written` of all bytes ever given to the gather, as long as these are
/// few enough to be counted.
pub fn put_raster<W: ByteOut>(
    gather: &mut Gather,
    width: LineWidth,
    frame: &Frame,
    dots: &Dots,
    down: usize,
    writer: &mut W,
) -> Result<(), Device>
    requires { down ≤ DEEPEST }
    ensures { IsGiven result (passage (W.written writer.old) (W.written writer.new) (W.failed writer.old) (W.failed writer.new))
        gather.old gather.new (raster_drawing width down frame.now.align frame.now.scale frame.now.x frame.now.y dots.now) }
{
    gather.room(START_BYTES, writer)?;
    append_start(gather, width, frame, down);
    put_rows(
        gather,
        usize::from(frame.x),
        usize::from(frame.y),
        dots.as_slice(),
        writer,
    )?;
    gather.put(b"</g></g>\n", writer)
}

// Appends what comes before the rows.
#[tactic(auto, unfolding(crate::specs::Groups::raster_start))]
fn append_start(gather: &mut Gather, width: LineWidth, frame: &Frame, down: usize)
    requires small { down ≤ DEEPEST }
    requires room { length gather.old.kept + START_BYTES ≤ GATHERED_BYTES }
    ensures kept { gather.new.kept ≡ gather.old.kept ++ raster_start width down frame.now.align frame.now.scale frame.now.x }
    ensures same_count { gather.new.written ≡ gather.old.written }
{
    let dots = 8 * usize::from(frame.x) * across(frame.scale);
    gather.extend(b"<g class=\"raster\" transform=\"translate(");
    append_place(gather, indent(width, frame.align, dots), down);
    append_scale(gather, frame.scale);
}

// Appends how the dots are scaled.
#[tactic(auto, unfolding(crate::specs::Groups::scale_text))]
fn append_scale(gather: &mut Gather, scale: Scale)
    requires room { length gather.old.kept + 96 ≤ GATHERED_BYTES }
    ensures kept { gather.new.kept ≡ gather.old.kept ++ scale_text scale }
    ensures same_count { gather.new.written ≡ gather.old.written }
{
    append_between(gather, b")\"><g transform=\"scale(", across(scale), b",");
    append_between(gather, b"", downwards(scale), b")\">\n");
}

// Gives this many rows of this many bytes each. Those within a band are appended together: a `Result` for each takes longer than the
// text of a byte.
fn put_rows<W: ByteOut>(
    gather: &mut Gather,
    x: usize,
    y: usize,
    dots: &[u8],
    writer: &mut W,
) -> Result<(), Device>
    requires few { length dots.now ≤ DOT_BYTES }
    ensures { IsGiven result (passage (W.written writer.old) (W.written writer.new) (W.failed writer.old) (W.failed writer.new))
        gather.old gather.new (rows_text 0 (rows_of x y dots.now)) }
{
    let mut spans = SpanBuffer::new();
    let mut rest = dots;
    let mut line = 0;
    while line < y {
        let (row, below) = row_and_rest(rest, x);
        put_line(gather, &mut spans, line, row, ends_path(line, y), writer)?;
        let count = spans.append_rows(below, x, inner_rows(line + 1, x, y));
        rest = &below[x * count..];
        line += 1 + count;
    }
    put_spans(gather, &mut spans, writer)
}

// How many rows of `y` from this one on are short, and neither the first nor the last of their path.
#[inline]
fn inner_rows(line: usize, x: usize, y: usize) -> usize
    requires { line ≤ y }
    ensures short { 0 < result → x ≤ SHORT_ROW_BYTES }
    ensures after_the_first { 0 < result → 0 < line % BAND_ROWS }
    ensures within_the_band { line % BAND_ROWS + result < BAND_ROWS }
    ensures before_the_last { 0 < result → line + result < y }
{
    let place = line % BAND_ROWS;
    if place == 0 || line == y || x > SHORT_ROW_BYTES {
        return 0;
    }
    (BAND_ROWS - 1 - place).min(y - 1 - line)
}

// Whether a path ends after this row, one of `y`.
#[inline]
fn ends_path(line: usize, y: usize) -> bool
    requires { line < y }
    ensures { result ≡ (begins_band (line + 1) || (line + 1 == y)) }
{
    (line + 1) % BAND_ROWS == 0 || line + 1 == y
}

// The first so many bytes, or all if there are fewer, and those after them.
#[inline]
fn row_and_rest(dots: &[u8], x: usize) -> (&[u8], &[u8])
    ensures row { result.0.now ≡ take x dots.now }
    ensures rest { result.1.now ≡ drop x dots.now }
{
    if x < dots.len() {
        dots.split_at(x)
    } else {
        (dots, &[])
    }
}

// Gives a row, after the beginning of its path where a band begins.
#[inline]
fn put_line<W: ByteOut>(
    gather: &mut Gather,
    spans: &mut SpanBuffer,
    line: usize,
    row: &[u8],
    is_last: bool,
    writer: &mut W,
) -> Result<(), Device>
    requires few { length row.now ≤ DOT_BYTES }
    ensures { IsGivenInPart result (passage (W.written writer.old) (W.written writer.new) (W.failed writer.old) (W.failed writer.new))
        gather.old gather.new spans.old.text spans.new.text
        (steps_text (band_start line) ++ steps_text (row_steps is_last row.now)) }
{
    put_start(gather, spans, line, writer)?;
    put_row(gather, spans, row, is_last, writer)
}

// Gives the beginning of a path where a band begins, and otherwise nothing.
#[inline]
fn put_start<W: ByteOut>(
    gather: &mut Gather,
    spans: &mut SpanBuffer,
    line: usize,
    writer: &mut W,
) -> Result<(), Device>
    ensures { IsGivenInPart result (passage (W.written writer.old) (W.written writer.new) (W.failed writer.old) (W.failed writer.new))
        gather.old gather.new spans.old.text spans.new.text
        (steps_text (band_start line)) }
{
    if line % BAND_ROWS != 0 {
        return Ok(());
    }
    put_spans(gather, spans, writer)?;
    gather.room(LINE_START_BYTES, writer)?;
    append_line_start(gather, line);
    Ok(())
}

// Gives a row.
#[inline]
fn put_row<W: ByteOut>(
    gather: &mut Gather,
    spans: &mut SpanBuffer,
    row: &[u8],
    is_last: bool,
    writer: &mut W,
) -> Result<(), Device>
    requires few { length row.now ≤ DOT_BYTES }
    ensures { IsGivenInPart result (passage (W.written writer.old) (W.written writer.new) (W.failed writer.old) (W.failed writer.new))
        gather.old gather.new spans.old.text spans.new.text
        (steps_text (row_steps is_last row.now)) }
{
    if row.len() > SHORT_ROW_BYTES {
        put_spans(gather, spans, writer)?;
        return put_long_row(gather, row, is_last, writer);
    }
    make_room(gather, spans, row.len(), writer)?;
    spans.append_row(row, is_last);
    Ok(())
}

// Makes room in the buffer for a row of this many bytes.
#[inline]
fn make_room<W: ByteOut>(
    gather: &mut Gather,
    spans: &mut SpanBuffer,
    count: usize,
    writer: &mut W,
) -> Result<(), Device>
    requires { count ≤ SHORT_ROW_BYTES }
    ensures given { IsGivenInPart result (passage (W.written writer.old) (W.written writer.new) (W.failed writer.old) (W.failed writer.new))
        gather.old gather.new spans.old.text spans.new.text [] }
    ensures room { OnOk result (length spans.new.text + (STEP_BYTES * count + MOVE_BYTES) ≤ SPAN_BUFFER_BYTES) }
{
    if spans.has_room(count) {
        return Ok(());
    }
    put_spans(gather, spans, writer)
}

// Gives what waits in the buffer.
#[inline(never)]
fn put_spans<W: ByteOut>(
    gather: &mut Gather,
    spans: &mut SpanBuffer,
    writer: &mut W,
) -> Result<(), Device>
    ensures given { IsGiven result (passage (W.written writer.old) (W.written writer.new) (W.failed writer.old) (W.failed writer.new))
        gather.old gather.new spans.old.text }
    ensures nothing_waits { OnOk result (spans.new.text ≡ []) }
{
    gather.put(spans.as_slice(), writer)?;
    spans.clear();
    Ok(())
}

// Gives a row that may be too long for the buffer. No command prints one, but an item can have one.
#[cold]
fn put_long_row<W: ByteOut>(
    gather: &mut Gather,
    row: &[u8],
    is_last: bool,
    writer: &mut W,
) -> Result<(), Device>
    requires few { length row.now ≤ DOT_BYTES }
    ensures { IsGiven result (passage (W.written writer.old) (W.written writer.new) (W.failed writer.old) (W.failed writer.new))
        gather.old gather.new (steps_text (row_steps is_last row.now)) }
{
    let mut white = 0;
    for byte in row {
        if *byte == 0 {
            white += 8;
            continue;
        }
        gather.room(LONG_STEP_BYTES, writer)?;
        append_byte(gather, white, *byte);
        white = 0;
    }
    gather.room(LONG_STEP_BYTES, writer)?;
    append_end(gather, is_last, 8 * row.len() - white);
    Ok(())
}

// The most bytes that the spans of a byte take with the white dots before it, and the most that the end of a row does.
const LONG_STEP_BYTES: usize = 47;

const _: () = prove!(LONG_STEP_BYTES == 47);

// Appends so many white dots and the spans of a byte.
fn append_byte(gather: &mut Gather, white: usize, byte: u8)
    requires { length gather.old.kept + LONG_STEP_BYTES ≤ GATHERED_BYTES }
    ensures kept { gather.new.kept ≡ gather.old.kept ++ spans_text (white_span white) ++ byte_spans_text byte }
    ensures same_count { gather.new.written ≡ gather.old.written }
{
    if white > 0 {
        append_span(gather, false, white);
    }
    gather.extend(&byte_places(byte)[..length_of(byte)]);
}

// Appends the end of a row: of its path, or the way back over so many dots.
fn append_end(gather: &mut Gather, is_last: bool, dots: usize)
    requires { length gather.old.kept + LONG_STEP_BYTES ≤ GATHERED_BYTES }
    ensures kept { gather.new.kept ≡ gather.old.kept ++ step_text (row_end is_last dots) }
    ensures same_count { gather.new.written ≡ gather.old.written }
{
    if is_last {
        gather.extend(b"\"/>\n");
    } else {
        append_between(gather, b"m-", dots, b" 1");
    }
}
