//! A row: its cells, neighbours of one style as one text.

ghost use Rattle.std.specs.Prelude.{◌≡◌, ◌+◌, ◌*◌, ◌<◌, ◌≤◌, ◌∷◌, ◌++◌, length, max, take, drop};
ghost use Rattle.escpos_command.specs.declared.line_width.TheConstants.{MOST_LINE_DOTS};
ghost use Rattle.escpos_io.specs.Giving.{IsGiven};
ghost use Rattle.escpos_io.specs.Putting.{passage};
ghost use Rattle.std.specs.Option.{unwrap_or};
ghost use Rattle.escpos_paper.specs.Cells.{reach_of};
ghost use Rattle.escpos_picture.specs.Rows.{run, runs, bytes_of, joins, same_count, turned_place, is_plain_size, scaled_place, text_place, text_class, characters_text, underline_text, text_start, run_tag, run_text, ground_text, run_marks, run_drawing, runs_drawing};
ghost use Rattle.escpos_picture.specs.Groups.{row_drawing, row_tag, base_line, row_start, row_turn};

use crate::characters::append_byte;
use crate::numbers::{append_between, append_place, append_quarters};
use crate::pen::{DEEPEST, face_height, indent, style_height, tallest, turned_end};
use escpos_command::{FontFace, LineWidth};
use escpos_io::{ByteOut, Device, GATHERED_BYTES, Gather, append_number, append_small_number};
use escpos_paper::{Cell, Cells, LINE_CELLS, Placing, Style, face_dots};

/// The most bytes that come before the cells of a row.
const START_BYTES: usize = 128;

const _: () = prove!(START_BYTES == 128);

/// The most bytes that neighbours of one style take.
const RUN_BYTES: usize = 1024;

const _: () = prove!(RUN_BYTES == 1024);

/// The furthest place of a run, in dots from the left end of the row: none is as far right.
const FURTHEST: usize = 16_777_216;

const _: () = prove!(FURTHEST == 16_777_216);

/// Gives the drawing of a row on a line of this width, whose upper edge is this many quarters of a dot down the paper.
///
/// On `Err` the sink has failed, and took exactly the first `written` of all bytes ever given to the gather, as long as these are
/// few enough to be counted.
pub fn put_row<W: ByteOut>(
    gather: &mut Gather,
    width: LineWidth,
    align: Placing,
    upside_down: bool,
    cells: &Cells,
    down: usize,
    writer: &mut W,
) -> Result<(), Device>
    requires { down ≤ DEEPEST }
    ensures { IsGiven result (passage (W.written writer.old) (W.written writer.new) (W.failed writer.old) (W.failed writer.new))
        gather.old gather.new (row_drawing width down align upside_down cells.now) }
{
    let row = cells.as_slice();
    gather.room(START_BYTES, writer)?;
    append_start(gather, width, align, upside_down, row, down);
    put_runs(gather, row, writer)?;
    gather.put(b"</g>\n", writer)
}

// Appends the tag of the group.
fn append_start(
    gather: &mut Gather,
    width: LineWidth,
    align: Placing,
    upside_down: bool,
    cells: &[Cell],
    down: usize,
)
    requires few { length cells.now ≤ LINE_CELLS }
    requires small { down ≤ DEEPEST }
    requires room { length gather.old.kept + START_BYTES ≤ GATHERED_BYTES }
    ensures kept { gather.new.kept ≡ gather.old.kept ++ row_tag width down align upside_down cells.now }
    ensures same_count { gather.new.written ≡ gather.old.written }
{
    gather.extend(b"<g class=\"row\" transform=\"translate(");
    append_place(
        gather,
        row_start(width, align, upside_down, reach(cells)),
        down + base_line(upside_down, tallest(cells)),
    );
    gather.extend(row_turn(upside_down));
}

// How far the base line of a row this tall is under its upper edge, in quarters of a dot.
fn base_line(upside_down: bool, height: usize) -> usize
    requires { height ≤ 6120 }
    ensures value { result ≡ base_line upside_down height }
    ensures small { result ≤ 18360 }
{
    if upside_down { height } else { 3 * height }
}

// Where a row begins that is this many dots wide.
fn row_start(width: LineWidth, align: Placing, upside_down: bool, dots: usize) -> usize
    ensures value { result ≡ row_start width align upside_down dots }
    ensures small { result ≤ MOST_LINE_DOTS }
{
    if upside_down {
        turned_end(width, align, dots)
    } else {
        indent(width, align, dots)
    }
}

fn row_turn(upside_down: bool) -> &'static [u8]
    ensures text { result.now ≡ row_turn upside_down }
    ensures short { length result.now ≤ 15 }
{
    if upside_down {
        b") rotate(180)\">"
    } else {
        b")\">"
    }
}

// How far right these cells reach, in dots.
fn reach(cells: &[Cell]) -> usize
    requires few { length cells.now ≤ LINE_CELLS }
    ensures value { result ≡ reach_of cells.now }
{
    let mut end = 0;
    let mut reach = 0;
    for cell in cells {
        end = left(end, cell.moved) + cell.style.dots();
        reach = end.max(reach);
    }
    reach
}

// The left edge of a cell after one that ends at this dot.
fn left(end: usize, moved: Option<u16>) -> usize
    ensures value { result ≡ unwrap_or moved end }
    ensures small { result ≤ max end 65535 }
{
    match moved {
        Some(dot) => usize::from(dot),
        None => end,
    }
}

// Gives the runs of these cells.
fn put_runs<W: ByteOut>(gather: &mut Gather, cells: &[Cell], writer: &mut W) -> Result<(), Device>
    requires few { length cells.now ≤ LINE_CELLS }
    ensures { IsGiven result (passage (W.written writer.old) (W.written writer.new) (W.failed writer.old) (W.failed writer.new))
        gather.old gather.new (runs_drawing 0 (runs cells.now)) }
{
    let mut rest = cells;
    let mut x = 0;
    while !rest.is_empty() {
        let (moved, style, count) = first_run(rest);
        let (run, following) = rest.split_at(count);
        let start = left(x, moved);
        gather.room(RUN_BYTES, writer)?;
        append_run(gather, start, &style, run);
        x = start + style.dots() * count;
        rest = following;
    }
    Ok(())
}

// Where the first run of these cells stands, if it doesn't follow the cell before it, its style, and how many cells it has.
fn first_run(cells: &[Cell]) -> (Option<u16>, Style, usize)
    requires { 0 < length cells.now }
    ensures run { runs cells.now ≡ (result.0, run result.1 (bytes_of (take result.2 cells.now))) ∷ runs (drop result.2 cells.now) }
    ensures some { 0 < result.2 }
    ensures inside { result.2 ≤ length cells.now }
{
    let style = cells[0].style;
    (cells[0].moved, style, 1 + same_count(&style, &cells[1..]))
}

// Whether a cell of this style and place joins one of the style before it.
#[inline]
fn joins(before: &Style, style: &Style, moved: Option<u16>) -> bool
    ensures { result ≡ joins before.now style.now moved }
{
    before.is_same(style) && moved.is_none() && !style.turned
}

// How many of these cells, which follow one of a style, come before the first that doesn't join the cell before it.
fn same_count(style: &Style, cells: &[Cell]) -> usize
    ensures value { result ≡ same_count style.now cells.now }
    ensures inside { result ≤ length cells.now }
{
    let mut before = *style;
    let mut count = 0;
    for cell in cells {
        if !joins(&before, &cell.style, cell.moved) {
            return count;
        }
        before = cell.style;
        count += 1;
    }
    count
}

// Appends cells of one style, this many dots from the left end of the row, in their colour.
#[tactic(auto, unfolding(crate::specs::Rows::run_drawing))]
fn append_run(gather: &mut Gather, x: usize, style: &Style, cells: &[Cell])
    requires few { length cells.now ≤ LINE_CELLS }
    requires near { x ≤ FURTHEST }
    requires room { length gather.old.kept + 320 + 6 * length cells.now ≤ GATHERED_BYTES }
    ensures kept { gather.new.kept ≡ gather.old.kept ++ run_drawing x (run style.now (bytes_of cells.now)) }
    ensures same_count { gather.new.written ≡ gather.old.written }
    ensures short { length gather.new.kept ≤ length gather.old.kept + 320 + 6 * length cells.now }
{
    if style.color == 0 {
        append_marks(gather, x, style, cells);
    } else {
        gather.extend(b"<g class=\"second\">");
        append_marks(gather, x, style, cells);
        gather.extend(b"</g>");
    }
}

// Appends cells of one style: white on black, or with their underline.
#[tactic(auto, unfolding(crate::specs::Rows::run_marks))]
fn append_marks(gather: &mut Gather, x: usize, style: &Style, cells: &[Cell])
    requires few { length cells.now ≤ LINE_CELLS }
    requires near { x ≤ FURTHEST }
    requires room { length gather.old.kept + 288 + 6 * length cells.now ≤ GATHERED_BYTES }
    ensures kept { gather.new.kept ≡ gather.old.kept ++ run_marks x (run style.now (bytes_of cells.now)) }
    ensures same_count { gather.new.written ≡ gather.old.written }
    ensures short { length gather.new.kept ≤ length gather.old.kept + 288 + 6 * length cells.now }
{
    if style.reverse {
        append_ground(gather, x, style, cells);
        append_run_text(gather, x, style, cells);
    } else {
        append_run_text(gather, x, style, cells);
        append_underline(gather, x, style, cells);
    }
}

// Appends the characters of cells of one style as a text.
fn append_run_text(gather: &mut Gather, x: usize, style: &Style, cells: &[Cell])
    requires few { length cells.now ≤ LINE_CELLS }
    requires near { x ≤ FURTHEST }
    requires room { length gather.old.kept + 160 + 6 * length cells.now ≤ GATHERED_BYTES }
    ensures kept { gather.new.kept ≡ gather.old.kept ++ run_text x (run style.now (bytes_of cells.now)) }
    ensures same_count { gather.new.written ≡ gather.old.written }
    ensures short { length gather.new.kept ≤ length gather.old.kept + 160 + 6 * length cells.now }
{
    append_run_tag(gather, x, style, cells);
    append_cells(gather, style, cells);
    gather.extend(b"</text>");
}

// Appends the black ground of cells of one style.
#[tactic(auto, unfolding(crate::specs::Rows::ground_text))]
fn append_ground(gather: &mut Gather, x: usize, style: &Style, cells: &[Cell])
    requires few { length cells.now ≤ LINE_CELLS }
    requires room { length gather.old.kept + 128 ≤ GATHERED_BYTES }
    ensures kept { gather.new.kept ≡ gather.old.kept ++ ground_text x (run style.now (bytes_of cells.now)) }
    ensures same_count { gather.new.written ≡ gather.old.written }
    ensures short { length gather.new.kept ≤ length gather.old.kept + 128 }
{
    let width = style.dots() * cells.len();
    let height = style_height(style);
    gather.extend(b"<path d=\"M");
    append_between(gather, b"", x, b" -");
    append_quarters(gather, 3 * height);
    append_between(gather, b"h", width, b"v");
    append_between(gather, b"", height, b"h-");
    append_between(gather, b"", width, b"z\"/>");
}

// Appends the tag before the characters of these cells.
#[tactic(auto, unfolding(crate::specs::Rows::run_tag))]
fn append_run_tag(gather: &mut Gather, x: usize, style: &Style, cells: &[Cell])
    requires few { length cells.now ≤ LINE_CELLS }
    requires near { x ≤ FURTHEST }
    requires room { length gather.old.kept + 145 ≤ GATHERED_BYTES }
    ensures kept { gather.new.kept ≡ gather.old.kept ++ run_tag x (run style.now (bytes_of cells.now)) }
    ensures same_count { gather.new.written ≡ gather.old.written }
    ensures short { length gather.new.kept ≤ length gather.old.kept + 145 }
{
    append_text_start(gather, x, style);
    let spacing = style.spacing as usize;
    let dots = (face_dots(style.font) + spacing) * cells.len();
    append_between(
        gather,
        b" textLength=\"",
        dots.saturating_sub(spacing),
        b"\">",
    );
}

// Appends the beginning of that tag.
#[tactic(auto, unfolding(crate::specs::Rows::text_start))]
fn append_text_start(gather: &mut Gather, x: usize, style: &Style)
    requires near { x ≤ FURTHEST }
    requires room { length gather.old.kept + 110 ≤ GATHERED_BYTES }
    ensures kept { gather.new.kept ≡ gather.old.kept ++ text_start x style.now }
    ensures same_count { gather.new.written ≡ gather.old.written }
    ensures short { length gather.new.kept ≤ length gather.old.kept + 110 }
{
    gather.extend(b"<text");
    append_text_place(gather, x, style);
    gather.extend(text_class(style));
}

// Appends where the text of a style begins.
#[tactic(auto, unfolding(crate::specs::Rows::text_place))]
fn append_text_place(gather: &mut Gather, x: usize, style: &Style)
    requires near { x ≤ FURTHEST }
    requires room { length gather.old.kept + 84 ≤ GATHERED_BYTES }
    ensures kept { gather.new.kept ≡ gather.old.kept ++ text_place x style.now }
    ensures same_count { gather.new.written ≡ gather.old.written }
    ensures short { length gather.new.kept ≤ length gather.old.kept + 84 }
{
    if style.turned {
        append_turned_place(gather, x, style);
    } else if is_plain_size(style) {
        append_between(gather, b" x=\"", x, b"\"");
    } else {
        append_scaled_place(gather, x, style);
    }
}

// Appends where the text of a style begins, and how it is scaled.
fn append_scaled_place(gather: &mut Gather, x: usize, style: &Style)
    requires { length gather.old.kept + 60 ≤ GATHERED_BYTES }
    ensures kept { gather.new.kept ≡ gather.old.kept ++ scaled_place x style.now }
    ensures same_count { gather.new.written ≡ gather.old.written }
    ensures short { length gather.new.kept ≤ length gather.old.kept + 60 }
{
    gather.extend(b" transform=\"matrix(");
    append_small_number(gather, style.width);
    gather.extend(b" 0 0 ");
    append_small_number(gather, style.height);
    append_between(gather, b" ", x, b" 0)\"");
}

// Appends where a character that is turned begins, and how it is scaled.
fn append_turned_place(gather: &mut Gather, x: usize, style: &Style)
    requires near { x ≤ FURTHEST }
    requires room { length gather.old.kept + 84 ≤ GATHERED_BYTES }
    ensures kept { gather.new.kept ≡ gather.old.kept ++ turned_place x style.now }
    ensures same_count { gather.new.written ≡ gather.old.written }
    ensures short { length gather.new.kept ≤ length gather.old.kept + 84 }
{
    gather.extend(b" transform=\"matrix(0 ");
    append_small_number(gather, style.width);
    gather.extend(b" -");
    append_small_number(gather, style.height);
    gather.extend(b" 0 ");
    append_quarters(
        gather,
        4 * x + face_height(style.font) * usize::from(style.height),
    );
    gather.extend(b" -");
    append_quarters(gather, 3 * style_height(style));
    gather.extend(b")\"");
}

// Whether a style isn't scaled.
fn is_plain_size(style: &Style) -> bool
    ensures { result ≡ is_plain_size style.now }
{
    style.width == 1 && style.height == 1
}

// The class of a style.
#[tactic(auto, unfolding(crate::specs::Rows::text_class))]
fn text_class(style: &Style) -> &'static [u8]
    ensures text { result.now ≡ text_class style.now }
    ensures short { length result.now ≤ 21 }
{
    match (style.font, style.bold || style.strike, style.reverse) {
        (FontFace::A, false, false) => b"",
        (FontFace::A, false, true) => b" class=\"white\"",
        (FontFace::A, true, false) => b" class=\"bold\"",
        (FontFace::A, true, true) => b" class=\"bold white\"",
        (FontFace::B, false, false) => b" class=\"B\"",
        (FontFace::B, false, true) => b" class=\"B white\"",
        (FontFace::B, true, false) => b" class=\"B bold\"",
        (FontFace::B, true, true) => b" class=\"B bold white\"",
    }
}

// Appends the characters of these cells, printed with the character set and the code table of a style.
fn append_cells(gather: &mut Gather, style: &Style, cells: &[Cell])
    requires { length gather.old.kept + 6 * length cells.now ≤ GATHERED_BYTES }
    ensures kept { gather.new.kept ≡ gather.old.kept ++ characters_text style.now.character_set style.now.table (bytes_of cells.now) }
    ensures same_count { gather.new.written ≡ gather.old.written }
    ensures short { length gather.new.kept ≤ length gather.old.kept + 6 * length cells.now }
{
    for cell in cells {
        append_byte(gather, style.character_set, style.table, cell.byte);
    }
}

// Appends the underline of cells of one style, if that has one.
#[tactic(auto, unfolding(crate::specs::Rows::underline_text))]
fn append_underline(gather: &mut Gather, x: usize, style: &Style, cells: &[Cell])
    requires few { length cells.now ≤ LINE_CELLS }
    requires room { length gather.old.kept + 128 ≤ GATHERED_BYTES }
    ensures kept { gather.new.kept ≡ gather.old.kept ++ underline_text x (run style.now (bytes_of cells.now)) }
    ensures same_count { gather.new.written ≡ gather.old.written }
    ensures short { length gather.new.kept ≤ length gather.old.kept + 128 }
{
    if style.underline == 0 || style.turned {
        return;
    }
    let width = style.dots() * cells.len();
    let height = face_height(style.font) * usize::from(style.height);
    gather.extend(b"<path d=\"M");
    append_number(gather, x);
    gather.push(b' ');
    append_quarters(
        gather,
        height.saturating_sub(4 * usize::from(style.underline)),
    );
    append_between(gather, b"h", width, b"v");
    append_small_number(gather, style.underline);
    append_between(gather, b"h-", width, b"z\"/>");
}
