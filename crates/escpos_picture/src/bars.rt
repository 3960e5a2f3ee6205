//! Barcodes: bars between lines of text, or a box where no scanner would read the bars.

ghost use Rattle.std.specs.Prelude.{◌≡◌, ◌+◌, ◌*◌, ◌≤◌, ◌++◌, length, sum, true, []};
ghost use Rattle.escpos_command.specs.declared.line_width.TheConstants.{MOST_LINE_DOTS};
ghost use Rattle.escpos_command.specs.QrCodes.{most_qr_data};
ghost use Rattle.escpos_io.specs.Giving.{IsGiven};
ghost use Rattle.escpos_io.specs.Putting.{passage};
ghost use Rattle.escpos_barcode.specs.Drawn.{with_added};
ghost use Rattle.escpos_picture.specs.Rows.{characters_text};
ghost use Rattle.escpos_picture.specs.Spans.{spans_text, line_text};
ghost use Rattle.escpos_picture.specs.BarItems.{bar_spans, bars_frame, bars_group, bars_start, bars_end, scannable, box_frame, box_text, box, bars_drawing};

use crate::characters::append_byte;
use crate::label::{
    LABEL_BYTES, append_characters, append_label_above, append_label_below, bars_top,
};
use crate::numbers::{append_between, append_place};
use crate::pen::{DEEPEST, indent, whole_line};
use crate::span::{LINE_START_BYTES, SPAN_BYTES, append_line_start, append_span};
use escpos_barcode::laws::bars_fit;
use escpos_barcode::{interpretation, runs};
use escpos_command::{LineWidth, Symbology};
use escpos_io::{ByteOut, Device, GATHERED_BYTES, Gather, append_number};
use escpos_paper::{BarStyle, CONTENT_BYTES, Placing};

/// A barcode but for its content: where it stands and how it is printed.
#[derive(Clone, Copy, Debug, PartialEq, Eq)]
pub struct Symbol {
    /// Where it stands in the line.
    pub align: Placing,
    pub symbology: Symbology,
    pub style: BarStyle,
    /// The check digit that is added to the content.
    pub added: Option<u8>,
}

/// Gives the drawing of a barcode on a line of this width whose upper edge is this many quarters of a dot down the paper.
///
/// On `Err` the sink has failed, and took exactly the first `written` of all bytes ever given to the gather, as long as these are
/// few enough to be counted.
pub fn put_bars<W: ByteOut>(
    gather: &mut Gather,
    width: LineWidth,
    symbol: &Symbol,
    content: &[u8],
    down: usize,
    writer: &mut W,
) -> Result<(), Device>
    requires few { length content.now ≤ CONTENT_BYTES }
    requires small { down ≤ DEEPEST }
    ensures { IsGiven result (passage (W.written writer.old) (W.written writer.new) (W.failed writer.old) (W.failed writer.new))
        gather.old gather.new (bars_drawing width down symbol.now.align symbol.now.symbology symbol.now.style content.now symbol.now.added) }
{
    let module_width = symbol.style.module_width;
    match runs(width, symbol.symbology, module_width, content, symbol.added) {
        Some(runs) => {
            // Proof only: the runs fit on the line, which has no more than 1,024 dots.
            bars_fit();
            let _ = width.dots();
            let text = interpretation(symbol.symbology, content, symbol.added);
            put_scannable(
                gather,
                width,
                symbol,
                runs.as_slice(),
                text.as_slice(),
                down,
                writer,
            )
        }
        None => {
            gather.room(BOX_BYTES, writer)?;
            append_box(gather, width, &symbol.style, content, symbol.added, down);
            Ok(())
        }
    }
}

// Gives bars of these widths and spaces between them, with a text.
fn put_scannable<W: ByteOut>(
    gather: &mut Gather,
    width: LineWidth,
    symbol: &Symbol,
    widths: &[u8],
    text: &[u8],
    down: usize,
    writer: &mut W,
) -> Result<(), Device>
    requires narrow { sum widths.now ≤ MOST_LINE_DOTS }
    requires few { length text.now ≤ 512 }
    requires small { down ≤ DEEPEST }
    ensures { IsGiven result (passage (W.written writer.old) (W.written writer.new) (W.failed writer.old) (W.failed writer.new))
        gather.old gather.new (scannable width down symbol.now.align symbol.now.style text.now widths.now) }
{
    let dots = width_of(widths);
    gather.room(LABEL_BYTES + 512, writer)?;
    append_start(gather, width, symbol, dots, text, down);
    put_line(gather, widths, writer)?;
    gather.room(LABEL_BYTES + 64, writer)?;
    append_end(gather, &symbol.style, dots, text);
    Ok(())
}

// How wide bars and spaces are together.
fn width_of(widths: &[u8]) -> usize
    requires { sum widths.now ≤ MOST_LINE_DOTS }
    ensures { result ≡ sum widths.now }
{
    let mut sum = 0;
    for width in widths {
        sum += usize::from(*width);
    }
    sum
}

// Appends what comes before the bars.
fn append_start(
    gather: &mut Gather,
    width: LineWidth,
    symbol: &Symbol,
    dots: usize,
    text: &[u8],
    down: usize,
)
    requires narrow { dots ≤ MOST_LINE_DOTS }
    requires few { length text.now ≤ 512 }
    requires small { down ≤ DEEPEST }
    requires room { length gather.old.kept + LABEL_BYTES + 512 ≤ GATHERED_BYTES }
    ensures kept { gather.new.kept ≡ gather.old.kept ++ bars_start width down symbol.now.align symbol.now.style dots text.now }
    ensures same_count { gather.new.written ≡ gather.old.written }
{
    append_group(gather, width, symbol.align, dots, down);
    append_label_above(gather, &symbol.style, dots, text);
    append_frame(gather, &symbol.style, dots);
}

// Appends the tag of the group.
#[tactic(auto, unfolding(crate::specs::BarItems::bars_group))]
fn append_group(gather: &mut Gather, width: LineWidth, align: Placing, dots: usize, down: usize)
    requires small { down ≤ DEEPEST }
    requires room { length gather.old.kept + 96 ≤ GATHERED_BYTES }
    ensures kept { gather.new.kept ≡ gather.old.kept ++ bars_group width down align dots }
    ensures same_count { gather.new.written ≡ gather.old.written }
    ensures short { length gather.new.kept ≤ length gather.old.kept + 96 }
{
    gather.extend(b"<g class=\"bars\" transform=\"translate(");
    append_place(gather, indent(width, align, dots), down);
    gather.extend(b")\">\n");
}

// Appends the frame that stretches a line of dots to the height of the bars.
#[tactic(auto, unfolding(crate::specs::BarItems::bars_frame))]
fn append_frame(gather: &mut Gather, style: &BarStyle, width: usize)
    requires room { length gather.old.kept + 192 ≤ GATHERED_BYTES }
    ensures kept { gather.new.kept ≡ gather.old.kept ++ bars_frame style.now width }
    ensures same_count { gather.new.written ≡ gather.old.written }
{
    append_between(gather, b"<svg y=\"", bars_top(style), b"\" width=\"");
    append_number(gather, width);
    append_between(
        gather,
        b"\" height=\"",
        usize::from(style.height),
        b"\" viewBox=\"0 0 ",
    );
    append_between(gather, b"", width, b" 1\" preserveAspectRatio=\"none\">\n");
}

// Gives bars of these widths and the spaces between them, as one line.
fn put_line<W: ByteOut>(gather: &mut Gather, widths: &[u8], writer: &mut W) -> Result<(), Device>
    ensures { IsGiven result (passage (W.written writer.old) (W.written writer.new) (W.failed writer.old) (W.failed writer.new))
        gather.old gather.new (line_text 0 (bar_spans true widths.now)) }
{
    if widths.is_empty() {
        return Ok(());
    }
    gather.room(LINE_START_BYTES, writer)?;
    append_line_start(gather, 0);
    put_bar_spans(gather, widths, writer)?;
    gather.put(b"\"/>\n", writer)
}

// Gives the spans of bars of these widths and the spaces between them.
fn put_bar_spans<W: ByteOut>(
    gather: &mut Gather,
    widths: &[u8],
    writer: &mut W,
) -> Result<(), Device>
    ensures { IsGiven result (passage (W.written writer.old) (W.written writer.new) (W.failed writer.old) (W.failed writer.new))
        gather.old gather.new (spans_text (bar_spans true widths.now)) }
{
    let mut is_bar = true;
    for width in widths {
        gather.room(SPAN_BYTES, writer)?;
        append_span(gather, is_bar, usize::from(*width));
        is_bar = !is_bar;
    }
    Ok(())
}

// Appends what comes after the bars.
fn append_end(gather: &mut Gather, style: &BarStyle, width: usize, text: &[u8])
    requires narrow { width ≤ MOST_LINE_DOTS }
    requires few { length text.now ≤ 512 }
    requires room { length gather.old.kept + LABEL_BYTES + 64 ≤ GATHERED_BYTES }
    ensures kept { gather.new.kept ≡ gather.old.kept ++ bars_end style.now width text.now }
    ensures same_count { gather.new.written ≡ gather.old.written }
{
    gather.extend(b"</svg>\n");
    append_label_below(gather, style, width, text);
    gather.extend(b"</g>\n");
}

// The most bytes that a box takes.
const BOX_BYTES: usize = 2304;

const _: () = prove!(BOX_BYTES == 2304);

// Appends a box with a content that no scanner would read.
fn append_box(
    gather: &mut Gather,
    width: LineWidth,
    style: &BarStyle,
    content: &[u8],
    added: Option<u8>,
    down: usize,
)
    requires few { length content.now ≤ CONTENT_BYTES }
    requires small { down ≤ DEEPEST }
    requires room { length gather.old.kept + BOX_BYTES ≤ GATHERED_BYTES }
    ensures kept { gather.new.kept ≡ gather.old.kept ++ box width down style.now (with_added content.now added) }
    ensures same_count { gather.new.written ≡ gather.old.written }
{
    let top = bars_top(style);
    let height = usize::from(style.height);
    let line_dots = usize::from(width.dots());
    append_group(gather, width, whole_line(), line_dots, down);
    append_box_frame(gather, width, top, height);
    append_box_text(gather, width, top, height, shown_len(content, added));
    append_characters(gather, content);
    append_added(gather, added);
    gather.extend(b"</text></svg>\n</g>\n");
}

// How many characters a content has with the check digit that is added to it.
fn shown_len(content: &[u8], added: Option<u8>) -> usize
    requires { length content.now ≤ CONTENT_BYTES }
    ensures value { result ≡ length (with_added content.now added) }
    ensures few { result ≤ 256 }
{
    match added {
        Some(_) => content.len() + 1,
        None => content.len(),
    }
}

/// Appends the frame of a box as wide as the line.
#[tactic(auto, unfolding(crate::specs::BarItems::box_frame))]
pub fn append_box_frame(gather: &mut Gather, width: LineWidth, top: usize, height: usize)
    requires room { length gather.old.kept + 192 ≤ GATHERED_BYTES }
    ensures kept { gather.new.kept ≡ gather.old.kept ++ box_frame width top height }
    ensures same_count { gather.new.written ≡ gather.old.written }
    ensures short { length gather.new.kept ≤ length gather.old.kept + 192 }
{
    let line_dots = usize::from(width.dots());
    append_between(gather, b"<svg y=\"", top, b"\" width=\"");
    append_between(gather, b"", line_dots, b"\" height=\"");
    append_number(gather, height);
    append_between(
        gather,
        b"\"><rect class=\"box\" width=\"",
        line_dots,
        b"\" height=\"",
    );
    append_between(gather, b"", height, b"\"/></svg>\n");
}

/// Appends the texts of a box, up to its content of so many characters.
#[tactic(auto, unfolding(crate::specs::BarItems::box_text))]
pub fn append_box_text(
    gather: &mut Gather,
    width: LineWidth,
    top: usize,
    height: usize,
    count: usize,
)
    requires few { count ≤ most_qr_data }
    requires room { length gather.old.kept + 384 ≤ GATHERED_BYTES }
    ensures kept { gather.new.kept ≡ gather.old.kept ++ box_text width top height count }
    ensures same_count { gather.new.written ≡ gather.old.written }
    ensures short { length gather.new.kept ≤ length gather.old.kept + 384 }
{
    append_between(gather, b"<svg y=\"", top, b"\" width=\"");
    append_between(gather, b"", usize::from(width.dots()), b"\" height=\"");
    append_number(gather, height);
    gather.extend(
        b"\" viewBox=\"0 0 512 48\"><text class=\"middle\" x=\"256\" y=\"18\">not scannable</text><text class=\"middle\" x=\"256\" y=\"42\" textLength=\"",
    );
    append_between(
        gather,
        b"",
        (12 * count).min(496),
        b"\" lengthAdjust=\"spacingAndGlyphs\">",
    );
}

// Appends a check digit that is added.
fn append_added(gather: &mut Gather, added: Option<u8>)
    requires room { length gather.old.kept + 6 ≤ GATHERED_BYTES }
    ensures kept { gather.new.kept ≡ gather.old.kept ++ characters_text 0 0 (with_added [] added) }
    ensures same_count { gather.new.written ≡ gather.old.written }
    ensures short { length gather.new.kept ≤ length gather.old.kept + 6 }
{
    if let Some(number) = added {
        append_byte(gather, 0, 0, b'0' + number % 10);
    }
}
