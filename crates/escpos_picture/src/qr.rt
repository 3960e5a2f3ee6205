//! QR codes: a box as large as the code, with its content in it.

ghost use Rattle.std.specs.Prelude.{◌≡◌, ◌+◌, ◌≤◌, ◌++◌, IfSome, length, take, drop, true};
ghost use Rattle.std.specs.List.{list_all};
ghost use Rattle.escpos_command.specs.declared.line_width.TheConstants.{MOST_LINE_DOTS};
ghost use Rattle.escpos_command.specs.QrCodes.{most_qr_data};
ghost use Rattle.escpos_io.specs.Giving.{IsGiven};
ghost use Rattle.escpos_io.specs.Putting.{passage};
ghost use Rattle.escpos_picture.specs.Characters.{stands_as_it_is};
ghost use Rattle.escpos_picture.specs.Rows.{characters_text};
ghost use Rattle.escpos_picture.specs.QrItems.{qr_group, qr_frame, qr_text, qr_start, qr_drawing};
ghost use Rattle.escpos_picture.specs.QrSides.{qr_side, qr_height};

use crate::bars::{append_box_frame, append_box_text};
use crate::characters::{CHARACTER_BYTES, append_byte};
use crate::numbers::{append_between, append_place};
use crate::pen::{DEEPEST, indent, whole_line};
use escpos_barcode::qr_modules;
use escpos_command::{Correction, LineWidth};
use escpos_io::{ByteOut, Device, GATHERED_BYTES, Gather, append_number};
use escpos_paper::Placing;

/// The height of the box of a QR code that a printer would not print, in dots.
pub const BOX_HEIGHT: usize = 48;

const _: () = prove!(BOX_HEIGHT == 48);

// The side of the smallest QR code that holds a content, in dots; `None` where there is none that fits on the line.
fn qr_side(width: LineWidth, size: u8, level: Correction, content: &[u8]) -> Option<usize>
    requires { length content.now ≤ most_qr_data }
    ensures side { result ≡ qr_side width size level content.now }
    ensures small { IfSome result (λ side. side ≤ MOST_LINE_DOTS) }
{
    let line_dots = usize::from(width.dots());
    let side = usize::from(size) * qr_modules(level, content)?;
    if side <= line_dots { Some(side) } else { None }
}

/// How high a QR code is drawn on a line of this width, in dots.
pub fn qr_height(width: LineWidth, size: u8, level: Correction, content: &[u8]) -> usize
    requires { length content.now ≤ most_qr_data }
    ensures height { result ≡ qr_height width size level content.now }
    ensures small { result ≤ MOST_LINE_DOTS }
{
    match qr_side(width, size, level, content) {
        Some(side) => side,
        None => BOX_HEIGHT,
    }
}

/// Gives the drawing of a QR code on a line of this width whose upper edge is this many quarters of a dot down the paper.
///
/// On `Err` the sink has failed, and took exactly the first `written` of all bytes ever given to the gather, as long as these are
/// few enough to be counted.
pub fn put_qr<W: ByteOut>(
    gather: &mut Gather,
    width: LineWidth,
    align: Placing,
    size: u8,
    level: Correction,
    content: &[u8],
    down: usize,
    writer: &mut W,
) -> Result<(), Device>
    requires few { length content.now ≤ most_qr_data }
    requires small { down ≤ DEEPEST }
    ensures { IsGiven result (passage (W.written writer.old) (W.written writer.new) (W.failed writer.old) (W.failed writer.new))
        gather.old gather.new (qr_drawing width down align size level content.now) }
{
    let side = qr_side(width, size, level, content);
    gather.room(START_BYTES, writer)?;
    append_start(gather, width, align, side, content.len(), down);
    put_characters(gather, content, writer)?;
    gather.put(b"</text></svg>\n</g>\n", writer)
}

// The most bytes that come before the content.
const START_BYTES: usize = 768;

const _: () = prove!(START_BYTES == 768);

// Appends all that comes before a content of so many characters.
fn append_start(
    gather: &mut Gather,
    width: LineWidth,
    align: Placing,
    side: Option<usize>,
    count: usize,
    down: usize,
)
    requires narrow { IfSome side (λ side. side ≤ MOST_LINE_DOTS) }
    requires few { count ≤ most_qr_data }
    requires small { down ≤ DEEPEST }
    requires room { length gather.old.kept + START_BYTES ≤ GATHERED_BYTES }
    ensures kept { gather.new.kept ≡ gather.old.kept ++ qr_start width down align side count }
    ensures same_count { gather.new.written ≡ gather.old.written }
{
    match side {
        Some(side) => {
            append_group(gather, width, align, side, down);
            append_frame(gather, side);
            append_text_tag(gather, side, count);
        }
        None => {
            let line_dots = usize::from(width.dots());
            append_group(gather, width, whole_line(), line_dots, down);
            append_box_frame(gather, width, 0, BOX_HEIGHT);
            append_box_text(gather, width, 0, BOX_HEIGHT, count);
        }
    }
}

// Appends the tag of the group.
#[tactic(auto, unfolding(crate::specs::QrItems::qr_group))]
fn append_group(gather: &mut Gather, width: LineWidth, align: Placing, side: usize, down: usize)
    requires small { down ≤ DEEPEST }
    requires room { length gather.old.kept + 96 ≤ GATHERED_BYTES }
    ensures kept { gather.new.kept ≡ gather.old.kept ++ qr_group width down align side }
    ensures same_count { gather.new.written ≡ gather.old.written }
    ensures short { length gather.new.kept ≤ length gather.old.kept + 96 }
{
    gather.extend(b"<g class=\"qr\" transform=\"translate(");
    append_place(gather, indent(width, align, side), down);
    gather.extend(b")\">\n");
}

// Appends the frame of a box.
#[tactic(auto, unfolding(crate::specs::QrItems::qr_frame))]
fn append_frame(gather: &mut Gather, side: usize)
    requires room { length gather.old.kept + 192 ≤ GATHERED_BYTES }
    ensures kept { gather.new.kept ≡ gather.old.kept ++ qr_frame side }
    ensures same_count { gather.new.written ≡ gather.old.written }
    ensures short { length gather.new.kept ≤ length gather.old.kept + 192 }
{
    append_between(gather, b"<svg width=\"", side, b"\" height=\"");
    append_number(gather, side);
    append_between(
        gather,
        b"\"><rect class=\"box\" width=\"",
        side,
        b"\" height=\"",
    );
    append_between(gather, b"", side, b"\"/></svg>\n");
}

// Appends the tags before a content of so many characters.
#[tactic(auto, unfolding(crate::specs::QrItems::qr_text))]
fn append_text_tag(gather: &mut Gather, side: usize, count: usize)
    requires few { count ≤ most_qr_data }
    requires room { length gather.old.kept + 256 ≤ GATHERED_BYTES }
    ensures kept { gather.new.kept ≡ gather.old.kept ++ qr_text side count }
    ensures same_count { gather.new.written ≡ gather.old.written }
    ensures short { length gather.new.kept ≤ length gather.old.kept + 256 }
{
    append_between(gather, b"<svg width=\"", side, b"\" height=\"");
    append_between(
        gather,
        b"",
        side,
        b"\" viewBox=\"0 0 512 512\"><text class=\"middle\" x=\"256\" y=\"262\" textLength=\"",
    );
    append_between(
        gather,
        b"",
        (12 * count).min(496),
        b"\" lengthAdjust=\"spacingAndGlyphs\">",
    );
}

// Gives the characters of a content, drawn by code table 0: at once those side by side that stand as they are.
fn put_characters<W: ByteOut>(
    gather: &mut Gather,
    content: &[u8],
    writer: &mut W,
) -> Result<(), Device>
    ensures { IsGiven result (passage (W.written writer.old) (W.written writer.new) (W.failed writer.old) (W.failed writer.new))
        gather.old gather.new (characters_text 0 0 content.now) }
{
    let mut rest = content;
    while !rest.is_empty() {
        let (plain, others) = split_plain(rest);
        gather.put(plain, writer)?;
        put_first(gather, others, writer)?;
        rest = without_first(others);
    }
    Ok(())
}

// The bytes at the beginning that stand in a text as they are, and those after them.
fn split_plain(content: &[u8]) -> (&[u8], &[u8])
    ensures text { characters_text 0 0 content.now ≡ result.0.now ++ characters_text 0 0 result.1.now }
    ensures shorter { length result.1.now ≤ length content.now }
{
    content.split_at(plain_len(content))
}

// How many bytes at the beginning stand in a text as they are.
fn plain_len(content: &[u8]) -> usize
    ensures within { result ≤ length content.now }
    ensures plain { list_all stands_as_it_is (take result content.now) ≡ true }
{
    for (place, byte) in content.iter().enumerate() {
        if !stands_as_it_is(*byte) {
            return place;
        }
    }
    content.len()
}

#[inline]
fn stands_as_it_is(byte: u8) -> bool
    ensures { result ≡ stands_as_it_is byte }
{
    matches!(byte, 0x20..=0x7E) && !matches!(byte, b'&' | b'<' | b'>' | b'"' | b'\'')
}

// Gives the first character, if there is one.
fn put_first<W: ByteOut>(gather: &mut Gather, content: &[u8], writer: &mut W) -> Result<(), Device>
    ensures { IsGiven result (passage (W.written writer.old) (W.written writer.new) (W.failed writer.old) (W.failed writer.new))
        gather.old gather.new (characters_text 0 0 (take 1 content.now)) }
{
    if let [first, ..] = content {
        gather.room(CHARACTER_BYTES, writer)?;
        append_byte(gather, 0, 0, *first);
    }
    Ok(())
}

// The bytes after the first.
fn without_first(content: &[u8]) -> &[u8]
    ensures { result.now ≡ drop 1 content.now }
{
    match content {
        [_, rest @ ..] => rest,
        [] => &[],
    }
}
