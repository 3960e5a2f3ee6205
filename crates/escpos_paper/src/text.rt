//! The text of a single item, given to a gather.
//!
//! All but the dots of a raster is short: it is appended in place to what the gather keeps back, and each function says
//! what it appends and how much at most. The dots are put as digits, in parts. The loop over the items is `write_items`.

ghost use Rattle.std.specs.Prelude.{◌≡◌, ◌+◌, ◌*◌, ◌≤◌, ◌<◌, [], ◌∷◌, ◌++◌, length, take, decimal, codes, flat_map, if◌then◌else◌};
ghost use Rattle.hex.specs.Hex.{encode_lower};
ghost use Rattle.escpos_command.specs.QrCodes.{most_qr_data};
ghost use Rattle.escpos_io.specs.Giving.{IsGiven};
ghost use Rattle.escpos_io.specs.Putting.{passage};
ghost use Rattle.escpos_paper.specs.Cells.{IsRun};
ghost use Rattle.escpos_paper.specs.Styles.{power_on};
ghost use Rattle.escpos_paper.specs.ItemsText.{color_field, turned_field, spacing_field, dot_text, place_text, placed_text, run_text, first_place, row_text, margin_text, width_text, placing_text, row_placing, is_plain, byte_text, style_text, face_name, flag_text, six_fields, has_six_fields, further_fields, cell_text, cells_text, align_name, symbology_name, place_name, scale_name, settings_text, content_text, correction_name, cut_name, upside_text, spacing_text, item_text};
ghost use Rattle.escpos_paper.specs.ItemParts.{front, dots_of, characters_of};

use crate::cell::{Cell, Cells, LINE_CELLS};
use crate::content::{Content, DOT_BYTES};
use crate::item::Item;
use crate::style::{BarStyle, Placing, Style};
use escpos_command::{Alignment, Correction, FontFace, HriPosition, LF, Scale, Symbology};
use escpos_io::{
    ByteOut, Device, GATHERED_BYTES, Gather, Piece, append_digits_after, append_small_number,
    put_digits,
};
use itoa::Buffer;

/// The most bytes of a line that are appended to a gather at once: all but the dots of a raster. (A row has at most 113
/// cells of at most 53 bytes, a barcode a content of at most 255 characters of at most 3 bytes.)
const LINE_BYTES: usize = 6144;

const _: () = prove!(LINE_BYTES == 6144);

/// An item is put as its line.
impl Piece for Item {
    ghost bytes = { item_text };

    #[inline]
    fn put<W: ByteOut>(&self, gather: &mut Gather, writer: &mut W) -> Result<(), Device> {
        gather.room(LINE_BYTES, writer)?;
        append_front(gather, self);
        put_digits(gather, dots_of(self), writer)?;
        put_characters(gather, characters_of(self), writer)?;
        gather.put(&[LF], writer)
    }
}

// The dots of a raster; nothing for any other item.
#[inline]
fn dots_of(item: &Item) -> &[u8]
    ensures dots { result.now ≡ dots_of item.now }
    ensures few { length result.now ≤ DOT_BYTES }
{
    match item {
        Item::Raster { dots, .. } => dots.as_slice(),
        _ => &[],
    }
}

// The content of a QR code; nothing for any other item.
#[inline]
fn characters_of(item: &Item) -> &[u8]
    ensures characters { result.now ≡ characters_of item.now }
    ensures few { length result.now ≤ most_qr_data }
{
    match item {
        Item::Qr { content, .. } => content.as_slice(),
        _ => &[],
    }
}

// Gives characters, in parts.
fn put_characters<W: ByteOut>(
    gather: &mut Gather,
    bytes: &[u8],
    writer: &mut W,
) -> Result<(), Device>
    ensures { IsGiven result (passage (W.written writer.old) (W.written writer.new) (W.failed writer.old) (W.failed writer.new))
        gather.old gather.new (flat_map byte_text bytes.now) }
{
    for byte in bytes {
        gather.room(3, writer)?;
        append_byte(gather, *byte);
    }
    Ok(())
}

// Appends the line of an item without its end, and of a raster or a QR code only what comes before its dots or its content.
fn append_front(gather: &mut Gather, item: &Item)
    requires { length gather.old.kept + LINE_BYTES ≤ GATHERED_BYTES }
    ensures kept { gather.new.kept ≡ gather.old.kept ++ front item.now }
    ensures same_count { gather.new.written ≡ gather.old.written }
    ensures short { length (front item.now) < LINE_BYTES }
{
    match item {
        Item::Row {
            align,
            upside_down,
            cells,
        } => {
            gather.extend(b"row ");
            append_row_placing(gather, *align, *upside_down);
            gather.push(b' ');
            gather.extend(upside_text(*upside_down));
            append_row(gather, align.margin, cells);
        }
        Item::Feed { lines, spacing } => {
            gather.extend(b"feed ");
            append_small_number(gather, *lines);
            append_spacing(gather, *spacing);
        }
        Item::FeedUnits(units) => {
            gather.extend(b"units ");
            append_small_number(gather, *units);
        }
        Item::Bars {
            align,
            symbology,
            height,
            module: width,
            place,
            hri_font,
            content,
            added,
        } => {
            let style = BarStyle {
                height: *height,
                module_width: *width,
                place: *place,
                hri_font: *hri_font,
            };
            gather.extend(b"bars ");
            append_placing(gather, *align);
            gather.push(b' ');
            append_word(gather, symbology_name(*symbology));
            append_settings(gather, style);
            append_content(gather, content, *added);
        }
        Item::Raster {
            align,
            scale,
            x,
            y,
            ..
        } => {
            gather.extend(b"raster ");
            append_placing(gather, *align);
            gather.push(b' ');
            append_word(gather, scale_name(*scale));
            append_size(gather, *x);
            append_size(gather, *y);
        }
        Item::Qr {
            align,
            model,
            size,
            level,
            ..
        } => {
            gather.extend(b"qr ");
            append_placing(gather, *align);
            gather.push(b' ');
            append_size(gather, u16::from(*model));
            append_size(gather, u16::from(*size));
            append_word(gather, correction_name(*level));
        }
        Item::Cut { partial, feed } => {
            gather.extend(b"cut ");
            gather.extend(cut_name(*partial));
            if let Some(feed) = feed {
                gather.push(b' ');
                append_small_number(gather, *feed);
            }
        }
    }
}

// Appends where an item stands.
fn append_placing(gather: &mut Gather, placing: Placing)
    requires { length gather.old.kept + 32 ≤ GATHERED_BYTES }
    ensures kept { gather.new.kept ≡ gather.old.kept ++ placing_text placing }
    ensures same_count { gather.new.written ≡ gather.old.written }
    ensures short { length (placing_text placing) ≤ 32 }
{
    gather.extend(align_name(placing.side));
    append_margin(gather, placing.margin);
    append_width(gather, placing.width);
}

// Appends where a row stands.
fn append_row_placing(gather: &mut Gather, placing: Placing, upside_down: bool)
    requires { length gather.old.kept + 32 ≤ GATHERED_BYTES }
    ensures kept { gather.new.kept ≡ gather.old.kept ++ row_placing placing upside_down }
    ensures same_count { gather.new.written ≡ gather.old.written }
    ensures short { length (row_placing placing upside_down) ≤ 32 }
{
    if matches!(placing.side, Alignment::Left) && !upside_down {
        gather.extend(align_name(placing.side));
    } else {
        append_placing(gather, placing);
    }
}

// Appends the margin, if there is one.
fn append_margin(gather: &mut Gather, margin: u16)
    requires { length gather.old.kept + 13 ≤ GATHERED_BYTES }
    ensures kept { gather.new.kept ≡ gather.old.kept ++ margin_text margin }
    ensures same_count { gather.new.written ≡ gather.old.written }
    ensures short { length (margin_text margin) ≤ 13 }
{
    if margin != 0 {
        gather.extend(b" margin ");
        append_dots(gather, margin);
    }
}

// Appends the width of the printing area, if it is set.
fn append_width(gather: &mut Gather, width: Option<u16>)
    requires { length gather.old.kept + 12 ≤ GATHERED_BYTES }
    ensures kept { gather.new.kept ≡ gather.old.kept ++ width_text width }
    ensures same_count { gather.new.written ≡ gather.old.written }
    ensures short { length (width_text width) ≤ 12 }
{
    if let Some(dots) = width {
        gather.extend(b" width ");
        append_dots(gather, dots);
    }
}

// Appends a number of up to five digits.
fn append_dots(gather: &mut Gather, dots: u16)
    requires { length gather.old.kept + 5 ≤ GATHERED_BYTES }
    ensures kept { gather.new.kept ≡ gather.old.kept ++ decimal dots }
    ensures same_count { gather.new.written ≡ gather.old.written }
    ensures short { length (decimal dots) ≤ 5 }
{
    let mut buffer = Buffer::new();
    gather.extend(buffer.format(dots).as_bytes());
}

// Appends a word and a space.
fn append_word(gather: &mut Gather, word: &[u8])
    requires { length gather.old.kept + length word.now < GATHERED_BYTES }
    ensures kept { gather.new.kept ≡ gather.old.kept ++ word.now ++ codes " " }
    ensures same_count { gather.new.written ≡ gather.old.written }
{
    gather.extend(word);
    gather.push(b' ');
}

// Appends a number of up to five digits, in decimal, and a space.
fn append_size(gather: &mut Gather, number: u16)
    requires { length gather.old.kept + 6 ≤ GATHERED_BYTES }
    ensures kept { gather.new.kept ≡ gather.old.kept ++ decimal number ++ codes " " }
    ensures same_count { gather.new.written ≡ gather.old.written }
    ensures short { length (decimal number) ≤ 5 }
{
    let mut buffer = Buffer::new();
    append_word(gather, buffer.format(number).as_bytes());
}

// Appends the settings of a barcode and a space.
fn append_settings(gather: &mut Gather, style: BarStyle)
    requires { length gather.old.kept + 16 ≤ GATHERED_BYTES }
    ensures kept { gather.new.kept ≡ gather.old.kept ++ settings_text style.height style.module_width style.place style.hri_font ++ codes " " }
    ensures same_count { gather.new.written ≡ gather.old.written }
    ensures short { length (settings_text style.height style.module_width style.place style.hri_font ++ codes " ") ≤ 16 }
{
    append_small_number(gather, style.height);
    gather.push(b' ');
    append_small_number(gather, style.module_width);
    gather.push(b' ');
    append_word(gather, place_name(style.place));
    gather.push(face_letter(style.hri_font));
    gather.push(b' ');
}

// Appends the content of a barcode and the check digit that is added.
fn append_content(gather: &mut Gather, content: &Content, added: Option<u8>)
    requires { length gather.old.kept + 768 ≤ GATHERED_BYTES }
    ensures kept { gather.new.kept ≡ gather.old.kept ++ content_text content.now added }
    ensures same_count { gather.new.written ≡ gather.old.written }
    ensures short { length (content_text content.now added) ≤ 768 }
{
    append_bytes(gather, content.as_slice());
    if let Some(digit) = added {
        append_small_number(gather, digit);
    }
}

// Appends the characters of a barcode's content.
fn append_bytes(gather: &mut Gather, bytes: &[u8])
    requires { length gather.old.kept + 3 * length bytes.now ≤ GATHERED_BYTES }
    ensures kept { gather.new.kept ≡ gather.old.kept ++ flat_map byte_text bytes.now }
    ensures same_count { gather.new.written ≡ gather.old.written }
    ensures short { length gather.new.kept ≤ length gather.old.kept + 3 * length bytes.now }
{
    for byte in bytes {
        append_byte(gather, *byte);
    }
}

fn align_name(align: Alignment) -> &'static [u8]
    ensures name { result.now ≡ align_name align }
    ensures short { length result.now ≤ 6 }
{
    match align {
        Alignment::Left => b"left",
        Alignment::Center => b"center",
        Alignment::Right => b"right",
    }
}

fn symbology_name(symbology: Symbology) -> &'static [u8]
    ensures name { result.now ≡ symbology_name symbology }
    ensures short { length result.now ≤ 7 }
{
    match symbology {
        Symbology::UpcA => b"upca",
        Symbology::UpcE => b"upce",
        Symbology::Ean13 => b"ean13",
        Symbology::Ean8 => b"ean8",
        Symbology::Code39 => b"code39",
        Symbology::Itf => b"itf",
        Symbology::Codabar => b"codabar",
        Symbology::Code93 => b"code93",
        Symbology::Code128 => b"code128",
        Symbology::Gs1Code128 => b"gs1_128",
    }
}

fn place_name(place: HriPosition) -> &'static [u8]
    ensures name { result.now ≡ place_name place }
    ensures short { length result.now ≤ 5 }
{
    match place {
        HriPosition::Nowhere => b"none",
        HriPosition::Above => b"above",
        HriPosition::Below => b"below",
        HriPosition::Both => b"both",
    }
}

fn scale_name(scale: Scale) -> &'static [u8]
    ensures name { result.now ≡ scale_name scale }
    ensures short { length result.now ≤ 6 }
{
    match scale {
        Scale::Normal => b"normal",
        Scale::Wide => b"wide",
        Scale::Tall => b"tall",
        Scale::Both => b"both",
    }
}

fn correction_name(correction: Correction) -> &'static [u8]
    ensures name { result.now ≡ correction_name correction }
    ensures short { length result.now ≤ 1 }
{
    match correction {
        Correction::L => b"L",
        Correction::M => b"M",
        Correction::Q => b"Q",
        Correction::H => b"H",
    }
}

fn cut_name(partial: bool) -> &'static [u8]
    ensures name { result.now ≡ cut_name partial }
    ensures short { length result.now ≤ 7 }
{
    if partial { b"partial" } else { b"full" }
}

fn upside_text(upside_down: bool) -> &'static [u8]
    ensures text { result.now ≡ upside_text upside_down }
    ensures short { length result.now ≤ 7 }
{
    if upside_down { b"upside " } else { b"" }
}

// Appends the spacing of a feed, if it isn't the default.
fn append_spacing(gather: &mut Gather, spacing: Option<u8>)
    requires { length gather.old.kept + 12 ≤ GATHERED_BYTES }
    ensures kept { gather.new.kept ≡ gather.old.kept ++ spacing_text spacing }
    ensures same_count { gather.new.written ≡ gather.old.written }
    ensures short { length (spacing_text spacing) ≤ 12 }
{
    if let Some(units) = spacing {
        gather.extend(b" spacing ");
        append_small_number(gather, units);
    }
}

// Appends the cells of a row, right of this margin.
fn append_row(gather: &mut Gather, margin: u16, cells: &Cells)
    requires { length gather.old.kept + 5989 ≤ GATHERED_BYTES }
    ensures kept { gather.new.kept ≡ gather.old.kept ++ row_text margin cells.now }
    ensures same_count { gather.new.written ≡ gather.old.written }
    ensures short { length (row_text margin cells.now) ≤ 5989 }
{
    let row = cells.as_slice();
    if let Some((first, others)) = row.split_first() {
        append_first_place(gather, margin, first);
        append_cell(gather, &Style::power_on(), first);
        append_others(gather, margin, first, others, cells.run());
    }
}

// Appends the cells after the first one of a row, whose first cells, so many, are a run.
#[inline]
fn append_others(gather: &mut Gather, margin: u16, first: &Cell, others: &[Cell], run: usize)
    requires is_run { IsRun (take run (first.now ∷ others.now)) }
    requires in_row { run ≤ length others.now + 1 }
    requires few { length others.now ≤ LINE_CELLS }
    requires room { length gather.old.kept + 53 * length others.now ≤ GATHERED_BYTES }
    ensures kept { gather.new.kept ≡ gather.old.kept ++ cells_text margin first.now.style others.now }
    ensures same_count { gather.new.written ≡ gather.old.written }
    ensures short { length (cells_text margin first.now.style others.now) ≤ 53 * length others.now }
{
    let (run, rest) = others.split_at(run.saturating_sub(1));
    append_run(gather, run);
    append_cells(gather, margin, &first.style, rest);
}

// Appends cells that follow one another, in the style of those before them.
fn append_run(gather: &mut Gather, cells: &[Cell])
    requires { length gather.old.kept + 3 * length cells.now ≤ GATHERED_BYTES }
    ensures kept { gather.new.kept ≡ gather.old.kept ++ run_text cells.now }
    ensures same_count { gather.new.written ≡ gather.old.written }
    ensures short { length (run_text cells.now) ≤ 3 * length cells.now }
{
    for cell in cells {
        append_byte(gather, cell.byte);
    }
}

// Appends where the first cell of a row stands.
fn append_first_place(gather: &mut Gather, margin: u16, cell: &Cell)
    requires { length gather.old.kept + 11 ≤ GATHERED_BYTES }
    ensures kept { gather.new.kept ≡ gather.old.kept ++ first_place margin cell.now }
    ensures same_count { gather.new.written ≡ gather.old.written }
    ensures short { length (first_place margin cell.now) ≤ 11 }
{
    match (margin, cell.moved) {
        (0, None) => {}
        (_, moved) => append_dot(gather, margin, moved.unwrap_or(0)),
    }
}

// Appends a dot this far right of a margin.
#[inline(never)]
fn append_dot(gather: &mut Gather, margin: u16, dot: u16)
    requires { length gather.old.kept + 11 ≤ GATHERED_BYTES }
    ensures kept { gather.new.kept ≡ gather.old.kept ++ dot_text (margin + dot) }
    ensures same_count { gather.new.written ≡ gather.old.written }
    ensures short { length (dot_text (margin + dot)) ≤ 11 }
{
    gather.push(b'@');
    let mut buffer = Buffer::new();
    gather.extend(buffer.format(u32::from(margin) + u32::from(dot)).as_bytes());
}

// Appends cells after one of the style `before`, right of this margin.
fn append_cells<'a>(gather: &mut Gather, margin: u16, before: &'a Style, cells: &'a [Cell])
    requires few { length cells.now ≤ LINE_CELLS }
    requires room { length gather.old.kept + 53 * length cells.now ≤ GATHERED_BYTES }
    ensures kept { gather.new.kept ≡ gather.old.kept ++ cells_text margin before.now cells.now }
    ensures same_count { gather.new.written ≡ gather.old.written }
    ensures short { length (cells_text margin before.now cells.now) ≤ 53 * length cells.now }
{
    // Two styles in memory are compared eight bytes at once.
    let mut last = before;
    for cell in cells {
        append_placed(gather, margin, last, cell);
        last = &cell.style;
    }
}

// Appends a cell that follows one of the style `before`, and where it stands, if it doesn't follow that.
#[inline]
fn append_placed(gather: &mut Gather, margin: u16, before: &Style, cell: &Cell)
    requires { length gather.old.kept + 53 ≤ GATHERED_BYTES }
    ensures kept { gather.new.kept ≡ gather.old.kept ++ placed_text margin before.now cell.now }
    ensures same_count { gather.new.written ≡ gather.old.written }
    ensures short { length (placed_text margin before.now cell.now) ≤ 53 }
{
    append_place(gather, margin, cell.moved);
    append_cell(gather, before, cell);
}

// Appends a place, if there is one.
#[inline]
fn append_place(gather: &mut Gather, margin: u16, moved: Option<u16>)
    requires { length gather.old.kept + 11 ≤ GATHERED_BYTES }
    ensures kept { gather.new.kept ≡ gather.old.kept ++ place_text margin moved }
    ensures same_count { gather.new.written ≡ gather.old.written }
    ensures short { length (place_text margin moved) ≤ 11 }
{
    if let Some(dot) = moved {
        append_dot(gather, margin, dot);
    }
}

// Appends a cell that follows one of the style `before`.
#[inline]
fn append_cell(gather: &mut Gather, before: &Style, cell: &Cell)
    requires { length gather.old.kept + 42 ≤ GATHERED_BYTES }
    ensures kept { gather.new.kept ≡ gather.old.kept ++ cell_text before.now cell.now }
    ensures same_count { gather.new.written ≡ gather.old.written }
    ensures short { length (cell_text before.now cell.now) ≤ 42 }
{
    if !before.is_same(&cell.style) {
        append_style(gather, &cell.style);
    }
    append_byte(gather, cell.byte);
}

#[inline(never)]
fn append_style(gather: &mut Gather, style: &Style)
    requires { length gather.old.kept + 39 ≤ GATHERED_BYTES }
    ensures kept { gather.new.kept ≡ gather.old.kept ++ style_text style.now }
    ensures same_count { gather.new.written ≡ gather.old.written }
    ensures short { length (style_text style.now) ≤ 39 }
{
    gather.push(b'[');
    append_six_fields(gather, style);
    append_further_fields(gather, style);
    gather.push(b']');
}

fn append_six_fields(gather: &mut Gather, style: &Style)
    requires { length gather.old.kept + 19 ≤ GATHERED_BYTES }
    ensures kept { gather.new.kept ≡ gather.old.kept ++ six_fields style.now }
    ensures same_count { gather.new.written ≡ gather.old.written }
    ensures short { length (six_fields style.now) ≤ 19 }
{
    gather.push(face_letter(style.font));
    append_attribute(gather, style.width);
    append_attribute(gather, style.height);
    gather.push(b',');
    gather.push(flag_digit(style.bold));
    append_attribute(gather, style.underline);
    append_attribute(gather, style.table);
}

// Appends the fields for strike, reverse, character set, spacing, colour and turn, unless these are as at power on.
fn append_further_fields(gather: &mut Gather, style: &Style)
    requires { length gather.old.kept + 18 ≤ GATHERED_BYTES }
    ensures kept { gather.new.kept ≡ gather.old.kept ++ further_fields style.now }
    ensures same_count { gather.new.written ≡ gather.old.written }
    ensures short { length (further_fields style.now) ≤ 18 }
{
    if has_six_fields(style) {
        return;
    }
    gather.push(b',');
    gather.push(flag_digit(style.strike));
    gather.push(b',');
    gather.push(flag_digit(style.reverse));
    append_attribute(gather, style.character_set);
    append_character_spacing(gather, style);
}

// Appends the fields for the space to the right of a character, for its colour and for its turn, where they are due.
fn append_character_spacing(gather: &mut Gather, style: &Style)
    requires { length gather.old.kept + 10 ≤ GATHERED_BYTES }
    ensures kept { gather.new.kept ≡ gather.old.kept ++ spacing_field style.now }
    ensures same_count { gather.new.written ≡ gather.old.written }
    ensures short { length (spacing_field style.now) ≤ 10 }
{
    if style.spacing == 0 && style.color == 0 && !style.turned {
        return;
    }
    append_attribute(gather, style.spacing);
    append_color(gather, style);
}

// Appends the fields for the colour and for the turn, where they are due.
fn append_color(gather: &mut Gather, style: &Style)
    requires { length gather.old.kept + 6 ≤ GATHERED_BYTES }
    ensures kept { gather.new.kept ≡ gather.old.kept ++ color_field style.now }
    ensures same_count { gather.new.written ≡ gather.old.written }
    ensures short { length (color_field style.now) ≤ 6 }
{
    if style.color == 0 && !style.turned {
        return;
    }
    append_attribute(gather, style.color);
    gather.extend(turned_field(style.turned));
}

// The field of characters that are turned.
fn turned_field(turned: bool) -> &'static [u8]
    ensures field { result.now ≡ (if turned then codes ",1" else []) }
    ensures short { length result.now ≤ 2 }
{
    if turned { b",1" } else { b"" }
}

// Whether strike, reverse, character set, spacing, colour and turn are as at power on.
fn has_six_fields(style: &Style) -> bool
    ensures { result ≡ has_six_fields style.now }
{
    !style.strike
        && !style.reverse
        && style.character_set == 0
        && style.spacing == 0
        && style.color == 0
        && !style.turned
}

fn face_letter(face: FontFace) -> u8
    ensures { result ∷ [] ≡ face_name face }
{
    match face {
        FontFace::A => b'A',
        FontFace::B => b'B',
    }
}

// 1 or 0.
fn flag_digit(flag: bool) -> u8
    ensures { result ∷ [] ≡ flag_text flag }
{
    if flag { b'1' } else { b'0' }
}

// Appends a comma and a number.
fn append_attribute(gather: &mut Gather, number: u8)
    requires { length gather.old.kept + 4 ≤ GATHERED_BYTES }
    ensures kept { gather.new.kept ≡ gather.old.kept ++ codes "," ++ decimal number }
    ensures same_count { gather.new.written ≡ gather.old.written }
    ensures short { length (codes "," ++ decimal number) ≤ 4 }
{
    gather.push(b',');
    append_small_number(gather, number);
}

// Appends a character: itself, or \ and two hexadecimal digits.
#[inline]
fn append_byte(gather: &mut Gather, byte: u8)
    requires { length gather.old.kept + 3 ≤ GATHERED_BYTES }
    ensures kept { gather.new.kept ≡ gather.old.kept ++ byte_text byte }
    ensures same_count { gather.new.written ≡ gather.old.written }
    ensures short { length (byte_text byte) ≤ 3 }
{
    if is_plain(byte) {
        gather.push(byte);
    } else {
        append_escaped(gather, byte);
    }
}

// Whether each byte stands as itself.
static PLAIN: [bool; 256] = [
    false, false, false, false, false, false, false, false, false, false, false, false, false,
    false, false, false, false, false, false, false, false, false, false, false, false, false,
    false, false, false, false, false, false, true, true, true, true, true, true, true, true, true,
    true, true, true, true, true, true, true, true, true, true, true, true, true, true, true, true,
    true, true, true, true, true, true, true, true, true, true, true, true, true, true, true, true,
    true, true, true, true, true, true, true, true, true, true, true, true, true, true, true, true,
    true, true, false, false, true, true, true, true, true, true, true, true, true, true, true,
    true, true, true, true, true, true, true, true, true, true, true, true, true, true, true, true,
    true, true, true, true, true, true, true, false, false, false, false, false, false, false,
    false, false, false, false, false, false, false, false, false, false, false, false, false,
    false, false, false, false, false, false, false, false, false, false, false, false, false,
    false, false, false, false, false, false, false, false, false, false, false, false, false,
    false, false, false, false, false, false, false, false, false, false, false, false, false,
    false, false, false, false, false, false, false, false, false, false, false, false, false,
    false, false, false, false, false, false, false, false, false, false, false, false, false,
    false, false, false, false, false, false, false, false, false, false, false, false, false,
    false, false, false, false, false, false, false, false, false, false, false, false, false,
    false, false, false, false, false, false, false, false, false, false, false, false, false,
    false, false, false, false, false,
];

// Whether a byte stands as itself: one that can be printed, but for [ and \.
#[inline]
fn is_plain(byte: u8) -> bool
    ensures { result ≡ is_plain byte }
{
    PLAIN[byte as usize]
}

// Appends \ and two hexadecimal digits.
#[inline(never)]
fn append_escaped(gather: &mut Gather, byte: u8)
    requires { length gather.old.kept + 3 ≤ GATHERED_BYTES }
    ensures kept { gather.new.kept ≡ gather.old.kept ++ 0x5C ∷ encode_lower (byte ∷ []) }
    ensures same_count { gather.new.written ≡ gather.old.written }
    ensures short { length (encode_lower (byte ∷ [])) ≡ 2 }
{
    append_digits_after(gather, b'\\', byte);
}
