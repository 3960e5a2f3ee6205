//! The line of an item.

ghost use Rattle.std.specs.Prelude.{◌≡◌, ◌+◌, ◌*◌, ◌≤◌, ◌++◌, false, length, encode_utf8};
ghost use Rattle.escpos_io.specs.Giving.{IsPiecePut};
ghost use Rattle.escpos_io.specs.Putting.{passage};
ghost use Rattle.escpos_paper.specs.declared.item.Item.TheVariants.{Row};
ghost use Rattle.escpos_plain.specs.PlainText.{shown, plain_cells, row_start, plain_text, plain_words};

use escpos_command::{Alignment, LF};
use escpos_io::{ByteOut, Device, GATHERED_BYTES, Gather, Piece};
use escpos_paper::{Cell, Cells, Item, LINE_CELLS, Placing};
use escpos_text::reads;

/// The most bytes of a row's line: at most 19 before its cells, and 113 characters of at most 4 bytes.
const ROW_BYTES: usize = 512;

const _: () = prove!(ROW_BYTES == 512);

// What stands for a character that isn't known.
const UNKNOWN: char = '\u{FFFD}';

/// Gives the line of an item: that of a row is `row ALIGN TEXT`, or `row ALIGN upside TEXT` if it is upside down, with the
/// characters that its cells show, in UTF-8, and U+FFFD for each that isn't known; that of any other item is the one that
/// escpos_paper writes.
///
/// On `Err` the sink has failed, and took exactly the first `written` of all bytes ever given to the gather, as long as these are
/// few enough to be counted.
pub fn put_plain_item<W: ByteOut>(
    item: &Item,
    gather: &mut Gather,
    writer: &mut W,
) -> Result<(), Device>
    ensures { IsPiecePut result (passage (W.written writer.old) (W.written writer.new) (W.failed writer.old) (W.failed writer.new))
        gather.old gather.new (plain_text item.now) }
{
    match item {
        Item::Row {
            align,
            upside_down,
            cells,
        } => {
            gather.room(ROW_BYTES, writer)?;
            append_row(gather, *align, *upside_down, cells);
            Ok(())
        }
        _ => item.put(gather, writer),
    }
}

// Appends the line of a row.
fn append_row(gather: &mut Gather, align: Placing, upside_down: bool, cells: &Cells)
    requires { length gather.old.kept + ROW_BYTES ≤ GATHERED_BYTES }
    ensures kept { gather.new.kept ≡ gather.old.kept ++ plain_text (Row align upside_down cells.now) }
    ensures same_count { gather.new.written ≡ gather.old.written }
    ensures short { length (plain_text (Row align upside_down cells.now)) ≤ ROW_BYTES }
{
    gather.extend(start_of(align));
    if upside_down {
        gather.extend(b"upside ");
    }
    append_cells(gather, cells.as_slice());
    gather.push(LF);
}

// What the line of a row in this alignment begins with.
fn start_of(align: Placing) -> &'static [u8]
    ensures start { result.now ≡ row_start align false }
    ensures short { length result.now ≤ 11 }
{
    match align.side {
        Alignment::Left => b"row left ",
        Alignment::Center => b"row center ",
        Alignment::Right => b"row right ",
    }
}

// Appends the characters of cells.
fn append_cells(gather: &mut Gather, cells: &[Cell])
    requires room { length gather.old.kept + 4 * length cells.now ≤ GATHERED_BYTES }
    ensures kept { gather.new.kept ≡ gather.old.kept ++ plain_cells cells.now }
    ensures same_count { gather.new.written ≡ gather.old.written }
    ensures short { length (plain_cells cells.now) ≤ 4 * length cells.now }
{
    for cell in cells {
        append_character(gather, shown(cell));
    }
}

// The character that a cell shows.
#[inline]
fn shown(cell: &Cell) -> char
    ensures { result ≡ shown cell.now }
{
    reads(cell.style.character_set, cell.style.table, cell.byte).unwrap_or(UNKNOWN)
}

// Appends a character in UTF-8.
#[inline]
fn append_character(gather: &mut Gather, character: char)
    requires room { length gather.old.kept + 4 ≤ GATHERED_BYTES }
    ensures kept { gather.new.kept ≡ gather.old.kept ++ encode_utf8 character }
    ensures same_count { gather.new.written ≡ gather.old.written }
    ensures short { length (encode_utf8 character) ≤ 4 }
{
    if character.is_ascii() {
        gather.push(character as u8);
        return;
    }
    let mut room = [0; 4];
    let text = character.encode_utf8(&mut room);
    gather.extend(text.as_bytes());
}
