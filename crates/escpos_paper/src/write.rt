//! The paper as text, written to a sink.

ghost use Rattle.escpos_io.specs.Putting.{IsPut, passage};
ghost use Rattle.escpos_paper.specs.ItemsText.{items_text};

use crate::item::Item;
use escpos_io::{ByteOut, Device, put_pieces};

/// Writes a line for each item. Allocates nothing.
///
/// A row is `row ALIGN CELLS`, or `row ALIGN upside CELLS` if it is upside down, a feed `feed N`, `feed N spacing M` or
/// `units N`, a cut `cut full` or `cut partial`, and then its feed, if it
/// has one. A barcode is `bars ALIGN SYMBOLOGY HEIGHT MODULE PLACE FONT CONTENT`, with the check digit that is added at
/// the end of CONTENT, and a raster `raster ALIGN SCALE X Y DOTS`, with two hexadecimal digits for each byte of dots.
/// Numbers are decimal, and each line ends with 0A. In CELLS and CONTENT a byte 20 to 7E other than 5B and 5C is
/// itself, and any other is `\` and two hexadecimal digits. A cell whose style isn't that of the cell before
/// it, or for the first cell not the power-on style, has `[F,W,H,B,U,T]` before it: font, width, height,
/// emphasis, underline and table; or `[F,W,H,B,U,T,S,R,C]`, with strike, reverse and character set, where one of these isn't as
/// at power on.
///
/// On `Ok` the writer has not failed, unless it had before. On `Err` it has failed, and took exactly the first `written`
/// bytes of that text, fewer than there are.
pub fn write_items<W: ByteOut>(items: &[Item], writer: &mut W) -> Result<(), Device>
    ensures { IsPut result (passage (W.written writer.old) (W.written writer.new) (W.failed writer.old) (W.failed writer.new)) (items_text items.now) }
{
    put_pieces(items, writer)
}
