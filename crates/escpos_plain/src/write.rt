//! The paper as plain text, written to a sink.

ghost use Rattle.escpos_io.specs.Putting.{IsPut, passage};
ghost use Rattle.escpos_plain.specs.PlainText.{plain_items_text};

use crate::item::put_plain_item;
use escpos_io::{ByteOut, Device, Gather};
use escpos_paper::Item;

/// Writes a line of plain text for each item. Allocates nothing.
///
/// A row is `row ALIGN TEXT`, or `row ALIGN upside TEXT` if it is upside down, with the characters that its cells show, in UTF-8, and
/// U+FFFD for each that isn't known. Other items have the lines that escpos_paper writes.
///
/// On `Ok` the writer has not failed, unless it had before. On `Err` it has failed, and took exactly the first `written` bytes of that
/// text, fewer than there are.
pub fn write_plain_items<W: ByteOut>(items: &[Item], writer: &mut W) -> Result<(), Device>
    ensures { IsPut result (passage (W.written writer.old) (W.written writer.new) (W.failed writer.old) (W.failed writer.new)) (plain_items_text items.now) }
{
    let mut gather = Gather::new();
    for item in items {
        put_plain_item(item, &mut gather, writer)?;
    }
    gather.flush(writer)
}
