//! What lies on paper.

use escpos_io::{ByteOut, Device, MemoryOut};
use escpos_paper::{Cell, Item, write_items};

/// Items are written to a sink. It says nothing of what goes out, so that its callers carry none of the contract.
pub fn write_items_to<W: ByteOut>(items: &[Item], sink: &mut W) -> Result<(), Device> {
    write_items(items, sink)
}

/// Whether this is the text of items.
pub fn has_text(items: &[Item], text: &[u8]) -> bool {
    let mut room = [0; 512];
    let mut sink = MemoryOut::new(&mut room);
    write_items_to(items, &mut sink).is_ok() && sink.written() == text
}

/// Whether items are a raster, these two characters if any, and a feed of one line.
pub fn is_raster_and_text(items: &[Item], text: &[u8]) -> bool {
    match items {
        [Item::Raster { .. }, Item::Feed { lines: 1, .. }] => text.is_empty(),
        [
            Item::Raster { .. },
            Item::Row { cells, .. },
            Item::Feed { lines: 1, .. },
        ] => has_bytes(cells.as_slice(), text),
        _ => false,
    }
}

fn has_bytes(cells: &[Cell], bytes: &[u8]) -> bool {
    match cells {
        [first, second] => [first.byte, second.byte].as_slice() == bytes,
        _ => false,
    }
}
