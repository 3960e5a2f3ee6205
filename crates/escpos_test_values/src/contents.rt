//! Commands with content, for whose memory an allocation may fail once.

use escpos_command::{
    Bars, Command, Form, Graphics, GraphicsForm, GraphicsHead, QrData, Raster, Symbology, TabStops,
};
use std::alloc::{AllocError, Global};

/// The spelling of a barcode, EAN-8 in form A.
pub const BARCODE: &[u8] = b"\x1Dk\x035512345\x00";

/// The spelling of a raster with two rows of a byte.
pub const PICTURE: &[u8] = b"\x1Dv0\x00\x01\x00\x02\x00\xF0\x0F";

/// The spelling of a store of two bytes.
pub const STORE: &[u8] = b"\x1D(k\x05\x001P0AB";

/// The spelling of a print of what is stored.
pub const PRINT: &[u8] = b"\x1D(k\x03\x001Q0";

/// A barcode and a raster, one after the other.
pub const BOTH: &[u8] = b"\x1Dk\x035512345\x00\x1Dv0\x00\x01\x00\x02\x00\xF0\x0F";

/// A line and both.
pub const STREAM: &[u8] = b"Hi\n\x1Dk\x035512345\x00\x1Dv0\x00\x01\x00\x02\x00\xF0\x0F";

// These bytes, in memory of their own. Where the allocation fails, it is tried again.
fn bytes_at_last(alloc: Global, bytes: &[u8]) -> Result<Vec<u8>, AllocError> {
    match bytes.to_vec(alloc) {
        Ok(copy) => Ok(copy),
        Err(_) => bytes.to_vec(alloc),
    }
}

/// The barcode that `BARCODE` spells; `None` if two allocations fail.
pub fn barcode(alloc: Global) -> Option<Bars> {
    let content = bytes_at_last(alloc, b"5512345").ok()?;
    Bars::new(Form::A, Symbology::Ean8, content).ok()
}

/// The raster that `PICTURE` spells; `None` if two allocations fail.
pub fn picture(alloc: Global) -> Option<Raster> {
    let dots = bytes_at_last(alloc, b"\xF0\x0F").ok()?;
    Raster::new(0, 1, 2, dots).ok()
}

/// The data that `STORE` stores; `None` if two allocations fail.
pub fn stored(alloc: Global) -> Option<QrData> {
    let data = bytes_at_last(alloc, b"AB").ok()?;
    QrData::new(data).ok()
}

/// The spelling of a store of graphics, two rows of 5 dots.
pub const GRAPHICS: &[u8] = b"\x1D(L\x0C\x000p0\x01\x021\x05\x00\x02\x00\xF8\x08";

/// The graphics that `GRAPHICS` stores; `None` if two allocations fail.
pub fn stored_graphics(alloc: Global) -> Option<Graphics> {
    let dots = bytes_at_last(alloc, b"\xF8\x08").ok()?;
    let head = GraphicsHead {
        form: GraphicsForm::Short,
        across: 1,
        down: 2,
        width: 5,
        height: 2,
    };
    Graphics::new(head, dots).ok()
}

/// What `tab_stops` spells.
pub const STOPS: &[u8] = b"\x1BD\x08\x10\x00";

/// The tab stops that `STOPS` sets; `None` if two allocations fail.
pub fn tab_stops(alloc: Global) -> Option<TabStops> {
    let columns = bytes_at_last(alloc, b"\x08\x10").ok()?;
    TabStops::new(columns).ok()
}

/// Whether a command of at most 32 bytes is spelled so.
pub fn is_spelled(command: &Command, spelling: &[u8]) -> bool {
    let mut room = [0; 32];
    let count = command.spell_at(0, &mut room);
    room.get(..count) == Some(spelling)
}
