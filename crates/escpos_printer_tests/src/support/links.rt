//! Links that are served from memory to memory.

use escpos_io::{ByteIn, MemoryIn, MemoryOut};
use escpos_printer::{LinkEnd, Printer, Served, serve_link};

/// Bytes that come at most so many at once, and fail from this read on, if there is one.
#[derive(Clone, Copy)]
pub struct Source<'a> {
    pub bytes: &'a [u8],
    pub most: usize,
    pub fails_at: Option<u64>,
}

/// A link that may have so many bytes, to a writer with so much room; how it ends, and what goes out.
#[derive(Clone, Copy)]
pub struct Link<'a> {
    pub max_bytes: u32,
    pub room: usize,
    pub wanted: Served,
    pub out: &'a [u8],
}

pub fn bytes_in_pieces(bytes: &[u8], most: usize) -> Source {
    Source {
        bytes,
        most,
        fails_at: None,
    }
}

pub fn how_served(read: usize, consumed: usize, written: usize, end: LinkEnd) -> Served {
    Served {
        read,
        consumed,
        written,
        end,
    }
}

fn reader_of<'a>(source: &Source<'a>) -> MemoryIn<'a> {
    match source.fails_at {
        None => MemoryIn::new(source.bytes, source.most),
        Some(call) => MemoryIn::failing(source.bytes, source.most, call),
    }
}

pub fn serves(printer: &mut Printer, source: &Source, link: &Link) -> bool {
    serves_from(printer, &mut reader_of(source), link)
}

pub fn serves_all(printer: &mut Printer, source: &Source, links: &[Link]) -> bool {
    let mut reader = reader_of(source);
    for link in links {
        if !serves_from(printer, &mut reader, link) {
            return false;
        }
    }
    true
}

pub fn serves_in_reads(printer: &mut Printer, source: &Source, link: &Link, pulls: u64) -> bool {
    let mut reader = reader_of(source);
    serves_from(printer, &mut reader, link) && reader.pulls() == pulls
}

fn serves_from(printer: &mut Printer, reader: &mut MemoryIn, link: &Link) -> bool {
    let mut room = [0; 20_000];
    let room = &mut room[..link.room.min(20_000)];
    serves_into(
        printer,
        reader,
        room,
        link.max_bytes,
        (link.wanted, link.out),
    )
}

fn serves_into(
    printer: &mut Printer,
    reader: &mut MemoryIn,
    room: &mut [u8],
    max_bytes: u32,
    (wanted, out): (Served, &[u8]),
) -> bool {
    let mut writer = MemoryOut::new(room);
    let served = serve(printer, reader, &mut writer, max_bytes);
    served == wanted && writer.written() == out
}

pub fn serves_again(printer: &mut Printer, bytes: &[u8], out: &[u8]) -> bool {
    let mut room = [0; 100];
    let mut writer = MemoryOut::new(&mut room);
    let served = serve(printer, &mut MemoryIn::new(bytes, 10), &mut writer, 1000);
    let is_served = match served.end {
        LinkEnd::Ended => true,
        LinkEnd::Memory => printer.waiting() == 0
            && serves_rest(printer, &mut writer, bytes, served.consumed),
        _ => false,
    };
    is_served && writer.written() == out
}

fn serves_rest(printer: &mut Printer, writer: &mut MemoryOut, bytes: &[u8], from: usize) -> bool {
    match bytes.get(from..) {
        Some(rest) => {
            let served = serve(printer, &mut MemoryIn::new(rest, 10), writer, 1000);
            served.end == LinkEnd::Ended && served.consumed == rest.len()
        }
        None => false,
    }
}

// Serves a link. It says nothing of how that ends, so that its callers carry none of the contract.
pub fn serve(
    printer: &mut Printer,
    reader: &mut MemoryIn,
    writer: &mut MemoryOut,
    max_bytes: u32,
) -> Served {
    serve_link(printer, reader, writer, max_bytes)
}
