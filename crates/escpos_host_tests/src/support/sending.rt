//! Receipts that a host sends over links, from memory to memory.

use escpos_host::{Host, Receipt, SendFault, Sent, send_link};
use escpos_io::{ByteIn, MemoryIn, MemoryOut};
use escpos_test_receipts::{are_line, read_receipt};
use std::alloc::Global;

/// No call fails.
pub const NEVER: u64 = u64::MAX;

/// A receipt, as its text and the line that it prints, that is sent over a link, with so many opening marks.
#[derive(Clone, Copy)]
pub struct Sending<'a> {
    pub receipt: (&'a [u8], &'a [u8]),
    pub openings: u32,
    pub link: Link<'a>,
    /// The number under which it is recorded, or why it comes back.
    pub wanted: Result<usize, SendFault>,
    /// What is written.
    pub written: &'a [u8],
}

/// A link: its answers, of which a read gives at most so many bytes, and at most so many bytes may be read; the room of its
/// writer; and the calls from which on reads fail, and writes.
#[derive(Clone, Copy)]
pub struct Link<'a> {
    pub answers: &'a [u8],
    pub most: usize,
    pub max_bytes: u32,
    pub room: Room,
    pub reads_fail: u64,
    pub writes_fail: u64,
}

/// So many bytes; and how they are taken: all at once, or one by one.
#[derive(Clone, Copy)]
pub enum Room {
    Whole(usize),
    OneByOne(usize),
}

/// Whether a receipt is sent as it must be.
pub fn sends(host: &mut Host, alloc: Global, sending: &Sending) -> bool {
    sends_from(host, alloc, &mut reader_of(&sending.link), sending)
}

/// The same, with so many reads.
pub fn sends_in_reads(host: &mut Host, alloc: Global, sending: &Sending, pulls: u64) -> bool {
    let mut reader = reader_of(&sending.link);
    sends_from(host, alloc, &mut reader, sending) && reader.pulls() == pulls
}

/// The same, with no more than so many reads; these answers are left.
pub fn leaves(host: &mut Host, alloc: Global, sending: &Sending, pulls: u64, left: &[u8]) -> bool {
    let mut reader = reader_of(&sending.link);
    sends_from(host, alloc, &mut reader, sending)
        && reader.pulls() <= pulls
        && has_left(&mut reader, left)
}

fn reader_of<'a>(link: &Link<'a>) -> MemoryIn<'a> {
    MemoryIn::failing(link.answers, link.most, link.reads_fail)
}

fn sends_from(host: &mut Host, alloc: Global, reader: &mut MemoryIn, sending: &Sending) -> bool {
    let mut room = [0; 700];
    match sending.link.room {
        Room::Whole(size) => sends_into(host, alloc, reader, &mut room[..size.min(700)], sending),
        Room::OneByOne(size) => {
            let mut writer = MemoryOut::taking(&mut room[..size.min(700)], 1);
            sends_over(host, alloc, reader, &mut writer, sending)
        }
    }
}

fn sends_into(
    host: &mut Host,
    alloc: Global,
    reader: &mut MemoryIn,
    room: &mut [u8],
    sending: &Sending,
) -> bool {
    let mut writer = MemoryOut::failing(room, sending.link.writes_fail);
    sends_over(host, alloc, reader, &mut writer, sending)
}

fn sends_over(
    host: &mut Host,
    alloc: Global,
    reader: &mut MemoryIn,
    writer: &mut MemoryOut,
    sending: &Sending,
) -> bool {
    let (text, line) = sending.receipt;
    match read_receipt(alloc, text) {
        Ok(receipt) => {
            let max_bytes = sending.link.max_bytes;
            let sent = send(host, receipt, sending.openings, reader, writer, max_bytes);
            is_sent(sent, sending.wanted, line) && has_written(writer, sending.written)
        }
        Err(_) => false,
    }
}

fn has_written(writer: &MemoryOut, wanted: &[u8]) -> bool {
    writer.written() == wanted
}

// A receipt is recorded under this number, or it comes back for this reason, with this line.
fn is_sent(sent: Sent, wanted: Result<usize, SendFault>, line: &[u8]) -> bool {
    match sent {
        Sent::Recorded(number) => wanted == Ok(number),
        Sent::NotRecorded { why, receipt } => {
            wanted == Err(why) && are_line(receipt.commands(), line)
        }
    }
}

// What a reader has still to give is this.
fn has_left(reader: &mut MemoryIn, wanted: &[u8]) -> bool {
    let mut room = [0];
    for byte in wanted {
        if reader.pull(&mut room) != Ok(1) || room != [*byte] {
            return false;
        }
    }
    reader.pull(&mut room) == Ok(0)
}

/// A receipt is sent over a link, with nothing of what the contract says of that.
pub fn send(
    host: &mut Host,
    receipt: Receipt,
    openings: u32,
    reader: &mut MemoryIn,
    writer: &mut MemoryOut,
    max_bytes: u32,
) -> Sent {
    send_link(host, receipt, openings, reader, writer, max_bytes)
}
