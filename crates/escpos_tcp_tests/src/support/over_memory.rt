//! Links over memory to one printer, one after another, and what must come of each. A test is a row of links, and `plays_over_memory`
//! plays it.
//!
//! Only `plays_over_memory` owns a printer and its paper, which the links borrow.

use crate::support::sensors::{Halting, InTurn};
use crate::support::sockets::NEVER;
use escpos_command::LineWidth;
use escpos_io::{MemoryIn, MemoryOut};
use escpos_job_parts::condition::ONLINE;
use escpos_printer::{Condition, Printer};
use escpos_tcp_jobs::emulate::{follow_link, serve_and_tell};
use escpos_tcp_jobs::paper_text::PaperText;
use escpos_tcp_jobs::watch::{Steady, watch_link};
use escpos_tcp_jobs::watched_link::{follow_watched, watch_and_tell};
use escpos_test_receipts::joined;
use std::alloc::{AllocError, Global};
use std::process::Abort;

/// A first part, one that comes several times, and a last one.
pub type Parts<'a> = (&'a str, &'a str, &'a str);

/// A link, or what happens to the printer between two links.
#[derive(Clone, Copy)]
pub enum Link<'a> {
    /// These bytes come, with reads that fail from a call on and a sink that has so much room; the link has this number and this line.
    /// What is answered is the same to each request.
    Serve(&'a [u8], (u64, usize), u32, &'a str),
    /// A first part, so many others and a last one come over link 7, which has this line; two requests are answered, and these parts
    /// are torn off.
    ServeLong(Parts<'a>, usize, &'a str, Parts<'a>),
    /// The link with this number is followed: of these bytes this is printed, and nothing stays on paper.
    Follow(u32, &'a [u8], &'a str),
    /// Link 1 is followed while these sensors are watched, with a sink that has so much room: these answers go out, and this is printed.
    Watch(&'a [u8], &'a [Condition], usize, &'a [u8], &'a str),
    /// Link 7 is served while these sensors are watched, with so many looks and pauses: nothing goes out, the link has this line, and
    /// this is torn off.
    WatchUntold(&'a [u8], &'a [Condition], (usize, usize), &'a str, &'a str),
    /// So many line feeds come from a host while the sensors say nothing new; each is torn off.
    WatchLineFeeds(usize),
    /// The sensors change to this.
    Set(Condition),
    /// The printer is told to tell its condition unasked, which it does.
    TellUnasked,
}

/// Over a new printer each link is played in turn.
pub fn plays_over_memory(rt: &impl Abort, alloc: Global, links: &[Link]) {
    let mut printer = Printer::new(alloc, ONLINE, LineWidth::usual()).expect(rt, "memory");
    let mut paper = PaperText::new(alloc);
    for (place, link) in links.iter().enumerate() {
        assert!(rt;
            does(alloc, &mut printer, &mut paper, link),
            "at link {place}, counted from 0"
        );
    }
}

// Plays a link. Answers whether what comes of it is what the row says.
fn does(alloc: Global, printer: &mut Printer, paper: &mut PaperText, link: &Link) -> bool {
    match link {
        Link::Serve(bytes, faults, number, line) => {
            serves(printer, paper, (bytes, *faults), (*number, line))
        }
        Link::ServeLong(parts, count, line, rows) => {
            serves_parts(alloc, (printer, paper), (*parts, *rows, *count), line)
        }
        Link::Follow(number, bytes, text) => follows(alloc, printer, *number, bytes, text),
        Link::Watch(bytes, conditions, size, answers, text) => watches(
            alloc,
            printer,
            (bytes, conditions, *size),
            (answers, text),
        ),
        Link::WatchUntold(bytes, conditions, counts, line, text) => {
            watches_untold(printer, paper, (bytes, conditions, *counts), (line, text))
        }
        Link::WatchLineFeeds(count) => watches_line_feeds(printer, paper, *count),
        Link::Set(condition) => {
            printer.set_condition(*condition);
            true
        }
        Link::TellUnasked => {
            printer.feed(b"\x1Da\x0E").consumed == 3 && printer.take_answer().is_some()
        }
    }
}

// Room for more answers than a link here has.
const ROOM: usize = 64;

fn serves(
    printer: &mut Printer,
    paper: &mut PaperText,
    (bytes, (read, size)): (&[u8], (u64, usize)),
    (number, line): (u32, &str),
) -> bool {
    let (mut room, mut printed) = ([0; ROOM], [0; 80]);
    let mut reader = MemoryIn::failing(bytes, 12, read);
    let mut writer = MemoryOut::new(&mut room[..size.min(ROOM)]);
    let mut output = MemoryOut::new(&mut printed);
    let served = serve_and_tell(
        printer,
        paper,
        number,
        &mut reader,
        &mut writer,
        &mut output,
    );
    served.is_ok()
        && output.written() == line.as_bytes()
        && b"\x12\x12\x12".starts_with(writer.written())
}

fn serves_parts(
    alloc: Global,
    (printer, paper): (&mut Printer, &mut PaperText),
    (parts, rows, count): (Parts, Parts, usize),
    line: &str,
) -> bool {
    match (repeated(alloc, parts, count), repeated(alloc, rows, count)) {
        (Ok(bytes), Ok(text)) => serves_long(printer, paper, (&bytes, &text), line),
        _ => false,
    }
}

fn repeated(
    alloc: Global,
    (first, part, last): Parts,
    count: usize,
) -> Result<Vec<u8>, AllocError> {
    joined(alloc, [first, part, last], count)
}

fn serves_long(
    printer: &mut Printer,
    paper: &mut PaperText,
    (bytes, text): (&[u8], &[u8]),
    line: &str,
) -> bool {
    let (mut room, mut printed) = ([0; ROOM], [0; 80]);
    let mut reader = MemoryIn::new(bytes, 500);
    let mut writer = MemoryOut::new(&mut room);
    let mut output = MemoryOut::new(&mut printed);
    let served = serve_and_tell(printer, paper, 7, &mut reader, &mut writer, &mut output);
    served.is_ok()
        && output.written() == line.as_bytes()
        && writer.written() == b"\x12\x12".as_slice()
        && printer.items().is_empty()
        && paper.as_slice() == text
}

fn follows(alloc: Global, printer: &mut Printer, number: u32, bytes: &[u8], text: &str) -> bool {
    let (mut room, mut printed) = ([0; ROOM], [0; 128]);
    let mut reader = MemoryIn::new(bytes, 12);
    let mut writer = MemoryOut::new(&mut room);
    let mut output = MemoryOut::new(&mut printed);
    let served = follow_link(
        alloc,
        printer,
        number,
        &mut reader,
        &mut writer,
        &mut output,
    );
    served.is_ok() && output.written() == text.as_bytes() && printer.items().is_empty()
}

fn watches(
    alloc: Global,
    printer: &mut Printer,
    (bytes, conditions, size): (&[u8], &[Condition], usize),
    (answers, text): (&[u8], &str),
) -> bool {
    let (mut room, mut printed) = ([0; ROOM], [0; 192]);
    let mut reader = Halting { bytes };
    let mut writer = MemoryOut::new(&mut room[..size.min(ROOM)]);
    let mut sensors = InTurn::new(conditions);
    let mut output = MemoryOut::new(&mut printed);
    let served = follow_watched(
        alloc,
        printer,
        1,
        &mut reader,
        &mut writer,
        &mut sensors,
        &mut output,
    );
    served.is_ok() && writer.written() == answers && output.written() == text.as_bytes()
}

fn watches_untold(
    printer: &mut Printer,
    paper: &mut PaperText,
    (bytes, conditions, (looks, pauses)): (&[u8], &[Condition], (usize, usize)),
    (line, text): (&str, &str),
) -> bool {
    let (mut room, mut printed) = ([0; 8], [0; 64]);
    let mut reader = bytes;
    let mut writer = MemoryOut::new(&mut room);
    let mut sensors = InTurn::new(conditions);
    let mut output = MemoryOut::new(&mut printed);
    let served = watch_and_tell(
        printer,
        paper,
        7,
        &mut reader,
        &mut writer,
        &mut sensors,
        &mut output,
    );
    served.is_ok()
        && sensors.looks == looks
        && sensors.pauses == pauses
        && writer.written().is_empty()
        && output.written() == line.as_bytes()
        && paper.as_slice() == text.as_bytes()
}

fn watches_line_feeds(printer: &mut Printer, paper: &mut PaperText, count: usize) -> bool {
    let bytes = [b'\n'; 3_000];
    let mut room = [0; 8];
    let mut sensors = Steady { condition: ONLINE };
    let mut writer = MemoryOut::new(&mut room);
    let mut reader = &bytes[..count.min(3_000)];
    let served = watch_link(printer, paper, &mut reader, &mut writer, &mut sensors);
    served.read == count
        && served.consumed == count
        && printer.items().is_empty()
        && paper.as_slice().len() == count.saturating_mul(b"feed 1\n".len())
}
