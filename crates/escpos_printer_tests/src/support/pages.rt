//! What is done to a page step by step, and what must come of it. A test is a row of steps, and `plays` plays it.
//!
//! Only `plays` owns a page: what a function owns is proved dropped at each way out of it.

use crate::support::items::{has_text, write_items_to};
use escpos_command::{Bars, Command, FeedLines, Form, LineWidth, QrData, Raster, Symbology};
use escpos_decode::decode;
use escpos_io::{Device, MemoryOut, Outgoing};
use escpos_paper::{Item, Page};
use escpos_test_values::bytes_of;
use std::alloc::Global;
use std::process::Abort;

/// What is done to a page, and what must come of it.
#[derive(Clone, Copy)]
pub enum Step<'a> {
    /// The commands that these bytes spell are carried out.
    Apply(&'a [u8]),
    /// `Hi` is put as a whole.
    PutHi,
    /// `!` is put as a whole.
    PutExclamationMark,
    /// So many `x` are printed, and the line is ended.
    PrintLine(usize),
    /// So many feeds of 255 lines are carried out.
    Feeds(usize),
    /// A raster of 128 bytes by 4095 rows is printed, of which only the first four dots are black.
    LargestRaster,
    /// An EAN-8 barcode of 5512345 is printed, and a raster of one byte by two rows.
    BarsAndRaster,
    /// So many of this byte are stored as the data of a QR code.
    Store(u8, usize),
    /// The page is made ready for a command.
    Ready,
    /// The page is switched off and on.
    Restart,
    /// What is printed is torn off.
    TearOff,
    /// The page has room for a command, or not.
    HasRoom(bool),
    /// So many items lie on the page.
    Items(usize),
    /// This is the page's text.
    Text(&'a [u8]),
    /// A writer that fails after this text of the page has it, and the error says how much it is.
    CutShort(&'a [u8]),
    /// The text is that of so many feeds of 255 lines.
    TextOfFeeds(usize),
    /// The text is so many lines with the longest content of a QR code, each byte of which takes three characters.
    LongLines(usize),
    /// A writer that fails after so many bytes of the line of a QR code of 7089 sevens has these, and the error says how many.
    LongLineCutShort(usize),
    /// The lines have this width, and those of the text that have an `x` have so many each.
    Rows(u16, &'a [usize]),
    /// The content and the dots of `BarsAndRaster` can be read on the page.
    HasBarsAndRaster,
    /// The content AB of two QR codes can be read on the page, the first of model 1 and size 5.
    HasTwoCodes,
}

/// A new page whose lines have so many dots does each step in turn.
pub fn plays(rt: &impl Abort, alloc: Global, dots: u16, steps: &[Step]) {
    let width = LineWidth::new(dots).expect(rt, "a width");
    let mut page = Page::new(alloc, width);
    for (place, step) in steps.iter().enumerate() {
        assert!(rt;
            does(&mut page, alloc, step),
            "at step {place}, counted from 0"
        );
    }
}

/// The same, with the usual width.
pub fn plays_usual(rt: &impl Abort, alloc: Global, steps: &[Step]) {
    plays(rt, alloc, LineWidth::usual().dots(), steps);
}

// Does a step. Answers whether what comes of it is what the step says.
fn does(page: &mut Page, alloc: Global, step: &Step) -> bool {
    match step {
        Step::Apply(bytes) => applies_bytes(page, alloc, bytes),
        Step::PutHi => puts_hi(page),
        Step::PutExclamationMark => puts_exclamation_mark(page),
        Step::PrintLine(count) => prints_line(page, alloc, *count),
        Step::Feeds(count) => feeds(page, *count),
        Step::LargestRaster => prints_largest_raster(page, alloc),
        Step::BarsAndRaster => prints_bars(page, alloc) && prints_raster(page, alloc),
        Step::Store(byte, count) => stores(page, alloc, *byte, *count),
        Step::Ready => page.ready().is_ok(),
        Step::Restart => restarts(page),
        Step::TearOff => tears_off(page),
        seen => shows(page, alloc, seen),
    }
}

// What can be seen of a page is what the step says.
fn shows(page: &Page, alloc: Global, step: &Step) -> bool {
    match step {
        Step::HasRoom(wanted) => page.has_room() == *wanted,
        Step::Rows(dots, counts) => {
            page.line_width().dots() == *dots && has_rows(page.items(), alloc, counts)
        }
        on_paper => lies(page.items(), alloc, on_paper),
    }
}

// What lies on paper is what the step says.
fn lies(items: &[Item], alloc: Global, step: &Step) -> bool {
    match step {
        Step::Items(count) => items.len() == *count,
        Step::Text(text) => has_text(items, text),
        Step::CutShort(text) => is_cut_short(items, text),
        Step::TextOfFeeds(count) => is_text_of_feeds(items, alloc, *count),
        Step::LongLines(count) => has_long_lines(items, alloc, *count),
        Step::LongLineCutShort(len) => is_long_line_cut_short(items, alloc, *len),
        Step::HasBarsAndRaster => has_bars_and_raster(items),
        Step::HasTwoCodes => has_two_codes(items),
        _ => false,
    }
}

fn applies(page: &mut Page, command: Command) -> bool {
    page.apply(command).is_ok()
}

fn applies_bytes(page: &mut Page, alloc: Global, bytes: &[u8]) -> bool {
    match decode(alloc, &[bytes]) {
        Ok(decoded) => applies_all(page, decoded.commands),
        Err(_) => false,
    }
}

fn applies_all(page: &mut Page, commands: Vec<Command>) -> bool {
    let mut are_applied = true;
    for command in commands {
        are_applied &= applies(page, command);
    }
    are_applied
}

fn puts_hi(page: &mut Page) -> bool {
    page.apply_text(b"Hi") == Ok(2)
}

fn puts_exclamation_mark(page: &mut Page) -> bool {
    page.apply_text(b"!") == Ok(1)
}

fn prints_line(page: &mut Page, alloc: Global, count: usize) -> bool {
    match bytes_of(alloc, (b"", b'x', count, b"\n")) {
        Ok(bytes) => applies_bytes(page, alloc, &bytes),
        Err(_) => false,
    }
}

fn feeds(page: &mut Page, count: usize) -> bool {
    for _ in 0..count {
        if !applies(page, Command::FeedLines(FeedLines::new(255))) {
            return false;
        }
    }
    true
}

fn prints_largest_raster(page: &mut Page, alloc: Global) -> bool {
    let Ok(mut dots) = vec![in alloc; 0u8; 524_160] else {
        return false;
    };
    dots[0] = 0xF0;
    match Raster::new(0, 128, 4095, dots) {
        Ok(raster) => applies(page, Command::Raster(raster)),
        Err(_) => false,
    }
}

fn prints_bars(page: &mut Page, alloc: Global) -> bool {
    let Ok(content) = b"5512345".to_vec(alloc) else {
        return false;
    };
    match Bars::new(Form::B, Symbology::Ean8, content) {
        Ok(bars) => applies(page, Command::Bars(bars)),
        Err(_) => false,
    }
}

fn prints_raster(page: &mut Page, alloc: Global) -> bool {
    let Ok(dots) = [0xF0, 0x0F].to_vec(alloc) else {
        return false;
    };
    match Raster::new(0, 1, 2, dots) {
        Ok(raster) => applies(page, Command::Raster(raster)),
        Err(_) => false,
    }
}

fn stores(page: &mut Page, alloc: Global, byte: u8, count: usize) -> bool {
    let Ok(data) = bytes_of(alloc, (b"", byte, count, b"")) else {
        return false;
    };
    match QrData::new(data) {
        Ok(data) => applies(page, Command::QrStore(data)),
        Err(_) => false,
    }
}

fn restarts(page: &mut Page) -> bool {
    page.restart();
    true
}

fn tears_off(page: &mut Page) -> bool {
    page.tear_off();
    true
}

// A writer with this room for the text of items fails once it has this, which is as much as it has room for.
fn fails_with(items: &[Item], writer: &mut MemoryOut, text: &[u8]) -> bool {
    let written = text.len() as u128;
    write_items_to(items, writer) == Err(Device { written }) && writer.written() == text
}

fn is_cut_short(items: &[Item], text: &[u8]) -> bool {
    let mut room = [0; 64];
    match room.get_mut(..text.len()) {
        Some(room) => fails_with(items, &mut MemoryOut::new(room), text),
        None => false,
    }
}

fn is_long_line_cut_short(items: &[Item], alloc: Global, len: usize) -> bool {
    match bytes_of(alloc, (b"qr left 2 3 L ", b'7', 7089, b"\n")) {
        Ok(line) => is_line_cut_short(items, line.get(..len)),
        Err(_) => false,
    }
}

fn is_line_cut_short(items: &[Item], text: Option<&[u8]>) -> bool {
    let mut room = [0; 7104];
    match text {
        Some(text) => match room.get_mut(..text.len()) {
            Some(room) => fails_with(items, &mut MemoryOut::taking(room, 999), text),
            None => false,
        },
        None => false,
    }
}

// The text of items, if it can be written.
fn text_of(items: &[Item], alloc: Global) -> Option<Vec<u8>> {
    let mut sink = Outgoing::new(Vec::new(alloc));
    match write_items_to(items, &mut sink) {
        Ok(()) => Some(sink.into_inner()),
        Err(_) => None,
    }
}

fn is_text_of_feeds(items: &[Item], alloc: Global, count: usize) -> bool {
    match text_of(items, alloc) {
        Some(text) => is_repeated(&text, b"feed 255\n", count),
        None => false,
    }
}

fn has_long_lines(items: &[Item], alloc: Global, count: usize) -> bool {
    match (text_of(items, alloc), long_line(alloc)) {
        (Some(text), Some(line)) => is_repeated(&text, &line, count),
        _ => false,
    }
}

fn long_line(alloc: Global) -> Option<Vec<u8>> {
    let mut line = b"qr left 2 3 L ".to_vec(alloc).ok()?;
    for _ in 0..7089 {
        line.extend_from_slice(b"\\1b").ok()?;
    }
    line.push(b'\n').ok()?;
    Some(line)
}

// Whether a text is this line, so many times.
fn is_repeated(text: &[u8], line: &[u8], count: usize) -> bool {
    let mut left = text;
    for _ in 0..count {
        match left.strip_prefix(line) {
            Some(later) => left = later,
            None => return false,
        }
    }
    left.is_empty()
}

fn has_rows(items: &[Item], alloc: Global, wanted: &[usize]) -> bool {
    match text_of(items, alloc) {
        Some(text) => are_rows(&text, wanted),
        None => false,
    }
}

// Whether the lines of this text that have an `x` have so many each.
fn are_rows(text: &[u8], wanted: &[usize]) -> bool {
    let mut counts = wanted.iter();
    let mut count = 0usize;
    for byte in text {
        if *byte == b'x' {
            count = count.saturating_add(1);
        } else if *byte == b'\n' && count > 0 {
            if counts.next() != Some(&count) {
                return false;
            }
            count = 0;
        }
    }
    counts.next() == None
}

fn has_bars_and_raster(items: &[Item]) -> bool {
    match items {
        [
            Item::Bars { content, added, .. },
            Item::Raster { dots, x, y, .. },
        ] => {
            content.as_slice() == b"5512345".as_slice()
                && *added == Some(7)
                && dots.as_slice() == [0xF0, 0x0F].as_slice()
                && (*x, *y) == (1, 2)
        }
        _ => false,
    }
}

fn has_two_codes(items: &[Item]) -> bool {
    match items {
        [
            Item::Qr {
                model: 1,
                size: 5,
                content,
                ..
            },
            Item::Qr { content: again, .. },
        ] => content.as_slice() == b"AB".as_slice() && again.as_slice() == b"AB".as_slice(),
        _ => false,
    }
}
