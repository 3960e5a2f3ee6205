//! What is done to a printer step by step, and what must come of it. A test is a row of steps, and `plays` plays it.
//!
//! Only `plays` owns a printer: what a function owns is proved dropped at each way out of it.

use crate::support::items::{has_text, is_raster_and_text};
use crate::support::links::{Link, Source, serves, serves_again, serves_all, serves_in_reads};
use escpos_command::{Answer, AutomaticStatus, FaultReason, LineWidth, MarkId};
use escpos_printer::{Condition, Fed, FeedStop, Printer};
use std::alloc::{AllocError, Global};
use std::process::Abort;

pub const ONLINE: Condition = Condition {
    cover_open: false,
    near_end: false,
    paper_end: false,
};

pub const OPEN: Condition = Condition {
    cover_open: true,
    near_end: false,
    paper_end: false,
};

pub const NEAR_END: Condition = Condition {
    cover_open: false,
    near_end: true,
    paper_end: false,
};

pub fn condition_of([cover_open, near_end, paper_end]: [bool; 3]) -> Condition {
    Condition {
        cover_open,
        near_end,
        paper_end,
    }
}

// Four status requests, of the kinds 1 to 4.
pub const REQUESTS: &[u8] = b"\x10\x04\x01\x10\x04\x02\x10\x04\x03\x10\x04\x04";

// A line, a barcode and a raster in mid-line, a QR code that is printed twice, a cut, a status request and a mark.
pub const RECEIPT: &[u8] =
    b"Hi\n\x1DkD\x075512345A\x1Dv0\x00\x02\x00\x02\x00\xF0\x0F\xFF\x00\x1D(k\x05\x001P0AB\x1D(k\x03\x001Q0\x1D(k\x03\x001Q0\x1DV\x00\x10\x04\x01\x1D(H\x06\x00000000";

/// What is done to a printer, and what must come of it.
#[derive(Clone, Copy)]
pub enum Step<'a> {
    /// A piece is fed, all of which is taken.
    Feed(&'a [u8]),
    /// A piece is fed, each byte alone.
    FeedByteByByte(&'a [u8]),
    /// A piece is fed, so many bytes of which are taken before one that the printer doesn't take offline.
    Offline(&'a [u8], usize),
    /// A piece is fed, so many bytes of which are taken before one whose answer has no room.
    Full(&'a [u8], usize),
    /// A piece is fed, in which the byte at this place is refused.
    Fault(&'a [u8], usize, FaultReason),
    /// A piece is fed. Where an allocation fails, the bytes that weren't taken are fed again.
    FeedAgain(&'a [u8]),
    /// The same, and where an allocation fails the printer is like one that was fed the bytes that were taken.
    FeedLikeAnother(&'a [u8]),
    /// An empty piece is fed, which changes nothing.
    FeedNothing,
    /// These spellings are fed whole, and again byte by byte with an empty piece after each byte: that prints as much.
    EmptyPieces(&'a [&'a [u8]]),
    /// Pieces are fed, each whole and then each byte by byte, and this is printed each time.
    Prints(&'a [&'a [u8]], &'a [u8]),
    /// A piece is fed, in which the byte at this place is refused; where it is skipped this is printed, and torn off.
    Skips(&'a [u8], usize, FaultReason, &'a [u8]),
    /// The sensors change to this.
    Set(Condition),
    /// The sensors change to this (cover open, near end, paper ended), which the printer tells once, in a block.
    Tells([bool; 3], [u8; 4]),
    /// The printer is switched off and on.
    Restart,
    /// What is printed is torn off.
    TearOff,
    /// The next answer is this status.
    Status(u8),
    /// The next answer is to the mark of this number.
    Mark(u32),
    /// The next answers are to the marks from this number on, up to that one.
    Marks(u32, u32),
    /// The next answer is the block with these bytes.
    Block([u8; 4]),
    /// No answer waits.
    NoAnswer,
    /// So many answers wait.
    Waiting(usize),
    /// The half command has so many bytes.
    Half(usize),
    /// The sensors say this.
    Says(Condition),
    /// The printer is online, or not.
    Online(bool),
    /// So many items lie on paper.
    Items(usize),
    /// This is printed.
    Paper(&'a [u8]),
    /// A raster, these characters and a feed lie on paper.
    RasterAndText(&'a [u8]),
    /// A link over a source.
    Serve(Source<'a>, Link<'a>),
    /// Links over one source, one after another.
    ServeAll(Source<'a>, &'a [Link<'a>]),
    /// A link that reads its source so often.
    ServeInReads(Source<'a>, Link<'a>, u64),
    /// A link over these bytes, to which this is answered. Where an allocation fails, the bytes that weren't taken are served again.
    ServeAgain(&'a [u8], &'a [u8]),
}

/// A new printer in this condition does each step in turn. Where its memory is refused it is asked for again.
pub fn plays(rt: &impl Abort, alloc: Global, condition: Condition, steps: &[Step]) {
    let mut printer = printer_at_last(rt, alloc, condition);
    for (place, step) in steps.iter().enumerate() {
        assert!(rt;
            does(&mut printer, alloc, step),
            "at step {place}, counted from 0"
        );
    }
}

pub fn printer_at_last(rt: &impl Abort, alloc: Global, condition: Condition) -> Printer {
    match Printer::new(alloc, condition, LineWidth::usual()) {
        Ok(printer) => printer,
        Err(AllocError) => Printer::new(alloc, condition, LineWidth::usual()).expect(rt, "memory"),
    }
}

// Does a step. Answers whether what comes of it is what the step says.
fn does(printer: &mut Printer, alloc: Global, step: &Step) -> bool {
    match step {
        Step::Feed(piece) => feeds(printer, piece),
        Step::FeedByteByByte(piece) => feeds_byte_by_byte(printer, piece),
        Step::Offline(piece, taken) => stops(printer, piece, *taken, FeedStop::Offline),
        Step::Full(piece, taken) => stops(printer, piece, *taken, FeedStop::AnswersFull),
        Step::Fault(piece, at, why) => stops_at_a_fault(printer, piece, *at, *why),
        Step::FeedAgain(piece) => feeds_again(printer, piece),
        Step::FeedLikeAnother(piece) => feeds_like_another(printer, alloc, piece),
        Step::FeedNothing => is_fed_nothing(printer),
        Step::EmptyPieces(spellings) => prints_as_much(printer, spellings),
        Step::Prints(pieces, text) => prints_alike(printer, pieces, text),
        Step::Skips(piece, at, why, text) => {
            stops_at_a_fault(printer, piece, *at, *why) && prints_rest(printer, piece, *at, text)
        }
        Step::Serve(source, link) => serves(printer, source, link),
        Step::ServeAll(source, links) => serves_all(printer, source, links),
        Step::ServeInReads(source, link, pulls) => serves_in_reads(printer, source, link, *pulls),
        Step::ServeAgain(bytes, out) => serves_again(printer, bytes, out),
        Step::Set(condition) => sets(printer, *condition),
        Step::Tells(sensors, block) => tells_once(printer, condition_of(*sensors), *block),
        Step::Restart => restarts(printer),
        Step::TearOff => tears_off(printer),
        Step::Status(byte) => answers(printer, Some(Answer::Status(*byte))),
        Step::Mark(number) => answers_marks(printer, *number, number.saturating_add(1)),
        Step::Marks(first, end) => answers_marks(printer, *first, *end),
        Step::Block(bytes) => answers_a_block(printer, *bytes),
        Step::NoAnswer => answers(printer, None),
        seen => shows(printer, seen),
    }
}

// What can be seen of a printer is what the step says.
fn shows(printer: &Printer, step: &Step) -> bool {
    match step {
        Step::Waiting(count) => printer.waiting() == *count,
        Step::Half(count) => printer.pending_len() == *count,
        Step::Says(condition) => printer.condition() == *condition,
        Step::Online(wanted) => printer.is_online() == *wanted,
        Step::Items(count) => printer.items().len() == *count,
        Step::Paper(text) => has_text(printer.items(), text),
        Step::RasterAndText(text) => is_raster_and_text(printer.items(), text),
        _ => false,
    }
}

fn stops(printer: &mut Printer, piece: &[u8], consumed: usize, stop: FeedStop) -> bool {
    printer.feed(piece) == Fed { consumed, stop }
}

fn feeds(printer: &mut Printer, piece: &[u8]) -> bool {
    stops(printer, piece, piece.len(), FeedStop::All)
}

fn stops_at_a_fault(printer: &mut Printer, piece: &[u8], at: usize, why: FaultReason) -> bool {
    stops(printer, piece, at, FeedStop::Fault { at, why })
}

fn feeds_byte_by_byte(printer: &mut Printer, piece: &[u8]) -> bool {
    for byte in piece {
        if !feeds(printer, &[*byte]) {
            return false;
        }
    }
    true
}

// The bytes of a piece that weren't taken where an allocation failed; none where all were.
fn feeds_some<'a>(printer: &mut Printer, piece: &'a [u8]) -> Option<&'a [u8]> {
    let fed = printer.feed(piece);
    match fed.stop {
        FeedStop::All if fed.consumed == piece.len() => Some(&[]),
        FeedStop::Memory if fed.consumed < piece.len() => piece.get(fed.consumed..),
        _ => None,
    }
}

pub fn feeds_again(printer: &mut Printer, piece: &[u8]) -> bool {
    match feeds_some(printer, piece) {
        Some(rest) => rest.is_empty() || feeds(printer, rest),
        None => false,
    }
}

fn feeds_like_another(printer: &mut Printer, alloc: Global, piece: &[u8]) -> bool {
    match feeds_some(printer, piece) {
        Some([]) => true,
        Some(rest) => is_like_another(printer, alloc, piece, rest) && feeds(printer, rest),
        None => false,
    }
}

// Nothing differs that can be seen from another printer, which was fed a piece up to this rest.
fn is_like_another(printer: &Printer, alloc: Global, piece: &[u8], rest: &[u8]) -> bool {
    let Ok(mut other) = Printer::new(alloc, ONLINE, LineWidth::usual()) else {
        return false;
    };
    match piece.strip_suffix(rest) {
        Some(taken) => feeds(&mut other, taken) && are_alike(printer, &other),
        None => false,
    }
}

fn are_alike(printer: &Printer, other: &Printer) -> bool {
    printer.pending_len() == other.pending_len()
        && printer.waiting() == other.waiting()
        && printer.items().len() == other.items().len()
}

// An empty piece is taken, and leaves the half command, the answers that wait and the paper as they are.
fn is_fed_nothing(printer: &mut Printer) -> bool {
    let (half, waiting) = (printer.pending_len(), printer.waiting());
    let count = printer.items().len();
    feeds(printer, b"")
        && printer.pending_len() == half
        && printer.waiting() == waiting
        && printer.items().len() == count
}

fn prints_as_much(printer: &mut Printer, spellings: &[&[u8]]) -> bool {
    for spelling in spellings {
        if !feeds(printer, spelling) {
            return false;
        }
    }
    let count = printer.items().len();
    printer.restart();
    printer.tear_off();
    for spelling in spellings {
        if !is_fed_byte_by_byte(printer, spelling) {
            return false;
        }
    }
    printer.items().len() == count
}

// The bytes of a spelling one by one, with an empty piece after each.
fn is_fed_byte_by_byte(printer: &mut Printer, spelling: &[u8]) -> bool {
    for (place, byte) in spelling.iter().enumerate() {
        let is_half = printer.pending_len() == place;
        if !is_half || !feeds(printer, &[*byte]) || !is_fed_nothing(printer) {
            return false;
        }
    }
    printer.pending_len() == 0
}

fn prints_alike(printer: &mut Printer, pieces: &[&[u8]], text: &[u8]) -> bool {
    for piece in pieces {
        if !feeds(printer, piece) {
            return false;
        }
    }
    if !has_text(printer.items(), text) {
        return false;
    }
    printer.tear_off();
    for piece in pieces {
        if !feeds_byte_by_byte(printer, piece) {
            return false;
        }
    }
    let is_printed = has_text(printer.items(), text);
    printer.tear_off();
    is_printed
}

// What follows a byte of a piece is fed, and this is printed.
fn prints_rest(printer: &mut Printer, piece: &[u8], at: usize, text: &[u8]) -> bool {
    let is_fed = match piece.get(at.saturating_add(1)..) {
        Some(rest) => feeds(printer, rest),
        None => false,
    };
    let is_printed = has_text(printer.items(), text);
    printer.tear_off();
    is_fed && is_printed
}

fn sets(printer: &mut Printer, condition: Condition) -> bool {
    printer.set_condition(condition);
    true
}

fn tells_once(printer: &mut Printer, condition: Condition, block: [u8; 4]) -> bool {
    printer.set_condition(condition);
    if !answers_a_block(printer, block) {
        return false;
    }
    printer.set_condition(condition);
    answers(printer, None)
}

fn restarts(printer: &mut Printer) -> bool {
    printer.restart();
    true
}

fn tears_off(printer: &mut Printer) -> bool {
    printer.tear_off();
    true
}

fn answers(printer: &mut Printer, wanted: Option<Answer>) -> bool {
    printer.take_answer() == wanted
}

fn answers_marks(printer: &mut Printer, first: u32, end: u32) -> bool {
    for number in first..end {
        match MarkId::of_number(number) {
            Some(id) if answers(printer, Some(Answer::Mark(id))) => (),
            _ => return false,
        }
    }
    true
}

fn answers_a_block(printer: &mut Printer, bytes: [u8; 4]) -> bool {
    match AutomaticStatus::new(bytes) {
        Some(block) => answers(printer, Some(Answer::Condition(block))),
        None => false,
    }
}
