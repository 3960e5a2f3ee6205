//! What is done to a host step by step, and what must come of it. A test is a row of steps, and `plays` plays it.
//!
//! Few functions own a host, all of them here: what a function owns is proved dropped at each way out of it.

use crate::support::long::{nudges_until_all_are_out, nudges_up_to, prints_long};
use crate::support::sending::{Sending, leaves, sends, sends_in_reads};
use crate::support::wide::{Wide, puts_out_wide, submits_wide};
use escpos_command::{AutomaticStatus, MarkId, StatusKind};
use escpos_host::{Heard, Host, HostError, HostEvent, HostState, Receipt, open_link_reporting};
use escpos_test_receipts::{are_line, have_lines, read_receipt};
use std::alloc::Global;
use std::process::Abort;

// The answers to the marks of these numbers.
pub const ANSWER_0: &[u8] = b"\x37\x220000\x00";

pub const ANSWER_1: &[u8] = b"\x37\x220001\x00";

pub const ANSWER_2: &[u8] = b"\x37\x220002\x00";

pub const ANSWER_3: &[u8] = b"\x37\x220003\x00";

pub const ANSWER_4: &[u8] = b"\x37\x220004\x00";

pub const ANSWER_5: &[u8] = b"\x37\x220005\x00";

pub const ANSWER_6: &[u8] = b"\x37\x220006\x00";

/// What is heard, in a constant. (A `HostEvent` may hold a mark or a block, which no constant can.)
#[derive(Clone, Copy)]
pub enum Event {
    None,
    Opened,
    Recorded(usize),
    Status(u8),
}

/// What is done to a host, and what must come of it. A receipt stands here as its text and the line that it prints.
#[derive(Clone, Copy)]
pub enum Step<'a> {
    /// A link comes up, and is being opened.
    LinkUp,
    /// No link comes up, for this reason.
    NoLink(HostError),
    /// A link comes up on which the printer tells its condition, or none does, for this reason.
    LinkUpReporting(Result<(), HostError>),
    /// The same, with so many opening marks.
    OpenReporting(u32, Result<(), HostError>),
    /// A link comes up, and is opened by the answer to mark 0.
    Open,
    /// The link goes down.
    LinkDown,
    /// One more opening mark is put, or none, for this reason.
    Nudge(Result<(), HostError>),
    /// Opening marks are put and taken out, one after another, from the next number, which is this one, up to that one.
    NudgeUpTo(u32, u32),
    /// Opening marks are taken out and put until all ids are out.
    NudgeUntilAllAreOut,
    /// A status of this kind is asked for, with this outcome. Nothing changes but what there is to take out.
    Ask(u8, Result<(), HostError>),
    /// The printer is asked to tell its condition unasked, with this outcome.
    AskReports(Result<(), HostError>),
    /// A receipt is submitted.
    Submit((&'a [u8], &'a [u8])),
    /// A receipt comes back, for this reason, and no mark is used.
    NoSubmit((&'a [u8], &'a [u8]), HostError),
    /// A piece is heard, with this event at its end.
    Hear(&'a [u8], Event),
    /// So many bytes of a piece are heard, with this event.
    HearSome(&'a [u8], usize, Event),
    /// The answer to a mark of an older link is heard, with this id.
    HearLate(&'a [u8], [u8; 4]),
    /// So many bytes of a piece are heard, with the block with these bytes.
    HearBlock(&'a [u8], usize, [u8; 4]),
    /// The byte at this place of a piece fits no answer, and the link is given up.
    BadAnswer(&'a [u8], usize),
    /// A link that is being opened is given up, since the byte at this place of a piece fits no answer.
    GiveUp(&'a [u8], usize),
    /// This is taken out, and then there is no more.
    Out(&'a [u8]),
    /// These three bytes are taken out first.
    FirstOut(&'a [u8]),
    /// This is taken out byte by byte, and then there is no more.
    OutByteByByte(&'a [u8]),
    /// There is something to take out, or nothing.
    HasOut(bool),
    /// The next receipt that is left has this line.
    Left(&'a [u8]),
    /// No receipt is left.
    NoneLeft,
    /// The host is in this state.
    Is(HostState),
    /// The next mark has this number.
    NextMark(u32),
    /// The oldest mark that may be answered has this number.
    OldestMark(u32),
    /// So many marks may be put.
    MarksLeft(u32),
    /// The records have these lines.
    Records(&'a [&'a [u8]]),
    /// The host has recorded the receipt with the line `Hi` and is ready, or it is down and has nothing of it.
    IsRecorded(bool),
    /// A receipt is sent over a link.
    Send(Sending<'a>),
    /// The same, with so many reads.
    SendInReads(Sending<'a>, u64),
    /// The same, with no more than so many reads; these answers are left.
    SendAndLeave(Sending<'a>, u64, &'a [u8]),
    /// A raster is submitted.
    SubmitWide(Wide),
    /// Its receipt is taken out, of so many bytes, and then there is no more.
    OutWide(Wide, usize),
    /// So many links, each with four receipts, which are recorded.
    LongRun(usize),
}

/// A new host, whose first mark has this number, does each step in turn.
pub fn plays(rt: &impl Abort, alloc: Global, first_mark: u32, steps: &[Step]) {
    let mut host = Host::new(alloc, first_mark);
    does_all(rt, alloc, &mut host, steps);
}

/// A host that continues from the records of an older one does each step in turn: its first mark has this number, and the oldest
/// mark of the older one that may be answered has that one.
pub fn plays_resumed(
    rt: &impl Abort,
    alloc: Global,
    (first_mark, oldest_mark): (u32, u32),
    recorded: &[(&[u8], &[u8])],
    steps: &[Step],
) {
    let records = receipts_of(alloc, recorded).expect(rt, "receipts");
    let mut host = Host::resume(alloc, first_mark, oldest_mark, records);
    does_all(rt, alloc, &mut host, steps);
}

/// The records that a new host hands over once it has done each step in turn.
pub fn records_of(rt: &impl Abort, alloc: Global, steps: &[Step]) -> Vec<Receipt> {
    let mut host = Host::new(alloc, 0);
    does_all(rt, alloc, &mut host, steps);
    host.into_records()
}

fn receipts_of(alloc: Global, texts: &[(&[u8], &[u8])]) -> Option<Vec<Receipt>> {
    let mut receipts = Vec::new(alloc);
    for (text, _) in texts {
        receipts.push(read_receipt(alloc, text).ok()?).ok()?;
    }
    Some(receipts)
}

fn does_all(rt: &impl Abort, alloc: Global, host: &mut Host, steps: &[Step]) {
    for (place, step) in steps.iter().enumerate() {
        assert!(rt; does(host, alloc, step), "at step {place}, counted from 0");
    }
}

// Does a step. Answers whether what comes of it is what the step says.
fn does(host: &mut Host, alloc: Global, step: &Step) -> bool {
    match step {
        Step::Submit((text, _)) => submits(host, alloc, text),
        Step::NoSubmit((text, line), why) => hands_back(host, alloc, text, line, *why),
        Step::Send(sending) => sends(host, alloc, sending),
        Step::SendInReads(sending, pulls) => sends_in_reads(host, alloc, sending, *pulls),
        Step::SendAndLeave(sending, pulls, left) => leaves(host, alloc, sending, *pulls, left),
        Step::SubmitWide(raster) => submits_wide(host, alloc, *raster),
        Step::OutWide(raster, length) => puts_out_wide(host, *raster, *length),
        Step::LongRun(count) => prints_long(host, alloc, *count),
        Step::NudgeUpTo(first, end) => nudges_up_to(host, *first, *end),
        Step::NudgeUntilAllAreOut => nudges_until_all_are_out(host),
        other => calls(host, other),
    }
}

// Makes a call that neither takes a receipt nor hears anything.
fn calls(host: &mut Host, step: &Step) -> bool {
    match step {
        Step::LinkUp => links_up(host),
        Step::NoLink(why) => host.link_up() == Err(*why),
        Step::LinkUpReporting(wanted) => host.link_up_reporting() == *wanted,
        Step::OpenReporting(count, wanted) => open_link_reporting(host, *count) == *wanted,
        Step::Open => links_up(host) && opens(host),
        Step::LinkDown => links_down(host),
        Step::Nudge(wanted) => host.nudge() == *wanted,
        Step::Ask(number, wanted) => asks(host, *number, *wanted),
        Step::AskReports(wanted) => host.ask_reports() == *wanted,
        other => takes(host, other),
    }
}

// Hears a piece, or takes out what there is.
fn takes(host: &mut Host, step: &Step) -> bool {
    match step {
        Step::Hear(piece, event) => hears(host, piece, piece.len(), event_of(*event)),
        Step::HearSome(piece, consumed, event) => hears(host, piece, *consumed, event_of(*event)),
        Step::HearLate(piece, id) => hears_late(host, piece, *id),
        Step::HearBlock(piece, consumed, block) => hears_block(host, piece, *consumed, *block),
        Step::BadAnswer(piece, at) => hears_badly(host, piece, *at),
        Step::GiveUp(piece, at) => gives_up(host, piece, *at),
        Step::Out(bytes) => puts_out(host, bytes),
        Step::FirstOut(bytes) => puts_out_first(host, bytes),
        Step::OutByteByByte(bytes) => puts_out_byte_by_byte(host, bytes),
        Step::Left(line) => leaves_line(host, line),
        Step::NoneLeft => leaves_no_more(host),
        Step::IsRecorded(is_recorded) => is_left(host, *is_recorded),
        other => shows(host, other),
    }
}

// What can be seen of a host is what the step says.
fn shows(host: &Host, step: &Step) -> bool {
    match step {
        Step::HasOut(wanted) => host.has_out() == *wanted,
        Step::Is(state) => host.state() == *state,
        Step::NextMark(number) => host.next_mark() == *number,
        Step::OldestMark(number) => host.oldest_mark() == *number,
        Step::MarksLeft(count) => host.marks_left() == *count,
        Step::Records(lines) => have_lines(host.records(), lines),
        _ => false,
    }
}

pub fn links_up(host: &mut Host) -> bool {
    host.link_up() == Ok(()) && host.state() == HostState::Opening
}

fn opens(host: &mut Host) -> bool {
    hears(host, ANSWER_0, 7, HostEvent::Opened) && host.state() == HostState::Ready
}

fn links_down(host: &mut Host) -> bool {
    host.link_down();
    true
}

pub fn asks(host: &mut Host, number: u8, wanted: Result<(), HostError>) -> bool {
    let (state, next) = (host.state(), host.next_mark());
    let count = host.records().len();
    match StatusKind::new(number) {
        Some(kind) => {
            host.ask(kind) == wanted
                && host.state() == state
                && host.next_mark() == next
                && host.records().len() == count
        }
        None => false,
    }
}

pub fn submits(host: &mut Host, alloc: Global, text: &[u8]) -> bool {
    match read_receipt(alloc, text) {
        Ok(receipt) => host.submit(receipt).is_ok() && host.state() == HostState::Sending,
        Err(_) => false,
    }
}

fn hands_back(host: &mut Host, alloc: Global, text: &[u8], line: &[u8], wanted: HostError) -> bool {
    let next = host.next_mark();
    let Ok(receipt) = read_receipt(alloc, text) else {
        return false;
    };
    match host.submit(receipt) {
        Ok(()) => false,
        Err((why, back)) => {
            why == wanted && are_line(back.commands(), line) && host.next_mark() == next
        }
    }
}

fn event_of(event: Event) -> HostEvent {
    match event {
        Event::None => HostEvent::None,
        Event::Opened => HostEvent::Opened,
        Event::Recorded(number) => HostEvent::Recorded(number),
        Event::Status(byte) => HostEvent::Status(byte),
    }
}

pub fn hears(host: &mut Host, piece: &[u8], consumed: usize, event: HostEvent) -> bool {
    host.heard(piece) == Heard { consumed, event }
}

fn hears_late(host: &mut Host, piece: &[u8], id: [u8; 4]) -> bool {
    match MarkId::new(id) {
        Some(mark) => hears(host, piece, piece.len(), HostEvent::Late(mark)),
        None => false,
    }
}

fn hears_block(host: &mut Host, piece: &[u8], consumed: usize, block: [u8; 4]) -> bool {
    match AutomaticStatus::new(block) {
        Some(told) => hears(host, piece, consumed, HostEvent::Condition(told)),
        None => false,
    }
}

fn hears_badly(host: &mut Host, piece: &[u8], at: usize) -> bool {
    hears(host, piece, at, HostEvent::BadAnswer { at }) && host.state() == HostState::Down
}

fn gives_up(host: &mut Host, piece: &[u8], at: usize) -> bool {
    links_up(host)
        && hears_badly(host, piece, at)
        && asks(host, 1, Err(HostError::NotReady))
        && host.nudge() == Err(HostError::NotReady)
}

pub fn puts_out(host: &mut Host, wanted: &[u8]) -> bool {
    let mut room = [0; 100];
    let has_out = host.has_out();
    let count = host.take_out(&mut room);
    has_out && room.get(..count) == Some(wanted) && !host.has_out()
}

fn puts_out_first(host: &mut Host, wanted: &[u8]) -> bool {
    let mut room = [0; 3];
    host.take_out(&mut room) == wanted.len() && room.as_slice() == wanted
}

fn puts_out_byte_by_byte(host: &mut Host, wanted: &[u8]) -> bool {
    let mut room = [0];
    for byte in wanted {
        if !host.has_out() || host.take_out(&mut room) != 1 || room != [*byte] {
            return false;
        }
    }
    !host.has_out() && host.take_out(&mut room) == 0
}

fn leaves_line(host: &mut Host, line: &[u8]) -> bool {
    match host.take_left() {
        Some(left) => are_line(left.commands(), line),
        None => false,
    }
}

pub fn leaves_no_more(host: &mut Host) -> bool {
    host.take_left().is_none()
}

pub fn is_left(host: &mut Host, is_recorded: bool) -> bool {
    let is_so = if is_recorded {
        host.state() == HostState::Ready && have_lines(host.records(), &[b"Hi"])
    } else {
        host.state() == HostState::Down && host.records().is_empty()
    };
    is_so && leaves_no_more(host) && !host.has_out()
}
