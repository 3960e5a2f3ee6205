//! A simulated line by its events: what happens on it, what is told of that, and what is seen of both ends.

use escpos_command::StatusKind;
use escpos_host::{HostEvent, HostState, Receipt};
use escpos_io::MemoryOut;
use escpos_link::{Event, Handed, Note, Refused, Sim, StraightStop};
use escpos_paper::{Item, write_items};
use escpos_printer::{Condition, Fed, FeedStop};
use escpos_test_receipts::{S, read_receipt};
use std::alloc::Global;
use std::process::Abort;

// A printer with nothing amiss.
pub const ONLINE: Condition = Condition {
    cover_open: false,
    near_end: false,
    paper_end: false,
};

// An event, with S for a receipt.
#[derive(Clone, Copy)]
pub enum Plain {
    LinkUp,
    Nudge,
    Submit,
    Ask(u8),
    Move(usize),
    Deliver(usize),
    HandOver,
    Answer(usize),
    PrinterLeaves,
    PrinterRestart,
    HostDrops,
    HostRestart(u32),
    SetCondition(Condition),
}

pub fn event_of(rt: &impl Abort, alloc: Global, plain: Plain) -> Event {
    match plain {
        Plain::LinkUp => Event::LinkUp,
        Plain::Nudge => Event::Nudge,
        Plain::Submit => Event::Submit(read_receipt(alloc, S.0).expect(rt, "a receipt")),
        Plain::Ask(number) => Event::Ask(StatusKind::new(number).expect(rt, "a kind of status")),
        Plain::Move(count) => Event::Move(count),
        Plain::Deliver(count) => Event::Deliver(count),
        Plain::HandOver => Event::HandOver,
        Plain::Answer(count) => Event::Answer(count),
        Plain::PrinterLeaves => Event::PrinterLeaves,
        Plain::PrinterRestart => Event::PrinterRestart,
        Plain::HostDrops => Event::HostDrops,
        Plain::HostRestart(first_mark) => Event::HostRestart(first_mark),
        Plain::SetCondition(condition) => Event::SetCondition(condition),
    }
}

// Notes of so many bytes that were all taken, and of answers.
pub fn note_of_feed(consumed: usize) -> Note {
    Note::Fed(Fed {
        consumed,
        stop: FeedStop::All,
    })
}

pub fn note_of_hearing(consumed: usize, last: HostEvent) -> Note {
    Note::Heard { consumed, last }
}

pub const ON: Note = Note::Handed(Handed::On);

// Lets an event happen. It says nothing of what comes of it, so that its callers carry none of the contract.
pub fn happen(sim: &mut Sim, event: Event) -> Result<Note, Refused> {
    sim.step(event)
}

// The same of a receipt that goes straight over the line, on which nothing is under way.
pub fn goes_over(rt: &impl Abort, sim: &mut Sim, receipt: Receipt) -> Result<usize, StraightStop> {
    assert!(rt; sim.undisturbed());
    sim.straight(receipt)
}

// An event that is told so.
pub fn tells(rt: &impl Abort, sim: &mut Sim, event: Event, note: Note) {
    match happen(sim, event) {
        Ok(told) => assert!(rt; told == note),
        Err(_) => panic!(rt; "refused"),
    }
}

// Events that are told so, one after another.
pub fn tells_all(rt: &impl Abort, alloc: Global, sim: &mut Sim, rows: &[(Plain, Note)]) {
    for (plain, note) in rows {
        tells(rt, sim, event_of(rt, alloc, *plain), *note);
    }
}

// A link that is opened with mark 0.
pub fn opens_line(rt: &impl Abort, alloc: Global, sim: &mut Sim) {
    let rows = [
        (Plain::LinkUp, Note::Done),
        (Plain::Move(11), Note::Moved(11)),
        (Plain::Deliver(11), note_of_feed(11)),
        (Plain::HandOver, ON),
        (Plain::Answer(7), note_of_hearing(7, HostEvent::Opened)),
    ];
    tells_all(rt, alloc, sim, &rows);
}

// What is seen of both ends: the host's state, next mark and records, whether it has bytes to take out; the printer's items,
// bytes of a half command, and answers.
pub type Sight = (HostState, u32, usize, bool, usize, usize, usize);

pub fn sight_of(sim: &Sim) -> Sight {
    let (host, printer) = (sim.host(), sim.printer());
    let (items, half) = (sim.paper().len(), printer.pending_len());
    (
        host.state(),
        host.next_mark(),
        sim.records().len(),
        host.has_out(),
        items,
        half,
        printer.waiting(),
    )
}

// A paper's text.
pub fn prints_items(rt: &impl Abort, items: &[Item], text: &[u8]) {
    let mut room = [0; 512];
    let mut sink = MemoryOut::new(&mut room);
    assert!(rt; write_items(items, &mut sink).is_ok());
    assert!(rt; sink.written() == text);
}
