//! The calls of a line.

use crate::support::lines::{
    ONLINE, Plain, event_of, goes_over, happen, note_of_feed, prints_items, sight_of,
};
use escpos_command::{Command, LineWidth};
use escpos_host::{HostState, Receipt};
use escpos_link::{Event, Refusal, Refused, Sim, Wire};
use escpos_test_receipts::{S, have_lines, receipt_at_last};
use std::alloc::{AllocError, Global};
use std::process::Abort;

// A line whose first mark is 5. Where its memory is refused, it is asked for again.
fn line_at_last(rt: &impl Abort, alloc: Global) -> Sim {
    match Sim::new(alloc, ONLINE, 5, LineWidth::usual()) {
        Ok(sim) => sim,
        Err(AllocError) => Sim::new(alloc, ONLINE, 5, LineWidth::usual()).expect(rt, "a line"),
    }
}

#[test]
fn new_line_refused(rt: HostRuntime) {
    let sim = line_at_last(&rt, rt.alloc());
    assert!(&rt; sim.undisturbed());
    assert!(&rt; sight_of(&sim) == (HostState::Down, 5, 0, false, 0, 0, 0));
}

// The paper of S.
const PAPER_OF_S: &[u8] = b"row left Hi\nfeed 1\n";

// Such a line begins its paper with S.
fn begins_with_s(rt: &impl Abort, sim: &Sim) {
    let first = sim.paper().get(..2).expect(rt, "the paper");
    prints_items(rt, first, PAPER_OF_S);
}

// A receipt of so many line feeds. Where its memory is refused, it is asked for again.
fn feeds_at_last(rt: &impl Abort, alloc: Global, count: usize) -> Receipt {
    let mut commands = match Vec::with_capacity(alloc, count) {
        Ok(commands) => commands,
        Err(_) => Vec::with_capacity(alloc, count).expect(rt, "commands"),
    };
    for _ in 0..count {
        let _ = commands.push(Command::LineFeed);
    }
    Receipt::new(commands).expect(rt, "a receipt")
}

// What a refused `straight` leaves: no other record; what is recorded, S or nothing, stands on the paper; and the receipt, of so
// many commands, is back where it wasn't submitted.
fn is_stopped(
    rt: &impl Abort,
    sim: &Sim,
    back: Option<&Receipt>,
    (records, commands): (usize, usize),
) {
    assert!(rt; sim.records().len() == records);
    if records == 1 {
        begins_with_s(rt, sim);
    }
    match back {
        Some(receipt) => assert!(rt; receipt.commands().len() == commands),
        None => assert!(rt; sim.host().state() == HostState::Sending),
    }
}

// A receipt goes straight over a line. Where memory is refused, what was recorded stands, and the receipt comes back if it wasn't
// submitted; then both ends leave the link, and the receipt, or this other one, goes over a new link.
fn goes_at_last(rt: &impl Abort, sim: &mut Sim, receipt: Receipt, spare: Receipt) {
    let (number, commands) = (sim.records().len(), receipt.commands().len());
    if let Err(stop) = goes_over(rt, sim, receipt) {
        is_stopped(rt, sim, stop.receipt.as_ref(), (number, commands));
        assert!(rt; happen(sim, Event::HostDrops).is_ok());
        assert!(rt; happen(sim, Event::PrinterRestart).is_ok());
        assert!(rt; goes_over(rt, sim, stop.receipt.unwrap_or(spare)).is_ok());
    }
    assert!(rt; sim.records().len() == number.saturating_add(1));
    assert!(rt; sim.undisturbed());
}

// S goes over a new line.
fn s_goes_at_last(rt: &impl Abort, alloc: Global, sim: &mut Sim) {
    let receipt = receipt_at_last(alloc).expect(rt, "a receipt");
    let spare = receipt_at_last(alloc).expect(rt, "a receipt");
    goes_at_last(rt, sim, receipt, spare);
}

#[test]
fn straight_refused(rt: HostRuntime) {
    let mut sim = line_at_last(&rt, rt.alloc());
    s_goes_at_last(&rt, rt.alloc(), &mut sim);
    assert!(&rt; have_lines(sim.records(), &[S.1]));
    begins_with_s(&rt, &sim);
}

// The host goes on with no record, and the line with S on its paper.
#[test]
fn resume_refused(rt: HostRuntime) {
    let mut sim = line_at_last(&rt, rt.alloc());
    s_goes_at_last(&rt, rt.alloc(), &mut sim);
    let next = sim.host().next_mark();
    assert!(&rt; sim.resume(next, 0).is_ok());
    assert!(&rt; sim.records().is_empty());
    assert!(&rt; sim.host().state() == HostState::Down);
    begins_with_s(&rt, &sim);
}

// A receipt of 600 line feeds takes memory on the link and on the paper, not only where it is submitted.
fn feeds_go_at_last(rt: &impl Abort, alloc: Global, sim: &mut Sim) {
    let receipt = feeds_at_last(rt, alloc, 600);
    let spare = feeds_at_last(rt, alloc, 600);
    s_goes_at_last(rt, alloc, sim);
    goes_at_last(rt, sim, receipt, spare);
    assert!(rt; sim.paper().len() >= 602);
}

#[test]
fn long_straight_refused(rt: HostRuntime) {
    let mut sim = line_at_last(&rt, rt.alloc());
    feeds_go_at_last(&rt, rt.alloc(), &mut sim);
}

// No receipt comes back of an event that has none.
fn is_memory(rt: &impl Abort, refused: &Refused) {
    assert!(rt; refused.why == Refusal::Memory);
    assert!(rt; refused.receipt.is_none());
}

// A receipt is submitted. Where memory is refused it comes back, both ends are as they were, and it is submitted again. Answers
// whether memory was refused.
fn submits_at_last(rt: &impl Abort, sim: &mut Sim, receipt: Receipt) -> bool {
    let (before, commands) = (sight_of(sim), receipt.commands().len());
    match happen(sim, Event::Submit(receipt)) {
        Ok(_) => false,
        Err(refused) => {
            assert!(rt; refused.why == Refusal::Memory);
            assert!(rt; sight_of(sim) == before);
            let back = refused.receipt.expect(rt, "the receipt");
            assert!(rt; back.commands().len() == commands);
            assert!(rt; happen(sim, Event::Submit(back)).is_ok());
            true
        }
    }
}

// All bytes leave the host. Where memory is refused, some have left, and the same event lets the others leave.
fn moves(rt: &impl Abort, sim: &mut Sim) {
    if let Err(refused) = happen(sim, Event::Move(usize::MAX)) {
        is_memory(rt, &refused);
        assert!(rt; sim.host().has_out());
        assert!(rt; happen(sim, Event::Move(usize::MAX)).is_ok());
    }
    assert!(rt; !sim.host().has_out());
}

// How many bytes of Init and the line feeds after it have reached the printer, where so many items were printed before.
fn bytes_reached(sim: &Sim, before: usize) -> usize {
    let half = sim.printer().pending_len();
    match sim.paper().len().saturating_sub(before) {
        0 => half,
        printed => printed.saturating_add(half).saturating_add(2),
    }
}

// Init, 600 line feeds and a mark reach the printer. Where memory is refused, the first of these bytes have reached it, and the
// same event lets the others reach it.
fn delivers(rt: &impl Abort, sim: &mut Sim, before: usize) {
    match happen(sim, Event::Deliver(usize::MAX)) {
        Ok(note) => assert!(rt; note == note_of_feed(613)),
        Err(refused) => {
            is_memory(rt, &refused);
            assert!(rt; sim.printer().waiting() == 0);
            let left = 613usize.saturating_sub(bytes_reached(sim, before));
            let note = happen(sim, Event::Deliver(usize::MAX)).ok();
            assert!(rt; note == Some(note_of_feed(left)));
        }
    }
    assert!(rt; sim.paper().len().saturating_sub(before) == 600);
    assert!(rt; sim.printer().waiting() == 1);
}

// A receipt of 600 line feeds over a line on which S went, event by event.
fn steps_at_length(rt: &impl Abort, sim: &mut Sim, receipt: Receipt) {
    let before = sim.paper().len();
    assert!(rt; sim.undisturbed());
    let _ = submits_at_last(rt, sim, receipt);
    assert!(rt; sim.host().state() == HostState::Sending);
    moves(rt, sim);
    delivers(rt, sim, before);
}

#[test]
fn step_refused(rt: HostRuntime) {
    let receipt = feeds_at_last(&rt, rt.alloc(), 600);
    let mut sim = line_at_last(&rt, rt.alloc());
    s_goes_at_last(&rt, rt.alloc(), &mut sim);
    steps_at_length(&rt, &mut sim, receipt);
}

// The events of a link on which an opening mark is answered, and one more is put out.
const OPENING: [Plain; 6] = [
    Plain::LinkUp,
    Plain::Nudge,
    Plain::Move(usize::MAX),
    Plain::Deliver(usize::MAX),
    Plain::HandOver,
    Plain::Answer(usize::MAX),
];

// These without the first ones. Where their memory is refused, it is asked for again.
fn events_after(rt: &impl Abort, alloc: Global, done: usize) -> Vec<Event> {
    let mut events = match Vec::with_capacity(alloc, 6) {
        Ok(events) => events,
        Err(_) => Vec::with_capacity(alloc, 6).expect(rt, "events"),
    };
    for plain in OPENING.iter().skip(done) {
        let _ = events.push(event_of(rt, alloc, *plain));
    }
    events
}

// Events run up to one for which memory is refused: so many of them have happened, and no other. Then they run on from there.
fn runs(rt: &impl Abort, alloc: Global, sim: &mut Sim) {
    if let Err(stop) = sim.run(events_after(rt, alloc, 0)) {
        is_memory(rt, &stop.refused);
        assert!(rt; sim.host().state() != HostState::Ready);
        let marks = stop.done.min(2) as u32;
        assert!(rt; sim.host().next_mark() == marks.saturating_add(5));
        assert!(rt; sim.run(events_after(rt, alloc, stop.done)).is_ok());
    }
    assert!(rt; sight_of(sim) == (HostState::Ready, 7, 0, false, 0, 0, 1));
}

#[test]
fn run_refused(rt: HostRuntime) {
    let mut sim = line_at_last(&rt, rt.alloc());
    runs(&rt, rt.alloc(), &mut sim);
}

// An event without a receipt happens. Where memory is refused, both ends are as they were, or some bytes have gone; and then it
// happens. Answers whether memory was refused.
fn happens(rt: &impl Abort, alloc: Global, sim: &mut Sim, plain: Plain) -> bool {
    let before = sight_of(sim);
    match happen(sim, event_of(rt, alloc, plain)) {
        Ok(_) => false,
        Err(refused) => {
            is_memory(rt, &refused);
            if !matches!(plain, Plain::Move(_) | Plain::Deliver(_)) {
                assert!(rt; sight_of(sim) == before);
            }
            assert!(rt; happen(sim, event_of(rt, alloc, plain)).is_ok());
            true
        }
    }
}

// Events happen one after another. Answers for how many of them memory was refused.
fn all_happen(rt: &impl Abort, alloc: Global, sim: &mut Sim, events: &[Plain]) -> u32 {
    let mut refusals = 0u32;
    for plain in events {
        refusals = refusals.saturating_add(u32::from(happens(rt, alloc, sim, *plain)));
    }
    refusals
}

// Five opening marks and five status requests, and the answers to the marks.
const REQUESTS: [Plain; 18] = [
    Plain::LinkUp,
    Plain::Nudge,
    Plain::Nudge,
    Plain::Nudge,
    Plain::Nudge,
    Plain::Move(usize::MAX),
    Plain::Deliver(usize::MAX),
    Plain::HandOver,
    Plain::HandOver,
    Plain::HandOver,
    Plain::HandOver,
    Plain::HandOver,
    Plain::Answer(usize::MAX),
    Plain::Ask(1),
    Plain::Ask(1),
    Plain::Ask(1),
    Plain::Ask(1),
    Plain::Ask(1),
];

// All that there is to hand over after a receipt.
const EXCHANGE: [Plain; 9] = [
    Plain::Move(usize::MAX),
    Plain::Deliver(usize::MAX),
    Plain::HandOver,
    Plain::HandOver,
    Plain::HandOver,
    Plain::HandOver,
    Plain::HandOver,
    Plain::HandOver,
    Plain::Answer(usize::MAX),
];

// Five opening marks, five status requests and S, event by event: S is recorded, and on the paper once.
fn steps(rt: &impl Abort, alloc: Global, sim: &mut Sim, receipt: Receipt) {
    let before = all_happen(rt, alloc, sim, &REQUESTS);
    let submitted = submits_at_last(rt, sim, receipt);
    let after = all_happen(rt, alloc, sim, &EXCHANGE);
    assert!(rt; sight_of(sim) == (HostState::Ready, 11, 1, false, 2, 0, 0));
    let refusals = before
        .saturating_add(after)
        .saturating_add(u32::from(submitted));
    assert!(rt; refusals <= 1, "{refusals} events were refused");
}

#[test]
fn line_allocations_fail(rt: HostRuntime) {
    let receipt = receipt_at_last(rt.alloc()).expect(&rt, "a receipt");
    let mut sim = line_at_last(&rt, rt.alloc());
    steps(&rt, rt.alloc(), &mut sim, receipt);
}

// A wire with these bytes on its live link. Where its memory is refused, it is asked for again.
fn wire_at_last(rt: &impl Abort, alloc: Global, bytes: &[u8]) -> Wire {
    let mut wire = match Wire::new(alloc, ONLINE, LineWidth::usual()) {
        Ok(wire) => wire,
        Err(AllocError) => Wire::new(alloc, ONLINE, LineWidth::usual()).expect(rt, "a wire"),
    };
    if wire.link_up().is_err() {
        assert!(rt; wire.link_up().is_ok());
    }
    if wire.put(bytes).is_err() {
        assert!(rt; wire.put(bytes).is_ok());
    }
    wire
}

// All that is on the wire reaches the printer.
fn delivers_at_last(rt: &impl Abort, wire: &mut Wire) {
    if let Err(refused) = wire.deliver(100) {
        assert!(rt; refused.why == Refusal::Memory);
        assert!(rt; wire.deliver(100).is_ok());
    }
}

// An answer is on its way.
fn hands_over_at_last(rt: &impl Abort, wire: &mut Wire) {
    if let Err(refused) = wire.hand_over() {
        assert!(rt; refused.why == Refusal::Memory);
        assert!(rt; wire.hand_over().is_ok());
    }
}

// A line and a request for the printer's status: it is printed, and answered.
#[test]
fn wire_refused(rt: HostRuntime) {
    let mut wire = wire_at_last(&rt, rt.alloc(), b"Hi\n\x10\x04\x01");
    delivers_at_last(&rt, &mut wire);
    prints_items(&rt, wire.paper(), PAPER_OF_S);
    hands_over_at_last(&rt, &mut wire);
    assert!(&rt; wire.front(100) == b"\x12".as_slice());
    wire.heard(1);
    assert!(&rt; wire.front(100).is_empty());
    wire.hang_up();
}
