//! The worked rows of a line through its calls: that they succeed where there is memory, and what they answer.

use crate::support::lines::{
    ON, ONLINE, Plain, Sight, event_of, goes_over, happen, note_of_feed, note_of_hearing,
    opens_line, prints_items, sight_of, tells, tells_all,
};
use escpos_command::LineWidth;
use escpos_host::{HostEvent, HostState};
use escpos_link::{Event, Handed, Note, Refusal, Sim};
use escpos_printer::Condition;
use escpos_test_receipts::{S, have_lines, joined, read_receipt};
use std::alloc::Global;
use std::process::Abort;

// A line whose first mark is mark 0, with a printer that is online.
fn new_line(rt: &impl Abort, alloc: Global) -> Sim {
    Sim::new(alloc, ONLINE, 0, LineWidth::usual()).expect(rt, "a line")
}

// What both ends of a line have: the same as this, S as often as it is recorded, and this paper.
fn has(rt: &impl Abort, sim: &Sim, sight: Sight, lines: &[&[u8]], paper: &[u8]) {
    assert!(rt; sight_of(sim) == sight);
    assert!(rt; have_lines(sim.records(), lines));
    prints_items(rt, sim.paper(), paper);
}

// S goes straight over the line, and gets this number.
fn goes_straight(rt: &impl Abort, alloc: Global, sim: &mut Sim, number: usize) {
    match goes_over(rt, sim, read_receipt(alloc, S.0).expect(rt, "a receipt")) {
        Ok(record) => assert!(rt; record == number),
        Err(_) => panic!(rt; "no memory"),
    }
}

const ONCE: &[u8] = b"row left Hi\nfeed 1\n";

const TWICE: &[u8] = b"row left Hi\nfeed 1\nrow left Hi\nfeed 1\n";

const THRICE: &[u8] = b"row left Hi\nfeed 1\nrow left Hi\nfeed 1\nrow left Hi\nfeed 1\n";

// A restart of the host that is refused so.
fn is_refused(rt: &impl Abort, sim: &mut Sim, first_mark: u32, why: Refusal) {
    match happen(sim, Event::HostRestart(first_mark)) {
        Ok(_) => panic!(rt; "not refused"),
        Err(refused) => {
            assert!(rt; refused.why == why);
            assert!(rt; refused.receipt.is_none());
        }
    }
}

#[test]
fn straight(rt: HostRuntime) {
    let mut sim = new_line(&rt, rt.alloc());
    goes_straight(&rt, rt.alloc(), &mut sim, 0);
    let sight = (HostState::Ready, 2, 1, false, 2, 0, 0);
    has(&rt, &sim, sight, &[b"Hi"], ONCE);
    is_refused(&rt, &mut sim, 1, Refusal::MarkReused { least: 2 });
    goes_straight(&rt, rt.alloc(), &mut sim, 1);
    let sight = (HostState::Ready, 3, 2, false, 4, 0, 0);
    has(&rt, &sim, sight, &[b"Hi", b"Hi"], TWICE);
    tells(&rt, &mut sim, Event::HostRestart(3), Note::Done);
    let sight = (HostState::Down, 3, 2, false, 4, 0, 0);
    has(&rt, &sim, sight, &[b"Hi", b"Hi"], TWICE);
}

#[test]
fn host_restart(rt: HostRuntime) {
    let mut sim = new_line(&rt, rt.alloc());
    goes_straight(&rt, rt.alloc(), &mut sim, 0);
    is_refused(&rt, &mut sim, 1, Refusal::MarkReused { least: 2 });
    let sight = (HostState::Ready, 2, 1, false, 2, 0, 0);
    has(&rt, &sim, sight, &[b"Hi"], ONCE);
    assert!(&rt; sim.undisturbed());
    tells(&rt, &mut sim, Event::HostRestart(2), Note::Done);
    let sight = (HostState::Down, 2, 1, false, 2, 0, 0);
    has(&rt, &sim, sight, &[b"Hi"], ONCE);
}

// Receipts go over a line whose marks have the ids ZZZY, ZZZZ, 0000 and, once the host is restarted, 0001 and 0002.
#[test]
fn ids_come_round(rt: HostRuntime) {
    let mut sim = Sim::new(rt.alloc(), ONLINE, 1_679_614, LineWidth::usual()).expect(&rt, "a line");
    goes_straight(&rt, rt.alloc(), &mut sim, 0);
    goes_straight(&rt, rt.alloc(), &mut sim, 1);
    let sight = (HostState::Ready, 1_679_617, 2, false, 4, 0, 0);
    has(&rt, &sim, sight, &[b"Hi", b"Hi"], TWICE);
    let reused = Refusal::MarkReused { least: 1_679_617 };
    is_refused(&rt, &mut sim, 1, reused);
    tells(&rt, &mut sim, Event::HostRestart(1_679_617), Note::Done);
    tells(&rt, &mut sim, Event::PrinterLeaves, Note::Done);
    goes_straight(&rt, rt.alloc(), &mut sim, 2);
    let sight = (HostState::Ready, 1_679_619, 3, false, 6, 0, 0);
    has(&rt, &sim, sight, &[b"Hi", b"Hi", b"Hi"], THRICE);
}

// The host goes on with this many of its records, at most, and with this number.
fn resumes(rt: &impl Abort, sim: &mut Sim, first_mark: u32, count: usize) {
    assert!(rt; sim.resume(first_mark, count).is_ok());
}

// It doesn't, since the number may have been used.
fn resumes_not(rt: &impl Abort, sim: &mut Sim, first_mark: u32, least: u32) {
    match sim.resume(first_mark, 0) {
        Ok(()) => panic!(rt; "not refused"),
        Err(refused) => {
            assert!(rt; refused.why == Refusal::MarkReused { least });
            assert!(rt; refused.receipt.is_none());
        }
    }
}

// A record is forgotten, and its receipt is printed and recorded again. Where more are to be kept than there are, all are.
#[test]
fn host_resumes(rt: HostRuntime) {
    let mut sim = new_line(&rt, rt.alloc());
    goes_straight(&rt, rt.alloc(), &mut sim, 0);
    goes_straight(&rt, rt.alloc(), &mut sim, 1);
    resumes_not(&rt, &mut sim, 2, 3);
    let sight = (HostState::Ready, 3, 2, false, 4, 0, 0);
    has(&rt, &sim, sight, &[b"Hi", b"Hi"], TWICE);
    resumes(&rt, &mut sim, 3, 1);
    let sight = (HostState::Down, 3, 1, false, 4, 0, 0);
    has(&rt, &sim, sight, &[b"Hi"], TWICE);
    resumes(&rt, &mut sim, 7, 5);
    let sight = (HostState::Down, 7, 1, false, 4, 0, 0);
    has(&rt, &sim, sight, &[b"Hi"], TWICE);
    tells(&rt, &mut sim, Event::PrinterLeaves, Note::Done);
    goes_straight(&rt, rt.alloc(), &mut sim, 1);
    let sight = (HostState::Ready, 9, 2, false, 6, 0, 0);
    has(&rt, &sim, sight, &[b"Hi", b"Hi"], THRICE);
    resumes(&rt, &mut sim, 9, 0);
    let sight = (HostState::Down, 9, 0, false, 6, 0, 0);
    has(&rt, &sim, sight, &[], THRICE);
}

// The events of row lost_answer, and what is told of each: on the second link the answer for S comes late, and records it. Then S
// is sent again.
const LOST_ANSWER: [Plain; 22] = [
    Plain::LinkUp,
    Plain::Move(11),
    Plain::Deliver(11),
    Plain::HandOver,
    Plain::Answer(7),
    Plain::Submit,
    Plain::Move(16),
    Plain::Deliver(16),
    Plain::HostDrops,
    Plain::LinkUp,
    Plain::PrinterLeaves,
    Plain::HandOver,
    Plain::Answer(7),
    Plain::Move(11),
    Plain::Deliver(11),
    Plain::HandOver,
    Plain::Answer(7),
    Plain::Submit,
    Plain::Move(16),
    Plain::Deliver(16),
    Plain::HandOver,
    Plain::Answer(7),
];

fn notes_of_lost_answer() -> [Note; 22] {
    [
        Note::Done,
        Note::Moved(11),
        note_of_feed(11),
        ON,
        note_of_hearing(7, HostEvent::Opened),
        Note::Done,
        Note::Moved(16),
        note_of_feed(16),
        Note::Done,
        Note::Done,
        Note::Done,
        ON,
        note_of_hearing(7, HostEvent::Recorded(0)),
        Note::Moved(11),
        note_of_feed(11),
        ON,
        note_of_hearing(7, HostEvent::Opened),
        Note::Done,
        Note::Moved(16),
        note_of_feed(16),
        ON,
        note_of_hearing(7, HostEvent::Recorded(1)),
    ]
}

fn steps_with_lost_answer(rt: &impl Abort, alloc: Global, sim: &mut Sim) {
    for (plain, note) in LOST_ANSWER.iter().zip(&notes_of_lost_answer()) {
        tells(rt, sim, event_of(rt, alloc, *plain), *note);
    }
}

fn runs_with_lost_answer(rt: &impl Abort, alloc: Global, sim: &mut Sim) {
    let mut events = Vec::new(alloc);
    for plain in &LOST_ANSWER {
        events
            .push(event_of(rt, alloc, *plain))
            .expect(rt, "memory");
    }
    assert!(rt; sim.run(events).is_ok());
}

// After these events S is recorded twice and lies on the paper twice; nothing is on the link, and a request is answered over it.
fn has_lost_an_answer(rt: &impl Abort, alloc: Global, sim: &mut Sim) {
    let sight = (HostState::Ready, 4, 2, false, 4, 0, 0);
    has(rt, sim, sight, &[b"Hi", b"Hi"], TWICE);
    assert!(rt; sim.undisturbed());
    let rows = [
        (Plain::Ask(1), Note::Done),
        (Plain::Move(99), Note::Moved(3)),
        (Plain::Deliver(99), note_of_feed(3)),
        (Plain::HandOver, ON),
        (Plain::HandOver, Note::Handed(Handed::None)),
        (
            Plain::Answer(99),
            note_of_hearing(1, HostEvent::Status(0x12)),
        ),
    ];
    tells_all(rt, alloc, sim, &rows);
}

// The same events by `run` leave the same line.
#[test]
fn lost_answer(rt: HostRuntime) {
    let mut sim = new_line(&rt, rt.alloc());
    steps_with_lost_answer(&rt, rt.alloc(), &mut sim);
    has_lost_an_answer(&rt, rt.alloc(), &mut sim);
    let mut sim = new_line(&rt, rt.alloc());
    runs_with_lost_answer(&rt, rt.alloc(), &mut sim);
    has_lost_an_answer(&rt, rt.alloc(), &mut sim);
}

// Four events, the third of which is refused.
fn stops_at_the_third(rt: &impl Abort, alloc: Global, sim: &mut Sim) {
    let mut events = Vec::new(alloc);
    for plain in [Plain::LinkUp, Plain::Nudge, Plain::LinkUp, Plain::Nudge] {
        events.push(event_of(rt, alloc, plain)).expect(rt, "memory");
    }
    match sim.run(events) {
        Ok(()) => panic!(rt; "not refused"),
        Err(stop) => {
            assert!(rt; stop.done == 2);
            assert!(rt; stop.refused.why == Refusal::AlreadyUp);
        }
    }
    assert!(rt; sim.host().next_mark() == 7);
}

#[test]
fn run_stops_at_a_refusal(rt: HostRuntime) {
    let mut sim = Sim::new(rt.alloc(), ONLINE, 5, LineWidth::usual()).expect(&rt, "a line");
    stops_at_the_third(&rt, rt.alloc(), &mut sim);
    let rows = [
        (Plain::Move(11), Note::Moved(11)),
        (Plain::Deliver(11), note_of_feed(11)),
        (Plain::HandOver, ON),
        (Plain::Answer(9), note_of_hearing(7, HostEvent::Opened)),
        (Plain::Deliver(1), note_of_feed(0)),
    ];
    tells_all(&rt, rt.alloc(), &mut sim, &rows);
}

// A line of 210,000 characters goes straight over in one piece, and is 5,000 rows of 42.
#[test]
fn long_receipt(rt: HostRuntime) {
    let text = joined(rt.alloc(), ["[{\"line\":\"", "A", "\"}]"], 210_000).expect(&rt, "memory");
    let receipt = read_receipt(rt.alloc(), &text).expect(&rt, "a receipt");
    let mut sim = new_line(&rt, rt.alloc());
    assert!(&rt; goes_over(&rt, &mut sim, receipt).is_ok());
    let sight = (HostState::Ready, 2, 1, false, 10_000, 0, 0);
    assert!(&rt; sight_of(&sim) == sight);
    assert!(&rt; sim.undisturbed());
}

// A request of each kind is answered by the byte at its place.
fn answers_requests(rt: &impl Abort, alloc: Global, sim: &mut Sim, bytes: [u8; 4]) {
    for (number, byte) in [1, 2, 3, 4].iter().zip(&bytes) {
        let rows = [
            (Plain::Ask(*number), Note::Done),
            (Plain::Move(3), Note::Moved(3)),
            (Plain::Deliver(3), note_of_feed(3)),
            (Plain::HandOver, ON),
            (
                Plain::Answer(1),
                note_of_hearing(1, HostEvent::Status(*byte)),
            ),
        ];
        tells_all(rt, alloc, sim, &rows);
    }
}

// A new line has its printer in this condition. A link is opened online; in this condition the requests are answered.
fn is_in(rt: &impl Abort, alloc: Global, sim: &mut Sim, condition: Condition, bytes: [u8; 4]) {
    assert!(rt; sim.undisturbed() == sim.printer().is_online());
    assert!(rt; sim.printer().condition() == condition);
    tells(rt, sim, Event::SetCondition(ONLINE), Note::Done);
    opens_line(rt, alloc, sim);
    tells(rt, sim, Event::SetCondition(condition), Note::Done);
    answers_requests(rt, alloc, sim, bytes);
}

// Cover open, near end and paper ended, in each combination, and the answers to the four requests.
const STATUSES: [([bool; 3], [u8; 4]); 8] = [
    ([false, false, false], [0x12, 0x12, 0x12, 0x12]),
    ([true, false, false], [0x1A, 0x16, 0x12, 0x12]),
    ([false, true, false], [0x12, 0x12, 0x12, 0x1E]),
    ([true, true, false], [0x1A, 0x16, 0x12, 0x1E]),
    ([false, false, true], [0x1A, 0x32, 0x12, 0x72]),
    ([true, false, true], [0x1A, 0x36, 0x12, 0x72]),
    ([false, true, true], [0x1A, 0x32, 0x12, 0x7E]),
    ([true, true, true], [0x1A, 0x36, 0x12, 0x7E]),
];

#[test]
fn status_answers(rt: HostRuntime) {
    for ([cover_open, near_end, paper_end], bytes) in &STATUSES {
        let condition = Condition {
            cover_open: *cover_open,
            near_end: *near_end,
            paper_end: *paper_end,
        };
        let mut sim = Sim::new(rt.alloc(), condition, 0, LineWidth::usual()).expect(&rt, "a line");
        is_in(&rt, rt.alloc(), &mut sim, condition, *bytes);
    }
}

// Six opening marks, all of which the printer has taken.
fn opens_with_six(rt: &impl Abort, alloc: Global, sim: &mut Sim) {
    let rows = [
        (Plain::LinkUp, Note::Done),
        (Plain::Nudge, Note::Done),
        (Plain::Nudge, Note::Done),
        (Plain::Nudge, Note::Done),
        (Plain::Nudge, Note::Done),
        (Plain::Nudge, Note::Done),
        (Plain::Move(66), Note::Moved(66)),
        (Plain::Deliver(66), note_of_feed(66)),
    ];
    tells_all(rt, alloc, sim, &rows);
}

// What is heard of the bytes of answers from this place to that one: the seventh byte opens the link.
fn heard_of(from: usize, to: usize) -> Note {
    let opens = from < 7 && 7 <= to;
    let last = if opens {
        HostEvent::Opened
    } else {
        HostEvent::None
    };
    note_of_hearing(to.saturating_sub(from), last)
}

// Six answers are handed over, and after each the host hears so many bytes; then it hears the rest.
fn hears_in_pieces(rt: &impl Abort, sim: &mut Sim, most: usize) {
    let mut count = 0usize;
    for _ in 0..6 {
        tells(rt, sim, Event::HandOver, ON);
        let next = count.saturating_add(most);
        tells(rt, sim, Event::Answer(most), heard_of(count, next));
        count = next;
    }
    tells(rt, sim, Event::Answer(99), heard_of(count, 42));
    let sight = (HostState::Ready, 6, 0, false, 0, 0, 0);
    assert!(rt; sight_of(sim) == sight);
}

// Answers that come in pieces of one to six bytes, with another handed over before each.
#[test]
fn answers_in_pieces(rt: HostRuntime) {
    for most in 1..7 {
        let mut sim = new_line(&rt, rt.alloc());
        opens_with_six(&rt, rt.alloc(), &mut sim);
        hears_in_pieces(&rt, &mut sim, most);
    }
}

// Two values are equal only where they are the same, and a copy is the same.
#[test]
fn values_of_a_line(rt: HostRuntime) {
    let refusal = Refusal::MarkReused { least: 1 };
    assert!(&rt; refusal != Refusal::MarkReused { least: 2 });
    assert!(&rt; refusal != Refusal::Memory);
    let handed = Note::Handed(Handed::On);
    let copied = handed;
    assert!(&rt; copied == handed);
    assert!(&rt; copied != Note::Handed(Handed::Lost));
    assert!(&rt; copied != Note::Done);
    assert!(&rt; Note::Moved(1) != Note::Moved(2));
}
