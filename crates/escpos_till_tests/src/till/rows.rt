//! The worked rows of a till: where its receipts stand and which mark is next, call after call, and where a new machine goes on.

use crate::support::driven::{Step, plays};
use crate::support::line::{ANSWERS_01, ANSWERS_23};
use crate::support::plain::{Call, Plain, Refused, Text, Told, entries_of};
use escpos_receipt::{JsonError, JsonFault, ReceiptOptions};
use escpos_test_receipts::SENT;
use escpos_till::{Failure, NoMachine, ReceiptContent, ReceiptState, TillMachine};
use std::alloc::Global;
use std::process::Abort;

const UNTRIED: ReceiptState = ReceiptState::Waiting { tried: 0 };

const ONCE: ReceiptState = ReceiptState::Waiting { tried: 1 };

const TWICE: ReceiptState = ReceiptState::Waiting { tried: 2 };

// Cancelled before it was tried, and after one try.
const GONE: ReceiptState = ReceiptState::Cancelled { tried: 0 };

const DROPPED: ReceiptState = ReceiptState::Cancelled { tried: 1 };

const FIRST: ReceiptState = ReceiptState::Recorded { place: 0 };

const SECOND: ReceiptState = ReceiptState::Recorded { place: 1 };

const NOTHING_WAITS: Step = Step::Refuses(Call::Deliver(1), Refused::NothingWaits);

// Two receipts wait; the first is tried, and recorded. The second is tried with four numbers and then with two, and recorded after the first.
const TWO_RECEIPTS: &[Step] = &[
    Step::Stand(&[], 0),
    NOTHING_WAITS,
    Step::Takes(Text::S, 1),
    Step::Takes(Text::A, 2),
    Step::Stand(&[UNTRIED, UNTRIED], 0),
    Step::Tries(1, ANSWERS_01),
    Step::Stand(&[ONCE, UNTRIED], 2),
    Step::Tells(Told::Recorded(1)),
    Step::Sent(SENT),
    Step::Stand(&[FIRST, UNTRIED], 2),
    Step::TriesInVain(2, 3, b"0002"),
    Step::Stand(&[FIRST, ONCE], 6),
    Step::Tries(1, &[b"\x37\x220006\x00", b"\x37\x220007\x00"]),
    Step::Stand(&[FIRST, TWICE], 8),
    Step::Tells(Told::Recorded(2)),
    Step::Stand(&[FIRST, SECOND], 8),
    NOTHING_WAITS,
];

#[test]
fn two_receipts(rt: HostRuntime) {
    plays(&rt, rt.alloc(), Failure::Never, TWO_RECEIPTS);
}

// Of three receipts the first is tried and cancelled, the second is delivered next, and the third is cancelled before it was tried. What waits
// no more isn't cancelled, and neither is what was never taken.
const CANCELLED: &[Step] = &[
    Step::Takes(Text::S, 1),
    Step::Takes(Text::S, 2),
    Step::Takes(Text::S, 3),
    Step::TriesInVain(1, 1, b"0000"),
    Step::Does(Call::Cancel(1)),
    Step::Tells(Told::Cancelled(1, 1)),
    Step::Does(Call::Cancel(3)),
    Step::Tells(Told::Cancelled(3, 0)),
    Step::Stand(&[DROPPED, UNTRIED, GONE], 2),
    Step::Tries(1, ANSWERS_23),
    Step::Refuses(Call::Cancel(2), Refused::Busy),
    Step::Tells(Told::Recorded(2)),
    Step::Stand(&[DROPPED, FIRST, GONE], 4),
    Step::Refuses(Call::Cancel(2), Refused::Recorded(2)),
    Step::Refuses(Call::Cancel(1), Refused::Cancelled(1)),
    Step::Refuses(Call::Cancel(4), Refused::NotTaken(4)),
    NOTHING_WAITS,
    Step::OpensAgain,
    Step::Stand(&[DROPPED, FIRST, GONE], 4),
    Step::Refuses(Call::Cancel(2), Refused::Recorded(2)),
    Step::Refuses(Call::Cancel(3), Refused::Cancelled(3)),
    Step::Refuses(Call::Cancel(4), Refused::NotTaken(4)),
    Step::Takes(Text::S, 4),
    Step::Stand(&[DROPPED, FIRST, GONE, UNTRIED], 4),
];

#[test]
fn cancelled(rt: HostRuntime) {
    plays(&rt, rt.alloc(), Failure::Never, CANCELLED);
}

// The store fails as a receipt is to be cancelled, before that is kept and after.
const FAILS_TO_CANCEL: [(Failure, &[Step]); 2] = [
    (
        Failure::BeforeKeeping { calls: 1 },
        &[
            Step::Takes(Text::S, 1),
            Step::Does(Call::Cancel(1)),
            Step::Tells(Told::NotKept),
            Step::RefusesAll,
            Step::OpensAgain,
            Step::Stand(&[UNTRIED], 0),
        ],
    ),
    (
        Failure::AfterKeeping { calls: 1 },
        &[
            Step::Takes(Text::S, 1),
            Step::Does(Call::Cancel(1)),
            Step::Tells(Told::NotKept),
            Step::RefusesAll,
            Step::OpensAgain,
            Step::Stand(&[GONE], 0),
        ],
    ),
];

// Where the store fails as a receipt is to be cancelled, the machine fails, and the receipt is cancelled or waits.
#[test]
fn cancelled_or_not(rt: HostRuntime) {
    for (failure, steps) in &FAILS_TO_CANCEL {
        plays(&rt, rt.alloc(), *failure, steps);
    }
}

// The next number is raised, and never falls; no number is taken that isn't there, and then nothing is put and nothing kept.
const RAISED: &[Step] = &[
    Step::Takes(Text::S, 1),
    Step::Does(Call::Raise(7)),
    Step::Tells(Told::Raised),
    Step::Refuses(Call::Raise(6), Refused::MarkReused(7)),
    Step::Does(Call::Raise(7)),
    Step::Tells(Told::Raised),
    Step::TriesInVain(1, 1, b"0007"),
    Step::Stand(&[ONCE], 9),
    Step::Does(Call::Raise(1_679_614)),
    Step::Tells(Told::Raised),
    Step::Refuses(Call::Deliver(2), Refused::MarksUsedUp(1)),
    Step::TriesInVain(1, 1, b"ZZZY"),
    Step::Refuses(Call::Deliver(1), Refused::MarksUsedUp(1)),
    Step::Drives(1_000),
    Step::HangUps(2),
    Step::Stand(&[TWICE], 1_679_616),
    Step::OpensAgain,
    Step::Stand(&[TWICE], 1_679_616),
];

#[test]
fn raised(rt: HostRuntime) {
    plays(&rt, rt.alloc(), Failure::Never, RAISED);
}

// A text that is no receipt gives nothing that could be taken.
#[test]
fn not_a_receipt(rt: HostRuntime) {
    let text = b"[{\"feed\":256}]".to_vec(rt.alloc()).expect(&rt, "memory");
    let fault = JsonFault::BadShape { at: 0 };
    match ReceiptContent::read(rt.alloc(), &ReceiptOptions::usual(), text) {
        Ok(_) => panic!(&rt; "a receipt"),
        Err(why) => assert!(&rt; why == JsonError::Refused(fault)),
    }
}

// The store fails at the second receipt: so does the machine. It still says what it knows.
const STORE_FAILS: &[Step] = &[
    Step::Takes(Text::S, 1),
    Step::Does(Call::Queue(Text::A)),
    Step::Tells(Told::NotKept),
    Step::RefusesAll,
    Step::Stand(&[UNTRIED], 0),
    Step::OpensAgain,
    Step::Stand(&[UNTRIED], 0),
];

#[test]
fn store_fails(rt: HostRuntime) {
    let failure = Failure::BeforeKeeping { calls: 1 };
    plays(&rt, rt.alloc(), failure, STORE_FAILS);
}

// The same, when all is kept.
const STORE_FAILS_LATER: &[Step] = &[
    Step::Takes(Text::S, 1),
    Step::Does(Call::Queue(Text::A)),
    Step::Tells(Told::NotKept),
    Step::RefusesAll,
    Step::Stand(&[UNTRIED], 0),
    Step::OpensAgain,
    Step::Stand(&[UNTRIED, UNTRIED], 0),
];

#[test]
fn store_fails_later(rt: HostRuntime) {
    let failure = Failure::AfterKeeping { calls: 1 };
    plays(&rt, rt.alloc(), failure, STORE_FAILS_LATER);
}

// S is taken.
const TAKEN: Plain = Plain::Taken(Text::S);

// Entries that are no ledger, and would be one without the last of them: a receipt is recorded, or tried, that was never taken, or is
// recorded; one is recorded untried, or twice; the next number stays at a try, or falls; one is cancelled that was never taken, or waits
// no more; one is tried or recorded that is cancelled; a key is said that a receipt has, but not one that is void; a try has so many marks that
// two may have one id, or marks above the greatest number; marks are said to be answered that are still to be put, or that may be answered yet.
const NO_LEDGERS: [&[Plain]; 23] = [
    &[TAKEN, Plain::Tried(1, 1_679_617)],
    &[
        TAKEN,
        Plain::Tried(1, 2),
        Plain::Recorded(1, 2),
        TAKEN,
        Plain::Tried(2, 1_679_619),
    ],
    &[TAKEN, Plain::Tried(1, 2), Plain::Recorded(1, 3)],
    &[TAKEN, Plain::Raised(7, 6)],
    &[TAKEN, Plain::Tried(1, 2), Plain::Raised(7, 7)],
    &[
        Plain::Raised(9, 9),
        Plain::Raised(11, 0),
        Plain::Raised(12, 12),
    ],
    &[Plain::Recorded(1, 0)],
    &[Plain::Tried(1, 9)],
    &[TAKEN, Plain::Tried(2, 2)],
    &[TAKEN, Plain::Tried(1, 2), Plain::Recorded(2, 0)],
    &[TAKEN, Plain::Recorded(1, 0)],
    &[
        TAKEN,
        Plain::Tried(1, 2),
        Plain::Recorded(1, 0),
        Plain::Recorded(1, 0),
    ],
    &[
        TAKEN,
        Plain::Tried(1, 2),
        Plain::Recorded(1, 0),
        Plain::Tried(1, 4),
    ],
    &[TAKEN, Plain::Tried(1, 5), Plain::Tried(1, 5)],
    &[TAKEN, Plain::Raised(5, 0), Plain::Tried(1, 4)],
    &[
        TAKEN,
        Plain::Tried(1, 5),
        Plain::Raised(5, 0),
        Plain::Raised(4, 0),
    ],
    &[TAKEN, Plain::Cancelled(2)],
    &[TAKEN, Plain::Cancelled(1), Plain::Cancelled(1)],
    &[
        TAKEN,
        Plain::Tried(1, 2),
        Plain::Recorded(1, 0),
        Plain::Cancelled(1),
    ],
    &[TAKEN, Plain::Cancelled(1), Plain::Tried(1, 2)],
    &[
        TAKEN,
        Plain::Tried(1, 2),
        Plain::Cancelled(1),
        Plain::Recorded(1, 0),
    ],
    &[Plain::Key(b"a"), TAKEN, Plain::Key(b"a")],
    &[
        Plain::Key(b"a"),
        Plain::Raised(0, 0),
        TAKEN,
        Plain::Key(b"a"),
        Plain::Key(b"a"),
        TAKEN,
        Plain::Cancelled(2),
        Plain::Key(b"b"),
        Plain::Key(b"a"),
    ],
];

// Why there is no machine of these entries, if there is none.
fn refusal(rt: &impl Abort, alloc: Global, entries: &[Plain]) -> Option<NoMachine> {
    match TillMachine::open(alloc, &entries_of(rt, alloc, entries)) {
        Ok(_) => None,
        Err(why) => Some(why),
    }
}

fn is_no_ledger(rt: &impl Abort, alloc: Global, entries: &[Plain]) -> bool {
    for count in 0..entries.len() {
        if refusal(rt, alloc, &entries[..count]) != None {
            return false;
        }
    }
    refusal(rt, alloc, entries) == Some(NoMachine::Damaged)
}

#[test]
fn damaged(rt: HostRuntime) {
    for (at, entries) in NO_LEDGERS.iter().enumerate() {
        assert!(&rt;
            is_no_ledger(&rt, rt.alloc(), entries),
            "row {at}, counted from 0"
        );
    }
}
