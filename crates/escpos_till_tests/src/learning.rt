//! What a machine makes of entries that others have added to its ledger, and which entries they may add.

use crate::support::by_hand::{Step, plays};
use crate::support::plain::{Call, Plain, Text, Told, entries_of};
use escpos_host::{HostError, SendFault};
use escpos_till::{Entry, StoreFault, others_since};
use std::alloc::Global;
use std::process::Abort;

// The ledger has taken S.
const TAKEN: &[Plain] = &[Plain::Taken(Text::S)];

const DELIVER: Step = Step::Does(Call::Deliver(1));

// It is to keep that receipt 1 is tried, and that 2 is the next mark number.
const KEEPS_TRY: Step = Step::IsToKeep(Plain::Tried(1, 2));

const A_TRY_HAS_OTHER_NUMBERS: &[Step] = &[
    DELIVER,
    Step::Connects(true),
    KEEPS_TRY,
    Step::Learns(&[
        Plain::Raised(7, 0),
        Plain::Key(b"sale-7"),
        Plain::Taken(Text::S),
    ]),
    Step::IsToKeep(Plain::Tried(1, 9)),
    Step::Receipts(2),
    Step::Next(7),
];

// The next number is raised and another receipt is taken, with a key: the try has the numbers from there on.
#[test]
fn a_try_has_other_numbers(rt: HostRuntime) {
    plays(&rt, rt.alloc(), TAKEN, A_TRY_HAS_OTHER_NUMBERS);
}

const A_TRY_IS_CANCELLED: &[Step] = &[
    DELIVER,
    Step::Connects(true),
    KEEPS_TRY,
    Step::Learns(&[Plain::Cancelled(1)]),
    Step::HangsUp,
    Step::Tells(Told::Cancelled(1, 0)),
];

// The receipt is cancelled: it isn't sent.
#[test]
fn a_try_is_cancelled(rt: HostRuntime) {
    plays(&rt, rt.alloc(), TAKEN, A_TRY_IS_CANCELLED);
}

const A_TRY_HAS_NO_NUMBERS_LEFT: &[Step] = &[
    DELIVER,
    Step::Connects(true),
    KEEPS_TRY,
    Step::Learns(&[Plain::Raised(1_679_615, 0)]),
    Step::Waits(SendFault::Refused(HostError::MarksUsedUp)),
];

// One number is left, and a try takes two.
#[test]
fn a_try_has_no_numbers_left(rt: HostRuntime) {
    plays(&rt, rt.alloc(), TAKEN, A_TRY_HAS_NO_NUMBERS_LEFT);
}

const A_RECORD_OF_OTHERS_FAILS: &[Step] = &[
    DELIVER,
    Step::Connects(true),
    KEEPS_TRY,
    Step::FailsToLearn(&[Plain::Recorded(1, 0)]),
    Step::HangsUp,
    Step::Tells(Told::NotKept),
];

// Others may not record a receipt.
#[test]
fn a_record_of_others_fails(rt: HostRuntime) {
    plays(&rt, rt.alloc(), TAKEN, A_RECORD_OF_OTHERS_FAILS);
}

const ONLY_A_DELIVERY_LEARNS: &[Step] = &[
    Step::Learns(&[Plain::Raised(7, 0)]),
    Step::Next(0),
    Step::Does(Call::Queue(Text::S)),
    Step::FailsToLearn(&[Plain::Raised(7, 0)]),
    Step::Tells(Told::NotKept),
];

// A machine that takes a receipt has its ledger to itself; and one at rest learns nothing.
#[test]
fn only_a_delivery_learns(rt: HostRuntime) {
    plays(&rt, rt.alloc(), &[], ONLY_A_DELIVERY_LEARNS);
}

// How many more entries are found than were known, or why those are no such.
fn found_since(alloc: Global, known: &[Entry], found: &[Entry]) -> Result<usize, StoreFault> {
    match others_since(alloc, known, found) {
        Ok(others) => Ok(others.len()),
        Err(why) => Err(why),
    }
}

const NO_SUCH: Result<usize, StoreFault> = Err(StoreFault::Failed);

// What is found since S was taken, and how many more entries those are, if they are such.
const FOUND_SINCE: &[(&[Plain], Result<usize, StoreFault>)] = &[
    (&[Plain::Taken(Text::S)], Ok(0)),
    (&[Plain::Taken(Text::S), Plain::Cancelled(1)], Ok(1)),
    (&[], NO_SUCH),
    (&[Plain::Raised(1, 0)], NO_SUCH),
    (&[Plain::Taken(Text::S), Plain::Cancelled(2)], NO_SUCH),
    (&[Plain::Taken(Text::S), Plain::Tried(1, 2)], NO_SUCH),
];

fn is_found(
    rt: &impl Abort,
    alloc: Global,
    found: &[Plain],
    wanted: Result<usize, StoreFault>,
) -> bool {
    let known = entries_of(rt, alloc, TAKEN);
    found_since(alloc, &known, &entries_of(rt, alloc, found)) == wanted
}

#[test]
fn found_since_then(rt: HostRuntime) {
    for (at, (found, wanted)) in FOUND_SINCE.iter().enumerate() {
        assert!(&rt;
            is_found(&rt, rt.alloc(), found, *wanted),
            "row {at}, counted from 0"
        );
    }
}
