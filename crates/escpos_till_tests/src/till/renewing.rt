//! The rows of a ledger that goes on from an older one.

use crate::support::by_hand::{Step, plays};
use crate::support::plain::{Call, Plain, Refused, Text, entries_of};
use escpos_till::{Entry, NotRenewed, ReceiptState, renewed};
use std::alloc::Global;
use std::process::Abort;

// Four receipts: the first is recorded, the second cancelled, the third tried twice, and the fourth waits. The first, the second and the fourth
// have keys, and one key is void.
const OLDER: &[Plain] = &[
    Plain::Key(b"one"),
    Plain::Taken(Text::S),
    Plain::Key(b"two"),
    Plain::Taken(Text::S),
    Plain::Tried(1, 2),
    Plain::Recorded(1, 2),
    Plain::Key(b"void"),
    Plain::Cancelled(2),
    Plain::Taken(Text::A),
    Plain::Tried(3, 4),
    Plain::Key(b"four"),
    Plain::Taken(Text::S),
    Plain::Tried(3, 6),
    Plain::Raised(9, 0),
];

// What goes on from it.
const NEWER: &[Plain] = &[
    Plain::Renewed(2, 2),
    Plain::Earlier(1, b"one"),
    Plain::Earlier(2, b"two"),
    Plain::Taken(Text::A),
    Plain::Tried(3, 4),
    Plain::Key(b"four"),
    Plain::Taken(Text::S),
    Plain::Tried(3, 6),
    Plain::Raised(9, 0),
];

fn are_same(found: &[Entry], wanted: &[Entry]) -> bool {
    for (entry, other) in found.iter().zip(wanted) {
        if !entry.is_same(other) {
            return false;
        }
    }
    found.len() == wanted.len()
}

// The entries that go on from these are those.
fn goes_on(alloc: Global, entries: &[Entry], wanted: &[Entry]) -> bool {
    match renewed(alloc, entries) {
        Ok(new) => are_same(&new, wanted),
        Err(_) => false,
    }
}

fn goes_on_as(rt: &impl Abort, alloc: Global, entries: &[Plain], wanted: &[Plain]) -> bool {
    let entries = entries_of(rt, alloc, entries);
    goes_on(alloc, &entries, &entries_of(rt, alloc, wanted))
}

// A new ledger that is renewed at once stays as it is.
#[test]
fn what_waits_is_carried_over(rt: HostRuntime) {
    assert!(&rt; goes_on_as(&rt, rt.alloc(), OLDER, NEWER));
    assert!(&rt; goes_on_as(&rt, rt.alloc(), NEWER, NEWER));
}

const NUMBERS_GO_ON: &[Step] = &[
    Step::AreEarlier(2),
    Step::Stand(&[
        ReceiptState::Waiting { tried: 2 },
        ReceiptState::Waiting { tried: 0 },
    ]),
    Step::Next(9),
    Step::Refuses(Call::Cancel(2), Refused::Earlier(2)),
    Step::Refuses(Call::Cancel(5), Refused::NotTaken(5)),
];

#[test]
fn numbers_go_on(rt: HostRuntime) {
    plays(&rt, rt.alloc(), NEWER, NUMBERS_GO_ON);
}

const OVER: &[Plain] = &[Plain::Taken(Text::S), Plain::Cancelled(1)];

const NEW: &[Plain] = &[Plain::Renewed(1, 0), Plain::Raised(0, 0)];

#[test]
fn nothing_waits(rt: HostRuntime) {
    assert!(&rt; goes_on_as(&rt, rt.alloc(), OVER, NEW));
}

fn is_damaged(rt: &impl Abort, alloc: Global, entries: &[Plain]) -> bool {
    match renewed(alloc, &entries_of(rt, alloc, entries)) {
        Ok(_) => false,
        Err(why) => why == NotRenewed::Damaged,
    }
}

const NO_LEDGER: &[Plain] = &[Plain::Raised(3, 0), Plain::Renewed(1, 0)];

#[test]
fn no_ledger(rt: HostRuntime) {
    assert!(&rt; is_damaged(&rt, rt.alloc(), NO_LEDGER));
}
