//! The store in SQLite: entries of each kind come back in order, over memory, and from files that were closed, or left as in a
//! crash.

use crate::support::calls;
use crate::support::kept::{adds_all, has};
use crate::support::ledgers::{Step, plays};
use crate::support::plain::Plain;
use escpos_store::SqliteStore;
use sqlite::Alter;
use std::alloc::Global;
use std::process::Abort;

// A key of 64 characters.
const LONGEST_KEY: &[u8] = b"~~~~~~~~~~~~~~~~~~~~~~~~~~~~~~~~~~~~~~~~~~~~~~~~~~~~~~~~~~~~~~~~";

// An entry of each kind, and some at the ends of their ranges.
const KINDS: &[Plain] = &[
    Plain::Taken,
    Plain::Tried(1, 4),
    Plain::Recorded(1, 3),
    Plain::Recorded(1, u32::MAX),
    Plain::Raised(u32::MAX, 0),
    Plain::Raised(5, u32::MAX),
    Plain::Cancelled(1),
    Plain::Key(b"!"),
    Plain::Key(b"sale-7"),
    Plain::Key(LONGEST_KEY),
    Plain::Renewed(u32::MAX, 6),
    Plain::Renewed(0, u32::MAX),
    Plain::Earlier(1, b"sale-8"),
    Plain::TakenEmpty,
    Plain::TakenFor(576, None),
    Plain::TakenFor(1, Some(b' ')),
    Plain::TakenFor(1024, Some(b'~')),
    Plain::TakenFor(512, Some(b'?')),
];

// A store with these entries after those that it has, which are none.
fn keeps<S: Alter>(rt: &impl Abort, alloc: Global, store: &mut SqliteStore<S>, wanted: &[Plain]) {
    assert!(rt; has(rt, alloc, store, &[]));
    assert!(rt; adds_all(rt, alloc, store, wanted));
    assert!(rt; has(rt, alloc, store, wanted));
}

#[test]
fn in_memory(rt: HostRuntime) {
    let mut store = calls::in_memory(rt.alloc()).expect(&rt, "a store");
    keeps(&rt, rt.alloc(), &mut store, KINDS);
}

const IN_FILES: &[Step] = &[
    Step::Opens,
    Step::Has(&[]),
    Step::Adds(KINDS),
    Step::Has(KINDS),
    Step::Closes,
    Step::Opens,
    Step::Has(KINDS),
    Step::Crashes,
    Step::Opens,
    Step::Has(KINDS),
    Step::Closes,
];

#[test]
fn in_files(rt: HostRuntime) {
    plays(&rt, rt.alloc(), IN_FILES);
}
