//! What a store is given, and what it must have. The store is lent.

use crate::support::calls::{append, entries};
use crate::support::numbered::{count_right, entry_or_wrong};
use crate::support::plain::{Plain, entry, is_entry};
use escpos_store::SqliteStore;
use escpos_till::Entry;
use sqlite::Alter;
use std::alloc::Global;
use std::process::Abort;

fn adds<S: Alter>(
    rt: &impl Abort,
    alloc: Global,
    store: &mut SqliteStore<S>,
    plain: Plain,
) -> bool {
    append(store, &entry(rt, alloc, plain)) == Ok(true)
}

// It adds these entries.
pub fn adds_all<S: Alter>(
    rt: &impl Abort,
    alloc: Global,
    store: &mut SqliteStore<S>,
    all: &[Plain],
) -> bool {
    for plain in all {
        if !adds(rt, alloc, store, *plain) {
            return false;
        }
    }
    true
}

fn are(rt: &impl Abort, found: &[Entry], wanted: &[Plain]) -> bool {
    for (at, (entry, plain)) in found.iter().zip(wanted).enumerate() {
        assert!(rt; is_entry(rt, entry, *plain), "entry {at}, counted from 0");
    }
    found.len() == wanted.len()
}

// It has these entries, and no others.
pub fn has<S: Alter>(
    rt: &impl Abort,
    alloc: Global,
    store: &mut SqliteStore<S>,
    wanted: &[Plain],
) -> bool {
    match entries(alloc, store) {
        Ok(found) => are(rt, &found, wanted),
        Err(_) => false,
    }
}

fn adds_at<S: Alter>(
    rt: &impl Abort,
    alloc: Global,
    store: &mut SqliteStore<S>,
    (at, wrong): (u32, u32),
) -> bool {
    append(store, &entry_or_wrong(rt, alloc, at, wrong)) == Ok(true)
}

// It adds so many entries. That of the number `wrong`, if there is one, is another than it should be.
pub fn adds_numbered<S: Alter>(
    rt: &impl Abort,
    alloc: Global,
    store: &mut SqliteStore<S>,
    (count, wrong): (u32, u32),
) -> bool {
    for at in 1..=count {
        if !adds_at(rt, alloc, store, (at, wrong)) {
            return false;
        }
    }
    true
}

fn are_right(found: &[Entry], count: usize, right: usize) -> bool {
    found.len() == count && count_right(found) == right
}

// It has so many entries, and so many from the first one on are right.
pub fn has_numbered<S: Alter>(
    alloc: Global,
    store: &mut SqliteStore<S>,
    (count, right): (usize, usize),
) -> bool {
    match entries(alloc, store) {
        Ok(found) => are_right(&found, count, right),
        Err(_) => false,
    }
}
