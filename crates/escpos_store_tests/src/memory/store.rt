//! The store in SQLite, over files in memory and over memory.
//!
//! A store that is refused memory in `append` is opened again: a crash leaves the entries with the new one or without. Where the
//! files are used up, the test begins anew. A file in memory that has none left fails as a disk does, so `Failed` comes too.

use crate::support::calls::{append, entries, in_memory};
use crate::support::ledgers::{Ledger, closes, new_ledger, opens};
use escpos_store::SqliteStore;
use escpos_till::{Entry, NoStore, StoreFault};
use sqlite::Alter;
use sqlite_disk::Disk;
use std::alloc::Global;
use std::process::Abort;

// An entry is added. Answers no where memory is refused.
fn adds<S: Alter>(rt: &impl Abort, store: &mut SqliteStore<S>, next: u32) -> bool {
    match append(store, &Entry::Raised { next, heard: 0 }) {
        Ok(is_added) => is_added,
        Err(fault) => {
            assert!(rt; fault == StoreFault::Memory || fault == StoreFault::Failed);
            false
        }
    }
}

// How many entries there are: they raise the next number to 1, 2 and so on. None where memory is refused.
fn count_of<S: Alter>(rt: &impl Abort, alloc: Global, store: &mut SqliteStore<S>) -> Option<u32> {
    match entries(alloc, store) {
        Ok(entries) => Some(count_raised(rt, &entries)),
        Err(fault) => {
            assert!(rt; fault == StoreFault::Memory);
            None
        }
    }
}

fn count_raised(rt: &impl Abort, entries: &[Entry]) -> u32 {
    let mut count: u32 = 0;
    for entry in entries {
        count = count.saturating_add(1);
        match entry {
            Entry::Raised { next, .. } => assert!(rt; *next == count),
            _ => panic!(rt; "another entry"),
        }
    }
    count
}

// The same. Where memory is refused they are read again.
fn count_at_last<S: Alter>(rt: &impl Abort, alloc: Global, store: &mut SqliteStore<S>) -> u32 {
    match count_of(rt, alloc, store) {
        Some(count) => count,
        None => count_of(rt, alloc, store).expect(rt, "entries"),
    }
}

// Two entries are added to an empty store, which has both. Answers no where memory is refused in `append`.
fn adds_two<S: Alter>(rt: &impl Abort, alloc: Global, store: &mut SqliteStore<S>) -> bool {
    if !adds(rt, store, 1) || !adds(rt, store, 2) {
        return false;
    }
    assert!(rt; count_at_last(rt, alloc, store) == 2);
    true
}

// Two entries in a store over memory, which nothing outlives. Answers no where memory is refused.
fn keeps_two_in_memory(rt: &impl Abort, alloc: Global) -> bool {
    match in_memory(alloc) {
        Ok(store) => {
            let mut store = store;
            adds_two(rt, alloc, &mut store)
        }
        Err(why) => {
            assert!(rt; why == NoStore::Memory);
            false
        }
    }
}

#[test]
fn in_memory_refused(rt: HostRuntime) {
    if !keeps_two_in_memory(&rt, rt.alloc()) {
        assert!(&rt; keeps_two_in_memory(&rt, rt.alloc()));
    }
}

// The store of the ledger's files is opened. Answers no where memory is refused.
fn is_opened(rt: &impl Abort, alloc: Global, ledger: &mut Ledger) -> bool {
    if !ledger.files.log.may_be_used() || !ledger.files.db.may_be_used() {
        return false;
    }
    match opens(rt, alloc, ledger) {
        Ok(()) => true,
        Err(why) => {
            assert!(rt; why == NoStore::Memory || why == NoStore::Failed);
            false
        }
    }
}

// It is closed and opened again. Answers no where memory is refused in the open.
fn is_opened_again(rt: &impl Abort, alloc: Global, ledger: &mut Ledger) -> bool {
    match closes(rt, ledger) {
        Ok(()) => {}
        Err(fault) => assert!(rt; fault == StoreFault::Memory || fault == StoreFault::Failed),
    }
    is_opened(rt, alloc, ledger)
}

// Adds an entry to a ledger that has so many. Answers no where memory is refused.
fn adds_after(rt: &impl Abort, ledger: &mut Ledger, count: u32) -> bool {
    match &mut ledger.store {
        Some(store) => adds(rt, store, count.saturating_add(1)),
        None => panic!(rt; "no store"),
    }
}

fn count_in(rt: &impl Abort, alloc: Global, ledger: &mut Ledger) -> u32 {
    match &mut ledger.store {
        Some(store) => count_at_last(rt, alloc, store),
        None => panic!(rt; "no store"),
    }
}

// The same as `adds_after`. Where memory is refused, the ledger is opened again with the new entry or without. Answers no where the files
// are used up.
fn adds_at_last(rt: &impl Abort, alloc: Global, ledger: &mut Ledger, count: u32) -> bool {
    if adds_after(rt, ledger, count) {
        return true;
    }
    if !is_opened_again(rt, alloc, ledger) {
        return false;
    }
    if count_in(rt, alloc, ledger) == count {
        assert!(rt; adds_after(rt, ledger, count));
    }
    true
}

// Two entries in a ledger that is opened again. Answers no where the files are used up.
fn keeps_two(rt: &impl Abort, alloc: Global, ledger: &mut Ledger) -> bool {
    if !is_opened(rt, alloc, ledger)
        || !adds_at_last(rt, alloc, ledger, 0)
        || !adds_at_last(rt, alloc, ledger, 1)
        || !is_opened_again(rt, alloc, ledger)
    {
        return false;
    }
    assert!(rt; count_in(rt, alloc, ledger) == 2);
    true
}

fn keeps_two_in_files(rt: &impl Abort, alloc: Global) -> bool {
    let mut ledger = new_ledger(alloc);
    keeps_two(rt, alloc, &mut ledger)
}

#[test]
fn files_refused(rt: HostRuntime) {
    if !keeps_two_in_files(&rt, rt.alloc()) {
        assert!(&rt; keeps_two_in_files(&rt, rt.alloc()));
    }
}
