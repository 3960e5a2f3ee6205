//! A store that lets go of its ledger, where memory is refused.

use crate::support::tills::BusyLedger;
use escpos_till::{Appended, Entry, Failure, MemoryStore, NoStore, Store, StoreFault};
use escpos_till_jobs::{LedgerPath, SharedStore};
use std::alloc::Global;
use std::process::Abort;

type Shared = SharedStore<BusyLedger, MemoryStore>;

// One entry, which raises the next mark number.
fn raised(rt: &impl Abort, alloc: Global, next: u32) -> Vec<Entry> {
    let mut entries = match Vec::with_capacity(alloc, 1) {
        Ok(entries) => entries,
        Err(_) => Vec::with_capacity(alloc, 1).expect(rt, "entries"),
    };
    let _ = entries.push(Entry::Raised { next, heard: 0 });
    entries
}

// A ledger with one entry, to which others add another before it is opened again.
fn ledger(rt: &impl Abort, alloc: Global) -> BusyLedger {
    BusyLedger {
        store: Some(MemoryStore::new(alloc, raised(rt, alloc, 5), Failure::Never)),
        added: raised(rt, alloc, 7),
        at: 2,
        is_lost: false,
        opened: 0,
        has_short_turns: false,
    }
}

// The store of that ledger. None where memory is refused.
fn opened(rt: &impl Abort, alloc: Global) -> Option<Shared> {
    match SharedStore::open(alloc, ledger(rt, alloc), &LedgerPath::new("a")) {
        Ok(store) => Some(store),
        Err(why) => {
            assert!(rt; why == NoStore::Memory);
            None
        }
    }
}

fn opened_at_last(rt: &impl Abort, alloc: Global) -> Shared {
    match opened(rt, alloc) {
        Some(store) => store,
        None => opened(rt, alloc).expect(rt, "a store"),
    }
}

// How many entries it has. None where memory is refused.
fn count_of(rt: &impl Abort, alloc: Global, store: &mut Shared) -> Option<usize> {
    match store.entries(alloc) {
        Ok(entries) => Some(entries.len()),
        Err(why) => {
            assert!(rt; why == StoreFault::Memory);
            None
        }
    }
}

// Where memory is refused they are read again.
fn has_one(rt: &impl Abort, alloc: Global, store: &mut Shared) {
    let count = match count_of(rt, alloc, store) {
        Some(count) => count,
        None => count_of(rt, alloc, store).expect(rt, "entries"),
    };
    assert!(rt; count == 1);
}

#[test]
fn open_refused(rt: HostRuntime) {
    let mut store = opened_at_last(&rt, rt.alloc());
    has_one(&rt, rt.alloc(), &mut store);
}

const NINE: Entry = Entry::Raised { next: 9, heard: 0 };

// What came of adding an entry: it is added, or so many entries of others are found.
#[derive(Clone, Copy, PartialEq)]
enum Came {
    Added,
    Found(usize),
}

fn append(store: &mut Shared) -> Result<Came, StoreFault> {
    match store.append(&NINE, None) {
        Ok(Appended::Done) => Ok(Came::Added),
        Ok(Appended::Others(others)) => Ok(Came::Found(others.len())),
        Err(why) => Err(why),
    }
}

// The ledger is let go, and the others' entry is found before one is added. None is where memory is refused.
fn finds(rt: &impl Abort, store: &mut Shared) -> bool {
    store.let_go();
    match append(store) {
        Ok(came) => {
            assert!(rt; came == Came::Found(1));
            true
        }
        Err(why) => {
            assert!(rt; why == StoreFault::Memory);
            false
        }
    }
}

// Then the entry is added. Where memory is refused it is added by the second call; or the store answers no more, since it isn't known what it has.
fn adds(rt: &impl Abort, store: &mut Shared) {
    if !finds(rt, store) {
        assert!(rt; finds(rt, store));
    }
    let came = append(store);
    if came == Err(StoreFault::Memory) {
        let later = append(store);
        assert!(rt; later == Ok(Came::Added) || later == Err(StoreFault::Failed));
    } else {
        assert!(rt; came == Ok(Came::Added));
    }
}

#[test]
fn append_refused(rt: HostRuntime) {
    let mut store = opened_at_last(&rt, rt.alloc());
    adds(&rt, &mut store);
}
