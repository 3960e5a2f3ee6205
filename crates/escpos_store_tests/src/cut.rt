//! Ledgers in SQLite whose files are cut off: an open or a close that ends in the middle, and a file that is gone.

use crate::support::calls::{left_of_close, left_of_open, new_files, open};
use crate::support::kept::has;
use crate::support::ledgers::{Step, plays, unclosed};
use crate::support::plain::Plain;
use escpos_store::SqliteStore;
use sqlite::{FileStore, Files, Options};
use sqlite_disk::{Crash, Fuse, Memory};
use std::alloc::Global;
use std::process::Abort;

// How many calls of a file an open or a close is let do at most. Each does fewer.
const MOST_CALLS: u64 = 80;

const RAISED: &[Plain] = &[Plain::Raised(7, 0)];

// The machine stops, and comes back.
fn stop(files: &mut Files<Fuse<Memory>>) {
    files.log.crash();
    files.db.crash();
}

// After a crash the files are a ledger.
fn opened_after_crash(
    rt: &impl Abort,
    alloc: Global,
    files: Files<Fuse<Memory>>,
) -> SqliteStore<FileStore<Fuse<Memory>>> {
    let mut files = files;
    stop(&mut files);
    match open(rt, alloc, files, Options::new(2)) {
        Ok(store) => store,
        Err(_) => panic!(rt; "no store"),
    }
}

// It has these entries.
fn has_after_crash(rt: &impl Abort, alloc: Global, files: Files<Fuse<Memory>>, wanted: &[Plain]) {
    let mut store = opened_after_crash(rt, alloc, files);
    assert!(rt; has(rt, alloc, &mut store, wanted));
}

fn begins_again(rt: &impl Abort, alloc: Global, log_calls: u64, db_calls: u64) {
    let left = left_of_open(rt, alloc, new_files(alloc), log_calls, db_calls);
    has_after_crash(rt, alloc, left, &[]);
}

#[test]
fn a_new_ledger_is_begun_again(rt: HostRuntime) {
    for calls in 0..MOST_CALLS {
        begins_again(&rt, rt.alloc(), calls, u64::MAX);
        begins_again(&rt, rt.alloc(), u64::MAX, calls);
    }
}

const UNCLOSED: &[Step] = &[Step::Opens, Step::Adds(RAISED)];

fn is_opened_again(rt: &impl Abort, alloc: Global, log_calls: u64, db_calls: u64) {
    let files = unclosed(rt, alloc, UNCLOSED);
    let left = left_of_close(rt, alloc, files, log_calls, db_calls);
    has_after_crash(rt, alloc, left, RAISED);
}

#[test]
fn a_ledger_is_opened_again(rt: HostRuntime) {
    for calls in 0..MOST_CALLS {
        is_opened_again(&rt, rt.alloc(), calls, u64::MAX);
        is_opened_again(&rt, rt.alloc(), u64::MAX, calls);
    }
}

// The ledger was never closed: all that it has is in the log.
const A_LEDGER_WITHOUT_ITS_LOG: &[Step] = &[
    Step::Opens,
    Step::Adds(RAISED),
    Step::Crashes,
    Step::PutsLogAside,
    Step::IsRefused,
    Step::IsRefused,
    Step::PutsLogAside,
    Step::Opens,
    Step::Has(RAISED),
];

#[test]
fn a_ledger_without_its_log(rt: HostRuntime) {
    plays(&rt, rt.alloc(), A_LEDGER_WITHOUT_ITS_LOG);
}

const A_LOG_WITHOUT_ITS_LEDGER: &[Step] = &[
    Step::Opens,
    Step::Adds(RAISED),
    Step::Crashes,
    Step::PutsDbAside,
    Step::IsRefused,
    Step::IsRefused,
    Step::PutsDbAside,
    Step::Opens,
    Step::Has(RAISED),
];

#[test]
fn a_log_without_its_ledger(rt: HostRuntime) {
    plays(&rt, rt.alloc(), A_LOG_WITHOUT_ITS_LEDGER);
}

// After a close the database file has everything.
const A_CLOSED_LEDGER_WITHOUT_ITS_LOG: &[Step] = &[
    Step::Opens,
    Step::Adds(RAISED),
    Step::Closes,
    Step::PutsLogAside,
    Step::Opens,
    Step::Has(RAISED),
];

#[test]
fn a_closed_ledger_without_its_log(rt: HostRuntime) {
    plays(&rt, rt.alloc(), A_CLOSED_LEDGER_WITHOUT_ITS_LOG);
}
