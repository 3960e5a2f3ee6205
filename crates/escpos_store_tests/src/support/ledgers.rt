//! A ledger in files in memory, and the steps that the tests take with it.
//!
//! A test is a row of steps. Only `plays` and `unclosed` own a ledger, and lend it to one function for each step: each way out of a function
//! drops what it owns, and a connection costs most.

use crate::support::calls::{close, crash, new_files, open};
use crate::support::kept::{adds_all, adds_numbered, has, has_numbered};
use crate::support::plain::Plain;
use escpos_store::SqliteStore;
use escpos_till::{NoStore, StoreFault};
use sqlite::{FileStore, Files, Options};
use sqlite_disk::Memory;
use std::alloc::Global;
use std::mem::replace;
use std::process::Abort;

// A store over files in memory.
pub type Filed = SqliteStore<FileStore<Memory>>;

// What is done with a ledger, and what must come of it.
#[derive(Clone, Copy)]
pub enum Step {
    // It is opened.
    Opens,
    // Its files are refused as no ledger.
    IsRefused,
    // It is closed; or its machine stops, and its files are as they were then.
    Closes,
    Crashes,
    // The log lies aside, and another file is in its place: that which lay aside, which is empty at first. The same of the database file.
    PutsLogAside,
    PutsDbAside,
    // These entries are added.
    Adds(&'static [Plain]),
    // It has these entries, and no others.
    Has(&'static [Plain]),
    // So many entries are added by their numbers, one of which is wrong, if there is one of the second number.
    AddsNumbered(u32, u32),
    // It has so many entries, and so many from the first one on are right.
    HasNumbered(usize, usize),
}

// A ledger: its store, if that is open, and its files otherwise; and a file that lies aside.
#[derive(Drop)]
pub struct Ledger {
    pub store: Option<Filed>,
    pub files: Files<Memory>,
    aside: Memory,
}

// A ledger whose files are empty.
pub fn new_ledger(alloc: Global) -> Ledger {
    Ledger {
        store: None,
        files: new_files(alloc),
        aside: Memory::new(alloc),
    }
}

// A new ledger, with which these steps are taken.
pub fn plays(rt: &impl Abort, alloc: Global, steps: &[Step]) {
    let mut ledger = new_ledger(alloc);
    takes_steps(rt, alloc, &mut ledger, steps);
}

// The files of a new ledger that was never closed after these steps.
pub fn unclosed(rt: &impl Abort, alloc: Global, steps: &[Step]) -> Files<Memory> {
    let mut ledger = new_ledger(alloc);
    takes_steps(rt, alloc, &mut ledger, steps);
    crashes(rt, &mut ledger);
    files_of(alloc, &mut ledger)
}

// The files of a ledger, which has empty ones from now on.
fn files_of(alloc: Global, ledger: &mut Ledger) -> Files<Memory> {
    replace(&mut ledger.files, new_files(alloc))
}

fn takes_steps(rt: &impl Abort, alloc: Global, ledger: &mut Ledger, steps: &[Step]) {
    for (at, step) in steps.iter().enumerate() {
        let holds = takes_step(rt, alloc, ledger, *step);
        assert!(rt; holds, "step {at}, counted from 0");
    }
}

fn takes_step(rt: &impl Abort, alloc: Global, ledger: &mut Ledger, step: Step) -> bool {
    match step {
        Step::Opens => opens(rt, alloc, ledger) == Ok(()),
        Step::IsRefused => opens(rt, alloc, ledger) == Err(NoStore::NoLedger),
        Step::Closes => closes(rt, ledger) == Ok(()),
        Step::Crashes => crashes(rt, ledger),
        Step::PutsLogAside => puts_log_aside(alloc, ledger),
        Step::PutsDbAside => puts_db_aside(alloc, ledger),
        _ => keeps(rt, alloc, ledger, step),
    }
}

fn puts_log_aside(alloc: Global, ledger: &mut Ledger) -> bool {
    let log = replace(&mut ledger.files.log, Memory::new(alloc));
    ledger.files.log = replace(&mut ledger.aside, log);
    true
}

fn puts_db_aside(alloc: Global, ledger: &mut Ledger) -> bool {
    let db = replace(&mut ledger.files.db, Memory::new(alloc));
    ledger.files.db = replace(&mut ledger.aside, db);
    true
}

// Steps with the store of a ledger that is open.
fn keeps(rt: &impl Abort, alloc: Global, ledger: &mut Ledger, step: Step) -> bool {
    match &mut ledger.store {
        Some(store) => is_kept(rt, alloc, store, step),
        None => false,
    }
}

fn is_kept(rt: &impl Abort, alloc: Global, store: &mut Filed, step: Step) -> bool {
    match step {
        Step::Adds(all) => adds_all(rt, alloc, store, all),
        Step::Has(wanted) => has(rt, alloc, store, wanted),
        Step::AddsNumbered(count, wrong) => adds_numbered(rt, alloc, store, (count, wrong)),
        Step::HasNumbered(count, right) => has_numbered(alloc, store, (count, right)),
        _ => false,
    }
}

// The store of the files is opened. Otherwise they stay in the ledger.
pub fn opens(rt: &impl Abort, alloc: Global, ledger: &mut Ledger) -> Result<(), NoStore> {
    match open(rt, alloc, files_of(alloc, ledger), Options::new(1)) {
        Ok(store) => {
            ledger.store = Some(store);
            Ok(())
        }
        Err((why, files)) => {
            ledger.files = files;
            Err(why)
        }
    }
}

// The store is closed, and its files come back, whatever the result.
pub fn closes(rt: &impl Abort, ledger: &mut Ledger) -> Result<(), StoreFault> {
    let (closed, files) = close(ledger.store.take().expect(rt, "a store"));
    ledger.files = files;
    closed
}

fn crashes(rt: &impl Abort, ledger: &mut Ledger) -> bool {
    ledger.files = crash(ledger.store.take().expect(rt, "a store"));
    true
}
