//! The calls of a store in SQLite, a function each.
//!
//! None says what comes of its call: that is compared when the tests run. So the tests carry none of the contracts, and are proved soon.

use escpos_store::{SqliteStore, close_until, open_until};
use escpos_till::{Appended, Entry, NoStore, Store, StoreFault};
use sqlite::{Alter, FileStore, Files, MemStore, Options};
use sqlite_disk::{Disk, Fuse, Memory};
use std::alloc::Global;
use std::process::Abort;

// Files with nothing in them.
pub fn new_files(alloc: Global) -> Files<Memory> {
    Files {
        log: Memory::new(alloc),
        db: Memory::new(alloc),
    }
}

// The store of these files; or why there is none, and the files.
pub fn open<D: Disk + Drop>(
    rt: &impl Abort,
    alloc: Global,
    files: Files<D>,
    options: Options,
) -> Result<SqliteStore<FileStore<D>>, (NoStore, Files<D>)> {
    assert!(rt; files.log.may_be_used());
    assert!(rt; files.db.may_be_used());
    match SqliteStore::open_files(alloc, files, options) {
        Ok(store) => Ok(store),
        Err((why, rest)) => Err((why, rest.into_files())),
    }
}

// The files of a store that is closed; or why it isn't, and the files.
pub fn close<D: Disk + Drop>(
    store: SqliteStore<FileStore<D>>,
) -> (Result<(), StoreFault>, Files<D>) {
    match store.into_files() {
        Ok(files) => (Ok(()), files),
        Err((why, files)) => (Err(why), files),
    }
}

pub fn crash<D: Disk + Drop>(store: SqliteStore<FileStore<D>>) -> Files<D> {
    store.crash()
}

// What is left of these files where they are opened, and the machine stops after so many calls of the log and of the database file.
pub fn left_of_open(
    rt: &impl Abort,
    alloc: Global,
    files: Files<Memory>,
    log_calls: u64,
    db_calls: u64,
) -> Files<Fuse<Memory>> {
    assert!(rt; files.log.may_be_used());
    assert!(rt; files.db.may_be_used());
    open_until(alloc, files, Options::new(1), log_calls, db_calls)
}

// The same where they are opened and closed.
pub fn left_of_close(
    rt: &impl Abort,
    alloc: Global,
    files: Files<Memory>,
    log_calls: u64,
    db_calls: u64,
) -> Files<Fuse<Memory>> {
    assert!(rt; files.log.may_be_used());
    assert!(rt; files.db.may_be_used());
    close_until(alloc, files, Options::new(1), log_calls, db_calls)
}

pub fn in_memory(alloc: Global) -> Result<SqliteStore<MemStore>, NoStore> {
    SqliteStore::in_memory(alloc)
}

// Whether the entry is added; or why that isn't known.
pub fn append<S: Alter>(store: &mut SqliteStore<S>, entry: &Entry) -> Result<bool, StoreFault> {
    match store.append(entry, None) {
        Ok(appended) => Ok(matches!(appended, Appended::Done)),
        Err(why) => Err(why),
    }
}

pub fn entries<S: Alter>(
    alloc: Global,
    store: &mut SqliteStore<S>,
) -> Result<Vec<Entry>, StoreFault> {
    store.entries(alloc)
}
