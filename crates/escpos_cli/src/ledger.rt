//! Where the program keeps a till's ledger: in a database file, with its log beside it.
//!
//! Whoever uses a ledger has its file to itself, and waits for its turn. A delivery lets go of the file while its printer is waited for, and has
//! another file locked instead, the ledger's line, so that no two deliveries are made from one ledger at the same time.

ghost use Rattle.std.specs.Prelude.{◌≡◌};

use escpos_store::SqliteStore;
use escpos_till::NoStore;
use escpos_till_jobs::{LedgerPath, Ledgers, NewLedgers, NoRenewal, SharedStore};
use sqlite::{FileFrom, FileStore, Unknown};
use std::fs::{File, OpenOptions, TryLockError};
use std::io::ErrorKind;
use std::time::{Duration, Instant};
use std::{fs, io, thread};

// So often it is tried to open a ledger that is in use, and so long it is waited between: 5 seconds.
const TURNS: u32 = 2_500;

const TURN_MILLISECONDS: u64 = 2;

// A delivery closes its ledger after so many seconds, and leaves it to others for so many milliseconds, in which one that waits looks for its turn.
const OPEN_SECONDS: u64 = 1;

const LEFT_MILLISECONDS: u64 = 3 * TURN_MILLISECONDS;

/// Ledgers in files. `Unknown` says that nothing is known of what a file holds before it is opened.
#[derive(Drop)]
pub struct LedgerFiles<'r> {
    rt: &'r HostRuntime,
}

impl<'r> LedgerFiles<'r> {
    /// The files that this program can reach.
    pub fn new(rt: &'r HostRuntime) -> Self
        ensures { result.rt.now ≡ rt.now }
    {
        LedgerFiles { rt }
    }
}

/// A store in a file.
pub type FileLedgerStore = SqliteStore<FileStore<FileFrom<Unknown>>>;

impl Ledgers<FileLedgerStore> for LedgerFiles<'_> {
    // What is at the path is the system's own.
    ghost opened = { λ old path result new. new ≡ old };

    ghost closed = { λ old store new. new ≡ old };

    // A file that isn't there is made. One that is in use is waited for, at most 5 seconds.
    fn open(&mut self, path: &LedgerPath<'_>) -> Result<FileLedgerStore, NoStore> {
        for _ in 0..TURNS {
            match FileLedgerStore::open(self.rt, path.text(), Unknown) {
                Ok(store) => return Ok(store),
                Err((NoStore::InUse, _)) => {
                    thread::sleep(self.rt, Duration::from_millis(TURN_MILLISECONDS));
                }
                Err((why, _)) => return Err(why),
            }
        }
        Err(NoStore::InUse)
    }

    // Copies the log into the database file, and closes both. What was kept outlives a crash already, so nothing is lost where this fails.
    fn close(&mut self, store: FileLedgerStore) {
        let _ = store.into_files();
    }

    // It is open for one job alone, which doesn't wait.
    fn is_turn_over(&self) -> bool {
        false
    }
}

/// Ledgers in files, for a delivery: from one of them no other delivery is made meanwhile.
#[derive(Drop)]
pub struct DeliveredFiles<'r> {
    files: LedgerFiles<'r>,
    // when the ledger was opened
    opened: io::Result<Instant>,
    // it was open for long
    left: bool,
    // locked as long as it is open
    _line: File,
}

impl Ledgers<FileLedgerStore> for DeliveredFiles<'_> {
    ghost opened = { λ old path result new. new.files ≡ old.files };

    ghost closed = { λ old store new. new.files ≡ old.files };

    // Where it was open for long, it is left to others for a moment first.
    fn open(&mut self, path: &LedgerPath<'_>) -> Result<FileLedgerStore, NoStore> {
        if self.left {
            thread::sleep(self.files.rt, Duration::from_millis(LEFT_MILLISECONDS));
        }
        let store = self.files.open(path)?;
        self.opened = Instant::now(self.files.rt);
        Ok(store)
    }

    fn close(&mut self, store: FileLedgerStore) {
        self.left = self.is_turn_over();
        self.files.close(store);
    }

    fn is_turn_over(&self) -> bool {
        match &self.opened {
            Ok(opened) => match opened.elapsed(self.files.rt) {
                Ok(open) => open.as_secs() >= OPEN_SECONDS,
                Err(_) => false,
            },
            Err(_) => false,
        }
    }
}

/// A store in a file that is let go while a printer is waited for.
pub type SharedFileStore<'r> = SharedStore<DeliveredFiles<'r>, FileLedgerStore>;

/// Ledgers that receipts are delivered from, and that are renewed.
#[derive(Drop)]
pub struct SharedFiles<'r> {
    rt: &'r HostRuntime,
    // a ledger that isn't there is made; else it is none
    makes: bool,
}

impl<'r> SharedFiles<'r> {
    /// The files that this program can reach. A ledger that isn't there is made where `makes` says so, and else it is none.
    pub fn new(rt: &'r HostRuntime, makes: bool) -> Self
        ensures files { result.rt.now ≡ rt.now }
        ensures makes { result.makes ≡ makes }
    {
        SharedFiles { rt, makes }
    }
}

impl<'r> Ledgers<SharedFileStore<'r>> for SharedFiles<'r> {
    ghost opened = { λ old path result new. new ≡ old };

    ghost closed = { λ old store new. new ≡ old };

    // `InUse` is answered where another delivery is being made from the ledger.
    fn open(&mut self, path: &LedgerPath<'_>) -> Result<SharedFileStore<'r>, NoStore> {
        if !self.makes {
            is_there(self.rt, path.text())?;
        }
        let line = line_of(self.rt, path.text())?;
        let files = DeliveredFiles {
            files: LedgerFiles::new(self.rt),
            opened: Instant::now(self.rt),
            left: false,
            _line: line,
        };
        SharedStore::open(self.rt.alloc(), files, path)
    }

    // The ledger is closed where it is open, and then its line.
    fn close(&mut self, store: SharedFileStore<'r>) {
        let mut store = store;
        store.end();
    }

    // It closes its ledger itself.
    fn is_turn_over(&self) -> bool {
        false
    }
}

/// New ledgers in files. One is written to the file whose name ends in `-renewing`, beside the place that it gets.
#[derive(Drop)]
pub struct NewFiles<'r> {
    rt: &'r HostRuntime,
    // where the ledger is that is renewed
    old: &'r str,
    // the new ledger's line, which is locked so that no two renewals write one draft
    line: Option<File>,
}

impl<'r> NewFiles<'r> {
    /// The files that this program can reach, while the ledger at this path is renewed.
    pub fn new(rt: &'r HostRuntime, old: &'r str) -> Self
        ensures { result.rt.now ≡ rt.now }
    {
        NewFiles {
            rt,
            old,
            line: None,
        }
    }

    // Whether there is a file at a path, or a ledger's log beside it.
    fn is_taken(&self, path: &str) -> io::Result<bool> {
        let log = format!(in self.rt.alloc(); "{path}-wal")?;
        Ok(fs::exists(self.rt, path)? || fs::exists(self.rt, log.as_str())?)
    }

    // Whether the ledger that is renewed is at this path.
    fn is_old(&self, path: &str) -> io::Result<bool> {
        if !fs::exists(self.rt, path)? {
            return Ok(false);
        }
        let real = fs::canonicalize(self.rt, path)?;
        let old = fs::canonicalize(self.rt, self.old)?;
        Ok(real.as_str() == old.as_str())
    }

    // The path at which a ledger for this path is written. What an earlier renewal left there is removed.
    fn draft(&self, path: &str) -> io::Result<Option<String>> {
        let draft = format!(in self.rt.alloc(); "{path}-renewing")?;
        if self.is_taken(path)? || self.is_old(draft.as_str())? {
            return Ok(None);
        }
        let log = format!(in self.rt.alloc(); "{}-wal", draft.as_str())?;
        remove_if_there(self.rt, draft.as_str())?;
        remove_if_there(self.rt, log.as_str())?;
        Ok(Some(draft))
    }

    // Gives the draft its name, so that it has it after a crash too. `AlreadyExists` is answered where something has that name.
    fn name(&self, path: &str) -> io::Result<()> {
        let draft = format!(in self.rt.alloc(); "{path}-renewing")?;
        let log = format!(in self.rt.alloc(); "{}-wal", draft.as_str())?;
        remove_if_there(self.rt, log.as_str())?;
        match fs::hard_link(self.rt, draft.as_str(), path) {
            Ok(()) => remove_if_there(self.rt, draft.as_str())?,
            Err(why) if why.kind() == ErrorKind::AlreadyExists => return Err(why),
            // a file system on which no file has two names
            Err(_) => fs::rename(self.rt, draft.as_str(), path)?,
        }
        let folder = match path.rfind('/') {
            Some(0) => "/",
            Some(at) => &path[..at],
            None => ".",
        };
        OpenOptions::new()
            .read(true)
            .open(self.rt, folder)?
            .sync_all()
    }
}

impl NewLedgers<FileLedgerStore> for NewFiles<'_> {
    ghost begun = { λ old path result new. (new.rt ≡ old.rt) × (new.old ≡ old.old) };

    ghost finished = { λ old store path result new. new ≡ old };

    fn begin(&mut self, path: &LedgerPath<'_>) -> Result<FileLedgerStore, NoRenewal> {
        // where the old ledger has that path, its line is locked already
        if let Ok(true) = self.is_taken(path.text()) {
            return Err(NoRenewal::Exists);
        }
        match line_of(self.rt, path.text()) {
            Ok(line) => self.line = Some(line),
            Err(why) => return Err(NoRenewal::NoStore(why)),
        }
        match self.draft(path.text()) {
            Ok(Some(draft)) => LedgerFiles::new(self.rt)
                .open(&LedgerPath::new(draft.as_str()))
                .map_err(|why| NoRenewal::NoStore(why)),
            Ok(None) => Err(NoRenewal::Exists),
            Err(why) => Err(not_made(&why)),
        }
    }

    // The log is copied into the database file before it gets its name.
    fn finish(&mut self, store: FileLedgerStore, path: &LedgerPath<'_>) -> Result<(), NoRenewal> {
        match store.into_files() {
            Ok(_) => self.name(path.text()).map_err(|why| not_made(&why)),
            Err(_) => Err(NoRenewal::NoStore(NoStore::Failed)),
        }
    }
}

// `NoLedger` is answered where nothing is at the path.
fn is_there(rt: &HostRuntime, path: &str) -> Result<(), NoStore> {
    match fs::exists(rt, path) {
        Ok(true) => Ok(()),
        Ok(false) => Err(NoStore::NoLedger),
        Err(why) => Err(no_file(&why)),
    }
}

fn remove_if_there(rt: &HostRuntime, path: &str) -> io::Result<()> {
    match fs::remove_file(rt, path) {
        Err(why) if why.kind() != ErrorKind::NotFound => Err(why),
        _ => Ok(()),
    }
}

// Why no new ledger is made.
fn not_made(why: &io::Error) -> NoRenewal {
    match why.kind() {
        ErrorKind::AlreadyExists => NoRenewal::Exists,
        _ => NoRenewal::NoStore(no_file(why)),
    }
}

// The ledger's line, which is locked as long as it is open: the file beside the ledger whose name ends in `-line`.
fn line_of(rt: &HostRuntime, path: &str) -> Result<File, NoStore> {
    match line_beside(rt, path) {
        Ok(line) => match line.try_lock() {
            Ok(()) => Ok(line),
            Err(TryLockError::WouldBlock) => Err(NoStore::InUse),
            Err(TryLockError::Error(why)) => Err(no_file(&why)),
        },
        Err(why) => Err(no_file(&why)),
    }
}

// Why a file beside a ledger, or the ledger's own, can't be used.
fn no_file(why: &io::Error) -> NoStore {
    match why.kind() {
        ErrorKind::OutOfMemory => NoStore::Memory,
        _ => NoStore::Failed,
    }
}

// Opens the ledger's line, which is made if it isn't there. Where the ledger's path leads elsewhere, it is beside the ledger.
fn line_beside(rt: &HostRuntime, path: &str) -> io::Result<File> {
    let real = match fs::canonicalize(rt, path) {
        Ok(real) => format!(in rt.alloc(); "{}-line", real.as_str())?,
        Err(why) if why.kind() == ErrorKind::NotFound => format!(in rt.alloc(); "{path}-line")?,
        Err(why) => return Err(why),
    };
    OpenOptions::new()
        .read(true)
        .write(true)
        .create(true)
        .open(rt, real.as_str())
}
