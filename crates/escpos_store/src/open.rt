//! Opening a ledger, and closing it.

ghost use Rattle.std.specs.Prelude.{true, false, All, None, MatchResult, ◌<◌, ◌≡◌, ◌↔◌, ◌≢◌, ◌⊎◌, ◌≤◌, List, [], length, IfErr, IfOk, OnOk, IfSome, IsTrue};
ghost use Rattle.escpos_till.specs.declared.entry.Entry.{Entry};
ghost use Rattle.sqlite.specs.Tree.{Trees};
ghost use Rattle.sqlite.specs.View.{doubt};
ghost use Rattle.sqlite.specs.Recovery.{Image};
ghost use Rattle.sqlite.specs.WalFiles.{image_at, outcomes};
ghost use Rattle.sqlite.specs.WalReads.{AreClean, OnlyReads};
ghost use Rattle.sqlite.specs.State.{HasCleanDisk};
ghost use Rattle.sqlite.specs.Held.{state};
ghost use Rattle.sqlite.specs.Steps.{over_memory};
ghost use Rattle.sqlite.specs.Files.{file_state, over_files, image_of, faults_left, faults_of, IsCleanLeft, LeavesFiles};
ghost use Rattle.sqlite_disk.specs.Disk.{MoreFaults};
ghost use Rattle.sqlite_disk.specs.Fuse.{inner_of};
ghost use Rattle.sqlite_std_file.specs.File.{file_is_usable, IsFresh};
ghost use Rattle.sqlite_std_file.specs.declared.pair.OpenError.TheVariants as PathError;
ghost use Rattle.escpos_store.specs.Table.{IsReal, ledger_schema, no_schema};
ghost use Rattle.escpos_store.specs.Holds.{FoundIn, HasEntries, Holds, HoldsIn, HoldsNothing, IsBegun, KeepsLedger, KeptIn, LacksFile, LacksLog, LeavesAsFound, LeftIn, Leaves, ReadsIn, StandsIn, left_outcomes, StartsAs};

use crate::read::read;
use crate::schema::is_new;
use crate::statements::create;
use crate::store::{SqliteStore, store_fault};
use escpos_till::{NoStore, StoreFault};
use sqlite::{
    Alter, Connection, Error, ErrorCode, FileFrom, FileStore, Files, Leftover, MemStore, Options,
    Start,
};
use sqlite_disk::{Disk, Fuse};
use sqlite_std_file::OpenError;
use std::alloc::Global;
use std::hash::{BuildHasher, RandomState};
use std::io;
use std::io::ErrorKind;

/// The length of a log that has no pages yet. A new ledger's log has as much before its database file has a byte.
const EMPTY_LOG: usize = 41;

const _: () = prove!(EMPTY_LOG == 41);

// Why open files aren't opened as a database.
fn file_fault(error: Error) -> NoStore
    ensures never_in_use { result ≢ NoStore.InUse }
    ensures memory { result ≡ NoStore.Memory → error ≡ Error.SqliteFailure ErrorCode.OutOfMemory }
    ensures no_ledger { result ≡ NoStore.NoLedger → (error ≡ Error.SqliteFailure ErrorCode.NotADatabase) ⊎ (error ≡ Error.SqliteFailure ErrorCode.DatabaseCorrupt) }
{
    match error {
        Error::SqliteFailure(ErrorCode::NotADatabase | ErrorCode::DatabaseCorrupt) =>
            NoStore::NoLedger,
        Error::SqliteFailure(ErrorCode::OutOfMemory) => NoStore::Memory,
        _ => NoStore::Failed,
    }
}

// Why a statement of an open fails.
fn statement_fault(error: Error) -> NoStore
    ensures memory { result ≡ NoStore.Memory → error ≡ Error.SqliteFailure ErrorCode.OutOfMemory }
    ensures failed { result ≢ NoStore.Memory → result ≡ NoStore.Failed }
{
    match error {
        Error::SqliteFailure(ErrorCode::OutOfMemory) => NoStore::Memory,
        _ => NoStore::Failed,
    }
}

/// How many entries the ledger has that the connection shows; a database that has nothing becomes an empty ledger.
pub fn begin<S: Alter>(alloc: Global, conn: &mut Connection<S>) -> Result<usize, NoStore>
    ensures clean { doubt (state S.Store conn.old).is_clean ≤ doubt (state S.Store conn.new).is_clean }
    ensures found { IfOk result (λ count. HasCleanDisk (state S.Store conn.new) → (entries : List Entry) × Holds (state S.Store conn.new) entries
        × (count ≡ length entries) × StartsAs (state S.Store conn.old).now entries) }
    ensures crash { HasCleanDisk (state S.Store conn.new) → (db : Trees) → (state S.Store conn.new).may_leave db → IsBegun (state S.Store conn.old) db }
    ensures no_ledger { IfErr result (λ why. why ≡ NoStore.NoLedger → HasCleanDisk (state S.Store conn.new) → (state S.Store conn.old).in_transaction ≡ false
        → (state S.Store conn.old).now.schema ≡ ledger_schema → (entries : List Entry) → All IsReal entries → ¬ HasEntries (state S.Store conn.old).now.trees entries) }
    ensures never_in_use { IfErr result (λ why. why ≢ NoStore.InUse) }
{
    if conn.is_autocommit() && is_new(conn.schema()) {
        return match create(conn) {
            Ok(_) => Ok(0),
            Err(error) => Err(statement_fault(error)),
        };
    }
    match read(alloc, conn) {
        Ok(Some(entries)) => Ok(entries.len()),
        Ok(None) => Err(NoStore::NoLedger),
        Err(fault) => Err(statement_fault(fault)),
    }
}

// The store over a connection, if that shows a ledger or has nothing. At `Err` the connection comes back.
fn begun<S: Alter + Drop>(
    alloc: Global,
    conn: Connection<S>,
) -> Result<SqliteStore<S>, (NoStore, Connection<S>)>
    ensures found { IfOk result (λ store. HasCleanDisk (state S.Store store.connection) → HasCleanDisk (state S.Store conn)
        × ((entries : List Entry) × HoldsIn S.Store store entries × StartsAs (state S.Store conn).now entries)) }
    ensures crash { IfErr result (λ e. HasCleanDisk (state S.Store e.1) → HasCleanDisk (state S.Store conn)
        × ((db : Trees) → (state S.Store e.1).may_leave db → IsTrue (state S.Store conn).is_open
        → (db ≡ (state S.Store conn).committed.trees) ⊎ (((state S.Store conn).now.schema ≡ no_schema) × HasEntries db []))) }
    ensures no_ledger { IfErr result (λ e. e.0 ≡ NoStore.NoLedger → HasCleanDisk (state S.Store e.1) → (state S.Store conn).in_transaction ≡ false
        → (state S.Store conn).now.schema ≡ ledger_schema → (entries : List Entry) → All IsReal entries → ¬ HasEntries (state S.Store conn).now.trees entries) }
    ensures never_in_use { IfErr result (λ e. e.0 ≢ NoStore.InUse) }
{
    let mut conn = conn;
    match begin(alloc, &mut conn) {
        Ok(count) => Ok(SqliteStore::over(conn, count)),
        Err(fault) => Err((fault, conn)),
    }
}

impl<S: Start> SqliteStore<FileStore<FileFrom<S>>> {
    /// Opens the ledger at a path, and locks it until the store is closed or dropped. A file that isn't there yet becomes an empty
    /// ledger, as `open_files` says. `InUse` is answered where another process has it open. `:memory:` and names that begin with
    /// `file:` are refused as `Failed`, since `sqlite3` doesn't take them for names of files.
    ///
    /// What the store holds is what the files held. `start` stands for that; a program passes `Unknown`, which supposes that a torn
    /// write leaves each byte old or new. At `Err` what is left of the files comes back, if they were opened.
    pub fn open(
        rt: &HostRuntime,
        path: &str,
        start: S,
    ) -> Result<Self, (NoStore, Option<Leftover<FileFrom<S>>>)>
        ensures found { IfOk result (λ store. HasCleanDisk (file_state store.connection) → (entries : List Entry)
            × HoldsIn over_files store entries × FoundIn (image_at S.Start) entries) }
        ensures spared { IfErr result (λ e. IfSome e.1 (λ rest. IsCleanLeft rest
            → ((files : _) × IsFresh true files.log × IsFresh false files.db × LeavesFiles files rest)
            ⊎ (((image : Image) → left_outcomes rest image → LeavesAsFound (image_at S.Start) image × KeepsLedger (image_at S.Start) image)
            ⊎ HoldsNothing (image_at S.Start)))) }
        ensures stays { IfErr result (λ e. IfSome e.1 (λ rest. IsCleanLeft rest → (entries : List Entry) → StandsIn (image_at S.Start) entries
            → (image : Image) → left_outcomes rest image → ReadsIn image (λ db. HasEntries db entries))) }
        ensures no_ledger { IfErr result (λ e. e.0 ≡ NoStore.NoLedger → IfSome e.1 (λ rest. IsCleanLeft rest → (entries : List Entry) → All IsReal entries
            → StandsIn (image_at S.Start) entries → 0 < faults_left rest)) }
        ensures was_opened { IfErr result (λ e. e.1 ≡ None → e.0 ≢ NoStore.NoLedger) }
        ensures in_use { IfErr result (λ e. e.0 ≡ NoStore.InUse → e.1 ≡ None) }
    {
        let (files, options) = match files_at(rt, path, start) {
            Ok(found) => found,
            Err(why) => return Err((why, None)),
        };
        match SqliteStore::open_files(rt.alloc(), files, options) {
            Ok(store) => Ok(store),
            Err((why, rest)) => Err((why, Some(rest))),
        }
    }
}

// The log and the database file at this path, which are made if they are missing, and the options of a connection to them.
fn files_at<S: Start>(
    rt: &HostRuntime,
    path: &str,
    start: S,
) -> Result<(Files<FileFrom<S>>, Options), NoStore>
    ensures usable { IfOk result (λ found. IsTrue (file_is_usable S.Start found.0.log) × IsTrue (file_is_usable S.Start found.0.db)) }
    ensures fresh { IfOk result (λ found. IsFresh true found.0.log × IsFresh false found.0.db) }
    ensures no_ledger { IfErr result (λ why. why ≢ NoStore.NoLedger) }
{
    if path == ":memory:" || path.starts_with("file:") {
        return Err(NoStore::Failed);
    }
    let Ok(random) = RandomState::new(rt) else {
        return Err(NoStore::Failed);
    };
    match sqlite_std_file::open(rt, path, start) {
        Ok(files) => Ok((files, Options::new(random.hash_one(&0u8)))),
        Err(why) => Err(path_fault(why)),
    }
}

// Why the files at a path aren't opened.
fn path_fault(why: OpenError) -> NoStore
    ensures in_use { result ≡ NoStore.InUse ↔ why ≡ PathError.Busy }
    ensures no_ledger { result ≢ NoStore.NoLedger }
{
    match why {
        OpenError::Busy => NoStore::InUse,
        OpenError::OutOfMemory => NoStore::Memory,
        OpenError::Io(error) if error.kind() == ErrorKind::OutOfMemory => NoStore::Memory,
        OpenError::Io(_) | OpenError::HotJournal => NoStore::Failed,
    }
}

impl<D: Disk + Drop> SqliteStore<FileStore<D>> {
    /// Opens the ledger in a database file and its log, which are open. What the store holds is what the files held. `InUse` isn't
    /// answered. At `Err` what is left of the files comes back: a ledger that they held is there still.
    ///
    /// Empty files become an empty ledger, and so does what was left of such an open that did not end, and a database that has
    /// nothing. But where the log of a ledger is missing, or its database file, the answer is `NoLedger`: where the database file is
    /// empty and the log has pages, or where the log is empty and the database file, which isn't, has nothing.
    pub fn open_files(
        alloc: Global,
        files: Files<D>,
        options: Options,
    ) -> Result<Self, (NoStore, Leftover<D>)>
        requires log { IsTrue (D.Disk.is_usable files.log) }
        requires db { IsTrue (D.Disk.is_usable files.db) }
        ensures found { IfOk result (λ store. HasCleanDisk (file_state store.connection) → (entries : List Entry)
            × HoldsIn over_files store entries × FoundIn (image_of D.Disk files) entries) }
        ensures spared { IfErr result (λ e. IsCleanLeft e.1 → LeavesFiles files e.1
            ⊎ (((image : Image) → left_outcomes e.1 image → LeavesAsFound (image_of D.Disk files) image × KeepsLedger (image_of D.Disk files) image)
            ⊎ HoldsNothing (image_of D.Disk files))) }
        ensures stays { IfErr result (λ e. IsCleanLeft e.1 → (entries : List Entry) → StandsIn (image_of D.Disk files) entries
            → ((image : Image) → outcomes D.Disk files.log files.db image → StandsIn image entries)
            → (image : Image) → left_outcomes e.1 image → ReadsIn image (λ db. HasEntries db entries)) }
        ensures no_ledger { IfErr result (λ e. e.0 ≡ NoStore.NoLedger → IsCleanLeft e.1 → (entries : List Entry) → All IsReal entries
            → StandsIn (image_of D.Disk files) entries → MoreFaults (faults_of D.Disk files) (faults_left e.1)) }
        ensures never_in_use { IfErr result (λ e. e.0 ≢ NoStore.InUse) }
    {
        let mut files = files;
        let Ok((log, db)) = lengths(&mut files) else {
            return Err((NoStore::Failed, Leftover::Files(files)));
        };
        if db == 0 && log > EMPTY_LOG {
            return Err((NoStore::NoLedger, Leftover::Files(files)));
        }
        open_measured(alloc, files, options, db > 1 && log == 0)
    }

    /// Copies the log into the database file, and gives the files back. They then hold the entries, also after a crash, and so
    /// does the database file alone. At `Err` they are given back too: whatever a crash leaves of them then reads as the entries.
    /// Dropping the files closes them.
    pub fn into_files(self) -> Result<Files<D>, (StoreFault, Files<D>)>
        ensures kept { IfOk result (λ files. AreClean D.Disk files.log files.db → (entries : List Entry) → HoldsIn over_files self entries
            → KeptIn (image_of D.Disk files) entries × ((image : Image) → outcomes D.Disk files.log files.db image → KeptIn image entries)) }
        ensures clean { MatchResult result (λ files. AreClean D.Disk files.log files.db → HasCleanDisk (file_state self.connection))
            (λ e. AreClean D.Disk e.1.log e.1.db → HasCleanDisk (file_state self.connection)) }
        ensures usable { IfOk result (λ files. IsTrue (D.Disk.is_usable files.log) × IsTrue (D.Disk.is_usable files.db)) }
        ensures left { IfErr result (λ e. AreClean D.Disk e.1.log e.1.db → (image : Image) → outcomes D.Disk e.1.log e.1.db image
            → ReadsIn image (file_state self.connection).may_leave
            × ((entries : List Entry) → HoldsIn over_files self entries → ReadsIn image (λ db. HasEntries db entries))) }
    {
        match self.into_connection().close_files() {
            Ok(files) => Ok(files),
            Err((error, store)) => Err((store_fault(error), store.close())),
        }
    }

    /// Ends the store with no further write, as a crash does, and gives the files back, for tests of what comes after one.
    /// Whatever a crash leaves of the files is a database that the store has said a crash may leave, and an open finds its entries:
    /// those that the store holds, or after a failed `append` those with the new one or without.
    pub fn crash(self) -> Files<D>
        ensures clean { AreClean D.Disk result.log result.db → HasCleanDisk (file_state self.connection) }
        ensures stands { AreClean D.Disk result.log result.db → (image : Image) → outcomes D.Disk result.log result.db image
            → LeftIn (file_state self.connection) image × ((entries : List Entry) → HoldsIn over_files self entries → StandsIn image entries) }
        ensures next { AreClean D.Disk result.log result.db → (image : Image) → outcomes D.Disk result.log result.db image
            → (found : List Entry) → FoundIn image found → ∥ Leaves (file_state self.connection) found ∥₁ }
        ensures held { AreClean D.Disk result.log result.db → (image : Image) → outcomes D.Disk result.log result.db image
            → (entries found : List Entry) → HoldsIn over_files self entries → FoundIn image found → ∥ found ≡ entries ∥₁ }
    {
        self.into_connection().into_store().close()
    }
}

// The lengths of the log and of the database file.
fn lengths<D: Disk>(files: &mut Files<D>) -> io::Result<(usize, usize)>
    requires log { IsTrue (D.Disk.is_usable files.old.log) }
    requires db { IsTrue (D.Disk.is_usable files.old.db) }
    ensures lengths { IfOk result (λ it. AreClean D.Disk files.new.log files.new.db
        → (it.0 ≡ length (image_of D.Disk files.old).log) × (it.1 ≡ length (image_of D.Disk files.old).db)) }
    ensures log { OnlyReads D.Disk files.old.log files.new.log }
    ensures db { OnlyReads D.Disk files.old.db files.new.db }
    ensures faults { OnOk result (faults_of D.Disk files.new ≡ faults_of D.Disk files.old) }
{
    let log = files.log.len()?;
    let db = files.db.len()?;
    Ok((log, db))
}

// The same as `open_files`, once it is known whether the log is missing.
fn open_measured<D: Disk + Drop>(
    alloc: Global,
    files: Files<D>,
    options: Options,
    lacks_log: bool,
) -> Result<SqliteStore<FileStore<D>>, (NoStore, Leftover<D>)>
    requires log { IsTrue (D.Disk.is_usable files.log) }
    requires db { IsTrue (D.Disk.is_usable files.db) }
    requires measured { AreClean D.Disk files.log files.db → ¬ LacksFile (image_of D.Disk files) × (lacks_log ≡ false → ¬ LacksLog (image_of D.Disk files)) }
    ensures found { IfOk result (λ store. HasCleanDisk (file_state store.connection) → (entries : List Entry)
        × HoldsIn over_files store entries × FoundIn (image_of D.Disk files) entries) }
    ensures spared { IfErr result (λ e. IsCleanLeft e.1 → LeavesFiles files e.1
        ⊎ (((image : Image) → left_outcomes e.1 image → LeavesAsFound (image_of D.Disk files) image × KeepsLedger (image_of D.Disk files) image)
        ⊎ HoldsNothing (image_of D.Disk files))) }
    ensures stays { IfErr result (λ e. IsCleanLeft e.1 → (entries : List Entry) → StandsIn (image_of D.Disk files) entries
        → ((image : Image) → outcomes D.Disk files.log files.db image → StandsIn image entries)
        → (image : Image) → left_outcomes e.1 image → ReadsIn image (λ db. HasEntries db entries)) }
    ensures no_ledger { IfErr result (λ e. e.0 ≡ NoStore.NoLedger → IsCleanLeft e.1 → (entries : List Entry) → All IsReal entries
        → StandsIn (image_of D.Disk files) entries → MoreFaults (faults_of D.Disk files) (faults_left e.1)) }
    ensures never_in_use { IfErr result (λ e. e.0 ≢ NoStore.InUse) }
{
    let conn = match Connection::open_files(alloc, files, options) {
        Ok(conn) => conn,
        Err((error, rest)) => return Err((file_fault(error), rest)),
    };
    if lacks_log && is_new(conn.schema()) {
        return Err((NoStore::NoLedger, Leftover::Files(without_log(conn))));
    }
    match begun(alloc, conn) {
        Ok(store) => Ok(store),
        Err((why, conn)) => Err((why, Leftover::Store(conn.into_store()))),
    }
}

// The files of a database that has nothing, with an empty log: as they were where there was none. So the next open refuses them too.
fn without_log<D: Disk + Drop>(conn: Connection<FileStore<D>>) -> Files<D>
    ensures { AreClean D.Disk result.log result.db → HasCleanDisk (file_state conn) }
{
    let mut files = conn.into_store().close();
    if files.log.may_be_used() {
        let _ = files.log.set_len(0);
    }
    files
}

/// Opens a ledger on a machine that stops after so many calls of the log and of the database file, and gives the files back as they
/// are then: whatever a crash leaves of them reads as the ledger that they held. For theorems and tests.
pub fn open_until<D: Disk + Drop>(
    alloc: Global,
    files: Files<D>,
    options: Options,
    log_calls: u64,
    db_calls: u64,
) -> Files<Fuse<D>>
    requires log { IsTrue (D.Disk.is_usable files.log) }
    requires db { IsTrue (D.Disk.is_usable files.db) }
    ensures stays { AreClean D.Disk (inner_of result.log) (inner_of result.db) → (entries : List Entry) → StandsIn (image_of D.Disk files) entries
        → ((image : Image) → outcomes D.Disk files.log files.db image → StandsIn image entries)
        → (image : Image) → outcomes D.Disk (inner_of result.log) (inner_of result.db) image → ReadsIn image (λ db. HasEntries db entries) }
{
    let cut = Files {
        log: Fuse::new(files.log, log_calls),
        db: Fuse::new(files.db, db_calls),
    };
    match SqliteStore::open_files(alloc, cut, options) {
        Ok(store) => store.crash(),
        Err((_, rest)) => rest.into_files(),
    }
}

/// Opens a ledger and closes it, on such a machine. For theorems and tests.
pub fn close_until<D: Disk + Drop>(
    alloc: Global,
    files: Files<D>,
    options: Options,
    log_calls: u64,
    db_calls: u64,
) -> Files<Fuse<D>>
    requires log { IsTrue (D.Disk.is_usable files.log) }
    requires db { IsTrue (D.Disk.is_usable files.db) }
    ensures stays { AreClean D.Disk (inner_of result.log) (inner_of result.db) → (entries : List Entry) → StandsIn (image_of D.Disk files) entries
        → ((image : Image) → outcomes D.Disk files.log files.db image → StandsIn image entries)
        → (image : Image) → outcomes D.Disk (inner_of result.log) (inner_of result.db) image → ReadsIn image (λ db. HasEntries db entries) }
{
    let cut = Files {
        log: Fuse::new(files.log, log_calls),
        db: Fuse::new(files.db, db_calls),
    };
    match SqliteStore::open_files(alloc, cut, options) {
        Ok(store) => match store.into_files() {
            Ok(files) => files,
            Err((_, files)) => files,
        },
        Err((_, rest)) => rest.into_files(),
    }
}

impl SqliteStore<MemStore> {
    /// An empty ledger in memory, for tests and tries. `Memory` is the error that comes when an allocation fails.
    pub fn in_memory(alloc: Global) -> Result<Self, NoStore>
        ensures empty { IfOk result (λ store. HoldsIn over_memory store []) }
    {
        match Connection::open_in_memory(alloc) {
            Ok(conn) => match begun(alloc, conn) {
                Ok(store) => Ok(store),
                Err((why, _)) => Err(why),
            },
            Err(_) => Err(NoStore::Memory),
        }
    }
}
