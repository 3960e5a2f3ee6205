//! `ledger --renew`: a new ledger goes on from an older one.
//!
//! The new ledger is written under another name, and gets its own once it is whole. Then the older one has the first entry of the new one at its end,
//! twice: so it is no ledger any more, and nobody delivers or takes a receipt with it.

ghost use Rattle.std.specs.Prelude.{◌≡◌, ◌≢◌, ℕ, List, Result, IfErr, IfOk, IsErrOf, OnErr, OnOk, IsTrue, count_by, option_map};
ghost use Rattle.escpos_job_parts.specs.Ending.{Tells, job_end};
ghost use Rattle.escpos_till.specs.Appending.{added};
ghost use Rattle.escpos_till.specs.Entries.{IsLedger};
ghost use Rattle.escpos_till_jobs.specs.Outputs.{output_of};
ghost use Rattle.escpos_till_jobs.specs.Words.{place};
ghost use Rattle.escpos_till_jobs.specs.Renewing.{Has, IsUnread, IsUnwritten, KeepsOne, MayHave, ReadsRenewed, RenewsAt, RenewsTo, Writes, count_waiting, ending, is_waiting, new_place, no_renewal_line, no_renewal_status, renewed_line};

use crate::opening::{no_store, refuse_store};
use crate::outcome::{tell_number, tell_text};
use crate::perform::Ledgers;
use crate::task::LedgerPath;
use escpos_io::ByteOut;
use escpos_job_parts::status::Status;
use escpos_till::{
    Appended, Entry, NoMachine, NoStore, NotRenewed, ReceiptState, Store, StoreFault, TillMachine,
    renewed,
};
use std::alloc::Global;

/// Why no ledger goes on from an older one.
#[derive(Clone, Copy, Debug, PartialEq, Eq)]
pub enum NoRenewal {
    /// A ledger isn't there, or can't be written.
    NoStore(NoStore),
    /// Something is at the path of the new one already.
    Exists,
}

/// Where new ledgers are written, before they have their names.
pub trait NewLedgers<S> {
    ghost use Rattle.escpos_till_jobs.specs.declared.renew.NoRenewal.{NoRenewal};

    // For a ledger at this path it began this store, or there is none for this reason, and then it is so.
    ghost begun: { Self → List ℕ → Result S NoRenewal → Self → Type 0 };

    // This store got its name at this path, or it didn't for this reason, and then it is so.
    ghost finished: { Self → S → List ℕ → Result (Unit {0}) NoRenewal → Self → Type 0 };

    /// Begins an empty store for a ledger at a path, where nothing is yet. It has another name until it is finished.
    fn begin(&mut self, path: &LedgerPath<'_>) -> Result<S, NoRenewal>
        ensures { begun self.old path.now result self.new };

    /// Closes a store, and gives it its name, unless something is there now. A crash leaves the ledger at the path, or nothing there.
    fn finish(&mut self, store: S, path: &LedgerPath<'_>) -> Result<(), NoRenewal>
        ensures { finished self.old store path.now result self.new };
}

/// Renews the ledger at a path: a new one, at another path, has what waits in it, and the older one is no ledger any more. It is opened as for a
/// delivery, so that nobody delivers from it or takes receipts meanwhile.
///
/// The line is `renewed W`, where W receipts wait; `refused Exists`, with `Refused`, if something is at the other path already; or one of
/// `refuse_store`. A crash leaves the older ledger as it was, and nothing at the other path or a ledger that nobody uses yet; or the new one.
pub fn renew_ledger<T: Store, G: Ledgers<T>, S: Store + Drop, N: NewLedgers<S>, W: ByteOut>(
    alloc: Global,
    shared: &mut G,
    news: &mut N,
    path: &LedgerPath<'_>,
    new: &LedgerPath<'_>,
    output: &mut W,
) -> Status
    ensures renews { RenewsAt (place G.opened G.closed T.faithful T.holds T.leaves T.says) (new_place N.begun N.finished S.faithful S.holds) shared.old news.old
        (output_of (W.written output.old) (W.failed output.old)) shared.new news.new (output_of (W.written output.new) (W.failed output.new)) result path.now new.now }
    ensures not_hidden { result ≢ Status.Device → ¬ IsTrue (W.failed output.old) → ¬ IsTrue (W.failed output.new) }
    ensures never_usage { result ≢ Status.Usage }
{
    match shared.open(path) {
        Ok(store) => {
            let mut store = store;
            let came = renew_to(alloc, &mut store, news, new);
            shared.close(store);
            tell_renewal(came, output)
        }
        Err(why) => refuse_store(why, output),
    }
}

// Prints what came of it.
fn tell_renewal<W: ByteOut>(came: Result<usize, NoRenewal>, output: &mut W) -> Status
    ensures renewed { IfOk came (λ waiting. Tells (job_end (W.written output.old) (W.written output.new) (W.failed output.new) result) (renewed_line waiting) Status.Good) }
    ensures refused { IfErr came (λ why. Tells (job_end (W.written output.old) (W.written output.new) (W.failed output.new) result) (no_renewal_line why) (no_renewal_status why)) }
    ensures not_hidden { result ≢ Status.Device → ¬ IsTrue (W.failed output.old) → ¬ IsTrue (W.failed output.new) }
    ensures never_usage { result ≢ Status.Usage }
{
    match came {
        Ok(waiting) => tell_number(b"renewed ", waiting, Status::Good, output),
        Err(NoRenewal::NoStore(why)) => refuse_store(why, output),
        Err(NoRenewal::Exists) => tell_text(b"refused Exists\n", output, Status::Refused),
    }
}

// Writes the ledger that goes on from the one in a store at a path, and ends the older one. Returns how many receipts wait in the new one.
fn renew_to<T: Store, S: Store + Drop, N: NewLedgers<S>>(
    alloc: Global,
    store: &mut T,
    news: &mut N,
    path: &LedgerPath<'_>,
) -> Result<usize, NoRenewal>
    ensures renews { IfOk result (λ waiting. RenewsTo T.faithful T.holds (new_place N.begun N.finished S.faithful S.holds) store.old news.old path.now waiting store.new news.new) }
    ensures kept { IfErr result (λ none. KeepsOne T.faithful T.holds T.leaves (new_place N.begun N.finished S.faithful S.holds) store.old news.old path.now none store.new news.new) }
{
    let (new, waiting) = match read_renewed(alloc, store) {
        Ok(read) => read,
        Err(why) => return Err(NoRenewal::NoStore(why)),
    };
    match write_new(alloc, news, path, &new) {
        Ok(()) => (),
        Err(why) => return Err(why),
    }
    match end_ledger(store, &new) {
        Ok(()) => Ok(waiting),
        Err(fault) => Err(NoRenewal::NoStore(no_store(fault))),
    }
}

// The ledger that goes on from the one in a store, and how many receipts wait in it.
fn read_renewed<T: Store>(alloc: Global, store: &mut T) -> Result<(Vec<Entry>, usize), NoStore>
    ensures reads { IfOk result (λ read. ReadsRenewed T.faithful T.holds store.old read.0.items store.new) }
    ensures count { IfOk result (λ read. read.1 ≡ count_waiting read.0.items) }
    ensures unread { IfErr result (λ none. IsUnread T.faithful T.holds T.leaves store.old none store.new) }
{
    let entries = match store.entries(alloc) {
        Ok(entries) => entries,
        Err(fault) => return Err(no_store(fault)),
    };
    let new = match renewed(alloc, &entries) {
        Ok(new) => new,
        Err(NotRenewed::Damaged) => return Err(NoStore::NoLedger),
        Err(NotRenewed::TooMany | NotRenewed::Failed) => return Err(NoStore::Failed),
        Err(NotRenewed::Memory) => return Err(NoStore::Memory),
    };
    match count_waiting(alloc, &new) {
        Ok(waiting) => Ok((new, waiting)),
        Err(why) => Err(why),
    }
}

// How many receipts of a ledger wait.
fn count_waiting(alloc: Global, entries: &[Entry]) -> Result<usize, NoStore>
    ensures count { IfOk result (λ waiting. waiting ≡ count_waiting entries.now) }
    ensures no_ledger { IsErrOf result NoStore.NoLedger → ¬ IsLedger entries.now }
    ensures never_in_use { IfErr result (λ none. none ≢ NoStore.InUse) }
{
    match TillMachine::open(alloc, entries) {
        Ok(machine) => Ok(waiting_in(machine.states())),
        Err(NoMachine::Damaged) => Err(NoStore::NoLedger),
        Err(NoMachine::Memory) => Err(NoStore::Memory),
    }
}

// How many of these receipts wait.
fn waiting_in(states: &[ReceiptState]) -> usize
    ensures { result ≡ count_by is_waiting states.now }
{
    let mut count: usize = 0;
    for state in states {
        if is_waiting(*state) {
            count += 1;
        }
    }
    count
}

// Whether a receipt that stands so waits.
fn is_waiting(state: ReceiptState) -> bool
    ensures { result ≡ is_waiting state }
{
    matches!(state, ReceiptState::Waiting { .. })
}

// Writes a new ledger at a path.
fn write_new<S: Store + Drop, N: NewLedgers<S>>(
    alloc: Global,
    news: &mut N,
    path: &LedgerPath<'_>,
    entries: &[Entry],
) -> Result<(), NoRenewal>
    ensures writes { OnOk result (Writes (new_place N.begun N.finished S.faithful S.holds) news.old path.now entries.now news.new) }
    ensures unwritten { IfErr result (λ none. IsUnwritten (new_place N.begun N.finished S.faithful S.holds) news.old path.now entries.now none news.new) }
{
    let mut store = match news.begin(path) {
        Ok(store) => store,
        Err(why) => return Err(why),
    };
    match fill(alloc, &mut store, entries) {
        Ok(()) => news.finish(store, path),
        Err(fault) => Err(NoRenewal::NoStore(no_store(fault))),
    }
}

// Adds entries to a store that has none.
fn fill<S: Store>(alloc: Global, store: &mut S, entries: &[Entry]) -> Result<(), StoreFault>
    ensures holds { OnOk result (S.faithful store.new → S.holds store.new entries.now) }
{
    if !store.entries(alloc)?.is_empty() {
        return Err(StoreFault::Failed);
    }
    keep_all(store, entries)
}

// Adds entries to a store.
fn keep_all<S: Store>(store: &mut S, entries: &[Entry]) -> Result<(), StoreFault>
    ensures has { OnOk result (Has S.faithful S.holds store.old entries.now store.new) }
{
    for entry in entries {
        keep(store, entry, None)?;
    }
    Ok(())
}

// Adds an entry, and another one after it if one is given, to a store that nobody else adds to.
fn keep<S: Store>(store: &mut S, entry: &Entry, after: Option<&Entry>) -> Result<(), StoreFault>
    ensures has { OnOk result (Has S.faithful S.holds store.old (added entry.now (option_map (λ e. e.now) after.entry)) store.new) }
    ensures may_have { OnErr result (MayHave S.faithful S.holds S.leaves store.old (added entry.now (option_map (λ e. e.now) after.entry)) store.new) }
{
    match store.append(entry, after) {
        Ok(Appended::Done) => Ok(()),
        Ok(Appended::Others(_)) => Err(StoreFault::Failed),
        Err(fault) => Err(fault),
    }
}

// Adds what ends a ledger from which a new one goes on: the first entry of that one, twice.
fn end_ledger<T: Store>(store: &mut T, new: &[Entry]) -> Result<(), StoreFault>
    ensures ends { OnOk result (Has T.faithful T.holds store.old (ending new.now) store.new) }
    ensures may_end { OnErr result (MayHave T.faithful T.holds T.leaves store.old (ending new.now) store.new) }
{
    match new.first() {
        Some(first) => keep(store, first, Some(first)),
        None => Ok(()),
    }
}
