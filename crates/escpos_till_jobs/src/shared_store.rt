//! A store that lets go of its ledger between entries, so that others may add some: for a till that delivers.
//!
//! The ledger is opened for an entry, and closed again where its printer is waited for, and where its turn is over. Each time that it is opened, what is found must begin
//! with what is known, and go on with entries that others may add; anything else is a failure. How a ledger is opened is left to `Ledgers`.

ghost use Rattle.std.specs.Prelude.{◌≡◌, ◌≢◌, ◌↔◌, ◌⊎◌, ◌++◌, ◌∷◌, [], List, option_map, vec_capacity, vec_len, ◌+◌, ◌≤◌, false, None, Ok, IfOk, IfSome, OnErr, OnOk};
ghost use Rattle.escpos_till.specs.declared.store.Appended.TheVariants as appended;
ghost use Rattle.escpos_till.specs.declared.entry.Entry.{Entry};
ghost use Rattle.escpos_till.specs.Appending.{added};
ghost use Rattle.escpos_till.specs.Learning.{AreOthers};
ghost use Rattle.escpos_till_jobs.specs.SharedStores.{SharedHolds, SharedLeaves};

use crate::opening::no_store;
use crate::perform::Ledgers;
use crate::task::LedgerPath;
use escpos_till::{Appended, Entry, NoStore, Store, StoreFault, copies, others_since};
use std::alloc::{AllocError, Global};
use std::marker::Model;

/// A store of the ledger at a path, which is let go between entries. The model is what is known of it.
#[derive(Drop)]
pub struct SharedStore<F: Drop, S: Store + Drop> {
    alloc: Global,
    ledgers: F,
    path: String,
    // the store that is open, if one is
    held: Option<S>,
    // a call on it failed: it isn't known what it holds
    unsure: bool,
    known: Vec<Entry>,
}

impl<F: Drop, S: Store + Drop> Model for SharedStore<F, S> {
    ghost use Rattle.escpos_till_jobs.specs.SharedStores.{SharedView, HoldsUnless};

    ghost Value = { SharedView S };

    ghost view = { λ s. record { held = s.held; unsure = s.unsure; known = s.known.items } };

    ghost invariant = { λ s. HoldsUnless S.faithful S.holds s.unsure s.held s.known.items };
}

impl<F: Ledgers<S> + Drop, S: Store + Drop> SharedStore<F, S> {
    /// Opens the ledger at a path, by these means, and reads what it has.
    ///
    /// The errors are those of the opening; `Failed` and `Memory` also come where it can't be read.
    pub fn open(alloc: Global, ledgers: F, path: &LedgerPath<'_>) -> Result<Self, NoStore>
        ensures sure { IfOk result (λ s. s.unsure ≡ false) }
        ensures is_open { IfOk result (λ s. s.held ≢ None) }
    {
        let mut ledgers = ledgers;
        let Ok(text) = path.text().to_owned(alloc) else {
            return Err(NoStore::Memory);
        };
        let mut store = ledgers.open(path)?;
        match store.entries(alloc) {
            Ok(known) => Ok(SharedStore {
                alloc,
                ledgers,
                path: text,
                held: Some(store),
                unsure: false,
                known,
            }),
            Err(why) => {
                ledgers.close(store);
                Err(no_store(why))
            }
        }
    }
}

impl<F: Ledgers<S> + Drop, S: Store + Drop> SharedStore<F, S> {
    /// Closes the ledger, where it is open. The next call opens it again.
    pub fn end(&mut self)
        ensures known { self.new.known ≡ self.old.known }
        ensures unsure { self.new.unsure ≡ self.old.unsure }
        ensures none { self.new.held ≡ None }
    {
        if let Some(store) = self.held.take() {
            self.ledgers.close(store);
        }
    }

    // Has a store open that holds what is known; the entries that others have added are known then, and returned, if there are any. Where there
    // is an error, none is open.
    fn take(&mut self) -> Result<Option<Vec<Entry>>, StoreFault>
        requires { self.old.unsure ≡ false }
        ensures sure { self.new.unsure ≡ false }
        ensures is_open { OnOk result (self.new.held ≢ None) }
        ensures none { result ≡ Ok None → self.new.known ≡ self.old.known }
        ensures others { IfOk result (λ taken. IfSome taken (λ others. (others.items ≢ []) × AreOthers self.old.known others.items × (self.new.known ≡ self.old.known ++ others.items))) }
        ensures stays { OnErr result ((self.new.known ≡ self.old.known) × (self.new.held ≡ None)) }
    {
        if self.held.is_some() {
            return Ok(None);
        }
        let path = LedgerPath::new(self.path.as_str());
        let mut store = match self.ledgers.open(&path) {
            Ok(store) => store,
            Err(why) => return Err(fault_of(why)),
        };
        match found(self.alloc, &self.known, &mut store) {
            Ok((others, found)) => {
                self.known = found;
                self.held = Some(store);
                if others.is_empty() {
                    Ok(None)
                } else {
                    Ok(Some(others))
                }
            }
            Err(why) => {
                self.ledgers.close(store);
                Err(why)
            }
        }
    }

    // Adds an entry to the store that is open, and another one after it, if one is given: both or neither. Then the ledger is closed, if its turn
    // is over.
    fn add_in_turn(&mut self, entry: &Entry, after: Option<&Entry>) -> Result<Appended, StoreFault>
        requires { self.old.unsure ≡ false }
        ensures added { OnOk result ((self.new.unsure ≡ false) × (self.new.known ≡ self.old.known ++ added entry.now (option_map (λ e. e.now) after.entry))) }
        ensures done { IfOk result (λ it. it ≡ appended.Done) }
        ensures left { OnErr result ((left : List Entry) → SharedLeaves S.faithful S.holds S.leaves self.new left
            → (left ≡ self.old.known) ⊎ (left ≡ self.old.known ++ added entry.now (option_map (λ e. e.now) after.entry))) }
    {
        let came = self.add(entry, after);
        if came.is_ok() && self.ledgers.is_turn_over() {
            self.end();
        }
        came
    }

    // Adds an entry to the store that is open, and another one after it, if one is given: both or neither.
    fn add(&mut self, entry: &Entry, after: Option<&Entry>) -> Result<Appended, StoreFault>
        requires { self.old.unsure ≡ false }
        ensures added { OnOk result ((self.new.unsure ≡ false) × (self.new.known ≡ self.old.known ++ added entry.now (option_map (λ e. e.now) after.entry))) }
        ensures done { IfOk result (λ it. it ≡ appended.Done) }
        ensures is_open { OnOk result (self.new.held ≢ None) }
        ensures left { OnErr result ((left : List Entry) → SharedLeaves S.faithful S.holds S.leaves self.new left
            → (left ≡ self.old.known) ⊎ (left ≡ self.old.known ++ added entry.now (option_map (λ e. e.now) after.entry))) }
    {
        let Ok((kept, kept_after)) = copies_of(self.alloc, entry, after) else {
            return Err(StoreFault::Memory);
        };
        if self.known.reserve(2).is_err() {
            return Err(StoreFault::Memory);
        }
        let Some(mut store) = self.held.take() else {
            return Err(StoreFault::Failed);
        };
        match store.append(entry, after) {
            Ok(Appended::Done) => {
                push_both(&mut self.known, kept, kept_after);
                self.held = Some(store);
                Ok(Appended::Done)
            }
            // a store that lets go of its ledger itself isn't taken
            Ok(Appended::Others(_)) => {
                self.ledgers.close(store);
                Err(StoreFault::Failed)
            }
            Err(why) => {
                self.unsure = true;
                self.held = Some(store);
                Err(why)
            }
        }
    }
}

// An entry once more, and the one after it, if one is given.
fn copies_of(
    alloc: Global,
    entry: &Entry,
    after: Option<&Entry>,
) -> Result<(Entry, Option<Entry>), AllocError>
    ensures { IfOk result (λ it. (it.0 ≡ entry.now) × (it.1 ≡ option_map (λ e. e.now) after.entry)) }
{
    let entry = entry.copy(alloc)?;
    match after {
        Some(after) => Ok((entry, Some(after.copy(alloc)?))),
        None => Ok((entry, None)),
    }
}

// Adds both after the entries that are known, which have room for two.
fn push_both(known: &mut Vec<Entry>, entry: Entry, after: Option<Entry>)
    requires { vec_len known.old + 2 ≤ vec_capacity known.old }
    ensures { known.new.items ≡ known.old.items ++ added entry after }
{
    known.push_reserved(entry);
    if let Some(after) = after {
        known.push_reserved(after);
    }
}

// What a store has beyond what is known, and all that it has.
fn found<S: Store>(
    alloc: Global,
    known: &[Entry],
    store: &mut S,
) -> Result<(Vec<Entry>, Vec<Entry>), StoreFault>
    ensures { IfOk result (λ it. (S.faithful store.new → S.holds store.new it.1.items) × (it.1.items ≡ known.now ++ it.0.items) × AreOthers known.now it.0.items) }
{
    let found = store.entries(alloc)?;
    let others = others_since(alloc, known, &found)?;
    Ok((others, found))
}

impl<F: Ledgers<S> + Drop, S: Store + Drop> Store for SharedStore<F, S> {
    // What is found is compared with what is known: there is no premise but that of the store below.
    ghost faithful = { λ _. Unit {0} };

    ghost holds = { λ s entries. SharedHolds s entries };

    ghost leaves = { SharedLeaves S.faithful S.holds S.leaves };

    // Whichever step failed.
    ghost says = { λ s added why new. Unit {0} };

    fn append(&mut self, entry: &Entry, after: Option<&Entry>) -> Result<Appended, StoreFault> {
        if self.unsure {
            return Err(StoreFault::Failed);
        }
        match self.take() {
            Ok(None) => self.add_in_turn(entry, after),
            Ok(Some(others)) => Ok(Appended::Others(others)),
            Err(why) => Err(why),
        }
    }

    fn let_go(&mut self)
        ensures was_faithful { Unit {0} → Unit {0} }
        ensures held { Unit {0} → (entries : List Entry) → SharedHolds self.old entries → SharedHolds self.new entries }
        ensures none { self.new.held ≡ None }
    {
        self.end();
    }

    fn entries(&mut self, alloc: Global) -> Result<Vec<Entry>, StoreFault> {
        if self.unsure {
            return Err(StoreFault::Failed);
        }
        match copies(alloc, &self.known) {
            Ok(entries) => Ok(entries),
            Err(_) => Err(StoreFault::Memory),
        }
    }

    ghost use Rattle.std.proofs.Common.{sym, ◌∙◌};
    ghost use Rattle.escpos_till_jobs.specs.SharedStores.{shared_outlives};

    ghost one_list = { λ s entries others faithful held also. sym held.1 ∙ also.1 };

    ghost outlives = { λ s entries left faithful held leaves. shared_outlives S.faithful S.holds S.leaves S.outlives s entries left held leaves };
}

// The same reason, where a store is open no more.
fn fault_of(why: NoStore) -> StoreFault
    ensures { result ≡ StoreFault.Memory ↔ why ≡ NoStore.Memory }
{
    match why {
        NoStore::Memory => StoreFault::Memory,
        NoStore::InUse | NoStore::NoLedger | NoStore::Failed => StoreFault::Failed,
    }
}
