//! Where a ledger keeps its entries: a list that outlives the program.
//!
//! A store says in its ghost members which entries it holds and what a crash may leave of them. All of that is under a premise
//! of its own, `faithful`, which a disk keeps and no program can. How a store keeps entries, in a file or in memory, is left
//! to the types that implement it.
//!
//! A crash in the middle of a call is seen as a call that isn't answered with `Ok`: what it leaves is what a crash may leave
//! after `Err`.

ghost use Rattle.std.specs.Prelude.{◌≡◌, ◌⊎◌, List, [], ◌++◌, option_map, IfErr, IfOk, OnErr};
ghost use Rattle.escpos_till.specs.declared.entry.Entry.{Entry};
ghost use Rattle.escpos_till.specs.Appending.{IfDone, IfOthers, added};
ghost use Rattle.escpos_till.specs.Learning.{AreOthers};
ghost use Rattle.escpos_till.specs.declared.store.StoreFault.{StoreFault as Why};

use crate::entry::Entry;
use std::alloc::Global;

/// Why a store didn't do what it was asked to.
#[derive(Clone, Copy, Debug, PartialEq, Eq)]
pub enum StoreFault {
    /// Out of memory.
    Memory,
    /// A write, a sync or a read failed.
    Failed,
}

/// Why there is no store.
#[derive(Clone, Copy, Debug, PartialEq, Eq)]
pub enum NoStore {
    /// Another process has it open.
    InUse,
    /// What is there isn't a ledger's, or it is damaged. It is as it was.
    NoLedger,
    /// A write, a sync or a read failed.
    Failed,
    /// Out of memory.
    Memory,
}

/// What came of what a store was to add.
#[derive(Debug, Drop)]
pub enum Appended {
    /// The store has it, after what it held.
    Done,
    /// The store has none of it: others have added these entries before, which it holds now after those that it held.
    Others(Vec<Entry>),
}

/// A list of entries that outlives the program.
///
/// A store may be held by one machine alone, from its opening to its end. Or it is held for an entry at a time, and others may add entries
/// meanwhile.
pub trait Store {
    // The premise: what the store had at first was a list of entries, and since then it has done what it was asked to.
    ghost faithful: { Self → Type 0 };

    // The store holds these entries, and so does what a crash leaves.
    ghost holds: { Self → List Entry → Type 0 };

    // A crash at this moment may leave these entries.
    ghost leaves: { Self → List Entry → Type 0 };

    // The store says why a call on it failed. From its state before the call to that after it these entries were to be added;
    // none where they were to be read.
    ghost says: { Self → List Entry → Why → Self → Type 0 };

    /// Adds an entry after those that are there, and another one after it, if one is given: both or neither. At `Done` they would outlive a
    /// crash. If others have added entries since, nothing is added, and the answer is `Others` with those; then another call may add it. At
    /// `Err` it may have been added or not.
    fn append(&mut self, entry: &Entry, after: Option<&Entry>) -> Result<Appended, StoreFault>
        ensures was_faithful { faithful self.new → faithful self.old }
        ensures kept { IfOk result (λ it. IfDone it (faithful self.new → (entries : List Entry) → holds self.old entries
            → holds self.new (entries ++ added entry.now (option_map (λ e. e.now) after.entry)))) }
        ensures others { IfOk result (λ it. IfOthers it (λ others. faithful self.new → (entries : List Entry) → holds self.old entries
            → AreOthers entries others × holds self.new (entries ++ others))) }
        ensures kept_or_not { OnErr result (faithful self.new → (entries left : List Entry) → holds self.old entries
            → leaves self.new left → (left ≡ entries) ⊎ (left ≡ entries ++ added entry.now (option_map (λ e. e.now) after.entry))) }
        ensures says { IfErr result (λ why. says self.old (added entry.now (option_map (λ e. e.now) after.entry)) why self.new) };

    /// The entries that the store holds, in order. They stay, whatever the result.
    fn entries(&mut self, alloc: Global) -> Result<Vec<Entry>, StoreFault>
        ensures was_faithful { faithful self.new → faithful self.old }
        ensures read { IfOk result (λ read. faithful self.new → holds self.old read.items × holds self.new read.items) }
        ensures unread { OnErr result (faithful self.new → (entries left : List Entry) → holds self.old entries
            → leaves self.new left → left ≡ entries) }
        ensures says { IfErr result (λ why. says self.old [] why self.new) };

    /// Lets others add entries, until the next call. The store holds what it held.
    fn let_go(&mut self)
        ensures was_faithful { faithful self.new → faithful self.old }
        ensures held { faithful self.new → (entries : List Entry) → holds self.old entries → holds self.new entries };

    // A store holds one list of entries.
    ghost one_list: { (s : Self) (entries others : List Entry) → faithful s → holds s entries → holds s others → entries ≡ others };

    // What a store holds outlives a crash.
    ghost outlives: { (s : Self) (entries left : List Entry) → faithful s → holds s entries → leaves s left → left ≡ entries };
}
