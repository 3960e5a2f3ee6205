//! A store in memory, for tests and for the simulated till. It keeps what a crash may leave, and fails when it is told to.

ghost use Rattle.std.specs.Prelude.{◌≡◌, ◌⊎◌, List, [], ◌++◌, option_map, IfOk, OnOk, OnErr};
ghost use Rattle.escpos_till.specs.Appending.{added};
ghost use Rattle.escpos_till.specs.declared.entry.Entry.{Entry};

use crate::entry::Entry;
use crate::store::{Appended, Store, StoreFault};
use std::alloc::{AllocError, Global};
use std::marker::Model;

/// At which call of `append` a store in memory fails.
#[derive(Clone, Copy, Debug, PartialEq, Eq)]
pub enum Failure {
    /// At none.
    Never,
    /// After so many calls that succeed, and before anything is kept.
    BeforeKeeping { calls: usize },
    /// After so many calls that succeed, and when all is kept.
    AfterKeeping { calls: usize },
}

/// A store in memory. The model is the list of entries that a crash leaves, which are also those that it holds.
#[derive(Debug, Drop)]
pub struct MemoryStore {
    entries: Vec<Entry>,
    failure: Failure,
    alloc: Global,
}

impl Model for MemoryStore {
    ghost use Rattle.std.specs.Prelude.{List};
    ghost use Rattle.escpos_till.specs.declared.entry.Entry.{Entry};

    ghost Value = { List Entry };

    ghost view = { λ s. s.entries.items };
}

impl MemoryStore {
    /// A store with these entries, which fails as told. Allocates nothing.
    pub fn new(alloc: Global, entries: Vec<Entry>, failure: Failure) -> Self
        ensures { result ≡ entries.items }
    {
        MemoryStore {
            entries,
            failure,
            alloc,
        }
    }

    /// The entries that a crash leaves. Allocates nothing.
    pub fn after_crash(self) -> Vec<Entry>
        ensures { result.items ≡ self }
    {
        let MemoryStore { entries, .. } = self;
        entries
    }

    // Adds an entry, and another one, if one is given: both or neither.
    fn add(&mut self, entry: &Entry, after: Option<&Entry>) -> Result<(), AllocError>
        ensures added { OnOk result (self.new ≡ self.old ++ added entry.now (option_map (λ e. e.now) after.entry)) }
        ensures none { OnErr result (self.new ≡ self.old) }
    {
        let entry = entry.copy(self.alloc)?;
        self.entries.reserve(2)?;
        if let Some(after) = after {
            let after = after.copy(self.alloc)?;
            self.entries.push_reserved(entry);
            self.entries.push_reserved(after);
        } else {
            self.entries.push_reserved(entry);
        }
        Ok(())
    }

    // Whether the next call of `append` fails, and if so, whether what was to be added is kept; one call fewer is to succeed then.
    fn next_failure(&mut self) -> Failure
        ensures { self.new ≡ self.old }
    {
        let failure = self.failure;
        self.failure = match failure {
            Failure::Never => Failure::Never,
            Failure::BeforeKeeping { calls } => Failure::BeforeKeeping {
                calls: calls.saturating_sub(1),
            },
            Failure::AfterKeeping { calls } => Failure::AfterKeeping {
                calls: calls.saturating_sub(1),
            },
        };
        failure
    }
}

impl Store for MemoryStore {
    ghost faithful = { λ _. Unit {0} };

    ghost holds = { λ s entries. s ≡ entries };

    ghost leaves = { λ s entries. s ≡ entries };

    // Whatever it was told to, and memory: the model knows of neither.
    ghost says = { λ s added why new. Unit {0} };

    fn append(&mut self, entry: &Entry, after: Option<&Entry>) -> Result<Appended, StoreFault> {
        let failure = self.next_failure();
        if let Failure::BeforeKeeping { calls: 0 } = failure {
            return Err(StoreFault::Failed);
        }
        if self.add(entry, after).is_err() {
            return Err(StoreFault::Memory);
        }
        if let Failure::AfterKeeping { calls: 0 } = failure {
            return Err(StoreFault::Failed);
        }
        Ok(Appended::Done)
    }

    // Nobody else has it.
    fn let_go(&mut self) {}

    fn entries(&mut self, alloc: Global) -> Result<Vec<Entry>, StoreFault> {
        match copies(alloc, &self.entries) {
            Ok(entries) => Ok(entries),
            Err(_) => Err(StoreFault::Memory),
        }
    }

    ghost use Rattle.std.proofs.Common.{sym, ◌∙◌};

    ghost one_list = { λ s entries others faithful held also. sym held ∙ also };

    ghost outlives = { λ s entries left faithful held leaves. sym leaves ∙ held };
}

/// The same entries once more. The error is out of memory.
pub fn copies(alloc: Global, entries: &[Entry]) -> Result<Vec<Entry>, AllocError>
    ensures { IfOk result (λ copies. copies.items ≡ entries.now) }
{
    let mut copies = Vec::new(alloc);
    for entry in entries {
        copies.push(entry.copy(alloc)?)?;
    }
    Ok(copies)
}
