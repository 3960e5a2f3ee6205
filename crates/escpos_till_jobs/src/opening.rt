//! Opening a ledger, and what is printed if there is none.

ghost use Rattle.std.specs.Prelude.{◌≡◌, ◌≢◌, Err, List, [], IfErr, IfOk, OnErr, IsErrOf, IsTrue};
ghost use Rattle.escpos_job_parts.specs.Ending.{Tells, job_end};
ghost use Rattle.escpos_till.specs.declared.entry.Entry.{Entry};
ghost use Rattle.escpos_till.specs.Entries.{IsLedger};
ghost use Rattle.escpos_till_jobs.specs.Lines.{no_store_line, no_store_status};
ghost use Rattle.escpos_till_jobs.specs.Opening.{Opens};

use crate::outcome::{LEDGER_FAILED, tell_text};
use escpos_io::ByteOut;
use escpos_job_parts::ending::MEMORY;
use escpos_job_parts::status::Status;
use escpos_till::{NoMachine, NoStore, Store, StoreFault, TillMachine};
use std::alloc::Global;

/// The machine of the ledger that a store has; an empty store has a new ledger.
///
/// The error is `NoLedger` if what the store has is no ledger, `Failed` if the store failed, and `Memory` if an allocation
/// failed. The store has what it had.
pub fn open_machine<S: Store>(alloc: Global, store: &mut S) -> Result<TillMachine, NoStore>
    ensures opens { IfOk result (λ machine. Opens S.faithful S.holds store.old machine store.new) }
    ensures was_faithful { S.faithful store.new → S.faithful store.old }
    ensures no_ledger { IsErrOf result NoStore.NoLedger → S.faithful store.new → (entries : List Entry) → S.holds store.old entries → ¬ IsLedger entries }
    ensures failed { IsErrOf result NoStore.Failed → S.says store.old [] StoreFault.Failed store.new }
    ensures left { OnErr result (S.faithful store.new → (entries left : List Entry) → S.holds store.old entries → S.leaves store.new left → left ≡ entries) }
    ensures never_in_use { IfErr result (λ why. why ≢ NoStore.InUse) }
{
    match store.entries(alloc) {
        Ok(entries) => match TillMachine::open(alloc, &entries) {
            Ok(machine) => Ok(machine),
            Err(NoMachine::Damaged) => Err(NoStore::NoLedger),
            Err(NoMachine::Memory) => Err(NoStore::Memory),
        },
        Err(fault) => Err(no_store(fault)),
    }
}

// The same reason, as it is told.
pub(crate) fn no_store(fault: StoreFault) -> NoStore
    ensures failed { fault ≡ StoreFault.Failed → result ≡ NoStore.Failed }
    ensures memory { fault ≡ StoreFault.Memory → result ≡ NoStore.Memory }
{
    match fault {
        StoreFault::Failed => NoStore::Failed,
        StoreFault::Memory => NoStore::Memory,
    }
}

/// Prints the line that says why there is no ledger: `ledger in use`, `no ledger` or `ledger failed`, with `Device`, or
/// `memory`, with `Memory`.
pub fn refuse_store<W: ByteOut>(why: NoStore, output: &mut W) -> Status
    ensures tells { Tells (job_end (W.written output.old) (W.written output.new) (W.failed output.new) result) (no_store_line why) (no_store_status why) }
    ensures not_hidden { result ≢ Status.Device → ¬ IsTrue (W.failed output.old) → ¬ IsTrue (W.failed output.new) }
    ensures never_usage { result ≢ Status.Usage }
{
    match why {
        NoStore::InUse => tell_text(b"ledger in use\n", output, Status::Device),
        NoStore::NoLedger => tell_text(b"no ledger\n", output, Status::Device),
        NoStore::Failed => tell_text(LEDGER_FAILED, output, Status::Device),
        NoStore::Memory => tell_text(MEMORY, output, Status::Memory),
    }
}
