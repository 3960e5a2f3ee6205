//! What a till's machine does when it learns that others have added entries to its ledger: what it knows then, and what is to be kept then.
//!
//! `specs/Learning.antt` says which entries others may add. When a machine learns of them is left to its driver.

ghost use Rattle.std.specs.Prelude.{◌≡◌, ◌⊎◌, ◌+◌, ◌++◌, ◌<◌, ◌↔◌, ℕ, List, IfErr, IfOk, OnOk, IsTrue, length};
ghost use Rattle.std.specs.List.{AllByRecursion};
ghost use Rattle.escpos_till.specs.declared.entry.Entry.{Entry};
ghost use Rattle.escpos_till.specs.declared.stage.Stage.TheVariants as stage;
ghost use Rattle.escpos_till.specs.Book.{HasTryRoom, IsBookOf};
ghost use Rattle.escpos_till.specs.Entries.{IsLedger};
ghost use Rattle.escpos_till.specs.Delivers.{most_entries};
ghost use Rattle.escpos_till.specs.Further.{GoesFurther};
ghost use Rattle.escpos_till.specs.Learning.{AreOthers, EndsCancelled, IsDelivering, IsOthers, NotLearned, NotesAll, Revises, StandsIn, WaitsIn, WaitsOrCancelled};
ghost use Rattle.escpos_till.specs.Machine.{Drops, printed};

use crate::book::{Book, MOST_ENTRIES, NoBook};
use crate::entry::Entry;
use crate::following::marks_taken;
use crate::further::{Further, printed_or_further};
use crate::memory_store::copies;
use crate::note::TillNote;
use crate::number::ReceiptNumber;
use crate::stage::{Due, Stage, Then};
use crate::state::ReceiptState;
use crate::store::StoreFault;
use crate::talking::printed;
use escpos_host::{Host, HostError, SendFault};
use std::alloc::Global;

// Whether others may add this entry while a machine delivers.
fn is_others(entry: &Entry) -> bool
    ensures { IsTrue result ↔ IsOthers entry.now }
{
    match entry {
        Entry::Queued { .. } | Entry::Raised { .. } | Entry::Cancelled { .. } | Entry::Key { .. } =>
            true,
        Entry::Tried { .. }
        | Entry::Recorded { .. }
        | Entry::Renewed { .. }
        | Entry::Earlier { .. } => false,
    }
}

// Whether others may add each of these entries while a machine delivers.
fn are_others(entries: &[Entry]) -> bool
    ensures { IsTrue result ↔ AllByRecursion IsOthers entries.now }
{
    for entry in entries {
        if !is_others(entry) {
            return false;
        }
    }
    true
}

// Whether a machine delivers: others may add entries then.
fn delivers(then: &Then) -> bool
    ensures { IsTrue result ↔ IsDelivering then.now }
{
    matches!(
        then,
        Then::Send(_) | Then::Recorded(_) | Then::GoOn { .. } | Then::SendNext { .. }
    )
}

// Whether these entries are those.
fn are_same(entries: &[Entry], others: &[Entry]) -> bool
    ensures { IsTrue result ↔ entries.now ≡ others.now }
{
    if entries.len() != others.len() {
        return false;
    }
    for k in 0..entries.len() {
        if !entries[k].is_same(&others[k]) {
            return false;
        }
    }
    true
}

/// The entries that others have added to a ledger since it had those that are known, by what is found in it now.
///
/// The errors are `Failed` if what is found isn't what is known with entries that others may have added, and `Memory`.
pub fn others_since(
    alloc: Global,
    known: &[Entry],
    found: &[Entry],
) -> Result<Vec<Entry>, StoreFault>
    ensures others { IfOk result (λ others. (found.now ≡ known.now ++ others.items) × AreOthers known.now others.items) }
    ensures failed { IfErr result (λ why. why ≡ StoreFault.Failed → IsLedger known.now → (others : List Entry) → found.now ≡ known.now ++ others → ¬ AreOthers known.now others) }
{
    let count = known.len();
    if found.len() < count || !are_same(&found[..count], known) {
        return Err(StoreFault::Failed);
    }
    let others = &found[count..];
    if !are_others(others) {
        return Err(StoreFault::Failed);
    }
    if !others.is_empty() {
        if let Err(why) = check_ledger(alloc, found) {
            return Err(why);
        }
    }
    match copies(alloc, others) {
        Ok(others) => Ok(others),
        Err(_) => Err(StoreFault::Memory),
    }
}

// Refuses entries that are no ledger.
fn check_ledger(alloc: Global, entries: &[Entry]) -> Result<(), StoreFault>
    ensures ledger { OnOk result (IsLedger entries.now) }
    ensures failed { IfErr result (λ why. why ≡ StoreFault.Failed → ¬ IsLedger entries.now) }
{
    match Book::of(alloc, entries) {
        Ok(_) => Ok(()),
        Err(NoBook::Damaged) => Err(StoreFault::Failed),
        Err(NoBook::Memory) => Err(StoreFault::Memory),
    }
}

/// Takes entries into account that others have added to the ledger of a machine, before an entry was kept after which this follows. At `Err`
/// some of them are.
pub(crate) fn learn(
    alloc: Global,
    book: &mut Book,
    others: &[Entry],
    then: &Then,
) -> Result<(), StoreFault>
    requires { (entries : List Entry) × IsBookOf book.old entries × IsLedger entries }
    ensures delivers { OnOk result (IsDelivering then.now) }
    ensures others { OnOk result (AllByRecursion IsOthers others.now) }
    ensures all { OnOk result (NotesAll book.old others.now book.new) }
    ensures some { (entries : List Entry) × IsBookOf book.new entries × IsLedger entries }
    ensures few { OnOk result ((entries : List Entry) → IsBookOf book.new entries → length entries + 1 < most_entries) }
    ensures room { OnOk result (HasTryRoom book.new) }
    ensures not_learned { IfErr result (λ why. NotLearned then.now others.now book.old why) }
{
    if !delivers(then) || !are_others(others) {
        return Err(StoreFault::Failed);
    }
    match book.take_in(alloc, others) {
        Ok(()) => room_for_more(book),
        Err(NoBook::Damaged) => Err(StoreFault::Failed),
        Err(NoBook::Memory) => Err(StoreFault::Memory),
    }
}

// Makes room for one more try, and sees that two more entries may be taken.
fn room_for_more(book: &mut Book) -> Result<(), StoreFault>
    requires { (entries : List Entry) × IsBookOf book.old entries × IsLedger entries }
    ensures same { (entries : List Entry) → IsBookOf book.old entries → IsBookOf book.new entries }
    ensures few { OnOk result ((entries : List Entry) → IsBookOf book.new entries → length entries + 1 < most_entries) }
    ensures room { OnOk result (HasTryRoom book.new) }
    ensures memory { IfErr result (λ why. why ≡ StoreFault.Memory) }
{
    if book.count >= MOST_ENTRIES - 1 || book.reserve_try().is_err() {
        return Err(StoreFault::Memory);
    }
    Ok(())
}

/// What is to be kept now, or what comes instead, where this was to follow.
pub(crate) fn revised(alloc: Global, book: &Book, host: &mut Host, then: Then) -> Stage
    requires delivers { IsDelivering then }
    requires stands { WaitsOrCancelled book.now then }
    requires book { (entries : List Entry) × IsBookOf book.now entries }
    ensures { Revises then book.now host.old host.new result }
{
    match then {
        Then::Send(due) => tried_now(book, host, due),
        Then::Recorded(number) => recorded_now(book, host, number),
        Then::GoOn { recorded, due, .. } => further_now(alloc, book, host, recorded, due.further),
        Then::SendNext { recorded, .. } => {
            host.link_down();
            Stage::HangingUp(TillNote::Recorded(recorded))
        }
        Then::Queued | Then::Take(_) | Then::Raised | Then::Cancelled { .. } => unreachable!(),
    }
}

// The try of a receipt with the mark numbers that are free now.
fn tried_now(book: &Book, host: &mut Host, due: Due) -> Stage
    requires stands { StandsIn book.now due.number }
    ensures { Revises (Then.Send due) book.now host.old host.new result }
{
    let number = due.number;
    match book.state(number) {
        Some(ReceiptState::Waiting { .. }) => {}
        Some(ReceiptState::Cancelled { tried }) => return cancelled_now(host, number, tried),
        Some(ReceiptState::Recorded { .. }) => unreachable!(),
        None => unreachable!(),
    }
    if !book.has_marks(due.openings) {
        host.link_down();
        return Stage::HangingUp(TillNote::Waiting {
            number,
            why: SendFault::Refused(HostError::MarksUsedUp),
        });
    }
    Stage::Keeping {
        entry: Entry::Tried {
            number,
            next: book.next + marks_taken(due.openings),
        },
        then: Then::Send(due),
    }
}

// That a receipt is recorded.
fn recorded_now(book: &Book, host: &mut Host, number: ReceiptNumber) -> Stage
    requires stands { StandsIn book.now number }
    ensures { Revises (Then.Recorded number) book.now host.old host.new result }
{
    match book.state(number) {
        Some(ReceiptState::Waiting { .. }) => printed(book, host, number),
        Some(ReceiptState::Cancelled { tried }) => cancelled_now(host, number, tried),
        Some(ReceiptState::Recorded { .. }) => unreachable!(),
        None => unreachable!(),
    }
}

// That a receipt is recorded, and with it the try of the next one, if that may still be sent over the same link.
fn further_now(
    alloc: Global,
    book: &Book,
    host: &mut Host,
    number: ReceiptNumber,
    further: Option<Further>,
) -> Stage
    requires stands { StandsIn book.now number }
    requires book { (entries : List Entry) × IsBookOf book.now entries }
    ensures { ((WaitsIn book.now number × (host.new ≡ host.old) × ((result ≡ printed book.now number host.old) ⊎ GoesFurther book.now number further host.old result))
        ⊎ EndsCancelled book.now number host.old host.new result) }
{
    match book.state(number) {
        Some(ReceiptState::Waiting { .. }) => {
            printed_or_further(alloc, book, host, number, &further, true)
        }
        Some(ReceiptState::Cancelled { tried }) => cancelled_now(host, number, tried),
        Some(ReceiptState::Recorded { .. }) => unreachable!(),
        None => unreachable!(),
    }
}

// One of the others has cancelled the receipt: the link is given up.
fn cancelled_now(host: &mut Host, number: ReceiptNumber, tried: usize) -> Stage
    ensures host { Drops host.old host.new }
    ensures stage { result ≡ stage.HangingUp (TillNote.Cancelled number tried) }
{
    host.link_down();
    Stage::HangingUp(TillNote::Cancelled { number, tried })
}
