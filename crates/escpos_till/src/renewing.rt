//! A new ledger that goes on from an older one: it has what waits there, and not what is over.
//!
//! `specs/Renewing.antt` says what it has. The entries that are about the receipts from the first that waits on are carried over; then what came of
//! it is read as a ledger, and its keys are compared with those of the older one.

ghost use Rattle.std.specs.Prelude.{◌≡◌, ◌≢◌, ◌⊎◌, ◌+◌, ◌-◌, ◌++◌, ◌<◌, ◌≤◌, ◌^◌, ◌↔◌, ℕ, List, [], ◌∷◌, length, IfOk, IfErr, IsErrOf, IsTrue, OnOk};
ghost use Rattle.escpos_till.specs.declared.entry.Entry.{Entry};
ghost use Rattle.escpos_till.specs.Book.{IsBookOf};
ghost use Rattle.escpos_till.specs.Entries.{IsLedger, content_of, contents, earlier, last_number};
ghost use Rattle.escpos_till.specs.Keyed.{ListsKey};
ghost use Rattle.escpos_till.specs.Renewing.{BeginsRenewed, Carried, KeysAgree, Renews, SaysNothing, is_carried};

use crate::book::{Book, NoBook};
use crate::entry::Entry;
use crate::key::ReceiptKey;
use crate::keyed::{Keys, is_listed};
use crate::number::ReceiptNumber;
use std::alloc::{AllocError, Global};

/// A new ledger has the keys of so many receipts that were taken last, and of all that wait.
pub const KEYS_KEPT: usize = 1_000;

const _: () = prove!(KEYS_KEPT == 1_000);

/// Why no ledger goes on from some entries.
#[derive(Clone, Copy, Debug, PartialEq, Eq)]
pub enum NotRenewed {
    /// They are no ledger.
    Damaged,
    /// More receipts are over than a new ledger can count: 4,294,967,295.
    TooMany,
    /// What came of it is no such ledger. That doesn't happen, which isn't proved.
    Failed,
    /// Out of memory.
    Memory,
}

/// The ledger that goes on from the one with these entries.
pub fn renewed(alloc: Global, entries: &[Entry]) -> Result<Vec<Entry>, NotRenewed>
    ensures renews { IfOk result (λ new. Renews entries.now new.items) }
    ensures damaged { IsErrOf result NotRenewed.Damaged → ¬ IsLedger entries.now }
    ensures too_many { IsErrOf result NotRenewed.TooMany → 2 ^ 32 ≤ last_number entries.now }
    ensures failed { IsErrOf result NotRenewed.Failed → IsLedger entries.now }
{
    let book = match Book::of(alloc, entries) {
        Ok(book) => book,
        Err(NoBook::Damaged) => return Err(NotRenewed::Damaged),
        Err(NoBook::Memory) => return Err(NotRenewed::Memory),
    };
    let over = book.earlier as usize + book.first_waiting;
    if over > u32::MAX as usize {
        return Err(NotRenewed::TooMany);
    }
    let last = over as u32;
    let Ok(new) = carried_over(alloc, entries, &book, last) else {
        return Err(NotRenewed::Memory);
    };
    match check_renewed(alloc, &book, last, &new) {
        Ok(()) => Ok(new),
        Err(why) => Err(why),
    }
}

// What is carried over of the entries that this is the book of, where receipts with numbers up to `last` are over.
fn carried_over(
    alloc: Global,
    entries: &[Entry],
    book: &Book,
    last: u32,
) -> Result<Vec<Entry>, AllocError>
    requires book { IsBookOf book.now entries.now }
    requires later { book.now.earlier ≤ last }
    ensures carried { IfOk result (λ new. Carried last book.now.earlier entries.now new.items) }
{
    let mut new = beginning(alloc, book, last)?;
    carry(alloc, entries, book.earlier, last, &mut new)?;
    new.push(Entry::Raised {
        next: book.next,
        heard: 0,
    })?;
    Ok(new)
}

// How a new ledger begins: it goes on from an older one, some of whose receipts came with keys.
fn beginning(alloc: Global, book: &Book, last: u32) -> Result<Vec<Entry>, AllocError>
    ensures { IfOk result (λ new. SaysNothing last new.items) }
{
    let mut new = Vec::new(alloc);
    new.push(Entry::Renewed {
        last,
        heard: book.heard,
    })?;
    for place in 0..book.keys.len() {
        let (key, number) = book.keys.at(place);
        if is_over_and_kept(book, last, number) {
            new.push(Entry::Earlier {
                number,
                key: key.copy(),
            })?;
        }
    }
    Ok(new)
}

// Whether the receipt with this number is over, and one of those taken last.
fn is_over_and_kept(book: &Book, last: u32, number: ReceiptNumber) -> bool {
    number.get() <= last as usize && is_late(book, number)
}

// Whether the receipt with this number is one of those taken last.
fn is_late(book: &Book, number: ReceiptNumber) -> bool
    ensures { IsTrue result ↔ book.now.earlier + length book.now.states.items < number + KEYS_KEPT }
{
    let taken = book.earlier as usize + book.states.len();
    taken < KEYS_KEPT || taken - KEYS_KEPT < number.get()
}

// Adds the entries about receipts with numbers above `last`, each receipt with its key.
fn carry(
    alloc: Global,
    entries: &[Entry],
    first: u32,
    last: u32,
    new: &mut Vec<Entry>,
) -> Result<(), AllocError>
    requires begins { SaysNothing last new.old.items }
    requires earlier { earlier entries.now ≡ first }
    requires later { first ≤ last }
    ensures { OnOk result (Carried last first entries.now new.new.items) }
{
    let mut skip = last - first;
    for at in 0..entries.len() {
        let entry = &entries[at];
        if is_carried(entry, skip, last) {
            push_key(entries, at, new)?;
            new.push(entry.copy(alloc)?)?;
        }
        skip = skip_after(entry, skip);
    }
    Ok(())
}

// Adds the key of the receipt that the entry at this place takes, if it has one.
fn push_key(entries: &[Entry], at: usize, new: &mut Vec<Entry>) -> Result<(), AllocError>
    requires { at < length entries.now }
    ensures { OnOk result ((new.new.items ≡ new.old.items) ⊎ ((key : List ℕ) × (new.new.items ≡ new.old.items ++ Entry.Key key ∷ []))) }
{
    if at > 0 && takes(&entries[at]) {
        if let Entry::Key { key } = &entries[at - 1] {
            new.push(Entry::Key { key: key.copy() })?;
        }
    }
    Ok(())
}

// Whether a receipt is taken by the entry.
fn takes(entry: &Entry) -> bool
    ensures { IsTrue result ↔ content_of entry.now ≢ None }
{
    matches!(entry, Entry::Queued { .. })
}

// How many receipts are to be left out still, after the entry.
fn skip_after(entry: &Entry, skip: u32) -> u32
    ensures { result ≡ skip - length (contents (entry.now ∷ [])) }
{
    match entry {
        Entry::Queued { .. } => skip.saturating_sub(1),
        Entry::Tried { .. }
        | Entry::Recorded { .. }
        | Entry::Raised { .. }
        | Entry::Cancelled { .. }
        | Entry::Key { .. }
        | Entry::Renewed { .. }
        | Entry::Earlier { .. } => skip,
    }
}

// Whether the entry is about a receipt with a number above `last`, where so many of those that are taken are to be left out still.
fn is_carried(entry: &Entry, skip: u32, last: u32) -> bool
    ensures { result ≡ is_carried last skip entry.now }
{
    match entry {
        Entry::Queued { .. } => skip == 0,
        Entry::Tried { number, .. }
        | Entry::Recorded { number, .. }
        | Entry::Cancelled { number } => (last as usize) < number.get(),
        Entry::Raised { .. } | Entry::Key { .. } | Entry::Renewed { .. } | Entry::Earlier { .. } =>
            false,
    }
}

// Refuses what is no ledger, doesn't begin as one that goes on from another, or has other keys, another next mark number or other marks heard than the one with this book.
fn check_renewed(alloc: Global, book: &Book, last: u32, new: &[Entry]) -> Result<(), NotRenewed>
    ensures begins { OnOk result (BeginsRenewed new.now) }
    ensures ledger { OnOk result (IsLedger new.now) }
    ensures agrees { OnOk result ((b : _) × IsBookOf b new.now × (b.next ≡ book.now.next) × (b.heard ≡ book.now.heard) × KeysAgree book.now last b.keys.items) }
    ensures unlike { IfErr result (λ why. (why ≢ NotRenewed.Damaged) × (why ≢ NotRenewed.TooMany)) }
{
    if !begins_renewed(new) {
        return Err(NotRenewed::Failed);
    }
    match Book::of(alloc, new) {
        Ok(found) if has_marks_of(book, &found) && keys_agree(book, last, &found) => Ok(()),
        Ok(_) | Err(NoBook::Damaged) => Err(NotRenewed::Failed),
        Err(NoBook::Memory) => Err(NotRenewed::Memory),
    }
}

// Whether the entries begin with the one that says that they go on from an older ledger.
fn begins_renewed(entries: &[Entry]) -> bool
    ensures { IsTrue result → BeginsRenewed entries.now }
{
    matches!(entries, [Entry::Renewed { .. }, ..])
}

// Whether the second book has the next mark number of the first one, and what is heard.
fn has_marks_of(book: &Book, found: &Book) -> bool
    ensures { IsTrue result ↔ ((found.now.next ≡ book.now.next) × (found.now.heard ≡ book.now.heard)) }
{
    found.next == book.next && found.heard == book.heard
}

// Whether a ledger with the second book has of the keys of the first one those that are kept, and no others.
fn keys_agree(book: &Book, last: u32, found: &Book) -> bool
    ensures { IsTrue result → KeysAgree book.now last found.now.keys.items }
{
    has_kept_keys(book, last, &found.keys) && are_listed(&found.keys, &book.keys)
}

// Whether the keys of a book that are kept are among these.
fn has_kept_keys(book: &Book, last: u32, found: &Keys) -> bool
    ensures { IsTrue result → (key : List ℕ) (number : ℕ) → ListsKey book.now.keys.items key number
        → (last < number) ⊎ (book.now.earlier + length book.now.states.items < number + KEYS_KEPT) → ListsKey found.now.items key number }
{
    for place in 0..book.keys.len() {
        let (key, number) = book.keys.at(place);
        if !is_kept_in(book, last, key, number, found) {
            return false;
        }
    }
    true
}

// Whether a key of a book that is kept is among these.
fn is_kept_in(book: &Book, last: u32, key: &ReceiptKey, number: ReceiptNumber, found: &Keys) -> bool
    ensures { IsTrue result → (last < number) ⊎ (book.now.earlier + length book.now.states.items < number + KEYS_KEPT)
        → ListsKey found.now.items key.now number }
{
    !is_kept(book, last, number) || is_listed(found, key, number)
}

// Whether the key of a receipt with this number is kept: the receipt isn't over, or is one of those taken last.
fn is_kept(book: &Book, last: u32, number: ReceiptNumber) -> bool
    ensures { (last < number) ⊎ (book.now.earlier + length book.now.states.items < number + KEYS_KEPT) → IsTrue result }
{
    (last as usize) < number.get() || is_late(book, number)
}

// Whether each of these keys is among those, with its number.
fn are_listed(keys: &Keys, all: &Keys) -> bool
    ensures { IsTrue result → (key : List ℕ) (number : ℕ) → ListsKey keys.now.items key number → ListsKey all.now.items key number }
{
    for place in 0..keys.len() {
        let (key, number) = keys.at(place);
        if !is_listed(all, key, number) {
            return false;
        }
    }
    true
}
