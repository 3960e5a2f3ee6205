//! The machine of a till from the lines of its entries.

ghost use Rattle.std.specs.Prelude.{◌≡◌, ◌≢◌, ◌↔◌, ℕ, ◌+◌, ◌<◌, List, [], length, take, All, IfOk, IfErr, IsErrOf, IsTrue};
ghost use Rattle.escpos_till.specs.declared.entry.Entry.{Entry as EntryValue};
ghost use Rattle.escpos_till.specs.Entries.{IsLedger};
ghost use Rattle.escpos_c.specs.TillLines.{IsReal};
ghost use Rattle.escpos_c.specs.TillTexts.{BeginsWith, IsDamagedAt, IsMachineOf, IsNoLine, Says, lines_of};

use crate::till_lines::{NoEntry, entry_in};
use escpos_command::LF;
use escpos_till::{Entry, NoMachine, TillMachine};
use memchr::memchr;
use std::alloc::{AllocError, Global};

/// Why there is no machine.
#[derive(Clone, Copy, Debug, PartialEq, Eq)]
pub enum NoTill {
    /// The line at this place, counted from 0, is at fault.
    Damaged(usize),
    /// Out of memory.
    Memory,
}

/// The machine of the entries that a text is the lines of.
pub fn machine_of(alloc: Global, text: &[u8]) -> Result<TillMachine, NoTill>
    ensures machine { IfOk result (λ machine. IsMachineOf text.now machine) }
    ensures damaged { IfErr result (λ why. (at : _) → why ≡ NoTill.Damaged at → IsDamagedAt text.now at) }
{
    let Ok((entries, rest)) = entries_of(alloc, text) else {
        return Err(NoTill::Memory);
    };
    match TillMachine::open(alloc, &entries) {
        Ok(machine) if rest.is_empty() => Ok(machine),
        Ok(_) => Err(NoTill::Damaged(entries.len())),
        Err(NoMachine::Memory) => Err(NoTill::Memory),
        Err(NoMachine::Damaged) => match fault_place(alloc, &entries) {
            Ok(at) => Err(NoTill::Damaged(at)),
            Err(_) => Err(NoTill::Memory),
        },
    }
}

// The entries that a text begins with, and what stands after them: nothing, or what is no line of an entry.
fn entries_of<'a>(alloc: Global, text: &'a [u8]) -> Result<(Vec<Entry>, &'a [u8]), AllocError>
    ensures says { IfOk result (λ found. Says text.now found.0.items found.1.now) }
    ensures stopped { IfOk result (λ found. found.1.now ≢ [] → IsNoLine found.1.now) }
{
    let mut entries = Vec::new(alloc);
    let mut rest = text;
    while !rest.is_empty() {
        match first_entry(alloc, rest) {
            Ok((entry, more)) => {
                entries.push(entry)?;
                rest = more;
            }
            Err(NoEntry::Damaged) => return Ok((entries, rest)),
            Err(NoEntry::Memory) => return Err(AllocError),
        }
    }
    Ok((entries, rest))
}

// The entry that the first line of a text is, and what stands after the line.
fn first_entry<'a>(alloc: Global, text: &'a [u8]) -> Result<(Entry, &'a [u8]), NoEntry>
    ensures entry { IfOk result (λ found. BeginsWith text.now found.0 found.1.now) }
    ensures shorter { IfOk result (λ found. length found.1.now < length text.now) }
    ensures damaged { IsErrOf result NoEntry.Damaged → IsNoLine text.now }
{
    let Some(end) = memchr(LF, text) else {
        return Err(NoEntry::Damaged);
    };
    let entry = entry_in(alloc, &text[..end])?;
    Ok((entry, &text[end + 1..]))
}

// The place of the first entry that may not come after those before it.
fn fault_place(alloc: Global, entries: &[Entry]) -> Result<usize, AllocError>
    requires { ¬ IsLedger entries.now }
    ensures { IfOk result (λ at. (at < length entries.now) × IsLedger (take at entries.now) × ¬ IsLedger (take (at + 1) entries.now)) }
{
    let mut good = 0;
    let mut bad = entries.len();
    while bad - good > 1 {
        let middle = good + (bad - good) / 2;
        if are_ledger(alloc, &entries[..middle])? {
            good = middle;
        } else {
            bad = middle;
        }
    }
    Ok(good)
}

// Whether these entries are a ledger.
fn are_ledger(alloc: Global, entries: &[Entry]) -> Result<bool, AllocError>
    ensures { IfOk result (λ is. IsTrue is ↔ IsLedger entries.now) }
{
    match TillMachine::open(alloc, entries) {
        Ok(_) => Ok(true),
        Err(NoMachine::Damaged) => Ok(false),
        Err(NoMachine::Memory) => Err(AllocError),
    }
}

/// Proof only: a text is read in one way, and the lines of a ledger's entries give them back and are never at fault.
pub fn lines_read_back()
    ensures one_reading { (text : List ℕ) (entries others : List EntryValue) → Says text entries [] → Says text others [] → entries ≡ others }
    ensures given_back { (entries : List EntryValue) → All IsReal entries → Says (lines_of entries) entries [] }
    ensures never_at_fault { (entries : List EntryValue) (at : ℕ) → All IsReal entries → IsLedger entries → ¬ IsDamagedAt (lines_of entries) at }
{}
