//! `queue --again`: a receipt that a ledger has taken is taken once more.

ghost use Rattle.std.specs.Prelude.{◌≡◌, ◌≢◌, ◌≤◌, List, length, slice_get, None, Some, IfErr, IfOk, IsErrOf, IsTrue, MatchOption};
ghost use Rattle.escpos_job_parts.specs.Ending.{job_end};
ghost use Rattle.escpos_till.specs.Contents.{GivesReceipt};
ghost use Rattle.escpos_till.specs.Delivers.{WhyNone};
ghost use Rattle.escpos_till.specs.Entries.{content_of, contents, earlier};
ghost use Rattle.escpos_till_jobs.specs.Again.{HasContent, HasNone, QueuesAgain, RefusesAgain};

use crate::outcome::{Outcome, tell};
use crate::queue::queue_receipt;
use escpos_io::ByteOut;
use escpos_job_parts::receipt_input::refuse_text;
use escpos_job_parts::status::Status;
use escpos_receipt::JsonError;
use escpos_till::{
    Content, Entry, PrinterLine, ReceiptContent, ReceiptNumber, Store, Surroundings, TillMachine,
    TillNote, TillRefusal,
};
use std::alloc::Global;

/// Why a receipt isn't taken once more.
#[derive(Clone, Copy, Debug, PartialEq, Eq)]
pub enum NotAgain {
    /// No receipt with this number was taken.
    NotTaken,
    /// An older ledger has taken the receipt with this number.
    Earlier,
    /// Its text gives no receipt, or an allocation failed.
    Text(JsonError),
}

/// Takes a receipt once more that the ledger of the store has taken, whatever became of that, and prints `queued M`, with the number that it has now.
/// It has no key then.
///
/// The status and the line are those of `queue_receipt`; or the status is `Refused` with `refused NotTaken N` if no receipt has this number, with
/// `refused Earlier N` if an older ledger has taken that one, and with the line of a refused text if what the ledger has of it gives no receipt. The
/// entries are read from the store: if that fails, the line is `ledger failed`, with `Device`.
pub fn queue_again<S: Store, L: PrinterLine, W: ByteOut>(
    alloc: Global,
    machine: &mut TillMachine,
    around: &mut Surroundings<S, L>,
    number: ReceiptNumber,
    output: &mut W,
) -> Status
    ensures queues { QueuesAgain S.faithful S.holds S.leaves S.says L.did number machine.old around.old machine.new around.new
        (job_end (W.written output.old) (W.written output.new) (W.failed output.new) result) }
    ensures not_hidden { result ≢ Status.Device → ¬ IsTrue (W.failed output.old) → ¬ IsTrue (W.failed output.new) }
    ensures never_usage { result ≢ Status.Usage }
{
    match around.store.entries(alloc) {
        Ok(entries) => match content_again(alloc, &entries, number) {
            Ok(content) => queue_receipt(machine, around, content, None, output),
            Err(why) => refuse_again(why, number, output),
        },
        Err(fault) => tell(Outcome::Told(TillNote::NotKept(fault)), output),
    }
}

// Prints why a receipt isn't taken once more.
fn refuse_again<W: ByteOut>(why: NotAgain, number: ReceiptNumber, output: &mut W) -> Status
    ensures refuses { RefusesAgain why number (job_end (W.written output.old) (W.written output.new) (W.failed output.new) result) }
    ensures not_hidden { result ≢ Status.Device → ¬ IsTrue (W.failed output.old) → ¬ IsTrue (W.failed output.new) }
    ensures never_usage { result ≢ Status.Usage }
{
    match why {
        NotAgain::NotTaken => tell(Outcome::Refused(TillRefusal::NotTaken(number)), output),
        NotAgain::Earlier => tell(Outcome::Refused(TillRefusal::Earlier(number)), output),
        NotAgain::Text(fault) => refuse_text(fault, output),
    }
}

// The content of the receipt that has this number.
fn content_again(
    alloc: Global,
    entries: &[Entry],
    number: ReceiptNumber,
) -> Result<ReceiptContent, NotAgain>
    ensures content { IfOk result (λ content. HasContent entries.now number content × GivesReceipt content) }
    ensures none { IfErr result (λ why. HasNone why entries.now number) }
{
    let earlier = earlier_in(entries) as usize;
    if number.get() <= earlier {
        return Err(NotAgain::Earlier);
    }
    let Some(content) = content_at(entries, number.get() - (1 + earlier)) else {
        return Err(NotAgain::NotTaken);
    };
    read_again(alloc, content)
}

// The number of the last receipt that an older ledger has taken; 0 if there is none.
fn earlier_in(entries: &[Entry]) -> u32
    ensures { result ≡ earlier entries.now }
{
    match entries.first() {
        Some(Entry::Renewed { last, .. }) => *last,
        _ => 0,
    }
}

// Reads a content once more.
fn read_again(alloc: Global, content: &Content) -> Result<ReceiptContent, NotAgain>
    ensures same { IfOk result (λ again. (again ≡ content.now) × GivesReceipt again) }
    ensures none { IfErr result (λ why. (error : JsonError) × (why ≡ NotAgain.Text error) × WhyNone error content.now) }
{
    let Ok(content) = content.copy(alloc) else {
        return Err(NotAgain::Text(JsonError::Memory));
    };
    match ReceiptContent::again(alloc, content) {
        Ok(again) => Ok(again),
        Err(error) => Err(NotAgain::Text(error)),
    }
}

// The content that was taken at this place, counted from 0 in the order of taking.
fn content_at(entries: &[Entry], place: usize) -> Option<&Content>
    ensures { MatchOption result (length (contents entries.now) ≤ place) (λ content. slice_get (contents entries.now) place ≡ Some content.now) }
{
    let mut passed = 0;
    for entry in entries {
        match content_of(entry) {
            Some(content) if passed == place => return Some(content),
            Some(_) => passed += 1,
            None => {}
        }
    }
    None
}

// The content of the receipt that an entry takes, if it takes one.
fn content_of(entry: &Entry) -> Option<&Content>
    ensures { MatchOption result (content_of entry.now ≡ None) (λ content. content_of entry.now ≡ Some content.now) }
{
    match entry {
        Entry::Queued { content } => Some(content),
        Entry::Tried { .. }
        | Entry::Recorded { .. }
        | Entry::Raised { .. }
        | Entry::Cancelled { .. }
        | Entry::Key { .. }
        | Entry::Renewed { .. }
        | Entry::Earlier { .. } => None,
    }
}
