//! What a till's machine does once a receipt is printed: it records it, and goes on with the next one over the same link, if it may.
//!
//! When it goes on is said in `specs/Further.antt`. What is sent of a receipt is left to `waiting`.

ghost use Rattle.std.specs.Prelude.{◌≡◌, ◌⊎◌, List, [], IfOk, IfSome, IsTrue};
ghost use Rattle.escpos_command.specs.CommandTable.{AreCommands};
ghost use Rattle.escpos_till.specs.Contents.{ContentDescribes, content_with};
ghost use Rattle.escpos_till.specs.Copy.{sent_of};
ghost use Rattle.escpos_till.specs.declared.entry.Entry.{Entry};
ghost use Rattle.escpos_till.specs.Book.{IsBookOf};
ghost use Rattle.escpos_till.specs.Further.{GoesFurther, IsAfter, IsText};
ghost use Rattle.escpos_command.specs.declared.command.Command.{Command};
ghost use Rattle.escpos_receipt.specs.Whole.{Whole};
ghost use Rattle.escpos_till.specs.Machine.{IsGoingOn, printed};

use crate::book::{Book, MOST_ENTRIES};
use crate::copy::CopyLine;
use crate::entry::Entry;
use crate::number::ReceiptNumber;
use crate::stage::{Due, Stage, Then};
use crate::talking::{printed, recorded};
use crate::tries::limit_from;
use crate::waiting::WaitingReceipt;
use escpos_host::{Host, HostState};
use escpos_receipt::{JsonError, Receipt};
use std::alloc::Global;

/// How the receipts after one are sent over the same link.
#[derive(Debug, Drop)]
pub struct Further {
    /// How many bytes of answers are read at most, of each.
    pub most: u32,
    /// The text of a line that is put before one that was tried before.
    pub copy: Option<CopyLine>,
}

impl Further {
    /// The same once more. Allocates nothing.
    pub fn copy(&self) -> Self
        ensures { result ≡ self.now }
    {
        Further {
            most: self.most,
            copy: match &self.copy {
                Some(line) => Some(line.copy()),
                None => None,
            },
        }
    }
}

// A receipt is printed: that is to be kept. With it, where the caller allows it, the next one can go over the same link and no allocation
// fails, that the next one is tried. The contract says what holds where it is, and not that it is.
pub(crate) fn printed_or_further(
    alloc: Global,
    book: &Book,
    host: &Host,
    number: ReceiptNumber,
    further: &Option<Further>,
    may: bool,
) -> Stage
    requires book { (entries : List Entry) × IsBookOf book.now entries }
    ensures is { (result ≡ printed book.now number host.now) ⊎ GoesFurther book.now number further.now host.now result }
    ensures may { IsGoingOn result → IsTrue may }
{
    let due = if may {
        next_due(alloc, book, host, number, further)
    } else {
        None
    };
    match due {
        Some(due) => Stage::Keeping {
            entry: recorded(book, host, number),
            then: Then::GoOn {
                recorded: number,
                tried: Entry::Tried {
                    number: due.number,
                    next: book.next + 1,
                },
                due,
            },
        },
        None => printed(book, host, number),
    }
}

// The receipt that is to be sent after this one over the same link, if there is one, and it may be sent so.
fn next_due(
    alloc: Global,
    book: &Book,
    host: &Host,
    number: ReceiptNumber,
    further: &Option<Further>,
) -> Option<Due>
    requires book { (entries : List Entry) × IsBookOf book.now entries }
    ensures { IfSome result (λ due. IsAfter book.now number further.now host.now due) }
{
    let Some(further) = further else {
        return None;
    };
    if host.state() != HostState::Ready || !is_quiet(host) || host.next_mark() != book.next {
        return None;
    }
    if book.next >= limit_from(host.oldest_mark().min(book.next))
        || book.count >= MOST_ENTRIES - 2
        || !book.has_try_room()
    {
        return None;
    }
    let Some(first) = book.first_besides(number) else {
        return None;
    };
    let Ok(receipt) = sent_of(alloc, &first, &further.copy) else {
        return None;
    };
    Some(Due {
        number: first.number,
        receipt,
        openings: 1,
        most: further.most,
        further: Some(further.copy()),
    })
}

// The host has nothing more to put.
fn is_quiet(host: &Host) -> bool
    ensures { IsTrue result → host.now.out ≡ [] }
{
    !host.has_out()
}

// What is sent of a receipt that waits.
fn sent_of(
    alloc: Global,
    waiting: &WaitingReceipt<'_>,
    copy: &Option<CopyLine>,
) -> Result<Receipt, JsonError>
    ensures receipt { IfOk result (λ sent. (receipt : List Command) × ContentDescribes (content_with waiting.now.options waiting.now.content.now) receipt × Whole receipt
        × (sent ≡ sent_of copy.now waiting.now.tried receipt)) }
    ensures text { IsText copy.now }
    ensures commands { IfOk result (λ sent. AreCommands sent × Whole sent) }
{
    match copy {
        Some(line) => {
            let text = line.text();
            known(waiting.to_send(alloc, Some(&text)))
        }
        None => known(waiting.to_send(alloc, None)),
    }
}

// Proof only: gives the caller this fact: what is sent is a receipt.
fn known(sent: Result<Receipt, JsonError>) -> Result<Receipt, JsonError>
    ensures same { result ≡ sent }
    ensures commands { IfOk result (λ sent. AreCommands sent × Whole sent) }
{
    if let Ok(receipt) = &sent {
        let _ = receipt.commands();
    }
    sent
}
