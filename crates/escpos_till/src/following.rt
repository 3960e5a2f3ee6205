//! What a till's machine does next: what it is to keep for a call, and which stage follows once an entry is kept, or isn't.

ghost use Rattle.std.specs.Prelude.{◌≡◌, ◌-◌, ◌<◌, ◌^◌, ℕ, List, length, min, option_map};
ghost use Rattle.escpos_till.specs.declared.entry.Entry.{Entry};
ghost use Rattle.escpos_till.specs.declared.stage.Due.{Due};
ghost use Rattle.escpos_till.specs.Book.{HasRoom, HasTryRoom, IsBookOf};
ghost use Rattle.escpos_till.specs.Delivers.{fresh, marks_taken};
ghost use Rattle.escpos_till.specs.Machine.{Follows, IsLastFirst, IsRaisedTo, further_of, lost, taking};

use crate::book::Book;
use crate::copy::{CopyLine, CopyText};
use crate::entry::{Content, Entry};
use crate::further::Further;
use crate::key::ReceiptKey;
use crate::note::TillNote;
use crate::stage::{Stage, Then};
use crate::store::StoreFault;
use crate::talking::{opened, sent_next};
use escpos_host::Host;
use std::alloc::Global;

// The last mark number that leaves enough for a try, where all marks are answered.
const LAST_FIRST: u32 = u32::MAX - 2;

const _: () = prove!(LAST_FIRST == 4_294_967_293);

// Makes room for the try of a receipt that may go over the link of one that is sent now. Where there is none, no receipt does.
pub(crate) fn reserve_next(book: &mut Book, then: &Then)
    ensures same { (entries : List Entry) → IsBookOf book.old entries → IsBookOf book.new entries }
    ensures kept { HasRoom book.old → HasRoom book.new }
    ensures try_kept { (number : ℕ) (tried : Entry) (due : Due) → then.now ≡ Then.GoOn number tried due → HasTryRoom book.old → HasTryRoom book.new }
    ensures count { length book.new.states.items ≡ length book.old.states.items }
    ensures next { book.new.next ≡ book.old.next }
{
    if let Then::Send(_) | Then::SendNext { .. } = then {
        let _ = book.reserve_try();
    }
}

// What is to be kept first of a receipt with this content, which comes with this key or with none.
pub(crate) fn taking(book: &Book, key: Option<ReceiptKey>, content: Content) -> Stage
    ensures { result ≡ taking key book.now.last_key book.now.next content }
{
    let entry = match key {
        Some(key) => Entry::Key { key },
        None if book.last_key.is_some() => Entry::Raised {
            next: book.next,
            heard: 0,
        },
        None => {
            return Stage::Keeping {
                entry: Entry::Queued { content },
                then: Then::Queued,
            };
        }
    };
    Stage::Keeping {
        entry,
        then: Then::Take(content),
    }
}

// What follows where the store couldn't tell whether it kept an entry. A link is given up first.
pub(crate) fn lost(then: Then, why: StoreFault) -> Stage
    ensures { result ≡ lost then why }
{
    match then {
        Then::Queued | Then::Take(_) | Then::Raised | Then::Cancelled { .. } => {
            Stage::Telling(TillNote::NotKept(why))
        }
        Then::Send(_) | Then::Recorded(_) | Then::GoOn { .. } | Then::SendNext { .. } => {
            Stage::HangingUp(TillNote::NotKept(why))
        }
    }
}

// What follows once an entry is kept, where this mark number was the next before.
pub(crate) fn following(
    alloc: Global,
    book: &Book,
    host: &mut Host,
    first: u32,
    then: Then,
) -> Stage
    requires { then ≡ Then.Queued → 0 < length book.now.states.items }
    ensures { Follows then host.old first book.now host.new result }
{
    match then {
        Then::Queued => Stage::Telling(TillNote::Queued(book.last_number())),
        Then::Take(content) => Stage::Keeping {
            entry: Entry::Queued { content },
            then: Then::Queued,
        },
        Then::Raised => Stage::Telling(TillNote::Raised),
        Then::Cancelled { number, tried } => Stage::Telling(TillNote::Cancelled { number, tried }),
        Then::Send(due) => {
            *host = fresh_host(alloc, first, book.heard);
            opened(host, due)
        }
        Then::Recorded(number) => {
            host.link_down();
            Stage::HangingUp(TillNote::Recorded(number))
        }
        Then::GoOn {
            recorded,
            tried,
            due,
        } => Stage::Keeping {
            entry: tried,
            then: Then::SendNext { recorded, due },
        },
        Then::SendNext { recorded, due } => sent_next(host, recorded, due),
    }
}

// How the receipts after one are sent over the same link, if they are to be.
pub(crate) fn further_of(further: bool, most: u32, copy: Option<&CopyText<'_>>) -> Option<Further>
    ensures { result ≡ further_of further most (option_map (λ t. t.now) copy.entry) }
{
    if !further {
        return None;
    }
    Some(Further {
        most,
        copy: match copy {
            Some(text) => Some(CopyLine::of(text)),
            None => None,
        },
    })
}

/// How many mark numbers a try takes: one for each opening mark, at least one, and one for the closing mark. If that can't be counted,
/// it is more than there are.
pub(crate) fn marks_taken(openings: u32) -> u32
    ensures { result ≡ min (marks_taken openings) (2 ^ 32 - 1) }
{
    openings.max(1).saturating_add(1)
}

// A host that has sent nothing yet, and knows that no mark of older hosts below a number can be answered any more.
pub(crate) fn fresh_host(alloc: Global, first: u32, heard: u32) -> Host
    ensures { result ≡ fresh first heard }
{
    Host::resume(alloc, first, heard, Vec::new(alloc))
}

// The last number to which the next one may be raised.
pub(crate) fn last_first(book: &Book) -> u32
    ensures { IsLastFirst book.now result }
{
    if book.heard == book.next {
        LAST_FIRST
    } else {
        book.mark_limit() - 2
    }
}

// That the next mark number is raised to this one; and, where that is higher than is allowed otherwise, that no mark below it can be answered.
pub(crate) fn raised(book: &Book, first: u32) -> Entry
    ensures { IsRaisedTo book.now first result }
{
    let passes = book.heard == book.next && first > book.mark_limit() - 2;
    let heard = if passes { first } else { 0 };
    Entry::Raised { next: first, heard }
}
