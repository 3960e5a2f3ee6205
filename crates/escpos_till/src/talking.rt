//! What a till's machine does while it talks with its printer: how a talk begins, and what each event does to it.
//!
//! When a machine talks, and what follows that, is left to `machine`.

ghost use Rattle.std.specs.Prelude.{◌≡◌, ◌⊎◌, ◌-◌, ℕ, List, [], IfErr, IsTrue, OnOk};
ghost use Rattle.escpos_host.specs.Machine.{Open, reports_asked};
ghost use Rattle.escpos_till.specs.declared.entry.Entry.{Entry};
ghost use Rattle.escpos_till.specs.Book.{IsBookOf};
ghost use Rattle.escpos_till.specs.Delivers.{fresh};
ghost use Rattle.escpos_till.specs.Further.{heard_by};
ghost use Rattle.escpos_till.specs.Machine.{Drops, GoesOn, Hears, IsGoingOn, Opens, RefusesSending, Sends, SendsNext, Submits, Turns, printed};

use crate::book::Book;
use crate::entry::Entry;
use crate::further::printed_or_further;
use crate::note::TillNote;
use crate::number::ReceiptNumber;
use crate::pause::Paused;
use crate::stage::{Due, Stage, Talk, Then};
use crate::tries::closes_try;
use escpos_command::AutomaticStatus;
use escpos_host::{Host, HostError, HostEvent, SendFault, open_link_reporting};
use escpos_receipt::Receipt;
use std::alloc::Global;

// A host that has sent nothing puts its opening marks out.
pub(crate) fn opened(host: &mut Host, due: Due) -> Stage
    ensures { (first heard : ℕ) → host.old ≡ fresh first heard → Opens due first heard host.new result }
{
    match open_link_reporting(host, due.openings) {
        Ok(()) => Stage::Talking(Talk::first(due)),
        Err(why) => Stage::HangingUp(TillNote::Waiting {
            number: due.number,
            why: SendFault::Refused(why),
        }),
    }
}

// What an event does, where so many bytes of answers may still be read, and all that came were heard or not.
pub(crate) fn turned(
    alloc: Global,
    book: &Book,
    host: &mut Host,
    event: HostEvent,
    talk: Talk,
    left: u32,
    all: bool,
) -> Stage
    requires book { (entries : List Entry) × IsBookOf book.now entries }
    ensures turns { Turns book.now event talk left host.old host.new result }
    ensures all { IsGoingOn result → IsTrue all }
{
    match event {
        HostEvent::None | HostEvent::Status(_) => going_on(host, talk, left),
        HostEvent::Condition(block) => told_of(host, block, talk, left),
        HostEvent::Opened => submitted(host, talk, left),
        HostEvent::Recorded(_) => {
            printed_or_further(alloc, book, host, talk.number, &talk.further, all)
        }
        HostEvent::Late(id) => {
            if closes_try(&book.tries, book.heard, host.oldest_mark(), talk.number, id) {
                printed(book, host, talk.number)
            } else {
                going_on(host, talk, left)
            }
        }
        HostEvent::BadAnswer { .. } => given_up(host, talk.number, SendFault::BadAnswer),
    }
}

// The printer has told its condition, and the talk goes on.
fn told_of(host: &mut Host, block: AutomaticStatus, talk: Talk, left: u32) -> Stage
    ensures { Hears talk block left host.old host.new result }
{
    let Talk {
        number,
        receipt,
        left: before,
        paused,
        further,
        recorded,
    } = talk;
    let paused = paused.after(block);
    going_on(
        host,
        Talk {
            number,
            receipt,
            left: before,
            paused,
            further,
            recorded,
        },
        left,
    )
}

// The receipt is printed: that is to be kept, with what the host has heard.
pub(crate) fn printed(book: &Book, host: &Host, number: ReceiptNumber) -> Stage
    ensures { result ≡ printed book.now number host.now }
{
    Stage::Keeping {
        entry: recorded(book, host, number),
        then: Then::Recorded(number),
    }
}

// That a receipt is recorded, with what the host has heard: no mark below that number can be answered any more.
pub(crate) fn recorded(book: &Book, host: &Host, number: ReceiptNumber) -> Entry
    ensures { result ≡ Entry.Recorded number (heard_by book.now host.now) }
{
    Entry::Recorded {
        number,
        heard: host.oldest_mark().min(book.next),
    }
}

// The host gives the link up, since the receipt isn't known to be printed for this reason.
fn given_up(host: &mut Host, number: ReceiptNumber, why: SendFault) -> Stage
    ensures host { Drops host.old host.new }
    ensures stage { result ≡ Stage.HangingUp (TillNote.Waiting number why) }
{
    host.link_down();
    Stage::HangingUp(TillNote::Waiting { number, why })
}

// The talk goes on, if more bytes of answers may be read.
fn going_on(host: &mut Host, talk: Talk, left: u32) -> Stage
    ensures { GoesOn talk left host.old host.new result }
{
    if left == 0 {
        return given_up(host, talk.number, SendFault::TooLong);
    }
    Stage::Talking(Talk {
        number: talk.number,
        receipt: talk.receipt,
        left,
        paused: talk.paused,
        further: talk.further,
        recorded: talk.recorded,
    })
}

// The host is given the receipt, if more bytes of answers may be read. The printer is asked once more to tell its condition.
fn submitted(host: &mut Host, talk: Talk, left: u32) -> Stage
    ensures { Submits talk talk.receipt left host.old host.new result }
{
    let Talk {
        number,
        receipt,
        left: before,
        paused,
        further,
        recorded,
    } = talk;
    match receipt {
        Some(receipt) if left > 0 => match sent(host, receipt) {
            Ok(()) => Stage::Talking(Talk {
                number,
                receipt: None,
                left,
                paused,
                further,
                recorded,
            }),
            Err(why) => given_up(host, number, SendFault::Refused(why)),
        },
        receipt => going_on(
            host,
            Talk {
                number,
                receipt,
                left: before,
                paused,
                further,
                recorded,
            },
            left,
        ),
    }
}

// A receipt is sent over the link of the one before, which is recorded. If the host refuses that, the link is given up.
pub(crate) fn sent_next(host: &mut Host, recorded: ReceiptNumber, due: Due) -> Stage
    ensures { SendsNext recorded due host.old host.new result }
{
    let Due {
        number,
        receipt,
        openings: _,
        most,
        further,
    } = due;
    match sent(host, receipt) {
        Ok(()) => Stage::Talking(Talk {
            number,
            receipt: None,
            left: most,
            paused: Paused::not(),
            further,
            recorded: Some(recorded),
        }),
        Err(_) => {
            host.link_down();
            Stage::HangingUp(TillNote::Recorded(recorded))
        }
    }
}

// A host whose link is open is given the receipt, after a request for automatic status.
fn sent(host: &mut Host, receipt: Receipt) -> Result<(), HostError>
    ensures sent { OnOk result (Sends receipt host.old host.new) }
    ensures refused { IfErr result (λ why. RefusesSending why host.old × ((host.new ≡ host.old) ⊎ ((host.old.phase ≡ Open []) × (host.new ≡ reports_asked host.old)))) }
{
    host.ask_reports()?;
    match host.submit(receipt) {
        Ok(()) => Ok(()),
        Err((why, _)) => Err(why),
    }
}

// How many bytes may still be read, where so many more were.
pub(crate) fn less(left: u32, count: usize) -> u32
    ensures { result ≡ left - count }
{
    match u32::try_from(count) {
        Ok(count) => left.saturating_sub(count),
        Err(_) => 0,
    }
}
