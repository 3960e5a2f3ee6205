//! What may happen on a line, the effect of each event, and why it is refused.

ghost use Rattle.std.specs.Prelude.{◌≡◌, ◌≤◌, length};
ghost use Rattle.escpos_link.specs.Trusted.{IsFitting};
ghost use Rattle.escpos_link.specs.Refusals.{least_of, name_of, refusal_number, of_host};

use escpos_command::StatusKind;
use escpos_host::{HostError, HostEvent, Receipt};
use escpos_printer::{Condition, Fed};

/// What may happen on a line.
#[derive(Debug, Drop)]
pub enum Event {
    /// The host opens a link: a new one with nothing on it, after all links that there are.
    LinkUp,
    /// The same, and the host asks the printer to tell its condition, before its opening mark.
    LinkUpReporting,
    /// The host puts one more opening mark out.
    Nudge,
    /// The host is given this receipt to print.
    Submit(Receipt),
    /// The host asks for a status.
    Ask(StatusKind),
    /// The host asks the printer to tell its condition.
    AskReports,
    /// Up to this many bytes leave the host: for the newest link if it is live, otherwise they are lost.
    Move(usize),
    /// Up to this many bytes of the first link reach the printer. A fault ends that link, as if the printer left it.
    Deliver(usize),
    /// The printer gives up its oldest answer: it is on its way to the host if the link that the printer serves is live, it
    /// is lost if that link has ended, and it stays if there is no link.
    HandOver,
    /// The host hears up to this many of the bytes that are on their way to it.
    Answer(usize),
    /// The printer leaves the first link. What is on it is lost.
    PrinterLeaves,
    /// The printer is switched off and on, and so leaves the first link.
    PrinterRestart,
    /// The host gives its link up. What is on it may still reach the printer; answers on their way are lost.
    HostDrops,
    /// The host is restarted with its records and this number for its next mark, and so gives its link up.
    HostRestart(u32),
    /// The printer's sensors change.
    SetCondition(Condition),
}

impl Event {
    // Proof only: gives the caller these facts: a receipt holds no mark, and whatever is to be put out is in range.
    pub(crate) fn fits(&self)
        ensures { IsFitting self.now }
    {
        match self {
            Event::Submit(receipt) => {
                // Proof only: the receipt is whole, and its commands are in range.
                let _ = receipt.commands();
            }
            Event::Ask(kind) => {
                // Proof only: the kind is in range.
                let _ = kind.byte();
            }
            _ => {}
        }
    }
}

/// What became of the printer's oldest answer in `HandOver`.
#[derive(Clone, Copy, Debug, PartialEq, Eq)]
pub enum Handed {
    /// No answer waits, or there is no link.
    None,
    /// It is lost: the first link isn't the live one.
    Lost,
    /// It is on its way to the host.
    On,
}

/// The effect of an event.
#[derive(Clone, Copy, Debug, PartialEq, Eq)]
pub enum Note {
    /// It happened; there is nothing more to report.
    Done,
    /// This many bytes left the host.
    Moved(usize),
    /// The printer was fed this far.
    Fed(Fed),
    /// This became of an answer.
    Handed(Handed),
    /// The host took this many bytes; `last` is the last event that it heard, `None` if it heard none.
    Heard { consumed: usize, last: HostEvent },
}

/// Why an event is refused.
#[derive(Clone, Copy, Debug, PartialEq, Eq)]
pub enum Refusal {
    /// 1: the host isn't in a state for this call.
    NotReady,
    /// 2: no number for a mark is left.
    MarksUsedUp,
    /// 3: there is a link already.
    AlreadyUp,
    /// 4: out of memory.
    Memory,
    /// 5: a restarted host must start with a mark number from `least` on; smaller ones may have been used.
    MarkReused { least: u32 },
    /// 6: four receipts are in flight.
    InFlightFull,
}

impl Refusal {
    /// The number that programs print.
    pub fn number(self) -> u8
        ensures { result ≡ refusal_number self }
    {
        match self {
            Refusal::NotReady => 1,
            Refusal::MarksUsedUp => 2,
            Refusal::AlreadyUp => 3,
            Refusal::Memory => 4,
            Refusal::MarkReused { .. } => 5,
            Refusal::InFlightFull => 6,
        }
    }

    /// The name that programs print.
    pub fn name(self) -> &'static str
        ensures value { result.now ≡ name_of self }
        ensures short { length result.now ≤ 12 }
    {
        match self {
            Refusal::NotReady => "NotReady",
            Refusal::MarksUsedUp => "MarksUsedUp",
            Refusal::AlreadyUp => "AlreadyUp",
            Refusal::Memory => "Memory",
            Refusal::MarkReused { .. } => "MarkReused",
            Refusal::InFlightFull => "InFlightFull",
        }
    }

    /// The least number that a restarted host may have for its next mark, if the refusal is `MarkReused`.
    pub fn least(self) -> Option<u32>
        ensures { result ≡ least_of self }
    {
        match self {
            Refusal::MarkReused { least } => Some(least),
            _ => None,
        }
    }

    // A host's refusal as one of its line.
    pub(crate) fn of_host(error: HostError) -> Self
        ensures { result ≡ of_host error }
    {
        match error {
            HostError::NotReady => Refusal::NotReady,
            HostError::MarksUsedUp => Refusal::MarksUsedUp,
            HostError::AlreadyUp => Refusal::AlreadyUp,
            HostError::Memory => Refusal::Memory,
            HostError::InFlightFull => Refusal::InFlightFull,
        }
    }
}

/// An event that was refused.
#[derive(Debug, Drop)]
pub struct Refused {
    /// The reason.
    pub why: Refusal,
    /// The receipt that was to be printed, if the event had one.
    pub receipt: Option<Receipt>,
}
