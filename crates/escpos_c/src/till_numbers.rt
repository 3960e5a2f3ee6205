//! The numbers in which C is told of a till.

ghost use Rattle.std.specs.Prelude.{◌≡◌, None, IfErr, OnOk};
ghost use Rattle.escpos_c.specs.declared.refusal.TheConstants.{NO_REASON, NO_PLACE};
ghost use Rattle.escpos_c.specs.TillNumbers.{fault_number, fault_of, note_asked, nothing_told, only, pause_number, refused_for, standing_at, standing_of, store_number, telling, till_status, told_of};

use crate::call_status::CallStatus;
use crate::refusal::{NO_PLACE, NO_REASON, Refusal};
use escpos_host::SendFault;
use escpos_till::{Pause, ReceiptState, StoreFault, TillNote, TillRefusal};

/// The reason of a copy's text that isn't 1 to 42 characters from 20 to 7E hexadecimal. Those of a machine are less.
pub const BAD_COPY: u32 = 7;

/// The reason of entries that are no ledger.
pub const DAMAGED: u32 = 8;

/// The reason of a number that no receipt has.
pub const NOT_TAKEN: u32 = 10;

/// The reason of a receipt's key that isn't 1 to 64 characters from 21 to 7E hexadecimal.
pub const BAD_KEY: u32 = 13;

const _: () = prove!(BAD_COPY == 7);

const _: () = prove!(DAMAGED == 8);

const _: () = prove!(NOT_TAKEN == 10);

const _: () = prove!(BAD_KEY == 13);

/// What a till asks for, as C sees it.
#[repr(C)]
#[derive(Clone, Copy, Debug, PartialEq, Eq)]
pub struct Asked {
    /// 0 nothing, 1 an entry to be kept, 2 a link, 3 bytes to be put, 4 answers, 5 the link to be given up, 6 its owner to be told.
    pub ask: u32,
    /// At 6 what its owner is to be told: 1 a receipt is taken, 2 the next mark number is raised, 3 a receipt is recorded, 4 there
    /// was no link, 5 a receipt isn't known to be printed, 6 an entry may not be kept, 7 a receipt is cancelled, 8 the printer prints
    /// nothing for now, 9 it was waited for as long as may be meanwhile, and a receipt isn't known to be printed; otherwise 0.
    pub note: u32,
    /// At the notes 5, 6, 8 and 9 why; otherwise 0.
    pub fault: u32,
    /// At 4 the most bytes of answers that are read; at 6 the number of the receipt, if there is one; otherwise 0.
    pub number: usize,
}

/// Why a call of a till is refused, as C sees it.
#[repr(C)]
#[derive(Clone, Copy, Debug, PartialEq, Eq)]
pub struct Told {
    /// Why; 0 if it isn't, or if a receipt's text is refused before the machine is asked.
    pub reason: u32,
    /// Why a receipt's text gives none, as `escpos_encode` says it; otherwise 0.
    pub fault: u32,
    /// The place of that fault, or the line of the entry at fault; otherwise the place where there is none.
    pub at: usize,
    /// Where a mark number was used, the next one; otherwise 0.
    pub next: u32,
}

/// Where a receipt stands, as C sees it.
#[repr(C)]
#[derive(Clone, Copy, Debug, PartialEq, Eq)]
pub struct Standing {
    /// 0 there is none of this number, 1 it waits, 2 it is recorded, 3 it is cancelled.
    pub kind: u32,
    /// How often it was tried; of one that is recorded its place among the records, counted from 0.
    pub number: usize,
}

impl Asked {
    /// This is asked for, and there is nothing to add.
    pub fn only(ask: u32) -> Self
        ensures { result ≡ only ask }
    {
        Asked {
            ask,
            note: 0,
            fault: NO_REASON,
            number: 0,
        }
    }

    /// Answers are asked for, at most so many bytes.
    pub fn answers(most: u32) -> Self
        ensures { result ≡ record { ask = 4; note = 0; fault = NO_REASON; number = most } }
    {
        Asked {
            ask: 4,
            note: 0,
            fault: NO_REASON,
            number: most as usize,
        }
    }
}

/// Its owner is to be told this.
pub fn note_asked(note: TillNote) -> Asked
    ensures { result ≡ note_asked note }
{
    match note {
        TillNote::Queued(number) => telling(1, NO_REASON, number.get()),
        TillNote::Raised => telling(2, NO_REASON, 0),
        TillNote::Recorded(number) => telling(3, NO_REASON, number.get()),
        TillNote::NoLink(number) => telling(4, NO_REASON, number.get()),
        TillNote::Waiting { number, why } => telling(5, fault_number(why), number.get()),
        TillNote::NotKept(why) => telling(6, store_number(why), 0),
        TillNote::Cancelled { number, .. } => telling(7, NO_REASON, number.get()),
        TillNote::Paused { number, why } => telling(8, pause_number(why), number.get()),
        TillNote::StillPaused { number, why } => telling(9, pause_number(why), number.get()),
    }
}

// Its owner is to be told a note of this kind.
fn telling(note: u32, fault: u32, number: usize) -> Asked
    ensures { result ≡ telling note fault number }
{
    Asked {
        ask: 6,
        note,
        fault,
        number,
    }
}

// The number of why a receipt isn't known to be printed.
fn fault_number(fault: SendFault) -> u32
    ensures { result ≡ fault_number fault }
{
    match fault {
        SendFault::Ended => 1,
        SendFault::ReadFault => 2,
        SendFault::WriteFault => 3,
        SendFault::TimedOut => 4,
        SendFault::TooLong => 5,
        SendFault::BadAnswer => 6,
        SendFault::Refused(why) => 10 + u32::from(why.number()),
    }
}

// The number of why an entry may not be kept.
fn store_number(fault: StoreFault) -> u32
    ensures { result ≡ store_number fault }
{
    match fault {
        StoreFault::Memory => 21,
        StoreFault::Failed => 22,
    }
}

// The number of why a printer prints nothing for now.
fn pause_number(why: Pause) -> u32
    ensures { result ≡ pause_number why }
{
    match why {
        Pause::PaperEnded => 31,
        Pause::CoverOpen => 32,
        Pause::Offline => 33,
    }
}

/// Why a link has ended, from its number, 1 to 4; `None` for any other.
pub fn fault_of(number: u32) -> Option<SendFault>
    ensures { result ≡ fault_of number }
{
    match number {
        1 => Some(SendFault::Ended),
        2 => Some(SendFault::ReadFault),
        3 => Some(SendFault::WriteFault),
        4 => Some(SendFault::TimedOut),
        _ => None,
    }
}

impl Told {
    /// Nothing is refused.
    pub fn nothing() -> Self
        ensures { result ≡ nothing_told }
    {
        Told::reason(NO_REASON)
    }

    /// A call is refused for this reason, to which there is nothing to add.
    pub fn reason(reason: u32) -> Self
        ensures { result ≡ refused_for reason }
    {
        Told {
            reason,
            fault: NO_REASON,
            at: NO_PLACE,
            next: 0,
        }
    }

    /// A receipt's text is refused.
    pub fn receipt(refusal: Refusal) -> Self
        ensures { result ≡ record { reason = NO_REASON; fault = refusal.reason; at = refusal.at; next = 0 } }
    {
        Told {
            reason: NO_REASON,
            fault: refusal.reason,
            at: refusal.at,
            next: 0,
        }
    }
}

impl Told {
    // The text of a receipt that waits is refused.
    fn waiting(refusal: Refusal) -> Self
        ensures { result ≡ record { reason = 4; fault = refusal.reason; at = refusal.at; next = 0 } }
    {
        Told {
            reason: 4,
            fault: refusal.reason,
            at: refusal.at,
            next: 0,
        }
    }

    // A mark number is refused for this reason: this one is the next, or the last that is allowed.
    fn number(reason: u32, next: u32) -> Self
        ensures { result ≡ record { reason = reason; fault = NO_REASON; at = NO_PLACE; next = next } }
    {
        Told {
            reason,
            fault: NO_REASON,
            at: NO_PLACE,
            next,
        }
    }
}

/// How a call of a machine ended, and what is told of it.
pub fn ended(called: Result<(), TillRefusal>) -> (CallStatus, Told)
    ensures good { OnOk called ((result.0 ≡ CallStatus.Good) × (result.1 ≡ nothing_told)) }
    ensures refused { IfErr called (λ why. (result.0 ≡ till_status why) × (result.1 ≡ told_of why)) }
{
    match called {
        Ok(()) => (CallStatus::Good, Told::nothing()),
        Err(why) => refused(why),
    }
}

// A machine refuses a call.
fn refused(why: TillRefusal) -> (CallStatus, Told)
    ensures status { result.0 ≡ till_status why }
    ensures told { result.1 ≡ told_of why }
{
    match why {
        TillRefusal::Busy => (CallStatus::Refused, Told::reason(1)),
        TillRefusal::Failed => (CallStatus::Refused, Told::reason(2)),
        TillRefusal::Memory => (CallStatus::Memory, Told::nothing()),
        TillRefusal::NothingWaits => (CallStatus::Refused, Told::reason(3)),
        TillRefusal::NoReceipt { why, .. } => {
            (CallStatus::Refused, Told::waiting(Refusal::from(why)))
        }
        TillRefusal::MarksUsedUp { .. } => (CallStatus::Refused, Told::reason(5)),
        TillRefusal::MarkReused { next } => (CallStatus::Refused, Told::number(6, next)),
        TillRefusal::MarkTooHigh { last } => (CallStatus::Refused, Told::number(9, last)),
        TillRefusal::NotTaken(_) => (CallStatus::Refused, Told::reason(NOT_TAKEN)),
        TillRefusal::Earlier(_) => (CallStatus::Refused, Told::reason(14)),
        TillRefusal::Recorded(_) => (CallStatus::Refused, Told::reason(11)),
        TillRefusal::Cancelled(_) => (CallStatus::Refused, Told::reason(12)),
    }
}

impl Standing {
    /// There is no receipt of this number.
    pub fn none() -> Self
        ensures { result ≡ standing_at None }
    {
        Standing { kind: 0, number: 0 }
    }
}

/// Where the receipt of this number stands, where an older ledger has taken so many.
pub fn standing_of(earlier: u32, states: &[ReceiptState], number: usize) -> Standing
    ensures { result ≡ standing_of earlier states.now number }
{
    let earlier = earlier as usize;
    if number <= earlier {
        return Standing::none();
    }
    match states.get(number - (1 + earlier)) {
        None => Standing::none(),
        Some(ReceiptState::Waiting { tried }) => Standing {
            kind: 1,
            number: *tried,
        },
        Some(ReceiptState::Recorded { place }) => Standing {
            kind: 2,
            number: *place,
        },
        Some(ReceiptState::Cancelled { tried }) => Standing {
            kind: 3,
            number: *tried,
        },
    }
}
