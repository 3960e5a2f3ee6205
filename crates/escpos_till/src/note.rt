//! What a till's machine answers: what it tells, why it refuses a call, and why there is none.

use crate::number::ReceiptNumber;
use crate::pause::Pause;
use crate::store::StoreFault;
use escpos_host::SendFault;
use escpos_receipt::JsonFault;

/// What a machine tells its owner.
#[derive(Clone, Copy, Debug, PartialEq, Eq)]
pub enum TillNote {
    /// The receipt is taken, and has this number. If it came with a key that a receipt has, it is that receipt.
    Queued(ReceiptNumber),
    /// The next mark number is raised.
    Raised,
    /// The receipt is cancelled. It was tried this many times before: if that isn't 0, it may be on the paper.
    Cancelled {
        number: ReceiptNumber,
        tried: usize,
    },
    /// The receipt is printed, and recorded. That may be told while the next one is being sent.
    Recorded(ReceiptNumber),
    /// There was no link. The receipt waits, and wasn't tried.
    NoLink(ReceiptNumber),
    /// The receipt isn't known to be printed. It waits, tried once more.
    Waiting {
        number: ReceiptNumber,
        why: SendFault,
    },
    /// The printer says that it prints nothing for now. The receipt is still being sent.
    Paused {
        number: ReceiptNumber,
        why: Pause,
    },
    /// The printer printed nothing for as long as may be waited. The receipt waits, tried once more.
    StillPaused {
        number: ReceiptNumber,
        why: Pause,
    },
    /// The store couldn't tell whether it kept the entry. The machine has failed.
    NotKept(StoreFault),
}

/// Why a call of a machine at rest is refused. The machine is as it was.
#[derive(Clone, Copy, Debug, PartialEq, Eq)]
pub enum TillRefusal {
    /// It asks for something, and that isn't done yet.
    Busy,
    /// Its store couldn't tell whether it kept an entry.
    Failed,
    /// Out of memory.
    Memory,
    /// No receipt waits.
    NothingWaits,
    /// The text of the first receipt that waits gives none.
    NoReceipt {
        number: ReceiptNumber,
        why: JsonFault,
    },
    /// Too few mark numbers are left for the first receipt that waits.
    MarksUsedUp {
        number: ReceiptNumber,
    },
    /// The mark number is lower than the next one, which is this.
    MarkReused {
        next: u32,
    },
    /// The mark number leaves fewer than a try takes. This is the last that leaves enough.
    MarkTooHigh {
        last: u32,
    },
    /// No receipt with this number was taken.
    NotTaken(ReceiptNumber),
    /// The receipt with this number was taken in an older ledger, and is over.
    Earlier(ReceiptNumber),
    /// The receipt with this number is recorded.
    Recorded(ReceiptNumber),
    /// The receipt with this number is cancelled already.
    Cancelled(ReceiptNumber),
}

/// Why there is no machine.
#[derive(Clone, Copy, Debug, PartialEq, Eq)]
pub enum NoMachine {
    /// The entries are no ledger.
    Damaged,
    /// Out of memory.
    Memory,
}
