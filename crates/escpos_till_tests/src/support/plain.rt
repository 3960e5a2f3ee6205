//! What the tests say of a till as constant data, and the values that it stands for: the entries of a ledger, what is asked of a machine,
//! why it refuses that, and what it tells.

use escpos_host::SendFault;
use escpos_receipt::ReceiptOptions;
use escpos_test_receipts::{A, S};
use escpos_till::{
    Content, Entry, Pause, ReceiptContent, ReceiptKey, ReceiptNumber, StoreFault, TillNote,
    TillRefusal,
};
use std::alloc::Global;
use std::process::Abort;

// The text of a receipt.
#[derive(Clone, Copy)]
pub enum Text {
    S,
    A,
}

// An entry of a ledger.
#[derive(Clone, Copy)]
pub enum Plain {
    // This receipt is taken.
    Taken(Text),
    // The receipt with this number is tried, and this is the next mark number.
    Tried(usize, u32),
    // It is recorded, and no mark below this number can be answered any more.
    Recorded(usize, u32),
    // The next mark number is raised, and no mark below the second number can be answered any more.
    Raised(u32, u32),
    // The receipt with this number is cancelled.
    Cancelled(usize),
    // The next receipt has this key.
    Key(&'static [u8]),
    // Receipts up to this number are over, and no mark below the second number can be answered any more.
    Renewed(u32, u32),
    // The receipt with this number was taken before, with this key.
    Earlier(usize, &'static [u8]),
}

// A call of a machine at rest. A delivery has so many opening marks, and 100 bytes of answers.
#[derive(Clone, Copy)]
pub enum Call {
    Queue(Text),
    // with a key
    QueueWith(Text, &'static [u8]),
    Raise(u32),
    Cancel(usize),
    Deliver(u32),
    // with the text of a copy
    DeliverCopy(u32, &'static [u8]),
}

// Why a machine refuses a call, with the number of the receipt, or a mark number.
#[derive(Clone, Copy)]
pub enum Refused {
    Busy,
    Failed,
    NothingWaits,
    MarksUsedUp(usize),
    MarkReused(u32),
    MarkTooHigh(u32),
    NotTaken(usize),
    Earlier(usize),
    Recorded(usize),
    Cancelled(usize),
}

// What a machine tells of the receipt with this number.
#[derive(Clone, Copy)]
pub enum Told {
    Queued(usize),
    Raised,
    // after so many tries
    Cancelled(usize, usize),
    Recorded(usize),
    NoLink(usize),
    Waiting(usize, SendFault),
    Paused(usize, Pause),
    StillPaused(usize, Pause),
    // The store has failed.
    NotKept,
}

pub fn number(rt: &impl Abort, number: usize) -> ReceiptNumber {
    ReceiptNumber::new(number).expect(rt, "a number")
}

pub fn key(rt: &impl Abort, text: &[u8]) -> ReceiptKey {
    ReceiptKey::new(text).expect(rt, "a key")
}

fn bytes(rt: &impl Abort, alloc: Global, text: Text) -> Vec<u8> {
    let (bytes, _) = match text {
        Text::S => S,
        Text::A => A,
    };
    bytes.to_vec(alloc).expect(rt, "memory")
}

pub fn entry(rt: &impl Abort, alloc: Global, plain: Plain) -> Entry {
    match plain {
        Plain::Taken(text) => Entry::Queued {
            content: Content::new(bytes(rt, alloc, text)),
        },
        Plain::Tried(at, next) => Entry::Tried {
            number: number(rt, at),
            next,
        },
        Plain::Recorded(at, heard) => Entry::Recorded {
            number: number(rt, at),
            heard,
        },
        Plain::Raised(next, heard) => Entry::Raised { next, heard },
        Plain::Cancelled(at) => Entry::Cancelled {
            number: number(rt, at),
        },
        Plain::Key(text) => Entry::Key { key: key(rt, text) },
        Plain::Renewed(last, heard) => Entry::Renewed { last, heard },
        Plain::Earlier(at, text) => Entry::Earlier {
            number: number(rt, at),
            key: key(rt, text),
        },
    }
}

pub fn entries_of(rt: &impl Abort, alloc: Global, all: &[Plain]) -> Vec<Entry> {
    let mut entries = Vec::new(alloc);
    for plain in all {
        let pushed = entries.push(entry(rt, alloc, *plain));
        assert!(rt; pushed.is_ok());
    }
    entries
}

pub fn note(rt: &impl Abort, told: Told) -> TillNote {
    match told {
        Told::Queued(at) => TillNote::Queued(number(rt, at)),
        Told::Raised => TillNote::Raised,
        Told::Cancelled(at, tried) => TillNote::Cancelled {
            number: number(rt, at),
            tried,
        },
        Told::Recorded(at) => TillNote::Recorded(number(rt, at)),
        Told::NoLink(at) => TillNote::NoLink(number(rt, at)),
        Told::Waiting(at, why) => TillNote::Waiting {
            number: number(rt, at),
            why,
        },
        Told::Paused(at, why) => TillNote::Paused {
            number: number(rt, at),
            why,
        },
        Told::StillPaused(at, why) => TillNote::StillPaused {
            number: number(rt, at),
            why,
        },
        Told::NotKept => TillNote::NotKept(StoreFault::Failed),
    }
}

pub fn refusal(rt: &impl Abort, refused: Refused) -> TillRefusal {
    match refused {
        Refused::Busy => TillRefusal::Busy,
        Refused::Failed => TillRefusal::Failed,
        Refused::NothingWaits => TillRefusal::NothingWaits,
        Refused::MarksUsedUp(at) => TillRefusal::MarksUsedUp {
            number: number(rt, at),
        },
        Refused::MarkReused(next) => TillRefusal::MarkReused { next },
        Refused::MarkTooHigh(last) => TillRefusal::MarkTooHigh { last },
        Refused::NotTaken(at) => TillRefusal::NotTaken(number(rt, at)),
        Refused::Earlier(at) => TillRefusal::Earlier(number(rt, at)),
        Refused::Recorded(at) => TillRefusal::Recorded(number(rt, at)),
        Refused::Cancelled(at) => TillRefusal::Cancelled(number(rt, at)),
    }
}

// The receipt of this text, once it was read.
pub fn receipt(rt: &impl Abort, alloc: Global, text: Text) -> ReceiptContent {
    match ReceiptContent::read(alloc, &ReceiptOptions::usual(), bytes(rt, alloc, text)) {
        Ok(receipt) => receipt,
        Err(_) => panic!(rt; "no receipt"),
    }
}
