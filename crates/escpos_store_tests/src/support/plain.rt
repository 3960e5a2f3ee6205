//! The entries of a ledger as constant data, and the values that they stand for.

use escpos_command::LineWidth;
use escpos_receipt::ReceiptOptions;
use escpos_test_receipts::S;
use escpos_text::Replacement;
use escpos_till::{Content, Entry, ReceiptKey, ReceiptNumber};
use std::alloc::Global;
use std::process::Abort;

// An entry of a ledger.
#[derive(Clone, Copy)]
pub enum Plain {
    // S is taken, or a receipt whose text is empty.
    Taken,
    TakenEmpty,
    // S is taken, which is read with other options than the usual ones: lines of so many dots, and this replacement, if any.
    TakenFor(u16, Option<u8>),
    // The receipt with this number is tried, and this is the next mark number.
    Tried(usize, u32),
    // It is recorded, and no mark below this number can be answered any more.
    Recorded(usize, u32),
    // The next mark number is raised, and no mark below the second number can be answered any more.
    Raised(u32, u32),
    // The receipt with this number is cancelled.
    Cancelled(usize),
    // The next receipt has this key.
    Key(&'static [u8]),
    // Receipts up to this number are over, and no mark below the second number can be answered any more.
    Renewed(u32, u32),
    // The receipt with this number was taken before, with this key.
    Earlier(usize, &'static [u8]),
}

pub fn number(rt: &impl Abort, number: usize) -> ReceiptNumber {
    ReceiptNumber::new(number).expect(rt, "a number")
}

pub fn key(rt: &impl Abort, text: &[u8]) -> ReceiptKey {
    ReceiptKey::new(text).expect(rt, "a key")
}

pub fn bytes(rt: &impl Abort, alloc: Global, text: &[u8]) -> Vec<u8> {
    text.to_vec(alloc).expect(rt, "memory")
}

fn options(rt: &impl Abort, dots: u16, replacement: Option<u8>) -> ReceiptOptions {
    ReceiptOptions {
        width: LineWidth::new(dots).expect(rt, "a width"),
        replacement: match replacement {
            Some(byte) => Some(Replacement::new(byte).expect(rt, "a replacement")),
            None => None,
        },
    }
}

fn content(rt: &impl Abort, alloc: Global, plain: Plain) -> Content {
    match plain {
        Plain::TakenEmpty => Content::new(Vec::new(alloc)),
        Plain::TakenFor(dots, replacement) => {
            let options = options(rt, dots, replacement);
            Content::with_options(bytes(rt, alloc, S.0), options)
        }
        _ => Content::new(bytes(rt, alloc, S.0)),
    }
}

pub fn entry(rt: &impl Abort, alloc: Global, plain: Plain) -> Entry {
    match plain {
        Plain::Taken | Plain::TakenEmpty | Plain::TakenFor(..) => Entry::Queued {
            content: content(rt, alloc, plain),
        },
        Plain::Tried(at, next) => Entry::Tried {
            number: number(rt, at),
            next,
        },
        Plain::Recorded(at, heard) => Entry::Recorded {
            number: number(rt, at),
            heard,
        },
        Plain::Raised(next, heard) => Entry::Raised { next, heard },
        Plain::Cancelled(at) => Entry::Cancelled {
            number: number(rt, at),
        },
        Plain::Key(text) => Entry::Key { key: key(rt, text) },
        Plain::Renewed(last, heard) => Entry::Renewed { last, heard },
        Plain::Earlier(at, text) => Entry::Earlier {
            number: number(rt, at),
            key: key(rt, text),
        },
    }
}

fn is_content(content: &Content, text: &[u8], options: ReceiptOptions) -> bool {
    content.bytes() == text && content.options == options
}

fn is_taken(rt: &impl Abort, content: &Content, wanted: Plain) -> bool {
    match wanted {
        Plain::Taken => is_content(content, S.0, ReceiptOptions::usual()),
        Plain::TakenEmpty => is_content(content, b"", ReceiptOptions::usual()),
        Plain::TakenFor(dots, replacement) => {
            is_content(content, S.0, options(rt, dots, replacement))
        }
        _ => false,
    }
}

// Whether it is the entry that is wanted.
pub fn is_entry(rt: &impl Abort, entry: &Entry, wanted: Plain) -> bool {
    match entry {
        Entry::Queued { content } => is_taken(rt, content, wanted),
        Entry::Tried { number, next } => match wanted {
            Plain::Tried(at, mark) => number.get() == at && *next == mark,
            _ => false,
        },
        Entry::Recorded { number, heard } => match wanted {
            Plain::Recorded(at, mark) => number.get() == at && *heard == mark,
            _ => false,
        },
        Entry::Raised { next, heard } => match wanted {
            Plain::Raised(mark, answered) => *next == mark && *heard == answered,
            _ => false,
        },
        Entry::Cancelled { number } => match wanted {
            Plain::Cancelled(at) => number.get() == at,
            _ => false,
        },
        Entry::Key { key } => match wanted {
            Plain::Key(text) => key.bytes() == text,
            _ => false,
        },
        Entry::Renewed { last, heard } => match wanted {
            Plain::Renewed(number, answered) => *last == number && *heard == answered,
            _ => false,
        },
        Entry::Earlier { number, key } => match wanted {
            Plain::Earlier(at, text) => number.get() == at && key.bytes() == text,
            _ => false,
        },
    }
}
