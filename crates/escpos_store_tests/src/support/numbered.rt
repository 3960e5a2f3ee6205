//! Entries by their numbers, for long ledgers.

use crate::support::plain::{bytes, key, number};
use escpos_till::{Content, Entry};
use std::alloc::Global;
use std::process::Abort;

// What a test adds as its entry of this number, from 1 on: the kinds take turns, and each entry says its number.
fn entry_at(rt: &impl Abort, alloc: Global, at: u32) -> Entry {
    match at % 8 {
        0 => Entry::Raised {
            next: at,
            heard: at,
        },
        1 => Entry::Queued {
            content: Content::new(bytes(rt, alloc, &at.to_be_bytes())),
        },
        2 => Entry::Tried {
            number: number(rt, at as usize),
            next: at,
        },
        3 => Entry::Recorded {
            number: number(rt, at as usize),
            heard: at,
        },
        4 => Entry::Cancelled {
            number: number(rt, at as usize),
        },
        5 => Entry::Key {
            key: key(rt, &letters(at)),
        },
        6 => Entry::Renewed {
            last: at,
            heard: at,
        },
        _ => Entry::Earlier {
            number: number(rt, at as usize),
            key: key(rt, &letters(at)),
        },
    }
}

// That entry; or another one, where that number is the wrong one's.
pub fn entry_or_wrong(rt: &impl Abort, alloc: Global, at: u32, wrong: u32) -> Entry {
    if at == wrong {
        Entry::Raised { next: 0, heard: 0 }
    } else {
        entry_at(rt, alloc, at)
    }
}

// The number in three letters.
fn letters(at: u32) -> [u8; 3] {
    [at, at / 26, at / 676].map(|digit| b'A' + (digit % 26) as u8)
}

// Whether it is that entry.
fn is_entry_at(entry: &Entry, at: u32) -> bool {
    match entry {
        Entry::Queued { content } => at % 8 == 1 && content.bytes() == at.to_be_bytes().as_slice(),
        Entry::Tried { number, next } => at % 8 == 2 && number.get() == at as usize && *next == at,
        Entry::Recorded { number, heard } => {
            at % 8 == 3 && number.get() == at as usize && *heard == at
        }
        Entry::Raised { next, heard } => at % 8 == 0 && *next == at && *heard == at,
        Entry::Cancelled { number } => at % 8 == 4 && number.get() == at as usize,
        Entry::Key { key } => at % 8 == 5 && key.bytes() == letters(at).as_slice(),
        Entry::Renewed { last, heard } => at % 8 == 6 && *last == at && *heard == at,
        Entry::Earlier { number, key } => {
            at % 8 == 7 && number.get() == at as usize && key.bytes() == letters(at).as_slice()
        }
    }
}

// How many entries, from the first one on, are those that a test adds.
pub fn count_right(entries: &[Entry]) -> usize {
    let mut count: usize = 0;
    for (entry, at) in entries.iter().zip(1u32..) {
        if !is_entry_at(entry, at) {
            return count;
        }
        count = count.saturating_add(1);
    }
    count
}
