//! Values that are made a second time where memory is refused.

use escpos_receipt::{JsonError, ReceiptOptions};
use escpos_test_receipts::S;
use escpos_till::{Content, Entry, NoMachine, ReceiptContent, TillMachine};
use std::alloc::Global;
use std::process::Abort;

// The text of S.
pub fn bytes_at_last(rt: &impl Abort, alloc: Global) -> Vec<u8> {
    match S.0.to_vec(alloc) {
        Ok(bytes) => bytes,
        Err(_) => S.0.to_vec(alloc).expect(rt, "memory"),
    }
}

// S is taken.
pub fn taken_at_last(rt: &impl Abort, alloc: Global) -> Entry {
    Entry::Queued {
        content: Content::new(bytes_at_last(rt, alloc)),
    }
}

// S is read.
pub fn receipt_at_last(rt: &impl Abort, alloc: Global) -> ReceiptContent {
    let usual = ReceiptOptions::usual();
    match ReceiptContent::read(alloc, &usual, bytes_at_last(rt, alloc)) {
        Ok(receipt) => receipt,
        Err(why) => {
            assert!(rt; why == JsonError::Memory);
            match ReceiptContent::read(alloc, &usual, bytes_at_last(rt, alloc)) {
                Ok(receipt) => receipt,
                Err(_) => panic!(rt; "no receipt"),
            }
        }
    }
}

// A machine of these entries.
pub fn machine_at_last(rt: &impl Abort, alloc: Global, entries: &[Entry]) -> TillMachine {
    match TillMachine::open(alloc, entries) {
        Ok(machine) => machine,
        Err(why) => {
            assert!(rt; why == NoMachine::Memory);
            match TillMachine::open(alloc, entries) {
                Ok(machine) => machine,
                Err(_) => panic!(rt; "no machine"),
            }
        }
    }
}
