//! What a machine learns of others, where memory is refused.

use crate::support::at_last::{machine_at_last, taken_at_last};
use crate::support::calls::{Asked, asks, connected, deliver, is_to_keep, learned};
use crate::support::plain::number;
use escpos_till::{
    Entry, NotRenewed, StoreFault, TillMachine, TillRefusal, copies, others_since, renewed,
};
use std::alloc::Global;
use std::process::Abort;

// It is to keep that a receipt is tried. Where memory is refused, it is told again to deliver.
fn tries_at_last(rt: &impl Abort, machine: &mut TillMachine) {
    if let Err(why) = deliver(machine, 1, None) {
        assert!(rt; why == TillRefusal::Memory);
        assert!(rt; deliver(machine, 1, None) == Ok(()));
    }
    connected(machine, true);
}

// It learns of these, and is to keep that the receipt is tried, with the numbers after theirs; or it has failed, out of memory.
fn learns(rt: &impl Abort, machine: &mut TillMachine, others: &[Entry]) -> bool {
    match learned(machine, others) {
        Ok(()) => {
            let tried = Entry::Tried {
                number: number(rt, 1),
                next: 9,
            };
            assert!(rt; is_to_keep(machine, &tried));
            true
        }
        Err(why) => {
            assert!(rt; why == StoreFault::Memory);
            assert!(rt; asks(machine) == Asked::HangUp);
            false
        }
    }
}

// A machine of these entries tries the receipt, and learns of others.
fn tries_and_learns(rt: &impl Abort, alloc: Global, entries: &[Entry], others: &[Entry]) -> bool {
    let mut machine = machine_at_last(rt, alloc, entries);
    tries_at_last(rt, &mut machine);
    learns(rt, &mut machine, others)
}

#[test]
fn learned_refused(rt: HostRuntime) {
    let entries = [taken_at_last(&rt, rt.alloc())];
    let others = [
        taken_at_last(&rt, rt.alloc()),
        Entry::Raised { next: 7, heard: 0 },
    ];
    if !tries_and_learns(&rt, rt.alloc(), &entries, &others) {
        assert!(&rt; tries_and_learns(&rt, rt.alloc(), &entries, &others));
    }
}

// Two are found where one was known. None where memory is refused.
fn finds(rt: &impl Abort, alloc: Global, known: &[Entry], found: &[Entry]) -> bool {
    match others_since(alloc, known, found) {
        Ok(others) => {
            assert!(rt; others.len() == 1);
            true
        }
        Err(why) => {
            assert!(rt; why == StoreFault::Memory);
            false
        }
    }
}

#[test]
fn others_since_refused(rt: HostRuntime) {
    let known = [taken_at_last(&rt, rt.alloc())];
    let found = [
        taken_at_last(&rt, rt.alloc()),
        Entry::Cancelled {
            number: number(&rt, 1),
        },
    ];
    if !finds(&rt, rt.alloc(), &known, &found) {
        assert!(&rt; finds(&rt, rt.alloc(), &known, &found));
    }
}

fn copies_at_last(rt: &impl Abort, alloc: Global, entries: &[Entry]) -> Vec<Entry> {
    match copies(alloc, entries) {
        Ok(copied) => copied,
        Err(_) => copies(alloc, entries).expect(rt, "memory"),
    }
}

fn ends_as(copied: &[Entry], entries: &[Entry]) -> bool {
    match (copied, entries) {
        ([_, copied], [_, entry]) => copied.is_same(entry),
        _ => false,
    }
}

#[test]
fn copies_of_entries_refused(rt: HostRuntime) {
    let entries = [
        taken_at_last(&rt, rt.alloc()),
        taken_at_last(&rt, rt.alloc()),
    ];
    let copied = copies_at_last(&rt, rt.alloc(), &entries);
    assert!(&rt; ends_as(&copied, &entries));
}

// A ledger with a receipt that waits goes on. None where memory is refused.
fn goes_on(rt: &impl Abort, alloc: Global, entries: &[Entry]) -> bool {
    match renewed(alloc, entries) {
        Ok(new) => {
            assert!(rt; new.len() == 3);
            true
        }
        Err(why) => {
            assert!(rt; why == NotRenewed::Memory);
            false
        }
    }
}

#[test]
fn renewed_refused(rt: HostRuntime) {
    let entries = [
        taken_at_last(&rt, rt.alloc()),
        Entry::Raised { next: 7, heard: 0 },
    ];
    if !goes_on(&rt, rt.alloc(), &entries) {
        assert!(&rt; goes_on(&rt, rt.alloc(), &entries));
    }
}
