//! A till that is driven over a store in memory, where memory is refused, and the copies of what its ledger has.

use crate::support::at_last::{bytes_at_last, receipt_at_last};
use crate::support::calls::{deliver, queue, raise};
use crate::support::driven::{DrivenTill, drives};
use crate::support::line::{ANSWERS_01, ANSWERS_23, Line};
use crate::support::plain::{Told, note};
use escpos_host::{HostError, SendFault};
use escpos_test_receipts::S;
use escpos_till::{
    Content, Entry, Failure, MemoryStore, NoMachine, ReceiptContent, ReceiptState, Store,
    StoreFault, Surroundings, TillMachine, TillNote, TillRefusal,
};
use std::alloc::Global;
use std::process::Abort;

// The machine of a store. None where memory is refused.
fn machine_of(rt: &impl Abort, alloc: Global, store: &mut MemoryStore) -> Option<TillMachine> {
    let entries = match store.entries(alloc) {
        Ok(entries) => entries,
        Err(why) => {
            assert!(rt; why == StoreFault::Memory);
            return None;
        }
    };
    match TillMachine::open(alloc, &entries) {
        Ok(machine) => Some(machine),
        Err(why) => {
            assert!(rt; why == NoMachine::Memory);
            None
        }
    }
}

// Where memory is refused, the store is as it was, and is read again.
fn machine_at_last(rt: &impl Abort, alloc: Global, store: &mut MemoryStore) -> TillMachine {
    match machine_of(rt, alloc, store) {
        Some(machine) => machine,
        None => machine_of(rt, alloc, store).expect(rt, "a machine"),
    }
}

// What is done with a till: S is taken; it is delivered, over a link on which the next two marks are answered; the next number is raised to 5.
#[derive(Clone, Copy)]
enum Call {
    Queue,
    Deliver,
    Raise,
}

// What came of a call.
#[derive(Clone, Copy, PartialEq)]
enum Came {
    // It is done.
    Done,
    // Memory was refused, and the machine is at rest.
    Refused,
    // Memory was refused to the store, and the machine has failed.
    NotKept,
}

fn queues(machine: &mut TillMachine, receipt: ReceiptContent) -> Result<(), TillRefusal> {
    match queue(machine, receipt, None) {
        Ok(()) => Ok(()),
        Err((why, _receipt)) => Err(why),
    }
}

fn called(
    rt: &impl Abort,
    alloc: Global,
    machine: &mut TillMachine,
    call: Call,
) -> Result<(), TillRefusal> {
    match call {
        Call::Queue => queues(machine, receipt_at_last(rt, alloc)),
        Call::Deliver => deliver(machine, 1, None),
        Call::Raise => raise(machine, 5),
    }
}

fn wanted(call: Call) -> Told {
    match call {
        Call::Queue => Told::Queued(1),
        Call::Deliver => Told::Recorded(1),
        Call::Raise => Told::Raised,
    }
}

// What came of a call that the machine has taken, which is to tell this.
fn follows(rt: &impl Abort, found: Option<TillNote>, wanted: TillNote) -> Came {
    match found {
        Some(TillNote::NotKept(why)) => {
            assert!(rt; why == StoreFault::Memory);
            Came::NotKept
        }
        Some(TillNote::Waiting { why, .. }) => {
            assert!(rt; why == SendFault::Refused(HostError::Memory));
            Came::Refused
        }
        found => {
            assert!(rt; found == Some(wanted));
            Came::Done
        }
    }
}

fn does(rt: &impl Abort, alloc: Global, till: &mut DrivenTill, what: Call) -> Came {
    till.around.line.answers = match till.machine.next_mark() {
        0 => ANSWERS_01,
        _ => ANSWERS_23,
    };
    match called(rt, alloc, &mut till.machine, what) {
        Ok(()) => follows(rt, drives(till, 1_000), note(rt, wanted(what))),
        Err(why) => {
            assert!(rt; why == TillRefusal::Memory);
            Came::Refused
        }
    }
}

// The store has failed: its till is opened again.
fn opens_again(rt: &impl Abort, alloc: Global, till: &mut DrivenTill) {
    assert!(rt; raise(&mut till.machine, 9) == Err(TillRefusal::Failed));
    till.machine = machine_at_last(rt, alloc, &mut till.around.store);
    till.around.line = Line::new();
}

// Where memory is refused, it is done again: where the store has failed, with a till that is opened again.
fn does_at_last(rt: &impl Abort, alloc: Global, till: &mut DrivenTill, what: Call) {
    let came = does(rt, alloc, till, what);
    if came == Came::Done {
        return;
    }
    if came == Came::NotKept {
        opens_again(rt, alloc, till);
    }
    assert!(rt; does(rt, alloc, till, what) == Came::Done);
}

const CALLS: [Call; 3] = [Call::Queue, Call::Deliver, Call::Raise];

fn does_all(rt: &impl Abort, alloc: Global, till: &mut DrivenTill) {
    for what in CALLS {
        does_at_last(rt, alloc, till, what);
    }
    assert!(rt; till.machine.states() == [ReceiptState::Recorded { place: 0 }].as_slice());
    assert!(rt; till.machine.next_mark() == 5);
}

#[test]
fn driven_till_refused(rt: HostRuntime) {
    let mut store = MemoryStore::new(rt.alloc(), Vec::new(rt.alloc()), Failure::Never);
    let machine = machine_at_last(&rt, rt.alloc(), &mut store);
    let line = Line::new();
    let mut till = DrivenTill {
        machine,
        around: Surroundings { store, line },
    };
    does_all(&rt, rt.alloc(), &mut till);
}

// The same content once more. Where memory is refused, it is copied again.
fn content_at_last(rt: &impl Abort, alloc: Global, content: &Content) -> Content {
    match content.copy(alloc) {
        Ok(content) => content,
        Err(_) => content.copy(alloc).expect(rt, "a content"),
    }
}

fn entry_at_last(rt: &impl Abort, alloc: Global, entry: &Entry) -> Entry {
    match entry.copy(alloc) {
        Ok(entry) => entry,
        Err(_) => entry.copy(alloc).expect(rt, "an entry"),
    }
}

fn is_s(rt: &impl Abort, entry: &Entry) {
    match entry {
        Entry::Queued { content } => assert!(rt; content.bytes() == S.0),
        _ => panic!(rt; "another entry"),
    }
}

#[test]
fn copies_refused(rt: HostRuntime) {
    let bytes = bytes_at_last(&rt, rt.alloc());
    let content = content_at_last(&rt, rt.alloc(), &Content::new(bytes));
    let entry = entry_at_last(&rt, rt.alloc(), &Entry::Queued { content });
    is_s(&rt, &entry);
}
