//! The calls of a till's machine, where memory is refused.

use crate::support::at_last::{bytes_at_last, machine_at_last, receipt_at_last};
use crate::support::calls::{
    Asked, appended, asks, cancel, connected, deliver, hung_up, queue, raise, told,
};
use crate::support::plain::{key, number};
use escpos_till::{
    Content, Entry, ReceiptContent, ReceiptKey, ReceiptState, TillMachine, TillNote, TillRefusal,
};
use std::alloc::Global;
use std::process::Abort;

const UNTRIED: ReceiptState = ReceiptState::Waiting { tried: 0 };

const CANCELLED: ReceiptState = ReceiptState::Cancelled { tried: 0 };

// What is done with a machine. Where memory is refused, it is done again.
#[derive(Clone, Copy)]
enum Step {
    // The next mark number is raised to 3.
    Raises,
    // S is taken, without a key and with one.
    Takes,
    TakesWithKey,
    // S comes again with its key.
    KnowsKey,
    // S is cancelled.
    Cancels,
    // S is to be delivered: something is to be put, or the link is given up.
    Delivers,
    // The one receipt stands so.
    Stands(ReceiptState),
}

// A machine of these entries, with which these steps are taken. No other function here owns one.
fn plays(rt: &impl Abort, alloc: Global, entries: &[Entry], steps: &[Step]) {
    let mut machine = machine_at_last(rt, alloc, entries);
    takes_steps(rt, alloc, &mut machine, steps);
}

fn takes_steps(rt: &impl Abort, alloc: Global, machine: &mut TillMachine, steps: &[Step]) {
    for (at, step) in steps.iter().enumerate() {
        let holds = takes_step(rt, alloc, machine, *step);
        assert!(rt; holds, "step {at}, counted from 0");
    }
}

fn takes_step(rt: &impl Abort, alloc: Global, machine: &mut TillMachine, step: Step) -> bool {
    match step {
        Step::Raises => raises(machine),
        Step::Takes => takes(rt, alloc, machine),
        Step::TakesWithKey => takes_with_key(rt, alloc, machine),
        Step::KnowsKey => knows_key(rt, alloc, machine),
        Step::Cancels => cancels(rt, machine),
        Step::Delivers => delivers_at_last(machine) && goes_on(machine),
        Step::Stands(state) => machine.states() == [state].as_slice(),
    }
}

// It is kept, and told.
fn is_done(machine: &mut TillMachine) {
    appended(machine, Ok(()));
    told(machine);
}

fn raises(machine: &mut TillMachine) -> bool {
    let raised = raise(machine, 3);
    is_done(machine);
    raised == Ok(())
}

fn cancels(rt: &impl Abort, machine: &mut TillMachine) -> bool {
    let cancelled = cancel(machine, number(rt, 1));
    is_done(machine);
    cancelled == Ok(())
}

// The receipt is handed back where memory is refused.
fn queues(
    rt: &impl Abort,
    machine: &mut TillMachine,
    receipt: ReceiptContent,
    key: Option<ReceiptKey>,
) -> Option<ReceiptContent> {
    match queue(machine, receipt, key) {
        Ok(()) => None,
        Err((why, receipt)) => {
            assert!(rt; why == TillRefusal::Memory);
            Some(receipt)
        }
    }
}

fn takes_at_last(rt: &impl Abort, alloc: Global, machine: &mut TillMachine) -> bool {
    match queues(rt, machine, receipt_at_last(rt, alloc), None) {
        Some(receipt) => queues(rt, machine, receipt, None).is_none(),
        None => true,
    }
}

fn takes(rt: &impl Abort, alloc: Global, machine: &mut TillMachine) -> bool {
    let is_taken = takes_at_last(rt, alloc, machine);
    is_done(machine);
    is_taken
}

fn queues_with_key(
    rt: &impl Abort,
    machine: &mut TillMachine,
    receipt: ReceiptContent,
) -> Option<ReceiptContent> {
    queues(rt, machine, receipt, Some(key(rt, b"sale-7")))
}

fn takes_with_key_at_last(rt: &impl Abort, alloc: Global, machine: &mut TillMachine) -> bool {
    match queues_with_key(rt, machine, receipt_at_last(rt, alloc)) {
        Some(receipt) => queues_with_key(rt, machine, receipt).is_none(),
        None => true,
    }
}

// Its key is kept before it.
fn takes_with_key(rt: &impl Abort, alloc: Global, machine: &mut TillMachine) -> bool {
    let is_taken = takes_with_key_at_last(rt, alloc, machine);
    appended(machine, Ok(()));
    is_done(machine);
    is_taken
}

// Its number is told, and that takes no memory.
fn knows_key(rt: &impl Abort, alloc: Global, machine: &mut TillMachine) -> bool {
    queues_with_key(rt, machine, receipt_at_last(rt, alloc)).is_none()
        && asks(machine) == Asked::Tell(TillNote::Queued(number(rt, 1)))
}

fn delivers_at_last(machine: &mut TillMachine) -> bool {
    match deliver(machine, 1, None) {
        Ok(()) => true,
        Err(why) => why == TillRefusal::Memory && deliver(machine, 1, None) == Ok(()),
    }
}

// There is a link, and it is kept that the receipt is tried.
fn goes_on(machine: &mut TillMachine) -> bool {
    connected(machine, true);
    appended(machine, Ok(()));
    puts_or_hangs_up(machine)
}

fn puts_or_hangs_up(machine: &mut TillMachine) -> bool {
    match asks(machine) {
        Asked::Put => true,
        Asked::HangUp => {
            hung_up(machine);
            true
        }
        _ => false,
    }
}

const MACHINE_REFUSED: &[Step] = &[
    Step::Raises,
    Step::Takes,
    Step::Stands(UNTRIED),
    Step::Delivers,
];

#[test]
fn machine_refused(rt: HostRuntime) {
    plays(&rt, rt.alloc(), &[], MACHINE_REFUSED);
}

const CANCEL_REFUSED: &[Step] = &[
    Step::Takes,
    Step::Stands(UNTRIED),
    Step::Cancels,
    Step::Stands(CANCELLED),
];

// A receipt that waits is cancelled.
#[test]
fn cancel_refused(rt: HostRuntime) {
    plays(&rt, rt.alloc(), &[], CANCEL_REFUSED);
}

const KEYED_REFUSED: &[Step] = &[Step::TakesWithKey, Step::KnowsKey, Step::Stands(UNTRIED)];

// A receipt is taken with a key, and asked for again.
#[test]
fn keyed_refused(rt: HostRuntime) {
    plays(&rt, rt.alloc(), &[], KEYED_REFUSED);
}

const WAITS: &[Step] = &[Step::Stands(UNTRIED)];

// The same entries, copied into a machine.
#[test]
fn machine_of_entries_refused(rt: HostRuntime) {
    let content = Content::new(bytes_at_last(&rt, rt.alloc()));
    let key = key(&rt, b"sale-7");
    let entries = [Entry::Key { key }, Entry::Queued { content }];
    plays(&rt, rt.alloc(), &entries, WAITS);
}
