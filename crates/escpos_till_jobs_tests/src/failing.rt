//! A till's words with a machine whose store fails.
//!
//! A test is a row of steps. Only `plays` owns a machine and a store, and lends them to one function for each step.

use crate::support::tills::{
    FAILED, S, Told, delivery_to, failing_store_of, number, printer_address, read_text, says_so,
};
use escpos_io::MemoryOut;
use escpos_job_parts::status::Status;
use escpos_receipt::ReceiptOptions;
use escpos_till::{Failure, MemoryStore, Surroundings, TillMachine};
use escpos_till_jobs::{
    NoLine, cancel_receipt, deliver_waiting, list, open_machine, queue_receipt,
};
use std::alloc::Global;
use std::process::Abort;

// A store in memory, with no line.
type Around = Surroundings<MemoryStore, NoLine>;

// What is asked of a machine, and what is told.
#[derive(Clone, Copy)]
enum Step {
    // S is taken.
    Queues(Told),
    // The first receipt is cancelled.
    Cancels(Told),
    // The receipts are listed, and the next number is raised, if one is given.
    Lists(Option<u32>, Told),
    // The receipts that wait are delivered.
    Delivers(Told),
}

fn queues(alloc: Global, machine: &mut TillMachine, around: &mut Around, wanted: Told) -> bool {
    let mut room = [0; 64];
    let mut output = MemoryOut::new(&mut room);
    match read_text(alloc, &ReceiptOptions::usual(), S) {
        Ok(content) => {
            let status = queue_receipt(machine, around, content, None, &mut output);
            says_so((output.written(), status), wanted)
        }
        Err(_) => false,
    }
}

fn cancels(rt: &impl Abort, machine: &mut TillMachine, around: &mut Around, wanted: Told) -> bool {
    let mut room = [0; 64];
    let mut output = MemoryOut::new(&mut room);
    let status = cancel_receipt(machine, around, number(rt, 1), &mut output);
    says_so((output.written(), status), wanted)
}

fn lists(machine: &mut TillMachine, around: &mut Around, first: Option<u32>, wanted: Told) -> bool {
    let mut room = [0; 64];
    let mut output = MemoryOut::new(&mut room);
    let status = list(machine, around, first, &mut output);
    says_so((output.written(), status), wanted)
}

fn delivers(machine: &mut TillMachine, around: &mut Around, wanted: Told) -> bool {
    let mut room = [0; 64];
    let mut output = MemoryOut::new(&mut room);
    let delivery = delivery_to(printer_address());
    let status = deliver_waiting(machine, around, &delivery, &mut output);
    says_so((output.written(), status), wanted)
}

fn does(
    rt: &impl Abort,
    alloc: Global,
    machine: &mut TillMachine,
    around: &mut Around,
    step: Step,
) -> bool {
    match step {
        Step::Queues(told) => queues(alloc, machine, around, told),
        Step::Cancels(told) => cancels(rt, machine, around, told),
        Step::Lists(first, told) => lists(machine, around, first, told),
        Step::Delivers(told) => delivers(machine, around, told),
    }
}

fn does_all(
    rt: &impl Abort,
    alloc: Global,
    machine: &mut TillMachine,
    around: &mut Around,
    steps: &[Step],
) {
    for (at, step) in steps.iter().enumerate() {
        let holds = does(rt, alloc, machine, around, *step);
        assert!(rt; holds, "step {at}, counted from 0");
    }
}

// The machine of a store's ledger.
fn machine_of(rt: &impl Abort, alloc: Global, store: &mut MemoryStore) -> TillMachine {
    match open_machine(alloc, store) {
        Ok(machine) => machine,
        Err(_) => panic!(rt; "no ledger"),
    }
}

// Steps with a machine over an empty store that fails at the second entry.
fn plays(rt: &impl Abort, alloc: Global, steps: &[Step]) {
    let failure = Failure::BeforeKeeping { calls: 1 };
    let mut around = Surroundings {
        store: failing_store_of(rt, alloc, &[], failure),
        line: NoLine,
    };
    let mut machine = machine_of(rt, alloc, &mut around.store);
    does_all(rt, alloc, &mut machine, &mut around, steps);
}

const QUEUED: Told = ("queued 1\n", Status::Good);

const KNOWN: Told = ("1 waiting\nnext 0\n", Status::Good);

const FAILS: &[Step] = &[
    Step::Queues(QUEUED),
    Step::Queues(FAILED),
    Step::Queues(FAILED),
    Step::Cancels(FAILED),
    Step::Lists(Some(9), FAILED),
    Step::Delivers(FAILED),
    Step::Lists(None, KNOWN),
];

// The store fails at the second receipt: so do the words after it, but for the list of what the machine knows.
#[test]
fn failed(rt: HostRuntime) {
    plays(&rt, rt.alloc(), FAILS);
}

const FAILS_TO_CANCEL: &[Step] = &[
    Step::Queues(QUEUED),
    Step::Cancels(FAILED),
    Step::Cancels(FAILED),
    Step::Lists(None, KNOWN),
];

// The store fails where the receipt is cancelled: it waits still, as far as the machine knows.
#[test]
fn failed_to_cancel(rt: HostRuntime) {
    plays(&rt, rt.alloc(), FAILS_TO_CANCEL);
}
