//! A till's machine with what surrounds it, a store in memory and a line to a printer; and the steps that the tests take with both.
//!
//! A test is a row of steps. Only `plays` owns a till, and lends it to one function for each step.

use crate::support::calls::{machine_of, refuses, takes};
use crate::support::line::{Answers, Line};
use crate::support::plain::{Call, Refused, Text, Told, note};
use escpos_host::SendFault;
use escpos_till::{
    Entry, Failure, MemoryStore, Pause, ReceiptState, Store, Surroundings, TillMachine, TillNote,
    drive,
};
use std::alloc::Global;
use std::mem::replace;
use std::process::Abort;

// What is done with a till, and what must come of it.
#[derive(Clone, Copy)]
pub enum Step {
    // The machine takes this call. Nothing is done yet.
    Does(Call),
    // It refuses the call for this reason.
    Refuses(Call, Refused),
    // The store has failed, and the machine refuses all.
    RefusesAll,
    // This receipt is taken, and has this number.
    Takes(Text, usize),
    // This receipt is taken with this key. The receipt that has the key has this number.
    TakesWith(Text, &'static [u8], usize),
    // There is no link to be had.
    HasNoLink,
    // The printer answers this from now on.
    Answers(Answers),
    // The first receipt that waits is to be delivered with so many opening marks, and this will be answered: a link is opened, and it is
    // kept that the receipt is tried.
    Tries(u32, Answers),
    // The receipt with this number is tried with so many opening marks, the first of which is this, and nothing is answered.
    TriesInVain(usize, u32, &'static [u8]),
    // The first receipt that waits is delivered, as a copy if it was tried before. This is answered and told, and this is put.
    Delivers(Answers, Told, &'static [u8]),
    // At most so many things are done that the machine asks for, and nothing is told.
    Drives(u32),
    // All is done, and this is told: the machine rests.
    Tells(Told),
    // So many things are done, the last of which is to tell this. The driver gives up before that one, and goes on when it is called again.
    TellsAfter(u32, Told),
    // It is told that the printer pauses with the first receipt, for this reason.
    Pauses(Pause),
    // The machine knows of no pause.
    IsNotPaused,
    // What was put on the last link.
    Sent(&'static [u8]),
    // How often the printer was asked on the last link to tell its condition unasked, how often it was waited for there with patience,
    // and how often a link was given up.
    Requests(usize),
    PatientWaits(usize),
    HangUps(usize),
    // The store has these entries: a letter for the kind of each.
    Has(&'static str),
    // The receipts stand so, and the next mark has this number.
    Stand(&'static [ReceiptState], u32),
    // A crash: a new machine is made of what the store has, which doesn't fail from now on.
    OpensAgain,
}

// A machine, its store and its line.
#[derive(Drop)]
pub struct DrivenTill {
    pub machine: TillMachine,
    pub around: Surroundings<MemoryStore, Line>,
}

// A till with no entries, whose store fails so.
fn new_till(rt: &impl Abort, alloc: Global, failure: Failure) -> DrivenTill {
    DrivenTill {
        machine: machine_of(rt, alloc, &[]),
        around: Surroundings {
            store: MemoryStore::new(alloc, Vec::new(alloc), failure),
            line: Line::new(),
        },
    }
}

// A new till, with which these steps are taken. No other function here owns one.
pub fn plays(rt: &impl Abort, alloc: Global, failure: Failure, steps: &[Step]) {
    let mut till = new_till(rt, alloc, failure);
    takes_steps(rt, alloc, &mut till, steps);
}

fn takes_steps(rt: &impl Abort, alloc: Global, till: &mut DrivenTill, steps: &[Step]) {
    for (at, step) in steps.iter().enumerate() {
        let holds = takes_step(rt, alloc, till, *step);
        assert!(rt; holds, "step {at}, counted from 0");
    }
}

fn takes_step(rt: &impl Abort, alloc: Global, till: &mut DrivenTill, step: Step) -> bool {
    match step {
        Step::Does(call) => does(rt, alloc, till, call),
        Step::Refuses(call, why) => refuses(rt, alloc, &mut till.machine, (call, why)),
        Step::RefusesAll => refuses_all(rt, alloc, till),
        Step::Takes(text, at) => takes_call(rt, alloc, till, Call::Queue(text), at),
        Step::TakesWith(text, key, at) => {
            takes_call(rt, alloc, till, Call::QueueWith(text, key), at)
        }
        Step::HasNoLink => {
            till.around.line.has_link = false;
            true
        }
        Step::Answers(answers) => {
            till.around.line.answers = answers;
            true
        }
        Step::Tries(openings, answers) => tries(rt, alloc, till, openings, answers),
        Step::TriesInVain(at, openings, first) => {
            tries_in_vain(rt, alloc, till, at, openings, first)
        }
        Step::Delivers(answers, told, out) => delivers(rt, alloc, till, answers, told, out),
        Step::Drives(most) => drives(till, most) == None,
        Step::Tells(told) => tells(rt, till, told),
        Step::TellsAfter(turns, told) => tells_after(rt, till, turns, told),
        Step::Pauses(why) => pauses(rt, till, why),
        Step::OpensAgain => opens_again(rt, alloc, till),
        Step::Has(kinds) => has(alloc, till, kinds),
        _ => is_so(till, step),
    }
}

// What a step says of a till as it is.
fn is_so(till: &DrivenTill, step: Step) -> bool {
    match step {
        Step::IsNotPaused => !till.machine.is_paused(),
        Step::Sent(out) => till.around.line.sent() == out,
        Step::Requests(count) => till.around.line.requests == count,
        Step::PatientWaits(count) => till.around.line.patient_waits == count,
        Step::HangUps(count) => till.around.line.hang_ups == count,
        Step::Stand(states, next) => {
            till.machine.states() == states && till.machine.next_mark() == next
        }
        _ => false,
    }
}

fn does(rt: &impl Abort, alloc: Global, till: &mut DrivenTill, call: Call) -> bool {
    takes(rt, alloc, &mut till.machine, call)
}

// At most so many things are done that the machine asks for. This says nothing of what comes of it, so that its callers carry none of
// the contract.
pub fn drives(till: &mut DrivenTill, most: u32) -> Option<TillNote> {
    drive(&mut till.machine, &mut till.around, most)
}

fn tells(rt: &impl Abort, till: &mut DrivenTill, told: Told) -> bool {
    drives(till, 1_000) == Some(note(rt, told)) && till.machine.rests()
}

fn tells_after(rt: &impl Abort, till: &mut DrivenTill, turns: u32, told: Told) -> bool {
    drives(till, turns.saturating_sub(1)) == None
        && !till.machine.rests()
        && drives(till, 1) == Some(note(rt, told))
        && till.machine.rests()
        && drives(till, 1) == None
}

fn pauses(rt: &impl Abort, till: &mut DrivenTill, why: Pause) -> bool {
    drives(till, 1_000) == Some(note(rt, Told::Paused(1, why))) && till.machine.is_paused()
}

fn takes_call(
    rt: &impl Abort,
    alloc: Global,
    till: &mut DrivenTill,
    call: Call,
    at: usize,
) -> bool {
    does(rt, alloc, till, call) && tells(rt, till, Told::Queued(at))
}

fn tries(
    rt: &impl Abort,
    alloc: Global,
    till: &mut DrivenTill,
    openings: u32,
    answers: Answers,
) -> bool {
    till.around.line.answers = answers;
    does(rt, alloc, till, Call::Deliver(openings)) && drives(till, 2) == None
}

fn tries_in_vain(
    rt: &impl Abort,
    alloc: Global,
    till: &mut DrivenTill,
    at: usize,
    openings: u32,
    first: &[u8],
) -> bool {
    tries(rt, alloc, till, openings, &[])
        && tells(rt, till, Told::Waiting(at, SendFault::Ended))
        && till.around.line.sent().get(7..11) == Some(first)
}

fn delivers(
    rt: &impl Abort,
    alloc: Global,
    till: &mut DrivenTill,
    answers: Answers,
    told: Told,
    out: &[u8],
) -> bool {
    till.around.line.answers = answers;
    does(rt, alloc, till, Call::DeliverCopy(1, b"COPY"))
        && tells(rt, till, told)
        && till.around.line.sent() == out
}

const EACH_CALL: &[Call] = &[
    Call::Queue(Text::A),
    Call::Raise(9),
    Call::Cancel(1),
    Call::Deliver(1),
];

fn refuses_all(rt: &impl Abort, alloc: Global, till: &mut DrivenTill) -> bool {
    for call in EACH_CALL {
        if !refuses(rt, alloc, &mut till.machine, (*call, Refused::Failed)) {
            return false;
        }
    }
    drives(till, 1_000) == None
}

// The entries that a crash leaves of a store, which is left with none.
fn after_crash(alloc: Global, store: &mut MemoryStore) -> Vec<Entry> {
    let none = MemoryStore::new(alloc, Vec::new(alloc), Failure::Never);
    replace(store, none).after_crash()
}

fn opens_again(rt: &impl Abort, alloc: Global, till: &mut DrivenTill) -> bool {
    let entries = after_crash(alloc, &mut till.around.store);
    till.machine = machine_of(rt, alloc, &entries);
    till.around.store = MemoryStore::new(alloc, entries, Failure::Never);
    till.around.line = Line::new();
    true
}

fn kind(entry: &Entry) -> u8 {
    match entry {
        Entry::Queued { .. } => b'q',
        Entry::Tried { .. } => b't',
        Entry::Recorded { .. } => b'r',
        Entry::Raised { .. } => b'n',
        Entry::Cancelled { .. } => b'c',
        Entry::Key { .. } => b'k',
        Entry::Renewed { .. } => b'o',
        Entry::Earlier { .. } => b'e',
    }
}

fn are(entries: &[Entry], kinds: &[u8]) -> bool {
    for (entry, wanted) in entries.iter().zip(kinds) {
        if kind(entry) != *wanted {
            return false;
        }
    }
    entries.len() == kinds.len()
}

fn has(alloc: Global, till: &mut DrivenTill, kinds: &str) -> bool {
    match till.around.store.entries(alloc) {
        Ok(entries) => are(&entries, kinds.as_bytes()),
        Err(_) => false,
    }
}
