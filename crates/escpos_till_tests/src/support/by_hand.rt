//! A till's machine that is told by hand what came of what it asks for, and the steps that the tests take with it.
//!
//! A test is a row of steps. Only `plays` owns a machine, and lends it to one function for each step.

use crate::support::calls::{
    Asked, appended, asks, came, connected, hung_up, is_to_keep, learned, link_ended, machine_of,
    refuses, take_out, takes, told,
};
use crate::support::plain::{Call, Plain, Refused, Text, Told, entries_of, entry, note};
use escpos_host::SendFault;
use escpos_till::{Pause, ReceiptState, StoreFault, TillMachine};
use std::alloc::Global;
use std::process::Abort;

// What is done with a machine, and what must come of it.
#[derive(Clone, Copy)]
pub enum Step {
    // It takes this call.
    Does(Call),
    // It refuses the call for this reason.
    Refuses(Call, Refused),
    // S is taken, and has this number.
    Takes(usize),
    // So many receipts are taken, one after the other.
    TakesAll(usize),
    // The first receipt that waits, which has number 1, is to be delivered with one opening mark: there is a link, and it is kept that the
    // receipt is tried, and that this is the next mark number.
    Tries(u32),
    // The same, with the text of a copy.
    TriesCopy(u32),
    // It asks for a link, and there is one or none.
    Connects(bool),
    // It asks for this entry to be kept.
    IsToKeep(Plain),
    // It asks for an entry to be kept, and it is kept, or the store fails.
    Keeps,
    FailsToKeep,
    // It has something to put.
    IsToPut,
    // It asks the printer to tell its condition unasked, then for these bytes to be put.
    Puts(&'static [u8]),
    // It waits for so many bytes of answers, and hears these.
    Hears(u32, &'static [u8]),
    // It waits for this many bytes of answers, and hears as many statuses, one after the other.
    HearsStatuses(u32),
    // The link ends.
    Ends(SendFault),
    // It asks for the link to be given up, and it is.
    HangsUp,
    // It tells this, and is at rest.
    Tells(Told),
    // The first receipt is printed: that is kept, and that no mark below this number can be answered any more. The link is given up, and
    // it is told.
    Records(u32),
    // The next mark number can be raised no higher than to this one, and is raised to it.
    RaisesNoHigherThan(u32),
    // The link has ended, or fails: it gives the link up, and tells why the first receipt waits.
    Waits(SendFault),
    // It tells that the printer pauses with the first receipt, for this reason.
    Pauses(Pause),
    // It knows of no pause.
    IsNotPaused,
    // It learns that others have added these entries, or fails at that.
    Learns(&'static [Plain]),
    FailsToLearn(&'static [Plain]),
    // The receipts stand so; the first of them stand so; there are so many of them.
    Stand(&'static [ReceiptState]),
    StandFirst(&'static [ReceiptState]),
    Receipts(usize),
    // So many were over before these entries.
    AreEarlier(u32),
    // The next mark has this number.
    Next(u32),
}

// A machine of these entries, with which these steps are taken. No other function owns one.
pub fn plays(rt: &impl Abort, alloc: Global, entries: &[Plain], steps: &[Step]) {
    let mut machine = opened(rt, alloc, entries);
    takes_steps(rt, alloc, &mut machine, steps);
}

fn opened(rt: &impl Abort, alloc: Global, entries: &[Plain]) -> TillMachine {
    let entries = entries_of(rt, alloc, entries);
    machine_of(rt, alloc, &entries)
}

fn takes_steps(rt: &impl Abort, alloc: Global, machine: &mut TillMachine, steps: &[Step]) {
    for (at, step) in steps.iter().enumerate() {
        let holds = takes_step(rt, alloc, machine, *step);
        assert!(rt; holds, "step {at}, counted from 0");
    }
}

fn takes_step(rt: &impl Abort, alloc: Global, machine: &mut TillMachine, step: Step) -> bool {
    match step {
        Step::Does(call) => takes(rt, alloc, machine, call),
        Step::Refuses(call, why) => refuses(rt, alloc, machine, (call, why)),
        Step::Takes(at) => takes_s(rt, alloc, machine, at),
        Step::TakesAll(count) => takes_all(rt, alloc, machine, count),
        Step::Tries(next) => tries(rt, alloc, machine, Call::Deliver(1), next),
        Step::TriesCopy(next) => tries(rt, alloc, machine, Call::DeliverCopy(1, b"COPY"), next),
        Step::Learns(others) => learns(rt, alloc, machine, others) == Ok(()),
        Step::FailsToLearn(others) => {
            learns(rt, alloc, machine, others) == Err(StoreFault::Failed)
        }
        Step::IsToKeep(plain) => is_to_keep_plain(rt, alloc, machine, plain),
        Step::Records(heard) => records(rt, alloc, machine, heard),
        Step::RaisesNoHigherThan(last) => raises_no_higher(rt, alloc, machine, last),
        _ => hears_step(rt, machine, step),
    }
}

// Steps in which the machine is told what came of what it asks for.
fn hears_step(rt: &impl Abort, machine: &mut TillMachine, step: Step) -> bool {
    match step {
        Step::Connects(has_link) => connects(machine, has_link),
        Step::Keeps => keeps(machine, Ok(())),
        Step::FailsToKeep => keeps(machine, Err(StoreFault::Failed)),
        Step::Puts(bytes) => puts(machine, bytes),
        Step::Hears(most, bytes) => hears(machine, most, bytes),
        Step::HearsStatuses(most) => hears_statuses(machine, most),
        Step::Ends(why) => ends(machine, why),
        Step::HangsUp => hangs_up(machine),
        Step::Tells(told) => tells(rt, machine, told),
        Step::Waits(why) => hangs_up(machine) && tells(rt, machine, Told::Waiting(1, why)),
        Step::Pauses(why) => pauses(rt, machine, why),
        _ => is_so(machine, step),
    }
}

// What a step says of a machine as it is.
fn is_so(machine: &TillMachine, step: Step) -> bool {
    match step {
        Step::IsToPut => asks(machine) == Asked::Put,
        Step::IsNotPaused => !machine.is_paused(),
        Step::Stand(states) => machine.states() == states,
        Step::StandFirst(states) => machine.states().get(..states.len()) == Some(states),
        Step::Receipts(count) => machine.states().len() == count,
        Step::AreEarlier(count) => machine.earlier() == count,
        Step::Next(next) => machine.next_mark() == next,
        _ => false,
    }
}

fn is_to_keep_plain(rt: &impl Abort, alloc: Global, machine: &TillMachine, wanted: Plain) -> bool {
    is_to_keep(machine, &entry(rt, alloc, wanted))
}

fn connects(machine: &mut TillMachine, has_link: bool) -> bool {
    let is_asked = asks(machine) == Asked::Connect;
    connected(machine, has_link);
    is_asked
}

fn keeps(machine: &mut TillMachine, kept: Result<(), StoreFault>) -> bool {
    let is_asked = asks(machine) == Asked::Append;
    appended(machine, kept);
    is_asked
}

fn puts(machine: &mut TillMachine, wanted: &[u8]) -> bool {
    let is_asked = asks(machine) == Asked::Put;
    let mut room = [0; 64];
    let count = take_out(machine, &mut room);
    match &room[..count.min(64)] {
        [0x1D, b'a', 0x0E, others @ ..] => is_asked && others == wanted,
        _ => false,
    }
}

fn hears(machine: &mut TillMachine, most: u32, bytes: &[u8]) -> bool {
    asks(machine) == Asked::Wait(most) && came(machine, bytes) == bytes.len()
}

fn hears_statuses(machine: &mut TillMachine, most: u32) -> bool {
    for heard in 0..most {
        if !hears(machine, most.saturating_sub(heard), b"\x12") {
            return false;
        }
    }
    true
}

fn ends(machine: &mut TillMachine, why: SendFault) -> bool {
    link_ended(machine, why);
    true
}

fn hangs_up(machine: &mut TillMachine) -> bool {
    let is_asked = asks(machine) == Asked::HangUp;
    hung_up(machine);
    is_asked
}

fn is_told(rt: &impl Abort, machine: &mut TillMachine, wanted: Told) -> bool {
    let is_asked = asks(machine) == Asked::Tell(note(rt, wanted));
    told(machine);
    is_asked
}

fn tells(rt: &impl Abort, machine: &mut TillMachine, wanted: Told) -> bool {
    is_told(rt, machine, wanted) && asks(machine) == Asked::Nothing
}

fn pauses(rt: &impl Abort, machine: &mut TillMachine, why: Pause) -> bool {
    is_told(rt, machine, Told::Paused(1, why)) && machine.is_paused()
}

fn takes_s(rt: &impl Abort, alloc: Global, machine: &mut TillMachine, at: usize) -> bool {
    takes(rt, alloc, machine, Call::Queue(Text::S))
        && refuses(rt, alloc, machine, (Call::Raise(9), Refused::Busy))
        && is_to_keep_plain(rt, alloc, machine, Plain::Taken(Text::S))
        && keeps(machine, Ok(()))
        && tells(rt, machine, Told::Queued(at))
}

fn takes_all(rt: &impl Abort, alloc: Global, machine: &mut TillMachine, count: usize) -> bool {
    for at in 1..=count {
        if !takes_s(rt, alloc, machine, at) {
            return false;
        }
    }
    true
}

fn tries(rt: &impl Abort, alloc: Global, machine: &mut TillMachine, call: Call, next: u32) -> bool {
    takes(rt, alloc, machine, call)
        && connects(machine, true)
        && is_to_keep_plain(rt, alloc, machine, Plain::Tried(1, next))
        && keeps(machine, Ok(()))
}

fn records(rt: &impl Abort, alloc: Global, machine: &mut TillMachine, heard: u32) -> bool {
    is_to_keep_plain(rt, alloc, machine, Plain::Recorded(1, heard))
        && keeps(machine, Ok(()))
        && hangs_up(machine)
        && tells(rt, machine, Told::Recorded(1))
}

fn raises_no_higher(rt: &impl Abort, alloc: Global, machine: &mut TillMachine, last: u32) -> bool {
    let too_high = Refused::MarkTooHigh(last);
    refuses(
        rt,
        alloc,
        machine,
        (Call::Raise(last.saturating_add(1)), too_high),
    ) && refuses(rt, alloc, machine, (Call::Raise(u32::MAX), too_high))
        && takes(rt, alloc, machine, Call::Raise(last))
        && keeps(machine, Ok(()))
        && tells(rt, machine, Told::Raised)
}

fn learns(
    rt: &impl Abort,
    alloc: Global,
    machine: &mut TillMachine,
    others: &[Plain],
) -> Result<(), StoreFault> {
    learned(machine, &entries_of(rt, alloc, others))
}
