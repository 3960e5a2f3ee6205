//! The calls of a till's machine, a function each.
//!
//! None says what comes of its call: that is compared when the tests run. So the tests carry none of the contracts, and are proved soon.

use crate::support::plain::{Call, Refused, key, number, receipt, refusal};
use escpos_host::SendFault;
use escpos_till::{
    Action, CopyText, Entry, ReceiptContent, ReceiptKey, ReceiptNumber, StoreFault, TillMachine,
    TillNote, TillRefusal,
};
use std::alloc::Global;
use std::process::Abort;

// A machine of these entries.
pub fn machine_of(rt: &impl Abort, alloc: Global, entries: &[Entry]) -> TillMachine {
    match TillMachine::open(alloc, entries) {
        Ok(machine) => machine,
        Err(_) => panic!(rt; "no machine"),
    }
}

pub fn queue(
    machine: &mut TillMachine,
    receipt: ReceiptContent,
    key: Option<ReceiptKey>,
) -> Result<(), (TillRefusal, ReceiptContent)> {
    machine.queue(receipt, key)
}

pub fn raise(machine: &mut TillMachine, first: u32) -> Result<(), TillRefusal> {
    machine.raise(first)
}

pub fn cancel(machine: &mut TillMachine, number: ReceiptNumber) -> Result<(), TillRefusal> {
    machine.cancel(number)
}

pub fn deliver(
    machine: &mut TillMachine,
    openings: u32,
    copy: Option<&CopyText<'_>>,
) -> Result<(), TillRefusal> {
    machine.deliver(openings, copy, 100, false)
}

// What a machine asks for, without the entry that is to be kept.
#[derive(Clone, Copy, PartialEq)]
pub enum Asked {
    Nothing,
    Append,
    Connect,
    Put,
    Wait(u32),
    HangUp,
    Tell(TillNote),
}

pub fn asks(machine: &TillMachine) -> Asked {
    match machine.asks() {
        Action::Nothing => Asked::Nothing,
        Action::Append(_) => Asked::Append,
        Action::Connect => Asked::Connect,
        Action::Put => Asked::Put,
        Action::Wait(most) => Asked::Wait(most),
        Action::HangUp => Asked::HangUp,
        Action::Tell(note) => Asked::Tell(note),
    }
}

// Whether it asks for this entry to be kept.
pub fn is_to_keep(machine: &TillMachine, wanted: &Entry) -> bool {
    match machine.asks() {
        Action::Append(found) => found.is_same(wanted),
        _ => false,
    }
}

pub fn appended(machine: &mut TillMachine, kept: Result<(), StoreFault>) {
    machine.appended(kept);
}

pub fn learned(machine: &mut TillMachine, others: &[Entry]) -> Result<(), StoreFault> {
    machine.learned(others)
}

pub fn connected(machine: &mut TillMachine, is: bool) {
    machine.connected(is);
}

pub fn take_out(machine: &mut TillMachine, room: &mut [u8]) -> usize {
    machine.take_out(room)
}

pub fn came(machine: &mut TillMachine, bytes: &[u8]) -> usize {
    machine.came(bytes)
}

pub fn link_ended(machine: &mut TillMachine, why: SendFault) {
    machine.link_ended(why);
}

pub fn hung_up(machine: &mut TillMachine) {
    machine.hung_up();
}

pub fn told(machine: &mut TillMachine) {
    machine.told();
}

fn queued(
    machine: &mut TillMachine,
    receipt: ReceiptContent,
    key: Option<ReceiptKey>,
) -> Result<(), TillRefusal> {
    match queue(machine, receipt, key) {
        Ok(()) => Ok(()),
        Err((why, _receipt)) => Err(why),
    }
}

fn delivered_as_copy(
    rt: &impl Abort,
    machine: &mut TillMachine,
    openings: u32,
    text: &[u8],
) -> Result<(), TillRefusal> {
    let text = CopyText::new(text).expect(rt, "a text");
    deliver(machine, openings, Some(&text))
}

// What comes of a call.
fn called(
    rt: &impl Abort,
    alloc: Global,
    machine: &mut TillMachine,
    call: Call,
) -> Result<(), TillRefusal> {
    match call {
        Call::Queue(text) => queued(machine, receipt(rt, alloc, text), None),
        Call::QueueWith(text, with) => {
            queued(machine, receipt(rt, alloc, text), Some(key(rt, with)))
        }
        Call::Raise(first) => raise(machine, first),
        Call::Cancel(at) => cancel(machine, number(rt, at)),
        Call::Deliver(openings) => deliver(machine, openings, None),
        Call::DeliverCopy(openings, text) => delivered_as_copy(rt, machine, openings, text),
    }
}

pub fn takes(rt: &impl Abort, alloc: Global, machine: &mut TillMachine, call: Call) -> bool {
    called(rt, alloc, machine, call) == Ok(())
}

pub fn refuses(
    rt: &impl Abort,
    alloc: Global,
    machine: &mut TillMachine,
    (call, why): (Call, Refused),
) -> bool {
    called(rt, alloc, machine, call) == Err(refusal(rt, why))
}
