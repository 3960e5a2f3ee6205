//! What is done to a host step by step where an allocation may fail: then the host is as it was, and the call is made again.
//!
//! Only `plays` owns a host, and it is lent to a function for each kind of step.

use crate::support::hosts::{hears, is_left, puts_out};
use crate::support::sending::send;
use escpos_command::StatusKind;
use escpos_host::{
    Host, HostError, HostEvent, HostState, Receipt, SendFault, Sent, open_link_reporting,
};
use escpos_io::{MemoryIn, MemoryOut};
use escpos_test_receipts::{are_line, receipt_at_last};
use std::alloc::Global;
use std::process::Abort;

/// What is done to a host, and what must come of it.
#[derive(Clone, Copy)]
pub enum Step<'a> {
    /// A call is made, so many times.
    Make(Call, u32),
    /// S is submitted.
    Submit,
    /// This is taken out, and then there is no more.
    Out(&'a [u8]),
    /// A piece is heard, which opens the link.
    Open(&'a [u8]),
    /// The link goes down, and S is left.
    Left,
    /// S is sent with five opening marks. Memory is taken at the first of them, at the fifth, and at S.
    Send,
    /// A link comes up on which the printer tells its condition, with five marks. Where an allocation fails, the link is down.
    OpenReporting,
}

/// A call that takes memory now and then.
#[derive(Clone, Copy)]
pub enum Call {
    LinkUp,
    LinkUpReporting,
    Nudge,
    Ask,
    AskReports,
}

/// A new host does each step in turn. Adds how many calls were refused.
pub fn plays(rt: &impl Abort, alloc: Global, steps: &[Step], refusals: &mut u32) {
    let mut host = Host::new(alloc, 0);
    for (place, step) in steps.iter().enumerate() {
        match does(&mut host, alloc, step) {
            Some(refused) => *refusals = refusals.saturating_add(refused),
            None => panic!(rt; "at step {place}, counted from 0"),
        }
    }
}

// Does a step. Answers how many calls were refused; `None` if what comes of it isn't what the step says.
fn does(host: &mut Host, alloc: Global, step: &Step) -> Option<u32> {
    match step {
        Step::Make(call, count) => makes_calls(host, *call, *count),
        Step::Submit => submits(host, receipt_at_last(alloc).ok()?),
        Step::Out(bytes) => none_refused(puts_out(host, bytes)),
        Step::Open(piece) => none_refused(hears(host, piece, piece.len(), HostEvent::Opened)),
        Step::Left => none_refused(leaves(host)),
        Step::Send => sends(host, receipt_at_last(alloc).ok()?),
        Step::OpenReporting => opens_reporting(host),
    }
}

fn none_refused(is_done: bool) -> Option<u32> {
    if is_done { Some(0) } else { None }
}

// What a refused call leaves as it is, beside the bytes to take out.
fn state_of_host(host: &Host) -> (HostState, u32, bool) {
    (host.state(), host.next_mark(), host.has_out())
}

fn make(host: &mut Host, call: Call) -> Result<(), HostError> {
    match call {
        Call::LinkUp => host.link_up(),
        Call::LinkUpReporting => host.link_up_reporting(),
        Call::Nudge => host.nudge(),
        Call::Ask => ask(host),
        Call::AskReports => host.ask_reports(),
    }
}

fn ask(host: &mut Host) -> Result<(), HostError> {
    match StatusKind::new(1) {
        Some(kind) => host.ask(kind),
        None => Err(HostError::NotReady),
    }
}

fn makes_calls(host: &mut Host, call: Call, count: u32) -> Option<u32> {
    let mut refused = 0u32;
    for _ in 0..count {
        refused = refused.saturating_add(makes(host, call)?);
    }
    Some(refused)
}

fn makes(host: &mut Host, call: Call) -> Option<u32> {
    let before = state_of_host(host);
    match make(host, call) {
        Ok(()) => Some(0),
        Err(HostError::Memory) if state_of_host(host) == before => {
            make(host, call).ok()?;
            Some(1)
        }
        Err(_) => None,
    }
}

fn submits(host: &mut Host, receipt: Receipt) -> Option<u32> {
    let before = state_of_host(host);
    match host.submit(receipt) {
        Ok(()) => Some(0),
        Err((why, back)) => {
            let is_refused = why == HostError::Memory && state_of_host(host) == before;
            submits_again(host, back, is_refused)
        }
    }
}

fn submits_again(host: &mut Host, back: Receipt, is_refused: bool) -> Option<u32> {
    if is_refused && are_line(back.commands(), b"Hi") && host.submit(back).is_ok() {
        Some(1)
    } else {
        None
    }
}

fn leaves(host: &mut Host) -> bool {
    host.link_down();
    match host.take_left() {
        Some(left) => are_line(left.commands(), b"Hi"),
        None => false,
    }
}

// There are the answers to marks 0 and 5, and those of a second try, whose first mark is 0, 4 or 5.
fn sends_five(host: &mut Host, receipt: Receipt) -> Sent {
    let answers =
        b"\x37\x220000\x00\x37\x220004\x00\x37\x220005\x00\x37\x220009\x00\x37\x22000A\x00";
    let mut room = [0; 100];
    let mut reader = MemoryIn::new(answers, 7);
    let mut writer = MemoryOut::new(&mut room);
    send(host, receipt, 5, &mut reader, &mut writer, 100)
}

fn sends(host: &mut Host, receipt: Receipt) -> Option<u32> {
    let refused = match sends_five(host, receipt) {
        Sent::Recorded(_) => 0,
        Sent::NotRecorded { why, receipt } => sends_again(host, why, receipt)?,
    };
    if is_left(host, true) {
        Some(refused)
    } else {
        None
    }
}

fn sends_again(host: &mut Host, why: SendFault, receipt: Receipt) -> Option<u32> {
    let is_refused = why == SendFault::Refused(HostError::Memory)
        && are_line(receipt.commands(), b"Hi")
        && is_left(host, false);
    if is_refused && matches!(sends_five(host, receipt), Sent::Recorded(0)) {
        Some(1)
    } else {
        None
    }
}

fn opens_reporting(host: &mut Host) -> Option<u32> {
    let refused = match open_link_reporting(host, 5) {
        Ok(()) => 0,
        Err(why) => opens_again(host, why)?,
    };
    if host.state() == HostState::Opening {
        Some(refused)
    } else {
        None
    }
}

fn opens_again(host: &mut Host, why: HostError) -> Option<u32> {
    let is_refused = why == HostError::Memory && host.state() == HostState::Down;
    if is_refused && open_link_reporting(host, 5) == Ok(()) {
        Some(1)
    } else {
        None
    }
}
