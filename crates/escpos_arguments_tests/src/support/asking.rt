//! What arguments ask for; of a till's words, in a form that can be compared.

use escpos_addresses::address::Address;
use escpos_arguments::{task_of, till_task_of};
use escpos_jobs::task::{NoTask, Task};
use escpos_receipt::ReceiptOptions;
use escpos_till_jobs::TillTask;
use std::alloc::Global;
use std::net::{Ipv4Addr, SocketAddr, SocketAddrV4};
use std::process::Abort;

/// This is what the arguments ask for.
pub fn asks_for(rt: &impl Abort, alloc: Global, words: &[&str], asked: Result<Task, NoTask>) {
    assert!(rt; task_of(alloc, words) == asked);
}

// A task with its ledger's path: the dots of a line, and what is printed in place of a character that no code table has; the
// printer's address, how many opening marks, for how many seconds a printer that prints nothing is waited for, and whether there
// is a text for copies, with how many seconds any other wait may last, if that is given; the number of a receipt;
// the path of the ledger that is to go on from it; or the number that the next mark number is raised to.
#[derive(Clone, Copy, PartialEq)]
pub enum Plain<'a> {
    Queue(&'a str, u16, Option<char>),
    Raw(&'a str, u16),
    // with a key: whether it is a stream
    Keyed(&'a str, bool),
    Again(&'a str, usize),
    Deliver(&'a str, Option<SocketAddrV4>, u32, u32, bool, Option<u32>),
    Cancel(&'a str, usize),
    Renew(&'a str, &'a str),
    List(&'a str, Option<u32>),
}

fn replacement_of(options: &ReceiptOptions) -> Option<char> {
    match options.replacement {
        Some(replacement) => Some(replacement.character()),
        None => None,
    }
}

// The IPv4 address and port, if it is one.
fn v4_of(address: &Address) -> Option<SocketAddrV4> {
    match address {
        Address::Numeric(SocketAddr::V4(address)) => Some(*address),
        _ => None,
    }
}

fn plain_of<'a>(task: TillTask<'a>) -> Plain<'a> {
    match task {
        TillTask::Queue {
            ledger,
            options,
            key: None,
        } => Plain::Queue(
            ledger.text(),
            options.width.dots(),
            replacement_of(&options),
        ),
        TillTask::Queue { ledger, .. } => Plain::Keyed(ledger.text(), false),
        TillTask::QueueRaw {
            ledger,
            width,
            key: None,
        } => Plain::Raw(ledger.text(), width.dots()),
        TillTask::QueueRaw { ledger, .. } => Plain::Keyed(ledger.text(), true),
        TillTask::QueueAgain { ledger, number } => Plain::Again(ledger.text(), number.get()),
        TillTask::Deliver {
            ledger,
            delivery,
            wait,
        } => Plain::Deliver(
            ledger.text(),
            v4_of(&delivery.address),
            delivery.openings,
            delivery.patience,
            delivery.copy.is_some(),
            wait,
        ),
        TillTask::Cancel { ledger, number } => Plain::Cancel(ledger.text(), number.get()),
        TillTask::Renew { ledger, new } => Plain::Renew(ledger.text(), new.text()),
        TillTask::List { ledger, first } => Plain::List(ledger.text(), first),
    }
}

// What these words ask for.
pub fn asked_by<'a>(alloc: Global, words: &'a [&'a str]) -> Result<Plain<'a>, NoTask> {
    match till_task_of(alloc, words) {
        Ok(task) => Ok(plain_of(task)),
        Err(why) => Err(why),
    }
}

pub fn printer_address() -> SocketAddrV4 {
    SocketAddrV4::new(Ipv4Addr::new(127, 0, 0, 1), 9100)
}

/// The printer at this address.
pub fn printer() -> Address {
    printer_address().into()
}
