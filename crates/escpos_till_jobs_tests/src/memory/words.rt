//! What a till's words do, over a store in memory.
//!
//! A word that is refused memory prints `memory` and nothing else, and gives the store back; then the word is given again.

use crate::support::asked::{Ask, Paths, asks, paths_of};
use crate::support::tills::{
    Came, S, Told, delivery_to, done_with, line_over, number, printer_address, what_came,
};
use escpos_io::{ByteIn, MemoryIn, MemoryOut};
use escpos_job_parts::input::InputFault;
use escpos_job_parts::receipt_input::NoReceipt;
use escpos_job_parts::status::Status;
use escpos_receipt::{JsonError, ReceiptOptions};
use escpos_till::{
    Entry, Failure, MemoryStore, NoStore, ReceiptContent, ReceiptKey, ReceiptState, TillMachine,
};
use escpos_till_jobs::{NoLine, Word, open_machine, read_content};
use std::alloc::Global;
use std::process::Abort;

// What was to be told is. Answers no where memory is refused: then that alone is said.
fn is_told(rt: &impl Abort, came: Came) -> bool {
    assert!(rt; came != Came::Otherwise);
    came == Came::AsSaid
}

// A store whose one entry raises the next mark number to 5.
fn raised_store(rt: &impl Abort, alloc: Global) -> MemoryStore {
    let mut entries = match Vec::with_capacity(alloc, 1) {
        Ok(entries) => entries,
        Err(_) => Vec::with_capacity(alloc, 1).expect(rt, "entries"),
    };
    let _ = entries.push(Entry::Raised { next: 5, heard: 0 });
    MemoryStore::new(alloc, entries, Failure::Never)
}

// The machine of a store's ledger. None where memory is refused.
fn machine_of(rt: &impl Abort, alloc: Global, store: &mut MemoryStore) -> Option<TillMachine> {
    match open_machine(alloc, store) {
        Ok(machine) => Some(machine),
        Err(why) => {
            assert!(rt; why == NoStore::Memory);
            None
        }
    }
}

// Where memory is refused, it is opened again.
fn machine_at_last(rt: &impl Abort, alloc: Global, store: &mut MemoryStore) -> TillMachine {
    match machine_of(rt, alloc, store) {
        Some(machine) => machine,
        None => machine_of(rt, alloc, store).expect(rt, "a ledger"),
    }
}

fn next_mark(rt: &impl Abort, alloc: Global, store: &mut MemoryStore) -> u32 {
    machine_at_last(rt, alloc, store).next_mark()
}

// S is read. None where memory is refused: then the source hasn't failed.
fn content_of(rt: &impl Abort, alloc: Global) -> Option<ReceiptContent> {
    let mut source = MemoryIn::new(S, 7);
    match read_content(alloc, &ReceiptOptions::usual(), &mut source) {
        Ok(content) => Some(content),
        Err(fault) => {
            assert!(rt;
                matches!(
                    fault,
                    NoReceipt::Input(InputFault::Memory) | NoReceipt::Text(JsonError::Memory)
                )
            );
            assert!(rt; !source.has_failed());
            None
        }
    }
}

// Where memory is refused, a new source is read.
fn content_at_last(rt: &impl Abort, alloc: Global) -> ReceiptContent {
    match content_of(rt, alloc) {
        Some(content) => content,
        None => content_of(rt, alloc).expect(rt, "a receipt"),
    }
}

#[test]
fn read_content_refused(rt: HostRuntime) {
    let content = content_at_last(&rt, rt.alloc()).into_content();
    assert!(&rt; content.bytes() == S);
}

// A word that is given to a till.
#[derive(Clone, Copy)]
enum Call {
    // S is taken, with a key.
    Queue,
    // The receipts are listed, and the next mark number is raised to 6.
    List,
    // The first receipt is cancelled, or taken once more, or delivered over a link on which the ledger's next two marks are answered.
    Cancel,
    Again,
    Deliver,
}

fn word_of(rt: &impl Abort, alloc: Global, call: Call) -> Word<'static> {
    match call {
        Call::Queue => Word::Queue {
            content: content_at_last(rt, alloc),
            key: ReceiptKey::new(b"sale-7"),
        },
        Call::List => Word::List(Some(6)),
        Call::Cancel => Word::Cancel(number(rt, 1)),
        Call::Again => Word::Again(number(rt, 1)),
        Call::Deliver => Word::Deliver(delivery_to(printer_address())),
    }
}

fn wanted(call: Call) -> Told {
    let line = match call {
        Call::Queue => "queued 1\n",
        Call::List => "1 waiting\nnext 6\n",
        Call::Cancel => "cancelled 1\n",
        Call::Again => "queued 2\n",
        Call::Deliver => "recorded 1\n",
    };
    (line, Status::Good)
}

fn does_over_no_line(rt: &impl Abort, alloc: Global, store: &mut MemoryStore, call: Call) -> Came {
    let mut room = [0; 64];
    let mut output = MemoryOut::new(&mut room);
    let word = word_of(rt, alloc, call);
    let status = done_with(alloc, store, NoLine, word, &mut output);
    what_came((output.written(), status), wanted(call))
}

fn delivers(rt: &impl Abort, alloc: Global, store: &mut MemoryStore) -> Came {
    let answers = match next_mark(rt, alloc, store) {
        5 => b"\x37\x220005\x00\x37\x220006\x00".as_slice(),
        _ => b"\x37\x220007\x00\x37\x220008\x00".as_slice(),
    };
    let (mut sent, mut room) = ([0; 100], [0; 64]);
    let mut output = MemoryOut::new(&mut room);
    let line = line_over(answers, &mut sent);
    let word = word_of(rt, alloc, Call::Deliver);
    let status = done_with(alloc, store, line, word, &mut output);
    what_came((output.written(), status), wanted(Call::Deliver))
}

// Answers no where memory is refused.
fn does(rt: &impl Abort, alloc: Global, store: &mut MemoryStore, call: Call) -> bool {
    let came = match call {
        Call::Deliver => delivers(rt, alloc, store),
        _ => does_over_no_line(rt, alloc, store, call),
    };
    is_told(rt, came)
}

fn does_at_last(rt: &impl Abort, alloc: Global, store: &mut MemoryStore, call: Call) {
    if !does(rt, alloc, store, call) {
        assert!(rt; does(rt, alloc, store, call));
    }
}

// The words that are given to a till whose ledger is `raised_store`; how the receipts stand then, and which number the next mark has, if that
// is known.
#[derive(Clone, Copy)]
struct Row {
    calls: &'static [Call],
    states: &'static [ReceiptState],
    next: Option<u32>,
}

fn stands(rt: &impl Abort, machine: &TillMachine, row: Row) {
    assert!(rt; machine.states() == row.states);
    if let Some(next) = row.next {
        assert!(rt; machine.next_mark() == next);
    }
}

fn does_all(rt: &impl Abort, alloc: Global, store: &mut MemoryStore, calls: &[Call]) {
    for call in calls {
        does_at_last(rt, alloc, store, *call);
    }
}

// No other function of words owns a store.
fn plays(rt: &impl Abort, alloc: Global, row: Row) {
    let mut store = raised_store(rt, alloc);
    does_all(rt, alloc, &mut store, row.calls);
    let machine = machine_at_last(rt, alloc, &mut store);
    stands(rt, &machine, row);
}

const WAITING: ReceiptState = ReceiptState::Waiting { tried: 0 };

const QUEUED: Row = Row {
    calls: &[Call::Queue],
    states: &[WAITING],
    next: Some(5),
};

#[test]
fn queue_refused(rt: HostRuntime) {
    plays(&rt, rt.alloc(), QUEUED);
}

const LISTED: Row = Row {
    calls: &[Call::Queue, Call::List],
    states: &[WAITING],
    next: Some(6),
};

#[test]
fn list_refused(rt: HostRuntime) {
    plays(&rt, rt.alloc(), LISTED);
}

const CANCELLED: Row = Row {
    calls: &[Call::Queue, Call::Cancel],
    states: &[ReceiptState::Cancelled { tried: 0 }],
    next: Some(5),
};

#[test]
fn cancel_refused(rt: HostRuntime) {
    plays(&rt, rt.alloc(), CANCELLED);
}

const TAKEN_AGAIN: Row = Row {
    calls: &[Call::Queue, Call::Again],
    states: &[WAITING, WAITING],
    next: Some(5),
};

#[test]
fn again_refused(rt: HostRuntime) {
    plays(&rt, rt.alloc(), TAKEN_AGAIN);
}

const RECORDED: Row = Row {
    calls: &[Call::Queue, Call::Deliver],
    states: &[ReceiptState::Recorded { place: 0 }],
    next: None,
};

// (a try that memory ends has used its numbers)
#[test]
fn deliver_refused(rt: HostRuntime) {
    plays(&rt, rt.alloc(), RECORDED);
}

// What is asked of a ledger, where nobody is reached. Answers no where memory is refused.
fn performs(rt: &impl Abort, alloc: Global, paths: &mut Paths, ask: Ask, told: Told) -> bool {
    is_told(rt, asks(rt, alloc, paths, ("a", ask, told)))
}

fn performs_at_last(rt: &impl Abort, alloc: Global, paths: &mut Paths, ask: Ask, told: Told) {
    if !performs(rt, alloc, paths, ask, told) {
        assert!(rt; performs(rt, alloc, paths, ask, told));
    }
}

// S is taken into a ledger at a path. It waits, since nobody is reached.
fn performs_all(rt: &impl Abort, alloc: Global, paths: &mut Paths) {
    let queued = ("queued 1\n", Status::Good);
    performs_at_last(rt, alloc, paths, Ask::QueueWithKey(S, b"sale-7"), queued);
    let no_link = ("waiting 1 no link\n", Status::Device);
    performs_at_last(rt, alloc, paths, Ask::Deliver(None), no_link);
}

#[test]
fn perform_refused(rt: HostRuntime) {
    let store = raised_store(&rt, rt.alloc());
    let mut paths = paths_of(rt.alloc(), Some(store));
    performs_all(&rt, rt.alloc(), &mut paths);
}

// A ledger without receipts goes on in another.
fn renews(rt: &impl Abort, alloc: Global) -> bool {
    let mut paths = paths_of(alloc, Some(raised_store(rt, alloc)));
    let renewed = ("renewed 0\n", Status::Good);
    performs(rt, alloc, &mut paths, Ask::Renew("b"), renewed)
}

#[test]
fn renew_refused(rt: HostRuntime) {
    if !renews(&rt, rt.alloc()) {
        assert!(&rt; renews(&rt, rt.alloc()));
    }
}
