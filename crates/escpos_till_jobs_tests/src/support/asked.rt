//! What is asked of the ledgers at some paths, step by step, where nobody is reached, and what it tells. A test is a row of steps, which
//! `plays` plays.

use crate::support::tills::{
    Came, Plain, Told, delivery_to, number, printer_address, store_of, what_came,
};
use escpos_addresses::printer_link::Printers;
use escpos_command::LineWidth;
use escpos_io::{ByteIn, ByteOut, MemoryIn, MemoryOut};
use escpos_job_parts::status::Status;
use escpos_receipt::ReceiptOptions;
use escpos_till::{Failure, MemoryStore, NoStore, ReceiptKey};
use escpos_till_jobs::{
    LedgerPath, Ledgers, NetworkLines, NewLedgers, NoRenewal, TillTask, perform_till,
};
use std::alloc::Global;
use std::io;
use std::net::{Net, SocketAddr, TcpListener, TcpStream};
use std::process::Abort;

// What is asked.
#[derive(Clone, Copy)]
pub enum Ask {
    // This text is taken as a receipt, without a key or with this one.
    Queue(&'static [u8]),
    QueueWithKey(&'static [u8], &'static [u8]),
    // So is this stream of bytes.
    QueueRaw(&'static [u8]),
    QueueRawWithKey(&'static [u8], &'static [u8]),
    // The first receipt is taken once more. The input would give this one, and isn't read.
    Again(&'static [u8]),
    // The receipts that wait are delivered, where no wait lasts longer than so many seconds, if that is given.
    Deliver(Option<u32>),
    // The first receipt is cancelled.
    Cancel,
    // The receipts are listed.
    List,
    // A new ledger is written at this path, which goes on from the one that is asked.
    Renew(&'static str),
}

// A step with a ledger.
#[derive(Clone, Copy)]
pub enum Step {
    // What is asked of the ledger at a path, and what it tells.
    Asks(&'static str, Ask, Told),
    // The new ledger is found in the place of the older one.
    Moves,
}

// The ledger at one path, in memory. At any other path there is none.
#[derive(Drop)]
pub struct OneLedger {
    pub path: &'static str,
    pub store: Option<MemoryStore>,
}

impl Ledgers<MemoryStore> for OneLedger {
    ghost opened = { λ old path result new. Unit {0} };

    ghost closed = { λ old store new. Unit {0} };

    // Until it is closed, it is in use.
    fn open(&mut self, path: &LedgerPath<'_>) -> Result<MemoryStore, NoStore> {
        if path.text() != self.path {
            return Err(NoStore::NoLedger);
        }
        match self.store.take() {
            Some(store) => Ok(store),
            None => Err(NoStore::InUse),
        }
    }

    fn close(&mut self, store: MemoryStore) {
        self.store = Some(store);
    }

    fn is_turn_over(&self) -> bool {
        false
    }
}

// A new ledger may be written at one path, in memory. At any other path there is one already.
#[derive(Drop)]
pub struct NewLedger {
    pub alloc: Global,
    pub path: &'static str,
    pub store: Option<MemoryStore>,
}

impl NewLedgers<MemoryStore> for NewLedger {
    ghost begun = { λ old path result new. Unit {0} };

    ghost finished = { λ old store path result new. Unit {0} };

    fn begin(&mut self, path: &LedgerPath<'_>) -> Result<MemoryStore, NoRenewal> {
        if path.text() != self.path {
            return Err(NoRenewal::Exists);
        }
        Ok(MemoryStore::new(self.alloc, Vec::new(self.alloc), Failure::Never))
    }

    fn finish(&mut self, store: MemoryStore, _path: &LedgerPath<'_>) -> Result<(), NoRenewal> {
        self.store = Some(store);
        Ok(())
    }
}

// A ledger at the path a, or one that is in use; and a new one may be written at b. Another is opened for what is shared, or for what isn't:
// it is nowhere.
#[derive(Drop)]
pub struct Paths {
    ledger: OneLedger,
    other: OneLedger,
    news: NewLedger,
}

// Paths with the ledger of this store.
pub fn paths_of(alloc: Global, store: Option<MemoryStore>) -> Paths {
    Paths {
        ledger: OneLedger { path: "a", store },
        other: OneLedger {
            path: "",
            store: None,
        },
        news: NewLedger {
            alloc,
            path: "b",
            store: None,
        },
    }
}

// What is asked of a ledger: its status.
fn performed<R: ByteIn, W: ByteOut>(
    alloc: Global,
    paths: &mut Paths,
    task: TillTask<'_>,
    input: &mut R,
    output: &mut W,
) -> Status {
    let mut lines = NetworkLines::new(&Nobody);
    match task {
        TillTask::Deliver { .. } | TillTask::Renew { .. } => perform_till(
            alloc,
            &mut paths.other,
            &mut paths.ledger,
            &mut paths.news,
            &mut lines,
            task,
            input,
            output,
        ),
        task => perform_till(
            alloc,
            &mut paths.ledger,
            &mut paths.other,
            &mut paths.news,
            &mut lines,
            task,
            input,
            output,
        ),
    }
}

fn queue(path: &'static str, key: &[u8]) -> TillTask<'static> {
    TillTask::Queue {
        ledger: LedgerPath::new(path),
        options: ReceiptOptions::usual(),
        key: ReceiptKey::new(key),
    }
}

fn queue_raw(path: &'static str, key: &[u8]) -> TillTask<'static> {
    TillTask::QueueRaw {
        ledger: LedgerPath::new(path),
        width: LineWidth::usual(),
        key: ReceiptKey::new(key),
    }
}

fn task_of(rt: &impl Abort, path: &'static str, ask: Ask) -> TillTask<'static> {
    let ledger = LedgerPath::new(path);
    match ask {
        Ask::Queue(_) => queue(path, b""),
        Ask::QueueWithKey(_, key) => queue(path, key),
        Ask::QueueRaw(_) => queue_raw(path, b""),
        Ask::QueueRawWithKey(_, key) => queue_raw(path, key),
        Ask::Again(_) => TillTask::QueueAgain {
            ledger,
            number: number(rt, 1),
        },
        Ask::Deliver(wait) => TillTask::Deliver {
            ledger,
            delivery: delivery_to(printer_address()),
            wait,
        },
        Ask::Cancel => TillTask::Cancel {
            ledger,
            number: number(rt, 1),
        },
        Ask::List => TillTask::List {
            ledger,
            first: None,
        },
        Ask::Renew(new) => TillTask::Renew {
            ledger,
            new: LedgerPath::new(new),
        },
    }
}

fn input_of(ask: Ask) -> &'static [u8] {
    match ask {
        Ask::Queue(text) | Ask::QueueRaw(text) | Ask::Again(text) => text,
        Ask::QueueWithKey(text, _) | Ask::QueueRawWithKey(text, _) => text,
        _ => b"",
    }
}

// What comes of what is asked of the ledger at a path.
pub fn asks(
    rt: &impl Abort,
    alloc: Global,
    paths: &mut Paths,
    (path, ask, told): (&'static str, Ask, Told),
) -> Came {
    let mut room = [0; 64];
    let mut input = MemoryIn::new(input_of(ask), 7);
    let mut output = MemoryOut::new(&mut room);
    let task = task_of(rt, path, ask);
    let status = performed(alloc, paths, task, &mut input, &mut output);
    what_came((output.written(), status), told)
}

fn moves(paths: &mut Paths) -> bool {
    paths.ledger.store = paths.news.store.take();
    true
}

fn takes_step(rt: &impl Abort, alloc: Global, paths: &mut Paths, step: Step) -> bool {
    match step {
        Step::Asks(path, ask, told) => asks(rt, alloc, paths, (path, ask, told)) == Came::AsSaid,
        Step::Moves => moves(paths),
    }
}

fn takes_steps(rt: &impl Abort, alloc: Global, paths: &mut Paths, steps: &[Step]) {
    for (at, step) in steps.iter().enumerate() {
        let holds = takes_step(rt, alloc, paths, *step);
        assert!(rt; holds, "step {at}, counted from 0");
    }
}

// Steps with a ledger of these entries at the path a, or with one that is in use. No other function here owns ledgers.
pub fn plays(rt: &impl Abort, alloc: Global, entries: Option<&[Plain]>, steps: &[Step]) {
    let store = match entries {
        Some(entries) => Some(store_of(rt, alloc, entries)),
        None => None,
    };
    let mut paths = paths_of(alloc, store);
    takes_steps(rt, alloc, &mut paths, steps);
}

// A network that reaches nobody.
#[derive(Drop)]
pub struct Nobody;

impl Net for Nobody {
    type Stream = TcpStream;

    type Listener = TcpListener;

    fn bind(&self, _addr: SocketAddr) -> io::Result<TcpListener> {
        Err(io::Error::from(io::ErrorKind::AddrNotAvailable))
    }

    fn connect(&self, _addr: SocketAddr) -> io::Result<TcpStream> {
        Err(io::Error::from(io::ErrorKind::NetworkUnreachable))
    }
}

impl Printers for Nobody {}
