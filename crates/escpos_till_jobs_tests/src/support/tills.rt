//! Stores and ledgers in memory, links in memory and links of 127.0.0.1, and what a till tells.
//!
//! Few functions own a store: what a function owns is proved dropped at each way out of it. Calls of a till stand in functions that say
//! nothing of what comes of them, so that the tests carry none of the contracts.

ghost use Rattle.std.specs.Prelude.{◌≡◌};

use escpos_addresses::printer_link::Printers;
use escpos_command::LineWidth;
use escpos_io::{ByteIn, ByteOut, MemoryIn, MemoryOut};
use escpos_job_parts::ending::MEMORY;
use escpos_job_parts::receipt_input::NoReceipt;
use escpos_job_parts::status::Status;
use escpos_receipt::ReceiptOptions;
use escpos_text::Replacement;
use escpos_till::{
    Content, Entry, Failure, MemoryStore, NoStore, PrinterLine, ReceiptContent, ReceiptNumber,
    Store, Surroundings,
};
use escpos_till_jobs::{
    Delivery, Dial, LedgerPath, Ledgers, Link, LinkLine, NoStream, Word, do_with, read_content,
    read_raw,
};
use std::alloc::Global;
use std::io;
use std::io::Write;
use std::mem::{replace, swap};
use std::net::{Ipv4Addr, Net, Shutdown, SocketAddr, SocketAddrV4, TcpListener, TcpStream};
use std::process::Abort;

// The texts of receipts of one line, Hi and A.
pub const S: &[u8] = b"[{\"line\":\"Hi\"}]";

pub const A: &[u8] = b"[{\"line\":\"A\"}]";

// What is printed, and the status.
pub type Told = (&'static str, Status);

pub const FAILED: Told = ("ledger failed\n", Status::Device);

pub fn says_so((put, status): (&[u8], Status), wanted: Told) -> bool {
    put == wanted.0.as_bytes() && status == wanted.1
}

// What comes of a call: what is wanted is told; or that memory was refused, and nothing else is; or neither.
#[derive(Clone, Copy, PartialEq)]
pub enum Came {
    AsSaid,
    Refused,
    Otherwise,
}

pub fn what_came((put, status): (&[u8], Status), wanted: Told) -> Came {
    if says_so((put, status), wanted) {
        return Came::AsSaid;
    }
    if status == Status::Memory && put == MEMORY {
        return Came::Refused;
    }
    Came::Otherwise
}

// A text as it is read, seven bytes at a time.
pub fn read_text(
    alloc: Global,
    options: &ReceiptOptions,
    text: &[u8],
) -> Result<ReceiptContent, NoReceipt> {
    read_content(alloc, options, &mut MemoryIn::new(text, 7))
}

// A stream as it is read, for lines of this width.
pub fn read_bytes(
    alloc: Global,
    width: LineWidth,
    stream: &[u8],
) -> Result<ReceiptContent, NoStream> {
    read_raw(alloc, width, &mut MemoryIn::new(stream, 7))
}

// Each receipt is sent to this address, with one opening mark.
pub fn delivery_to(address: SocketAddrV4) -> Delivery<'static> {
    Delivery {
        address: address.into(),
        openings: 1,
        patience: 600,
        copy: None,
    }
}

// An entry of a ledger: S is taken; this text is taken, for lines of so many dots and with this replacement; a receipt is tried, and this is
// the next number; it is recorded; the next number is raised; it is cancelled.
#[derive(Clone, Copy)]
pub enum Plain {
    Taken,
    TakenFor(u16, u8, &'static [u8]),
    Tried(usize, u32),
    Recorded(usize),
    Raised(u32),
    Cancelled(usize),
}

pub fn number(rt: &impl Abort, number: usize) -> ReceiptNumber {
    ReceiptNumber::new(number).expect(rt, "a number")
}

fn content_for(
    rt: &impl Abort,
    alloc: Global,
    (dots, replacement): (u16, u8),
    text: &[u8],
) -> Content {
    let options = ReceiptOptions {
        width: LineWidth::new(dots).expect(rt, "a width"),
        replacement: Replacement::new(replacement),
    };
    Content::with_options(text.to_vec(alloc).expect(rt, "memory"), options)
}

fn entry(rt: &impl Abort, alloc: Global, plain: Plain) -> Entry {
    match plain {
        Plain::Taken => Entry::Queued {
            content: Content::new(S.to_vec(alloc).expect(rt, "memory")),
        },
        Plain::TakenFor(dots, replacement, text) => Entry::Queued {
            content: content_for(rt, alloc, (dots, replacement), text),
        },
        Plain::Tried(at, next) => Entry::Tried {
            number: number(rt, at),
            next,
        },
        Plain::Recorded(at) => Entry::Recorded {
            number: number(rt, at),
            heard: 0,
        },
        Plain::Raised(next) => Entry::Raised { next, heard: 0 },
        Plain::Cancelled(at) => Entry::Cancelled {
            number: number(rt, at),
        },
    }
}

fn entries_of(rt: &impl Abort, alloc: Global, all: &[Plain]) -> Vec<Entry> {
    let mut entries = Vec::new(alloc);
    for plain in all {
        let pushed = entries.push(entry(rt, alloc, *plain));
        assert!(rt; pushed.is_ok());
    }
    entries
}

// A store with these entries.
pub fn store_of(rt: &impl Abort, alloc: Global, entries: &[Plain]) -> MemoryStore {
    failing_store_of(rt, alloc, entries, Failure::Never)
}

// The same, which fails so.
pub fn failing_store_of(
    rt: &impl Abort,
    alloc: Global,
    entries: &[Plain],
    failure: Failure,
) -> MemoryStore {
    MemoryStore::new(alloc, entries_of(rt, alloc, entries), failure)
}

// A store with so many entries, which raise the next number to 5.
pub fn store_of_raises(rt: &impl Abort, alloc: Global, count: usize) -> MemoryStore {
    let mut entries = Vec::new(alloc);
    for _ in 0..count {
        assert!(rt; entries.push(Entry::Raised { next: 5, heard: 0 }).is_ok());
    }
    MemoryStore::new(alloc, entries, Failure::Never)
}

// A store that is taken out of its place, where an empty one is then.
pub fn taken_out(alloc: Global, store: &mut MemoryStore) -> MemoryStore {
    replace(
        store,
        MemoryStore::new(alloc, Vec::new(alloc), Failure::Never),
    )
}

// Dials one link in memory, which takes bytes at once and gives them soon, or is waited for.
#[derive(Drop)]
pub struct InMemory<'a> {
    link: Option<Link<MemoryIn<'a>, MemoryOut<'a>>>,
    takes_at_once: bool,
    gives_soon: bool,
}

impl<'a> Dial<MemoryIn<'a>, MemoryOut<'a>> for InMemory<'a> {
    ghost dialled = { λ old link new. Unit {0} };

    ghost paced = { λ old link patient result new. Unit {0} };

    ghost closed = { λ old link new. Unit {0} };

    fn dial(&mut self) -> Option<Link<MemoryIn<'a>, MemoryOut<'a>>> {
        self.link.take()
    }

    fn pace(
        &mut self,
        link: Link<MemoryIn<'a>, MemoryOut<'a>>,
        _patient: bool,
    ) -> Link<MemoryIn<'a>, MemoryOut<'a>>
        ensures paced { Unit {0} }
        ensures source { ⟦<MemoryIn<'a> as ByteIn>⟧.to_come result.reader ≡ ⟦<MemoryIn<'a> as ByteIn>⟧.to_come link.entry.reader }
        ensures sink { ⟦<MemoryOut<'a> as ByteOut>⟧.written result.writer ≡ ⟦<MemoryOut<'a> as ByteOut>⟧.written link.entry.writer }
    {
        link
    }

    fn takes_at_once(&self) -> bool {
        self.takes_at_once
    }

    fn gives_soon(&self) -> bool {
        self.gives_soon
    }

    fn close(&mut self, link: Link<MemoryIn<'a>, MemoryOut<'a>>)
        ensures { self.new ≡ self.old }
    {
        drop(link);
    }
}

// Does a word with the ledger of a store, over a line.
pub fn done_with<L: PrinterLine + Drop, W: ByteOut>(
    alloc: Global,
    store: &mut MemoryStore,
    line: L,
    word: Word<'_>,
    output: &mut W,
) -> Status {
    let mut around = Surroundings {
        store: taken_out(alloc, store),
        line,
    };
    let status = do_with(alloc, &mut around, word, output);
    swap(store, &mut around.store);
    status
}

// A line over one link, on which these answers come, seven bytes at a time. What is put goes to this room.
pub fn line_over<'a>(
    answers: &'a [u8],
    room: &'a mut [u8],
) -> LinkLine<MemoryIn<'a>, MemoryOut<'a>, InMemory<'a>> {
    watched_line_over(answers, room, (true, true))
}

// The same to a printer that takes at once, or not, and gives soon, or not.
pub fn watched_line_over<'a>(
    answers: &'a [u8],
    room: &'a mut [u8],
    (takes_at_once, gives_soon): (bool, bool),
) -> LinkLine<MemoryIn<'a>, MemoryOut<'a>, InMemory<'a>> {
    let reader = MemoryIn::new(answers, 7);
    let writer = MemoryOut::new(room);
    LinkLine::new(InMemory {
        link: Some(Link { reader, writer }),
        takes_at_once,
        gives_soon,
    })
}

// A ledger in memory, at the path a, to which others add entries: all of these, just before it is opened for the time with this number. Or
// it is gone then.
#[derive(Drop)]
pub struct BusyLedger {
    pub store: Option<MemoryStore>,
    pub added: Vec<Entry>,
    pub at: usize,
    pub is_lost: bool,
    pub opened: usize,
    // it is closed after each entry
    pub has_short_turns: bool,
}

// It has what a store has, and others add these entries.
pub fn busy(
    rt: &impl Abort,
    alloc: Global,
    store: MemoryStore,
    (at, added): (usize, &[Plain]),
) -> BusyLedger {
    BusyLedger {
        store: Some(store),
        added: entries_of(rt, alloc, added),
        at,
        is_lost: false,
        opened: 0,
        has_short_turns: false,
    }
}

// Adds an entry, once more where memory was refused.
fn add_at_last(store: &mut MemoryStore, entry: &Entry) {
    if store.append(entry, None).is_err() {
        let _ = store.append(entry, None);
    }
}

fn add_all(store: &mut Option<MemoryStore>, entries: &[Entry]) {
    if let Some(store) = store {
        for entry in entries {
            add_at_last(store, entry);
        }
    }
}

impl Ledgers<MemoryStore> for BusyLedger {
    ghost opened = { λ old path result new. Unit {0} };

    ghost closed = { λ old store new. Unit {0} };

    // Until it is closed, it is in use.
    fn open(&mut self, path: &LedgerPath<'_>) -> Result<MemoryStore, NoStore> {
        if path.text() != "a" {
            return Err(NoStore::NoLedger);
        }
        self.opened = self.opened.saturating_add(1);
        if self.opened == self.at && self.is_lost {
            self.store = None;
            return Err(NoStore::NoLedger);
        }
        if self.opened == self.at {
            add_all(&mut self.store, &self.added);
        }
        match self.store.take() {
            Some(store) => Ok(store),
            None => Err(NoStore::InUse),
        }
    }

    fn close(&mut self, store: MemoryStore) {
        self.store = Some(store);
    }

    fn is_turn_over(&self) -> bool {
        self.has_short_turns
    }
}

pub fn printer_address() -> SocketAddrV4 {
    SocketAddrV4::new(Ipv4Addr::new(127, 0, 0, 1), 9100)
}

// A listener at any free port of 127.0.0.1, and its address.
pub fn listens<N: Net<Stream = TcpStream, Listener = TcpListener> + Abort>(
    rt: &N,
) -> (TcpListener, SocketAddrV4) {
    let listener = TcpListener::bind(rt, "127.0.0.1:0").expect(rt, "no port");
    match listener.local_addr().expect(rt, "no address") {
        SocketAddr::V4(address) => (listener, address),
        SocketAddr::V6(_) => rt.abort(),
    }
}

// An address at which nobody listens any more.
pub fn left_address<N: Net<Stream = TcpStream, Listener = TcpListener> + Abort>(
    rt: &N,
) -> SocketAddrV4 {
    let (_listener, address) = listens(rt);
    address
}

// Bytes of status. With an answer to a mark before them they fill a read, so that the next answer is read after it.
const STATUS: [u8; 505] = [0x12; 505];

// Both ends of a link, the printer's of which has sent these two answers and ends its writing.
pub fn answered_link<N: Net<Stream = TcpStream, Listener = TcpListener> + Abort>(
    rt: &N,
    (listener, address): (&TcpListener, SocketAddrV4),
    (first, second): (&[u8], &[u8]),
) -> (TcpStream, TcpStream) {
    let client = TcpStream::connect(rt, address).expect(rt, "no link");
    let (mut printer, _) = listener.accept().expect(rt, "no link");
    for bytes in [first, &STATUS, second] {
        printer.write_all(bytes).expect(rt, "can't write");
    }
    printer.shutdown(Shutdown::Write).expect(rt, "can't end");
    (client, printer)
}

// A network in which this stream is connected to this address, and nothing can be listened to.
#[derive(Drop)]
pub struct Prepared<'a> {
    pub address: SocketAddrV4,
    pub client: &'a TcpStream,
}

impl Net for Prepared<'_> {
    type Stream = TcpStream;

    type Listener = TcpListener;

    fn bind(&self, _addr: SocketAddr) -> io::Result<TcpListener> {
        Err(io::Error::from(io::ErrorKind::AddrNotAvailable))
    }

    fn connect(&self, addr: SocketAddr) -> io::Result<TcpStream> {
        if addr == SocketAddr::V4(self.address) {
            self.client.try_clone()
        } else {
            Err(io::Error::from(io::ErrorKind::NetworkUnreachable))
        }
    }
}

impl Printers for Prepared<'_> {}
