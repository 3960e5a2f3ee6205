//! What is asked of a till in words, step by step, over a store in memory, and what it tells. A test is a row of steps, which
//! `plays` plays.
//!
//! Only `plays_with` owns a store, and lends it to a function for each step.

use crate::support::tills::{
    Plain, Told, delivery_to, done_with, failing_store_of, line_over, printer_address, read_bytes,
    read_text, says_so, store_of, store_of_raises, taken_out,
};
use escpos_command::LineWidth;
use escpos_io::MemoryOut;
use escpos_job_parts::receipt_input::{NoReceipt, refuse_input};
use escpos_job_parts::status::Status;
use escpos_receipt::ReceiptOptions;
use escpos_text::Replacement;
use escpos_till::{CopyText, Entry, Failure, MemoryStore, ReceiptKey, ReceiptNumber};
use escpos_till_jobs::{Delivery, NoLine, Word};
use std::alloc::Global;
use std::process::Abort;

/// What is asked of a till, and what it tells.
#[derive(Clone, Copy)]
pub enum Step {
    /// A receipt is taken, or refused, which leaves the store as it was.
    Queue(&'static [u8], Told),
    /// The same for lines of so many dots, with a question mark for a character that no code table has.
    QueueFor(u16, &'static [u8], Told),
    /// A receipt is taken with a key, or a receipt of the store has it.
    QueueWithKey(&'static [u8], &'static [u8], Told),
    /// A stream of bytes is taken.
    QueueRaw(&'static [u8], Told),
    /// A receipt is taken, and the output fails.
    QueueUnheard(&'static [u8]),
    /// The receipts are listed, and the next number is raised, if one is given.
    List(Option<u32>, Told),
    /// The receipts are listed, and the output fails.
    ListUnheard,
    /// The receipt with this number is cancelled, or isn't.
    Cancel(usize, Told),
    /// The receipt with this number is taken once more, or isn't.
    Again(usize, Told),
    /// The receipts that wait are delivered over one link, with two opening marks and a text for copies: what is answered, what goes
    /// out, and what is told.
    Deliver(&'static [u8], &'static [u8], Told),
    /// The first of the receipts that wait is delivered over a link on which its two marks are answered: this goes out between the
    /// marks.
    DeliverFirst(&'static [u8]),
    /// The store is found again after a crash.
    Crash,
    /// So many entries are kept.
    Kept(usize),
    /// The entry at this place takes a receipt for lines of so many dots, with this replacement and this text.
    KeptText(usize, u16, char, &'static [u8]),
}

/// Over a store with these entries each step is done in turn.
pub fn plays(rt: &impl Abort, alloc: Global, entries: &[Plain], steps: &[Step]) {
    plays_with(rt, alloc, store_of(rt, alloc, entries), steps);
}

/// The same over a store that fails after so many calls, before anything is kept.
pub fn plays_failing(
    rt: &impl Abort,
    alloc: Global,
    entries: &[Plain],
    calls: usize,
    steps: &[Step],
) {
    let failure = Failure::BeforeKeeping { calls };
    let store = failing_store_of(rt, alloc, entries, failure);
    plays_with(rt, alloc, store, steps);
}

/// The same over a store with so many entries, which raise the next number.
pub fn plays_after_raises(rt: &impl Abort, alloc: Global, count: usize, steps: &[Step]) {
    plays_with(rt, alloc, store_of_raises(rt, alloc, count), steps);
}

fn plays_with(rt: &impl Abort, alloc: Global, store: MemoryStore, steps: &[Step]) {
    let mut store = store;
    does_all(rt, alloc, &mut store, steps);
}

/// Each step is done in turn over a store.
pub fn does_all(rt: &impl Abort, alloc: Global, store: &mut MemoryStore, steps: &[Step]) {
    for (at, step) in steps.iter().enumerate() {
        let is_done = does(alloc, store, *step);
        assert!(rt; is_done, "at step {at}, counted from 0");
    }
}

// Does a step. Answers whether what comes of it is what the step says.
fn does(alloc: Global, store: &mut MemoryStore, step: Step) -> bool {
    match step {
        Step::Queue(text, told) => queues(alloc, store, text, None, told),
        Step::QueueFor(dots, text, told) => queues_for(alloc, store, dots, text, told),
        Step::QueueWithKey(text, key, told) => queues_with_key(alloc, store, text, key, told),
        Step::QueueRaw(stream, told) => queues_raw(alloc, store, stream, told),
        Step::QueueUnheard(text) => queues_unheard(alloc, store, text),
        Step::List(first, told) => says(alloc, store, Word::List(first), told),
        Step::ListUnheard => is_unheard(alloc, store, Word::List(None)),
        Step::Cancel(at, told) => cancels(alloc, store, at, told),
        Step::Again(at, told) => takes_again(alloc, store, at, told),
        Step::Deliver(answers, out, told) => delivers(alloc, store, answers, out, told),
        Step::DeliverFirst(out) => delivers_first(alloc, store, out),
        kept => keeps(alloc, store, kept),
    }
}

// What a store keeps is what the step says. It doesn't fail from now on.
fn keeps(alloc: Global, store: &mut MemoryStore, step: Step) -> bool {
    let entries = taken_out(alloc, store).after_crash();
    let is_kept = has_kept(&entries, step);
    *store = MemoryStore::new(alloc, entries, Failure::Never);
    is_kept
}

fn has_kept(entries: &[Entry], step: Step) -> bool {
    match step {
        Step::Crash => true,
        Step::Kept(count) => entries.len() == count,
        Step::KeptText(place, dots, replacement, text) => match entries.get(place) {
            Some(entry) => is_taken(entry, (dots, replacement), text),
            None => false,
        },
        _ => false,
    }
}

// This entry takes a receipt with this text, for lines of so many dots and with this replacement.
fn is_taken(entry: &Entry, (dots, replacement): (u16, char), text: &[u8]) -> bool {
    let Entry::Queued { content } = entry else {
        return false;
    };
    let is_replaced = match content.options.replacement {
        Some(kept) => kept.character() == replacement,
        None => false,
    };
    content.bytes() == text && content.options.width.dots() == dots && is_replaced
}

// Does a word, of which this is told.
fn says(alloc: Global, store: &mut MemoryStore, word: Word<'_>, told: Told) -> bool {
    let mut room = [0; 64];
    let mut output = MemoryOut::new(&mut room);
    let status = done_with(alloc, store, NoLine, word, &mut output);
    says_so((output.written(), status), told)
}

// Does a word whose output fails: then a device fails.
fn is_unheard(alloc: Global, store: &mut MemoryStore, word: Word<'_>) -> bool {
    let mut room = [0; 64];
    let mut output = MemoryOut::failing(&mut room, 1);
    done_with(alloc, store, NoLine, word, &mut output) == Status::Device
}

fn queues(
    alloc: Global,
    store: &mut MemoryStore,
    text: &[u8],
    key: Option<ReceiptKey>,
    told: Told,
) -> bool {
    match read_text(alloc, &ReceiptOptions::usual(), text) {
        Ok(content) => says(alloc, store, Word::Queue { content, key }, told),
        Err(fault) => refuses(fault, told),
    }
}

fn refuses(fault: NoReceipt, told: Told) -> bool {
    let mut room = [0; 64];
    let mut output = MemoryOut::new(&mut room);
    let status = refuse_input(fault, &mut output);
    says_so((output.written(), status), told)
}

fn queues_for(alloc: Global, store: &mut MemoryStore, dots: u16, text: &[u8], told: Told) -> bool {
    let Some(width) = LineWidth::new(dots) else {
        return false;
    };
    let options = ReceiptOptions {
        width,
        replacement: Replacement::new(b'?'),
    };
    match read_text(alloc, &options, text) {
        Ok(content) => says(alloc, store, Word::Queue { content, key: None }, told),
        Err(_) => false,
    }
}

fn queues_with_key(
    alloc: Global,
    store: &mut MemoryStore,
    text: &[u8],
    key: &[u8],
    told: Told,
) -> bool {
    match ReceiptKey::new(key) {
        Some(key) => queues(alloc, store, text, Some(key), told),
        None => false,
    }
}

fn queues_raw(alloc: Global, store: &mut MemoryStore, stream: &[u8], told: Told) -> bool {
    match read_bytes(alloc, LineWidth::usual(), stream) {
        Ok(content) => says(alloc, store, Word::Queue { content, key: None }, told),
        Err(_) => false,
    }
}

fn queues_unheard(alloc: Global, store: &mut MemoryStore, text: &[u8]) -> bool {
    match read_text(alloc, &ReceiptOptions::usual(), text) {
        Ok(content) => is_unheard(alloc, store, Word::Queue { content, key: None }),
        Err(_) => false,
    }
}

fn cancels(alloc: Global, store: &mut MemoryStore, at: usize, told: Told) -> bool {
    match ReceiptNumber::new(at) {
        Some(number) => says(alloc, store, Word::Cancel(number), told),
        None => false,
    }
}

fn takes_again(alloc: Global, store: &mut MemoryStore, at: usize, told: Told) -> bool {
    match ReceiptNumber::new(at) {
        Some(number) => says(alloc, store, Word::Again(number), told),
        None => false,
    }
}

// What is put on a link starts with this, and nothing follows. The printer is asked to tell its condition unasked, before the opening
// marks and before the receipt.
fn is_put(room: &[u8; 100], out: &[u8]) -> bool {
    match room.as_slice().strip_prefix(out) {
        Some(rest) => is_blank(rest),
        None => false,
    }
}

fn is_blank(bytes: &[u8]) -> bool {
    for byte in bytes {
        if *byte != 0 {
            return false;
        }
    }
    true
}

fn delivers(
    alloc: Global,
    store: &mut MemoryStore,
    answers: &[u8],
    out: &[u8],
    told: Told,
) -> bool {
    let delivery = Delivery {
        address: printer_address().into(),
        openings: 2,
        patience: 600,
        copy: CopyText::new(b"AGAIN"),
    };
    let (mut sent, mut room) = ([0; 100], [0; 64]);
    let mut output = MemoryOut::new(&mut room);
    let line = line_over(answers, &mut sent);
    let status = done_with(alloc, store, line, Word::Deliver(delivery), &mut output);
    let is_told = says_so((output.written(), status), told);
    is_told && is_put(&sent, out)
}

fn delivers_first(alloc: Global, store: &mut MemoryStore, out: &[u8]) -> bool {
    let (mut sent, mut room) = ([0; 200], [0; 64]);
    let mut output = MemoryOut::new(&mut room);
    let answers = b"\x37\x220000\x00\x37\x220001\x00".as_slice();
    let line = line_over(answers, &mut sent);
    let delivery = delivery_to(printer_address());
    let _status = done_with(alloc, store, line, Word::Deliver(delivery), &mut output);
    let is_recorded = output.written().starts_with(b"recorded 1\n");
    is_recorded && are_between_marks(&sent, out)
}

// What is put on a link starts with these bytes after an opening mark and ESC @, and before a closing mark. The printer is asked
// twice to tell its condition.
fn are_between_marks(sent: &[u8], bytes: &[u8]) -> bool {
    let first = b"\x1da\x0e\x1d(H\x06\x00000000\x1da\x0e\x1b@".as_slice();
    match sent.strip_prefix(first) {
        Some(rest) => match rest.strip_prefix(bytes) {
            Some(last) => last.starts_with(b"\x1d(H\x06\x00000001"),
            None => false,
        },
        None => false,
    }
}
