//! A delivery from a ledger to which others add entries meanwhile.
//!
//! The ledger is opened once at first, then for the entry that says that a receipt is tried, and then for the one that says that it is recorded.
//! Each delivery is a row. Only `plays` owns a ledger that is shared, and lends it.

use crate::support::tills::{
    BusyLedger, FAILED, Plain, Told, busy, delivery_to, failing_store_of, printer_address, says_so,
    store_of, watched_line_over,
};
use escpos_io::MemoryOut;
use escpos_job_parts::status::Status;
use escpos_till::{
    Appended, Entry, Failure, MemoryStore, PrinterLine, Store, StoreFault, Surroundings,
};
use escpos_till_jobs::{LedgerPath, SharedStore, Word, do_with};
use std::alloc::Global;
use std::process::Abort;

type Shared = SharedStore<BusyLedger, MemoryStore>;

// The answers to the marks 0 and 1, and to 7 and 8.
const FIRST: &[u8] = b"\x37\x220000\x00\x37\x220001\x00";

const LATER: &[u8] = b"\x37\x220007\x00\x37\x220008\x00";

// What others do to a ledger.
#[derive(Clone, Copy)]
enum Others {
    // They add these entries before its opening with this number.
    Add(usize, &'static [Plain]),
    // The same, where the ledger's turn is over after each entry.
    AddInTurn(usize, &'static [Plain]),
    // They lose it before its opening with this number.
    Lose(usize),
}

// A printer that takes bytes at once, or not, and gives answers soon, or not.
type Pace = (bool, bool);

const WAITED_FOR: Pace = (false, false);

const ANSWERS_LATER: Pace = (true, false);

const ANSWERS_AT_ONCE: Pace = (true, true);

// One receipt waits in a ledger. What others do to that, what a printer answers and at which pace, what is told, and how many entries are there
// then, if that is known.
#[derive(Clone, Copy)]
struct Row {
    others: Others,
    printer: (&'static [u8], Pace),
    told: Told,
    entries: Option<usize>,
}

const WAITING: &[Plain] = &[Plain::Taken];

const NOTHING: &[Plain] = &[];

// Before which opening of the ledger others do something, and the entries that they add.
fn added_by(others: Others) -> (usize, &'static [Plain]) {
    match others {
        Others::Add(at, added) => (at, added),
        Others::AddInTurn(at, added) => (at, added),
        Others::Lose(at) => (at, NOTHING),
    }
}

fn ledger_of(rt: &impl Abort, alloc: Global, others: Others) -> BusyLedger {
    let added = added_by(others);
    let mut ledger = busy(rt, alloc, store_of(rt, alloc, WAITING), added);
    ledger.is_lost = matches!(others, Others::Lose(_));
    ledger.has_short_turns = matches!(others, Others::AddInTurn(..));
    ledger
}

fn opened(rt: &impl Abort, alloc: Global, ledger: BusyLedger) -> Shared {
    match SharedStore::open(alloc, ledger, &LedgerPath::new("a")) {
        Ok(store) => store,
        Err(_) => panic!(rt; "no store"),
    }
}

fn delivers<L: PrinterLine>(
    alloc: Global,
    around: &mut Surroundings<Shared, L>,
    wanted: Told,
) -> bool {
    let mut room = [0; 64];
    let mut output = MemoryOut::new(&mut room);
    let word = Word::Deliver(delivery_to(printer_address()));
    let status = do_with(alloc, around, word, &mut output);
    says_so((output.written(), status), wanted)
}

fn has(rt: &impl Abort, alloc: Global, store: &mut Shared, count: usize) -> bool {
    store.entries(alloc).expect(rt, "entries").len() == count
}

fn delivers_and_has<L: PrinterLine>(
    rt: &impl Abort,
    alloc: Global,
    around: &mut Surroundings<Shared, L>,
    row: &Row,
) {
    assert!(rt; delivers(alloc, around, row.told), "{:?}", row.told);
    if let Some(count) = row.entries {
        assert!(rt; has(rt, alloc, &mut around.store, count), "{count} entries");
    }
}

fn plays(rt: &impl Abort, alloc: Global, row: &Row) {
    let (answers, pace) = row.printer;
    let mut sent = [0; 100];
    let mut around = Surroundings {
        store: opened(rt, alloc, ledger_of(rt, alloc, row.others)),
        line: watched_line_over(answers, &mut sent, pace),
    };
    delivers_and_has(rt, alloc, &mut around, row);
}

const BOTH_SENT: Told = ("recorded 1\nwaiting 2 Ended\n", Status::Device);

const NO_SECOND_LINK: Told = ("recorded 1\nwaiting 2 no link\n", Status::Device);

const RECORDED: Told = ("recorded 1\n", Status::Good);

const TAKEN_FIRST: Row = Row {
    others: Others::Add(2, &[Plain::Taken]),
    printer: (FIRST, WAITED_FOR),
    told: BOTH_SENT,
    entries: Some(5),
};

// Another till takes a receipt before the first is tried: it goes over the same link, which ends.
#[test]
fn a_receipt_is_taken_first(rt: HostRuntime) {
    plays(&rt, rt.alloc(), &TAKEN_FIRST);
}

const TAKEN_MEANWHILE: Row = Row {
    others: Others::Add(3, &[Plain::Taken]),
    printer: (FIRST, WAITED_FOR),
    told: NO_SECOND_LINK,
    entries: Some(4),
};

// Or while the first is delivered: that is delivered next, over a link of its own.
#[test]
fn a_receipt_is_taken_meanwhile(rt: HostRuntime) {
    plays(&rt, rt.alloc(), &TAKEN_MEANWHILE);
}

const TAKEN_BEFORE_THE_ANSWER: Row = Row {
    others: Others::Add(3, &[Plain::Taken]),
    printer: (FIRST, ANSWERS_LATER),
    told: NO_SECOND_LINK,
    entries: Some(4),
};

// So is one where the printer takes the bytes at once, and answers later.
#[test]
fn a_receipt_is_taken_before_the_answer(rt: HostRuntime) {
    plays(&rt, rt.alloc(), &TAKEN_BEFORE_THE_ANSWER);
}

const NOT_TAKEN: Row = Row {
    others: Others::Add(3, &[Plain::Taken]),
    printer: (FIRST, ANSWERS_AT_ONCE),
    told: RECORDED,
    entries: Some(3),
};

const TAKEN_IN_TURN: Row = Row {
    others: Others::AddInTurn(3, &[Plain::Taken]),
    printer: (FIRST, ANSWERS_AT_ONCE),
    told: NO_SECOND_LINK,
    entries: Some(4),
};

// A printer that answers at once isn't waited for, so the ledger stays open, and nobody else adds to it. Where its turn is over, they do.
#[test]
fn a_receipt_is_taken_once_a_turn_is_over(rt: HostRuntime) {
    plays(&rt, rt.alloc(), &NOT_TAKEN);
    plays(&rt, rt.alloc(), &TAKEN_IN_TURN);
}

const RAISED_BEFORE: Row = Row {
    others: Others::Add(2, &[Plain::Raised(7)]),
    printer: (LATER, WAITED_FOR),
    told: RECORDED,
    entries: Some(4),
};

const RAISED_AFTER: Row = Row {
    others: Others::Add(3, &[Plain::Raised(7)]),
    printer: (FIRST, WAITED_FOR),
    told: RECORDED,
    entries: Some(4),
};

// The next mark number is raised before the receipt is tried: its try has the numbers from there on. Or after that.
#[test]
fn the_next_number_is_raised_meanwhile(rt: HostRuntime) {
    plays(&rt, rt.alloc(), &RAISED_BEFORE);
    plays(&rt, rt.alloc(), &RAISED_AFTER);
}

const CANCELLED_BEFORE: Row = Row {
    others: Others::Add(2, &[Plain::Cancelled(1)]),
    printer: (FIRST, WAITED_FOR),
    told: ("cancelled 1\n", Status::Good),
    entries: Some(2),
};

const CANCELLED_MEANWHILE: Row = Row {
    others: Others::Add(3, &[Plain::Cancelled(1)]),
    printer: (FIRST, WAITED_FOR),
    told: ("cancelled 1 tried 1\n", Status::Good),
    entries: Some(3),
};

// The receipt is cancelled before it is tried; or while it is being sent, which ends first.
#[test]
fn the_receipt_is_cancelled_meanwhile(rt: HostRuntime) {
    plays(&rt, rt.alloc(), &CANCELLED_BEFORE);
    plays(&rt, rt.alloc(), &CANCELLED_MEANWHILE);
}

const TOO_FEW_NUMBERS: Row = Row {
    others: Others::Add(2, &[Plain::Raised(1_679_615)]),
    printer: (FIRST, WAITED_FOR),
    told: ("waiting 1 MarksUsedUp\n", Status::Refused),
    entries: Some(2),
};

// Too few mark numbers are left once the next one is raised.
#[test]
fn too_few_numbers_are_left_then(rt: HostRuntime) {
    plays(&rt, rt.alloc(), &TOO_FEW_NUMBERS);
}

const TRIED_BY_OTHERS: Row = Row {
    others: Others::Add(2, &[Plain::Tried(1, 5)]),
    printer: (FIRST, WAITED_FOR),
    told: FAILED,
    entries: None,
};

const UNKNOWN_CANCELLED: Row = Row {
    others: Others::Add(2, &[Plain::Cancelled(2)]),
    printer: (FIRST, WAITED_FOR),
    told: FAILED,
    entries: None,
};

const RECORDED_BY_OTHERS: Row = Row {
    others: Others::Add(3, &[Plain::Recorded(1)]),
    printer: (FIRST, WAITED_FOR),
    told: FAILED,
    entries: None,
};

const LOST: Row = Row {
    others: Others::Lose(2),
    printer: (FIRST, WAITED_FOR),
    told: FAILED,
    entries: None,
};

// Nobody else may try receipts, or record them; no entry may be missing; and the ledger must be there.
#[test]
fn others_may_not(rt: HostRuntime) {
    plays(&rt, rt.alloc(), &TRIED_BY_OTHERS);
    plays(&rt, rt.alloc(), &UNKNOWN_CANCELLED);
    plays(&rt, rt.alloc(), &RECORDED_BY_OTHERS);
    plays(&rt, rt.alloc(), &LOST);
}

const RAISED: Entry = Entry::Raised { next: 9, heard: 0 };

// Whether an entry is added; or why not.
fn append(store: &mut Shared, entry: &Entry) -> Result<bool, StoreFault> {
    match store.append(entry, None) {
        Ok(appended) => Ok(matches!(appended, Appended::Done)),
        Err(why) => Err(why),
    }
}

fn answers_no_more(alloc: Global, store: &mut Shared) -> bool {
    match store.entries(alloc) {
        Ok(_) => false,
        Err(why) => why == StoreFault::Failed,
    }
}

fn fails(rt: &impl Abort, alloc: Global, store: &mut Shared) {
    assert!(rt; append(store, &RAISED) == Err(StoreFault::Failed));
    assert!(rt; append(store, &RAISED) == Err(StoreFault::Failed));
    assert!(rt; answers_no_more(alloc, store));
}

// The ledger fails as an entry is to be kept. Then it isn't known what it has, and the store answers no more.
#[test]
fn an_entry_is_not_kept(rt: HostRuntime) {
    let failure = Failure::BeforeKeeping { calls: 0 };
    let failing = failing_store_of(&rt, rt.alloc(), &[], failure);
    let ledger = busy(&rt, rt.alloc(), failing, (0, &[]));
    let mut store = opened(&rt, rt.alloc(), ledger);
    fails(&rt, rt.alloc(), &mut store);
}
