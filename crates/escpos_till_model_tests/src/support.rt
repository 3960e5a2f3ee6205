//! What happens to a till in the world where everything may fail.

use escpos_command::LineWidth;
use escpos_host::SendFault;
use escpos_link::Event;
use escpos_printer::Condition;
use escpos_receipt::ReceiptOptions;
use escpos_test_receipts::S;
use escpos_till::{ReceiptContent, ReceiptKey, ReceiptNumber, ReceiptState, StoreFault, TillNote};
use escpos_till_model::{Happening, NotPossible, Till};
use std::alloc::Global;
use std::process::Abort;

// A printer with nothing amiss.
pub const ONLINE: Condition = Condition {
    cover_open: false,
    near_end: false,
    paper_end: false,
};

// What happens, with S for a receipt, one opening mark, and 5 as the number that is raised to.
#[derive(Clone, Copy, PartialEq)]
pub enum Plain {
    Start,
    Queue,
    // with a key
    Keyed,
    Raise,
    Cancel,
    Deliver,
    // over one link, as long as receipts wait
    DeliverAll,
    Refuse,
    Keep,
    FailWith,
    FailWithout,
    FailWithBoth,
    Connect,
    Miss,
    Put,
    Break,
    Hear,
    End,
    HangUp,
    News,
    Tell,
    Feed,
    HandOver,
    Leave,
    Restart,
    Close,
    Idle,
    Crash,
}

// The till is switched on, and S is taken.
pub const TAKEN: [Plain; 4] = [Plain::Start, Plain::Queue, Plain::Keep, Plain::Tell];

// S is delivered: the opening mark is answered, and then the closing mark. Before each the printer tells its condition, as it is asked to.
pub const DELIVERY: [Plain; 18] = [
    Plain::Deliver,
    Plain::Connect,
    Plain::Keep,
    Plain::Put,
    Plain::Feed,
    Plain::HandOver,
    Plain::Hear,
    Plain::HandOver,
    Plain::Hear,
    Plain::Put,
    Plain::Feed,
    Plain::HandOver,
    Plain::Hear,
    Plain::HandOver,
    Plain::Hear,
    Plain::Keep,
    Plain::HangUp,
    Plain::Tell,
];

pub fn number(rt: &impl Abort, number: usize) -> ReceiptNumber {
    ReceiptNumber::new(number).expect(rt, "a number")
}

fn key(rt: &impl Abort) -> ReceiptKey {
    ReceiptKey::new(b"sale-7").expect(rt, "a key")
}

// S, once it was read. Where memory is refused, it is read again.
pub fn content(rt: &impl Abort, alloc: Global) -> ReceiptContent {
    for _ in 0..8 {
        if let Ok(text) = S.0.to_vec(alloc) {
            if let Ok(content) = ReceiptContent::read(alloc, &ReceiptOptions::usual(), text) {
                return content;
            }
        }
    }
    panic!(rt; "no content")
}

// What happens at the printer's end.
fn on_wire(plain: Plain) -> Event {
    match plain {
        Plain::Feed => Event::Deliver(99),
        Plain::HandOver => Event::HandOver,
        Plain::Leave => Event::PrinterLeaves,
        Plain::Restart => Event::PrinterRestart,
        _ => Event::SetCondition(ONLINE),
    }
}

// What happens to the machine, but for its calls.
fn told(plain: Plain) -> Happening {
    match plain {
        Plain::Connect => Happening::Connect,
        Plain::Miss => Happening::Miss,
        Plain::Put => Happening::Put(99),
        Plain::Break => Happening::Break {
            most: 99,
            fewer: 3,
            why: SendFault::WriteFault,
        },
        Plain::Hear => Happening::Hear(99),
        Plain::End => Happening::End(SendFault::Ended),
        Plain::HangUp => Happening::HangUp,
        Plain::News => Happening::News,
        _ => Happening::Tell,
    }
}

fn deliver(further: bool) -> Happening {
    Happening::Deliver {
        openings: 1,
        most: 99,
        copy: None,
        further,
    }
}

pub fn happening(rt: &impl Abort, alloc: Global, plain: Plain) -> Happening {
    match plain {
        Plain::Start => Happening::Start,
        Plain::Queue => Happening::Queue {
            receipt: content(rt, alloc),
            key: None,
        },
        Plain::Keyed => Happening::Queue {
            receipt: content(rt, alloc),
            key: Some(key(rt)),
        },
        Plain::Raise => Happening::Raise(5),
        Plain::Cancel => Happening::Cancel(number(rt, 1)),
        Plain::Deliver => deliver(false),
        Plain::DeliverAll => deliver(true),
        Plain::Refuse => Happening::Refuse,
        Plain::Keep => Happening::Keep,
        Plain::FailWith => Happening::FailWith(StoreFault::Failed),
        Plain::FailWithout => Happening::FailWithout(StoreFault::Failed),
        Plain::FailWithBoth => Happening::FailWithBoth(StoreFault::Failed),
        Plain::Idle => Happening::Idle,
        Plain::Crash => Happening::Crash,
        Plain::Feed | Plain::HandOver | Plain::Leave | Plain::Restart | Plain::Close => {
            Happening::OnWire(on_wire(plain))
        }
        _ => told(plain),
    }
}

fn happen(till: &mut Till, event: Happening) -> Result<(), NotPossible> {
    till.happen(event)
}

// It happens, or doesn't. This says nothing of what comes of it, so that its callers carry none of the contract.
pub fn happens(
    rt: &impl Abort,
    alloc: Global,
    till: &mut Till,
    plain: Plain,
) -> Result<(), NotPossible> {
    happen(till, happening(rt, alloc, plain))
}

pub fn all_happen(rt: &impl Abort, alloc: Global, till: &mut Till, all: &[Plain]) {
    for plain in all {
        assert!(rt; happens(rt, alloc, till, *plain) == Ok(()));
    }
}

// A till that is switched off. Where its memory is refused, it is asked for again.
pub fn till_at_last(rt: &impl Abort, alloc: Global) -> Till {
    match Till::new(alloc, ONLINE, LineWidth::usual()) {
        Ok(till) => till,
        Err(_) => Till::new(alloc, ONLINE, LineWidth::usual()).expect(rt, "a till"),
    }
}

// The till is switched on, and its receipts stand so.
pub fn stand(rt: &impl Abort, till: &Till, states: &[ReceiptState]) {
    match till.machine() {
        Some(machine) => assert!(rt; machine.states() == states),
        None => panic!(rt; "switched off"),
    }
}

// The owner was told this last.
pub fn was_told(rt: &impl Abort, till: &Till, note: TillNote) {
    assert!(rt; till.told().last() == Some(&note));
}
