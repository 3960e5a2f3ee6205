//! The rows of keys: a receipt that comes with a key which the ledger has is the same one.

use crate::support::driven::{Step, plays};
use crate::support::line::ANSWERS_01;
use crate::support::plain::{Call, Refused, Text, Told, key};
use escpos_till::{Failure, ReceiptKey, ReceiptState};

const UNTRIED: ReceiptState = ReceiptState::Waiting { tried: 0 };

// A key that is known adds nothing, whatever comes with it; another one is another receipt's, and a receipt without a key has none.
const TWO_KEYS: &[Step] = &[
    Step::TakesWith(Text::S, b"sale-7", 1),
    Step::TakesWith(Text::S, b"sale-7", 1),
    Step::TakesWith(Text::A, b"sale-7", 1),
    Step::Has("kq"),
    Step::TakesWith(Text::S, b"sale-8", 2),
    Step::Takes(Text::S, 3),
    Step::Takes(Text::S, 4),
    Step::TakesWith(Text::S, b"sale", 5),
    Step::TakesWith(Text::S, b"Sale-7", 6),
    Step::Has("kqkqqqkqkq"),
    Step::OpensAgain,
    Step::TakesWith(Text::A, b"sale-8", 2),
    Step::TakesWith(Text::A, b"sale", 5),
    Step::Stand(&[UNTRIED; 6], 0),
    Step::Has("kqkqqqkqkq"),
];

#[test]
fn two_keys(rt: HostRuntime) {
    plays(&rt, rt.alloc(), Failure::Never, TWO_KEYS);
}

// A receipt that waits no more has its key still.
const CANCELLED_AND_RECORDED: &[Step] = &[
    Step::TakesWith(Text::S, b"a", 1),
    Step::TakesWith(Text::S, b"b", 2),
    Step::Does(Call::Cancel(1)),
    Step::Tells(Told::Cancelled(1, 0)),
    Step::TakesWith(Text::S, b"a", 1),
    Step::Answers(ANSWERS_01),
    Step::Does(Call::Deliver(1)),
    Step::Tells(Told::Recorded(2)),
    Step::TakesWith(Text::S, b"b", 2),
    Step::Has("kqkqctr"),
];

#[test]
fn cancelled_and_recorded(rt: HostRuntime) {
    plays(&rt, rt.alloc(), Failure::Never, CANCELLED_AND_RECORDED);
}

const BUSY: &[Step] = &[
    Step::TakesWith(Text::S, b"a", 1),
    Step::Does(Call::QueueWith(Text::S, b"a")),
    Step::Refuses(Call::Raise(1), Refused::Busy),
    Step::Tells(Told::Queued(1)),
];

// A machine that isn't at rest refuses a key that it knows, too.
#[test]
fn busy(rt: HostRuntime) {
    plays(&rt, rt.alloc(), Failure::Never, BUSY);
}

const A_VOID_KEY_COMES_AGAIN: &[Step] = &[
    Step::Does(Call::QueueWith(Text::S, b"a")),
    Step::Tells(Told::NotKept),
    Step::RefusesAll,
    Step::OpensAgain,
    Step::Has("k"),
    Step::Stand(&[], 0),
    Step::TakesWith(Text::S, b"a", 1),
    Step::TakesWith(Text::S, b"a", 1),
    Step::Has("kkq"),
];

// The receipt of a key was never kept: the key is void, and may come again.
#[test]
fn a_void_key_comes_again(rt: HostRuntime) {
    let failure = Failure::BeforeKeeping { calls: 1 };
    plays(&rt, rt.alloc(), failure, A_VOID_KEY_COMES_AGAIN);
}

const A_VOID_KEY_STAYS_VOID: &[Step] = &[
    Step::Does(Call::QueueWith(Text::S, b"a")),
    Step::Tells(Told::NotKept),
    Step::RefusesAll,
    Step::OpensAgain,
    Step::Has("k"),
    Step::Takes(Text::A, 1),
    Step::Has("knq"),
    Step::TakesWith(Text::S, b"a", 2),
    Step::TakesWith(Text::S, b"a", 2),
    Step::Has("knqkq"),
    Step::Stand(&[UNTRIED; 2], 0),
];

// The receipt after a void key hasn't got it.
#[test]
fn a_void_key_stays_void(rt: HostRuntime) {
    let failure = Failure::AfterKeeping { calls: 0 };
    plays(&rt, rt.alloc(), failure, A_VOID_KEY_STAYS_VOID);
}

const FAILED_WITH_BOTH_OR_NONE: [(Failure, &[Step]); 2] = [
    (
        Failure::AfterKeeping { calls: 1 },
        &[
            Step::Does(Call::QueueWith(Text::S, b"a")),
            Step::Tells(Told::NotKept),
            Step::RefusesAll,
            Step::OpensAgain,
            Step::Has("kq"),
            Step::TakesWith(Text::S, b"a", 1),
            Step::Has("kq"),
        ],
    ),
    (
        Failure::BeforeKeeping { calls: 0 },
        &[
            Step::Does(Call::QueueWith(Text::S, b"a")),
            Step::Tells(Told::NotKept),
            Step::RefusesAll,
            Step::OpensAgain,
            Step::Has(""),
            Step::TakesWith(Text::S, b"a", 1),
            Step::Has("kq"),
        ],
    ),
];

// The store failed with the receipt, or before the key.
#[test]
fn failed_with_both_or_none(rt: HostRuntime) {
    for (failure, steps) in &FAILED_WITH_BOTH_OR_NONE {
        plays(&rt, rt.alloc(), *failure, steps);
    }
}

#[test]
fn key_texts(rt: HostRuntime) {
    for text in [b"!".as_slice(), b"~", b"sale-7", &[b'x'; 64]] {
        assert!(&rt; key(&rt, text).bytes() == text);
        assert!(&rt; key(&rt, text).copy().bytes() == text);
    }
    for text in [
        b"".as_slice(),
        b" ",
        b"a b",
        b"\x7F",
        "\u{E9}".as_bytes(),
        &[b'x'; 65],
    ] {
        assert!(&rt; ReceiptKey::new(text).is_none());
    }
}
