//! The worked rows of delivering: what goes out, what is answered, and what the ledger has then.

use crate::support::driven::{Step, plays};
use crate::support::line::{ANSWERS_01, ANSWERS_23, Answers, SENT_AGAIN};
use crate::support::plain::{Call, Refused, Text, Told};
use escpos_host::SendFault;
use escpos_test_receipts::SENT;
use escpos_till::{CopyText, Failure, ReceiptState};

const FIRST: ReceiptState = ReceiptState::Recorded { place: 0 };

const SECOND: ReceiptState = ReceiptState::Recorded { place: 1 };

// The answer to mark 0, and those to marks 4 and 5.
const OPENED: Answers = &[b"\x37\x220000\x00"];

const ANSWERS_45: Answers = &[b"\x37\x220004\x00", b"\x37\x220005\x00"];

// What is put of mark 4, A and mark 5.
const SENT_A: &[u8] = b"\x1D(H\x06\x00000004\x1B@A\n\x1D(H\x06\x00000005";

const NOTHING_WAITS: Step = Step::Refuses(Call::Deliver(1), Refused::NothingWaits);

const DELIVERED: &[Step] = &[
    NOTHING_WAITS,
    Step::Takes(Text::S, 1),
    Step::Delivers(ANSWERS_01, Told::Recorded(1), SENT),
    NOTHING_WAITS,
    Step::Stand(&[FIRST], 2),
];

#[test]
fn delivered(rt: HostRuntime) {
    plays(&rt, rt.alloc(), Failure::Never, DELIVERED);
}

const ANSWER_LOST: &[Step] = &[
    Step::Takes(Text::S, 1),
    Step::Takes(Text::A, 2),
    Step::Delivers(OPENED, Told::Waiting(1, SendFault::Ended), SENT),
    Step::Delivers(ANSWERS_23, Told::Recorded(1), SENT_AGAIN),
    Step::Delivers(ANSWERS_45, Told::Recorded(2), SENT_A),
    Step::Stand(&[FIRST, SECOND], 6),
];

// The closing mark's answer is lost: the receipt waits, and is delivered again with numbers of its own, as a copy.
#[test]
fn answer_lost(rt: HostRuntime) {
    plays(&rt, rt.alloc(), Failure::Never, ANSWER_LOST);
}

// The text of a copy: 1 to 42 characters, each 20 to 7E.
#[test]
fn copy_texts(rt: HostRuntime) {
    let long = [b'x'; 43];
    assert!(&rt; CopyText::new(b"").is_none());
    assert!(&rt; CopyText::new(&long).is_none());
    assert!(&rt; CopyText::new(&long[..42]).is_some());
    assert!(&rt; CopyText::new(b" ~").is_some());
    assert!(&rt; CopyText::new(b"\x1F").is_none());
    assert!(&rt; CopyText::new(b"\x7F").is_none());
}
