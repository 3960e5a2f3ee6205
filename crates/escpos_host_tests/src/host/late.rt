//! What a host hears of itself: answers to marks of older links, and blocks of automatic status.

use crate::support::hosts::{ANSWER_0, ANSWER_1, ANSWER_2, ANSWER_4, ANSWER_5, Event, Step, plays};
use escpos_host::HostState;
use escpos_test_receipts::{A, B, S};

// A block as a printer sends it whose cover is open and whose paper has ended, and one with each bit that a block may have.
const BLOCKS: [[u8; 4]; 2] = [[0x38, 0x00, 0x0C, 0x00], [0x7C, 0x6F, 0x6F, 0x6F]];

const LATE_ANSWERS: &[Step] = &[
    Step::Open,
    Step::Submit(S),
    Step::LinkDown,
    Step::LinkUp,
    Step::HearLate(ANSWER_0, *b"0000"),
    Step::HearLate(b"\x37\x22 ~@!\x00", *b" ~@!"),
    Step::Records(&[]),
    Step::Hear(b"\x37\x2200", Event::None),
    Step::Hear(b"01\x00", Event::Recorded(0)),
    Step::Is(HostState::Opening),
    Step::Records(&[b"Hi"]),
    Step::NextMark(3),
    Step::HearLate(ANSWER_1, *b"0001"),
    Step::NoneLeft,
    Step::Hear(ANSWER_2, Event::Opened),
    Step::Hear(ANSWER_1, Event::None),
    Step::Is(HostState::Ready),
];

// On a second link, marks 0 and 1 of the first are answered late, and a mark that nobody put: mark 1 is the closing mark of a
// receipt that is left, and records it. The link opens at its own.
#[test]
fn late_answers(rt: HostRuntime) {
    plays(&rt, rt.alloc(), 0, LATE_ANSWERS);
}

const LATE_RECORDS_1: &[Step] = &[
    Step::Open,
    Step::Submit(A),
    Step::Submit(B),
    Step::Submit(S),
    Step::LinkDown,
    Step::LinkUp,
    Step::LinkDown,
    Step::LinkUp,
    Step::Hear(ANSWER_2, Event::Recorded(1)),
    Step::Is(HostState::Opening),
    Step::Records(&[b"A", b"B"]),
    Step::HearLate(ANSWER_1, *b"0001"),
    Step::LinkDown,
    Step::Left(b"Hi"),
    Step::NoneLeft,
    Step::Records(&[b"A", b"B"]),
];

const LATE_RECORDS_2: &[Step] = &[
    Step::Open,
    Step::Submit(A),
    Step::Submit(B),
    Step::Submit(S),
    Step::LinkDown,
    Step::LinkUp,
    Step::Left(b"A"),
    Step::HearLate(ANSWER_1, *b"0001"),
    Step::Records(&[]),
    Step::Hear(ANSWER_2, Event::Recorded(0)),
    Step::Records(&[b"B"]),
];

const LATE_RECORDS_3: &[Step] = &[
    Step::Open,
    Step::Submit(A),
    Step::Submit(B),
    Step::Submit(S),
    Step::LinkDown,
    Step::LinkUp,
    Step::Hear(ANSWER_4, Event::Opened),
    Step::Submit(A),
    Step::Hear(ANSWER_2, Event::None),
    Step::Left(b"A"),
    Step::Hear(ANSWER_5, Event::Recorded(0)),
    Step::Records(&[b"A"]),
    Step::Left(b"B"),
    Step::Left(b"Hi"),
    Step::NoneLeft,
];

// Three receipts are left, with the closing marks 1, 2 and 3. The answer to the second one's mark records two, also on a link after
// the next one, and the third stays left. Where the host has taken one before its mark is answered, that one isn't recorded, and the
// next one is. Once the link is open no answer records what is left.
#[test]
fn late_records(rt: HostRuntime) {
    plays(&rt, rt.alloc(), 0, LATE_RECORDS_1);
    plays(&rt, rt.alloc(), 0, LATE_RECORDS_2);
    plays(&rt, rt.alloc(), 0, LATE_RECORDS_3);
}

// A block in each state; with no link it is taken and isn't told. And one in two pieces.
#[test]
fn blocks(rt: HostRuntime) {
    for block in BLOCKS {
        let steps = [
            Step::Hear(&block, Event::None),
            Step::LinkUp,
            Step::HearBlock(&block, 4, block),
            Step::Is(HostState::Opening),
            Step::Hear(ANSWER_0, Event::Opened),
            Step::HearBlock(&block, 4, block),
            Step::Is(HostState::Ready),
            Step::Submit(S),
            Step::HearBlock(&block, 4, block),
            Step::Is(HostState::Sending),
            Step::NextMark(2),
            Step::Hear(ANSWER_1, Event::Recorded(0)),
            Step::Is(HostState::Ready),
        ];
        plays(&rt, rt.alloc(), 0, &steps);
    }
    let block = BLOCKS[0];
    let steps = [
        Step::LinkUp,
        Step::Hear(&block[..1], Event::None),
        Step::Is(HostState::Opening),
        Step::HearBlock(&block[1..], 3, block),
        Step::Hear(&block[..2], Event::None),
        Step::Is(HostState::Opening),
        Step::HearBlock(&block[2..], 2, block),
        Step::Hear(&block[..3], Event::None),
        Step::Is(HostState::Opening),
        Step::HearBlock(&block[3..], 1, block),
    ];
    plays(&rt, rt.alloc(), 0, &steps);
}

// Each answer ends where the next begins: a status byte, a block, a status byte, a block, and an answer to a mark.
#[test]
fn answers_in_turn(rt: HostRuntime) {
    let piece = *b"\x12\x38\x00\x0C\x00\x12\x38\x00\x0C\x00\x37\x220000\x00";
    let steps = [
        Step::LinkUp,
        Step::HearSome(&piece, 1, Event::Status(0x12)),
        Step::HearBlock(&piece[1..], 4, BLOCKS[0]),
        Step::HearSome(&piece[5..], 1, Event::Status(0x12)),
        Step::HearBlock(&piece[6..], 4, BLOCKS[0]),
        Step::Hear(&piece[10..], Event::Opened),
    ];
    plays(&rt, rt.alloc(), 0, &steps);
}

// Bytes that begin no answer, and those with which a block doesn't go on.
#[test]
fn no_answers(rt: HostRuntime) {
    for byte in [0x00, 0x02, 0x11, 0x13, 0x31, 0x80, 0x90, 0x92, 0xFF] {
        plays(&rt, rt.alloc(), 0, &[Step::GiveUp(&[byte], 0)]);
    }
    for place in 1..4 {
        for byte in [0x10, 0x12, 0x37, 0x80] {
            let mut piece = BLOCKS[0];
            piece[place] = byte;
            plays(&rt, rt.alloc(), 0, &[Step::GiveUp(&piece, place)]);
        }
    }
}
