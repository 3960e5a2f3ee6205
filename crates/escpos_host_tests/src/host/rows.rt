//! The worked rows of the host. `sizes` has what is long or large.

use crate::support::hosts::{
    ANSWER_0, ANSWER_1, ANSWER_2, ANSWER_3, ANSWER_4, ANSWER_5, ANSWER_6, Event, Step, plays,
    plays_resumed, records_of,
};
use crate::support::texts::is_shown_as;
use escpos_host::{Heard, HostError, HostEvent, HostState};
use escpos_test_receipts::{A, B, S, SENT, have_lines};

// Mark 0, and A, B and S with their closing marks.
const MARK_0_A_B_S: &[u8] =
    b"\x1D(H\x06\x00000000\x1B@A\n\x1D(H\x06\x00000001\x1B@B\n\x1D(H\x06\x00000002\x1B@Hi\n\x1D(H\x06\x00000003";

const MARK_NUMBERS: &[Step] = &[
    Step::LinkUp,
    Step::Out(b"\x1D(H\x06\x000041Z2"),
    Step::Nudge(Err(HostError::MarksUsedUp)),
    Step::Hear(b"\x37\x2241Z2\x00", Event::Opened),
    Step::NoSubmit(S, HostError::MarksUsedUp),
    Step::NoLink(HostError::AlreadyUp),
];

#[test]
fn mark_numbers(rt: HostRuntime) {
    plays(&rt, rt.alloc(), 4_294_967_294, MARK_NUMBERS);
}

const HEARD_1: &[Step] = &[
    Step::LinkUp,
    Step::HearSome(b"\x37\x220000\x00\x12", 7, Event::Opened),
    Step::Hear(b"\x12", Event::Status(0x12)),
    Step::Ask(1, Ok(())),
    Step::Out(b"\x1D(H\x06\x00000000\x10\x04\x01"),
    Step::Submit(S),
    Step::Hear(ANSWER_0, Event::None),
    Step::Is(HostState::Sending),
];

const HEARD_2: &[Step] = &[Step::GiveUp(b"\x37\x23", 1)];

const HEARD_3: &[Step] = &[Step::GiveUp(b"\x13", 0)];

const HEARD_4: &[Step] = &[
    Step::LinkUp,
    Step::Hear(b"\x37\x220", Event::None),
    Step::Hear(b"000\x00", Event::Opened),
    Step::Is(HostState::Ready),
];

#[test]
fn heard(rt: HostRuntime) {
    plays(&rt, rt.alloc(), 0, HEARD_1);
    plays(&rt, rt.alloc(), 0, HEARD_2);
    plays(&rt, rt.alloc(), 0, HEARD_3);
    plays(&rt, rt.alloc(), 0, HEARD_4);
}

const BUSY_HOST: &[Step] = &[
    Step::LinkUp,
    Step::NoSubmit(S, HostError::NotReady),
    Step::Hear(ANSWER_0, Event::Opened),
    Step::Submit(S),
    Step::Ask(1, Err(HostError::NotReady)),
    Step::NoLink(HostError::AlreadyUp),
    Step::Is(HostState::Sending),
];

#[test]
fn busy_host(rt: HostRuntime) {
    plays(&rt, rt.alloc(), 0, BUSY_HOST);
}

const LEFT_RECEIPT_1: &[Step] = &[
    Step::Open,
    Step::Submit(S),
    Step::LinkDown,
    Step::Is(HostState::Down),
    Step::Left(b"Hi"),
    Step::NoneLeft,
];

const LEFT_RECEIPT_2: &[Step] = &[
    Step::Open,
    Step::Submit(S),
    Step::LinkDown,
    Step::Is(HostState::Down),
    Step::LinkUp,
    Step::LinkDown,
    Step::LinkUp,
    Step::Hear(ANSWER_3, Event::Opened),
    Step::Submit(A),
    Step::Left(b"Hi"),
    Step::NoneLeft,
    Step::Is(HostState::Sending),
    Step::LinkDown,
    Step::Left(b"A"),
    Step::NoneLeft,
];

const LEFT_RECEIPT_3: &[Step] = &[
    Step::Open,
    Step::Submit(S),
    Step::LinkDown,
    Step::Is(HostState::Down),
    Step::LinkUp,
    Step::Hear(ANSWER_2, Event::Opened),
    Step::Submit(A),
    Step::LinkDown,
    Step::Left(b"A"),
    Step::NoneLeft,
    Step::LinkUp,
    Step::Hear(ANSWER_4, Event::Opened),
    Step::LinkDown,
    Step::NoneLeft,
];

// A receipt that is left stays over the next link, until a link that was open is gone. What is in flight when an open link is lost
// takes the place of what was left before.
#[test]
fn left_receipt(rt: HostRuntime) {
    plays(&rt, rt.alloc(), 0, LEFT_RECEIPT_1);
    plays(&rt, rt.alloc(), 0, LEFT_RECEIPT_2);
    plays(&rt, rt.alloc(), 0, LEFT_RECEIPT_3);
}

const FOREIGN_MARK: &[Step] = &[
    Step::LinkUp,
    Step::HearLate(ANSWER_1, *b"0001"),
    Step::Is(HostState::Opening),
];

#[test]
fn foreign_mark(rt: HostRuntime) {
    plays(&rt, rt.alloc(), 0, FOREIGN_MARK);
}

const ANSWER_BEFORE_BYTES_1: &[Step] = &[
    Step::HasOut(false),
    Step::Open,
    Step::Submit(S),
    Step::Hear(ANSWER_1, Event::Recorded(0)),
    Step::Is(HostState::Ready),
    Step::HasOut(true),
    Step::Records(&[b"Hi"]),
    Step::Out(SENT),
    Step::Records(&[b"Hi"]),
];

const ANSWER_BEFORE_BYTES_2: &[Step] = &[
    Step::HasOut(false),
    Step::Open,
    Step::Submit(S),
    Step::Hear(ANSWER_1, Event::Recorded(0)),
    Step::Is(HostState::Ready),
    Step::HasOut(true),
    Step::Records(&[b"Hi"]),
    Step::OutByteByByte(SENT),
];

// A receipt is recorded before any of its bytes is taken out.
#[test]
fn answer_before_bytes(rt: HostRuntime) {
    assert!(&rt; SENT.len() == 27);
    plays(&rt, rt.alloc(), 0, ANSWER_BEFORE_BYTES_1);
    plays(&rt, rt.alloc(), 0, ANSWER_BEFORE_BYTES_2);
}

// With a receipt in flight, a piece fits no answer.
#[test]
fn bad_answers(rt: HostRuntime) {
    let rows: [(&[u8], usize); 3] = [(b"\x39", 0), (b"\x37\x22\x1F", 2), (b"\x37\x220000\x01", 6)];
    for (piece, at) in rows {
        let steps = [
            Step::Open,
            Step::Submit(S),
            Step::BadAnswer(piece, at),
            Step::Left(b"Hi"),
            Step::NoneLeft,
        ];
        plays(&rt, rt.alloc(), 0, &steps);
    }
}

const OUT_OF_TURN: &[Step] = &[
    Step::Open,
    Step::Submit(A),
    Step::Submit(B),
    Step::Hear(ANSWER_2, Event::Recorded(1)),
    Step::Is(HostState::Ready),
    Step::Records(&[b"A", b"B"]),
    Step::Hear(ANSWER_1, Event::None),
    Step::NoneLeft,
];

#[test]
fn out_of_turn(rt: HostRuntime) {
    plays(&rt, rt.alloc(), 0, OUT_OF_TURN);
}

const TWO_OF_THREE: &[Step] = &[
    Step::Open,
    Step::Submit(A),
    Step::Submit(B),
    Step::Submit(S),
    Step::Hear(ANSWER_2, Event::Recorded(1)),
    Step::Is(HostState::Sending),
    Step::Records(&[b"A", b"B"]),
    Step::Out(MARK_0_A_B_S),
    Step::Hear(ANSWER_3, Event::Recorded(2)),
    Step::Records(&[b"A", b"B", b"Hi"]),
];

// Of three in flight the answer to the second one's mark records two; the third stays in flight.
#[test]
fn two_of_three(rt: HostRuntime) {
    plays(&rt, rt.alloc(), 0, TWO_OF_THREE);
}

const RECORDS_OF_TWO: &[Step] = &[
    Step::Open,
    Step::Submit(A),
    Step::Submit(B),
    Step::HearSome(b"\x37\x220001\x00\x37\x220002\x00", 7, Event::Recorded(0)),
    Step::Is(HostState::Sending),
    Step::Hear(ANSWER_2, Event::Recorded(1)),
    Step::Is(HostState::Ready),
];

#[test]
fn records_of_two(rt: HostRuntime) {
    let records = records_of(&rt, rt.alloc(), RECORDS_OF_TWO);
    assert!(&rt; have_lines(&records, &[b"A", b"B"]));
}

const FIFTH_SUBMIT: &[Step] = &[
    Step::Open,
    Step::Submit(A),
    Step::Submit(A),
    Step::Submit(A),
    Step::Submit(A),
    Step::NextMark(5),
    Step::NoSubmit(B, HostError::InFlightFull),
    Step::Is(HostState::Sending),
    Step::NextMark(5),
];

#[test]
fn fifth_submit(rt: HostRuntime) {
    plays(&rt, rt.alloc(), 0, FIFTH_SUBMIT);
}

const RESUME: &[Step] = &[
    Step::Records(&[b"A"]),
    Step::NextMark(5),
    Step::Is(HostState::Down),
    Step::LinkUp,
    Step::Hear(ANSWER_5, Event::Opened),
    Step::Submit(B),
    Step::Hear(ANSWER_6, Event::Recorded(1)),
    Step::Records(&[b"A", b"B"]),
];

#[test]
fn resume(rt: HostRuntime) {
    plays_resumed(&rt, rt.alloc(), (5, 0), &[A], RESUME);
}

#[test]
fn host_errors(rt: HostRuntime) {
    for (error, number) in [
        (HostError::NotReady, 1),
        (HostError::MarksUsedUp, 2),
        (HostError::AlreadyUp, 3),
        (HostError::Memory, 4),
        (HostError::InFlightFull, 6),
    ] {
        assert!(&rt; error.number() == number, "{error:?}");
    }
}

const NUDGE: &[Step] = &[
    Step::LinkUp,
    Step::Nudge(Ok(())),
    Step::Nudge(Ok(())),
    Step::Is(HostState::Opening),
    Step::NextMark(3),
    Step::Out(b"\x1D(H\x06\x00000000\x1D(H\x06\x00000001\x1D(H\x06\x00000002"),
    Step::Hear(ANSWER_1, Event::Opened),
    Step::Hear(ANSWER_2, Event::None),
    Step::Is(HostState::Ready),
];

// While none is answered, more opening marks are put out, and each of them opens.
#[test]
fn nudge(rt: HostRuntime) {
    plays(&rt, rt.alloc(), 0, NUDGE);
}

const ASK: &[Step] = &[
    Step::Open,
    Step::Ask(1, Ok(())),
    Step::Ask(2, Ok(())),
    Step::Ask(3, Ok(())),
    Step::Ask(4, Ok(())),
    Step::Out(b"\x1D(H\x06\x00000000\x10\x04\x01\x10\x04\x02\x10\x04\x03\x10\x04\x04"),
];

// Each kind of status is asked for.
#[test]
fn ask(rt: HostRuntime) {
    plays(&rt, rt.alloc(), 0, ASK);
}

const REPORTS_1: &[Step] = &[
    Step::AskReports(Err(HostError::NotReady)),
    Step::OpenReporting(2, Ok(())),
    Step::LinkUpReporting(Err(HostError::AlreadyUp)),
    Step::AskReports(Err(HostError::NotReady)),
    Step::Out(b"\x1Da\x0E\x1D(H\x06\x00000000\x1D(H\x06\x00000001"),
    Step::HearBlock(b"\x10\x00\x00\x00", 4, [0x10, 0x00, 0x00, 0x00]),
    Step::Hear(ANSWER_0, Event::Opened),
    Step::AskReports(Ok(())),
    Step::Out(b"\x1Da\x0E"),
    Step::Submit(S),
    Step::AskReports(Err(HostError::NotReady)),
    Step::HearBlock(b"\x18\x00\x0C\x00", 4, [0x18, 0x00, 0x0C, 0x00]),
    Step::Hear(ANSWER_2, Event::Recorded(0)),
];

const REPORTS_2: &[Step] = &[
    Step::LinkUpReporting(Err(HostError::MarksUsedUp)),
    Step::OpenReporting(1, Err(HostError::MarksUsedUp)),
];

const REPORTS_3: &[Step] = &[
    Step::OpenReporting(0, Ok(())),
    Step::Out(b"\x1Da\x0E\x1D(H\x06\x00000007"),
];

// The printer is asked to tell its condition unasked, before the first opening mark, and while no receipt is in flight. A block is heard
// in each phase.
#[test]
fn reports(rt: HostRuntime) {
    plays(&rt, rt.alloc(), 0, REPORTS_1);
    plays(&rt, rt.alloc(), 4_294_967_295, REPORTS_2);
    plays(&rt, rt.alloc(), 7, REPORTS_3);
}

const ASK_IN_EACH_STATE: &[Step] = &[
    Step::Ask(2, Err(HostError::NotReady)),
    Step::HasOut(false),
    Step::LinkUp,
    Step::Ask(2, Err(HostError::NotReady)),
    Step::Hear(ANSWER_0, Event::Opened),
    Step::Ask(2, Ok(())),
    Step::Out(b"\x1D(H\x06\x00000000\x10\x04\x02"),
    Step::Ask(2, Ok(())),
    Step::Out(b"\x10\x04\x02"),
    Step::Submit(S),
    Step::Ask(2, Err(HostError::NotReady)),
    Step::Out(b"\x1B@Hi\n\x1D(H\x06\x00000001"),
    Step::Ask(2, Err(HostError::NotReady)),
    Step::HasOut(false),
    Step::Hear(ANSWER_1, Event::Recorded(0)),
    Step::Ask(2, Ok(())),
    Step::Out(b"\x10\x04\x02"),
    Step::LinkDown,
    Step::Ask(2, Err(HostError::NotReady)),
    Step::HasOut(false),
];

// A status is asked for in each state. Down and opening, nothing is put out; ready, a request is, after what there is to take
// out. With a receipt in flight no request is put out, before its bytes are taken out or after; with a record one is, until the
// link goes down.
#[test]
fn ask_in_each_state(rt: HostRuntime) {
    plays(&rt, rt.alloc(), 0, ASK_IN_EACH_STATE);
}

// Two values are equal only where they are the same, and are shown by name.
#[test]
fn events_and_errors(rt: HostRuntime) {
    assert!(&rt; HostError::NotReady != HostError::Memory);
    assert!(&rt; HostState::Down != HostState::Ready);
    let heard = Heard {
        consumed: 1,
        event: HostEvent::None,
    };
    assert!(&rt;
        heard
            != Heard {
                consumed: 2,
                event: HostEvent::None
            }
    );
    assert!(&rt; HostEvent::Recorded(0) != HostEvent::Recorded(1));
    let event = HostEvent::Recorded(3).clone().expect(&rt, "memory");
    assert!(&rt; event == HostEvent::Recorded(3));
    is_shown_as(&rt, rt.alloc(), &HostState::Opening, "Opening");
    is_shown_as(&rt, rt.alloc(), &HostError::InFlightFull, "InFlightFull");
}

const BEGUN_RECEIPT: &[Step] = &[
    Step::Open,
    Step::Out(b"\x1D(H\x06\x00000000"),
    Step::Submit(A),
    Step::FirstOut(b"\x1B@A"),
    Step::Submit(B),
    Step::Submit(B),
    Step::Submit(B),
];

// With a receipt begun, three more are put out after it.
#[test]
fn begun_receipt(rt: HostRuntime) {
    plays(&rt, rt.alloc(), 0, BEGUN_RECEIPT);
}
