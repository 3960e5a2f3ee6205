//! The worked rows of `send_link`, over memory.

use crate::support::hosts::{ANSWER_0, Step, plays};
use crate::support::sending::{Link, NEVER, Room, Sending};
use escpos_host::{HostError, HostState, SendFault};
use escpos_test_receipts::{A, S, SENT, joined};
use std::alloc::Global;
use std::process::Abort;

// What is written of the marks 0, 1 and 2, the receipt S and mark 3.
const WRITTEN: [u8; 49] =
    *b"\x1D(H\x06\x00000000\x1D(H\x06\x00000001\x1D(H\x06\x00000002\x1B@Hi\n\x1D(H\x06\x00000003";

// The marks 0, 1 and 2.
const MARKS: &[u8] = b"\x1D(H\x06\x00000000\x1D(H\x06\x00000001\x1D(H\x06\x00000002";

// The answers to the marks 0 and 3.
const ANSWERS: [u8; 14] = *b"\x37\x220000\x00\x37\x220003\x00";

// The answers to the marks 0 and 3, each after a block, an answer to a mark that isn't of this link, and a status byte.
const OVERLOOKED: &[u8] =
    b"\x14\x00\x00\x0F\x37\x22000A\x00\x12\x37\x220000\x00\x18\x00\x0C\x0F\x37\x22000A\x00\x12\x37\x220003\x00";

// A link with these answers, of which a read gives seven bytes, and on which nothing fails.
fn link(answers: &[u8]) -> Link {
    Link {
        answers,
        most: 7,
        max_bytes: 100,
        room: Room::Whole(100),
        reads_fail: NEVER,
        writes_fail: NEVER,
    }
}

// What is to come of S with three opening marks: the number of its record, or why there is none; how many bytes of `WRITTEN`
// are written; and the number of the next mark.
type Wanted = (Result<usize, SendFault>, usize, u32);

const RECORDED: Wanted = (Ok(0), 49, 4);

// S, sent with three opening marks.
fn three_openings<'a>(link: Link<'a>, (wanted, count, _): Wanted) -> Sending<'a> {
    Sending {
        receipt: S,
        openings: 3,
        link,
        wanted,
        written: &WRITTEN[..count.min(49)],
    }
}

// A new host sends S with three opening marks.
fn sends_over(rt: &impl Abort, alloc: Global, link: Link, wanted: Wanted) {
    let (result, _, next) = wanted;
    let steps = [
        Step::Send(three_openings(link, wanted)),
        Step::NextMark(next),
        Step::IsRecorded(result.is_ok()),
    ];
    plays(rt, alloc, 0, &steps);
}

#[test]
pub fn send_link(rt: HostRuntime) {
    sends_over(&rt, rt.alloc(), link(&ANSWERS), RECORDED);
    sends_over(&rt, rt.alloc(), link(OVERLOOKED), RECORDED);
    let ended = (Err(SendFault::Ended), 33, 3);
    sends_over(&rt, rt.alloc(), link(b""), ended);
    // the end is found by one read, and no other follows it
    let sending = three_openings(link(b""), ended);
    plays(&rt, rt.alloc(), 0, &[Step::SendInReads(sending, 1)]);
}

#[test]
fn send_faults(rt: HostRuntime) {
    let rows: [(u64, u64, Wanted); 6] = [
        (1, NEVER, (Err(SendFault::ReadFault), 33, 3)),
        (2, NEVER, (Err(SendFault::ReadFault), 49, 4)),
        (3, NEVER, RECORDED),
        (NEVER, 1, (Err(SendFault::WriteFault), 0, 3)),
        (NEVER, 2, (Err(SendFault::WriteFault), 33, 4)),
        (NEVER, 3, RECORDED),
    ];
    for (reads_fail, writes_fail, wanted) in rows {
        let failing = Link {
            reads_fail,
            writes_fail,
            ..link(&ANSWERS)
        };
        sends_over(&rt, rt.alloc(), failing, wanted);
    }
}

// A read or a write fails at each place in turn. Nothing is read before the opening marks are written.
#[test]
fn send_faults_at_each_byte(rt: HostRuntime) {
    for reads_fail in 1..15 {
        let (count, next) = if reads_fail < 8 { (33, 3) } else { (49, 4) };
        let failing = Link {
            most: 1,
            reads_fail,
            ..link(&ANSWERS)
        };
        let wanted = (Err(SendFault::ReadFault), count, next);
        sends_over(&rt, rt.alloc(), failing, wanted);
    }
    for size in 0..49 {
        let (next, pulls) = if size < 33 { (3, 0) } else { (4, 1) };
        let short = Link {
            room: Room::Whole(size),
            ..link(&ANSWERS)
        };
        let wanted = (Err(SendFault::WriteFault), size, next);
        let steps = [
            Step::SendInReads(three_openings(short, wanted), pulls),
            Step::NextMark(next),
            Step::IsRecorded(false),
        ];
        plays(&rt, rt.alloc(), 0, &steps);
    }
}

// The answer to mark 3 is ignored where it ends in the same piece as that to mark 0, and so before the receipt is submitted.
#[test]
fn early_answer(rt: HostRuntime) {
    let early = (Err(SendFault::Ended), 49, 4);
    for most in 1..15 {
        let wanted = if most < 14 { RECORDED } else { early };
        let pieces = Link {
            most,
            ..link(&ANSWERS)
        };
        sends_over(&rt, rt.alloc(), pieces, wanted);
    }
}

#[test]
fn send_one_byte_at_a_time(rt: HostRuntime) {
    let slow = Link {
        most: 1,
        room: Room::OneByOne(100),
        ..link(&ANSWERS)
    };
    sends_over(&rt, rt.alloc(), slow, RECORDED);
}

// So many bytes of answers may be read, and all of these are.
#[test]
fn send_too_long(rt: HostRuntime) {
    for max_bytes in 0..15u32 {
        let wanted = match max_bytes {
            0..7 => (Err(SendFault::TooLong), 33, 3),
            7..14 => (Err(SendFault::TooLong), 49, 4),
            _ => RECORDED,
        };
        for most in [7, 9] {
            stops_at(&rt, rt.alloc(), (max_bytes, most), wanted);
        }
    }
}

// So many bytes of answers may be read, of which a read gives at most `most`; what follows them is left.
fn stops_at(rt: &impl Abort, alloc: Global, (max_bytes, most): (u32, usize), wanted: Wanted) {
    let short = Link {
        most,
        max_bytes,
        ..link(&ANSWERS)
    };
    let (result, _, next) = wanted;
    let left = ANSWERS.get(max_bytes as usize..).expect(rt, "the rest");
    let pulls = u64::from(max_bytes) + 1;
    let steps = [
        Step::SendAndLeave(three_openings(short, wanted), pulls, left),
        Step::NextMark(next),
        Step::IsRecorded(result.is_ok()),
    ];
    plays(rt, alloc, 0, &steps);
}

const BAD_BEFORE: Wanted = (Err(SendFault::BadAnswer), 33, 3);

const BAD_AFTER: Wanted = (Err(SendFault::BadAnswer), 49, 4);

// Answers, how many bytes of them a read gives, and what is to come of them.
const ODD_ANSWERS: [(&[u8], usize, Wanted); 9] = [
    // a byte that fits no answer: before any answer, after the opening one in its piece, and after the receipt was put out
    (b"\x39", 64, BAD_BEFORE),
    (b"\x37\x220000\x00\x39", 64, BAD_BEFORE),
    (b"\x37\x220000\x00\x39", 7, BAD_AFTER),
    (b"\x37\x220000\x00\x37\x220003\x01", 7, BAD_AFTER),
    // the same in an answer that began in the piece of the opening one
    (b"\x37\x220000\x00\x37\x39", 9, BAD_BEFORE),
    (b"\x37\x220000\x00\x37\x39", 8, BAD_AFTER),
    // what follows the closing answer in its piece is dropped
    (b"\x12\x37\x220000\x00\x37\x220003\x00\x39", 8, RECORDED),
    // status bytes are passed over
    (b"\x12\x37\x220000\x00\x12\x37\x220003\x00\x12", 8, RECORDED),
    (b"\x12\x37\x220000\x00\x12\x37\x220003\x00\x12", 9, RECORDED),
];

#[test]
fn send_bad_answer(rt: HostRuntime) {
    for (answers, most, wanted) in &ODD_ANSWERS {
        let pieces = Link {
            most: *most,
            ..link(answers)
        };
        sends_over(&rt, rt.alloc(), pieces, *wanted);
    }
}

// A host that is up already is left as it was; and one whose marks are used up.
#[test]
fn refused_links(rt: HostRuntime) {
    let sending = Sending {
        receipt: S,
        openings: 3,
        link: link(ANSWER_0),
        wanted: Err(SendFault::Refused(HostError::AlreadyUp)),
        written: b"",
    };
    let steps = [
        Step::LinkUp,
        Step::SendInReads(sending, 0),
        Step::Is(HostState::Opening),
        Step::NextMark(1),
        Step::Out(b"\x1D(H\x06\x00000000"),
    ];
    plays(&rt, rt.alloc(), 0, &steps);
    // the number of the first mark, how many opening marks there are, how many reads are made, and what is written
    let rows: [(u32, u32, u64, &[u8]); 3] = [
        (4_294_967_295, 3, 0, b""),
        (4_294_967_294, 2, 0, b""),
        (4_294_967_294, 1, 1, b"\x1D(H\x06\x000041Z2"),
    ];
    for (first, openings, pulls, written) in rows {
        let sending = Sending {
            receipt: S,
            openings,
            link: link(b"\x37\x2241Z2\x00"),
            wanted: Err(SendFault::Refused(HostError::MarksUsedUp)),
            written,
        };
        let steps = [
            Step::SendInReads(sending, pulls),
            Step::NextMark(4_294_967_295),
            Step::IsRecorded(false),
        ];
        plays(&rt, rt.alloc(), first, &steps);
    }
}

// Five opening marks are five.
#[test]
fn send_five_openings(rt: HostRuntime) {
    let sending = Sending {
        receipt: S,
        openings: 5,
        link: link(b"\x37\x220000\x00\x37\x220005\x00"),
        wanted: Ok(0),
        written: b"\x1D(H\x06\x00000000\x1D(H\x06\x00000001\x1D(H\x06\x00000002\x1D(H\x06\x00000003\x1D(H\x06\x00000004\x1B@Hi\n\x1D(H\x06\x00000005",
    };
    let steps = [Step::SendInReads(sending, 2), Step::NextMark(6)];
    plays(&rt, rt.alloc(), 0, &steps);
}

// The bytes of a receipt with sixty times these digits go out, more than go out at a time.
#[test]
fn send_long_receipt(rt: HostRuntime) {
    let parts = ["[{\"line\":\"", "0123456789", "\"}]"];
    let text = joined(rt.alloc(), parts, 60).expect(&rt, "memory");
    let parts = [
        "\x1D(H\x06\x00000000\x1D(H\x06\x00000001\x1D(H\x06\x00000002\x1B@",
        "0123456789",
        "\n\x1D(H\x06\x00000003",
    ];
    let written = joined(rt.alloc(), parts, 60).expect(&rt, "memory");
    assert!(&rt; written.len() == 647);
    let long = Link {
        room: Room::Whole(700),
        ..link(&ANSWERS)
    };
    let sending = Sending {
        receipt: (&text, b""),
        openings: 3,
        link: long,
        wanted: Ok(0),
        written: &written,
    };
    plays(&rt, rt.alloc(), 0, &[Step::Send(sending)]);
}

// Two receipts, each over a link of its own. No opening marks count as one.
#[test]
fn send_twice(rt: HostRuntime) {
    let first = Sending {
        receipt: S,
        openings: 0,
        link: link(b"\x37\x220000\x00\x37\x220001\x00"),
        wanted: Ok(0),
        written: SENT,
    };
    let second = Sending {
        receipt: A,
        openings: 1,
        link: link(b"\x37\x220002\x00\x37\x220003\x00"),
        wanted: Ok(1),
        written: b"\x1D(H\x06\x00000002\x1B@A\n\x1D(H\x06\x00000003",
    };
    let steps = [
        Step::SendInReads(first, 2),
        Step::IsRecorded(true),
        Step::LinkDown,
        Step::SendInReads(second, 2),
        Step::Is(HostState::Ready),
        Step::Records(&[b"Hi", b"A"]),
        Step::NextMark(4),
    ];
    plays(&rt, rt.alloc(), 0, &steps);
}
