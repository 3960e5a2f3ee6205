//! Marks that are counted on: their ids come round.

use crate::support::hosts::{Event, Step, plays, plays_resumed};
use escpos_host::{HostError, HostState};
use escpos_test_receipts::{A, B, S};

const OVER_THE_EDGE_1: &[Step] = &[
    Step::LinkUp,
    Step::Nudge(Ok(())),
    Step::OldestMark(1_679_614),
    Step::Hear(b"\x37\x22ZZZZ\x00", Event::Opened),
    Step::OldestMark(1_679_616),
    Step::Submit(A),
    Step::Submit(B),
    Step::Out(
        b"\x1D(H\x06\x0000ZZZY\x1D(H\x06\x0000ZZZZ\x1B@A\n\x1D(H\x06\x00000000\x1B@B\n\x1D(H\x06\x00000001",
    ),
    Step::Hear(b"\x37\x220000\x00", Event::Recorded(0)),
    Step::OldestMark(1_679_617),
    Step::Hear(b"\x37\x220001\x00", Event::Recorded(1)),
    Step::OldestMark(1_679_618),
    Step::NextMark(1_679_618),
];

const OVER_THE_EDGE_2: &[Step] = &[
    Step::LinkUp,
    Step::Hear(b"\x37\x22ZZZY\x00", Event::Opened),
    Step::Submit(A),
    Step::Submit(B),
    Step::Submit(S),
    Step::LinkDown,
    Step::LinkUp,
    Step::NextMark(1_679_619),
    Step::HearLate(b"\x37\x22ZZZY\x00", *b"ZZZY"),
    Step::OldestMark(1_679_615),
    Step::Hear(b"\x37\x220000\x00", Event::Recorded(1)),
    Step::OldestMark(1_679_617),
    Step::Records(&[b"A", b"B"]),
    Step::HearLate(b"\x37\x22ZZZZ\x00", *b"ZZZZ"),
    Step::OldestMark(1_679_617),
    Step::Hear(b"\x37\x220001\x00", Event::Recorded(2)),
    Step::OldestMark(1_679_618),
    Step::Hear(b"\x37\x220002\x00", Event::Opened),
    Step::OldestMark(1_679_619),
    Step::Records(&[b"A", b"B", b"Hi"]),
    Step::NoneLeft,
];

const OVER_THE_EDGE_3: &[Step] = &[
    Step::LinkUp,
    Step::Nudge(Ok(())),
    Step::Nudge(Ok(())),
    Step::Nudge(Ok(())),
    Step::Nudge(Ok(())),
    Step::Nudge(Ok(())),
    Step::LinkDown,
    Step::LinkUp,
    Step::HearLate(b"\x37\x220002\x00", *b"0002"),
    Step::OldestMark(1_679_619),
    Step::HearLate(b"\x37\x22ZZZZ\x00", *b"ZZZZ"),
    Step::OldestMark(1_679_619),
    Step::BadAnswer(b"\x37\x22\x12", 2),
    Step::OldestMark(1_679_619),
];

// The numbers 1,679,614 to 1,679,617 have the ids ZZZY, ZZZZ, 0000 and 0001. The first answer opens the link, and the others are
// heard of receipts. Receipts that are left over the edge are recorded by late answers: A is closed by ZZZZ, B by 0000, and S by
// 0001. Of marks of a link that was given up without an answer to it, an answer that comes while the next one is opened says which
// are out.
#[test]
fn over_the_edge(rt: HostRuntime) {
    plays(&rt, rt.alloc(), 1_679_614, OVER_THE_EDGE_1);
    plays(&rt, rt.alloc(), 1_679_614, OVER_THE_EDGE_2);
    plays(&rt, rt.alloc(), 1_679_614, OVER_THE_EDGE_3);
}

const STATUSES_1: &[Step] = &[
    Step::LinkUp,
    Step::Hear(b"\x12", Event::Status(0x12)),
    Step::OldestMark(1_679_610),
    Step::Hear(b"\x37\x22ZZZU\x00", Event::Opened),
    Step::Hear(b"\x12", Event::Status(0x12)),
    Step::Hear(b"\x37\x22ZZZU\x00", Event::None),
    Step::OldestMark(1_679_611),
];

const STATUSES_2: &[Step] = &[Step::GiveUp(b"\x37\x23", 1), Step::OldestMark(1_679_610)];

// An answer with a status says nothing of marks.
#[test]
fn statuses(rt: HostRuntime) {
    plays(&rt, rt.alloc(), 1_679_610, STATUSES_1);
    plays(&rt, rt.alloc(), 1_679_610, STATUSES_2);
}

const GREATEST_NUMBER: &[Step] = &[
    Step::LinkUp,
    Step::Out(b"\x1D(H\x06\x000041WG"),
    Step::NudgeUpTo(4_294_967_201, 4_294_967_295),
    Step::MarksLeft(0),
    Step::Nudge(Err(HostError::MarksUsedUp)),
    Step::Hear(b"\x37\x2241Z2\x00", Event::Opened),
    Step::OldestMark(4_294_967_295),
    Step::MarksLeft(0),
    Step::NoSubmit(S, HostError::MarksUsedUp),
];

// The greatest number is never used, and all before it are.
#[test]
fn greatest_number(rt: HostRuntime) {
    plays(&rt, rt.alloc(), 4_294_967_200, GREATEST_NUMBER);
}

const NONE_IS_LEFT: &[Step] = &[
    Step::LinkUp,
    Step::NudgeUntilAllAreOut,
    Step::MarksLeft(0),
    Step::Out(b"\x1D(H\x06\x00000004"),
    Step::NextMark(1_679_621),
    Step::Nudge(Err(HostError::MarksUsedUp)),
    Step::HasOut(false),
    Step::Hear(b"\x37\x220006\x00", Event::Opened),
    Step::OldestMark(7),
    Step::MarksLeft(2),
    Step::Submit(A),
    Step::Submit(B),
    Step::Out(b"\x1B@A\n\x1D(H\x06\x00000005\x1B@B\n\x1D(H\x06\x00000006"),
    Step::NoSubmit(S, HostError::MarksUsedUp),
    Step::Hear(b"\x37\x220005\x00", Event::Recorded(0)),
    Step::OldestMark(1_679_622),
    Step::MarksLeft(1_679_615),
    Step::Submit(S),
    Step::Out(b"\x1B@Hi\n\x1D(H\x06\x00000007"),
];

// As many marks as there are ids are put and not answered, and then no other one. Once one is answered, as many may be put as there
// were before it, and it.
#[test]
fn none_is_left(rt: HostRuntime) {
    plays(&rt, rt.alloc(), 5, NONE_IS_LEFT);
}

// A host that continues from an older one's records is told which of that one's marks may be answered.
#[test]
fn resumed(rt: HostRuntime) {
    let rows: [(u32, u32, u32, u32); 6] = [
        (1_679_620, 5, 5, 1),
        (1_679_620, 4, 4, 0),
        (1_679_620, 0, 0, 0),
        (1_679_620, 1_679_620, 1_679_620, 1_679_616),
        (7, 9, 7, 1_679_616),
        (4_294_967_294, 4_294_967_290, 4_294_967_290, 1),
    ];
    for (first, oldest, is_oldest, left) in rows {
        let steps = [
            Step::OldestMark(is_oldest),
            Step::MarksLeft(left),
            if left > 0 {
                Step::LinkUp
            } else {
                Step::NoLink(HostError::MarksUsedUp)
            },
        ];
        plays_resumed(&rt, rt.alloc(), (first, oldest), &[], &steps);
    }
}
