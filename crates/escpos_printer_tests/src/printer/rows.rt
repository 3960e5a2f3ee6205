//! The worked rows of the printer.

use crate::support::marks::{MARKS, mark, push_bytes, push_mark};
use crate::support::printers::{
    NEAR_END, ONLINE, OPEN, RECEIPT, REQUESTS, Step, condition_of, plays,
};
use escpos_command::{Answer, FaultReason};
use escpos_printer::{Condition, Fed, FeedStop};
use escpos_test_values::unlike;
use std::alloc::Global;
use std::process::Abort;

// Cover open, near end and paper ended, in each combination, and the answers to the four requests.
const STATUSES: [([bool; 3], [u8; 4]); 8] = [
    ([false, false, false], [0x12, 0x12, 0x12, 0x12]),
    ([true, false, false], [0x1A, 0x16, 0x12, 0x12]),
    ([false, true, false], [0x12, 0x12, 0x12, 0x1E]),
    ([true, true, false], [0x1A, 0x16, 0x12, 0x1E]),
    ([false, false, true], [0x1A, 0x32, 0x12, 0x72]),
    ([true, false, true], [0x1A, 0x36, 0x12, 0x72]),
    ([false, true, true], [0x1A, 0x32, 0x12, 0x7E]),
    ([true, true, true], [0x1A, 0x36, 0x12, 0x7E]),
];

#[test]
fn status_answers(rt: HostRuntime) {
    for (sensors, [first, second, third, fourth]) in STATUSES {
        let condition = condition_of(sensors);
        let steps = [
            Step::Says(condition),
            Step::Feed(REQUESTS),
            Step::Status(first),
            Step::Status(second),
            Step::Status(third),
            Step::Status(fourth),
            Step::NoAnswer,
        ];
        plays(&rt, rt.alloc(), condition, &steps);
    }
}

const OFFLINE: &[Step] = &[
    Step::Online(false),
    Step::Offline(b"A\x10\x04\x01", 0),
    Step::Offline(b"\x1BE\x01", 2),
    Step::Half(2),
    Step::Set(ONLINE),
    Step::Online(true),
    Step::Feed(b"\x01"),
    Step::Half(0),
];

#[test]
fn offline(rt: HostRuntime) {
    plays(&rt, rt.alloc(), OPEN, OFFLINE);
}

// The bytes before the dots of a raster of one byte by 30 rows.
const RASTER: &[u8] = b"\x1Dv0\x00\x01\x00\x1E\x00";

const THREE_MARKS: &[u8] = b"\x1D(H\x06\x00000000\x1D(H\x06\x00000001\x1D(H\x06\x00000002";

const LOST_RASTER_BYTES: &[Step] = &[
    Step::Feed(RASTER),
    Step::Feed(&[0x55; 16]),
    Step::Fault(THREE_MARKS, 14, FaultReason::UnknownByte),
    Step::Feed(b"\x1D(H\x06\x00000003"),
    Step::Mark(3),
    Step::NoAnswer,
];

// Dots that lack: the first bytes of three marks are taken for dots, and what is left of them lies on paper as text. Where they
// end within the second mark its next byte is refused, and the fourth mark, fed alone, is answered.
#[test]
fn lost_raster_bytes(rt: HostRuntime) {
    let rows: [(&[u8], &[u8]); 2] = [(&[0x55; 8], b""), (&[0x55; 10], b"01")];
    for (dots, left) in rows {
        let steps = [
            Step::Feed(RASTER),
            Step::Feed(dots),
            Step::Feed(THREE_MARKS),
            Step::Mark(2),
            Step::NoAnswer,
            Step::Items(1),
            Step::Feed(b"\n"),
            Step::RasterAndText(left),
        ];
        plays(&rt, rt.alloc(), ONLINE, &steps);
    }
    plays(&rt, rt.alloc(), ONLINE, LOST_RASTER_BYTES);
}

// The last byte of the seventeenth mark waits for an answer to be taken, online.
#[test]
fn sixteen_waiting(rt: HostRuntime) {
    let last = b"G";
    let steps = [
        Step::Full(&MARKS[..187], 186),
        Step::Waiting(16),
        Step::Set(OPEN),
        Step::Offline(last, 0),
        Step::Set(ONLINE),
        Step::Full(last, 0),
        Step::Mark(0),
        Step::Feed(last),
        Step::Marks(1, 17),
        Step::Waiting(0),
    ];
    plays(&rt, rt.alloc(), ONLINE, &steps);
}

const AUTOMATIC_STATUS: &[Step] = &[
    Step::Feed(b"\x1Da\x0E"),
    Step::Block([0x10, 0x00, 0x00, 0x00]),
    Step::NoAnswer,
    Step::Set(ONLINE),
    Step::NoAnswer,
    // cover open, near end and paper ended, in each combination, and the block that tells it
    Step::Tells([true, false, false], [0x38, 0x00, 0x00, 0x00]),
    Step::Tells([false, true, false], [0x10, 0x00, 0x03, 0x00]),
    Step::Tells([true, true, false], [0x38, 0x00, 0x03, 0x00]),
    Step::Tells([false, false, true], [0x18, 0x00, 0x0C, 0x00]),
    Step::Tells([true, false, true], [0x38, 0x00, 0x0C, 0x00]),
    Step::Tells([false, true, true], [0x18, 0x00, 0x0F, 0x00]),
    Step::Tells([true, true, true], [0x38, 0x00, 0x0F, 0x00]),
];

// Switched on online, the printer tells each condition once it changes, and not where it stays.
#[test]
fn automatic_status(rt: HostRuntime) {
    plays(&rt, rt.alloc(), ONLINE, AUTOMATIC_STATUS);
}

const ONE_BLOCK_WAITS: &[Step] = &[
    Step::Feed(b"\x1D(H\x06\x00000000"),
    Step::Feed(b"\x1Da\x01"),
    Step::Feed(b"\x1D(H\x06\x00000001"),
    Step::Set(NEAR_END),
    Step::Set(OPEN),
    Step::Waiting(3),
    Step::Mark(0),
    Step::Block([0x38, 0x00, 0x00, 0x00]),
    Step::Mark(1),
    Step::NoAnswer,
];

// A condition that changes twice before an answer is taken: one block, the newer, where the first stood.
#[test]
fn one_block_waits(rt: HostRuntime) {
    plays(&rt, rt.alloc(), ONLINE, ONE_BLOCK_WAITS);
}

const AUTOMATIC_STATUS_OFF: &[Step] = &[
    Step::Feed(b"\x1Da\x01\x1Da\x00"),
    Step::Set(NEAR_END),
    Step::Block([0x10, 0x00, 0x00, 0x00]),
    Step::NoAnswer,
    Step::Feed(b"\x1Da\xFF\x1B@"),
    Step::Block([0x10, 0x00, 0x03, 0x00]),
    Step::Set(ONLINE),
    Step::Waiting(1),
    Step::Restart,
    Step::Waiting(0),
    Step::Set(NEAR_END),
    Step::NoAnswer,
];

// n = 0 and a restart switch automatic status off, and ESC @ doesn't. A block that waits stays, but not at a restart.
#[test]
fn automatic_status_off(rt: HostRuntime) {
    plays(&rt, rt.alloc(), ONLINE, AUTOMATIC_STATUS_OFF);
}

// While 16 marks wait, GS a is taken, as often as it comes, and no further mark is.
#[test]
fn sixteen_and_a_block(rt: HostRuntime) {
    let steps = [
        Step::Feed(&MARKS[..176]),
        Step::Waiting(16),
        Step::Feed(b"\x1Da\x01\x1Da\x02"),
        Step::Waiting(17),
        Step::Full(b"\x1D(H\x06\x0000000G", 10),
        Step::Set(NEAR_END),
        Step::Waiting(17),
        Step::Marks(0, 16),
        Step::Block([0x10, 0x00, 0x03, 0x00]),
        Step::NoAnswer,
    ];
    plays(&rt, rt.alloc(), ONLINE, &steps);
}

// Fifteen marks and a block before them: one more answer has room, and then none.
#[test]
fn fifteen_and_a_block(rt: HostRuntime) {
    let steps = [
        Step::Feed(b"\x1Da\x01"),
        Step::Feed(&MARKS[..165]),
        Step::Waiting(16),
        Step::Full(b"\x10\x04\x01\x10\x04\x01", 5),
        Step::Waiting(17),
        Step::Block([0x10, 0x00, 0x00, 0x00]),
        Step::Full(b"\x01", 0),
        Step::Mark(0),
        Step::Feed(b"\x01"),
        Step::Waiting(16),
    ];
    plays(&rt, rt.alloc(), ONLINE, &steps);
}

const AUTOMATIC_STATUS_OFFLINE: &[Step] = &[
    Step::Offline(b"\x1Da\x01", 2),
    Step::NoAnswer,
    Step::Set(ONLINE),
    Step::NoAnswer,
    Step::Feed(b"\x01"),
    Step::Block([0x10, 0x00, 0x00, 0x00]),
    Step::Set(OPEN),
    Step::Block([0x38, 0x00, 0x00, 0x00]),
];

// GS a isn't taken while the printer is offline; switched on before, it tells that it is offline.
#[test]
fn automatic_status_offline(rt: HostRuntime) {
    plays(&rt, rt.alloc(), OPEN, AUTOMATIC_STATUS_OFFLINE);
}

const HALF_BETWEEN_FEEDS: &[Step] = &[
    Step::Feed(b"\x1B!"),
    Step::Half(2),
    Step::Feed(b"\x08"),
    Step::Half(0),
];

#[test]
fn half_between_feeds(rt: HostRuntime) {
    plays(&rt, rt.alloc(), ONLINE, HALF_BETWEEN_FEEDS);
}

const RESTART_DROPS: &[Step] = &[
    Step::Feed(b"\x1D(H\x06\x00000000"),
    Step::Feed(b"A"),
    Step::Waiting(1),
    Step::Restart,
    Step::Waiting(0),
    Step::Feed(b"\n"),
    Step::Paper(b"feed 1\n"),
];

#[test]
fn restart_drops(rt: HostRuntime) {
    plays(&rt, rt.alloc(), ONLINE, RESTART_DROPS);
}

const PRINT: &[u8] = b"\x1D(k\x03\x001Q0";

const STORED_BETWEEN_FEEDS: &[Step] = &[
    Step::Feed(b"\x1D(k\x03\x001C\x08\x1D(k\x05\x00"),
    Step::Half(5),
    Step::Set(OPEN),
    Step::Offline(b"1P0AB", 4),
    Step::Set(ONLINE),
    Step::Feed(b"B"),
    Step::Feed(PRINT),
    Step::Paper(b"qr left 2 8 L AB\n"),
    Step::TearOff,
    Step::Feed(PRINT),
    Step::Paper(b"qr left 2 8 L AB\n"),
    Step::TearOff,
    Step::Restart,
    Step::Feed(b"\x1D(k\x03\x001Q0\x1D(k\x05\x001P0A"),
    Step::Items(0),
    Step::Half(9),
    Step::Restart,
    Step::Half(0),
    Step::Feed(PRINT),
    Step::Items(0),
    Step::Feed(b"\x1D(k\x04\x001P0C\x1D(k\x03\x001Q0"),
    Step::Paper(b"qr left 2 3 L C\n"),
];

// What is stored stays where the store came in pieces, while the printer is offline, and where paper is torn off. A restart
// forgets what is stored, and a half store.
#[test]
fn stored_between_feeds(rt: HostRuntime) {
    plays(&rt, rt.alloc(), ONLINE, STORED_BETWEEN_FEEDS);
}

const FAULTS_AND_WHAT_IS_STORED: &[Step] = &[
    Step::Feed(b"\x1D(k\x04\x001P0C"),
    Step::Fault(b"\x1D(k\x04\x001P1D", 7, FaultReason::BadParameter),
    Step::Feed(PRINT),
    Step::Paper(b"qr left 2 3 L C\n"),
];

// A store in which a byte is refused leaves what was stored before.
#[test]
fn faults_and_what_is_stored(rt: HostRuntime) {
    plays(&rt, rt.alloc(), ONLINE, FAULTS_AND_WHAT_IS_STORED);
}

const PULSE_CUT_OFF: &[Step] = &[
    Step::Fault(
        b"\x1Bp\x00\x1D(H\x06\x00000000",
        6,
        FaultReason::UnknownByte,
    ),
    Step::Feed(b"\x1D(H\x06\x00000001"),
    Step::Mark(1),
];

// A pulse that is cut off by a mark: the next mark is answered.
#[test]
fn pulse_cut_off(rt: HostRuntime) {
    plays(&rt, rt.alloc(), ONLINE, PULSE_CUT_OFF);
}

const ALLOCATIONS_FAIL_IN_FEED: &[Step] = &[
    Step::FeedLikeAnother(RECEIPT),
    Step::Items(9),
    Step::Status(0x12),
    Step::Mark(0),
    Step::Waiting(0),
];

// Where memory is refused, the printer is that of the bytes before, and takes the rest when it is fed again. Here each
// allocation succeeds: `rt try --test --fail-alloc N -- allocations_fail_in_feed` lets the Nth fail.
#[test]
fn allocations_fail_in_feed(rt: HostRuntime) {
    plays(&rt, rt.alloc(), ONLINE, ALLOCATIONS_FAIL_IN_FEED);
}

// 100,000 line feeds, a raster of 262,144 dots and a mark.
fn long_piece(rt: &impl Abort, alloc: Global) -> Vec<u8> {
    let mut piece = Vec::new(alloc);
    push_bytes(rt, &mut piece, &[0x0A; 100_000]);
    push_bytes(rt, &mut piece, b"\x1Dv0\x00\x80\x00\x00\x08");
    push_bytes(rt, &mut piece, &[0x55; 262_144]);
    push_mark(rt, &mut piece, 0);
    piece
}

// Memory that is there isn't said to be refused: not far into a piece, not after many items, not at a long command, and
// not in any condition.
#[test]
fn memory_that_is_there(rt: HostRuntime) {
    for (sensors, _) in STATUSES {
        let condition = condition_of(sensors);
        let steps = [
            Step::Feed(REQUESTS),
            Step::Feed(REQUESTS),
            Step::Feed(REQUESTS),
            Step::Feed(REQUESTS),
            Step::Waiting(16),
            Step::Says(condition),
        ];
        plays(&rt, rt.alloc(), condition, &steps);
    }
    let piece = long_piece(&rt, rt.alloc());
    let steps = [
        Step::Feed(&piece),
        Step::Items(100_001),
        Step::FeedByteByByte(&piece),
        Step::Items(200_002),
        Step::Feed(REQUESTS),
        Step::Waiting(6),
    ];
    plays(&rt, rt.alloc(), NEAR_END, &steps);
}

const STOPS: [FeedStop; 7] = [
    FeedStop::All,
    FeedStop::AnswersFull,
    FeedStop::Offline,
    FeedStop::Memory,
    FeedStop::Fault {
        at: 14,
        why: FaultReason::UnknownByte,
    },
    FeedStop::Fault {
        at: 15,
        why: FaultReason::UnknownByte,
    },
    FeedStop::Fault {
        at: 14,
        why: FaultReason::BadSize,
    },
];

// Values that differ aren't equal, and a clone is.
#[test]
fn unequal_values(rt: HostRuntime) {
    assert!(&rt; unlike(&STOPS) == None);
    let mut feds = Vec::new(rt.alloc());
    for consumed in [1, 2] {
        for stop in STOPS {
            feds.push(Fed { consumed, stop }).expect(&rt, "memory");
        }
    }
    assert!(&rt; unlike(&feds) == None);
    let ended = Condition {
        paper_end: true,
        ..ONLINE
    };
    let conditions = [ONLINE, OPEN, NEAR_END, ended];
    assert!(&rt; unlike(&conditions) == None);
    for condition in conditions {
        assert!(rt; condition.clone().expect(&rt, "memory") == condition);
    }
    let answers = [
        Answer::Status(0x12),
        Answer::Status(0x1A),
        mark(&rt, 0),
        mark(&rt, 1),
    ];
    assert!(&rt; unlike(&answers) == None);
}
