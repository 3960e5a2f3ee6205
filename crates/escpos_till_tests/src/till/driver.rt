//! The driver of a till's machine: how many things it does, and what it leaves where there is no link or the store fails.

use crate::support::driven::{Step, plays};
use crate::support::line::{ANSWERS_01, ANSWERS_23, Answers, SENT_AGAIN};
use crate::support::plain::{Call, Refused, Text, Told};
use escpos_host::SendFault;
use escpos_test_receipts::SENT;
use escpos_till::{Failure, Pause, ReceiptState};

const UNTRIED: ReceiptState = ReceiptState::Waiting { tried: 0 };

const ONCE: ReceiptState = ReceiptState::Waiting { tried: 1 };

const RECORDED: ReceiptState = ReceiptState::Recorded { place: 0 };

const DELIVER: Step = Step::Does(Call::Deliver(1));

// The answer to mark 0, and that to mark 1 in single bytes.
const IN_BYTES: Answers = &[
    b"\x37\x220000\x00",
    b"\x37",
    b"\x22",
    b"0",
    b"0",
    b"0",
    b"1",
    b"\x00",
];

// Between the answers to marks 0 and 1 a block says that the paper has ended, the same once more, and that it is in again.
const PAPER_IS_PUT_IN: Answers = &[
    b"\x37\x220000\x00",
    b"\x18\x00\x0C\x00",
    b"\x18\x00\x0C\x00",
    b"\x10\x00\x00\x00",
    b"\x37\x220001\x00",
];

// After the answer to mark 0 a block says that the cover is open; then the link ends.
const COVER_IS_OPENED: Answers = &[b"\x37\x220000\x00", b"\x38\x00\x00\x00"];

// The answer to mark 0 among statuses.
const AMONG_STATUSES: Answers = &[b"\x12\x12\x37\x220000\x00\x12\x12"];

const DRIVER_RECORDS: &[Step] = &[
    Step::Takes(Text::S, 1),
    Step::Answers(IN_BYTES),
    DELIVER,
    Step::TellsAfter(15, Told::Recorded(1)),
    Step::Sent(SENT),
    Step::Requests(2),
    Step::HangUps(1),
    Step::Has("qtr"),
    Step::Stand(&[RECORDED], 2),
];

// The answers come in one piece each, and in single bytes.
#[test]
fn driver_records(rt: HostRuntime) {
    plays(&rt, rt.alloc(), Failure::Never, DRIVER_RECORDS);
}

const DRIVER_TELLS_A_PAUSE: &[Step] = &[
    Step::Takes(Text::S, 1),
    Step::Answers(PAPER_IS_PUT_IN),
    DELIVER,
    Step::Pauses(Pause::PaperEnded),
    Step::PatientWaits(0),
    Step::Tells(Told::Recorded(1)),
    Step::PatientWaits(2),
    Step::Sent(SENT),
    Step::Stand(&[RECORDED], 2),
];

// Its paper ends while the receipt is printed, and is put in: the first is told, and until the second the printer is waited for with
// patience.
#[test]
fn driver_tells_a_pause(rt: HostRuntime) {
    plays(&rt, rt.alloc(), Failure::Never, DRIVER_TELLS_A_PAUSE);
}

const DRIVER_LOSES_A_PAUSED_PRINTER: &[Step] = &[
    Step::Takes(Text::S, 1),
    Step::Answers(COVER_IS_OPENED),
    DELIVER,
    Step::Pauses(Pause::CoverOpen),
    Step::Tells(Told::Waiting(1, SendFault::Ended)),
    Step::IsNotPaused,
    Step::Stand(&[ONCE], 2),
];

// Its cover is open, and then it ends the link: that is what is told.
#[test]
fn driver_loses_a_paused_printer(rt: HostRuntime) {
    plays(
        &rt,
        rt.alloc(),
        Failure::Never,
        DRIVER_LOSES_A_PAUSED_PRINTER,
    );
}

const DRIVER_HEARS_A_WHOLE_PIECE: &[Step] = &[
    Step::Takes(Text::S, 1),
    Step::Answers(AMONG_STATUSES),
    DELIVER,
    Step::TellsAfter(8, Told::Waiting(1, SendFault::Ended)),
    Step::Sent(SENT),
    Step::Stand(&[ONCE], 2),
];

// The answer to an opening mark comes among statuses, in one piece; then the answers end.
#[test]
fn driver_hears_a_whole_piece(rt: HostRuntime) {
    plays(&rt, rt.alloc(), Failure::Never, DRIVER_HEARS_A_WHOLE_PIECE);
}

const DRIVER_FINDS_NO_LINK: &[Step] = &[
    Step::Takes(Text::S, 1),
    Step::HasNoLink,
    Step::Answers(ANSWERS_01),
    DELIVER,
    Step::TellsAfter(2, Told::NoLink(1)),
    Step::HangUps(0),
    Step::Has("q"),
    Step::Stand(&[UNTRIED], 0),
];

#[test]
fn driver_finds_no_link(rt: HostRuntime) {
    plays(&rt, rt.alloc(), Failure::Never, DRIVER_FINDS_NO_LINK);
}

// A store that fails while a receipt is delivered, and what comes of that: so many things are done, and the link is given up with this put
// on it; the machine refuses all. A machine that is opened again delivers the receipt if it waits.
const FAILING_STORES: [(Failure, &[Step]); 4] = [
    // where the receipt is to be tried, before that is kept
    (
        Failure::BeforeKeeping { calls: 1 },
        &[
            Step::Takes(Text::S, 1),
            Step::Answers(ANSWERS_01),
            DELIVER,
            Step::TellsAfter(4, Told::NotKept),
            Step::Sent(b""),
            Step::HangUps(1),
            Step::RefusesAll,
            Step::OpensAgain,
            Step::Stand(&[UNTRIED], 0),
            Step::Delivers(ANSWERS_01, Told::Recorded(1), SENT),
            Step::Stand(&[RECORDED], 2),
        ],
    ),
    // and after
    (
        Failure::AfterKeeping { calls: 1 },
        &[
            Step::Takes(Text::S, 1),
            Step::Answers(ANSWERS_01),
            DELIVER,
            Step::TellsAfter(4, Told::NotKept),
            Step::Sent(b""),
            Step::HangUps(1),
            Step::RefusesAll,
            Step::OpensAgain,
            Step::Stand(&[ONCE], 2),
            Step::Delivers(ANSWERS_23, Told::Recorded(1), SENT_AGAIN),
            Step::Stand(&[RECORDED], 4),
        ],
    ),
    // where it is to be recorded, before that is kept
    (
        Failure::BeforeKeeping { calls: 2 },
        &[
            Step::Takes(Text::S, 1),
            Step::Answers(ANSWERS_01),
            DELIVER,
            Step::TellsAfter(9, Told::NotKept),
            Step::Sent(SENT),
            Step::HangUps(1),
            Step::RefusesAll,
            Step::OpensAgain,
            Step::Stand(&[ONCE], 2),
            Step::Delivers(ANSWERS_23, Told::Recorded(1), SENT_AGAIN),
            Step::Stand(&[RECORDED], 4),
        ],
    ),
    // and after
    (
        Failure::AfterKeeping { calls: 2 },
        &[
            Step::Takes(Text::S, 1),
            Step::Answers(ANSWERS_01),
            DELIVER,
            Step::TellsAfter(9, Told::NotKept),
            Step::Sent(SENT),
            Step::HangUps(1),
            Step::RefusesAll,
            Step::OpensAgain,
            Step::Stand(&[RECORDED], 2),
            Step::Refuses(Call::Deliver(1), Refused::NothingWaits),
        ],
    ),
];

#[test]
fn driver_fails(rt: HostRuntime) {
    for (failure, steps) in &FAILING_STORES {
        plays(&rt, rt.alloc(), *failure, steps);
    }
}
