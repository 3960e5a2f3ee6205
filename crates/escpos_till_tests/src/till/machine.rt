//! The machine of a till, told by hand what came of what it asks for.

use crate::support::by_hand::{Step, plays};
use crate::support::plain::{Call, Plain, Refused, Text, Told};
use escpos_host::SendFault;
use escpos_till::{Pause, ReceiptState};
use std::alloc::Global;
use std::process::Abort;

const UNTRIED: ReceiptState = ReceiptState::Waiting { tried: 0 };

const ONCE: ReceiptState = ReceiptState::Waiting { tried: 1 };

const TWICE: ReceiptState = ReceiptState::Waiting { tried: 2 };

const RECORDED: ReceiptState = ReceiptState::Recorded { place: 0 };

// Mark 0, and S with mark 1: together they are what a host puts of both.
const MARK_0: &[u8] = b"\x1D(H\x06\x00000000";

const S_AND_MARK_1: &[u8] = b"\x1B@Hi\n\x1D(H\x06\x00000001";

const MARK_2: &[u8] = b"\x1D(H\x06\x00000002";

// The answers to marks 0 and 1.
const ANSWER_0: &[u8] = b"\x37\x220000\x00";

const ANSWER_1: &[u8] = b"\x37\x220001\x00";

const NOTHING_WAITS: Step = Step::Refuses(Call::Deliver(1), Refused::NothingWaits);

// The ledger of a new till.
const NO_ENTRIES: &[Plain] = &[];

const MACHINE_RECORDS: &[Step] = &[
    NOTHING_WAITS,
    Step::Takes(1),
    Step::Tries(2),
    Step::Puts(MARK_0),
    Step::Hears(100, ANSWER_0),
    Step::Puts(S_AND_MARK_1),
    Step::Hears(93, ANSWER_1),
    Step::Records(2),
    Step::Stand(&[RECORDED]),
    Step::Next(2),
    NOTHING_WAITS,
];

#[test]
fn machine_records(rt: HostRuntime) {
    plays(&rt, rt.alloc(), NO_ENTRIES, MACHINE_RECORDS);
}

const MACHINE_GIVES_UP: &[Step] = &[
    Step::Takes(1),
    Step::Does(Call::Deliver(1)),
    Step::Connects(false),
    Step::Tells(Told::NoLink(1)),
    Step::Tries(2),
    Step::Puts(MARK_0),
    Step::Ends(SendFault::Ended),
    Step::Waits(SendFault::Ended),
    Step::TriesCopy(4),
    Step::Puts(MARK_2),
    Step::HearsStatuses(100),
    Step::Waits(SendFault::TooLong),
    Step::Stand(&[TWICE]),
];

// There is no link; the link ends; too much is said: the receipt waits, and is tried again as a copy.
#[test]
fn machine_gives_up(rt: HostRuntime) {
    plays(&rt, rt.alloc(), NO_ENTRIES, MACHINE_GIVES_UP);
}

const MACHINE_HEARS_LATE: &[Step] = &[
    Step::Takes(1),
    Step::Tries(2),
    // The receipt is put, and the link ends before its closing mark is answered.
    Step::Puts(MARK_0),
    Step::Hears(100, ANSWER_0),
    Step::Puts(S_AND_MARK_1),
    Step::Ends(SendFault::Ended),
    Step::Waits(SendFault::Ended),
    Step::Tries(4),
    Step::Puts(MARK_2),
    Step::Hears(100, ANSWER_0),
    Step::Hears(93, b"\x37\x220009\x00"),
    Step::Hears(86, b"\x37\x22 ~@!\x00"),
    Step::Hears(79, b"\x14\x00\x00\x0F"),
    Step::Hears(75, ANSWER_1),
    Step::Records(2),
    Step::Stand(&[RECORDED]),
    Step::Next(4),
];

// On the link of the second try, the closing mark of the first is answered late: the receipt is printed, and isn't put again. Marks
// that closed no try are passed over, and so is a block.
#[test]
fn machine_hears_late(rt: HostRuntime) {
    plays(&rt, rt.alloc(), NO_ENTRIES, MACHINE_HEARS_LATE);
}

const MACHINE_TELLS_PAUSES: &[Step] = &[
    Step::Takes(1),
    Step::Tries(2),
    Step::Puts(MARK_0),
    Step::Hears(100, b"\x10\x00\x00\x00"),
    Step::IsNotPaused,
    Step::Hears(96, b"\x18\x00\x00\x00"),
    Step::Pauses(Pause::Offline),
    Step::Hears(92, b"\x38\x00\x00\x00"),
    Step::Pauses(Pause::CoverOpen),
    Step::Hears(88, b"\x38\x00\x0C\x00"),
    Step::Pauses(Pause::PaperEnded),
    Step::Hears(84, b"\x18\x00\x0C\x00"),
    Step::Hears(80, b"\x10\x00\x03\x00"),
    Step::IsNotPaused,
    Step::Hears(76, b"\x18\x00\x0F\x00"),
    Step::Pauses(Pause::PaperEnded),
    Step::Hears(72, b"\x10\x00\x00\x00"),
    Step::Ends(SendFault::TimedOut),
    Step::Waits(SendFault::TimedOut),
    Step::IsNotPaused,
];

// A block says that the printer prints nothing: why is told where that is new, and it waits on. Once the printer is online no more is
// told, and a link that ends ends as any other.
#[test]
fn machine_tells_pauses(rt: HostRuntime) {
    plays(&rt, rt.alloc(), NO_ENTRIES, MACHINE_TELLS_PAUSES);
}

const MACHINE_IS_LEFT_PAUSED: &[Step] = &[
    Step::Takes(1),
    Step::Tries(2),
    Step::Puts(MARK_0),
    Step::Hears(100, ANSWER_0),
    Step::Puts(S_AND_MARK_1),
    Step::Hears(93, b"\x18\x00\x0C\x00"),
    Step::Pauses(Pause::PaperEnded),
    Step::Ends(SendFault::TimedOut),
    Step::HangsUp,
    Step::Tells(Told::StillPaused(1, Pause::PaperEnded)),
    Step::Stand(&[ONCE]),
];

// The link ends while the printer prints nothing.
#[test]
fn machine_is_left_paused(rt: HostRuntime) {
    plays(&rt, rt.alloc(), NO_ENTRIES, MACHINE_IS_LEFT_PAUSED);
}

const FIRST_IS_RECORDED: &[Plain] = &[
    Plain::Taken(Text::S),
    Plain::Tried(1, 2),
    Plain::Recorded(1, 0),
    Plain::Taken(Text::S),
];

const MACHINE_HEARS_OF_ANOTHER: &[Step] = &[
    Step::Does(Call::Deliver(1)),
    Step::Connects(true),
    Step::IsToKeep(Plain::Tried(2, 4)),
    Step::Keeps,
    Step::Puts(MARK_2),
    Step::Hears(100, ANSWER_1),
    Step::Hears(93, b"\x37\x220002\x00"),
    Step::Puts(b"\x1B@Hi\n\x1D(H\x06\x00000003"),
];

// The second receipt is tried. A late answer to the closing mark of the first says nothing of it.
#[test]
fn machine_hears_of_another(rt: HostRuntime) {
    plays(&rt, rt.alloc(), FIRST_IS_RECORDED, MACHINE_HEARS_OF_ANOTHER);
}

const MACHINE_FAILS: &[Step] = &[
    Step::Does(Call::Raise(7)),
    Step::FailsToKeep,
    Step::Tells(Told::NotKept),
    Step::Refuses(Call::Raise(9), Refused::Failed),
    Step::Refuses(Call::Deliver(1), Refused::Failed),
    Step::Next(0),
];

// The store fails: nothing more is done.
#[test]
fn machine_fails(rt: HostRuntime) {
    plays(&rt, rt.alloc(), NO_ENTRIES, MACHINE_FAILS);
}

const TRIED_TO_THE_LAST: &[Plain] = &[
    Plain::Raised(0, 0),
    Plain::Taken(Text::S),
    Plain::Tried(1, 1_679_615),
];

const MACHINE_GOES_ON: &[Step] = &[
    Step::Stand(&[ONCE]),
    Step::Refuses(Call::Deliver(1), Refused::MarksUsedUp(1)),
    Step::Refuses(Call::Raise(5), Refused::MarkReused(1_679_615)),
];

// A machine goes on from the entries that are left.
#[test]
fn machine_goes_on(rt: HostRuntime) {
    plays(&rt, rt.alloc(), TRIED_TO_THE_LAST, MACHINE_GOES_ON);
}

const MACHINE_RAISES_NO_HIGHER: &[Step] = &[
    Step::RaisesNoHigherThan(4_294_967_293),
    Step::Takes(1),
    Step::Refuses(Call::Deliver(2), Refused::MarksUsedUp(1)),
    Step::Tries(4_294_967_295),
];

// All marks are answered: numbers go on to the greatest that a mark may have.
#[test]
fn machine_raises_no_higher(rt: HostRuntime) {
    plays(&rt, rt.alloc(), NO_ENTRIES, MACHINE_RAISES_NO_HIGHER);
}

const TRIED_FROM_9: &[Plain] = &[
    Plain::Raised(9, 9),
    Plain::Taken(Text::S),
    Plain::Tried(1, 11),
];

const MACHINE_RAISES_TO_NO_ID_THAT_IS_OUT: &[Step] = &[
    Step::RaisesNoHigherThan(1_679_623),
    Step::Refuses(Call::Deliver(2), Refused::MarksUsedUp(1)),
    Step::Tries(1_679_625),
];

// A mark may still be answered: no other with its id may be put.
#[test]
fn machine_raises_to_no_id_that_is_out(rt: HostRuntime) {
    plays(
        &rt,
        rt.alloc(),
        TRIED_FROM_9,
        MACHINE_RAISES_TO_NO_ID_THAT_IS_OUT,
    );
}

const TWICE_AS_MANY_AS_IDS: &[Plain] = &[Plain::Raised(3_359_232, 3_359_232)];

const MACHINE_GOES_ROUND: &[Step] = &[
    Step::Takes(1),
    Step::Tries(3_359_234),
    Step::Puts(MARK_0),
    Step::Hears(100, ANSWER_0),
    Step::Puts(S_AND_MARK_1),
    Step::Hears(93, ANSWER_1),
    Step::Records(3_359_234),
    Step::Next(3_359_234),
];

// Numbers go on where ids come round: twice so many numbers as there are ids, and the id is the first again.
#[test]
fn machine_goes_round(rt: HostRuntime) {
    plays(&rt, rt.alloc(), TWICE_AS_MANY_AS_IDS, MACHINE_GOES_ROUND);
}

const TWO_IDS_ARE_LEFT: &[Plain] = &[Plain::Raised(1_679_614, 1_679_614)];

const MACHINE_HEARS_LATE_WHERE_IDS_COME_ROUND: &[Step] = &[
    Step::Takes(1),
    Step::Tries(1_679_616),
    Step::Puts(b"\x1D(H\x06\x0000ZZZY"),
    Step::Hears(100, b"\x37\x22ZZZY\x00"),
    Step::Puts(b"\x1B@Hi\n\x1D(H\x06\x0000ZZZZ"),
    Step::Ends(SendFault::Ended),
    Step::Waits(SendFault::Ended),
    Step::Tries(1_679_618),
    Step::Puts(MARK_0),
    Step::Hears(100, b"\x37\x22ZZZZ\x00"),
    Step::Records(1_679_616),
];

// A receipt is tried with the last id; ids come round in its next try, and a late answer to the first one's closing mark is known by its id.
#[test]
fn machine_hears_late_where_ids_come_round(rt: HostRuntime) {
    plays(
        &rt,
        rt.alloc(),
        TWO_IDS_ARE_LEFT,
        MACHINE_HEARS_LATE_WHERE_IDS_COME_ROUND,
    );
}

const NOTHING_IS_HEARD: &[Plain] = &[
    Plain::Taken(Text::S),
    Plain::Tried(1, 2),
    Plain::Raised(1_679_615, 0),
];

const USED_UP: &[Step] = &[Step::Refuses(Call::Deliver(1), Refused::MarksUsedUp(1))];

const TOO_HIGH: &[Step] = &[Step::Refuses(Call::Raise(1_679_616), Refused::MarkTooHigh(1_679_614))];

// Nothing says that a mark is answered: its id isn't put again, and the receipt waits.
#[test]
fn machine_puts_no_id_that_is_out(rt: HostRuntime) {
    plays(&rt, rt.alloc(), NOTHING_IS_HEARD, USED_UP);
    plays(&rt, rt.alloc(), NOTHING_IS_HEARD, TOO_HIGH);
}

// The ledger's next mark number is this one, and the machine's steps with it.
fn takes_number(rt: &impl Abort, alloc: Global, first: u32) {
    let steps = [
        Step::Does(Call::Raise(first)),
        Step::Keeps,
        Step::Tells(Told::Raised),
        Step::Takes(1),
        Step::Tries(first.saturating_add(2)),
    ];
    plays(rt, alloc, &[Plain::Raised(first, 0)], &steps);
}

const NUMBERS: &[u32] = &[1, 255, 256, 1_000, 1_001, 65_535, 65_536, 1_000_000];

// Numbers below the last are all taken: each number is raised to, and a receipt is tried with it.
#[test]
fn machine_takes_each_number(rt: HostRuntime) {
    for first in NUMBERS {
        takes_number(&rt, rt.alloc(), *first);
    }
}

const MACHINE_TAKES_MANY: &[Step] = &[
    Step::TakesAll(300),
    Step::Receipts(300),
    Step::Tries(2),
    Step::Puts(MARK_0),
    Step::Hears(100, ANSWER_0),
    Step::Puts(S_AND_MARK_1),
    Step::Hears(93, ANSWER_1),
    Step::Records(2),
    Step::StandFirst(&[RECORDED, UNTRIED]),
];

// Receipts are taken while others wait, and are delivered in the order of their numbers.
#[test]
fn machine_takes_many(rt: HostRuntime) {
    plays(&rt, rt.alloc(), NO_ENTRIES, MACHINE_TAKES_MANY);
}

const RAISED_TO_7: &[Plain] = &[Plain::Raised(7, 0)];

const MACHINE_PUTS_THREE_OPENINGS: &[Step] = &[
    Step::Takes(1),
    Step::Does(Call::Deliver(3)),
    Step::Connects(true),
    Step::IsToKeep(Plain::Tried(1, 11)),
    Step::Keeps,
    Step::Puts(b"\x1D(H\x06\x00000007\x1D(H\x06\x00000008\x1D(H\x06\x00000009"),
    Step::Hears(100, b"\x37\x220008\x00"),
    Step::IsToPut,
];

// Three opening marks: an answer to any of them opens the link, and the receipt has the number after them.
#[test]
fn machine_puts_three_openings(rt: HostRuntime) {
    plays(&rt, rt.alloc(), RAISED_TO_7, MACHINE_PUTS_THREE_OPENINGS);
}
