//! A receipt that a ledger has taken is taken once more: what is printed, and which entry is kept.

use crate::support::steps::{Step, plays, plays_failing};
use crate::support::tills::{FAILED, Plain, S};
use escpos_job_parts::status::Status;

// The first is recorded, the second tried, the third waits, and the fourth was cancelled after it was tried. There is no fifth.
const FOUR: &[Plain] = &[
    Plain::Taken,
    Plain::Taken,
    Plain::Tried(1, 2),
    Plain::Recorded(1),
    Plain::Tried(2, 4),
    Plain::Taken,
    Plain::Taken,
    Plain::Tried(4, 6),
    Plain::Cancelled(4),
];

const TAKEN_ONCE_MORE: &[Step] = &[
    Step::Again(5, ("refused NotTaken 5\n", Status::Refused)),
    Step::Again(1, ("queued 5\n", Status::Good)),
    Step::Again(2, ("queued 6\n", Status::Good)),
    Step::Again(3, ("queued 7\n", Status::Good)),
    Step::Again(4, ("queued 8\n", Status::Good)),
    Step::Again(5, ("queued 9\n", Status::Good)),
    Step::Again(10, ("refused NotTaken 10\n", Status::Refused)),
    Step::Again(
        18_446_744_073_709_551_615,
        ("refused NotTaken 18446744073709551615\n", Status::Refused),
    ),
    Step::Kept(14),
];

// Any receipt that was taken is taken once more, whatever became of it.
#[test]
fn taken_once_more(rt: HostRuntime) {
    plays(&rt, rt.alloc(), FOUR, TAKEN_ONCE_MORE);
}

const RAISED: &[Plain] = &[Plain::Raised(7)];

const NONE_TAKEN: &[Step] = &[
    Step::Again(1, ("refused NotTaken 1\n", Status::Refused)),
    Step::Kept(1),
];

// No receipt was taken.
#[test]
fn none_taken(rt: HostRuntime) {
    plays(&rt, rt.alloc(), RAISED, NONE_TAKEN);
}

// A line of U+20AC, 5, a blank and U+2603, which no code table has.
const REPLACED: &[u8] = b"[{\"line\":\"\xE2\x82\xAC5 \xE2\x98\x83\"}]";

// A receipt for lines of 576 dots, one for 384 dots, which has a character that is replaced, and a text that gives none.
const THREE: &[Plain] = &[
    Plain::TakenFor(576, b'?', S),
    Plain::TakenFor(384, b'*', REPLACED),
    Plain::TakenFor(512, b'?', b"[{\"text\":\"Hi\"}]"),
];

const SAME_CONTENT: &[Step] = &[
    Step::Again(2, ("queued 4\n", Status::Good)),
    Step::Again(1, ("queued 5\n", Status::Good)),
    Step::Again(3, ("refused 3 TextLeft\n", Status::Refused)),
    Step::Kept(5),
    Step::KeptText(3, 384, '*', REPLACED),
    Step::KeptText(4, 576, '?', S),
];

// The text and the options are those that the receipt was taken with. A text that gives no receipt is refused.
#[test]
fn same_content(rt: HostRuntime) {
    plays(&rt, rt.alloc(), THREE, SAME_CONTENT);
}

const ONE: &[Plain] = &[Plain::TakenFor(512, b'?', S)];

const NOT_KEPT: &[Step] = &[
    Step::Again(1, ("queued 2\n", Status::Good)),
    Step::Again(1, FAILED),
    Step::Kept(2),
];

// Where the entry can't be kept, the word says so.
#[test]
fn not_kept(rt: HostRuntime) {
    plays_failing(&rt, rt.alloc(), ONE, 1, NOT_KEPT);
}

const UNTRIED: &[Plain] = &[Plain::Taken, Plain::Recorded(1)];

const NO_LEDGER: &[Step] = &[
    Step::Again(1, ("no ledger\n", Status::Device)),
    Step::Kept(2),
];

// Entries that no ledger has: the word says so, and leaves them.
#[test]
fn no_ledger(rt: HostRuntime) {
    plays(&rt, rt.alloc(), UNTRIED, NO_LEDGER);
}
