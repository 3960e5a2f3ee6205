//! What a till asks for, done with a ledger at a path: it is opened and closed again.

use crate::support::asked::{Ask, Step, plays};
use crate::support::tills::{A, Plain, S, Told};
use escpos_job_parts::status::Status;

// A ledger with no entries.
const NONE: &[Plain] = &[];

const NO_LEDGER: Told = ("no ledger\n", Status::Device);

const IN_USE: Told = ("ledger in use\n", Status::Device);

const NO_LINK: Told = ("waiting 1 no link\n", Status::Device);

const NO_RECEIPT: Told = ("refused 3 TextLeft\n", Status::Refused);

const QUEUED: Told = ("queued 1\n", Status::Good);

const QUEUED_AGAIN: Told = ("queued 2\n", Status::Good);

const WAITING: Told = ("1 waiting\nnext 0\n", Status::Good);

const BOTH_WAITING: Told = ("1 waiting\n2 waiting\nnext 0\n", Status::Good);

const CANCELLED: Told = ("cancelled 1\n", Status::Good);

const ONE_CANCELLED: Told = ("1 cancelled\n2 waiting\nnext 0\n", Status::Good);

const TAKEN_AND_LISTED: &[Step] = &[
    Step::Asks("a", Ask::Queue(S), QUEUED),
    Step::Asks("b", Ask::Queue(b"[{\"text\":\"Hi\"}]"), NO_RECEIPT),
    Step::Asks("b", Ask::Queue(S), NO_LEDGER),
    Step::Asks("b", Ask::List, NO_LEDGER),
    Step::Asks("b", Ask::Cancel, NO_LEDGER),
    Step::Asks("b", Ask::Again(A), NO_LEDGER),
    Step::Asks("b", Ask::Deliver(None), NO_LEDGER),
    Step::Asks("b", Ask::Deliver(Some(1)), NO_LEDGER),
    Step::Asks("a", Ask::Deliver(None), NO_LINK),
    Step::Asks("a", Ask::Deliver(Some(1)), NO_LINK),
    Step::Asks("a", Ask::List, WAITING),
    Step::Asks("a", Ask::Cancel, CANCELLED),
    Step::Asks("a", Ask::Again(A), QUEUED_AGAIN),
    Step::Asks("a", Ask::List, ONE_CANCELLED),
];

// At another path there is no ledger. A text that is no receipt is refused before one is opened.
#[test]
fn taken_and_listed(rt: HostRuntime) {
    plays(&rt, rt.alloc(), Some(NONE), TAKEN_AND_LISTED);
}

const TAKEN_AS_A_STREAM: &[Step] = &[
    Step::Asks("b", Ask::QueueRaw(b"Hi"), NO_RECEIPT),
    Step::Asks("b", Ask::QueueRaw(b"\x1b@Hi\n"), NO_LEDGER),
    Step::Asks(
        "a",
        Ask::Queue(b"\x1b@Hi\n"),
        ("refused 5 NotJson\n", Status::Refused),
    ),
    Step::Asks("a", Ask::QueueRaw(b"\x1b@Hi\n"), QUEUED),
    Step::Asks("a", Ask::List, WAITING),
];

// A stream that is no receipt is refused before a ledger is opened, and one that begins with ESC @ is no text in JSON.
#[test]
fn taken_as_a_stream(rt: HostRuntime) {
    plays(&rt, rt.alloc(), Some(NONE), TAKEN_AS_A_STREAM);
}

const TAKEN_WITH_A_KEY: &[Step] = &[
    Step::Asks("a", Ask::QueueWithKey(S, b"sale-7"), QUEUED),
    Step::Asks("a", Ask::QueueRawWithKey(b"\x1b@Hi\n", b"sale-7"), QUEUED),
    Step::Asks("a", Ask::Again(A), QUEUED_AGAIN),
    Step::Asks("a", Ask::QueueWithKey(S, b"sale-7"), QUEUED),
    Step::Asks("a", Ask::QueueRawWithKey(b"\x1b@Hi\n", b"sale-7"), QUEUED),
    Step::Asks("a", Ask::List, BOTH_WAITING),
];

// A stream that comes with the key of a receipt in JSON is that receipt. A copy of it has no key.
#[test]
fn taken_with_a_key(rt: HostRuntime) {
    plays(&rt, rt.alloc(), Some(NONE), TAKEN_WITH_A_KEY);
}

const ALL_IN_USE: &[Step] = &[
    Step::Asks("a", Ask::Queue(S), IN_USE),
    Step::Asks("a", Ask::List, IN_USE),
    Step::Asks("a", Ask::Cancel, IN_USE),
    Step::Asks("a", Ask::Again(A), IN_USE),
    Step::Asks("a", Ask::Deliver(None), IN_USE),
    Step::Asks("a", Ask::Deliver(Some(1)), IN_USE),
];

// A ledger that is open is in use.
#[test]
fn in_use(rt: HostRuntime) {
    plays(&rt, rt.alloc(), None, ALL_IN_USE);
}
