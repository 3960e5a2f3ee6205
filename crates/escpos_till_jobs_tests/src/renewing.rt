//! `ledger --renew`: a new ledger goes on from an older one, which is no ledger then.

use crate::support::asked::{Ask, Step, plays};
use crate::support::tills::{Plain, Told};
use escpos_job_parts::status::Status;

const NO_LEDGER: Told = ("no ledger\n", Status::Device);

const OLDER: &[Plain] = &[
    Plain::Taken,
    Plain::Taken,
    Plain::Cancelled(1),
    Plain::Taken,
    Plain::Raised(7),
];

const A_LEDGER_GOES_ON: &[Step] = &[
    Step::Asks("a", Ask::Renew("c"), ("refused Exists\n", Status::Refused)),
    Step::Asks("c", Ask::Renew("b"), NO_LEDGER),
    Step::Asks(
        "a",
        Ask::List,
        ("1 cancelled\n2 waiting\n3 waiting\nnext 7\n", Status::Good),
    ),
    Step::Asks("a", Ask::Renew("b"), ("renewed 2\n", Status::Good)),
    Step::Asks("a", Ask::List, NO_LEDGER),
    Step::Asks("a", Ask::Renew("b"), NO_LEDGER),
    Step::Moves,
    Step::Asks(
        "a",
        Ask::List,
        ("2 waiting\n3 waiting\nnext 7\n", Status::Good),
    ),
];

// Two of three receipts wait.
#[test]
fn a_ledger_goes_on(rt: HostRuntime) {
    plays(&rt, rt.alloc(), Some(OLDER), A_LEDGER_GOES_ON);
}

const NONE: &[Plain] = &[];

const AN_EMPTY_LEDGER_ENDS: &[Step] = &[
    Step::Asks("a", Ask::Renew("b"), ("renewed 0\n", Status::Good)),
    Step::Asks("a", Ask::List, NO_LEDGER),
    Step::Moves,
    Step::Asks("a", Ask::List, ("next 0\n", Status::Good)),
];

// An empty ledger has a new one too, and is none then.
#[test]
fn an_empty_ledger_ends(rt: HostRuntime) {
    plays(&rt, rt.alloc(), Some(NONE), AN_EMPTY_LEDGER_ENDS);
}
