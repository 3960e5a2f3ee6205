//! Long ledgers in SQLite: as many entries as a byte counts and more are added, and read from files that were closed.

use crate::support::ledgers::{Step, plays};

const ENTRIES_1: &[Step] = &[
    Step::Opens,
    Step::AddsNumbered(1, 0),
    Step::Closes,
    Step::Opens,
    Step::HasNumbered(1, 1),
];

#[test]
fn entries_1(rt: HostRuntime) {
    plays(&rt, rt.alloc(), ENTRIES_1);
}

const ENTRIES_255: &[Step] = &[
    Step::Opens,
    Step::AddsNumbered(255, 0),
    Step::Closes,
    Step::Opens,
    Step::HasNumbered(255, 255),
];

#[test]
fn entries_255(rt: HostRuntime) {
    plays(&rt, rt.alloc(), ENTRIES_255);
}

const ENTRIES_256: &[Step] = &[
    Step::Opens,
    Step::AddsNumbered(256, 0),
    Step::Closes,
    Step::Opens,
    Step::HasNumbered(256, 256),
];

#[test]
fn entries_256(rt: HostRuntime) {
    plays(&rt, rt.alloc(), ENTRIES_256);
}

const ENTRIES_1000: &[Step] = &[
    Step::Opens,
    Step::AddsNumbered(1000, 0),
    Step::Closes,
    Step::Opens,
    Step::HasNumbered(1000, 1000),
];

#[test]
fn entries_1000(rt: HostRuntime) {
    plays(&rt, rt.alloc(), ENTRIES_1000);
}

// One of 257 entries is wrong: those before it are right.
const WRONG_ENTRIES: [&[Step]; 4] = [
    &[
        Step::Opens,
        Step::AddsNumbered(257, 1),
        Step::Closes,
        Step::Opens,
        Step::HasNumbered(257, 0),
    ],
    &[
        Step::Opens,
        Step::AddsNumbered(257, 255),
        Step::Closes,
        Step::Opens,
        Step::HasNumbered(257, 254),
    ],
    &[
        Step::Opens,
        Step::AddsNumbered(257, 256),
        Step::Closes,
        Step::Opens,
        Step::HasNumbered(257, 255),
    ],
    &[
        Step::Opens,
        Step::AddsNumbered(257, 257),
        Step::Closes,
        Step::Opens,
        Step::HasNumbered(257, 256),
    ],
];

#[test]
fn a_wrong_entry_is_seen(rt: HostRuntime) {
    for steps in WRONG_ENTRIES {
        plays(&rt, rt.alloc(), steps);
    }
}
