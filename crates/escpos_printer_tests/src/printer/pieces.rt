//! An empty piece changes nothing, whatever state a printer is in.

use crate::support::printers::{ONLINE, OPEN, REQUESTS, Step, plays};
use escpos_test_values::spellings;

#[test]
fn empty_pieces_in_feed(rt: HostRuntime) {
    let steps = [Step::EmptyPieces(spellings()), Step::Waiting(3)];
    plays(&rt, rt.alloc(), ONLINE, &steps);
}

const EMPTY_PIECES_WHILE_A_PRINTER_WAITS: &[Step] = &[
    Step::Offline(b"\x1BE\x01", 2),
    Step::FeedNothing,
    Step::Set(ONLINE),
    Step::Feed(b"\x01"),
    Step::Feed(REQUESTS),
    Step::Feed(REQUESTS),
    Step::Feed(REQUESTS),
    Step::Feed(REQUESTS),
    Step::Full(REQUESTS, 2),
    Step::FeedNothing,
    Step::Waiting(16),
];

// Offline, with a half command; and online, with sixteen answers waiting.
#[test]
fn empty_pieces_while_a_printer_waits(rt: HostRuntime) {
    plays(&rt, rt.alloc(), OPEN, EMPTY_PIECES_WHILE_A_PRINTER_WAITS);
}
