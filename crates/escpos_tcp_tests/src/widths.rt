//! Links with `--width` and `--replace`: the receipt is laid out, and the paper printed, in lines that are so wide: here twelve
//! characters of font A.

use crate::support::asked::Asked;
use crate::support::sockets::ANSWERED_BYTES;
use crate::support::steps::{Step, plays};
use escpos_job_parts::status::Status;

const LOOP: &[Step] = &[Step::Ask(
    Asked::LoopWide(144),
    b"[{\"pair\":[\"Tea\",\"2.10\"]},{\"line\":\"abcdefghijklm\"}]",
    "row left Tea     2.10\nfeed 1\nrow left abcdefghijkl\nfeed 1\nrow left m\nfeed 1\nrecorded 0\n",
    Status::Good,
)];

// The pair is as wide as the line, and thirteen characters are two rows.
#[test]
fn loop_at_a_width(rt: HostRuntime) {
    plays(&rt, rt.alloc(), LOOP);
}

const EMULATE: &[Step] = &[
    Step::Connect(b"abcdefghijklm\n"),
    Step::AskPrepared(
        Asked::EmulateWide(Some(1), 144),
        b"",
        "link 1 read 14 consumed 14 written 0 Ended\nrow left abcdefghijkl\nfeed 1\nrow left m\nfeed 1\n",
        Status::Good,
    ),
];

#[test]
fn emulate_at_a_width(rt: HostRuntime) {
    plays(&rt, rt.alloc(), EMULATE);
}

const FOLLOW: &[Step] = &[
    Step::Connect(b"abcdefghijklm\n"),
    Step::NoWait,
    Step::AskPrepared(
        Asked::EmulateWide(None, 144),
        b"",
        "link 1 read 14 consumed 14 written 0 Ended\nrow left abcdefghijkl\nfeed 1\nrow left m\nfeed 1\n",
        Status::Device,
    ),
];

#[test]
fn follow_at_a_width(rt: HostRuntime) {
    plays(&rt, rt.alloc(), FOLLOW);
}

const SEND: &[Step] = &[
    Step::Answered(ANSWERED_BYTES, 1),
    Step::AskPrepared(
        Asked::SendWide(144, b'?'),
        b"[{\"rule\":\"-\"},{\"line\":\"\xE6\xBC\xA2\"}]",
        "recorded 0\nnext 2\n",
        Status::Good,
    ),
    Step::HearsAfter(1, 13, b"------------\n?\n"),
];

// The printer is sent the receipt as these options have it: a rule of twelve characters, and a question mark. An opening mark and ESC @
// come before it, 13 bytes, and a closing mark after it.
#[test]
fn send_with_options(rt: HostRuntime) {
    plays(&rt, rt.alloc(), SEND);
}
