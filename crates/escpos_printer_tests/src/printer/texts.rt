//! Text: its characters are taken together, and print what they print byte by byte.

use crate::support::printers::{ONLINE, OPEN, REQUESTS, Step, plays};
use escpos_command::FaultReason;

// Pieces of text, and what they print, in lines of 42 characters: text that is cut off by the end of a piece, lines that are
// full, at the end of a piece too, commands between characters, and a parameter that is the byte of a character.
const TEXTS: &[Step] = &[
    Step::Prints(&[b"He", b"llo\n"], b"row left Hello\nfeed 1\n"),
    Step::Prints(
        &[b"ABCDEFGHIJKLMNOPQRSTUVWXYZabcdefghijklmnop\n"],
        b"row left ABCDEFGHIJKLMNOPQRSTUVWXYZabcdefghijklmnop\nfeed 1\n",
    ),
    Step::Prints(
        &[b"ABCDEFGHIJKLMNOPQRSTUVWXYZabcdefghijklmnop", b"q\n"],
        b"row left ABCDEFGHIJKLMNOPQRSTUVWXYZabcdefghijklmnop\nfeed 1\nrow left q\nfeed 1\n",
    ),
    Step::Prints(
        &[
            b"ABCDEFGHIJKLMNOPQRSTUVWXYZabcdefghijklmnopqrstuvwxyz0123456789ABCDEFGHIJKLMNOPQRSTUVWXYZabcd\n",
        ],
        b"row left ABCDEFGHIJKLMNOPQRSTUVWXYZabcdefghijklmnop\nfeed 1\n\
          row left qrstuvwxyz0123456789ABCDEFGHIJKLMNOPQRSTUV\nfeed 1\nrow left WXYZabcd\nfeed 1\n",
    ),
    Step::Prints(
        &[b"Hi\x1Bd\x02you\n\nthere\n"],
        b"row left Hi\nfeed 2\nrow left you\nfeed 1\nfeed 1\nrow left there\nfeed 1\n",
    ),
    Step::Prints(
        &[b"Hi\x1Bd", b"AB\n"],
        b"row left Hi\nfeed 65\nrow left B\nfeed 1\n",
    ),
];

#[test]
fn texts_in_pieces(rt: HostRuntime) {
    plays(&rt, rt.alloc(), ONLINE, TEXTS);
}

// Text in which a byte is refused, the place of that byte and why, and what is printed where it is skipped.
const FAULTS: &[Step] = &[
    Step::Skips(
        b"\x01Hi\n",
        0,
        FaultReason::UnknownByte,
        b"row left Hi\nfeed 1\n",
    ),
    Step::Skips(
        b"Hi\x01you\n",
        2,
        FaultReason::UnknownByte,
        b"row left Hiyou\nfeed 1\n",
    ),
    Step::Skips(
        b"Hi\nyou\x1B\x01!\n",
        7,
        FaultReason::UnknownCommand,
        b"row left Hi\nfeed 1\nrow left you!\nfeed 1\n",
    ),
    Step::Skips(
        b"ABCDEFGHIJKLMNOPQRSTUVWXYZabcdefghijklmnopqr\x01s\n",
        44,
        FaultReason::UnknownByte,
        b"row left ABCDEFGHIJKLMNOPQRSTUVWXYZabcdefghijklmnop\nfeed 1\nrow left qrs\nfeed 1\n",
    ),
];

#[test]
fn faults_in_texts(rt: HostRuntime) {
    plays(&rt, rt.alloc(), ONLINE, FAULTS);
}

const TEXTS_THAT_WAIT: &[Step] = &[
    Step::Feed(b"Hi"),
    Step::Set(OPEN),
    Step::Offline(b"you", 0),
    Step::Feed(REQUESTS),
    Step::Feed(REQUESTS),
    Step::Feed(REQUESTS),
    Step::Feed(REQUESTS),
    Step::Offline(b"you", 0),
    Step::Set(ONLINE),
    Step::Full(b"you\x10\x04\x01", 5),
    Step::Restart,
    Step::Feed(b"Hi"),
    Step::Set(OPEN),
    Step::Offline(b"you\n", 0),
    Step::Set(ONLINE),
    Step::Feed(b"you\n"),
    Step::Paper(b"row left Hiyou\nfeed 1\n"),
];

// Offline no character is taken, and a status request before it is. While 16 answers wait, text is taken. It continues where it
// stopped.
#[test]
fn texts_that_wait(rt: HostRuntime) {
    plays(&rt, rt.alloc(), ONLINE, TEXTS_THAT_WAIT);
}
