//! QR codes on a page: their worked rows, the data that a page keeps, and the room for a copy of it.

use crate::support::pages::{Step, plays_usual};

// The text of a command that stores AB, and that of the print.
const STORE: &[u8] = b"\x1D(k\x05\x001P0AB";

const PRINT: &[u8] = b"\x1D(k\x03\x001Q0";

// Streams, and what they print.
const PRINTED: [(&[u8], &[u8]); 21] = [
    // the settings at power on
    (
        b"\x1D(k\x05\x001P0AB\x1D(k\x03\x001Q0",
        b"qr left 2 3 L AB\n",
    ),
    // the text of the line comes first, before and after the store alike, and the line is empty then
    (
        b"X\x1D(k\x05\x001P0ABY\x1D(k\x03\x001Q0Z\n",
        b"row left XY\nfeed 1\nqr left 2 3 L AB\nrow left Z\nfeed 1\n",
    ),
    // with nothing stored a print does nothing: the line stays, and an alignment in it has no effect
    (b"X\x1D(k\x03\x001Q0\x1Ba\x01Y\n", b"row left XY\nfeed 1\n"),
    (b"\x1D(k\x03\x001Q0", b""),
    // a store prints nothing
    (b"\x1D(k\x05\x001P0AB", b""),
    // Init forgets what is stored
    (
        b"\x1D(k\x05\x001P0AB\x1B@X\x1D(k\x03\x001Q0\n",
        b"row left X\nfeed 1\n",
    ),
    (
        b"\x1D(k\x05\x001P0AB\x1B@\x1D(k\x04\x001P0C\x1D(k\x03\x001Q0",
        b"qr left 2 3 L C\n",
    ),
    // a second store replaces the first
    (
        b"\x1D(k\x05\x001P0AB\x1D(k\x04\x001P0C\x1D(k\x03\x001Q0",
        b"qr left 2 3 L C\n",
    ),
    // each print prints what is stored
    (
        b"\x1D(k\x05\x001P0AB\x1D(k\x03\x001Q0\x1D(k\x03\x001Q0X\x1D(k\x03\x001Q0",
        b"qr left 2 3 L AB\nqr left 2 3 L AB\nrow left X\nfeed 1\nqr left 2 3 L AB\n",
    ),
    (
        b"\x1D(k\x05\x001P0AB\x1D(k\x03\x001Q0\x1D(k\x04\x001P0C\x1D(k\x03\x001Q0",
        b"qr left 2 3 L AB\nqr left 2 3 L C\n",
    ),
    // model, size and level are those at the print, and stay until Init
    (
        b"\x1D(k\x05\x001P0AB\x1D(k\x04\x001A1\x00\x1D(k\x03\x001C\x10\x1D(k\x03\x001E3\x1D(k\x03\x001Q0\x1D(k\x03\x001Q0",
        b"qr left 1 16 H AB\nqr left 1 16 H AB\n",
    ),
    (
        b"\x1D(k\x04\x001A1\x00\x1D(k\x03\x001C\x10\x1D(k\x03\x001E3\x1B@\x1D(k\x05\x001P0AB\x1D(k\x03\x001Q0",
        b"qr left 2 3 L AB\n",
    ),
    // the last of several counts
    (
        b"\x1D(k\x04\x001A1\x00\x1D(k\x04\x001A2\x00\x1D(k\x03\x001C\x10\x1D(k\x03\x001C\x01\x1D(k\x05\x001P0AB\x1D(k\x03\x001Q0",
        b"qr left 2 1 L AB\n",
    ),
    // each level
    (
        b"\x1D(k\x05\x001P0AB\x1D(k\x03\x001E1\x1D(k\x03\x001Q0\x1D(k\x03\x001E2\x1D(k\x03\x001Q0\x1D(k\x03\x001E3\x1D(k\x03\x001Q0\x1D(k\x03\x001E0\x1D(k\x03\x001Q0",
        b"qr left 2 3 M AB\nqr left 2 3 Q AB\nqr left 2 3 H AB\nqr left 2 3 L AB\n",
    ),
    // alignments, of which one in the line has no effect
    (
        b"\x1D(k\x05\x001P0AB\x1Ba\x01X\x1D(k\x03\x001Q0\x1Ba2\x1D(k\x03\x001Q0",
        b"row center X\nfeed 1\nqr center 2 3 L AB\nqr right 2 3 L AB\n",
    ),
    (
        b"\x1D(k\x05\x001P0ABX\x1Ba\x01\x1D(k\x03\x001Q0",
        b"row left X\nfeed 1\nqr left 2 3 L AB\n",
    ),
    // the feed has the spacing, and the row is upside down, in its style; the QR code isn't
    (
        b"\x1D(k\x05\x001P0AB\x1B3\x0A\x1B{\x01\x1BE\x01X\x1D(k\x03\x001Q0",
        b"row left upside [A,1,1,1,0,0]X\nfeed 1 spacing 10\nqr left 2 3 L AB\n",
    ),
    // a byte that can't be shown, [ and \\ are written in hexadecimal
    (
        b"\x1D(k\x0F\x001P0[\\]~ \x7F\x80\xFF\x00\x0A\x1F!\x1D(k\x03\x001Q0",
        b"qr left 2 3 L \\5b\\5c]~ \\7f\\80\\ff\\00\\0a\\1f!\n",
    ),
    // nothing else touches the settings, nor what is stored
    (
        b"\x1D(k\x03\x001C\x07\x1D(k\x05\x001P0AB\x1B!\x08\x1BE\x01\x1BG\x01\x1B-\x01\x1BM\x01\x1Bt\x01\x1BR\x01\x1DB\x01\x1Db\x01\x1B!\x00\x1B2\x1Bp\x00\x01\x01\x1D!\x11\x1Dh\x32\x1Dw\x02\x1DH\x01\x1Df\x01\x0D\x10\x04\x01\x1D(H\x06\x00000000\x1Bd\x00\x1BJ\x00\x1DV\x00\x1DkF\x0212\x1Dv0\x00\x01\x00\x01\x00\xFF\x1D(k\x03\x001Q0",
        b"feed 0\nunits 0\ncut full\nbars left itf 50 2 above B 12\nraster left normal 1 1 ff\nqr left 2 7 L AB\n",
    ),
    // and these touch no barcode
    (
        b"\x1D(k\x04\x001A1\x00\x1D(k\x03\x001C\x10\x1D(k\x03\x001E3\x1D(k\x05\x001P0AB\x1D(k\x03\x001Q0\x1DkF\x0212X\n",
        b"qr left 1 16 H AB\nbars left itf 162 3 none A 12\nrow left X\nfeed 1\n",
    ),
    // a full line before it
    (
        b"\x1D(k\x05\x001P0AB\x1D!\x70aaaaaa\x1D(k\x03\x001Q0",
        b"row left [A,8,1,0,0,0]aaaaa\nfeed 1\nrow left [A,8,1,0,0,0]a\nfeed 1\nqr left 2 3 L AB\n",
    ),
];

fn printed_streams() -> &'static [(&'static [u8], &'static [u8])] {
    &PRINTED
}

#[test]
fn printed(rt: HostRuntime) {
    for (bytes, text) in printed_streams() {
        plays_usual(&rt, rt.alloc(), &[Step::Apply(bytes), Step::Text(text)]);
    }
}

// A restart forgets what is stored and what is set.
#[test]
fn restart_forgets(rt: HostRuntime) {
    let steps = [
        Step::Apply(b"\x1D(k\x03\x001C\x08"),
        Step::Apply(STORE),
        Step::Restart,
        Step::Apply(b"X"),
        Step::Apply(PRINT),
        Step::Text(b""),
        Step::Apply(STORE),
        Step::Apply(PRINT),
        Step::Text(b"row left X\nfeed 1\nqr left 2 3 L AB\n"),
    ];
    plays_usual(&rt, rt.alloc(), &steps);
}

// Paper that is torn off takes nothing along of what is stored and set.
#[test]
fn tear_off_keeps_the_store(rt: HostRuntime) {
    let steps = [
        Step::Apply(b"\x1D(k\x03\x001C\x08"),
        Step::Apply(STORE),
        Step::Apply(PRINT),
        Step::Text(b"qr left 2 8 L AB\n"),
        Step::TearOff,
        Step::Apply(PRINT),
        Step::Text(b"qr left 2 8 L AB\n"),
        Step::TearOff,
        Step::Apply(PRINT),
        Step::Text(b"qr left 2 8 L AB\n"),
        Step::TearOff,
        Step::Text(b""),
    ];
    plays_usual(&rt, rt.alloc(), &steps);
}

// Text that is put as a whole stands in the line before a QR code, too.
#[test]
fn text_before_a_qr_code(rt: HostRuntime) {
    let steps = [
        Step::Apply(STORE),
        Step::PutHi,
        Step::Apply(PRINT),
        Step::PutExclamationMark,
        Step::Text(b"row left Hi\nfeed 1\nqr left 2 3 L AB\n"),
    ];
    plays_usual(&rt, rt.alloc(), &steps);
}

// A page has room for one more command only where it has room for a copy of what is stored: not after a store, and not
// after a print.
#[test]
fn room_for_a_copy(rt: HostRuntime) {
    let steps = [
        Step::Ready,
        Step::HasRoom(true),
        Step::Apply(STORE),
        Step::HasRoom(false),
        Step::Ready,
        Step::HasRoom(true),
        Step::Apply(PRINT),
        Step::TearOff,
        Step::HasRoom(false),
        Step::Ready,
        Step::HasRoom(true),
        Step::Apply(STORE),
        Step::Restart,
        Step::HasRoom(true),
    ];
    plays_usual(&rt, rt.alloc(), &steps);
}

#[test]
fn longest_content(rt: HostRuntime) {
    let steps = [
        Step::Store(0x1B, 7089),
        Step::Apply(PRINT),
        Step::Apply(PRINT),
        Step::Apply(PRINT),
        Step::LongLines(3),
    ];
    plays_usual(&rt, rt.alloc(), &steps);
}

// Wherever the writer fails in the line of a QR code, it has the first of its bytes, and the error says how many these are.
#[test]
fn a_qr_code_cut_short(rt: HostRuntime) {
    let steps = [
        Step::Store(b'7', 7089),
        Step::Apply(PRINT),
        Step::LongLineCutShort(0),
        Step::LongLineCutShort(13),
        Step::LongLineCutShort(14),
        Step::LongLineCutShort(15),
        Step::LongLineCutShort(2048),
        Step::LongLineCutShort(7102),
        Step::LongLineCutShort(7103),
    ];
    plays_usual(&rt, rt.alloc(), &steps);
}

// The bytes of a content that lies on paper can be read there; each QR code has a copy of its own.
#[test]
fn content_on_paper(rt: HostRuntime) {
    let steps = [
        Step::Apply(b"\x1D(k\x04\x001A1\x00\x1D(k\x03\x001C\x05"),
        Step::Apply(STORE),
        Step::Apply(PRINT),
        Step::Apply(PRINT),
        Step::Apply(b"\x1D(k\x04\x001P0Z"),
        Step::HasTwoCodes,
    ];
    plays_usual(&rt, rt.alloc(), &steps);
}
