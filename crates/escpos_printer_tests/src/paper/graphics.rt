//! Graphics on a page: what is stored, and what a print leaves of it.

use crate::support::pages::{Step, plays_usual};

// Two rows of 5 dots, twice as high, and the print.
const STORE: &[u8] = b"\x1D(L\x0C\x000p0\x01\x021\x05\x00\x02\x00\xF8\x08";

const PRINT: &[u8] = b"\x1D(L\x02\x0002";

// Streams, and what they print.
const PRINTED: [(&[u8], &[u8]); 18] = [
    // each scale
    (
        b"\x1D(L\x0B\x000p0\x01\x011\x08\x00\x01\x00\xA5\x1D(L\x02\x0002",
        b"raster left normal 1 1 a5\n",
    ),
    (
        b"\x1D(L\x0B\x000p0\x02\x011\x08\x00\x01\x00\xA5\x1D(L\x02\x000\x02",
        b"raster left wide 1 1 a5\n",
    ),
    (
        b"\x1D(L\x0C\x000p0\x01\x021\x05\x00\x02\x00\xF8\x08\x1D(L\x02\x0002",
        b"raster left tall 1 2 f808\n",
    ),
    // the long form, of 9 dots in two bytes
    (
        b"\x1D8L\x0C\x00\x00\x000p0\x02\x021\x09\x00\x01\x00\xFF\x80\x1D(L\x02\x0002",
        b"raster left both 2 1 ff80\n",
    ),
    // the text of the line comes first, before and after the store alike, and the line is empty then
    (
        b"X\x1D(L\x0B\x000p0\x01\x011\x08\x00\x01\x00\xA5Y\x1D(L\x02\x0002Z\n",
        b"row left XY\nfeed 1\nraster left normal 1 1 a5\nrow left Z\nfeed 1\n",
    ),
    // with nothing stored a print does nothing: the line stays, and an alignment in it has no effect
    (b"X\x1D(L\x02\x0002\x1Ba\x01Y\n", b"row left XY\nfeed 1\n"),
    (b"\x1D(L\x02\x0002", b""),
    // a store prints nothing
    (b"\x1D(L\x0B\x000p0\x01\x011\x08\x00\x01\x00\xA5", b""),
    // a print leaves nothing
    (
        b"\x1D(L\x0B\x000p0\x01\x011\x08\x00\x01\x00\xA5\x1D(L\x02\x0002X\x1D(L\x02\x0002Y\n",
        b"raster left normal 1 1 a5\nrow left XY\nfeed 1\n",
    ),
    // Init forgets what is stored
    (
        b"\x1D(L\x0B\x000p0\x01\x011\x08\x00\x01\x00\xA5\x1B@X\x1D(L\x02\x0002\n",
        b"row left X\nfeed 1\n",
    ),
    // a second store replaces the first
    (
        b"\x1D(L\x0B\x000p0\x01\x011\x08\x00\x01\x00\xA5\x1D(L\x0B\x000p0\x01\x011\x08\x00\x01\x00\x5A\x1D(L\x02\x0002",
        b"raster left normal 1 1 5a\n",
    ),
    // a store with fewer or more dots than its size's stores nothing: the line stays, and so does what was stored
    (
        b"X\x1D(L\x0C\x000p0\x01\x011\x08\x00\x03\x00\xA5\xA5\x1D(L\x02\x0002Y\n",
        b"row left XY\nfeed 1\n",
    ),
    (
        b"\x1D(L\x0B\x000p0\x01\x011\x08\x00\x01\x00\xA5\x1D(L\x0B\x000p0\x01\x011\x09\x00\x01\x00\x5A\x1D(L\x02\x0002",
        b"raster left normal 1 1 a5\n",
    ),
    (
        b"\x1D(L\x0B\x000p0\x01\x011\x08\x00\x01\x00\xA5\x1D8L\x0D\x00\x00\x000p0\x01\x011\x08\x00\x01\x00\x5AAB\x1D(L\x02\x0002C\n",
        b"raster left normal 1 1 a5\nrow left C\nfeed 1\n",
    ),
    // a row's last byte is printed whole
    (
        b"\x1D(L\x0C\x000p0\x01\x011\x05\x00\x02\x00\xFF\x0F\x1D(L\x02\x0002",
        b"raster left normal 1 2 ff0f\n",
    ),
    // the alignment is that at the print, and one in the line has no effect
    (
        b"\x1Ba\x01\x1D(L\x0B\x000p0\x01\x011\x08\x00\x01\x00\xA5\x1Ba\x02\x1D(L\x02\x0002",
        b"raster right normal 1 1 a5\n",
    ),
    (
        b"\x1D(L\x0B\x000p0\x01\x011\x08\x00\x01\x00\xA5X\x1Ba\x01\x1D(L\x02\x0002",
        b"row left X\nfeed 1\nraster left normal 1 1 a5\n",
    ),
    // graphics and the data of a QR code are stored apart
    (
        b"\x1D(L\x0B\x000p0\x01\x011\x08\x00\x01\x00\xA5\x1D(k\x05\x001P0AB\x1D(L\x02\x0002\x1D(k\x03\x001Q0\x1D(L\x02\x0002\x1D(k\x03\x001Q0",
        b"raster left normal 1 1 a5\nqr left 2 3 L AB\nqr left 2 3 L AB\n",
    ),
];

fn printed_streams() -> &'static [(&'static [u8], &'static [u8])] {
    &PRINTED
}

#[test]
fn printed(rt: HostRuntime) {
    for (bytes, text) in printed_streams() {
        plays_usual(&rt, rt.alloc(), &[Step::Apply(bytes), Step::Text(text)]);
    }
}

// A restart forgets what is stored.
#[test]
fn restart_forgets(rt: HostRuntime) {
    let steps = [
        Step::Apply(STORE),
        Step::Restart,
        Step::Apply(PRINT),
        Step::Text(b""),
        Step::Apply(STORE),
        Step::Apply(PRINT),
        Step::Text(b"raster left tall 1 2 f808\n"),
    ];
    plays_usual(&rt, rt.alloc(), &steps);
}

// Paper that is torn off takes nothing along of what is stored.
#[test]
fn tear_off_keeps_the_store(rt: HostRuntime) {
    let steps = [
        Step::Apply(b"A\n"),
        Step::Apply(STORE),
        Step::TearOff,
        Step::Apply(PRINT),
        Step::Text(b"raster left tall 1 2 f808\n"),
        Step::TearOff,
        Step::Apply(PRINT),
        Step::Text(b""),
    ];
    plays_usual(&rt, rt.alloc(), &steps);
}

// Text that is put as a whole stands in the line before graphics, too.
#[test]
fn text_before_graphics(rt: HostRuntime) {
    let steps = [
        Step::Apply(STORE),
        Step::PutHi,
        Step::Apply(PRINT),
        Step::PutExclamationMark,
        Step::Text(b"row left Hi\nfeed 1\nraster left tall 1 2 f808\n"),
    ];
    plays_usual(&rt, rt.alloc(), &steps);
}

// Neither a store nor a print needs room but for its items.
#[test]
fn room_for_graphics(rt: HostRuntime) {
    let steps = [
        Step::Ready,
        Step::Apply(STORE),
        Step::HasRoom(true),
        Step::Apply(PRINT),
        Step::TearOff,
        Step::HasRoom(true),
    ];
    plays_usual(&rt, rt.alloc(), &steps);
}
