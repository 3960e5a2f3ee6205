//! Streams of bytes of other libraries: what is sent of those that are receipts, and where the others are refused.

use crate::support::steps::{Step, plays};
use crate::support::tills::{Plain, Told, read_bytes, says_so};
use escpos_command::LineWidth;
use escpos_io::MemoryOut;
use escpos_job_parts::status::Status;
use escpos_till_jobs::refuse_raw;
use std::alloc::Global;
use std::process::Abort;

const NONE: &[Plain] = &[];

const FIRST: Told = ("queued 1\n", Status::Good);

const SECOND: Told = ("queued 2\n", Status::Good);

// A stream that is taken, and once more, and what is sent of it.
const TAKEN: [&[Step]; 8] = [
    // python-escpos: ESC t before a text, ESC d 6 before a cut
    &[
        Step::QueueRaw(b"\x1b@\x1bt\x00Hello World\n\x1bd\x06\x1dV\x00", FIRST),
        Step::Again(1, SECOND),
        Step::DeliverFirst(b"\x1bt\x00Hello World\n\x1bd\x06\x1dV\x00"),
    ],
    // python-escpos: styles, and a paper status in between
    &[
        Step::QueueRaw(
            b"\x1b@\x1ba\x01\x1bE\x01Total\n\x10\x04\x04\x1bE\x00\x1dVA\x03",
            FIRST,
        ),
        Step::Again(1, SECOND),
        Step::DeliverFirst(b"\x1ba\x01\x1bE\x01Total\n\x1bE\x00\x1dVA\x03"),
    ],
    // escpos-php: ESC @ as a printer is opened, ESC ! and ESC a before a text, GS V A 3
    &[
        Step::QueueRaw(b"\x1b@\x1b!\x00\x1ba\x00Hello World!\n\x1dVA\x03", FIRST),
        Step::Again(1, SECOND),
        Step::DeliverFirst(b"\x1b!\x00\x1ba\x00Hello World!\n\x1dVA\x03"),
    ],
    // ESC @ twice, GS a before it and after it
    &[
        Step::QueueRaw(b"\x1da\x0f\x1b@\x1b@Hi\n\x1b@\x1da\x00\x1b@", FIRST),
        Step::Again(1, SECOND),
        Step::DeliverFirst(b"Hi\n"),
    ],
    // no ESC @ at all
    &[
        Step::QueueRaw(b"Hi\n", FIRST),
        Step::Again(1, SECOND),
        Step::DeliverFirst(b"Hi\n"),
    ],
    // a text in JSON is a stream of characters
    &[
        Step::QueueRaw(b"[{\"line\":\"Hi\"}]\n", FIRST),
        Step::Again(1, SECOND),
        Step::DeliverFirst(b"[{\"line\":\"Hi\"}]\n"),
    ],
    // a logo that is stored, and printed before the line
    &[
        Step::QueueRaw(
            b"\x1b@\x1d(L\x0b\x000p0\x01\x011\x08\x00\x01\x00\xff\x1d(L\x02\x0002Hi\n",
            FIRST,
        ),
        Step::Again(1, SECOND),
        Step::DeliverFirst(b"\x1d(L\x0b\x000p0\x01\x011\x08\x00\x01\x00\xff\x1d(L\x02\x0002Hi\n"),
    ],
    // a status asked for within a line
    &[
        Step::QueueRaw(b"\x1b@H\x10\x04\x01i\n", FIRST),
        Step::Again(1, SECOND),
        Step::DeliverFirst(b"Hi\n"),
    ],
];

#[test]
fn sent_as_they_are(rt: HostRuntime) {
    for steps in TAKEN {
        plays(&rt, rt.alloc(), NONE, steps);
    }
}

// A stream that is no receipt, and the line that says why.
const REFUSED: [(&[u8], &str); 18] = [
    (b"", "refused 1 Empty\n"),
    (b"\x1b@\x1da\x0f\x10\x04\x01\x1b@", "refused 1 Empty\n"),
    (b"Hi\n\x1b@Ho\n", "refused 2 Forbidden 3\n"),
    (b"\x1b@\x1d(H\x06\x00000000", "refused 2 Forbidden 2\n"),
    (b"\x1b@Hi", "refused 3 TextLeft\n"),
    (b"\x1b@\x10\x04\x01Hi\x1dV\x00", "refused 4 MidLine 7\n"),
    (b"\x1b@Hi\x1d(L\x02\x0002\n", "refused 4 MidLine 4\n"),
    (
        b"\x1b@\x1d(L\x0d\x000p0\x01\x011\x08\x00\x03\x00\x10\x14\x01",
        "refused 9 RealTime 2\n",
    ),
    (
        b"\x1b@\x1dv0\x00\x03\x00\x01\x00\x10\x14\x01",
        "refused 9 RealTime 2\n",
    ),
    (
        b"\x1dw\x06\x1dk\x04ABCDEFGHIJ\x00",
        "refused 10 NotPrintable 3\n",
    ),
    (b"\x1b@\x01", "refused 21 UnknownByte 2\n"),
    (b"\x1b@Hi\n\x1b\x01", "refused 22 UnknownCommand 6\n"),
    (b"\x1ba\x07", "refused 23 BadParameter 2\n"),
    (b"\x1dk\x021\x00", "refused 24 BadBarcode 4\n"),
    (b"\x1dv0\x00\x00", "refused 25 BadSize 4\n"),
    (b"Hi\n\x1dV", "refused 26 CutShort 3\n"),
    // the first byte that is refused comes before what is no receipt
    (b"Hi\n\x1b@Ho\n\x01", "refused 21 UnknownByte 8\n"),
    (b"Hi\n\x1b@Ho\n\x1d", "refused 26 CutShort 8\n"),
];

fn is_refused(alloc: Global, stream: &[u8], line: &'static str) -> bool {
    let mut room = [0; 64];
    let mut output = MemoryOut::new(&mut room);
    match read_bytes(alloc, LineWidth::usual(), stream) {
        Ok(_) => false,
        Err(fault) => {
            let status = refuse_raw(fault, &mut output);
            says_so((output.written(), status), (line, Status::Refused))
        }
    }
}

#[test]
fn refused_at_their_places(rt: HostRuntime) {
    for (stream, line) in REFUSED {
        assert!(&rt; is_refused(rt.alloc(), stream, line), "{line:?}");
    }
}

fn fits(rt: &impl Abort, alloc: Global, dots: u16, stream: &[u8]) -> bool {
    let width = LineWidth::new(dots).expect(rt, "a width");
    read_bytes(alloc, width, stream).is_ok()
}

// A barcode of three characters with wide modules fits on a wide line alone.
#[test]
fn printed_at_a_width(rt: HostRuntime) {
    for (dots, wanted) in [(1_024, true), (512, true), (64, false)] {
        let stream = b"\x1dw\x04\x1dk\x04A\x00";
        assert!(&rt;
            fits(&rt, rt.alloc(), dots, stream) == wanted,
            "{dots} dots"
        );
    }
}
