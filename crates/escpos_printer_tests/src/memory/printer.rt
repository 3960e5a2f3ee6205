//! Reading an input, decoding, printing, and serving a link.

use crate::support::items::has_text;
use crate::support::links::serve;
use crate::support::page_again::{PageStep, plays_page};
use crate::support::printers::{ONLINE, Step, feeds_again, plays, printer_at_last};
use escpos_command::Command;
use escpos_decode::{Consumer, DecodeFault, Decoded, Decoder, End, Stop, decode, read_piece};
use escpos_io::{ByteIn, MemoryIn, MemoryOut, ReadError, read_to_end};
use escpos_printer::{LinkEnd, Printer, Served};
use escpos_test_values::{BARCODE, BOTH, PICTURE, STORE, STREAM, is_spelled};
use std::alloc::{AllocError, Global};
use std::process::Abort;

// Reads forty bytes, four at a time. Where memory is refused the source hasn't failed, and what is left of it isn't said, so
// a new one is read.
fn all_at_last(rt: &impl Abort, alloc: Global, text: &[u8]) -> Vec<u8> {
    let mut reader = MemoryIn::new(text, 4);
    match read_to_end(alloc, &mut reader, text.len()) {
        Ok(all) => all,
        Err(error) => {
            assert!(rt; error == ReadError::Memory);
            assert!(rt; !reader.has_failed());
            let mut reader = MemoryIn::new(text, 4);
            read_to_end(alloc, &mut reader, text.len()).expect(rt, "the bytes")
        }
    }
}

#[test]
fn read_to_end_refused(rt: HostRuntime) {
    let text = b"0123456789012345678901234567890123456789".as_slice();
    let all = all_at_last(&rt, rt.alloc(), text);
    assert!(&rt; all.as_slice() == text);
}

// Pushes a byte, which has this place in a spelling. Where memory is refused the half command is as it was, and the byte is
// pushed again.
fn step_at_last(
    rt: &impl Abort,
    decoder: &mut Decoder,
    byte: u8,
    place: usize,
) -> escpos_decode::Step {
    assert!(rt; decoder.pending_len() == place);
    match decoder.push(byte) {
        Ok(step) => step,
        Err(fault) => {
            assert!(rt; fault == DecodeFault::Memory);
            assert!(rt; decoder.pending_len() == place);
            decoder.push(byte).expect(rt, "a step")
        }
    }
}

// Pushes a spelling, whose last byte completes the command.
fn completes(rt: &impl Abort, decoder: &mut Decoder, spelling: &[u8]) {
    let (last, others) = spelling.split_last().expect(rt, "a spelling");
    for (place, byte) in others.iter().enumerate() {
        assert!(rt; step_at_last(rt, decoder, *byte, place) == escpos_decode::Step::More);
    }
    match step_at_last(rt, decoder, *last, others.len()) {
        escpos_decode::Step::Done(command) => assert!(rt; is_spelled(&command, spelling)),
        escpos_decode::Step::More => panic!(rt; "no command"),
    }
}

#[test]
fn push_refused(rt: HostRuntime) {
    for spelling in [BARCODE, PICTURE, STORE] {
        let mut decoder = Decoder::new(rt.alloc());
        completes(&rt, &mut decoder, spelling);
    }
}

// Whether these commands are spelled so, one after another, at the beginning of a stream; and how many bytes are left of it.
fn left_of(rt: &impl Abort, commands: &[Command], stream: &[u8]) -> usize {
    let mut left = stream;
    for command in commands {
        let mut room = [0; 32];
        let count = command.spell_at(0, &mut room);
        let (spelling, later) = left.split_at_checked(count).expect(rt, "a spelling");
        assert!(rt; room.get(..count) == Some(spelling));
        left = later;
    }
    left.len()
}

// Reads a stream to a list. Where memory is refused, the commands before were taken; and then it is read from its start.
fn reads_stream(rt: &impl Abort, decoder: &mut Decoder, commands: &mut Vec<Command>) {
    if let Err(stop) = read_piece(decoder, STREAM, commands, &mut ()) {
        assert!(rt; matches!(stop, Stop::Memory | Stop::Refused(AllocError)));
        assert!(rt; left_of(rt, commands, STREAM) > decoder.pending_len());
        decoder.clear();
        commands.clear();
        assert!(rt; read_piece(decoder, STREAM, commands, &mut ()).is_ok());
    }
    assert!(rt; left_of(rt, commands, STREAM) == 0);
    assert!(rt; commands.len() == 5);
}

#[test]
fn read_piece_refused(rt: HostRuntime) {
    let mut decoder = Decoder::new(rt.alloc());
    let mut commands = Vec::new(rt.alloc());
    reads_stream(&rt, &mut decoder, &mut commands);
}

// A list takes a command. Where memory is refused it is as it was, and takes another one.
fn takes(rt: &impl Abort, commands: &mut Vec<Command>, count: usize) {
    if commands.take(Command::LineFeed, 0, &mut ()).is_err() {
        assert!(rt; commands.len() == count);
        assert!(rt; commands.take(Command::LineFeed, 0, &mut ()).is_ok());
    }
    assert!(rt; commands.len() == count.saturating_add(1));
}

#[test]
fn take_refused(rt: HostRuntime) {
    let mut commands = Vec::new(rt.alloc());
    for count in 0..9 {
        takes(&rt, &mut commands, count);
    }
    assert!(&rt; left_of(&rt, &commands, b"\n\n\n\n\n\n\n\n\n") == 0);
}

// The stream of `STREAM`, cut within the barcode and within the raster.
const PIECES: [&[u8]; 3] = [
    b"Hi\n\x1Dk\x0355",
    b"12345\x00\x1Dv0\x00\x01\x00\x02",
    b"\x00\xF0\x0F",
];

fn decoded_at_last(rt: &impl Abort, alloc: Global) -> Decoded {
    match decode(alloc, &PIECES) {
        Ok(decoded) => decoded,
        Err(AllocError) => decode(alloc, &PIECES).expect(rt, "commands"),
    }
}

#[test]
fn decode_refused(rt: HostRuntime) {
    let decoded = decoded_at_last(&rt, rt.alloc());
    assert!(&rt; decoded.end == End::Read { half: 0 });
    assert!(&rt; left_of(&rt, &decoded.commands, STREAM) == 0);
    assert!(&rt; decoded.commands.len() == 5);
}

#[test]
fn ready_refused(rt: HostRuntime) {
    plays_page(&rt, rt.alloc(), &[PageStep::LineFeedsOnceReady(20)]);
}

const READY_FOR_A_PRINT_REFUSED: &[PageStep] = &[
    PageStep::Store,
    PageStep::PrintOnceReady(0),
    PageStep::PrintOnceReady(1),
    PageStep::PrintOnceReady(2),
    PageStep::Paper(THREE_QR_CODES),
];

#[test]
fn ready_for_a_print_refused(rt: HostRuntime) {
    plays_page(&rt, rt.alloc(), READY_FOR_A_PRINT_REFUSED);
}

// Barcodes and rasters, three times.
const THREE_OF_BOTH: &[u8] = b"bars left ean8 162 3 none A 55123457\nraster left normal 1 2 f00f\n\
    bars left ean8 162 3 none A 55123457\nraster left normal 1 2 f00f\n\
    bars left ean8 162 3 none A 55123457\nraster left normal 1 2 f00f\n";

const THREE_QR_CODES: &[u8] = b"qr left 2 3 L AB\nqr left 2 3 L AB\nqr left 2 3 L AB\n";

const APPLY_TO_A_STORED_CODE_REFUSED: &[PageStep] = &[
    PageStep::Store,
    PageStep::Print,
    PageStep::Print,
    PageStep::Print,
    PageStep::Paper(THREE_QR_CODES),
    PageStep::TearOff,
    PageStep::LineFeed,
    PageStep::Print,
    PageStep::Paper(b"feed 1\nqr left 2 3 L AB\n"),
];

// A store, three prints of it, and a line feed between them.
#[test]
fn apply_to_a_stored_code_refused(rt: HostRuntime) {
    plays_page(&rt, rt.alloc(), APPLY_TO_A_STORED_CODE_REFUSED);
}

const APPLY_REFUSED: &[PageStep] = &[
    PageStep::Bars,
    PageStep::Raster,
    PageStep::Bars,
    PageStep::Raster,
    PageStep::Bars,
    PageStep::Raster,
    PageStep::Paper(THREE_OF_BOTH),
    PageStep::TearOff,
    PageStep::Paper(b""),
];

#[test]
fn apply_refused(rt: HostRuntime) {
    plays_page(&rt, rt.alloc(), APPLY_REFUSED);
}

const APPLY_GRAPHICS_REFUSED: &[PageStep] = &[
    PageStep::Graphics,
    PageStep::PrintGraphics,
    PageStep::PrintGraphics,
    PageStep::Graphics,
    PageStep::Graphics,
    PageStep::PrintGraphics,
    PageStep::Paper(b"raster left tall 1 2 f808\nraster left tall 1 2 f808\n"),
];

// Stores of graphics and prints, of which one prints nothing.
#[test]
fn apply_graphics_refused(rt: HostRuntime) {
    plays_page(&rt, rt.alloc(), APPLY_GRAPHICS_REFUSED);
}

// Two lines of 42 characters, each of which the line after it has ended.
const TWO_LINES: &[u8] = b"row left xxxxxxxxxxxxxxxxxxxxxxxxxxxxxxxxxxxxxxxxxx\nfeed 1\n\
    row left xxxxxxxxxxxxxxxxxxxxxxxxxxxxxxxxxxxxxxxxxx\nfeed 1\n";

const APPLY_TEXT_REFUSED: &[PageStep] = &[
    PageStep::Text,
    PageStep::Text,
    PageStep::Text,
    PageStep::Paper(TWO_LINES),
];

#[test]
fn apply_text_refused(rt: HostRuntime) {
    plays_page(&rt, rt.alloc(), APPLY_TEXT_REFUSED);
}

const PRINTED: &[u8] =
    b"row left Hi\nfeed 1\nbars left ean8 162 3 none A 55123457\nraster left normal 1 2 f00f\n";

const NEW_PRINTER_REFUSED: &[Step] = &[
    Step::Online(true),
    Step::Items(0),
    Step::Half(0),
    Step::Waiting(0),
];

#[test]
fn new_printer_refused(rt: HostRuntime) {
    plays(&rt, rt.alloc(), ONLINE, NEW_PRINTER_REFUSED);
}

const FEED_REFUSED: &[Step] = &[
    Step::FeedAgain(STREAM),
    Step::Paper(PRINTED),
    Step::FeedAgain(BOTH),
    Step::Items(6),
    Step::Half(0),
];

#[test]
fn feed_refused(rt: HostRuntime) {
    plays(&rt, rt.alloc(), ONLINE, FEED_REFUSED);
}

// Text of three lines, two of which are full.
const TEXT: &[u8] =
    b"xxxxxxxxxxxxxxxxxxxxxxxxxxxxxxxxxxxxxxxxxxxxxxxxxxxxxxxxxxxxxxxxxxxxxxxxxxxxxxxxxxxxxxxx";

const FEED_OF_TEXT_REFUSED: &[Step] = &[
    Step::FeedAgain(TEXT),
    Step::Paper(TWO_LINES),
    Step::FeedAgain(TEXT),
    Step::Items(8),
];

#[test]
fn feed_of_text_refused(rt: HostRuntime) {
    plays(&rt, rt.alloc(), ONLINE, FEED_OF_TEXT_REFUSED);
}

// A store, a print, a line and two prints more.
const QR_STREAM: &[u8] =
    b"\x1D(k\x05\x001P0AB\x1D(k\x03\x001Q0Hi\x1D(k\x03\x001Q0\x1D(k\x03\x001Q0";

const QR_PAPER: &[u8] =
    b"qr left 2 3 L AB\nrow left Hi\nfeed 1\nqr left 2 3 L AB\nqr left 2 3 L AB\n";

const FEED_OF_QR_CODES_REFUSED: &[Step] = &[Step::FeedAgain(QR_STREAM), Step::Paper(QR_PAPER)];

#[test]
fn feed_of_qr_codes_refused(rt: HostRuntime) {
    plays(&rt, rt.alloc(), ONLINE, FEED_OF_QR_CODES_REFUSED);
}

// A line, a status request, a mark and both; the answers; and how they are served.
const LINK: &[u8] =
    b"Hi\n\x10\x04\x01\x1D(H\x06\x00000007\x1Dk\x035512345\x00\x1Dv0\x00\x01\x00\x02\x00\xF0\x0F";

const LINK_ANSWERS: &[u8] = b"\x12\x37\x220007\x00";

const SERVED: Served = Served {
    read: 38,
    consumed: 38,
    written: 8,
    end: LinkEnd::Ended,
};

// Serves a link. Answers whether no allocation failed. Where one did, the answers are those to what was taken, and what wasn't
// prints the rest.
fn serves(rt: &impl Abort, printer: &mut Printer) -> bool {
    let mut room = [0; 16];
    let mut writer = MemoryOut::new(&mut room);
    let served = serve(printer, &mut MemoryIn::new(LINK, 512), &mut writer, 100);
    assert!(rt; Some(writer.written()) == LINK_ANSWERS.get(..served.written));
    let is_whole = served.end != LinkEnd::Memory;
    if is_whole {
        assert!(rt; served == SERVED);
    } else {
        assert!(rt; served.read == LINK.len() && printer.waiting() == 0);
        let rest = LINK.get(served.consumed..).expect(rt, "a rest");
        assert!(rt; feeds_again(printer, rest));
    }
    assert!(rt; has_text(printer.items(), PRINTED));
    is_whole
}

fn serves_with_a_new_printer(rt: &impl Abort, alloc: Global) -> bool {
    let mut printer = printer_at_last(rt, alloc, ONLINE);
    serves(rt, &mut printer)
}

#[test]
fn serve_link_refused(rt: HostRuntime) {
    assert!(&rt;
        serves_with_a_new_printer(&rt, rt.alloc()) || serves_with_a_new_printer(&rt, rt.alloc())
    );
}
