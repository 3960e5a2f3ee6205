//! QR codes: their worked rows, the ends of each range, and each way in which a function of GS ( k is refused.

use crate::support::comparison::agrees;
use crate::support::decoders::{BAD, decodes, holds, push_half, reads, refuses_last, steps_to};
use escpos_command::{Character, Command, FaultReason, MarkId, QrData, QrLevel, QrModel, QrSize};
use escpos_decode::{Decoder, End, Step};
use escpos_test_values::{bytes_of, marks};
use std::alloc::Global;
use std::process::Abort;

// Why a byte in place of cn or of a function is refused.
const UNKNOWN: FaultReason = FaultReason::UnknownCommand;

// The store of this data.
fn store(rt: &impl Abort, alloc: Global, data: &[u8]) -> Command {
    let data = data.to_vec(alloc).expect(rt, "memory");
    Command::QrStore(QrData::new(data).expect(rt, "the data of a QR code"))
}

// Model 2, modules of 8 dots, level M, the data `A/1` and the print.
const FIVE_FUNCTIONS: &[u8] =
    b"\x1D(k\x04\x001A2\x00\x1D(k\x03\x001C\x08\x1D(k\x03\x001E1\x1D(k\x06\x001P0A/1\x1D(k\x03\x001Q0";

#[test]
fn five_functions(rt: HostRuntime) {
    let commands = [
        Command::QrModel(QrModel::new(50).expect(&rt, "a model")),
        Command::QrSize(QrSize::new(8).expect(&rt, "a size")),
        Command::QrLevel(QrLevel::new(49).expect(&rt, "a level")),
        store(&rt, rt.alloc(), b"A/1"),
        Command::QrPrint,
    ];
    let end = End::Read { half: 0 };
    decodes(&rt, rt.alloc(), &[FIVE_FUNCTIONS], &commands, end);
    agrees(&rt, rt.alloc(), FIVE_FUNCTIONS);
    for place in 1..FIVE_FUNCTIONS.len() {
        let pieces = [&FIVE_FUNCTIONS[..place], &FIVE_FUNCTIONS[place..]];
        decodes(&rt, rt.alloc(), &pieces, &commands, end);
    }
}

#[test]
fn model_range(rt: HostRuntime) {
    for n in [49, 50] {
        let model = Command::QrModel(QrModel::new(n).expect(&rt, "a model"));
        let bytes = [0x1D, 0x28, 0x6B, 4, 0, 0x31, 0x41, n, 0];
        reads(&rt, rt.alloc(), &bytes, &model);
        for end in [1, 0x30, 0xFF] {
            let bytes = [0x1D, 0x28, 0x6B, 4, 0, 0x31, 0x41, n, end];
            refuses_last(&rt, rt.alloc(), &bytes, BAD);
        }
    }
    for n in [0, 1, 2, 48, 51] {
        let bytes = [0x1D, 0x28, 0x6B, 4, 0, 0x31, 0x41, n];
        refuses_last(&rt, rt.alloc(), &bytes, BAD);
    }
}

// The place of a fault counts from the first byte of the stream, or from the byte after the last command.
#[test]
fn places_of_faults(rt: HostRuntime) {
    let rows: [(&[u8], u128, FaultReason); 7] = [
        (b"\x1D(k\x02\x00", 4, BAD),
        (b"\x1D(k\x03\x00\x30", 5, UNKNOWN),
        (b"\x1D(k\x03\x001B", 6, UNKNOWN),
        (b"\x1D(k\x03\x001C\x00", 7, BAD),
        (b"\x1D(k\x04\x001A1\x01", 8, BAD),
        (b"\x1D(k\x04\x001P1", 7, BAD),
        (b"\x1D(k\x03\x001Q1", 7, BAD),
    ];
    for (bytes, at, why) in rows {
        let end = End::Fault { at, why };
        decodes(&rt, rt.alloc(), &[bytes], &[], end);
        let at = at.saturating_add(1);
        let end = End::Fault { at, why };
        decodes(
            &rt,
            rt.alloc(),
            &[b"\x0A", bytes],
            &[Command::LineFeed],
            end,
        );
    }
}

// pL + 256 pH is 3 at least, and 7,092 at most: 7,089 bytes of data and three.
#[test]
fn lengths(rt: HostRuntime) {
    let refused: [[u8; 2]; 8] = [
        [0x00, 0x00],
        [0x01, 0x00],
        [0x02, 0x00],
        [0xB5, 0x1B],
        [0x00, 0x1C],
        [0xB4, 0x1C],
        [0x03, 0x80],
        [0xFF, 0xFF],
    ];
    for [low, high] in refused {
        refuses_last(&rt, rt.alloc(), &[0x1D, 0x28, 0x6B, low, high], BAD);
    }
    let taken: [[u8; 2]; 6] = [
        [0x03, 0x00],
        [0x04, 0x00],
        [0x00, 0x01],
        [0xFF, 0x1A],
        [0x00, 0x1B],
        [0xB4, 0x1B],
    ];
    for [low, high] in taken {
        let bytes = [0x1D, 0x28, 0x6B, low, high];
        decodes(&rt, rt.alloc(), &[&bytes], &[], End::Read { half: 5 });
        agrees(&rt, rt.alloc(), &bytes);
    }
}

// cn is 49, and a function is one that is taken with this length; any other is unknown.
#[test]
fn unknown_functions(rt: HostRuntime) {
    for cn in [0x00, 0x30, 0x32, 0x33, 0xB1] {
        refuses_last(&rt, rt.alloc(), &[0x1D, 0x28, 0x6B, 3, 0, cn], UNKNOWN);
    }
    for function in [0x40, 0x42, 0x44, 0x46, 0x4F, 0x52, 0x61] {
        for length in [3, 4] {
            let bytes = [0x1D, 0x28, 0x6B, length, 0, 0x31, function];
            refuses_last(&rt, rt.alloc(), &bytes, UNKNOWN);
        }
    }
}

// Each function but 80 has one length, and 80 has a byte of data at least.
#[test]
fn lengths_that_fit_no_function(rt: HostRuntime) {
    let rows: [(u8, u8, u8); 14] = [
        (3, 0, 0x41),
        (5, 0, 0x41),
        (4, 1, 0x41),
        (4, 0, 0x43),
        (5, 0, 0x43),
        (3, 1, 0x43),
        (4, 0, 0x45),
        (0, 1, 0x45),
        (3, 0, 0x50),
        (4, 0, 0x51),
        (3, 1, 0x51),
        (0xB4, 0x1B, 0x51),
        (0xB4, 0x1B, 0x41),
        (0xB4, 0x1B, 0x45),
    ];
    for (low, high, function) in rows {
        let bytes = [0x1D, 0x28, 0x6B, low, high, 0x31, function];
        refuses_last(&rt, rt.alloc(), &bytes, UNKNOWN);
    }
}

#[test]
fn store_mode(rt: HostRuntime) {
    for mode in [0x00, 0x2F, 0x31, 0xB0] {
        let bytes = [0x1D, 0x28, 0x6B, 4, 0, 0x31, 0x50, mode];
        refuses_last(&rt, rt.alloc(), &bytes, BAD);
        let bytes = [0x1D, 0x28, 0x6B, 3, 0, 0x31, 0x51, mode];
        refuses_last(&rt, rt.alloc(), &bytes, BAD);
    }
}

// One byte of data, of each value.
#[test]
fn stores_of_one_byte(rt: HostRuntime) {
    for byte in 0..=255 {
        let bytes = [0x1D, 0x28, 0x6B, 4, 0, 0x31, 0x50, 0x30, byte];
        reads(&rt, rt.alloc(), &bytes, &store(&rt, rt.alloc(), &[byte]));
    }
}

// Data is not read as commands: an Init, a cut and a whole print among it.
#[test]
fn commands_in_data(rt: HostRuntime) {
    let data = b"\x1B@\x1DV\x00\x1D(k\x03\x001Q0\x10\x04\x01";
    let bytes = b"\x1D(k\x13\x001P0\x1B@\x1DV\x00\x1D(k\x03\x001Q0\x10\x04\x01";
    reads(&rt, rt.alloc(), bytes, &store(&rt, rt.alloc(), data));
}

// The bytes before the data of the longest store, and before that of one of 256 bytes.
const LONGEST: [u8; 8] = [0x1D, 0x28, 0x6B, 0xB4, 0x1B, 0x31, 0x50, 0x30];

const OF_256: [u8; 8] = [0x1D, 0x28, 0x6B, 0x03, 0x01, 0x31, 0x50, 0x30];

// The bytes before the data, and the data: the last byte of it completes the command, and not before.
fn completes(rt: &impl Abort, decoder: &mut Decoder, (head, data): (&[u8], &[u8]), store: Command) {
    let (last, others) = data.split_last().expect(rt, "data");
    push_half(rt, decoder, head);
    holds(rt, decoder, 8);
    push_half(rt, decoder, others);
    holds(rt, decoder, others.len().saturating_add(8));
    steps_to(rt, decoder, *last, Ok(Step::Done(store)));
    holds(rt, decoder, 0);
    steps_to(rt, decoder, 0x0A, Ok(Step::Done(Command::LineFeed)));
}

// A store of so many bytes: pushed byte by byte, in two pieces, and one byte short of its end.
fn reads_long(rt: &impl Abort, alloc: Global, head: &[u8], count: usize) {
    let data = bytes_of(alloc, (b"", 0x1D, count, b"")).expect(rt, "memory");
    let stored = store(rt, alloc, &data);
    completes(rt, &mut Decoder::new(alloc), (head, &data), stored);
    let (piece, rest) = data.split_at_checked(100).expect(rt, "data");
    let commands = [store(rt, alloc, &data)];
    let end = End::Read { half: 0 };
    decodes(rt, alloc, &[head, piece, rest], &commands, end);
    let short = data.get(1..).expect(rt, "data");
    let half = short.len().saturating_add(8);
    decodes(rt, alloc, &[head, short], &[], End::Read { half });
}

#[test]
fn long_stores(rt: HostRuntime) {
    reads_long(&rt, rt.alloc(), &LONGEST, 7089);
    reads_long(&rt, rt.alloc(), &OF_256, 256);
}

// The plain reader agrees at each byte of a store of 256 bytes.
#[test]
fn plain_reader_agrees_on_a_long_store(rt: HostRuntime) {
    let bytes = bytes_of(rt.alloc(), (&OF_256, 0x1B, 256, b"A")).expect(&rt, "memory");
    agrees(&rt, rt.alloc(), &bytes);
}

// Wherever a function is cut off, all of it that came is pending.
#[test]
fn unfinished(rt: HostRuntime) {
    let functions: [&[u8]; 5] = [
        b"\x1D(k\x04\x001A2\x00",
        b"\x1D(k\x03\x001C\x08",
        b"\x1D(k\x03\x001E1",
        b"\x1D(k\x06\x001P0A/1",
        b"\x1D(k\x03\x001Q0",
    ];
    for bytes in functions {
        for half in 1..bytes.len() {
            decodes(&rt, rt.alloc(), &[&bytes[..half]], &[], End::Read { half });
        }
    }
}

// The character with this byte.
fn character(rt: &impl Abort, byte: u8) -> Command {
    Command::Char(Character::new(byte).expect(rt, "a printable byte"))
}

// Data of which 14 bytes are lacking takes a mark and the first three bytes of the next, and the byte after these, the low byte
// of a length, begins no command.
#[test]
fn lost_bytes_leave_a_fault(rt: HostRuntime) {
    let two = marks(rt.alloc(), &[0, 1]).expect(&rt, "marks");
    let head = b"\x1D(k\x13\x001P0AB";
    let taken = two.get(..14).expect(&rt, "marks");
    let data = bytes_of(rt.alloc(), (b"AB", 0, 0, taken)).expect(&rt, "memory");
    let stream = bytes_of(rt.alloc(), (head, 0, 0, &two)).expect(&rt, "memory");
    let commands = [store(&rt, rt.alloc(), &data)];
    let why = FaultReason::UnknownByte;
    let end = End::Fault { at: 24, why };
    decodes(&rt, rt.alloc(), &[&stream], &commands, end);
    agrees(&rt, rt.alloc(), &stream);
}

// Where 20 bytes are lacking, the last two bytes of the second mark's id are left as text, and the next mark is one.
#[test]
fn lost_bytes_leave_text(rt: HostRuntime) {
    let three = marks(rt.alloc(), &[0, 1, 2]).expect(&rt, "marks");
    let head = b"\x1D(k\x19\x001P0AB";
    let taken = three.get(..20).expect(&rt, "marks");
    let data = bytes_of(rt.alloc(), (b"AB", 0, 0, taken)).expect(&rt, "memory");
    let stream = bytes_of(rt.alloc(), (head, 0, 0, &three)).expect(&rt, "memory");
    let commands = [
        store(&rt, rt.alloc(), &data),
        character(&rt, b'0'),
        character(&rt, b'1'),
        Command::Mark(MarkId::of_number(2).expect(&rt, "a mark")),
    ];
    decodes(
        &rt,
        rt.alloc(),
        &[&stream],
        &commands,
        End::Read { half: 0 },
    );
    agrees(&rt, rt.alloc(), &stream);
}
