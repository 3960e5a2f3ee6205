//! Rasters: their worked rows, their sizes, and each way in which one is refused.

use crate::support::comparison::agrees;
use crate::support::decoders::{
    BAD, HALF_AS_HIGH, LARGEST, SIZE, decodes, holds, push_half, reads, refuses_last, steps_to,
};
use escpos_command::{Character, Command, FaultReason, MarkId, Raster, RasterFault};
use escpos_decode::{Decoder, End, Step};
use escpos_test_values::{bytes_of, marks};
use std::alloc::Global;
use std::process::Abort;

// The raster with this mode, this size and these dots.
fn picture(rt: &impl Abort, alloc: Global, mode: u8, [x, y]: [u16; 2], dots: &[u8]) -> Command {
    let dots = dots.to_vec(alloc).expect(rt, "memory");
    Command::Raster(Raster::new(mode, x, y, dots).expect(rt, "a raster"))
}

// The character with this byte.
fn character(rt: &impl Abort, byte: u8) -> Command {
    Command::Char(Character::new(byte).expect(rt, "a printable byte"))
}

#[test]
fn unfinished(rt: HostRuntime) {
    let ean13 = b"\x1Dk\x02400638133393\x00";
    for half in 1..16 {
        decodes(&rt, rt.alloc(), &[&ean13[..half]], &[], End::Read { half });
    }
    for head in [LARGEST, HALF_AS_HIGH] {
        decodes(&rt, rt.alloc(), &[&head], &[], End::Read { half: 8 });
        agrees(&rt, rt.alloc(), &head);
    }
}

#[test]
fn raster(rt: HostRuntime) {
    let small = picture(&rt, rt.alloc(), 0, [1, 2], &[0xF0, 0x0F]);
    let bytes = b"\x1Dv0\x00\x01\x00\x02\x00\xF0\x0F";
    reads(&rt, rt.alloc(), bytes, &small);
    let refused: [&[u8]; 5] = [
        b"\x1Dv0\x00\x00",
        b"\x1Dv0\x00\x81",
        b"\x1Dv0\x00\x01\x01",
        b"\x1Dv0\x00\x01\x00\x00\x00",
        b"\x1Dv0\x00\x01\x00\x00\x10",
    ];
    for bytes in refused {
        refuses_last(&rt, rt.alloc(), bytes, SIZE);
    }
}

// The bytes before the dots of the widest raster, and the dots: the last of them completes the command.
fn completes(
    rt: &impl Abort,
    decoder: &mut Decoder,
    (head, dots): (&[u8], &[u8]),
    raster: Command,
) {
    let (last, others) = dots.split_last().expect(rt, "a dot");
    push_half(rt, decoder, head);
    push_half(rt, decoder, others);
    holds(rt, decoder, others.len().saturating_add(8));
    steps_to(rt, decoder, *last, Ok(Step::Done(raster)));
    holds(rt, decoder, 0);
}

// The widest raster with this many rows is one command.
fn reads_widest(rt: &impl Abort, alloc: Global, head: &[u8], rows: u16, count: usize) {
    let dots = bytes_of(alloc, (b"", 0x1D, count, b"")).expect(rt, "memory");
    let raster = picture(rt, alloc, 0, [128, rows], &dots);
    completes(rt, &mut Decoder::new(alloc), (head, &dots), raster);
}

// The widest and highest raster, which has 524,160 bytes of dots; before the last of them 524,167 bytes are pending.
#[test]
fn largest_raster(rt: HostRuntime) {
    reads_widest(&rt, rt.alloc(), &LARGEST, 4095, 524_160);
}

// One with 2,047 rows has 262,016 bytes of dots; before the last of them 262,023 bytes are pending.
#[test]
fn raster_of_2047_rows(rt: HostRuntime) {
    reads_widest(&rt, rt.alloc(), &HALF_AS_HIGH, 2047, 262_016);
}

// The widest raster with this many rows in two pieces of dots, and a line feed.
fn decodes_widest(rt: &impl Abort, alloc: Global, head: &[u8], rows: u16, piece: &[u8]) {
    let mut dots = piece.to_vec(alloc).expect(rt, "memory");
    dots.extend_from_slice(piece).expect(rt, "memory");
    let commands = [picture(rt, alloc, 0, [128, rows], &dots), Command::LineFeed];
    let pieces: [&[u8]; 4] = [head, piece, piece, b"\x0A"];
    decodes(rt, alloc, &pieces, &commands, End::Read { half: 0 });
}

#[test]
fn largest_raster_in_pieces(rt: HostRuntime) {
    let piece = bytes_of(rt.alloc(), (b"", 0x1B, 262_080, b"")).expect(&rt, "memory");
    decodes_widest(&rt, rt.alloc(), &LARGEST, 4095, &piece);
    let piece = bytes_of(rt.alloc(), (b"", 0x1B, 131_008, b"")).expect(&rt, "memory");
    decodes_widest(&rt, rt.alloc(), &HALF_AS_HIGH, 2047, &piece);
}

#[test]
fn wider_limits(rt: HostRuntime) {
    refuses_last(&rt, rt.alloc(), b"\x1Bp\x02", BAD);
    let bytes = b"\x1Dv0\x00\x01\x00\x00\x08";
    decodes(&rt, rt.alloc(), &[bytes], &[], End::Read { half: 8 });
    refuses_last(&rt, rt.alloc(), b"\x1Dv0\x00\x01\x00\x00\x10", SIZE);
}

// A raster of one byte repeated: the bytes before its dots, the byte and how often it comes, its mode and its size.
type Repeated = (&'static [u8], u8, usize, u8, [u16; 2]);

fn reads_repeated(rt: &impl Abort, alloc: Global, (head, byte, times, mode, size): Repeated) {
    let dots = bytes_of(alloc, (b"", byte, times, b"")).expect(rt, "memory");
    let raster = picture(rt, alloc, mode, size, &dots);
    let bytes = bytes_of(alloc, (head, byte, times, b"")).expect(rt, "memory");
    reads(rt, alloc, &bytes, &raster);
}

// The least and the greatest width, a height of two bytes, and scales.
#[test]
fn sizes_of_rasters(rt: HostRuntime) {
    let rows: [Repeated; 3] = [
        (b"\x1Dv0\x03\x01\x00\x01\x00", 0x80, 1, 3, [1, 1]),
        (b"\x1Dv0\x30\x80\x00\x01\x00", 0xFF, 128, 48, [128, 1]),
        (b"\x1Dv0\x31\x01\x00\x00\x01", 0x0A, 256, 49, [1, 256]),
    ];
    for row in rows {
        reads_repeated(&rt, rt.alloc(), row);
    }
    for refused in [b"\x1Dv0\x04", b"\x1Dv0\x2F", b"\x1Dv0\x34"] {
        refuses_last(&rt, rt.alloc(), refused, BAD);
    }
    refuses_last(&rt, rt.alloc(), b"\x1Dv1", FaultReason::UnknownCommand);
}

#[test]
fn raster_behind_text(rt: HostRuntime) {
    let bytes = b"A\x1Dv0\x00\x01\x00\x01\x00\xFF";
    let commands = [
        character(&rt, b'A'),
        picture(&rt, rt.alloc(), 0, [1, 1], &[0xFF]),
    ];
    decodes(&rt, rt.alloc(), &[bytes], &commands, End::Read { half: 0 });
    agrees(&rt, rt.alloc(), bytes);
}

// These dots are no raster of this mode and size, for this reason, and come back.
fn no_raster(
    rt: &impl Abort,
    alloc: Global,
    (mode, x, y): (u8, u16, u16),
    dots: &[u8],
    why: RasterFault,
) {
    let dots_given = dots.to_vec(alloc).expect(rt, "memory");
    match Raster::new(mode, x, y, dots_given) {
        Ok(_) => panic!(rt; "a raster"),
        Err((fault, back)) => {
            assert!(rt; fault == why);
            assert!(rt; back.as_slice() == dots);
        }
    }
}

#[test]
fn raster_refusals(rt: HostRuntime) {
    no_raster(&rt, rt.alloc(), (0, 1, 2), &[0xF0], RasterFault::Length);
    no_raster(&rt, rt.alloc(), (4, 0, 2), &[], RasterFault::Scale);
}

// The bytes before the dots of a raster of one byte by 30 rows.
const NARROW: &[u8] = b"\x1Dv0\x00\x01\x00\x1E\x00";

// Such a raster with so many dots of its own, to which the first bytes of the marks are joined.
fn narrow(rt: &impl Abort, alloc: Global, count: usize, marks: &[u8]) -> Command {
    let taken = marks
        .get(..30usize.saturating_sub(count))
        .expect(rt, "marks");
    let dots = bytes_of(alloc, (b"", 0x55, count, taken)).expect(rt, "memory");
    picture(rt, alloc, 0, [1, 30], &dots)
}

// The raster's first dots and three marks are read so. The plain reader agrees at each byte.
fn reads_marks_as_dots(
    rt: &impl Abort,
    alloc: Global,
    (count, marks): (usize, &[u8]),
    commands: &[Command],
    end: End,
) {
    let stream = bytes_of(alloc, (NARROW, 0x55, count, marks)).expect(rt, "memory");
    decodes(rt, alloc, &[&stream], commands, end);
    agrees(rt, alloc, &stream);
}

#[test]
fn lost_raster_bytes(rt: HostRuntime) {
    let three = marks(rt.alloc(), &[0, 1, 2]).expect(&rt, "marks");
    let end = End::Read { half: 0 };
    let mark = Command::Mark(MarkId::of_number(2).expect(&rt, "a mark"));
    // 22 bytes are lacking, two whole marks
    let commands = [narrow(&rt, rt.alloc(), 8, &three), mark];
    reads_marks_as_dots(&rt, rt.alloc(), (8, &three), &commands, end);
}

// 20 bytes are lacking, and the last two bytes of a mark's id are left.
#[test]
fn lost_raster_bytes_leave_text(rt: HostRuntime) {
    let three = marks(rt.alloc(), &[0, 1, 2]).expect(&rt, "marks");
    let commands = [
        narrow(&rt, rt.alloc(), 10, &three),
        character(&rt, b'0'),
        character(&rt, b'1'),
        Command::Mark(MarkId::of_number(2).expect(&rt, "a mark")),
    ];
    let end = End::Read { half: 0 };
    reads_marks_as_dots(&rt, rt.alloc(), (10, &three), &commands, end);
}

// 14 bytes are lacking, and the next byte of a mark is refused.
#[test]
fn lost_raster_bytes_leave_a_fault(rt: HostRuntime) {
    let three = marks(rt.alloc(), &[0, 1, 2]).expect(&rt, "marks");
    let commands = [narrow(&rt, rt.alloc(), 16, &three)];
    let why = FaultReason::UnknownByte;
    let end = End::Fault { at: 38, why };
    reads_marks_as_dots(&rt, rt.alloc(), (16, &three), &commands, end);
}
