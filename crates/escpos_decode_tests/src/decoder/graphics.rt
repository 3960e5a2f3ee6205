//! Graphics: their worked rows, the ends of each range, and each byte at which they are refused.

use crate::support::comparison::agrees;
use crate::support::decoders::{BAD, decodes, holds, push_half, reads, refuses_last, steps_to};
use escpos_command::{
    Command, FaultReason, Graphics, GraphicsForm, GraphicsFunction, GraphicsHead,
};
use escpos_decode::{Decoder, End, Step};
use escpos_test_values::bytes_of;
use std::alloc::Global;
use std::process::Abort;

const UNKNOWN: FaultReason = FaultReason::UnknownCommand;

const SIZE: FaultReason = FaultReason::BadSize;

// Graphics of this form, size and dots, of factors 1 and 2.
fn store(
    rt: &impl Abort,
    form: GraphicsForm,
    (width, height): (u16, u16),
    dots: Vec<u8>,
) -> Command {
    let head = GraphicsHead {
        form,
        across: 1,
        down: 2,
        width,
        height,
    };
    Command::GraphicsStore(Graphics::new(head, dots).expect(rt, "graphics"))
}

// Two rows of 12 dots, the print in both spellings, and two rows of 5 dots in the long form.
const FOUR: &[u8] =
    b"\x1D(L\x0E\x000p0\x01\x021\x0C\x00\x02\x00\xFF\xF0\x80\x10\x1D(L\x02\x0002\x1D(L\x02\x000\x02\x1D8L\x0C\x00\x00\x000p0\x01\x021\x05\x00\x02\x00\xF8\x08";

#[test]
fn stores_and_prints(rt: HostRuntime) {
    let dots = b"\xFF\xF0\x80\x10".to_vec(rt.alloc()).expect(&rt, "memory");
    let others = b"\xF8\x08".to_vec(rt.alloc()).expect(&rt, "memory");
    let commands = [
        store(&rt, GraphicsForm::Short, (12, 2), dots),
        Command::GraphicsPrint(GraphicsFunction::new(50).expect(&rt, "a function")),
        Command::GraphicsPrint(GraphicsFunction::new(2).expect(&rt, "a function")),
        store(&rt, GraphicsForm::Long, (5, 2), others),
    ];
    let end = End::Read { half: 0 };
    decodes(&rt, rt.alloc(), &[FOUR], &commands, end);
    agrees(&rt, rt.alloc(), FOUR);
    for place in 1..FOUR.len() {
        let pieces = [&FOUR[..place], &FOUR[place..]];
        decodes(&rt, rt.alloc(), &pieces, &commands, end);
    }
}

// The place of a fault counts from the first byte of the stream, or from the byte after the last command.
#[test]
fn places_of_faults(rt: HostRuntime) {
    let rows: [(&[u8], u128, FaultReason); 26] = [
        (b"\x1D8K", 2, UNKNOWN),
        (b"\x1D(L\x00\x00", 4, BAD),
        (b"\x1D(L\x03\x00", 4, BAD),
        (b"\x1D(L\x0A\x00", 4, BAD),
        (b"\x1D(L\x0B\x001", 5, UNKNOWN),
        (b"\x1D(L\x0B\x0002", 6, UNKNOWN),
        (b"\x1D(L\x0B\x000q", 6, UNKNOWN),
        (b"\x1D(L\x02\x000p", 6, UNKNOWN),
        (b"\x1D(L\x02\x000\x03", 6, UNKNOWN),
        (b"\x1D(L\x0B\x000p4", 7, BAD),
        (b"\x1D(L\x0B\x000p0\x00", 8, BAD),
        (b"\x1D(L\x0B\x000p0\x03", 8, BAD),
        (b"\x1D(L\x0B\x000p0\x01\x03", 9, BAD),
        (b"\x1D(L\x0B\x000p0\x01\x012", 10, BAD),
        (b"\x1D(L\x0B\x000p0\x01\x011\x00\x00", 12, SIZE),
        (b"\x1D(L\x0B\x000p0\x01\x011\x01\x04", 12, SIZE),
        (b"\x1D(L\x0B\x000p0\x01\x011\x00\x05", 12, SIZE),
        (b"\x1D(L\x0B\x000p0\x01\x011\x01\x00\x00\x00", 14, SIZE),
        (b"\x1D(L\x0B\x000p0\x01\x011\x01\x00\x00\x10", 14, SIZE),
        (b"\x1D8L\x0A\x00\x00", 5, BAD),
        (b"\x1D8L\x8B\xFF\x07", 5, BAD),
        (b"\x1D8L\x00\x00\x08", 5, BAD),
        (b"\x1D8L\x0B\x00\x00\x01", 6, BAD),
        (b"\x1D8L\x02\x00\x00", 5, BAD),
        (b"\x1D8L\x0B\x00\x00\x0002", 8, UNKNOWN),
        (
            b"\x1D8L\x0B\x00\x00\x000p0\x01\x011\x01\x00\xFF\xFF",
            16,
            SIZE,
        ),
    ];
    for (bytes, at, why) in rows {
        let end = End::Fault { at, why };
        decodes(&rt, rt.alloc(), &[bytes], &[], end);
        let at = at.saturating_add(1);
        let end = End::Fault { at, why };
        decodes(
            &rt,
            rt.alloc(),
            &[b"\x0A", bytes],
            &[Command::LineFeed],
            end,
        );
    }
}

// So many dots follow as the length counts, of any bytes, whatever the size says: 5 by 2 dots are two bytes, 9 by 1 too.
#[test]
fn length_counts(rt: HostRuntime) {
    let head = b"0p0\x01\x021";
    let rows: [(u8, (u16, u16), &[u8]); 6] = [
        (11, (5, 2), b"\x80"),
        (12, (5, 2), b"\xFF\xFF"),
        (13, (5, 2), b"\xFF\x01\x1D"),
        (11, (1024, 4095), b"\x00"),
        (12, (9, 1), b"\x01\x7F"),
        (15, (1, 1), b"\x1D(L\x02\x00"),
    ];
    for (length, (width, height), dots) in rows {
        let [x_low, x_high] = width.to_le_bytes();
        let [y_low, y_high] = height.to_le_bytes();
        let size = [x_low, x_high, y_low, y_high];
        let copy = dots.to_vec(rt.alloc()).expect(&rt, "memory");
        let whole = store(&rt, GraphicsForm::Short, (width, height), copy);
        let mut bytes = b"\x1D(L".to_vec(rt.alloc()).expect(&rt, "memory");
        bytes.extend_from_slice(&[length, 0]).expect(&rt, "memory");
        bytes.extend_from_slice(head).expect(&rt, "memory");
        bytes.extend_from_slice(&size).expect(&rt, "memory");
        bytes.extend_from_slice(dots).expect(&rt, "memory");
        reads(&rt, rt.alloc(), &bytes, &whole);
        agrees(&rt, rt.alloc(), &bytes);
    }
}

// A length is that of a print, or counts at least a byte of dots.
#[test]
fn lengths(rt: HostRuntime) {
    for length in [2u16, 11, 12, 255, 256, 4109, 65_535] {
        let [low, high] = length.to_le_bytes();
        let bytes = [0x1D, b'(', b'L', low, high];
        decodes(&rt, rt.alloc(), &[&bytes], &[], End::Read { half: 5 });
        agrees(&rt, rt.alloc(), &bytes);
    }
    for length in [0u16, 1, 3, 9, 10] {
        let [low, high] = length.to_le_bytes();
        refuses_last(&rt, rt.alloc(), &[0x1D, b'(', b'L', low, high], BAD);
    }
}

// The first two bytes of a length of four are any, and the third makes a number of 11 to 524,170.
#[test]
fn long_lengths(rt: HostRuntime) {
    let rows: [&[u8]; 4] = [
        b"\x1D8L\x00\x00\x01",
        b"\x1D8L\xFF\xFF\x06",
        b"\x1D8L\x8A\xFF\x07",
        b"\x1D8L\x0B\x00\x00",
    ];
    for bytes in rows {
        decodes(&rt, rt.alloc(), &[bytes], &[], End::Read { half: 6 });
        agrees(&rt, rt.alloc(), bytes);
    }
    refuses_last(&rt, rt.alloc(), b"\x1D8L\x8B\xFF\x07", BAD);
    refuses_last(&rt, rt.alloc(), b"\x1D8L\x00\x00\xFF", BAD);
    let most = b"\x1D8L\x8A\xFF\x07\x000p0\x02\x021\x00\x04\xFF\x0F";
    decodes(&rt, rt.alloc(), &[most], &[], End::Read { half: 17 });
    agrees(&rt, rt.alloc(), most);
}

// The widest and highest graphics, pushed byte by byte: the last byte completes them, and not before.
#[test]
fn largest(rt: HostRuntime) {
    let dots = bytes_of(rt.alloc(), (b"", 0x1D, 524_160, b"")).expect(&rt, "memory");
    let (last, others) = dots.split_last().expect(&rt, "dots");
    let mut decoder = Decoder::new(rt.alloc());
    push_half(
        &rt,
        &mut decoder,
        b"\x1D8L\x8A\xFF\x07\x000p0\x01\x021\x00\x04\xFF\x0F",
    );
    holds(&rt, &decoder, 17);
    push_half(&rt, &mut decoder, others);
    holds(&rt, &decoder, 524_176);
    let copy = dots.clone().expect(&rt, "memory");
    let whole = store(&rt, GraphicsForm::Long, (1024, 4095), copy);
    steps_to(&rt, &mut decoder, *last, Ok(Step::Done(whole)));
    holds(&rt, &decoder, 0);
}

// Wherever a store is cut off, all of it that came is pending.
#[test]
fn unfinished(rt: HostRuntime) {
    let bytes = b"\x1D8L\x0C\x00\x00\x000p0\x01\x021\x05\x00\x02\x00\xF8\x08";
    for half in 1..bytes.len() {
        decodes(&rt, rt.alloc(), &[&bytes[..half]], &[], End::Read { half });
    }
}
