//! Barcodes: their worked rows, their shortest and longest contents, and each way in which one is refused.

use crate::support::decoders::{BAD, BARCODE, reads, refuses_last};
use escpos_command::{BarFault, Bars, Command, Form, Symbology};
use escpos_test_values::{Stream, bytes_of};
use std::alloc::Global;
use std::process::Abort;

// The bytes spell the barcode with this content.
fn reads_bars(
    rt: &impl Abort,
    alloc: Global,
    bytes: &[u8],
    (form, symbology): (Form, Symbology),
    content: &[u8],
) {
    let content = content.to_vec(alloc).expect(rt, "memory");
    let bars = Bars::new(form, symbology, content).expect(rt, "a barcode");
    reads(rt, alloc, bytes, &Command::Bars(bars));
}

#[test]
fn ean13(rt: HostRuntime) {
    let alloc = rt.alloc();
    let kind = (Form::A, Symbology::Ean13);
    let bytes = b"\x1Dk\x02400638133393\x00";
    reads_bars(&rt, alloc, bytes, kind, b"400638133393");
    let bytes = b"\x1Dk\x024006381333932\x00";
    reads_bars(&rt, alloc, bytes, kind, b"4006381333932");
    refuses_last(&rt, alloc, b"\x1Dk\x0240063813339\x00", BARCODE);
    let content = b"{A1".to_vec(alloc).expect(&rt, "memory");
    let refused = Bars::new(Form::A, Symbology::Code128, content);
    assert!(rt; matches!(refused, Err((BarFault::Form, _))));
}

#[test]
fn ean8_lengths(rt: HostRuntime) {
    refuses_last(&rt, rt.alloc(), b"\x1Dk\x03551234\x00", BARCODE);
    refuses_last(&rt, rt.alloc(), b"\x1Dk\x03551234577", BARCODE);
}

#[test]
fn itf(rt: HostRuntime) {
    refuses_last(&rt, rt.alloc(), b"\x1DkF\x03", BARCODE);
    let kind = (Form::B, Symbology::Itf);
    reads_bars(&rt, rt.alloc(), b"\x1DkF\x0212", kind, b"12");
}

// A symbology with its modes of form A and form B, its shortest and its longest content.
type Contents = (Symbology, u8, u8, Stream<'static>, Stream<'static>);

static CONTENTS: [Contents; 10] = [
    (
        Symbology::UpcA,
        0,
        65,
        (b"", b'0', 11, b""),
        (b"", b'9', 12, b""),
    ),
    (
        Symbology::UpcE,
        1,
        66,
        (b"", b'9', 6, b""),
        (b"0", b'9', 11, b""),
    ),
    (
        Symbology::Ean13,
        2,
        67,
        (b"", b'0', 12, b""),
        (b"", b'9', 13, b""),
    ),
    (
        Symbology::Ean8,
        3,
        68,
        (b"", b'0', 7, b""),
        (b"", b'9', 8, b""),
    ),
    (
        Symbology::Code39,
        4,
        69,
        (b"*", b'A', 0, b""),
        (b" $%*+-./", b'Z', 246, b"9"),
    ),
    (
        Symbology::Itf,
        5,
        70,
        (b"", b'0', 2, b""),
        (b"", b'9', 254, b""),
    ),
    (
        Symbology::Codabar,
        6,
        71,
        (b"A", b'0', 0, b"d"),
        (b"a0$+-./:", b'9', 246, b"D"),
    ),
    // Form A has no such modes.
    (
        Symbology::Code93,
        7,
        72,
        (b"", 0, 1, b""),
        (b"", 0x7F, 255, b""),
    ),
    (
        Symbology::Code128,
        8,
        73,
        (b"{A", b'0', 0, b""),
        (b"{C\x00", 0x7F, 252, b""),
    ),
    (
        Symbology::Gs1Code128,
        9,
        74,
        (b"", b'{', 2, b""),
        (b"\x00", 0x7F, 254, b""),
    ),
];

fn contents() -> &'static [Contents] {
    &CONTENTS
}

// A barcode in form B, with its length before its content.
fn reads_counted(
    rt: &impl Abort,
    alloc: Global,
    (symbology, mode): (Symbology, u8),
    content: &[u8],
) {
    let length = u8::try_from(content.len()).expect(rt, "a length");
    let counted = bytes_of(alloc, (&[0x1D, 0x6B, mode, length], 0, 0, content)).expect(
        rt, "memory",
    );
    reads_bars(rt, alloc, &counted, (Form::B, symbology), content);
}

// A barcode in form A, with 00 after its content.
fn reads_closed(
    rt: &impl Abort,
    alloc: Global,
    (symbology, mode): (Symbology, u8),
    content: &[u8],
) {
    let mut closed = bytes_of(alloc, (&[0x1D, 0x6B, mode], 0, 0, content)).expect(rt, "memory");
    closed.push(0).expect(rt, "memory");
    reads_bars(rt, alloc, &closed, (Form::A, symbology), content);
}

// A content in both forms, where the symbology has them.
fn reads_in_both_forms(
    rt: &impl Abort,
    alloc: Global,
    (symbology, mode_a, mode_b): (Symbology, u8, u8),
    content: &[u8],
) {
    reads_counted(rt, alloc, (symbology, mode_b), content);
    match symbology {
        Symbology::Code93 | Symbology::Code128 | Symbology::Gs1Code128 => {
            refuses_last(rt, alloc, &[0x1D, 0x6B, mode_a], BAD);
        }
        _ => reads_closed(rt, alloc, (symbology, mode_a), content),
    }
}

#[test]
fn shortest_and_longest_contents(rt: HostRuntime) {
    for (symbology, mode_a, mode_b, shortest, longest) in contents() {
        for part in [shortest, longest] {
            let content = bytes_of(rt.alloc(), *part).expect(&rt, "memory");
            let kind = (*symbology, *mode_a, *mode_b);
            reads_in_both_forms(&rt, rt.alloc(), kind, &content);
        }
    }
}

// Contents of which the last byte is refused, at its exact place.
const REFUSED: [Stream<'static>; 59] = [
    // form A: 00 too early
    (b"\x1Dk\x00", b'1', 0, b"\x00"),
    (b"\x1Dk\x00", b'1', 10, b"\x00"),
    (b"\x1Dk\x01", b'1', 5, b"\x00"),
    (b"\x1Dk\x01", b'0', 9, b"\x00"),
    (b"\x1Dk\x02", b'1', 11, b"\x00"),
    (b"\x1Dk\x03", b'1', 6, b"\x00"),
    (b"\x1Dk\x04", b'A', 0, b"\x00"),
    (b"\x1Dk\x05", b'1', 0, b"\x00"),
    (b"\x1Dk\x05", b'1', 3, b"\x00"),
    (b"\x1Dk\x05", b'1', 253, b"\x00"),
    (b"\x1Dk\x06", b'1', 0, b"\x00"),
    (b"\x1Dk\x06A", b'1', 0, b"\x00"),
    (b"\x1Dk\x06A", b'1', 253, b"\x00"),
    // form A: no 00 where the longest content ends
    (b"\x1Dk\x00", b'1', 12, b"1"),
    (b"\x1Dk\x01", b'1', 6, b"1"),
    (b"\x1Dk\x01", b'0', 12, b"0"),
    (b"\x1Dk\x02", b'1', 13, b"1"),
    (b"\x1Dk\x03", b'1', 8, b"1"),
    (b"\x1Dk\x04", b'A', 255, b"A"),
    (b"\x1Dk\x05", b'1', 254, b"1"),
    (b"\x1Dk\x06A", b'1', 253, b"1"),
    (b"\x1Dk\x06A", b'1', 253, b"BB"),
    (b"\x1Dk\x06AB", b'1', 0, b"1"),
    (b"\x1Dk\x06AB", b'1', 0, b"A"),
    // form A: a byte that the symbology doesn't have
    (b"\x1Dk\x00", b'1', 11, b"A"),
    (b"\x1Dk\x01", b'1', 0, b"\x00"),
    (b"\x1Dk\x01", b'1', 0, b"A"),
    (b"\x1Dk\x01", b'0', 6, b":"),
    (b"\x1Dk\x02", b'1', 0, b"/"),
    (b"\x1Dk\x03", b'1', 7, b":"),
    (b"\x1Dk\x04", b'A', 254, b"a"),
    (b"\x1Dk\x05", b'1', 1, b" "),
    (b"\x1Dk\x06", b'1', 0, b"1"),
    (b"\x1Dk\x06", b'1', 0, b"E"),
    (b"\x1Dk\x06A", b'1', 1, b"E"),
    // form B: a length that the symbology doesn't have
    (b"\x1DkA", b'1', 0, b"\x0A"),
    (b"\x1DkA", b'1', 0, b"\x0D"),
    (b"\x1DkB", b'1', 0, b"\x05"),
    (b"\x1DkB", b'1', 0, b"\x09"),
    (b"\x1DkC", b'1', 0, b"\x0E"),
    (b"\x1DkD", b'1', 0, b"\x09"),
    (b"\x1DkE", b'1', 0, b"\x00"),
    (b"\x1DkF", b'1', 0, b"\xFF"),
    (b"\x1DkG", b'1', 0, b"\x01"),
    (b"\x1DkH", b'1', 0, b"\x00"),
    (b"\x1DkI", b'1', 0, b"\x01"),
    (b"\x1DkJ", b'1', 0, b"\x01"),
    // form B: a byte that can't stand at its place
    (b"\x1DkA\x0B", b'1', 10, b"\x00"),
    (b"\x1DkB\x07", b'1', 1, b""),
    (b"\x1DkB\x06", b'1', 5, b"A"),
    (b"\x1DkE\xFF", b'A', 254, b"a"),
    (b"\x1DkG\xFFA", b'1', 253, b"1"),
    (b"\x1DkG\xFFA", b'1', 252, b"B"),
    (b"\x1DkI\x02", b'1', 0, b"A"),
    (b"\x1DkI\x02{", b'1', 0, b"D"),
    (b"\x1DkI\x03{A", b'1', 0, b"\x80"),
    (b"\x1DkI\xFF{C", b'1', 252, b"\xFF"),
    (b"\x1DkH\xFF", 0x7F, 254, b"\x80"),
    (b"\x1DkJ\x02", b'{', 1, b"\x80"),
];

fn refused_streams() -> &'static [Stream<'static>] {
    &REFUSED
}

#[test]
fn refused_contents(rt: HostRuntime) {
    for stream in refused_streams() {
        let bytes = bytes_of(rt.alloc(), *stream).expect(&rt, "memory");
        refuses_last(&rt, rt.alloc(), &bytes, BARCODE);
    }
    for mode in [7, 8, 9, 64, 75] {
        refuses_last(&rt, rt.alloc(), &[0x1D, 0x6B, mode], BAD);
    }
}
