//! The size of QR codes in `draw`: the smallest version that holds the content. The capacities are those of ISO/IEC 18004, table 7.

use super::document;
use escpos_command::LineWidth;
use escpos_io::{MemoryIn, Outgoing};
use escpos_job_parts::form::Form;
use escpos_job_parts::status::Status;
use escpos_stream_jobs::draw::draw;
use escpos_test_jobs::{draw_task, prints};
use escpos_test_receipts::joined;
use std::alloc::Global;
use std::process::Abort;

// The byte of a level, a character that the content repeats, how often it does so at most in a version, and the modules along a
// side of that version.
type Largest = (&'static str, &'static str, usize, usize);

const LARGEST: [Largest; 51] = [
    // L: digits, capitals and bytes
    ("30", "7", 41, 21),
    ("30", "A", 25, 21),
    ("30", "a", 17, 21),
    ("30", "7", 552, 53),
    ("30", "A", 335, 53),
    ("30", "a", 230, 53),
    ("30", "7", 652, 57),
    ("30", "A", 395, 57),
    ("30", "a", 271, 57),
    ("30", "7", 3283, 121),
    ("30", "A", 1990, 121),
    ("30", "a", 1367, 121),
    ("30", "7", 3517, 125),
    ("30", "A", 2132, 125),
    ("30", "a", 1465, 125),
    ("30", "7", 7089, 177),
    ("30", "A", 4296, 177),
    ("30", "a", 2953, 177),
    // M
    ("31", "7", 34, 21),
    ("31", "a", 14, 21),
    ("31", "7", 5596, 177),
    ("31", "a", 2331, 177),
    // Q
    ("32", "A", 16, 21),
    ("32", "7", 3993, 177),
    ("32", "a", 1663, 177),
    // H
    ("33", "a", 7, 21),
    ("33", "A", 1852, 177),
    ("33", "a", 1273, 177),
    // where the number of characters takes a bit more or less
    ("33", "7", 139, 41),
    ("31", "A", 20, 21),
    ("31", "A", 1994, 137),
    ("31", "A", 1637, 125),
    // all alphanumeric characters that are no digits and no capitals, the last capital, and neighbours that are bytes
    ("30", "Z", 25, 21),
    ("30", " ", 25, 21),
    ("30", "$", 25, 21),
    ("30", "%", 25, 21),
    ("30", "*", 25, 21),
    ("30", "+", 25, 21),
    ("30", "-", 25, 21),
    ("30", ".", 25, 21),
    ("30", "/", 25, 21),
    ("30", ":", 25, 21),
    ("30", "!", 17, 21),
    ("30", "#", 17, 21),
    ("30", ")", 17, 21),
    ("30", ",", 17, 21),
    ("30", ";", 17, 21),
    ("30", "@", 17, 21),
    ("30", "[", 17, 21),
    ("30", "`", 17, 21),
    ("30", "{", 17, 21),
];

// The stream that prints so many of a character at a level, in modules of a dot.
fn stream_of(
    rt: &impl Abort,
    alloc: Global,
    level: &str,
    character: &str,
    count: usize,
) -> Vec<u8> {
    let length = u16::try_from(count.saturating_add(3)).expect(rt, "a length");
    let [low, high] = length.to_le_bytes();
    let byte = *character.as_bytes().first().expect(rt, "a character");
    let head = format!(in alloc;
        "1D286B03003143011D286B03003145{level}1D286B{low:02X}{high:02X}315030"
    ).expect(rt, "memory");
    let digits = format!(in alloc; "{byte:02X}").expect(rt, "memory");
    joined(alloc, [&head, &digits, "1D286B0300315130"], count).expect(rt, "memory")
}

// What stands before the content: a box of this side, or one of two lines of text where no version holds it.
fn front_of(rt: &impl Abort, alloc: Global, side: usize, length: usize) -> String {
    if side > 177 {
        format!(in alloc;
            "<g class=\"qr\" transform=\"translate(32,32)\">\n<svg y=\"0\" width=\"512\" height=\"48\"><rect class=\"box\" width=\"512\" height=\"48\"/></svg>\n<svg y=\"0\" width=\"512\" height=\"48\" viewBox=\"0 0 512 48\"><text class=\"middle\" x=\"256\" y=\"18\">not scannable</text><text class=\"middle\" x=\"256\" y=\"42\" textLength=\"{length}\" lengthAdjust=\"spacingAndGlyphs\">"
        ).expect(rt, "memory")
    } else {
        format!(in alloc;
            "<g class=\"qr\" transform=\"translate(32,32)\">\n<svg width=\"{side}\" height=\"{side}\"><rect class=\"box\" width=\"{side}\" height=\"{side}\"/></svg>\n<svg width=\"{side}\" height=\"{side}\" viewBox=\"0 0 512 512\"><text class=\"middle\" x=\"256\" y=\"262\" textLength=\"{length}\" lengthAdjust=\"spacingAndGlyphs\">"
        ).expect(rt, "memory")
    }
}

// The document of such a content, which has so many of a character.
fn boxed(rt: &impl Abort, alloc: Global, (character, count, side): (&str, usize, usize)) -> String {
    let front = front_of(rt, alloc, side, count.saturating_mul(12).min(496));
    let depth = if side > 177 { 48 } else { side };
    let height = format!(in alloc; "{}", depth.saturating_add(64)).expect(rt, "memory");
    let parts = [front.as_str(), character, "</text></svg>\n</g>\n"];
    let body = joined(alloc, parts, count).expect(rt, "memory");
    let body = str::from_utf8(&body).expect(rt, "text");
    document(rt, alloc, &height, &height, body)
}

// So many of a character are drawn in a box of this side, or in one of two lines of text where there is none.
fn is_boxed(rt: &impl Abort, alloc: Global, (level, character, count, side): Largest) {
    let stream = stream_of(rt, alloc, level, character, count);
    let text = boxed(rt, alloc, (character, count, side));
    let wanted = (text.as_bytes(), Status::Good);
    assert!(rt; prints(alloc, draw_task(), &stream, wanted));
}

// One character more makes the next version, which has four modules more, or is held by none.
#[test]
fn largest_contents_of_versions(rt: HostRuntime) {
    for (level, character, count, side) in &LARGEST {
        is_boxed(&rt, rt.alloc(), (*level, *character, *count, *side));
        if *count < 7089 {
            let (count, side) = (count.saturating_add(1), side.saturating_add(4));
            is_boxed(&rt, rt.alloc(), (*level, *character, count, side));
        }
    }
}

// The most bytes of each version, at the levels L, M, Q and H.
const BYTES: [[usize; 40]; 4] = [
    [
        17, 32, 53, 78, 106, 134, 154, 192, 230, 271, 321, 367, 425, 458, 520, 586, 644, 718, 792,
        858, 929, 1003, 1091, 1171, 1273, 1367, 1465, 1528, 1628, 1732, 1840, 1952, 2068, 2188,
        2303, 2431, 2563, 2699, 2809, 2953,
    ],
    [
        14, 26, 42, 62, 84, 106, 122, 152, 180, 213, 251, 287, 331, 362, 412, 450, 504, 560, 624,
        666, 711, 779, 857, 911, 997, 1059, 1125, 1190, 1264, 1370, 1452, 1538, 1628, 1722, 1809,
        1911, 1989, 2099, 2213, 2331,
    ],
    [
        11, 20, 32, 46, 60, 74, 86, 108, 130, 151, 177, 203, 241, 258, 292, 322, 364, 394, 442,
        482, 509, 565, 611, 661, 715, 751, 805, 868, 908, 982, 1030, 1112, 1168, 1228, 1283, 1351,
        1423, 1499, 1579, 1663,
    ],
    [
        7, 14, 24, 34, 44, 58, 64, 84, 98, 119, 137, 155, 177, 194, 220, 250, 280, 310, 338, 382,
        403, 439, 461, 511, 535, 593, 625, 658, 698, 742, 790, 842, 898, 958, 983, 1051, 1093,
        1139, 1219, 1273,
    ],
];

// Each version, at its largest content of bytes, and with one more.
#[test]
fn bytes_of_each_version(rt: HostRuntime) {
    for (level, counts) in ["30", "31", "32", "33"].iter().zip(&BYTES) {
        let mut side = 17usize;
        for count in counts {
            side = side.saturating_add(4);
            is_boxed(&rt, rt.alloc(), (level, "a", *count, side));
            let more = (*level, "a", count.saturating_add(1), side.saturating_add(4));
            is_boxed(&rt, rt.alloc(), more);
        }
    }
}

// The parts of a stream, how often the middle one comes, and what is in its picture.
type Pictured = ([&'static str; 3], usize, &'static str);

// The picture of a stream, given in hexadecimal, has this text.
fn has_text(rt: &impl Abort, alloc: Global, stream: &[u8], wanted: &str) {
    let mut source = MemoryIn::new(stream, 4096);
    let mut sink = Outgoing::new(Vec::new(alloc));
    let (form, width) = (Form::Hexadecimal, LineWidth::usual());
    assert!(rt; draw(alloc, form, false, width, &mut source, &mut sink) == Status::Good);
    let out = sink.into_inner();
    let text = str::from_utf8(&out).expect(rt, "text");
    assert!(rt; text.contains(wanted), "{wanted}");
}

fn is_pictured(rt: &impl Abort, alloc: Global, (parts, count, wanted): Pictured) {
    let stream = joined(alloc, parts, count).expect(rt, "memory");
    has_text(rt, alloc, &stream, wanted);
}

// Modules of 7 dots with 458 bytes, of 9 with 271, and of 8 with 271.
const WIDE: [Pictured; 3] = [
    (
        ["1D286B03003143071D286BCD01315030", "61", "1D286B0300315130"],
        458,
        "<rect class=\"box\" width=\"511\" height=\"511\"/>",
    ),
    (
        ["1D286B03003143091D286B1201315030", "61", "1D286B0300315130"],
        271,
        "not scannable",
    ),
    (
        ["1D286B03003143081D286B1201315030", "61", "1D286B0300315130"],
        271,
        "<rect class=\"box\" width=\"456\" height=\"456\"/>",
    ),
];

// 511 dots fit on the line, 513 don't.
#[test]
fn widths_near_that_of_the_line(rt: HostRuntime) {
    for row in &WIDE {
        is_pictured(&rt, rt.alloc(), *row);
    }
}

// Boxes of 21 modules of 3 dots, and of 25.
const BOX_63: &str = "<rect class=\"box\" width=\"63\" height=\"63\"/>";

const BOX_75: &str = "<rect class=\"box\" width=\"75\" height=\"75\"/>";

// A content of two kinds of characters, in hexadecimal between its store and its print.
const MIXED: [Pictured; 7] = [
    (["1D286B1500315030", "41", "611D286B0300315130"], 17, BOX_75),
    (["1D286B150031503061", "41", "1D286B0300315130"], 17, BOX_75),
    (["1D286B2500315030", "31", "411D286B0300315130"], 33, BOX_75),
    (["1D286B250031503041", "31", "1D286B0300315130"], 33, BOX_75),
    (["1D286B1C00315030", "31", "411D286B0300315130"], 24, BOX_63),
    (["1D286B1C0031503041", "31", "1D286B0300315130"], 24, BOX_63),
    (["1D286B1400315030", "41", "611D286B0300315130"], 16, BOX_63),
];

// One character that isn't of a packing takes the whole content out of it, wherever it stands.
#[test]
fn contents_of_two_kinds(rt: HostRuntime) {
    for row in &MIXED {
        is_pictured(&rt, rt.alloc(), *row);
    }
}
