//! Receipts at the edges of what they may hold, through `encode`: memory that is there isn't said to be refused, and a text is
//! refused for its own reason.

use escpos_io::{MemoryIn, MemoryOut};
use escpos_job_parts::status::Status;
use escpos_test_jobs::{NoNetwork, encode_task, prints, run_job};
use escpos_test_receipts::{filled, joined};
use std::alloc::Global;
use std::process::Abort;

// How often the part in the middle comes in a text and in its line, and both.
type Long = (usize, [&'static str; 3], [&'static str; 3]);

// A long text through `encode` gives its line and this status.
fn encodes_long(rt: &impl Abort, alloc: Global, (count, text, line): Long, status: Status) {
    let text = joined(alloc, text, count).expect(rt, "memory");
    let line = joined(alloc, line, count).expect(rt, "memory");
    assert!(rt; prints(alloc, encode_task(), &text, (&line, status)));
}

const UPCA: [&str; 3] = ["[{\"bars\":{\"kind\":\"upca\",\"content\":\"", "0", "\"}}]"];

const UPCE: [&str; 3] = ["[{\"bars\":{\"kind\":\"upce\",\"content\":\"", "0", "\"}}]"];

const EAN13: [&str; 3] = [
    "[{\"bars\":{\"kind\":\"ean13\",\"content\":\"",
    "0",
    "\"}}]",
];

const EAN8: [&str; 3] = ["[{\"bars\":{\"kind\":\"ean8\",\"content\":\"", "0", "\"}}]"];

const CODE39: [&str; 3] = [
    "[{\"bars\":{\"kind\":\"code39\",\"content\":\"",
    "Z",
    "\"}}]",
];

const ITF: [&str; 3] = ["[{\"bars\":{\"kind\":\"itf\",\"content\":\"", "12", "\"}}]"];

const CODABAR: [&str; 3] = [
    "[{\"bars\":{\"kind\":\"codabar\",\"content\":\"A",
    "1",
    "d\"}}]",
];

const CODE93: [&str; 3] = [
    "[{\"bars\":{\"kind\":\"code93\",\"content\":\"",
    "Z",
    "\"}}]",
];

const CODE128: [&str; 3] = [
    "[{\"bars\":{\"kind\":\"code128\",\"content\":\"{B",
    "a",
    "\"}}]",
];

const GS1: [&str; 3] = [
    "[{\"bars\":{\"kind\":\"gs1_128\",\"content\":\"(",
    "12",
    ")\"}}]",
];

// UPC-A for which no UPC-E stands.
const NOT_SHORT: [&str; 3] = [
    "[{\"bars\":{\"kind\":\"upce\",\"content\":\"",
    "05",
    "\"}}]",
];

const ENTRIES: [&str; 3] = ["[", "{\"feed\":1},", "{\"feed\":1}]"];

// A barcode of each symbology, at its shortest content and at the longest that fits on a line.
const BARCODES: [Long; 20] = [
    (11, UPCA, ["1d6b410b", "30", "\n"]),
    (12, UPCA, ["1d6b410c", "30", "\n"]),
    (6, UPCE, ["1d6b4206", "30", "\n"]),
    (12, UPCE, ["1d6b420c", "30", "\n"]),
    (12, EAN13, ["1d6b430c", "30", "\n"]),
    (13, EAN13, ["1d6b430d", "30", "\n"]),
    (7, EAN8, ["1d6b4407", "30", "\n"]),
    (8, EAN8, ["1d6b4408", "30", "\n"]),
    (1, CODE39, ["1d6b4501", "5a", "\n"]),
    (9, CODE39, ["1d6b4509", "5a", "\n"]),
    (1, ITF, ["1d6b4602", "3132", "\n"]),
    (9, ITF, ["1d6b4612", "3132", "\n"]),
    (0, CODABAR, ["1d6b470241", "31", "64\n"]),
    (12, CODABAR, ["1d6b470e41", "31", "64\n"]),
    (1, CODE128, ["1d6b49037b42", "61", "\n"]),
    (12, CODE128, ["1d6b490e7b42", "61", "\n"]),
    (1, CODE93, ["1d6b4801", "5a", "\n"]),
    (14, CODE93, ["1d6b480e", "5a", "\n"]),
    (1, GS1, ["1d6b4a0428", "3132", "29\n"]),
    (11, GS1, ["1d6b4a1828", "3132", "29\n"]),
];

const NOT_PRINTABLE: [&str; 3] = ["refused 10 NotPrintable 0\n", "", ""];

// The shortest that don't fit, the longest, CODE128 and GS1-128 without data, and UPC-A for which no UPC-E stands.
const WIDE_BARCODES: [Long; 15] = [
    (10, CODE39, NOT_PRINTABLE),
    (255, CODE39, NOT_PRINTABLE),
    (10, ITF, NOT_PRINTABLE),
    (127, ITF, NOT_PRINTABLE),
    (13, CODABAR, NOT_PRINTABLE),
    (253, CODABAR, NOT_PRINTABLE),
    (13, CODE128, NOT_PRINTABLE),
    (253, CODE128, NOT_PRINTABLE),
    (0, CODE128, NOT_PRINTABLE),
    (15, CODE93, NOT_PRINTABLE),
    (255, CODE93, NOT_PRINTABLE),
    (12, GS1, NOT_PRINTABLE),
    (126, GS1, NOT_PRINTABLE),
    (0, GS1, NOT_PRINTABLE),
    (6, NOT_SHORT, NOT_PRINTABLE),
];

// The largest raster.
const PICTURE: Long = (
    524_160,
    [
        "[{\"raster\":{\"scale\":\"normal\",\"x\":128,\"y\":4095,\"dots\":\"",
        "5a",
        "\"}}]",
    ],
    ["1d7630008000ff0f", "5a", "\n"],
);

// Each barcode, at its shortest, and at the longest that fits.
#[test]
fn barcodes_have_memory(rt: HostRuntime) {
    for row in &BARCODES {
        encodes_long(&rt, rt.alloc(), *row, Status::Good);
    }
}

// What a printer would leave out is refused.
#[test]
fn barcodes_that_do_not_fit(rt: HostRuntime) {
    for row in &WIDE_BARCODES {
        encodes_long(&rt, rt.alloc(), *row, Status::Refused);
    }
}

const TALL: [&str; 3] = [
    "[{\"raster\":{\"scale\":\"normal\",\"x\":1,\"y\":1040,\"dots\":\"",
    "01",
    "\"}}]",
];

const TALL_AND_SAFE: [&str; 3] = [
    "[{\"raster\":{\"scale\":\"normal\",\"x\":1,\"y\":1040,\"dots\":\"",
    "11",
    "\"}}]",
];

// The two bytes of the height, 10 04, and the first dots may be a real-time command.
#[test]
fn a_height_begins_a_real_time_command(rt: HostRuntime) {
    let refused = ["refused 9 RealTime 0\n", "", ""];
    encodes_long(&rt, rt.alloc(), (1_040, TALL, refused), Status::Refused);
    let encoded = ["1d76300001001004", "11", "\n"];
    encodes_long(
        &rt,
        rt.alloc(),
        (1_040, TALL_AND_SAFE, encoded),
        Status::Good,
    );
}

#[test]
fn the_largest_raster_has_memory(rt: HostRuntime) {
    encodes_long(&rt, rt.alloc(), PICTURE, Status::Good);
}

#[test]
fn many_entries_have_memory(rt: HostRuntime) {
    for count in [998, 999, 1_000, 9_999] {
        let row = (count, ENTRIES, ["", "1b6401", "1b6401\n"]);
        encodes_long(&rt, rt.alloc(), row, Status::Good);
    }
}

// A receipt, and blanks up to so many bytes.
fn encodes_blanks(rt: &impl Abort, alloc: Global, length: usize, wanted: (&[u8], Status)) {
    let text = filled(alloc, b"[{\"feed\":1}]", b' ', length).expect(rt, "memory");
    assert!(rt; prints(alloc, encode_task(), &text, wanted));
}

#[test]
fn long_texts_have_memory(rt: HostRuntime) {
    for length in [4_194_304, 8_388_608, 12_582_912] {
        encodes_blanks(&rt, rt.alloc(), length, (b"1b6401\n", Status::Good));
    }
}

#[test]
fn the_limit_of_a_receipt(rt: HostRuntime) {
    let wanted = (b"1b6401\n".as_slice(), Status::Good);
    encodes_blanks(&rt, rt.alloc(), 16_777_216, wanted);
}

#[test]
fn a_byte_past_the_limit(rt: HostRuntime) {
    let wanted = (b"refused input\n".as_slice(), Status::Refused);
    encodes_blanks(&rt, rt.alloc(), 16_777_217, wanted);
}

// A line of so many characters.
fn encodes_line(rt: &impl Abort, alloc: Global, length: usize) {
    let row = (length, ["[{\"line\":\"", "A", "\"}]"], ["", "41", "0a\n"]);
    encodes_long(rt, alloc, row, Status::Good);
}

#[test]
fn lines_of_each_length_have_memory(rt: HostRuntime) {
    for length in 0..301 {
        encodes_line(&rt, rt.alloc(), length);
    }
    encodes_line(&rt, rt.alloc(), 1_000);
    encodes_line(&rt, rt.alloc(), 1_100);
}

#[test]
fn a_long_line_has_memory(rt: HostRuntime) {
    encodes_line(&rt, rt.alloc(), 262_144);
}

// The least number of a member, what stands before and after a number in an entry, and what does so in its bytes.
type Numbered = (u8, [&'static str; 2], [&'static str; 2]);

const NUMBERED: [Numbered; 9] = [
    (0, ["{\"feed\":", "}"], ["1b64", ""]),
    (0, ["{\"units\":", "}"], ["1b4a", ""]),
    (0, ["{\"mode\":", "}"], ["1b21", ""]),
    (0, ["{\"table\":", "}"], ["1b74", ""]),
    (0, ["{\"spacing\":", "}"], ["1b33", ""]),
    (1, ["{\"bar_height\":", "}"], ["1d68", ""]),
    (
        0,
        ["{\"pulse\":{\"pin\":1,\"on\":", ",\"off\":2}}"],
        ["1b7001", "02"],
    ),
    (
        0,
        ["{\"pulse\":{\"pin\":0,\"on\":3,\"off\":", "}}"],
        ["1b700003", ""],
    ),
    (
        0,
        ["{\"feed_cut\":{\"kind\":\"partial\",\"feed\":", "}}"],
        ["1d5642", ""],
    ),
];

// An entry with this number, and its bytes.
fn append_entry(
    rt: &impl Abort,
    alloc: Global,
    (text, line): (&mut Vec<u8>, &mut Vec<u8>),
    (_, entry, bytes): Numbered,
    number: u8,
) {
    let [first, last] = entry;
    let entry = format!(in alloc; "{first}{number}{last}").expect(rt, "memory");
    text.extend_from_slice(entry.as_bytes())
        .expect(rt, "memory");
    let [first, last] = bytes;
    let bytes = format!(in alloc; "{first}{number:02x}{last}").expect(rt, "memory");
    line.extend_from_slice(bytes.as_bytes())
        .expect(rt, "memory");
}

// A receipt in which a member comes with each number that it may have gives a line with each of them.
fn encodes_numbers(rt: &impl Abort, alloc: Global, row: Numbered) {
    let mut text = joined(alloc, ["[", "", ""], 0).expect(rt, "memory");
    let mut line = Vec::new(alloc);
    for number in row.0..=254 {
        append_entry(rt, alloc, (&mut text, &mut line), row, number);
        text.extend_from_slice(b",").expect(rt, "memory");
    }
    append_entry(rt, alloc, (&mut text, &mut line), row, 255);
    text.extend_from_slice(b"]").expect(rt, "memory");
    line.extend_from_slice(b"\n").expect(rt, "memory");
    assert!(rt; prints(alloc, encode_task(), &text, (&line, Status::Good)));
}

#[test]
fn each_number_has_memory(rt: HostRuntime) {
    for row in &NUMBERED {
        encodes_numbers(&rt, rt.alloc(), *row);
    }
}

// An entry of each member with a value of the wrong kind, and parts of inner objects of the wrong kind.
const WRONG_KINDS: [&str; 33] = [
    "[{\"text\":1}]",
    "[{\"line\":null}]",
    "[{\"feed\":\"1\"}]",
    "[{\"units\":true}]",
    "[{\"pulse\":[0,25,250]}]",
    "[{\"mode\":{}}]",
    "[{\"bold\":\"true\"}]",
    "[{\"underline\":\"1\"}]",
    "[{\"font\":1}]",
    "[{\"table\":[16]}]",
    "[{\"align\":0}]",
    "[{\"size\":2}]",
    "[{\"bar_height\":\"80\"}]",
    "[{\"bar_width\":null}]",
    "[{\"hri\":false}]",
    "[{\"hri_font\":1}]",
    "[{\"bars\":\"5512345\"}]",
    "[{\"raster\":\"f00f\"}]",
    "[{\"cut\":true}]",
    "[{\"feed_cut\":\"full\"}]",
    "[{\"strike\":1}]",
    "[{\"reverse\":\"true\"}]",
    "[{\"upside\":null}]",
    "[{\"spacing\":\"none\"}]",
    "[{\"spacing\":true}]",
    "[{\"charset\":\"2\"}]",
    "[{\"pulse\":{\"pin\":0,\"on\":\"25\",\"off\":250}}]",
    "[{\"bars\":{\"kind\":3,\"content\":\"5512345\"}}]",
    "[{\"bars\":{\"kind\":\"ean8\",\"content\":5512345}}]",
    "[{\"raster\":{\"scale\":0,\"x\":1,\"y\":1,\"dots\":\"f0\"}}]",
    "[{\"raster\":{\"scale\":\"normal\",\"x\":1,\"y\":1,\"dots\":240}}]",
    "[{\"raster\":{\"scale\":\"normal\",\"x\":1,\"y\":1,\"dots\":\"zz\"}}]",
    "[{\"feed_cut\":{\"kind\":0,\"feed\":3}}]",
];

#[test]
fn values_of_the_wrong_kind_are_refused(rt: HostRuntime) {
    let wanted = (b"refused 6 BadShape 0\n".as_slice(), Status::Refused);
    for text in &WRONG_KINDS {
        assert!(&rt; prints(rt.alloc(), encode_task(), text.as_bytes(), wanted));
    }
}

// Texts that are refused far from their start, or for their numbers.
const FAR_REFUSED: [Long; 10] = [
    (
        9_999,
        ["[", "{\"feed\":0},", "{\"feed\":256}]"],
        ["refused 6 BadShape 9999\n", "", ""],
    ),
    (
        9_999,
        ["[", "{\"feed\":0},", "{\"line\":\"A\\u001b\"}]"],
        ["refused 7 ControlByte 9999\n", "", ""],
    ),
    (
        9_998,
        ["[", "{\"feed\":0},", "{\"line\":\"A漢\"}]"],
        ["refused 8 NoCharacter 9998 U+6F22\n", "", ""],
    ),
    (
        9_997,
        ["[", "{\"feed\":0},", "{\"text\":\"A\"},{\"cut\":\"full\"}]"],
        ["refused 4 MidLine 9998\n", "", ""],
    ),
    (
        9_996,
        ["[", "{\"feed\":0},", "{\"feed\":01}]"],
        ["refused 5 NotJson\n", "", ""],
    ),
    (
        0,
        ["[{\"feed\":1},\n{\"feed\":01}]", "", ""],
        ["refused 5 NotJson\n", "", ""],
    ),
    (1, ["[\n", "\n", "x]"], ["refused 5 NotJson\n", "", ""]),
    (
        2,
        ["[{\"feed\":1}\n", "\n", "]]"],
        ["refused 5 NotJson\n", "", ""],
    ),
    (
        3,
        ["[{\"feed\":1e400}]", "", ""],
        ["refused 5 NotJson\n", "", ""],
    ),
    (
        4,
        ["[{\"feed\":1e300}]", "", ""],
        ["refused 6 BadShape 0\n", "", ""],
    ),
];

#[test]
fn texts_are_refused_for_their_reason(rt: HostRuntime) {
    for row in &FAR_REFUSED {
        encodes_long(&rt, rt.alloc(), *row, Status::Refused);
    }
}

// A line that is short enough goes out in one `put`: the sink fails from its second one on.
fn goes_out_at_once(rt: &impl Abort, alloc: Global, text: &[u8], line: &[u8]) {
    let mut source = MemoryIn::new(text, 65_536);
    let mut room = [0; 8192];
    let mut sink = MemoryOut::failing(&mut room, 2);
    let status = run_job(&NoNetwork, alloc, Ok(encode_task()), &mut source, &mut sink);
    assert!(rt; status == Status::Good);
    assert!(rt; sink.written() == line);
}

// A line of 6,001 bytes.
#[test]
fn a_line_goes_out_in_one_piece(rt: HostRuntime) {
    let entries = ["[", "{\"feed\":0},", "{\"feed\":0}]"];
    let text = joined(rt.alloc(), entries, 999).expect(&rt, "memory");
    let line = joined(rt.alloc(), ["", "1b6400", "1b6400\n"], 999).expect(&rt, "memory");
    goes_out_at_once(&rt, rt.alloc(), &text, &line);
}

const QR_CODE: &str = "{\"qr\":{\"content\":\"a\",\"size\":3,\"level\":\"L\"}},";

const QR_BYTES: &str = "1d286b03003143031d286b03003145301d286b0400315030611d286b0300315130";

// Four commands of each of many entries, and the place of one that comes after them.
#[test]
fn many_qr_codes(rt: HostRuntime) {
    let row = (
        1_000,
        ["[", QR_CODE, "{\"feed\":1}]"],
        ["", QR_BYTES, "1b6401\n"],
    );
    encodes_long(&rt, rt.alloc(), row, Status::Good);
    let row = (
        1_000,
        ["[", QR_CODE, "{\"text\":\"A\"},{\"cut\":\"full\"}]"],
        ["refused 4 MidLine 4001\n", "", ""],
    );
    encodes_long(&rt, rt.alloc(), row, Status::Refused);
}
