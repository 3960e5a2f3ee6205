//! The rows of `check`, and long listings.

use crate::support::long::{Long, Text, prints_long};
use escpos_job_parts::status::Status;
use escpos_test_jobs::{Row, check_task, performs_rows, prints};
use escpos_test_receipts::filled;
use std::alloc::Global;
use std::process::Abort;

const CHECKED: [Row; 19] = [
    // empty_input
    (b"", b"end 0 pending 0\n", Status::Good),
    // five_commands
    (
        b"1B 40 48 69 0A 1D 56 00",
        b"0 init\n2 char 48\n3 char 69\n4 lf\n5 cut 00\nend 8 pending 0\n",
        Status::Good,
    ),
    (
        b"1B 40 48 69 0A 1D 56",
        b"0 init\n2 char 48\n3 char 69\n4 lf\nend 7 pending 2\n",
        Status::Refused,
    ),
    // align_range
    (b"1B 61 03", b"fault 2 3 BadParameter\n", Status::Refused),
    (b"1B 61 32", b"0 align 32\nend 3 pending 0\n", Status::Good),
    // unknown_bytes
    (b"1B 26", b"fault 1 2 UnknownCommand\n", Status::Refused),
    (b"06", b"fault 0 1 UnknownByte\n", Status::Refused),
    (
        b"1B 40 1B 26",
        b"0 init\nfault 3 2 UnknownCommand\n",
        Status::Refused,
    ),
    // odd_hex
    (b"1B 4", b"refused hex\n", Status::Refused),
    // mark_35
    (
        b"1D 28 48 06 00 30 30 30 30 30 5A",
        b"0 mark 000Z\nend 11 pending 0\n",
        Status::Good,
    ),
    (
        b"1D 28 48 06 00 30 30 30 30 30",
        b"end 10 pending 10\n",
        Status::Refused,
    ),
    // size_bits
    (b"1D 21 08", b"fault 2 3 BadParameter\n", Status::Refused),
    (b"1D 21 80", b"fault 2 3 BadParameter\n", Status::Refused),
    (b"1D 21 77", b"0 size 77\nend 3 pending 0\n", Status::Good),
    // mark_prefix
    (b"1D 28 49", b"fault 2 2 UnknownCommand\n", Status::Refused),
    (b"1D 28 48 07", b"fault 3 3 BadParameter\n", Status::Refused),
    (
        b"1D 28 48 06 00 30 30 1F",
        b"fault 7 3 BadParameter\n",
        Status::Refused,
    ),
    // cut_feed
    (
        b"1D 56 41 05",
        b"0 cut 41 05\nend 4 pending 0\n",
        Status::Good,
    ),
    (
        b"1D 56 68 05 1B 69 1B 6D 1B 72 31",
        b"0 cut 68 05\n4 oldcut 69\n6 oldcut 6d\n8 color 31\nend 11 pending 0\n",
        Status::Good,
    ),
];

#[test]
fn rows_of_check(rt: HostRuntime) {
    assert!(&rt; performs_rows(rt.alloc(), check_task(), &CHECKED, &[1, 5, 4096]));
}

// A real-time command in the data of another is noted, with the place of the command that holds it. A request for a status is one itself.
const CHECKED_REAL_TIME: [Row; 8] = [
    (
        b"41 1D 76 30 00 01 00 03 00 10 14 01 0A",
        b"0 char 41\n1 raster 00 1 3\nnote 1 real-time\n12 lf\nend 13 pending 0\n",
        Status::Good,
    ),
    (
        b"1D 76 30 00 01 00 03 00 10 14 04",
        b"0 raster 00 1 3\nend 11 pending 0\n",
        Status::Good,
    ),
    (
        b"1D 76 30 00 02 00 01 00 10 05",
        b"0 raster 00 2 1\nend 10 pending 0\n",
        Status::Good,
    ),
    (
        b"1D 28 6B 06 00 31 50 30 10 04 01",
        b"0 qrstore 100401\nnote 0 real-time\nend 11 pending 0\n",
        Status::Good,
    ),
    (
        b"1D 28 6B 06 00 31 50 30 10 05 03",
        b"0 qrstore 100503\nend 11 pending 0\n",
        Status::Good,
    ),
    (
        b"1D 6B 49 05 7B 41 10 14 08",
        b"0 bars 49 7b41101408\nnote 0 real-time\nend 9 pending 0\n",
        Status::Good,
    ),
    (b"10 04 01", b"0 status 01\nend 3 pending 0\n", Status::Good),
    (
        b"10 04 04 1D 28 6B 06 00 31 50 30 10 05 00",
        b"0 status 04\n3 qrstore 100500\nnote 3 real-time\nend 14 pending 0\n",
        Status::Good,
    ),
];

#[test]
fn real_time_noted(rt: HostRuntime) {
    assert!(&rt; performs_rows(rt.alloc(), check_task(), &CHECKED_REAL_TIME, &[1, 5, 4096]));
}

const CHECKED_CONTENTS: [Row; 36] = [
    // graphics in both forms, and prints of them
    (
        b"1D 28 4C 0E 00 30 70 30 01 02 31 0C 00 02 00 FF F0 80 10 1D 28 4C 02 00 30 32",
        b"0 graphics 01 02 12 2\n19 graphicsprint 32\nend 26 pending 0\n",
        Status::Good,
    ),
    (
        b"1D 38 4C 0D 00 00 00 30 70 30 02 01 31 05 00 03 00 10 00 F8 1D 28 4C 02 00 30 02 41",
        b"0 graphics 02 01 5 3\n20 graphicsprint 02\n27 char 41\nend 28 pending 0\n",
        Status::Good,
    ),
    (
        b"1D 28 4C 0D 00 30 70 30 01 01 31 08 00 03 00 10 14 01",
        b"0 graphics 01 01 8 3\nnote 0 real-time\nend 18 pending 0\n",
        Status::Good,
    ),
    // as many bytes are read as the length counts, whatever the size; a height out of range is refused
    (
        b"1D 28 4C 0D 00 30 70 30 01 01 31 05 00 01 00 F8 04 1D 41",
        b"0 graphics 01 01 5 1\n18 char 41\nend 19 pending 0\n",
        Status::Good,
    ),
    (
        b"1D 28 4C 0C 00 30 70 30 01 01 31 05 00 00 10",
        b"fault 14 5 BadSize\n",
        Status::Refused,
    ),
    // ean13
    (
        b"1D 6B 02 34 30 30 36 33 38 31 33 33 33 39 33 00",
        b"0 bars 02 343030363338313333333933\nend 16 pending 0\n",
        Status::Good,
    ),
    (
        b"41 1D 6B 02 34 30 30 36 33 38 31 33 33 33 39 33 32 00",
        b"0 char 41\n1 bars 02 34303036333831333333393332\nnote 1 check digit 2, right 1\nend 18 pending 0\n",
        Status::Good,
    ),
    (
        b"1D 6B 02 34 30 30 36 33 38 31 33 33 33 39 33 32 00",
        b"0 bars 02 34303036333831333333393332\nnote 0 check digit 2, right 1\nend 17 pending 0\n",
        Status::Good,
    ),
    (
        b"1D 6B 02 34 30 30 36 33 38 31 33 33 33 39 33 31 00",
        b"0 bars 02 34303036333831333333393331\nend 17 pending 0\n",
        Status::Good,
    ),
    (
        b"1D 6B 02 34 30 30 36 33 38 31 33 33 33 39 00",
        b"fault 14 4 BadBarcode\n",
        Status::Refused,
    ),
    // the check digits of UPC-A and EAN-8 in form B, the first right and the second wrong
    (
        b"1D 6B 41 0C 30 33 36 30 30 30 32 39 31 34 35 32",
        b"0 bars 41 303336303030323931343532\nend 16 pending 0\n",
        Status::Good,
    ),
    (
        b"1D 6B 44 08 35 35 31 32 33 34 35 30",
        b"0 bars 44 3535313233343530\nnote 0 check digit 0, right 7\nend 12 pending 0\n",
        Status::Good,
    ),
    // of UPC-E, whose check digit is that of UPC-A 012345000065
    (
        b"1D 6B 42 08 30 31 32 33 34 35 36 30",
        b"0 bars 42 3031323334353630\nnote 0 check digit 0, right 5\nend 12 pending 0\n",
        Status::Good,
    ),
    (
        b"1D 6B 01 30 31 32 33 34 35 36 35 00",
        b"0 bars 01 3031323334353635\nend 12 pending 0\n",
        Status::Good,
    ),
    // six digits, or more after 0
    (
        b"1D 6B 01 31 32 33 34 35 36 37",
        b"fault 9 4 BadBarcode\n",
        Status::Refused,
    ),
    (
        b"1D 6B 42 07 31",
        b"fault 4 4 BadBarcode\n",
        Status::Refused,
    ),
    // ean8_lengths
    (
        b"1D 6B 03 35 35 31 32 33 34 00",
        b"fault 9 4 BadBarcode\n",
        Status::Refused,
    ),
    (
        b"1D 6B 03 35 35 31 32 33 34 35 37 39",
        b"fault 11 4 BadBarcode\n",
        Status::Refused,
    ),
    // itf
    (b"1D 6B 46 03", b"fault 3 4 BadBarcode\n", Status::Refused),
    (
        b"1D 6B 46 02 31 32",
        b"0 bars 46 3132\nend 6 pending 0\n",
        Status::Good,
    ),
    // raster
    (
        b"1D 76 30 00 01 00 02 00 F0 0F",
        b"0 raster 00 1 2\nend 10 pending 0\n",
        Status::Good,
    ),
    (b"1D 76 30 00 00", b"fault 4 5 BadSize\n", Status::Refused),
    (b"1D 76 30 00 81", b"fault 4 5 BadSize\n", Status::Refused),
    (
        b"1D 76 30 00 01 01",
        b"fault 5 5 BadSize\n",
        Status::Refused,
    ),
    (
        b"1D 76 30 00 01 00 00 00",
        b"fault 7 5 BadSize\n",
        Status::Refused,
    ),
    // wider_limits
    (
        b"1D 76 30 00 01 00 00 10",
        b"fault 7 5 BadSize\n",
        Status::Refused,
    ),
    (
        b"1D 76 30 00 01 00 00 08",
        b"end 8 pending 8\n",
        Status::Refused,
    ),
    (b"1B 70 02", b"fault 2 3 BadParameter\n", Status::Refused),
    // unfinished
    (
        b"1D 76 30 00 80 00 FF 0F",
        b"end 8 pending 8\n",
        Status::Refused,
    ),
    (
        b"1D 76 30 00 80 00 FF 07",
        b"end 8 pending 8\n",
        Status::Refused,
    ),
    // the letter and the scale of a raster, and the mode of a barcode
    (b"1D 76 31", b"fault 2 2 UnknownCommand\n", Status::Refused),
    (b"1D 76 30 04", b"fault 3 3 BadParameter\n", Status::Refused),
    (b"1D 6B 07", b"fault 2 3 BadParameter\n", Status::Refused),
    (b"1D 6B 49 01", b"fault 3 4 BadBarcode\n", Status::Refused),
    // units_and_pulse
    (
        b"41 1B 4A 05 1B 70 00 19 FA",
        b"0 char 41\n1 units 05\n4 pulse 00 19 fa\nend 9 pending 0\n",
        Status::Good,
    ),
    (b"1B 70 00 19", b"end 4 pending 4\n", Status::Refused),
];

#[test]
fn contents_in_check(rt: HostRuntime) {
    assert!(&rt; performs_rows(rt.alloc(), check_task(), &CHECKED_CONTENTS, &[1, 4096]));
}

// What is new since the second profile.
const CHECKED_STYLES: [Row; 25] = [
    // strike, on, off and with bits that have no effect
    (
        b"1B 47 01 1B 47 00 1B 47 FF",
        b"0 strike 01\n3 strike 00\n6 strike ff\nend 9 pending 0\n",
        Status::Good,
    ),
    // reverse
    (
        b"1D 42 01 1D 42 FE",
        b"0 reverse 01\n3 reverse fe\nend 6 pending 0\n",
        Status::Good,
    ),
    // upside_down
    (
        b"1B 7B 01 1B 7B 80",
        b"0 upside 01\n3 upside 80\nend 6 pending 0\n",
        Status::Good,
    ),
    // smoothing
    (
        b"1D 62 01 1D 62 00",
        b"0 smooth 01\n3 smooth 00\nend 6 pending 0\n",
        Status::Good,
    ),
    // autostatus
    (
        b"1D 61 FF 1D 61 00",
        b"0 autostatus ff\n3 autostatus 00\nend 6 pending 0\n",
        Status::Good,
    ),
    // spacing, from nothing to the most, and the default
    (
        b"1B 33 00 1B 33 FF 1B 32",
        b"0 spacing 00\n3 spacing ff\n6 spacing default\nend 8 pending 0\n",
        Status::Good,
    ),
    // character_set, to the last one and past it
    (
        b"1B 52 00 1B 52 11",
        b"0 charset 00\n3 charset 11\nend 6 pending 0\n",
        Status::Good,
    ),
    (b"1B 52 12", b"fault 2 3 BadParameter\n", Status::Refused),
    (
        b"41 1B 52 FF",
        b"0 char 41\nfault 3 3 BadParameter\n",
        Status::Refused,
    ),
    // each without its parameter
    (b"1B 47", b"end 2 pending 2\n", Status::Refused),
    (b"1D 42", b"end 2 pending 2\n", Status::Refused),
    (b"1B 7B", b"end 2 pending 2\n", Status::Refused),
    (b"1D 62", b"end 2 pending 2\n", Status::Refused),
    (b"1D 61", b"end 2 pending 2\n", Status::Refused),
    (b"1B 33", b"end 2 pending 2\n", Status::Refused),
    (b"1B 52", b"end 2 pending 2\n", Status::Refused),
    // letters beside those that are taken
    (b"1B 31", b"fault 1 2 UnknownCommand\n", Status::Refused),
    (b"1B 34", b"fault 1 2 UnknownCommand\n", Status::Refused),
    (b"1B 57 01", b"fault 1 2 UnknownCommand\n", Status::Refused),
    (b"1B 4B 01", b"fault 1 2 UnknownCommand\n", Status::Refused),
    (b"1B 72 02", b"fault 2 3 BadParameter\n", Status::Refused),
    (
        b"1D 50 00 00",
        b"fault 1 2 UnknownCommand\n",
        Status::Refused,
    ),
    (
        b"1D 54 00 02",
        b"fault 1 2 UnknownCommand\n",
        Status::Refused,
    ),
    (b"1D 7C 00", b"fault 1 2 UnknownCommand\n", Status::Refused),
    (b"0B", b"fault 0 1 UnknownByte\n", Status::Refused),
];

#[test]
fn styles_in_check(rt: HostRuntime) {
    assert!(&rt; performs_rows(rt.alloc(), check_task(), &CHECKED_STYLES, &[1, 4096]));
}

// Positions and tab stops: the bytes of a number as sent, and the columns without the 00 that ends them.
const CHECKED_POSITIONS: [Row; 9] = [
    (b"09", b"0 tab\nend 1 pending 0\n", Status::Good),
    (
        b"1B 24 2C 01 1B 5C F4 FF",
        b"0 position 2c 01\n4 move f4 ff\nend 8 pending 0\n",
        Status::Good,
    ),
    (
        b"1D 4C 18 00 1D 57 00 02",
        b"0 margin 18 00\n4 width 00 02\nend 8 pending 0\n",
        Status::Good,
    ),
    (
        b"1B 44 08 10 00 1B 44 00",
        b"0 tabstops 08 10\n5 tabstops\nend 8 pending 0\n",
        Status::Good,
    ),
    (
        b"1B 56 31 1B 56 00",
        b"0 turned 31\n3 turned 00\nend 6 pending 0\n",
        Status::Good,
    ),
    (b"1B 44 08 08", b"fault 3 3 BadParameter\n", Status::Refused),
    (b"1B 56 03", b"fault 2 3 BadParameter\n", Status::Refused),
    (b"1B 44 08", b"end 3 pending 3\n", Status::Refused),
    (b"1D 57 00", b"end 3 pending 3\n", Status::Refused),
];

#[test]
fn positions_in_check(rt: HostRuntime) {
    assert!(&rt; performs_rows(rt.alloc(), check_task(), &CHECKED_POSITIONS, &[1, 4096]));
}

// Each proper prefix of row ean13's first stream is a half command.
const UNFINISHED: [Row; 15] = [
    (b"1D", b"end 1 pending 1\n", Status::Refused),
    (b"1D6B", b"end 2 pending 2\n", Status::Refused),
    (b"1D6B02", b"end 3 pending 3\n", Status::Refused),
    (b"1D6B0234", b"end 4 pending 4\n", Status::Refused),
    (b"1D6B023430", b"end 5 pending 5\n", Status::Refused),
    (b"1D6B02343030", b"end 6 pending 6\n", Status::Refused),
    (b"1D6B0234303036", b"end 7 pending 7\n", Status::Refused),
    (b"1D6B023430303633", b"end 8 pending 8\n", Status::Refused),
    (b"1D6B02343030363338", b"end 9 pending 9\n", Status::Refused),
    (
        b"1D6B0234303036333831",
        b"end 10 pending 10\n",
        Status::Refused,
    ),
    (
        b"1D6B023430303633383133",
        b"end 11 pending 11\n",
        Status::Refused,
    ),
    (
        b"1D6B02343030363338313333",
        b"end 12 pending 12\n",
        Status::Refused,
    ),
    (
        b"1D6B0234303036333831333333",
        b"end 13 pending 13\n",
        Status::Refused,
    ),
    (
        b"1D6B023430303633383133333339",
        b"end 14 pending 14\n",
        Status::Refused,
    ),
    (
        b"1D6B02343030363338313333333933",
        b"end 15 pending 15\n",
        Status::Refused,
    ),
];

// Each is read at once.
#[test]
fn unfinished(rt: HostRuntime) {
    assert!(&rt; performs_rows(rt.alloc(), check_task(), &UNFINISHED, &[4096]));
}

// The longest line of a listing: a content of 255 bytes.
const LONG_BARCODE: [Long; 1] = [(
    Text::Parts(("1D6B45FF", "39", ""), 255),
    Text::Parts(("0 bars 45 ", "39", "\nend 259 pending 0\n"), 255),
    Status::Good,
)];

#[test]
fn a_long_barcode(rt: HostRuntime) {
    prints_long(&rt, rt.alloc(), check_task(), &LONG_BARCODE);
}

// A raster of 128 bytes a row through `check`: whole, and without its last byte; and graphics of as many.
const LARGEST: [Long; 3] = [
    (
        Text::Filled(b"1D7630008000FF0F", b'a', 1_048_336),
        Text::Whole(b"0 raster 00 128 4095\nend 524168 pending 0\n"),
        Status::Good,
    ),
    (
        Text::Filled(b"1D7630008000FF0F", b'a', 1_048_334),
        Text::Whole(b"end 524167 pending 524167\n"),
        Status::Refused,
    ),
    (
        Text::Filled(b"1D384C8AFF07003070300101310004FF0F", b'a', 1_048_354),
        Text::Whole(b"0 graphics 01 01 1024 4095\nend 524177 pending 0\n"),
        Status::Good,
    ),
];

#[test]
fn the_largest_raster(rt: HostRuntime) {
    prints_long(&rt, rt.alloc(), check_task(), &LARGEST);
}

const OF_2047_ROWS: [Long; 2] = [
    (
        Text::Filled(b"1D7630008000FF07", b'a', 524_048),
        Text::Whole(b"0 raster 00 128 2047\nend 262024 pending 0\n"),
        Status::Good,
    ),
    (
        Text::Filled(b"1D7630008000FF07", b'a', 524_046),
        Text::Whole(b"end 262023 pending 262023\n"),
        Status::Refused,
    ),
];

#[test]
fn a_raster_of_2047_rows(rt: HostRuntime) {
    prints_long(&rt, rt.alloc(), check_task(), &OF_2047_ROWS);
}

// Adds the line of a character.
fn adds_line(rt: &impl Abort, alloc: Global, lines: &mut Vec<u8>, place: u32) {
    let line = format!(in alloc; "{place} char aa\n").expect(rt, "memory");
    lines
        .extend_from_slice(line.as_bytes())
        .expect(rt, "memory");
}

// The lines of so many characters, and the last line.
fn many_lines(rt: &impl Abort, alloc: Global, count: u32) -> Vec<u8> {
    let mut lines = Vec::new(alloc);
    for place in 0..count {
        adds_line(rt, alloc, &mut lines, place);
    }
    let line = format!(in alloc; "end {count} pending 0\n").expect(rt, "memory");
    lines
        .extend_from_slice(line.as_bytes())
        .expect(rt, "memory");
    lines
}

// A listing of 100,000 commands, each line of it.
#[test]
fn a_listing_of_many_commands(rt: HostRuntime) {
    let listing = many_lines(&rt, rt.alloc(), 100_000);
    let text = filled(rt.alloc(), b"", b'A', 200_000).expect(&rt, "memory");
    assert!(&rt; prints(rt.alloc(), check_task(), &text, (&listing, Status::Good)));
}
