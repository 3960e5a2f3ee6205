//! QR codes through `check` and `render`.

use crate::support::long::{Long, Parts, Text, bytes_of, prints_long};
use escpos_io::MemoryIn;
use escpos_job_parts::status::Status;
use escpos_test_jobs::{Row, check_task, performs, performs_rows, render_task};
use std::alloc::Global;
use std::process::Abort;

// Streams, and the listing of their commands.
const CHECKED: [Row; 37] = [
    // each model
    (
        b"1D286B040031413100 1D286B040031413200",
        b"0 qrmodel 31\n9 qrmodel 32\nend 18 pending 0\n",
        Status::Good,
    ),
    // a model below and above, and a byte after it that isn't 00
    (
        b"1D286B0400314130",
        b"fault 7 3 BadParameter\n",
        Status::Refused,
    ),
    (
        b"1D286B0400314133",
        b"fault 7 3 BadParameter\n",
        Status::Refused,
    ),
    (
        b"1D286B040031413101",
        b"fault 8 3 BadParameter\n",
        Status::Refused,
    ),
    // the least and the greatest size, and past both
    (
        b"1D286B0300314301 1D286B0300314310",
        b"0 qrsize 01\n8 qrsize 10\nend 16 pending 0\n",
        Status::Good,
    ),
    (
        b"1D286B0300314300",
        b"fault 7 3 BadParameter\n",
        Status::Refused,
    ),
    (
        b"1D286B0300314311",
        b"fault 7 3 BadParameter\n",
        Status::Refused,
    ),
    // each level, and past both ends
    (
        b"1D286B0300314530 1D286B0300314531 1D286B0300314532 1D286B0300314533",
        b"0 qrlevel 30\n8 qrlevel 31\n16 qrlevel 32\n24 qrlevel 33\nend 32 pending 0\n",
        Status::Good,
    ),
    (
        b"1D286B030031452F",
        b"fault 7 3 BadParameter\n",
        Status::Refused,
    ),
    (
        b"1D286B0300314534",
        b"fault 7 3 BadParameter\n",
        Status::Refused,
    ),
    // a store, whose data isn't read as commands
    (
        b"1D286B06003150301B400A",
        b"0 qrstore 1b400a\nend 11 pending 0\n",
        Status::Good,
    ),
    // no data, and a mode other than 30
    (
        b"1D286B0300315030",
        b"fault 6 2 UnknownCommand\n",
        Status::Refused,
    ),
    (
        b"1D286B0400315031",
        b"fault 7 3 BadParameter\n",
        Status::Refused,
    ),
    // a print
    (
        b"1D286B0300315130",
        b"0 qrprint\nend 8 pending 0\n",
        Status::Good,
    ),
    (
        b"1D286B0300315131",
        b"fault 7 3 BadParameter\n",
        Status::Refused,
    ),
    // all five, and a character after them
    (
        b"1D286B040031413200 1D286B0300314308 1D286B0300314531 1D286B0600315030412F31 1D286B0300315130 41",
        b"0 qrmodel 32\n9 qrsize 08\n17 qrlevel 31\n25 qrstore 412f31\n36 qrprint\n44 char 41\nend 45 pending 0\n",
        Status::Good,
    ),
    // lengths below the least and above the greatest
    (b"1D286B0200", b"fault 4 3 BadParameter\n", Status::Refused),
    (b"1D286B0000", b"fault 4 3 BadParameter\n", Status::Refused),
    (b"1D286BB51B", b"fault 4 3 BadParameter\n", Status::Refused),
    (b"1D286BFFFF", b"fault 4 3 BadParameter\n", Status::Refused),
    // lengths that don't fit the function
    (
        b"1D286B0300314131",
        b"fault 6 2 UnknownCommand\n",
        Status::Refused,
    ),
    (
        b"1D286B0400314301",
        b"fault 6 2 UnknownCommand\n",
        Status::Refused,
    ),
    (
        b"1D286B0301314530",
        b"fault 6 2 UnknownCommand\n",
        Status::Refused,
    ),
    (
        b"1D286B0400315130",
        b"fault 6 2 UnknownCommand\n",
        Status::Refused,
    ),
    // functions that aren't taken, of QR codes and of other symbols
    (
        b"1D286B0300314200",
        b"fault 6 2 UnknownCommand\n",
        Status::Refused,
    ),
    (
        b"1D286B0300315230",
        b"fault 6 2 UnknownCommand\n",
        Status::Refused,
    ),
    (
        b"1D286B0300304103",
        b"fault 5 2 UnknownCommand\n",
        Status::Refused,
    ),
    (
        b"41 1D286B0400324132",
        b"0 char 41\nfault 6 2 UnknownCommand\n",
        Status::Refused,
    ),
    // letters beside k
    (b"1D286A", b"fault 2 2 UnknownCommand\n", Status::Refused),
    (b"1D286C", b"fault 2 2 UnknownCommand\n", Status::Refused),
    (b"1D284D", b"fault 2 2 UnknownCommand\n", Status::Refused),
    // half commands
    (b"1D286B", b"end 3 pending 3\n", Status::Refused),
    (b"1D286BB41B", b"end 5 pending 5\n", Status::Refused),
    (b"1D286B0400314131", b"end 8 pending 8\n", Status::Refused),
    (b"1D286B03003145", b"end 7 pending 7\n", Status::Refused),
    (
        b"41 1D286B0600315030412F",
        b"0 char 41\nend 11 pending 10\n",
        Status::Refused,
    ),
    (b"1D286B03003151", b"end 7 pending 7\n", Status::Refused),
];

#[test]
fn qr_codes_in_check(rt: HostRuntime) {
    assert!(&rt; performs_rows(rt.alloc(), check_task(), &CHECKED, &[1, 4096]));
}

// Streams, and the paper that they print.
const RENDERED: [Row; 14] = [
    // the settings at power on
    (
        b"1D286B0500315030 4142 1D286B0300315130",
        b"qr left 2 3 L AB\n",
        Status::Good,
    ),
    // the text of the line comes first
    (
        b"58 1D286B05003150304142 59 1D286B0300315130 5A0A",
        b"row left XY\nfeed 1\nqr left 2 3 L AB\nrow left Z\nfeed 1\n",
        Status::Good,
    ),
    // with nothing stored a print does nothing, and the line stays
    (
        b"58 1D286B0300315130 1B6101 590A",
        b"row left XY\nfeed 1\n",
        Status::Good,
    ),
    // Init forgets what is stored
    (
        b"1D286B05003150304142 1B40 58 1D286B0300315130 0A",
        b"row left X\nfeed 1\n",
        Status::Good,
    ),
    // a second store replaces the first
    (
        b"1D286B05003150304142 1D286B040031503043 1D286B0300315130",
        b"qr left 2 3 L C\n",
        Status::Good,
    ),
    // each print prints what is stored
    (
        b"1D286B05003150304142 1D286B0300315130 1D286B0300315130",
        b"qr left 2 3 L AB\nqr left 2 3 L AB\n",
        Status::Good,
    ),
    // model, size and level are those at the print, until Init
    (
        b"1D286B05003150304142 1D286B040031413100 1D286B0300314310 1D286B0300314533 1D286B0300315130 1B40 1D286B05003150304142 1D286B0300315130",
        b"qr left 1 16 H AB\nqr left 2 3 L AB\n",
        Status::Good,
    ),
    // the other levels
    (
        b"1D286B05003150304142 1D286B0300314531 1D286B0300315130 1D286B0300314532 1D286B0300315130",
        b"qr left 2 3 M AB\nqr left 2 3 Q AB\n",
        Status::Good,
    ),
    // alignments
    (
        b"1D286B05003150304142 1B6101 1D286B0300315130 1B6132 1D286B0300315130 1B6100 58 1B6101 1D286B0300315130",
        b"qr center 2 3 L AB\nqr right 2 3 L AB\nrow left X\nfeed 1\nqr left 2 3 L AB\n",
        Status::Good,
    ),
    // in a style, upside down and with a spacing
    (
        b"1D286B05003150304142 1B330A 1B7B01 1D4201 58 1D286B0300315130",
        b"row left upside [A,1,1,0,0,0,0,1,0]X\nfeed 1 spacing 10\nqr left 2 3 L AB\n",
        Status::Good,
    ),
    // a byte that can't be shown, [ and \
    (
        b"1D286B0A003150305B5C7EC3A90020 1D286B0300315130",
        b"qr left 2 3 L \\5b\\5c~\\c3\\a9\\00 \n",
        Status::Good,
    ),
    // what was printed before a fault and before a half command
    (
        b"1D286B05003150304142 1D286B0300315130 1D286B0300314311",
        b"qr left 2 3 L AB\nfault 25 3 BadParameter\n",
        Status::Refused,
    ),
    (
        b"1D286B05003150304142 1D286B0300315130 1D286B050031503043",
        b"qr left 2 3 L AB\nend 27 pending 9\n",
        Status::Refused,
    ),
    // none of the others prints anything
    (
        b"1D286B040031413100 1D286B0300314310 1D286B0300314533 1D286B040031503043",
        b"",
        Status::Good,
    ),
];

#[test]
fn qr_codes_in_render(rt: HostRuntime) {
    assert!(&rt; performs_rows(rt.alloc(), render_task(), &RENDERED, &[1, 4096]));
}

// What comes before the longest data, that data in part, and what comes after it.
const LONGEST: Parts = ("1D286BB41B315030", "1b", "");

// The line that lists it.
const LISTED: Parts = ("0 qrstore ", "1b", "\n");

// The longest store through `check`: whole, without its last byte, and with a byte after it.
const LONGEST_STORES: [Long; 3] = [
    (
        Text::Parts(LONGEST, 7089),
        Text::Parts(("0 qrstore ", "1b", "\nend 7097 pending 0\n"), 7089),
        Status::Good,
    ),
    (
        Text::Parts(LONGEST, 7088),
        Text::Whole(b"end 7096 pending 7096\n"),
        Status::Refused,
    ),
    (
        Text::Parts(("1D286BB41B315030", "1b", "0A"), 7089),
        Text::Parts(
            ("0 qrstore ", "1b", "\n7097 lf\nend 7098 pending 0\n"),
            7089,
        ),
        Status::Good,
    ),
];

#[test]
fn the_longest_store_in_check(rt: HostRuntime) {
    prints_long(&rt, rt.alloc(), check_task(), &LONGEST_STORES);
}

// A sink that takes so many bytes has the beginning of a listing.
fn is_cut_short(rt: &impl Abort, alloc: Global, (input, listing): (&[u8], &[u8]), count: usize) {
    let mut room = [0; 14_189];
    let mut source = MemoryIn::new(input, 4096);
    let wanted = (listing.get(..count).expect(rt, "listing"), Status::Device);
    let room = &mut room[..count.min(14_189)];
    assert!(rt;
        performs(alloc, Ok(check_task()), &mut source, room, wanted),
        "{count}"
    );
}

fn is_cut_short_anywhere(rt: &impl Abort, alloc: Global, texts: (&[u8], &[u8])) {
    for count in [0, 9, 10, 11, 1024, 14_188] {
        is_cut_short(rt, alloc, texts, count);
    }
}

// Wherever the sink is full, what went out is the beginning of the listing.
#[test]
fn a_long_store_cut_short(rt: HostRuntime) {
    let whole = bytes_of(rt.alloc(), Text::Parts(LONGEST, 7089)).expect(&rt, "memory");
    let listing = bytes_of(rt.alloc(), Text::Parts(LISTED, 7089)).expect(&rt, "memory");
    is_cut_short_anywhere(&rt, rt.alloc(), (&whole, &listing));
}

// The longest store, and two prints, through `render`.
const LONGEST_CONTENT: [Long; 1] = [(
    Text::Parts(
        ("1D286BB41B315030", "37", "1D286B03003151301D286B0300315130"),
        7089,
    ),
    Text::Times(("qr left 2 3 L ", "7", "\n"), 7089, 2, ""),
    Status::Good,
)];

#[test]
fn the_longest_content_in_render(rt: HostRuntime) {
    prints_long(&rt, rt.alloc(), render_task(), &LONGEST_CONTENT);
}

// Stores of 256 bytes, 1,000 of them, and a print of the last.
const MANY_STORES: [Long; 1] = [(
    Text::Times(
        ("1D286B0301315030", "41", ""),
        256,
        1000,
        "1D286B0300315130",
    ),
    Text::Parts(("qr left 2 3 L ", "A", "\n"), 256),
    Status::Good,
)];

#[test]
fn many_stores_in_render(rt: HostRuntime) {
    prints_long(&rt, rt.alloc(), render_task(), &MANY_STORES);
}
