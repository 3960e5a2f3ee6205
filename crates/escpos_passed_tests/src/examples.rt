//! An example of each command that is passed over, by the Reference's name.

use escpos_passed::{Found, find};
use std::process::Abort;

// A whole command each: single bytes, real-time requests, and those that begin with ESC.
const ESC_EXAMPLES: [(&str, &[u8]); 35] = [
    ("FF", b"\x0C"),
    ("DLE EOT", b"\x10\x04\x05"),
    ("DLE EOT", b"\x10\x04\x07\x01"),
    ("DLE ENQ", b"\x10\x05\x01"),
    ("DLE DC4", b"\x10\x14\x01\x00\x01"),
    ("DLE DC4", b"\x10\x14\x02\x01\x08"),
    ("DLE DC4", b"\x10\x14\x03\x00\x01\x01\x01\x01"),
    ("DLE DC4", b"\x10\x14\x07\x01"),
    ("DLE DC4", b"\x10\x14\x08\x01\x03\x14\x01\x06\x02\x08"),
    ("CAN", b"\x18"),
    ("ESC FF", b"\x1B\x0C"),
    ("ESC %", b"\x1B\x25\x00"),
    ("ESC &", b"\x1B\x26\x03\x41\x42\x01\xAA\xBB\xCC\x00"),
    ("ESC ( A", b"\x1B\x28\x41\x04\x00\x61\x01\x01\x02"),
    ("ESC ( Y", b"\x1B\x28\x59\x02\x00\x00\x00"),
    ("ESC *", b"\x1B\x2A\x00\x02\x00\xFF\x81"),
    ("ESC *", b"\x1B\x2A\x21\x01\x00\xFF\x00\xFF"),
    ("ESC +", b"\x1B\x2B\x3C"),
    ("ESC ?", b"\x1B\x3F\x41"),
    ("ESC A", b"\x1B\x41\x0A"),
    ("ESC B", b"\x1B\x42\x02\x04"),
    ("ESC K", b"\x1B\x4B\x18"),
    ("ESC L", b"\x1B\x4C"),
    ("ESC Q", b"\x1B\x51\x28"),
    ("ESC S", b"\x1B\x53"),
    ("ESC T", b"\x1B\x54\x00"),
    ("ESC W", b"\x1B\x57\x00\x00\x00\x00\x00\x02\x00\x01"),
    ("ESC c 0", b"\x1B\x63\x30\x04"),
    ("ESC c 1", b"\x1B\x63\x31\x01"),
    ("ESC e", b"\x1B\x65\x01"),
    ("ESC f", b"\x1B\x66\x01\x02"),
    ("ESC l", b"\x1B\x6C\x04"),
    ("ESC q", b"\x1B\x71"),
    ("ESC u", b"\x1B\x75\x00"),
    ("ESC v", b"\x1B\x76"),
];

// Those that begin with FS.
const FS_EXAMPLES: [(&str, &[u8]); 22] = [
    ("FS !", b"\x1C\x21\x00"),
    ("FS &", b"\x1C\x26"),
    ("FS ( A", b"\x1C\x28\x41\x02\x00\x30\x00"),
    ("FS ( C", b"\x1C\x28\x43\x02\x00\x30\x32"),
    ("FS ( E", b"\x1C\x28\x45\x02\x00\x3D\x02"),
    ("FS ( L", b"\x1C\x28\x4C\x02\x00\x42\x31"),
    ("FS ( e", b"\x1C\x28\x65\x02\x00\x33\x00"),
    ("FS ( f", b"\x1C\x28\x66\x02\x00\x30\x00"),
    ("FS ( g", b"\x1C\x28\x67\x02\x00\x30\x00"),
    ("FS -", b"\x1C\x2D\x00"),
    ("FS ?", b"\x1C\x3F\xFE\xA1"),
    ("FS C", b"\x1C\x43\x01"),
    ("FS S", b"\x1C\x53\x00\x00"),
    ("FS W", b"\x1C\x57\x00"),
    ("FS a 0", b"\x1C\x61\x30\x01"),
    ("FS a 1", b"\x1C\x61\x31"),
    ("FS a 2", b"\x1C\x61\x32"),
    ("FS b", b"\x1C\x62"),
    (
        "FS g 1",
        b"\x1C\x67\x31\x00\x00\x00\x00\x00\x02\x00\x41\x42",
    ),
    ("FS g 2", b"\x1C\x67\x32\x00\x00\x00\x00\x00\x02\x00"),
    ("FS p", b"\x1C\x70\x01\x00"),
    (
        "FS q",
        b"\x1C\x71\x02\x01\x00\x01\x00\x01\x02\x03\x04\x05\x06\x07\x08\x01\x00\x02\x00\x00\x00\x00\x00\x00\x00\x00\x00\x00\x00\x00\x00\x00\x00\x00\x00",
    ),
];

// Those that begin with GS.
const GS_EXAMPLES: [(&str, &[u8]); 47] = [
    ("GS FF", b"\x1D\x0C"),
    ("GS $", b"\x1D\x24\x40\x00"),
    ("GS ( A", b"\x1D\x28\x41\x02\x00\x00\x02"),
    ("GS ( B", b"\x1D\x28\x42\x02\x00\x61\x00"),
    ("GS ( C", b"\x1D\x28\x43\x03\x00\x00\x03\x00"),
    ("GS ( D", b"\x1D\x28\x44\x03\x00\x14\x01\x00"),
    ("GS ( E", b"\x1D\x28\x45\x03\x00\x01\x49\x4E"),
    ("GS ( F", b"\x1D\x28\x46\x04\x00\x01\x00\x00\x00"),
    ("GS ( G", b"\x1D\x28\x47\x02\x00\x30\x04"),
    ("GS ( H", b"\x1D\x28\x48\x03\x00\x31\x30\x01"),
    ("GS ( K", b"\x1D\x28\x4B\x02\x00\x31\x00"),
    (
        "GS ( L",
        b"\x1D\x28\x4C\x0B\x00\x30\x71\x30\x01\x01\x31\x08\x00\x01\x00\xFF",
    ),
    ("GS ( L", b"\x1D\x28\x4C\x06\x00\x30\x45\x41\x42\x01\x01"),
    ("GS ( M", b"\x1D\x28\x4D\x02\x00\x02\x00"),
    ("GS ( N", b"\x1D\x28\x4E\x02\x00\x30\x32"),
    (
        "GS ( P",
        b"\x1D\x28\x50\x08\x00\x30\x00\x02\x00\x02\x00\x00\x00",
    ),
    (
        "GS ( Q",
        b"\x1D\x28\x51\x0C\x00\x30\x00\x00\x00\x00\x10\x00\x00\x00\x01\x01\x01",
    ),
    ("GS ( k", b"\x1D\x28\x6B\x03\x00\x30\x41\x00"),
    ("GS *", b"\x1D\x2A\x01\x01\x01\x02\x03\x04\x05\x06\x07\x08"),
    ("GS /", b"\x1D\x2F\x00"),
    (
        "GS 8 L",
        b"\x1D\x38\x4C\x0B\x00\x00\x00\x30\x71\x30\x01\x01\x31\x08\x00\x01\x00\xFF",
    ),
    (
        "GS 8 L",
        b"\x1D\x38\x4C\x0C\x00\x00\x00\x30\x43\x30\x41\x42\x01\x08\x00\x01\x00\x31\xFF",
    ),
    ("GS :", b"\x1D\x3A"),
    ("GS <", b"\x1D\x3C"),
    ("GS C 0", b"\x1D\x43\x30\x03\x00"),
    ("GS C 1", b"\x1D\x43\x31\x01\x00\x64\x00\x01\x01"),
    ("GS C 2", b"\x1D\x43\x32\x01\x00"),
    (
        "GS C ;",
        b"\x1D\x43\x3B\x31\x3B\x36\x35\x35\x33\x35\x3B\x31\x3B\x31\x3B\x31\x3B",
    ),
    (
        "GS D",
        b"\x1D\x44\x30\x43\x30\x41\x42\x30\x31\x42\x4D\x0A\x00\x00\x00\x00\x00\x00\x00",
    ),
    ("GS I", b"\x1D\x49\x43"),
    ("GS P", b"\x1D\x50\xB4\xB4"),
    ("GS Q 0", b"\x1D\x51\x30\x00\x02\x00\x01\x00\xFF\x81"),
    ("GS T", b"\x1D\x54\x01"),
    ("GS \\", b"\x1D\x5C\x10\x00"),
    ("GS ^", b"\x1D\x5E\x01\x00\x00"),
    ("GS c", b"\x1D\x63"),
    ("GS g 0", b"\x1D\x67\x30\x00\x14\x00"),
    ("GS g 2", b"\x1D\x67\x32\x00\x14\x00"),
    ("GS j", b"\x1D\x6A\x00"),
    (
        "GS k",
        b"\x1D\x6B\x4B\x0D\x30\x39\x35\x30\x36\x30\x30\x30\x31\x33\x34\x33\x35",
    ),
    (
        "GS k",
        b"\x1D\x6B\x4C\x0D\x30\x39\x35\x30\x36\x30\x30\x30\x31\x33\x34\x33\x35",
    ),
    (
        "GS k",
        b"\x1D\x6B\x4D\x0D\x30\x39\x35\x30\x36\x30\x30\x30\x31\x33\x34\x33\x35",
    ),
    ("GS k", b"\x1D\x6B\x4E\x08\x28\x33\x39\x32\x30\x29\x31\x35"),
    ("GS k", b"\x1D\x6B\x4F\x02\x41\x42"),
    ("GS r", b"\x1D\x72\x01"),
    ("GS z 0", b"\x1D\x7A\x30\x00\x00"),
    ("GS |", b"\x1D\x7C\x04"),
];

// A command is found whole, also where bytes follow it, and each of its beginnings is a part.
fn is_found(rt: &impl Abort, name: &str, bytes: &[u8]) {
    for length in 1..bytes.len() {
        assert!(rt; find(&bytes[..length]) == Found::Part);
    }
    is_whole(rt, name, bytes, bytes.len());
}

// The command of so many bytes at the start of some is found.
fn is_whole(rt: &impl Abort, name: &str, bytes: &[u8], count: usize) {
    if bytes.is_empty() {
        return;
    }
    let Found::Whole { row, length } = find(bytes) else {
        panic!(rt; "no command")
    };
    assert!(rt; length == count);
    assert!(rt; row.prefix.name().as_slice() == name.as_bytes());
}

#[test]
fn each_of_esc_is_found(rt: HostRuntime) {
    for (name, bytes) in ESC_EXAMPLES {
        is_found(&rt, name, bytes);
    }
}

#[test]
fn each_of_fs_is_found(rt: HostRuntime) {
    for (name, bytes) in FS_EXAMPLES {
        is_found(&rt, name, bytes);
    }
}

#[test]
fn each_of_gs_is_found(rt: HostRuntime) {
    for (name, bytes) in GS_EXAMPLES {
        is_found(&rt, name, bytes);
    }
}

// Functions that are taken are not passed over, whatever follows them, and neither is a function that isn't there.
#[test]
fn taken_functions_are_none(rt: HostRuntime) {
    let taken: [&[u8]; 7] = [
        b"\x1D(L\x0B\x000p",
        b"\x1D(L\x0B\x000p4\x01\x011\x08\x00\x01\x00\xFF",
        b"\x1D(L\x02\x0002",
        b"\x1D(L\x05\x000\x02",
        b"\x1D(L\x00\x00",
        b"\x1D(L\x01\x000",
        b"\x1D8L\x0B\x00\x00\x000p",
    ];
    for bytes in taken {
        assert!(&rt; find(bytes) == Found::Nothing);
    }
    is_found(&rt, "GS 8 L", b"\x1D8L\x02\x00\x00\x0002");
    is_found(&rt, "GS ( L", b"\x1D(L\x03\x001p0");
}

#[test]
fn others_follow(rt: HostRuntime) {
    // A buzzer and a picture in columns, each with another command after it.
    is_whole(&rt, "ESC B", b"\x1BB\x02\x04\x1BB", 4);
    is_whole(&rt, "ESC *", b"\x1B*\x21\x02\x00abcdef\n", 11);
}

// These begin no command that is passed over.
const OTHERS: [&[u8]; 9] = [
    b"A",
    b"\x1B@",
    b"\x1D(k\x03\x001C",
    b"\x1D(k\x00\x00",
    b"\x1D(H\x06\x0000",
    b"\x1DV\x00",
    b"\x1DV\x05",
    b"\x1D\xFF",
    b"\x1C(z",
];

#[test]
fn none_begins_others(rt: HostRuntime) {
    for bytes in OTHERS {
        if !bytes.is_empty() {
            assert!(&rt; find(bytes) == Found::Nothing);
        }
    }
}
