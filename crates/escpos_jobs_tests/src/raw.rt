//! Bytes as they are: the worked rows of `check --raw`, `render --raw` and `encode --raw`.

use crate::support::long::{Long, Text, prints_long};
use escpos_io::MemoryIn;
use escpos_job_parts::status::Status;
use escpos_jobs::task::Task;
use escpos_test_jobs::{
    Row, performs, performs_rows, raw_check_task, raw_encode_task, raw_render_task,
};
use std::alloc::Global;
use std::process::Abort;

// Streams, and the listing of their commands.
const LISTED: [Row; 6] = [
    // raw_listing
    (
        b"\x1B@Hi\n\x1DV\x00",
        b"0 init\n2 char 48\n3 char 69\n4 lf\n5 cut 00\nend 8 pending 0\n",
        Status::Good,
    ),
    // raw_nothing
    (b"", b"end 0 pending 0\n", Status::Good),
    // raw_digits_are_characters
    (
        b"1B 4",
        b"0 char 31\n1 char 42\n2 char 20\n3 char 34\nend 4 pending 0\n",
        Status::Good,
    ),
    // raw_line_ends_count
    (
        b"\n\r\n",
        b"0 lf\n1 cr\n2 lf\nend 3 pending 0\n",
        Status::Good,
    ),
    // raw_half_command
    (b"A\x1D", b"0 char 41\nend 2 pending 1\n", Status::Refused),
    // raw_fault
    (
        b"A\x06\n",
        b"0 char 41\nfault 1 1 UnknownByte\n",
        Status::Refused,
    ),
];

#[test]
fn raw_listings(rt: HostRuntime) {
    assert!(&rt; performs_rows(rt.alloc(), raw_check_task(), &LISTED, &[1, 4096]));
}

// Streams, and the paper that they print.
const PRINTED: [Row; 3] = [
    // raw_paper
    (
        b"\x1B@Hi\n\x1DV\x00",
        b"row left Hi\nfeed 1\ncut full\n",
        Status::Good,
    ),
    // raw_paper_of_nothing
    (b"", b"", Status::Good),
    // raw_paper_of_a_half_command
    (
        b"Hi\n\x1B",
        b"row left Hi\nfeed 1\nend 4 pending 1\n",
        Status::Refused,
    ),
];

#[test]
fn raw_papers(rt: HostRuntime) {
    assert!(&rt; performs_rows(rt.alloc(), raw_render_task(), &PRINTED, &[1, 4096]));
}

// Receipts, and the bytes of their commands: no line end follows them.
const ENCODED: [Row; 4] = [
    // raw_receipt
    (
        b"[{\"line\":\"Hi\"},{\"cut\":\"full\"}]",
        b"Hi\n\x1DV\x00",
        Status::Good,
    ),
    // raw_receipt_with_all_bytes
    (
        b"[{\"raster\":{\"scale\":\"normal\",\"x\":1,\"y\":3,\"dots\":\"0a0dff\"}}]",
        b"\x1Dv0\x00\x01\x00\x03\x00\x0A\x0D\xFF",
        Status::Good,
    ),
    // raw_no_receipt
    (b"[]", b"refused 1 Empty\n", Status::Refused),
    // raw_no_json
    (b"Hi", b"refused 5 NotJson\n", Status::Refused),
];

#[test]
fn raw_receipts(rt: HostRuntime) {
    assert!(&rt; performs_rows(rt.alloc(), raw_encode_task(), &ENCODED, &[1, 4096]));
}

// The longest input: its first byte is refused, and so the others aren't read as commands. One more is too long.
const LIMIT: [Long; 1] = [(
    Text::Filled(b"\x06", b'\r', 16_777_216),
    Text::Whole(b"fault 0 1 UnknownByte\n"),
    Status::Refused,
)];

#[test]
fn raw_limit(rt: HostRuntime) {
    prints_long(&rt, rt.alloc(), raw_check_task(), &LIMIT);
}

const PAST_THE_LIMIT: [Long; 1] = [(
    Text::Filled(b"\x06", b'\r', 16_777_217),
    Text::Whole(b"refused input\n"),
    Status::Refused,
)];

#[test]
fn raw_past_the_limit(rt: HostRuntime) {
    prints_long(&rt, rt.alloc(), raw_render_task(), &PAST_THE_LIMIT);
}

// A source of a receipt fails, and nothing is put.
fn fails(rt: &impl Abort, alloc: Global, task: Task) {
    let mut source = MemoryIn::failing(b"[{\"line\":\"Hi\"}]", 7, 2);
    let wanted = (b"".as_slice(), Status::Device);
    assert!(rt; performs(alloc, Ok(task), &mut source, &mut [0; 64], wanted));
}

// A sink fails, and has the beginning.
fn has_the_beginning(rt: &impl Abort, alloc: Global) {
    let mut source = MemoryIn::new(b"[{\"line\":\"Hi\"}]", 7);
    let wanted = (b"Hi".as_slice(), Status::Device);
    let asked = Ok(raw_encode_task());
    assert!(rt; performs(alloc, asked, &mut source, &mut [0; 2], wanted));
}

#[test]
fn raw_failures(rt: HostRuntime) {
    fails(&rt, rt.alloc(), raw_check_task());
    fails(&rt, rt.alloc(), raw_render_task());
    fails(&rt, rt.alloc(), raw_encode_task());
    has_the_beginning(&rt, rt.alloc());
}
