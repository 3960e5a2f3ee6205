//! The input of a job: hexadecimal digits, what is no digit, the limit of its length, and a source or a sink that fails.

use crate::support::long::{Long, Text, prints_long};
use escpos_io::MemoryIn;
use escpos_job_parts::hexadecimal::{NotHexadecimal, bytes_of};
use escpos_job_parts::status::Status;
use escpos_jobs::task::Task;
use escpos_test_jobs::{Row, check_task, performs, performs_rows, render_task};
use std::alloc::Global;
use std::process::Abort;

const EDGES: [Row; 7] = [
    (b"1B 40 4", b"refused hex\n", Status::Refused),
    (b"g1B 40", b"refused hex\n", Status::Refused),
    (b"1B 40g", b"refused hex\n", Status::Refused),
    (b"\x0b", b"refused hex\n", Status::Refused),
    (b" \t\r\n", b"end 0 pending 0\n", Status::Good),
    (b"0a0D", b"0 lf\n1 cr\nend 2 pending 0\n", Status::Good),
    (
        b"f F\nfE",
        b"0 char ff\n1 char fe\nend 2 pending 0\n",
        Status::Good,
    ),
];

#[test]
fn bad_input_at_each_edge(rt: HostRuntime) {
    assert!(&rt; performs_rows(rt.alloc(), check_task(), &EDGES, &[3]));
}

// The longest input: the digits of a line feed, and then blanks.
const LIMIT: [Long; 1] = [(
    Text::Filled(b"0A", b' ', 16_777_216),
    Text::Whole(b"0 lf\nend 1 pending 0\n"),
    Status::Good,
)];

#[test]
fn the_limit_of_the_input(rt: HostRuntime) {
    prints_long(&rt, rt.alloc(), check_task(), &LIMIT);
}

const PAST_THE_LIMIT: [Long; 1] = [(
    Text::Filled(b"0A", b' ', 16_777_217),
    Text::Whole(b"refused input\n"),
    Status::Refused,
)];

#[test]
fn a_byte_past_the_limit(rt: HostRuntime) {
    prints_long(&rt, rt.alloc(), check_task(), &PAST_THE_LIMIT);
}

// A fault far into a stream is found at its place, here after 500,000 bytes that print nothing.
const FAR_FAULT: [Long; 1] = [(
    Text::Parts(("", "0D", "06"), 500_000),
    Text::Whole(b"fault 500000 1 UnknownByte\n"),
    Status::Refused,
)];

#[test]
fn a_fault_far_into_a_stream(rt: HostRuntime) {
    prints_long(&rt, rt.alloc(), render_task(), &FAR_FAULT);
}

// A digit without another is refused however far it stands, and so is a byte that is no digit.
const LONE_DIGIT: [Long; 1] = [(
    Text::Filled(b"0", b'A', 10_000_001),
    Text::Whole(b"refused hex\n"),
    Status::Refused,
)];

#[test]
fn a_lone_digit_far_into_the_input(rt: HostRuntime) {
    prints_long(&rt, rt.alloc(), check_task(), &LONE_DIGIT);
}

const BAD_DIGIT: [Long; 1] = [(
    Text::FilledAnd(b"", b'A', 10_000_000, b"g0"),
    Text::Whole(b"refused hex\n"),
    Status::Refused,
)];

#[test]
fn a_bad_digit_far_into_the_input(rt: HostRuntime) {
    prints_long(&rt, rt.alloc(), check_task(), &BAD_DIGIT);
}

// A source of these digits that fails from a call on: nothing is put.
fn fails_from(rt: &impl Abort, alloc: Global, task: Task, from_call: u64) {
    let mut source = MemoryIn::failing(b"0A 0A", 2, from_call);
    let wanted = (b"".as_slice(), Status::Device);
    assert!(rt; performs(alloc, Ok(task), &mut source, &mut [0; 64], wanted));
}

#[test]
fn a_source_fails(rt: HostRuntime) {
    for from_call in [1, 2, 4] {
        fails_from(&rt, rt.alloc(), check_task(), from_call);
        fails_from(&rt, rt.alloc(), render_task(), from_call);
    }
}

const FIVE_LINES: [u8; 57] = *b"0 init\n2 char 48\n3 char 69\n4 lf\n5 cut 00\nend 8 pending 0\n";

// A sink with this room gets this of the output, its beginning.
fn fills(
    rt: &impl Abort,
    alloc: Global,
    task: Task,
    input: &[u8],
    room: &mut [u8],
    beginning: &[u8],
) {
    let mut source = MemoryIn::new(input, 100);
    assert!(rt;
        performs(
            alloc,
            Ok(task),
            &mut source,
            room,
            (beginning, Status::Device)
        )
    );
}

// What a sink with little room gets of the output is its beginning.
#[test]
fn a_sink_fails_at_each_place(rt: HostRuntime) {
    let mut room = [0; 56];
    let input = b"1B 40 48 69 0A 1D 56 00".as_slice();
    for count in 0..56 {
        let beginning = &FIVE_LINES[..count];
        fills(
            &rt,
            rt.alloc(),
            check_task(),
            input,
            &mut room[..count],
            beginning,
        );
    }
    fills(
        &rt,
        rt.alloc(),
        check_task(),
        b"1B 4",
        &mut [0; 5],
        b"refus",
    );
    fills(
        &rt,
        rt.alloc(),
        render_task(),
        b"41 0A",
        &mut [0; 5],
        b"row l",
    );
}

fn are_bytes(
    found: &Result<Vec<u8>, NotHexadecimal>,
    wanted: Result<&[u8], NotHexadecimal>,
) -> bool {
    match (found, wanted) {
        (Ok(bytes), Ok(wanted)) => bytes.as_slice() == wanted,
        (Err(fault), Err(wanted)) => *fault == wanted,
        _ => false,
    }
}

fn gives_bytes(rt: &impl Abort, alloc: Global, text: &[u8], wanted: Result<&[u8], NotHexadecimal>) {
    let found = bytes_of(text.to_vec(alloc).expect(rt, "memory"));
    assert!(rt; are_bytes(&found, wanted));
}

// Digits, and the bytes that they give.
const GIVEN: [(&[u8], Result<&[u8], NotHexadecimal>); 8] = [
    (b"1B 40 aF\tFa\r\n0a", Ok(b"\x1b\x40\xaf\xfa\x0a")),
    (b"1 b 4\n0", Ok(b"\x1b\x40")),
    (b" \t\r\n", Ok(b"")),
    (b"", Ok(b"")),
    (b"1B4", Err(NotHexadecimal)),
    (b"g0 00", Err(NotHexadecimal)),
    (b"00 0x", Err(NotHexadecimal)),
    (b"00\x0b00", Err(NotHexadecimal)),
];

#[test]
fn digits_give_bytes(rt: HostRuntime) {
    for (text, wanted) in &GIVEN {
        gives_bytes(&rt, rt.alloc(), text, *wanted);
    }
}
