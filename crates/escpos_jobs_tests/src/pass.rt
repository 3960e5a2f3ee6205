//! Streams with commands that are passed over.

use escpos_job_parts::status::Status;
use escpos_test_jobs::{
    Row, passing_check_task, passing_render_task, performs_rows, raw_check_task, raw_render_task,
};

// A line, a buzzer, a question about stored pictures, and a cut.
const BUZZES: &[u8] = b"\x1B@Hi\n\x1BB\x02\x04\x1D(L\x02\x0003\x1DV\x00";

const LISTED: [Row; 9] = [
    (
        BUZZES,
        b"0 init\n2 char 48\n3 char 69\n4 lf\n5 passed ESC B 02 04\n9 passed GS ( L 02 00 30 33\n16 cut 00\nend 19 pending 0\n",
        Status::Good,
    ),
    (
        b"\x0C\x18",
        b"0 passed FF\n1 passed CAN\nend 2 pending 0\n",
        Status::Good,
    ),
    // a parameter tells this command from others that are read: it is no part of the name
    (
        b"\x10\x04\x07\x01",
        b"0 passed DLE EOT 07 01\nend 4 pending 0\n",
        Status::Good,
    ),
    // functions that are taken aren't passed over, with whatever follows them
    (
        b"\x1D(L\x0C\x000p0\x01\x011\x08\x00\x02\x00\xFF\x81\x1D(L\x02\x000\x02",
        b"0 graphics 01 01 8 2\n17 graphicsprint 02\nend 24 pending 0\n",
        Status::Good,
    ),
    (
        b"\x1D8L\x0B\x00\x00\x000p4\x01\x011\x08\x00\x01\x00\xFF",
        b"fault 9 3 BadParameter\n",
        Status::Refused,
    ),
    // the start of one
    (
        b"A\x1BB\x02",
        b"0 char 41\nend 4 pending 3\n",
        Status::Refused,
    ),
    // what the Reference hasn't, and what is read but for a parameter
    (
        b"\x0C\x1B\xFF",
        b"0 passed FF\nfault 2 2 UnknownCommand\n",
        Status::Refused,
    ),
    (
        b"\x1BB\x01\x01\x1Ba\x03",
        b"0 passed ESC B 01 01\nfault 6 3 BadParameter\n",
        Status::Refused,
    ),
    (
        b"\x1BB\x01\x01\x06",
        b"0 passed ESC B 01 01\nfault 4 1 UnknownByte\n",
        Status::Refused,
    ),
];

const PRINTED: [Row; 4] = [
    (
        BUZZES,
        b"row left Hi\nfeed 1\ncut full\npassed 2\n",
        Status::Good,
    ),
    // nothing is passed over
    (b"Hi\n", b"row left Hi\nfeed 1\n", Status::Good),
    (
        b"\x1BK\x01A\n\x1BK\x00\x1B",
        b"row left A\nfeed 1\npassed 2\nend 9 pending 1\n",
        Status::Refused,
    ),
    (
        b"\x1BK\x01A\n\x1B\xFF",
        b"row left A\nfeed 1\npassed 1\nfault 6 2 UnknownCommand\n",
        Status::Refused,
    ),
];

// Without `--pass` the first of them is refused.
const LISTED_WITHOUT: [Row; 1] = [(
    BUZZES,
    b"0 init\n2 char 48\n3 char 69\n4 lf\nfault 6 2 UnknownCommand\n",
    Status::Refused,
)];

const PRINTED_WITHOUT: [Row; 1] = [(
    BUZZES,
    b"row left Hi\nfeed 1\nfault 6 2 UnknownCommand\n",
    Status::Refused,
)];

#[test]
fn lists_what_is_passed_over(rt: HostRuntime) {
    assert!(&rt; performs_rows(rt.alloc(), passing_check_task(), &LISTED, &[1, 4096]));
    assert!(&rt; performs_rows(rt.alloc(), raw_check_task(), &LISTED_WITHOUT, &[4096]));
}

#[test]
fn counts_what_is_passed_over(rt: HostRuntime) {
    assert!(&rt; performs_rows(rt.alloc(), passing_render_task(), &PRINTED, &[1, 4096]));
    assert!(&rt; performs_rows(rt.alloc(), raw_render_task(), &PRINTED_WITHOUT, &[4096]));
}
