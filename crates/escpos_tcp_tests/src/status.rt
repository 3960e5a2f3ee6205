//! The job `status`, over memory and over a link: the worked rows.

use crate::support::asked::Asked;
use crate::support::jobs::is_outcome;
use crate::support::sockets::NEVER;
use crate::support::steps::{Step, plays, plays_alone};
use escpos_io::{MemoryIn, MemoryOut};
use escpos_job_parts::status::Status;
use escpos_tcp_jobs::printer_status::status_over;
use escpos_test_receipts::joined;
use std::process::Abort;

// The four requests.
const REQUESTS: &[u8] = b"\x10\x04\x01\x10\x04\x02\x10\x04\x03\x10\x04\x04";

const ONLINE: &str = "online\ncover closed\npaper there\n";

// What comes from a printer, and what is printed of it.
const TOLD: [(&'static [u8], &'static str, Status); 20] = [
    // status_online
    (b"\x12\x12\x12\x12", ONLINE, Status::Good),
    // status_cover_open
    (
        b"\x1A\x16\x12\x12",
        "offline\ncover open\npaper there\n",
        Status::Good,
    ),
    // status_near_end
    (
        b"\x12\x12\x12\x1E",
        "online\ncover closed\npaper near its end\n",
        Status::Good,
    ),
    // status_paper_ended
    (
        b"\x1A\x32\x12\x72",
        "offline\ncover closed\npaper ended\n",
        Status::Good,
    ),
    // status_near_end_and_ended
    (
        b"\x1A\x36\x12\x7E",
        "offline\ncover open\npaper ended\n",
        Status::Good,
    ),
    // status_one_sensor_each
    (
        b"\x12\x12\x12\x16",
        "online\ncover closed\npaper near its end\n",
        Status::Good,
    ),
    (
        b"\x12\x12\x12\x32",
        "online\ncover closed\npaper ended\n",
        Status::Good,
    ),
    // status_bytes_in_order: each byte has the bits of all
    (
        b"\x12\x1A\x7E\x12",
        "online\ncover closed\npaper there\n",
        Status::Good,
    ),
    (
        b"\x7E\x12\x7E\x12",
        "offline\ncover closed\npaper there\n",
        Status::Good,
    ),
    // status_after_marks
    (
        b"\x37\x220000\x00\x37\x22ZZZZ\x00\x12\x12\x12\x12",
        ONLINE,
        Status::Good,
    ),
    // status_between_marks
    (
        b"\x12\x37\x220000\x00\x12\x12\x37\x220001\x00\x12",
        ONLINE,
        Status::Good,
    ),
    // status_after_a_block, status_between_blocks: what they say counts for nothing
    (b"\x14\x00\x00\x0F\x12\x12\x12\x12", ONLINE, Status::Good),
    (
        b"\x12\x38\x00\x0C\x00\x37\x220000\x00\x12\x12\x38\x00\x0C\x00\x12",
        ONLINE,
        Status::Good,
    ),
    // status_more_than_four
    (b"\x12\x12\x12\x12\x7E\xFF", ONLINE, Status::Good),
    // status_ended
    (b"\x12\x12\x12", "no status Ended\n", Status::Device),
    // status_ended_in_a_mark
    (
        b"\x12\x12\x12\x37\x2200",
        "no status Ended\n",
        Status::Device,
    ),
    // status_no_answer
    (b"", "no status Ended\n", Status::Device),
    // status_bad_answer
    (b"\x12\xFF\x12\x12", "no status BadAnswer\n", Status::Device),
    // status_bad_block
    (
        b"\x12\x14\x10\x12\x12\x12",
        "no status BadAnswer\n",
        Status::Device,
    ),
    // status_bad_mark
    (
        b"\x12\x37\x22000 \x12",
        "no status BadAnswer\n",
        Status::Device,
    ),
];

// A printer answers so, with reads and writes that fail from these calls on, and this is printed to an output with this room.
fn tells_into(
    rt: &impl Abort,
    (answers, read, write): (&[u8], u64, u64),
    printed: &mut [u8],
    (text, status): (&str, Status),
) {
    let mut room = [0; 64];
    let mut reader = MemoryIn::failing(answers, 3, read);
    let mut writer = MemoryOut::failing(&mut room, write);
    let mut output = MemoryOut::new(printed);
    let ended = status_over(&mut reader, &mut writer, &mut output);
    is_outcome(rt, (output.written(), ended), (text.as_bytes(), status));
    assert!(rt; write != NEVER || writer.written() == REQUESTS);
}

fn tells(rt: &impl Abort, faults: (&[u8], u64, u64), wanted: (&str, Status)) {
    tells_into(rt, faults, &mut [0; 64], wanted);
}

#[test]
fn status_rows(rt: HostRuntime) {
    for (answers, text, status) in &TOLD {
        tells(&rt, (answers, NEVER, NEVER), (text, *status));
    }
}

// status_read_fault, status_write_fault
#[test]
fn status_that_is_not_told(rt: HostRuntime) {
    let four = b"\x12\x12\x12\x12".as_slice();
    let read = ("no status ReadFault\n", Status::Device);
    tells(&rt, (four, 1, NEVER), read);
    tells(&rt, (four, 4, NEVER), read);
    let write = ("no status WriteFault\n", Status::Device);
    tells(&rt, (four, NEVER, 1), write);
}

// So many of these bytes come, and this is printed.
fn tells_of_the_first(rt: &impl Abort, answers: &[u8], count: usize, text: &str) {
    let first = answers.get(..count).expect(rt, "enough");
    tells(rt, (first, NEVER, NEVER), (text, Status::Device));
}

// No byte is read after the 16,384th: status_one_byte_less, status_too_long.
#[test]
fn status_too_long(rt: HostRuntime) {
    let marks = joined(
        rt.alloc(),
        ["7\"0000\x00", "7\"0001\x00", "7\"0002\x00"],
        2_400,
    )
    .expect(&rt, "memory");
    tells_of_the_first(&rt, &marks, 16_383, "no status Ended\n");
    tells_of_the_first(&rt, &marks, 16_384, "no status TooLong\n");
    tells_of_the_first(&rt, &marks, 16_814, "no status TooLong\n");
}

// An output that fails is a device that fails.
#[test]
fn status_to_an_output_that_fails(rt: HostRuntime) {
    let four = b"\x12\x12\x12\x12".as_slice();
    let wanted = ("onl", Status::Device);
    tells_into(&rt, (four, NEVER, NEVER), &mut [0; 3], wanted);
}

const OVER_A_LINK: &[Step] = &[
    Step::Answered(b"\x1A\x16\x12\x12", 1),
    Step::ShowStatus("offline\ncover open\npaper there\n", Status::Good),
    Step::IsPrompt(0),
    Step::Hears(1, REQUESTS),
];

const NO_LINK: &[Step] = &[Step::Ask(Asked::Status, b"", "no link\n", Status::Device)];

// Over a network that hands out a link whose printer has answered; and where nobody listens.
#[test]
fn status_over_a_link(rt: HostRuntime) {
    let address = plays(&rt, rt.alloc(), OVER_A_LINK);
    plays_alone(&rt, rt.alloc(), address, NO_LINK);
}
