//! The host at length: many links with many receipts, and the largest receipt.

use crate::support::hosts::{ANSWER_1, ANSWER_2, Event, Step, plays, records_of};
use crate::support::wide::Wide;
use escpos_test_receipts::{A, B};

#[test]
fn long_run(rt: HostRuntime) {
    plays(&rt, rt.alloc(), 0, &[Step::LongRun(1100)]);
}

const ROOM_OF_RECORDS: &[Step] = &[
    Step::Open,
    Step::Submit(A),
    Step::Submit(B),
    Step::Hear(ANSWER_1, Event::Recorded(0)),
    Step::Hear(ANSWER_2, Event::Recorded(1)),
];

// The room of the records grows with them, by more than one record at a time.
#[test]
fn room_of_records(rt: HostRuntime) {
    assert!(&rt; records_of(&rt, rt.alloc(), &[]).capacity() == 0);
    assert!(&rt; records_of(&rt, rt.alloc(), ROOM_OF_RECORDS).capacity() <= 16);
    let capacity = records_of(&rt, rt.alloc(), &[Step::LongRun(1100)]).capacity();
    assert!(&rt; capacity > 1100 + 4);
    assert!(&rt; capacity <= 4 * 1100);
}

const LARGEST: Wide = (b"\x1B@\x1Dv0\x00\x80\x00\xFF\x0F", 4095, 524_160);

const OF_2047_ROWS: Wide = (b"\x1B@\x1Dv0\x00\x80\x00\xFF\x07", 2047, 262_016);

#[test]
fn large_raster_out(rt: HostRuntime) {
    for (raster, length) in [(LARGEST, 524_181), (OF_2047_ROWS, 262_037)] {
        let steps = [
            Step::Open,
            Step::Out(b"\x1D(H\x06\x00000000"),
            Step::SubmitWide(raster),
            Step::OutWide(raster, length),
        ];
        plays(&rt, rt.alloc(), 0, &steps);
    }
}
