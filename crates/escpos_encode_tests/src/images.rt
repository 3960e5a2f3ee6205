//! `image`: pictures as entries of a receipt, those entries through `encode`, and what is no picture.

use escpos_command::LineWidth;
use escpos_io::{MemoryIn, Outgoing};
use escpos_job_parts::status::Status;
use escpos_jobs::perform::perform;
use escpos_jobs::task::Task;
use escpos_test_jobs::{NoNetwork, Row, encode_task, performs_rows, prints};
use escpos_test_receipts::joined;
use std::alloc::Global;
use std::process::Abort;

fn image_at(rt: &impl Abort, dots: u16, threshold: Option<u8>) -> Task {
    Task::Image {
        width: LineWidth::new(dots).expect(rt, "a width"),
        threshold,
    }
}

// Pictures, and the entries that print them.
const PICTURES: [Row; 9] = [
    (
        b"P1 8 2 11110000 00001111",
        b"{\"raster\":{\"scale\":\"normal\",\"x\":1,\"y\":2,\"dots\":\"f00f\"}}\n",
        Status::Good,
    ),
    // a row has whole bytes, and the dots after its last one are white
    (
        b"P4 10 2\n\x80\x7f\x01\xff",
        b"{\"raster\":{\"scale\":\"normal\",\"x\":2,\"y\":2,\"dots\":\"804001c0\"}}\n",
        Status::Good,
    ),
    // black and white stay so
    (
        b"P5 2 1 255\n\x00\xff",
        b"{\"raster\":{\"scale\":\"normal\",\"x\":1,\"y\":1,\"dots\":\"80\"}}\n",
        Status::Good,
    ),
    (
        b"P6 2 1 255\n\xff\xff\xff\x00\x00\x00",
        b"{\"raster\":{\"scale\":\"normal\",\"x\":1,\"y\":1,\"dots\":\"40\"}}\n",
        Status::Good,
    ),
    (b"GIF89a", b"refused 1 NotPicture\n", Status::Refused),
    (b"P5 0 1 255\n", b"refused 3 BadSize 3\n", Status::Refused),
    (
        b"P5 1 1 70000\n",
        b"refused 4 BadMaximum 7\n",
        Status::Refused,
    ),
    (b"P2 1 1 9 10", b"refused 5 BadSample 9\n", Status::Refused),
    (
        b"P5 2 1 255\n\x00",
        b"refused 6 CutShort 12\n",
        Status::Refused,
    ),
];

#[test]
fn rows_of_pictures(rt: HostRuntime) {
    let task = image_at(&rt, 512, None);
    assert!(&rt; performs_rows(rt.alloc(), task, &PICTURES, &[1, 4096]));
}

// With a threshold a dot is black where its gray value is below it, and nowhere else.
#[test]
fn a_threshold(rt: HostRuntime) {
    let rows: [Row; 1] = [(
        b"P5 3 1 255\n\x63\x64\x65",
        b"{\"raster\":{\"scale\":\"normal\",\"x\":1,\"y\":1,\"dots\":\"80\"}}\n",
        Status::Good,
    )];
    let task = image_at(&rt, 512, Some(100));
    assert!(&rt; performs_rows(rt.alloc(), task, &rows, &[4096]));
}

// A picture of twice the width of a line: each dot is the mean of two in each of two rows.
#[test]
fn a_wide_picture_is_scaled_down(rt: HostRuntime) {
    let rows: [Row; 1] = [(
        b"P2 4 2 255  0 0 255 255  0 200 255 255",
        b"{\"raster\":{\"scale\":\"normal\",\"x\":1,\"y\":1,\"dots\":\"80\"}}\n",
        Status::Good,
    )];
    let task = image_at(&rt, 2, Some(100));
    assert!(&rt; performs_rows(rt.alloc(), task, &rows, &[4096]));
}

fn image_text(rt: &impl Abort, alloc: Global, picture: &[u8]) -> Vec<u8> {
    let mut source = MemoryIn::new(picture, 1_000_000);
    let mut sink = Outgoing::new(Vec::new(alloc));
    let task = image_at(rt, 512, Some(128));
    let ended = perform(&NoNetwork, alloc, Ok(task), &mut source, &mut sink);
    assert!(rt; ended == Status::Good);
    sink.into_inner()
}

// The entries are those of a receipt: between brackets `encode` takes them.
#[test]
fn entries_that_encode_takes(rt: HostRuntime) {
    let entries = image_text(&rt, rt.alloc(), b"P1 8 2 11110000 00001111");
    let text = str::from_utf8(entries.as_slice()).expect(&rt, "UTF-8");
    let receipt = joined(rt.alloc(), ["[", text, "]"], 1).expect(&rt, "memory");
    assert!(&rt;
        prints(
            rt.alloc(),
            encode_task(),
            receipt.as_slice(),
            (b"1d76300001000200f00f\n", Status::Good)
        )
    );
}

// A picture of more rows than a raster has is two entries, the first of 4,095 rows.
#[test]
fn a_tall_picture_is_two_rasters(rt: HostRuntime) {
    let mut picture = Vec::new(rt.alloc());
    picture
        .extend_from_slice(b"P4 8 4096\n")
        .expect(&rt, "memory");
    for _ in 0..4096 {
        picture.push(0xa5).expect(&rt, "memory");
    }
    let entries = image_text(&rt, rt.alloc(), picture.as_slice());
    let text = str::from_utf8(entries.as_slice()).expect(&rt, "UTF-8");
    let mut lines = text.lines();
    let first = lines.next().expect(&rt, "an entry");
    assert!(&rt;
        first.starts_with("{\"raster\":{\"scale\":\"normal\",\"x\":1,\"y\":4095,\"dots\":\"a5a5")
    );
    let second = lines.next().expect(&rt, "another entry");
    assert!(&rt; second == "{\"raster\":{\"scale\":\"normal\",\"x\":1,\"y\":1,\"dots\":\"a5\"}}");
    assert!(&rt; lines.next() == None);
}
