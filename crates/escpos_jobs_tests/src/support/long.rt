//! Jobs over long texts: a row says how its texts are made, so that rows are constants.
//!
//! Only `prints_one` owns the texts of a row.

use escpos_job_parts::status::Status;
use escpos_jobs::task::Task;
use escpos_test_jobs::prints;
use escpos_test_receipts::{filled, joined};
use std::alloc::{AllocError, Global};
use std::process::Abort;

/// A first part, one that comes several times, and a last one.
pub type Parts = (&'static str, &'static str, &'static str);

/// How a text is made.
#[derive(Clone, Copy)]
pub enum Text {
    /// It is this.
    Whole(&'static [u8]),
    /// These parts, the second so many times.
    Parts(Parts, usize),
    /// Such parts, so many times over, and an end.
    Times(Parts, usize, usize, &'static str),
    /// This, and a byte after it up to a length.
    Filled(&'static [u8], u8, usize),
    /// The same, and an end.
    FilledAnd(&'static [u8], u8, usize, &'static [u8]),
}

/// The input of a job, what it prints, and the status.
pub type Long = (Text, Text, Status);

/// The bytes of a text. The error is out of memory.
pub fn bytes_of(alloc: Global, text: Text) -> Result<Vec<u8>, AllocError> {
    match text {
        Text::Whole(bytes) => bytes.to_vec(alloc),
        Text::Parts(parts, count) => repeated(alloc, parts, count),
        Text::Times(parts, count, times, end) => times_over(alloc, (parts, count), times, end),
        Text::Filled(first, byte, length) => filled(alloc, first, byte, length),
        Text::FilledAnd(first, byte, length, end) => filled_and(alloc, (first, byte, length), end),
    }
}

fn repeated(
    alloc: Global,
    (first, part, last): Parts,
    count: usize,
) -> Result<Vec<u8>, AllocError> {
    joined(alloc, [first, part, last], count)
}

fn times_over(
    alloc: Global,
    (parts, count): (Parts, usize),
    times: usize,
    end: &str,
) -> Result<Vec<u8>, AllocError> {
    let one = repeated(alloc, parts, count)?;
    let mut text = Vec::new(alloc);
    adds(&mut text, &one, times, end)?;
    Ok(text)
}

// Adds a text so many times, and an end.
fn adds(text: &mut Vec<u8>, one: &[u8], times: usize, end: &str) -> Result<(), AllocError> {
    for _ in 0..times {
        text.extend_from_slice(one)?;
    }
    text.extend_from_slice(end.as_bytes())
}

fn filled_and(
    alloc: Global,
    (first, byte, length): (&[u8], u8, usize),
    end: &[u8],
) -> Result<Vec<u8>, AllocError> {
    let mut text = filled(alloc, first, byte, length)?;
    text.extend_from_slice(end)?;
    Ok(text)
}

/// A job prints what each row says.
pub fn prints_long(rt: &impl Abort, alloc: Global, task: Task, rows: &[Long]) {
    let each = &task;
    for (at, row) in rows.iter().enumerate() {
        assert!(rt;
            prints_one(rt, alloc, *each, *row),
            "row {at}, counted from 0"
        );
    }
}

fn prints_one(rt: &impl Abort, alloc: Global, task: Task, (input, output, status): Long) -> bool {
    let input = bytes_of(alloc, input).expect(rt, "memory");
    let output = bytes_of(alloc, output).expect(rt, "memory");
    prints(alloc, task, &input, (&output, status))
}
