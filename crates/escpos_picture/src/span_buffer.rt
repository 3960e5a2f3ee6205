//! The text of short rows on its way to a gather.

ghost use Rattle.std.specs.Prelude.{◌≡◌, ◌+◌, ◌*◌, ◌≤◌, ◌<◌, ◌++◌, [], length, true};
ghost use Rattle.escpos_picture.specs.Steps.{steps_text};
ghost use Rattle.escpos_picture.specs.ByteSpans.{inner_rows_text};
ghost use Rattle.escpos_picture.specs.Rasters.{row_steps, rows_of};

use crate::moves::{MOVE_BYTES, SHORT_ROW_BYTES};
use crate::short_row::{STEP_BYTES, append_row, append_rows};
use std::marker::Model;

/// The most bytes that a buffer holds: the longest row has room.
pub const SPAN_BUFFER_BYTES: usize = 4608;

const _: () = prove!(SPAN_BUFFER_BYTES == 4608);

/// Text of rows that waits for a gather. Its model is what waits.
#[derive(Drop)]
pub struct SpanBuffer {
    bytes: [u8; SPAN_BUFFER_BYTES],
    len: usize,
}

impl Model for SpanBuffer {
    ghost use Rattle.std.specs.Prelude.{◌≡◌, ◌≤◌, length, take};
    ghost use Rattle.escpos_picture.specs.SpanBuffer.{Waiting};

    ghost Value = { Waiting };

    ghost view = { λ b. record { text = take b.len b.bytes } };

    ghost invariant = { λ b. (b.len ≤ 4608) × (length b.bytes ≡ 4608) };
}

impl SpanBuffer {
    /// A buffer in which nothing waits.
    pub fn new() -> Self
        ensures { result.text ≡ [] }
    {
        SpanBuffer {
            bytes: [0; SPAN_BUFFER_BYTES],
            len: 0,
        }
    }

    /// Whether there is room for a row of this many bytes.
    #[inline(always)]
    pub fn has_room(&self, count: usize) -> bool
        requires { count ≤ SHORT_ROW_BYTES }
        ensures { result ≡ true → length self.now.text + (STEP_BYTES * count + MOVE_BYTES) ≤ SPAN_BUFFER_BYTES }
    {
        self.len + (STEP_BYTES * count + MOVE_BYTES) <= SPAN_BUFFER_BYTES
    }

    /// Appends a short row, which is the last of its path or isn't.
    #[inline(always)]
    pub fn append_row(&mut self, row: &[u8], is_last: bool)
        requires short { length row.now ≤ SHORT_ROW_BYTES }
        requires room { length self.old.text + (STEP_BYTES * length row.now + MOVE_BYTES) ≤ SPAN_BUFFER_BYTES }
        ensures { self.new.text ≡ self.old.text ++ steps_text (row_steps is_last row.now) }
    {
        self.len = append_row(&mut self.bytes, self.len, row, is_last);
    }

    /// Appends rows of `x` bytes each, none of which is the last of its path: as many as there are and have room, and at most so many.
    /// Returns how many.
    #[inline]
    pub fn append_rows(&mut self, dots: &[u8], x: usize, most: usize) -> usize
        requires { 0 < most → x ≤ SHORT_ROW_BYTES }
        ensures text { self.new.text ≡ self.old.text ++ inner_rows_text (rows_of x result dots.now) }
        ensures most { result ≤ most }
        ensures within { x * result ≤ length dots.now }
    {
        let (end, count) = append_rows(&mut self.bytes, self.len, dots, x, most);
        self.len = end;
        count
    }

    /// What waits.
    #[inline]
    pub fn as_slice(&self) -> &[u8]
        ensures { result.now ≡ self.now.text }
    {
        &self.bytes[..self.len]
    }

    /// Empties the buffer.
    #[inline]
    pub fn clear(&mut self)
        ensures { self.new.text ≡ [] }
    {
        self.len = 0;
    }
}
