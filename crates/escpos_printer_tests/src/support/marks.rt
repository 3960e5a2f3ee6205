//! Marks, and the answers to them.

use escpos_command::{Answer, MarkId};
use escpos_test_values::append_mark;
use std::process::Abort;

/// The marks 0 to 17, of 11 bytes each.
pub const MARKS: [u8; 198] =
    *b"\x1D(H\x06\x00000000\x1D(H\x06\x00000001\x1D(H\x06\x00000002\x1D(H\x06\x00000003\
      \x1D(H\x06\x00000004\x1D(H\x06\x00000005\x1D(H\x06\x00000006\x1D(H\x06\x00000007\
      \x1D(H\x06\x00000008\x1D(H\x06\x00000009\x1D(H\x06\x0000000A\x1D(H\x06\x0000000B\
      \x1D(H\x06\x0000000C\x1D(H\x06\x0000000D\x1D(H\x06\x0000000E\x1D(H\x06\x0000000F\
      \x1D(H\x06\x0000000G\x1D(H\x06\x0000000H";

/// The answers to them, of 7 bytes each.
pub const ANSWERS: [u8; 126] = *b"\x37\x220000\x00\x37\x220001\x00\x37\x220002\x00\x37\x220003\x00\
      \x37\x220004\x00\x37\x220005\x00\x37\x220006\x00\x37\x220007\x00\
      \x37\x220008\x00\x37\x220009\x00\x37\x22000A\x00\x37\x22000B\x00\
      \x37\x22000C\x00\x37\x22000D\x00\x37\x22000E\x00\x37\x22000F\x00\
      \x37\x22000G\x00\x37\x22000H\x00";

// The answer to the mark of this number.
pub fn mark(rt: &impl Abort, number: u32) -> Answer {
    Answer::Mark(MarkId::of_number(number).expect(rt, "the number of a mark"))
}

pub fn push_mark(rt: &impl Abort, bytes: &mut Vec<u8>, number: u32) {
    append_mark(bytes, number).expect(rt, "a mark");
}

pub fn push_bytes(rt: &impl Abort, bytes: &mut Vec<u8>, more: &[u8]) {
    bytes.extend_from_slice(more).expect(rt, "memory");
}
