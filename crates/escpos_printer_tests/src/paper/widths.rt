//! Lines of widths of their own: what stands in a row, and what keeps the width.

use crate::support::pages::{Step, plays};
use escpos_command::LineWidth;

// The dots of a line, the bytes of commands before so many characters, and how many stand in each row.
const ROWS: [(u16, &[u8], usize, &[usize]); 16] = [
    (512, b"", 43, &[42, 1]),
    (384, b"", 33, &[32, 1]),
    (384, b"\x1BM\x01", 43, &[42, 1]),
    (384, b"\x1D!\x10", 17, &[16, 1]),
    (576, b"", 49, &[48, 1]),
    (1024, b"", 86, &[85, 1]),
    (1024, b"\x1BM\x01", 114, &[113, 1]),
    // Init keeps the width
    (384, b"\x1B@", 33, &[32, 1]),
    // a character that is wider than the line has a row of its own
    (1, b"", 3, &[1, 1, 1]),
    (12, b"", 2, &[1, 1]),
    (23, b"", 2, &[1, 1]),
    (24, b"", 3, &[2, 1]),
    (95, b"\x1D!\x70", 2, &[1, 1]),
    // the space after a character counts, magnified as the character is
    (512, b"\x1B \x04", 33, &[32, 1]),
    (512, b"\x1B \x04\x1D!\x10", 17, &[16, 1]),
    (1024, b"\x1B \xFF\x1D!\x70", 2, &[1, 1]),
];

#[test]
fn rows_of_a_width(rt: HostRuntime) {
    for (dots, bytes, count, wanted) in ROWS {
        let steps = [
            Step::Apply(bytes),
            Step::PrintLine(count),
            Step::Rows(dots, wanted),
        ];
        plays(&rt, rt.alloc(), dots, &steps);
    }
}

// A page that is switched off and on keeps its width.
#[test]
fn restart_keeps_the_width(rt: HostRuntime) {
    let steps = [
        Step::Restart,
        Step::PrintLine(33),
        Step::Rows(384, &[32, 1]),
    ];
    plays(&rt, rt.alloc(), 384, &steps);
}

#[test]
fn widths_have_1_to_1024_dots(rt: HostRuntime) {
    assert!(&rt; LineWidth::new(0).is_none());
    assert!(&rt; LineWidth::new(1025).is_none());
    assert!(&rt; LineWidth::usual() == LineWidth::new(512).expect(&rt, "a width"));
    for dots in 1..=1024 {
        assert!(&rt; LineWidth::new(dots).expect(&rt, "a width").dots() == dots);
    }
}
