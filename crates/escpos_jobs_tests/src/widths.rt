//! The paper of lines of other widths.

use escpos_command::LineWidth;
use escpos_job_parts::form::Form;
use escpos_job_parts::status::Status;
use escpos_jobs::task::Task;
use escpos_test_jobs::{Row, performs_rows, raw_render_task};
use std::alloc::Global;
use std::process::Abort;

// A stream of 33 characters, and its paper in lines of 384 dots.
const NARROW: [Row; 1] = [(
    b"abcdefghijklmnopqrstuvwxyz0123456\n",
    b"row left abcdefghijklmnopqrstuvwxyz012345\nfeed 1\nrow left 6\nfeed 1\n",
    Status::Good,
)];

// 48 characters, which are a line of 576 dots, and more than one of 512.
const WIDE: [Row; 1] = [(
    b"abcdefghijklmnopqrstuvwxyz0123456789ABCDEFGHIJKL\n",
    b"row left abcdefghijklmnopqrstuvwxyz0123456789ABCDEFGHIJKL\nfeed 1\n",
    Status::Good,
)];

// The same in lines of 512 dots.
const USUAL: [Row; 1] = [(
    b"abcdefghijklmnopqrstuvwxyz0123456789ABCDEFGHIJKL\n",
    b"row left abcdefghijklmnopqrstuvwxyz0123456789ABCDEF\nfeed 1\nrow left GHIJKL\nfeed 1\n",
    Status::Good,
)];

// All tab stops at power-on, in the widest line. After the last one HT does nothing.
const WIDEST: [Row; 1] = [(
    b"A\tB\tC\tD\tE\tF\tG\tH\tI\tJ\tK\tL\n",
    b"row left A@96B@192C@288D@384E@480F@576G@672H@768I@864J@960KL\nfeed 1\n",
    Status::Good,
)];

// Characters of 96 dots, one over another: ten take 960 dots, and with one more it would be over 1,024.
const OVER: [Row; 1] = [(
    b"\x1D!\x70A\x1B$\x00\x00A\x1B$\x00\x00A\x1B$\x00\x00A\x1B$\x00\x00A\x1B$\x00\x00A\x1B$\x00\x00A\x1B$\x00\x00A\x1B$\x00\x00A\x1B$\x00\x00A\x1B$\x00\x00B\n",
    b"row left [A,8,1,0,0,0]A@0A@0A@0A@0A@0A@0A@0A@0A@0A\nfeed 1\nrow left [A,8,1,0,0,0]B\nfeed 1\n",
    Status::Good,
)];

// Each row is printed in lines of so many dots.
fn prints_wide(rt: &impl Abort, alloc: Global, dots: u16, rows: &[Row]) {
    let width = LineWidth::new(dots).expect(rt, "a width");
    let task = Task::Render {
        form: Form::Raw,
        pass: false,
        width,
    };
    assert!(rt; performs_rows(alloc, task, rows, &[1, 4096]), "{dots}");
}

#[test]
fn papers_of_widths(rt: HostRuntime) {
    prints_wide(&rt, rt.alloc(), 384, &NARROW);
    prints_wide(&rt, rt.alloc(), 576, &WIDE);
    prints_wide(&rt, rt.alloc(), 1024, &WIDEST);
    prints_wide(&rt, rt.alloc(), 512, &OVER);
    assert!(&rt; performs_rows(rt.alloc(), raw_render_task(), &USUAL, &[4096]));
}
