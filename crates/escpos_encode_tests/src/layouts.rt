//! Layouts through `encode`: pairs, rows, rules and wrapped texts, in lines of twelve characters of font A.

use escpos_command::LineWidth;
use escpos_job_parts::form::Form;
use escpos_job_parts::status::Status;
use escpos_jobs::task::Task;
use escpos_receipt::ReceiptOptions;
use escpos_test_jobs::{Row, performs_rows, raw_encode_task};
use std::process::Abort;

fn narrow(rt: &impl Abort) -> ReceiptOptions {
    ReceiptOptions {
        width: LineWidth::new(144).expect(rt, "a width"),
        replacement: None,
    }
}

const LAID_OUT: [Row; 18] = [
    (
        b"[{\"pair\":[\"Tea\",\"2.10\"]}]",
        b"Tea     2.10\n",
        Status::Good,
    ),
    // a blank between the two is enough, and none is too few
    (
        b"[{\"pair\":[\"Orangen\",\"2.10\"]}]",
        b"Orangen 2.10\n",
        Status::Good,
    ),
    (
        b"[{\"pair\":[\"Orangens\",\"2.10\"]}]",
        b"Orangens\n        2.10\n",
        Status::Good,
    ),
    // the left text is wrapped, and the right one ends its last line
    (
        b"[{\"pair\":[\"Green tea leaves\",\"2.10\"]}]",
        b"Green tea\nleaves  2.10\n",
        Status::Good,
    ),
    // a right text that is longer than a line is wrapped, too
    (
        b"[{\"pair\":[\"A\",\"one two three four\"]}]",
        b"A    one two\n  three four\n",
        Status::Good,
    ),
    (b"[{\"pair\":[\"A\",\"\"]}]", b"A\n", Status::Good),
    (
        b"[{\"pair\":[\"\",\"B\"]}]",
        b"           B\n",
        Status::Good,
    ),
    // e with an acute accent, composed or not, and a euro sign are one character each
    (
        b"[{\"pair\":[\"Caf\xc3\xa9\",\"4 \xe2\x82\xac\"]},{\"pair\":[\"Cafe\xcc\x81\",\"4\"]}]",
        b"Caf\x82     4 \x1bt\x13\xd5\nCaf\x82       4\n",
        Status::Good,
    ),
    (
        b"[{\"row\":[[\"Tea\",4],[\"2\",-3],[\"4.2\",-5]]}]",
        b"Tea   2  4.2\n",
        Status::Good,
    ),
    // what doesn't fit into a field is cut off
    (
        b"[{\"row\":[[\"Coffee\",4],[\"123\",-2]]}]",
        b"Coff12\n",
        Status::Good,
    ),
    (b"[{\"rule\":\"-\"}]", b"------------\n", Status::Good),
    (
        b"[{\"wrap\":\"a word is here now\"}]",
        b"a word is\nhere now\n",
        Status::Good,
    ),
    // a word that is longer than a line is cut; blanks stay within a line, and go where it is broken
    (
        b"[{\"wrap\":\"abcdefghijklmnop  q   rs\"}]",
        b"abcdefghijkl\nmnop  q   rs\n",
        Status::Good,
    ),
    (b"[{\"wrap\":\"\"}]", b"\n", Status::Good),
    // in double width, in font B, and in both by ESC !
    (
        b"[{\"size\":[2,1]},{\"rule\":\"=\"},{\"size\":[1,1]},{\"rule\":\"=\"}]",
        b"\x1d!\x10======\n\x1d!\x00============\n",
        Status::Good,
    ),
    (
        b"[{\"font\":\"B\"},{\"rule\":\"=\"},{\"mode\":33},{\"rule\":\"=\"}]",
        b"\x1bM\x01================\n\x1b!\x21========\n",
        Status::Good,
    ),
    // text that is in the line is printed first; after a line, a code or a feed there is none
    (
        b"[{\"text\":\"A\"},{\"rule\":\"-\"},{\"text\":\"B\"},{\"feed\":1},{\"wrap\":\"C\"}]",
        b"A\n------------\nB\x1bd\x01C\n",
        Status::Good,
    ),
    (
        b"[{\"line\":\"A\"},{\"wrap\":\"B\"},{\"text\":\"\"},{\"wrap\":\"C\"}]",
        b"A\nB\nC\n",
        Status::Good,
    ),
];

#[test]
fn rows_of_layouts(rt: HostRuntime) {
    let task = Task::Encode {
        form: Form::Raw,
        options: narrow(&rt),
    };
    assert!(&rt; performs_rows(rt.alloc(), task, &LAID_OUT, &[1, 4096]));
}

const REFUSED: [Row; 14] = [
    // fields that together are wider than the line, and one without a width
    (
        b"[{\"row\":[[\"A\",8],[\"B\",-5]]}]",
        b"refused 6 BadShape 0\n",
        Status::Refused,
    ),
    (
        b"[{\"row\":[[\"A\",0]]}]",
        b"refused 6 BadShape 0\n",
        Status::Refused,
    ),
    (
        b"[{\"row\":[[\"A\",1.5]]}]",
        b"refused 6 BadShape 0\n",
        Status::Refused,
    ),
    (
        b"[{\"row\":[[\"A\"]]}]",
        b"refused 6 BadShape 0\n",
        Status::Refused,
    ),
    (
        b"[{\"row\":\"A\"}]",
        b"refused 6 BadShape 0\n",
        Status::Refused,
    ),
    (
        b"[{\"line\":\"\"},{\"pair\":[\"A\"]}]",
        b"refused 6 BadShape 1\n",
        Status::Refused,
    ),
    (
        b"[{\"pair\":[\"A\",\"B\",\"C\"]}]",
        b"refused 6 BadShape 0\n",
        Status::Refused,
    ),
    (
        b"[{\"pair\":[\"A\",1]}]",
        b"refused 6 BadShape 0\n",
        Status::Refused,
    ),
    (
        b"[{\"rule\":\"\"}]",
        b"refused 6 BadShape 0\n",
        Status::Refused,
    ),
    (
        b"[{\"rule\":\"--\"}]",
        b"refused 6 BadShape 0\n",
        Status::Refused,
    ),
    (
        b"[{\"wrap\":1}]",
        b"refused 6 BadShape 0\n",
        Status::Refused,
    ),
    (
        b"[{\"pair\":[\"A\",\"\xe6\xbc\xa2\"]}]",
        b"refused 8 NoCharacter 0 U+6F22\n",
        Status::Refused,
    ),
    (
        b"[{\"wrap\":\"A\\u0007\"}]",
        b"refused 7 ControlByte 0\n",
        Status::Refused,
    ),
    // a layout leaves nothing in the line
    (
        b"[{\"rule\":\"-\"},{\"text\":\"A\"}]",
        b"refused 3 TextLeft\n",
        Status::Refused,
    ),
];

#[test]
fn layouts_that_are_refused(rt: HostRuntime) {
    let task = Task::Encode {
        form: Form::Raw,
        options: narrow(&rt),
    };
    assert!(&rt; performs_rows(rt.alloc(), task, &REFUSED, &[4096]));
}

// In lines of 512 dots, which 42 characters of font A fill but for 8 dots.
const USUAL: [Row; 1] = [(
    b"[{\"pair\":[\"A\",\"B\"]}]",
    b"A                                        B\n",
    Status::Good,
)];

#[test]
fn layouts_in_usual_lines(rt: HostRuntime) {
    assert!(&rt; performs_rows(rt.alloc(), raw_encode_task(), &USUAL, &[4096]));
}
