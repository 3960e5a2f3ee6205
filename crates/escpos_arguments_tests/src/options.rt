//! Options: widths of lines, plain text, replacements, and thresholds of pictures.

use crate::support::asking::{asks_for, printer};
use escpos_addresses::address::AddressText;
use escpos_arguments::task_of;
use escpos_command::LineWidth;
use escpos_job_parts::condition::ONLINE;
use escpos_job_parts::form::Form;
use escpos_jobs::task::{NoTask, Task};
use escpos_printer::Condition;
use escpos_receipt::ReceiptOptions;
use escpos_text::Replacement;
use std::alloc::Global;
use std::process::Abort;

fn wide(rt: &impl Abort, dots: u16) -> LineWidth {
    LineWidth::new(dots).expect(rt, "a width")
}

#[test]
fn widths_of_streams(rt: HostRuntime) {
    let width = wide(&rt, 384);
    let renders: [(&[&str], Form); 5] = [
        (&["render", "--width", "384"], Form::Hexadecimal),
        (&["render", "--width=384"], Form::Hexadecimal),
        (&["render", "--width", "0384"], Form::Hexadecimal),
        (&["render", "--raw", "--width", "384"], Form::Raw),
        (&["render", "--width", "384", "--raw"], Form::Raw),
    ];
    for (words, form) in renders {
        asks_for(
            &rt,
            rt.alloc(),
            words,
            Ok(Task::Render {
                form,
                pass: false,
                width,
            }),
        );
    }
    let draws: [(&[&str], Form); 3] = [
        (&["draw", "--width", "384"], Form::Hexadecimal),
        (&["draw", "--width", "384", "--raw"], Form::Raw),
        (&["draw", "--raw", "--width=384"], Form::Raw),
    ];
    for (words, form) in draws {
        asks_for(
            &rt,
            rt.alloc(),
            words,
            Ok(Task::Draw {
                form,
                pass: false,
                width,
            }),
        );
    }
    let words = ["loop", "--width", "384"];
    asks_for(&rt, rt.alloc(), &words, Ok(Task::Loop { width }));
}

// With `--pass`, beside other settings, and where it isn't one.
#[test]
fn passes_over(rt: HostRuntime) {
    let pass = true;
    let form = Form::Raw;
    let usual = LineWidth::usual();
    let width = wide(&rt, 384);
    let rows: [(&[&str], Task); 6] = [
        (&["check", "--raw", "--pass"], Task::Check { form, pass }),
        (
            &["check", "--pass", "--raw", "--"],
            Task::Check { form, pass },
        ),
        (
            &["render", "--pass", "--raw"],
            Task::Render {
                form,
                pass,
                width: usual,
            },
        ),
        (
            &["render", "--raw", "--width", "384", "--pass"],
            Task::Render { form, pass, width },
        ),
        (
            &["render", "--raw", "--text", "--pass"],
            Task::RenderText {
                form,
                pass,
                width: usual,
            },
        ),
        (
            &["draw", "--pass", "--raw"],
            Task::Draw {
                form,
                pass,
                width: usual,
            },
        ),
    ];
    for (words, task) in rows {
        asks_for(&rt, rt.alloc(), words, Ok(task));
    }
    for words in [
        ["encode", "--pass"],
        ["play", "--pass"],
        ["loop", "--pass"],
        ["check", "--pass=1"],
        ["--pass", "check"],
    ] {
        asks_for(&rt, rt.alloc(), &words, Err(NoTask::Usage));
    }
}

// The least width, the greatest, and the usual one, which is also that of `render` alone; `--` may follow a width.
#[test]
fn widths_of_render(rt: HostRuntime) {
    let rows: [(&[&str], u16); 5] = [
        (&["render", "--width", "1"], 1),
        (&["render", "--width", "512"], 512),
        (&["render"], 512),
        (&["render", "--width", "512", "--"], 512),
        (&["render", "--width", "1024"], 1024),
    ];
    for (words, dots) in rows {
        let task = Task::Render {
            form: Form::Hexadecimal,
            pass: false,
            width: wide(&rt, dots),
        };
        asks_for(&rt, rt.alloc(), words, Ok(task));
    }
}

#[test]
fn widths_of_emulate(rt: HostRuntime) {
    let open = Condition {
        cover_open: true,
        ..ONLINE
    };
    let rows: [(&[&str], Option<u32>, Condition); 5] = [
        (
            &["--width", "576", "--links=1", "--condition=000"],
            Some(1),
            ONLINE,
        ),
        (&["--links", "3", "--width", "576"], Some(3), ONLINE),
        (&["--condition", "100", "--width", "576"], Some(1), open),
        (
            &["--follow", "--width=576", "--condition=000"],
            None,
            ONLINE,
        ),
        (&["--width=576", "--condition=100", "--follow"], None, open),
    ];
    for (words, links, condition) in rows {
        let task = Task::Emulate {
            address: printer(),
            links,
            condition,
            width: wide(&rt, 576),
            file: None,
        };
        asks_after(&rt, rt.alloc(), words, Ok(task));
    }
}

// The file of a condition, with a condition until it is read, a width, and for so many links or to be followed.
#[test]
fn files_of_emulate(rt: HostRuntime) {
    let open = Condition {
        cover_open: true,
        ..ONLINE
    };
    let usual = LineWidth::usual();
    let width = wide(&rt, 576);
    let rows: [(&[&str], Option<u32>, Condition, LineWidth); 7] = [
        (&["--condition-file", "paper"], Some(1), ONLINE, usual),
        (&["--condition-file=paper"], Some(1), ONLINE, usual),
        (
            &["--condition-file", "paper", "--links", "9"],
            Some(9),
            ONLINE,
            usual,
        ),
        (
            &["--condition=100", "--condition-file", "paper"],
            Some(1),
            open,
            usual,
        ),
        (
            &["--follow", "--condition-file", "paper"],
            None,
            ONLINE,
            usual,
        ),
        (
            &["--condition-file", "paper", "--width", "576"],
            Some(1),
            ONLINE,
            width,
        ),
        (
            &[
                "--width=576",
                "--condition-file=paper",
                "--condition",
                "100",
                "--follow",
            ],
            None,
            open,
            width,
        ),
    ];
    let file = AddressText::of("paper").expect(&rt, "a path");
    for (words, links, condition, width) in rows {
        let task = Task::Emulate {
            address: printer(),
            links,
            condition,
            width,
            file: Some(file),
        };
        asks_after(&rt, rt.alloc(), words, Ok(task));
    }
}

// What `emulate` at a printer's address asks for with these words.
fn asks_after(rt: &impl Abort, alloc: Global, words: &[&str], asked: Result<Task, NoTask>) {
    let mut given = Vec::new(alloc);
    given.push("emulate").expect(rt, "memory");
    given.push("127.0.0.1:9100").expect(rt, "memory");
    given.extend_from_slice(words).expect(rt, "memory");
    asks_for(rt, alloc, given.as_slice(), asked);
}

// What `emulate` with the file of a condition at this path asks for.
fn asks_with_path<'a>(rt: &impl Abort, alloc: Global, path: &'a str, asked: Result<Task, NoTask>) {
    let mut given = Vec::new(alloc);
    given.push("emulate").expect(rt, "memory");
    given.push("127.0.0.1:9100").expect(rt, "memory");
    given.push("--condition-file").expect(rt, "memory");
    given.push(path).expect(rt, "memory");
    asks_for(rt, alloc, given.as_slice(), asked);
}

// Words with the file of a condition that ask for nothing.
const NO_FILES: [&'static [&'static str]; 6] = [
    &["--condition-file"],
    &["--condition-file", "a", "--condition-file", "a"],
    &["--condition-file", "a", "--condition", "2"],
    &["--condition-file", "a", "--links", "0"],
    &["--condition-file", "a", "--links", "1", "--follow"],
    &["--condition-file", "a", "--width", "0"],
];

// A path has at most 259 bytes, and stands once; the other words are refused as without it.
#[test]
fn files_that_ask_for_nothing(rt: HostRuntime) {
    for words in &NO_FILES {
        asks_after(&rt, rt.alloc(), words, Err(NoTask::Usage));
    }
    let bytes = [b'p'; 260];
    let long = str::from_utf8(&bytes).expect(&rt, "text");
    asks_with_path(&rt, rt.alloc(), long, Err(NoTask::Usage));
    let longest = str::from_utf8(&bytes[1..]).expect(&rt, "text");
    let task = Task::Emulate {
        address: printer(),
        links: Some(1),
        condition: ONLINE,
        width: LineWidth::usual(),
        file: Some(AddressText::of(longest).expect(&rt, "a path")),
    };
    asks_with_path(&rt, rt.alloc(), longest, Ok(task));
}

// Words with a width that ask for nothing.
const NO_WIDTHS: [&'static [&'static str]; 19] = [
    &["render", "--width"],
    &["render", "--width", ""],
    &["render", "--width="],
    &["render", "--width", "0"],
    &["render", "--width", "1025"],
    &["render", "--width", "65920"],
    &["render", "--width", "4294967680"],
    &["render", "--width", "-1"],
    &["render", "--width", "384.0"],
    &["render", "--width", "wide"],
    &["render", "--width", "384", "--width", "384"],
    &["draw", "--raw", "--width", "0"],
    &["loop", "--width", "0"],
    &["emulate", "127.0.0.1:9100", "--width", "0"],
    &[
        "emulate",
        "127.0.0.1:9100",
        "--follow",
        "--links",
        "1",
        "--width",
        "384",
    ],
    &["check", "--width", "384"],
    &["encode", "--width", "0"],
    &["play", "--width", "384"],
    &["send", "127.0.0.1:9100", "--first", "0", "--width", "0"],
];

#[test]
fn widths_that_ask_for_nothing(rt: HostRuntime) {
    for words in &NO_WIDTHS {
        asks_for(&rt, rt.alloc(), words, Err(NoTask::Usage));
    }
}

#[test]
fn words_for_a_width_of_receipts(rt: HostRuntime) {
    let rows: [(&[&str], Form); 3] = [
        (&["encode", "--width", "144"], Form::Hexadecimal),
        (&["encode", "--width=144", "--raw"], Form::Raw),
        (&["encode", "--raw", "--width", "144"], Form::Raw),
    ];
    for (words, form) in rows {
        let task = Task::Encode {
            form,
            options: ReceiptOptions {
                width: wide(&rt, 144),
                replacement: None,
            },
        };
        assert!(&rt; task_of(rt.alloc(), words) == Ok(task));
    }
}

#[test]
fn words_for_plain_text(rt: HostRuntime) {
    let rows: [(&[&str], Form, u16); 7] = [
        (&["render", "--text"], Form::Hexadecimal, 512),
        (&["render", "--text", "--"], Form::Hexadecimal, 512),
        (&["render", "--text", "--raw"], Form::Raw, 512),
        (&["render", "--raw", "--text"], Form::Raw, 512),
        (
            &["render", "--text", "--width", "384"],
            Form::Hexadecimal,
            384,
        ),
        (
            &["render", "--width=384", "--raw", "--text"],
            Form::Raw,
            384,
        ),
        (
            &["render", "--width", "512", "--text"],
            Form::Hexadecimal,
            512,
        ),
    ];
    for (words, form, dots) in rows {
        let task = Task::RenderText {
            form,
            pass: false,
            width: wide(&rt, dots),
        };
        asks_for(&rt, rt.alloc(), words, Ok(task));
    }
    for words in [
        ["check", "--text"],
        ["draw", "--text"],
        ["encode", "--text"],
        ["render", "--text=1"],
    ] {
        asks_for(&rt, rt.alloc(), &words, Err(NoTask::Usage));
    }
}

fn replacing(rt: &impl Abort, byte: u8) -> ReceiptOptions {
    ReceiptOptions {
        width: LineWidth::usual(),
        replacement: Some(Replacement::new(byte).expect(rt, "a replacement")),
    }
}

#[test]
fn words_for_a_replacement(rt: HostRuntime) {
    let rows: [(&[&str], Form, u8); 5] = [
        (&["encode", "--replace", "?"], Form::Hexadecimal, b'?'),
        (&["encode", "--raw", "--replace", "?"], Form::Raw, b'?'),
        (&["encode", "--replace=?", "--raw"], Form::Raw, b'?'),
        (&["encode", "--replace=-"], Form::Hexadecimal, b'-'),
        (&["encode", "--replace", " "], Form::Hexadecimal, b' '),
    ];
    for (words, form, byte) in rows {
        let options = replacing(&rt, byte);
        asks_for(&rt, rt.alloc(), words, Ok(Task::Encode { form, options }));
    }
    let words: [&[&str]; 7] = [
        &["encode", "--replace"],
        &["encode", "--replace", ""],
        &["encode", "--replace", "ab"],
        &["encode", "--replace", "\u{e9}"],
        &["encode", "--replace", "\u{7f}"],
        &["encode", "--replace", "?", "--replace", "?"],
        &["render", "--replace", "?"],
    ];
    for words in words {
        asks_for(&rt, rt.alloc(), words, Err(NoTask::Usage));
    }
}

#[test]
fn words_for_a_replacement_of_send(rt: HostRuntime) {
    let rows: [(&[&str], u32, Option<u32>); 2] = [
        (
            &["send", "127.0.0.1:9100", "--first", "4", "--replace", "?"],
            3,
            None,
        ),
        (
            &[
                "send",
                "127.0.0.1:9100",
                "--replace=?",
                "--openings=9",
                "--first",
                "4",
                "--wait",
                "30",
            ],
            9,
            Some(30),
        ),
    ];
    for (words, openings, wait) in rows {
        let task = Task::Send {
            address: printer(),
            first: 4,
            openings,
            wait,
            options: replacing(&rt, b'?'),
        };
        asks_for(&rt, rt.alloc(), words, Ok(task));
    }
}

fn image_at(rt: &impl Abort, dots: u16, threshold: Option<u8>) -> Task {
    Task::Image {
        width: LineWidth::new(dots).expect(rt, "a width"),
        threshold,
    }
}

#[test]
fn words_for_an_image(rt: HostRuntime) {
    let rows: [(&[&str], u16, Option<u8>); 7] = [
        (&["image"], 512, None),
        (&["image", "--"], 512, None),
        (&["image", "--width", "384"], 384, None),
        (&["image", "--threshold=128"], 512, Some(128)),
        (&["image", "--threshold", "1", "--width", "1"], 1, Some(1)),
        (
            &["image", "--width=1024", "--threshold=255"],
            1024,
            Some(255),
        ),
        (&["image", "--width=512"], 512, None),
    ];
    for (words, dots, threshold) in rows {
        let task = image_at(&rt, dots, threshold);
        assert!(&rt; task_of(rt.alloc(), words) == Ok(task));
    }
    let refused: [&[&str]; 9] = [
        &["image", "--threshold", "0"],
        &["image", "--threshold", "256"],
        &["image", "--threshold", ""],
        &["image", "--threshold"],
        &["image", "--width", "0"],
        &["image", "--width", "1025"],
        &["image", "--raw"],
        &["image", "picture"],
        &["render", "--threshold", "1"],
    ];
    for words in refused {
        assert!(&rt; task_of(rt.alloc(), words) == Err(NoTask::Usage));
    }
}
