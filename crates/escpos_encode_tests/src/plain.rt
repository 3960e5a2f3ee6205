//! `render --text` and `--replace`: rows as a reader sees them, and receipts in twelve languages that are read back.

use escpos_command::LineWidth;
use escpos_io::{MemoryIn, Outgoing};
use escpos_job_parts::form::Form;
use escpos_job_parts::status::Status;
use escpos_jobs::task::Task;
use escpos_receipt::ReceiptOptions;
use escpos_test_jobs::{
    NoNetwork, Row, performs_rows, prints, raw_encode_task, raw_render_text_task, render_text_task,
    run_job,
};
use escpos_test_receipts::joined;
use escpos_text::Replacement;
use std::alloc::Global;
use std::process::Abort;

fn replacing(rt: &impl Abort, byte: u8) -> ReceiptOptions {
    ReceiptOptions {
        width: LineWidth::usual(),
        replacement: Some(Replacement::new(byte).expect(rt, "a replacement")),
    }
}

// Streams, and their paper as plain text.
const PLAIN: [Row; 9] = [
    // e with an acute accent in table 0, and a euro sign in table 19
    (
        b"43 61 66 82 20 1B 74 13 D5 0A",
        b"row left Caf\xc3\xa9 \xe2\x82\xac\nfeed 1\n",
        Status::Good,
    ),
    // A with a diaeresis in the set of Germany
    (
        b"1B 52 02 5B 0A",
        b"row left \xc3\x84\nfeed 1\n",
        Status::Good,
    ),
    // a table that isn't known, and a place that table 16 leaves open
    (
        b"1B 74 06 D5 1B 74 10 81 0A",
        b"row left \xef\xbf\xbd\xef\xbf\xbd\nfeed 1\n",
        Status::Good,
    ),
    // styles aren't shown, and brackets are themselves
    (
        b"1B 45 01 41 1B 45 00 5B 5C 0A",
        b"row left A[\\\nfeed 1\n",
        Status::Good,
    ),
    (
        b"1B 61 02 1B 7B 01 41 0A",
        b"row right upside A\nfeed 1\n",
        Status::Good,
    ),
    (
        b"1B 61 01 41 1B 4A 05 1D 56 00",
        b"row center A\nunits 5\ncut full\n",
        Status::Good,
    ),
    // a half command, a refused byte, and text that isn't hexadecimal
    (
        b"41 0A 1B",
        b"row left A\nfeed 1\nend 3 pending 1\n",
        Status::Refused,
    ),
    (
        b"41 0A 06",
        b"row left A\nfeed 1\nfault 2 1 UnknownByte\n",
        Status::Refused,
    ),
    (b"4", b"refused hex\n", Status::Refused),
];

#[test]
fn rows_of_plain_text(rt: HostRuntime) {
    assert!(&rt; performs_rows(rt.alloc(), render_text_task(), &PLAIN, &[1, 4096]));
}

#[test]
fn plain_text_in_narrow_lines(rt: HostRuntime) {
    let task = Task::RenderText {
        form: Form::Raw,
        pass: false,
        width: LineWidth::new(24).expect(&rt, "a width"),
    };
    let rows: [Row; 1] = [(
        b"\x82\x82\x82\n",
        b"row left \xc3\xa9\xc3\xa9\nfeed 1\nrow left \xc3\xa9\nfeed 1\n",
        Status::Good,
    )];
    assert!(&rt; performs_rows(rt.alloc(), task, &rows, &[4096]));
}

// Characters that no table has, with a question mark in their place.
const REPLACED: [Row; 2] = [
    (
        b"[{\"line\":\"A\xe6\xbc\xa2\xc3\xa9\xf0\x9f\x8d\x95\"}]",
        b"413f823f0a\n",
        Status::Good,
    ),
    (
        b"[{\"line\":\"A\\u0007\"}]",
        b"refused 7 ControlByte 0\n",
        Status::Refused,
    ),
];

#[test]
fn rows_of_a_replacement(rt: HostRuntime) {
    let task = Task::Encode {
        form: Form::Hexadecimal,
        options: replacing(&rt, b'?'),
    };
    assert!(&rt; performs_rows(rt.alloc(), task, &REPLACED, &[1, 4096]));
}

// A replacement that the set in force exchanges comes from no table, and so there is none.
#[test]
fn a_replacement_that_is_exchanged(rt: HostRuntime) {
    let task = Task::Encode {
        form: Form::Hexadecimal,
        options: replacing(&rt, b'['),
    };
    let rows: [Row; 2] = [
        (
            b"[{\"charset\":2},{\"line\":\"\xe6\xbc\xa2\"}]",
            b"refused 8 NoCharacter 1 U+6F22\n",
            Status::Refused,
        ),
        (
            b"[{\"charset\":3},{\"line\":\"\xe6\xbc\xa2\"}]",
            b"1b52035b0a\n",
            Status::Good,
        ),
    ];
    assert!(&rt; performs_rows(rt.alloc(), task, &rows, &[4096]));
}

// What the twelve bytes print that character sets exchange, set by set.
const SETS: [&str; 18] = [
    "#$@[\\]^`{|}~",
    "#$à°ç§^`éùè¨",
    "#$§ÄÖÜ^`äöüß",
    "£$@[\\]^`{|}~",
    "#$@ÆØÅ^`æøå~",
    "#¤ÉÄÖÅÜéäöåü",
    "#$@°\\é^ùàòèì",
    "₧$@¡Ñ¿^`¨ñ}~",
    "#$@[¥]^`{|}~",
    "#¤ÉÆØÅÜéæøåü",
    "#$ÉÆØÅÜéæøåü",
    "#$á¡Ñ¿é`íñóú",
    "#$á¡Ñ¿éüíñóú",
    "#$@[₩]^`{|}~",
    "#$ŽŠĐĆČžšđćč",
    "#¥@[\\]^`{|}~",
    "#₫@[\\]^`{|}~",
    "#$@[\\]^`{|}~",
];

// The twelve bytes, printed with this set in force, read as its characters.
fn reads_as(rt: &impl Abort, alloc: Global, set: u8, characters: &str) {
    let mut stream = Vec::new(alloc);
    stream.extend_from_slice(b"\x1bR").expect(rt, "memory");
    stream.push(set).expect(rt, "memory");
    stream
        .extend_from_slice(b"#$@[\\]^`{|}~\n")
        .expect(rt, "memory");
    let paper = joined(alloc, ["row left ", characters, "\nfeed 1\n"], 1).expect(rt, "memory");
    assert!(rt;
        prints(
            alloc,
            raw_render_text_task(),
            &stream,
            (&paper, Status::Good)
        )
    );
}

#[test]
fn each_character_set(rt: HostRuntime) {
    let mut set = 0u8;
    for characters in &SETS {
        reads_as(&rt, rt.alloc(), set, characters);
        set = set.saturating_add(1);
    }
    assert!(&rt; set == 18);
}

// A line in each of twelve languages; the Hebrew one is written in visual order, the Japanese one in half-width Katakana.
const LANGUAGES: [&str; 12] = [
    "Grüße aus Köln: 2 Brötchen 3,80 €",
    "Déjà vu, crème brûlée, cœur 12 €",
    "¿Mañana? ¡Sí, señor! 7 €",
    "Pão, coração, açúcar, põe 3 €",
    "Zażółć gęślą jaźń 5 zł",
    "Příliš žluťoučký kůň úpěl 9 Kč",
    "Καφές ελληνικός 2,50 €",
    "Хлеб и молоко, ёлка 90 руб.",
    "Їжак, ґанок, європейський 45 грн",
    "Şişli, Iğdır, çay, İzmir 15 TL",
    "םולש 12",
    "ｱﾘｶﾞﾄｳ ｺﾞｻﾞｲﾏｽ",
];

// A receipt of a line is encoded, and its paper read.
fn reads_back(rt: &impl Abort, alloc: Global, line: &str) {
    let receipt = joined(alloc, ["[{\"line\":\"", line, "\"}]"], 1).expect(rt, "memory");
    let mut source = MemoryIn::new(&receipt, 1_000_000);
    let mut stream = Outgoing::new(Vec::new(alloc));
    let ended = run_job(
        &NoNetwork,
        alloc,
        Ok(raw_encode_task()),
        &mut source,
        &mut stream,
    );
    assert!(rt; ended == Status::Good, "{line}");
    let paper = joined(alloc, ["row left ", line, "\nfeed 1\n"], 1).expect(rt, "memory");
    assert!(rt;
        prints(
            alloc,
            raw_render_text_task(),
            &stream.into_inner(),
            (&paper, Status::Good)
        )
    );
}

#[test]
fn twelve_languages(rt: HostRuntime) {
    for line in &LANGUAGES {
        reads_back(&rt, rt.alloc(), line);
    }
}
