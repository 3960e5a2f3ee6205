//! QR codes in receipts, through `encode`.

use escpos_job_parts::status::Status;
use escpos_test_jobs::{Row, encode_task, performs_rows, prints};
use escpos_test_receipts::joined;

// Texts of receipts, and their line.
const ENCODED: [Row; 7] = [
    // modules of 8 dots, level M
    (
        b"[{\"qr\":{\"content\":\"A/1\",\"size\":8,\"level\":\"M\"}}]",
        b"1d286b03003143081d286b03003145311d286b0600315030412f311d286b0300315130\n",
        Status::Good,
    ),
    // the least and the greatest size, and each level; the members come in any order
    (
        b"[{\"qr\":{\"level\":\"L\",\"content\":\"a\",\"size\":1}},{\"qr\":{\"size\":16,\"level\":\"H\",\"content\":\"a\"}}]",
        b"1d286b03003143011d286b03003145301d286b0400315030611d286b03003151301d286b03003143101d286b03003145331d286b0400315030611d286b0300315130\n",
        Status::Good,
    ),
    (
        b"[{\"qr\":{\"content\":\"a\",\"size\":2,\"level\":\"Q\"}}]",
        b"1d286b03003143021d286b03003145321d286b0400315030611d286b0300315130\n",
        Status::Good,
    ),
    // between lines, and before a cut
    (
        b"[{\"line\":\"Hi\"},{\"align\":\"center\"},{\"qr\":{\"content\":\"a\",\"size\":3,\"level\":\"L\"}},{\"line\":\"Yo\"},{\"cut\":\"full\"}]",
        b"48690a1b61011d286b03003143031d286b03003145301d286b0400315030611d286b0300315130596f0a1d5600\n",
        Status::Good,
    ),
    // a content is sent as its bytes in UTF-8, control characters too
    (
        b"[{\"qr\":{\"content\":\"\\u00e9\\n\\u0000\",\"size\":3,\"level\":\"L\"}}]",
        b"1d286b03003143031d286b03003145301d286b0700315030c3a90a001d286b0300315130\n",
        Status::Good,
    ),
    (
        b"[{\"qr\":{\"content\":\"\xc3\xa9\xe2\x82\xac\\ud83d\\ude00\",\"size\":3,\"level\":\"L\"}}]",
        b"1d286b03003143031d286b03003145301d286b0c00315030c3a9e282acf09f98801d286b0300315130\n",
        Status::Good,
    ),
    // a member that comes twice has its last value
    (
        b"[{\"qr\":{\"content\":\"a\",\"size\":17,\"size\":3,\"level\":\"L\"}}]",
        b"1d286b03003143031d286b03003145301d286b0400315030611d286b0300315130\n",
        Status::Good,
    ),
];

#[test]
fn qr_codes_in_encode(rt: HostRuntime) {
    assert!(&rt; performs_rows(rt.alloc(), encode_task(), &ENCODED, &[1, 4096]));
}

// Texts that give no receipt, and why.
const REFUSED_TEXTS: [Row; 31] = [
    // sizes
    (
        b"[{\"feed\":1},{\"qr\":{\"content\":\"a\",\"size\":0,\"level\":\"L\"}}]",
        b"refused 6 BadShape 1\n",
        Status::Refused,
    ),
    (
        b"[{\"feed\":1},{\"qr\":{\"content\":\"a\",\"size\":17,\"level\":\"L\"}}]",
        b"refused 6 BadShape 1\n",
        Status::Refused,
    ),
    (
        b"[{\"feed\":1},{\"qr\":{\"content\":\"a\",\"size\":\"3\",\"level\":\"L\"}}]",
        b"refused 6 BadShape 1\n",
        Status::Refused,
    ),
    (
        b"[{\"feed\":1},{\"qr\":{\"content\":\"a\",\"size\":3.0,\"level\":\"L\"}}]",
        b"refused 6 BadShape 1\n",
        Status::Refused,
    ),
    (
        b"[{\"feed\":1},{\"qr\":{\"content\":\"a\",\"size\":[3,3],\"level\":\"L\"}}]",
        b"refused 6 BadShape 1\n",
        Status::Refused,
    ),
    // levels
    (
        b"[{\"feed\":1},{\"qr\":{\"content\":\"a\",\"size\":3,\"level\":\"l\"}}]",
        b"refused 6 BadShape 1\n",
        Status::Refused,
    ),
    (
        b"[{\"feed\":1},{\"qr\":{\"content\":\"a\",\"size\":3,\"level\":\"\"}}]",
        b"refused 6 BadShape 1\n",
        Status::Refused,
    ),
    (
        b"[{\"feed\":1},{\"qr\":{\"content\":\"a\",\"size\":3,\"level\":\"LM\"}}]",
        b"refused 6 BadShape 1\n",
        Status::Refused,
    ),
    (
        b"[{\"feed\":1},{\"qr\":{\"content\":\"a\",\"size\":3,\"level\":48}}]",
        b"refused 6 BadShape 1\n",
        Status::Refused,
    ),
    (
        b"[{\"feed\":1},{\"qr\":{\"content\":\"a\",\"size\":3,\"level\":null}}]",
        b"refused 6 BadShape 1\n",
        Status::Refused,
    ),
    // contents
    (
        b"[{\"feed\":1},{\"qr\":{\"content\":\"\",\"size\":3,\"level\":\"L\"}}]",
        b"refused 6 BadShape 1\n",
        Status::Refused,
    ),
    (
        b"[{\"feed\":1},{\"qr\":{\"content\":1,\"size\":3,\"level\":\"L\"}}]",
        b"refused 6 BadShape 1\n",
        Status::Refused,
    ),
    (
        b"[{\"feed\":1},{\"qr\":{\"content\":[\"a\"],\"size\":3,\"level\":\"L\"}}]",
        b"refused 6 BadShape 1\n",
        Status::Refused,
    ),
    // a member too few, one too many, and one of another name
    (
        b"[{\"feed\":1},{\"qr\":{\"size\":3,\"level\":\"L\"}}]",
        b"refused 6 BadShape 1\n",
        Status::Refused,
    ),
    (
        b"[{\"feed\":1},{\"qr\":{\"content\":\"a\",\"level\":\"L\"}}]",
        b"refused 6 BadShape 1\n",
        Status::Refused,
    ),
    (
        b"[{\"feed\":1},{\"qr\":{\"content\":\"a\",\"size\":3}}]",
        b"refused 6 BadShape 1\n",
        Status::Refused,
    ),
    (
        b"[{\"feed\":1},{\"qr\":{\"content\":\"a\",\"size\":3,\"level\":\"L\",\"model\":2}}]",
        b"refused 6 BadShape 1\n",
        Status::Refused,
    ),
    (
        b"[{\"feed\":1},{\"qr\":{\"Content\":\"a\",\"size\":3,\"level\":\"L\"}}]",
        b"refused 6 BadShape 1\n",
        Status::Refused,
    ),
    (
        b"[{\"feed\":1},{\"qr\":{\"content\":\"a\",\"module\":3,\"level\":\"L\"}}]",
        b"refused 6 BadShape 1\n",
        Status::Refused,
    ),
    // no object
    (
        b"[{\"feed\":1},{\"qr\":\"a\"}]",
        b"refused 6 BadShape 1\n",
        Status::Refused,
    ),
    (
        b"[{\"feed\":1},{\"qr\":[\"a\",3,\"L\"]}]",
        b"refused 6 BadShape 1\n",
        Status::Refused,
    ),
    (
        b"[{\"feed\":1},{\"qr\":null}]",
        b"refused 6 BadShape 1\n",
        Status::Refused,
    ),
    (
        b"[{\"feed\":1},{\"qr\":{}}]",
        b"refused 6 BadShape 1\n",
        Status::Refused,
    ),
    // another name of the member
    (
        b"[{\"QR\":{\"content\":\"a\",\"size\":3,\"level\":\"L\"}}]",
        b"refused 6 BadShape 0\n",
        Status::Refused,
    ),
    (
        b"[{\"qrcode\":{\"content\":\"a\",\"size\":3,\"level\":\"L\"}}]",
        b"refused 6 BadShape 0\n",
        Status::Refused,
    ),
    // with text in the line: the print is the fourth of its commands
    (
        b"[{\"text\":\"Hi\"},{\"qr\":{\"content\":\"a\",\"size\":3,\"level\":\"L\"}},{\"feed\":1}]",
        b"refused 4 MidLine 5\n",
        Status::Refused,
    ),
    (
        b"[{\"qr\":{\"content\":\"a\",\"size\":3,\"level\":\"L\"}},{\"text\":\"A\"},{\"qr\":{\"content\":\"a\",\"size\":3,\"level\":\"L\"}}]",
        b"refused 4 MidLine 8\n",
        Status::Refused,
    ),
    (
        b"[{\"text\":\"Hi\"},{\"align\":\"center\"},{\"qr\":{\"content\":\"a\",\"size\":3,\"level\":\"L\"}}]",
        b"refused 4 MidLine 6\n",
        Status::Refused,
    ),
    // a text that nothing prints
    (
        b"[{\"qr\":{\"content\":\"a\",\"size\":3,\"level\":\"L\"}},{\"text\":\"A\"}]",
        b"refused 3 TextLeft\n",
        Status::Refused,
    ),
    // the first entry that is bad decides, before the line does
    (
        b"[{\"text\":\"Hi\"},{\"qr\":{\"content\":\"a\",\"size\":3,\"level\":\"L\"}},{\"qr\":{\"content\":\"\",\"size\":3,\"level\":\"L\"}}]",
        b"refused 6 BadShape 2\n",
        Status::Refused,
    ),
    // half of a surrogate pair in a content
    (
        b"[{\"qr\":{\"content\":\"\\ud83d\",\"size\":3,\"level\":\"L\"}}]",
        b"refused 5 NotJson\n",
        Status::Refused,
    ),
];

#[test]
fn qr_codes_that_are_refused(rt: HostRuntime) {
    assert!(&rt; performs_rows(rt.alloc(), encode_task(), &REFUSED_TEXTS, &[7]));
}

// How often a part comes in a content, and what the text gives.
type Long = (usize, &'static str, [&'static str; 3], Status);

const TOO_LONG: [&str; 3] = ["refused 6 BadShape 0\n", "", ""];

const NOT_PRINTABLE: [&str; 3] = ["refused 10 NotPrintable 3\n", "", ""];

const CONTENTS: [Long; 8] = [
    (
        7089,
        "1",
        [
            "1d286b03003143021d286b03003145301d286bb41b315030",
            "31",
            "1d286b0300315130\n",
        ],
        Status::Good,
    ),
    (7090, "1", TOO_LONG, Status::Refused),
    (
        2953,
        "a",
        [
            "1d286b03003143021d286b03003145301d286b8c0b315030",
            "61",
            "1d286b0300315130\n",
        ],
        Status::Good,
    ),
    (2954, "a", NOT_PRINTABLE, Status::Refused),
    (
        1476,
        "\u{e9}",
        [
            "1d286b03003143021d286b03003145301d286b8b0b315030",
            "c3a9",
            "1d286b0300315130\n",
        ],
        Status::Good,
    ),
    (3544, "\u{e9}", NOT_PRINTABLE, Status::Refused),
    (3545, "\u{e9}", TOO_LONG, Status::Refused),
    (1_000_000, "a", TOO_LONG, Status::Refused),
];

// A content has 7,089 bytes at most, which aren't as many characters where some take two, and no QR code holds more than 2,953
// that aren't all digits or alphanumeric.
#[test]
fn the_longest_contents_in_encode(rt: HostRuntime) {
    for (count, part, line, status) in CONTENTS {
        let text = [
            "[{\"qr\":{\"size\":2,\"level\":\"L\",\"content\":\"",
            part,
            "\"}}]",
        ];
        let text = joined(rt.alloc(), text, count).expect(&rt, "memory");
        let line = joined(rt.alloc(), line, count).expect(&rt, "memory");
        assert!(&rt; prints(rt.alloc(), encode_task(), &text, (&line, status)));
    }
}
