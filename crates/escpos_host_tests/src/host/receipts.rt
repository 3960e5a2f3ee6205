//! Receipts as values: what is handed back, and the reasons for which there is none, compared, copied and printed.

use crate::support::texts::is_shown_as;
use escpos_command::{Character, Command, LineWidth, SettingKind};
use escpos_host::{JsonError, JsonFault, Receipt, ReceiptFault};
use escpos_receipt::{ReceiptOptions, ReceiptText};
use escpos_test_receipts::faults;
use std::alloc::Global;
use std::process::Abort;

// The reason for which commands are no receipt, and how many are handed back.
fn refusal_of(commands: Vec<Command>) -> Option<(ReceiptFault, usize)> {
    let (fault, back) = Receipt::new(commands).err()?;
    Some((fault, back.len()))
}

// A receipt has no Init, and what is refused comes back.
#[test]
fn commands_are_handed_back(rt: HostRuntime) {
    let set_up = vec![in rt.alloc(); Command::LineFeed, Command::Init].expect(&rt, "memory");
    assert!(rt; refusal_of(set_up) == Some((ReceiptFault::Forbidden { at: 1 }, 2)));
    assert!(rt; refusal_of(Vec::new(rt.alloc())) == Some((ReceiptFault::Empty, 0)));
    let line = vec![in rt.alloc(); Command::LineFeed].expect(&rt, "memory");
    assert!(rt; refusal_of(line).is_none());
}

// A receipt may have what no member gives: smoothing, which has no effect, and CR.
#[test]
fn smoothing_in_a_receipt(rt: HostRuntime) {
    let letter = Character::new(b'A').expect(&rt, "a character");
    let smooth = Command::set(SettingKind::Smoothing, 0xFF).expect(&rt, "a setting");
    let commands = vec![in rt.alloc();
        Command::Char(letter),
        smooth,
        Command::Return,
        Command::LineFeed,
    ];
    assert!(rt; refusal_of(commands.expect(&rt, "memory")).is_none());
}

// Texts, and whether the commands of their entries are a receipt.
const WHOLE: [(&[u8], bool); 12] = [
    (b"[]", false),
    (b"[{\"text\":\"\"}]", false),
    (b"[{\"text\":\"Hi\"}]", false),
    (b"[{\"line\":\"\"}]", true),
    (b"[{\"line\":\"Hi\"}]", true),
    (b"[{\"text\":\"Hi\"},{\"text\":\"\"}]", false),
    (b"[{\"text\":\"Hi\"},{\"line\":\"\"}]", true),
    (b"[{\"text\":\"Hi\"},{\"feed\":1}]", true),
    (b"[{\"text\":\"Hi\"},{\"bold\":true}]", false),
    (
        b"[{\"text\":\"Hi\"},{\"cut\":\"full\"},{\"feed\":1}]",
        false,
    ),
    (b"[{\"text\":\"\"},{\"cut\":\"full\"}]", true),
    (b"[{\"line\":\"Hi\"},{\"cut\":\"full\"}]", true),
];

#[test]
fn entries_are_whole(rt: HostRuntime) {
    for (text, whole) in &WHOLE {
        let usual = ReceiptOptions::usual();
        let json = ReceiptText::new(rt.alloc(), *text).expect(&rt, "JSON");
        assert!(rt; json.entries(rt.alloc(), &usual).is_ok() == *whole);
        assert!(rt; json.receipt(rt.alloc(), &usual).is_ok() == *whole);
    }
}

// A QR code of 33 modules of 16 dots, 528 in all, after a line.
const WIDE_CODE: &[u8] =
    b"[{\"line\":\"Hi\"},{\"qr\":{\"content\":\"aaaaaaaaaaaaaaaaaaaaaaaaaaaaaaaaaaaaaaaaaaaaaaaaaaaaaa\",\"size\":16,\"level\":\"L\"}}]";

// Why a text gives no receipt for lines of this width.
fn fault_at(rt: &impl Abort, alloc: Global, text: &[u8], dots: u16) -> Option<JsonError> {
    let options = ReceiptOptions {
        width: LineWidth::new(dots).expect(rt, "a width"),
        replacement: None,
    };
    let json = ReceiptText::new(alloc, text).expect(rt, "JSON");
    let fault = json.receipt(alloc, &options).err();
    assert!(rt; json.entries(alloc, &options).err() == fault);
    fault
}

// A code that is wider than the line of the options is refused, at the place of its print.
#[test]
fn codes_fit_on_the_line_of_the_options(rt: HostRuntime) {
    let refused = Some(JsonError::Refused(JsonFault::NotPrintable { at: 6 }));
    assert!(rt; fault_at(&rt, rt.alloc(), WIDE_CODE, 512) == refused);
    assert!(rt; fault_at(&rt, rt.alloc(), WIDE_CODE, 527) == refused);
    assert!(rt; fault_at(&rt, rt.alloc(), WIDE_CODE, 528).is_none());
    assert!(rt; fault_at(&rt, rt.alloc(), WIDE_CODE, 576).is_none());
}

// A receipt says of any width what it leaves out.
#[test]
fn receipts_tell_what_is_left_out(rt: HostRuntime) {
    let options = ReceiptOptions {
        width: LineWidth::new(576).expect(&rt, "a width"),
        replacement: None,
    };
    let receipt = Receipt::from_json_with(rt.alloc(), &options, WIDE_CODE).expect(&rt, "a receipt");
    assert!(rt; receipt.not_printable(options.width).is_none());
    assert!(rt; receipt.not_printable(LineWidth::usual()) == Some(6));
}

// A reason equals the one of the table at its place, and no other.
fn equals_itself_alone(rt: &impl Abort, fault: JsonFault, place: usize) {
    let error = JsonError::Refused(fault);
    for (other_place, other) in faults().iter().enumerate() {
        let is_same = place == other_place;
        assert!(rt; (fault == *other) == is_same, "{place}, {other_place}");
        assert!(rt;
            (error == JsonError::Refused(*other)) == is_same,
            "{place}, {other_place}"
        );
    }
}

// A clone of a reason equals it, and no reason is that memory is refused.
fn has_an_equal_clone(rt: &impl Abort, fault: JsonFault, place: usize) {
    let error = JsonError::Refused(fault);
    assert!(rt; fault.clone().expect(rt, "clone") == fault, "{place}");
    assert!(rt; error.clone().expect(rt, "clone") == error, "{place}");
    assert!(rt; error != JsonError::Memory, "{place}");
    assert!(rt; JsonError::Memory != error, "{place}");
}

#[test]
fn reasons_are_compared_and_cloned(rt: HostRuntime) {
    for (place, fault) in faults().iter().enumerate() {
        equals_itself_alone(&rt, *fault, place);
        has_an_equal_clone(&rt, *fault, place);
    }
    assert!(rt; JsonError::Memory == JsonError::Memory);
    assert!(rt; JsonError::Memory.clone().expect(&rt, "clone") == JsonError::Memory);
}

#[test]
fn reasons_are_printed(rt: HostRuntime) {
    let at = 71;
    let mid_line = ReceiptFault::MidLine { at };
    is_shown_as(&rt, rt.alloc(), &mid_line, "MidLine { at: 71 }");
    let bad_shape = JsonFault::BadShape { at };
    is_shown_as(&rt, rt.alloc(), &bad_shape, "BadShape { at: 71 }");
    let not_whole = JsonFault::NotWhole(mid_line);
    is_shown_as(&rt, rt.alloc(), &not_whole, "NotWhole(MidLine { at: 71 })");
    let refused = JsonError::Refused(JsonFault::NoCharacter { at, character: '漢' });
    is_shown_as(
        &rt,
        rt.alloc(),
        &refused,
        "Refused(NoCharacter { at: 71, character: '漢' })",
    );
    is_shown_as(&rt, rt.alloc(), &JsonError::Memory, "Memory");
}
