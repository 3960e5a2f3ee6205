//! A receipt that is read in parts, its text and then its entries or its commands, or with options; and a text that is written;
//! where memory is refused.

use escpos_command::LineWidth;
use escpos_host::{JsonError, Receipt};
use escpos_receipt::{Entry, ReceiptOptions, ReceiptText};
use escpos_test_receipts::EVERY_MEMBER;
use escpos_text::{Encoding, Replacement, TextFault, write_text};
use std::alloc::Global;
use std::process::Abort;

// The text as JSON. Where memory is refused, it is read again.
fn text_at_last(rt: &impl Abort, alloc: Global, text: &[u8]) -> ReceiptText {
    match ReceiptText::new(alloc, text) {
        Ok(json) => json,
        Err(error) => {
            assert!(rt; error == JsonError::Memory);
            ReceiptText::new(alloc, text).expect(rt, "JSON")
        }
    }
}

// The entries of a text. Where memory is refused, they are listed again.
fn entries_at_last<'a>(rt: &impl Abort, alloc: Global, json: &'a ReceiptText) -> Vec<Entry<'a>> {
    match json.entries(alloc, &ReceiptOptions::usual()) {
        Ok(entries) => entries,
        Err(error) => {
            assert!(rt; error == JsonError::Memory);
            json.entries(alloc, &ReceiptOptions::usual())
                .expect(rt, "entries")
        }
    }
}

// The receipt of a text. Where memory is refused, its commands are listed again.
fn receipt_at_last(rt: &impl Abort, alloc: Global, json: &ReceiptText) -> Receipt {
    match json.receipt(alloc, &ReceiptOptions::usual()) {
        Ok(receipt) => receipt,
        Err(error) => {
            assert!(rt; error == JsonError::Memory);
            json.receipt(alloc, &ReceiptOptions::usual())
                .expect(rt, "a receipt")
        }
    }
}

#[test]
fn entries_refused(rt: HostRuntime) {
    let json = text_at_last(&rt, rt.alloc(), EVERY_MEMBER);
    assert!(rt; entries_at_last(&rt, rt.alloc(), &json).len() == 31);
    assert!(rt; receipt_at_last(&rt, rt.alloc(), &json).commands().len() == 45);
}

// The bytes of a text. Where memory is refused, nothing was written, and it is written again.
fn write_at_last(rt: &impl Abort, alloc: Global, encoding: &mut Encoding, text: &str) -> Vec<u8> {
    let mut bytes = Vec::new(alloc);
    if let Err(fault) = write_text(alloc, encoding, text, &mut bytes) {
        assert!(rt; fault == TextFault::Memory);
        assert!(rt; bytes.is_empty() && *encoding == Encoding::new());
        let again = write_text(alloc, encoding, text, &mut bytes);
        assert!(rt; again.is_ok());
    }
    bytes
}

// A text that isn't in its composed form, with the characters of three tables.
#[test]
fn write_text_refused(rt: HostRuntime) {
    let mut encoding = Encoding::new();
    let bytes = write_at_last(&rt, rt.alloc(), &mut encoding, "e\u{301}€Ж");
    assert!(rt; bytes.as_slice() == b"\x82\x1bt\x13\xd5\x1bt\x11\x86".as_slice());
    assert!(rt; encoding.table == 17);
}

// A receipt with a character that no table has, for which another is printed.
#[test]
fn from_json_with_refused(rt: HostRuntime) {
    let options = ReceiptOptions {
        width: LineWidth::usual(),
        replacement: Replacement::new(b'?'),
    };
    let text = "[{\"line\":\"e\u{301}漢\"}]".as_bytes();
    let receipt = match Receipt::from_json_with(rt.alloc(), &options, text) {
        Ok(receipt) => receipt,
        Err(error) => {
            assert!(rt; error == JsonError::Memory);
            Receipt::from_json_with(rt.alloc(), &options, text).expect(&rt, "a receipt")
        }
    };
    assert!(rt; receipt.commands().len() == 3);
}
