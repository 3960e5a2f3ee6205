//! Reading a receipt, and the calls of a host.

use crate::support::calls::{Call, Step, plays};
use crate::support::hosts::ANSWER_0;
use escpos_host::{JsonError, Receipt};
use escpos_io::MemoryOut;
use escpos_test_receipts::{EVERY_MEMBER, read_receipt};
use std::alloc::Global;
use std::process::Abort;

// A receipt with a text, a barcode and a raster, and the bytes of its commands.
const RECEIPT_OF_EACH: &[u8] =
    b"[{\"line\":\"Hi\"},{\"bars\":{\"kind\":\"ean8\",\"content\":\"5512345\"}},\
    {\"raster\":{\"scale\":\"normal\",\"x\":1,\"y\":2,\"dots\":\"f00f\"}},{\"feed\":3}]";

const SPELLING_OF_EACH: &[u8] = b"Hi\n\x1DkD\x075512345\x1Dv0\x00\x01\x00\x02\x00\xF0\x0F\x1Bd\x03";

// The receipt that a text describes. Where memory is refused, it is read again.
fn read_at_last(rt: &impl Abort, alloc: Global, text: &[u8]) -> Receipt {
    match read_receipt(alloc, text) {
        Ok(receipt) => receipt,
        Err(error) => {
            assert!(rt; error == JsonError::Memory);
            read_receipt(alloc, text).expect(rt, "a receipt")
        }
    }
}

#[test]
fn from_json_refused(rt: HostRuntime) {
    let receipt = read_at_last(&rt, rt.alloc(), RECEIPT_OF_EACH);
    let mut room = [0; 64];
    let mut sink = MemoryOut::new(&mut room);
    assert!(&rt; escpos_command::write_commands(receipt.commands(), &mut sink).is_ok());
    assert!(&rt; sink.written() == SPELLING_OF_EACH);
}

// Where memory is refused, the same call reads the receipt again.
#[test]
fn allocations_of_receipts(rt: HostRuntime) {
    let receipt = match read_receipt(rt.alloc(), EVERY_MEMBER) {
        Ok(receipt) => receipt,
        Err(error) => {
            assert!(rt; error == JsonError::Memory);
            read_receipt(rt.alloc(), EVERY_MEMBER).expect(&rt, "a receipt")
        }
    };
    assert!(rt; receipt.commands().len() == 45);
}

#[test]
fn host_allocations_fail(rt: HostRuntime) {
    let mut refusals = 0;
    // memory is taken at the first opening mark and the fifth
    let nudges = [
        Step::Make(Call::LinkUp, 1),
        Step::Make(Call::Nudge, 4),
        Step::Out(
            b"\x1D(H\x06\x00000000\x1D(H\x06\x00000001\x1D(H\x06\x00000002\x1D(H\x06\x00000003\x1D(H\x06\x00000004",
        ),
    ];
    plays(&rt, rt.alloc(), &nudges, &mut refusals);
    // at the mark, at the fifth request, and twice at S
    let requests = [
        Step::Make(Call::LinkUp, 1),
        Step::Out(b"\x1D(H\x06\x00000000"),
        Step::Open(ANSWER_0),
        Step::Make(Call::Ask, 8),
        Step::Submit,
        Step::Out(
            b"\x10\x04\x01\x10\x04\x01\x10\x04\x01\x10\x04\x01\x10\x04\x01\x10\x04\x01\x10\x04\x01\x10\x04\x01\x1B@Hi\n\x1D(H\x06\x00000001",
        ),
        Step::Left,
    ];
    plays(&rt, rt.alloc(), &requests, &mut refusals);
    plays(&rt, rt.alloc(), &[Step::Send], &mut refusals);
    // at the mark with a request for automatic status, and at the fourth request after it
    let reports = [
        Step::Make(Call::LinkUpReporting, 1),
        Step::Out(b"\x1Da\x0E\x1D(H\x06\x00000000"),
        Step::Open(ANSWER_0),
        Step::Make(Call::AskReports, 5),
        Step::Out(b"\x1Da\x0E\x1Da\x0E\x1Da\x0E\x1Da\x0E\x1Da\x0E"),
    ];
    plays(&rt, rt.alloc(), &reports, &mut refusals);
    plays(&rt, rt.alloc(), &[Step::OpenReporting], &mut refusals);
    assert!(&rt; refusals <= 1, "{refusals} calls were refused");
    let _ = println!(&rt; "refused calls: {refusals}");
}
