//! Streams with commands that are passed over.

use crate::listed::Listed;
use escpos_command::FaultReason;
use escpos_passed::{End, Stop, read_tokens};
use std::alloc::{AllocError, Global};

// Initialised, a line, a buzzer, a question about stored pictures, another line and a cut.
const RECEIPT: &[u8] = b"\x1B@Hi\n\x1BB\x02\x04\x1D(L\x02\x0003A\n\x1DV\x00";

// What a stream says, read with or without passing over: the tokens, a letter each, and how it ends.
fn reads(
    alloc: Global,
    pass: bool,
    bytes: &[u8],
    listed: &mut Listed,
) -> Result<End, Stop<AllocError>> {
    read_tokens(alloc, pass, bytes, listed, &mut ())
}

#[test]
fn passes_over(rt: HostRuntime) {
    let mut listed = Listed::new(rt.alloc());
    let end = reads(rt.alloc(), true, RECEIPT, &mut listed);
    assert!(&rt; end == Ok(End { passed: 2, half: 0 }));
    assert!(&rt; listed.letters() == b"ccccppccc".as_slice());
}

#[test]
fn refuses_without(rt: HostRuntime) {
    let mut listed = Listed::new(rt.alloc());
    let end = reads(rt.alloc(), false, RECEIPT, &mut listed);
    let fault = Stop::Fault {
        at: 6,
        why: FaultReason::UnknownCommand,
        passed: 0,
    };
    assert!(&rt; end == Err(fault));
    assert!(&rt; listed.letters() == b"cccc".as_slice());
}

#[test]
fn ends_within(rt: HostRuntime) {
    let mut listed = Listed::new(rt.alloc());
    let end = reads(rt.alloc(), true, &RECEIPT[..12], &mut listed);
    assert!(&rt; end == Ok(End { passed: 1, half: 3 }));
    assert!(&rt; listed.letters() == b"ccccp".as_slice());
}

#[test]
fn refuses_the_unknown(rt: HostRuntime) {
    let mut listed = Listed::new(rt.alloc());
    let end = reads(rt.alloc(), true, b"A\x1BB\x01\x01\x1B\xFF", &mut listed);
    let fault = Stop::Fault {
        at: 6,
        why: FaultReason::UnknownCommand,
        passed: 1,
    };
    assert!(&rt; end == Err(fault));
    assert!(&rt; listed.letters() == b"cp".as_slice());
}
