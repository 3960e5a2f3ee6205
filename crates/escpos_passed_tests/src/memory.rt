//! Each call that may answer out of memory, where any one allocation fails.

use crate::listed::Listed;
use escpos_passed::{End, Stop, read_tokens};
use std::alloc::{AllocError, Global};
use std::process::Abort;

// A barcode, a buzzer and a picture.
const STREAM: &[u8] = b"\x1Dk\x045\x00\x1BB\x02\x04\x1Dv0\x00\x01\x00\x01\x00\xFF";

// Reads it. Where memory is refused, the tokens before were taken; and then it is read from its start.
fn reads_at_last(rt: &impl Abort, alloc: Global, listed: &mut Listed) {
    match read_tokens(alloc, true, STREAM, listed, &mut ()) {
        Ok(end) => assert!(rt; end == End { passed: 1, half: 0 }),
        Err(stop) => {
            assert!(rt; matches!(stop, Stop::Memory | Stop::Refused(AllocError)));
            assert!(rt; b"cpc".starts_with(listed.letters()));
            listed.clear();
            let end = read_tokens(alloc, true, STREAM, listed, &mut ());
            assert!(rt; end == Ok(End { passed: 1, half: 0 }));
        }
    }
    assert!(rt; listed.letters() == b"cpc".as_slice());
}

#[test]
fn read_tokens_refused(rt: HostRuntime) {
    let mut listed = Listed::new(rt.alloc());
    reads_at_last(&rt, rt.alloc(), &mut listed);
}
