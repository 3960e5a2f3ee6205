//! A till in the world where everything may fail, and where it is refused memory.
//!
//! What didn't happen for want of memory happens again, unless the link has ended with it: then the receipt is delivered again.

use crate::support::{DELIVERY, Plain, TAKEN, all_happen, happens, stand, till_at_last};
use escpos_till::{ReceiptState, TillRefusal};
use escpos_till_model::{NotPossible, Till};
use std::alloc::Global;
use std::process::Abort;

fn is_memory(why: NotPossible) -> bool {
    matches!(
        why,
        NotPossible::Memory | NotPossible::Machine(TillRefusal::Memory)
    )
}

// It happens, at the latest when it is tried again. Answers no where it can't.
fn happens_at_last(rt: &impl Abort, alloc: Global, till: &mut Till, plain: Plain) -> bool {
    match happens(rt, alloc, till, plain) {
        Ok(()) => true,
        Err(why) => {
            assert!(rt; is_memory(why));
            happens(rt, alloc, till, plain) == Ok(())
        }
    }
}

fn delivers(rt: &impl Abort, alloc: Global, till: &mut Till) -> bool {
    for plain in DELIVERY {
        if !happens_at_last(rt, alloc, till, plain) {
            return false;
        }
    }
    true
}

fn is_delivered_at_last(rt: &impl Abort, alloc: Global, till: &mut Till) {
    for plain in TAKEN {
        assert!(rt; happens_at_last(rt, alloc, till, plain));
    }
    if !delivers(rt, alloc, till) {
        all_happen(
            rt,
            alloc,
            till,
            &[Plain::Crash, Plain::Start, Plain::Restart],
        );
        assert!(rt; delivers(rt, alloc, till));
    }
    stand(rt, till, &[ReceiptState::Recorded { place: 0 }]);
}

#[test]
fn happenings_refused(rt: HostRuntime) {
    let mut till = till_at_last(&rt, rt.alloc());
    is_delivered_at_last(&rt, rt.alloc(), &mut till);
}
