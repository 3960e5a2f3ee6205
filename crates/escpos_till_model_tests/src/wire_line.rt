//! A till that is driven over a line in memory to a printer: what it records is on the paper.

use crate::support::{ONLINE, content};
use escpos_command::LineWidth;
use escpos_link::Wire;
use escpos_till::{Failure, MemoryStore, Surroundings, TillMachine, TillNote, drive};
use escpos_till_model::WireLine;
use std::alloc::Global;
use std::process::Abort;

type Around = Surroundings<MemoryStore, WireLine>;

// S is taken, sent and recorded.
fn prints(rt: &impl Abort, alloc: Global, machine: &mut TillMachine, around: &mut Around) {
    if machine.queue(content(rt, alloc), None).is_err() {
        panic!(rt; "not taken");
    }
    assert!(rt; matches!(drive(machine, around, 1_000), Some(TillNote::Queued(_))));
    assert!(rt; machine.deliver(1, None, 1_000, false) == Ok(()));
    assert!(rt; matches!(drive(machine, around, 1_000), Some(TillNote::Recorded(_))));
}

// Each receipt is on the paper once, after those before it.
#[test]
fn printed(rt: HostRuntime) {
    let wire = Wire::new(rt.alloc(), ONLINE, LineWidth::usual()).expect(&rt, "memory");
    let store = MemoryStore::new(rt.alloc(), Vec::new(rt.alloc()), Failure::Never);
    let line = WireLine::new(wire);
    let mut around = Surroundings { store, line };
    let Ok(mut machine) = TillMachine::open(rt.alloc(), &[]) else {
        panic!(&rt; "no machine");
    };
    prints(&rt, rt.alloc(), &mut machine, &mut around);
    let one = around.line.wire().paper().len();
    assert!(&rt; 0 < one);
    prints(&rt, rt.alloc(), &mut machine, &mut around);
    assert!(&rt; around.line.wire().paper().len() == one + one);
}
