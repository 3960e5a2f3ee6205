//! A printer that was told by GS a to tell its condition unasked, at the end of a wire, and the host at the other.

use crate::support::lines::ONLINE;
use crate::support::wires::{hands_over, hears, linked, puts_out};
use escpos_command::AutomaticStatus;
use escpos_host::{Host, HostEvent, HostState};
use escpos_link::{Handed, Wire};
use escpos_printer::Condition;
use std::alloc::Global;
use std::process::Abort;

const COVER_OPEN: Condition = Condition {
    cover_open: true,
    near_end: false,
    paper_end: false,
};

// The host is told the condition by this block.
fn hears_block(rt: &impl Abort, wire: &Wire, host: &mut Host, place: usize, block: [u8; 4]) {
    let status = AutomaticStatus::new(block).expect(rt, "a block");
    hears(rt, wire, host, place, 4, HostEvent::Condition(status));
}

// The link is opened with mark 0. After the mark comes GS a 1.
fn switches_on(rt: &impl Abort, wire: &mut Wire, host: &mut Host) {
    assert!(rt; host.link_up() == Ok(()));
    puts_out(rt, wire, host);
    assert!(rt; wire.put(b"\x1Da\x01").is_ok());
    assert!(rt; wire.deliver(99).is_ok());
    hands_over(rt, wire, Handed::On);
    hands_over(rt, wire, Handed::On);
    hears(rt, wire, host, 0, 7, HostEvent::Opened);
    hears_block(rt, wire, host, 7, [0x10, 0x00, 0x00, 0x00]);
}

// Each change is told by a block, the newest of two in the place of the first, and what is no change by none.
fn tells_changes(rt: &impl Abort, wire: &mut Wire, host: &mut Host) {
    wire.set_condition(COVER_OPEN);
    hands_over(rt, wire, Handed::On);
    hears_block(rt, wire, host, 11, [0x38, 0x00, 0x00, 0x00]);
    wire.set_condition(COVER_OPEN);
    hands_over(rt, wire, Handed::None);
    wire.set_condition(ONLINE);
    wire.set_condition(COVER_OPEN);
    wire.set_condition(ONLINE);
    hands_over(rt, wire, Handed::On);
    hands_over(rt, wire, Handed::None);
    hears_block(rt, wire, host, 15, [0x10, 0x00, 0x00, 0x00]);
    assert!(rt; host.state() == HostState::Ready);
}

// After a restart the printer is silent.
fn restarts(rt: &impl Abort, wire: &mut Wire) {
    wire.restart_printer();
    wire.set_condition(COVER_OPEN);
    assert!(rt; wire.printer().waiting() == 0);
}

#[test]
fn told_unasked(rt: HostRuntime) {
    let mut wire = linked(&rt, rt.alloc());
    let mut host = Host::new(rt.alloc(), 0);
    switches_on(&rt, &mut wire, &mut host);
    tells_changes(&rt, &mut wire, &mut host);
    restarts(&rt, &mut wire);
}
