//! Answers that come late to a host of the caller's own at the end of a wire: what they record, and what its caller takes first.

use crate::support::lines::prints_items;
use crate::support::wires::{hands_over, hears, linked, puts_out};
use escpos_command::MarkId;
use escpos_host::{Host, HostEvent, HostState};
use escpos_link::{Handed, Wire};
use escpos_test_receipts::{are_line, read_receipt};
use std::alloc::Global;
use std::process::Abort;

// Receipts of a line each. They go out after opening mark 0, in 15 bytes each, so that their closing marks are 1, 2 and 3.
const TEXTS: [&[u8]; 3] = [
    b"[{\"line\":\"A\"}]",
    b"[{\"line\":\"B\"}]",
    b"[{\"line\":\"C\"}]",
];

// What is on the paper once two of them are printed, and once all are.
const TWO: &[u8] = b"row left A\nfeed 1\nrow left B\nfeed 1\n";

const THREE: &[u8] = b"row left A\nfeed 1\nrow left B\nfeed 1\nrow left C\nfeed 1\n";

// The link is opened, and the three are put on it.
fn puts_three(rt: &impl Abort, alloc: Global, wire: &mut Wire, host: &mut Host) {
    assert!(rt; host.link_up() == Ok(()));
    puts_out(rt, wire, host);
    assert!(rt; wire.deliver(99).is_ok());
    hands_over(rt, wire, Handed::On);
    hears(rt, wire, host, 0, 7, HostEvent::Opened);
    for text in &TEXTS {
        let receipt = read_receipt(alloc, text).expect(rt, "a receipt");
        assert!(rt; host.submit(receipt).is_ok());
    }
    puts_out(rt, wire, host);
}

// So many more bytes of the link reach the printer. Then both ends give it up, and another one is opened.
fn is_cut(rt: &impl Abort, wire: &mut Wire, host: &mut Host, most: usize) {
    assert!(rt; wire.deliver(most).is_ok());
    wire.printer_leaves();
    wire.hang_up();
    host.link_down();
    assert!(rt; wire.link_up().is_ok());
    assert!(rt; host.link_up() == Ok(()));
}

// A receipt that is left is given back: that of this line.
fn gives_back(rt: &impl Abort, host: &mut Host, line: &[u8]) {
    let left = host.take_left().expect(rt, "a receipt that is left");
    assert!(rt; are_line(left.commands(), line), "{line:?}");
}

// The new link is opened: its opening mark is answered after these bytes.
fn goes_on(rt: &impl Abort, wire: &mut Wire, host: &mut Host, place: usize) {
    puts_out(rt, wire, host);
    assert!(rt; wire.deliver(99).is_ok());
    hands_over(rt, wire, Handed::On);
    hears(rt, wire, host, place, 7, HostEvent::Opened);
    assert!(rt; host.state() == HostState::Ready);
}

// All three are printed, and their answers wait in the printer. The first is taken back, so its answer records nothing; the
// others do.
fn records_what_is_not_taken(rt: &impl Abort, wire: &mut Wire, host: &mut Host) {
    gives_back(rt, host, b"A");
    for _ in 0..3 {
        hands_over(rt, wire, Handed::On);
    }
    let taken = MarkId::of_number(1).expect(rt, "a mark");
    hears(rt, wire, host, 0, 7, HostEvent::Late(taken));
    hears(rt, wire, host, 7, 7, HostEvent::Recorded(0));
    hears(rt, wire, host, 14, 7, HostEvent::Recorded(1));
    goes_on(rt, wire, host, 21);
    assert!(rt; host.take_left().is_none());
}

#[test]
fn taken_then_late(rt: HostRuntime) {
    let mut wire = linked(&rt, rt.alloc());
    let mut host = Host::new(rt.alloc(), 0);
    puts_three(&rt, rt.alloc(), &mut wire, &mut host);
    is_cut(&rt, &mut wire, &mut host, 99);
    records_what_is_not_taken(&rt, &mut wire, &mut host);
    assert!(&rt; host.records().len() == 2);
    prints_items(&rt, wire.paper(), THREE);
}

// Two of the three are printed. The answer for the first is lost with a link that ends at once; that for the second records both,
// and the third is given back once the link is open.
fn records_two_of_three(rt: &impl Abort, wire: &mut Wire, host: &mut Host) {
    hands_over(rt, wire, Handed::On);
    is_cut(rt, wire, host, 0);
    hands_over(rt, wire, Handed::On);
    hears(rt, wire, host, 0, 7, HostEvent::Recorded(1));
    goes_on(rt, wire, host, 7);
    gives_back(rt, host, b"C");
    assert!(rt; host.take_left().is_none());
}

#[test]
fn two_of_three(rt: HostRuntime) {
    let mut wire = linked(&rt, rt.alloc());
    let mut host = Host::new(rt.alloc(), 0);
    puts_three(&rt, rt.alloc(), &mut wire, &mut host);
    is_cut(&rt, &mut wire, &mut host, 30);
    records_two_of_three(&rt, &mut wire, &mut host);
    assert!(&rt; host.records().len() == 2);
    prints_items(&rt, wire.paper(), TWO);
}
