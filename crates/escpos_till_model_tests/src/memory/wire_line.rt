//! A line in memory to the printer of a wire, where memory is refused.

use crate::support::ONLINE;
use escpos_command::LineWidth;
use escpos_link::Wire;
use escpos_till::PrinterLine;
use escpos_till_model::WireLine;
use std::alloc::Global;
use std::process::Abort;

const MARK: &[u8] = b"\x1D(H\x06\x00000000";

const ANSWER: &[u8] = b"\x37\x220000\x00";

// A new wire, which is made again where memory is refused.
fn wire_at_last(rt: &impl Abort, alloc: Global) -> Wire {
    match Wire::new(alloc, ONLINE, LineWidth::usual()) {
        Ok(wire) => wire,
        Err(_) => Wire::new(alloc, ONLINE, LineWidth::usual()).expect(rt, "a wire"),
    }
}

// The mark is put. Where memory is refused, no byte of it is.
fn puts(rt: &impl Abort, line: &mut WireLine) {
    if line.put(MARK, false).is_err() {
        assert!(rt; line.put(MARK, false).is_ok());
    }
}

// The answer comes. Where memory is refused, none does.
fn is_answered(rt: &impl Abort, line: &mut WireLine) {
    let mut room = [0; 16];
    let first = line.pull(&mut room, false);
    let came = if first == Ok(0) {
        line.pull(&mut room, false)
    } else {
        first
    };
    assert!(rt; came == Ok(ANSWER.len()));
    assert!(rt; room.starts_with(ANSWER));
}

// There is no link, nothing is put, or nothing comes; the next time it does.
#[test]
fn wire_line_refused(rt: HostRuntime) {
    let mut line = WireLine::new(wire_at_last(&rt, rt.alloc()));
    if !line.connect() {
        assert!(&rt; line.connect());
    }
    puts(&rt, &mut line);
    is_answered(&rt, &mut line);
}
