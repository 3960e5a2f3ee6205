//! A wire with a host of its own at its end.

use crate::support::lines::ONLINE;
use escpos_command::LineWidth;
use escpos_host::{Heard, Host, HostEvent};
use escpos_link::{Handed, Note, Wire};
use std::alloc::Global;
use std::process::Abort;

// A wire with a link.
pub fn linked(rt: &impl Abort, alloc: Global) -> Wire {
    let mut wire = Wire::new(alloc, ONLINE, LineWidth::usual()).expect(rt, "a wire");
    assert!(rt; wire.link_up().is_ok());
    wire
}

// All that the host has to put out goes to the link: at most 64 bytes.
pub fn puts_out(rt: &impl Abort, wire: &mut Wire, host: &mut Host) {
    let mut room = [0; 64];
    let count = host.take_out(&mut room);
    assert!(rt;
        wire.put(room.get(..count).expect(rt, "bytes for the link"))
            .is_ok()
    );
    assert!(rt; !host.has_out());
}

// The printer gives its oldest answer up, and this becomes of it.
pub fn hands_over(rt: &impl Abort, wire: &mut Wire, wanted: Handed) {
    match wire.hand_over() {
        Ok(Note::Handed(what)) => assert!(rt; what == wanted),
        _ => assert!(rt; false),
    }
}

// The host hears what is on its way to it after this many bytes: this event, after so many more.
pub fn hears(
    rt: &impl Abort,
    wire: &Wire,
    host: &mut Host,
    place: usize,
    consumed: usize,
    event: HostEvent,
) {
    let rest = wire.front(99).get(place..).expect(rt, "what is on its way");
    assert!(rt; host.heard(rest) == Heard { consumed, event });
}
