//! Links to a printer whose sensors are watched, over memory and on 127.0.0.1.

use crate::memory::links::{EMULATED_BYTES, EMULATED_LINK, client_of_link};
use crate::support::jobs::printer_at_last;
use crate::support::sockets::listens;
use escpos_command::LineWidth;
use escpos_io::MemoryOut;
use escpos_job_parts::condition::ONLINE;
use escpos_job_parts::ending::MEMORY;
use escpos_job_parts::status::Status;
use escpos_printer::{LinkEnd, Printer};
use escpos_tcp_jobs::watch::Steady;
use escpos_tcp_jobs::watched_link::{emulate_by_on, follow_watched};
use std::alloc::Global;
use std::net::TcpListener;
use std::process::Abort;

// A link is followed over memory. Answers no where memory is refused. What it printed is put all the same.
fn follows(rt: &impl Abort, alloc: Global, printer: &mut Printer) -> bool {
    let (mut room, mut printed) = ([0; 4], [0; 256]);
    let mut reader = EMULATED_BYTES;
    let mut writer = MemoryOut::new(&mut room);
    let mut sensors = Steady { condition: ONLINE };
    let mut output = MemoryOut::new(&mut printed);
    let served = follow_watched(
        alloc,
        printer,
        1,
        &mut reader,
        &mut writer,
        &mut sensors,
        &mut output,
    );
    let served = served.expect(rt, "a line");
    assert!(rt; printer.items().is_empty());
    if served.end == LinkEnd::Memory {
        assert!(rt; served.consumed < served.read);
        assert!(rt; output.written().starts_with(b"link 1 read "));
        return false;
    }
    assert!(rt; output.written() == EMULATED_LINK);
    true
}

#[test]
fn follow_watched_refused(rt: HostRuntime) {
    let mut printer = printer_at_last(&rt, rt.alloc());
    if !follows(&rt, rt.alloc(), &mut printer) {
        let mut printer = printer_at_last(&rt, rt.alloc());
        assert!(&rt; follows(&rt, rt.alloc(), &mut printer));
    }
}

// One link is served, and its paper printed. Answers no where memory is refused: the last line says so.
fn emulates_by(rt: &impl Abort, alloc: Global, listener: &TcpListener) -> bool {
    let mut room = [0; 256];
    let mut output = MemoryOut::new(&mut room);
    let sensors = Steady { condition: ONLINE };
    let width = LineWidth::usual();
    let status = emulate_by_on(alloc, listener, Some(1), width, sensors, &mut output);
    if status == Status::Memory {
        assert!(rt; output.written().ends_with(MEMORY));
        return false;
    }
    assert!(rt; output.written() == EMULATED_LINK);
    assert!(rt; status == Status::Good);
    true
}

#[test]
fn emulate_by_on_refused(rt: HostRuntime) {
    let (listener, address) = listens(&rt);
    let _first = client_of_link(&rt, address);
    if !emulates_by(&rt, rt.alloc(), &listener) {
        let _second = client_of_link(&rt, address);
        assert!(&rt; emulates_by(&rt, rt.alloc(), &listener));
    }
}
