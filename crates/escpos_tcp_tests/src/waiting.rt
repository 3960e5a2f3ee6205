//! Waits that end: a device that has waited as long as it may says so, and so does what is printed.
//!
//! That a wait doesn't end before its time, and ends soon after it, is left to `bench/waits`: no test here is timed.

use crate::support::asked::{Asked, RECEIPT};
use crate::support::sockets::ANSWERED_BYTES;
use crate::support::steps::{Step, plays, plays_alone};
use escpos_io::{ByteIn, ByteOut, Failed, Incoming, MemoryIn, Outgoing};
use escpos_job_parts::status::Status;
use std::io;
use std::io::{ErrorKind, Read, Write};
use std::process::Abort;

// A reader and writer whose every call ends in this error.
#[derive(Drop)]
struct Stuck {
    kind: ErrorKind,
}

impl Read for Stuck {
    fn read(&mut self, _piece: &mut [u8]) -> io::Result<usize> {
        Err(io::Error::from(self.kind))
    }
}

impl Write for Stuck {
    fn write(&mut self, _piece: &[u8]) -> io::Result<usize> {
        Err(io::Error::from(self.kind))
    }

    fn flush(&mut self) -> io::Result<()> {
        Ok(())
    }
}

// A writer that takes no byte.
#[derive(Drop)]
struct Full;

impl Write for Full {
    fn write(&mut self, _piece: &[u8]) -> io::Result<usize> {
        Ok(0)
    }

    fn flush(&mut self) -> io::Result<()> {
        Ok(())
    }
}

// A source and a sink over it fail, for good, and say whether they had waited as long as they may.
fn fails(rt: &impl Abort, kind: ErrorKind, timed_out: bool) {
    let mut source = Incoming::new(Stuck { kind });
    let mut sink = Outgoing::new(Stuck { kind });
    assert!(rt; !source.has_timed_out());
    assert!(rt; !sink.has_timed_out());
    for _ in 0..2 {
        assert!(rt; source.pull(&mut [0; 4]) == Err(Failed));
        assert!(rt; sink.put(b"Hi") == Err(Failed));
        assert!(rt; source.has_timed_out() == timed_out);
        assert!(rt; sink.has_timed_out() == timed_out);
    }
    assert!(rt; source.has_failed());
    assert!(rt; !source.has_ended());
    assert!(rt; sink.has_failed());
}

#[test]
fn time_outs_of_devices(rt: HostRuntime) {
    fails(&rt, ErrorKind::WouldBlock, true);
    fails(&rt, ErrorKind::TimedOut, true);
    fails(&rt, ErrorKind::Interrupted, false);
    fails(&rt, ErrorKind::ConnectionReset, false);
    fails(&rt, ErrorKind::Other, false);
    let ended = MemoryIn::failing(b"", 1, 1);
    assert!(&rt; !ended.has_timed_out());
}

#[test]
fn no_byte_taken_is_no_time_out(rt: HostRuntime) {
    let mut sink = Outgoing::new(Full);
    assert!(&rt; sink.put(b"Hi") == Err(Failed));
    assert!(&rt; sink.has_failed());
    assert!(&rt; !sink.has_timed_out());
}

const SILENT: &[Step] = &[
    Step::Ask(
        Asked::SendWithin(3, 1),
        RECEIPT,
        "not recorded TimedOut\nnext 3\n",
        Status::Device,
    ),
    Step::Ask(
        Asked::StatusWithin(1),
        b"",
        "no status TimedOut\n",
        Status::Device,
    ),
];

const NO_LINK: &[Step] = &[
    Step::Ask(
        Asked::SendWithin(3, 1),
        RECEIPT,
        "no link\n",
        Status::Device,
    ),
    Step::Ask(Asked::StatusWithin(1), b"", "no link\n", Status::Device),
];

// A printer that is connected and silent; one that isn't there.
#[test]
fn a_silent_printer(rt: HostRuntime) {
    let address = plays(&rt, rt.alloc(), SILENT);
    plays_alone(&rt, rt.alloc(), address, NO_LINK);
}

const LIMITS_OF_SEND: &[Step] = &[
    Step::Answered(ANSWERED_BYTES, 1),
    Step::AskInAnHour(
        Asked::SendWithin(1, 60),
        RECEIPT,
        "no link\n",
        Status::Device,
    ),
    Step::AskInAnHour(
        Asked::SendWithin(1, 3_600),
        RECEIPT,
        "recorded 0\nnext 2\n",
        Status::Good,
    ),
    Step::IsLimited(0),
];

// The connection is to be made within the time that is given, and no wait for a byte lasts longer: limits_of_send.
#[test]
fn limits_of_send(rt: HostRuntime) {
    plays(&rt, rt.alloc(), LIMITS_OF_SEND);
}

const LIMITS_OF_STATUS: &[Step] = &[
    Step::Answered(ANSWERED_BYTES, 1),
    Step::AskInAnHour(Asked::StatusWithin(60), b"", "no link\n", Status::Device),
    Step::AskInAnHour(
        Asked::StatusWithin(3_600),
        b"",
        "online\ncover closed\npaper there\n",
        Status::Good,
    ),
    Step::IsLimited(0),
];

// The same of `status`: limits_of_status.
#[test]
fn limits_of_status(rt: HostRuntime) {
    plays(&rt, rt.alloc(), LIMITS_OF_STATUS);
}
