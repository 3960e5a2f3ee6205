//! Both ends of a link over 127.0.0.1.

use escpos_addresses::printer_link::Printers;
use std::io;
use std::io::{Read, Write};
use std::net::{Net, Shutdown, SocketAddr, SocketAddrV4, TcpListener, TcpStream};
use std::process::Abort;
use std::time::Duration;

pub const NEVER: u64 = u64::MAX;

// A listener at any free port of 127.0.0.1, and its address.
pub fn listens<N: Net<Stream = TcpStream, Listener = TcpListener> + Abort>(
    rt: &N,
) -> (TcpListener, SocketAddrV4) {
    let listener = TcpListener::bind(rt, "127.0.0.1:0").expect(rt, "no port");
    match listener.local_addr().expect(rt, "no address") {
        SocketAddr::V4(address) => (listener, address),
        SocketAddr::V6(_) => rt.abort(),
    }
}

// A client that has connected to an address and sent these bytes, and ends its writing.
pub fn connects_and_says<N: Net<Stream = TcpStream> + Abort>(
    rt: &N,
    address: SocketAddrV4,
    bytes: &[u8],
) -> TcpStream {
    let mut stream = TcpStream::connect(rt, address).expect(rt, "no link");
    stream.write_all(bytes).expect(rt, "can't write");
    stream.shutdown(Shutdown::Write).expect(rt, "can't end");
    stream
}

// A client asks for so many answers that it can't but go with some of them unread.
pub fn leaves_unread<N: Net<Stream = TcpStream> + Abort>(rt: &N, address: SocketAddrV4) {
    let mut gone = TcpStream::connect(rt, address).expect(rt, "no link");
    for _ in 0..160 {
        gone.write_all(b"\x10\x04\x01").expect(rt, "can't write");
    }
}

// A stream reads these bytes next.
fn reads(rt: &impl Abort, stream: &mut TcpStream, wanted: &[u8]) -> bool {
    let mut room = [0; 1];
    for byte in wanted {
        let count = stream.read(&mut room).expect(rt, "can't read");
        if count != 1 || room[0] != *byte {
            return false;
        }
    }
    true
}

// A stream reads these bytes, and then the end.
pub fn hears(rt: &impl Abort, stream: &mut TcpStream, wanted: &[u8]) -> bool {
    reads(rt, stream, wanted) && stream.read(&mut [0; 1]).expect(rt, "can't read") == 0
}

// A stream reads so many bytes, and then these.
pub fn hears_after(rt: &impl Abort, stream: &mut TcpStream, count: usize, wanted: &[u8]) -> bool {
    let mut room = [0; 1];
    for _ in 0..count {
        if stream.read(&mut room).expect(rt, "can't read") != 1 {
            return false;
        }
    }
    reads(rt, stream, wanted)
}

// What is short goes out at once over a stream, and a read waits as long as the link stands. It ends its writing.
pub fn is_prompt(rt: &impl Abort, stream: &TcpStream) -> bool {
    let is_so = stream.nodelay().expect(rt, "no answer")
        && stream.read_timeout().expect(rt, "no answer").is_none();
    stream.shutdown(Shutdown::Write).expect(rt, "can't end");
    is_so
}

// A read and a write of this stream wait an hour at most, and what is short goes out at once.
pub fn is_limited(rt: &impl Abort, stream: &TcpStream) -> bool {
    let hour = Some(Duration::from_secs(3_600));
    stream.read_timeout().expect(rt, "no limit") == hour
        && stream.write_timeout().expect(rt, "no limit") == hour
        && stream.nodelay().expect(rt, "no word")
}

// The answers to the marks 0 and 1, with 57 bytes of status between them.
pub const ANSWERED_BYTES: &[u8] = b"\x37\x220000\x00\
    \x12\x12\x12\x12\x12\x12\x12\x12\x12\x12\x12\x12\x12\x12\x12\x12\x12\x12\x12\
    \x12\x12\x12\x12\x12\x12\x12\x12\x12\x12\x12\x12\x12\x12\x12\x12\x12\x12\x12\
    \x12\x12\x12\x12\x12\x12\x12\x12\x12\x12\x12\x12\x12\x12\x12\x12\x12\x12\x12\
    \x37\x220001\x00";

// Both ends of a link, the printer's of which sends these bytes so many times and ends its writing.
pub fn answered_link<N: Net<Stream = TcpStream, Listener = TcpListener> + Abort>(
    rt: &N,
    (listener, address): (&TcpListener, SocketAddrV4),
    (bytes, count): (&[u8], u32),
) -> (TcpStream, TcpStream) {
    let client = TcpStream::connect(rt, address).expect(rt, "no link");
    let (mut printer, _) = listener.accept().expect(rt, "no link");
    for _ in 0..count {
        printer.write_all(bytes).expect(rt, "can't write");
    }
    printer.shutdown(Shutdown::Write).expect(rt, "can't end");
    (client, printer)
}

// Nobody waits to be accepted by a listener that doesn't wait.
pub fn nobody_waits(listener: &TcpListener) -> bool {
    listener.accept().is_err()
}

// One client waits to be accepted, and no other.
pub fn has_one_waiting(rt: &impl Abort, listener: &TcpListener) -> bool {
    listener.set_nonblocking(true).expect(rt, "can't set");
    listener.accept().is_ok() && nobody_waits(listener)
}

// A network in which this listener is bound to this address, and this stream connected to it.
#[derive(Drop)]
pub struct Prepared<'a> {
    pub address: SocketAddrV4,
    pub listener: &'a TcpListener,
    pub client: &'a TcpStream,
}

impl Net for Prepared<'_> {
    type Stream = TcpStream;

    type Listener = TcpListener;

    fn bind(&self, addr: SocketAddr) -> io::Result<TcpListener> {
        if addr == SocketAddr::V4(self.address) {
            self.listener.try_clone()
        } else {
            Err(io::Error::from(io::ErrorKind::AddrNotAvailable))
        }
    }

    fn connect(&self, addr: SocketAddr) -> io::Result<TcpStream> {
        if addr == SocketAddr::V4(self.address) {
            self.client.try_clone()
        } else {
            Err(io::Error::from(io::ErrorKind::NetworkUnreachable))
        }
    }
}

impl Printers for Prepared<'_> {}

// A network that connects this stream to this address, if it is to be done within an hour.
#[derive(Drop)]
pub struct InAnHour<'a> {
    pub address: SocketAddrV4,
    pub client: &'a TcpStream,
}

impl Net for InAnHour<'_> {
    type Stream = TcpStream;

    type Listener = TcpListener;

    fn bind(&self, _addr: SocketAddr) -> io::Result<TcpListener> {
        Err(io::Error::from(io::ErrorKind::AddrNotAvailable))
    }

    fn connect(&self, _addr: SocketAddr) -> io::Result<TcpStream> {
        Err(io::Error::from(io::ErrorKind::NetworkUnreachable))
    }

    fn connect_timeout(&self, addr: SocketAddr, timeout: Duration) -> io::Result<TcpStream> {
        if addr == SocketAddr::V4(self.address) && timeout == Duration::from_secs(3_600) {
            self.client.try_clone()
        } else {
            Err(io::Error::from(io::ErrorKind::NetworkUnreachable))
        }
    }
}

impl Printers for InAnHour<'_> {}
