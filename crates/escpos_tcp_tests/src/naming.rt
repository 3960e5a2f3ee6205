//! What is looked up for a host's name and a port.

use escpos_addresses::address::Address;
use escpos_addresses::printer_link::Printers;
use escpos_addresses::wait::Within;
use std::io;
use std::io::ErrorKind;
use std::net::{Ipv4Addr, Net, SocketAddr, SocketAddrV4, TcpListener, TcpStream};
use std::process::Abort;
use std::time::Duration;

// A network that knows one name, at one port, and refuses each connection.
#[derive(Drop)]
struct OneName<'a> {
    host: &'a str,
    port: u16,
}

impl Net for OneName<'_> {
    type Stream = TcpStream;

    type Listener = TcpListener;

    fn bind(&self, _address: SocketAddr) -> io::Result<TcpListener> {
        Err(io::Error::from(ErrorKind::AddrInUse))
    }

    fn connect(&self, _address: SocketAddr) -> io::Result<TcpStream> {
        Err(io::Error::from(ErrorKind::ConnectionRefused))
    }

    fn connect_timeout(&self, _address: SocketAddr, _time: Duration) -> io::Result<TcpStream> {
        Err(io::Error::from(ErrorKind::TimedOut))
    }

    fn lookup_host(&self, host: &str, port: u16, found: &mut [SocketAddr]) -> io::Result<usize> {
        if host != self.host || port != self.port {
            return Err(io::Error::from(ErrorKind::NotFound));
        }
        match found.first_mut() {
            Some(place) => {
                *place = SocketAddr::V4(SocketAddrV4::new(Ipv4Addr::LOCALHOST, port));
                Ok(1)
            }
            None => Ok(0),
        }
    }
}

impl Printers for OneName<'_> {}

// Texts of addresses, and the name and the port that are looked up.
const NAMED: [(&str, &str, u16); 5] = [
    ("localhost:9100", "localhost", 9_100),
    ("printer:0", "printer", 0),
    (
        "Printer-2.shop.example:65535",
        "Printer-2.shop.example",
        65_535,
    ),
    ("3com.example:80", "3com.example", 80),
    ("printer.:1", "printer.", 1),
];

// A text is the name of a host and a port, which are looked up at each connection, and where it listens.
fn looks_up(rt: &impl Abort, text: &str, net: &OneName) {
    let Some(address) = Address::of_text(text) else {
        panic!(rt; "no address");
    };
    match address.connect(net) {
        Ok(_) => panic!(rt; "a link"),
        Err(why) => assert!(rt; why.kind() == ErrorKind::ConnectionRefused),
    }
    match address.connect(&Within::new(net, 1)) {
        Ok(_) => panic!(rt; "a link"),
        Err(why) => assert!(rt; why.kind() == ErrorKind::TimedOut),
    }
    match address.listen(net) {
        Ok(_) => panic!(rt; "a listener"),
        Err(why) => assert!(rt; why.kind() == ErrorKind::AddrInUse),
    }
}

#[test]
fn names_are_looked_up(rt: HostRuntime) {
    for (text, host, port) in &NAMED {
        looks_up(&rt, text, &OneName { host, port: *port });
    }
}
