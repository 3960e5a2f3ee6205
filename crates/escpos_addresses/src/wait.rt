//! Waits that end: no wait for a printer lasts longer than a time that was given.

ghost use Rattle.std.specs.Prelude.{◌≡◌};
ghost use Rattle.escpos_addresses.specs.Waits.{IsWithin};

use crate::device_file::DeviceFile;
use crate::printer_link::Printers;
use std::fs::File;
use std::io;
use std::net::{Net, SocketAddr, TcpStream};
use std::time::Duration;

/// A network whose connections are made within a time, and over whose links no read waits longer than that for a byte, and no
/// write to put one. A stream that can't be told so isn't connected, and a time of 0 makes no link.
#[derive(Drop)]
pub struct Within<'n, N> {
    net: &'n N,
    time: Duration,
}

impl<'n, N: Net> Within<'n, N> {
    /// The network `net`, with waits of at most so many seconds.
    pub fn new(net: &'n N, seconds: u32) -> Self
        ensures { IsWithin net.now seconds result }
    {
        Within {
            net,
            time: Duration::from_secs(u64::from(seconds)),
        }
    }
}

impl<N: Net<Stream = TcpStream>> Net for Within<'_, N> {
    type Stream = TcpStream;

    type Listener = N::Listener;

    fn bind(&self, address: SocketAddr) -> io::Result<N::Listener> {
        self.net.bind(address)
    }

    fn connect(&self, address: SocketAddr) -> io::Result<TcpStream> {
        let stream = self.net.connect_timeout(address, self.time)?;
        stream.set_read_timeout(Some(self.time))?;
        stream.set_write_timeout(Some(self.time))?;
        Ok(stream)
    }

    // How long a look-up may take is the system's own.
    fn lookup_host(&self, host: &str, port: u16, found: &mut [SocketAddr]) -> io::Result<usize> {
        self.net.lookup_host(host, port, found)
    }
}

impl<N: Printers> Printers for Within<'_, N> {
    fn open_device(&self, path: &str, _limit: Option<Duration>) -> io::Result<DeviceFile> {
        if self.time.is_zero() {
            return Err(io::Error::from(io::ErrorKind::InvalidInput));
        }
        self.net.open_device(path, Some(self.time))
    }

    fn open_file(&self, path: &str) -> io::Result<File> {
        self.net.open_file(path)
    }

    // A pause is no wait for a printer.
    fn pause(&self, time: Duration) {
        self.net.pause(time);
    }
}
