//! A link to a printer, over TCP or by its device file.

ghost use Rattle.std.specs.Prelude.{◌≡◌, IfOk};
ghost use Rattle.escpos_addresses.specs.PrinterLinks.{IsOverTcp};

use crate::device_file::{DeviceEnd, DeviceFile};
use std::fs::File;
use std::io::{ErrorKind, Read, Write};
use std::net::{Net, TcpStream};
use std::time::Duration;
use std::{io, thread};

/// What reaches printers: a network, and a machine's device files; and what a printer that is emulated needs besides: a machine's
/// other files, and waits.
pub trait Printers: Net<Stream = TcpStream> {
    /// Opens a device file both ways. No wait for it lasts longer than `limit`, if there is one. The error is `Unsupported` if
    /// only the network is reached.
    fn open_device(&self, _path: &str, _limit: Option<Duration>) -> io::Result<DeviceFile> {
        Err(io::Error::from(ErrorKind::Unsupported))
    }

    /// Opens a file to read it. The error is `Unsupported` if only the network is reached.
    fn open_file(&self, _path: &str) -> io::Result<File> {
        Err(io::Error::from(ErrorKind::Unsupported))
    }

    /// Waits for this time. Nothing is waited for if only the network is reached.
    fn pause(&self, _time: Duration) {}
}

impl Printers for HostRuntime {
    fn open_device(&self, path: &str, limit: Option<Duration>) -> io::Result<DeviceFile> {
        DeviceFile::open(self, self.alloc(), path, limit)
    }

    fn open_file(&self, path: &str) -> io::Result<File> {
        File::open(self, path)
    }

    fn pause(&self, time: Duration) {
        thread::sleep(self, time);
    }
}

/// A link to a printer: both of its ways.
#[derive(Drop)]
pub struct PrinterLink {
    /// The way from the printer.
    pub reader: LinkReader,
    /// The way to it.
    pub writer: LinkWriter,
}

impl PrinterLink {
    /// A link over TCP. What is put on it goes out at once; a stream that can't do so is used as it is.
    pub fn over_tcp(stream: TcpStream) -> io::Result<PrinterLink>
        ensures { IfOk result (λ link. IsOverTcp link) }
    {
        let _ = stream.set_nodelay(true);
        let other = stream.try_clone()?;
        Ok(PrinterLink {
            reader: LinkReader::Tcp(stream),
            writer: LinkWriter::Tcp(other),
        })
    }

    /// A link by a device file.
    pub fn by_device(file: DeviceFile) -> PrinterLink
        ensures reader { result.reader ≡ LinkReader.Device file.reading }
        ensures writer { result.writer ≡ LinkWriter.Device file.writing }
    {
        let DeviceFile { reading, writing } = file;
        PrinterLink {
            reader: LinkReader::Device(reading),
            writer: LinkWriter::Device(writing),
        }
    }
}

/// The way from a printer.
#[derive(Drop)]
pub enum LinkReader {
    /// Over TCP.
    Tcp(TcpStream),
    /// By its device file.
    Device(DeviceEnd),
}

impl LinkReader {
    /// From now on no read waits longer than `limit` for a byte; without one it waits as long as it takes. A stream that can't be told so
    /// waits as before.
    pub fn wait_within(&mut self, limit: Option<Duration>)
        ensures { ⟦<LinkReader as Read>⟧.remaining self.new ≡ ⟦<LinkReader as Read>⟧.remaining self.old }
    {
        match self {
            LinkReader::Tcp(stream) => {
                let _ = stream.set_read_timeout(limit);
            }
            LinkReader::Device(device) => device.wait_within(limit),
        }
    }
}

impl Read for LinkReader {
    fn read(&mut self, piece: &mut [u8]) -> io::Result<usize> {
        match self {
            LinkReader::Tcp(stream) => stream.read(piece),
            LinkReader::Device(device) => device.read(piece),
        }
    }
}

/// The way to a printer.
#[derive(Drop)]
pub enum LinkWriter {
    /// Over TCP.
    Tcp(TcpStream),
    /// By its device file.
    Device(DeviceEnd),
}

impl LinkWriter {
    /// From now on no write waits longer than `limit` to put a byte; without one it waits as long as it takes. A stream that can't be
    /// told so waits as before.
    pub fn wait_within(&mut self, limit: Option<Duration>)
        ensures { ⟦<LinkWriter as Write>⟧.contents self.new ≡ ⟦<LinkWriter as Write>⟧.contents self.old }
    {
        match self {
            LinkWriter::Tcp(stream) => {
                let _ = stream.set_write_timeout(limit);
            }
            LinkWriter::Device(device) => device.wait_within(limit),
        }
    }
}

impl Write for LinkWriter {
    fn write(&mut self, piece: &[u8]) -> io::Result<usize> {
        match self {
            LinkWriter::Tcp(stream) => stream.write(piece),
            LinkWriter::Device(device) => device.write(piece),
        }
    }

    fn flush(&mut self) -> io::Result<()> {
        Ok(())
    }
}
