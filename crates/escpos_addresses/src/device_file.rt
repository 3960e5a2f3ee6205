//! A printer's device file, such as `/dev/usb/lp0`, as both ways of a link.

ghost use Rattle.std.specs.Prelude.{◌≡◌, IfOk};

use mio::unix::SourceFd;
use mio::{Events, Interest, Poll, Token};
use std::alloc::Global;
use std::fs::{File, Files, OpenOptions};
use std::io;
use std::io::{ErrorKind, Read, Write};
use std::net::Net;
use std::os::fd::AsRawFd;
use std::time::Duration;

// How many reads and writes in a row may give no byte before the device counts as ended.
const EMPTY_CALLS: u32 = 1_000;

/// A device file that is open for reading and writing.
#[derive(Drop)]
pub struct DeviceFile {
    /// The way from the device.
    pub reading: DeviceEnd,
    /// The way to it.
    pub writing: DeviceEnd,
}

impl DeviceFile {
    /// Opens the device file with this path. No wait for it lasts longer than `limit`, if there is one.
    ///
    /// It fails if the file can't be opened both ways, or is none that can be waited for: a file on a disk is no device.
    pub fn open<N: Net + Files<File = File>>(
        net: &N,
        alloc: Global,
        path: &str,
        limit: Option<Duration>,
    ) -> io::Result<DeviceFile>
        ensures { IfOk result (λ file. (file.reading.limit ≡ limit) × (file.writing.limit ≡ limit)) }
    {
        let file = OpenOptions::new().read(true).write(true).open(net, path)?;
        if os::set_nonblocking(file.as_raw_fd(), true) != 0 {
            return Err(io::Error::from(ErrorKind::Unsupported));
        }
        let other = file.try_clone()?;
        Ok(DeviceFile {
            reading: DeviceEnd::new(net, alloc, file, Interest::READABLE, limit)?,
            writing: DeviceEnd::new(net, alloc, other, Interest::WRITABLE, limit)?,
        })
    }
}

/// One way of a device file.
///
/// A read waits for a byte, and a write until one is taken; a wait that is over before that is the error `TimedOut`. A device that
/// gives no byte though it is ready, as some printers do while they have nothing to say, is waited for again.
#[derive(Drop)]
pub struct DeviceEnd {
    file: File,
    poll: Poll,
    events: Events<Global>,
    limit: Option<Duration>,
    is_closed: bool,
}

impl DeviceEnd {
    fn new<N: Net>(
        net: &N,
        alloc: Global,
        file: File,
        interest: Interest,
        limit: Option<Duration>,
    ) -> io::Result<DeviceEnd>
        ensures { IfOk result (λ end. end.limit ≡ limit) }
    {
        let poll = Poll::new(net)?;
        poll.registry()
            .register(&mut SourceFd(&file.as_raw_fd()), Token(0), interest)?;
        Ok(DeviceEnd {
            file,
            poll,
            events: Events::with_capacity(alloc, 1)?,
            limit,
            is_closed: false,
        })
    }

    /// From now on no wait lasts longer than `limit`, if there is one.
    pub(crate) fn wait_within(&mut self, limit: Option<Duration>)
        ensures { self.new.limit ≡ limit }
    {
        self.limit = limit;
    }

    // Waits until the device is ready.
    fn wait(&mut self) -> io::Result<()> {
        self.poll.poll(&mut self.events, self.limit)?;
        let Some(event) = self.events.iter().next() else {
            return Err(io::Error::from(ErrorKind::TimedOut));
        };
        if event.is_read_closed() || event.is_write_closed() || event.is_error() {
            self.is_closed = true;
        }
        Ok(())
    }

    // Whether a call that has given this is to be made again, once the device is ready.
    fn is_empty(&self, given: &io::Result<usize>) -> bool {
        match given {
            Ok(0) => !self.is_closed,
            Ok(_) => false,
            Err(why) => why.kind() == ErrorKind::WouldBlock,
        }
    }
}

impl Read for DeviceEnd {
    fn read(&mut self, piece: &mut [u8]) -> io::Result<usize> {
        for _ in 0..EMPTY_CALLS {
            let result = self.file.read(piece);
            if piece.is_empty() || !self.is_empty(&result) {
                return result;
            }
            self.wait()?;
        }
        Ok(0)
    }
}

impl Write for DeviceEnd {
    fn write(&mut self, piece: &[u8]) -> io::Result<usize> {
        for _ in 0..EMPTY_CALLS {
            let result = self.file.write(piece);
            if piece.is_empty() || !self.is_empty(&result) {
                return result;
            }
            self.wait()?;
        }
        Ok(0)
    }

    fn flush(&mut self) -> io::Result<()> {
        Ok(())
    }
}
