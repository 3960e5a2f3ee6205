//! Whether a call on a link would wait for its printer.
//!
//! While a printer is waited for, a ledger is let go, so that others may add entries to it; where no wait is needed, that would only cost time.

ghost use Rattle.std.specs.Prelude.{◌≡◌, false};
ghost use Rattle.escpos_addresses.specs.declared.device_file.DeviceEnd.{DeviceEnd};

use escpos_addresses::printer_link::LinkReader;
use libc::net::{POLLIN, POLLOUT, poll};
use libc::types::pollfd;
use std::os::fd::AsRawFd;

// There is no link that can be watched.
const NOTHING: i32 = -1;

// For so many milliseconds it is waited whether bytes come.
const MOMENT: i32 = 20;

/// A link that is watched, by its socket. A device file isn't watched: each call on it may wait.
#[derive(Drop)]
pub struct Watched {
    socket: i32,
}

impl Watched {
    /// No link.
    pub fn nothing() -> Self
        ensures { result.socket ≡ NOTHING }
    {
        Watched { socket: NOTHING }
    }

    /// The link with this way from its printer, for as long as that is open.
    pub fn link(reader: &LinkReader) -> Self
        ensures device { (device : DeviceEnd) → reader.now ≡ LinkReader.Device device → result.socket ≡ NOTHING }
    {
        match reader {
            LinkReader::Tcp(stream) => Watched {
                socket: stream.as_raw_fd(),
            },
            LinkReader::Device(_) => Watched::nothing(),
        }
    }

    /// Whether the link takes as many bytes at once as are put at a time. (A socket has room for some where a third of its room is free.)
    pub fn takes_at_once(&self) -> bool
        ensures { self.now.socket ≡ NOTHING → result ≡ false }
    {
        self.is_ready(POLLOUT, 0)
    }

    /// Whether bytes are there, or come within a moment.
    pub fn gives_soon(&self) -> bool
        ensures { self.now.socket ≡ NOTHING → result ≡ false }
    {
        self.is_ready(POLLIN, MOMENT)
    }

    // Whether the socket is ready for this, or is so within so many milliseconds.
    fn is_ready(&self, events: i16, within: i32) -> bool
        ensures { self.now.socket ≡ NOTHING → result ≡ false }
    {
        if self.socket == NOTHING {
            return false;
        }
        let mut asked = [pollfd {
            fd: self.socket,
            events,
            revents: 0,
        }];
        poll(&mut asked, within) == 1
    }
}
