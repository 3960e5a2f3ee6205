//! Why a device fails: a fault, or a wait that has lasted as long as it may.

ghost use Rattle.std.specs.Prelude.{◌≡◌};
ghost use Rattle.std.specs.IoError.{error_kind};
ghost use Rattle.escpos_io.specs.Cause.{cause_of, is_time_out};

use std::io;

/// Why a device has failed.
#[derive(Clone, Copy, Debug, PartialEq, Eq)]
pub(super) enum Cause {
    Fault,
    TimedOut,
}

impl Cause {
    /// The cause that an error of a standard reader or writer tells. A stream whose waits have a limit answers `WouldBlock` at
    /// the end of one, and `TimedOut` on some systems.
    pub(super) fn of(error: &io::Error) -> Self
        ensures { result ≡ cause_of (error_kind error.now) }
    {
        match error.kind() {
            io::ErrorKind::WouldBlock | io::ErrorKind::TimedOut => Cause::TimedOut,
            _ => Cause::Fault,
        }
    }

    pub(super) fn is_time_out(self) -> bool
        ensures { result ≡ is_time_out self }
    {
        matches!(self, Cause::TimedOut)
    }
}
