//! The state of a source of bytes, which `Incoming` and `MemoryIn` share.
//!
//! Where the bytes come from is left to them.

ghost use Rattle.std.specs.Prelude.{◌≡◌, ◌↔◌, IsTrue};
ghost use Rattle.escpos_io.specs.Source.{has_failed_of, has_ended_of, has_timed_out_of, IsDue};

use crate::cause::Cause;

/// Whether a source can still give bytes. An end is permanent, and so is a failure.
#[derive(Clone, Copy, Debug, PartialEq, Eq)]
pub(super) enum Progress {
    Open,
    Ended,
    Failed(Cause),
}

impl Progress {
    pub(super) fn has_failed(self) -> bool
        ensures { result ≡ has_failed_of self }
    {
        matches!(self, Progress::Failed(_))
    }

    pub(super) fn has_timed_out(self) -> bool
        ensures { result ≡ has_timed_out_of self }
    {
        match self {
            Progress::Failed(cause) => cause.is_time_out(),
            Progress::Open | Progress::Ended => false,
        }
    }

    pub(super) fn has_ended(self) -> bool
        ensures { result ≡ has_ended_of self }
    {
        matches!(self, Progress::Ended)
    }
}

/// Whether call number `call` fails, where all calls from `from_call` on do.
pub(super) fn is_due(from_call: Option<u64>, call: u64) -> bool
    ensures { IsTrue result ↔ IsDue from_call call }
{
    from_call.is_some_and(|first| first <= call)
}
