//! The exit status of the program.

ghost use Rattle.std.specs.Prelude.{◌≡◌};
ghost use Rattle.std.specs.Process.{exit_status};
ghost use Rattle.escpos_job_parts.specs.Status.{status_code};

use std::process::ExitCode;

/// How a run of the program went.
#[derive(Clone, Copy, Debug, PartialEq, Eq)]
pub enum Status {
    /// All was read, understood and written.
    Good,
    /// The input was read and isn't what it should be.
    Refused,
    /// The program's arguments name no task.
    Usage,
    /// A stream, a link or another device failed.
    Device,
    /// Out of memory.
    Memory,
}

impl Status {
    /// The exit status that a shell sees.
    pub fn code(self) -> u8
        ensures { result ≡ status_code self }
    {
        match self {
            Status::Good => 0,
            Status::Refused => 1,
            Status::Usage => 2,
            Status::Device => 3,
            Status::Memory => 4,
        }
    }
}

impl From<Status> for ExitCode {
    ghost from_gives = { λ status code. exit_status code ≡ status_code status };

    fn from(status: Status) -> ExitCode {
        ExitCode::from(status.code())
    }
}
