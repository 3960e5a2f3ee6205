//! How a call ended, as the number that C sees.

ghost use Rattle.std.specs.Prelude.{◌≡◌};
ghost use Rattle.escpos_c.specs.Status.{number_of_status};

/// How a call ended. The numbers are those of the program's exit statuses, where it has one for it.
#[derive(Clone, Copy, Debug, PartialEq, Eq)]
pub enum CallStatus {
    /// 0: the result is whole.
    Good,
    /// 1: what was given isn't what it should be.
    Refused,
    /// 2: the handle holds nothing.
    Empty,
    /// 4: out of memory.
    Memory,
    /// 5: the caller's buffer is too short.
    Short,
    /// 6: the text would have more bytes than any may.
    TooLong,
}

impl CallStatus {
    /// The number that C sees.
    pub fn number(self) -> i32
        ensures { result ≡ number_of_status self }
    {
        match self {
            CallStatus::Good => 0,
            CallStatus::Refused => 1,
            CallStatus::Empty => 2,
            CallStatus::Memory => 4,
            CallStatus::Short => 5,
            CallStatus::TooLong => 6,
        }
    }
}
