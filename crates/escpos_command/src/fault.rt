//! Why a byte is refused.

use std::fmt;

/// Why a byte that continues no command is refused; the reason follows from its place in the command. Programs print these
/// numbers.
#[derive(Clone, Copy, Debug, PartialEq, Eq)]
pub enum FaultReason {
    /// 1: no command begins with the byte.
    UnknownByte = 1,
    /// 2: the profile has no command with this letter after DLE, ESC or GS.
    UnknownCommand = 2,
    /// 3: a parameter is out of the range of the command table, or a fixed byte of a mark is another.
    BadParameter = 3,
    /// 4: a barcode has no content of this length, or this byte can't stand here in its content.
    BadBarcode = 4,
    /// 5: no raster has this width or height.
    BadSize = 5,
}

impl FaultReason {
    ghost use Rattle.std.specs.Prelude.{◌≡◌, ◌≤◌, length};
    ghost use Rattle.escpos_command.specs.Places.{reason_number, reason_name};

    /// The number that programs print.
    pub fn number(self) -> u8
        ensures { result ≡ reason_number self }
    {
        self as u8
    }

    /// The name that programs print.
    pub fn name(self) -> &'static str
        ensures value { result.now ≡ reason_name self }
        ensures short { length result.now ≤ 14 }
    {
        match self {
            FaultReason::UnknownByte => "UnknownByte",
            FaultReason::UnknownCommand => "UnknownCommand",
            FaultReason::BadParameter => "BadParameter",
            FaultReason::BadBarcode => "BadBarcode",
            FaultReason::BadSize => "BadSize",
        }
    }
}

impl fmt::Display for FaultReason {
    ghost use Rattle.std.specs.Prelude.{Some, ◌++◌, ◌∷◌, decimal};
    ghost use Rattle.escpos_command.specs.Places.{reason_number, reason_name};

    // The number and the name, with a space between.
    ghost output = { λ why. Some (decimal (reason_number why) ++ 0x20 ∷ reason_name why) };

    fn fmt<W: fmt::Write>(&self, f: &mut fmt::Formatter<W>) -> fmt::Result {
        write!(f, "{} {}", self.number(), self.name())
    }
}
