//! The letters after ESC, GS and DLE, and the functions of GS ( k, whose commands have one parameter byte and do more than set
//! something.

ghost use Rattle.std.specs.Prelude.{◌≡◌, length, IsTrue};
ghost use Rattle.std.specs.Option.{SomeIff};
ghost use Rattle.escpos_decode.specs.OneParameter.{parameter_prefix, parameter_allows, parameter_command};

use escpos_command::{Command, FeedLines, FeedUnits, QrLevel, QrSize, Reporting, StatusKind};

/// A letter with one parameter byte, named after its command. (EOT after DLE is one too, and so are two functions of QR codes.)
#[derive(Clone, Copy, Debug, PartialEq, Eq)]
pub enum OneParameter {
    FeedUnits,
    FeedLines,
    AutomaticStatus,
    Status,
    QrSize,
    QrLevel,
}

impl OneParameter {
    /// The command with this parameter; `None` where the command table doesn't allow it.
    pub fn command(self, byte: u8) -> Option<Command>
        ensures { SomeIff result (IsTrue (parameter_allows self byte)) (parameter_command self byte) }
    {
        match self {
            OneParameter::FeedUnits => Some(Command::FeedUnits(FeedUnits::new(byte))),
            OneParameter::FeedLines => Some(Command::FeedLines(FeedLines::new(byte))),
            OneParameter::AutomaticStatus => Some(Command::AutomaticStatus(Reporting::new(byte))),
            OneParameter::Status => StatusKind::new(byte).map(Command::Status),
            OneParameter::QrSize => QrSize::new(byte).map(Command::QrSize),
            OneParameter::QrLevel => QrLevel::new(byte).map(Command::QrLevel),
        }
    }

    /// The number of bytes before the parameter.
    pub fn prefix_len(self) -> usize
        ensures { result ≡ length (parameter_prefix self) }
    {
        match self {
            OneParameter::QrSize | OneParameter::QrLevel => 7,
            _ => 2,
        }
    }
}
