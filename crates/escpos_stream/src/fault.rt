//! Why a stream is no receipt.

ghost use Rattle.std.specs.Prelude.{◌≡◌, ◌≤◌, length};
ghost use Rattle.escpos_stream.specs.Refusals.{stream_name, stream_number, stream_place};

use escpos_command::FaultReason;
use escpos_receipt::ReceiptFault;
use std::alloc::AllocError;

/// Why a stream is no receipt: the first reason that applies, in this order. Each place is that of a byte of the stream, counted from 0.
#[derive(Clone, Copy, Debug, Drop, PartialEq, Eq)]
pub enum StreamFault {
    /// 21 to 25: the byte at this place is refused, for this reason.
    Refused { at: usize, why: FaultReason },
    /// 26: the stream ends within the command that begins at this place.
    CutShort { at: usize },
    /// 1, 2, 3, 4 or 9: the commands are no receipt. The place is that at which the command begins.
    NotWhole(ReceiptFault),
    /// 10: at this place begins the first command whose barcode or QR code a printer with lines of this width leaves out.
    NotPrintable { at: usize },
}

impl StreamFault {
    /// The number that programs print: 20 and the number of the reason where a byte is refused.
    pub fn number(self) -> u8
        ensures { result ≡ stream_number self }
    {
        match self {
            StreamFault::Refused { why, .. } => 20 + why.number(),
            StreamFault::CutShort { .. } => 26,
            StreamFault::NotWhole(why) => why.number(),
            StreamFault::NotPrintable { .. } => 10,
        }
    }

    /// The name that programs print.
    pub fn name(self) -> &'static str
        ensures value { result.now ≡ stream_name self }
        ensures short { length result.now ≤ 14 }
    {
        match self {
            StreamFault::Refused { why, .. } => why.name(),
            StreamFault::CutShort { .. } => "CutShort",
            StreamFault::NotWhole(why) => why.name(),
            StreamFault::NotPrintable { .. } => "NotPrintable",
        }
    }

    /// The place of the byte, counted from 0; `None` for `Empty` and `TextLeft`.
    pub fn place(self) -> Option<usize>
        ensures { result ≡ stream_place self }
    {
        match self {
            StreamFault::Refused { at, .. }
            | StreamFault::CutShort { at }
            | StreamFault::NotPrintable { at } => Some(at),
            StreamFault::NotWhole(why) => why.place(),
        }
    }
}

/// Why there is no receipt.
#[derive(Clone, Copy, Debug, Drop, PartialEq, Eq)]
pub enum StreamError {
    /// The stream is none.
    Refused(StreamFault),
    /// Out of memory.
    Memory,
}

impl From<AllocError> for StreamError {
    ghost use Rattle.escpos_stream.specs.declared.fault.StreamError.TheVariants.{Memory};

    ghost from_gives = { λ _ error. error ≡ Memory };

    fn from(_error: AllocError) -> Self {
        StreamError::Memory
    }
}
