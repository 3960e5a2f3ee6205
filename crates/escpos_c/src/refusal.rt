//! Why a receipt is refused, as C sees it.

ghost use Rattle.std.specs.Prelude.{◌≡◌, Option};
ghost use Rattle.escpos_receipt.specs.Refusals.{json_number, json_place};
ghost use Rattle.escpos_stream.specs.Refusals.{stream_number, stream_place};
ghost use Rattle.escpos_c.specs.EncodeCalls.{place_number};

use escpos_receipt::JsonFault;
use escpos_stream::StreamFault;

/// The reason where nothing is refused.
pub const NO_REASON: u32 = 0;

/// The reason of a text or a stream that is longer than 16,777,216 bytes. Those of others are 1 to 10, and of streams 21 to 26 too.
pub const TOO_LONG: u32 = 11;

/// The reason where the options of a receipt are out of range.
pub const BAD_OPTIONS: u32 = 12;

/// The reason of a status request of a kind that isn't 1 to 4. Those of a host are less.
pub const NO_KIND: u32 = 9;

/// The place where there is none.
pub const NO_PLACE: usize = usize::MAX;

const _: () = prove!(NO_REASON == 0);

const _: () = prove!(TOO_LONG == 11);

const _: () = prove!(BAD_OPTIONS == 12);

const _: () = prove!(NO_KIND == 9);

const _: () = prove!(NO_PLACE == 18_446_744_073_709_551_615);

/// Why a receipt is refused: a number, and the place of the entry, the command or, in a stream, the byte, counted from 0.
#[derive(Clone, Copy, Debug, PartialEq, Eq)]
pub struct Refusal {
    pub reason: u32,
    pub at: usize,
}

impl Refusal {
    /// No refusal.
    pub fn none() -> Self
        ensures { result ≡ record { reason = NO_REASON; at = NO_PLACE } }
    {
        Refusal {
            reason: NO_REASON,
            at: NO_PLACE,
        }
    }

    /// That of a text that is too long.
    pub fn too_long() -> Self
        ensures { result ≡ record { reason = TOO_LONG; at = NO_PLACE } }
    {
        Refusal {
            reason: TOO_LONG,
            at: NO_PLACE,
        }
    }

    /// That of options that are out of range.
    pub fn bad_options() -> Self
        ensures { result ≡ record { reason = BAD_OPTIONS; at = NO_PLACE } }
    {
        Refusal {
            reason: BAD_OPTIONS,
            at: NO_PLACE,
        }
    }

    /// Tells the caller the reason and the place.
    pub fn tell(self, reason: &mut u32, at: &mut usize)
        ensures reason { reason.new ≡ self.reason }
        ensures at { at.new ≡ self.at }
    {
        *reason = self.reason;
        *at = self.at;
    }
}

impl From<JsonFault> for Refusal {
    ghost from_gives = { λ fault refusal. (refusal.reason ≡ json_number fault) × (refusal.at ≡ place_number (json_place fault)) };

    fn from(fault: JsonFault) -> Self {
        Refusal {
            reason: u32::from(fault.number()),
            at: fault.place().unwrap_or(NO_PLACE),
        }
    }
}

impl From<StreamFault> for Refusal {
    ghost from_gives = { λ fault refusal. (refusal.reason ≡ stream_number fault) × (refusal.at ≡ place_number (stream_place fault)) };

    fn from(fault: StreamFault) -> Self {
        let at = fault.place().unwrap_or(NO_PLACE);
        let reason = u32::from(fault.number());
        Refusal { reason, at }
    }
}
