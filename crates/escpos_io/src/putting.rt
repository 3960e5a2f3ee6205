//! Puts all of some bytes into a sink; the error says how many of them it took.
//!
//! `gather`, for bytes that come in small pieces, calls the function here.

ghost use Rattle.std.specs.Prelude.{◌≡◌, ◌-◌, ◌<◌, length, take, IsTrue, OnOk, IfErr};
ghost use Rattle.std.specs.Io.KnownBytes.{Appends};
ghost use Rattle.escpos_io.specs.declared.putting.Device.{Device};

use crate::{ByteOut, Failed};

/// A sink failed in the middle: it took the first `written` of the bytes, and no more.
#[derive(Clone, Copy, Debug, PartialEq, Eq)]
pub struct Device {
    /// How many of the bytes the sink took before it failed.
    pub written: u128,
}

/// Puts all of `bytes` into `writer`, in as many calls as it takes.
///
/// On `Err` the writer has failed, and took exactly the first `written` bytes, fewer than there are. If there are
/// no bytes, the writer isn't called.
pub fn put_all<W: ByteOut>(bytes: &[u8], writer: &mut W) -> Result<(), Device>
    ensures all { OnOk result (Appends (W.written writer.old) (W.written writer.new) bytes.now) }
    ensures some { IfErr result (λ device.
        Appends (W.written writer.old) (W.written writer.new) (take device.written bytes.now)) }
    ensures fewer { IfErr result (λ device. device.written < length bytes.now) }
    ensures failed { IfErr result (λ _. IsTrue (W.failed writer.new)) }
    ensures not_failed { OnOk result (0 < length bytes.now → ¬ IsTrue (W.failed writer.new)) }
    ensures untouched { length bytes.now ≡ 0 → (result ≡ Ok tt) × (writer.new ≡ writer.old) }
    ensures stays_failed { IsTrue (W.failed writer.old) → 0 < length bytes.now
        → result ≡ Err (record { written = 0 }) }
{
    let mut written = 0;
    while written < bytes.len() {
        match writer.put(&bytes[written..]) {
            Ok(taken) => written += taken,
            Err(Failed) => {
                return Err(Device {
                    written: written as u128,
                });
            }
        }
    }
    Ok(())
}
