//! Whether a command holds a real-time command: its bytes are gone through once, where they are.

ghost use Rattle.std.specs.Prelude.{◌≡◌, ◌≢◌, ◌↔◌, ◌≤◌, ◌||◌, ℕ, List, ◌∷◌, ◌++◌, length, drop, IsTrue};
ghost use Rattle.escpos_command.specs.CommandTable.{row};
ghost use Rattle.escpos_command.specs.declared.bytes.TheConstants.{DLE};
ghost use Rattle.escpos_real_time.specs.RealTime.{HoldsRealTime, is_real_time};
ghost use Rattle.escpos_real_time.specs.Scan.{holds};

use escpos_command::{Command, DLE, EOT};
use memchr::memchr;

/// Enquiry, the second byte of DLE ENQ.
pub const ENQ: u8 = 0x05;

/// Device control 4, the second byte of DLE DC4.
pub const DC4: u8 = 0x14;

const _: () = prove!(ENQ == 5 && DC4 == 20);

/// Whether these are the first three bytes of a real-time command.
pub fn is_real_time(first: u8, second: u8, third: u8) -> bool
    ensures value { result ≡ is_real_time first second third }
    ensures small { IsTrue result → third ≤ 8 }
{
    first == DLE
        && (second == EOT && (1 <= third && third <= 8)
            || second == ENQ && third <= 2
            || second == DC4 && (1 <= third && third <= 3 || 6 <= third && third <= 8))
}

/// Whether a real-time command stands somewhere in the spelling of the command. Allocates nothing.
pub fn holds_real_time(command: &Command) -> bool
    ensures { IsTrue result ↔ HoldsRealTime (row command.now) }
{
    let parts = command.parts();
    let mut last = LastTwo {
        first: 0,
        second: 0,
    };
    if last.find(parts.prefix) {
        return true;
    }
    if last.find(parts.parameters.as_slice()) {
        return true;
    }
    if last.find(parts.content) {
        return true;
    }
    last.find(parts.suffix)
}

// Fewer bytes than this are gone through one by one.
const SHORT: usize = 16;

const _: () = prove!(SHORT == 16);

// The two bytes that came last.
#[derive(Clone, Copy, Debug, PartialEq, Eq)]
struct LastTwo {
    first: u8,
    second: u8,
}

impl LastTwo {
    // Whether these bytes, which come next, end a real-time command. If none does, they are gone through.
    fn find(&mut self, bytes: &[u8]) -> bool
        ensures { (following : List ℕ) → holds (self.old.first ∷ self.old.second ∷ (bytes.now ++ following)) ≡ (result || holds (self.new.first ∷ self.new.second ∷ following)) }
    {
        let mut at = 0;
        while at < bytes.len() {
            if bytes.len() - at >= SHORT && self.first != DLE && self.second != DLE {
                at += self.pass(&bytes[at..]);
                continue;
            }
            let byte = bytes[at];
            if is_real_time(self.first, self.second, byte) {
                return true;
            }
            self.first = self.second;
            self.second = byte;
            at += 1;
        }
        false
    }

    // Goes through the bytes up to the first DLE, and returns how many these are. Nothing begins before it.
    #[inline(never)]
    fn pass(&mut self, bytes: &[u8]) -> usize
        requires some { 1 ≤ length bytes.now }
        requires first { self.old.first ≢ DLE }
        requires second { self.old.second ≢ DLE }
        ensures count { (1 ≤ result) × (result ≤ length bytes.now) }
        ensures held { (following : List ℕ) → holds (self.old.first ∷ self.old.second ∷ (bytes.now ++ following)) ≡ holds (self.new.first ∷ self.new.second ∷ (drop result bytes.now ++ following)) }
    {
        self.first = 0;
        match memchr(DLE, bytes) {
            Some(place) => {
                self.second = DLE;
                place + 1
            }
            None => {
                self.second = 0;
                bytes.len()
            }
        }
    }
}
