//! Hears a printer's answer, byte by byte, from any source.

ghost use Rattle.std.specs.Prelude.{◌≡◌, ◌⊎◌, ◌<◌, ◌≤◌, ◌++◌, ℕ, [], ◌∷◌, false, true, length, take, IsTrue};
ghost use Rattle.std.specs.Io.KnownBytes.{Consumes};
ghost use Rattle.escpos_probe.specs.Forms.{is_whole};

use crate::question::Form;
use arrayvec::ArrayVec;
use escpos_io::ByteIn;
use std::marker::Model;

/// The most bytes of an answer that are heard. The longest that the Reference has is 82. (Reference: GS I.)
pub const MOST_BYTES: usize = 96;

const _: () = prove!(MOST_BYTES == 96);

/// The bytes of an answer, in order. Its model is their list.
#[derive(Debug, Drop)]
pub struct Answer {
    bytes: ArrayVec<u8, 96>,
}

impl Model for Answer {
    ghost use Rattle.std.specs.Prelude.{List, ℕ};

    ghost Value = { List ℕ };

    ghost view = { λ a. a.bytes.items };
}

impl Answer {
    /// No answer.
    pub fn none() -> Self
        ensures { result ≡ [] }
    {
        Answer {
            bytes: ArrayVec::new(),
        }
    }

    /// Its bytes.
    pub fn bytes(&self) -> &[u8]
        ensures bytes { result.now ≡ self.now }
        ensures few { length result.now ≤ MOST_BYTES }
    {
        self.bytes.as_slice()
    }

    // Takes one more byte, if there is room.
    fn push(&mut self, byte: u8)
        requires { length self.old < MOST_BYTES }
        ensures { self.new ≡ self.old ++ byte ∷ [] }
    {
        self.bytes.push(byte);
    }
}

/// Hears an answer of this form: the bytes up to the first at which it is whole, at most 96. Where the source ends, fails or has no more
/// in time, it is what came until then.
pub fn hear<R: ByteIn>(form: Form, reader: &mut R) -> Answer
    ensures heard { Consumes (R.to_come reader.old) (R.to_come reader.new) result }
    ensures first { (n : ℕ) → n < length result → is_whole form (take n result) ≡ false }
    ensures ends { (is_whole form result ≡ true) ⊎ (length result ≡ MOST_BYTES) ⊎ IsTrue (R.ended reader.new) ⊎ IsTrue (R.failed reader.new) }
{
    let mut answer = Answer::none();
    let mut piece = [0];
    while answer.bytes().len() < MOST_BYTES && !form.is_whole(answer.bytes()) {
        match reader.pull(&mut piece) {
            Ok(count) => if count == 0 {
                return answer;
            },
            Err(_) => return answer,
        }
        answer.push(piece[0]);
    }
    answer
}
