//! What a printer answers: a status byte, that everything before a mark is done, or unasked what its condition is.
//!
//! The first byte shows which answer it is: 37 has bit 0 set, a status byte has bit 0 clear and bit 1 set, and in the first
//! byte of a block both are clear. `specs/Answers.antt` defines which answers a list of such bytes holds.

ghost use Rattle.std.specs.Prelude.{◌≡◌, IsTrue, length};
ghost use Rattle.escpos_command.specs.Answers.{answer_bytes, answer_length, is_answer, AnswerSpells};

use crate::automatic_status::AutomaticStatus;
use crate::mark::MarkId;
use arrayvec::ArrayVec;

/// An answer of a printer.
#[derive(Clone, Copy, Debug, PartialEq, Eq)]
pub enum Answer {
    /// A status byte: bits 1 and 4 set, bits 0 and 7 clear. (Reference: DLE EOT.)
    Status(u8),
    /// Everything before the mark with this id is done. (Reference: GS ( H.)
    Mark(MarkId),
    /// The condition of the printer, sent unasked. (Reference: GS a.)
    Condition(AutomaticStatus),
}

impl Answer {
    /// The bytes that go to the host: a status byte as it is; 37 22, the id and 00 for a mark; and the four bytes of a block.
    /// Allocates nothing.
    pub fn bytes(self) -> ArrayVec<u8, 7>
        ensures bytes { result.items ≡ answer_bytes self }
        ensures length { length result.items ≡ answer_length self }
        ensures spelled { IsTrue (is_answer self) → AnswerSpells self result.items }
    {
        let mut bytes = ArrayVec::new();
        match self {
            Answer::Status(byte) => bytes.push(byte),
            Answer::Mark(id) => {
                bytes.try_extend_from_slice(&[0x37, 0x22]).unwrap();
                bytes.try_extend_from_slice(&id.bytes()).unwrap();
                bytes.push(0);
            }
            Answer::Condition(status) => bytes.try_extend_from_slice(&status.bytes()).unwrap(),
        }
        bytes
    }
}
