//! The reader of answers: it takes the bytes that come from a printer one by one.
//!
//! Between answers it holds nothing, within an answer the bytes so far. What an answer means is left to the host.

ghost use Rattle.std.specs.Prelude.{◌≡◌, ◌≢◌, ◌⊎◌, [], ◌∷◌, ◌++◌, length, true, Ok, Err, Some, None, IsTrue, MatchOption};
ghost use Rattle.std.specs.Option.{SomeIff};
ghost use Rattle.escpos_command.specs.declared.answer.Answer.{Answer};
ghost use Rattle.escpos_command.specs.Answers.{is_status_byte, AnswerSpells, HalfAnswer, ViableAnswer};
ghost use Rattle.escpos_command.specs.Blocks.{is_block};
ghost use Rattle.escpos_host.specs.AnswerReader.{goes_on, mark_goes_on, IsFront};

use arrayvec::ArrayVec;
use escpos_command::{
    Answer, AutomaticStatus, MarkId, begins_block, continues_block, is_mark_byte,
};
use std::marker::Model;

/// A byte that continues no answer.
#[derive(Clone, Copy, Debug, PartialEq, Eq)]
pub struct NoAnswer;

/// The bytes of an answer that isn't whole yet. Its model is their list.
#[derive(Drop)]
pub struct AnswerReader {
    bytes: ArrayVec<u8, 6>,
}

impl Model for AnswerReader {
    ghost use Rattle.std.specs.Prelude.{List, ℕ};
    ghost use Rattle.escpos_host.specs.AnswerReader.{IsFront};

    ghost Value = { List ℕ };

    ghost view = { λ r. r.bytes.items };

    // A reader holds nothing, or a prefix of a mark's answer or of a block.
    ghost invariant = { λ r. IsFront r.bytes.items };
}

impl AnswerReader {
    /// A reader that has read nothing yet.
    pub fn new() -> Self
        ensures { result ≡ [] }
    {
        AnswerReader {
            bytes: ArrayVec::new(),
        }
    }

    /// Takes one more byte, and returns the answer that it completes, if it does. A byte that continues no answer drops the
    /// half answer. Allocates nothing.
    pub fn push(&mut self, byte: u8) -> Result<Option<Answer>, NoAnswer>
        ensures half { result ≡ Ok None → (self.new ≡ self.old ++ byte ∷ []) × HalfAnswer self.new }
        ensures whole { (answer : Answer) → result ≡ Ok (Some answer) → (self.new ≡ []) × AnswerSpells answer (self.old ++ byte ∷ []) }
        ensures refused { result ≡ Err (record {}) → (self.new ≡ []) × (ViableAnswer (self.old ++ byte ∷ []) → ⊥) }
    {
        if self.bytes.is_empty() && is_status_byte(byte) {
            return Ok(Some(Answer::Status(byte)));
        }
        if !goes_on(self.bytes.as_slice(), byte) {
            self.bytes.clear();
            return Err(NoAnswer);
        }
        match whole_with(self.bytes.as_slice(), byte) {
            Some(answer) => {
                self.bytes.clear();
                Ok(Some(answer))
            }
            None => {
                self.bytes.push(byte);
                Ok(None)
            }
        }
    }

    /// Proof only: gives the caller this fact: the reader holds nothing or a half answer.
    pub fn is_sound(&self)
        ensures { (self.now ≡ []) ⊎ HalfAnswer self.now }
    {
        // Proof only: the reader's invariant.
        let _ = self.bytes.len();
    }

    /// Drops the half answer. Allocates nothing.
    pub fn clear(&mut self)
        ensures { self.new ≡ [] }
    {
        self.bytes.clear();
    }
}

// Whether the byte continues an answer after these bytes of it, which are none or those of a longer one than a status.
fn goes_on(half: &[u8], byte: u8) -> bool
    ensures { result ≡ goes_on half.now byte }
{
    match half {
        [] => byte == 0x37 || begins_block(byte),
        [0x37, rest @ ..] => mark_goes_on(rest, byte),
        _ => continues_block(byte),
    }
}

// Whether the byte continues the answer to a mark after 37 and these bytes.
fn mark_goes_on(rest: &[u8], byte: u8) -> bool
    ensures { result ≡ mark_goes_on rest.now byte }
{
    match rest {
        [] => byte == 0x22,
        [_, id @ ..] => {
            if id.len() == 4 {
                byte == 0x00
            } else {
                is_mark_byte(byte)
            }
        }
    }
}

// The answer that the byte makes whole, if it does.
fn whole_with(half: &[u8], byte: u8) -> Option<Answer>
    requires front { IsFront half.now }
    requires on { goes_on half.now byte ≡ true }
    ensures { MatchOption result (IsFront (half.now ++ byte ∷ [])) (λ answer. AnswerSpells answer (half.now ++ byte ∷ [])) }
{
    match block_with(half, byte) {
        Some(block) => Some(Answer::Condition(block)),
        None => match mark_in(half) {
            Some(id) => Some(Answer::Mark(id)),
            None => None,
        },
    }
}

// The block of these bytes and the byte after them, if they are one.
fn block_with(half: &[u8], byte: u8) -> Option<AutomaticStatus>
    ensures { SomeIff result (IsTrue (is_block (half.now ++ byte ∷ []))) (half.now ++ byte ∷ []) }
{
    match half {
        [first, second, third] => AutomaticStatus::new([*first, *second, *third, byte]),
        _ => None,
    }
}

// The id in all bytes of a mark's answer but the last; `None` if there are fewer.
fn mark_in(half: &[u8]) -> Option<MarkId>
    requires { IsFront half.now }
    ensures { MatchOption result (length half.now ≢ 6) (λ id. half.now ≡ 0x37 ∷ 0x22 ∷ id) }
{
    let [_, _, first, second, third, fourth] = half else {
        return None;
    };
    MarkId::new([*first, *second, *third, *fourth])
}

// Whether the byte is a status byte of a printer.
fn is_status_byte(byte: u8) -> bool
    ensures { result ≡ is_status_byte byte }
{
    byte / 2 % 2 == 1 && byte / 16 % 2 == 1 && byte % 2 != 1 && byte / 128 % 2 != 1
}
