//! The loop over the bytes of a whole stream: each token of it goes to a consumer.
//!
//! A byte that the command table refuses may be one of a command that is passed over: then that command is looked for where the
//! refused one began. What is done with a token is up to the consumer: a listing, a page, or a picture.

ghost use Rattle.std.specs.Prelude.{◌≡◌, ◌≤◌, ◌<◌, ◌+◌, ◌^◌, ℕ, Bool, List, [], ◌∷◌, ◌++◌, length, map, take, drop, OnOk, IfOk, IfErr};
ghost use Rattle.std.specs.List.{AllPass};
ghost use Rattle.escpos_command.specs.declared.command.Command.TheVariants.{Char};
ghost use Rattle.escpos_command.specs.Parameters.{is_character};
ghost use Rattle.escpos_passed.specs.Tokens.{Token, taken, passed, spell_tokens};
ghost use Rattle.escpos_passed.specs.Table.{table, row_at, IsPassedBy};
ghost use Rattle.escpos_passed.specs.Reading.{IsAllTaken, StopsAt, IfRefused, EndsWith, text_tokens};

use crate::finding::{Found, find};
use crate::table::Row;
use escpos_command::{Character, Command, FaultReason};
use escpos_decode::{DecodeFault, Decoder, Step};
use std::alloc::Global;

/// Takes the tokens of a stream, one after another, and may pass something on to an output `W`.
pub trait TokenConsumer<W> {
    /// Why no further token can be taken.
    type Refusal: Drop;

    // Between two states of the consumer and its output these tokens were taken.
    ghost accepted: { Self × W → Self × W → List Token → Type 0 };

    // What a refusal leaves of a state.
    ghost refused: { Self × W → Self × W → Self.Refusal → Type 0 };

    /// Takes the next command, which has `place` bytes before it.
    fn take(&mut self, command: Command, place: usize, output: &mut W) -> Result<(), Self::Refusal>
        ensures accepted { OnOk result ((start : Self × W) (ts : List Token) → place ≡ length (spell_tokens ts) →
            accepted start (self.old, output.old) ts → accepted start (self.new, output.new) (ts ++ taken command ∷ [])) }
        ensures refused { IfErr result (refused (self.old, output.old) (self.new, output.new)) };

    /// Takes at least one of the characters at the start of `text`, the first of which has `place` bytes before it, and
    /// returns how many. On `Err` it has taken none.
    fn take_text(
        &mut self,
        text: &[u8],
        place: usize,
        output: &mut W,
    ) -> Result<usize, Self::Refusal>
        requires some { 1 ≤ length text.now }
        requires characters { AllPass is_character text.now }
        ensures count { IfOk result (λ count. (1 ≤ count) × (count ≤ length text.now)) }
        ensures accepted { IfOk result (λ count. (start : Self × W) (ts : List Token) → place ≡ length (spell_tokens ts) →
            accepted start (self.old, output.old) ts → accepted start (self.new, output.new) (ts ++ text_tokens (take count text.now))) }
        ensures refused { IfErr result (refused (self.old, output.old) (self.new, output.new)) };

    /// Passes over a command of this row, which has `place` bytes before it.
    fn pass(
        &mut self,
        row: &Row,
        bytes: &[u8],
        place: usize,
        output: &mut W,
    ) -> Result<(), Self::Refusal>
        requires passed { IsPassedBy row.now bytes.now }
        ensures accepted { OnOk result ((start : Self × W) (ts : List Token) (i : ℕ) → place ≡ length (spell_tokens ts) → i < length table → row.now ≡ row_at table i →
            accepted start (self.old, output.old) ts → accepted start (self.new, output.new) (ts ++ passed i bytes.now ∷ [])) }
        ensures refused { IfErr result (refused (self.old, output.old) (self.new, output.new)) };

    // At the start no token was taken.
    ghost nothing: { (start : Self × W) → accepted start start [] };
}

/// How a stream ends.
#[derive(Clone, Copy, Debug, PartialEq, Eq)]
pub struct End {
    /// How many commands were passed over.
    pub passed: usize,
    /// How many bytes at the end are the start of a token.
    pub half: usize,
}

/// Why the bytes of a stream weren't all taken.
#[derive(Clone, Copy, Debug, Drop, PartialEq, Eq)]
pub enum Stop<E> {
    /// The byte at this place is refused. The tokens before it were taken, this many of which are passed over.
    Fault {
        at: usize,
        why: FaultReason,
        passed: usize,
    },
    /// Out of memory at a byte that isn't refused. The tokens before it were taken.
    Memory,
    /// The consumer didn't take a token. Those before it were taken.
    Refused(E),
}

/// Reads a whole stream, and gives each token of it to `consumer`; with `pass` those that are passed over too.
pub fn read_tokens<W, C: TokenConsumer<W>>(
    alloc: Global,
    pass: bool,
    bytes: &[u8],
    consumer: &mut C,
    output: &mut W,
) -> Result<End, Stop<C::Refusal>>
    ensures read { IfOk result (λ end. IsAllTaken pass (C.accepted (consumer.old, output.old) (consumer.new, output.new)) bytes.now end) }
    ensures stopped { IfErr result (λ stop. StopsAt stop pass (C.accepted (consumer.old, output.old) (consumer.new, output.new)) bytes.now) }
    ensures refused { IfErr result (λ stop. IfRefused stop (λ refusal. (last : C × W) × (k : ℕ) × (token : Token)
        × EndsWith pass token (C.accepted (consumer.old, output.old) last) (take k bytes.now)
        × C.refused last (consumer.new, output.new) refusal)) }
{
    let mut decoder = Decoder::new(alloc);
    let mut passed = 0;
    let mut start = 0;
    let mut at = 0;
    while at < bytes.len() {
        let count = decoder.characters(&bytes[at..]);
        if count > 0 {
            if let Err(refusal) = give_text(&bytes[at..at + count], start, consumer, output) {
                return Err(Stop::Refused(refusal));
            }
            at += count;
            start = at;
            continue;
        }
        if let Some(setting) = decoder.setting(&bytes[at..]) {
            if let Err(refusal) = consumer.take(Command::Set(setting), start, output) {
                return Err(Stop::Refused(refusal));
            }
            at += 3;
            start = at;
            continue;
        }
        match decoder.push(bytes[at]) {
            Ok(Step::More) => {
                at += 1;
                at += decoder.push_dots(&bytes[at..]);
            }
            Ok(Step::Done(command)) => {
                at += 1;
                if let Err(refusal) = consumer.take(command, start, output) {
                    return Err(Stop::Refused(refusal));
                }
                start = at;
            }
            Err(DecodeFault::Memory) => return Err(Stop::Memory),
            Err(DecodeFault::Fault { why, .. }) => {
                if !pass {
                    return Err(Stop::Fault { at, why, passed });
                }
                match find(&bytes[start..]) {
                    Found::Nothing => return Err(Stop::Fault { at, why, passed }),
                    Found::Part => return Ok(End {
                        passed,
                        half: bytes.len() - start,
                    }),
                    Found::Whole { row, length } => {
                        let end = start + length;
                        if let Err(refusal) = consumer.pass(
                            &row,
                            &bytes[start..end],
                            start,
                            output,
                        ) {
                            return Err(Stop::Refused(refusal));
                        }
                        passed += 1;
                        start = end;
                        at = end;
                    }
                }
            }
        }
    }
    Ok(End {
        passed,
        half: bytes.len() - start,
    })
}

// Gives characters to the consumer, the first of which has `place` bytes before it.
fn give_text<W, C: TokenConsumer<W>>(
    text: &[u8],
    place: usize,
    consumer: &mut C,
    output: &mut W,
) -> Result<(), C::Refusal>
    requires characters { AllPass is_character text.now }
    requires counted { place + length text.now < 2 ^ 64 }
    ensures accepted { OnOk result ((start : C × W) (ts : List Token) → place ≡ length (spell_tokens ts) →
        C.accepted start (consumer.old, output.old) ts → C.accepted start (consumer.new, output.new) (ts ++ text_tokens text.now)) }
    ensures refused { IfErr result (λ refusal. (last : C × W) × (k : ℕ) × (k < length text.now)
        × ((start : C × W) (ts : List Token) → place ≡ length (spell_tokens ts) →
        C.accepted start (consumer.old, output.old) ts → C.accepted start last (ts ++ text_tokens (take k text.now)))
        × C.refused last (consumer.new, output.new) refusal) }
{
    let mut at = 0;
    while at < text.len() {
        match consumer.take_text(&text[at..], place + at, output) {
            Ok(count) => at += count,
            Err(refusal) => return Err(refusal),
        }
    }
    Ok(())
}
