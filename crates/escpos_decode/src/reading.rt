//! The loop over the bytes of a stream: a decoder takes them, and each command goes to a consumer.
//!
//! What is done with a command is up to the consumer: a list, a listing or a page. A byte is checked before the consumer is
//! called, so that no failed allocation hides a fault. A consumer that must know what a byte would complete before it is
//! taken must be asked at the start of the loop body.

ghost use Rattle.std.specs.Prelude.{◌≡◌, ◌≤◌, ◌<◌, ◌+◌, ◌^◌, ℕ, List, [], ◌∷◌, ◌++◌, length, map, take, OnOk, IfOk, IfErr};
ghost use Rattle.std.specs.List.{AllPass};
ghost use Rattle.escpos_command.specs.declared.command.Command.{Command};
ghost use Rattle.escpos_command.specs.declared.command.Command.TheVariants.{Char};
ghost use Rattle.escpos_command.specs.Parameters.{is_character};
ghost use Rattle.escpos_command.specs.CommandTable.{spell};
ghost use Rattle.escpos_decode.specs.Reading.{given, IsAccepted, StopsAt, EndsWith, IfRefused};

use crate::decoder::{DecodeFault, Decoder, Step};
use escpos_command::{Character, Command, FaultReason};

/// Takes the commands of a stream, one after another, and may pass something on to an output `W`.
pub trait Consumer<W> {
    /// Why no further command can be taken.
    type Refusal: Drop;

    // Between two states of the consumer and its output these commands were taken.
    ghost accepted: { Self × W → Self × W → List Command → Type 0 };

    // What a refusal leaves of a state.
    ghost refused: { Self × W → Self × W → Self.Refusal → Type 0 };

    /// Takes the next command, which has `place` bytes before it.
    fn take(&mut self, command: Command, place: usize, output: &mut W) -> Result<(), Self::Refusal>
        ensures accepted { OnOk result ((start : Self × W) (cs : List Command) → place ≡ length (spell cs) →
            accepted start (self.old, output.old) cs → accepted start (self.new, output.new) (cs ++ command ∷ [])) }
        ensures refused { IfErr result (refused (self.old, output.old) (self.new, output.new)) };

    /// Takes at least one of the characters at the start of `text`, the first of which has `place` bytes before it, and
    /// returns how many. On `Err` it has taken none.
    fn take_text(
        &mut self,
        text: &[u8],
        place: usize,
        output: &mut W,
    ) -> Result<usize, Self::Refusal>
        requires some { 1 ≤ length text.now }
        requires characters { AllPass is_character text.now }
        ensures count { IfOk result (λ count. (1 ≤ count) × (count ≤ length text.now)) }
        ensures accepted { IfOk result (λ count. (start : Self × W) (cs : List Command) → place ≡ length (spell cs) →
            accepted start (self.old, output.old) cs → accepted start (self.new, output.new) (cs ++ map Char (take count text.now))) }
        ensures refused { IfErr result (refused (self.old, output.old) (self.new, output.new)) }
    {
        let Some(character) = Character::new(text[0]) else {
            unreachable!()
        };
        match self.take(Command::Char(character), place, output) {
            Ok(()) => Ok(1),
            Err(refusal) => Err(refusal),
        }
    }

    // At the start no command was taken.
    ghost nothing: { (start : Self × W) → accepted start start [] };
}

/// Why the bytes of a piece weren't all taken.
#[derive(Clone, Copy, Debug, Drop, PartialEq, Eq)]
pub enum Stop<E> {
    /// The byte at this place of the piece is refused. The commands before it were taken, and the half command is
    /// dropped.
    Fault { at: usize, why: FaultReason },
    /// Out of memory at a byte that isn't refused. The commands before it were taken.
    Memory,
    /// The consumer didn't take a command. Those before it were taken.
    Refused(E),
}

/// Reads the bytes of `piece`, which follow the half command of `decoder`, and gives each command that they complete to
/// `consumer`. A command's place is counted from the first byte of that half command.
pub fn read_piece<W, C: Consumer<W>>(
    decoder: &mut Decoder,
    piece: &[u8],
    consumer: &mut C,
    output: &mut W,
) -> Result<(), Stop<C::Refusal>>
    ensures read { OnOk result (IsAccepted (C.accepted (consumer.old, output.old) (consumer.new, output.new)) (decoder.old ++ piece.now) decoder.new) }
    ensures stopped { IfErr result (λ stop.
        StopsAt stop (C.accepted (consumer.old, output.old) (consumer.new, output.new)) (given decoder.old piece.now) decoder.new) }
    ensures refused { IfErr result (λ stop. IfRefused stop (λ refusal. (last : C × W) × (k : ℕ) × (command : Command)
        × EndsWith command (C.accepted (consumer.old, output.old) last) (decoder.old ++ take k piece.now)
        × C.refused last (consumer.new, output.new) refusal × (decoder.new ≡ []))) }
{
    let before = decoder.pending_len();
    let mut start = 0;
    let mut at = 0;
    while at < piece.len() {
        let count = decoder.characters(&piece[at..]);
        if count > 0 {
            if let Err(refusal) = give_text(&piece[at..at + count], start, consumer, output) {
                return Err(Stop::Refused(refusal));
            }
            at += count;
            start = before + at;
            continue;
        }
        let command = match decoder.push(piece[at]) {
            Ok(Step::Done(command)) => command,
            Ok(Step::More) => {
                at += 1;
                at += decoder.push_dots(&piece[at..]);
                continue;
            }
            Err(DecodeFault::Fault { why, .. }) => return Err(Stop::Fault { at, why }),
            Err(DecodeFault::Memory) => return Err(Stop::Memory),
        };
        at += 1;
        if let Err(refusal) = consumer.take(command, start, output) {
            return Err(Stop::Refused(refusal));
        }
        start = before + at;
    }
    Ok(())
}

// Gives characters to the consumer, the first of which has `place` bytes before it.
fn give_text<W, C: Consumer<W>>(
    text: &[u8],
    place: usize,
    consumer: &mut C,
    output: &mut W,
) -> Result<(), C::Refusal>
    requires characters { AllPass is_character text.now }
    requires counted { place + length text.now < 2 ^ 64 }
    ensures accepted { OnOk result ((start : C × W) (cs : List Command) → place ≡ length (spell cs) →
        C.accepted start (consumer.old, output.old) cs → C.accepted start (consumer.new, output.new) (cs ++ map Char text.now)) }
    ensures refused { IfErr result (λ refusal. (last : C × W) × (k : ℕ) × (k < length text.now)
        × ((start : C × W) (cs : List Command) → place ≡ length (spell cs) →
        C.accepted start (consumer.old, output.old) cs → C.accepted start last (cs ++ map Char (take k text.now)))
        × C.refused last (consumer.new, output.new) refusal) }
{
    let mut at = 0;
    while at < text.len() {
        match consumer.take_text(&text[at..], place + at, output) {
            Ok(count) => at += count,
            Err(refusal) => return Err(refusal),
        }
    }
    Ok(())
}
