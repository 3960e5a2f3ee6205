//! A whole stream in pieces, decoded to a list of commands.

ghost use Rattle.std.specs.Prelude.{◌≡◌, IfOk, List, ◌++◌, ◌≤◌, vec_len, vec_capacity};
ghost use Rattle.std.proofs.Common.{rules};
ghost use Rattle.std.proofs.lemmas.Grind.{common_steps};
ghost use Rattle.std.specs.List.{AllByRecursion};
ghost use Rattle.escpos_command.specs.declared.command.Command.{Command};
ghost use Rattle.escpos_command.specs.CommandTable.{IsCommand, spell};
ghost use Rattle.escpos_decode.specs.Stream.{joined, IsDecoded, LeavesNothing};

use crate::decoder::Decoder;
use crate::reading::{Consumer, Stop, read_piece};
use escpos_command::{Command, FaultReason, laws};
use std::alloc::{AllocError, Global};

/// The commands of a stream, and how it ends.
#[derive(Debug, Drop)]
pub struct Decoded {
    pub commands: Vec<Command>,
    pub end: End,
}

/// How a stream ends.
#[derive(Clone, Copy, Debug, PartialEq, Eq)]
pub enum End {
    /// All bytes are read, and the last `half` of them are a half command.
    Read { half: usize },
    /// The byte at this place of the stream is refused. The bytes after it aren't read.
    Fault { at: u128, why: FaultReason },
}

/// The commands of a stream that comes in these pieces, up to its end or its first refused byte.
///
/// The error is a failed allocation.
pub fn decode(alloc: Global, pieces: &[&[u8]]) -> Result<Decoded, AllocError>
    // It doesn't matter where the stream is cut: the result is that of the joined pieces.
    ensures decoded { IfOk result (λ decoded. IsDecoded decoded (joined pieces.now)) }
    // What the encoder spells is decoded to the same commands.
    ensures encoded { IfOk result (λ decoded. (cs : List Command) → AllByRecursion IsCommand cs → joined pieces.now ≡ spell cs →
        (decoded.commands.items ≡ cs) × LeavesNothing decoded.end) }
    // What is decoded with nothing left, the encoder spells so.
    ensures spelled_again { IfOk result (λ decoded. LeavesNothing decoded.end → spell decoded.commands.items ≡ joined pieces.now) }
{
    decode_pieces(alloc, pieces)
}

// Runs the decoder over the pieces, one after another.
fn decode_pieces(alloc: Global, pieces: &[&[u8]]) -> Result<Decoded, AllocError>
    ensures { IfOk result (λ decoded. IsDecoded decoded (joined pieces.now)) }
{
    // Proof only: readings join.
    laws::joined_readings();
    let mut decoder = Decoder::new(alloc);
    let mut commands = Vec::new(alloc);
    let mut length = 0u128;
    for piece in pieces {
        match read_piece(&mut decoder, piece, &mut commands, &mut ()) {
            Ok(()) => length += piece.len() as u128,
            Err(Stop::Fault { at, why }) => {
                return Ok(Decoded {
                    commands,
                    end: End::Fault {
                        at: length + at as u128,
                        why,
                    },
                });
            }
            Err(Stop::Memory | Stop::Refused(AllocError)) => return Err(AllocError),
        }
    }
    Ok(Decoded {
        commands,
        end: End::Read {
            half: decoder.pending_len(),
        },
    })
}

// A list of commands takes each as its new last element.
impl Consumer<()> for Vec<Command> {
    type Refusal = AllocError;

    ghost accepted = { λ start now cs. now.0.items ≡ start.0.items ++ cs };

    ghost refused = { λ last now _. (now.0.items ≡ last.0.items) × (vec_capacity last.0 ≤ vec_len last.0) };

    fn take(
        &mut self,
        command: Command,
        _place: usize,
        _output: &mut (),
    ) -> Result<(), AllocError> {
        match self.push(command) {
            Ok(()) => Ok(()),
            Err(_) => Err(AllocError),
        }
    }

    ghost nothing = { λ start. Prim.search (rules, common_steps) };
}
