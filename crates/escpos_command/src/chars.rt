//! Text as commands.

ghost use Rattle.std.specs.Prelude.{◌≡◌, IfOk, IfErr, map};
ghost use Rattle.std.specs.List.{AllPass};
ghost use Rattle.escpos_command.specs.declared.command.Command.TheVariants.{Char};
ghost use Rattle.escpos_command.specs.Parameters.{is_character};
ghost use Rattle.escpos_command.specs.Chars.{IsFirstControl};

use crate::command::Command;
use crate::parameter::Character;
use std::alloc::{AllocError, Global};

/// Why a text isn't a list of characters.
#[derive(Clone, Copy, Debug, PartialEq, Eq)]
pub enum CharsFault {
    /// The byte at this place, the first such one, is below 20 hexadecimal.
    ControlByte { at: usize },
    /// Out of memory; the text has no control byte.
    Memory,
}

impl From<AllocError> for CharsFault {
    ghost use Rattle.std.specs.Prelude.{◌≡◌};
    ghost use Rattle.escpos_command.specs.declared.chars.CharsFault.TheVariants.{Memory};

    ghost from_gives = { λ _ fault. fault ≡ Memory };

    fn from(_error: AllocError) -> CharsFault {
        CharsFault::Memory
    }
}

/// One `Char` for each byte of `text`. A control byte is found before anything is allocated.
pub fn chars_of(alloc: Global, text: &[u8]) -> Result<Vec<Command>, CharsFault>
    ensures chars { IfOk result (λ commands. commands.items ≡ map Char text.now) }
    ensures printing { IfOk result (λ _. AllPass is_character text.now) }
    ensures control { IfErr result (λ fault. IsFirstControl fault text.now) }
{
    if let Some(at) = text.iter().position(|byte| !is_character(*byte)) {
        return Err(CharsFault::ControlByte { at });
    }
    let mut commands = Vec::with_capacity(alloc, text.len())?;
    for byte in text {
        match Character::new(*byte) {
            Some(character) => commands.push_reserved(Command::Char(character)),
            None => unreachable!(),
        }
    }
    Ok(commands)
}

// Whether the byte is that of a character.
fn is_character(byte: u8) -> bool
    ensures { result ≡ is_character byte }
{
    byte >= 0x20
}
