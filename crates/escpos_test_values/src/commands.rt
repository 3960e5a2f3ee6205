//! Commands and their bytes.

use escpos_command::{Character, Command, Cut};
use std::alloc::{AllocError, Global};

/// What `five_commands_of` spells.
pub const FIVE: &[u8] = b"\x1B@Hi\x0A\x1DV\x00";

/// The mark with the id 000Z.
pub const MARK_35: [u8; 11] = *b"\x1D(H\x06\x0000000Z";

/// Initialise, H, i, a line feed and a cut; `None` if an allocation fails.
pub fn five_commands_of(alloc: Global) -> Option<Vec<Command>> {
    let mut commands = Vec::new(alloc);
    commands.push(Command::Init).ok()?;
    for byte in b"Hi" {
        commands.push(Command::Char(Character::new(*byte)?)).ok()?;
    }
    commands.push(Command::LineFeed).ok()?;
    commands.push(Command::Cut(Cut::new(0)?)).ok()?;
    Some(commands)
}

/// Appends what a command spells, with nothing of what the contract says of it. The error is out of memory.
pub fn spell_to(command: &Command, out: &mut Vec<u8>) -> Result<(), AllocError> {
    command.spell(out)
}
