//! The bytes of a receipt's entries.

ghost use Rattle.std.specs.Prelude.{◌≡◌, ◌++◌, IfOk, OnOk, flat_map};
ghost use Rattle.escpos_command.specs.CommandTable.{spell};
ghost use Rattle.escpos_receipt.specs.EntryCommands.{commands_in};

use escpos_command::LF;
use escpos_receipt::Entry;
use std::alloc::{AllocError, Global};

/// The bytes of all entries, one after another.
pub fn spelled(alloc: Global, entries: &[Entry<'_>]) -> Result<Vec<u8>, AllocError>
    ensures { IfOk result (λ bytes. bytes.items ≡ spell (flat_map commands_in entries.now)) }
{
    let mut bytes = Vec::new(alloc);
    for entry in entries {
        append(&mut bytes, entry)?;
    }
    Ok(bytes)
}

// Appends the bytes of an entry.
fn append(bytes: &mut Vec<u8>, entry: &Entry<'_>) -> Result<(), AllocError>
    ensures { OnOk result (bytes.new.items ≡ bytes.old.items ++ spell (commands_in entry.now)) }
{
    match entry {
        Entry::Text(text) => {
            bytes.extend_from_slice(text.bytes())?;
            Ok(())
        }
        Entry::Line(text) => {
            bytes.extend_from_slice(text.bytes())?;
            bytes.push(LF)?;
            Ok(())
        }
        Entry::Command(command) => command.spell(bytes),
    }
}
