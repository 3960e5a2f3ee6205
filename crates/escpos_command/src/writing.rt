//! Commands written to a sink.

ghost use Rattle.escpos_io.specs.Putting.{IsPut, passage};
ghost use Rattle.escpos_command.specs.CommandTable.{spell};

use crate::command::Command;
use escpos_io::{ByteOut, Device, put_pieces};

/// Puts the spellings of `commands`, one after another, into `writer`. Allocates nothing.
///
/// On `Ok` the writer has not failed, unless it had before. On `Err` it has failed, and took exactly the first `written`
/// bytes of the spellings, fewer than there are.
pub fn write_commands<W: ByteOut>(commands: &[Command], writer: &mut W) -> Result<(), Device>
    ensures { IsPut result (passage (W.written writer.old) (W.written writer.new) (W.failed writer.old) (W.failed writer.new)) (spell commands.now) }
{
    put_pieces(commands, writer)
}
