//! Commands and their bytes.

use escpos_command::{CharsFault, Command, chars_of, write_commands};
use escpos_io::{ByteOut, Device};
use escpos_test_values::spell_to;
use std::alloc::Global;
use std::process::Abort;

// One more command, for which there is memory.
pub fn append(rt: &impl Abort, commands: &mut Vec<Command>, command: Command) {
    commands.push(command).expect(rt, "memory");
}

// What these calls come to, with nothing of what their contracts say of it.
pub fn characters(alloc: Global, text: &[u8]) -> Result<Vec<Command>, CharsFault> {
    chars_of(alloc, text)
}

pub fn spelled_len(command: &Command) -> usize {
    command.spelled_len()
}

pub fn spell_from(command: &Command, place: usize, out: &mut [u8]) -> usize {
    command.spell_at(place, out)
}

pub fn write_to<W: ByteOut>(commands: &[Command], sink: &mut W) -> Result<(), Device> {
    write_commands(commands, sink)
}

// The commands spell these bytes.
pub fn spell(rt: &impl Abort, alloc: Global, commands: &[Command], bytes: &[u8]) {
    let mut out = Vec::new(alloc);
    for command in commands {
        spell_to(command, &mut out).expect(rt, "memory");
    }
    assert!(rt; out.as_slice() == bytes, "other bytes were spelled");
}
