//! A decoder that is lent to checks, which own little: what a function owns is proved dropped at each way out of it.

use crate::support::comparison::agrees;
use escpos_command::{Command, FaultReason};
use escpos_decode::{DecodeFault, Decoded, Decoder, End, Step, decode};
use escpos_test_values::spell_to;
use std::alloc::{AllocError, Global};
use std::process::Abort;

// Why a byte out of the range of a parameter, of a barcode or of a raster's size is refused.
pub const BAD: FaultReason = FaultReason::BadParameter;

pub const BARCODE: FaultReason = FaultReason::BadBarcode;

pub const SIZE: FaultReason = FaultReason::BadSize;

// What pieces come to, with nothing of what the contract says of it.
pub fn decode_all(alloc: Global, pieces: &[&[u8]]) -> Result<Decoded, AllocError> {
    decode(alloc, pieces)
}

// These pieces give these commands, and end so.
pub fn decodes(rt: &impl Abort, alloc: Global, pieces: &[&[u8]], commands: &[Command], end: End) {
    let decoded = decode_all(alloc, pieces).expect(rt, "memory");
    assert!(rt; decoded.end == end);
    assert!(rt; decoded.commands.as_slice() == commands);
}

// Pushes a byte to a decoder, with nothing of what the contract says of its answer.
pub fn push(decoder: &mut Decoder, byte: u8) -> Result<Step, DecodeFault> {
    decoder.push(byte)
}

// Pushes a byte to a decoder, which answers so.
pub fn steps_to(
    rt: &impl Abort,
    decoder: &mut Decoder,
    byte: u8,
    wanted: Result<Step, DecodeFault>,
) {
    assert!(rt; push(decoder, byte) == wanted);
}

// The number of bytes of the half command, with nothing of what its contract says of it.
pub fn held_len(decoder: &Decoder) -> usize {
    decoder.pending_len()
}

pub fn holds(rt: &impl Abort, decoder: &Decoder, count: usize) {
    assert!(rt; held_len(decoder) == count);
}

// Pushes bytes to a decoder, none of which completes a command.
pub fn push_half(rt: &impl Abort, decoder: &mut Decoder, bytes: &[u8]) {
    for byte in bytes {
        assert!(rt; matches!(push(decoder, *byte), Ok(Step::More)), "at {byte}");
    }
}

// The last of these bytes is refused after the others, which are a half command, and that is dropped: the next
// byte begins a command.
fn drops_half(rt: &impl Abort, decoder: &mut Decoder, bytes: &[u8], why: FaultReason) {
    let (last, half) = bytes.split_last().expect(rt, "a byte");
    push_half(rt, decoder, half);
    holds(rt, decoder, half.len());
    let at = half.len();
    steps_to(rt, decoder, *last, Err(DecodeFault::Fault { at, why }));
    holds(rt, decoder, 0);
    steps_to(rt, decoder, 0x0A, Ok(Step::Done(Command::LineFeed)));
}

// The last of these bytes is refused after the others. The plain reader agrees at each byte.
pub fn refuses_last(rt: &impl Abort, alloc: Global, bytes: &[u8], why: FaultReason) {
    let mut decoder = Decoder::new(alloc);
    drops_half(rt, &mut decoder, bytes, why);
    agrees(rt, alloc, bytes);
}

// The one command that the bytes spell, and that spells them again. The plain reader agrees at each byte.
pub fn reads_one(rt: &impl Abort, alloc: Global, bytes: &[u8]) -> Command {
    agrees(rt, alloc, bytes);
    let mut decoded = decode_all(alloc, &[bytes]).expect(rt, "memory");
    assert!(rt; decoded.end == End::Read { half: 0 });
    assert!(rt; decoded.commands.len() == 1);
    let command = decoded.commands.pop().expect(rt, "a command");
    spells(rt, alloc, &command, bytes);
    command
}

fn spells(rt: &impl Abort, alloc: Global, command: &Command, bytes: &[u8]) {
    let mut out = Vec::new(alloc);
    spell_to(command, &mut out).expect(rt, "memory");
    assert!(rt; out.as_slice() == bytes);
}

// The bytes spell this command.
pub fn reads(rt: &impl Abort, alloc: Global, bytes: &[u8], wanted: &Command) {
    let command = reads_one(rt, alloc, bytes);
    assert!(rt; command == *wanted);
}

// The bytes before the dots of the widest and highest raster, and of one as wide with 2,047 rows.
pub const LARGEST: [u8; 8] = [0x1D, 0x76, 0x30, 0x00, 0x80, 0x00, 0xFF, 0x0F];

pub const HALF_AS_HIGH: [u8; 8] = [0x1D, 0x76, 0x30, 0x00, 0x80, 0x00, 0xFF, 0x07];
