//! An empty piece changes nothing, wherever it comes within a command.

use crate::support::decoders::{decodes, reads_one, steps_to};
use escpos_command::Command;
use escpos_decode::{Decoder, End, Step, read_piece};
use escpos_test_values::spellings;
use std::alloc::Global;
use std::process::Abort;

// The pieces of a byte each, with an empty one before the first and after each of them.
fn with_empty_pieces<'a>(rt: &impl Abort, alloc: Global, bytes: &'a [u8]) -> Vec<&'a [u8]> {
    let mut pieces: Vec<&'a [u8]> = Vec::new(alloc);
    pieces.push(&[]).expect(rt, "memory");
    for piece in bytes.chunks(1) {
        pieces.push(piece).expect(rt, "memory");
        pieces.push(&[]).expect(rt, "memory");
    }
    pieces
}

#[test]
fn empty_pieces_in_decode(rt: HostRuntime) {
    for spelling in spellings() {
        let pieces = with_empty_pieces(&rt, rt.alloc(), spelling);
        let command = [reads_one(&rt, rt.alloc(), spelling)];
        decodes(&rt, rt.alloc(), &pieces, &command, End::Read { half: 0 });
    }
}

// An empty piece leaves the half command and the commands as they are.
fn reads_nothing(rt: &impl Abort, decoder: &mut Decoder, commands: &mut Vec<Command>) {
    let (half, count) = (decoder.pending_len(), commands.len());
    assert!(rt; read_piece(decoder, &[], commands, &mut ()).is_ok());
    assert!(rt; (decoder.pending_len(), commands.len()) == (half, count));
}

// The bytes of a spelling one by one, with an empty piece after each.
fn reads_byte_by_byte(
    rt: &impl Abort,
    decoder: &mut Decoder,
    commands: &mut Vec<Command>,
    spelling: &[u8],
) {
    reads_nothing(rt, decoder, commands);
    for (place, byte) in spelling.iter().enumerate() {
        assert!(rt; decoder.pending_len() == place);
        assert!(rt; read_piece(decoder, &[*byte], commands, &mut ()).is_ok());
        reads_nothing(rt, decoder, commands);
    }
    assert!(rt; decoder.pending_len() == 0);
}

#[test]
fn empty_pieces_in_read_piece(rt: HostRuntime) {
    let mut decoder = Decoder::new(rt.alloc());
    for spelling in spellings() {
        let mut commands = Vec::new(rt.alloc());
        reads_byte_by_byte(&rt, &mut decoder, &mut commands, spelling);
        let command = [reads_one(&rt, rt.alloc(), spelling)];
        assert!(&rt; commands.as_slice() == command.as_slice());
    }
}

// A decoder that has read an empty piece within a command goes on with the next byte.
#[test]
fn empty_pieces_and_pushed_bytes(rt: HostRuntime) {
    let mut decoder = Decoder::new(rt.alloc());
    let mut commands = Vec::new(rt.alloc());
    for _ in 0..3 {
        steps_to(&rt, &mut decoder, 0x1B, Ok(Step::More));
        reads_nothing(&rt, &mut decoder, &mut commands);
        steps_to(&rt, &mut decoder, 0x40, Ok(Step::Done(Command::Init)));
        reads_nothing(&rt, &mut decoder, &mut commands);
    }
}
