//! The decoder and the plain reader, compared at each byte of a stream.

use crate::support::decoders::{held_len, push, push_half};
use crate::support::plain;
use crate::support::plain::Reading;
use escpos_command::Command;
use escpos_decode::{Ahead, DecodeFault, Decoder, Step};
use std::alloc::Global;
use std::process::Abort;

/// Pushes the stream to a decoder. At each byte its answer, what it says ahead of it, and the length of its half command
/// are those of the plain reader. After a fault both begin anew.
pub fn agrees(rt: &impl Abort, alloc: Global, stream: &[u8]) {
    let mut decoder = Decoder::new(alloc);
    let mut half = Vec::new(alloc);
    for byte in stream {
        half.push(*byte).expect(rt, "memory");
        if !agrees_at(rt, alloc, &mut decoder, &half) {
            half.clear();
        }
    }
}

/// The same for each byte that may follow the bytes of the stream before each place.
pub fn agrees_with_neighbours(rt: &impl Abort, alloc: Global, spelling: &[u8]) {
    for place in 0..spelling.len() {
        let mut bytes = spelling[..=place].to_vec(alloc).expect(rt, "memory");
        for byte in 0..=255 {
            bytes[place] = byte;
            let mut decoder = Decoder::new(alloc);
            push_half(rt, &mut decoder, &bytes[..place]);
            agrees_at(rt, alloc, &mut decoder, &bytes);
        }
    }
}

// What a decoder says of a byte, with nothing of what its contract says of that.
fn ahead(decoder: &mut Decoder, byte: u8) -> Ahead {
    decoder.look(byte)
}

// Whether these bytes are a half command, about which the plain reader and the decoder agree that holds all but the last.
fn agrees_at(rt: &impl Abort, alloc: Global, decoder: &mut Decoder, bytes: &[u8]) -> bool {
    let (last, half) = bytes.split_last().expect(rt, "a byte");
    let reading = plain::read(rt, alloc, bytes);
    let goes_on = matches!(&reading, Reading::Half);
    assert!(rt; ahead(decoder, *last) == ahead_of(&reading));
    assert!(rt; held_len(decoder) == half.len());
    let wanted = step_of(reading, half.len());
    assert!(rt; push(decoder, *last) == wanted);
    let left = if goes_on { bytes.len() } else { 0 };
    assert!(rt; held_len(decoder) == left);
    goes_on
}

// What a byte would complete of which this is read.
fn ahead_of(reading: &Reading) -> Ahead {
    match reading {
        Reading::Spelling(Command::Status(_)) => Ahead::Status,
        Reading::Spelling(Command::Mark(_)) => Ahead::Mark,
        Reading::Spelling(_) => Ahead::Other,
        Reading::Half | Reading::Refused(_) => Ahead::Nothing,
    }
}

// The answer to a byte of which this is read, with so many bytes of its command before it.
fn step_of(reading: Reading, at: usize) -> Result<Step, DecodeFault> {
    match reading {
        Reading::Spelling(command) => Ok(Step::Done(command)),
        Reading::Half => Ok(Step::More),
        Reading::Refused(why) => Err(DecodeFault::Fault { at, why }),
    }
}
