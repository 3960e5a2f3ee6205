//! Memory for contents: where it is asked for, and how much.

use crate::support::decoders::{LARGEST, holds, push_half};
use escpos_command::Command;
use escpos_decode::{DecodeFault, Decoder, Step};
use std::process::Abort;

// The spelling of a barcode, a raster, a store of a QR code or of graphics, or tab stops with this content, and the first and the last place at which memory is asked for.
type Growing = (&'static [u8], [usize; 2]);

const CONTENT: &[u8] = b"0123456789ABCDEFGHIJ";

const GROWING: [Growing; 6] = [
    (b"\x1Dk\x040123456789ABCDEFGHIJ\x00", [3, 22]),
    (b"\x1DkE\x140123456789ABCDEFGHIJ", [3, 3]),
    (b"\x1Dv0\x00\x02\x00\x0A\x000123456789ABCDEFGHIJ", [7, 7]),
    (b"\x1D(k\x17\x001P00123456789ABCDEFGHIJ", [7, 7]),
    (b"\x1BD0123456789ABCDEFGHIJ\x00", [2, 21]),
    (
        b"\x1D(L\x1E\x000p0\x01\x011\x10\x00\x0A\x000123456789ABCDEFGHIJ",
        [14, 14],
    ),
];

fn growing_contents() -> &'static [Growing] {
    &GROWING
}

// Pushes a byte, which stands at this place of a spelling. Where memory is refused the decoder is unchanged, and takes the
// byte when it is pushed again; that is so at these places alone.
fn push_at_last(
    rt: &impl Abort,
    decoder: &mut Decoder,
    byte: u8,
    place: usize,
    places: [usize; 2],
) -> Result<Step, DecodeFault> {
    holds(rt, decoder, place);
    match decoder.push(byte) {
        Err(DecodeFault::Memory) => {
            let [first, last] = places;
            assert!(rt; first <= place && place <= last, "at {place}");
            holds(rt, decoder, place);
            decoder.push(byte)
        }
        answer => answer,
    }
}

// Pushes the spelling of a command, which its last byte completes.
fn push_growing(
    rt: &impl Abort,
    decoder: &mut Decoder,
    spelling: &[u8],
    places: [usize; 2],
) -> Command {
    let (last, others) = spelling.split_last().expect(rt, "a spelling");
    for (place, byte) in others.iter().enumerate() {
        let step = push_at_last(rt, decoder, *byte, place, places);
        assert!(rt; step == Ok(Step::More), "at {place}");
    }
    match push_at_last(rt, decoder, *last, others.len(), places) {
        Ok(Step::Done(command)) => command,
        _ => panic!(rt; "no command"),
    }
}

// Here each allocation succeeds: `rt try --test --fail-alloc N -- memory::allocations_fail` lets the Nth of the seven fail.
#[test]
fn allocations_fail(rt: HostRuntime) {
    for (spelling, places) in growing_contents() {
        let mut decoder = Decoder::new(rt.alloc());
        let command = push_growing(&rt, &mut decoder, spelling, *places);
        assert!(rt; command.parts().content == CONTENT);
    }
}

// The room of the content of this command.
fn room_of(rt: &impl Abort, command: Command) -> usize {
    let bytes = match command {
        Command::Bars(bars) => bars.into_content(),
        Command::Raster(raster) => raster.into_dots(),
        Command::QrStore(stored) => stored.into_bytes(),
        Command::GraphicsStore(graphics) => graphics.into_dots(),
        Command::TabStops(stops) => stops.into_columns(),
        _ => panic!(rt; "no content"),
    };
    bytes.into_vec().capacity()
}

// A content has room of its own size, also where the decoder was cleared within the largest raster.
#[test]
fn room_is_modest(rt: HostRuntime) {
    for (spelling, places) in growing_contents() {
        let mut decoder = Decoder::new(rt.alloc());
        push_half(&rt, &mut decoder, &LARGEST);
        decoder.clear();
        let command = push_growing(&rt, &mut decoder, spelling, *places);
        assert!(rt; room_of(&rt, command) <= 64);
    }
}
