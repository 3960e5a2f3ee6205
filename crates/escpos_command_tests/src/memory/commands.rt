//! Spelling and copying commands.

use escpos_command::{CharsFault, Command, chars_of, laws};
use escpos_test_values::{
    BARCODE, BOTH, GRAPHICS, PICTURE, STOPS, STORE, barcode, is_spelled, picture, stored,
    stored_graphics, tab_stops,
};
use std::alloc::Global;
use std::process::Abort;

// Spells a command after these bytes. Where memory is refused nothing is appended, and it is spelled again.
fn spells(rt: &impl Abort, command: &Command, out: &mut Vec<u8>, (before, after): (&[u8], &[u8])) {
    if command.spell(out).is_err() {
        assert!(rt; out.as_slice() == before);
        assert!(rt; command.spell(out).is_ok());
    }
    assert!(rt; out.as_slice() == after);
}

#[test]
fn spell_refused(rt: HostRuntime) {
    let mut out = Vec::new(rt.alloc());
    let command = Command::Bars(barcode(rt.alloc()).expect(&rt, "a barcode"));
    spells(&rt, &command, &mut out, (b"", BARCODE));
    let command = Command::Raster(picture(rt.alloc()).expect(&rt, "a raster"));
    spells(&rt, &command, &mut out, (BARCODE, BOTH));
    out.clear();
    let command = Command::QrStore(stored(rt.alloc()).expect(&rt, "the data of a QR code"));
    spells(&rt, &command, &mut out, (b"", STORE));
    out.clear();
    let command = Command::TabStops(tab_stops(rt.alloc()).expect(&rt, "tab stops"));
    spells(&rt, &command, &mut out, (b"", STOPS));
    out.clear();
    let command = Command::GraphicsStore(stored_graphics(rt.alloc()).expect(&rt, "graphics"));
    spells(&rt, &command, &mut out, (b"", GRAPHICS));
}

// The characters of a text. Where memory is refused, they are asked for again.
fn chars_at_last(rt: &impl Abort, alloc: Global, text: &[u8]) -> Vec<Command> {
    match chars_of(alloc, text) {
        Ok(commands) => commands,
        Err(fault) => {
            assert!(rt; fault == CharsFault::Memory);
            chars_of(alloc, text).expect(rt, "characters")
        }
    }
}

// Commands are the characters of a text.
fn are_chars(rt: &impl Abort, commands: &[Command], text: &[u8]) {
    assert!(rt; commands.len() == text.len());
    for (command, byte) in commands.iter().zip(text) {
        assert!(rt; is_spelled(command, &[*byte]));
    }
}

#[test]
fn chars_of_refused(rt: HostRuntime) {
    let commands = chars_at_last(&rt, rt.alloc(), b"Hi");
    are_chars(&rt, &commands, b"Hi");
}

// A copy. Where memory is refused, it is made again.
fn copy_at_last<T: Clone>(rt: &impl Abort, value: &T) -> T {
    match value.clone() {
        Ok(copy) => copy,
        Err(_) => value.clone().expect(rt, "a copy"),
    }
}

#[test]
fn clone_refused(rt: HostRuntime) {
    let command = Command::Bars(barcode(rt.alloc()).expect(&rt, "a barcode"));
    assert!(&rt; is_spelled(&copy_at_last(&rt, &command), BARCODE));
    let command = Command::Raster(picture(rt.alloc()).expect(&rt, "a raster"));
    assert!(&rt; is_spelled(&copy_at_last(&rt, &command), PICTURE));
    assert!(&rt; is_spelled(&command, PICTURE));
    let command = Command::QrStore(stored(rt.alloc()).expect(&rt, "the data of a QR code"));
    assert!(&rt; is_spelled(&copy_at_last(&rt, &command), STORE));
    assert!(&rt; is_spelled(&command, STORE));
    let command = Command::GraphicsStore(stored_graphics(rt.alloc()).expect(&rt, "graphics"));
    assert!(&rt; is_spelled(&copy_at_last(&rt, &command), GRAPHICS));
    assert!(&rt; is_spelled(&command, GRAPHICS));
}

// The same by the law.
fn same_at_last(rt: &impl Abort, command: &Command) -> Command {
    match laws::same_clone(command) {
        Ok(same) => same,
        Err(_) => laws::same_clone(command).expect(rt, "a copy"),
    }
}

#[test]
fn same_clone_refused(rt: HostRuntime) {
    let command = Command::Bars(barcode(rt.alloc()).expect(&rt, "a barcode"));
    assert!(&rt; is_spelled(&same_at_last(&rt, &command), BARCODE));
    assert!(&rt; is_spelled(&command, BARCODE));
    let command = Command::QrStore(stored(rt.alloc()).expect(&rt, "the data of a QR code"));
    assert!(&rt; is_spelled(&same_at_last(&rt, &command), STORE));
}

#[test]
fn contents_clone_refused(rt: HostRuntime) {
    let bars = barcode(rt.alloc()).expect(&rt, "a barcode");
    let copy = copy_at_last(&rt, &bars);
    assert!(&rt; is_spelled(&Command::Bars(copy), BARCODE));
    let raster = picture(rt.alloc()).expect(&rt, "a raster");
    let copy = copy_at_last(&rt, &raster);
    assert!(&rt; is_spelled(&Command::Raster(copy), PICTURE));
    let copy = copy_at_last(&rt, &raster.into_dots());
    assert!(&rt; copy.as_slice() == b"\xF0\x0F".as_slice());
    let data = stored(rt.alloc()).expect(&rt, "the data of a QR code");
    let copy = copy_at_last(&rt, &data);
    assert!(&rt; is_spelled(&Command::QrStore(copy), STORE));
    assert!(&rt; is_spelled(&Command::QrStore(data), STORE));
    let pictures = stored_graphics(rt.alloc()).expect(&rt, "graphics");
    let copy = copy_at_last(&rt, &pictures);
    assert!(&rt; is_spelled(&Command::GraphicsStore(copy), GRAPHICS));
    assert!(&rt; is_spelled(&Command::GraphicsStore(pictures), GRAPHICS));
    let stops = tab_stops(rt.alloc()).expect(&rt, "tab stops");
    let copy = copy_at_last(&rt, &stops);
    assert!(&rt; is_spelled(&Command::TabStops(copy), STOPS));
    assert!(&rt; is_spelled(&Command::TabStops(stops), STOPS));
}
