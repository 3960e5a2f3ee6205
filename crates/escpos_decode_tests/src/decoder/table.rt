//! The whole command table: each byte at each place, the least and the greatest parameters, and long streams.

use crate::support::comparison::{agrees, agrees_with_neighbours};
use crate::support::decoders::{BAD, decode_all, reads_one, refuses_last};
use escpos_command::{FaultReason, laws};
use escpos_decode::End;
use escpos_test_values::spellings;
use std::alloc::Global;
use std::process::Abort;

// Each byte after each prefix of the spellings from this place to that one: every byte that the table doesn't have there among
// them.
fn every_byte_follows(rt: &impl Abort, alloc: Global, from: usize, to: usize) {
    for spelling in spellings().get(from..to).expect(rt, "spellings") {
        let _ = reads_one(rt, alloc, spelling);
        agrees_with_neighbours(rt, alloc, spelling);
    }
}

#[test]
fn every_byte_after_each_prefix(rt: HostRuntime) {
    every_byte_follows(&rt, rt.alloc(), 0, 28);
}

#[test]
fn every_byte_in_barcodes_of_form_a(rt: HostRuntime) {
    every_byte_follows(&rt, rt.alloc(), 28, 31);
}

#[test]
fn every_byte_in_code39_of_form_a(rt: HostRuntime) {
    every_byte_follows(&rt, rt.alloc(), 31, 32);
}

#[test]
fn every_byte_in_itf_of_form_a(rt: HostRuntime) {
    every_byte_follows(&rt, rt.alloc(), 32, 33);
}

#[test]
fn every_byte_in_codabar_of_form_a(rt: HostRuntime) {
    every_byte_follows(&rt, rt.alloc(), 33, 34);
}

#[test]
fn every_byte_in_barcodes_of_form_b(rt: HostRuntime) {
    every_byte_follows(&rt, rt.alloc(), 34, 41);
}

#[test]
fn every_byte_in_rasters(rt: HostRuntime) {
    every_byte_follows(&rt, rt.alloc(), 41, 45);
}

#[test]
fn every_byte_in_qr_codes(rt: HostRuntime) {
    every_byte_follows(&rt, rt.alloc(), 45, 50);
}

#[test]
fn every_byte_in_settings_of_the_fourth_profile(rt: HostRuntime) {
    every_byte_follows(&rt, rt.alloc(), 50, 59);
}

#[test]
fn every_byte_in_positions(rt: HostRuntime) {
    every_byte_follows(&rt, rt.alloc(), 59, 67);
}

#[test]
fn every_byte_in_barcodes_of_the_fourth_profile(rt: HostRuntime) {
    every_byte_follows(&rt, rt.alloc(), 67, 71);
}

#[test]
fn every_byte_in_graphics(rt: HostRuntime) {
    every_byte_follows(&rt, rt.alloc(), 71, 74);
}

#[test]
fn every_byte_in_long_graphics(rt: HostRuntime) {
    every_byte_follows(&rt, rt.alloc(), 74, 75);
}

#[test]
fn all_spellings_in_one_stream(rt: HostRuntime) {
    let mut stream = Vec::new(rt.alloc());
    for spelling in spellings() {
        stream.extend_from_slice(spelling).expect(&rt, "memory");
    }
    assert!(&rt; spellings().len() == 75);
    agrees(&rt, rt.alloc(), &stream);
}

// After these bytes each spelling is read as at the start of a stream.
fn begins_anew(rt: &impl Abort, alloc: Global, half: &[u8]) {
    for next in spellings() {
        let mut stream = half.to_vec(alloc).expect(rt, "memory");
        stream.extend_from_slice(next).expect(rt, "memory");
        agrees(rt, alloc, &stream);
    }
}

// After each fault the next byte begins a command: spellings without their last byte, each followed by a whole one.
#[test]
fn begins_anew_after_a_fault(rt: HostRuntime) {
    for spelling in spellings() {
        let (_, half) = spelling.split_last().expect(&rt, "spelling");
        begins_anew(&rt, rt.alloc(), half);
    }
}

// The bytes before a parameter, the parameters that are read there (the least and the greatest, and the
// ends of each range between them), and their nearest neighbours, which are refused.
const PARAMETERS: [(&[u8], &[u8], &[u8]); 40] = [
    (&[0x1B, 0x20], &[0, 255], &[]),
    (&[0x1B, 0x72], &[0, 1, 48, 49], &[2, 47, 50]),
    (&[0x1B, 0x56], &[0, 2, 48, 50], &[3, 47, 51]),
    (&[0x1B, 0x24, 0], &[0, 255], &[]),
    (&[0x1B, 0x24, 255], &[0, 255], &[]),
    (&[0x1B, 0x5C, 255], &[0, 127, 128, 255], &[]),
    (&[0x1D, 0x4C, 255], &[0, 255], &[]),
    (&[0x1D, 0x57, 255], &[0, 255], &[]),
    (&[0x1B, 0x44], &[0], &[]),
    (&[0x1B, 0x44, 1, 254, 255], &[0], &[1, 254, 255]),
    (&[0x1B, 0x21], &[0, 255], &[]),
    (&[0x1B, 0x2D], &[0, 2, 48, 50], &[3, 47, 51]),
    (&[0x1B, 0x33], &[0, 255], &[]),
    (&[0x1B, 0x45], &[0, 255], &[]),
    (&[0x1B, 0x47], &[0, 255], &[]),
    (&[0x1B, 0x4D], &[0, 1, 48, 49], &[2, 47, 50]),
    (&[0x1B, 0x52], &[0, 17], &[18, 255]),
    (&[0x1B, 0x61], &[0, 2, 48, 50], &[3, 47, 51]),
    (&[0x1B, 0x64], &[0, 255], &[]),
    (&[0x1B, 0x74], &[0, 255], &[]),
    (&[0x1B, 0x7B], &[0, 255], &[]),
    (
        &[0x1D, 0x21],
        &[0x00, 0x07, 0x70, 0x77],
        &[0x08, 0x78, 0x80],
    ),
    (&[0x1D, 0x42], &[0, 255], &[]),
    (&[0x1D, 0x48], &[0, 3, 48, 51], &[4, 47, 52]),
    (
        &[0x1D, 0x56],
        &[0, 1, 48, 49],
        &[2, 47, 50, 64, 67, 96, 99, 102, 105],
    ),
    (&[0x1D, 0x56, 65], &[0, 255], &[]),
    (&[0x1D, 0x56, 66], &[0, 255], &[]),
    (&[0x1D, 0x56, 97], &[0, 255], &[]),
    (&[0x1D, 0x56, 104], &[0, 255], &[]),
    (&[0x1D, 0x62], &[0, 255], &[]),
    (&[0x1D, 0x66], &[0, 1, 48, 49], &[2, 47, 50]),
    (&[0x1D, 0x68], &[1, 255], &[0]),
    (&[0x1D, 0x77], &[2, 6], &[1, 7]),
    (&[0x10, 0x04], &[1, 4], &[0, 5]),
    (b"\x1D(H\x06\x0000000", &[32, 126], &[31, 127]),
    (b"\x1D(k\x03\x001C", &[1, 16], &[0, 17, 255]),
    (b"\x1D(k\x03\x001E", &[48, 51], &[0, 47, 52]),
    (b"\x1D(k\x03\x001Q", &[48], &[0, 47, 49]),
    (&[], &[0x20, 0xFF], &[]),
    (&[], &[0x0A, 0x0D], &[]),
];

fn parameters() -> &'static [(&'static [u8], &'static [u8], &'static [u8])] {
    &PARAMETERS
}

#[test]
fn least_and_greatest_parameters(rt: HostRuntime) {
    for (before, read, refused) in parameters() {
        let mut bytes = before.to_vec(rt.alloc()).expect(&rt, "memory");
        bytes.push(0).expect(&rt, "memory");
        reads_with_parameters(&rt, rt.alloc(), &mut bytes, read);
        refuses_parameters(&rt, rt.alloc(), &mut bytes, refused);
    }
    for first in [0x06, 0x0B, 0x0C, 0x0E, 0x0F, 0x11, 0x1A, 0x1E, 0x1F] {
        refuses_last(&rt, rt.alloc(), &[first], FaultReason::UnknownByte);
    }
    for first in [0x10, 0x1B, 0x1C, 0x1D] {
        refuses_last(&rt, rt.alloc(), &[first, 0x05], FaultReason::UnknownCommand);
    }
}

// The bytes spell a command with each of these as their last one.
fn reads_with_parameters(rt: &impl Abort, alloc: Global, bytes: &mut [u8], parameters: &[u8]) {
    for parameter in parameters {
        set_last(bytes, *parameter);
        let _ = reads_one(rt, alloc, bytes);
    }
}

// Each of these is refused as the last of the bytes.
fn refuses_parameters(rt: &impl Abort, alloc: Global, bytes: &mut [u8], parameters: &[u8]) {
    for parameter in parameters {
        set_last(bytes, *parameter);
        refuses_last(rt, alloc, bytes, BAD);
    }
}

fn set_last(bytes: &mut [u8], byte: u8) {
    if let Some(last) = bytes.last_mut() {
        *last = byte;
    }
}

// These pieces give so many commands, and end so.
fn gives_so_many(rt: &impl Abort, alloc: Global, pieces: &[&[u8]], count: usize, end: End) {
    let decoded = decode_all(alloc, pieces).expect(rt, "memory");
    assert!(rt; decoded.commands.len() == count);
    assert!(rt; decoded.end == end);
}

// Many commands in many pieces, and a fault far into the stream.
#[test]
fn long_streams(rt: HostRuntime) {
    let piece = [0x0D; 100_000].as_slice();
    let end = End::Read { half: 0 };
    gives_so_many(&rt, rt.alloc(), &[piece; 5], 500_000, end);
    let why = FaultReason::UnknownCommand;
    let end = End::Fault { at: 200_003, why };
    let refused: [&[u8]; 5] = [piece, &[0x1B], &[0x40], piece, &[0x1D, 0x06]];
    gives_so_many(&rt, rt.alloc(), &refused, 200_001, end);
}

// Each kind of command clones to itself.
#[test]
fn clones(rt: HostRuntime) {
    for spelling in spellings() {
        let command = reads_one(&rt, rt.alloc(), spelling);
        let clone = laws::same_clone(&command).expect(&rt, "memory");
        assert!(rt; clone == command);
    }
}
