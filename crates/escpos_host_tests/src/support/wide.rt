//! Receipts of rasters of 128 bytes a row.

use escpos_command::{Command, Raster};
use escpos_host::{Host, Receipt};
use std::alloc::Global;

/// A raster of 128 bytes a row: Init and its head, how many rows it has, and how many bytes of dots.
pub type Wide = (&'static [u8], u16, usize);

fn dot(at: usize) -> u8 {
    (at % 251) as u8
}

fn receipt_of(alloc: Global, (_, rows, count): Wide) -> Option<Receipt> {
    let mut dots = Vec::with_capacity(alloc, count).ok()?;
    for at in 0..count {
        dots.push(dot(at)).ok()?;
    }
    let raster = Raster::new(0, 128, rows, dots).ok()?;
    let mut commands = Vec::new(alloc);
    commands.push(Command::Raster(raster)).ok()?;
    Receipt::new(commands).ok()
}

/// Whether the receipt of a raster is submitted.
pub fn submits_wide(host: &mut Host, alloc: Global, raster: Wide) -> bool {
    match receipt_of(alloc, raster) {
        Some(receipt) => host.submit(receipt).is_ok(),
        None => false,
    }
}

// What goes out of the receipt at this place: Init, the raster and the closing mark.
fn byte_of((head, _, count): Wide, at: usize) -> u8 {
    if let Some(byte) = head.get(at) {
        return *byte;
    }
    let place = at.saturating_sub(head.len());
    match b"\x1D(H\x06\x00000001".get(place.saturating_sub(count)) {
        Some(byte) if place >= count => *byte,
        _ => dot(place),
    }
}

/// Whether so many bytes of the receipt go out, a hundred at a time, and then no more.
pub fn puts_out_wide(host: &mut Host, raster: Wide, length: usize) -> bool {
    let mut at = 0;
    for _ in 0..5_242 {
        match puts_out_at(host, raster, at) {
            Some(count) => at = count.saturating_add(at),
            None => return false,
        }
    }
    at == length && !host.has_out()
}

// The number of bytes that go out at this place; `None` if they are others.
fn puts_out_at(host: &mut Host, raster: Wide, at: usize) -> Option<usize> {
    let mut room = [0; 100];
    let count = host.take_out(&mut room);
    for (place, byte) in room.get(..count)?.iter().enumerate() {
        if *byte != byte_of(raster, place.saturating_add(at)) {
            return None;
        }
    }
    Some(count)
}
