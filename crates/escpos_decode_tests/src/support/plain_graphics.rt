//! Graphics in the command table, read plainly as in `plain`: what bytes after the letters of GS ( L and GS 8 L are.

use escpos_command::{Command, FaultReason, Graphics, GraphicsForm, GraphicsHead};
use std::alloc::Global;
use std::process::Abort;

/// The graphics that these bytes spell after a length in this form.
pub fn graphics_spelled(
    rt: &impl Abort,
    alloc: Global,
    form: GraphicsForm,
    length: [u8; 4],
    rest: &[u8],
) -> Option<Command> {
    let [
        b'0',
        b'p',
        b'0',
        across @ (1 | 2),
        down @ (1 | 2),
        b'1',
        x_low,
        x_high,
        y_low,
        y_high,
        dots @ ..,
    ] = rest
    else {
        return None;
    };
    let head = GraphicsHead {
        form,
        across: *across,
        down: *down,
        width: u16::from_le_bytes([*x_low, *x_high]),
        height: u16::from_le_bytes([*y_low, *y_high]),
    };
    let has_size = is_within([*x_low, *x_high], 1024) && is_within([*y_low, *y_high], 4095);
    if !has_size || !is_length(form, length) || counted(length) != dots.len() {
        return None;
    }
    let dots = dots.to_vec(alloc).expect(rt, "memory");
    let graphics = Graphics::new(head, dots).ok();
    Some(Command::GraphicsStore(graphics.expect(rt, "graphics of the table")))
}

// Whether function 112 may have this length in this form.
fn is_length(form: GraphicsForm, length: [u8; 4]) -> bool {
    let most = match form {
        GraphicsForm::Short => 65_535,
        GraphicsForm::Long => 524_170,
    };
    let length = u32::from_le_bytes(length);
    11 <= length && length <= most
}

// How many bytes of dots a length counts.
fn counted(length: [u8; 4]) -> usize {
    u32::from_le_bytes(length).saturating_sub(10) as usize
}

/// Whether these bytes begin a function of graphics after GS ( L, and aren't one.
pub fn begins_graphics(rest: &[u8]) -> bool {
    match rest {
        [] | [_] | [2, 0] | [2, 0, b'0'] => true,
        [a, b, rest @ ..] => {
            let length = [*a, *b, 0, 0];
            is_length(GraphicsForm::Short, length) && begins_picture(rest, counted(length))
        }
    }
}

/// The same after GS 8 L.
pub fn begins_long_graphics(rest: &[u8]) -> bool {
    match rest {
        [] | [_] | [_, _] => true,
        [a, b, c] => is_length(GraphicsForm::Long, [*a, *b, *c, 0]),
        [a, b, c, d, rest @ ..] => {
            let length = [*a, *b, *c, *d];
            is_length(GraphicsForm::Long, length) && begins_picture(rest, counted(length))
        }
    }
}

// Whether these bytes begin what follows a length that counts so many bytes of dots, and aren't all of it.
fn begins_picture(rest: &[u8], count: usize) -> bool {
    match rest.split_at_checked(10) {
        Some((head, dots)) => is_head(head) && dots.len() < count,
        None => is_head(rest),
    }
}

// Whether these bytes, at most ten, begin what stands between the length and the dots: 30 70 30, two factors, 31 and the size.
fn is_head(bytes: &[u8]) -> bool {
    for (place, byte) in bytes.iter().enumerate() {
        let fits = match place {
            0 | 2 => *byte == b'0',
            1 => *byte == b'p',
            3 | 4 => *byte == 1 || *byte == 2,
            5 => *byte == b'1',
            // the high bytes of 1 to 1,024 and 1 to 4,095
            7 => is_within([bytes[6], *byte], 1024),
            9 => is_within([bytes[8], *byte], 4095),
            _ => true,
        };
        if !fits {
            return false;
        }
    }
    true
}

// Whether the number of these bytes, the low one first, is 1 to `most`.
fn is_within(bytes: [u8; 2], most: u16) -> bool {
    let number = u16::from_le_bytes(bytes);
    1 <= number && number <= most
}

/// Why a byte is refused that follows `at` bytes after the letters of graphics, whose length has so many bytes.
pub fn reason_in_graphics(at: usize, length: usize) -> FaultReason {
    match at.checked_sub(length) {
        // m and fn
        Some(0 | 1) => FaultReason::UnknownCommand,
        // the length, the tone, the factors and the colour
        None | Some(2..=5) => FaultReason::BadParameter,
        // the size
        _ => FaultReason::BadSize,
    }
}
