//! Floyd and Steinberg's error diffusion: `specs/Diffusion.antt` says what it is.

ghost use Rattle.std.specs.Prelude.{◌≡◌, ◌+◌, ◌≤◌, ◌*◌, ◌++◌, length, map, slice_index_or, IfOk, OnOk, vec_len};
ghost use Rattle.escpos_image.specs.Diffusion.{wanted, is_black, error, whole_row, diffused_rows};
ghost use Rattle.escpos_image.specs.Shading.{diffused};

use crate::picture::GrayPicture;
use crate::samples::WHITE;
use std::alloc::{AllocError, Global};

/// What stands for no error: it is added to each, so that none is negative.
pub const NO_ERROR: u8 = 128;

/// Half of white: a dot that should show less is black.
pub const HALF: usize = 128;

const _: () = prove!(NO_ERROR == 128 && HALF == 128);

/// The dots of a picture by error diffusion, true for black, row by row.
#[tactic(auto, unfolding(crate::specs::Shading::diffused))]
pub fn diffused(alloc: Global, picture: &GrayPicture) -> Result<Vec<bool>, AllocError>
    ensures dots { IfOk result (λ dots. dots.items ≡ diffused picture.now) }
    ensures whole { IfOk result (λ dots. length dots.items ≡ picture.now.width * picture.now.height) }
{
    let width = picture.width();
    let grays = picture.grays();
    let mut dots = Vec::new(alloc);
    let mut errors = vec![in alloc; NO_ERROR; width]?;
    for j in 0..picture.height() {
        put_row(&grays[j * width..j * width + width], &mut errors, &mut dots)?;
    }
    Ok(dots)
}

// Appends the dots of a row with these errors above it, and leaves those of the row.
fn put_row(grays: &[u8], errors: &mut Vec<u8>, dots: &mut Vec<bool>) -> Result<(), AllocError>
    requires { length grays.now ≡ vec_len errors.old }
    ensures dots { OnOk result (dots.new.items ≡ dots.old.items ++ map is_black (whole_row errors.old.items grays.now)) }
    ensures errors { OnOk result (errors.new.items ≡ map error (whole_row errors.old.items grays.now)) }
    ensures longer { OnOk result (length dots.new.items ≡ length dots.old.items + vec_len errors.old) }
    ensures same_count { OnOk result (vec_len errors.new ≡ vec_len errors.old) }
{
    let mut left = NO_ERROR;
    let mut above_left = NO_ERROR;
    for (i, gray) in grays.iter().enumerate() {
        let above = errors[i];
        let want = wanted(*gray, left, above_left, above, error_at(errors, i + 1));
        dots.push(is_black(want))?;
        left = error(want);
        above_left = above;
        errors[i] = left;
    }
    Ok(())
}

// The error of the dot in this column, or none if there is no such dot.
fn error_at(errors: &Vec<u8>, i: usize) -> u8
    ensures { result ≡ slice_index_or errors.now.items i NO_ERROR }
{
    if i < errors.len() {
        errors[i]
    } else {
        NO_ERROR
    }
}

// What a dot should show, by its gray value and the errors of its neighbours.
fn wanted(gray: u8, left: u8, above_left: u8, above: u8, above_right: u8) -> usize
    ensures value { result ≡ wanted gray left above_left above above_right }
    ensures most { result ≤ 2 * WHITE }
{
    let errors = 7 * usize::from(left)
        + usize::from(above_left)
        + 5 * usize::from(above)
        + 3 * usize::from(above_right);
    usize::from(gray) + errors / 16
}

// Whether a dot is black that should show so much.
fn is_black(want: usize) -> bool
    ensures { result ≡ is_black want }
{
    want < HALF + usize::from(NO_ERROR)
}

// The error of a dot that should show so much.
fn error(want: usize) -> u8
    requires { want ≤ 2 * WHITE }
    ensures { result ≡ error want }
{
    if is_black(want) {
        want as u8
    } else {
        (want - WHITE) as u8
    }
}
