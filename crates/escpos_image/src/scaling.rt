//! Scaling down: each dot of the smaller picture is the mean of a box of the larger one. The boxes lie side by side, so that each
//! gray value is read once.

ghost use Rattle.std.specs.Prelude.{◌≡◌, ◌+◌, ◌*◌, ◌≤◌, ◌<◌, ◌++◌, length, sum, OnOk, IfOk, vec_len};
ghost use Rattle.escpos_image.specs.Scaling.{scaled_height, edge, mean, scaled_row, scaled_rows};

use crate::header::GREATEST;
use crate::picture::GrayPicture;
use crate::samples::WHITE;
use std::alloc::{AllocError, Global};

/// The height in proportion of a picture that is scaled to a smaller width: at least a row.
pub fn scaled_height(width: usize, height: usize, to: usize) -> usize
    requires some { 1 ≤ to }
    requires smaller { to ≤ width }
    requires few { height ≤ GREATEST }
    requires rows { 1 ≤ height }
    requires narrow { to ≤ GREATEST }
    ensures value { result ≡ scaled_height width height to }
    ensures some { 1 ≤ result }
    ensures fewer { result ≤ height }
{
    (height * to / width).max(1)
}

/// The gray values of a picture scaled to this width and height, row by row.
pub fn scaled_grays(
    alloc: Global,
    picture: &GrayPicture,
    width: usize,
    height: usize,
) -> Result<Vec<u8>, AllocError>
    requires wide { 1 ≤ width }
    requires narrower { width ≤ picture.now.width }
    requires high { 1 ≤ height }
    requires lower { height ≤ picture.now.height }
    ensures grays { IfOk result (λ grays. grays.items
        ≡ scaled_rows picture.now width height height) }
    ensures whole { IfOk result (λ grays. length grays.items ≡ width * height) }
{
    let mut grays = Vec::new(alloc);
    for j in 0..height {
        put_scaled_row(picture, width, height, j, &mut grays)?;
    }
    Ok(grays)
}

// Appends row j.
#[tactic(auto, unfolding(crate::specs::Scaling::scaled_row))]
fn put_scaled_row(
    picture: &GrayPicture,
    width: usize,
    height: usize,
    j: usize,
    grays: &mut Vec<u8>,
) -> Result<(), AllocError>
    requires wide { 1 ≤ width }
    requires narrower { width ≤ picture.now.width }
    requires high { 1 ≤ height }
    requires lower { height ≤ picture.now.height }
    requires inside { j < height }
    ensures grays { OnOk result (grays.new.items
        ≡ grays.old.items ++ scaled_row picture.now width height j) }
    ensures longer { OnOk result (length grays.new.items ≡ length grays.old.items + width) }
{
    let top = edge(picture.height(), height, j);
    let bottom = edge(picture.height(), height, j + 1);
    for i in 0..width {
        let left = edge(picture.width(), width, i);
        let right = edge(picture.width(), width, i + 1);
        grays.push(mean(picture, left, right, top, bottom))?;
    }
    Ok(())
}

// Where box k begins, if so many places are cut into so many boxes; where the last one ends, if k is their number.
fn edge(places: usize, boxes: usize, k: usize) -> usize
    requires some { 1 ≤ boxes }
    requires fewer { boxes ≤ places }
    requires few { places ≤ GREATEST }
    requires inside { k ≤ boxes }
    ensures value { result ≡ edge places boxes k }
    ensures within { result ≤ places }
    ensures apart { k < boxes → result < edge places boxes (k + 1) }
{
    k * places / boxes
}

// The mean of a box, rounded down.
#[tactic(auto, unfolding(crate::specs::Scaling::mean))]
fn mean(picture: &GrayPicture, left: usize, right: usize, top: usize, bottom: usize) -> u8
    requires wide { left < right }
    requires right { right ≤ picture.now.width }
    requires high { top < bottom }
    requires bottom { bottom ≤ picture.now.height }
    ensures { result ≡ mean picture.now.width picture.now.grays left right top bottom }
{
    let grays = picture.grays();
    let mut total = 0;
    for y in top..bottom {
        let row = y * picture.width();
        total += row_sum(&grays[row + left..row + right]);
    }
    (total / ((right - left) * (bottom - top))) as u8
}

// The sum of the gray values of a part of a row.
fn row_sum(grays: &[u8]) -> usize
    requires few { length grays.now ≤ GREATEST }
    ensures value { result ≡ sum grays.now }
    ensures most { result ≤ WHITE * length grays.now }
{
    let mut total = 0;
    for gray in grays {
        total += usize::from(*gray);
    }
    total
}
