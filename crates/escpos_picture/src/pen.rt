//! Where the next item is drawn: how far down the paper each item goes.

ghost use Rattle.std.specs.Prelude.{◌≡◌, ◌*◌, ◌≤◌};
ghost use Rattle.escpos_command.specs.declared.line_width.TheConstants.{MOST_LINE_DOTS};
ghost use Rattle.escpos_picture.specs.Places.{Place, top, place_after, place_after_all, depth, row_above, face_height, cell_height, style_height, tallest, text_lines, across, downwards, line_depth, feed_depth, free_left, indent, turned_end, whole_line};
ghost use Rattle.escpos_paper.specs.Dots.{margin_dots};

use crate::qr::qr_height;
use escpos_command::{Alignment, FontFace, HriPosition, LineWidth, Scale};
use escpos_paper::{Cell, Item, Placing, Style, face_dots};
use std::marker::Model;

/// As far down as places are counted, in quarters of a dot: no paper comes near.
pub const DEEPEST: usize = 1 << 62;

const _: () = prove!(DEEPEST == 4_611_686_018_427_387_904);

/// The default line spacing, in quarters of a dot: a sixth of an inch, of 180 dots to the inch. (Reference: ESC 2.)
const LINE_SPACING: usize = 4 * 30;

const _: () = prove!(LINE_SPACING == 120);

/// The margin on each side of the paper's lines, and above and below them, in dots.
pub const MARGIN: usize = 32;

const _: () = prove!(MARGIN == 32);

/// The place where the next item is drawn, on lines of a width.
#[derive(Drop)]
pub struct Pen {
    width: LineWidth,
    down: usize,
    above: usize,
}

impl Model for Pen {
    ghost use Rattle.std.specs.Prelude.{◌≤◌};
    ghost use Rattle.escpos_picture.specs.Places.{Place};
    ghost use Rattle.escpos_picture.specs.declared.pen.TheConstants.{DEEPEST};

    ghost Value = { Place };

    ghost view = { λ p. record { line_dots = p.width; down = p.down; above = p.above } };

    ghost invariant = { λ p. (p.down ≤ DEEPEST) × (p.above ≤ 6120) };
}

impl Pen {
    /// The place of the first item, on lines of this width.
    pub fn new(width: LineWidth) -> Self
        ensures { result ≡ top width }
    {
        Pen {
            width,
            down: 0,
            above: 0,
        }
    }

    /// How wide a line is.
    pub fn line_width(&self) -> LineWidth
        ensures { result ≡ self.now.line_dots }
    {
        self.width
    }

    /// How far down the paper the place is, in quarters of a dot, counted from the first item.
    pub fn down(&self) -> usize
        ensures value { result ≡ self.now.down }
        ensures small { result ≤ DEEPEST }
    {
        self.down
    }

    /// Goes on to the place of what comes after these items.
    pub fn pass_all(&mut self, items: &[Item])
        ensures { self.new ≡ place_after_all self.old items.now }
    {
        for item in items {
            self.pass(item);
        }
    }

    /// Goes on to the place of what comes after `item`.
    pub fn pass(&mut self, item: &Item)
        ensures { self.new ≡ place_after self.old item.now }
    {
        let above = row_above(item);
        self.down = (self.down + depth(self.width, self.above, item)).min(DEEPEST);
        self.above = above;
    }
}

// What an item takes down the paper, in quarters of a dot, under a row that is this tall.
fn depth(width: LineWidth, above: usize, item: &Item) -> usize
    requires { above ≤ 6120 }
    ensures value { result ≡ depth width above item.now }
    ensures small { result ≤ 524280 }
{
    match item {
        Item::Row { cells, .. } => 4 * tallest(cells.as_slice()),
        Item::Feed { lines, spacing } => feed_depth(line_depth(*spacing), above, *lines),
        Item::FeedUnits(units) => 2 * usize::from(*units),
        Item::Bars {
            height,
            place,
            hri_font,
            ..
        } => 4 * (usize::from(*height) + text_lines(*place) * face_height(*hri_font)),
        Item::Raster { scale, y, .. } => 4 * (downwards(*scale) * usize::from(*y)),
        Item::Qr {
            size,
            level,
            content,
            ..
        } => 4 * qr_height(width, *size, *level, content.as_slice()),
        Item::Cut { feed, .. } => {
            if let Some(units) = feed {
                2 * usize::from(*units) + 96
            } else {
                96
            }
        }
    }
}

// The height of an item if it is a row, otherwise 0.
fn row_above(item: &Item) -> usize
    ensures value { result ≡ row_above item.now }
    ensures small { result ≤ 6120 }
{
    match item {
        Item::Row { cells, .. } => tallest(cells.as_slice()),
        _ => 0,
    }
}

// How deep a line of this spacing is, in quarters of a dot. A motion unit is half a dot.
fn line_depth(spacing: Option<u8>) -> usize
    ensures value { result ≡ line_depth spacing }
    ensures small { result ≤ 510 }
{
    match spacing {
        None => LINE_SPACING,
        Some(units) => 2 * usize::from(units),
    }
}

// A feed of this many lines, each this deep, under a row that is this tall: in quarters of a dot.
fn feed_depth(line: usize, above: usize, lines: u8) -> usize
    requires shallow { line ≤ 510 }
    requires small { above ≤ 6120 }
    ensures value { result ≡ feed_depth line above lines }
    ensures small { result ≤ 130050 }
{
    if lines == 0 {
        return 0;
    }
    line.saturating_sub(4 * above) + line * (usize::from(lines) - 1)
}

/// How high a character of the font is at height 1, in dots.
pub fn face_height(face: FontFace) -> usize
    ensures value { result ≡ face_height face }
    ensures small { result ≤ 24 }
{
    match face {
        FontFace::A => 24,
        FontFace::B => 17,
    }
}

/// How tall the tallest of these cells is, in dots.
pub fn tallest(cells: &[Cell]) -> usize
    ensures value { result ≡ tallest cells.now }
    ensures small { result ≤ 6120 }
{
    let mut height = 0;
    for cell in cells {
        height = cell_height(cell).max(height);
    }
    height
}

// How tall a cell is, in dots.
fn cell_height(cell: &Cell) -> usize
    ensures value { result ≡ cell_height cell.now }
    ensures small { result ≤ 6120 }
{
    style_height(&cell.style)
}

/// How high a character of a style is, in dots.
pub fn style_height(style: &Style) -> usize
    ensures value { result ≡ style_height style.now }
    ensures small { result ≤ 6120 }
{
    if style.turned {
        face_dots(style.font) * usize::from(style.width)
    } else {
        face_height(style.font) * usize::from(style.height)
    }
}

/// How many lines of text stand beside a barcode.
pub fn text_lines(place: HriPosition) -> usize
    ensures value { result ≡ text_lines place }
    ensures small { result ≤ 2 }
{
    match place {
        HriPosition::Nowhere => 0,
        HriPosition::Above | HriPosition::Below => 1,
        HriPosition::Both => 2,
    }
}

/// How many dots a dot of a raster takes across the paper.
pub fn across(scale: Scale) -> usize
    ensures value { result ≡ across scale }
    ensures small { result ≤ 2 }
{
    match scale {
        Scale::Normal | Scale::Tall => 1,
        Scale::Wide | Scale::Both => 2,
    }
}

/// How many dots a dot of a raster takes down the paper.
pub fn downwards(scale: Scale) -> usize
    ensures value { result ≡ downwards scale }
    ensures small { result ≤ 2 }
{
    match scale {
        Scale::Normal | Scale::Wide => 1,
        Scale::Tall | Scale::Both => 2,
    }
}

/// How many dots of a line are left free to the left of something this many dots wide.
pub fn indent(width: LineWidth, placing: Placing, dots: usize) -> usize
    ensures value { result ≡ indent width placing dots }
    ensures within { result ≤ width }
    ensures small { result ≤ MOST_LINE_DOTS }
{
    let line = usize::from(width.dots());
    let free = free_left(placing.side, placing.area_dots(width).saturating_sub(dots));
    (margin(width, placing) + free).min(line.saturating_sub(dots))
}

/// Where something this many dots wide ends that is turned with the printing area.
pub fn turned_end(width: LineWidth, placing: Placing, dots: usize) -> usize
    ensures value { result ≡ turned_end width placing dots }
    ensures small { result ≤ MOST_LINE_DOTS }
{
    let line = usize::from(width.dots());
    let area = placing.area_dots(width);
    let free = free_left(placing.side, area.saturating_sub(dots));
    (margin(width, placing) + area.saturating_sub(free))
        .max(dots)
        .min(line)
}

// The margin of a line.
fn margin(width: LineWidth, placing: Placing) -> usize
    ensures value { result ≡ margin_dots width placing }
    ensures small { result ≤ MOST_LINE_DOTS }
{
    usize::from(placing.margin.min(width.dots()))
}

// How many of these free dots stand to the left.
fn free_left(side: Alignment, free: usize) -> usize
    ensures value { result ≡ free_left side free }
    ensures within { result ≤ free }
{
    match side {
        Alignment::Left => 0,
        Alignment::Center => free / 2,
        Alignment::Right => free,
    }
}

/// All of the line, at its left end.
pub fn whole_line() -> Placing
    ensures { result ≡ whole_line }
{
    Placing {
        side: Alignment::Left,
        margin: 0,
        width: None,
    }
}
