//! UPC-A, EAN-13 and EAN-8: two halves of digits between guards. (GS1 General Specifications 5.2.)

ghost use Rattle.std.specs.Prelude.{◌≡◌, ◌≤◌, length, flat_map, is_some, IsTrue};
ghost use Rattle.std.specs.List.{list_all};
ghost use Rattle.escpos_command.specs.Barcodes.{is_digit};
ghost use Rattle.escpos_barcode.specs.Elements.{are_digits, is_set, halves, in_sets, upca, ean8, ean13};
ghost use Rattle.escpos_barcode.specs.Pen.{draw, attempt};
ghost use Rattle.escpos_barcode.specs.Tables.{row, left_digits, right_digits};

use crate::pen::Pen;
use crate::tables::{left_digit, parities_of, right_digit};
use escpos_command::is_digit;

/// Draws 12 digits. `false`: the content isn't 12 digits, and nothing is drawn.
pub fn draw_upca(pen: &mut Pen, content: &[u8]) -> bool
    ensures answer { result ≡ is_some (upca content.now) }
    ensures drawn { pen.new ≡ attempt pen.old (upca content.now) }
{
    if !are_digits(content, 12) {
        return false;
    }
    draw_halves(pen, &[0, 0, 0, 0, 0, 0], content);
    true
}

/// Draws 8 digits. `false`: the content isn't 8 digits, and nothing is drawn.
pub fn draw_ean8(pen: &mut Pen, content: &[u8]) -> bool
    ensures answer { result ≡ is_some (ean8 content.now) }
    ensures drawn { pen.new ≡ attempt pen.old (ean8 content.now) }
{
    if !are_digits(content, 8) {
        return false;
    }
    draw_halves(pen, &[0, 0, 0, 0], content);
    true
}

/// Draws 13 digits, of which the first shows in the number sets of the left half. `false`: the content isn't 13 digits, and
/// nothing is drawn.
pub fn draw_ean13(pen: &mut Pen, content: &[u8]) -> bool
    ensures answer { result ≡ is_some (ean13 content.now) }
    ensures drawn { pen.new ≡ attempt pen.old (ean13 content.now) }
{
    if !are_digits(content, 13) {
        return false;
    }
    match content {
        [first, digits @ ..] => {
            draw_halves(pen, parities_of(*first), digits);
            true
        }
        [] => false,
    }
}

// Whether these are that many digits.
fn are_digits(content: &[u8], count: usize) -> bool
    ensures { result ≡ are_digits count content.now }
{
    content.len() == count && all_digits(content)
}

/// Whether all of these bytes are digits.
pub fn all_digits(content: &[u8]) -> bool
    ensures { result ≡ list_all is_digit content.now }
{
    content.iter().all(|byte| is_digit(*byte))
}

// Draws the guards and the halves; the left one has as many digits as there are number sets.
fn draw_halves(pen: &mut Pen, sets: &[u8], digits: &[u8])
    requires digits { IsTrue (list_all is_digit digits.now) }
    requires sets { IsTrue (list_all is_set sets.now) }
    requires long { length sets.now ≤ length digits.now }
    ensures { pen.new ≡ draw pen.old (halves sets.now digits.now) }
{
    let (left, right) = digits.split_at(sets.len());
    pen.draw(&[1, 1, 1]);
    draw_left(pen, sets, left);
    pen.draw(&[1, 1, 1, 1, 1]);
    draw_right(pen, right);
    pen.draw(&[1, 1, 1]);
}

/// Draws the digits of the left half in their number sets.
pub fn draw_left(pen: &mut Pen, sets: &[u8], digits: &[u8])
    requires digits { IsTrue (list_all is_digit digits.now) }
    requires sets { IsTrue (list_all is_set sets.now) }
    requires long { length sets.now ≡ length digits.now }
    ensures { pen.new ≡ draw pen.old (flat_map (row left_digits) (in_sets sets.now digits.now)) }
{
    for (place, digit) in digits.iter().enumerate() {
        pen.draw(left_digit(sets[place], *digit));
    }
}

// Draws the digits of the right half.
fn draw_right(pen: &mut Pen, digits: &[u8])
    requires { IsTrue (list_all is_digit digits.now) }
    ensures { pen.new ≡ draw pen.old (flat_map (row right_digits) digits.now) }
{
    for digit in digits {
        pen.draw(right_digit(*digit));
    }
}
