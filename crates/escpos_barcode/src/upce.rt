//! UPC-E: six digits between guards, for which the number system 0 and the check digit show in their number sets. (GS1 General
//! Specifications 5.2.)

ghost use Rattle.std.specs.Prelude.{◌≡◌, length, take, slice_index, is_some, nat_eq, IsTrue, MatchOption, None, Some};
ghost use Rattle.std.specs.Cmp.Lexicographic.{pointwise};
ghost use Rattle.std.specs.List.{list_all};
ghost use Rattle.escpos_command.specs.Barcodes.{is_digit};
ghost use Rattle.escpos_paper.specs.CheckDigit.{expanded};
ghost use Rattle.escpos_barcode.specs.Elements.{shortened, upce_parts, upce_elements, upce};
ghost use Rattle.escpos_barcode.specs.Pen.{draw, attempt};

use crate::pen::Pen;
use crate::tables::upce_parities_of;
use crate::upc::{all_digits, draw_left};
use escpos_paper::expanded;

/// Draws six digits and their check digit: of 7 digits, of 8 that begin with 0, or of 12 of UPC-A for which six can stand. `false`: the
/// content is none of these, and nothing is drawn.
pub fn draw_upce(pen: &mut Pen, content: &[u8]) -> bool
    ensures answer { result ≡ is_some (upce content.now) }
    ensures drawn { pen.new ≡ attempt pen.old (upce content.now) }
{
    if !all_digits(content) {
        return false;
    }
    let Some(seven) = seven_digits(content) else {
        return false;
    };
    draw_six(pen, &seven[..6], seven[6]);
    true
}

/// The six digits that are drawn, and the check digit: of 7 digits, of 8 that begin with 0, or of 12 of UPC-A for which six can stand.
pub fn seven_digits(content: &[u8]) -> Option<[u8; 7]>
    ensures { MatchOption result (upce_parts content.now ≡ None) (λ seven. upce_parts content.now ≡ Some (take 6 seven, slice_index seven 6)) }
{
    if content.len() == 7 {
        return Some([
            content[0], content[1], content[2], content[3], content[4], content[5], content[6],
        ]);
    }
    if content.len() == 8 && content[0] == b'0' {
        return Some([
            content[1], content[2], content[3], content[4], content[5], content[6], content[7],
        ]);
    }
    if content.len() != 12 {
        return None;
    }
    match shortened(&content[..11]) {
        Some(six) => {
            let [a, b, c, d, e, f] = six;
            Some([a, b, c, d, e, f, content[11]])
        }
        None => None,
    }
}

// The six digits that stand for eleven of UPC-A: of the ways to leave out zeros, the first that does. `None`: too few of the eleven
// are zeros.
fn shortened(digits: &[u8]) -> Option<[u8; 6]>
    requires { length digits.now ≡ 11 }
    ensures { MatchOption result (shortened digits.now ≡ None) (λ six. shortened digits.now ≡ Some six) }
{
    let last = digits[10];
    let six = [digits[1], digits[2], digits[8], digits[9], last, digits[3]];
    if stands_for(six, digits) {
        return Some(six);
    }
    let six = [digits[1], digits[2], digits[3], digits[9], last, b'3'];
    if stands_for(six, digits) {
        return Some(six);
    }
    let six = [digits[1], digits[2], digits[3], digits[4], last, b'4'];
    if stands_for(six, digits) {
        return Some(six);
    }
    let six = [digits[1], digits[2], digits[3], digits[4], digits[5], last];
    if stands_for(six, digits) {
        return Some(six);
    }
    None
}

// Whether six digits stand for these.
fn stands_for(six: [u8; 6], digits: &[u8]) -> bool
    ensures { result ≡ pointwise nat_eq (expanded six) digits.now }
{
    &expanded(six)[..] == digits
}

// Draws six digits in the number sets of their check digit.
fn draw_six(pen: &mut Pen, six: &[u8], check: u8)
    requires digits { IsTrue (list_all is_digit six.now) }
    requires check { IsTrue (is_digit check) }
    requires long { length six.now ≡ 6 }
    ensures { pen.new ≡ draw pen.old (upce_elements six.now check) }
{
    pen.draw(&[1, 1, 1]);
    draw_left(pen, upce_parities_of(check), six);
    pen.draw(&[1, 1, 1, 1, 1, 1]);
}
