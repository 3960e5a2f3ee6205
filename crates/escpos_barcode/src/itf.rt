//! ITF: digits two by two, one in bars and one in the spaces between them. (ISO/IEC 16390.)

ghost use Rattle.std.specs.Prelude.{◌≡◌, ◌%◌, length, is_some, IsTrue};
ghost use Rattle.std.specs.List.{list_all};
ghost use Rattle.escpos_command.specs.Barcodes.{is_digit};
ghost use Rattle.escpos_barcode.specs.Elements.{is_itf_content, itf, interleaved, pairs};
ghost use Rattle.escpos_barcode.specs.Pen.{draw, attempt};
ghost use Rattle.escpos_barcode.specs.Tables.{row, itf_digits};

use crate::pen::Pen;
use crate::tables::itf_digit;
use crate::upc::all_digits;

/// Draws an even number of digits, at least 2. `false`: the content isn't that, and nothing is drawn.
pub fn draw_itf(pen: &mut Pen, content: &[u8]) -> bool
    ensures answer { result ≡ is_some (itf content.now) }
    ensures drawn { pen.new ≡ attempt pen.old (itf content.now) }
{
    if !is_itf_content(content) {
        return false;
    }
    pen.draw(&[1, 1, 1, 1]);
    draw_pairs(pen, content);
    pen.draw(&[2, 1, 1]);
    true
}

// Whether it is an even number of digits, at least 2.
fn is_itf_content(content: &[u8]) -> bool
    ensures { result ≡ is_itf_content content.now }
{
    content.len() >= 2 && content.len() % 2 == 0 && all_digits(content)
}

// Draws digits two by two.
fn draw_pairs(pen: &mut Pen, digits: &[u8])
    requires digits { IsTrue (list_all is_digit digits.now) }
    requires even { length digits.now % 2 ≡ 0 }
    ensures { pen.new ≡ draw pen.old (pairs digits.now) }
{
    for pair in 0..digits.len() / 2 {
        draw_pair(pen, digits[2 * pair], digits[2 * pair + 1]);
    }
}

// Draws one digit in the bars and one in the spaces.
fn draw_pair(pen: &mut Pen, first: u8, second: u8)
    requires first { IsTrue (is_digit first) }
    requires second { IsTrue (is_digit second) }
    ensures { pen.new ≡ draw pen.old (interleaved (row itf_digits first) (row itf_digits second)) }
{
    let bars = itf_digit(first);
    let spaces = itf_digit(second);
    for place in 0..bars.len() {
        pen.draw(&[bars[place], spaces[place]]);
    }
}
