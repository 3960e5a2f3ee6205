//! CODE39 and CODABAR: characters with a narrow space between them. (ISO/IEC 16388, AIM BC3.)

ghost use Rattle.std.specs.Prelude.{◌≡◌, ◌∷◌, is_some};
ghost use Rattle.std.specs.List.{list_all};
ghost use Rattle.escpos_command.specs.Barcodes.{is_content};
ghost use Rattle.escpos_command.specs.declared.bars.Symbology.TheVariants as symbology;
ghost use Rattle.escpos_barcode.specs.Elements.{is_code39_content, code39, codabar, upper};
ghost use Rattle.escpos_barcode.specs.Pen.{draw, attempt};
ghost use Rattle.escpos_barcode.specs.Tables.{row, has_row, code39_data, code39_table, codabar_table};

use crate::pen::Pen;
use crate::tables::{codabar_pattern, code39_pattern, is_code39_data};
use escpos_command::Symbology;

/// Draws a content of CODE39 between asterisks. `false`: it is empty or has a character that CODE39 has not as data, and
/// nothing is drawn.
pub fn draw_code39(pen: &mut Pen, content: &[u8]) -> bool
    ensures answer { result ≡ is_some (code39 content.now) }
    ensures drawn { pen.new ≡ attempt pen.old (code39 content.now) }
{
    if !is_code39_content(content) {
        return false;
    }
    pen.draw(code39_pattern(b'*'));
    for byte in content {
        draw_code39_next(pen, *byte);
    }
    draw_code39_next(pen, b'*');
    true
}

// Whether it is not empty and CODE39 has all its characters as data.
fn is_code39_content(content: &[u8]) -> bool
    ensures { result ≡ is_code39_content content.now }
{
    !content.is_empty() && all_code39_data(content)
}

fn all_code39_data(content: &[u8]) -> bool
    ensures { result ≡ list_all (has_row code39_data) content.now }
{
    content.iter().all(|byte| is_code39_data(*byte))
}

// Draws a narrow space and a character.
fn draw_code39_next(pen: &mut Pen, byte: u8)
    ensures { pen.new ≡ draw pen.old (1 ∷ row code39_table byte) }
{
    pen.draw(&[1]);
    pen.draw(code39_pattern(byte));
}

/// Draws a content of CODABAR. `false`: it is none, and nothing is drawn.
pub fn draw_codabar(pen: &mut Pen, content: &[u8]) -> bool
    ensures answer { result ≡ is_some (codabar content.now) }
    ensures drawn { pen.new ≡ attempt pen.old (codabar content.now) }
{
    if !is_codabar_content(content) {
        return false;
    }
    if let Some((first, more)) = content.split_first() {
        pen.draw(codabar_pattern(upper(*first)));
        for byte in more {
            draw_codabar_next(pen, upper(*byte));
        }
    }
    true
}

// Draws a narrow space and a character.
fn draw_codabar_next(pen: &mut Pen, byte: u8)
    ensures { pen.new ≡ draw pen.old (1 ∷ row codabar_table byte) }
{
    pen.draw(&[1]);
    pen.draw(codabar_pattern(byte));
}

// Whether it is a content of CODABAR.
fn is_codabar_content(content: &[u8]) -> bool
    ensures { result ≡ is_content symbology.Codabar content.now }
{
    if !Symbology::Codabar.has_length(content.len()) {
        return false;
    }
    for (place, byte) in content.iter().enumerate() {
        if !Symbology::Codabar.allows(content.len(), place, *byte) {
            return false;
        }
    }
    true
}

// A letter a to d in upper case.
fn upper(byte: u8) -> u8
    ensures { result ≡ upper byte }
{
    if matches!(byte, b'a'..=b'd') {
        byte - 0x20
    } else {
        byte
    }
}
