//! What C says of the width of a line and of a receipt's text, as the cores take it.

ghost use Rattle.std.specs.Prelude.{◌≡◌};
ghost use Rattle.escpos_c.specs.Given.{line_dots, receipt_options, replacement_of};

use escpos_command::LineWidth;
use escpos_receipt::ReceiptOptions;
use escpos_text::Replacement;

/// How a receipt's text is read, as C sees it. All zero is what holds where nothing is said.
#[repr(C)]
#[derive(Clone, Copy, Debug, PartialEq, Eq)]
pub struct Options {
    /// The dots of a line, 1 to 1,024; 0 stands for 512.
    pub width: u16,
    /// The character, 20 to 7E hexadecimal, that is printed in place of one that no code table of the receipt's choice has; 0
    /// stands for none, so a text with such a character is refused.
    pub replacement: u8,
}

impl Options {
    /// The same for a receipt; `None` if one of them is out of range.
    pub fn receipt_options(&self) -> Option<ReceiptOptions>
        ensures { result ≡ receipt_options self.now }
    {
        match (line_width(self.width), replacement_of(self.replacement)) {
            (Some(width), Some(replacement)) => Some(ReceiptOptions { width, replacement }),
            _ => None,
        }
    }
}

/// A line of this many dots, where 0 stands for 512; `None` for more than 1,024.
pub fn line_width(dots: u16) -> Option<LineWidth>
    ensures { result ≡ line_dots dots }
{
    match dots {
        0 => Some(LineWidth::usual()),
        _ => LineWidth::new(dots),
    }
}

// What is printed in place of a character that no code table has, where 0 stands for nothing; `None` if the byte is out of range.
fn replacement_of(byte: u8) -> Option<Option<Replacement>>
    ensures { result ≡ replacement_of byte }
{
    if byte == 0 {
        return Some(None);
    }
    match Replacement::new(byte) {
        Some(replacement) => Some(Some(replacement)),
        None => None,
    }
}
