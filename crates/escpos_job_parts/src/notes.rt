//! The note on a barcode whose content has a wrong check digit.
//!
//! Such a barcode is a command like any other: a given check digit is kept as sent. A listing points it out.

ghost use Rattle.std.specs.Prelude.{◌≡◌, ◌≤◌, Option};
ghost use Rattle.escpos_job_parts.specs.Notes.{has_check_digit, wrong_digit};

use escpos_command::{Bars, Symbology};
use escpos_paper::check_digit_of;

/// A check digit that isn't the one of the digits before it, and the right one: numbers 0 to 9.
#[derive(Clone, Copy, Debug, PartialEq, Eq)]
pub struct WrongDigit {
    pub given: u8,
    pub right: u8,
}

/// The check digit of the barcode and the right one, if its content has one and they differ.
pub fn wrong_digit(bars: &Bars) -> Option<WrongDigit>
    ensures { result ≡ wrong_digit bars.now }
{
    let content = bars.content();
    if !has_check_digit(bars.symbology(), content.len()) {
        return None;
    }
    let last = content.len() - 1;
    let given = content[last] - b'0';
    let right = check_digit_of(bars.symbology(), &content[..last]);
    if given == right {
        None
    } else {
        Some(WrongDigit { given, right })
    }
}

// Whether a content of this many bytes ends with its check digit.
fn has_check_digit(symbology: Symbology, length: usize) -> bool
    ensures { result ≡ has_check_digit symbology length }
{
    matches!(
        (symbology, length),
        (Symbology::UpcA, 12)
            | (Symbology::UpcE, 8 | 12)
            | (Symbology::Ean13, 13)
            | (Symbology::Ean8, 8)
    )
}
