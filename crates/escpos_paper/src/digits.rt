//! Check digits, by which a barcode reader notices a misread digit. (Reference: GS k.)

ghost use Rattle.std.specs.Prelude.{◌≡◌, ◌<◌, IsTrue};
ghost use Rattle.escpos_paper.specs.CheckDigit.{all_digits, checked_digits, digit, expanded, upca_digits};

use escpos_command::{Symbology, is_digit};

/// Whether all of these bytes are digits, 0 to 9. Allocates nothing.
pub fn all_digits(digits: &[u8]) -> bool
    ensures { result ≡ all_digits digits.now }
{
    digits.iter().all(|byte| is_digit(*byte))
}

/// The check digit, 0 to 9, of these bytes, which must all be digits (see `all_digits`). The digits are weighted 3, 1, 3,
/// 1, .. from the last leftwards; their sum and the check digit make a multiple of 10. Allocates nothing.
pub fn check_digit(digits: &[u8]) -> u8
    requires { IsTrue (all_digits digits.now) }
    ensures digit { result ≡ digit digits.now }
    ensures small { result < 10 }
{
    // One more digit exchanges the weights of those before it, so both sums are kept: the one in which the last digit
    // weighs 3, and the one in which it weighs 1.
    let mut thrice = 0;
    let mut once = 0;
    for byte in digits {
        let number = *byte - b'0';
        (thrice, once) = ((once + 3 * number) % 10, (thrice + number) % 10);
    }
    (10 - thrice) % 10
}

/// The check digit, 0 to 9, of a content of this symbology, of which these bytes, all digits, are all but the check digit. That of
/// UPC-E is that of the UPC-A content for which it stands. Allocates nothing.
pub fn check_digit_of(symbology: Symbology, digits: &[u8]) -> u8
    requires { IsTrue (all_digits digits.now) }
    ensures digit { result ≡ digit (checked_digits symbology digits.now) }
    ensures small { result < 10 }
{
    match symbology {
        Symbology::UpcE => upce_check_digit(digits),
        _ => check_digit(digits),
    }
}

// The check digit of UPC-E.
fn upce_check_digit(digits: &[u8]) -> u8
    requires { IsTrue (all_digits digits.now) }
    ensures digit { result ≡ digit (upca_digits digits.now) }
    ensures small { result < 10 }
{
    match digits {
        [a, b, c, d, e, f] => check_digit(&expanded([*a, *b, *c, *d, *e, *f])),
        [_, a, b, c, d, e, f] => check_digit(&expanded([*a, *b, *c, *d, *e, *f])),
        _ => check_digit(digits),
    }
}

/// The eleven digits of UPC-A, without its check digit, for which these six of UPC-E stand. Allocates nothing.
pub fn expanded(six: [u8; 6]) -> [u8; 11]
    ensures { result ≡ expanded six }
{
    let [a, b, c, d, e, f] = six;
    match f {
        0..=b'2' => [b'0', a, b, f, b'0', b'0', b'0', b'0', c, d, e],
        b'3' => [b'0', a, b, c, b'0', b'0', b'0', b'0', b'0', d, e],
        b'4' => [b'0', a, b, c, d, b'0', b'0', b'0', b'0', b'0', e],
        _ => [b'0', a, b, c, d, e, b'0', b'0', b'0', b'0', f],
    }
}
