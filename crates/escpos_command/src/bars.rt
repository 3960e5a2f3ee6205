//! Barcodes: their symbologies, and the contents of each. (Reference: GS k.)
//!
//! `specs/Barcodes.antt` defines what a content is. Here a content is checked as a whole; a reader that has only its first
//! bytes uses the tests of single bytes (`Symbology::allows`, `is_digit` and the like).

ghost use Rattle.std.specs.Prelude.{◌≡◌, ◌≤◌, ◌<◌, length, IsTrue, IsOk, MatchOption, MatchResult};
ghost use Rattle.escpos_command.specs.Barcodes.{barcode, barcode_mode, symbology_number, has_form, has_length, is_upce_first, allows, all_from, is_barcode, is_digit, is_code39, is_codabar, is_codabar_end, IsBarFault, IsLeast};

use crate::content::Bytes;
use std::marker::Model;

/// How a reader finds the end of a barcode's content. (Reference: GS k.)
#[derive(Clone, Copy, Debug, PartialEq, Eq)]
pub enum Form {
    /// Function A: a byte 00 follows the content.
    A,
    /// Function B: the length of the content comes before it.
    B,
}

/// What kind of barcode it is. (Reference: GS k.)
#[derive(Clone, Copy, Debug, PartialEq, Eq)]
pub enum Symbology {
    /// UPC-A: 11 digits, or 12 with the check digit.
    UpcA,
    /// UPC-E: 6 digits; or 0 and 6 digits, with the check digit or without; or 11 or 12 digits of UPC-A that begin with 0, which the
    /// printer shortens.
    UpcE,
    /// EAN-13: 12 digits, or 13 with the check digit.
    Ean13,
    /// EAN-8: 7 digits, or 8 with the check digit.
    Ean8,
    /// CODE39: 1 to 255 of 0-9, A-Z, space and `$ % * + - . /`.
    Code39,
    /// ITF: an even number of digits, 2 to 254.
    Itf,
    /// CODABAR: 2 to 255 bytes, of which the first and the last are A-D or a-d and the others 0-9 and `$ + - . / :`.
    Codabar,
    /// CODE93: 1 to 255 bytes 0 to 127. It has no form A.
    Code93,
    /// CODE128: 2 to 255 bytes: `{`, then the code set A, B or C, then bytes 0 to 127. It has no form A.
    Code128,
    /// GS1-128: 2 to 255 bytes 0 to 127, for which the printer chooses the code sets of CODE128. It has no form A.
    Gs1Code128,
}

impl Symbology {
    // How many symbologies come before this one in the Reference.
    fn number(self) -> u8
        ensures value { result ≡ symbology_number self }
        ensures small { result ≤ 9 }
    {
        match self {
            Symbology::UpcA => 0,
            Symbology::UpcE => 1,
            Symbology::Ean13 => 2,
            Symbology::Ean8 => 3,
            Symbology::Code39 => 4,
            Symbology::Itf => 5,
            Symbology::Codabar => 6,
            Symbology::Code93 => 7,
            Symbology::Code128 => 8,
            Symbology::Gs1Code128 => 9,
        }
    }

    /// Whether a content of this symbology may be sent in this form.
    pub fn has_form(self, form: Form) -> bool
        ensures { result ≡ has_form form self }
    {
        !matches!(
            (self, form),
            (
                Symbology::Code93 | Symbology::Code128 | Symbology::Gs1Code128,
                Form::A
            )
        )
    }

    /// Whether a content may have this many bytes.
    pub fn has_length(self, length: usize) -> bool
        ensures { result ≡ has_length self length }
    {
        match self {
            Symbology::UpcA => matches!(length, 11 | 12),
            Symbology::UpcE => matches!(length, 6 | 7 | 8 | 11 | 12),
            Symbology::Ean13 => matches!(length, 12 | 13),
            Symbology::Ean8 => matches!(length, 7 | 8),
            Symbology::Code39 | Symbology::Code93 => matches!(length, 1..=255),
            Symbology::Itf => matches!(length, 2..=254) && length % 2 == 0,
            Symbology::Codabar | Symbology::Code128 | Symbology::Gs1Code128 => {
                matches!(length, 2..=255)
            }
        }
    }

    /// Whether this byte may stand at this place, counted from 0, in a content of `length` bytes.
    pub fn allows(self, length: usize, place: usize, byte: u8) -> bool
        ensures { result ≡ allows self length place byte }
    {
        match self {
            Symbology::UpcA | Symbology::Ean13 | Symbology::Ean8 | Symbology::Itf => is_digit(byte),
            Symbology::UpcE => {
                if place == 0 {
                    is_upce_first(length, byte)
                } else {
                    is_digit(byte)
                }
            }
            Symbology::Code39 => is_code39(byte),
            Symbology::Codabar => {
                if place == 0 || length.checked_sub(1) == Some(place) {
                    is_codabar_end(byte)
                } else {
                    is_codabar(byte)
                }
            }
            Symbology::Code128 => match place {
                0 => byte == b'{',
                1 => matches!(byte, b'A'..=b'C'),
                _ => byte < 0x80,
            },
            Symbology::Code93 | Symbology::Gs1Code128 => byte < 0x80,
        }
    }
}

/// Whether it is a digit, 0 to 9.
pub fn is_digit(byte: u8) -> bool
    ensures { result ≡ is_digit byte }
{
    byte.is_ascii_digit()
}

// Whether a content of UPC-E of this length may begin with the byte: with any digit if it is of six, and otherwise with the number
// system, which is 0.
fn is_upce_first(length: usize, byte: u8) -> bool
    ensures { result ≡ is_upce_first length byte }
{
    if length == 6 {
        is_digit(byte)
    } else {
        byte == b'0'
    }
}

/// Whether CODE39 has the byte: 0-9, A-Z, space and `$ % * + - . /`.
pub fn is_code39(byte: u8) -> bool
    ensures { result ≡ is_code39 byte }
{
    is_digit(byte)
        || matches!(
            byte,
            b'A'..=b'Z' | b' ' | b'$' | b'%' | b'*' | b'+' | b'-' | b'.' | b'/'
        )
}

/// Whether CODABAR has the byte between its ends: 0-9 and `$ + - . / :`.
pub fn is_codabar(byte: u8) -> bool
    ensures { result ≡ is_codabar byte }
{
    is_digit(byte) || matches!(byte, b'$' | b'+' | b'-' | b'.' | b'/' | b':')
}

/// Whether a content of CODABAR may start and stop with the byte: A-D and a-d.
pub fn is_codabar_end(byte: u8) -> bool
    ensures { result ≡ is_codabar_end byte }
{
    matches!(byte, b'A'..=b'D' | b'a'..=b'd')
}

/// Why bytes aren't a barcode: the first reason that applies.
#[derive(Clone, Copy, Debug, PartialEq, Eq)]
pub enum BarFault {
    /// 1: CODE93, CODE128 and GS1-128 have no form A.
    Form,
    /// 2: the symbology has no content of this length.
    Length,
    /// 3: the byte at this place, the first such one, can't stand there.
    Byte { at: usize },
}

/// A barcode: its form, its symbology and a content of that symbology. (Reference: GS k.)
#[derive(Clone, Debug, Drop)]
pub struct Bars {
    form: Form,
    symbology: Symbology,
    content: Bytes,
}

impl Model for Bars {
    ghost use Rattle.std.specs.Prelude.{IsTrue};
    ghost use Rattle.escpos_command.specs.Barcodes.{Barcode, barcode, is_barcode};

    ghost Value = { Barcode };

    ghost view = { λ b. barcode b.form b.symbology b.content };

    ghost invariant = { λ b. IsTrue (is_barcode (barcode b.form b.symbology b.content)) };
}

impl Bars {
    /// A barcode with this content. Allocates nothing.
    ///
    /// `Err` returns the content, with the first reason that applies.
    pub fn new(
        form: Form,
        symbology: Symbology,
        content: Vec<u8>,
    ) -> Result<Self, (BarFault, Vec<u8>)>
        ensures result { MatchResult result
            (λ bars. (bars ≡ barcode form symbology content.items) × IsTrue (is_barcode bars))
            (λ refusal. IsBarFault refusal.0 (barcode form symbology content.items) × (refusal.1 ≡ content)) }
        ensures exact { IsTrue (is_barcode (barcode form symbology content.items)) → IsOk result }
    {
        if !symbology.has_form(form) {
            return Err((BarFault::Form, content));
        }
        if !symbology.has_length(content.len()) {
            return Err((BarFault::Length, content));
        }
        if let Some(at) = first_not_allowed(symbology, &content) {
            return Err((BarFault::Byte { at }, content));
        }
        Ok(Bars {
            form,
            symbology,
            content: Bytes::new(content),
        })
    }

    /// The form in which it is sent.
    pub fn form(&self) -> Form
        ensures { result ≡ self.now.form }
    {
        self.form
    }

    /// What kind of barcode it is.
    pub fn symbology(&self) -> Symbology
        ensures { result ≡ self.now.symbology }
    {
        self.symbology
    }

    /// The byte m, which shows the symbology and the form: 0 to 6 in form A, 65 to 74 in form B.
    pub fn mode(&self) -> u8
        ensures { result ≡ barcode_mode self.now.form self.now.symbology }
    {
        match self.form {
            Form::A => self.symbology.number(),
            Form::B => 65 + self.symbology.number(),
        }
    }

    /// The content as sent, 1 to 255 bytes.
    pub fn content(&self) -> &[u8]
        ensures content { result.now ≡ self.now.content }
        ensures range { IsTrue (is_barcode self.now) }
    {
        self.content.as_slice()
    }

    /// Gives the content away. Allocates nothing.
    pub fn into_content(self) -> Bytes
        ensures { result ≡ self.content }
    {
        self.content
    }
}

// The first place with a byte that can't stand there in a content of this symbology.
fn first_not_allowed(symbology: Symbology, content: &[u8]) -> Option<usize>
    ensures { MatchOption result
        (IsTrue (all_from 0 (allows symbology (length content.now)) content.now))
        (λ at. IsLeast at (allows symbology (length content.now)) content.now) }
{
    for (place, byte) in content.iter().enumerate() {
        if !symbology.allows(content.len(), place, *byte) {
            return Some(place);
        }
    }
    None
}

impl PartialEq for Bars {
    ghost use Rattle.std.specs.Cmp.{partial_equiv_from_equiv};
    ghost use Rattle.escpos_command.specs.Barcodes.{same_barcode, same_barcode_equiv};

    // The mode shows the form and the symbology.
    ghost eq = { same_barcode };

    ghost laws = { partial_equiv_from_equiv same_barcode_equiv };

    fn eq(&self, other: &Bars) -> bool {
        self.mode() == other.mode() && self.content() == other.content()
    }
}

impl Eq for Bars {
    ghost use Rattle.escpos_command.specs.Barcodes.{same_barcode_equiv};

    ghost laws = { same_barcode_equiv };
}
