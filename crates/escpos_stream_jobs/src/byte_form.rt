//! How the bytes of a receipt are written: as they are, or as hexadecimal digits in one line.

ghost use Rattle.std.specs.Prelude.{◌≡◌, ◌++◌, ℕ, List, [], ◌∷◌, refl};
ghost use Rattle.std.proofs.Common.{append-nil, sym};
ghost use Rattle.hex.specs.Hex.{encode_lower};
ghost use Rattle.escpos_io.proofs.Digits.{digits_append, no_digits};
ghost use Rattle.escpos_io.specs.Giving.{IsGiven};
ghost use Rattle.escpos_io.specs.Putting.{passage};

use escpos_command::LF;
use escpos_io::{ByteOut, Device, Gather, put_digits};

/// How bytes are written.
pub trait ByteForm {
    // What is written of all bytes; what is written of some of them, and after the last.
    ghost written: { List ℕ → List ℕ };

    ghost of: { List ℕ → List ℕ };

    ghost ending: { List ℕ };

    ghost none: { of [] ≡ [] };

    ghost joined: { (front more : List ℕ) → of (front ++ more) ≡ of front ++ of more };

    ghost whole: { (bytes : List ℕ) → written bytes ≡ of bytes ++ ending };

    /// Gives what is written of these bytes to the gather, which puts what it has no room for into `writer`.
    fn put<W: ByteOut>(gather: &mut Gather, bytes: &[u8], writer: &mut W) -> Result<(), Device>
        ensures { IsGiven result (passage (W.written writer.old) (W.written writer.new) (W.failed writer.old) (W.failed writer.new))
            gather.old gather.new (of bytes.now) };

    /// What is written after the last byte.
    fn ending() -> &'static [u8]
        ensures { result.now ≡ ending };
}

/// Bytes as they are.
pub struct Raw;

impl ByteForm for Raw {
    ghost written = { λ bytes. bytes };

    ghost of = { λ bytes. bytes };

    ghost ending = { [] };

    ghost none = { refl };

    ghost joined = { λ front more. refl };

    ghost whole = { λ bytes. sym (append-nil bytes) };

    fn put<W: ByteOut>(gather: &mut Gather, bytes: &[u8], writer: &mut W) -> Result<(), Device> {
        gather.put(bytes, writer)
    }

    fn ending() -> &'static [u8] {
        &[]
    }
}

/// Two hexadecimal digits for each byte, in lower case, and a line feed after the last.
pub struct Hexadecimal;

impl ByteForm for Hexadecimal {
    ghost use Rattle.escpos_command.specs.declared.bytes.TheConstants.{LF};

    ghost written = { λ bytes. encode_lower bytes ++ LF ∷ [] };

    ghost of = { encode_lower };

    ghost ending = { LF ∷ [] };

    ghost none = { no_digits };

    ghost joined = { digits_append };

    ghost whole = { λ bytes. refl };

    fn put<W: ByteOut>(gather: &mut Gather, bytes: &[u8], writer: &mut W) -> Result<(), Device> {
        put_digits(gather, bytes, writer)
    }

    fn ending() -> &'static [u8] {
        &[LF]
    }
}
