//! Parameters of commands that set how QR codes look.

ghost use Rattle.std.specs.Prelude.{◌≡◌, ◌≤◌, ℕ, IsTrue};
ghost use Rattle.std.specs.Option.{SomeIff};
ghost use Rattle.escpos_command.specs.Parameters.{is_qr_model, is_qr_size, is_qr_level};
ghost use Rattle.escpos_command.specs.Meanings.{choice, model_number, correction_of};

use super::choices::{Correction, choice, correction_of};
use std::marker::Model;

/// The model of QR codes: 49 is model 1, 50 model 2. (Reference: GS ( k, function 65.)
#[derive(Clone, Copy, Debug, PartialEq, Eq)]
pub struct QrModel {
    byte: u8,
}

impl Model for QrModel {
    ghost Value = { ℕ };

    ghost view = { λ p. p.byte };

    ghost invariant = { λ p. IsTrue (is_qr_model p.byte) };

    ghost inverse = { λ n. record { byte = n } };
}

impl QrModel {
    /// The model of this byte; `None` for all but 49 and 50.
    pub fn new(byte: u8) -> Option<Self>
        ensures { SomeIff result (IsTrue (is_qr_model byte)) byte }
    {
        if matches!(byte, 49 | 50) {
            Some(QrModel { byte })
        } else {
            None
        }
    }

    /// The byte as sent: 49 or 50.
    pub fn byte(self) -> u8
        ensures kept { result ≡ self }
        ensures range { IsTrue (is_qr_model result) }
    {
        self.byte
    }

    /// The number of the model, 1 or 2.
    pub fn number(self) -> u8
        ensures value { result ≡ model_number self }
        ensures small { result ≤ 2 }
    {
        self.byte - 48
    }
}

/// The size of a module of QR codes in dots, 1 to 16. (Reference: GS ( k, function 67.)
#[derive(Clone, Copy, Debug, PartialEq, Eq)]
pub struct QrSize {
    byte: u8,
}

impl Model for QrSize {
    ghost Value = { ℕ };

    ghost view = { λ p. p.byte };

    ghost invariant = { λ p. IsTrue (is_qr_size p.byte) };

    ghost inverse = { λ n. record { byte = n } };
}

impl QrSize {
    /// The size of this many dots; `None` for all but 1 to 16.
    pub fn new(byte: u8) -> Option<Self>
        ensures { SomeIff result (IsTrue (is_qr_size byte)) byte }
    {
        if matches!(byte, 1..=16) {
            Some(QrSize { byte })
        } else {
            None
        }
    }

    /// The number of dots, 1 to 16.
    pub fn byte(self) -> u8
        ensures kept { result ≡ self }
        ensures range { IsTrue (is_qr_size result) }
    {
        self.byte
    }
}

/// The level of error correction of QR codes: 48 L, 49 M, 50 Q, 51 H. (Reference: GS ( k, function 69.)
#[derive(Clone, Copy, Debug, PartialEq, Eq)]
pub struct QrLevel {
    byte: u8,
}

impl Model for QrLevel {
    ghost Value = { ℕ };

    ghost view = { λ p. p.byte };

    ghost invariant = { λ p. IsTrue (is_qr_level p.byte) };

    ghost inverse = { λ n. record { byte = n } };
}

impl QrLevel {
    /// The level of this byte; `None` for all but 48 to 51.
    pub fn new(byte: u8) -> Option<Self>
        ensures { SomeIff result (IsTrue (is_qr_level byte)) byte }
    {
        if matches!(byte, 48..=51) {
            Some(QrLevel { byte })
        } else {
            None
        }
    }

    /// The byte as sent: 48 to 51.
    pub fn byte(self) -> u8
        ensures kept { result ≡ self }
        ensures range { IsTrue (is_qr_level result) }
    {
        self.byte
    }

    /// Which level it is.
    pub fn correction(self) -> Correction
        ensures { result ≡ correction_of (choice self) }
    {
        correction_of(choice(self.byte))
    }
}
