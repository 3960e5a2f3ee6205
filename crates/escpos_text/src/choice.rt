//! The code tables that a text may use.

use std::marker::Model;

/// The most tables of a choice.
pub const MOST_TABLES: usize = 32;

const _: () = prove!(MOST_TABLES == 32);

/// The tables of the usual choice.
const USUAL: [u8; 32] = [
    0, 19, 16, 18, 17, 14, 13, 1, 2, 3, 4, 5, 15, 32, 33, 34, 35, 36, 37, 38, 39, 40, 44, 45, 46,
    47, 48, 49, 50, 51, 52, 53,
];

ghost use Rattle.std.specs.Prelude.{◌≡◌, ◌<◌, ◌≤◌, length, All, MatchOption};
ghost use Rattle.escpos_text.specs.Choices.{usual_tables};

/// The numbers of code tables in order of preference, at most 32: where the table in force doesn't have a character, the first of
/// these that has it is selected.
#[derive(Clone, Copy, Debug, PartialEq, Eq)]
pub struct Choice {
    numbers: [u8; 32],
    count: usize,
}

impl Model for Choice {
    ghost use Rattle.std.specs.Prelude.{ℕ, List, take, length};
    ghost use Rattle.escpos_text.specs.Choices.{IsChoice, all_numbers};
    ghost use Rattle.escpos_text.specs.ChoiceNumbers.{numbers_again, count_again};

    ghost Value = { List ℕ };

    ghost view = { λ choice. take choice.count choice.numbers };

    ghost invariant = { λ choice. IsChoice choice.numbers choice.count };

    ghost inverse = { λ tables. record { numbers = all_numbers tables; count = length tables } };

    ghost inverse_ok = { λ choice is i. record {
      numbers = numbers_again choice.numbers choice.count is i;
      count = count_again choice.numbers choice.count is i;
    } };
}

impl Choice {
    /// PC437, PC858, WPC1252, PC852, PC866, PC737, PC857 and Katakana, and then the others in the order of their numbers.
    pub fn usual() -> Self
        ensures { result ≡ usual_tables }
    {
        Choice {
            numbers: USUAL,
            count: 32,
        }
    }

    /// These tables in this order; `None` for more than 32.
    pub fn of(tables: &[u8]) -> Option<Self>
        ensures { MatchOption result (MOST_TABLES < length tables.now) (λ choice. choice ≡ tables.now) }
    {
        if tables.len() > MOST_TABLES {
            return None;
        }
        let mut numbers = [0; 32];
        numbers[..tables.len()].copy_from_slice(tables);
        Some(Choice {
            numbers,
            count: tables.len(),
        })
    }

    /// The tables in order of preference.
    pub fn tables(&self) -> &[u8]
        ensures tables { result.now ≡ self.now }
        ensures range { All (λ number. number < 256) self.now }
    {
        let tables = &self.numbers[..self.count];
        // Proof only: each table is a byte.
        are_bytes(tables);
        tables
    }
}

// Proof only: gives the caller this fact.
fn are_bytes(tables: &[u8])
    ensures { All (λ number. number < 256) tables.now }
{}
