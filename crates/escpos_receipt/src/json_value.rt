//! What a member of an entry may hold: numbers within bounds, names of a table, true or false, members of an inner object.
//!
//! Each function returns what the definition of the same name in `specs/Entries.antt` gives.

ghost use Rattle.std.specs.Prelude.{◌≡◌, ◌≤◌, IfSome, map, option_map};
ghost use Rattle.serde_json.specs.View.{view};
ghost use Rattle.escpos_receipt.specs.Entries.{choice_in, field, named, number_in, switch_in, tables_in};

use arrayvec::ArrayVec;
use escpos_text::{Choice, MOST_TABLES};
use serde_json::Value;

/// The number that the value is; `None` unless it is one from `least` to `most`.
pub fn number_in(value: &Value, least: u16, most: u16) -> Option<u16>
    ensures value { result ≡ number_in least most (view value.now) }
    ensures range { IfSome result (λ n. n ≤ most) }
{
    let number = value.as_u64()?;
    if number < least as u64 || number > most as u64 {
        return None;
    }
    Some(number as u16)
}

/// The same, as a byte.
pub fn byte_in(value: &Value, least: u8, most: u8) -> Option<u8>
    ensures value { result ≡ number_in least most (view value.now) }
    ensures range { IfSome result (λ n. n ≤ most) }
{
    let number = number_in(value, least as u16, most as u16)?;
    Some(number as u8)
}

/// On for true and off for false; `None` for any other value.
pub fn switch_in(value: &Value) -> Option<u8>
    ensures { result ≡ switch_in (view value.now) }
{
    Some(value.as_bool()? as u8)
}

/// What the table has for the name that the value is; `None` unless it is a name of the table.
pub fn choice_in<X: Copy>(value: &Value, table: &[(&str, X)]) -> Option<X>
    ensures { result ≡ choice_in (map (λ row. (row.0.now, row.1)) table.now) (view value.now) }
{
    named(value.as_str()?, table)
}

/// What the table has for a name; `None` where it doesn't have the name.
pub fn named<X: Copy>(name: &str, table: &[(&str, X)]) -> Option<X>
    ensures { result ≡ named (map (λ row. (row.0.now, row.1)) table.now) name.now }
{
    for row in table {
        if row.0 == name {
            return Some(row.1);
        }
    }
    None
}

/// The member of this name; `None` unless the value is an object with this member and with `count` members.
pub fn field<'v>(value: &'v Value, count: usize, name: &str) -> Option<&'v Value>
    ensures { option_map (λ v. view v.now) result ≡ field count name.now (view value.now) }
{
    if value.as_object()?.len() != count {
        return None;
    }
    value.get(name)
}

/// The code tables that a list of numbers names; `None` unless it is a list of at most 32, each 0 to 255.
pub fn tables_in(value: &Value) -> Option<Choice>
    ensures { result ≡ tables_in (view value.now) }
{
    let values = value.as_array()?.as_slice();
    if values.len() > MOST_TABLES {
        return None;
    }
    let mut numbers = ArrayVec::<u8, MOST_TABLES>::new();
    for value in values {
        numbers.push(byte_in(value, 0, 255)?);
    }
    Choice::of(numbers.as_slice())
}
