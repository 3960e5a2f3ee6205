//! The length of a command that is passed over, as its first bytes tell.

ghost use Rattle.std.specs.Prelude.{◌≡◌, ◌≤◌, ◌<◌, ◌+◌, ◌*◌, length, slice_index, IfSome, Option};
ghost use Rattle.escpos_passed.specs.Lengths.{number_in, factor, data_length, counted_length, long_in, long_length, length_until, repeated_length, pictures_length, characters_length, whole_length};

use crate::table::{Counted, Form, Number};

/// How many bytes follow a prefix, of which `bytes` are the first; `None` where these don't tell. Allocates nothing.
pub fn whole_length(form: Form, bytes: &[u8]) -> Option<usize>
    ensures { result ≡ whole_length form bytes.now }
{
    match form {
        Form::Fixed(count) => Some(usize::from(count)),
        Form::Until { end, times } => length_until(end, times, bytes),
        Form::Counted(counted) => counted_length(counted, bytes),
        Form::Long { before, at, less } => long_length(before, at, less, bytes),
        Form::Pictures => pictures_length(bytes),
        Form::Characters => characters_length(bytes),
    }
}

// The byte at this place, or 0 where there is none.
fn byte_at(bytes: &[u8], at: usize) -> usize
    ensures value { result ≡ slice_index bytes.now at }
    ensures small { result ≤ 255 }
{
    match bytes.get(at) {
        Some(byte) => usize::from(*byte),
        None => 0,
    }
}

fn number_in(number: Number, bytes: &[u8]) -> usize
    ensures value { result ≡ number_in number bytes.now }
    ensures small { result ≤ 65535 }
{
    match number {
        Number::Byte(at) => byte_at(bytes, usize::from(at)),
        Number::Word(at) => {
            byte_at(bytes, usize::from(at)) + 256 * byte_at(bytes, usize::from(at) + 1)
        }
    }
}

// A further factor of a length: 1 where there is none.
fn factor(again: Option<Number>, bytes: &[u8]) -> usize
    ensures value { result ≡ factor again bytes.now }
    ensures small { result ≤ 65535 }
{
    match again {
        None => 1,
        Some(number) => number_in(number, bytes),
    }
}

// The bytes that tell the length of some data, and the data.
fn counted_length(counted: Counted, bytes: &[u8]) -> Option<usize>
    ensures value { result ≡ counted_length counted bytes.now }
    ensures small { IfSome result (λ n. n ≤ 1099511627776) }
{
    let before = usize::from(counted.before);
    if bytes.len() < before {
        return None;
    }
    let told = &bytes[..before];
    let numbers = number_in(counted.number, told) * factor(counted.again, told);
    Some(before + usize::from(counted.unit) * numbers)
}

// The same where the length of the data is a number of four bytes, less some.
fn long_length(before: u8, at: u8, less: u8, bytes: &[u8]) -> Option<usize>
    ensures { result ≡ long_length before at less bytes.now }
{
    let before = usize::from(before);
    if bytes.len() < before {
        return None;
    }
    let long = long_in(usize::from(at), &bytes[..before]);
    Some(before + long.saturating_sub(usize::from(less)))
}

// The number that the four bytes from this place on are.
fn long_in(at: usize, bytes: &[u8]) -> usize
    requires { at ≤ 255 }
    ensures value { result ≡ long_in at bytes.now }
    ensures small { result ≤ 4294967295 }
{
    byte_at(bytes, at)
        + 256 * byte_at(bytes, at + 1)
        + 65536 * byte_at(bytes, at + 2)
        + 16777216 * byte_at(bytes, at + 3)
}

// How many bytes there are up to and with the last of `times` bytes `end`.
fn length_until(end: u8, times: u8, bytes: &[u8]) -> Option<usize>
    ensures { result ≡ length_until end times bytes.now }
{
    let mut left = times;
    let mut at = 0;
    while left > 0 {
        if at == bytes.len() {
            return None;
        }
        if bytes[at] == end {
            left -= 1;
        }
        at += 1;
    }
    Some(at)
}

// The length of so many parts of one kind, one after another.
fn repeated_length(counted: Counted, times: usize, bytes: &[u8]) -> Option<usize>
    requires { times ≤ 256 }
    ensures value { result ≡ repeated_length counted times bytes.now }
    ensures small { IfSome result (λ n. n ≤ 281474976710656) }
{
    let mut left = times;
    let mut at = 0;
    let mut rest = bytes;
    while left > 0 {
        let Some(one) = counted_length(counted, rest) else {
            return None;
        };
        at += one;
        rest = &rest[one.min(rest.len())..];
        left -= 1;
    }
    Some(at)
}

fn pictures_length(bytes: &[u8]) -> Option<usize>
    ensures { result ≡ pictures_length bytes.now }
{
    const PICTURE: Counted = Counted {
        before: 4,
        number: Number::Word(0),
        again: Some(Number::Word(2)),
        unit: 8,
    };
    let [count, rest @ ..] = bytes else {
        return None;
    };
    match repeated_length(PICTURE, usize::from(*count), rest) {
        Some(length) => Some(1 + length),
        None => None,
    }
}

fn characters_length(bytes: &[u8]) -> Option<usize>
    ensures { result ≡ characters_length bytes.now }
{
    let [height, first, last, rest @ ..] = bytes else {
        return None;
    };
    let character = Counted {
        before: 1,
        number: Number::Byte(0),
        again: None,
        unit: *height,
    };
    let count = (usize::from(*last) + 1).saturating_sub(usize::from(*first));
    match repeated_length(character, count, rest) {
        Some(length) => Some(3 + length),
        None => None,
    }
}
