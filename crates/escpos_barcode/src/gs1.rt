//! GS1-128: data in CODE128 after FNC1. (GS1 General Specifications 5.4.)
//!
//! A content has its application identifiers in parentheses, which are only shown, and an asterisk where a check digit is added.
//! (Reference: GS k.) The code sets are chosen here: set C for digits two by two, from four of them on, and otherwise set B, in which a
//! control character follows SHIFT.

ghost use Rattle.std.specs.Prelude.{◌≡◌, ◌≤◌, ◌<◌, ◌+◌, ◌++◌, ◌∷◌, [], length, is_some, MatchOption, IfSome, None, Some, IsTrue, false, if◌then◌else◌};
ghost use Rattle.std.specs.List.{list_all};
ghost use Rattle.escpos_paper.specs.CheckDigit.{all_digits};
ghost use Rattle.escpos_barcode.specs.Code128.{started};
ghost use Rattle.escpos_barcode.specs.Elements.{gs1_128};
ghost use Rattle.escpos_barcode.specs.Gs1.{plain_part, escaped_part, parts_after, field_after, fields_after, checked_part, checked_after, gs1_parts, said, is_digit_character, begins_with_digits, awaited, number, pair, to_pairs, in_set_b, single, after_single, with_sets, first_set, gs1_characters, gs1_values};
ghost use Rattle.escpos_barcode.specs.Pen.{attempt};

use crate::code128::{Character, CodeSet, MOST_BYTES, MOST_VALUES, draw_values, started};
use crate::pen::Pen;
use arrayvec::ArrayVec;
use escpos_command::is_digit;
use escpos_paper::check_digit;

/// What a byte of a content says, or a brace and a byte.
#[derive(Clone, Copy, Debug)]
pub enum Part {
    /// Data.
    Data(u8),
    /// FNC1.
    Function1,
    /// FNC3.
    Function3,
    /// A space or a parenthesis, which is only shown.
    Shown(u8),
    /// The check digit of the digits since the application identifier.
    CheckDigit,
}

impl Default for Part {
    ghost use Rattle.escpos_barcode.specs.declared.gs1.Part.TheVariants.{CheckDigit};

    ghost is_default = { λ p. p ≡ CheckDigit };

    // `ArrayVec` fills its unused places with it.
    fn default() -> Self {
        Part::CheckDigit
    }
}

/// Draws a content. `false`: it can't be spelled, and nothing is drawn.
pub fn draw_gs1(pen: &mut Pen, content: &[u8]) -> bool
    requires { length content.now ≤ MOST_BYTES }
    ensures answer { result ≡ is_some (gs1_128 content.now) }
    ensures drawn { pen.new ≡ attempt pen.old (gs1_128 content.now) }
{
    let Some(values) = gs1_values(content) else {
        return false;
    };
    draw_values(pen, values.as_slice());
    true
}

// The values of a content, from the start character on.
fn gs1_values(content: &[u8]) -> Option<ArrayVec<u8, MOST_VALUES>>
    requires { length content.now ≤ MOST_BYTES }
    ensures { MatchOption result (gs1_values content.now ≡ None) (λ values. gs1_values content.now ≡ Some values.items) }
{
    let parts = gs1_parts(content)?;
    let message = said(parts.as_slice());
    started(gs1_characters(message.as_slice()).as_slice())
}

/// The parts of a content, with the check digits that it asks for. `None`: a brace stands before a byte that means nothing there, or
/// last; a byte is above 127; or a check digit has something else than digits before it, back to an application identifier.
pub fn gs1_parts(content: &[u8]) -> Option<ArrayVec<Part, MOST_BYTES>>
    requires { length content.now ≤ MOST_BYTES }
    ensures { MatchOption result (gs1_parts content.now ≡ None) (λ parts. gs1_parts content.now ≡ Some parts.items) }
{
    checked(parts_of(content)?.as_slice())
}

// The parts of a content.
fn parts_of(content: &[u8]) -> Option<ArrayVec<Part, MOST_BYTES>>
    requires { length content.now ≤ MOST_BYTES }
    ensures { MatchOption result (parts_after false content.now ≡ None) (λ parts. parts_after false content.now ≡ Some parts.items) }
{
    let mut parts = ArrayVec::new();
    let mut after_brace = false;
    for byte in content {
        if after_brace {
            parts.push(escaped_part(*byte)?);
            after_brace = false;
        } else if *byte == b'{' {
            after_brace = true;
        } else {
            parts.push(plain_part(*byte)?);
        }
    }
    if after_brace { None } else { Some(parts) }
}

// What a byte of its own says.
fn plain_part(byte: u8) -> Option<Part>
    ensures { result ≡ plain_part byte }
{
    match byte {
        b' ' | b'(' | b')' => Some(Part::Shown(byte)),
        b'*' => Some(Part::CheckDigit),
        0..=0x7F => Some(Part::Data(byte)),
        _ => None,
    }
}

// What the byte after a brace says.
fn escaped_part(byte: u8) -> Option<Part>
    ensures { result ≡ escaped_part byte }
{
    match byte {
        b'(' | b')' | b'*' | b'{' => Some(Part::Data(byte)),
        b'1' => Some(Part::Function1),
        b'3' => Some(Part::Function3),
        _ => None,
    }
}

// The parts with their check digits.
fn checked(parts: &[Part]) -> Option<ArrayVec<Part, MOST_BYTES>>
    requires { length parts.now ≤ MOST_BYTES }
    ensures { MatchOption result (checked_after [] parts.now ≡ None) (λ found. checked_after [] parts.now ≡ Some found.items) }
{
    let mut found = ArrayVec::new();
    for part in parts {
        let part = checked_part(found.as_slice(), *part)?;
        found.push(part);
    }
    Some(found)
}

// The part itself, or the check digit for which it stands after these parts.
fn checked_part(before: &[Part], part: Part) -> Option<Part>
    requires { length before.now ≤ MOST_BYTES }
    ensures { result ≡ checked_part before.now part }
{
    match part {
        Part::CheckDigit => match field(before) {
            Some(digits) => Some(Part::Data(b'0' + check_digit(digits.as_slice()))),
            None => None,
        },
        _ => Some(part),
    }
}

// The digits since the last application identifier. `None`: there is none, or something else since.
fn field(parts: &[Part]) -> Option<ArrayVec<u8, MOST_BYTES>>
    requires { length parts.now ≤ MOST_BYTES }
    ensures field { MatchOption result (fields_after None parts.now ≡ None) (λ digits. fields_after None parts.now ≡ Some digits.items) }
    ensures digits { IfSome result (λ digits. IsTrue (all_digits digits.items)) }
{
    let mut digits = ArrayVec::new();
    let mut is_field = false;
    for part in parts {
        is_field = follow(&mut digits, is_field, *part);
    }
    if is_field { Some(digits) } else { None }
}

// One more part after the digits of a field. The result: whether they are a field still, or one begins.
fn follow(digits: &mut ArrayVec<u8, MOST_BYTES>, is_field: bool, part: Part) -> bool
    requires room { length digits.old.items < MOST_BYTES }
    requires digits { IsTrue (all_digits digits.old.items) }
    ensures field { (if result then Some digits.new.items else None) ≡ field_after (if is_field then Some digits.old.items else None) part }
    ensures digits { IsTrue (all_digits digits.new.items) }
    ensures few { length digits.new.items ≤ length digits.old.items + 1 }
{
    match part {
        Part::Shown(b')') => {
            digits.clear();
            true
        }
        Part::Shown(_) => is_field,
        Part::Data(byte) => {
            if is_field && is_digit(byte) {
                digits.push(byte);
                true
            } else {
                false
            }
        }
        Part::Function1 | Part::Function3 | Part::CheckDigit => false,
    }
}

// The data and the function characters.
fn said(parts: &[Part]) -> ArrayVec<Character, MOST_BYTES>
    requires { length parts.now ≤ MOST_BYTES }
    ensures { result.items ≡ said parts.now }
{
    let mut characters = ArrayVec::new();
    for part in parts {
        match part {
            Part::Data(byte) => characters.push(Character::Byte(*byte)),
            Part::Function1 => characters.push(Character::Function1),
            Part::Function3 => characters.push(Character::Function3),
            Part::Shown(_) | Part::CheckDigit => {}
        }
    }
    characters
}

// The characters of CODE128 that say the data, from the code set on that it starts in.
fn gs1_characters(message: &[Character]) -> ArrayVec<Character, MOST_VALUES>
    requires { length message.now ≤ MOST_BYTES }
    ensures { result.items ≡ gs1_characters message.now }
{
    let mut characters = ArrayVec::new();
    let mut set = first_set(message);
    characters.push(Character::Code(set));
    characters.push(Character::Function1);
    let mut pending = None;
    for (place, character) in message.iter().enumerate() {
        if let Some(first) = pending {
            characters.push(pair(first, *character));
            pending = None;
        } else if begins_with_digits(awaited(set), &message[place..]) {
            append_change(&mut characters, set);
            pending = Some(*character);
            set = CodeSet::C;
        } else {
            append_single(&mut characters, set, *character);
            set = after_single(set, *character);
        }
    }
    characters
}

// The code set that data starts in.
fn first_set(message: &[Character]) -> CodeSet
    ensures { result ≡ first_set message.now }
{
    if begins_with_digits(4, message) {
        CodeSet::C
    } else {
        CodeSet::B
    }
}

// Whether the first characters, so many, are digits.
fn begins_with_digits(count: usize, characters: &[Character]) -> bool
    ensures { result ≡ begins_with_digits count characters.now }
{
    characters.len() >= count && are_digits(&characters[..count])
}

fn are_digits(characters: &[Character]) -> bool
    ensures { result ≡ list_all is_digit_character characters.now }
{
    characters
        .iter()
        .all(|character| is_digit_character(*character))
}

fn is_digit_character(character: Character) -> bool
    ensures { result ≡ is_digit_character character }
{
    match character {
        Character::Byte(byte) => is_digit(byte),
        _ => false,
    }
}

// How many digits are awaited before two of them stand in set C.
fn awaited(set: CodeSet) -> usize
    ensures { result ≡ awaited set }
{
    match set {
        CodeSet::C => 2,
        _ => 4,
    }
}

// The number of a digit.
fn number(character: Character) -> u8
    ensures number { result ≡ number character }
    ensures small { result < 10 }
{
    match character {
        Character::Byte(byte) => byte.saturating_sub(b'0') % 10,
        _ => 0,
    }
}

// The character of set C for two digits.
fn pair(first: Character, second: Character) -> Character
    ensures { result ≡ pair first second }
{
    Character::Byte(10 * number(first) + number(second))
}

// Appends the change to set C, unless this is that set.
fn append_change(characters: &mut ArrayVec<Character, MOST_VALUES>, set: CodeSet)
    requires { length characters.old.items < MOST_VALUES }
    ensures characters { characters.new.items ≡ characters.old.items ++ to_pairs set }
    ensures few { length characters.new.items ≤ length characters.old.items + 1 }
{
    match set {
        CodeSet::C => {}
        _ => characters.push(Character::Code(CodeSet::C)),
    }
}

// Appends a character that isn't of a pair.
fn append_single(
    characters: &mut ArrayVec<Character, MOST_VALUES>,
    set: CodeSet,
    character: Character,
)
    requires { length characters.old.items + 3 ≤ MOST_VALUES }
    ensures characters { characters.new.items ≡ characters.old.items ++ single set character }
    ensures few { length characters.new.items ≤ length characters.old.items + 3 }
{
    match (set, character) {
        (CodeSet::C, Character::Function1) => characters.push(character),
        (CodeSet::C, _) => {
            characters.push(Character::Code(CodeSet::B));
            append_in_set_b(characters, character);
        }
        (CodeSet::A | CodeSet::B, _) => append_in_set_b(characters, character),
    }
}

// Appends a character in set B, with SHIFT before it if it is one of set A.
fn append_in_set_b(characters: &mut ArrayVec<Character, MOST_VALUES>, character: Character)
    requires { length characters.old.items + 2 ≤ MOST_VALUES }
    ensures characters { characters.new.items ≡ characters.old.items ++ in_set_b character }
    ensures few { length characters.new.items ≤ length characters.old.items + 2 }
{
    match character {
        Character::Byte(0..=0x1F) => {
            characters.push(Character::Shift);
            characters.push(character);
        }
        _ => characters.push(character),
    }
}

// The set after a character that isn't of a pair.
fn after_single(set: CodeSet, character: Character) -> CodeSet
    ensures { result ≡ after_single set character }
{
    match (set, character) {
        (CodeSet::C, Character::Function1) => CodeSet::C,
        (CodeSet::C, _) => CodeSet::B,
        (CodeSet::A | CodeSet::B, _) => set,
    }
}
