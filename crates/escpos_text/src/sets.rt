//! The international character sets, which exchange twelve bytes of ASCII. (Reference: ESC R.)

ghost use Rattle.std.specs.Prelude.{◌≡◌, ◌==◌, ◌<◌, ℕ, [], length, MatchOption, Some, position, slice_get, slice_index};
ghost use Rattle.escpos_text.specs.CharacterSets.{exchanged_bytes, characters_in};

/// The twelve bytes that a set exchanges.
const EXCHANGED: [u8; 12] = *b"#$@[\\]^`{|}~";

/// The characters of these bytes, by the number of the set.
static SETS: [[char; 12]; 18] = [
    // USA, France, Germany, UK
    ['#', '$', '@', '[', '\\', ']', '^', '`', '{', '|', '}', '~'],
    ['#', '$', 'à', '°', 'ç', '§', '^', '`', 'é', 'ù', 'è', '¨'],
    ['#', '$', '§', 'Ä', 'Ö', 'Ü', '^', '`', 'ä', 'ö', 'ü', 'ß'],
    ['£', '$', '@', '[', '\\', ']', '^', '`', '{', '|', '}', '~'],
    // Denmark I, Sweden, Italy, Spain I
    ['#', '$', '@', 'Æ', 'Ø', 'Å', '^', '`', 'æ', 'ø', 'å', '~'],
    ['#', '¤', 'É', 'Ä', 'Ö', 'Å', 'Ü', 'é', 'ä', 'ö', 'å', 'ü'],
    ['#', '$', '@', '°', '\\', 'é', '^', 'ù', 'à', 'ò', 'è', 'ì'],
    ['₧', '$', '@', '¡', 'Ñ', '¿', '^', '`', '¨', 'ñ', '}', '~'],
    // Japan, Norway, Denmark II, Spain II
    ['#', '$', '@', '[', '¥', ']', '^', '`', '{', '|', '}', '~'],
    ['#', '¤', 'É', 'Æ', 'Ø', 'Å', 'Ü', 'é', 'æ', 'ø', 'å', 'ü'],
    ['#', '$', 'É', 'Æ', 'Ø', 'Å', 'Ü', 'é', 'æ', 'ø', 'å', 'ü'],
    ['#', '$', 'á', '¡', 'Ñ', '¿', 'é', '`', 'í', 'ñ', 'ó', 'ú'],
    // Latin America, Korea, Slovenia and Croatia, China
    ['#', '$', 'á', '¡', 'Ñ', '¿', 'é', 'ü', 'í', 'ñ', 'ó', 'ú'],
    ['#', '$', '@', '[', '₩', ']', '^', '`', '{', '|', '}', '~'],
    ['#', '$', 'Ž', 'Š', 'Đ', 'Ć', 'Č', 'ž', 'š', 'đ', 'ć', 'č'],
    ['#', '¥', '@', '[', '\\', ']', '^', '`', '{', '|', '}', '~'],
    // Vietnam, Arabia
    ['#', '₫', '@', '[', '\\', ']', '^', '`', '{', '|', '}', '~'],
    ['#', '$', '@', '[', '\\', ']', '^', '`', '{', '|', '}', '~'],
];

/// The place of a byte among the twelve.
#[tactic(auto, unfolding(crate::specs::CharacterSets::exchanged_bytes))]
pub fn exchanged_place(byte: u8) -> Option<usize>
    ensures place { result ≡ position (λ x. x == byte) exchanged_bytes }
    ensures short { MatchOption result (Unit {0}) (λ place. place < 12) }
{
    match byte {
        b'#' => Some(0),
        b'$' => Some(1),
        b'@' => Some(2),
        b'[' => Some(3),
        b'\\' => Some(4),
        b']' => Some(5),
        b'^' => Some(6),
        b'`' => Some(7),
        b'{' => Some(8),
        b'|' => Some(9),
        b'}' => Some(10),
        b'~' => Some(11),
        _ => None,
    }
}

/// The byte at a place among the twelve.
#[tactic(auto, unfolding(crate::specs::CharacterSets::exchanged_bytes))]
pub fn exchanged_byte(place: usize) -> u8
    requires { place < 12 }
    ensures { result ≡ slice_index exchanged_bytes place }
{
    EXCHANGED[place]
}

// The characters of a set. Only this function reads the sets themselves, so that no other proof carries them.
fn set_of(set: u8) -> Option<&'static [char; 12]>
    ensures { MatchOption result (characters_in set ≡ []) (λ characters. (characters.now ≡ characters_in set) × (length characters.now ≡ 12)) }
{
    if set > 17 {
        return None;
    }
    Some(&SETS[usize::from(set)])
}

/// The character at a place of a set; none above set 17.
pub fn character_in(set: u8, place: usize) -> Option<char>
    requires { place < 12 }
    ensures { result ≡ slice_get (characters_in set) place }
{
    match set_of(set) {
        Some(characters) => Some(characters[place]),
        None => None,
    }
}

/// The first place of a character in a set.
pub fn place_in_set(set: u8, character: char) -> Option<usize>
    ensures place { result ≡ position (λ x. x == character) (characters_in set) }
    ensures short { MatchOption result (Unit {0}) (λ place. place < 12) }
{
    match set_of(set) {
        Some(characters) => characters.iter().position(|c| *c == character),
        None => None,
    }
}
