//! The code tables: the characters of the bytes 80 to FF, and of a character its byte. (Reference: ESC t.)
//!
//! The tables stand in the modules below, by their makers; nothing else of the repository has a copy of them.

ghost use Rattle.std.specs.Prelude.{◌≡◌, ◌≢◌, ◌==◌, ◌<◌, ℕ, [], length, slice_index, MatchOption, MatchResult, IsTrue, position};
ghost use Rattle.std.specs.List.Sorted.{IsNonDecreasing};
ghost use Rattle.escpos_text.specs.CodeTables.{characters_of};
ghost use Rattle.escpos_text.specs.Index.{is_index};
ghost use Rattle.escpos_text.specs.TablePlaces.{IsPlaceOf};

mod dos;
mod dos_others;
mod iso;
mod katakana;
mod windows;

/// Where a table has its characters.
pub struct Index {
    /// The characters of the table in order.
    sorted: [char; 128],
    /// The first place of each in the table.
    places: [u8; 128],
}

/// The tables in the order of their numbers: the characters of the bytes 80 to FF, with NUL where a place is open.
static TABLES: [[char; 128]; 32] = [
    dos::PC437,
    katakana::KATAKANA,
    dos::PC850,
    dos::PC860,
    dos::PC863,
    dos::PC865,
    dos_others::PC857,
    dos_others::PC737,
    iso::ISO8859_7,
    windows::WPC1252,
    dos_others::PC866,
    dos_others::PC852,
    dos::PC858,
    dos_others::PC720,
    dos_others::WPC775,
    dos_others::PC855,
    dos::PC861,
    dos_others::PC862,
    dos_others::PC864,
    dos_others::PC869,
    iso::ISO8859_2,
    iso::ISO8859_15,
    dos_others::PC1125,
    windows::WPC1250,
    windows::WPC1251,
    windows::WPC1253,
    windows::WPC1254,
    windows::WPC1255,
    windows::WPC1256,
    windows::WPC1257,
    windows::WPC1258,
    windows::KZ1048,
];

/// The index of each of these tables.
static INDEXES: [Index; 32] = [
    dos::PC437_INDEX,
    katakana::KATAKANA_INDEX,
    dos::PC850_INDEX,
    dos::PC860_INDEX,
    dos::PC863_INDEX,
    dos::PC865_INDEX,
    dos_others::PC857_INDEX,
    dos_others::PC737_INDEX,
    iso::ISO8859_7_INDEX,
    windows::WPC1252_INDEX,
    dos_others::PC866_INDEX,
    dos_others::PC852_INDEX,
    dos::PC858_INDEX,
    dos_others::PC720_INDEX,
    dos_others::WPC775_INDEX,
    dos_others::PC855_INDEX,
    dos::PC861_INDEX,
    dos_others::PC862_INDEX,
    dos_others::PC864_INDEX,
    dos_others::PC869_INDEX,
    iso::ISO8859_2_INDEX,
    iso::ISO8859_15_INDEX,
    dos_others::PC1125_INDEX,
    windows::WPC1250_INDEX,
    windows::WPC1251_INDEX,
    windows::WPC1253_INDEX,
    windows::WPC1254_INDEX,
    windows::WPC1255_INDEX,
    windows::WPC1256_INDEX,
    windows::WPC1257_INDEX,
    windows::WPC1258_INDEX,
    windows::KZ1048_INDEX,
];

/// The place of each table in `TABLES`, by its number; 32 where there is no such table.
static PLACES: [u8; 54] = [
    0, 1, 2, 3, 4, 5, 32, 32, 32, 32, 32, 32, 32, 6, 7, 8, 9, 10, 11, 12, 32, 32, 32, 32, 32, 32,
    32, 32, 32, 32, 32, 32, 13, 14, 15, 16, 17, 18, 19, 20, 21, 32, 32, 32, 22, 23, 24, 25, 26, 27,
    28, 29, 30, 31,
];

// The place of the table with a number in `TABLES` and `INDEXES`.
fn place_in_tables(number: u8) -> Option<usize>
    ensures { MatchOption result (characters_of number ≡ []) (λ place. IsPlaceOf place number) }
{
    if number > 53 {
        return None;
    }
    let place = PLACES[usize::from(number)];
    if place < 32 {
        Some(usize::from(place))
    } else {
        None
    }
}

/// The characters of the table with a number. Only this function reads the tables themselves, so that no other proof carries
/// them.
pub fn table_of(number: u8) -> Option<&'static [char; 128]>
    ensures { MatchOption result (characters_of number ≡ []) (λ table. (table.now ≡ characters_of number) × (length table.now ≡ 128)) }
{
    match place_in_tables(number) {
        Some(place) => Some(&TABLES[place]),
        None => None,
    }
}

// The index of the table with a number. Only this function reads the indexes themselves.
fn index_of(number: u8) -> Option<&'static Index>
    ensures { MatchOption result
        (characters_of number ≡ [])
        (λ index. IsTrue (is_index (characters_of number) index.now.sorted index.now.places)) }
{
    match place_in_tables(number) {
        Some(place) => Some(&INDEXES[place]),
        None => None,
    }
}

fn found(sorted: &[char], character: char) -> Result<usize, usize>
    requires { IsNonDecreasing sorted.now }
    ensures { MatchResult result
        (λ i. (i < length sorted.now) × (slice_index sorted.now i ≡ character))
        (λ _. (k : ℕ) → k < length sorted.now → slice_index sorted.now k ≢ character) }
{
    sorted.binary_search(&character)
}

/// The first place of a character in the table with a number, 0 for the byte 80.
pub fn place_of(number: u8, character: char) -> Option<u8>
    ensures place { result ≡ position (λ x. x == character) (characters_of number) }
    ensures short { MatchOption result (Unit {0}) (λ place. place < 128) }
{
    match index_of(number) {
        Some(index) => match found(&index.sorted, character) {
            Ok(at) => Some(index.places[at]),
            Err(_) => None,
        },
        None => None,
    }
}
