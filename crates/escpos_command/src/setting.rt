//! The commands that only set something, from one table.
//!
//! A row of the table is a kind with its prefix, the parameters that may follow it, the profile of this project that first had
//! it, and its name in a listing. From the rows come the constant that the definitions cite (`specs/SettingTable.antt`), the
//! prefixes, the names and the search for a prefix. What holds for every kind is proved of any table of such rows: a new
//! setting is a variant of `SettingKind`, a row in the same place, and a line of `specs/Reference.antt`.

ghost use Rattle.std.specs.Prelude.{◌≡◌, ◌≤◌, ◌∷◌, ℕ, false, length, option_to_list, IsTrue, MatchOption};
ghost use Rattle.std.specs.List.{list_any};
ghost use Rattle.std.specs.Option.{SomeIff};
ghost use Rattle.escpos_command.specs.SettingTable.{table, fits, row_for, row_prefix, has_first, has_prefix, takes_third, is_setting, value};
ghost use Rattle.escpos_command.specs.Reference.{name_of};

use crate::bytes::{ESC, FS, GS};
use std::marker::Model;

/// The parameters that may follow a prefix.
#[derive(Clone, Copy, Debug, PartialEq, Eq)]
pub enum Values {
    /// None: the prefix is the whole command.
    Nothing,
    /// Any byte.
    Byte,
    /// 0 or 1, or its digit.
    OneOfTwo,
    /// 0 to 2, or its digit.
    OneOfThree,
    /// 0 to 3, or its digit.
    OneOfFour,
    /// The number of an international character set, 0 to 17.
    CharacterSet,
    /// A size of characters: bits 3 and 7 are clear.
    Size,
    /// The height of a barcode, 1 to 255.
    BarHeight,
    /// The module width of a barcode, 2 to 6.
    BarWidth,
}

/// What a setting is a setting of, in the order of the table.
#[derive(Clone, Copy, Debug, PartialEq, Eq)]
pub enum SettingKind {
    /// Font, emphasis, size and underline at once. (Reference: ESC !.)
    Mode,
    /// Emphasis. (Reference: ESC E.)
    Emphasis,
    /// Double strike. (Reference: ESC G.)
    DoubleStrike,
    /// The underline. (Reference: ESC -.)
    Underline,
    /// The font. (Reference: ESC M.)
    Font,
    /// The character code table. It is kept with each character. (Reference: ESC t.)
    Table,
    /// The international character set. It is kept with each character. (Reference: ESC R.)
    CharacterSet,
    /// White on black. (Reference: GS B.)
    Reverse,
    /// Smoothing, which has no effect. (Reference: GS b.)
    Smoothing,
    /// Whether lines are printed upside down. (Reference: ESC {.)
    UpsideDown,
    /// The alignment of lines. (Reference: ESC a.)
    Align,
    /// The line spacing in motion units. (Reference: ESC 3.)
    LineSpacing,
    /// The default line spacing. (Reference: ESC 2.)
    DefaultSpacing,
    /// The size of characters. (Reference: GS !.)
    Size,
    /// The height of barcodes. (Reference: GS h.)
    BarHeight,
    /// The module width of barcodes. (Reference: GS w.)
    BarWidth,
    /// Where a barcode's human readable interpretation stands. (Reference: GS H.)
    HriPlace,
    /// The font of that interpretation. (Reference: GS f.)
    HriFont,
    /// Printing in one direction, which has no effect. (Reference: ESC U.)
    Unidirectional,
    /// The print head's way home, which has no effect. (Reference: ESC <.)
    Home,
    /// Which devices take what follows, which has no effect: there is no other than the printer. (Reference: ESC =.)
    Devices,
    /// Which paper sensors tell of the paper's end by a signal, which has no effect. (Reference: ESC c 3.)
    EndSensors,
    /// Which paper sensors stop the printer, which has no effect. (Reference: ESC c 4.)
    StopSensors,
    /// Whether the buttons of the panel do something, which has no effect. (Reference: ESC c 5.)
    PanelButtons,
    /// The end of Kanji mode, in which this printer never is. (Reference: FS .)
    KanjiOff,
    /// The space to the right of each character, in motion units. It is kept with each character. (Reference: ESC SP.)
    CharacterSpacing,
    /// The colour. It is kept with each character. (Reference: ESC r.)
    Color,
    /// Whether characters are turned by 90 degrees, clockwise. It is kept with each character. (Reference: ESC V.)
    Turned,
}

/// A row of the table.
#[derive(Clone, Copy, Debug, PartialEq, Eq)]
pub struct Row {
    pub kind: SettingKind,
    /// The first byte of the prefix.
    pub first: u8,
    /// Its second byte.
    pub second: u8,
    /// Its third byte, if it has one.
    pub third: Option<u8>,
    pub values: Values,
    /// The number of the profile that first had it.
    pub since: u8,
}

// The table: a kind, its prefix, the parameters that may follow it, the profile that first had it, and its name.
macro_rules! settings {
    ($with:ident $($place:ident)?) => {
        $with! {
            $($place)?;
            Mode, ESC, b'!', None, Byte, 1, "mode";
            Emphasis, ESC, b'E', None, Byte, 1, "emphasis";
            DoubleStrike, ESC, b'G', None, Byte, 3, "strike";
            Underline, ESC, b'-', None, OneOfThree, 1, "underline";
            Font, ESC, b'M', None, OneOfTwo, 1, "font";
            Table, ESC, b't', None, Byte, 1, "table";
            CharacterSet, ESC, b'R', None, CharacterSet, 3, "charset";
            Reverse, GS, b'B', None, Byte, 3, "reverse";
            Smoothing, GS, b'b', None, Byte, 3, "smooth";
            UpsideDown, ESC, b'{', None, Byte, 3, "upside";
            Align, ESC, b'a', None, OneOfThree, 1, "align";
            LineSpacing, ESC, b'3', None, Byte, 3, "spacing";
            DefaultSpacing, ESC, b'2', None, Nothing, 3, "spacing default";
            Size, GS, b'!', None, Size, 1, "size";
            BarHeight, GS, b'h', None, BarHeight, 1, "barheight";
            BarWidth, GS, b'w', None, BarWidth, 1, "barwidth";
            HriPlace, GS, b'H', None, OneOfFour, 1, "hriplace";
            HriFont, GS, b'f', None, OneOfTwo, 1, "hrifont";
            Unidirectional, ESC, b'U', None, Byte, 4, "unidirectional";
            Home, ESC, b'<', None, Nothing, 4, "home";
            Devices, ESC, b'=', None, Byte, 4, "devices";
            EndSensors, ESC, b'c', (Some(b'3')), Byte, 4, "endsensors";
            StopSensors, ESC, b'c', (Some(b'4')), Byte, 4, "stopsensors";
            PanelButtons, ESC, b'c', (Some(b'5')), Byte, 4, "buttons";
            KanjiOff, FS, b'.', None, Nothing, 4, "kanji off";
            CharacterSpacing, ESC, b' ', None, Byte, 4, "charspacing";
            Color, ESC, b'r', None, OneOfTwo, 4, "color";
            Turned, ESC, b'V', None, OneOfThree, 4, "turned";
        }
    };
}

macro_rules! rows {
    (; $($kind:ident, $first:expr, $second:expr, $third:tt, $values:ident, $since:expr, $name:expr;)*) => {
        [$(Row {
            kind: SettingKind::$kind,
            first: $first,
            second: $second,
            third: $third,
            values: Values::$values,
            since: $since,
        }),*]
    };
}

macro_rules! count {
    (; $($kind:ident, $first:expr, $second:expr, $third:tt, $values:ident, $since:expr, $name:expr;)*) => {
        [$($since),*].len()
    };
}

// The bytes of a prefix.
macro_rules! bytes {
    ($first:expr, $second:expr, None) => { &[$first, $second] };
    ($first:expr, $second:expr, (Some($third:expr))) => { &[$first, $second, $third] };
}

// The prefix of a kind.
macro_rules! prefixes {
    ($place:ident; $($kind:ident, $first:expr, $second:expr, $third:tt, $values:ident, $since:expr, $name:expr;)*) => {
        match $place {
            $(SettingKind::$kind => bytes!($first, $second, $third),)*
        }
    };
}

// The name of a kind.
macro_rules! names {
    ($place:ident; $($kind:ident, $first:expr, $second:expr, $third:tt, $values:ident, $since:expr, $name:expr;)*) => {
        match $place {
            $(SettingKind::$kind => $name,)*
        }
    };
}

// The parameters of a kind.
macro_rules! values {
    ($place:ident; $($kind:ident, $first:expr, $second:expr, $third:tt, $values:ident, $since:expr, $name:expr;)*) => {
        match $place {
            $(SettingKind::$kind => Values::$values,)*
        }
    };
}

// The kind of a prefix.
macro_rules! kinds {
    ($place:ident; $($kind:ident, $first:tt, $second:tt, $third:tt, $values:ident, $since:expr, $name:expr;)*) => {
        match $place {
            $(($first, $second, $third) => Some(SettingKind::$kind),)*
            _ => None,
        }
    };
}

// Whether a prefix has a third byte.
macro_rules! has_third {
    (None) => { false };
    ((Some($third:expr))) => { true };
}

// Whether a prefix of three bytes begins with the two of a place.
macro_rules! begun {
    ($place:ident; $($kind:ident, $first:tt, $second:tt, $third:tt, $values:ident, $since:expr, $name:expr;)*) => {
        match $place {
            $(($first, $second) if has_third!($third) => true,)*
            _ => false,
        }
    };
}

// Whether a prefix begins with a byte.
macro_rules! firsts {
    ($place:ident; $($kind:ident, $first:expr, $second:expr, $third:tt, $values:ident, $since:expr, $name:expr;)*) => {
        $($place == $first ||)* false
    };
}

/// How many settings there are.
pub const COUNT: usize = settings!(count);

/// The table.
pub const TABLE: [Row; COUNT] = settings!(rows);

impl SettingKind {
    /// The kind with this prefix; `None` where the table has none.
    #[tactic(auto, unfolding(crate::specs::SettingTable::table))]
    pub fn with_prefix(first: u8, second: u8, third: Option<u8>) -> Option<Self>
        ensures { MatchOption result (list_any (has_prefix first second third) table ≡ false) (λ kind. row_prefix (row_for table kind) ≡ first ∷ second ∷ option_to_list third) }
    {
        let place = (first, second, third);
        settings!(kinds place)
    }

    /// Whether a prefix begins with this byte.
    #[tactic(auto, unfolding(crate::specs::SettingTable::table))]
    pub fn begins(first: u8) -> bool
        ensures { result ≡ list_any (has_first first) table }
    {
        settings!(firsts first)
    }

    /// Whether a prefix of three bytes begins with these two.
    #[tactic(auto, unfolding(crate::specs::SettingTable::table))]
    pub fn is_begun(first: u8, second: u8) -> bool
        ensures { result ≡ list_any (takes_third first second) table }
    {
        let place = (first, second);
        settings!(begun place)
    }

    /// The bytes that a command of this kind begins with.
    #[tactic(auto, unfolding(crate::specs::SettingTable::table))]
    pub fn prefix(self) -> &'static [u8]
        ensures { result.now ≡ row_prefix (row_for table self) }
    {
        settings!(prefixes self)
    }

    /// The name in a listing.
    pub fn name(self) -> &'static str
        ensures value { result.now ≡ name_of self }
        ensures short { length result.now ≤ 15 }
    {
        settings!(names self)
    }

    // The parameters that may follow the prefix.
    #[tactic(auto, unfolding(crate::specs::SettingTable::table))]
    fn values(self) -> Values
        ensures { result ≡ (row_for table self).values }
    {
        settings!(values self)
    }
}

// Whether the parameter is one of these.
fn fits(values: Values, parameter: Option<u8>) -> bool
    ensures { result ≡ fits values parameter }
{
    match parameter {
        None => matches!(values, Values::Nothing),
        Some(n) => match values {
            Values::Nothing => false,
            Values::Byte => true,
            Values::OneOfTwo => matches!(n, 0 | 1 | 48 | 49),
            Values::OneOfThree => matches!(n, 0 | 1 | 2 | 48 | 49 | 50),
            Values::OneOfFour => matches!(n, 0..=3 | 48..=51),
            Values::CharacterSet => n <= 17,
            Values::Size => n < 128 && n % 16 < 8,
            Values::BarHeight => n >= 1,
            Values::BarWidth => matches!(n, 2..=6),
        },
    }
}

/// A command that only sets something: its kind, and a parameter that the table allows. The parameter is kept as it was sent, so
/// that a setting has one spelling.
#[derive(Clone, Copy, Debug, PartialEq, Eq)]
pub struct Setting {
    kind: SettingKind,
    parameter: Option<u8>,
}

impl Model for Setting {
    ghost use Rattle.std.specs.Prelude.{ℕ, IsTrue, Option};
    ghost use Rattle.escpos_command.specs.declared.setting.SettingKind.{SettingKind};
    ghost use Rattle.escpos_command.specs.SettingTable.{table, is_setting};

    ghost Value = { SettingKind × Option ℕ };

    ghost view = { λ s. (s.kind, s.parameter) };

    ghost invariant = { λ s. IsTrue (is_setting table (s.kind, s.parameter)) };

    ghost inverse = { λ v. record { kind = v.0; parameter = v.1 } };
}

impl Setting {
    /// The setting of this kind with this parameter; `None` where the table doesn't allow it.
    pub fn new(kind: SettingKind, parameter: Option<u8>) -> Option<Self>
        ensures { SomeIff result (IsTrue (is_setting table (kind, parameter))) (kind, parameter) }
    {
        if fits(kind.values(), parameter) {
            Some(Setting { kind, parameter })
        } else {
            None
        }
    }

    /// What it is a setting of.
    pub fn kind(self) -> SettingKind
        ensures { result ≡ self.0 }
    {
        self.kind
    }

    /// The parameter as sent.
    pub fn parameter(self) -> Option<u8>
        ensures kept { result ≡ self.1 }
        ensures range { IsTrue (is_setting table self) }
    {
        self.parameter
    }

    /// The parameter as sent; 0 where the setting has none.
    pub fn value(self) -> u8
        ensures { result ≡ value self.1 }
    {
        self.parameter.unwrap_or(0)
    }
}
