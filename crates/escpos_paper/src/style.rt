//! The settings: how characters, barcodes, lines and QR codes are printed. What each command does to them is left to `paper`, but for
//! those that set more than one attribute and those that are ignored in mid-line.

ghost use Rattle.std.specs.Prelude.{◌≡◌, ◌↔◌, ◌≤◌, IsTrue, Some};
ghost use Rattle.escpos_command.specs.declared.command.Command.TheVariants as command;
ghost use Rattle.escpos_command.specs.declared.setting.SettingKind.TheVariants as sets;
ghost use Rattle.escpos_paper.specs.Styles.{power_on, power_on_settings, same_look, same_marks, same_setting, same_style, style_after};
ghost use Rattle.escpos_command.specs.declared.parameter.position.PositionKind.TheVariants as position;
ghost use Rattle.escpos_command.specs.declared.line_width.TheConstants.{MOST_LINE_DOTS};
ghost use Rattle.escpos_paper.specs.Cells.{cell};
ghost use Rattle.escpos_paper.specs.Dots.{area_dots, style_dots};
ghost use Rattle.escpos_paper.specs.PowerOn.{are_usual, are_usual_bars, are_usual_codes, are_usual_lines, is_usual_place};
ghost use Rattle.escpos_paper.specs.Steps.{line_style_after};

use crate::cell::{Cell, face_dots, face_rows};
use escpos_command::{
    Alignment, Correction, FontFace, HriPosition, LineWidth, SettingKind, alignment_of, choice,
    face_of, face_of_mode, has_bit, magnified, size_height, size_width, underline_of_mode,
};

/// How a printer prints characters, barcodes, lines and QR codes, as commands have set it. Init (ESC @) restores the power-on value of
/// all of it.
#[derive(Clone, Copy, Debug, PartialEq, Eq)]
pub struct Settings {
    pub text: Style,
    pub bars: BarStyle,
    pub lines: LineStyle,
    pub codes: QrStyle,
}

impl Settings {
    /// The settings of a printer just switched on: characters as `Style::power_on` has them; barcodes 162 dots high, with modules of
    /// 3 dots and no interpretation, its font A; lines at the left, with no margin, upright, with the default spacing; QR codes of model 2, with
    /// modules of 3 dots and level L.
    pub fn power_on() -> Self
        ensures { result ≡ power_on_settings }
    {
        Settings {
            text: Style::power_on(),
            bars: BarStyle {
                height: 162,
                module_width: 3,
                place: HriPosition::Nowhere,
                hri_font: FontFace::A,
            },
            lines: LineStyle {
                alignment: Placing {
                    side: Alignment::Left,
                    margin: 0,
                    width: None,
                },
                upside_down: false,
                spacing: None,
            },
            codes: QrStyle {
                model: 2,
                size: 3,
                correction: Correction::L,
            },
        }
    }

    /// Whether they are those of a printer just switched on.
    pub fn are_usual(&self) -> bool
        ensures value { result ≡ are_usual self.now }
        ensures usual { IsTrue result ↔ (self.now ≡ power_on_settings) }
    {
        self.text.is_same(&Style::power_on())
            && self.bars.is_usual()
            && self.lines.is_usual()
            && self.codes.is_usual()
    }
}

/// How a character is printed.
#[derive(Clone, Copy, Debug, PartialEq, Eq)]
pub struct Style {
    /// The number of the character code table.
    pub table: u8,
    pub font: FontFace,
    /// The width factor, 1 to 8.
    pub width: u8,
    /// The height factor, 1 to 8.
    pub height: u8,
    pub bold: bool,
    /// The thickness of the underline in dots, 0 to 2.
    pub underline: u8,
    /// Whether each dot is struck twice.
    pub strike: bool,
    /// Whether characters are white on black.
    pub reverse: bool,
    /// The number of the international character set, 0 to 17.
    pub character_set: u8,
    /// The space to the right of a character, in dots at width 1.
    pub spacing: u8,
    /// The number of the colour: 0, or 1 for the second one.
    pub color: u8,
    /// Whether characters are turned by 90 degrees, clockwise.
    pub turned: bool,
}

impl Style {
    /// The style of a printer just switched on: table 0, font A, size 1 by 1, no emphasis, no underline, no
    /// double strike, black on white, character set 0, no space between characters, the first colour, upright.
    pub fn power_on() -> Self
        ensures { result ≡ power_on }
    {
        Style {
            table: 0,
            font: FontFace::A,
            width: 1,
            height: 1,
            bold: false,
            underline: 0,
            strike: false,
            reverse: false,
            character_set: 0,
            spacing: 0,
            color: 0,
            turned: false,
        }
    }

    /// How wide a character in this style is with the space to its right, in dots.
    pub fn dots(&self) -> usize
        ensures value { result ≡ style_dots self.now }
        ensures small { result ≤ 100_000 }
        ensures narrow { self.now.width ≤ 8 → self.now.height ≤ 8 → result ≤ 2232 }
    {
        if self.turned {
            (face_rows(self.font) + self.spacing as usize) * self.height as usize
        } else {
            (face_dots(self.font) + self.spacing as usize) * self.width as usize
        }
    }

    /// A character in this style.
    pub fn cell(self, byte: u8) -> Cell
        ensures { result ≡ cell self byte }
    {
        Cell {
            byte,
            style: self,
            moved: None,
        }
    }

    /// Whether the two styles are the same.
    #[inline]
    pub fn is_same(&self, other: &Style) -> bool
        ensures value { result ≡ same_style self.now other.now }
        ensures same { IsTrue result ↔ (self.now ≡ other.now) }
    {
        // Not `&&`: so the compiler compares eight bytes at once, and this is asked for each character.
        self.has_same_look(other) & self.has_same_marks(other) & self.has_same_setting(other)
    }

    // Whether all fields up to the underline are the same.
    #[inline]
    fn has_same_look(&self, other: &Style) -> bool
        ensures value { result ≡ same_look self.now other.now }
        ensures same { IsTrue result ↔ ((self.now.table ≡ other.now.table) × (self.now.font ≡ other.now.font) × (self.now.width ≡ other.now.width)
            × (self.now.height ≡ other.now.height) × (self.now.bold ≡ other.now.bold) × (self.now.underline ≡ other.now.underline)) }
    {
        (self.table == other.table)
            & (self.font == other.font)
            & (self.width == other.width)
            & (self.height == other.height)
            & (self.bold == other.bold)
            & (self.underline == other.underline)
    }

    // Whether strike, reverse and character set are the same.
    #[inline]
    fn has_same_marks(&self, other: &Style) -> bool
        ensures value { result ≡ same_marks self.now other.now }
        ensures same { IsTrue result ↔ ((self.now.strike ≡ other.now.strike) × (self.now.reverse ≡ other.now.reverse)
            × (self.now.character_set ≡ other.now.character_set)) }
    {
        (self.strike == other.strike)
            & (self.reverse == other.reverse)
            & (self.character_set == other.character_set)
    }

    // Whether spacing, colour and turn are the same.
    #[inline]
    fn has_same_setting(&self, other: &Style) -> bool
        ensures value { result ≡ same_setting self.now other.now }
        ensures same { IsTrue result ↔ ((self.now.spacing ≡ other.now.spacing) × (self.now.color ≡ other.now.color)
            × (self.now.turned ≡ other.now.turned)) }
    {
        (self.spacing == other.spacing)
            & (self.color == other.color)
            & (self.turned == other.turned)
    }

    /// The style after a setting of this kind with this parameter. One that sets nothing of a character leaves it.
    pub fn after(self, kind: SettingKind, parameter: Option<u8>) -> Self
        ensures { result ≡ style_after self (command.Set (kind, parameter)) }
    {
        let value = parameter.unwrap_or(0);
        match kind {
            SettingKind::Mode => self.in_mode(value),
            SettingKind::Size => self.in_size(value),
            SettingKind::Table => Style {
                table: value,
                ..self
            },
            SettingKind::Font => Style {
                font: face_of(choice(value)),
                ..self
            },
            SettingKind::Emphasis => Style {
                bold: has_bit(value, 0),
                ..self
            },
            SettingKind::Underline => Style {
                underline: choice(value),
                ..self
            },
            SettingKind::DoubleStrike => Style {
                strike: has_bit(value, 0),
                ..self
            },
            SettingKind::Reverse => Style {
                reverse: has_bit(value, 0),
                ..self
            },
            SettingKind::CharacterSet => Style {
                character_set: value,
                ..self
            },
            SettingKind::CharacterSpacing => Style {
                spacing: value,
                ..self
            },
            SettingKind::Color => Style {
                color: choice(value),
                ..self
            },
            SettingKind::Turned => Style {
                turned: choice(value) != 0,
                ..self
            },
            _ => self,
        }
    }

    // The style after ESC !, which sets font, size, emphasis and underline.
    fn in_mode(self, mode: u8) -> Self
        ensures { result ≡ style_after self (command.Set (sets.Mode, Some mode)) }
    {
        Style {
            font: face_of_mode(mode),
            width: magnified(has_bit(mode, 5)),
            height: magnified(has_bit(mode, 4)),
            bold: has_bit(mode, 3),
            underline: underline_of_mode(mode),
            ..self
        }
    }

    // The style after GS !, which sets width and height.
    fn in_size(self, size: u8) -> Self
        ensures { result ≡ style_after self (command.Set (sets.Size, Some size)) }
    {
        Style {
            width: size_width(size),
            height: size_height(size),
            ..self
        }
    }
}

/// Where a line stands, and where a barcode, a raster or a QR code does.
#[derive(Clone, Copy, Debug, PartialEq, Eq)]
pub struct Placing {
    /// Its side of the printing area.
    pub side: Alignment,
    /// The left margin in dots.
    pub margin: u16,
    /// The width of the printing area in dots; `None` where all that is right of the margin is it. Beyond the line there is none.
    pub width: Option<u16>,
}

impl Placing {
    // Whether it is that of a printer just switched on.
    fn is_usual(self) -> bool
        ensures value { result ≡ is_usual_place self }
        ensures usual { IsTrue result ↔ (self ≡ power_on_settings.lines.alignment) }
    {
        self.side == Alignment::Left && self.margin == 0 && self.width.is_none()
    }

    /// How many dots a line of this width has right of the margin for the printing area.
    #[inline]
    pub fn area_dots(self, line: LineWidth) -> usize
        ensures value { result ≡ area_dots line self }
        ensures within { result ≤ MOST_LINE_DOTS }
    {
        let most = line.dots().saturating_sub(self.margin);
        match self.width {
            Some(width) if width <= most => usize::from(width),
            _ => usize::from(most),
        }
    }
}

/// How a line is printed and fed.
#[derive(Clone, Copy, Debug, PartialEq, Eq)]
pub struct LineStyle {
    /// Where it stands.
    pub alignment: Placing,
    /// Whether it is printed upside down.
    pub upside_down: bool,
    /// How far the paper is fed for a line, in motion units; `None` for the default.
    pub spacing: Option<u8>,
}

impl LineStyle {
    // Whether it is that of a printer just switched on.
    fn is_usual(self) -> bool
        ensures value { result ≡ are_usual_lines self }
        ensures usual { IsTrue result ↔ (self ≡ power_on_settings.lines) }
    {
        self.alignment.is_usual() && !self.upside_down && self.spacing.is_none()
    }

    // After ESC a, which is ignored if the line has text.
    pub(crate) fn aligned(self, is_line_empty: bool, align: u8) -> Self
        ensures { result ≡ line_style_after is_line_empty self (command.Set (sets.Align, Some align)) }
    {
        if is_line_empty {
            LineStyle {
                alignment: Placing {
                    side: alignment_of(choice(align)),
                    ..self.alignment
                },
                ..self
            }
        } else {
            self
        }
    }

    // After GS L, which is ignored if the line has text.
    pub(crate) fn with_margin(self, is_line_empty: bool, margin: u16) -> Self
        ensures { result ≡ line_style_after is_line_empty self (command.Position (position.LeftMargin, margin)) }
    {
        if is_line_empty {
            LineStyle {
                alignment: Placing {
                    margin,
                    ..self.alignment
                },
                ..self
            }
        } else {
            self
        }
    }

    // After GS W, which is ignored if the line has text.
    pub(crate) fn with_width(self, is_line_empty: bool, width: u16) -> Self
        ensures { result ≡ line_style_after is_line_empty self (command.Position (position.AreaWidth, width)) }
    {
        if is_line_empty {
            LineStyle {
                alignment: Placing {
                    width: Some(width),
                    ..self.alignment
                },
                ..self
            }
        } else {
            self
        }
    }

    // After ESC {, which is ignored if the line has text.
    pub(crate) fn turned(self, is_line_empty: bool, upside_down: u8) -> Self
        ensures { result ≡ line_style_after is_line_empty self (command.Set (sets.UpsideDown, Some upside_down)) }
    {
        if is_line_empty {
            LineStyle {
                upside_down: has_bit(upside_down, 0),
                ..self
            }
        } else {
            self
        }
    }
}

/// How a QR code is printed.
#[derive(Clone, Copy, Debug, PartialEq, Eq)]
pub struct QrStyle {
    /// The model, 1 or 2.
    pub model: u8,
    /// The size of a module in dots, 1 to 16.
    pub size: u8,
    pub correction: Correction,
}

impl QrStyle {
    // Whether it is that of a printer just switched on.
    fn is_usual(self) -> bool
        ensures value { result ≡ are_usual_codes self }
        ensures usual { IsTrue result ↔ (self ≡ power_on_settings.codes) }
    {
        self.model == 2 && self.size == 3 && self.correction == Correction::L
    }
}

/// How a barcode is printed.
#[derive(Clone, Copy, Debug, PartialEq, Eq)]
pub struct BarStyle {
    /// The height in dots, 1 to 255.
    pub height: u8,
    /// The width of a module in dots, 2 to 6.
    pub module_width: u8,
    /// Where the human readable interpretation stands.
    pub place: HriPosition,
    /// The font of that interpretation.
    pub hri_font: FontFace,
}

impl BarStyle {
    // Whether it is that of a printer just switched on.
    fn is_usual(self) -> bool
        ensures value { result ≡ are_usual_bars self }
        ensures usual { IsTrue result ↔ (self ≡ power_on_settings.bars) }
    {
        self.height == 162
            && self.module_width == 3
            && self.place == HriPosition::Nowhere
            && self.hri_font == FontFace::A
    }
}
