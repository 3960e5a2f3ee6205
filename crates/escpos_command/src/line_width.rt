//! The width of a line: a setting of the printer, which no command changes.

ghost use Rattle.std.specs.Prelude.{◌≡◌, ◌≤◌, ℕ, IsTrue};
ghost use Rattle.std.specs.Option.{SomeIff};
ghost use Rattle.escpos_command.specs.LineWidths.{is_line_width};

use std::marker::Model;

/// The most dots of a line.
pub const MOST_LINE_DOTS: u16 = 1024;

const _: () = prove!(MOST_LINE_DOTS == 1024);

/// The dots of a line where nothing else is said.
pub const USUAL_LINE_DOTS: u16 = 512;

const _: () = prove!(USUAL_LINE_DOTS == 512);

/// How wide a line is: 1 to 1,024 dots. Printers of paper 80 mm wide mostly have 576 or 512 dots, those of paper 58 mm wide
/// 384.
#[derive(Clone, Copy, Debug, PartialEq, Eq)]
pub struct LineWidth {
    dots: u16,
}

impl Model for LineWidth {
    ghost Value = { ℕ };

    ghost view = { λ w. w.dots };

    ghost invariant = { λ w. IsTrue (is_line_width w.dots) };

    ghost inverse = { λ n. record { dots = n } };
}

impl LineWidth {
    /// A line of this many dots; `None` for 0 and for more than 1,024.
    pub fn new(dots: u16) -> Option<Self>
        ensures { SomeIff result (IsTrue (is_line_width dots)) dots }
    {
        if matches!(dots, 1..=MOST_LINE_DOTS) {
            Some(LineWidth { dots })
        } else {
            None
        }
    }

    /// A line of 512 dots.
    pub fn usual() -> Self
        ensures { result ≡ USUAL_LINE_DOTS }
    {
        LineWidth {
            dots: USUAL_LINE_DOTS,
        }
    }

    /// The dots of the line, 1 to 1,024.
    pub fn dots(self) -> u16
        ensures kept { result ≡ self }
        ensures range { IsTrue (is_line_width result) }
        ensures least { 1 ≤ result }
        ensures most { result ≤ MOST_LINE_DOTS }
    {
        self.dots
    }
}
