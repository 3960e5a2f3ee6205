//! The pen: it draws elements next to one another, in dots, as long as they fit on the line.

ghost use Rattle.std.specs.Prelude.{◌≡◌, ◌≤◌, ◌<◌, List, [], ◌∷◌, length, IsTrue};
ghost use Rattle.std.specs.List.{list_all};
ghost use Rattle.escpos_barcode.specs.Drawn.{has_two_widths, wide, element_dots, is_module};
ghost use Rattle.escpos_barcode.specs.Pen.{Drawing, is_element, more, add, draw, blank};

use arrayvec::ArrayVec;
use escpos_command::{LineWidth, Symbology};
use std::marker::Model;

/// The most bars and spaces that fit on a line of 1,024 dots: each is at least two dots wide.
pub const MOST_RUNS: usize = 512;

const _: () = prove!(MOST_RUNS == 512);

/// The bars and spaces of a barcode from left to right, a bar first and a bar last: their widths in dots. They are part of
/// the value itself, so they allocate nothing.
#[derive(Debug, Drop)]
pub struct Runs {
    widths: ArrayVec<u8, MOST_RUNS>,
}

impl Model for Runs {
    ghost use Rattle.std.specs.Prelude.{List, ℕ};

    ghost Value = { List ℕ };

    ghost view = { λ r. r.widths.items };
}

impl Runs {
    /// The widths as a slice, 2 to 24 each.
    pub fn as_slice(&self) -> &[u8]
        ensures widths { result.now ≡ self.now }
        ensures few { length result.now ≤ MOST_RUNS }
    {
        self.widths.as_slice()
    }
}

/// What is drawn so far on a line, of one symbology in one module width, 2 to 6 dots.
#[derive(Drop)]
pub struct Pen {
    line_width: LineWidth,
    symbology: Symbology,
    module_width: u8,
    widths: ArrayVec<u8, MOST_RUNS>,
    dots: u16,
    fits: bool,
}

impl Model for Pen {
    ghost use Rattle.std.specs.Prelude.{◌≡◌, ◌≤◌, ◌*◌, ℕ, sum, length, IsTrue, Some, None, if◌then◌else◌};
    ghost use Rattle.escpos_barcode.specs.Drawn.{is_module};
    ghost use Rattle.escpos_barcode.specs.Pen.{Drawing};

    ghost Value = { Drawing };

    ghost view = { λ p. record { line_dots = p.line_width; symbology = p.symbology; module_width = p.module_width; widths = if p.fits then Some p.widths.items else None } };

    ghost invariant = { λ p. IsTrue (is_module p.module_width) × (sum p.widths.items ≡ p.dots) × (p.dots ≤ p.line_width) × (2 * length p.widths.items ≤ p.dots) };
}

impl Pen {
    /// Nothing drawn yet.
    pub fn new(line_width: LineWidth, symbology: Symbology, module_width: u8) -> Self
        requires { IsTrue (is_module module_width) }
        ensures { result ≡ blank line_width symbology module_width }
    {
        Pen {
            line_width,
            symbology,
            module_width,
            widths: ArrayVec::new(),
            dots: 0,
            fits: true,
        }
    }

    /// Draws further elements, 1 to 4 modules each.
    pub fn draw(&mut self, elements: &[u8])
        requires { IsTrue (list_all is_element elements.now) }
        ensures { self.new ≡ draw self.old elements.now }
    {
        for element in elements {
            let width = element_dots(self.symbology, self.module_width, *element);
            self.add(width);
        }
    }

    // Draws one bar or space of this many dots.
    fn add(&mut self, width: u8)
        requires { 2 ≤ width }
        ensures { self.new ≡ add self.old (width ∷ []) }
    {
        let line_dots = self.line_width.dots();
        let dots = self.dots + u16::from(width);
        if self.fits && dots <= line_dots {
            self.widths.push(width);
            self.dots = dots;
        } else {
            self.fits = false;
        }
    }

    /// What is drawn. `None`: it doesn't fit on the line.
    pub fn finish(self) -> Option<Runs>
        ensures { result ≡ self.widths }
    {
        if self.fits {
            Some(Runs {
                widths: self.widths,
            })
        } else {
            None
        }
    }
}

/// How many dots wide a wide element of CODE39, ITF and CODABAR is, at a module width of 2 to 6. (Reference: GS w.)
pub fn wide_dots(module_width: u8) -> u8
    ensures dots { result ≡ wide module_width }
    ensures range { result ≤ 16 }
{
    match module_width {
        2 => 5,
        3 => 8,
        4 => 10,
        5 => 13,
        _ => 16,
    }
}

// Whether elements are narrow or wide.
fn has_two_widths(symbology: Symbology) -> bool
    ensures { result ≡ has_two_widths symbology }
{
    matches!(
        symbology,
        Symbology::Code39 | Symbology::Itf | Symbology::Codabar
    )
}

// How many dots wide an element is.
fn element_dots(symbology: Symbology, module_width: u8, element: u8) -> u8
    requires module_width { IsTrue (is_module module_width) }
    requires element { IsTrue (is_element element) }
    ensures dots { result ≡ element_dots symbology module_width element }
    ensures wide { 2 ≤ result }
{
    if !has_two_widths(symbology) {
        element * module_width
    } else if element == 1 {
        module_width
    } else {
        wide_dots(module_width)
    }
}
