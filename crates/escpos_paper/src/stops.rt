//! Tab stops, in dots.

ghost use Rattle.std.specs.Prelude.{◌≡◌, ◌↔◌, ◌≤◌, IsTrue, length};
ghost use Rattle.escpos_paper.specs.Cells.{next_stop};
ghost use Rattle.escpos_paper.specs.PowerOn.{same_numbers};
ghost use Rattle.escpos_paper.specs.Styles.{dots_of_columns, usual_stops};

use crate::style::Style;
use escpos_command::TabStops;
use std::marker::Model;

/// The most tab stops.
pub const MOST_STOPS: usize = 32;

const _: () = prove!(MOST_STOPS == 32);

/// Tab stops: the dots at which they stand, in order, at most 32.
#[derive(Drop)]
pub struct Stops {
    dots: [u32; MOST_STOPS],
    count: usize,
}

impl Model for Stops {
    ghost use Rattle.std.specs.Prelude.{List, ℕ, take, ◌≤◌};
    ghost use Rattle.escpos_paper.specs.declared.stops.TheConstants.{MOST_STOPS};

    ghost Value = { List ℕ };

    ghost view = { λ s. take s.count s.dots };

    ghost invariant = { λ s. s.count ≤ MOST_STOPS };
}

impl Stops {
    /// Those of a printer just switched on: each eighth character of font A.
    pub fn usual() -> Self
        ensures { result ≡ usual_stops }
    {
        let mut dots = [0; MOST_STOPS];
        dots[..10].copy_from_slice(&[96, 192, 288, 384, 480, 576, 672, 768, 864, 960]);
        Stops { dots, count: 10 }
    }

    /// Whether they are those of a printer just switched on.
    pub fn are_usual(&self) -> bool
        ensures value { result ≡ same_numbers self.now usual_stops }
        ensures usual { IsTrue result ↔ (self.now ≡ usual_stops) }
    {
        let usual = Stops::usual();
        &self.dots[..self.count] == &usual.dots[..usual.count]
    }

    /// Those at the columns of characters in a style.
    pub fn of(columns: &TabStops, style: &Style) -> Self
        ensures { result ≡ dots_of_columns style.now columns.now }
    {
        let columns = columns.as_slice();
        let width = style.dots() as u32;
        let mut dots = [0; MOST_STOPS];
        for (place, column) in columns.iter().enumerate() {
            dots[place] = u32::from(*column) * width;
        }
        Stops {
            dots,
            count: columns.len(),
        }
    }

    /// The first of them that stands to the right of a dot.
    pub fn after(&self, dot: usize) -> Option<usize>
        ensures { result ≡ next_stop dot self.now }
    {
        for stop in &self.dots[..self.count] {
            if *stop as usize > dot {
                return Some(*stop as usize);
            }
        }
        None
    }
}
