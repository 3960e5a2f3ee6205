//! Proof only: the laws of printing, each for lines of any width. The contract of each function is the law; when run, it does nothing. A law is proved
//! with this crate, and another crate cites it by calling the function.

ghost use Rattle.std.specs.Prelude.{◌≡◌, ◌↔◌, ◌<◌, ◌≤◌, ℕ, IsTrue, flat_map, None, List, [], ◌∷◌, ◌++◌};
ghost use Rattle.escpos_command.specs.declared.command.Command.{Command};
ghost use Rattle.escpos_command.specs.declared.command.Command.TheVariants.{Init, LineFeed, Mark};
ghost use Rattle.escpos_paper.specs.declared.item.Item.{Item};
ghost use Rattle.escpos_paper.specs.declared.item.Item.TheVariants.{Feed};
ghost use Rattle.std.specs.List.{AllByRecursion};
ghost use Rattle.escpos_command.specs.EarlierProfiles.{in_profile};
ghost use Rattle.escpos_command.specs.Text.{text};
ghost use Rattle.escpos_paper.specs.FirstPaper.{IsFirstItem};
ghost use Rattle.escpos_paper.specs.SecondPaper.{IsSecondItem};
ghost use Rattle.escpos_paper.specs.Styles.{is_empty, style, style_after, line_style};
ghost use Rattle.escpos_paper.specs.Cells.{Entry, bytes_of_entry, entries, nothing_placed};
ghost use Rattle.escpos_paper.specs.PowerOn.{AreAsAtPowerOn, LeavesAsNew, are_as_at_power_on, has_clear_line};
ghost use Rattle.escpos_paper.specs.Rows.{IsCut, area, fits, rows, line, moved, placed};
ghost use Rattle.escpos_paper.specs.Printed.{printed, row_of};
ghost use Rattle.escpos_paper.specs.Typed.{IsTyping, typed, GoesOnLine, from_place};
ghost use Rattle.escpos_paper.specs.Page.{Sheet, SheetIs};
ghost use Rattle.escpos_paper.specs.Torn.{below};
ghost use Rattle.escpos_paper.specs.CheckDigit.{completes, digit};

/// The characters of the line's entries are those of its text, and the line is empty if there is no text.
pub fn cells_of_text()
    ensures bytes { (width : ℕ) (cs : List Command) → flat_map bytes_of_entry (entries width cs) ≡ text cs }
    ensures empty { (width : ℕ) (cs : List Command) → is_empty (line width cs) ≡ is_empty (text cs) }
{}

/// Growing styles: one more command changes the style of characters as `style_after` says.
pub fn styles_grow()
    ensures { (cs : List Command) (c : Command) → style (cs ++ c ∷ []) ≡ style_after (style cs) c }
{}

/// Widths and heights: characters are printed at 1 to 8 times those of their font.
pub fn character_widths()
    ensures least { (cs : List Command) → 1 ≤ (style cs).width }
    ensures most { (cs : List Command) → (style cs).width ≤ 8 }
    ensures least_height { (cs : List Command) → 1 ≤ (style cs).height }
    ensures most_height { (cs : List Command) → (style cs).height ≤ 8 }
{}

/// One cut: the rows are a cut of the line's entries at the width of the printing area, and entries have no other cut.
pub fn one_cut()
    ensures cut { (width : ℕ) (cs : List Command) → IsCut (area width cs) (entries width cs) (rows width cs) }
    ensures no_other { (width : ℕ) (xs : List Entry) (found others : List (List Entry)) →
        IsCut width xs found → IsCut width xs others → found ≡ others }
{}

/// Typed text: characters that fit on the line with what stands there print nothing, and neither do code tables that are selected
/// between them. They stand on the line in the style that is set.
pub fn typed_text()
    ensures { (width : ℕ) (before cs : List Command) → AllByRecursion IsTyping cs
        → IsTrue (fits (area width before) (line width before ++ from_place (moved width before) (typed before cs)))
        → GoesOnLine width before cs }
{}

/// Line feeds: LF prints the line, if it has a character, and feeds one line; the line is empty then.
pub fn line_feeds()
    ensures prints { (width : ℕ) (cs : List Command) → printed width (cs ++ LineFeed ∷ [])
        ≡ printed width cs ++ (row_of (line_style cs) (line width cs) ++ Feed 1 (line_style cs).spacing ∷ []) }
    ensures empties { (width : ℕ) (cs : List Command) → line width (cs ++ LineFeed ∷ []) ≡ [] }
    ensures follows { (width : ℕ) (cs : List Command) → moved width (cs ++ LineFeed ∷ []) ≡ None }
    ensures same_lines { (cs : List Command) → line_style (cs ++ LineFeed ∷ []) ≡ line_style cs }
{}

/// Initialisation: what is printed after an Init is what a printer just switched on prints.
pub fn initialisation()
    ensures { (width : ℕ) (a b : List Command) → printed width (a ++ Init ∷ [] ++ b) ≡ printed width a ++ printed width b }
{}

/// As new: what follows commands that leave a printer as one just switched on is printed as by that one. What they leave is tested part by
/// part.
pub fn left_as_new()
    ensures prints { (width : ℕ) (cs more : List Command) → LeavesAsNew width cs → printed width (cs ++ more) ≡ printed width cs ++ printed width more }
    ensures set { (cs : List Command) → IsTrue (are_as_at_power_on cs) ↔ AreAsAtPowerOn cs }
    ensures line { (width : ℕ) (cs : List Command) → IsTrue (has_clear_line width cs) ↔ (placed width cs ≡ nothing_placed) }
{}

/// Marks: a mark prints nothing.
pub fn marks()
    ensures { (width : ℕ) (cs : List Command) (id : List ℕ) → printed width (cs ++ Mark id ∷ []) ≡ printed width cs }
{}

/// Growing paper: further commands print after what is printed, and change none of it.
pub fn paper_grows()
    ensures { (width : ℕ) (a b : List Command) → (more : List Item) × (printed width (a ++ b) ≡ printed width a ++ more) }
{}

/// Paper above: commands that lead from one sheet to another do so below any items.
pub fn paper_above()
    ensures { (width : ℕ) (above : List Item) (old new : Sheet) (first : List Item) (before more : List Command) →
        SheetIs width old first before → SheetIs width new first (before ++ more) →
        (kept : List Item) (cs : List Command) → SheetIs width (below above old) kept cs → SheetIs width (below above new) kept (cs ++ more) }
{}

/// One check digit: exactly one of the numbers 0 to 9, `digit`, makes a multiple of 10 together with the weighted sum of
/// the digits.
pub fn one_check_digit()
    ensures small { (digits : List ℕ) → digit digits < 10 }
    ensures completes { (digits : List ℕ) → IsTrue (completes digits (digit digits)) }
    ensures no_other { (digits : List ℕ) (n : ℕ) → n < 10 → IsTrue (completes digits n) → n ≡ digit digits }
{}

/// The first profile prints nothing that it hasn't: no feed of motion units, no raster of more than 2,047 rows, and nothing that
/// the second hasn't.
pub fn first_profile()
    ensures first { (width : ℕ) (cs : List Command) → AllByRecursion (λ c. IsTrue (in_profile 1 c)) cs → AllByRecursion IsFirstItem (printed width cs) }
    ensures second { (width : ℕ) (cs : List Command) → AllByRecursion (λ c. IsTrue (in_profile 1 c)) cs → AllByRecursion IsSecondItem (printed width cs) }
{}

/// The second profile prints nothing that it hasn't: no line upside down, no feed with a spacing, and only characters whose
/// strike, reverse and character set are as at power on and that follow one another, in lines without a margin.
pub fn second_profile()
    ensures { (width : ℕ) (cs : List Command) → AllByRecursion (λ c. IsTrue (in_profile 2 c)) cs → AllByRecursion IsSecondItem (printed width cs) }
{}
