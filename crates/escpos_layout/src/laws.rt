//! Proof only: what lines are on paper, and what the definitions of the layouts say. The contract of each function is the law; when
//! run, it does nothing. A law is proved with this crate, and another crate cites it by calling the function.

ghost use Rattle.std.specs.Prelude.{◌≡◌, ◌≤◌, ℕ, List, [], ◌∷◌, ◌++◌, None, Ok, length};
ghost use Rattle.std.specs.List.{AllByRecursion};
ghost use Rattle.escpos_command.specs.declared.command.Command.{Command};
ghost use Rattle.escpos_paper.specs.declared.cell.Cell.{Cell};
ghost use Rattle.escpos_paper.specs.Rows.{area, line, moved};
ghost use Rattle.escpos_paper.specs.Styles.{style};
ghost use Rattle.escpos_text.specs.declared.encoding.Encoding.{Encoding};
ghost use Rattle.escpos_layout.specs.Columns.{columns_of};
ghost use Rattle.escpos_layout.specs.Layouts.{field_text, pair, row, row_width, rule};
ghost use Rattle.escpos_layout.specs.OnPaper.{EndsAtLineEnd, HasStyle, IsInForce, PrintsLines, Shows};
ghost use Rattle.escpos_layout.specs.Sides.{AreNarrow, EndsWith, HasSides};
ghost use Rattle.escpos_layout.specs.Wrapped.{IsWrapped};
ghost use Rattle.escpos_layout.specs.Wrapping.{wrap};
ghost use Rattle.escpos_layout.specs.Writing.{lines_written};
ghost use Rattle.escpos_layout.specs.declared.row.Field.{Field as TheField};

/// No line is broken by the page: where the line is empty, its next character stands at its beginning and the encoding is what the commands
/// before have set, lines that have no more characters than fit into the printing area in the font and size in force are each printed as one
/// row, whose cells read back as the line, and fed. Then the line is empty, and what was set is as it was, but for the code table.
pub fn printed_lines()
    ensures { (width : ℕ) (before : List Command) (encoding : Encoding) (lines : List (List ℕ)) (commands : List Command)
        → line width before ≡ [] → moved width before ≡ None → IsInForce before encoding
        → AllByRecursion (λ text. length text ≤ columns_of (area width before) (style before)) lines
        → lines_written encoding lines ≡ Ok commands → PrintsLines width before commands encoding lines }
{
    escpos_text::laws::read_back();
    escpos_text::laws::spelled();
    escpos_paper::laws::styles_grow();
    escpos_paper::laws::typed_text();
    escpos_paper::laws::line_feeds();
}

/// Each line of a layout has at most as many characters as a line; a row has as many as its fields together, and a rule as many as a
/// line.
pub fn narrow_lines()
    ensures wrapped { (columns : ℕ) (text : List ℕ) → AreNarrow columns (wrap columns text) }
    ensures pairs { (columns : ℕ) (left right : List ℕ) → AreNarrow columns (pair columns left right) }
    ensures rows { (fields : List TheField) → length (row fields) ≡ row_width fields }
    ensures rules { (columns c : ℕ) → length (rule columns c) ≡ columns }
{}

/// The texts of a pair: its first lines begin with the lines of the text on the left, and its last lines are full and end with those
/// of the text on the right. At most one line has both, with a blank between them.
pub fn pair_sides()
    ensures { (columns : ℕ) (left right : List ℕ) → HasSides columns (wrap columns left) (wrap columns right) (pair columns left right) }
{}

/// The end of a line: a row that has as many characters as a line, in the style that commands have set, ends less than one of them
/// before the end of the line; so does one that shows a line with text at its end.
pub fn full_lines()
    ensures row { (width : ℕ) (before : List Command) (row : List Cell) → AllByRecursion (HasStyle (style before)) row
        → length row ≡ columns_of width (style before) → EndsAtLineEnd width (style before) row }
    ensures line { (width : ℕ) (before : List Command) (encoding : Encoding) (text whole : List ℕ) (row : List Cell)
        → EndsWith (columns_of width (style before)) text whole → Shows encoding (style before) whole row
        → EndsAtLineEnd width (style before) row }
{
    escpos_paper::laws::character_widths();
}

/// One wrapping: the lines of a text are what they are to be, and no other lines are.
pub fn one_wrapping()
    ensures is_one { (columns : ℕ) (text : List ℕ) → 1 ≤ columns → IsWrapped columns text (wrap columns text) }
    ensures no_other { (columns : ℕ) (text : List ℕ) (lines : List (List ℕ)) → 1 ≤ columns → IsWrapped columns text lines → lines ≡ wrap columns text }
{}

/// The fields of a row stand side by side: each begins where those before it end.
pub fn fields_in_place()
    ensures { (before : List TheField) (field : TheField) (after : List TheField) → row (before ++ field ∷ after) ≡ row before ++ (field_text field ++ row after) }
{}
