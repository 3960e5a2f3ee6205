//! Proof only: what the rows on paper show. The contract of each function is the law; when run, it does nothing. A law is proved with
//! this crate, and another crate cites it by calling the function.

ghost use Rattle.std.specs.Prelude.{◌≡◌, ◌++◌, [], ℕ, List, None, map};
ghost use Rattle.escpos_command.specs.declared.command.Command.{Command};
ghost use Rattle.escpos_paper.specs.Printed.{printed};
ghost use Rattle.escpos_paper.specs.Rows.{line};
ghost use Rattle.escpos_receipt.specs.declared.options.ReceiptOptions.{ReceiptOptions};
ghost use Rattle.escpos_paper.specs.Typed.{typed};
ghost use Rattle.escpos_receipt.specs.ReadBack.{PrintsAsWritten};
ghost use Rattle.escpos_receipt.specs.Whole.{Whole};
ghost use Rattle.escpos_plain.specs.Rows.{row_cells, NoInit, ShowsStrings, unplaced};

/// No character is lost: the cells of all rows and of the line, without their places, are those that the commands have typed, in their
/// order, wherever rows begin. (Only an Init drops characters.)
pub fn all_cells()
    ensures { (width : ℕ) (cs : List Command) → NoInit cs → row_cells (printed width cs) ++ map unplaced (line width cs) ≡ typed [] cs }
{}

/// What a receipt prints shows its strings: in lines of any width, the characters of all rows, one after another, are those of the
/// strings of its text, in their composed form; if it has no layout, nothing is printed in place of another character, and U+00A0 isn't
/// in a string. (What the rows of a layout show, `escpos_receipt::laws::printed_as_written` says.)
/// (`Receipt::from_json` ensures that a receipt prints its text as it is written.)
pub fn shows_strings()
    ensures { (options : ReceiptOptions) (text : List ℕ) (cs : List Command) → PrintsAsWritten options text cs → Whole cs
        → options.replacement ≡ None → (width : ℕ) → ShowsStrings text (printed width cs) }
{}
