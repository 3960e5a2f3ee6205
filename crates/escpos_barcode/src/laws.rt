//! Proof only: the laws of barcodes. The contract of each function is the law; when run, it does nothing. A law is proved
//! with this crate, and another crate cites it by calling the function.

ghost use Rattle.std.specs.Prelude.{◌≡◌, ◌≤◌, ◌%◌, ◌==◌, ℕ, List, Some, is_some, map, not, sum, length, take, IsTrue};
ghost use Rattle.escpos_command.specs.declared.bars.Symbology.{Symbology};
ghost use Rattle.escpos_command.specs.declared.bars.Symbology.TheVariants as symbology;
ghost use Rattle.escpos_command.specs.Barcodes.{is_content, is_digit};
ghost use Rattle.escpos_paper.specs.CheckDigit.{expanded};
ghost use Rattle.escpos_barcode.specs.Gs1.{has_data};
ghost use Rattle.escpos_barcode.specs.Drawn.{is_run, drawn, element_dots, canonical};
ghost use Rattle.escpos_barcode.specs.Elements.{elements};
ghost use Rattle.escpos_barcode.specs.Reader.{read};
ghost use Rattle.escpos_barcode.specs.Shown.{is_printable, shown};
ghost use Rattle.std.specs.List.{list_all};

/// What is drawn is read back as the content, whatever the module width and the line.
pub fn bars_read_back()
    ensures { (line_dots : ℕ) (symbology : Symbology) (module_width : ℕ) (content widths : List ℕ) →
        drawn line_dots symbology module_width content ≡ Some widths → read symbology widths ≡ Some (canonical symbology content) }
{}

/// No two contents look alike: those that are drawn with the same widths are the same, whatever their module widths and lines.
pub fn no_two_alike()
    ensures { (line_dots other_line : ℕ) (symbology : Symbology) (module_width other : ℕ) (first second widths : List ℕ) →
        drawn line_dots symbology module_width first ≡ Some widths → drawn other_line symbology other second ≡ Some widths →
        canonical symbology first ≡ canonical symbology second }
{}

/// What is drawn fits on the line, begins and ends with a bar, and has 2 to 24 dots for each bar and space.
pub fn bars_fit()
    ensures dots { (line_dots : ℕ) (symbology : Symbology) (module_width : ℕ) (content widths : List ℕ) →
        drawn line_dots symbology module_width content ≡ Some widths → sum widths ≤ line_dots }
    ensures odd { (line_dots : ℕ) (symbology : Symbology) (module_width : ℕ) (content widths : List ℕ) →
        drawn line_dots symbology module_width content ≡ Some widths → length widths % 2 ≡ 1 }
    ensures runs { (line_dots : ℕ) (symbology : Symbology) (module_width : ℕ) (content widths : List ℕ) →
        drawn line_dots symbology module_width content ≡ Some widths → IsTrue (list_all is_run widths) }
{}

/// The interpretation is printable: its bytes are 20 to 7E.
pub fn shown_is_printable()
    ensures { (symbology : Symbology) (content : List ℕ) → IsTrue (list_all is_printable (shown symbology content)) }
{}

/// Nothing else is refused for its width: at a module width of 2 to 6, whatever has elements is drawn if they take no more dots than the line has.
pub fn all_that_fits_is_drawn()
    ensures { (line_dots : ℕ) (symbology : Symbology) (module_width : ℕ) (content es : List ℕ) → 2 ≤ module_width → module_width ≤ 6 →
        elements symbology content ≡ Some es → sum (map (element_dots symbology module_width) es) ≤ line_dots →
        drawn line_dots symbology module_width content ≡ Some (map (element_dots symbology module_width) es) }
{}

/// Nothing else is refused for its content: a content of UPC-A, EAN-13 and EAN-8 with its check digit, of ITF, of CODABAR and of CODE93,
/// one of CODE39 without an asterisk, of UPC-E seven digits, a content of eight, and one of twelve for which six digits stand, and one of
/// GS1-128 that can be spelled and has data.
pub fn all_contents_have_elements()
    ensures upca { (content : List ℕ) → IsTrue (is_content symbology.UpcA content) → length content ≡ 12 → IsTrue (is_some (elements symbology.UpcA content)) }
    ensures upce { (content : List ℕ) → IsTrue (is_content symbology.UpcE content) → length content ≡ 8 → IsTrue (is_some (elements symbology.UpcE content)) }
    ensures upce_six { (content : List ℕ) → IsTrue (list_all is_digit content) → length content ≡ 7 → IsTrue (is_some (elements symbology.UpcE content)) }
    ensures upce_long { (content six : List ℕ) → IsTrue (is_content symbology.UpcE content) → length content ≡ 12 → length six ≡ 6 → expanded six ≡ take 11 content →
        IsTrue (is_some (elements symbology.UpcE content)) }
    ensures ean13 { (content : List ℕ) → IsTrue (is_content symbology.Ean13 content) → length content ≡ 13 → IsTrue (is_some (elements symbology.Ean13 content)) }
    ensures ean8 { (content : List ℕ) → IsTrue (is_content symbology.Ean8 content) → length content ≡ 8 → IsTrue (is_some (elements symbology.Ean8 content)) }
    ensures itf { (content : List ℕ) → IsTrue (is_content symbology.Itf content) → IsTrue (is_some (elements symbology.Itf content)) }
    ensures codabar { (content : List ℕ) → IsTrue (is_content symbology.Codabar content) → IsTrue (is_some (elements symbology.Codabar content)) }
    ensures code93 { (content : List ℕ) → IsTrue (is_content symbology.Code93 content) → IsTrue (is_some (elements symbology.Code93 content)) }
    ensures gs1 { (content : List ℕ) → IsTrue (has_data content) → IsTrue (is_some (elements symbology.Gs1Code128 content)) }
    ensures code39 { (content : List ℕ) → IsTrue (is_content symbology.Code39 content) → IsTrue (list_all (λ b. not (b == 0x2A)) content) →
        IsTrue (is_some (elements symbology.Code39 content)) }
{}
