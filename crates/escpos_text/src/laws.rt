//! Proof only: what follows of written texts. The contract of each function is the law; when run, they do nothing. A law is proved
//! with this crate, and another crate cites it by calling the function.

ghost use Rattle.std.specs.Prelude.{◌≡◌, ◌≢◌, ◌<◌, ◌≤◌, ◌++◌, ℕ, List, All, Some, None, Ok, Err, length, map, IsTrue};
ghost use Rattle.escpos_command.specs.declared.command.Command.{Command};
ghost use Rattle.escpos_command.specs.CommandTable.{AreCommands, spell};
ghost use Rattle.escpos_text.specs.declared.encoding.Encoding.{Encoding};
ghost use Rattle.escpos_text.specs.declared.encoding.TextFault.TheVariants as fault;
ghost use Rattle.escpos_text.specs.Printed.{is_printable};
ghost use Rattle.escpos_text.specs.Reading.{reads};
ghost use Rattle.escpos_text.specs.Writing.{written};
ghost use Rattle.escpos_text.specs.SpelledTexts.{AreOfText, text_commands};
ghost use Rattle.escpos_text.specs.Laws.{read_back, IsReadBack, IsLean, NothingShows, IsRefusedAt, one_after_another};

/// What is printed reads as what was written: the commands of a text print one character for each of its characters, in order,
/// which reads as that character; or, where no table in reach has it, as a space for U+00A0, or as the replacement. With no
/// replacement and no U+00A0 in the text, what is printed reads as the text.
pub fn read_back()
    ensures read { (encoding : Encoding) (text : List ℕ) (commands : List Command) → written encoding text ≡ Ok commands
        → IsReadBack encoding text commands }
    ensures one_each { (encoding : Encoding) (text : List ℕ) (commands : List Command) → written encoding text ≡ Ok commands
        → length (read_back encoding.set encoding.table commands) ≡ length text }
    ensures same { (encoding : Encoding) (text : List ℕ) (commands : List Command) → written encoding text ≡ Ok commands
        → encoding.replacement ≡ None → All (λ c. c ≢ 0xA0) text
        → read_back encoding.set encoding.table commands ≡ map (λ c. Some c) text }
{}

/// A table is selected only before a character that the table in force doesn't have, and it is the first of the choice that has it.
pub fn lean()
    ensures { (encoding : Encoding) (text : List ℕ) (commands : List Command) → written encoding text ≡ Ok commands
        → IsLean encoding commands }
{}

/// A text is refused at its first bad character: all before it is written; and it is a control code of ASCII, or no table in reach
/// has it or what may be shown for it.
pub fn refused()
    ensures character { (encoding : Encoding) (text : List ℕ) (c : ℕ) → written encoding text ≡ Err (fault.NoCharacter c)
        → IsRefusedAt encoding text c (λ there. (0x20 ≤ c) × NothingShows there c) }
    ensures control { (encoding : Encoding) (text : List ℕ) (c : ℕ) → written encoding text ≡ Err (fault.Control c)
        → IsRefusedAt encoding text c (λ _. c < 0x20) }
{}

/// The commands of a text are characters, and tables only before a character; they are in range if the tables of the choice are
/// bytes; and they are read from the bytes that spell them.
pub fn spelled()
    ensures of_text { (encoding : Encoding) (text : List ℕ) (commands : List Command) → written encoding text ≡ Ok commands
        → AreOfText commands }
    ensures in_range { (encoding : Encoding) (text : List ℕ) (commands : List Command) → written encoding text ≡ Ok commands
        → All (λ number. number < 256) encoding.choice → AreCommands commands }
    ensures read { (commands : List Command) → AreOfText commands → text_commands (spell commands) ≡ commands }
{}

/// A text after another is written with the table that is in force then.
pub fn joined()
    ensures { (encoding : Encoding) (text more : List ℕ) → written encoding (text ++ more)
        ≡ one_after_another encoding text more }
{}

/// Whatever a byte reads as is printed: it is no control code of ASCII, and none of the characters 7F to 9F.
pub fn printable()
    ensures { (set table b c : ℕ) → reads set table b ≡ Some c → IsTrue (is_printable c) }
{}

/// In character set 0 the printed characters of ASCII read as themselves, with any code table.
pub fn ascii()
    ensures { (table b : ℕ) → 0x20 ≤ b → b ≤ 0x7E → reads 0 table b ≡ Some b }
{}
