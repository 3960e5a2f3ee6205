//! The text of a receipt as it is sent: characters, the code tables that they are printed with, and line feeds.

ghost use Rattle.std.specs.Prelude.{◌≡◌, ◌≢◌, [], map, not};
ghost use Rattle.escpos_command.specs.declared.command.Command.TheVariants.{Char};
ghost use Rattle.escpos_command.specs.CommandTable.{spell};
ghost use Rattle.escpos_text.specs.SpelledTexts.{AreOfText};
ghost use Rattle.escpos_receipt.specs.SpelledText.{AreOfLines, IsTextBytes, lines_commands, text_left};
ghost use Rattle.escpos_receipt.specs.Whole.{is_nonempty};

use escpos_command::LF;
use std::marker::Model;

/// Characters, before some of them the code table that they are printed with, and line feeds. The model is the list of their
/// commands; what is kept is their bytes. A text that is sent as it was given stays where it stands.
#[derive(Drop)]
pub struct SpelledText<'a> {
    bytes: TextBytes<'a>,
}

/// The bytes of a text: where it was given, or put together anew.
#[derive(Drop)]
enum TextBytes<'a> {
    /// As it was given.
    Given(&'a [u8]),
    /// Put together.
    Made(Vec<u8>),
}

impl<'a> Model for SpelledText<'a> {
    ghost use Rattle.std.specs.Prelude.{List};
    ghost use Rattle.escpos_command.specs.declared.command.Command.{Command};
    ghost use Rattle.escpos_receipt.specs.SpelledText.{IsTextBytes, bytes_in, lines_commands};

    ghost Value = { List Command };

    ghost view = { λ t. lines_commands (bytes_in t.bytes) };

    ghost invariant = { λ t. IsTextBytes (bytes_in t.bytes) };
}

impl<'a> SpelledText<'a> {
    /// A text whose bytes are sent as they are: each is 20 to FF hexadecimal.
    pub fn given(bytes: &'a [u8]) -> Self
        requires characters { AreOfText (map Char bytes.now) }
        ensures text { result ≡ map Char bytes.now }
    {
        SpelledText {
            bytes: TextBytes::Given(bytes),
        }
    }

    /// A text with these bytes, which spell characters, code tables and line feeds.
    pub fn made(bytes: Vec<u8>) -> Self
        requires text { IsTextBytes bytes.items }
        ensures text { result ≡ lines_commands bytes.items }
    {
        SpelledText {
            bytes: TextBytes::Made(bytes),
        }
    }

    /// Proof only: each code table comes right before a character.
    pub fn in_order(&self)
        ensures { AreOfLines self.now }
    {
        let _ = &self.bytes;
    }

    /// Whether there is no command.
    pub fn is_empty(&self) -> bool
        ensures value { result ≡ not (is_nonempty self.now) }
    {
        self.bytes().is_empty()
    }

    /// Whether there is text in the line after it; `in_line` says whether there was some before it.
    pub fn leaves_text(&self, in_line: bool) -> bool
        ensures { result ≡ text_left in_line self.now }
    {
        match self.bytes() {
            [] => in_line,
            [.., last] => *last != LF,
        }
    }

    /// The bytes that are sent: those of the commands.
    pub fn bytes(&self) -> &[u8]
        ensures spelled { result.now ≡ spell self.now }
        ensures text { IsTextBytes result.now × (self.now ≡ lines_commands result.now) }
    {
        match &self.bytes {
            TextBytes::Given(bytes) => bytes,
            TextBytes::Made(bytes) => bytes.as_slice(),
        }
    }
}
