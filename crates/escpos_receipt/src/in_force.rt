//! What is in force where an entry of a receipt's text stands: how texts are written, and what a line is like.

ghost use Rattle.std.specs.Prelude.{◌≡◌, ◌∷◌, ◌++◌, [], ℕ, List};
ghost use Rattle.escpos_command.specs.declared.command.Command.TheVariants.{LineFeed};
ghost use Rattle.escpos_receipt.specs.Entries.{columns_in, qr_commands};
ghost use Rattle.escpos_receipt.specs.EntryCommands.{line_after, line_step, start_of};

use crate::spelled_text::SpelledText;
use escpos_command::{Command, LineWidth};
use escpos_layout::Columns;
use escpos_paper::Style;
use escpos_text::{Encoding, Replacement};

/// What is in force.
#[derive(Clone, Copy, Debug, PartialEq, Eq)]
pub struct InForce {
    /// How texts are written.
    pub encoding: Encoding,
    /// What a line is like.
    pub line: LineState,
}

/// What a line is like.
#[derive(Clone, Copy, Debug, PartialEq, Eq)]
pub struct LineState {
    /// The dots of a line.
    pub width: LineWidth,
    /// How its characters are printed, but for their code table, which the encoding has.
    pub style: Style,
    /// Whether there is text in the line.
    pub in_line: bool,
    /// Whether data of QR codes are stored: only then does a print of them end the line.
    pub stored: bool,
    /// The same for graphics.
    pub graphics: bool,
}

impl InForce {
    /// What is in force after ESC @.
    pub fn at_start(width: LineWidth, replacement: Option<Replacement>) -> Self
        ensures { result ≡ start_of width replacement }
    {
        let mut encoding = Encoding::new();
        encoding.replacement = replacement;
        InForce {
            encoding,
            line: LineState {
                width,
                style: Style::power_on(),
                in_line: false,
                stored: false,
                graphics: false,
            },
        }
    }
}

impl LineState {
    /// How many characters a line has.
    pub fn columns(&self) -> Columns
        ensures { result ≡ columns_in self.now }
    {
        Columns::of(self.width, &self.style)
    }

    /// After a command.
    pub fn follow(&mut self, command: &Command)
        ensures { self.new ≡ line_step self.old command.now }
    {
        let in_line = self.leaves_text(command);
        match command {
            Command::Set(setting) => {
                self.style = Style {
                    table: self.style.table,
                    ..self.style.after(setting.kind(), setting.parameter())
                };
            }
            Command::QrStore(_) => self.stored = true,
            Command::GraphicsStore(picture) => {
                self.graphics = picture.has_its_dots() || self.graphics;
            }
            Command::GraphicsPrint(_) => self.graphics = false,
            Command::Init => {
                self.style = Style {
                    table: self.style.table,
                    ..Style::power_on()
                };
                self.stored = false;
                self.graphics = false;
            }
            _ => {}
        }
        self.in_line = in_line;
    }

    // Whether there is text in the line after a command.
    fn leaves_text(&self, command: &Command) -> bool
        ensures { result ≡ (line_step self.now command.now).in_line }
    {
        match command {
            Command::Char(_) => true,
            Command::QrPrint => self.in_line && !self.stored,
            Command::GraphicsPrint(_) => self.in_line && !self.graphics,
            Command::LineFeed
            | Command::FeedLines(_)
            | Command::FeedUnits(_)
            | Command::Init
            | Command::Bars(_)
            | Command::Raster(_)
            | Command::Cut(_)
            | Command::OldCut(_) => false,
            _ => self.in_line,
        }
    }

    /// After a text.
    pub fn follow_text(&mut self, text: &SpelledText<'_>)
        ensures { self.new ≡ line_after self.old text.now }
    {
        // Proof only: what a text is.
        text.in_order();
        self.in_line = text.leaves_text(self.in_line);
    }

    /// After a text and a line feed.
    pub fn follow_line(&mut self, text: &SpelledText<'_>)
        ensures { self.new ≡ line_after self.old (text.now ++ LineFeed ∷ []) }
    {
        // Proof only: what a text is.
        text.in_order();
        self.in_line = false;
    }

    /// After the commands of a QR code.
    pub fn follow_code(&mut self)
        ensures { (size level : ℕ) (content : List ℕ) → self.new ≡ line_after self.old (qr_commands size level content) }
    {
        self.in_line = false;
        self.stored = true;
    }
}
