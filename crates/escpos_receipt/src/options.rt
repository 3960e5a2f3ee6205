//! What a receipt's text doesn't say, and whoever reads it may: options, with a value where nothing is said.

ghost use Rattle.std.specs.Prelude.{◌≡◌, []};
ghost use Rattle.escpos_receipt.specs.Entries.{in_force};
ghost use Rattle.escpos_receipt.specs.Options.{usual_options};

use crate::in_force::InForce;
use escpos_command::LineWidth;
use escpos_text::Replacement;

/// How a receipt's text is read.
#[derive(Clone, Copy, Debug, PartialEq, Eq)]
pub struct ReceiptOptions {
    /// The dots of a line on the paper that the receipt is for: layouts (`pair`, `row`, `rule`, `wrap`) are as wide.
    pub width: LineWidth,
    /// What is printed in place of a character that no code table of the receipt's choice has; where there is nothing, a text
    /// with such a character is refused.
    pub replacement: Option<Replacement>,
}

impl ReceiptOptions {
    /// The options that hold where nothing is said: lines of 512 dots, and no replacement.
    pub fn usual() -> Self
        ensures { result ≡ usual_options }
    {
        ReceiptOptions {
            width: LineWidth::usual(),
            replacement: None,
        }
    }

    /// What is in force at the beginning of a receipt, after ESC @.
    pub(crate) fn in_force(&self) -> InForce
        ensures { result ≡ in_force self.now [] [] }
    {
        InForce::at_start(self.width, self.replacement)
    }
}
