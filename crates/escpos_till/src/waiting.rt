//! A receipt of a ledger that waits, and what is sent of it.

ghost use Rattle.std.specs.Prelude.{◌≡◌, List, option_map, IfErr, IfOk};
ghost use Rattle.escpos_command.specs.declared.command.Command.{Command};
ghost use Rattle.escpos_receipt.specs.Whole.{Whole};
ghost use Rattle.escpos_till.specs.Contents.{ContentDescribes, content_with};
ghost use Rattle.escpos_till.specs.Copy.{sent_of};
ghost use Rattle.escpos_till.specs.Delivers.{WhyNone};

use crate::copy::{CopyText, with_copy};
use crate::number::ReceiptNumber;
use crate::receipt_content::receipt_of;
use escpos_receipt::{JsonError, Receipt, ReceiptOptions};
use std::alloc::Global;

/// A receipt that waits: it was taken, and isn't known to be printed.
#[derive(Debug, Drop)]
pub struct WaitingReceipt<'a> {
    /// Its number.
    pub number: ReceiptNumber,
    /// Its text in JSON, or the bytes of another library.
    pub content: &'a [u8],
    /// The options that the text is read with.
    pub options: ReceiptOptions,
    /// How often it was tried. If that isn't 0, it may be on the paper already.
    pub tried: usize,
}

impl<'a> WaitingReceipt<'a> {
    /// What is to be sent: the receipt that its text gives; with the line of the copy before it, if there is such a text and the
    /// receipt was tried.
    ///
    /// The errors are why the text gives none, and `Memory`.
    pub fn to_send(&self, alloc: Global, copy: Option<&CopyText<'_>>) -> Result<Receipt, JsonError>
        ensures receipt { IfOk result (λ sent. (receipt : List Command) × ContentDescribes (content_with self.now.options self.now.content.now) receipt × Whole receipt
            × (sent ≡ sent_of (option_map (λ t. t.now) copy.entry) self.now.tried receipt)) }
        ensures refused { IfErr result (λ why. WhyNone why (content_with self.now.options self.now.content.now)) }
    {
        let receipt = receipt_of(alloc, &self.options, self.content)?;
        match copy {
            Some(text) if self.tried > 0 => Ok(with_copy(alloc, text, &receipt)?),
            _ => Ok(receipt),
        }
    }
}
