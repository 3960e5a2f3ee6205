//! What a till is given of a receipt, once it was read.

ghost use Rattle.std.specs.Prelude.{◌≡◌, IfErr, IfOk, IsErrOf, List};
ghost use Rattle.escpos_command.specs.declared.command.Command.{Command};
ghost use Rattle.escpos_receipt.specs.declared.json.JsonError.{JsonError};
ghost use Rattle.escpos_receipt.specs.declared.json.JsonFault.{JsonFault};
ghost use Rattle.escpos_receipt.specs.Describes.{IsFaultWith};
ghost use Rattle.escpos_receipt.specs.Whole.{Whole};
ghost use Rattle.escpos_stream.specs.declared.fault.StreamError.{StreamError};
ghost use Rattle.escpos_stream.specs.declared.fault.StreamFault.{StreamFault};
ghost use Rattle.escpos_stream.specs.Streams.{IsStreamFault};
ghost use Rattle.escpos_till.specs.Contents.{ContentDescribes, GivesReceipt, StreamIsReceipt, TextGives, content_of_stream, content_with};
ghost use Rattle.escpos_till.specs.Delivers.{WhyNone};

use crate::entry::Content;
use escpos_command::LineWidth;
use escpos_receipt::{JsonError, JsonFault, Receipt, ReceiptOptions};
use escpos_stream::{StreamError, begins_with_init, stream_receipt, with_init};
use std::alloc::Global;
use std::marker::Model;

/// A content that is known to give a receipt. The model is the content.
#[derive(Debug, Drop)]
pub struct ReceiptContent {
    content: Content,
}

impl Model for ReceiptContent {
    ghost use Rattle.escpos_till.specs.declared.entry.Content.{Content};
    ghost use Rattle.escpos_till.specs.Contents.{GivesReceipt};

    ghost Value = { Content };

    ghost view = { λ r. r.content };

    ghost invariant = { λ r. GivesReceipt r.content };
}

impl ReceiptContent {
    /// Reads a receipt's text in JSON with these options. The errors are why it gives none, and `Memory`.
    pub fn read(alloc: Global, options: &ReceiptOptions, text: Vec<u8>) -> Result<Self, JsonError>
        ensures content { IfOk result (λ content. content ≡ content_with options.now text.items) }
        ensures gives { IfOk result (λ content. GivesReceipt content) }
        ensures described { IfOk result (λ _. TextGives options.now text.items) }
        ensures refused { (fault : JsonFault) → IsErrOf result (JsonError.Refused fault) → IsFaultWith options.now fault text.items }
    {
        let _receipt = Receipt::from_json_with(alloc, options, &text)?;
        Ok(ReceiptContent {
            content: Content::with_options(text, *options),
        })
    }

    /// Reads a stream of bytes, as another library makes it, as a receipt for lines of this width. The errors are why it is none, and `Memory`.
    pub fn read_stream(
        alloc: Global,
        width: LineWidth,
        stream: Vec<u8>,
    ) -> Result<Self, StreamError>
        ensures content { IfOk result (λ content. content ≡ content_of_stream width stream.items) }
        ensures gives { IfOk result (λ content. GivesReceipt content) }
        ensures described { IfOk result (λ _. StreamIsReceipt width stream.items) }
        ensures refused { (fault : StreamFault) → IsErrOf result (StreamError.Refused fault) → IsStreamFault width fault stream.items }
    {
        let _ = stream_receipt(alloc, width, &stream)?;
        let text = with_init(alloc, stream)?;
        let options = ReceiptOptions {
            width,
            replacement: None,
        };
        Ok(ReceiptContent {
            content: Content::with_options(text, options),
        })
    }

    /// Reads a content once more. The errors are why it gives no receipt, and `Memory`.
    pub fn again(alloc: Global, content: Content) -> Result<Self, JsonError>
        ensures content { IfOk result (λ again. again ≡ content) }
        ensures gives { IfOk result (λ again. GivesReceipt again) }
        ensures refused { IfErr result (λ why. WhyNone why content) }
    {
        let _ = receipt_of(alloc, &content.options, content.bytes())?;
        Ok(ReceiptContent { content })
    }

    /// The content. Allocates nothing.
    pub fn into_content(self) -> Content
        ensures content { result ≡ self }
        ensures gives { GivesReceipt result }
    {
        self.content
    }
}

// The receipt that a content gives, with this text and these options: that of a stream if it begins with ESC @, otherwise that of a text in
// JSON. The errors are why it gives none, and `Memory`.
pub(crate) fn receipt_of(
    alloc: Global,
    options: &ReceiptOptions,
    text: &[u8],
) -> Result<Receipt, JsonError>
    ensures receipt { IfOk result (λ receipt. ContentDescribes (content_with options.now text.now) receipt × Whole receipt) }
    ensures refused { IfErr result (λ why. WhyNone why (content_with options.now text.now)) }
{
    if !begins_with_init(text) {
        return Receipt::from_json_with(alloc, options, text);
    }
    match stream_receipt(alloc, options.width, text) {
        Ok(receipt) => Ok(receipt),
        Err(StreamError::Refused(_)) => Err(JsonError::Refused(JsonFault::NotJson)),
        Err(StreamError::Memory) => Err(JsonError::Memory),
    }
}
