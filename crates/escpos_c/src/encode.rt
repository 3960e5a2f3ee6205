//! A receipt in JSON as the bytes of its commands.

ghost use Rattle.std.specs.Prelude.{IfOk, IfErr};
ghost use Rattle.escpos_receipt.specs.Options.{usual_options};
ghost use Rattle.escpos_c.specs.Given.{receipt_options};
ghost use Rattle.escpos_c.specs.Reasons.{IsReason};
ghost use Rattle.escpos_c.specs.EncodeCalls.{AnswersEncode, AnswersEncodeWith, IsEncoding};

use crate::buffer::{give, give_none};
use crate::call_status::CallStatus;
use crate::no_receipt::{NoReceipt, no_receipt};
use crate::options::Options;
use crate::refusal::Refusal;
use crate::spelling::spelled;
use escpos_job_parts::input::INPUT_LIMIT;
use escpos_receipt::{ReceiptOptions, ReceiptText};
use std::alloc::Global;

/// Encodes a receipt in JSON as the bytes of its commands, as `encode --raw` does.
#[unsafe(no_mangle)]
pub extern "C" fn escpos_encode(
    alloc: Global,
    json: &[u8],
    out: &mut [u8],
    written: &mut usize,
    reason: &mut u32,
    at: &mut usize,
) -> i32
    ensures { AnswersEncode usual_options json.now result out.old out.new written.new reason.new at.new }
{
    encode(
        alloc,
        &ReceiptOptions::usual(),
        json,
        out,
        written,
        reason,
        at,
    )
}

/// The same with these options, as `encode --raw --width D --replace C` does. Where they are out of range, `reason` is 10.
#[unsafe(no_mangle)]
pub extern "C" fn escpos_encode_with(
    alloc: Global,
    options: &Options,
    json: &[u8],
    out: &mut [u8],
    written: &mut usize,
    reason: &mut u32,
    at: &mut usize,
) -> i32
    ensures { AnswersEncodeWith (receipt_options options.now) json.now result out.old out.new written.new reason.new at.new }
{
    match options.receipt_options() {
        Some(known) => encode(alloc, &known, json, out, written, reason, at),
        None => {
            Refusal::bad_options().tell(reason, at);
            give_none(written)
        }
    }
}

// The same with options that are in range.
fn encode(
    alloc: Global,
    options: &ReceiptOptions,
    json: &[u8],
    out: &mut [u8],
    written: &mut usize,
    reason: &mut u32,
    at: &mut usize,
) -> i32
    ensures { AnswersEncode options.now json.now result out.old out.new written.new reason.new at.new }
{
    let (status, refusal) = match encoding(alloc, options, json) {
        Ok(bytes) => (
            give(CallStatus::Good, &bytes, out, written),
            Refusal::none(),
        ),
        Err(NoReceipt::Refused(refusal)) => {
            *written = 0;
            (CallStatus::Refused, refusal)
        }
        Err(NoReceipt::Memory) => {
            *written = 0;
            (CallStatus::Memory, Refusal::none())
        }
    };
    refusal.tell(reason, at);
    status.number()
}

// The bytes of the receipt that a text describes with these options.
fn encoding(alloc: Global, options: &ReceiptOptions, json: &[u8]) -> Result<Vec<u8>, NoReceipt>
    ensures bytes { IfOk result (λ bytes. IsEncoding options.now json.now bytes.items) }
    ensures refused { IfErr result (λ why. IsReason options.now why json.now) }
{
    if json.len() > INPUT_LIMIT {
        return Err(NoReceipt::Refused(Refusal::too_long()));
    }
    match ReceiptText::new(alloc, json) {
        Ok(text) => match text.entries(alloc, options) {
            Ok(entries) => match spelled(alloc, &entries) {
                Ok(bytes) => Ok(bytes),
                Err(_) => Err(NoReceipt::Memory),
            },
            Err(error) => Err(no_receipt(error)),
        },
        Err(error) => Err(no_receipt(error)),
    }
}
