//! Submits a receipt, given in JSON, to the host that a handle holds.

ghost use Rattle.std.specs.Prelude.{◌≡◌, pos, IfOk, IfErr};
ghost use Rattle.escpos_c.specs.declared.refusal.TheConstants.{NO_REASON, NO_PLACE};
ghost use Rattle.escpos_receipt.specs.Options.{usual_options};
ghost use Rattle.escpos_c.specs.EncodeCalls.{GivesReceipt};
ghost use Rattle.escpos_c.specs.Given.{receipt_options};
ghost use Rattle.escpos_c.specs.HostCalls.{SubmitsText, SubmitsTextWith};
ghost use Rattle.escpos_c.specs.Handles.{OnHandle};
ghost use Rattle.escpos_c.specs.Reasons.{IsReason};
ghost use Rattle.escpos_c.specs.Status.{number_of_status};

use crate::call_status::CallStatus;
use crate::host_core::HostCore;
use crate::host_handle::HostHandle;
use crate::no_receipt::{NoReceipt, no_receipt};
use crate::options::Options;
use crate::refusal::{NO_PLACE, NO_REASON, Refusal};
use escpos_host::Receipt;
use escpos_job_parts::input::INPUT_LIMIT;
use escpos_receipt::ReceiptOptions;
use std::alloc::Global;

/// Puts the receipt that a text in JSON describes out, between Init and its closing mark; possible while the link is open and
/// fewer than four are in flight.
///
/// At 1 either the text gives no receipt: then `fault` and `at` say why, as `escpos_encode` does, and `reason` is 0; or the
/// host can't take one now: then `reason` says why, and `fault` is 0.
#[unsafe(no_mangle)]
pub extern "C" fn escpos_host_submit(
    alloc: Global,
    host: &mut HostHandle,
    json: &[u8],
    reason: &mut u32,
    fault: &mut u32,
    at: &mut usize,
) -> i32
    ensures { OnHandle host.old.value host.new.value (SubmitsText usual_options json.now result reason.new fault.new at.new)
        ((result ≡ pos 2) × (reason.new ≡ NO_REASON) × (fault.new ≡ NO_REASON) × (at.new ≡ NO_PLACE)) }
{
    let options = Some(ReceiptOptions::usual());
    submit(alloc, host, options, json, reason, fault, at)
}

/// The same with these options. Where they are out of range, `fault` is 10, and the host isn't asked.
#[unsafe(no_mangle)]
pub extern "C" fn escpos_host_submit_with(
    alloc: Global,
    host: &mut HostHandle,
    options: &Options,
    json: &[u8],
    reason: &mut u32,
    fault: &mut u32,
    at: &mut usize,
) -> i32
    ensures { OnHandle host.old.value host.new.value (SubmitsTextWith (receipt_options options.now) json.now result reason.new fault.new at.new)
        ((result ≡ pos 2) × (reason.new ≡ NO_REASON) × (fault.new ≡ NO_REASON) × (at.new ≡ NO_PLACE)) }
{
    let options = options.receipt_options();
    submit(alloc, host, options, json, reason, fault, at)
}

// The same with these options, `None` where they are out of range.
fn submit(
    alloc: Global,
    host: &mut HostHandle,
    options: Option<ReceiptOptions>,
    json: &[u8],
    reason: &mut u32,
    fault: &mut u32,
    at: &mut usize,
) -> i32
    ensures { OnHandle host.old.value host.new.value (SubmitsTextWith options json.now result reason.new fault.new at.new)
        ((result ≡ pos 2) × (reason.new ≡ NO_REASON) × (fault.new ≡ NO_REASON) × (at.new ≡ NO_PLACE)) }
{
    let Some(mut core) = host.take(alloc) else {
        *reason = NO_REASON;
        *fault = NO_REASON;
        *at = NO_PLACE;
        return CallStatus::Empty.number();
    };
    let (status, refusal) = submit_with(alloc, &mut core, options, json, reason);
    host.put(alloc, core);
    refusal.tell(fault, at);
    status.number()
}

// Submits the receipt that a text describes with these options, if they are in range.
fn submit_with(
    alloc: Global,
    core: &mut HostCore,
    options: Option<ReceiptOptions>,
    json: &[u8],
    reason: &mut u32,
) -> (CallStatus, Refusal)
    ensures { SubmitsTextWith options json.now (number_of_status result.0) reason.new result.1.reason result.1.at core.old core.new }
{
    match options {
        Some(options) => submit_text(alloc, core, &options, json, reason),
        None => {
            *reason = NO_REASON;
            (CallStatus::Refused, Refusal::bad_options())
        }
    }
}

// Submits the receipt that a text describes, or says why it describes none.
fn submit_text(
    alloc: Global,
    core: &mut HostCore,
    options: &ReceiptOptions,
    json: &[u8],
    reason: &mut u32,
) -> (CallStatus, Refusal)
    ensures { SubmitsText options.now json.now (number_of_status result.0) reason.new result.1.reason result.1.at core.old core.new }
{
    match receipt_of(alloc, options, json) {
        Ok(receipt) => (core.submit(receipt, reason), Refusal::none()),
        Err(NoReceipt::Refused(refusal)) => {
            *reason = NO_REASON;
            (CallStatus::Refused, refusal)
        }
        Err(NoReceipt::Memory) => {
            *reason = NO_REASON;
            (CallStatus::Memory, Refusal::none())
        }
    }
}

// The receipt that a text describes with these options.
fn receipt_of(alloc: Global, options: &ReceiptOptions, json: &[u8]) -> Result<Receipt, NoReceipt>
    ensures receipt { IfOk result (λ receipt. GivesReceipt options.now json.now receipt) }
    ensures refused { IfErr result (λ why. IsReason options.now why json.now) }
{
    if json.len() > INPUT_LIMIT {
        return Err(NoReceipt::Refused(Refusal::too_long()));
    }
    match Receipt::from_json_with(alloc, options, json) {
        Ok(receipt) => Ok(receipt),
        Err(error) => Err(no_receipt(error)),
    }
}
