//! Streams of bytes, as another library makes them, as receipts: submitted to the host, or taken into the till, that a handle holds.

ghost use Rattle.std.specs.Prelude.{◌≡◌, pos, IfOk, IfErr, List};
ghost use Rattle.escpos_command.specs.declared.command.Command.{Command};
ghost use Rattle.escpos_till.specs.Contents.{content_of_stream};
ghost use Rattle.escpos_c.specs.declared.refusal.TheConstants.{NO_REASON, NO_PLACE};
ghost use Rattle.escpos_c.specs.Given.{line_dots};
ghost use Rattle.escpos_c.specs.Handles.{OnHandle};
ghost use Rattle.escpos_c.specs.RawCalls.{GivesRaw, IsRawReason, QueuesRaw, QueuesRawAt, SubmitsRaw, SubmitsRawAt};
ghost use Rattle.escpos_c.specs.Status.{number_of_status};
ghost use Rattle.escpos_c.specs.TillNumbers.{nothing_told};

use crate::call_status::CallStatus;
use crate::host_core::HostCore;
use crate::host_handle::HostHandle;
use crate::no_receipt::NoReceipt;
use crate::options::line_width;
use crate::refusal::{NO_PLACE, NO_REASON, Refusal};
use crate::till_core::TillCore;
use crate::till_handle::TillHandle;
use crate::till_numbers::{Told, ended};
use escpos_command::LineWidth;
use escpos_host::Receipt;
use escpos_job_parts::input::INPUT_LIMIT;
use escpos_stream::{StreamError, stream_receipt};
use escpos_till::ReceiptContent;
use std::alloc::Global;

/// Puts the receipt that a stream is, on lines of this width, out, as `escpos_host_submit` does. The place `at` is that of a byte, and
/// a width out of range is refused as options out of range are.
#[unsafe(no_mangle)]
pub extern "C" fn escpos_host_submit_raw(
    alloc: Global,
    host: &mut HostHandle,
    width: u16,
    stream: &[u8],
    reason: &mut u32,
    fault: &mut u32,
    at: &mut usize,
) -> i32
    ensures { OnHandle host.old.value host.new.value (SubmitsRawAt (line_dots width) stream.now result reason.new fault.new at.new)
        ((result ≡ pos 2) × (reason.new ≡ NO_REASON) × (fault.new ≡ NO_REASON) × (at.new ≡ NO_PLACE)) }
{
    let Some(mut core) = host.take(alloc) else {
        *reason = NO_REASON;
        *fault = NO_REASON;
        *at = NO_PLACE;
        return CallStatus::Empty.number();
    };
    let (status, refusal) = submit_at(alloc, &mut core, line_width(width), stream, reason);
    host.put(alloc, core);
    refusal.tell(fault, at);
    status.number()
}

// Submits the receipt that a stream is on lines of this width, if it is in range.
fn submit_at(
    alloc: Global,
    core: &mut HostCore,
    width: Option<LineWidth>,
    stream: &[u8],
    reason: &mut u32,
) -> (CallStatus, Refusal)
    ensures { SubmitsRawAt width stream.now (number_of_status result.0) reason.new result.1.reason result.1.at core.old core.new }
{
    match width {
        Some(width) => submit(alloc, core, width, stream, reason),
        None => {
            *reason = NO_REASON;
            (CallStatus::Refused, Refusal::bad_options())
        }
    }
}

// Submits the receipt that a stream is, or says why it is none.
fn submit(
    alloc: Global,
    core: &mut HostCore,
    width: LineWidth,
    stream: &[u8],
    reason: &mut u32,
) -> (CallStatus, Refusal)
    ensures { SubmitsRaw width stream.now (number_of_status result.0) reason.new result.1.reason result.1.at core.old core.new }
{
    match receipt_of(alloc, width, stream) {
        Ok(receipt) => (core.submit(receipt, reason), Refusal::none()),
        Err(NoReceipt::Refused(refusal)) => {
            *reason = NO_REASON;
            (CallStatus::Refused, refusal)
        }
        Err(NoReceipt::Memory) => {
            *reason = NO_REASON;
            (CallStatus::Memory, Refusal::none())
        }
    }
}

// The receipt that a stream is on lines of this width.
fn receipt_of(alloc: Global, width: LineWidth, stream: &[u8]) -> Result<Receipt, NoReceipt>
    ensures receipt { IfOk result (λ receipt. GivesRaw stream.now receipt) }
    ensures refused { IfErr result (λ why. IsRawReason width why stream.now) }
{
    if stream.len() > INPUT_LIMIT {
        return Err(NoReceipt::Refused(Refusal::too_long()));
    }
    match stream_receipt(alloc, width, stream) {
        Ok(receipt) => Ok(receipt),
        Err(StreamError::Refused(fault)) => Err(NoReceipt::Refused(Refusal::from(fault))),
        Err(StreamError::Memory) => Err(NoReceipt::Memory),
    }
}

/// Takes the receipt that a stream is on lines of this width, as `escpos_till_queue` does: that is to be kept. The place `at` is that of
/// a byte, and a width out of range is refused as options out of range are.
#[unsafe(no_mangle)]
pub extern "C" fn escpos_till_queue_raw(
    alloc: Global,
    till: &mut TillHandle,
    width: u16,
    stream: &[u8],
    told: &mut Told,
) -> i32
    ensures { OnHandle till.old.value till.new.value (QueuesRawAt (line_dots width) stream.now result told.new)
        ((result ≡ pos 2) × (told.new ≡ nothing_told)) }
{
    let Some(mut core) = till.take(alloc) else {
        *told = Told::nothing();
        return CallStatus::Empty.number();
    };
    let (status, why) = queue_at(alloc, &mut core, line_width(width), stream);
    till.put(alloc, core);
    *told = why;
    status.number()
}

// Takes the receipt that a stream is on lines of this width, if it is in range.
fn queue_at(
    alloc: Global,
    core: &mut TillCore,
    width: Option<LineWidth>,
    stream: &[u8],
) -> (CallStatus, Told)
    ensures { QueuesRawAt width stream.now (number_of_status result.0) result.1 core.old core.new }
{
    match width {
        Some(width) => queue(alloc, core, width, stream),
        None => (CallStatus::Refused, Told::receipt(Refusal::bad_options())),
    }
}

// Takes the receipt that a stream is, or says why it is none.
fn queue(alloc: Global, core: &mut TillCore, width: LineWidth, stream: &[u8]) -> (CallStatus, Told)
    ensures { QueuesRaw width stream.now (number_of_status result.0) result.1 core.old core.new }
{
    match content_of(alloc, width, stream) {
        Ok(content) => ended(core.take(content, None)),
        Err(NoReceipt::Refused(refusal)) => (CallStatus::Refused, Told::receipt(refusal)),
        Err(NoReceipt::Memory) => (CallStatus::Memory, Told::nothing()),
    }
}

// What a machine takes of a stream that is a receipt on lines of this width.
fn content_of(alloc: Global, width: LineWidth, stream: &[u8]) -> Result<ReceiptContent, NoReceipt>
    ensures content { IfOk result (λ content. content ≡ content_of_stream width stream.now) }
    ensures receipt { IfOk result (λ _. (receipt : List Command) × GivesRaw stream.now receipt) }
    ensures refused { IfErr result (λ why. IsRawReason width why stream.now) }
{
    if stream.len() > INPUT_LIMIT {
        return Err(NoReceipt::Refused(Refusal::too_long()));
    }
    let Ok(bytes) = stream.to_vec(alloc) else {
        return Err(NoReceipt::Memory);
    };
    match ReceiptContent::read_stream(alloc, width, bytes) {
        Ok(content) => Ok(content),
        Err(StreamError::Refused(fault)) => Err(NoReceipt::Refused(Refusal::from(fault))),
        Err(StreamError::Memory) => Err(NoReceipt::Memory),
    }
}
