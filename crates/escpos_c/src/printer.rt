//! The printer that a handle holds, for emulators: it takes a stream in pieces, prints, and answers.

ghost use Rattle.std.specs.Prelude.{◌≡◌, ◌⊎◌, pos, None, MatchOption};
ghost use Rattle.escpos_c.specs.declared.refusal.TheConstants.{NO_REASON, NO_PLACE};
ghost use Rattle.escpos_command.specs.declared.line_width.TheConstants.{USUAL_LINE_DOTS};
ghost use Rattle.escpos_c.specs.Given.{line_dots};
ghost use Rattle.escpos_c.specs.Handles.{OnHandle};
ghost use Rattle.escpos_c.specs.PrinterCalls.{FeedsBytes, GivesPaper, HoldsNewPrinter, TakesAnswer, condition_of, torn, with_condition};

use crate::call_status::CallStatus;
use crate::options::line_width;
use crate::printer_core::PrinterCore;
use crate::printer_handle::PrinterHandle;
use crate::refusal::{NO_PLACE, NO_REASON};
use escpos_command::LineWidth;
use escpos_printer::Condition;
use std::alloc::Global;

/// What the sensors of a printer say, as C sees it. (Reference: DLE EOT.)
#[repr(C)]
#[derive(Clone, Copy, Debug, PartialEq, Eq)]
pub struct Sensors {
    /// The cover is open.
    pub cover_open: bool,
    /// The paper is near its end.
    pub near_end: bool,
    /// The paper has ended.
    pub paper_end: bool,
}

impl Sensors {
    // The same for the printer.
    fn condition(&self) -> Condition
        ensures { result ≡ condition_of self.now }
    {
        Condition {
            cover_open: self.cover_open,
            near_end: self.near_end,
            paper_end: self.paper_end,
        }
    }
}

/// Puts a printer into the handle, switched on with nothing on its paper, and frees what the handle held.
#[unsafe(no_mangle)]
pub extern "C" fn escpos_printer_new(
    alloc: Global,
    printer: &mut PrinterHandle,
    sensors: &Sensors,
) -> i32
    ensures { ((result ≡ pos 0) × HoldsNewPrinter USUAL_LINE_DOTS printer.new.value (condition_of sensors.now))
        ⊎ ((result ≡ pos 4) × (printer.new.value ≡ printer.old.value)) }
{
    switch_on(alloc, printer, sensors, LineWidth::usual()).number()
}

/// The same, of a printer whose lines have this many dots; 0 stands for 512. For more than 1,024 the handle stays as it was.
#[unsafe(no_mangle)]
pub extern "C" fn escpos_printer_new_at(
    alloc: Global,
    printer: &mut PrinterHandle,
    sensors: &Sensors,
    width: u16,
) -> i32
    ensures { MatchOption (line_dots width) ((result ≡ pos 1) × (printer.new.value ≡ printer.old.value))
        (λ dots. ((result ≡ pos 0) × HoldsNewPrinter dots printer.new.value (condition_of sensors.now))
        ⊎ ((result ≡ pos 4) × (printer.new.value ≡ printer.old.value))) }
{
    match line_width(width) {
        Some(line) => switch_on(alloc, printer, sensors, line).number(),
        None => CallStatus::Refused.number(),
    }
}

// Puts a printer into the handle whose lines have this width, and frees what the handle held.
fn switch_on(
    alloc: Global,
    printer: &mut PrinterHandle,
    sensors: &Sensors,
    width: LineWidth,
) -> CallStatus
    ensures { ((result ≡ CallStatus.Good) × HoldsNewPrinter width printer.new.value (condition_of sensors.now))
        ⊎ ((result ≡ CallStatus.Memory) × (printer.new.value ≡ printer.old.value)) }
{
    match PrinterCore::boxed(alloc, sensors.condition(), width) {
        Some(core) => {
            printer.put(alloc, core);
            CallStatus::Good
        }
        None => CallStatus::Memory,
    }
}

/// Frees the printer. The handle holds nothing then.
#[unsafe(no_mangle)]
pub extern "C" fn escpos_printer_free(alloc: Global, printer: &mut PrinterHandle)
    ensures { printer.new.value ≡ None }
{
    let _ = printer.take(alloc);
}

/// Feeds bytes of a stream, up to the first that can't be taken now. `consumed` is how many were taken; `stop` says why no more
/// were: 0 all are, 1 sixteen answers wait, 2 the printer is offline, 3 a fault, of which `reason` and `at` are the number and
/// the place, 4 out of memory for the next byte.
#[unsafe(no_mangle)]
pub extern "C" fn escpos_printer_feed(
    alloc: Global,
    printer: &mut PrinterHandle,
    bytes: &[u8],
    consumed: &mut usize,
    stop: &mut u32,
    reason: &mut u32,
    at: &mut usize,
) -> i32
    ensures { OnHandle printer.old.value printer.new.value
        (λ old new. (result ≡ pos 0) × FeedsBytes bytes.now consumed.new stop.new reason.new at.new old new)
        ((result ≡ pos 2) × (consumed.new ≡ 0) × (stop.new ≡ 0) × (reason.new ≡ NO_REASON) × (at.new ≡ NO_PLACE)) }
{
    let Some(mut core) = printer.take(alloc) else {
        *consumed = 0;
        *stop = 0;
        *reason = NO_REASON;
        *at = NO_PLACE;
        return CallStatus::Empty.number();
    };
    let fed = core.feed(bytes);
    printer.put(alloc, core);
    *consumed = fed.consumed;
    *stop = fed.stop;
    *reason = fed.reason;
    *at = fed.at;
    CallStatus::Good.number()
}

/// Moves the answer that has waited longest to the start of `out`; `written` is its length, 0 if none waits. A buffer of less
/// than 7 bytes is too short.
#[unsafe(no_mangle)]
pub extern "C" fn escpos_printer_take_answer(
    alloc: Global,
    printer: &mut PrinterHandle,
    out: &mut [u8],
    written: &mut usize,
) -> i32
    ensures { OnHandle printer.old.value printer.new.value (TakesAnswer result out.old out.new written.new)
        ((result ≡ pos 2) × (written.new ≡ 0) × (out.new ≡ out.old)) }
{
    let Some(mut core) = printer.take(alloc) else {
        *written = 0;
        return CallStatus::Empty.number();
    };
    let status = core.take_answer(out, written);
    printer.put(alloc, core);
    status.number()
}

/// Sets what the sensors say.
#[unsafe(no_mangle)]
pub extern "C" fn escpos_printer_set_condition(
    alloc: Global,
    printer: &mut PrinterHandle,
    sensors: &Sensors,
) -> i32
    ensures { OnHandle printer.old.value printer.new.value
        (λ old new. (result ≡ pos 0) × (new.printer ≡ with_condition old.printer (condition_of sensors.now))) (result ≡ pos 2) }
{
    let Some(mut core) = printer.take(alloc) else {
        return CallStatus::Empty.number();
    };
    core.printer.set_condition(sensors.condition());
    printer.put(alloc, core);
    CallStatus::Good.number()
}

/// Prints what is on the paper and wasn't torn off as text, a line for each item, as `escpos_paper` does.
#[unsafe(no_mangle)]
pub extern "C" fn escpos_printer_paper(
    alloc: Global,
    printer: &mut PrinterHandle,
    out: &mut [u8],
    written: &mut usize,
) -> i32
    ensures same { printer.new.value ≡ printer.old.value }
    ensures told { MatchOption printer.old.value ((result ≡ pos 2) × (written.new ≡ 0) × (out.new ≡ out.old))
        (GivesPaper result out.old out.new written.new) }
{
    let Some(core) = printer.take(alloc) else {
        *written = 0;
        return CallStatus::Empty.number();
    };
    let status = core.give_paper(alloc, out, written);
    printer.put(alloc, core);
    status.number()
}

/// Drops what is on the paper.
#[unsafe(no_mangle)]
pub extern "C" fn escpos_printer_tear_off(alloc: Global, printer: &mut PrinterHandle) -> i32
    ensures { OnHandle printer.old.value printer.new.value (λ old new. (result ≡ pos 0) × (new.printer ≡ torn old.printer)) (result ≡ pos 2) }
{
    let Some(mut core) = printer.take(alloc) else {
        return CallStatus::Empty.number();
    };
    core.printer.tear_off();
    printer.put(alloc, core);
    CallStatus::Good.number()
}
