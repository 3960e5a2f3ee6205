//! The printer that a handle holds, and the numbers in which C is told of it.

ghost use Rattle.std.specs.Prelude.{◌≡◌, IfSome};
ghost use Rattle.escpos_c.specs.PrinterCalls.{FeedsBytes, GivesPaper, IsNewPrinter, TakesAnswer};
ghost use Rattle.escpos_c.specs.Status.{number_of_status};
ghost use Rattle.escpos_c.specs.PrinterNumbers.{stop_kind, stop_place, stop_reason};

use crate::buffer::give;
use crate::call_status::CallStatus;
use crate::limited_text::LimitedText;
use crate::refusal::{NO_PLACE, NO_REASON};
use escpos_command::LineWidth;
use escpos_paper::write_items;
use escpos_printer::{Condition, FeedStop, Printer};
use std::alloc::Global;

// The most bytes of an answer.
const LONGEST_ANSWER: usize = 7;

const _: () = prove!(LONGEST_ANSWER == 7);

/// A printer.
#[derive(Drop)]
pub struct PrinterCore {
    pub printer: Printer,
}

/// What C is told of the bytes that were fed: how many were taken, why no more were, and of a fault its reason and its place.
#[derive(Clone, Copy, Debug, PartialEq, Eq)]
pub struct FedNumbers {
    pub consumed: usize,
    pub stop: u32,
    pub reason: u32,
    pub at: usize,
}

impl PrinterCore {
    /// A printer on the heap whose lines have this width, with nothing on its paper; `None` if an allocation failed.
    pub fn boxed(alloc: Global, condition: Condition, width: LineWidth) -> Option<Box<PrinterCore>>
        ensures { IfSome result (λ core. IsNewPrinter width core.value.printer condition) }
    {
        let printer = match Printer::new(alloc, condition, width) {
            Ok(printer) => printer,
            Err(_) => return None,
        };
        match Box::new(alloc, PrinterCore { printer }) {
            Ok(core) => Some(core),
            Err(_) => None,
        }
    }

    /// Takes the bytes of a piece, as `Printer::feed` does.
    pub fn feed(&mut self, bytes: &[u8]) -> FedNumbers
        ensures { FeedsBytes bytes.now result.consumed result.stop result.reason result.at self.old self.new }
    {
        let fed = self.printer.feed(bytes);
        FedNumbers {
            consumed: fed.consumed,
            stop: stop_kind(fed.stop),
            reason: stop_reason(fed.stop),
            at: stop_place(fed.stop),
        }
    }

    /// Moves the answer that has waited longest to the start of `out`, if that has room for the longest one.
    pub fn take_answer(&mut self, out: &mut [u8], written: &mut usize) -> CallStatus
        ensures { TakesAnswer (number_of_status result) out.old out.new written.new self.old self.new }
    {
        if out.len() < LONGEST_ANSWER {
            *written = LONGEST_ANSWER;
            return CallStatus::Short;
        }
        match self.printer.take_answer() {
            Some(answer) => give(CallStatus::Good, answer.bytes().as_slice(), out, written),
            None => {
                *written = 0;
                CallStatus::Good
            }
        }
    }

    /// Gives the text of what is on the paper.
    pub fn give_paper(&self, alloc: Global, out: &mut [u8], written: &mut usize) -> CallStatus
        ensures { GivesPaper (number_of_status result) out.old out.new written.new self.now }
    {
        let mut text = LimitedText::new(alloc);
        if write_items(self.printer.items(), &mut text).is_err() {
            *written = 0;
            return text.cut_short();
        }
        give(CallStatus::Good, text.bytes(), out, written)
    }
}

// The kind of a stop.
fn stop_kind(stop: FeedStop) -> u32
    ensures { result ≡ stop_kind stop }
{
    match stop {
        FeedStop::All => 0,
        FeedStop::AnswersFull => 1,
        FeedStop::Offline => 2,
        FeedStop::Fault { .. } => 3,
        FeedStop::Memory => 4,
    }
}

// The reason of a fault.
fn stop_reason(stop: FeedStop) -> u32
    ensures { result ≡ stop_reason stop }
{
    match stop {
        FeedStop::Fault { why, .. } => u32::from(why.number()),
        _ => NO_REASON,
    }
}

// The place of a fault.
fn stop_place(stop: FeedStop) -> usize
    ensures { result ≡ stop_place stop }
{
    match stop {
        FeedStop::Fault { at, .. } => at,
        _ => NO_PLACE,
    }
}
