//! The machine that a handle holds, and what C is told of it.

ghost use Rattle.std.specs.Prelude.{◌≡◌, ◌+◌, List, length, IfSome, IfOk, IfErr, IsTrue, OnOk};
ghost use Rattle.escpos_command.specs.declared.command.Command.{Command};
ghost use Rattle.escpos_till.specs.declared.entry.Entry.{Entry as EntryValue};
ghost use Rattle.escpos_till.specs.Book.{IsBookOf};
ghost use Rattle.escpos_till.specs.Contents.{content_with};
ghost use Rattle.escpos_till.specs.Entries.{earlier, states};
ghost use Rattle.escpos_till.specs.Machine.{Queues, RefusesAny, SameEntries};
ghost use Rattle.escpos_c.specs.EncodeCalls.{GivesReceipt};
ghost use Rattle.escpos_c.specs.Reasons.{IsReason};
ghost use Rattle.escpos_c.specs.Status.{number_of_status};
ghost use Rattle.escpos_c.specs.TillCalls.{CancelsNumber, DeliversCopy, GivesEntry, GivesLine, QueuesKeyed, QueuesText, QueuesTextWith, RaisesTo, TakesAppended, TakesEnd, TellsAsk};
ghost use Rattle.escpos_c.specs.TillNumbers.{standing_of};

use crate::buffer::give;
use crate::call_status::CallStatus;
use crate::no_receipt::{NoReceipt, no_receipt};
use crate::refusal::Refusal;
use crate::till_lines::line_of;
use crate::till_numbers::{
    Asked, BAD_COPY, BAD_KEY, NOT_TAKEN, Standing, Told, ended, fault_of, note_asked, standing_of,
};
use escpos_job_parts::input::INPUT_LIMIT;
use escpos_receipt::ReceiptOptions;
use escpos_till::{
    Action, CopyText, Entry, ReceiptContent, ReceiptKey, ReceiptNumber, StoreFault, TillMachine,
    TillRefusal,
};
use std::alloc::Global;

/// The machine of a till with one printer.
#[derive(Drop)]
pub struct TillCore {
    pub machine: TillMachine,
}

impl TillCore {
    /// A machine on the heap; `None` if the allocation failed.
    pub fn boxed(alloc: Global, machine: TillMachine) -> Option<Box<TillCore>>
        ensures { IfSome result (λ core. core.value.machine ≡ machine) }
    {
        match Box::new(alloc, TillCore { machine }) {
            Ok(core) => Some(core),
            Err(_) => None,
        }
    }

    /// Takes the receipt that a text describes with these options, `None` where they are out of range. It may come with a key.
    pub fn queue_with(
        &mut self,
        alloc: Global,
        options: Option<ReceiptOptions>,
        json: &[u8],
        key: Option<ReceiptKey>,
    ) -> (CallStatus, Told)
        ensures { QueuesTextWith options json.now key (number_of_status result.0) result.1 self.old self.new }
    {
        match options {
            Some(options) => self.queue(alloc, &options, json, key),
            None => (CallStatus::Refused, Told::receipt(Refusal::bad_options())),
        }
    }

    /// The same with a key of these bytes. If they are none, it is refused, and the machine isn't asked.
    pub fn queue_keyed(
        &mut self,
        alloc: Global,
        options: Option<ReceiptOptions>,
        json: &[u8],
        key: &[u8],
    ) -> (CallStatus, Told)
        ensures { QueuesKeyed options json.now key.now (number_of_status result.0) result.1 self.old self.new }
    {
        match ReceiptKey::new(key) {
            Some(key) => self.queue_with(alloc, options, json, Some(key)),
            None => (CallStatus::Refused, Told::reason(BAD_KEY)),
        }
    }

    // Takes the receipt that a text describes, or says why it describes none.
    fn queue(
        &mut self,
        alloc: Global,
        options: &ReceiptOptions,
        json: &[u8],
        key: Option<ReceiptKey>,
    ) -> (CallStatus, Told)
        ensures { QueuesText options.now json.now key (number_of_status result.0) result.1 self.old self.new }
    {
        match content_of(alloc, options, json) {
            Ok(content) => ended(self.take(content, key)),
            Err(NoReceipt::Refused(refusal)) => (CallStatus::Refused, Told::receipt(refusal)),
            Err(NoReceipt::Memory) => (CallStatus::Memory, Told::nothing()),
        }
    }

    /// Takes a receipt that was read, which may come with a key.
    pub fn take(
        &mut self,
        content: ReceiptContent,
        key: Option<ReceiptKey>,
    ) -> Result<(), TillRefusal>
        ensures taken { OnOk result (Queues self.old.machine content key self.new.machine) }
        ensures refused { IfErr result (λ why. RefusesAny self.old.machine why × SameEntries self.old.machine self.new.machine) }
    {
        if let Err((why, _content)) = self.machine.queue(content, key) {
            return Err(why);
        }
        Ok(())
    }

    /// Raises the next mark number, as `TillMachine::raise` does.
    pub fn raise(&mut self, first: u32) -> (CallStatus, Told)
        ensures { RaisesTo first (number_of_status result.0) result.1 self.old self.new }
    {
        ended(self.machine.raise(first))
    }

    /// Cancels a receipt that waits, as `TillMachine::cancel` does. No receipt has the number 0.
    pub fn cancel(&mut self, number: usize) -> (CallStatus, Told)
        ensures { CancelsNumber number (number_of_status result.0) result.1 self.old self.new }
    {
        match ReceiptNumber::new(number) {
            Some(number) => ended(self.machine.cancel(number)),
            None => (CallStatus::Refused, Told::reason(NOT_TAKEN)),
        }
    }

    /// Delivers the first receipt that waits, as `TillMachine::deliver` does. An empty text of a copy is none.
    pub fn deliver(&mut self, openings: u32, copy: &[u8], most: u32) -> (CallStatus, Told)
        ensures { DeliversCopy openings copy.now most (number_of_status result.0) result.1 self.old self.new }
    {
        if copy.is_empty() {
            return ended(self.machine.deliver(openings, None, most, false));
        }
        match CopyText::new(copy) {
            Some(text) => ended(self.machine.deliver(openings, Some(&text), most, false)),
            None => (CallStatus::Refused, Told::reason(BAD_COPY)),
        }
    }

    /// What it asks for.
    pub fn asks(&self) -> Asked
        ensures { TellsAsk self.now.machine result }
    {
        match self.machine.asks() {
            Action::Nothing => Asked::only(0),
            Action::Append(_) => Asked::only(1),
            Action::Connect => Asked::only(2),
            Action::Put => Asked::only(3),
            Action::Wait(most) => Asked::answers(most),
            Action::HangUp => Asked::only(5),
            Action::Tell(note) => note_asked(note),
        }
    }

    /// Gives the line of the entry that is to be kept.
    pub fn entry(&self, alloc: Global, out: &mut [u8], written: &mut usize) -> CallStatus
        ensures { GivesEntry self.now.machine.stage (number_of_status result) out.old out.new written.new }
    {
        match self.machine.asks() {
            Action::Append(entry) => give_line(alloc, entry, out, written),
            Action::Nothing
            | Action::Connect
            | Action::Put
            | Action::Wait(_)
            | Action::HangUp
            | Action::Tell(_) => {
                *written = 0;
                CallStatus::Refused
            }
        }
    }

    /// Whether the entry is kept, as `TillMachine::appended` is told.
    pub fn appended(&mut self, is: bool)
        ensures { TakesAppended (IsTrue is) self.old.machine self.new.machine }
    {
        if is {
            self.machine.appended(Ok(()));
        } else {
            self.machine.appended(Err(StoreFault::Failed));
        }
    }

    /// The link has ended for the reason of this number, as `TillMachine::link_ended` is told.
    pub fn link_ended(&mut self, why: u32) -> CallStatus
        ensures { TakesEnd why (number_of_status result) self.old self.new }
    {
        match fault_of(why) {
            Some(fault) => {
                self.machine.link_ended(fault);
                CallStatus::Good
            }
            None => CallStatus::Refused,
        }
    }

    /// The number of the receipt that was taken last, here or in an older ledger; 0 if none was.
    pub fn receipts(&self) -> usize
        ensures { (entries : List EntryValue) → IsBookOf self.now.machine.book entries → result ≡ earlier entries + length (states entries) }
    {
        self.machine.earlier() as usize + self.machine.states().len()
    }

    /// Where the receipt of this number stands.
    pub fn standing(&self, number: usize) -> Standing
        ensures { (entries : List EntryValue) → IsBookOf self.now.machine.book entries → result ≡ standing_of (earlier entries) (states entries) number }
    {
        standing_of(self.machine.earlier(), self.machine.states(), number)
    }
}

// Gives the line of an entry.
fn give_line(alloc: Global, entry: &Entry, out: &mut [u8], written: &mut usize) -> CallStatus
    ensures { GivesLine entry.now (number_of_status result) out.old out.new written.new }
{
    match line_of(alloc, entry) {
        Ok(line) => give(CallStatus::Good, &line, out, written),
        Err(_) => {
            *written = 0;
            CallStatus::Memory
        }
    }
}

// What a machine takes of a text that describes a receipt with these options.
fn content_of(
    alloc: Global,
    options: &ReceiptOptions,
    json: &[u8],
) -> Result<ReceiptContent, NoReceipt>
    ensures content { IfOk result (λ content. content ≡ content_with options.now json.now) }
    ensures receipt { IfOk result (λ _. (receipt : List Command) × GivesReceipt options.now json.now receipt) }
    ensures refused { IfErr result (λ why. IsReason options.now why json.now) }
{
    if json.len() > INPUT_LIMIT {
        return Err(NoReceipt::Refused(Refusal::too_long()));
    }
    let Ok(text) = json.to_vec(alloc) else {
        return Err(NoReceipt::Memory);
    };
    match ReceiptContent::read(alloc, options, text) {
        Ok(content) => Ok(content),
        Err(why) => Err(no_receipt(why)),
    }
}
