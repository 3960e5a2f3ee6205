//! What a host must still put on its link.
//!
//! Nothing is spelled ahead and no receipt is copied: `Out` keeps the parts and how much of the first of them is out, and
//! `take_out` spells the commands straight into the caller's buffer. When a part comes, and what its marks mean, is left to
//! the host. `specs/Out.antt` has the bytes as one list.

ghost use Rattle.std.specs.Prelude.{◌≡◌, ◌≢◌, ◌+◌, ◌<◌, ◌≤◌, ◌↔◌, min, List, [], ◌∷◌, ◌++◌, length, take, drop, slice_index_or, IsTrue, OnOk, OnErr};
ghost use Rattle.escpos_command.specs.CommandTable.{row, spell};
ghost use Rattle.escpos_command.specs.Copied.{Copied};
ghost use Rattle.escpos_command.specs.Laws.{longest_spelling};
ghost use Rattle.escpos_command.specs.declared.command.Command.{Command};
ghost use Rattle.escpos_command.specs.declared.command.Command.TheVariants as kind;
ghost use Rattle.escpos_host.specs.Machine.{ask_reports};
ghost use Rattle.escpos_host.specs.Out.{opening_commands, part_commands, unsent, IsPlaced, Within, CopiedOut};

use escpos_command::{Command, MarkId, Reporting, StatusKind};
use escpos_receipt::Receipt;
use std::alloc::{AllocError, Global};
use std::collections::VecDeque;
use std::marker::Model;

/// A part of what is to be put out.
#[derive(Clone, Copy, Debug, PartialEq, Eq)]
pub enum OutPart {
    /// An opening mark.
    Mark(MarkId),
    /// A request for automatic status, and the first opening mark.
    Opening(MarkId),
    /// A status request.
    Ask(StatusKind),
    /// A request for automatic status.
    AskReports,
    /// The receipt at this place of the host's receipts, with Init before it and this closing mark after it.
    Receipt { place: usize, closing: MarkId },
}

/// The parts that are still to be taken out, and how much of the first of them is out.
#[derive(Debug, Drop)]
pub struct Out {
    parts: VecDeque<OutPart>,
    item: usize, // commands of the first part that are out
    from: usize, // bytes of its next command that are out
}

impl Model for Out {
    ghost use Rattle.escpos_host.specs.Out.{Pending};

    ghost Value = { Pending };

    ghost view = { λ o. record { parts = o.parts.items; item = o.item; from = o.from } };
}

impl Out {
    /// Nothing to put out. Allocates nothing.
    pub fn new(alloc: Global) -> Self
        ensures unsent { (receipts : List (List Command)) → unsent receipts result ≡ [] }
        ensures within { (receipts : List (List Command)) → Within receipts result }
    {
        Out {
            parts: VecDeque::new(alloc),
            item: 0,
            from: 0,
        }
    }

    /// Appends a part. If the allocation fails, nothing is changed.
    pub fn push(&mut self, part: OutPart) -> Result<(), AllocError>
        ensures unsent { OnOk result ((receipts : List (List Command)) → Within receipts self.old
            → unsent receipts self.new ≡ unsent receipts self.old ++ spell (part_commands receipts part)) }
        ensures within { OnOk result ((receipts : List (List Command)) → Within receipts self.old → IsPlaced receipts part → Within receipts self.new) }
        ensures err { OnErr result (self.new ≡ self.old) }
    {
        self.parts.push_back(part)?;
        Ok(())
    }

    /// Drops all that is left. Allocates nothing.
    pub fn clear(&mut self)
        ensures unsent { (receipts : List (List Command)) → unsent receipts self.new ≡ [] }
        ensures within { (receipts : List (List Command)) → Within receipts self.new }
    {
        self.parts.clear();
        self.item = 0;
        self.from = 0;
    }

    /// Whether nothing is left to be taken out.
    pub fn is_empty(&self) -> bool
        ensures { (receipts : List (List Command)) → Within receipts self.now → (IsTrue result ↔ (unsent receipts self.now ≡ [])) }
    {
        self.parts.is_empty()
    }

    /// Copies the next bytes to the start of `out`, as many as there are and fit, and returns their number. The rest of
    /// `out` is unchanged. Allocates nothing.
    ///
    /// `receipts` are the host's receipts, among which the parts have theirs.
    pub fn take_out(&mut self, receipts: &[Receipt], out: &mut [u8]) -> usize
        requires { Within receipts.now self.old }
        ensures count { result ≡ min (length out.old) (length (unsent receipts.now self.old)) }
        ensures copied { out.new ≡ take result (unsent receipts.now self.old) ++ drop result out.old }
        ensures unsent { unsent receipts.now self.new ≡ drop result (unsent receipts.now self.old) }
        ensures within { Within receipts.now self.new }
    {
        let mut filled = 0;
        while filled < out.len() && !self.parts.is_empty() {
            filled += self.take_command(receipts, &mut out[filled..]);
        }
        filled
    }

    // Copies bytes of the next command only, as many as there are and fit, and returns their number.
    fn take_command(&mut self, receipts: &[Receipt], out: &mut [u8]) -> usize
        requires within { Within receipts.now self.old }
        requires some_left { self.old.parts ≢ [] }
        requires room { 0 < length out.old }
        ensures some { 0 < result }
        ensures taken { CopiedOut receipts.now self.old self.new out.old out.new result }
    {
        let Some(part) = self.parts.front() else {
            return 0;
        };
        let step = part.copy_command(receipts, self.item, self.from, out);
        let command_count = part.command_count(receipts);
        self.from += step.count;
        if step.is_end {
            self.from = 0;
            self.item += 1;
            if self.item == command_count {
                self.item = 0;
                let _ = self.parts.pop_front();
            }
        }
        step.count
    }
}

// How many bytes of a command were copied, and whether its last byte was one of them.
#[derive(Clone, Copy)]
struct Step {
    count: usize,
    is_end: bool,
}

impl OutPart {
    /// The first opening mark, with a request for automatic status or without.
    pub fn opening(mark: MarkId, reporting: bool) -> Self
        ensures commands { (receipts : List (List Command)) → part_commands receipts result ≡ opening_commands reporting mark }
        ensures placed { (receipts : List (List Command)) → IsPlaced receipts result }
    {
        if reporting {
            OutPart::Opening(mark)
        } else {
            OutPart::Mark(mark)
        }
    }

    // The number of commands of the part.
    fn command_count(&self, receipts: &[Receipt]) -> usize
        requires { IsPlaced receipts.now self.now }
        ensures { result ≡ length (part_commands receipts.now self.now) }
    {
        match *self {
            OutPart::Mark(_) | OutPart::Ask(_) | OutPart::AskReports => 1,
            OutPart::Opening(_) => 2,
            OutPart::Receipt { place, .. } => receipts[place].commands().len() + 2,
        }
    }

    // Copies bytes of the part's command at this place, from byte `from` on, as many as there are and fit.
    fn copy_command(&self, receipts: &[Receipt], item: usize, from: usize, out: &mut [u8]) -> Step
        requires placed { IsPlaced receipts.now self.now }
        requires item { item < length (part_commands receipts.now self.now) }
        requires from { from < length (row (slice_index_or (part_commands receipts.now self.now) item kind.Init)) }
        ensures copied { Copied out.old out.new (row (slice_index_or (part_commands receipts.now self.now) item kind.Init)) from result.count }
        ensures is_end { IsTrue result.is_end ↔ (from + result.count ≡ length (row (slice_index_or (part_commands receipts.now self.now) item kind.Init))) }
        ensures most { from + result.count ≤ longest_spelling }
    {
        match *self {
            OutPart::Mark(id) => copy(&Command::Mark(id), from, out),
            OutPart::Opening(id) if item == 1 => copy(&Command::Mark(id), from, out),
            OutPart::Opening(_) | OutPart::AskReports => copy(&ask_reports(), from, out),
            OutPart::Ask(kind) => copy(&Command::Status(kind), from, out),
            OutPart::Receipt { place, closing } => {
                if item == 0 {
                    return copy(&Command::Init, from, out);
                }
                match receipts[place].commands().get(item - 1) {
                    Some(command) => copy(command, from, out),
                    None => copy(&Command::Mark(closing), from, out),
                }
            }
        }
    }
}

// The request for automatic status.
fn ask_reports() -> Command
    ensures { result ≡ ask_reports }
{
    Command::AutomaticStatus(Reporting::all_but_drawer())
}

// Copies bytes of the command from byte `from` on, as many as there are and fit.
fn copy(command: &Command, from: usize, out: &mut [u8]) -> Step
    requires { from < length (row command.now) }
    ensures copied { Copied out.old out.new (row command.now) from result.count }
    ensures is_end { IsTrue result.is_end ↔ (from + result.count ≡ length (row command.now)) }
    ensures most { from + result.count ≤ longest_spelling }
{
    let length = command.spelled_len();
    let count = command.spell_at(from, out);
    Step {
        count,
        is_end: from + count == length,
    }
}
