//! Receipts: commands that print whole, wherever they stand, and leave nothing in the line.
//!
//! `specs/Whole.antt` looks back in the list of commands; the code goes through it once, with one flag.

ghost use Rattle.std.specs.Prelude.{◌≡◌, ◌≤◌, List, [], ◌∷◌, ◌++◌, length, IsOk, MatchOption, MatchResult};
ghost use Rattle.escpos_command.specs.CommandTable.{AreCommands};
ghost use Rattle.escpos_command.specs.Text.{characters, ends_text};
ghost use Rattle.escpos_receipt.specs.Whole.{MayFollow, Whole, IsReceiptFault, has_text, is_forbidden, needs_empty_line, is_nonempty};
ghost use Rattle.escpos_receipt.specs.Printable.{IsFirstLeftOut, IsPrintable};
ghost use Rattle.escpos_command.specs.declared.command.Command.{Command};

use crate::codes::first_left_out;
use escpos_command::{Command, LineWidth, laws};
use escpos_real_time::holds_real_time;
use std::marker::Model;

/// Why commands aren't a receipt: the first reason that applies. 1 comes first; then, at the first command that can't stand
/// in its place, 2, 4 or 9, in this order; then 3.
#[derive(Clone, Copy, Debug, PartialEq, Eq)]
pub enum ReceiptFault {
    /// 1: there is no command.
    Empty,
    /// 2: the command at this place is an Init, a status request or a mark.
    Forbidden { at: usize },
    /// 3: at the end there is text in the line that nothing prints.
    TextLeft,
    /// 4: the command at this place is a barcode, a raster, a print of graphics or a QR code, or a cut, with text in the line before it.
    MidLine { at: usize },
    /// 9: in the bytes of the command at this place stands a real-time command (DLE EOT, DLE ENQ or DLE DC4), which a printer would
    /// carry out.
    RealTime { at: usize },
}

impl ReceiptFault {
    ghost use Rattle.escpos_receipt.specs.Refusals.{receipt_name, receipt_number, receipt_place};

    /// The number that programs print.
    pub fn number(self) -> u8
        ensures { result ≡ receipt_number self }
    {
        match self {
            ReceiptFault::Empty => 1,
            ReceiptFault::Forbidden { .. } => 2,
            ReceiptFault::TextLeft => 3,
            ReceiptFault::MidLine { .. } => 4,
            ReceiptFault::RealTime { .. } => 9,
        }
    }

    /// The name that programs print.
    pub fn name(self) -> &'static str
        ensures value { result.now ≡ receipt_name self }
        ensures short { length result.now ≤ 11 }
    {
        match self {
            ReceiptFault::Empty => "Empty",
            ReceiptFault::Forbidden { .. } => "Forbidden",
            ReceiptFault::TextLeft => "TextLeft",
            ReceiptFault::MidLine { .. } => "MidLine",
            ReceiptFault::RealTime { .. } => "RealTime",
        }
    }

    /// The place of the command that can't stand where it does, counted from 0; `None` for `Empty` and `TextLeft`.
    pub fn place(self) -> Option<usize>
        ensures { result ≡ receipt_place self }
    {
        match self {
            ReceiptFault::Forbidden { at }
            | ReceiptFault::MidLine { at }
            | ReceiptFault::RealTime { at } => Some(at),
            ReceiptFault::Empty | ReceiptFault::TextLeft => None,
        }
    }
}

/// The commands of a receipt, one or more. There is no Init, status request or mark among them; no barcode, raster, graphics, QR
/// code or cut come while there is text in the line; no real-time command stands in their bytes; and at the end the line is empty.
/// (Profile.)
#[derive(Debug, Drop)]
pub struct Receipt {
    commands: Vec<Command>,
}

impl Model for Receipt {
    ghost use Rattle.std.specs.Prelude.{List};
    ghost use Rattle.escpos_command.specs.declared.command.Command.{Command};
    ghost use Rattle.escpos_command.specs.CommandTable.{AreCommands};
    ghost use Rattle.escpos_receipt.specs.Whole.{Whole};

    ghost Value = { List Command };

    ghost view = { λ r. r.commands.items };

    ghost invariant = { λ r. Whole r.commands.items × AreCommands r.commands.items };
}

impl Receipt {
    /// The receipt of these commands. Allocates nothing.
    ///
    /// `Err` returns the commands, with the first reason that applies.
    pub fn new(commands: Vec<Command>) -> Result<Self, (ReceiptFault, Vec<Command>)>
        ensures result { MatchResult result
            (λ receipt. (receipt ≡ commands.items) × Whole receipt)
            (λ refusal. IsReceiptFault refusal.0 commands.items × (refusal.1 ≡ commands)) }
        ensures exact { Whole commands.items → IsOk result }
    {
        match fault_of(&commands) {
            Some(fault) => Err((fault, commands)),
            None => Ok(Receipt { commands }),
        }
    }

    /// The commands, in order. Allocates nothing.
    pub fn commands(&self) -> &[Command]
        ensures commands { result.now ≡ self.now }
        ensures whole { Whole self.now }
        ensures in_range { AreCommands self.now }
    {
        self.commands.as_slice()
    }

    /// The place of the first command, counted from 0, whose barcode or QR code a printer with lines of this width leaves out:
    /// one that has no bars or no version, or is wider than the line. `None` where all are printed. Allocates nothing.
    pub fn not_printable(&self, width: LineWidth) -> Option<usize>
        ensures { MatchOption result (IsPrintable width self.now) (λ at. IsFirstLeftOut width self.now at) }
    {
        first_left_out(width, self.commands.as_slice())
    }
}

// The first reason for which these commands aren't a receipt.
fn fault_of(commands: &[Command]) -> Option<ReceiptFault>
    ensures { MatchOption result (Whole commands.now × AreCommands commands.now) (λ fault. IsReceiptFault fault commands.now) }
{
    if commands.is_empty() {
        return Some(ReceiptFault::Empty);
    }
    let mut has_text = false;
    for (at, command) in commands.iter().enumerate() {
        // Proof only: the command is in range.
        laws::in_range(command);
        if is_forbidden(command) {
            return Some(ReceiptFault::Forbidden { at });
        }
        if has_text && needs_empty_line(command) {
            return Some(ReceiptFault::MidLine { at });
        }
        if holds_real_time(command) {
            return Some(ReceiptFault::RealTime { at });
        }
        has_text = has_text_after(has_text, command);
    }
    if has_text {
        return Some(ReceiptFault::TextLeft);
    }
    None
}

/// Whether there is text in the line after one more command of a receipt; `had_text` says whether there was some before it.
pub fn has_text_after(had_text: bool, command: &Command) -> bool
    ensures { (before : List Command) → MayFollow before command.now → had_text ≡ has_text before → result ≡ has_text (before ++ command.now ∷ []) }
{
    is_printing(command) || had_text && !ends_text(command)
}

/// Whether a receipt may not have the command: it sets the printer up or asks it for an answer.
pub fn is_forbidden(command: &Command) -> bool
    ensures { result ≡ is_forbidden command.now }
{
    matches!(
        command,
        Command::Init | Command::AutomaticStatus(_) | Command::Status(_) | Command::Mark(_)
    )
}

/// Whether the command would first print the text that is in the line.
pub fn needs_empty_line(command: &Command) -> bool
    ensures { result ≡ needs_empty_line command.now }
{
    matches!(
        command,
        Command::Bars(_)
            | Command::Raster(_)
            | Command::GraphicsPrint(_)
            | Command::QrPrint
            | Command::Cut(_)
            | Command::OldCut(_)
    )
}

// Whether the command is a character.
fn is_printing(command: &Command) -> bool
    ensures { result ≡ is_nonempty (characters command.now) }
{
    matches!(command, Command::Char(_))
}

// Whether the line is empty after the command: it prints the line or drops it. (A QR code and graphics come with
// an empty line.)
fn ends_text(command: &Command) -> bool
    ensures { result ≡ ends_text command.now }
{
    matches!(
        command,
        Command::LineFeed
            | Command::FeedLines(_)
            | Command::FeedUnits(_)
            | Command::Init
            | Command::Bars(_)
            | Command::Raster(_)
            | Command::GraphicsPrint(_)
            | Command::QrPrint
            | Command::Cut(_)
            | Command::OldCut(_)
    )
}
