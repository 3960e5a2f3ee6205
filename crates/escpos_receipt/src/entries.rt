//! A receipt as its text has it: an entry for each, whose characters stay where they stand in the text.

ghost use Rattle.std.specs.Prelude.{◌≡◌, ◌↔◌, None, List, [], ◌++◌, ◌≢◌, IfSome, IsTrue, flat_map};
ghost use Rattle.escpos_command.specs.declared.command.Command.{Command};
ghost use Rattle.escpos_receipt.specs.EntryCommands.{commands_in};
ghost use Rattle.escpos_receipt.specs.Whole.{EachMayFollow, HoldNoRealTime, Whole, has_text};

use crate::entry::Entry;
use crate::receipt::{has_text_after, is_forbidden, needs_empty_line};
use escpos_command::laws;
use escpos_real_time::holds_real_time;

/// Whether the commands of these entries are a receipt. If they aren't, `Receipt::new` says why.
pub fn are_whole(entries: &[Entry<'_>]) -> bool
    ensures { IsTrue result ↔ Whole (flat_map commands_in entries.now) }
{
    let mut has_text = false;
    let mut has_commands = false;
    for entry in entries {
        match text_after(has_text, entry) {
            Some(more_text) => has_text = more_text,
            None => return false,
        }
        has_commands = has_commands || gives_commands(entry);
    }
    has_commands && !has_text
}

// Whether there is text in the line after one more entry; `had_text` says whether there was some before it. `None` if a
// receipt may not have its command there.
fn text_after(had_text: bool, entry: &Entry<'_>) -> Option<bool>
    ensures follows { IfSome result (λ more_text. (before : List Command) → EachMayFollow before → had_text ≡ has_text before →
        EachMayFollow (before ++ commands_in entry.now) × (more_text ≡ has_text (before ++ commands_in entry.now))) }
    ensures no_real_time { IfSome result (λ _. (before : List Command) → HoldNoRealTime before → HoldNoRealTime (before ++ commands_in entry.now)) }
    ensures refused { result ≡ None → (before following : List Command) → had_text ≡ has_text before →
        EachMayFollow (before ++ (commands_in entry.now ++ following)) → ¬ HoldNoRealTime (before ++ (commands_in entry.now ++ following)) }
{
    match entry {
        Entry::Text(text) => {
            // Proof only: what a text is.
            text.in_order();
            Some(text.leaves_text(had_text))
        }
        Entry::Line(text) => {
            // Proof only: what a text is.
            text.in_order();
            Some(false)
        }
        Entry::Command(command) => {
            // Proof only: the command is in range.
            laws::in_range(command);
            if is_forbidden(command) || had_text && needs_empty_line(command) {
                return None;
            }
            if holds_real_time(command) {
                return None;
            }
            Some(has_text_after(had_text, command))
        }
    }
}

// Whether the entry gives any command: a text may be empty.
fn gives_commands(entry: &Entry<'_>) -> bool
    ensures { IsTrue result ↔ (commands_in entry.now ≢ []) }
{
    match entry {
        Entry::Text(text) => !text.is_empty(),
        Entry::Line(_) | Entry::Command(_) => true,
    }
}
