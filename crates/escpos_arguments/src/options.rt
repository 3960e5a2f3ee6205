//! The options of a receipt among the arguments: the width of a line, and a replacement for characters that no code table has; and the
//! task of `encode`, which may be given both.

ghost use Rattle.std.specs.Prelude.{◌≡◌, ◌↔◌, ◌∷◌, [], ℕ, Option, Some, IfErr, IfOk, IfSome, IsTrue, codes};
ghost use Rattle.clap.specs.Words.{found_of, first_of, rows_of};
ghost use Rattle.escpos_text.specs.Replacements.{is_replacement};
ghost use Rattle.escpos_receipt.specs.declared.options.ReceiptOptions.{ReceiptOptions};
ghost use Rattle.escpos_jobs.specs.declared.task.Task.{Task};
ghost use Rattle.escpos_arguments.specs.Arguments.{AsksBy, GivesOptions, HasNoOptions, HasNoReplacement, InRange, IsOptions, IsReplacedBy};

use crate::form::form_given;
use crate::width::{has_no_width, width_or_usual};
use clap::ArgMatches;
use escpos_jobs::task::{NoTask, Task};
use escpos_receipt::ReceiptOptions;
use escpos_text::Replacement;

// The task of `encode` with the arguments that follow it.
pub(crate) fn encode_asked(given: &ArgMatches) -> Result<Task, NoTask>
    ensures asks { IfOk result (AsksBy (codes "encode") (rows_of (found_of given.now))) }
    ensures ranges { IfOk result InRange }
    ensures taken { (task : Task) → AsksBy (codes "encode") (rows_of (found_of given.now)) task → InRange task → result ≡ Ok task }
    ensures usage { IfErr result (λ why. why ≡ NoTask.Usage) }
{
    let form = form_given(given);
    let options = options_or_usual(given)?;
    Ok(Task::Encode { form, options })
}

// The options of a receipt; where one of them isn't given, the usual one.
pub(crate) fn options_or_usual(given: &ArgMatches) -> Result<ReceiptOptions, NoTask>
    ensures read { IfOk result (GivesOptions (rows_of (found_of given.now))) }
    ensures range { IfOk result IsOptions }
    ensures taken { (options : ReceiptOptions) → GivesOptions (rows_of (found_of given.now)) options → IsOptions options → result ≡ Ok options }
    ensures usage { IfErr result (λ why. why ≡ NoTask.Usage) }
{
    let width = width_or_usual(given)?;
    let replacement = replacement_given(given)?;
    Ok(ReceiptOptions { width, replacement })
}

// Whether neither the width of a line nor a replacement is given.
pub(crate) fn has_no_options(given: &ArgMatches) -> bool
    ensures { IsTrue result ↔ HasNoOptions (rows_of (found_of given.now)) }
{
    has_no_width(given) && has_no_replacement(given)
}

// Whether no replacement is given.
fn has_no_replacement(given: &ArgMatches) -> bool
    ensures { IsTrue result ↔ HasNoReplacement (rows_of (found_of given.now)) }
{
    match given.get_str("replace") {
        Some(_) => false,
        None => true,
    }
}

// What is printed in place of a character that no code table has, if that is given: one printed character of ASCII.
fn replacement_given(given: &ArgMatches) -> Result<Option<Replacement>, NoTask>
    ensures read { IfOk result (IsReplacedBy (first_of (codes "replace") (rows_of (found_of given.now)))) }
    ensures range { IfOk result (λ replacement. IfSome replacement (λ c. IsTrue (is_replacement c))) }
    ensures taken { (replacement : Option ℕ) → IsReplacedBy (first_of (codes "replace") (rows_of (found_of given.now))) replacement
        → IfSome replacement (λ c. IsTrue (is_replacement c)) → result ≡ Ok replacement }
    ensures usage { IfErr result (λ why. why ≡ NoTask.Usage) }
{
    match given.get_str("replace") {
        Some(text) => match replacement_of(text.as_bytes()) {
            Some(replacement) => Ok(Some(replacement)),
            None => Err(NoTask::Usage),
        },
        None => Ok(None),
    }
}

// The replacement that is this one byte.
fn replacement_of(text: &[u8]) -> Option<Replacement>
    ensures read { (c : ℕ) → result ≡ Some c → (text.now ≡ c ∷ []) × IsTrue (is_replacement c) }
    ensures taken { (c : ℕ) → text.now ≡ c ∷ [] → IsTrue (is_replacement c) → result ≡ Some c }
{
    match text {
        [byte] => Replacement::new(*byte),
        _ => None,
    }
}
