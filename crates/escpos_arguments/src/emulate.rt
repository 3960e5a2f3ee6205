//! The arguments of `emulate`.

ghost use Rattle.std.specs.Prelude.{◌≡◌, ◌≤◌, ℕ, Option, length, IfErr, IfOk, IfSome, codes};
ghost use Rattle.clap.specs.Words.{Text, first_of, found_of, rows_of};
ghost use Rattle.escpos_printer.specs.declared.condition.Condition.{Condition};
ghost use Rattle.escpos_addresses.specs.declared.address.TheConstants.{MOST_TEXT};
ghost use Rattle.escpos_jobs.specs.declared.task.Task.{Task};
ghost use Rattle.escpos_arguments.specs.Arguments.{AsksBy, InRange, IsConditionOr, IsLinkCount, IsLinks};

use crate::arguments::{LINKS, MOST_LINKS, address_of, count_of, has_flag, number_given};
use crate::width::width_or_usual;
use clap::ArgMatches;
use escpos_addresses::address::AddressText;
use escpos_job_parts::condition::{ONLINE, condition_of};
use escpos_jobs::task::{NoTask, Task};
use escpos_printer::Condition;

// The task of `emulate` with the arguments that follow it.
pub(crate) fn emulate_asked(given: &ArgMatches) -> Result<Task, NoTask>
    ensures asks { IfOk result (AsksBy (codes "emulate") (rows_of (found_of given.now))) }
    ensures ranges { IfOk result InRange }
    ensures taken { (task : Task) → AsksBy (codes "emulate") (rows_of (found_of given.now)) task → InRange task
        → result ≡ Ok task }
    ensures usage { IfErr result (λ why. why ≡ NoTask.Usage) }
{
    let address = address_of(given)?;
    let links = links_given(given)?;
    let condition = condition_or_online(given)?;
    let width = width_or_usual(given)?;
    let file = file_given(given)?;
    Ok(Task::Emulate {
        address,
        links,
        condition,
        width,
        file,
    })
}

// How many links are to be served: a number, or, with `--follow`, none.
fn links_given(given: &ArgMatches) -> Result<Option<u32>, NoTask>
    ensures read { IfOk result (IsLinks (rows_of (found_of given.now))) }
    ensures range { IfOk result (λ links. IfSome links IsLinkCount) }
    ensures taken { (links : Option ℕ) → IsLinks (rows_of (found_of given.now)) links → IfSome links IsLinkCount → result ≡ Ok links }
    ensures usage { IfErr result (λ why. why ≡ NoTask.Usage) }
{
    if has_flag(given, "follow") {
        return match number_given(given, "links")? {
            Some(_) => Err(NoTask::Usage),
            None => Ok(None),
        };
    }
    let links = count_of(given, "links", LINKS, MOST_LINKS)?;
    Ok(Some(links))
}

// What the sensors say; where that isn't given, that the printer is online and has paper.
fn condition_or_online(given: &ArgMatches) -> Result<Condition, NoTask>
    ensures read { IfOk result (IsConditionOr (first_of (codes "condition") (rows_of (found_of given.now)))) }
    ensures taken { (condition : Condition) → IsConditionOr (first_of (codes "condition") (rows_of (found_of given.now))) condition
        → result ≡ Ok condition }
    ensures usage { IfErr result (λ why. why ≡ NoTask.Usage) }
{
    match given.get_str("condition") {
        Some(text) => match condition_of(text.as_bytes()) {
            Some(condition) => Ok(condition),
            None => Err(NoTask::Usage),
        },
        None => Ok(ONLINE),
    }
}

// The path of the file of a condition, if that is given.
fn file_given(given: &ArgMatches) -> Result<Option<AddressText>, NoTask>
    ensures read { IfOk result (λ file. first_of (codes "condition-file") (rows_of (found_of given.now)) ≡ file) }
    ensures range { IfOk result (λ file. IfSome file (λ path. length path ≤ MOST_TEXT)) }
    ensures taken { (file : Option Text) → first_of (codes "condition-file") (rows_of (found_of given.now)) ≡ file
        → IfSome file (λ path. length path ≤ MOST_TEXT) → result ≡ Ok file }
    ensures usage { IfErr result (λ why. why ≡ NoTask.Usage) }
{
    match given.get_str("condition-file") {
        Some(text) => match AddressText::of(text) {
            Some(path) => Ok(Some(path)),
            None => Err(NoTask::Usage),
        },
        None => Ok(None),
    }
}
