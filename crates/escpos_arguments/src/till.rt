//! The arguments of a till's words, `queue`, `deliver`, `cancel` and `ledger`: which task they ask for.

ghost use Rattle.std.specs.Prelude.{◌≡◌, ◌≢◌, ◌⊎◌, ◌≤◌, ◌<◌, ℕ, Err, None, Ok, Option, Some, [], ◌∷◌, Contains, IfErr, IfOk, IfSome, IsSomeAnd, IsTrue, codes, false, map, ◌↔◌};
ghost use Rattle.clap.specs.Words.{HasKind, IsAmong, Text, app_of, fault_of, first_of, found_of, kind_of, one_of, rows_of, rule_of, subcommand_of, subcommand_rows_of};
ghost use Rattle.escpos_till.specs.Copy.{IsCopyText};
ghost use Rattle.escpos_till_jobs.specs.declared.task.TillTask.{TillTask};
ghost use Rattle.escpos_arguments.specs.ClapAnswers.{IsNumber, IsNumberIn};
ghost use Rattle.escpos_arguments.specs.TillArguments.{AsksTill, AsksTillBy, IsTillInRange, cancel_words, deliver_words, ledger_rule, ledger_words, number_rule, queue_words, till_names, till_words};

use crate::arguments::{
    MOST_OPENINGS, MOST_WAIT, OPENINGS, PATIENCE, address, address_of, count_of, flag, no_task,
    number_given, option, wait_given,
};
use crate::queue::queue_asked;
use clap::error::ErrorKind;
use clap::{Arg, ArgAction, ArgMatches, Command};
use escpos_jobs::task::NoTask;
use escpos_till::{CopyText, ReceiptNumber};
use escpos_till_jobs::{Delivery, LedgerPath, TillTask};
use std::alloc::{AllocError, Global};
use std::convert::AsStr;

/// Whether a till's words begin with this one.
pub fn is_till_word(word: &str) -> bool
    ensures { IsTrue result ↔ Contains till_names word.now }
{
    matches!(word, "queue" | "deliver" | "cancel" | "ledger")
}

/// The task that a till's arguments ask for. The program's own name isn't among them.
///
/// `Help` comes only where they ask for help, `Memory` where an allocation failed, and `Usage` for all other arguments that
/// name no task.
pub fn till_task_of<'a, S: AsStr>(alloc: Global, words: &'a [S]) -> Result<TillTask<'a>, NoTask>
    ensures asks { IfOk result (AsksTill (subcommand_of till_words (map S.text words.entry.now))) }
    ensures ranges { IfOk result IsTillInRange }
    ensures passed { IfOk result (λ task. fault_of till_words (map S.text words.entry.now) ≡ []) }
    ensures taken { (task : TillTask) → fault_of till_words (map S.text words.entry.now) ≡ []
        → AsksTill (subcommand_of till_words (map S.text words.entry.now)) task → IsTillInRange task
        → (result ≡ Ok task) ⊎ (result ≡ Err NoTask.Memory) }
    ensures help_only { result ≡ Err NoTask.Help → IsAmong ErrorKind.DisplayHelp (fault_of till_words (map S.text words.entry.now)) }
{
    let matches = match till_matches_of(alloc, words) {
        Ok(matches) => matches,
        Err(refusal) => return Err(no_task(&refusal)),
    };
    match matches.subcommand() {
        Some((name, given)) => till_task_asked(name, given),
        None => Err(NoTask::Usage),
    }
}

// The task of this subcommand with the arguments that follow its name.
fn till_task_asked<'a>(name: &str, given: &ArgMatches<'a>) -> Result<TillTask<'a>, NoTask>
    ensures asks { IfOk result (AsksTillBy name.now (rows_of (found_of given.now))) }
    ensures ranges { IfOk result IsTillInRange }
    ensures taken { (task : TillTask) → AsksTillBy name.now (rows_of (found_of given.now)) task → IsTillInRange task
        → result ≡ Ok task }
    ensures usage { IfErr result (λ why. why ≡ NoTask.Usage) }
{
    match name {
        "queue" => queue_asked(given),
        "deliver" => deliver_asked(given),
        "cancel" => cancel_asked(given),
        "ledger" => ledger_asked(given),
        _ => Err(NoTask::Usage),
    }
}

// The task of `deliver` with the arguments that follow it.
fn deliver_asked<'a>(given: &ArgMatches<'a>) -> Result<TillTask<'a>, NoTask>
    ensures asks { IfOk result (AsksTillBy (codes "deliver") (rows_of (found_of given.now))) }
    ensures ranges { IfOk result IsTillInRange }
    ensures taken { (task : TillTask) → AsksTillBy (codes "deliver") (rows_of (found_of given.now)) task → IsTillInRange task
        → result ≡ Ok task }
    ensures usage { IfErr result (λ why. why ≡ NoTask.Usage) }
{
    let ledger = ledger_path(given)?;
    let address = address_of(given)?;
    let openings = count_of(given, "openings", OPENINGS, MOST_OPENINGS)?;
    let patience = count_of(given, "patience", PATIENCE, MOST_WAIT)?;
    let copy = copy_given(given)?;
    let delivery = Delivery {
        address,
        openings,
        patience,
        copy,
    };
    let wait = wait_given(given)?;
    Ok(TillTask::Deliver {
        ledger,
        delivery,
        wait,
    })
}

// The task of `cancel` with the arguments that follow it.
fn cancel_asked<'a>(given: &ArgMatches<'a>) -> Result<TillTask<'a>, NoTask>
    ensures asks { IfOk result (AsksTillBy (codes "cancel") (rows_of (found_of given.now))) }
    ensures ranges { IfOk result IsTillInRange }
    ensures taken { (task : TillTask) → AsksTillBy (codes "cancel") (rows_of (found_of given.now)) task → IsTillInRange task
        → result ≡ Ok task }
    ensures usage { IfErr result (λ why. why ≡ NoTask.Usage) }
{
    let ledger = ledger_path(given)?;
    let number = receipt_number_of(given)?;
    Ok(TillTask::Cancel { ledger, number })
}

// The task of `ledger` with the arguments that follow it.
fn ledger_asked<'a>(given: &ArgMatches<'a>) -> Result<TillTask<'a>, NoTask>
    ensures asks { IfOk result (AsksTillBy (codes "ledger") (rows_of (found_of given.now))) }
    ensures ranges { IfOk result IsTillInRange }
    ensures taken { (task : TillTask) → AsksTillBy (codes "ledger") (rows_of (found_of given.now)) task → IsTillInRange task
        → result ≡ Ok task }
    ensures usage { IfErr result (λ why. why ≡ NoTask.Usage) }
{
    let ledger = ledger_path(given)?;
    match renewal_path(given) {
        Some(new) => renewal_asked(given, ledger, new),
        None => listing_asked(given, ledger),
    }
}

// The task to list where the receipts of a ledger stand.
fn listing_asked<'a>(given: &ArgMatches<'a>, ledger: LedgerPath<'a>) -> Result<TillTask<'a>, NoTask>
    ensures asks { IfOk result (λ task. (first : Option ℕ) × (task ≡ TillTask.List ledger.entry first) × IsNumberIn (one_of (codes "first") (rows_of (found_of given.now))) first) }
    ensures taken { (first : Option ℕ) → IsNumberIn (one_of (codes "first") (rows_of (found_of given.now))) first
        → result ≡ Ok (TillTask.List ledger.entry first) }
    ensures usage { IfErr result (λ why. why ≡ NoTask.Usage) }
{
    let first = number_given(given, "first")?;
    Ok(TillTask::List { ledger, first })
}

// The task to renew a ledger. The next mark number isn't raised then.
fn renewal_asked<'a>(
    given: &ArgMatches<'a>,
    ledger: LedgerPath<'a>,
    new: LedgerPath<'a>,
) -> Result<TillTask<'a>, NoTask>
    ensures asks { IfOk result (λ task. (task ≡ TillTask.Renew ledger.entry new.entry) × IsNumberIn (one_of (codes "first") (rows_of (found_of given.now))) None) }
    ensures taken { IsNumberIn (one_of (codes "first") (rows_of (found_of given.now))) None → result ≡ Ok (TillTask.Renew ledger.entry new.entry) }
    ensures usage { IfErr result (λ why. why ≡ NoTask.Usage) }
{
    match number_given(given, "first")? {
        None => Ok(TillTask::Renew { ledger, new }),
        Some(_) => Err(NoTask::Usage),
    }
}

// The path of a new ledger, if one is given.
fn renewal_path<'a>(given: &ArgMatches<'a>) -> Option<LedgerPath<'a>>
    ensures { first_of (codes "renew") (rows_of (found_of given.now)) ≡ result }
{
    match given.get_str("renew") {
        Some(text) => Some(LedgerPath::new(text)),
        None => None,
    }
}

// The path of the ledger.
pub(crate) fn ledger_path<'a>(given: &ArgMatches<'a>) -> Result<LedgerPath<'a>, NoTask>
    ensures read { IfOk result (λ path. first_of (codes "ledger") (rows_of (found_of given.now)) ≡ Some path) }
    ensures taken { (path : Text) → first_of (codes "ledger") (rows_of (found_of given.now)) ≡ Some path → result ≡ Ok path }
    ensures usage { IfErr result (λ why. why ≡ NoTask.Usage) }
{
    match given.get_str("ledger") {
        Some(text) => Ok(LedgerPath::new(text)),
        None => Err(NoTask::Usage),
    }
}

// The text of a copy's line, if it is given.
fn copy_given<'a>(given: &ArgMatches<'a>) -> Result<Option<CopyText<'a>>, NoTask>
    ensures read { IfOk result (λ copy. first_of (codes "copy") (rows_of (found_of given.now)) ≡ copy) }
    ensures range { IfOk result (λ copy. IfSome copy IsCopyText) }
    ensures taken { (copy : Option Text) → first_of (codes "copy") (rows_of (found_of given.now)) ≡ copy → IfSome copy IsCopyText
        → result ≡ Ok copy }
    ensures usage { IfErr result (λ why. why ≡ NoTask.Usage) }
{
    match given.get_str("copy") {
        Some(text) => match CopyText::new(text.as_bytes()) {
            Some(copy) => Ok(Some(copy)),
            None => Err(NoTask::Usage),
        },
        None => Ok(None),
    }
}

// The number of the receipt, if a receipt may have it.
fn receipt_number_of(given: &ArgMatches) -> Result<ReceiptNumber, NoTask>
    ensures read { IfOk result (λ number. IsSomeAnd (one_of (codes "number") (rows_of (found_of given.now))) (λ text. IsNumber text number)) }
    ensures range { IfOk result (λ number. 0 < number) }
    ensures taken { (number : ℕ) → IsSomeAnd (one_of (codes "number") (rows_of (found_of given.now))) (λ text. IsNumber text number) → 0 < number
        → result ≡ Ok number }
    ensures usage { IfErr result (λ why. why ≡ NoTask.Usage) }
{
    let number = number_given(given, "number")?.ok_or(NoTask::Usage)?;
    match ReceiptNumber::new(number as usize) {
        Some(number) => Ok(number),
        None => Err(NoTask::Usage),
    }
}

// What `clap` reads in the arguments.
fn till_matches_of<'a, S: AsStr>(
    alloc: Global,
    words: &'a [S],
) -> Result<ArgMatches<'a>, clap::Error>
    ensures parsed { IfOk result (λ matches. fault_of till_words (map S.text words.entry.now) ≡ []) }
    ensures found { IfOk result (λ matches. subcommand_rows_of matches ≡ subcommand_of till_words (map S.text words.entry.now)) }
    ensures refused { IfErr result (HasKind (fault_of till_words (map S.text words.entry.now))) }
{
    let command = till_command(alloc)?;
    command.try_get_matches_from(words)
}

// The `clap` command with a till's words. It is built in small functions, because proof time grows faster than the number of
// builder calls.
fn till_command<'a>(alloc: Global) -> Result<Command<'a>, AllocError>
    ensures shape { IfOk result (λ command. app_of command ≡ till_words) }
{
    let queue = queue_command(alloc)?;
    let deliver = deliver_command(alloc)?;
    let cancel = cancel_command(alloc)?;
    let ledger = ledger_command(alloc)?;
    let command = Command::new(alloc, "escpos_cli")
        .no_binary_name(true)
        .disable_help_subcommand(true)
        .subcommand_required(true)
        .subcommand(queue)?
        .subcommand(deliver)?
        .subcommand(cancel)?
        .subcommand(ledger)?;
    Ok(command)
}

// The subcommand `queue` with its arguments.
fn queue_command<'a>(alloc: Global) -> Result<Command<'a>, AllocError>
    ensures shape { IfOk result (λ command. (app_of command).top ≡ queue_words) }
{
    let command = Command::new(alloc, "queue")
        .arg(ledger_argument(alloc))?
        .arg(option(alloc, "width", false))?
        .arg(option(alloc, "replace", false))?
        .arg(option(alloc, "again", false))?
        .arg(option(alloc, "key", false))?
        .arg(flag(alloc, "raw"))?;
    Ok(command)
}

// The subcommand `deliver` with its arguments.
fn deliver_command<'a>(alloc: Global) -> Result<Command<'a>, AllocError>
    ensures shape { IfOk result (λ command. (app_of command).top ≡ deliver_words) }
{
    let command = Command::new(alloc, "deliver")
        .arg(ledger_argument(alloc))?
        .arg(address(alloc))?
        .arg(option(alloc, "openings", false))?
        .arg(option(alloc, "copy", false))?
        .arg(option(alloc, "wait", false))?
        .arg(option(alloc, "patience", false))?;
    Ok(command)
}

// The subcommand `cancel` with its arguments.
fn cancel_command<'a>(alloc: Global) -> Result<Command<'a>, AllocError>
    ensures shape { IfOk result (λ command. (app_of command).top ≡ cancel_words) }
{
    let command = Command::new(alloc, "cancel")
        .arg(ledger_argument(alloc))?
        .arg(number_argument(alloc))?;
    Ok(command)
}

// The subcommand `ledger` with its arguments.
fn ledger_command<'a>(alloc: Global) -> Result<Command<'a>, AllocError>
    ensures shape { IfOk result (λ command. (app_of command).top ≡ ledger_words) }
{
    let command = Command::new(alloc, "ledger")
        .arg(ledger_argument(alloc))?
        .arg(option(alloc, "first", false))?
        .arg(option(alloc, "renew", false))?;
    Ok(command)
}

// The path of a ledger: a required argument without a name of its own before it.
fn ledger_argument<'a>(alloc: Global) -> Arg<'a>
    ensures rule { rule_of result ≡ ledger_rule }
    ensures local { result.global ≡ false }
{
    Arg::new(alloc, "ledger")
        .required(true)
        .action(ArgAction::Set)
}

// The number of a receipt: a required argument without a name of its own before it.
fn number_argument<'a>(alloc: Global) -> Arg<'a>
    ensures rule { rule_of result ≡ number_rule }
    ensures local { result.global ≡ false }
{
    Arg::new(alloc, "number")
        .required(true)
        .action(ArgAction::Set)
}
