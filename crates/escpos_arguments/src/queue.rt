//! The arguments of `queue`: a receipt, or a stream of bytes, is read and taken, or one that was taken is taken once more.

ghost use Rattle.std.specs.Prelude.{◌≡◌, ◌<◌, ℕ, None, Ok, Option, IfErr, IfOk, IfSome, IsTrue, codes};
ghost use Rattle.clap.specs.Words.{Text, first_of, found_of, one_of, rows_of};
ghost use Rattle.escpos_arguments.specs.Arguments.{GivesOptions, GivesWidth, HasNoOptions, HasNoReplacement, IsOptions};
ghost use Rattle.escpos_arguments.specs.ClapAnswers.{IsNumberIn};
ghost use Rattle.escpos_arguments.specs.TillArguments.{AsksTillBy, IsTillInRange};
ghost use Rattle.escpos_command.specs.LineWidths.{is_line_width};
ghost use Rattle.escpos_receipt.specs.declared.options.ReceiptOptions.{ReceiptOptions as Options};
ghost use Rattle.escpos_till.specs.Keys.{IsKey};
ghost use Rattle.escpos_till_jobs.specs.declared.task.TillTask.{TillTask};

use crate::arguments::{has_flag, number_given};
use crate::options::{has_no_options, options_or_usual};
use crate::till::ledger_path;
use clap::ArgMatches;
use escpos_jobs::task::NoTask;
use escpos_till::{ReceiptKey, ReceiptNumber};
use escpos_till_jobs::{LedgerPath, TillTask};

// The task of `queue` with the arguments that follow it.
pub(crate) fn queue_asked<'a>(given: &ArgMatches<'a>) -> Result<TillTask<'a>, NoTask>
    ensures asks { IfOk result (AsksTillBy (codes "queue") (rows_of (found_of given.now))) }
    ensures ranges { IfOk result IsTillInRange }
    ensures taken { (task : TillTask) → AsksTillBy (codes "queue") (rows_of (found_of given.now)) task → IsTillInRange task
        → result ≡ Ok task }
    ensures usage { IfErr result (λ why. why ≡ NoTask.Usage) }
{
    let ledger = ledger_path(given)?;
    let raw = has_flag(given, "raw");
    let key = key_given(given)?;
    match again_given(given)? {
        Some(_) if raw => Err(NoTask::Usage),
        Some(number) => again_asked(given, ledger, number, key),
        None if raw => raw_asked(given, ledger, key),
        None => read_asked(given, ledger, key),
    }
}

// The task to take the receipt with this number once more. It has its options already, and has no key, so none may be given.
fn again_asked<'a>(
    given: &ArgMatches<'a>,
    ledger: LedgerPath<'a>,
    number: ReceiptNumber,
    key: Option<ReceiptKey>,
) -> Result<TillTask<'a>, NoTask>
    ensures asks { IfOk result (λ task. (task ≡ TillTask.QueueAgain ledger.entry number) × HasNoOptions (rows_of (found_of given.now)) × (key ≡ None)) }
    ensures taken { HasNoOptions (rows_of (found_of given.now)) → key ≡ None → result ≡ Ok (TillTask.QueueAgain ledger.entry number) }
    ensures usage { IfErr result (λ why. why ≡ NoTask.Usage) }
{
    if key.is_none() && has_no_options(given) {
        Ok(TillTask::QueueAgain { ledger, number })
    } else {
        Err(NoTask::Usage)
    }
}

// The task to read a receipt and take it.
fn read_asked<'a>(
    given: &ArgMatches<'a>,
    ledger: LedgerPath<'a>,
    key: Option<ReceiptKey>,
) -> Result<TillTask<'a>, NoTask>
    ensures asks { IfOk result (λ task. (options : Options) × (task ≡ TillTask.Queue ledger.entry options key) × GivesOptions (rows_of (found_of given.now)) options × IsOptions options) }
    ensures taken { (options : Options) → GivesOptions (rows_of (found_of given.now)) options → IsOptions options → result ≡ Ok (TillTask.Queue ledger.entry options key) }
    ensures usage { IfErr result (λ why. why ≡ NoTask.Usage) }
{
    let options = options_or_usual(given)?;
    Ok(TillTask::Queue {
        ledger,
        options,
        key,
    })
}

// The task to read a stream of bytes and take it. It has no characters to replace, so no replacement may be given.
fn raw_asked<'a>(
    given: &ArgMatches<'a>,
    ledger: LedgerPath<'a>,
    key: Option<ReceiptKey>,
) -> Result<TillTask<'a>, NoTask>
    ensures asks { IfOk result (λ task. (width : ℕ) × (task ≡ TillTask.QueueRaw ledger.entry width key) × GivesWidth (rows_of (found_of given.now)) width
        × HasNoReplacement (rows_of (found_of given.now)) × IsTrue (is_line_width width)) }
    ensures taken { (width : ℕ) → GivesWidth (rows_of (found_of given.now)) width → HasNoReplacement (rows_of (found_of given.now))
        → IsTrue (is_line_width width) → result ≡ Ok (TillTask.QueueRaw ledger.entry width key) }
    ensures usage { IfErr result (λ why. why ≡ NoTask.Usage) }
{
    let options = options_or_usual(given)?;
    if options.replacement.is_some() {
        return Err(NoTask::Usage);
    }
    Ok(TillTask::QueueRaw {
        ledger,
        width: options.width,
        key,
    })
}

// The number of the receipt that is taken once more, if it is given, and a receipt may have it.
fn again_given(given: &ArgMatches) -> Result<Option<ReceiptNumber>, NoTask>
    ensures read { IfOk result (IsNumberIn (one_of (codes "again") (rows_of (found_of given.now)))) }
    ensures range { IfOk result (λ again. IfSome again (λ n. 0 < n)) }
    ensures taken { (again : Option ℕ) → IsNumberIn (one_of (codes "again") (rows_of (found_of given.now))) again
        → IfSome again (λ n. 0 < n) → result ≡ Ok again }
    ensures usage { IfErr result (λ why. why ≡ NoTask.Usage) }
{
    match number_given(given, "again")? {
        Some(number) => match ReceiptNumber::new(number as usize) {
            Some(again) => Ok(Some(again)),
            None => Err(NoTask::Usage),
        },
        None => Ok(None),
    }
}

// The key of the receipt, if it is given, and a receipt may have it.
fn key_given(given: &ArgMatches) -> Result<Option<ReceiptKey>, NoTask>
    ensures read { IfOk result (λ key. first_of (codes "key") (rows_of (found_of given.now)) ≡ key) }
    ensures range { IfOk result (λ key. IfSome key IsKey) }
    ensures taken { (key : Option Text) → first_of (codes "key") (rows_of (found_of given.now)) ≡ key → IfSome key IsKey
        → result ≡ Ok key }
    ensures usage { IfErr result (λ why. why ≡ NoTask.Usage) }
{
    match given.get_str("key") {
        Some(text) => match ReceiptKey::new(text.as_bytes()) {
            Some(key) => Ok(Some(key)),
            None => Err(NoTask::Usage),
        },
        None => Ok(None),
    }
}
