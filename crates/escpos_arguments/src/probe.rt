//! The arguments of `probe`: which printer is asked.

ghost use Rattle.std.specs.Prelude.{◌≡◌, ◌⊎◌, ◌↔◌, Err, Ok, [], IfErr, IfOk, IfSome, IsTrue, codes, map};
ghost use Rattle.clap.specs.Words.{HasKind, IsAmong, app_of, fault_of, found_of, rows_of, subcommand_of, subcommand_rows_of};
ghost use Rattle.escpos_probe.specs.declared.task.ProbeTask.{ProbeTask};
ghost use Rattle.escpos_arguments.specs.Arguments.{IsWait};
ghost use Rattle.escpos_arguments.specs.ProbeArguments.{AsksProbe, AsksProbeBy, probe_words};

use crate::arguments::{address_of, asking_command, no_task, wait_given};
use clap::error::ErrorKind;
use clap::{ArgMatches, Command};
use escpos_jobs::task::NoTask;
use escpos_probe::ProbeTask;
use std::alloc::{AllocError, Global};
use std::convert::AsStr;

/// Whether the arguments that begin with this word are those of `probe`.
pub fn is_probe_word(word: &str) -> bool
    ensures { IsTrue result ↔ (word.now ≡ codes "probe") }
{
    word == "probe"
}

/// What the arguments of `probe` ask for. The program's own name isn't among them.
///
/// `Help` comes only where they ask for help, `Memory` where an allocation failed, and `Usage` for all other arguments that name no task.
pub fn probe_task_of<S: AsStr>(alloc: Global, words: &[S]) -> Result<ProbeTask, NoTask>
    ensures asks { IfOk result (AsksProbe (subcommand_of probe_words (map S.text words.now))) }
    ensures range { IfOk result (λ task. IfSome task.wait IsWait) }
    ensures passed { IfOk result (λ task. fault_of probe_words (map S.text words.now) ≡ []) }
    ensures taken { (task : ProbeTask) → fault_of probe_words (map S.text words.now) ≡ []
        → AsksProbe (subcommand_of probe_words (map S.text words.now)) task → IfSome task.wait IsWait
        → (result ≡ Ok task) ⊎ (result ≡ Err NoTask.Memory) }
    ensures help_only { result ≡ Err NoTask.Help → IsAmong ErrorKind.DisplayHelp (fault_of probe_words (map S.text words.now)) }
{
    let matches = match probe_matches_of(alloc, words) {
        Ok(matches) => matches,
        Err(refusal) => return Err(no_task(&refusal)),
    };
    match matches.subcommand() {
        Some((name, given)) => probe_asked(name, given),
        None => Err(NoTask::Usage),
    }
}

// What `probe` asks for with the arguments that follow it.
fn probe_asked(name: &str, given: &ArgMatches) -> Result<ProbeTask, NoTask>
    ensures asks { IfOk result (AsksProbeBy name.now (rows_of (found_of given.now))) }
    ensures range { IfOk result (λ task. IfSome task.wait IsWait) }
    ensures taken { (task : ProbeTask) → AsksProbeBy name.now (rows_of (found_of given.now)) task → IfSome task.wait IsWait
        → result ≡ Ok task }
    ensures usage { IfErr result (λ why. why ≡ NoTask.Usage) }
{
    match name {
        "probe" => probe_values(given),
        _ => Err(NoTask::Usage),
    }
}

// The task of `probe` with the arguments that follow it.
fn probe_values(given: &ArgMatches) -> Result<ProbeTask, NoTask>
    ensures asks { IfOk result (AsksProbeBy (codes "probe") (rows_of (found_of given.now))) }
    ensures range { IfOk result (λ task. IfSome task.wait IsWait) }
    ensures taken { (task : ProbeTask) → AsksProbeBy (codes "probe") (rows_of (found_of given.now)) task → IfSome task.wait IsWait
        → result ≡ Ok task }
    ensures usage { IfErr result (λ why. why ≡ NoTask.Usage) }
{
    let address = address_of(given)?;
    let wait = wait_given(given)?;
    Ok(ProbeTask { address, wait })
}

// What `clap` reads in the arguments.
fn probe_matches_of<'a, S: AsStr>(
    alloc: Global,
    words: &'a [S],
) -> Result<ArgMatches<'a>, clap::Error>
    ensures parsed { IfOk result (λ matches. fault_of probe_words (map S.text words.entry.now) ≡ []) }
    ensures found { IfOk result (λ matches. subcommand_rows_of matches ≡ subcommand_of probe_words (map S.text words.entry.now)) }
    ensures refused { IfErr result (HasKind (fault_of probe_words (map S.text words.entry.now))) }
{
    let command = probe_command(alloc)?;
    command.try_get_matches_from(words)
}

// The `clap` command with `probe`.
fn probe_command<'a>(alloc: Global) -> Result<Command<'a>, AllocError>
    ensures shape { IfOk result (λ command. app_of command ≡ probe_words) }
{
    let probe = asking_command(alloc, "probe")?;
    let command = Command::new(alloc, "escpos_cli")
        .no_binary_name(true)
        .disable_help_subcommand(true)
        .subcommand_required(true)
        .subcommand(probe)?;
    Ok(command)
}
