//! The arguments of the command line: which task they name, and which refusal they get where they name none.

ghost use Rattle.std.specs.Prelude.{◌≡◌, ◌≢◌, ◌⊎◌, ◌≤◌, ◌<◌, ◌↔◌, ℕ, List, Option, Some, None, [], ◌∷◌, false, IfErr, IfOk, IfSome, IsSomeAnd, IsTrue, Contains, codes, drop, map};
ghost use Rattle.clap.specs.Words.{HasKind, IsAmong, app_of, fault_of, first_of, found_of, kind_of, one_of, rows_of, rule_of, subcommand_of, subcommand_rows_of};
ghost use Rattle.escpos_addresses.specs.Address.{IsAddress};
ghost use Rattle.escpos_addresses.specs.declared.address.Address.{Address};
ghost use Rattle.escpos_jobs.specs.declared.task.Task.{Task};
ghost use Rattle.escpos_arguments.specs.Arguments.{Asks, AsksBy, HasFlag, InRange, IsNumberOr, IsWait, SetsNothing, StandsAlone, address_rule, asking_words, bare_tasks, check_words, command_words, draw_words, emulate_words, encode_words, flag_rule, help_words, image_words, loop_words, option_rule, render_words, send_words, stream_words};
ghost use Rattle.escpos_arguments.specs.ClapAnswers.{IsNumber, IsNumberIn, no_task_of};

use crate::emulate::emulate_asked;
use crate::form::check_asked;
use crate::image::image_asked;
use crate::options::{encode_asked, has_no_options, options_or_usual};
use crate::width::{draw_asked, has_no_width, loop_asked, render_asked};
use clap::error::ErrorKind;
use clap::{Arg, ArgAction, ArgMatches, Command};
use escpos_addresses::address::Address;
use escpos_jobs::task::{NoTask, Task};
use std::alloc::{AllocError, Global};
use std::convert::AsStr;

/// How many links `emulate` serves without `--links`.
pub const LINKS: u32 = 1;

/// The most links that `emulate` serves.
pub const MOST_LINKS: u32 = 1_000;

/// How many opening marks `send` sends without `--openings`.
pub const OPENINGS: u32 = 3;

/// The most opening marks that `send` sends.
pub const MOST_OPENINGS: u32 = 99;

/// The longest wait that may be asked for, in seconds.
pub const MOST_WAIT: u32 = 3_600;

/// How many seconds `deliver` waits, without `--patience`, for a printer that says that it prints nothing for now.
pub const PATIENCE: u32 = 600;

const _: () = prove!(LINKS == 1);

const _: () = prove!(MOST_LINKS == 1_000);

const _: () = prove!(OPENINGS == 3);

const _: () = prove!(MOST_OPENINGS == 99);

const _: () = prove!(MOST_WAIT == 3_600);

const _: () = prove!(PATIENCE == 600);

/// The arguments after the first, which is the program's name. Where there are no arguments, nothing.
pub fn without_name<S>(words: &[S]) -> &[S]
    ensures { result.now ≡ drop 1 words.now }
{
    match words {
        [_, given @ ..] => given,
        [] => words,
    }
}

/// Whether the arguments ask for the version: `--version`, and nothing more. The program's own name isn't among them.
pub fn asks_version<S: AsStr>(words: &[S]) -> bool
    ensures { IsTrue result ↔ map S.text words.now ≡ codes "--version" ∷ [] }
{
    match words {
        [word] => word.as_str() == "--version",
        _ => false,
    }
}

/// The task that the arguments ask for. The program's own name isn't among them.
///
/// `Help` comes where they ask for help, `Memory` where an allocation failed, and `Usage` for all other arguments that name
/// no task, also where `--` follows a name after which nothing is set.
pub fn task_of<S: AsStr>(alloc: Global, words: &[S]) -> Result<Task, NoTask>
    ensures asks { IfOk result (Asks (subcommand_of command_words (map S.text words.now))) }
    ensures ranges { IfOk result InRange }
    ensures passed { IfOk result (λ task. fault_of command_words (map S.text words.now) ≡ []) }
    ensures words { IfOk result (StandsAlone (map S.text words.now)) }
    ensures named { (name : List ℕ) (task : Task) → Contains bare_tasks (name, task) → map S.text words.now ≡ name ∷ []
        → (result ≡ Ok task) ⊎ (result ≡ Err NoTask.Memory) }
    ensures taken { (task : Task) → fault_of command_words (map S.text words.now) ≡ []
        → Asks (subcommand_of command_words (map S.text words.now)) task → StandsAlone (map S.text words.now) task → InRange task
        → (result ≡ Ok task) ⊎ (result ≡ Err NoTask.Memory) }
    ensures help { Contains help_words (map S.text words.now) → (result ≡ Err NoTask.Help) ⊎ (result ≡ Err NoTask.Memory) }
    ensures help_only { result ≡ Err NoTask.Help → (map S.text words.now ≡ codes "help" ∷ [])
        ⊎ IsAmong ErrorKind.DisplayHelp (fault_of command_words (map S.text words.now)) }
{
    let matches = match matches_of(alloc, words) {
        Ok(matches) => matches,
        Err(refusal) => return Err(no_task(&refusal)),
    };
    match matches.subcommand() {
        Some((name, given)) => task_asked(name, given, words.len()),
        None => Err(NoTask::Usage),
    }
}

// The refusal of the program for this refusal of `clap`.
pub(crate) fn no_task(refusal: &clap::Error) -> NoTask
    ensures { result ≡ no_task_of (kind_of refusal.now) }
{
    match refusal.kind() {
        ErrorKind::DisplayHelp => NoTask::Help,
        ErrorKind::OutOfMemory => NoTask::Memory,
        _ => NoTask::Usage,
    }
}

// The task of this subcommand with the arguments that follow its name; `count` is the number of all arguments.
fn task_asked(name: &str, given: &ArgMatches, count: usize) -> Result<Task, NoTask>
    ensures asks { IfOk result (AsksBy name.now (rows_of (found_of given.now))) }
    ensures ranges { IfOk result InRange }
    ensures alone { IfOk result (λ task. SetsNothing (rows_of (found_of given.now)) task → count ≡ 1) }
    ensures taken { (task : Task) → AsksBy name.now (rows_of (found_of given.now)) task → (SetsNothing (rows_of (found_of given.now)) task → count ≡ 1)
        → InRange task → result ≡ Ok task }
    ensures help { name.now ≡ codes "help" → count ≡ 1 → result ≡ Err NoTask.Help }
    ensures help_only { result ≡ Err NoTask.Help → (name.now ≡ codes "help") × (count ≡ 1) }
{
    match task_named(name, given) {
        Ok(task) if count != 1 && sets_nothing(given, &task) => Err(NoTask::Usage),
        Err(NoTask::Help) if count != 1 => Err(NoTask::Usage),
        asked => asked,
    }
}

// The same whatever stands beside the name and what is set after it.
fn task_named(name: &str, given: &ArgMatches) -> Result<Task, NoTask>
    ensures asks { IfOk result (AsksBy name.now (rows_of (found_of given.now))) }
    ensures ranges { IfOk result InRange }
    ensures taken { (task : Task) → AsksBy name.now (rows_of (found_of given.now)) task → InRange task → result ≡ Ok task }
    ensures help { name.now ≡ codes "help" → result ≡ Err NoTask.Help }
    ensures help_only { result ≡ Err NoTask.Help → name.now ≡ codes "help" }
{
    match name {
        "check" => Ok(check_asked(given)),
        "render" => render_asked(given),
        "draw" => draw_asked(given),
        "encode" => encode_asked(given),
        "image" => image_asked(given),
        "play" => Ok(Task::Play),
        "emulate" => emulate_asked(given),
        "send" => send_asked(given),
        "status" => status_asked(given),
        "loop" => loop_asked(given),
        "help" => Err(NoTask::Help),
        _ => Err(NoTask::Usage),
    }
}

// Whether a task that needs no settings has none.
fn sets_nothing(given: &ArgMatches, task: &Task) -> bool
    ensures { IsTrue result ↔ SetsNothing (rows_of (found_of given.now)) task.now }
{
    match task {
        Task::Check { .. } => !has_flag(given, "raw") && !has_flag(given, "pass"),
        Task::Render { .. } | Task::Draw { .. } => {
            !has_flag(given, "raw") && !has_flag(given, "pass") && has_no_width(given)
        }
        Task::Encode { .. } => !has_flag(given, "raw") && has_no_options(given),
        Task::Play => true,
        Task::Loop { .. } => has_no_width(given),
        _ => false,
    }
}

// Whether the flag of this name is given.
pub(crate) fn has_flag(given: &ArgMatches, name: &str) -> bool
    ensures { IsTrue result ↔ HasFlag name.now (rows_of (found_of given.now)) }
{
    match given.get_str(name) {
        Some(text) => text == "true",
        None => false,
    }
}

// The task of `send` with the arguments that follow it.
fn send_asked(given: &ArgMatches) -> Result<Task, NoTask>
    ensures asks { IfOk result (AsksBy (codes "send") (rows_of (found_of given.now))) }
    ensures ranges { IfOk result InRange }
    ensures taken { (task : Task) → AsksBy (codes "send") (rows_of (found_of given.now)) task → InRange task
        → result ≡ Ok task }
    ensures usage { IfErr result (λ why. why ≡ NoTask.Usage) }
{
    let address = address_of(given)?;
    let first = first_mark_of(given)?;
    let openings = count_of(given, "openings", OPENINGS, MOST_OPENINGS)?;
    let wait = wait_given(given)?;
    let options = options_or_usual(given)?;
    Ok(Task::Send {
        address,
        first,
        openings,
        wait,
        options,
    })
}

// The task of `status` with the arguments that follow it.
fn status_asked(given: &ArgMatches) -> Result<Task, NoTask>
    ensures asks { IfOk result (AsksBy (codes "status") (rows_of (found_of given.now))) }
    ensures ranges { IfOk result InRange }
    ensures taken { (task : Task) → AsksBy (codes "status") (rows_of (found_of given.now)) task → InRange task
        → result ≡ Ok task }
    ensures usage { IfErr result (λ why. why ≡ NoTask.Usage) }
{
    let address = address_of(given)?;
    let wait = wait_given(given)?;
    Ok(Task::Status { address, wait })
}

// How many seconds a wait may last, if that is given.
pub(crate) fn wait_given(given: &ArgMatches) -> Result<Option<u32>, NoTask>
    ensures read { IfOk result (IsNumberIn (one_of (codes "wait") (rows_of (found_of given.now)))) }
    ensures range { IfOk result (λ wait. IfSome wait IsWait) }
    ensures taken { (wait : Option ℕ) → IsNumberIn (one_of (codes "wait") (rows_of (found_of given.now))) wait → IfSome wait IsWait
        → result ≡ Ok wait }
    ensures usage { IfErr result (λ why. why ≡ NoTask.Usage) }
{
    match number_given(given, "wait")? {
        Some(seconds) => if 1 <= seconds && seconds <= MOST_WAIT {
            Ok(Some(seconds))
        } else {
            Err(NoTask::Usage)
        },
        None => Ok(None),
    }
}

// The address that was given.
pub(crate) fn address_of(given: &ArgMatches) -> Result<Address, NoTask>
    ensures read { IfOk result (λ address. IsSomeAnd (first_of (codes "address") (rows_of (found_of given.now))) (λ text. IsAddress text address)) }
    ensures taken { (address : Address) → IsSomeAnd (first_of (codes "address") (rows_of (found_of given.now))) (λ text. IsAddress text address)
        → result ≡ Ok address }
    ensures usage { IfErr result (λ why. why ≡ NoTask.Usage) }
{
    match given.get_str("address") {
        Some(text) => address_in(text),
        None => Err(NoTask::Usage),
    }
}

// The address that a text says.
fn address_in(text: &str) -> Result<Address, NoTask>
    ensures read { IfOk result (IsAddress text.now) }
    ensures taken { (address : Address) → IsAddress text.now address → result ≡ Ok address }
    ensures usage { IfErr result (λ why. why ≡ NoTask.Usage) }
{
    Address::of_text(text).ok_or(NoTask::Usage)
}

// The number of the first mark that was given.
fn first_mark_of(given: &ArgMatches) -> Result<u32, NoTask>
    ensures read { IfOk result (λ n. IsSomeAnd (one_of (codes "first") (rows_of (found_of given.now))) (λ text. IsNumber text n)) }
    ensures taken { (n : ℕ) → IsSomeAnd (one_of (codes "first") (rows_of (found_of given.now))) (λ text. IsNumber text n) → result ≡ Ok n }
    ensures usage { IfErr result (λ why. why ≡ NoTask.Usage) }
{
    number_given(given, "first")?.ok_or(NoTask::Usage)
}

// The number that was given for this option, or the fallback where it wasn't given; from 1 to `most`.
pub(crate) fn count_of(
    given: &ArgMatches,
    option: &str,
    fallback: u32,
    most: u32,
) -> Result<u32, NoTask>
    ensures read { IfOk result (λ n. IsNumberOr fallback (one_of option.now (rows_of (found_of given.now))) n × (1 ≤ n) × (n ≤ most)) }
    ensures taken { (n : ℕ) → IsNumberOr fallback (one_of option.now (rows_of (found_of given.now))) n → 1 ≤ n → n ≤ most
        → result ≡ Ok n }
    ensures usage { IfErr result (λ why. why ≡ NoTask.Usage) }
{
    let count = number_given(given, option)?.unwrap_or(fallback);
    if 1 <= count && count <= most {
        Ok(count)
    } else {
        Err(NoTask::Usage)
    }
}

// The number that was given for this option, if any.
pub(crate) fn number_given(given: &ArgMatches, option: &str) -> Result<Option<u32>, NoTask>
    ensures read { IfOk result (IsNumberIn (one_of option.now (rows_of (found_of given.now)))) }
    ensures taken { (number : Option ℕ) → IsNumberIn (one_of option.now (rows_of (found_of given.now))) number → result ≡ Ok number }
    ensures usage { IfErr result (λ why. why ≡ NoTask.Usage) }
{
    match given.try_get_one::<u32>(option) {
        Ok(number) => Ok(number),
        Err(_) => Err(NoTask::Usage),
    }
}

// What `clap` reads in the arguments.
fn matches_of<'a, S: AsStr>(alloc: Global, words: &'a [S]) -> Result<ArgMatches<'a>, clap::Error>
    ensures parsed { IfOk result (λ matches. fault_of command_words (map S.text words.entry.now) ≡ []) }
    ensures found { IfOk result (λ matches. subcommand_rows_of matches ≡ subcommand_of command_words (map S.text words.entry.now)) }
    ensures refused { IfErr result (HasKind (fault_of command_words (map S.text words.entry.now))) }
{
    let command = command_of_all(alloc)?;
    command.try_get_matches_from(words)
}

// The `clap` command of the program. It is built in small functions, because proof time grows faster than the number of
// builder calls.
fn command_of_all<'a>(alloc: Global) -> Result<Command<'a>, AllocError>
    ensures shape { IfOk result (λ command. app_of command ≡ command_words) }
{
    let streams = command_of_streams(alloc)?;
    let emulate = emulate_command(alloc)?;
    let links = streams.subcommand(emulate)?;
    let send = send_command(alloc)?;
    let status = asking_command(alloc, "status")?;
    let round = loop_command(alloc)?;
    let command = links
        .subcommand(send)?
        .subcommand(status)?
        .subcommand(round)?
        .subcommand(Command::new(alloc, "help"))?;
    Ok(command)
}

// The `clap` command with the subcommands that need no network.
fn command_of_streams<'a>(alloc: Global) -> Result<Command<'a>, AllocError>
    ensures shape { IfOk result (λ command. app_of command ≡ stream_words) }
{
    let check = check_command(alloc)?;
    let render = render_command(alloc)?;
    let draw = draw_command(alloc)?;
    let encode = encode_command(alloc)?;
    let image = image_command(alloc)?;
    let command = Command::new(alloc, "escpos_cli")
        .no_binary_name(true)
        .disable_help_subcommand(true)
        .subcommand_required(true)
        .subcommand(check)?
        .subcommand(render)?
        .subcommand(draw)?
        .subcommand(encode)?
        .subcommand(image)?
        .subcommand(Command::new(alloc, "play"))?;
    Ok(command)
}

// The subcommand `check` with its arguments.
fn check_command<'a>(alloc: Global) -> Result<Command<'a>, AllocError>
    ensures shape { IfOk result (λ command. (app_of command).top ≡ check_words) }
{
    let command = Command::new(alloc, "check")
        .arg(flag(alloc, "raw"))?
        .arg(flag(alloc, "pass"))?;
    Ok(command)
}

// The subcommand `encode` with its arguments.
fn encode_command<'a>(alloc: Global) -> Result<Command<'a>, AllocError>
    ensures shape { IfOk result (λ command. (app_of command).top ≡ encode_words) }
{
    let command = Command::new(alloc, "encode")
        .arg(flag(alloc, "raw"))?
        .arg(option(alloc, "width", false))?
        .arg(option(alloc, "replace", false))?;
    Ok(command)
}

// The subcommand `image` with its arguments.
fn image_command<'a>(alloc: Global) -> Result<Command<'a>, AllocError>
    ensures shape { IfOk result (λ command. (app_of command).top ≡ image_words) }
{
    let command = Command::new(alloc, "image")
        .arg(option(alloc, "width", false))?
        .arg(option(alloc, "threshold", false))?;
    Ok(command)
}

// The subcommand `render` with its arguments.
fn render_command<'a>(alloc: Global) -> Result<Command<'a>, AllocError>
    ensures shape { IfOk result (λ command. (app_of command).top ≡ render_words) }
{
    let command = Command::new(alloc, "render")
        .arg(flag(alloc, "raw"))?
        .arg(flag(alloc, "pass"))?
        .arg(option(alloc, "width", false))?
        .arg(flag(alloc, "text"))?;
    Ok(command)
}

// The subcommand `draw` with its arguments.
fn draw_command<'a>(alloc: Global) -> Result<Command<'a>, AllocError>
    ensures shape { IfOk result (λ command. (app_of command).top ≡ draw_words) }
{
    let command = Command::new(alloc, "draw")
        .arg(flag(alloc, "raw"))?
        .arg(flag(alloc, "pass"))?
        .arg(option(alloc, "width", false))?;
    Ok(command)
}

// The subcommand `loop` with its arguments.
fn loop_command<'a>(alloc: Global) -> Result<Command<'a>, AllocError>
    ensures shape { IfOk result (λ command. (app_of command).top ≡ loop_words) }
{
    let command = Command::new(alloc, "loop").arg(option(alloc, "width", false))?;
    Ok(command)
}

// The subcommand `emulate` with its arguments.
fn emulate_command<'a>(alloc: Global) -> Result<Command<'a>, AllocError>
    ensures shape { IfOk result (λ command. (app_of command).top ≡ emulate_words) }
{
    let command = Command::new(alloc, "emulate")
        .arg(address(alloc))?
        .arg(option(alloc, "links", false))?
        .arg(flag(alloc, "follow"))?
        .arg(option(alloc, "condition", false))?
        .arg(option(alloc, "condition-file", false))?
        .arg(option(alloc, "width", false))?;
    Ok(command)
}

// The subcommand `send` with its arguments.
fn send_command<'a>(alloc: Global) -> Result<Command<'a>, AllocError>
    ensures shape { IfOk result (λ command. (app_of command).top ≡ send_words) }
{
    let command = Command::new(alloc, "send")
        .arg(address(alloc))?
        .arg(option(alloc, "first", true))?
        .arg(option(alloc, "openings", false))?
        .arg(option(alloc, "wait", false))?
        .arg(option(alloc, "width", false))?
        .arg(option(alloc, "replace", false))?;
    Ok(command)
}

// A subcommand that asks a printer: its address, and how long a wait may last.
pub(crate) fn asking_command<'a>(alloc: Global, name: &'a str) -> Result<Command<'a>, AllocError>
    ensures shape { IfOk result (λ command. (app_of command).top ≡ asking_words name.entry.now) }
{
    let command = Command::new(alloc, name)
        .arg(address(alloc))?
        .arg(option(alloc, "wait", false))?;
    Ok(command)
}

// A required argument without a name of its own before it.
pub(crate) fn address<'a>(alloc: Global) -> Arg<'a>
    ensures rule { rule_of result ≡ address_rule }
    ensures local { result.global ≡ false }
{
    Arg::new(alloc, "address")
        .required(true)
        .action(ArgAction::Set)
}

// An option: two dashes and this name, followed by a value.
pub(crate) fn option<'a>(alloc: Global, name: &'a str, required: bool) -> Arg<'a>
    ensures rule { rule_of result ≡ option_rule name.entry.now required }
    ensures local { result.global ≡ false }
{
    Arg::new(alloc, name)
        .long(name)
        .required(required)
        .action(ArgAction::Set)
}

// A flag: two dashes and this name.
pub(crate) fn flag<'a>(alloc: Global, name: &'a str) -> Arg<'a>
    ensures rule { rule_of result ≡ flag_rule name.entry.now }
    ensures local { result.global ≡ false }
{
    Arg::new(alloc, name).long(name).action(ArgAction::SetTrue)
}
