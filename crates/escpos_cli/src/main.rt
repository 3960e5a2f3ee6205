//! The program of ESC/POS receipts, with a subcommand for each job.
//!
//! `main` joins the arguments of the command line, the standard streams, a till's ledger and the exit status. escpos_arguments
//! says what the arguments ask for; escpos_jobs does it, escpos_probe asks a printer, and escpos_till_jobs does what a till asks of its
//! ledger, which `ledger` keeps in a file. Names of these crates are also names of the program.
#![tactic(auto)]

ghost use Rattle.std.specs.Prelude.{◌≡◌, ◌≢◌, IfErr, IfOk, IsTrue};

mod ledger;

use crate::ledger::{LedgerFiles, NewFiles, SharedFiles};
pub use escpos_arguments::{
    asks_version, completions_of, is_completions_word, is_probe_word, is_till_word, probe_task_of,
    task_of, till_task_of, without_name,
};
use escpos_help::texts::VERSION;
use escpos_help::usage::say_help;
use escpos_io::{ByteIn, ByteOut, Incoming, Outgoing};
use escpos_job_parts::ending::say;
pub use escpos_job_parts::status;
use escpos_job_parts::status::Status;
use escpos_jobs::perform::perform;
use escpos_jobs::task::NoTask;
pub use escpos_jobs::{perform, task};
use escpos_probe::probe;
pub use escpos_script::play;
pub use escpos_stream_jobs::{check, draw, encode, render};
pub use escpos_tcp_jobs::{emulate, loop_link, send};
use escpos_till::PrinterLine;
use escpos_till_jobs::{LedgerPath, Lines, NetworkLines, TillTask, perform_till};
use std::process::ExitCode;
use std::{env, io};

fn main(rt: HostRuntime) -> ExitCode {
    let mut input = Incoming::new(rt.stdin());
    let mut output = Outgoing::new(io::writer(&rt));
    let status = match arguments(&rt) {
        Ok(given) => perform_words(&rt, without_name(given.as_slice()), &mut input, &mut output),
        Err(why) => perform(&rt, rt.alloc(), Err(why), &mut input, &mut output),
    };
    ExitCode::from(status)
}

// Does what these arguments ask for.
fn perform_words<R: ByteIn, W: ByteOut>(
    rt: &HostRuntime,
    words: &[String],
    input: &mut R,
    output: &mut W,
) -> Status
    ensures not_hidden { result ≢ Status.Device → ¬ IsTrue (W.failed output.old) → ¬ IsTrue (W.failed output.new) }
{
    let Some(word) = words.first() else {
        return perform(rt, rt.alloc(), Err(NoTask::Usage), input, output);
    };
    if asks_version(words) {
        return say(VERSION.as_bytes(), output, Status::Good);
    }
    match perform_word(rt, word.as_str(), words, input, output) {
        Ok(status) => status,
        Err(why) => refuse_words(rt, words, why, input, output),
    }
}

// The same for arguments that begin with this word. The error is why they name no task.
fn perform_word<R: ByteIn, W: ByteOut>(
    rt: &HostRuntime,
    word: &str,
    words: &[String],
    input: &mut R,
    output: &mut W,
) -> Result<Status, NoTask>
    ensures not_hidden { IfOk result (λ status. status ≢ Status.Device → ¬ IsTrue (W.failed output.old) → ¬ IsTrue (W.failed output.new)) }
    ensures not_printed { IfErr result (λ _. output.new ≡ output.old) }
{
    if is_till_word(word) {
        let task = till_task_of(rt.alloc(), words)?;
        return Ok(perform_task(rt, task, input, output));
    }
    if is_probe_word(word) {
        let task = probe_task_of(rt.alloc(), words)?;
        return Ok(probe(rt, task, output));
    }
    if is_completions_word(word) {
        let shell = completions_of(words)?;
        return Ok(say(shell.script().as_bytes(), output, Status::Good));
    }
    let task = task_of(rt.alloc(), words)?;
    Ok(perform(rt, rt.alloc(), Ok(task), input, output))
}

// Does what a till asks for, with ledgers in files and printers that can be reached.
fn perform_task<R: ByteIn, W: ByteOut>(
    rt: &HostRuntime,
    task: TillTask<'_>,
    input: &mut R,
    output: &mut W,
) -> Status
    ensures not_hidden { result ≢ Status.Device → ¬ IsTrue (W.failed output.old) → ¬ IsTrue (W.failed output.new) }
{
    let mut lines = NetworkLines::new(rt);
    perform_over(rt, &mut lines, task, input, output)
}

// The same over any lines. The prover takes longer over `perform_till` the more of its types it knows.
fn perform_over<L: PrinterLine + Drop, P: Lines<L>, R: ByteIn, W: ByteOut>(
    rt: &HostRuntime,
    lines: &mut P,
    task: TillTask<'_>,
    input: &mut R,
    output: &mut W,
) -> Status
    ensures not_hidden { result ≢ Status.Device → ¬ IsTrue (W.failed output.old) → ¬ IsTrue (W.failed output.new) }
{
    let mut ledgers = LedgerFiles::new(rt);
    let renewed = task.renewed_path();
    let mut shared = SharedFiles::new(rt, renewed.is_none());
    let mut news = NewFiles::new(rt, renewed.unwrap_or(LedgerPath::new("")).text());
    perform_till(
        rt.alloc(),
        &mut ledgers,
        &mut shared,
        &mut news,
        lines,
        task,
        input,
        output,
    )
}

// Says why these arguments name no task. Help after a word is its part of the help.
fn refuse_words<R: ByteIn, W: ByteOut>(
    rt: &HostRuntime,
    words: &[String],
    why: NoTask,
    input: &mut R,
    output: &mut W,
) -> Status
    ensures not_hidden { result ≢ Status.Device → ¬ IsTrue (W.failed output.old) → ¬ IsTrue (W.failed output.new) }
{
    match (why, words) {
        (NoTask::Help, [word, _, ..]) => say_help(word.as_str(), output),
        (other, _) => perform(rt, rt.alloc(), Err(other), input, output),
    }
}

// The arguments of the command line, the program's name first. It fails if one of them isn't text.
fn arguments(rt: &HostRuntime) -> Result<Vec<String>, NoTask> {
    given(rt).map_err(|fault| match fault.kind() {
        io::ErrorKind::OutOfMemory => NoTask::Memory,
        _ => NoTask::Usage,
    })
}

fn given(rt: &HostRuntime) -> io::Result<Vec<String>> {
    Ok(env::args(rt)?.collect(rt.alloc())?)
}
