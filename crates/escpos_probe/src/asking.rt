//! The job `probe`: a printer is asked, on a link for each question, since a printer may end a link at a command that it
//! doesn't know.

ghost use Rattle.std.specs.Prelude.{◌≡◌, ◌≢◌, [], IsTrue, OnOk};
ghost use Rattle.std.specs.Io.KnownBytes.{Appends, Consumes};

use crate::answer::{Answer, hear};
use crate::premises::Premises;
use crate::question::{Form, QUESTIONS, Question};
use crate::task::ProbeTask;
use crate::told::{append_answer, append_premises};
use escpos_addresses::address::Address;
use escpos_addresses::printer_link::Printers;
use escpos_addresses::wait::Within;
use escpos_io::{ByteIn, ByteOut, Device, Gather, Incoming, Outgoing, put_all};
use escpos_job_parts::ending::{NO_LINK, say};
use escpos_job_parts::status::Status;

/// How many seconds a byte is waited for where nothing else is said.
pub const USUAL_WAIT: u32 = 2;

const _: () = prove!(USUAL_WAIT == 2);

/// Asks a printer each question, on a link of its own, and prints its answers as they come: the line `unasked`, with what came on a link on
/// which nothing was asked; a line for each question; and what the answers show. Each byte is waited for as long as the task says.
///
/// The status is `Good` if the printer answers marks and sends nothing unasked, otherwise `Refused`; it is `Device` if there is no
/// connection, which the line `no link` says, or if `output` has failed.
pub fn probe<N: Printers, W: ByteOut>(net: &N, task: ProbeTask, output: &mut W) -> Status
    ensures never_usage { result ≢ Status.Usage }
    ensures not_hidden { result ≢ Status.Device → ¬ IsTrue (W.failed output.old) → ¬ IsTrue (W.failed output.new) }
{
    let within = Within::new(net, task.wait.unwrap_or(USUAL_WAIT));
    let Some(unasked) = hear_unasked(&within, &task.address) else {
        return say(NO_LINK, output, Status::Device);
    };
    match tell_answers(&within, &task.address, &unasked, output) {
        Ok(premises) => status_of(premises),
        Err(_) => Status::Device,
    }
}

// What comes on a link on which nothing is asked, if there is one. That link is closed before the next: many printers serve one at a time.
fn hear_unasked<N: Printers>(net: &N, address: &Address) -> Option<Answer> {
    match address.connect(net) {
        Ok(link) => { Some(hear(Form::Anything, &mut Incoming::new(link.reader))) }
        Err(_) => None,
    }
}

// The status of a printer that was asked.
fn status_of(premises: Premises) -> Status
    ensures never_usage { result ≢ Status.Usage }
{
    if premises.are_met() {
        Status::Good
    } else {
        Status::Refused
    }
}

// Prints what came unasked, asks each question, and prints what the answers show.
fn tell_answers<N: Printers, W: ByteOut>(
    net: &N,
    address: &Address,
    unasked: &Answer,
    output: &mut W,
) -> Result<Premises, Device>
    ensures not_failed { OnOk result (¬ IsTrue (W.failed output.old) → ¬ IsTrue (W.failed output.new)) }
{
    tell_answer("unasked", unasked, output)?;
    let mut premises = Premises {
        quiet: unasked.bytes().is_empty(),
        marks: false,
        status: true,
    };
    for question in &QUESTIONS {
        let answer = ask(net, address, *question);
        premises = premises.after(question.shows, &answer);
        tell_answer(question.name, &answer, output)?;
    }
    tell_premises(premises, output)?;
    Ok(premises)
}

// Asks a question on a link of its own. With no link there is no answer.
fn ask<N: Printers>(net: &N, address: &Address, question: Question) -> Answer {
    match address.connect(net) {
        Ok(link) => {
            ask_over(
                question,
                &mut Incoming::new(link.reader),
                &mut Outgoing::new(link.writer),
            )
        }
        Err(_) => Answer::none(),
    }
}

/// Asks a question over a source and a sink, and hears the answer. If the sink has failed, none is heard.
pub fn ask_over<R: ByteIn, A: ByteOut>(question: Question, reader: &mut R, writer: &mut A) -> Answer
    ensures asked { result ≢ [] → Appends (A.written writer.old) (A.written writer.new) question.bytes.now }
    ensures heard { Consumes (R.to_come reader.old) (R.to_come reader.new) result }
{
    match put_all(question.bytes, writer) {
        Ok(()) => hear(question.form, reader),
        Err(_) => Answer::none(),
    }
}

// Prints the line of an answer.
fn tell_answer<W: ByteOut>(name: &str, answer: &Answer, output: &mut W) -> Result<(), Device>
    ensures not_failed { OnOk result (¬ IsTrue (W.failed output.old) → ¬ IsTrue (W.failed output.new)) }
{
    put_all(name.as_bytes(), output)?;
    let mut gather = Gather::new();
    append_answer(&mut gather, answer);
    gather.flush(output)
}

// Prints what the answers show.
fn tell_premises<W: ByteOut>(premises: Premises, output: &mut W) -> Result<(), Device>
    ensures not_failed { OnOk result (¬ IsTrue (W.failed output.old) → ¬ IsTrue (W.failed output.new)) }
{
    let mut gather = Gather::new();
    append_premises(&mut gather, premises);
    gather.flush(output)
}
