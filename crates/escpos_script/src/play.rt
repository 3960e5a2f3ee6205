//! The job `play`: a script of events on a line between a host and a printer, and the effect of each.
//!
//! What an event does is left to `Sim::step`. Here the lines of the script are read one after another, and the effect of
//! each is printed before the next happens.

ghost use Rattle.std.specs.Prelude.{ℕ, ◌≡◌, ◌≢◌, ◌⊎◌, ◌+◌, ◌≤◌, List, [], ◌++◌, length, Err, IfSome, IsTrue, OnErr, OnOk};
ghost use Rattle.std.specs.Io.KnownBytes.{Appends};
ghost use Rattle.escpos_link.specs.Stands.{Stands};
ghost use Rattle.escpos_job_parts.specs.Ending.{IsFair, PrintsText, job_end};
ghost use Rattle.escpos_script.specs.Play.{IsNew, Plays, PlaysScript, closing_text};
ghost use Rattle.escpos_script.specs.ScriptSteps.{LineGoes, LinesGo};

use crate::script::{NoEvent, event_of, first_line};
use crate::script_output::{
    EVENT_BYTES, append_note, append_records, append_refused, append_unreadable,
};
use escpos_command::LineWidth;
use escpos_io::{ByteIn, ByteOut, Device, GATHERED_BYTES, Gather, put_all, read_to_end};
use escpos_job_parts::condition::ONLINE;
use escpos_job_parts::ending::{MEMORY, refuse, say};
use escpos_job_parts::input::{INPUT_LIMIT, InputFault};
use escpos_job_parts::refusal::append_refusal;
use escpos_job_parts::status::Status;
use escpos_link::{Refusal, Sim};
use escpos_paper::write_items;
use std::alloc::Global;

/// Plays the script in `input`: each of its lines happens to a line between a printer that is online and a host whose first
/// mark is mark 0, and prints one line on `output`. At the end come `paper`, the paper as `render` writes it, and `records
/// N`: this many receipts stand on that paper, whole and in the order of recording.
///
/// An event that is refused prints the reason, and so does text that isn't a receipt; the script goes on. A line that isn't
/// one of a script ends it: the status is then `Refused`, and the paper follows all the same. Input that is too long is
/// refused before anything happens, with `Refused`. Where an allocation failed, the line `memory` follows what was printed
/// by then, with `Memory`. `Device` comes only where `input` or `output` has failed, and no other status hides that one of
/// them has failed in this call.
pub fn play<R: ByteIn, W: ByteOut>(alloc: Global, input: &mut R, output: &mut W) -> Status
    ensures plays { IfSome (R.to_come input.old) (λ text. Plays (job_end (W.written output.old) (W.written output.new) (W.failed output.new) result) text) }
    ensures fair { IsFair result (R.failed input.new) (W.failed output.old, W.failed output.new)
        (R.pull_count input.old, R.pull_count input.new) }
    ensures nothing_put { IsTrue (R.failed input.new) → output.new ≡ output.old }
{
    match read_to_end(alloc, input, INPUT_LIMIT) {
        Ok(script) => play_script(alloc, &script, output),
        Err(error) => refuse(InputFault::from(error), output),
    }
}

// How a script ends before its end.
#[derive(Clone, Copy, Debug, PartialEq, Eq)]
enum ScriptEnd {
    // A line isn't one of a script.
    Unreadable,
    // Out of memory.
    Memory,
    // The sink has failed.
    Device,
}

impl From<Device> for ScriptEnd {
    ghost use Rattle.escpos_script.specs.declared.play.ScriptEnd.{ScriptEnd};

    ghost from_gives = { λ _ end. end ≡ ScriptEnd.Device };

    fn from(_device: Device) -> Self {
        ScriptEnd::Device
    }
}

// Plays a script from its first line to its last, and prints the effects.
fn play_script<W: ByteOut>(alloc: Global, script: &[u8], output: &mut W) -> Status
    ensures plays { PlaysScript (job_end (W.written output.old) (W.written output.new) (W.failed output.new) result) script.now }
    ensures device { result ≡ Status.Device → IsTrue (W.failed output.new) }
    ensures not_hidden { result ≢ Status.Device → ¬ IsTrue (W.failed output.old) → ¬ IsTrue (W.failed output.new) }
    ensures never_usage { result ≢ Status.Usage }
{
    let Ok(mut sim) = Sim::new(alloc, ONLINE, 0, LineWidth::usual()) else {
        return say(MEMORY, output, Status::Memory);
    };
    play_on(alloc, script, &mut sim, output)
}

// Plays a script on a line, and prints what is left at the end.
fn play_on<W: ByteOut>(alloc: Global, script: &[u8], sim: &mut Sim, output: &mut W) -> Status
    ensures plays { IsNew sim.old → PlaysScript (job_end (W.written output.old) (W.written output.new) (W.failed output.new) result) script.now }
    ensures device { result ≡ Status.Device → IsTrue (W.failed output.new) }
    ensures not_hidden { result ≢ Status.Device → ¬ IsTrue (W.failed output.old) → ¬ IsTrue (W.failed output.new) }
    ensures never_usage { result ≢ Status.Usage }
{
    match play_lines(alloc, script, sim, output) {
        Ok(()) => close(sim, output, Status::Good),
        Err(ScriptEnd::Unreadable) => close(sim, output, Status::Refused),
        Err(ScriptEnd::Memory) => say(MEMORY, output, Status::Memory),
        Err(ScriptEnd::Device) => Status::Device,
    }
}

// Lets each line of a script happen, up to the end or to one that ends the script.
fn play_lines<W: ByteOut>(
    alloc: Global,
    script: &[u8],
    sim: &mut Sim,
    output: &mut W,
) -> Result<(), ScriptEnd>
    ensures told { result ≢ Err ScriptEnd.Device → (text : List ℕ) × LinesGo result script.now [] sim.old text sim.new
        × Appends (W.written output.old) (W.written output.new) text }
    ensures width { sim.new.printer.sheet.line_dots ≡ sim.old.printer.sheet.line_dots }
    ensures device { result ≡ Err ScriptEnd.Device → IsTrue (W.failed output.new) }
    ensures not_hidden { result ≢ Err ScriptEnd.Device → ¬ IsTrue (W.failed output.old) → ¬ IsTrue (W.failed output.new) }
{
    let mut gather = Gather::new();
    let mut rest = script;
    let mut number: usize = 0;
    let mut end = Ok(());
    while !rest.is_empty() && end.is_ok() {
        let (line, later) = first_line(rest);
        rest = later;
        number += 1;
        gather.room(EVENT_BYTES, output)?;
        end = play_line(alloc, line, number, sim, &mut gather);
    }
    gather.flush(output)?;
    end
}

// Lets one line of a script happen, and appends its effect.
fn play_line(
    alloc: Global,
    line: &[u8],
    number: usize,
    sim: &mut Sim,
    gather: &mut Gather,
) -> Result<(), ScriptEnd>
    requires { length gather.old.kept + EVENT_BYTES ≤ GATHERED_BYTES }
    ensures told { (text : List ℕ) × LineGoes result number sim.old text sim.new × (gather.new.kept ≡ gather.old.kept ++ text) }
    ensures same_count { gather.new.written ≡ gather.old.written }
    ensures width { sim.new.printer.sheet.line_dots ≡ sim.old.printer.sheet.line_dots }
    ensures no_device { result ≢ Err ScriptEnd.Device }
{
    match event_of(alloc, line) {
        Ok(event) => match sim.step(event) {
            Ok(note) => append_note(gather, note),
            Err(refused) => {
                if refused.why == Refusal::Memory {
                    return Err(ScriptEnd::Memory);
                }
                append_refused(gather, refused.why);
            }
        },
        Err(NoEvent::NoReceipt(fault)) => {
            gather.extend(b"receipt ");
            append_refusal(gather, fault);
        }
        Err(NoEvent::Unreadable) => {
            append_unreadable(gather, number);
            return Err(ScriptEnd::Unreadable);
        }
        Err(NoEvent::Memory) => return Err(ScriptEnd::Memory),
    }
    Ok(())
}

// Prints the closing part of a script's output.
fn close<W: ByteOut>(sim: &Sim, output: &mut W, status: Status) -> Status
    requires { (status ≡ Status.Good) ⊎ (status ≡ Status.Refused) }
    ensures says { PrintsText (job_end (W.written output.old) (W.written output.new) (W.failed output.new) result) (closing_text sim.now) status }
    ensures stand { Stands sim.now.printer.sheet.line_dots sim.now.host.records sim.now.printer.sheet.items }
    ensures device { result ≡ Status.Device → IsTrue (W.failed output.new) }
    ensures not_hidden { result ≢ Status.Device → ¬ IsTrue (W.failed output.old) → ¬ IsTrue (W.failed output.new) }
    ensures never_usage { result ≢ Status.Usage }
{
    match put_closing(sim, output) {
        Ok(()) => status,
        Err(_) => Status::Device,
    }
}

// Prints the paper, and how many receipts are recorded.
fn put_closing<W: ByteOut>(sim: &Sim, output: &mut W) -> Result<(), Device>
    ensures put { OnOk result (Appends (W.written output.old) (W.written output.new) (closing_text sim.now)) }
    ensures stand { Stands sim.now.printer.sheet.line_dots sim.now.host.records sim.now.printer.sheet.items }
    ensures failed { OnErr result (IsTrue (W.failed output.new)) }
    ensures not_failed { OnOk result (¬ IsTrue (W.failed output.old) → ¬ IsTrue (W.failed output.new)) }
{
    let paper = sim.paper();
    put_all(b"paper\n", output)?;
    write_items(paper, output)?;
    let mut gather = Gather::new();
    append_records(&mut gather, sim.records().len());
    gather.flush(output)
}
