//! What the program does for its arguments, over any source and sink: a job, a link, or a text.

ghost use Rattle.std.specs.Prelude.{◌≡◌, ◌≢◌, ◌⊎◌, ◌+◌, ◌≤◌, ℕ, Bool, Option, IfSome, IsTrue};
ghost use Rattle.escpos_job_parts.specs.declared.form.Form.{Form};
ghost use Rattle.escpos_job_parts.specs.declared.input.TheConstants.{INPUT_LIMIT};
ghost use Rattle.escpos_stream_jobs.specs.Check.{Checks};
ghost use Rattle.escpos_stream_jobs.specs.Draw.{DrawsInput};
ghost use Rattle.escpos_stream_jobs.specs.Encode.{Encodes};
ghost use Rattle.escpos_stream_jobs.specs.Render.{Renders, RendersText};
ghost use Rattle.escpos_job_parts.specs.Ending.{PrintsText, memory_line, job_end};
ghost use Rattle.escpos_stream_jobs.specs.Image.{MakesEntries};
ghost use Rattle.escpos_script.specs.Play.{Plays};
ghost use Rattle.escpos_help.specs.Help.{help_text};
ghost use Rattle.escpos_help.specs.declared.texts.TheConstants.{USAGE};
ghost use Rattle.escpos_jobs.specs.Perform.{ReadsInput, UsesLinks};
ghost use Rattle.escpos_receipt.specs.declared.options.ReceiptOptions.{ReceiptOptions};

use crate::task::{NoTask, Task};
use escpos_addresses::printer_link::Printers;
use escpos_addresses::wait::Within;
use escpos_help::texts::USAGE;
use escpos_help::usage::say_all;
use escpos_io::{ByteIn, ByteOut};
use escpos_job_parts::ending::{MEMORY, say};
use escpos_job_parts::status::Status;
use escpos_script::play::play;
use escpos_stream_jobs::check::check;
use escpos_stream_jobs::draw::draw;
use escpos_stream_jobs::encode::encode;
use escpos_stream_jobs::image::image;
use escpos_stream_jobs::render::{render, render_text};
use escpos_tcp_jobs::emulate::emulate;
use escpos_tcp_jobs::loop_link::loop_receipt;
use escpos_tcp_jobs::printer_status::show_status;
use escpos_tcp_jobs::send::{Marks, send_to};
use std::alloc::Global;
use std::net::{Net, TcpListener};

/// Does what was asked for, and returns how it went.
///
/// A task is its job, or its link over `net`. If there is no task, `output` gets the help and the status is `Good`, or the
/// usage and the status is `Usage`, or the line `memory` and the status is `Memory`; `input` isn't read. `Device` comes
/// only where `input`, `output` or a link has failed.
pub fn perform<N: Printers + Net<Listener = TcpListener>, R: ByteIn, W: ByteOut>(
    net: &N,
    alloc: Global,
    asked: Result<Task, NoTask>,
    input: &mut R,
    output: &mut W,
) -> Status
    ensures check { (form : Form) (pass : Bool) → asked ≡ Ok (Task.Check form pass) →
        IfSome (R.to_come input.old) (λ given. Checks form pass (job_end (W.written output.old) (W.written output.new) (W.failed output.new) result) given) }
    ensures render { (form : Form) (pass : Bool) (width : ℕ) → asked ≡ Ok (Task.Render form pass width) →
        IfSome (R.to_come input.old) (λ given. Renders form pass width (job_end (W.written output.old) (W.written output.new) (W.failed output.new) result) given) }
    ensures render_text { (form : Form) (pass : Bool) (width : ℕ) → asked ≡ Ok (Task.RenderText form pass width) →
        IfSome (R.to_come input.old) (λ given. RendersText form pass width (job_end (W.written output.old) (W.written output.new) (W.failed output.new) result) given) }
    ensures draw { (form : Form) (pass : Bool) (width : ℕ) → asked ≡ Ok (Task.Draw form pass width) →
        IfSome (R.to_come input.old) (λ given. DrawsInput form pass width (job_end (W.written output.old) (W.written output.new) (W.failed output.new) result) given) }
    ensures encode { (form : Form) (options : ReceiptOptions) → asked ≡ Ok (Task.Encode form options) →
        IfSome (R.to_come input.old) (λ text. Encodes form options (job_end (W.written output.old) (W.written output.new) (W.failed output.new) result) text) }
    ensures image { (width : ℕ) (threshold : Option ℕ) → asked ≡ Ok (Task.Image width threshold) →
        IfSome (R.to_come input.old) (λ bytes. MakesEntries width threshold (job_end (W.written output.old) (W.written output.new) (W.failed output.new) result) bytes) }
    ensures play { asked ≡ Ok Task.Play →
        IfSome (R.to_come input.old) (λ text. Plays (job_end (W.written output.old) (W.written output.new) (W.failed output.new) result) text) }
    ensures help { asked ≡ Err NoTask.Help →
        PrintsText (job_end (W.written output.old) (W.written output.new) (W.failed output.new) result) help_text Status.Good }
    ensures usage { asked ≡ Err NoTask.Usage →
        PrintsText (job_end (W.written output.old) (W.written output.new) (W.failed output.new) result) USAGE.now Status.Usage }
    ensures memory { asked ≡ Err NoTask.Memory →
        PrintsText (job_end (W.written output.old) (W.written output.new) (W.failed output.new) result) memory_line Status.Memory }
    ensures device { (UsesLinks asked → ⊥) → result ≡ Status.Device → IsTrue (R.failed input.new) ⊎ IsTrue (W.failed output.new) }
    ensures not_hidden { result ≢ Status.Device → ¬ IsTrue (W.failed output.old) → ¬ IsTrue (W.failed output.new) }
    ensures usage_only { result ≡ Status.Usage → asked ≡ Err NoTask.Usage }
    ensures unread { (ReadsInput asked → ⊥) → input.new ≡ input.old }
    ensures all_read { ReadsInput asked → result ≢ Status.Device → ¬ IsTrue (R.failed input.new) }
    ensures nothing_put { ReadsInput asked → IsTrue (R.failed input.new) → output.new ≡ output.old }
    ensures pulls { R.pull_count input.new ≤ R.pull_count input.old + INPUT_LIMIT + 1 }
{
    match &asked {
        Ok(Task::Check { form, pass }) => check(alloc, *form, *pass, input, output),
        Ok(Task::Render { form, pass, width }) => render(
            alloc, *form, *pass, *width, input, output,
        ),
        Ok(Task::RenderText { form, pass, width }) => render_text(
            alloc, *form, *pass, *width, input, output,
        ),
        Ok(Task::Draw { form, pass, width }) => draw(alloc, *form, *pass, *width, input, output),
        Ok(Task::Encode { form, options }) => encode(alloc, *form, options, input, output),
        Ok(Task::Image { width, threshold }) => image(alloc, *width, *threshold, input, output),
        Ok(Task::Play) => play(alloc, input, output),
        Ok(
            Task::Emulate {
                address,
                links,
                condition,
                width,
                file,
            },
        ) => emulate(
            net, alloc, *address, *links, *condition, *width, *file, output,
        ),
        Ok(
            Task::Send {
                address,
                first,
                openings,
                wait,
                options,
            },
        ) => {
            let marks = Marks {
                first: *first,
                openings: *openings,
            };
            match *wait {
                Some(wait) => send_to(
                    &Within::new(net, wait),
                    alloc,
                    *address,
                    marks,
                    options,
                    input,
                    output,
                ),
                None => send_to(net, alloc, *address, marks, options, input, output),
            }
        }
        Ok(Task::Status { address, wait }) => match *wait {
            Some(wait) => show_status(&Within::new(net, wait), *address, output),
            None => show_status(net, *address, output),
        },
        Ok(Task::Loop { width }) => loop_receipt(net, alloc, *width, input, output),
        Err(NoTask::Help) => say_all(output),
        Err(NoTask::Usage) => say(USAGE.as_bytes(), output, Status::Usage),
        Err(NoTask::Memory) => say(MEMORY, output, Status::Memory),
    }
}
