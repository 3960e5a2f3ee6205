//! The job `encode`: a receipt in JSON as the bytes of its commands, in either form.

ghost use Rattle.std.specs.Prelude.{◌≡◌, ◌≢◌, ℕ, List, IfOk, IfSome, IsErrOf, IsTrue, flat_map};
ghost use Rattle.escpos_command.specs.CommandTable.{row, spell};
ghost use Rattle.escpos_io.specs.Giving.{IsGiven};
ghost use Rattle.escpos_io.specs.Putting.{passage};
ghost use Rattle.escpos_stream_jobs.specs.Encode.{Encodes, EncodesAs, EncodesTextAs};
ghost use Rattle.escpos_receipt.specs.declared.json.JsonError.{JsonError};
ghost use Rattle.escpos_receipt.specs.declared.json.JsonFault.{JsonFault};
ghost use Rattle.escpos_receipt.specs.Describes.{IsFaultWith};
ghost use Rattle.escpos_receipt.specs.declared.options.ReceiptOptions.{ReceiptOptions};
ghost use Rattle.escpos_receipt.specs.EntryCommands.{IsValueOf, commands_in};
ghost use Rattle.escpos_job_parts.specs.Ending.{IsFair, PrintsText, job_end};

use crate::byte_form::{ByteForm, Hexadecimal, Raw};
use escpos_command::{Command, LF};
use escpos_io::{ByteIn, ByteOut, Device, Gather, laws, read_to_end};
use escpos_job_parts::ending::refuse;
use escpos_job_parts::form::Form;
use escpos_job_parts::input::{INPUT_LIMIT, InputFault};
use escpos_job_parts::receipt_input::refuse_text;
use escpos_job_parts::status::Status;
use escpos_receipt::{Entry, JsonError, ReceiptOptions, ReceiptText};
use std::alloc::Global;

/// Reads a receipt in JSON from `input`, with these options, and prints the bytes of its commands on `output` in this form:
/// hexadecimal digits in one line, or the bytes themselves.
///
/// The status is `Good` if the text describes a receipt. It is `Refused` if the input is too long or the text gives no
/// receipt, for which the one line that says why is printed. It is `Memory` if an allocation failed: then the line `memory`
/// is printed, and nothing else. `Device` comes only where `input` or `output` has failed, and no other status hides that
/// one of them has failed in this call; `Usage` never comes. `input` is pulled at most 16,777,217 times.
pub fn encode<R: ByteIn, W: ByteOut>(
    alloc: Global,
    form: Form,
    options: &ReceiptOptions,
    input: &mut R,
    output: &mut W,
) -> Status
    ensures encodes { IfSome (R.to_come input.old) (λ text. Encodes form options.now (job_end (W.written output.old) (W.written output.new) (W.failed output.new) result) text) }
    ensures fair { IsFair result (R.failed input.new) (W.failed output.old, W.failed output.new)
        (R.pull_count input.old, R.pull_count input.new) }
    ensures nothing_put { IsTrue (R.failed input.new) → output.new ≡ output.old }
{
    match form {
        Form::Hexadecimal => encode_as::<Hexadecimal, R, W>(alloc, options, input, output),
        Form::Raw => encode_as::<Raw, R, W>(alloc, options, input, output),
    }
}

// The same in the form `F`.
fn encode_as<F: ByteForm, R: ByteIn, W: ByteOut>(
    alloc: Global,
    options: &ReceiptOptions,
    input: &mut R,
    output: &mut W,
) -> Status
    ensures encodes { IfSome (R.to_come input.old) (λ text.
        EncodesAs options.now (λ cs. F.written (spell cs)) (job_end (W.written output.old) (W.written output.new) (W.failed output.new) result) text) }
    ensures fair { IsFair result (R.failed input.new) (W.failed output.old, W.failed output.new)
        (R.pull_count input.old, R.pull_count input.new) }
    ensures nothing_put { IsTrue (R.failed input.new) → output.new ≡ output.old }
{
    match read_to_end(alloc, input, INPUT_LIMIT) {
        Ok(text) => encode_text::<F, W>(alloc, options, text, output),
        Err(error) => refuse(InputFault::from(error), output),
    }
}

// Prints the line for a text.
fn encode_text<F: ByteForm, W: ByteOut>(
    alloc: Global,
    options: &ReceiptOptions,
    text: Vec<u8>,
    output: &mut W,
) -> Status
    ensures encodes { EncodesTextAs options.now (λ cs. F.written (spell cs)) (job_end (W.written output.old) (W.written output.new) (W.failed output.new) result) text.items }
    ensures device { result ≡ Status.Device → IsTrue (W.failed output.new) }
    ensures not_hidden { result ≢ Status.Device → ¬ IsTrue (W.failed output.old) → ¬ IsTrue (W.failed output.new) }
    ensures never_usage { result ≢ Status.Usage }
{
    match json_of(alloc, text) {
        Ok(json) => encode_json::<F, W>(alloc, options, &json, output),
        Err(fault) => refuse_text(fault, output),
    }
}

// The value of a text in JSON. The text itself is dropped, before its commands are written.
fn json_of(alloc: Global, text: Vec<u8>) -> Result<ReceiptText, JsonError>
    ensures value { IfOk result (λ json. IsValueOf text.items json) }
    ensures refused { (fault : JsonFault) → IsErrOf result (JsonError.Refused fault) → (options : ReceiptOptions) → IsFaultWith options fault text.items }
{
    ReceiptText::new(alloc, &text)
}

// Prints the line for a text with this value. The commands of a receipt aren't listed: texts in ASCII go out from where they
// stand.
fn encode_json<F: ByteForm, W: ByteOut>(
    alloc: Global,
    options: &ReceiptOptions,
    json: &ReceiptText,
    output: &mut W,
) -> Status
    ensures encodes { (text : List ℕ) → IsValueOf text json.now →
        EncodesTextAs options.now (λ cs. F.written (spell cs)) (job_end (W.written output.old) (W.written output.new) (W.failed output.new) result) text }
    ensures device { result ≡ Status.Device → IsTrue (W.failed output.new) }
    ensures not_hidden { result ≢ Status.Device → ¬ IsTrue (W.failed output.old) → ¬ IsTrue (W.failed output.new) }
    ensures never_usage { result ≢ Status.Usage }
{
    match json.entries(alloc, options) {
        Ok(entries) => put_whole::<F, W>(&entries, output),
        Err(fault) => refuse_text(fault, output),
    }
}

// Prints the bytes of the entries, and what is written after them.
fn put_whole<F: ByteForm, W: ByteOut>(entries: &[Entry<'_>], output: &mut W) -> Status
    ensures says { PrintsText (job_end (W.written output.old) (W.written output.new) (W.failed output.new) result)
        (F.written (spell (flat_map commands_in entries.now))) Status.Good }
    ensures not_hidden { result ≢ Status.Device → ¬ IsTrue (W.failed output.old) → ¬ IsTrue (W.failed output.new) }
{
    let mut gather = Gather::new();
    if put_entries::<F, W>(&mut gather, entries, output).is_err() {
        return Status::Device;
    }
    if gather.put(F::ending(), output).is_err() {
        return Status::Device;
    }
    match gather.flush(output) {
        Ok(()) => Status::Good,
        Err(_) => Status::Device,
    }
}

// Gives the bytes of the entries, one after another.
fn put_entries<F: ByteForm, W: ByteOut>(
    gather: &mut Gather,
    entries: &[Entry<'_>],
    writer: &mut W,
) -> Result<(), Device>
    ensures { IsGiven result (passage (W.written writer.old) (W.written writer.new) (W.failed writer.old) (W.failed writer.new))
        gather.old gather.new (F.of (spell (flat_map commands_in entries.now))) }
{
    // Proof only: appended bytes count as given.
    laws::given_in_place();
    for entry in entries {
        put_entry::<F, W>(gather, entry, writer)?;
    }
    Ok(())
}

// Gives the bytes of an entry.
fn put_entry<F: ByteForm, W: ByteOut>(
    gather: &mut Gather,
    entry: &Entry<'_>,
    writer: &mut W,
) -> Result<(), Device>
    ensures { IsGiven result (passage (W.written writer.old) (W.written writer.new) (W.failed writer.old) (W.failed writer.new))
        gather.old gather.new (F.of (spell (commands_in entry.now))) }
{
    match entry {
        Entry::Text(text) => F::put(gather, text.bytes(), writer),
        Entry::Line(text) => {
            F::put(gather, text.bytes(), writer)?;
            F::put(gather, &[LF], writer)
        }
        Entry::Command(command) => put_command::<F, W>(gather, command, writer),
    }
}

// Gives the bytes of a command, part by part: a barcode's content and a raster's dots aren't copied.
fn put_command<F: ByteForm, W: ByteOut>(
    gather: &mut Gather,
    command: &Command,
    writer: &mut W,
) -> Result<(), Device>
    ensures { IsGiven result (passage (W.written writer.old) (W.written writer.new) (W.failed writer.old) (W.failed writer.new))
        gather.old gather.new (F.of (row command.now)) }
{
    let parts = command.parts();
    F::put(gather, parts.prefix, writer)?;
    F::put(gather, parts.parameters.as_slice(), writer)?;
    F::put(gather, parts.content, writer)?;
    F::put(gather, parts.suffix, writer)
}
