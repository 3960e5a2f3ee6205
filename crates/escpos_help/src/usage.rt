//! Prints the help, or its part that is about a word.

ghost use Rattle.std.specs.Prelude.{◌≢◌, OnOk, IfErr, IsTrue};
ghost use Rattle.std.specs.Io.KnownBytes.{Appends};
ghost use Rattle.escpos_help.specs.Help.{help_text};
ghost use Rattle.escpos_job_parts.specs.Ending.{PrintsText, job_end};

use crate::settings::put_settings;
use crate::texts::{HELP_END, HELP_START};
use escpos_io::{ByteOut, Device, put_all};
use escpos_job_parts::status::Status;

// What stands before each part of the help, and what follows the last one.
const BEFORE_PART: &str = "\n  escpos_cli ";

const AFTER_PARTS: &str = "\nExit status: ";

/// Prints the help. The status is `Good`, or `Device` if `output` has failed.
pub fn say_all<W: ByteOut>(output: &mut W) -> Status
    ensures says { PrintsText (job_end (W.written output.old) (W.written output.new) (W.failed output.new) result) help_text Status.Good }
    ensures not_hidden { result ≢ Status.Device → ¬ IsTrue (W.failed output.old) → ¬ IsTrue (W.failed output.new) }
{
    match put_help(output) {
        Ok(()) => Status::Good,
        Err(_) => Status::Device,
    }
}

/// Prints the part of the help that is about a word; all of it for a word that has none. The status is `Good`, or `Device` if
/// `output` has failed.
pub fn say_help<W: ByteOut>(word: &str, output: &mut W) -> Status
    ensures never_usage { result ≢ Status.Usage }
    ensures not_hidden { result ≢ Status.Device → ¬ IsTrue (W.failed output.old) → ¬ IsTrue (W.failed output.new) }
{
    let ended = match (first_part(word), part_on(word)) {
        (Some(part), _) => put_first(part, output),
        (None, Some(part)) => put_part(part, output),
        (None, None) => put_help(output),
    };
    match ended {
        Ok(()) => Status::Good,
        Err(_) => Status::Device,
    }
}

// Prints the help.
fn put_help<W: ByteOut>(output: &mut W) -> Result<(), Device>
    ensures all { OnOk result (Appends (W.written output.old) (W.written output.new) help_text) }
    ensures failed { IfErr result (λ _. IsTrue (W.failed output.new)) }
    ensures not_failed { OnOk result (¬ IsTrue (W.failed output.old) → ¬ IsTrue (W.failed output.new)) }
{
    put_all(HELP_START.as_bytes(), output)?;
    put_settings(output)?;
    put_all(HELP_END.as_bytes(), output)?;
    Ok(())
}

// Prints the first part of the help, which ends with the lines of the settings.
fn put_first<W: ByteOut>(part: &str, output: &mut W) -> Result<(), Device>
    ensures not_failed { OnOk result (¬ IsTrue (W.failed output.old) → ¬ IsTrue (W.failed output.new)) }
{
    put_part(part, output)?;
    put_settings(output)
}

// Prints a part of the help, as it stands there.
fn put_part<W: ByteOut>(part: &str, output: &mut W) -> Result<(), Device>
    ensures not_failed { OnOk result (¬ IsTrue (W.failed output.old) → ¬ IsTrue (W.failed output.new)) }
{
    put_all(b"  escpos_cli ", output)?;
    put_all(part.as_bytes(), output)
}

// The first part of the help, up to the lines of the settings, if it is about this word.
fn first_part(word: &str) -> Option<&'static str> {
    let (_, part) = HELP_START.split_once(BEFORE_PART)?;
    if part.split_whitespace().next() == Some(word) {
        Some(part)
    } else {
        None
    }
}

// The later part of the help that is about a word, from the word on.
fn part_on(word: &str) -> Option<&'static str> {
    for part in HELP_END.split(BEFORE_PART) {
        if part.split_whitespace().next() == Some(word) {
            return match part.split_once(AFTER_PARTS) {
                Some((own, _)) => Some(own),
                None => Some(part),
            };
        }
    }
    None
}
