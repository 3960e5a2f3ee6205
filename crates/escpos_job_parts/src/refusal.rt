//! The line that says why a text gives no receipt.

ghost use Rattle.std.specs.Prelude.{◌≡◌, ◌≢◌, ◌+◌, ◌<◌, ◌≤◌, ◌++◌, length, IsTrue};
ghost use Rattle.escpos_job_parts.specs.Ending.{PrintsText, job_end};
ghost use Rattle.escpos_job_parts.specs.Refusal.{character_text, digit, high_digits, place_text, refusal_line, where_text};

use crate::lines::SPACE;
use crate::status::Status;
use escpos_command::LF;
use escpos_io::{ByteOut, GATHERED_BYTES, Gather, append_number, laws};
use escpos_receipt::JsonFault;

/// The most bytes that the line has.
pub const LINE_BYTES: usize = 80;

const _: () = prove!(LINE_BYTES == 80);

/// Prints the line `refused NUMBER NAME`, followed by the place of the entry or the command if there is one, and by the
/// character that can't be printed, as `U+20AC`, if that is why. The status is `Refused`, or `Device` if `output` has failed.
pub fn refuse_receipt<W: ByteOut>(fault: JsonFault, output: &mut W) -> Status
    ensures says { PrintsText (job_end (W.written output.old) (W.written output.new) (W.failed output.new) result) (refusal_line fault) Status.Refused }
    ensures not_hidden { result ≢ Status.Device → ¬ IsTrue (W.failed output.old) → ¬ IsTrue (W.failed output.new) }
{
    // Proof only: appended bytes count as given.
    laws::given_in_place();
    let mut gather = Gather::new();
    append_refusal(&mut gather, fault);
    match gather.flush(output) {
        Ok(()) => Status::Refused,
        Err(_) => Status::Device,
    }
}

/// Appends that line.
pub fn append_refusal(gather: &mut Gather, fault: JsonFault)
    requires { length gather.old.kept + LINE_BYTES ≤ GATHERED_BYTES }
    ensures kept { gather.new.kept ≡ gather.old.kept ++ refusal_line fault }
    ensures same_count { gather.new.written ≡ gather.old.written }
{
    gather.extend(b"refused ");
    append_number(gather, usize::from(fault.number()));
    gather.push(SPACE);
    gather.extend(fault.name().as_bytes());
    append_where(gather, fault);
    gather.push(LF);
}

// Appends where a refusal came: the place, and the character that can't be printed.
#[tactic(auto, unfolding(crate::specs::Refusal::where_text))]
fn append_where(gather: &mut Gather, fault: JsonFault)
    requires { length gather.old.kept + 30 ≤ GATHERED_BYTES }
    ensures kept { gather.new.kept ≡ gather.old.kept ++ where_text fault }
    ensures same_count { gather.new.written ≡ gather.old.written }
    ensures short { length (where_text fault) ≤ 30 }
{
    append_place(gather, fault.place());
    append_character(gather, fault.character());
}

// Appends a space and the character's number as Unicode writes it, if there is a character.
#[tactic(auto, unfolding(crate::specs::Refusal::character_text))]
fn append_character(gather: &mut Gather, character: Option<char>)
    requires { length gather.old.kept + 9 ≤ GATHERED_BYTES }
    ensures kept { gather.new.kept ≡ gather.old.kept ++ character_text character }
    ensures same_count { gather.new.written ≡ gather.old.written }
    ensures short { length (character_text character) ≤ 9 }
{
    if let Some(character) = character {
        gather.extend(b" U+");
        let number = u32::from(character);
        append_high_digits(gather, number);
        gather.push(digit(number / 0x1000 % 16));
        gather.push(digit(number / 0x100 % 16));
        gather.push(digit(number / 0x10 % 16));
        gather.push(digit(number % 16));
    }
}

// Appends the digits of a character's number that four digits leave out.
#[tactic(auto, unfolding(crate::specs::Refusal::high_digits))]
fn append_high_digits(gather: &mut Gather, number: u32)
    requires few { number < 0x110000 }
    requires room { length gather.old.kept + 2 ≤ GATHERED_BYTES }
    ensures kept { gather.new.kept ≡ gather.old.kept ++ high_digits number }
    ensures same_count { gather.new.written ≡ gather.old.written }
    ensures short { length (high_digits number) ≤ 2 }
{
    if number < 0x10000 {
        return;
    }
    if number >= 0x100000 {
        gather.push(digit(number / 0x100000));
    }
    gather.push(digit(number / 0x10000 % 16));
}

// A hexadecimal digit, in upper case.
fn digit(value: u32) -> u8
    requires { value < 16 }
    ensures { result ≡ digit value }
{
    if value < 10 {
        b'0' + value as u8
    } else {
        b'7' + value as u8
    }
}

/// Appends a space and the place, if there is one.
pub fn append_place(gather: &mut Gather, place: Option<usize>)
    requires { length gather.old.kept + 21 ≤ GATHERED_BYTES }
    ensures kept { gather.new.kept ≡ gather.old.kept ++ place_text place }
    ensures same_count { gather.new.written ≡ gather.old.written }
    ensures short { length (place_text place) ≤ 21 }
{
    if let Some(at) = place {
        gather.push(SPACE);
        append_number(gather, at);
    }
}
