//! Moves the result of a call into the caller's buffer.

ghost use Rattle.std.specs.Prelude.{◌≡◌, ◌≤◌, pos};
ghost use Rattle.escpos_c.specs.declared.limited_text.TheConstants.{TEXT_LIMIT};
ghost use Rattle.escpos_c.specs.Answered.{AnsweredWith, AnsweredWithin};
ghost use Rattle.escpos_c.specs.Buffer.{Given};
ghost use Rattle.escpos_c.specs.LimitedText.{is_too_long, text_of};

use crate::call_status::CallStatus;
use crate::limited_text::LimitedText;
use escpos_job_parts::status::Status;

/// Copies `text` to the start of `out`, and returns `status`. If `out` is too short for all of it, it stays as it is, and the
/// status is `Short`. In either case `written` is the length of the text.
pub fn give(status: CallStatus, text: &[u8], out: &mut [u8], written: &mut usize) -> CallStatus
    ensures { Given status text.now result out.old out.new written.new }
{
    *written = text.len();
    if text.len() > out.len() {
        return CallStatus::Short;
    }
    out[..text.len()].copy_from_slice(text);
    status
}

/// Moves the text of a job that ended with this status into the caller's buffer.
pub fn answer(status: Status, text: &[u8], out: &mut [u8], written: &mut usize) -> CallStatus
    ensures { AnsweredWith status text.now result out.old out.new written.new }
{
    match status {
        Status::Good => give(CallStatus::Good, text, out, written),
        Status::Refused => give(CallStatus::Refused, text, out, written),
        Status::Usage | Status::Device | Status::Memory => {
            *written = 0;
            CallStatus::Memory
        }
    }
}

/// The same for a text with a limit.
pub fn answer_within(
    status: Status,
    text: &LimitedText,
    out: &mut [u8],
    written: &mut usize,
) -> CallStatus
    ensures told { AnsweredWithin status (is_too_long text.now) (text_of text.now) result out.old out.new written.new }
    ensures within { written.new ≤ TEXT_LIMIT }
{
    match status {
        Status::Good => give(CallStatus::Good, text.bytes(), out, written),
        Status::Refused => give(CallStatus::Refused, text.bytes(), out, written),
        _ => {
            *written = 0;
            text.cut_short()
        }
    }
}

/// Gives no text, where what was given with the bytes is out of range. Returns the number of the status, 1.
pub fn give_none(written: &mut usize) -> i32
    ensures { (result ≡ pos 1) × (written.new ≡ 0) }
{
    *written = 0;
    CallStatus::Refused.number()
}
