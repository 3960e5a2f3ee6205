//! Which commands hide a real-time command in their data, and the note that says so.

ghost use Rattle.std.specs.Prelude.{◌≡◌, ◌+◌, ◌≤◌, ◌++◌, [], codes, decimal, if◌then◌else◌, length};
ghost use Rattle.escpos_io.specs.Giving.{IsGiven};
ghost use Rattle.escpos_io.specs.Putting.{passage};
ghost use Rattle.escpos_job_parts.specs.RealTimeNotes.{is_hiding, real_time_note};

use escpos_command::Command;
use escpos_io::{ByteOut, Device, GATHERED_BYTES, Gather, append_number, laws};
use escpos_real_time::holds_real_time;

// More bytes than a note has.
const NOTE_BYTES: usize = 64;

const _: () = prove!(NOTE_BYTES == 64);

/// Gives the note on a command that has `place` bytes before it, if a real-time command stands in its data.
pub(crate) fn put_note<W: ByteOut>(
    gather: &mut Gather,
    place: usize,
    command: &Command,
    writer: &mut W,
) -> Result<(), Device>
    ensures { IsGiven result (passage (W.written writer.old) (W.written writer.new) (W.failed writer.old) (W.failed writer.new))
        gather.old gather.new (real_time_note place command.now) }
{
    // Proof only: appended bytes count as given.
    laws::given_in_place();
    gather.room(NOTE_BYTES, writer)?;
    append_note(gather, place, is_hiding(command));
    Ok(())
}

/// Whether a real-time command stands in a command that isn't one itself. Allocates nothing.
pub fn is_hiding(command: &Command) -> bool
    ensures { result ≡ is_hiding command.now }
{
    match command {
        Command::Status(_) => false,
        _ => holds_real_time(command),
    }
}

// Appends the note, if there is to be one.
fn append_note(gather: &mut Gather, place: usize, hides: bool)
    requires { length gather.old.kept + NOTE_BYTES ≤ GATHERED_BYTES }
    ensures kept { gather.new.kept ≡ gather.old.kept ++ (if hides then codes "note " ++ decimal place ++ codes " real-time\n" else []) }
    ensures same_count { gather.new.written ≡ gather.old.written }
{
    if hides {
        gather.extend(b"note ");
        append_number(gather, place);
        gather.extend(b" real-time\n");
    }
}
