//! What a till's machine asks for since a call is done. Meanwhile each pause of its printer is told, and each receipt that is recorded while
//! the next one is being sent.

ghost use Rattle.std.specs.Prelude.{◌≡◌, ◌≤◌, ◌++◌, ℕ, List, [], Option, None, false, IsTrue, OnOk, OnErr};
ghost use Rattle.std.specs.Io.KnownBytes.{Appends};
ghost use Rattle.escpos_till.specs.Machine.{Rests};
ghost use Rattle.escpos_till.specs.Surroundings.{Did};
ghost use Rattle.escpos_till_jobs.specs.Lines.{news_text, pause_line, recorded_line};
ghost use Rattle.escpos_till_jobs.specs.Outcomes.{Follows};
ghost use Rattle.escpos_till_jobs.specs.Outputs.{Took, output_of};
ghost use Rattle.escpos_till_jobs.specs.News.{FollowsTelling};

use crate::outcome::{MOST_DEEDS, Outcome};
use escpos_command::LF;
use escpos_io::{ByteOut, Device, Failed, Gather, append_number, laws};
use escpos_till::{Pause, PrinterLine, Store, Surroundings, TillMachine, TillNote, drive_within};

/// What came of a call, and whether all news was told.
#[derive(Clone, Copy, Debug, PartialEq, Eq)]
pub struct Followed {
    /// What came of the call.
    pub outcome: Outcome,
    /// Whether the output has taken the line of each pause, and of each receipt that was recorded before the last one; otherwise it has failed.
    pub told: bool,
}

/// Does what a machine asks for since a call. Prints a line `paused N WHY` each time that the printer says that it prints nothing for now, and
/// a line `recorded N` for each receipt that is recorded while the next one is being sent. If the output fails, the call is done all the same.
pub(crate) fn follow_telling<S: Store, L: PrinterLine, W: ByteOut>(
    machine: &mut TillMachine,
    around: &mut Surroundings<S, L>,
    output: &mut W,
) -> Followed
    requires { Rests machine.old.stage → ⊥ }
    ensures not_hidden { IsTrue result.told → ¬ IsTrue (W.failed output.old) → ¬ IsTrue (W.failed output.new) }
    ensures follows { FollowsTelling (Did S.faithful S.holds S.leaves S.says L.did) machine.old around.old (output_of (W.written output.old) (W.failed output.old)) result
        machine.new around.new (output_of (W.written output.new) (W.failed output.new)) }
{
    let mut left = MOST_DEEDS;
    let mut told = true;
    while left > 0 {
        let Some(note) = drive_within(machine, around, &mut left) else {
            return outcome_and(Outcome::GivenUp, told);
        };
        if machine.rests() {
            return outcome_and(Outcome::Told(note), told);
        }
        told = tell_news_if(told, &note, output);
    }
    outcome_and(Outcome::GivenUp, told)
}

// What came of a call, and whether all news was told.
fn outcome_and(outcome: Outcome, told: bool) -> Followed
    ensures { result ≡ record { outcome = outcome; told = told } }
{
    Followed { outcome, told }
}

// Prints news, unless some before wasn't told. Whether all is told now.
fn tell_news_if<W: ByteOut>(told: bool, note: &TillNote, output: &mut W) -> bool
    ensures told { IsTrue result → IsTrue told × Took (output_of (W.written output.old) (W.failed output.old)) (news_text note.now) (output_of (W.written output.new) (W.failed output.new)) }
    ensures stays { ¬ IsTrue told → (output.new ≡ output.old) × (¬ IsTrue result) }
    ensures failed { IsTrue told → ¬ IsTrue result → IsTrue (W.failed output.new) }
{
    told && tell_news(note, output).is_ok()
}

/// Does what a machine asks for since a call that sends nothing.
pub(crate) fn follow<S: Store, L: PrinterLine>(
    machine: &mut TillMachine,
    around: &mut Surroundings<S, L>,
) -> Outcome
    requires { Rests machine.old.stage → ⊥ }
    ensures { Follows (Did S.faithful S.holds S.leaves S.says L.did) machine.old around.old result machine.new around.new }
{
    let mut nowhere = Nowhere;
    follow_telling(machine, around, &mut nowhere).outcome
}

// Prints what is told while a call goes on.
fn tell_news<W: ByteOut>(note: &TillNote, output: &mut W) -> Result<(), Device>
    ensures told { OnOk result (Took (output_of (W.written output.old) (W.failed output.old)) (news_text note.now) (output_of (W.written output.new) (W.failed output.new))) }
    ensures failed { OnErr result (IsTrue (W.failed output.new)) }
{
    match *note {
        TillNote::Paused { number, why } => put_pause(number.get(), why, output),
        TillNote::Recorded(number) => put_recorded(number.get(), output),
        _ => Ok(()),
    }
}

// Prints that a receipt is recorded.
fn put_recorded<W: ByteOut>(number: usize, output: &mut W) -> Result<(), Device>
    ensures told { OnOk result (Took (output_of (W.written output.old) (W.failed output.old)) (recorded_line number) (output_of (W.written output.new) (W.failed output.new))) }
    ensures failed { OnErr result (IsTrue (W.failed output.new)) }
{
    // Proof only: appended bytes count as given.
    laws::given_in_place();
    let mut gather = Gather::new();
    gather.extend(b"recorded ");
    append_number(&mut gather, number);
    gather.push(LF);
    gather.flush(output)
}

// Prints that the printer prints nothing for now.
fn put_pause<W: ByteOut>(number: usize, why: Pause, output: &mut W) -> Result<(), Device>
    ensures told { OnOk result (Took (output_of (W.written output.old) (W.failed output.old)) (pause_line number why) (output_of (W.written output.new) (W.failed output.new))) }
    ensures failed { OnErr result (IsTrue (W.failed output.new)) }
{
    // Proof only: appended bytes count as given.
    laws::given_in_place();
    let mut gather = Gather::new();
    gather.extend(b"paused ");
    append_number(&mut gather, number);
    gather.push(b' ');
    gather.extend(why.text().as_bytes());
    gather.push(LF);
    gather.flush(output)
}

// An output that takes all bytes, and shows none.
#[derive(Drop)]
struct Nowhere;

impl ByteOut for Nowhere {
    ghost written = { λ n. None };

    ghost failed = { λ n. false };

    ghost timed_out = { λ n. false };

    fn put(&mut self, piece: &[u8]) -> Result<usize, Failed> {
        Ok(piece.len())
    }

    fn has_failed(&self) -> bool {
        false
    }

    fn has_timed_out(&self) -> bool {
        false
    }
}
