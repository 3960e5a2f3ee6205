//! `ledger`: where each receipt of a ledger stands, and the next mark number.

ghost use Rattle.std.specs.Prelude.{◌≡◌, ◌≢◌, ◌+◌, ◌^◌, ◌<◌, ◌≤◌, ◌++◌, ◌⊎◌, List, [], ◌∷◌, length, decimal, IsTrue};
ghost use Rattle.escpos_io.specs.Giving.{IsGiven};
ghost use Rattle.escpos_io.specs.Putting.{passage};
ghost use Rattle.escpos_job_parts.specs.Ending.{Tells, job_end};
ghost use Rattle.escpos_till.specs.Driver.{Raise};
ghost use Rattle.escpos_till.specs.Machine.{RefusesRaise};
ghost use Rattle.escpos_till.specs.Surroundings.{Did};
ghost use Rattle.escpos_till_jobs.specs.Lines.{next_line, state_line, state_lines, state_text};
ghost use Rattle.escpos_till_jobs.specs.Outcomes.{Becomes, Lists, ListsUnless, RaisesAndLists, RaisesFirst};

use crate::following::follow;
use crate::outcome::{Outcome, tell};
use escpos_command::LF;
use escpos_io::{ByteOut, Device, GATHERED_BYTES, Gather, append_number, laws};
use escpos_job_parts::status::Status;
use escpos_till::{PrinterLine, ReceiptState, Store, Surroundings, TillMachine, TillNote};

// More bytes than a line has.
const LINE_BYTES: usize = 64;

const _: () = prove!(LINE_BYTES == 64);

/// Raises the next mark number to `first`, if one is given; then lists where each receipt stands, in the order of their
/// numbers, and `next M`, the next mark number.
///
/// The status is `Good`; `Refused` with `refused MarkReused M` alone if `first` is lower than the next number, or with
/// `refused MarkTooHigh L` if it leaves fewer numbers than a try takes; `Device` with `ledger failed` if the store fails; or
/// `Memory`. `Device` also comes where `output` has failed.
pub fn list<S: Store, L: PrinterLine, W: ByteOut>(
    machine: &mut TillMachine,
    around: &mut Surroundings<S, L>,
    first: Option<u32>,
    output: &mut W,
) -> Status
    ensures lists { RaisesAndLists (Did S.faithful S.holds S.leaves S.says L.did) machine.old around.old first machine.new around.new
        (job_end (W.written output.old) (W.written output.new) (W.failed output.new) result) }
    ensures not_hidden { result ≢ Status.Device → ¬ IsTrue (W.failed output.old) → ¬ IsTrue (W.failed output.new) }
    ensures never_usage { result ≢ Status.Usage }
{
    let instead = raise_first(machine, around, first);
    list_unless(machine, instead, output)
}

// Raises the next mark number, if one is given. Returns what came instead.
pub(crate) fn raise_first<S: Store, L: PrinterLine>(
    machine: &mut TillMachine,
    around: &mut Surroundings<S, L>,
    first: Option<u32>,
) -> Option<Outcome>
    ensures { RaisesFirst (Did S.faithful S.holds S.leaves S.says L.did) machine.old around.old first result machine.new around.new }
{
    match first {
        None => None,
        Some(first) => match raised(machine, around, first) {
            Outcome::Told(TillNote::Raised) => None,
            outcome => Some(outcome),
        },
    }
}

// Prints where each receipt stands, and the next mark number; or what came instead.
pub(crate) fn list_unless<W: ByteOut>(
    machine: &TillMachine,
    instead: Option<Outcome>,
    output: &mut W,
) -> Status
    ensures lists { ListsUnless instead machine.now (job_end (W.written output.old) (W.written output.new) (W.failed output.new) result) }
    ensures not_hidden { result ≢ Status.Device → ¬ IsTrue (W.failed output.old) → ¬ IsTrue (W.failed output.new) }
    ensures never_usage { result ≢ Status.Usage }
{
    match instead {
        None => list_states(machine, output),
        Some(outcome) => tell(outcome, output),
    }
}

// Raises the next mark number.
fn raised<S: Store, L: PrinterLine>(
    machine: &mut TillMachine,
    around: &mut Surroundings<S, L>,
    first: u32,
) -> Outcome
    ensures { Becomes (Did S.faithful S.holds S.leaves S.says L.did) (RefusesRaise machine.old first) machine.old around.old (Raise first) result machine.new around.new }
{
    match machine.raise(first) {
        Ok(()) => follow(machine, around),
        Err(why) => Outcome::Refused(why),
    }
}

// Lists where each receipt stands, and the next mark number.
fn list_states<W: ByteOut>(machine: &TillMachine, output: &mut W) -> Status
    ensures lists { Lists machine.now (job_end (W.written output.old) (W.written output.new) (W.failed output.new) result) }
    ensures not_hidden { result ≢ Status.Device → ¬ IsTrue (W.failed output.old) → ¬ IsTrue (W.failed output.new) }
    ensures never_usage { result ≢ Status.Usage }
{
    print_states(
        machine.earlier(),
        machine.states(),
        machine.next_mark(),
        output,
    )
}

// Prints a line for each receipt, where an older ledger has taken so many, and the next mark number.
fn print_states<W: ByteOut>(
    earlier: u32,
    states: &[ReceiptState],
    next: u32,
    output: &mut W,
) -> Status
    ensures tells { Tells (job_end (W.written output.old) (W.written output.new) (W.failed output.new) result)
        (state_lines (1 + earlier) states.now ++ next_line next) Status.Good }
    ensures not_hidden { result ≢ Status.Device → ¬ IsTrue (W.failed output.old) → ¬ IsTrue (W.failed output.new) }
    ensures never_usage { result ≢ Status.Usage }
{
    let mut gather = Gather::new();
    if put_states(&mut gather, earlier, states, output).is_err() {
        return Status::Device;
    }
    if put_next(&mut gather, next, output).is_err() {
        return Status::Device;
    }
    match gather.flush(output) {
        Ok(()) => Status::Good,
        Err(_) => Status::Device,
    }
}

// Gives the line of the next mark number.
fn put_next<W: ByteOut>(gather: &mut Gather, next: u32, output: &mut W) -> Result<(), Device>
    ensures { IsGiven result (passage (W.written output.old) (W.written output.new) (W.failed output.old) (W.failed output.new))
        gather.old gather.new (next_line next) }
{
    // Proof only: appended bytes count as given.
    laws::given_in_place();
    gather.room(LINE_BYTES, output)?;
    gather.extend(b"next ");
    append_number(gather, next as usize);
    gather.push(LF);
    Ok(())
}

// Gives a line for each receipt, in order, where an older ledger has taken so many.
fn put_states<W: ByteOut>(
    gather: &mut Gather,
    earlier: u32,
    states: &[ReceiptState],
    output: &mut W,
) -> Result<(), Device>
    ensures { IsGiven result (passage (W.written output.old) (W.written output.new) (W.failed output.old) (W.failed output.new))
        gather.old gather.new (state_lines (1 + earlier) states.now) }
{
    // Proof only: appended bytes count as given.
    laws::given_in_place();
    let mut place = earlier as usize;
    for state in states {
        put_state(gather, place, state, output)?;
        place += 1;
    }
    Ok(())
}

// Gives the line of the receipt that so many were taken before.
fn put_state<W: ByteOut>(
    gather: &mut Gather,
    place: usize,
    state: &ReceiptState,
    output: &mut W,
) -> Result<(), Device>
    requires { place + 1 < 2 ^ 64 }
    ensures { IsGiven result (passage (W.written output.old) (W.written output.new) (W.failed output.old) (W.failed output.new))
        gather.old gather.new (state_line (place + 1) state.now) }
{
    // Proof only: appended bytes count as given.
    laws::given_in_place();
    gather.room(LINE_BYTES, output)?;
    append_number(gather, place + 1);
    append_state(gather, *state);
    Ok(())
}

// Appends where a receipt stands, and the end of the line.
fn append_state(gather: &mut Gather, state: ReceiptState)
    requires { length gather.old.kept + 38 ≤ GATHERED_BYTES }
    ensures kept { gather.new.kept ≡ gather.old.kept ++ state_text state }
    ensures same_count { gather.new.written ≡ gather.old.written }
{
    match state {
        ReceiptState::Waiting { tried } if tried == 0 => gather.extend(b" waiting\n"),
        ReceiptState::Waiting { tried } => append_with_number(gather, b" tried ", tried),
        ReceiptState::Recorded { place } => append_with_number(gather, b" recorded ", place),
        ReceiptState::Cancelled { tried } if tried == 0 => gather.extend(b" cancelled\n"),
        ReceiptState::Cancelled { tried } => {
            append_with_number(gather, b" cancelled tried ", tried)
        }
    }
}

// Appends a word, a number and the end of the line.
fn append_with_number(gather: &mut Gather, word: &[u8], number: usize)
    requires short { length word.now ≤ 17 }
    requires room { length gather.old.kept + 38 ≤ GATHERED_BYTES }
    ensures kept { gather.new.kept ≡ gather.old.kept ++ word.now ++ decimal number ++ LF ∷ [] }
    ensures same_count { gather.new.written ≡ gather.old.written }
{
    gather.extend(word);
    append_number(gather, number);
    gather.push(LF);
}
