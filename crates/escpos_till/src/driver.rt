//! The driver of a till's machine: a small loop that does what the machine asks for, and tells it what came of that.
//!
//! It acts on a store and a line to a printer, and returns what the machine's owner is to be told. `specs/Driver.antt` says what a
//! run is.

ghost use Rattle.std.specs.Prelude.{◌≡◌, ◌≢◌, ◌≤◌, ◌⊎◌, ℕ, List, [], None, is_some, IfSome};
ghost use Rattle.escpos_host.specs.Machine.{IsSound};
ghost use Rattle.escpos_till.specs.declared.stage.Stage.TheVariants as stage;
ghost use Rattle.escpos_till.specs.declared.stage.Talk.{Talk};
ghost use Rattle.escpos_till.specs.declared.entry.Entry.{Entry};
ghost use Rattle.escpos_till.specs.declared.stage.Then.{Then};
ghost use Rattle.escpos_till.specs.Driver.{Deed, IsGiven, IsSaid, IsTelling, KeepsOne, RanQuietly, RanUpTo, Turns};
ghost use Rattle.escpos_till.specs.Machine.{Rests, entry_with, entry_with_at, news_of};
ghost use Rattle.escpos_till.specs.Surroundings.{Did};

use crate::machine::TillMachine;
use crate::note::TillNote;
use crate::stage::Action;
use crate::store::{Appended, Store};
use crate::surroundings::{PrinterLine, Surroundings};

// The most bytes that are put or read at a time.
const PIECE_BYTES: usize = 512;

const _: () = prove!(PIECE_BYTES == 512);

// What came of a turn.
#[derive(Clone, Copy)]
enum Turned {
    // The machine asks for nothing.
    Rests,
    // What it asked for is done.
    Done,
    // Its owner is to be told this.
    Tells(TillNote),
}

/// Does what the machine asks for, one thing after another, until its owner is to be told something, and returns that. At most `most`
/// things are done. `None` if it asks for nothing, or still asks for something after so many.
pub fn drive<S: Store, L: PrinterLine>(
    machine: &mut TillMachine,
    around: &mut Surroundings<S, L>,
    most: u32,
) -> Option<TillNote>
    ensures told { IfSome result (λ note. (left : ℕ) × RanUpTo (Did S.faithful S.holds S.leaves S.says L.did) machine.old around.old note most left machine.new around.new) }
    ensures not_told { result ≡ None → (Rests machine.old.stage × (machine.new ≡ machine.old) × (around.new ≡ around.old))
        ⊎ RanQuietly (Did S.faithful S.holds S.leaves S.says L.did) machine.old around.old machine.new around.new most }
{
    let mut left = most;
    drive_within(machine, around, &mut left)
}

/// The same, where at most `left` things are done, and what was done is taken off that. So an owner that was told something may go on.
pub fn drive_within<S: Store, L: PrinterLine>(
    machine: &mut TillMachine,
    around: &mut Surroundings<S, L>,
    left: &mut u32,
) -> Option<TillNote>
    ensures told { IfSome result (λ note. RanUpTo (Did S.faithful S.holds S.leaves S.says L.did) machine.old around.old note left.old left.new machine.new around.new) }
    ensures not_told { result ≡ None → (Rests machine.old.stage × (machine.new ≡ machine.old) × (around.new ≡ around.old))
        ⊎ RanQuietly (Did S.faithful S.holds S.leaves S.says L.did) machine.old around.old machine.new around.new left.old }
{
    while *left > 0 {
        *left -= 1;
        match turn(machine, around) {
            Turned::Rests => return None,
            Turned::Done => {}
            Turned::Tells(note) => return Some(note),
        }
    }
    None
}

// Does one thing that the machine asks for.
fn turn<S: Store, L: PrinterLine>(
    machine: &mut TillMachine,
    around: &mut Surroundings<S, L>,
) -> Turned
    ensures turned { result ≡ Turned.Done → (deed : Deed) × (IsSaid deed → ⊥) × Turns machine.old deed machine.new × Did S.faithful S.holds S.leaves S.says L.did around.old deed around.new }
    ensures tells { (note : TillNote) → result ≡ Turned.Tells note → (deed : Deed) × IsTelling deed note × Turns machine.old deed machine.new × Did S.faithful S.holds S.leaves S.says L.did around.old deed around.new }
    ensures sound { IsSound machine.new.host }
    ensures rests { result ≡ Turned.Rests → (machine.new ≡ machine.old) × (around.new ≡ around.old) × Rests machine.old.stage }
{
    let came = act(machine, around);
    // Proof only: what holds of every host.
    machine.is_sound();
    came
}

// The same.
fn act<S: Store, L: PrinterLine>(
    machine: &mut TillMachine,
    around: &mut Surroundings<S, L>,
) -> Turned
    ensures turned { result ≡ Turned.Done → (deed : Deed) × (IsSaid deed → ⊥) × Turns machine.old deed machine.new × Did S.faithful S.holds S.leaves S.says L.did around.old deed around.new }
    ensures tells { (note : TillNote) → result ≡ Turned.Tells note → (deed : Deed) × IsTelling deed note × Turns machine.old deed machine.new × Did S.faithful S.holds S.leaves S.says L.did around.old deed around.new }
    ensures rests { result ≡ Turned.Rests → (machine.new ≡ machine.old) × (around.new ≡ around.old) × Rests machine.old.stage }
{
    match machine.asks() {
        Action::Nothing => return Turned::Rests,
        Action::Append(entry) => {
            let with = machine.asks_with();
            let both = with.is_some();
            match around.append(entry, with) {
                Ok(Appended::Done) => kept(machine, both),
                Ok(Appended::Others(others)) => {
                    let _ = machine.learned(&others);
                }
                Err(why) => machine.appended(Err(why)),
            }
        }
        Action::Connect => {
            let is = around.connect();
            machine.connected(is);
        }
        Action::Put => put_out(machine, around),
        Action::Wait(most) => wait(machine, around, most),
        Action::HangUp => {
            around.hang_up();
            machine.hung_up();
        }
        Action::Tell(note) => {
            // Proof only: it is what came of a call, or news of a talk; and to tell it leaves what is around as it is.
            machine.is_sound();
            machine.told();
            around.tells();
            return Turned::Tells(note);
        }
    }
    Turned::Done
}

// The entry that the machine asked for is kept, and if both are, the one that was to be kept with it.
fn kept(machine: &mut TillMachine, both: bool)
    requires { both ≡ is_some (entry_with_at machine.old.stage) }
    ensures { (e : Entry) (next : Then) → machine.old.stage ≡ stage.Keeping e next → KeepsOne machine.old e machine.new (entry_with next) }
{
    machine.appended(Ok(()));
    if both {
        // Proof only: what holds of every host.
        machine.is_sound();
        machine.appended(Ok(()));
    }
}

// Puts the next bytes.
fn put_out<S: Store, L: PrinterLine>(machine: &mut TillMachine, around: &mut Surroundings<S, L>)
    requires talks { (talk : Talk) × (machine.old.stage ≡ stage.Talking talk) × (news_of talk ≡ None) × (machine.old.host.out ≢ []) }
    ensures { (deed : Deed) × (IsSaid deed → ⊥) × Turns machine.old deed machine.new × Did S.faithful S.holds S.leaves S.says L.did around.old deed around.new }
{
    let mut room = [0; PIECE_BYTES];
    let patient = machine.is_paused();
    let count = machine.take_out(&mut room);
    if let Err(why) = around.put(&room[..count], patient) {
        machine.link_ended(why);
    }
}

// Waits for at most so many bytes of answers, and has the machine hear them.
fn wait<S: Store, L: PrinterLine>(
    machine: &mut TillMachine,
    around: &mut Surroundings<S, L>,
    most: u32,
)
    requires talks { (talk : Talk) × (machine.old.stage ≡ stage.Talking talk) × (news_of talk ≡ None) × (machine.old.host.out ≡ []) × (talk.left ≡ most) }
    ensures { (deed : Deed) × (IsSaid deed → ⊥) × Turns machine.old deed machine.new × Did S.faithful S.holds S.leaves S.says L.did around.old deed around.new }
{
    let mut room = [0; PIECE_BYTES];
    let patient = machine.is_paused();
    let most = PIECE_BYTES.min(most as usize);
    match around.pull(&mut room[..most], patient) {
        Ok(count) => hear(machine, &room[..count]),
        Err(why) => machine.link_ended(why),
    }
}

// Has the machine hear bytes, each time up to an event, for as long as it talks.
fn hear(machine: &mut TillMachine, bytes: &[u8])
    ensures { IsGiven machine.old bytes.now machine.new }
{
    if bytes.is_empty() {
        machine.came(bytes);
        return;
    }
    let mut heard = 0;
    while heard < bytes.len() && machine.talks() {
        heard += machine.came(&bytes[heard..]);
        // Proof only: what holds of every host.
        machine.is_sound();
    }
}
