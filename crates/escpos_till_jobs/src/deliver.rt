//! `deliver`: the receipts of a ledger that wait are sent to the printer, one after another.
//!
//! They go over one link, as long as the printer answers well there; then over another. What a machine does for them, and in which order, is
//! left to escpos_till; here it is asked for the receipts of one link after another, and what it tells is printed.

ghost use Rattle.std.specs.Prelude.{◌≡◌, ◌≢◌, IfErr, OnOk, IsTrue};
ghost use Rattle.escpos_till.specs.Machine.{RefusesDeliver};
ghost use Rattle.escpos_till.specs.Surroundings.{Did};
ghost use Rattle.escpos_till_jobs.specs.Delivering.{DeliversAndTells, RoundEnds, RoundGoes, asked};
ghost use Rattle.escpos_till_jobs.specs.Outputs.{output_of};
ghost use Rattle.escpos_till_jobs.specs.News.{BecomesTelling};

use crate::following::{Followed, follow_telling};
use crate::outcome::{Outcome, tell, tell_if_settled};
use escpos_addresses::address::Address;
use escpos_io::ByteOut;
use escpos_job_parts::status::Status;
use escpos_tcp_jobs::send::ANSWERS_LIMIT;
use escpos_till::{CopyText, PrinterLine, Store, Surroundings, TillMachine};

/// The most receipts that one delivery tells of: more than a ledger takes.
pub const MOST_ROUNDS: usize = usize::MAX;

const _: () = prove!(MOST_ROUNDS == 18_446_744_073_709_551_615);

/// Where and how receipts are delivered.
#[derive(Debug, Drop)]
pub struct Delivery<'a> {
    /// The printer's address.
    pub address: Address,
    /// How many opening marks are sent on each link; 0 counts as 1.
    pub openings: u32,
    /// How many seconds a printer is waited for that says that it prints nothing for now.
    pub patience: u32,
    /// The text of a line that is put before a receipt which was tried before, and so may be on the paper already.
    pub copy: Option<CopyText<'a>>,
}

/// Sends each receipt that waits, in the order of their numbers, until one still waits then. Others may take receipts meanwhile, which are sent
/// too, and cancel some.
///
/// Each gives one line: `recorded N` once that would outlive a crash, be it while the next one is being sent, or `cancelled N` where
/// somebody has cancelled it since it was to be sent, with ` tried K` if it was tried before that; for the first that still waits
/// `waiting N WHY`, or `ledger failed`, or `memory`. Before it a line `paused N WHY` is printed each time that the printer says that it
/// prints nothing for now. The status is `Good` if none waits any more. It is `Refused` if too few mark numbers are left, or the ledger's
/// text gives no receipt; `Memory` if an allocation failed; and `Device` for every other reason, and if `output` has failed.
pub fn deliver_waiting<S: Store, L: PrinterLine, W: ByteOut>(
    machine: &mut TillMachine,
    around: &mut Surroundings<S, L>,
    delivery: &Delivery<'_>,
    output: &mut W,
) -> Status
    ensures delivers { DeliversAndTells (Did S.faithful S.holds S.leaves S.says L.did) delivery.now machine.old around.old (output_of (W.written output.old) (W.failed output.old))
        machine.new around.new (output_of (W.written output.new) (W.failed output.new)) result }
    ensures not_hidden { result ≢ Status.Device → ¬ IsTrue (W.failed output.old) → ¬ IsTrue (W.failed output.new) }
    ensures never_usage { result ≢ Status.Usage }
{
    for _ in 0..MOST_ROUNDS {
        if let Err(status) = deliver_next(machine, around, delivery, output) {
            return status;
        }
    }
    Status::Good
}

// Sends the receipts that wait over one link, and prints what became of them. The error is the status where no further one is sent.
fn deliver_next<S: Store, L: PrinterLine, W: ByteOut>(
    machine: &mut TillMachine,
    around: &mut Surroundings<S, L>,
    delivery: &Delivery<'_>,
    output: &mut W,
) -> Result<(), Status>
    ensures recorded { OnOk result (RoundGoes (Did S.faithful S.holds S.leaves S.says L.did) delivery.now machine.old around.old (output_of (W.written output.old) (W.failed output.old))
        machine.new around.new (output_of (W.written output.new) (W.failed output.new))) }
    ensures ended { IfErr result (λ status. RoundEnds (Did S.faithful S.holds S.leaves S.says L.did) delivery.now machine.old around.old (output_of (W.written output.old) (W.failed output.old))
        machine.new around.new (output_of (W.written output.new) (W.failed output.new)) status) }
    ensures not_hidden { IfErr result (λ status. status ≢ Status.Device → ¬ IsTrue (W.failed output.old) → ¬ IsTrue (W.failed output.new)) }
    ensures never_usage { IfErr result (λ status. status ≢ Status.Usage) }
{
    let Followed { outcome, told } = delivered(machine, around, delivery, output);
    if !told {
        return Err(Status::Device);
    }
    match outcome {
        Outcome::Told(note) => tell_if_settled(note, output),
        outcome => Err(tell(outcome, output)),
    }
}

// Sends the receipts that wait over one link, and prints each pause of the printer, and each receipt that is recorded but the last.
fn delivered<S: Store, L: PrinterLine, W: ByteOut>(
    machine: &mut TillMachine,
    around: &mut Surroundings<S, L>,
    delivery: &Delivery<'_>,
    output: &mut W,
) -> Followed
    ensures not_hidden { IsTrue result.told → ¬ IsTrue (W.failed output.old) → ¬ IsTrue (W.failed output.new) }
    ensures becomes { BecomesTelling (Did S.faithful S.holds S.leaves S.says L.did) (RefusesDeliver machine.old delivery.now.openings) machine.old around.old (asked delivery.now)
        (output_of (W.written output.old) (W.failed output.old)) result machine.new around.new (output_of (W.written output.new) (W.failed output.new)) }
{
    match machine.deliver(
        delivery.openings,
        delivery.copy.as_ref(),
        ANSWERS_LIMIT,
        true,
    ) {
        Ok(()) => {
            // Proof only: what is to be sent is a receipt.
            machine.is_sound();
            follow_telling(machine, around, output)
        }
        Err(why) => Followed {
            outcome: Outcome::Refused(why),
            told: true,
        },
    }
}
