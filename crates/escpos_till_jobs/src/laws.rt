//! Proof only: laws of the words. The contract of each function is the law; when run, it does nothing.

ghost use Rattle.std.specs.Prelude.{List};
ghost use Rattle.escpos_till.specs.declared.surroundings.Surroundings.{Surroundings};
ghost use Rattle.escpos_till.specs.declared.note.TillNote.{TillNote};
ghost use Rattle.escpos_till.specs.Driver.{ServesAll};
ghost use Rattle.escpos_till.specs.Machine.{MachineView};
ghost use Rattle.escpos_till.specs.Surroundings.{Did};
ghost use Rattle.escpos_till_jobs.specs.declared.deliver.Delivery.{Delivery};
ghost use Rattle.escpos_till_jobs.specs.declared.outcome.TheConstants.{MOST_DEEDS};
ghost use Rattle.escpos_till_jobs.specs.Delivering.{Rounds, served_by};
ghost use Rattle.escpos_till_jobs.specs.Outputs.{Output};

use escpos_till::{PrinterLine, Store};

/// What `deliver` did for the receipts that it recorded, or found cancelled, is a row of calls of the till's machine, each served before the next was made. So it is in the
/// world, where its line is like a wire to a printer (escpos_till_model).
pub fn rounds_are_served<S: Store, L: PrinterLine>()
    ensures { (delivery : Delivery) (m mid : MachineView) (old between : Surroundings S L) (before heard : Output) (notes : List TillNote)
        → Rounds (Did S.faithful S.holds S.leaves S.says L.did) delivery m old before notes mid between heard
        → ServesAll (Did S.faithful S.holds S.leaves S.says L.did) MOST_DEEDS m old (served_by delivery notes) mid between }
{}
