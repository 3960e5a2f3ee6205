//! Proof only: the laws of a ledger's receipts, of a till in the world, and of what a driver did on a real store and a real line. The contract
//! of each function is the law; when run, it does nothing.

ghost use Rattle.std.specs.Prelude.{ℕ, Bool, ◌≡◌, ◌≢◌, ◌<◌, ◌≤◌, ◌⊎◌, Option, List, [], ◌∷◌, ◌++◌, None, Some, length};
ghost use Rattle.escpos_link.specs.Line.{IsLine, LineView};
ghost use Rattle.escpos_link.specs.Trusted.{IsTrusted};
ghost use Rattle.escpos_link.specs.Wire.{WireView, given_up, wire_of};
ghost use Rattle.escpos_till.specs.declared.entry.Content.{Content};
ghost use Rattle.escpos_till.specs.declared.entry.Entry.{Entry};
ghost use Rattle.escpos_till.specs.declared.entry.Entry.TheVariants as entry;
ghost use Rattle.escpos_till.specs.declared.stage.Stage.TheVariants as stage;
ghost use Rattle.escpos_till.specs.declared.note.TillNote.{TillNote};
ghost use Rattle.escpos_till.specs.declared.note.TillNote.TheVariants as note;
ghost use Rattle.escpos_till.specs.declared.note.TillRefusal.TheVariants as refusal;
ghost use Rattle.escpos_till.specs.declared.surroundings.Surroundings.{Surroundings};
ghost use Rattle.escpos_till.specs.Entries.{HasKey, IsLedger, Taken, cancelled, heard, last_number, next_free, recorded, taken, times_tried, waiting};
ghost use Rattle.escpos_host.specs.Counted.{id_of};
ghost use Rattle.escpos_host.specs.Machine.{IsSound};
ghost use Rattle.escpos_till.specs.Book.{IsBookOf};
ghost use Rattle.escpos_till.specs.Driver.{Answered, Call, Confirms, Queue, Ran, RanTo, Serves, Tells};
ghost use Rattle.escpos_till.specs.Machine.{Delivers, IsStarted, MachineView, RefusesDeliver, after_note};
ghost use Rattle.escpos_till.specs.Renewing.{Renews};
ghost use Rattle.escpos_till.specs.Surroundings.{Did};
ghost use Rattle.escpos_till_model.specs.Again.{HearsAnswer, IsLostFirst, IsNotTriedAgain};
ghost use Rattle.escpos_till_model.specs.Around.{Around, CrashesTo, DoesInTime, IsAround, Reaches, around};
ghost use Rattle.escpos_till_model.specs.Bridge.{AllOnWire, AreServed, EndsIn, FitsWire, GoesTo, IsFaithful, IsGivenUp, IsOffLine, IsServed, notes_of, told_of};
ghost use Rattle.std.specs.List.{AllByRecursion};
ghost use Rattle.escpos_till_model.specs.Carried.{AreApart, Carried, Carries, HasOwnMarks, UsesMarksOnce};
ghost use Rattle.escpos_till_model.specs.Receipts.{Among, EachIsKept, Extends, IsAbout, IsEndOf, RecordedStand};
ghost use Rattle.escpos_till_model.specs.declared.event.Happening.{Happening};
ghost use Rattle.escpos_till_model.specs.Known.{BookMayLag, IsWorld};
ghost use Rattle.escpos_till_model.specs.World.{Begins, HasCome, IsSo, Runs, World, off};

use crate::wire_line::{SameWire, WireLine};
use escpos_till::{PrinterLine, Store};

/// In every ledger each receipt that was taken waits, is recorded or is cancelled, and none is two of these; what is recorded or cancelled was
/// taken, and none is recorded or cancelled twice. After a receipt is recorded or cancelled no entry tries, records or cancels it. What waits is
/// what a machine delivers: where it says that nothing waits, each receipt that was taken is recorded or cancelled, and what it delivers
/// otherwise is one that waits.
pub fn each_is_kept()
    ensures kept { (entries : List Entry) → IsLedger entries → EachIsKept entries }
    ensures ended { (before following : List Entry) (number : ℕ) (end e : Entry) → IsLedger (before ++ end ∷ following) → IsEndOf number end → Among e following → ¬ IsAbout number e }
    ensures nothing_waits { (m : MachineView) (entries : List Entry) (openings : ℕ) → IsLedger entries → IsBookOf m.book entries → RefusesDeliver m openings refusal.NothingWaits
        → (receipt : Taken) → Among receipt (taken entries) → Among receipt.number (recorded entries) ⊎ Among receipt.number (cancelled entries) }
    ensures delivers { (m asked : MachineView) (entries : List Entry) (openings most : ℕ) (copy : Option (List ℕ)) (further : Bool) → IsBookOf m.book entries → (it : Delivers m openings most copy further asked)
        → (content : Content) × Among (record { number = it.due.number; content = content }) (waiting entries) }
{}

/// The till in the world: over every list of happenings what is recorded in its ledger stands on its printer's paper, each receipt that was
/// taken waits, is recorded or is cancelled, and an entry that was kept is kept. Whoever was told that a receipt is queued, recorded or
/// cancelled may rely on it: it was taken, or it is recorded; or it is cancelled, and was tried so often, and no entry tries it later. So no
/// entry ever tries a receipt that he was told is cancelled and was tried 0 times. A world whose till is off by then may begin again.
///
/// It may begin with whatever printer a line has left, and with links that were given up: with a ledger that knows what that line's host
/// has recorded, or with one that has raised the next mark number to one that is above all that were used.
pub fn what_is_recorded_stands()
    ensures stands { (w after : World) (happenings : List Happening) → Begins w → Runs w happenings after
        → RecordedStand after.wire.printer.sheet.line_dots after.kept after.wire.printer.sheet.items }
    ensures kept { (w after : World) (happenings : List Happening) → Begins w → Runs w happenings after → EachIsKept after.kept }
    ensures queued { (w after : World) (happenings : List Happening) (number : ℕ) → Begins w → Runs w happenings after → Among (note.Queued number) after.told
        → (0 < number) × (number ≤ last_number after.kept) }
    ensures recorded { (w after : World) (happenings : List Happening) (number : ℕ) → Begins w → Runs w happenings after → Among (note.Recorded number) after.told
        → Among number (recorded after.kept) }
    ensures cancelled { (w after : World) (happenings : List Happening) (number tried : ℕ) → Begins w → Runs w happenings after → Among (note.Cancelled number tried) after.told
        → Among number (cancelled after.kept) × (times_tried after.kept number ≡ tried) }
    ensures extends { (w after : World) (happenings : List Happening) → Runs w happenings after → Extends w.kept after.kept }
    ensures width { (w after : World) (happenings : List Happening) → Begins w → Runs w happenings after
        → after.wire.printer.sheet.line_dots ≡ w.wire.printer.sheet.line_dots }
    ensures begins_again { (w after : World) (happenings : List Happening) → Begins w → Runs w happenings after → after.machine ≡ None → Begins after }
    ensures begins { (l : LineView) (n heard : ℕ) → IsLine l → IsTrusted l → l.host.next ≤ n → (heard ≡ 0) ⊎ ((heard ≡ n) × (l.host.next ≤ l.host.heard))
        → Begins (record { machine = None; kept = entry.Raised n heard ∷ []; wire = given_up (wire_of l); told = [] }) }
{
    escpos_host::laws::counted_marks();
    escpos_link::laws::trust();
    escpos_link::laws::promise();
    escpos_link::laws::every_line();
    escpos_link::laws::in_turn();
    escpos_link::laws::fitting();
}

/// A ledger that goes on from an older one, whose till is off: in the same world, with the same wire, a till may begin with it, if it has no
/// receipt as recorded. So all that holds of a till in the world holds on. Whoever was told of the older ledger that a receipt is queued may
/// rely on it.
pub fn a_renewed_ledger_goes_on()
    ensures begins { (w : World) (new : List Entry) (told : List TillNote) → Begins w → Renews w.kept new → recorded new ≡ [] → ((n : TillNote) → Among n told → IsSo new n)
        → Begins (record { machine = None; kept = new; wire = w.wire; told = told }) }
    ensures queued { (old new : List Entry) (number : ℕ) → Renews old new → IsSo old (note.Queued number) → IsSo new (note.Queued number) }
{
    escpos_link::laws::trust();
    escpos_link::laws::promise();
}

/// What is heard: once a machine has heard an answer to the closing mark of a try of a receipt, be it of an older link, no entry says that the
/// receipt is tried again; unless the machine is gone, or its store fails, before it has kept that the receipt is recorded.
pub fn what_is_heard_is_not_sent_again()
    ensures { (first w heard after : World) (before happenings : List Happening) (most number : ℕ) → Begins first → Runs first before w → HearsAnswer w most number heard
        → Runs heard happenings after → ¬ IsLostFirst happenings → IsNotTriedAgain number w.kept after.kept }
{
    escpos_host::laws::counted_marks();
    escpos_link::laws::trust();
    escpos_link::laws::promise();
    escpos_link::laws::every_line();
    escpos_link::laws::in_turn();
    escpos_link::laws::fitting();
}

/// What goes out: over every list of happenings each link has mark numbers of its own, which an entry has reserved before. The marks in the
/// bytes that are put on it have these numbers, each once and in order; so no mark number goes out twice. No id does, while it may be answered:
/// of the numbers from the one on that the ledger says, no two that are reserved have one id. And no real-time command stands anywhere in them.
pub fn marks_are_used_once()
    ensures carries { (w after : World) (happenings : List Happening) → Runs w happenings after → (links : List Carried) × Carries w happenings after [] links }
    ensures apart { (w after : World) (happenings : List Happening) (links : List Carried) → Begins w → Carries w happenings after [] links
        → AreApart (next_free w.kept) links (next_free after.kept) }
    ensures own { (w after : World) (happenings : List Happening) (links : List Carried) → Begins w → Carries w happenings after [] links
        → AllByRecursion HasOwnMarks links }
    ensures ids { (w after : World) (happenings : List Happening) (number limit m n : ℕ) → Begins w → Runs w happenings after → Among (entry.Tried number limit) after.kept
        → heard after.kept ≤ m → m < n → n < limit → id_of m ≢ id_of n }
{
    escpos_host::laws::counted_marks();
    escpos_link::laws::trust();
    escpos_link::laws::promise();
    escpos_link::laws::every_line();
    escpos_link::laws::in_turn();
    escpos_link::laws::fitting();
}

/// A driver's run is a run of the world: whatever a driver did, in the order in which it did it, and whatever happened at the printer's end
/// meanwhile, some happenings lead to a world with the same entries, the same notes and the same printer. So what is recorded stands on the
/// paper at each moment of a driver's run, and what its owner was told to be queued, recorded or cancelled is; what is cancelled was tried as
/// often as he was told, and no entry tries it later. Where it ends in the middle, some happenings lead to what the next machine finds.
pub fn a_driven_till_is_in_the_world()
    ensures reaches { (m after : MachineView) (a new : Around) (w : World) → IsAround m a w → Ran DoesInTime m a after new → Reaches w after new }
    ensures crashes { (m after : MachineView) (a new : Around) (w : World) → IsAround m a w → Ran DoesInTime m a after new → CrashesTo w after new }
    ensures stands { (first w : World) (happenings : List Happening) (m after : MachineView) (a new : Around) → Begins first → Runs first happenings w → IsAround m a w
        → Ran DoesInTime m a after new → RecordedStand new.wire.printer.sheet.line_dots new.kept new.wire.printer.sheet.items }
    ensures kept { (first w : World) (happenings : List Happening) (m after : MachineView) (a new : Around) → Begins first → Runs first happenings w → IsAround m a w
        → Ran DoesInTime m a after new → EachIsKept new.kept }
    ensures extends { (m after : MachineView) (a new : Around) (w : World) → IsAround m a w → Ran DoesInTime m a after new → Extends a.kept new.kept }
    ensures queued { (first w : World) (happenings : List Happening) (m after : MachineView) (a new : Around) (number : ℕ) → Begins first → Runs first happenings w → IsAround m a w
        → Ran DoesInTime m a after new → Among (note.Queued number) new.told → (0 < number) × (number ≤ last_number new.kept) }
    ensures recorded { (first w : World) (happenings : List Happening) (m after : MachineView) (a new : Around) (number : ℕ) → Begins first → Runs first happenings w → IsAround m a w
        → Ran DoesInTime m a after new → Among (note.Recorded number) new.told → Among number (recorded new.kept) }
    ensures cancelled { (first w : World) (happenings : List Happening) (m after : MachineView) (a new : Around) (number tried : ℕ) → Begins first → Runs first happenings w → IsAround m a w
        → Ran DoesInTime m a after new → Among (note.Cancelled number tried) new.told → Among number (cancelled new.kept) × (times_tried new.kept number ≡ tried) }
{
    what_is_recorded_stands();
}

/// What a driver did on a store and over a line is what a driver does in the world: if the store has done what it was asked to, and a wire did
/// what was done over the line. At the end the store has what a crash may leave then: where it couldn't tell whether it kept an entry, it has
/// the entry or not. Otherwise that is what it holds. The wire is the one that comes of the line's deeds, and the owner was told the notes of
/// all deeds, which is one if the run ends with it.
pub fn what_a_driver_did<S: Store, L: PrinterLine>()
    ensures ran { (m after : MachineView) (old new : Surroundings S L) (ran : Ran (Did S.faithful S.holds S.leaves S.says L.did) m old after new) (kept left : List Entry) (w wire : WireView) (told : List TillNote)
        → IsFaithful S.faithful S.holds old.store kept new.store → S.leaves new.store left → AllOnWire w ran.deeds wire
        → Ran DoesInTime m (around kept w told) after (around left wire (told ++ notes_of ran.deeds)) }
    ensures told { (m after : MachineView) (old new : Surroundings S L) (note : TillNote) (most : ℕ) (ran : RanTo (Did S.faithful S.holds S.leaves S.says L.did) m old note most after new) (kept left : List Entry)
        (w wire : WireView) (told : List TillNote) → IsFaithful S.faithful S.holds old.store kept new.store → S.leaves new.store left → AllOnWire w (ran.before ++ Tells note ∷ []) wire
        → RanTo DoesInTime m (around kept w told) note most after (around left wire (told ++ note ∷ [])) }
    ensures held { (m after : MachineView) (old new : Surroundings S L) (ran : Ran (Did S.faithful S.holds S.leaves S.says L.did) m old after new) (kept : List Entry) (w wire : WireView) (told : List TillNote)
        → IsFaithful S.faithful S.holds old.store kept new.store → (BookMayLag after.stage → ⊥) → AllOnWire w ran.deeds wire
        → (entries : List Entry) × S.holds new.store entries × Ran DoesInTime m (around kept w told) after (around entries wire (told ++ notes_of ran.deeds)) }
    ensures was_faithful { (m after : MachineView) (old new : Surroundings S L) → Ran (Did S.faithful S.holds S.leaves S.says L.did) m old after new → S.faithful new.store → S.faithful old.store }
{}

/// When a line is like a wire to a printer. For proofs alone: whoever calls `a_line_is_like_a_wire` has a type of his own that says it.
pub trait LikeWire<L: PrinterLine> {
    // The line is like this wire.
    ghost fits: { L → WireView → Type 0 };
}

/// A line that stays like a wire, deed by deed: a wire did what a driver did over it, and it is like that wire at the end.
pub fn a_line_is_like_a_wire<S: Store, L: PrinterLine, W: LikeWire<L>>()
    ensures ran { FitsWire L.did W.fits → (m after : MachineView) (old new : Surroundings S L) (ran : Ran (Did S.faithful S.holds S.leaves S.says L.did) m old after new) (w : WireView) → W.fits old.line w
        → (wire : WireView) × AllOnWire w ran.deeds wire × W.fits new.line wire }
    ensures told { FitsWire L.did W.fits → (m after : MachineView) (old new : Surroundings S L) (note : TillNote) (most : ℕ) (ran : RanTo (Did S.faithful S.holds S.leaves S.says L.did) m old note most after new) (w : WireView)
        → W.fits old.line w → (wire : WireView) × AllOnWire w (ran.before ++ Tells note ∷ []) wire × W.fits new.line wire }
{}

/// A line in memory to the printer of a wire stays like the wire that it has: it is a line of which all that is proved of the world holds.
pub fn a_line_in_memory_is_like_its_wire()
    ensures { FitsWire ⟦<WireLine as PrinterLine>⟧.did ⟦<SameWire as LikeWire<WireLine>>⟧.fits }
{}

/// A call of a till's machine that a driver has served, in a world that has come of one that began: happenings lead to a world around the
/// machine as it is then, whose store has what it holds, or what a crash may leave now, and whose owner was told the note. So the next call may
/// follow, or a crash; what is recorded stands on the paper, each receipt that was taken is kept, and the note is so: a receipt that it says
/// is cancelled is, and was tried so often, and no entry tries it later. If a receipt was to be taken with a key, the one with the number that
/// the note says has this key, and no other has it, whatever a crash leaves.
pub fn a_served_till_is_in_the_world<S: Store, L: PrinterLine>()
    ensures served { (world : World) (m after : MachineView) (old new : Surroundings S L) (call : Call) (note : TillNote) (most : ℕ) (wire : WireView) → IsServed S.faithful S.holds S.leaves S.says L.did world m old call note most after new wire
        → after_note note ≡ stage.AtRest → (entries : List Entry) × S.holds new.store entries × (after.stage ≡ stage.AtRest) × GoesTo world after (around entries wire (world.told ++ note ∷ [])) }
    ensures may_leave { (world : World) (m after : MachineView) (old new : Surroundings S L) (call : Call) (note : TillNote) (most : ℕ) (wire : WireView) (left : List Entry) → IsServed S.faithful S.holds S.leaves S.says L.did world m old call note most after new wire
        → S.leaves new.store left → GoesTo world after (around left wire (world.told ++ note ∷ [])) }
    ensures given_up { (world : World) (m after : MachineView) (old new : Surroundings S L) (call : Call) (most : ℕ) (wire : WireView) (left : List Entry)
        (it : IsGivenUp S.faithful S.holds S.leaves S.says L.did world m old call most after new wire) → S.leaves new.store left → EndsIn world after (around left wire (world.told ++ notes_of it.gives.runs.run.deeds)) }
    ensures off_line { (m after : MachineView) (old new : Surroundings S L) (call : Call) (note : TillNote) (most : ℕ) (serves : Serves (Did S.faithful S.holds S.leaves S.says L.did) m old call note most after new) (w : WireView)
        → IsOffLine call → AllOnWire w (serves.runs.before ++ Tells note ∷ []) w }
    ensures starts { (world : World) (m : MachineView) → HasCome world → world.machine ≡ None → IsStarted m → IsBookOf m.book world.kept → IsSound m.host → GoesTo world m (around world.kept world.wire world.told) }
    ensures stops { (world : World) (m : MachineView) → HasCome world → IsAround m (around world.kept world.wire world.told) world → Begins (off world world.wire) }
    ensures stands { (world : World) (m after : MachineView) (old new : Surroundings S L) (call : Call) (note : TillNote) (most : ℕ) (wire : WireView) (left : List Entry) → IsServed S.faithful S.holds S.leaves S.says L.did world m old call note most after new wire
        → S.leaves new.store left → RecordedStand wire.printer.sheet.line_dots left wire.printer.sheet.items }
    ensures kept { (world : World) (m after : MachineView) (old new : Surroundings S L) (call : Call) (note : TillNote) (most : ℕ) (wire : WireView) (left : List Entry) → IsServed S.faithful S.holds S.leaves S.says L.did world m old call note most after new wire
        → S.leaves new.store left → EachIsKept left × Extends world.kept left }
    ensures queued { (world : World) (m after : MachineView) (old new : Surroundings S L) (call : Call) (number most : ℕ) (wire : WireView) (left : List Entry)
        → IsServed S.faithful S.holds S.leaves S.says L.did world m old call (note.Queued number) most after new wire → S.leaves new.store left → (0 < number) × (number ≤ last_number left) }
    ensures keyed { (world : World) (m after : MachineView) (old new : Surroundings S L) (content : Content) (key : List ℕ) (number most : ℕ) (wire : WireView) (left : List Entry)
        → IsServed S.faithful S.holds S.leaves S.says L.did world m old (Queue content (Some key)) (note.Queued number) most after new wire → S.leaves new.store left
        → HasKey left key number × ((other : ℕ) → HasKey left key other → other ≡ number) }
    ensures recorded { (world : World) (m after : MachineView) (old new : Surroundings S L) (call : Call) (number most : ℕ) (wire : WireView) (left : List Entry)
        → IsServed S.faithful S.holds S.leaves S.says L.did world m old call (note.Recorded number) most after new wire → S.leaves new.store left → Among number (recorded left) }
    ensures cancelled { (world : World) (m after : MachineView) (old new : Surroundings S L) (call : Call) (number tried most : ℕ) (wire : WireView) (left : List Entry)
        → IsServed S.faithful S.holds S.leaves S.says L.did world m old call (note.Cancelled number tried) most after new wire → S.leaves new.store left → Among number (cancelled left) × (times_tried left number ≡ tried) }
{
    escpos_link::laws::fitting();
    escpos_till::laws::one_key_is_one_receipt();
    every_world();
    what_is_recorded_stands();
}

/// Calls of a till's machine that a driver has served one after another, in a world that has come of one that began, over a line that stays like
/// the world's wire: happenings lead to a world around the machine as it is then, with the entries that the store holds then and a wire that the
/// line is like. So the next call may follow, or a crash; what is recorded stands on that wire's paper, each receipt that was taken is kept, and
/// all that the owner was told is so: a receipt that he was told is cancelled is, and was tried so often, and no entry tries it later.
pub fn a_row_of_calls_is_in_the_world<S: Store, L: PrinterLine, W: LikeWire<L>>()
    ensures served { (world : World) (m after : MachineView) (old new : Surroundings S L) (answered : List Answered) (most : ℕ) → AreServed S.faithful S.holds S.leaves S.says L.did W.fits world m old answered most after new
        → (entries : List Entry) × (wire : WireView) × S.holds new.store entries × W.fits new.line wire × GoesTo world after (around entries wire (world.told ++ told_of answered)) }
    ensures may_leave { (world : World) (m after : MachineView) (old new : Surroundings S L) (answered : List Answered) (most : ℕ) (left : List Entry)
        → AreServed S.faithful S.holds S.leaves S.says L.did W.fits world m old answered most after new → S.leaves new.store left
        → (wire : WireView) × W.fits new.line wire × GoesTo world after (around left wire (world.told ++ told_of answered)) }
    ensures stands { (world : World) (m after : MachineView) (old new : Surroundings S L) (answered : List Answered) (most : ℕ) (left : List Entry)
        → AreServed S.faithful S.holds S.leaves S.says L.did W.fits world m old answered most after new → S.leaves new.store left
        → (wire : WireView) × W.fits new.line wire × RecordedStand wire.printer.sheet.line_dots left wire.printer.sheet.items }
    ensures kept { (world : World) (m after : MachineView) (old new : Surroundings S L) (answered : List Answered) (most : ℕ) (left : List Entry)
        → AreServed S.faithful S.holds S.leaves S.says L.did W.fits world m old answered most after new → S.leaves new.store left → EachIsKept left × Extends world.kept left }
    ensures queued { (world : World) (m after : MachineView) (old new : Surroundings S L) (answered : List Answered) (number most : ℕ) (left : List Entry)
        → AreServed S.faithful S.holds S.leaves S.says L.did W.fits world m old answered most after new → S.leaves new.store left → Among (note.Queued number) (told_of answered)
        → (0 < number) × (number ≤ last_number left) }
    ensures recorded { (world : World) (m after : MachineView) (old new : Surroundings S L) (answered : List Answered) (number most : ℕ) (left : List Entry)
        → AreServed S.faithful S.holds S.leaves S.says L.did W.fits world m old answered most after new → S.leaves new.store left → Among (note.Recorded number) (told_of answered)
        → Among number (recorded left) }
    ensures cancelled { (world : World) (m after : MachineView) (old new : Surroundings S L) (answered : List Answered) (number tried most : ℕ) (left : List Entry)
        → AreServed S.faithful S.holds S.leaves S.says L.did W.fits world m old answered most after new → S.leaves new.store left → Among (note.Cancelled number tried) (told_of answered)
        → Among number (cancelled left) × (times_tried left number ≡ tried) }
{
    escpos_link::laws::fitting();
    every_world();
    what_is_recorded_stands();
}

/// What a driver puts out, told of its deeds: each entry by which a receipt is tried has a link, whose mark numbers that entry has reserved
/// before, and nothing is put but on such a link. The marks in what is put have these numbers, each once and in order; so no mark number goes
/// out twice, in one call or in the next. And no real-time command stands anywhere in it.
pub fn a_driver_uses_marks_once<S: Store, L: PrinterLine>()
    ensures ran { (w : World) (m after : MachineView) (a new : Around) (ran : Ran DoesInTime m a after new) → HasCome w → IsAround m a w → UsesMarksOnce a.kept ran.deeds new.kept }
    ensures served { (world : World) (m after : MachineView) (old new : Surroundings S L) (call : Call) (note : TillNote) (most : ℕ) (wire : WireView) (left : List Entry)
        (it : IsServed S.faithful S.holds S.leaves S.says L.did world m old call note most after new wire) → S.leaves new.store left → UsesMarksOnce world.kept (it.serves.runs.before ++ Tells note ∷ []) left }
    ensures given_up { (world : World) (m after : MachineView) (old new : Surroundings S L) (call : Call) (most : ℕ) (wire : WireView) (left : List Entry)
        (it : IsGivenUp S.faithful S.holds S.leaves S.says L.did world m old call most after new wire) → S.leaves new.store left → UsesMarksOnce world.kept it.gives.runs.run.deeds left }
    ensures both { (low mid high : ℕ) (links others : List Carried) → AreApart low links mid → AreApart mid others high → AreApart low (others ++ links) high }
{
    escpos_host::laws::counted_marks();
    escpos_link::laws::fitting();
    every_world();
}

/// What a driver tells while a call goes on: a receipt that its owner is told is recorded, while the next one is being sent, is recorded,
/// whatever a crash leaves.
pub fn what_is_confirmed_is_recorded<S: Store, L: PrinterLine>()
    ensures ran { (w : World) (m after : MachineView) (a new : Around) (number : ℕ) (ran : Ran DoesInTime m a after new) → HasCome w → IsAround m a w → Among (Confirms number) ran.deeds
        → Among number (recorded new.kept) }
    ensures served { (world : World) (m after : MachineView) (old new : Surroundings S L) (call : Call) (note : TillNote) (number most : ℕ) (wire : WireView) (left : List Entry)
        (it : IsServed S.faithful S.holds S.leaves S.says L.did world m old call note most after new wire) → S.leaves new.store left → Among (Confirms number) it.serves.runs.before
        → Among number (recorded left) }
    ensures given_up { (world : World) (m after : MachineView) (old new : Surroundings S L) (call : Call) (number most : ℕ) (wire : WireView) (left : List Entry)
        (it : IsGivenUp S.faithful S.holds S.leaves S.says L.did world m old call most after new wire) → S.leaves new.store left → Among (Confirms number) it.gives.runs.run.deeds
        → Among number (recorded left) }
{
    escpos_link::laws::fitting();
    every_world();
}

// Proof only: what holds of every world holds of one that has come of a world that began.
pub(crate) fn every_world()
    ensures { (w after : World) (happenings : List Happening) → Begins w → Runs w happenings after → IsWorld after }
{
    escpos_host::laws::counted_marks();
    escpos_link::laws::trust();
    escpos_link::laws::promise();
    escpos_link::laws::every_line();
    escpos_link::laws::in_turn();
    escpos_link::laws::fitting();
}
