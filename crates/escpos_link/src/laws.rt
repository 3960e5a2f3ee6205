//! Proof only: the laws of the line. The contract of each function is the law; when run, it does nothing. A law is proved with
//! this crate, and another crate cites it by calling the function. The calls in the bodies cite laws of the layers below.

ghost use Rattle.std.specs.Prelude.{ℕ, ◌≡◌, ◌≢◌, ◌<◌, ◌≤◌, List, [], length, take, None};
ghost use Rattle.escpos_command.specs.declared.command.Command.{Command};
ghost use Rattle.escpos_command.specs.CommandTable.{AreCommands};
ghost use Rattle.escpos_paper.specs.Page.{SheetIs};
ghost use Rattle.escpos_receipt.specs.Whole.{Whole};
ghost use Rattle.escpos_host.specs.declared.host.HostEvent.{HostEvent};
ghost use Rattle.escpos_host.specs.Heard.{EndsLink, HearsAll, last_of};
ghost use Rattle.escpos_host.specs.Machine.{HasMark, HostView, InFlight, IsOpening, IsSound, Down, Open, asked, gone_down, linked, linked_reporting, most_in_flight, nudged, reports_asked, submitted, taken_out};
ghost use Rattle.escpos_link.specs.declared.event.Event.{Event};
ghost use Rattle.escpos_link.specs.declared.event.Event.TheVariants as event;
ghost use Rattle.escpos_link.specs.declared.event.Note.{Note};
ghost use Rattle.escpos_link.specs.declared.event.Note.TheVariants as note;
ghost use Rattle.escpos_link.specs.EventTable.{After, Leaves, restarted, told_at};
ghost use Rattle.escpos_link.specs.Line.{IsLine, LineView};
ghost use Rattle.escpos_link.specs.LowerLaws.{Laws};
ghost use Rattle.escpos_link.specs.Promising.{Promising};
ghost use Rattle.escpos_link.specs.Trusted.{IsFitting, IsTrusted, StillTrusted, Trusting};
ghost use Rattle.escpos_link.specs.Resumed.{resumed, resumed_host};
ghost use Rattle.escpos_link.specs.Wire.{WireView, given_up, heard_from, line_of, with_bytes, with_link};

/// Trust: on a line that can be trusted the recorded receipts stand on the paper; it can still be trusted after any event
/// and after any refusal, if its host goes on with fewer records, and if the caller takes a receipt that is left; and the host
/// hears no answer there that ends its link.
pub fn trust()
    ensures { Trusting }
{
    escpos_command::laws::one_reading();
    escpos_command::laws::joined_readings();
    escpos_command::laws::resynchronisation();
    escpos_command::laws::reporting();
    escpos_host::laws::counted_marks();
    escpos_command::laws::answers();
    escpos_paper::laws::initialisation();
    escpos_paper::laws::paper_grows();
}

/// Promises: if a closing mark is answered, however late, its receipt stands on the paper after all that are recorded.
pub fn promise()
    ensures { Promising }
{
    escpos_command::laws::one_reading();
    escpos_command::laws::joined_readings();
    escpos_command::laws::resynchronisation();
    escpos_command::laws::reporting();
    escpos_host::laws::counted_marks();
    escpos_command::laws::answers();
    escpos_paper::laws::initialisation();
    escpos_paper::laws::paper_grows();
}

/// Every line: what holds for every line holds after any event and after any refusal, and if the host goes on with fewer
/// records.
pub fn every_line()
    ensures kept { (e : Event) (l after : LineView) (n : Note) → IsSound l.host → IsLine l → After e l n after → IsLine after }
    ensures leaves { (e : Event) (l after : LineView) → IsSound l.host → IsLine l → Leaves e l after → IsLine after }
    ensures resumes { (l : LineView) (f count : ℕ) → IsLine l → IsLine (resumed l f count) }
{
    escpos_command::laws::answers();
    escpos_printer::laws::replies();
    escpos_printer::laws::one_block();
    escpos_printer::laws::change();
    escpos_host::laws::whole_answers();
}

/// Fitting: a whole receipt with all commands in range may be submitted on a line that is to be trusted.
pub fn fitting()
    ensures { (receipt : List Command) → Whole receipt → AreCommands receipt → IsFitting (event.Submit receipt) }
{}

/// A new line: that of a host without records and a new wire is a line whose records can be trusted.
pub fn new_line()
    ensures { (h : HostView) (w : WireView) (first heard width : ℕ) → heard ≤ first
        → h ≡ record { phase = Down; out = []; half = []; next = first; heard = heard; records = []; left = [] } → SheetIs width w.printer.sheet [] [] → w.printer.half ≡ [] → w.printer.waiting ≡ [] → w.ended ≡ [] → w.live ≡ None → w.coming ≡ []
        → IsLine (line_of h w) × IsTrusted (line_of h w) }
{}

/// Host events: what a host at the end of a wire does, and what is done to the wire for it, is an event of their line. The
/// host's calls are those of its machine; of what it hears, no event ends its link, or the last one does.
pub fn host_events()
    ensures link_up { (h : HostView) (w : WireView) → h.phase ≡ Down → HasMark h → After event.LinkUp (line_of h w) note.Done (line_of (linked h) (with_link w)) }
    ensures link_up_reporting { (h : HostView) (w : WireView) → h.phase ≡ Down → HasMark h
        → After event.LinkUpReporting (line_of h w) note.Done (line_of (linked_reporting h) (with_link w)) }
    ensures nudge { (h : HostView) (w : WireView) → IsOpening h.phase → HasMark h → After event.Nudge (line_of h w) note.Done (line_of (nudged h) w) }
    ensures submit { (h : HostView) (w : WireView) (flight : List InFlight) (receipt : List Command) → h.phase ≡ Open flight → length flight < most_in_flight → HasMark h
        → After (event.Submit receipt) (line_of h w) note.Done (line_of (submitted h flight receipt) w) }
    ensures ask { (h : HostView) (w : WireView) (n : ℕ) → h.phase ≡ Open [] → After (event.Ask n) (line_of h w) note.Done (line_of (asked h n) w) }
    ensures ask_reports { (h : HostView) (w : WireView) → h.phase ≡ Open [] → After event.AskReports (line_of h w) note.Done (line_of (reports_asked h) w) }
    ensures put { (h : HostView) (w : WireView) (count : ℕ) → count ≤ length h.out
        → After (event.Move count) (line_of h w) (note.Moved count) (line_of (taken_out h count) (with_bytes w (take count h.out))) }
    ensures heard { (h after : HostView) (w : WireView) (most consumed : ℕ) (events : List HostEvent) → HearsAll h (take most w.coming) events consumed after
        → (EndsLink (last_of events) → ⊥)
        → After (event.Answer most) (line_of h w) (note.Heard consumed (last_of events)) (line_of after (heard_from w consumed)) }
    ensures cut_off { (h after : HostView) (w : WireView) (most consumed : ℕ) (events : List HostEvent) → HearsAll h (take most w.coming) events consumed after
        → EndsLink (last_of events)
        → After (event.Answer most) (line_of h w) (note.Heard consumed (told_at (last_of events) consumed)) (line_of after (given_up w)) }
    ensures hung_up { (h after : HostView) (w : WireView) → (h.phase ≢ Down → after ≡ gone_down h) → (h.phase ≡ Down → after ≡ h)
        → After event.HostDrops (line_of h w) note.Done (line_of after (given_up w)) }
    ensures restarted { (h : HostView) (w : WireView) (first : ℕ) → h.next ≤ first
        → After (event.HostRestart first) (line_of h w) note.Done (line_of (restarted h first) (given_up w)) }
    ensures resumed { (h : HostView) (w : WireView) (first count : ℕ) → resumed (line_of h w) first count ≡ line_of (resumed_host h first count) (given_up w) }
{}

/// In turn: a host at the end of a wire hears no answer that ends its link, if their line can be trusted.
pub fn in_turn()
    ensures { (h after : HostView) (w : WireView) (most consumed : ℕ) (events : List HostEvent) → IsLine (line_of h w) → IsTrusted (line_of h w)
        → HearsAll h (take most w.coming) events consumed after → EndsLink (last_of events) → ⊥ }
{
    trust();
    host_events();
}

/// An idle link: a link for a host that is down, which is given up with nothing on it, is one more that has ended, and changes
/// nothing that holds for the line or lets its records be trusted.
pub fn idle_link()
    ensures line { (h : HostView) (w : WireView) → h.phase ≡ Down → IsLine (line_of h w) → IsLine (line_of h (given_up (with_link w))) }
    ensures trusted { (h : HostView) (w : WireView) → h.phase ≡ Down → IsLine (line_of h w) → IsTrusted (line_of h w)
        → StillTrusted (line_of h w) (line_of h (given_up (with_link w))) }
{}

// What the laws of the layers below say of a receipt that goes over a line on which nothing is under way.
pub(crate) fn of_straight()
    ensures { Laws }
{
    escpos_host::laws::counted_marks();
    escpos_command::laws::answers();
    escpos_paper::laws::initialisation();
    escpos_paper::laws::marks();
    escpos_printer::laws::whole_commands();
    escpos_host::laws::one_answer();
    escpos_host::laws::whole_answers();
}
