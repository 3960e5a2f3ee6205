//! Proof only: the laws of the host machine. The contract of each function is the law; when run, it does nothing. A law is
//! proved with this crate, and another crate cites it by calling the function. The calls in the bodies cite laws of
//! answers.

ghost use Rattle.std.specs.Prelude.{◌≡◌, ◌≢◌, ◌⊎◌, ◌+◌, ◌<◌, ◌≤◌, ◌↔◌, ℕ, List, [], ◌∷◌, ◌++◌, length, map, take, IsTrue};
ghost use Rattle.escpos_command.specs.declared.command.Command.{Command};
ghost use Rattle.escpos_command.specs.declared.command.Command.TheVariants as kind;
ghost use Rattle.escpos_command.specs.declared.answer.Answer.{Answer};
ghost use Rattle.escpos_command.specs.Answers.{AreWholeAnswers, answer_bytes, is_answer};
ghost use Rattle.escpos_command.specs.CommandTable.{AreCommands, spell};
ghost use Rattle.escpos_command.specs.Digits.{mark_count, mark_of};
ghost use Rattle.escpos_command.specs.Parameters.{is_mark_id, is_status_kind};
ghost use Rattle.escpos_host.specs.Counted.{id_of};
ghost use Rattle.escpos_host.specs.declared.host.HostEvent.{HostEvent};
ghost use Rattle.escpos_host.specs.Earlier.{shifted, with_earlier};
ghost use Rattle.escpos_host.specs.Heard.{EndsLink, GoesOn, HearsAll, IsHeard, IsOff, Turns, last_of};
ghost use Rattle.escpos_host.specs.Machine.{HasMark, HostView, InFlight, IsOpening, IsSound, Down, Open, ask_reports, asked, gone_down, handed_out, linked, linked_reporting, next_mark, nudged, reports_asked, submitted, taken_out};
ghost use Rattle.escpos_host.specs.Says.{HasNoRequest, Talks};
ghost use Rattle.escpos_real_time.specs.RealTime.{HoldsRealTime};
ghost use Rattle.escpos_receipt.specs.Whole.{Whole};

/// Marks that are counted on: an id comes again after 1,679,616 marks, and not before.
pub fn counted_marks()
    ensures first_round { (n : ℕ) → n < mark_count → id_of n ≡ mark_of n }
    ensures ids { (n : ℕ) → IsTrue (is_mark_id (id_of n)) }
    ensures apart { (m n : ℕ) → m ≤ n → n < m + mark_count → id_of m ≡ id_of n → m ≡ n }
{
    escpos_command::laws::mark_numbers();
}

/// What a host says: suppose that it has said these commands on its link, of whose bytes some were taken out and the others
/// are still to be. This holds again after each call that leaves the link up, with what the call puts out added, and also
/// after what the host hears. What it has said is: first opening marks, perhaps after a request for automatic status; then, once one of
/// them is answered, requests and receipts, each receipt with Init before it and its closing mark after it; and last the receipts that are in flight. And no
/// real-time command stands anywhere in it, but its own requests.
pub fn says()
    ensures linked { (h : HostView) → HasMark h → Talks (linked h) [] (next_mark h ∷ []) }
    ensures linked_reporting { (h : HostView) → HasMark h → Talks (linked_reporting h) [] (ask_reports ∷ next_mark h ∷ []) }
    ensures nudged { (h : HostView) (out : List ℕ) (said : List Command) → IsOpening h.phase → HasMark h → Talks h out said
        → Talks (nudged h) out (said ++ next_mark h ∷ []) }
    ensures asked { (h : HostView) (out : List ℕ) (said : List Command) (n : ℕ) → h.phase ≡ Open [] → IsTrue (is_status_kind n) → Talks h out said
        → Talks (asked h n) out (said ++ kind.Status n ∷ []) }
    ensures asked_reports { (h : HostView) (out : List ℕ) (said : List Command) → h.phase ≡ Open [] → Talks h out said
        → Talks (reports_asked h) out (said ++ ask_reports ∷ []) }
    ensures submitted { (h : HostView) (out : List ℕ) (said : List Command) (flight : List InFlight) (receipt : List Command) → h.phase ≡ Open flight
        → HasMark h → Whole receipt → Talks h out said → Talks (submitted h flight receipt) out (said ++ (kind.Init ∷ (receipt ++ next_mark h ∷ []))) }
    ensures taken { (h : HostView) (out : List ℕ) (said : List Command) (count : ℕ) → Talks h out said → Talks (taken_out h count) (out ++ take count h.out) said }
    ensures heard { (h after : HostView) (out : List ℕ) (said : List Command) (bytes : List ℕ) (consumed : ℕ) (event : HostEvent) → after.phase ≢ Down
        → IsHeard h bytes consumed event after → Talks h out said → Talks after out said }
    ensures handed_out { (h : HostView) (out : List ℕ) (said : List Command) → Talks h out said → Talks (handed_out h) out said }
    ensures no_real_time { (h : HostView) (out : List ℕ) (said before middle following : List Command) → Talks h out said → AreCommands said
        → said ≡ before ++ (middle ++ following) → HasNoRequest middle → HoldsRealTime (spell middle) → ⊥ }
{
    counted_marks();
}

/// Whole answers: suppose that a host's half answer, a piece that it hears and the bytes after that are whole answers
/// together. Then it hears the whole piece, and what is left of it and the bytes after it are whole answers; or an event
/// ends its link.
pub fn whole_answers()
    ensures { (h after : HostView) (bytes more : List ℕ) (events : List HostEvent) (consumed : ℕ) → h.phase ≢ Down → AreWholeAnswers (h.half ++ (bytes ++ more))
        → HearsAll h bytes events consumed after → IsOff events after ⊎ GoesOn bytes more events consumed after }
{
    escpos_command::laws::answers();
}

/// One answer: a host with no half answer that hears the bytes of an answer does what that answer does, and nothing else.
pub fn one_answer()
    ensures { (h after : HostView) (a : Answer) (events : List HostEvent) (consumed : ℕ) → h.phase ≢ Down → h.half ≡ [] → IsTrue (is_answer a)
        → HearsAll h (answer_bytes a) events consumed after → Turns h a (last_of events) after }
{
    escpos_command::laws::answers();
}

/// One event: if an event doesn't end a host's link, the host still has the link, and the event took bytes of the piece.
pub fn one_event()
    ensures { (h after : HostView) (bytes : List ℕ) (count : ℕ) (event : HostEvent) → h.phase ≢ Down → (EndsLink event → ⊥) → IsHeard h bytes count event after
        → (count ≤ length bytes) × (after.phase ≢ Down) × (event ≢ HostEvent.None → 0 < count) }
{}

/// Earlier records: a host with other records before its own hears the same and does the same, and the numbers of the records
/// that it makes are counted on from those. What holds for every host holds for it as well.
pub fn earlier_records()
    ensures heard { (earlier : List (List Command)) (h after : HostView) (bytes : List ℕ) (events : List HostEvent) (consumed : ℕ) → HearsAll h bytes events consumed after
        → HearsAll (with_earlier earlier h) bytes (map (shifted (length earlier)) events) consumed (with_earlier earlier after) }
    ensures last { (count : ℕ) (events : List HostEvent) → last_of (map (shifted count) events) ≡ shifted count (last_of events) }
    ensures ends { (count : ℕ) (e : HostEvent) → EndsLink e ↔ EndsLink (shifted count e) }
    ensures linked { (earlier : List (List Command)) (h : HostView) → linked (with_earlier earlier h) ≡ with_earlier earlier (linked h) }
    ensures linked_reporting { (earlier : List (List Command)) (h : HostView) → linked_reporting (with_earlier earlier h) ≡ with_earlier earlier (linked_reporting h) }
    ensures nudged { (earlier : List (List Command)) (h : HostView) → nudged (with_earlier earlier h) ≡ with_earlier earlier (nudged h) }
    ensures asked { (earlier : List (List Command)) (h : HostView) (n : ℕ) → asked (with_earlier earlier h) n ≡ with_earlier earlier (asked h n) }
    ensures asked_reports { (earlier : List (List Command)) (h : HostView) → reports_asked (with_earlier earlier h) ≡ with_earlier earlier (reports_asked h) }
    ensures submitted { (earlier : List (List Command)) (h : HostView) (flight : List InFlight) (receipt : List Command)
        → submitted (with_earlier earlier h) flight receipt ≡ with_earlier earlier (submitted h flight receipt) }
    ensures taken { (earlier : List (List Command)) (h : HostView) (count : ℕ) → taken_out (with_earlier earlier h) count ≡ with_earlier earlier (taken_out h count) }
    ensures down { (earlier : List (List Command)) (h : HostView) → gone_down (with_earlier earlier h) ≡ with_earlier earlier (gone_down h) }
    ensures handed_out { (earlier : List (List Command)) (h : HostView) → handed_out (with_earlier earlier h) ≡ with_earlier earlier (handed_out h) }
    ensures sound { (earlier : List (List Command)) (h : HostView) → IsSound h → IsSound (with_earlier earlier h) }
{}
