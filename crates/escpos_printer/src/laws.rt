//! Proof only: the laws of the printer. The contract of each function is the law; when run, it does nothing. A law is
//! proved with this crate, and another crate cites it by calling the function. The calls in the bodies cite laws of the
//! crates below.

ghost use Rattle.std.specs.Prelude.{ℕ, ◌≡◌, ◌≤◌, ◌+◌, ◌⊎◌, List, [], ◌++◌, IsTrue, Option, length};
ghost use Rattle.std.specs.List.{AllByRecursion};
ghost use Rattle.escpos_command.specs.declared.answer.Answer.{Answer};
ghost use Rattle.escpos_command.specs.Answers.{is_answer};
ghost use Rattle.escpos_command.specs.CommandTable.{AreCommands, spell};
ghost use Rattle.escpos_command.specs.declared.command.Command.{Command};
ghost use Rattle.escpos_paper.specs.Page.{SheetIs};
ghost use Rattle.escpos_paper.specs.declared.item.Item.{Item};
ghost use Rattle.escpos_printer.specs.Feeds.{Feeds, PrinterView, Took};
ghost use Rattle.escpos_printer.specs.ReadyFor.{IsReadyFor};
ghost use Rattle.escpos_printer.specs.LinkInParts.{in_all, under};
ghost use Rattle.escpos_printer.specs.Serves.{LinkView, Serves, link};
ghost use Rattle.escpos_printer.specs.Blocks.{PutInParts, blocks, others, with_one_block};
ghost use Rattle.escpos_printer.specs.Replies.{after_change, replies};
ghost use Rattle.escpos_printer.specs.declared.condition.Condition.{Condition};
ghost use Rattle.escpos_printer.specs.declared.printer.FeedStop.{FeedStop};
ghost use Rattle.escpos_printer.specs.declared.printer.FeedStop.TheVariants as stop;
ghost use Rattle.escpos_printer.specs.declared.serve.LinkEnd.TheVariants.{TooLong};
ghost use Rattle.escpos_printer.specs.declared.serve.Served.{Served};

use escpos_command::laws;

/// Replies: a printer answers commands, whatever its sensors say, with answers that a host knows: a status byte has the
/// bits of one, a mark the id that it was sent with, and a block four bytes of one.
pub fn replies()
    ensures { (condition : Condition) (cs : List Command) → AreCommands cs → AllByRecursion (λ a. IsTrue (is_answer a)) (replies condition cs) }
{}

/// One block: answers in which the newest block stands in the place of the first keep all other answers, in order; they have at
/// most one block; and nothing else of answers that have at most one changes. It doesn't matter whether that is done once or as
/// often as answers come.
pub fn one_block()
    ensures others { (answers : List Answer) → others (with_one_block answers) ≡ others answers }
    ensures few { (answers : List Answer) → length (blocks (with_one_block answers)) ≤ 1 }
    ensures unchanged { (answers : List Answer) → length (blocks answers) ≤ 1 → with_one_block answers ≡ answers }
    ensures once_more { (answers more : List Answer) → with_one_block (with_one_block answers ++ more) ≡ with_one_block (answers ++ more) }
    ensures known { (answers : List Answer) → AllByRecursion (λ a. IsTrue (is_answer a)) answers
        → AllByRecursion (λ a. IsTrue (is_answer a)) (with_one_block answers) }
{}

/// Parts: answers that went out in parts, one block in each, have all other answers, in order.
pub fn answers_in_parts()
    ensures others { (all out : List Answer) → PutInParts all out → others out ≡ others all }
    ensures known { (all out : List Answer) → PutInParts all out → AllByRecursion (λ a. IsTrue (is_answer a)) all
        → AllByRecursion (λ a. IsTrue (is_answer a)) out }
{}

/// Change: what waits once the sensors say something new are the same other answers, and answers that a host knows.
pub fn change()
    ensures others { (automatic : ℕ) (old new : Condition) (waiting : List Answer) → others (after_change automatic old new waiting) ≡ others waiting }
    ensures known { (automatic : ℕ) (old new : Condition) (waiting : List Answer) → AllByRecursion (λ a. IsTrue (is_answer a)) waiting
        → AllByRecursion (λ a. IsTrue (is_answer a)) (after_change automatic old new waiting) }
{}

/// Whole commands: a printer that is fed commands that it can take now takes all of them, unless an allocation fails.
pub fn whole_commands()
    ensures { (p q : PrinterView) (cs : List Command) (k : ℕ) (why : FeedStop) → IsReadyFor p cs → Feeds p (spell cs) k why q
        → (why ≡ stop.Memory) ⊎ ((why ≡ stop.All) × (k ≡ length (spell cs)) × Took p (spell cs) cs q × (q.half ≡ [])) }
{
    laws::joined_readings();
    laws::one_reading();
}

/// Parts of a link: a link that was served up to its limit, and then further, was served as one whose limit is the sum.
pub fn parts()
    ensures { (p q t : PrinterView) (came left rest before between after : Option (List ℕ)) (most further : ℕ) (first more : Served) →
        Serves p (link came left before between) most first q → first.end ≡ TooLong → Serves q (link left rest between after) further more t →
        Serves p (link came rest before after) (most + further) (in_all first more) t }
{
    laws::joined_readings();
}

/// Paper above: a link is served in the same way whatever stands on the paper above, if the printer's own sheet is one that
/// commands leave.
pub fn paper_above()
    ensures { (gone : List Item) (p q : PrinterView) (l : LinkView) (most : ℕ) (served : Served) (width : ℕ) (kept : List Item) (cs : List Command) →
        SheetIs width p.sheet kept cs → Serves p l most served q → Serves (under gone p) l most served (under gone q) }
{
    escpos_paper::laws::paper_above();
}
