//! The answers that wait in a printer: in order, at most 16 of them, and a block of automatic status besides.

ghost use Rattle.std.specs.Prelude.{◌≡◌, ◌≤◌, ◌+◌, ◌==◌, [], ◌∷◌, ◌++◌, false, length, not, MatchOption};
ghost use Rattle.escpos_printer.specs.Blocks.{IsBlockAt, MayWait, blocks, is_other, most_waiting, others, with_one_block};
ghost use Rattle.escpos_printer.specs.Replies.{after_change, reply};

use crate::condition::Condition;
use circular_buffer::HeapCircularBuffer;
use escpos_command::{Answer, Command, Reporting};

/// The most answers that wait in a printer, besides a block of automatic status.
pub const MOST_WAITING: usize = 16;

const _: () = prove!(MOST_WAITING == 16);

// Puts the answer to a command, if there is one, among those that wait.
pub(crate) fn put_reply(
    waiting: &mut HeapCircularBuffer<Answer>,
    condition: Condition,
    command: &Command,
)
    requires may { MayWait waiting.old.items }
    requires room { length (others (waiting.old.items ++ reply condition command.now)) ≤ most_waiting }
    requires capacity { waiting.old.capacity ≡ most_waiting + 1 }
    ensures items { waiting.new.items ≡ with_one_block (waiting.old.items ++ reply condition command.now) }
    ensures capacity { waiting.new.capacity ≡ waiting.old.capacity }
{
    if let Some(answer) = condition.reply(command) {
        put_answer(waiting, answer);
    }
}

// Puts the block of a new condition among the answers that wait, if automatic status is on and the sensors said something else
// before.
pub(crate) fn put_change(
    waiting: &mut HeapCircularBuffer<Answer>,
    reporting: Reporting,
    old: Condition,
    new: Condition,
)
    requires may { MayWait waiting.old.items }
    requires capacity { waiting.old.capacity ≡ most_waiting + 1 }
    ensures items { waiting.new.items ≡ after_change reporting old new waiting.old.items }
    ensures capacity { waiting.new.capacity ≡ waiting.old.capacity }
{
    if reporting.is_on() && old.is_change(new) {
        put_answer(waiting, Answer::Condition(new.automatic_status()));
    }
}

// Puts an answer among those that wait: a block in the place of one that waits, and otherwise after all answers.
fn put_answer(waiting: &mut HeapCircularBuffer<Answer>, answer: Answer)
    requires may { MayWait waiting.old.items }
    requires room { length (others (waiting.old.items ++ answer ∷ [])) ≤ most_waiting }
    requires capacity { waiting.old.capacity ≡ most_waiting + 1 }
    ensures items { waiting.new.items ≡ with_one_block (waiting.old.items ++ answer ∷ []) }
    ensures capacity { waiting.new.capacity ≡ waiting.old.capacity }
{
    match replaced_place(waiting, &answer) {
        Some(place) => *waiting.get_mut(place).unwrap() = answer,
        None => {
            waiting.push_back(answer);
        }
    }
}

// The place of the block that this answer replaces. If there is none, no block waits or the answer is none.
fn replaced_place(waiting: &HeapCircularBuffer<Answer>, answer: &Answer) -> Option<usize>
    requires { MayWait waiting.now.items }
    ensures { MatchOption result
        (length (blocks waiting.now.items) + length (blocks (answer.now ∷ [])) ≤ 1)
        (λ place. IsBlockAt waiting.now.items place × (is_other answer.now ≡ false)) }
{
    if is_block(answer) {
        block_place(waiting)
    } else {
        None
    }
}

// The place of the first block among the answers that wait.
fn block_place(waiting: &HeapCircularBuffer<Answer>) -> Option<usize>
    ensures { MatchOption result (blocks waiting.now.items ≡ []) (λ place. IsBlockAt waiting.now.items place) }
{
    for place in 0..waiting.len() {
        if is_block(waiting.get(place).unwrap()) {
            return Some(place);
        }
    }
    None
}

// Whether an answer is a block.
fn is_block(answer: &Answer) -> bool
    ensures { result ≡ not (is_other answer.now) }
{
    matches!(answer, Answer::Condition(_))
}

// Whether 16 answers wait, besides a block.
pub(crate) fn is_full(waiting: &HeapCircularBuffer<Answer>) -> bool
    requires { MayWait waiting.now.items }
    ensures { result ≡ (length (others waiting.now.items) == most_waiting) }
{
    if waiting.len() < MOST_WAITING {
        return false;
    }
    match block_place(waiting) {
        Some(_) => waiting.len() == MOST_WAITING + 1,
        None => waiting.len() == MOST_WAITING,
    }
}
