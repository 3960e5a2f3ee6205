//! The ids of marks that are counted on: they come round after 1,679,616 marks.

ghost use Rattle.std.specs.Prelude.{◌≡◌, ◌≢◌, ◌+◌, ◌<◌, ◌≤◌, ◌^◌, ℕ, MatchOption};
ghost use Rattle.escpos_command.specs.Digits.{mark_count};
ghost use Rattle.escpos_host.specs.Counted.{id_of};

use escpos_command::MarkId;
use std::marker::Model;

/// How many ids of mark numbers there are, 1,679,616.
pub const MARK_COUNT: u32 = 36 * 36 * 36 * 36;

const _: () = prove!(MARK_COUNT == 1_679_616);

/// The id of the mark that has this number, in a count that goes on. It comes again after 1,679,616 numbers. Allocates nothing.
pub fn id_of_count(number: u32) -> MarkId
    ensures { result ≡ id_of number }
{
    MarkId::of_number(number % MARK_COUNT).unwrap()
}

/// The first number from `from` on that has this id; `None` where a byte isn't a base-36 digit 0-9, A-Z, or the number is more than
/// 4,294,967,295.
pub(crate) fn number_from(id: MarkId, from: u32) -> Option<u32>
    ensures { MatchOption result
        ((n : ℕ) → from ≤ n → n < from + mark_count → n < 2 ^ 32 → id_of n ≢ id)
        (λ n. (from ≤ n) × (n < from + mark_count) × (id_of n ≡ id)) }
{
    // Proof only: each mark number has an id of its own.
    escpos_command::laws::mark_numbers();
    let number = id.number()?;
    let start = from % MARK_COUNT;
    let ahead = if start <= number {
        number - start
    } else {
        number + MARK_COUNT - start
    };
    from.checked_add(ahead)
}
