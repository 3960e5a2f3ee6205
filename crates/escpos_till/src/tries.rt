//! The tries of receipts, and the marks that close them.
//!
//! A printer answers the mark after a receipt once the receipt is on its paper. No two marks that may still be answered have one id, so an
//! answer to the mark that closed a try shows that this receipt is printed, on whatever link the answer comes.

ghost use Rattle.std.specs.Prelude.{◌≡◌, ◌↔◌, ◌<◌, ◌≤◌, ◌-◌, ◌^◌, min, IsTrue};
ghost use Rattle.escpos_host.specs.Counted.{id_of};
ghost use Rattle.escpos_host.specs.Machine.{limit_from};
ghost use Rattle.escpos_till.specs.Tries.{ClosesTry, end_of_tries};

use crate::number::ReceiptNumber;
use escpos_command::MarkId;
use escpos_host::{MARK_COUNT, id_of_count};

/// A try of a receipt.
#[derive(Clone, Copy, Debug, PartialEq, Eq)]
pub struct Try {
    /// The receipt's number.
    pub number: ReceiptNumber,
    /// The number of the mark after the receipt.
    pub closing: u32,
}

/// Whether a mark with this id closed one of these tries of a receipt, with a number from the first on and below the end.
pub(crate) fn closes_try(
    tries: &[Try],
    first: u32,
    end: u32,
    number: ReceiptNumber,
    id: MarkId,
) -> bool
    ensures { IsTrue result ↔ ClosesTry tries.now first end number id }
{
    for one in tries {
        if is_closed(*one, first, end, number, id) {
            return true;
        }
    }
    false
}

// Whether it is a try of this receipt that a mark with this id closed, with a number from the first on and below the end.
fn is_closed(one: Try, first: u32, end: u32, number: ReceiptNumber, id: MarkId) -> bool
    ensures { IsTrue result ↔ ((one.number ≡ number) × (first ≤ one.closing) × (one.closing < end) × (id_of one.closing ≡ id)) }
{
    one.number == number
        && first <= one.closing
        && one.closing < end
        && id_of_count(one.closing) == id
}

/// The number after the closing mark of the last of these tries of a receipt; 0 if there is none.
pub(crate) fn end_of_tries(tries: &[Try], number: ReceiptNumber) -> u32
    ensures { result ≡ min (end_of_tries tries.now number) (2 ^ 32 - 1) }
{
    let mut end: u32 = 0;
    for one in tries {
        if one.number == number {
            end = one.closing.saturating_add(1);
        }
    }
    end
}

/// The numbers of the marks that may be put are below this one, where no mark below another number can be answered any more.
pub(crate) fn limit_from(heard: u32) -> u32
    ensures { result ≡ limit_from heard }
{
    heard.saturating_add(MARK_COUNT)
}
