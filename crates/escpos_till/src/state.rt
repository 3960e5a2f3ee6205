//! Where a receipt of a ledger stands.
//!
//! `specs/States.antt` says which is the first that waits.

ghost use Rattle.std.specs.Prelude.{◌≡◌, ℕ, ◌+◌, ◌^◌, ◌<◌, ◌≤◌, length, slice_get, Some};
ghost use Rattle.escpos_till.specs.declared.state.ReceiptState.TheVariants as state_kind;
ghost use Rattle.escpos_till.specs.States.{IsFirstBesides, IsFirstWaiting, IsNextWaiting, IsEnded, tries_in};

/// Where a receipt of a ledger stands.
#[derive(Clone, Copy, Debug, PartialEq, Eq)]
pub enum ReceiptState {
    /// It waits. It was sent this many times, and isn't known to be printed.
    Waiting { tried: usize },
    /// It is printed: it is the record at this place, counted from 0.
    Recorded { place: usize },
    /// It was cancelled while it waited. It was sent this many times before: if that isn't 0, it may be on the paper.
    Cancelled { tried: usize },
}

// The first of these states that waits, of which those before this place wait no more; past the end if none does.
pub(crate) fn first_waiting_from(states: &[ReceiptState], from: usize) -> usize
    requires within { from ≤ length states.now }
    requires passed { (k : ℕ) (s : _) → k < from → slice_get states.now k ≡ Some s → IsEnded s }
    ensures { IsFirstWaiting states.now result }
{
    next_waiting_from(states, from)
}

// The first of these states from this place on that waits; past the end if none does.
pub(crate) fn next_waiting_from(states: &[ReceiptState], from: usize) -> usize
    requires within { from ≤ length states.now }
    ensures { IsNextWaiting states.now from result }
{
    let mut at = from;
    while let Some(ReceiptState::Recorded { .. } | ReceiptState::Cancelled { .. }) = states.get(
        at,
    ) {
        at += 1;
    }
    at
}

// The first of these states that waits but for that at `skipped`, where the first that waits is at `first`; past the end if none does.
pub(crate) fn first_besides(states: &[ReceiptState], first: usize, skipped: usize) -> usize
    requires { IsFirstWaiting states.now first }
    ensures { IsFirstBesides states.now skipped result }
{
    if skipped == first && skipped < states.len() {
        return next_waiting_from(states, skipped + 1);
    }
    first
}

// The state of a receipt that waits, when it is tried once more.
pub(crate) fn one_try_more(state: ReceiptState) -> ReceiptState
    requires { (tried : ℕ) × (state ≡ state_kind.Waiting tried) × (tried < 2 ^ 63) }
    ensures { (tried : ℕ) → state ≡ state_kind.Waiting tried → result ≡ state_kind.Waiting (tried + 1) }
{
    match state {
        ReceiptState::Waiting { tried } => ReceiptState::Waiting { tried: tried + 1 },
        ReceiptState::Recorded { .. } | ReceiptState::Cancelled { .. } => unreachable!(),
    }
}

// The state of a receipt that waits, once it is cancelled.
pub(crate) fn once_cancelled(state: ReceiptState) -> ReceiptState
    requires { (tried : ℕ) × (state ≡ state_kind.Waiting tried) }
    ensures { (tried : ℕ) → state ≡ state_kind.Waiting tried → result ≡ state_kind.Cancelled tried }
{
    match state {
        ReceiptState::Waiting { tried } => ReceiptState::Cancelled { tried },
        ReceiptState::Recorded { .. } | ReceiptState::Cancelled { .. } => unreachable!(),
    }
}

// How often a receipt in this state was tried, if it waits.
pub(crate) fn tries_in(state: ReceiptState) -> Option<usize>
    ensures { result ≡ tries_in state }
{
    match state {
        ReceiptState::Waiting { tried } => Some(tried),
        ReceiptState::Recorded { .. } | ReceiptState::Cancelled { .. } => None,
    }
}
