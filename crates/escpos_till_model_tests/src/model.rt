//! A till in the world where everything may fail: a whole delivery, one happening after another, a crash between each two of them, a store
//! that fails, and links that end.

use crate::support::{
    DELIVERY, Plain, TAKEN, all_happen, happening, happens, number, stand, till_at_last, was_told,
};
use escpos_host::SendFault;
use escpos_io::MemoryOut;
use escpos_paper::write_items;
use escpos_till::{ReceiptState, StoreFault, TillNote, TillRefusal};
use escpos_till_model::{Happening, NotPossible, Till};
use std::alloc::Global;
use std::process::Abort;

const RECORDED: [ReceiptState; 1] = [ReceiptState::Recorded { place: 0 }];

// S stands once on the paper, or twice.
const ONCE: &[u8] = b"row left Hi\nfeed 1\n";

const TWICE: &[u8] = b"row left Hi\nfeed 1\nrow left Hi\nfeed 1\n";

fn prints(rt: &impl Abort, till: &Till, text: &[u8]) {
    let mut room = [0; 64];
    let mut output = MemoryOut::new(&mut room);
    assert!(rt; write_items(till.paper(), &mut output).is_ok());
    assert!(rt; output.written() == text);
}

// S is taken and delivered.
fn whole(at: usize) -> Plain {
    match TAKEN.get(at) {
        Some(plain) => *plain,
        None => match DELIVERY.get(at.saturating_sub(4)) {
            Some(plain) => *plain,
            None => Plain::Crash,
        },
    }
}

const WHOLE: usize = 22;

fn events_of(rt: &impl Abort, alloc: Global) -> Vec<Happening> {
    let mut events = Vec::new(alloc);
    for at in 0..WHOLE {
        let _ = events.push(happening(rt, alloc, whole(at)));
    }
    events
}

fn run(till: &mut Till, events: Vec<Happening>) {
    till.run(events);
}

// What is checked of a till that was just made.
#[derive(Clone, Copy)]
enum Check {
    DeliveredAsAList,
    CrashesAfter(usize),
    StoreFailsWith,
    StoreFailsWithout,
    NoLink,
    LinkEnds,
    LinkBreaks,
    AnsweredLate,
    GoesFurther,
    FailsFurther,
    OneByOne,
    EndsFurther,
    Cancelled,
    Keyed,
    NotPossible,
}

fn check_till(rt: &impl Abort, alloc: Global, till: &mut Till, check: Check) {
    match check {
        Check::DeliveredAsAList => is_delivered_as_a_list(rt, alloc, till),
        Check::CrashesAfter(count) => crashes_after(rt, alloc, till, count),
        Check::StoreFailsWith => store_fails_with(rt, alloc, till),
        Check::StoreFailsWithout => store_fails_without(rt, alloc, till),
        Check::NoLink => has_no_link(rt, alloc, till),
        Check::LinkEnds => link_ends(rt, alloc, till),
        Check::LinkBreaks => link_breaks(rt, alloc, till),
        Check::AnsweredLate => is_answered_late(rt, alloc, till),
        Check::GoesFurther => both_go(rt, alloc, till),
        Check::FailsFurther => store_has_both(rt, alloc, till),
        Check::OneByOne => keeps_one_by_one(rt, alloc, till),
        Check::EndsFurther => second_waits(rt, alloc, till),
        Check::Cancelled => is_cancelled(rt, alloc, till),
        Check::Keyed => key_is_known(rt, alloc, till),
        Check::NotPossible => refuses_happenings(rt, alloc, till),
    }
}

// No other function here owns a till.
fn on_till(rt: &impl Abort, alloc: Global, check: Check) {
    let mut till = till_at_last(rt, alloc);
    check_till(rt, alloc, &mut till, check);
}

fn is_delivered_as_a_list(rt: &impl Abort, alloc: Global, till: &mut Till) {
    run(till, events_of(rt, alloc));
    stand(rt, till, &RECORDED);
    prints(rt, till, ONCE);
    assert!(rt;
        till.told()
            == [
                TillNote::Queued(number(rt, 1)),
                TillNote::Recorded(number(rt, 1))
            ]
            .as_slice()
    );
    assert!(rt; till.entries().len() == 3);
}

#[test]
fn delivered_as_a_list(rt: HostRuntime) {
    on_till(&rt, rt.alloc(), Check::DeliveredAsAList);
}

// Whether the first receipt is recorded; None if there is none.
fn is_recorded(till: &Till) -> Option<bool> {
    match till.machine() {
        Some(machine) => match machine.states() {
            [] => None,
            states => Some(states == RECORDED.as_slice()),
        },
        None => None,
    }
}

// The till is switched off and on, and so is the printer; then it goes on with what isn't done.
fn goes_on(rt: &impl Abort, alloc: Global, till: &mut Till) {
    all_happen(
        rt,
        alloc,
        till,
        &[Plain::Crash, Plain::Start, Plain::Restart],
    );
    if is_recorded(till).is_none() {
        all_happen(rt, alloc, till, &TAKEN[1..]);
    }
    if is_recorded(till) == Some(false) {
        all_happen(rt, alloc, till, &DELIVERY);
        was_told(rt, till, TillNote::Recorded(number(rt, 1)));
    }
    assert!(rt;
        happens(rt, alloc, till, Plain::Deliver)
            == Err(NotPossible::Machine(TillRefusal::NothingWaits))
    );
    stand(rt, till, &RECORDED);
}

// The paper after a crash that came after so many happenings: S is printed again where the printer had it, and that wasn't kept.
fn paper_of(count: usize) -> &'static [u8] {
    match count {
        15..=19 => TWICE,
        _ => ONCE,
    }
}

fn crashes_after(rt: &impl Abort, alloc: Global, till: &mut Till, count: usize) {
    for at in 0..count {
        all_happen(rt, alloc, till, &[whole(at)]);
    }
    goes_on(rt, alloc, till);
    prints(rt, till, paper_of(count));
}

#[test]
fn crashes(rt: HostRuntime) {
    for count in 0..=WHOLE {
        on_till(&rt, rt.alloc(), Check::CrashesAfter(count));
    }
}

// So many happenings come, and then these. The owner is told this last.
fn ends_so(
    rt: &impl Abort,
    alloc: Global,
    till: &mut Till,
    count: usize,
    others: &[Plain],
    note: TillNote,
) {
    for at in 0..count {
        all_happen(rt, alloc, till, &[whole(at)]);
    }
    all_happen(rt, alloc, till, others);
    was_told(rt, till, note);
    goes_on(rt, alloc, till);
}

fn store_fails_with(rt: &impl Abort, alloc: Global, till: &mut Till) {
    ends_so(
        rt,
        alloc,
        till,
        19,
        &[Plain::FailWith, Plain::HangUp, Plain::Tell],
        TillNote::NotKept(StoreFault::Failed),
    );
    prints(rt, till, ONCE);
}

fn store_fails_without(rt: &impl Abort, alloc: Global, till: &mut Till) {
    ends_so(
        rt,
        alloc,
        till,
        19,
        &[Plain::FailWithout, Plain::HangUp, Plain::Tell],
        TillNote::NotKept(StoreFault::Failed),
    );
    prints(rt, till, TWICE);
}

// The store fails as the receipt is to be recorded, with the entry or without it.
#[test]
fn store_fails(rt: HostRuntime) {
    on_till(&rt, rt.alloc(), Check::StoreFailsWith);
    on_till(&rt, rt.alloc(), Check::StoreFailsWithout);
}

fn has_no_link(rt: &impl Abort, alloc: Global, till: &mut Till) {
    ends_so(
        rt,
        alloc,
        till,
        5,
        &[Plain::Idle, Plain::Miss, Plain::Tell],
        TillNote::NoLink(number(rt, 1)),
    );
    prints(rt, till, ONCE);
}

fn link_ends(rt: &impl Abort, alloc: Global, till: &mut Till) {
    let ended = TillNote::Waiting {
        number: number(rt, 1),
        why: SendFault::Ended,
    };
    ends_so(
        rt,
        alloc,
        till,
        15,
        &[Plain::End, Plain::HangUp, Plain::Tell],
        ended,
    );
    prints(rt, till, TWICE);
}

fn link_breaks(rt: &impl Abort, alloc: Global, till: &mut Till) {
    let broken = TillNote::Waiting {
        number: number(rt, 1),
        why: SendFault::WriteFault,
    };
    ends_so(
        rt,
        alloc,
        till,
        13,
        &[
            Plain::Break,
            Plain::HangUp,
            Plain::Tell,
            Plain::Feed,
            Plain::Leave,
        ],
        broken,
    );
    prints(rt, till, ONCE);
}

// There is no link; the link ends before the answer; it ends as the receipt is put.
#[test]
fn links_end(rt: HostRuntime) {
    on_till(&rt, rt.alloc(), Check::NoLink);
    on_till(&rt, rt.alloc(), Check::LinkEnds);
    on_till(&rt, rt.alloc(), Check::LinkBreaks);
}

fn is_answered_late(rt: &impl Abort, alloc: Global, till: &mut Till) {
    for at in 0..14 {
        all_happen(rt, alloc, till, &[whole(at)]);
    }
    all_happen(rt, alloc, till, &[Plain::End, Plain::HangUp, Plain::Tell]);
    stand(rt, till, &[ReceiptState::Waiting { tried: 1 }]);
    prints(rt, till, b"");
    all_happen(rt, alloc, till, &DELIVERY[..4]);
    all_happen(
        rt,
        alloc,
        till,
        &[
            Plain::Feed,
            Plain::Leave,
            Plain::HandOver,
            Plain::Hear,
            Plain::HandOver,
            Plain::Hear,
        ],
    );
    all_happen(rt, alloc, till, &[Plain::Keep, Plain::HangUp, Plain::Tell]);
    was_told(rt, till, TillNote::Recorded(number(rt, 1)));
    goes_on(rt, alloc, till);
    prints(rt, till, ONCE);
}

// The link ends with S on it, and the printer prints S after that. Its answer comes on the next link, before that one's opening mark
// is answered: S is recorded, and isn't sent again.
#[test]
fn answered_late(rt: HostRuntime) {
    on_till(&rt, rt.alloc(), Check::AnsweredLate);
}

// What happens over a link once it is to be kept that a receipt is recorded and the next one is tried.
const FURTHER: [Plain; 12] = [
    Plain::Keep,
    Plain::Keep,
    Plain::News,
    Plain::Put,
    Plain::Feed,
    Plain::HandOver,
    Plain::Hear,
    Plain::HandOver,
    Plain::Hear,
    Plain::Keep,
    Plain::HangUp,
    Plain::Tell,
];

// Two receipts are taken, and the first is printed: it is to be kept that it is recorded, and that the second one is tried.
fn first_is_printed(rt: &impl Abort, alloc: Global, till: &mut Till) {
    all_happen(rt, alloc, till, &TAKEN);
    all_happen(rt, alloc, till, &TAKEN[1..]);
    all_happen(rt, alloc, till, &[Plain::DeliverAll]);
    all_happen(rt, alloc, till, &DELIVERY[1..15]);
    prints(rt, till, ONCE);
}

fn both_go(rt: &impl Abort, alloc: Global, till: &mut Till) {
    let (first, second) = (number(rt, 1), number(rt, 2));
    first_is_printed(rt, alloc, till);
    all_happen(rt, alloc, till, &FURTHER);
    prints(rt, till, TWICE);
    stand(
        rt,
        till,
        &[
            ReceiptState::Recorded { place: 0 },
            ReceiptState::Recorded { place: 1 },
        ],
    );
    // that the first one is recorded is news, and no note of what came of a call
    assert!(rt;
        till.told()
            == [
                TillNote::Queued(first),
                TillNote::Queued(second),
                TillNote::Recorded(second),
            ]
            .as_slice()
    );
    assert!(rt; till.entries().len() == 6);
}

// Both go over one link, and the second one isn't asked for an opening mark.
#[test]
fn goes_further(rt: HostRuntime) {
    on_till(&rt, rt.alloc(), Check::GoesFurther);
}

fn store_has_both(rt: &impl Abort, alloc: Global, till: &mut Till) {
    let second = number(rt, 2);
    first_is_printed(rt, alloc, till);
    all_happen(
        rt,
        alloc,
        till,
        &[
            Plain::Keep,
            Plain::FailWith,
            Plain::HangUp,
            Plain::Tell,
            Plain::Crash,
            Plain::Start,
            Plain::Restart,
        ],
    );
    stand(
        rt,
        till,
        &[
            ReceiptState::Recorded { place: 0 },
            ReceiptState::Waiting { tried: 1 },
        ],
    );
    all_happen(rt, alloc, till, &DELIVERY);
    was_told(rt, till, TillNote::Recorded(second));
    prints(rt, till, TWICE);
}

// The store fails, and has both entries: the second receipt was tried, and nothing of it was sent.
#[test]
fn fails_further(rt: HostRuntime) {
    on_till(&rt, rt.alloc(), Check::FailsFurther);
}

fn keeps_one_by_one(rt: &impl Abort, alloc: Global, till: &mut Till) {
    first_is_printed(rt, alloc, till);
    let entries = till.entries().len();
    assert!(rt; happens(rt, alloc, till, Plain::FailWithBoth) == Err(NotPossible::OneByOne));
    assert!(rt; till.entries().len() == entries);
}

// A `Till` keeps one entry after the other.
#[test]
fn one_by_one(rt: HostRuntime) {
    on_till(&rt, rt.alloc(), Check::OneByOne);
}

fn second_waits(rt: &impl Abort, alloc: Global, till: &mut Till) {
    let second = number(rt, 2);
    first_is_printed(rt, alloc, till);
    all_happen(rt, alloc, till, &FURTHER[..4]);
    all_happen(rt, alloc, till, &[Plain::End, Plain::HangUp, Plain::Tell]);
    stand(
        rt,
        till,
        &[
            ReceiptState::Recorded { place: 0 },
            ReceiptState::Waiting { tried: 1 },
        ],
    );
    was_told(
        rt,
        till,
        TillNote::Waiting {
            number: second,
            why: SendFault::Ended,
        },
    );
}

// The link ends while the second receipt is on it: the first one stays recorded, and the second one waits.
#[test]
fn ends_further(rt: HostRuntime) {
    on_till(&rt, rt.alloc(), Check::EndsFurther);
}

fn is_cancelled(rt: &impl Abort, alloc: Global, till: &mut Till) {
    let first = number(rt, 1);
    for at in 0..15 {
        all_happen(rt, alloc, till, &[whole(at)]);
    }
    all_happen(rt, alloc, till, &[Plain::End, Plain::HangUp, Plain::Tell]);
    all_happen(rt, alloc, till, &[Plain::Cancel, Plain::Keep, Plain::Tell]);
    let note = TillNote::Cancelled {
        number: first,
        tried: 1,
    };
    was_told(rt, till, note);
    is_refused(
        rt,
        alloc,
        till,
        Plain::Deliver,
        NotPossible::Machine(TillRefusal::NothingWaits),
    );
    is_refused(
        rt,
        alloc,
        till,
        Plain::Cancel,
        NotPossible::Machine(TillRefusal::Cancelled(first)),
    );
    stand(rt, till, &[ReceiptState::Cancelled { tried: 1 }]);
    prints(rt, till, ONCE);
}

// S is tried and cancelled: it isn't sent again, and the answer that comes then counts for nothing.
#[test]
fn cancelled(rt: HostRuntime) {
    on_till(&rt, rt.alloc(), Check::Cancelled);
}

fn key_is_known(rt: &impl Abort, alloc: Global, till: &mut Till) {
    let first = number(rt, 1);
    all_happen(
        rt,
        alloc,
        till,
        &[
            Plain::Start,
            Plain::Keyed,
            Plain::Keep,
            Plain::Crash,
            Plain::Start,
        ],
    );
    stand(rt, till, &[]);
    all_happen(
        rt,
        alloc,
        till,
        &[Plain::Keyed, Plain::Keep, Plain::Keep, Plain::Tell],
    );
    was_told(rt, till, TillNote::Queued(first));
    all_happen(rt, alloc, till, &[Plain::Keyed]);
    is_refused(rt, alloc, till, Plain::Keep, NotPossible::NotAsked);
    all_happen(rt, alloc, till, &[Plain::Tell]);
    was_told(rt, till, TillNote::Queued(first));
    stand(rt, till, &[ReceiptState::Waiting { tried: 0 }]);
    assert!(rt; till.entries().len() == 3);
}

// A crash comes between a key and its receipt: the key is void, and comes again. Then it is known, and nothing is to be kept.
#[test]
fn keyed(rt: HostRuntime) {
    on_till(&rt, rt.alloc(), Check::Keyed);
}

fn is_refused(rt: &impl Abort, alloc: Global, till: &mut Till, plain: Plain, why: NotPossible) {
    assert!(rt; happens(rt, alloc, till, plain) == Err(why));
}

fn refuses_happenings(rt: &impl Abort, alloc: Global, till: &mut Till) {
    is_refused(rt, alloc, till, Plain::Raise, NotPossible::SwitchedOff);
    all_happen(rt, alloc, till, &[Plain::Start, Plain::Raise]);
    is_refused(rt, alloc, till, Plain::Start, NotPossible::SwitchedOn);
    is_refused(rt, alloc, till, Plain::Hear, NotPossible::NotAsked);
    is_refused(
        rt,
        alloc,
        till,
        Plain::Raise,
        NotPossible::Machine(TillRefusal::Busy),
    );
    all_happen(
        rt,
        alloc,
        till,
        &[Plain::Refuse, Plain::Close, Plain::Keep, Plain::Tell],
    );
    all_happen(rt, alloc, till, &TAKEN[1..]);
    all_happen(rt, alloc, till, &DELIVERY[..3]);
    is_refused(rt, alloc, till, Plain::Idle, NotPossible::Linked);
}

#[test]
fn not_possible(rt: HostRuntime) {
    on_till(&rt, rt.alloc(), Check::NotPossible);
}
