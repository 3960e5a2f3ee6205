//! The host that a handle holds: what is to be sent, and what answers mean.

ghost use Rattle.std.specs.Prelude.{◌≡◌, ◌≢◌, ◌⊎◌, ◌↔◌, ◌+◌, min, [], false, length, pos, None, IsTrue, MatchOption};
ghost use Rattle.escpos_host.specs.Machine.{RefusesLinkUp, RefusesNudge, state_of};
ghost use Rattle.escpos_c.specs.declared.refusal.TheConstants.{NO_REASON};
ghost use Rattle.escpos_c.specs.HostNumbers.{greatest, state_number};
ghost use Rattle.escpos_c.specs.HostCalls.{AsksKind, Called, HearsBytes, IsNew, LinksDown, LinksUp, Nudges, TakesOut};
ghost use Rattle.escpos_c.specs.Handles.{OnHandle};

use crate::call_status::CallStatus;
use crate::host_core::HostCore;
use crate::host_handle::HostHandle;
use crate::refusal::NO_REASON;
use std::alloc::Global;

/// Puts a host into the handle, and frees what it held. The host has no link, and its first mark will have this number: one
/// that was never used with this printer. A host doesn't know which marks of an older host are answered: until it has heard an answer
/// itself, no mark is left from 1,679,616 on.
#[unsafe(no_mangle)]
pub extern "C" fn escpos_host_new(alloc: Global, host: &mut HostHandle, first_mark: u32) -> i32
    ensures { ((result ≡ pos 0) × IsNew host.new.value first_mark 0) ⊎ ((result ≡ pos 4) × (host.new.value ≡ host.old.value)) }
{
    resume(alloc, host, first_mark, 0).number()
}

/// The same, after `records` receipts that are recorded already: the next one recorded has this number.
#[unsafe(no_mangle)]
pub extern "C" fn escpos_host_resume(
    alloc: Global,
    host: &mut HostHandle,
    first_mark: u32,
    records: usize,
) -> i32
    ensures { ((result ≡ pos 0) × IsNew host.new.value first_mark records) ⊎ ((result ≡ pos 4) × (host.new.value ≡ host.old.value)) }
{
    resume(alloc, host, first_mark, records).number()
}

// Puts a host into the handle, and frees what it held.
fn resume(alloc: Global, host: &mut HostHandle, first_mark: u32, records: usize) -> CallStatus
    ensures { ((result ≡ CallStatus.Good) × IsNew host.new.value first_mark records) ⊎ ((result ≡ CallStatus.Memory) × (host.new.value ≡ host.old.value)) }
{
    match HostCore::boxed(alloc, first_mark, records) {
        Some(core) => {
            host.put(alloc, core);
            CallStatus::Good
        }
        None => CallStatus::Memory,
    }
}

/// Frees the host. The handle holds nothing then.
#[unsafe(no_mangle)]
pub extern "C" fn escpos_host_free(alloc: Global, host: &mut HostHandle)
    ensures { host.new.value ≡ None }
{
    let _ = host.take(alloc);
}

/// Opens a link: puts one opening mark out.
#[unsafe(no_mangle)]
pub extern "C" fn escpos_host_link_up(alloc: Global, host: &mut HostHandle, reason: &mut u32) -> i32
    ensures { OnHandle host.old.value host.new.value (Called LinksUp RefusesLinkUp result reason.new)
        ((result ≡ pos 2) × (reason.new ≡ NO_REASON)) }
{
    let Some(mut core) = host.take(alloc) else {
        return empty(reason);
    };
    let status = core.link_up(reason);
    host.put(alloc, core);
    status.number()
}

/// Puts one more opening mark out; possible while none is answered.
#[unsafe(no_mangle)]
pub extern "C" fn escpos_host_nudge(alloc: Global, host: &mut HostHandle, reason: &mut u32) -> i32
    ensures { OnHandle host.old.value host.new.value (Called Nudges RefusesNudge result reason.new)
        ((result ≡ pos 2) × (reason.new ≡ NO_REASON)) }
{
    let Some(mut core) = host.take(alloc) else {
        return empty(reason);
    };
    let status = core.nudge(reason);
    host.put(alloc, core);
    status.number()
}

/// Puts a status request of this kind, 1 to 4, out; possible while the link is open and no receipt is in flight. Another kind
/// is refused with the reason 9. (Reference: DLE EOT.)
#[unsafe(no_mangle)]
pub extern "C" fn escpos_host_ask(
    alloc: Global,
    host: &mut HostHandle,
    kind: u8,
    reason: &mut u32,
) -> i32
    ensures { OnHandle host.old.value host.new.value (AsksKind kind result reason.new) ((result ≡ pos 2) × (reason.new ≡ NO_REASON)) }
{
    let Some(mut core) = host.take(alloc) else {
        return empty(reason);
    };
    let status = core.ask(kind, reason);
    host.put(alloc, core);
    status.number()
}

/// Gives the link up: what wasn't taken out is dropped. What was in flight may have been printed or not; an answer on the next link,
/// before that is open, may still record it. With no link nothing changes.
#[unsafe(no_mangle)]
pub extern "C" fn escpos_host_link_down(alloc: Global, host: &mut HostHandle) -> i32
    ensures { OnHandle host.old.value host.new.value
        (λ old new. (result ≡ pos 0) × (new.before ≡ old.before) × LinksDown old.host new.host) (result ≡ pos 2) }
{
    let Some(mut core) = host.take(alloc) else {
        return CallStatus::Empty.number();
    };
    core.host.link_down();
    host.put(alloc, core);
    CallStatus::Good.number()
}

/// Moves the next bytes for the link to the start of `out`, as many as there are and fit; `written` is their number.
#[unsafe(no_mangle)]
pub extern "C" fn escpos_host_take_out(
    alloc: Global,
    host: &mut HostHandle,
    out: &mut [u8],
    written: &mut usize,
) -> i32
    ensures { OnHandle host.old.value host.new.value
        (λ old new. (result ≡ pos 0) × TakesOut out.old out.new written.new old new)
        ((result ≡ pos 2) × (written.new ≡ 0) × (out.new ≡ out.old)) }
{
    let Some(mut core) = host.take(alloc) else {
        *written = 0;
        return CallStatus::Empty.number();
    };
    *written = core.host.take_out(out);
    host.put(alloc, core);
    CallStatus::Good.number()
}

/// Whether there are bytes for the link.
#[unsafe(no_mangle)]
pub extern "C" fn escpos_host_has_out(alloc: Global, host: &mut HostHandle, has: &mut bool) -> i32
    ensures same { host.new.value ≡ host.old.value }
    ensures told { MatchOption host.old.value ((result ≡ pos 2) × (has.new ≡ false))
        (λ core. (result ≡ pos 0) × (IsTrue has.new ↔ (core.host.out ≢ []))) }
{
    let Some(core) = host.take(alloc) else {
        *has = false;
        return CallStatus::Empty.number();
    };
    *has = core.host.has_out();
    host.put(alloc, core);
    CallStatus::Good.number()
}

/// Hears bytes of answers, up to the first event. `consumed` is how many were heard, `event` the kind of the event (0 none, 1 the
/// link is open, 2 a receipt in flight is recorded, or before the link is open one that an older link left, and with it those submitted
/// before it, 3 a status byte, 4 a bad answer, after which the link is down, 5 another late answer, 6 a condition), and `number` the
/// number from 0 of the last record, the status byte, the place of the bad answer, the number of the mark that was answered late (0
/// where none has its id), or the four bytes of the condition, the first highest.
#[unsafe(no_mangle)]
pub extern "C" fn escpos_host_heard(
    alloc: Global,
    host: &mut HostHandle,
    bytes: &[u8],
    consumed: &mut usize,
    event: &mut u32,
    number: &mut usize,
) -> i32
    ensures { OnHandle host.old.value host.new.value
        (λ old new. (result ≡ pos 0) × HearsBytes bytes.now consumed.new event.new number.new old new)
        ((result ≡ pos 2) × (consumed.new ≡ 0) × (event.new ≡ 0) × (number.new ≡ 0)) }
{
    let Some(mut core) = host.take(alloc) else {
        *consumed = 0;
        *event = 0;
        *number = 0;
        return CallStatus::Empty.number();
    };
    let told = core.hear(bytes);
    *consumed = told.consumed;
    *event = told.event;
    *number = told.number;
    host.put(alloc, core);
    CallStatus::Good.number()
}

/// Where the host stands with its link: 0 there is none, 1 it is being opened, 2 it is open, 3 it is open and receipts are in
/// flight.
#[unsafe(no_mangle)]
pub extern "C" fn escpos_host_state(alloc: Global, host: &mut HostHandle, state: &mut u32) -> i32
    ensures same { host.new.value ≡ host.old.value }
    ensures told { MatchOption host.old.value ((result ≡ pos 2) × (state.new ≡ 0))
        (λ core. (result ≡ pos 0) × (state.new ≡ state_number (state_of core.host.phase))) }
{
    let Some(core) = host.take(alloc) else {
        *state = 0;
        return CallStatus::Empty.number();
    };
    *state = core.state();
    host.put(alloc, core);
    CallStatus::Good.number()
}

/// The number of the next mark: what a till keeps, before it sends a byte, for the host of its next run.
#[unsafe(no_mangle)]
pub extern "C" fn escpos_host_next_mark(alloc: Global, host: &mut HostHandle, mark: &mut u32) -> i32
    ensures same { host.new.value ≡ host.old.value }
    ensures told { MatchOption host.old.value ((result ≡ pos 2) × (mark.new ≡ 0))
        (λ core. (result ≡ pos 0) × (mark.new ≡ core.host.next)) }
{
    let Some(core) = host.take(alloc) else {
        *mark = 0;
        return CallStatus::Empty.number();
    };
    *mark = core.host.next_mark();
    host.put(alloc, core);
    CallStatus::Good.number()
}

/// How many receipts are recorded, those of before among them.
#[unsafe(no_mangle)]
pub extern "C" fn escpos_host_records(
    alloc: Global,
    host: &mut HostHandle,
    records: &mut usize,
) -> i32
    ensures same { host.new.value ≡ host.old.value }
    ensures told { MatchOption host.old.value ((result ≡ pos 2) × (records.new ≡ 0))
        (λ core. (result ≡ pos 0) × (records.new ≡ min (core.before + length core.host.records) greatest)) }
{
    let Some(core) = host.take(alloc) else {
        *records = 0;
        return CallStatus::Empty.number();
    };
    *records = core.records();
    host.put(alloc, core);
    CallStatus::Good.number()
}

// The handle holds nothing.
fn empty(reason: &mut u32) -> i32
    ensures { (result ≡ pos 2) × (reason.new ≡ NO_REASON) }
{
    *reason = NO_REASON;
    CallStatus::Empty.number()
}
