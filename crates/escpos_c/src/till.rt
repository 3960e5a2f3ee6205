//! The till that a handle holds: what its owner asks of it, what it asks for, and what it is told.

ghost use Rattle.std.specs.Prelude.{◌≡◌, ◌↔◌, ◌+◌, ℕ, List, length, pos, None, IfErr, IfOk, IsTrue, MatchOption, false};
ghost use Rattle.escpos_till.specs.declared.entry.Entry.{Entry};
ghost use Rattle.escpos_till.specs.Book.{IsBookOf};
ghost use Rattle.escpos_till.specs.Entries.{earlier, states};
ghost use Rattle.escpos_till.specs.Machine.{Came, IsPausing, hung_up, told};
ghost use Rattle.escpos_c.specs.declared.refusal.TheConstants.{NO_REASON};
ghost use Rattle.escpos_c.specs.Given.{receipt_options};
ghost use Rattle.escpos_c.specs.Handles.{OnHandle};
ghost use Rattle.escpos_c.specs.TillCalls.{CancelsNumber, DeliversCopy, GivesEntry, Opens, QueuesKeyed, QueuesTextWith, RaisesTo, TakesAppended, TakesConnected, TakesEnd, TakesOutOf, TellsAsk};
ghost use Rattle.escpos_c.specs.TillTexts.{IsDamagedAt, IsMachineOf};
ghost use Rattle.escpos_c.specs.TillNumbers.{nothing_told, only, standing_at, standing_of};

use crate::call_status::CallStatus;
use crate::options::Options;
use crate::refusal::{NO_PLACE, NO_REASON};
use crate::till_core::TillCore;
use crate::till_handle::TillHandle;
use crate::till_numbers::{Asked, DAMAGED, Standing, Told};
use crate::till_texts::{NoTill, machine_of};
use std::alloc::Global;

/// Puts the machine of the entries that were kept into the handle, and frees what it held. `lines` is the lines of the entries, in
/// order; none for a till that is new. At 1 a line is at fault: it has the place `at`, counted from 0.
#[unsafe(no_mangle)]
pub extern "C" fn escpos_till_open(
    alloc: Global,
    till: &mut TillHandle,
    lines: &[u8],
    reason: &mut u32,
    at: &mut usize,
) -> i32
    ensures { Opens lines.now result reason.new at.new till.old.value till.new.value }
{
    *reason = NO_REASON;
    *at = NO_PLACE;
    match boxed(alloc, lines) {
        Ok(core) => {
            till.put(alloc, core);
            CallStatus::Good.number()
        }
        Err(NoTill::Damaged(line)) => {
            *reason = DAMAGED;
            *at = line;
            CallStatus::Refused.number()
        }
        Err(NoTill::Memory) => CallStatus::Memory.number(),
    }
}

// The machine of the entries that a text is the lines of, on the heap.
fn boxed(alloc: Global, lines: &[u8]) -> Result<Box<TillCore>, NoTill>
    ensures machine { IfOk result (λ core. IsMachineOf lines.now core.value.machine) }
    ensures damaged { IfErr result (λ why. (at : ℕ) → why ≡ NoTill.Damaged at → IsDamagedAt lines.now at) }
{
    let machine = machine_of(alloc, lines)?;
    match TillCore::boxed(alloc, machine) {
        Some(core) => Ok(core),
        None => Err(NoTill::Memory),
    }
}

/// Frees the machine. The handle holds nothing then.
#[unsafe(no_mangle)]
pub extern "C" fn escpos_till_free(alloc: Global, till: &mut TillHandle)
    ensures { till.new.value ≡ None }
{
    let _ = till.take(alloc);
}

/// Takes the receipt that a text in JSON describes with these options: that is to be kept.
#[unsafe(no_mangle)]
pub extern "C" fn escpos_till_queue(
    alloc: Global,
    till: &mut TillHandle,
    options: &Options,
    json: &[u8],
    told: &mut Told,
) -> i32
    ensures { OnHandle till.old.value till.new.value (QueuesTextWith (receipt_options options.now) json.now None result told.new)
        ((result ≡ pos 2) × (told.new ≡ nothing_told)) }
{
    let Some(mut core) = till.take(alloc) else {
        return empty(told);
    };
    let (status, why) = core.queue_with(alloc, options.receipt_options(), json, None);
    till.put(alloc, core);
    *told = why;
    status.number()
}

/// The same of a receipt that comes with this key: it is to be kept, and the key before it; but if a receipt has the key, its number is
/// to be told, and nothing is to be kept.
#[unsafe(no_mangle)]
pub extern "C" fn escpos_till_queue_keyed(
    alloc: Global,
    till: &mut TillHandle,
    options: &Options,
    json: &[u8],
    key: &[u8],
    told: &mut Told,
) -> i32
    ensures { OnHandle till.old.value till.new.value (QueuesKeyed (receipt_options options.now) json.now key.now result told.new)
        ((result ≡ pos 2) × (told.new ≡ nothing_told)) }
{
    let Some(mut core) = till.take(alloc) else {
        return empty(told);
    };
    let (status, why) = core.queue_keyed(alloc, options.receipt_options(), json, key);
    till.put(alloc, core);
    *told = why;
    status.number()
}

/// Raises the next mark number to this one, since those below it were used elsewhere: that is to be kept.
#[unsafe(no_mangle)]
pub extern "C" fn escpos_till_raise(
    alloc: Global,
    till: &mut TillHandle,
    first: u32,
    told: &mut Told,
) -> i32
    ensures { OnHandle till.old.value till.new.value (RaisesTo first result told.new) ((result ≡ pos 2) × (told.new ≡ nothing_told)) }
{
    let Some(mut core) = till.take(alloc) else {
        return empty(told);
    };
    let (status, why) = core.raise(first);
    till.put(alloc, core);
    *told = why;
    status.number()
}

/// Cancels the receipt with this number, which waits: that is to be kept.
#[unsafe(no_mangle)]
pub extern "C" fn escpos_till_cancel(
    alloc: Global,
    till: &mut TillHandle,
    number: usize,
    told: &mut Told,
) -> i32
    ensures { OnHandle till.old.value till.new.value (CancelsNumber number result told.new) ((result ≡ pos 2) × (told.new ≡ nothing_told)) }
{
    let Some(mut core) = till.take(alloc) else {
        return empty(told);
    };
    let (status, why) = core.cancel(number);
    till.put(alloc, core);
    *told = why;
    status.number()
}

/// Delivers the first receipt that waits, over a link with so many opening marks (0 counts as 1), on which at most `most` bytes of
/// answers are read. `copy` is the text of a line that is put before a receipt that was tried before; an empty one is none.
#[unsafe(no_mangle)]
pub extern "C" fn escpos_till_deliver(
    alloc: Global,
    till: &mut TillHandle,
    openings: u32,
    copy: &[u8],
    most: u32,
    told: &mut Told,
) -> i32
    ensures { OnHandle till.old.value till.new.value (DeliversCopy openings copy.now most result told.new)
        ((result ≡ pos 2) × (told.new ≡ nothing_told)) }
{
    let Some(mut core) = till.take(alloc) else {
        return empty(told);
    };
    let (status, why) = core.deliver(openings, copy, most);
    till.put(alloc, core);
    *told = why;
    status.number()
}

/// What the machine asks for.
#[unsafe(no_mangle)]
pub extern "C" fn escpos_till_asks(alloc: Global, till: &mut TillHandle, asked: &mut Asked) -> i32
    ensures same { till.new.value ≡ till.old.value }
    ensures told { MatchOption till.old.value ((result ≡ pos 2) × (asked.new ≡ only 0))
        (λ core. (result ≡ pos 0) × TellsAsk core.machine asked.new) }
{
    let Some(core) = till.take(alloc) else {
        *asked = Asked::only(0);
        return CallStatus::Empty.number();
    };
    *asked = core.asks();
    till.put(alloc, core);
    CallStatus::Good.number()
}

/// Gives the line of the entry that is to be kept, which ends with LF and has no other. It is refused where no entry is to be kept.
#[unsafe(no_mangle)]
pub extern "C" fn escpos_till_append(
    alloc: Global,
    till: &mut TillHandle,
    out: &mut [u8],
    written: &mut usize,
) -> i32
    ensures same { till.new.value ≡ till.old.value }
    ensures given { MatchOption till.old.value ((result ≡ pos 2) × (written.new ≡ 0) × (out.new ≡ out.old))
        (λ core. GivesEntry core.machine.stage result out.old out.new written.new) }
{
    let Some(core) = till.take(alloc) else {
        *written = 0;
        return CallStatus::Empty.number();
    };
    let status = core.entry(alloc, out, written);
    till.put(alloc, core);
    status.number()
}

/// Whether the entry outlives a crash now. If that isn't known, the machine fails.
#[unsafe(no_mangle)]
pub extern "C" fn escpos_till_appended(alloc: Global, till: &mut TillHandle, kept: bool) -> i32
    ensures { OnHandle till.old.value till.new.value
        (λ old new. (result ≡ pos 0) × TakesAppended (IsTrue kept) old.machine new.machine) (result ≡ pos 2) }
{
    let Some(mut core) = till.take(alloc) else {
        return CallStatus::Empty.number();
    };
    core.appended(kept);
    till.put(alloc, core);
    CallStatus::Good.number()
}

/// Whether there is a link.
#[unsafe(no_mangle)]
pub extern "C" fn escpos_till_connected(alloc: Global, till: &mut TillHandle, is: bool) -> i32
    ensures { OnHandle till.old.value till.new.value
        (λ old new. (result ≡ pos 0) × TakesConnected (IsTrue is) old.machine new.machine) (result ≡ pos 2) }
{
    let Some(mut core) = till.take(alloc) else {
        return CallStatus::Empty.number();
    };
    core.machine.connected(is);
    till.put(alloc, core);
    CallStatus::Good.number()
}

/// Moves the next bytes that are to be put to the start of `out`, as many as there are and fit; `written` is their number.
#[unsafe(no_mangle)]
pub extern "C" fn escpos_till_take_out(
    alloc: Global,
    till: &mut TillHandle,
    out: &mut [u8],
    written: &mut usize,
) -> i32
    ensures { OnHandle till.old.value till.new.value
        (λ old new. (result ≡ pos 0) × TakesOutOf out.old out.new written.new old.machine new.machine)
        ((result ≡ pos 2) × (written.new ≡ 0) × (out.new ≡ out.old)) }
{
    let Some(mut core) = till.take(alloc) else {
        *written = 0;
        return CallStatus::Empty.number();
    };
    *written = core.machine.take_out(out);
    till.put(alloc, core);
    CallStatus::Good.number()
}

/// Hears bytes of answers, up to the first event; `consumed` is how many were heard. If it still waits for answers then, it is to be
/// given the others, before any newer.
#[unsafe(no_mangle)]
pub extern "C" fn escpos_till_came(
    alloc: Global,
    till: &mut TillHandle,
    bytes: &[u8],
    consumed: &mut usize,
) -> i32
    ensures { OnHandle till.old.value till.new.value
        (λ old new. (result ≡ pos 0) × Came old.machine.stage bytes.now consumed.new old.machine new.machine)
        ((result ≡ pos 2) × (consumed.new ≡ 0)) }
{
    let Some(mut core) = till.take(alloc) else {
        *consumed = 0;
        return CallStatus::Empty.number();
    };
    *consumed = core.machine.came(bytes);
    till.put(alloc, core);
    CallStatus::Good.number()
}

/// The link has ended: 1 the printer has closed it, 2 it can't be read, 3 it can't be written, 4 it was waited for as long as may be.
/// Another number is refused.
#[unsafe(no_mangle)]
pub extern "C" fn escpos_till_link_ended(alloc: Global, till: &mut TillHandle, why: u32) -> i32
    ensures { OnHandle till.old.value till.new.value (TakesEnd why result) (result ≡ pos 2) }
{
    let Some(mut core) = till.take(alloc) else {
        return CallStatus::Empty.number();
    };
    let status = core.link_ended(why);
    till.put(alloc, core);
    status.number()
}

/// The link is given up.
#[unsafe(no_mangle)]
pub extern "C" fn escpos_till_hung_up(alloc: Global, till: &mut TillHandle) -> i32
    ensures { OnHandle till.old.value till.new.value
        (λ old new. (result ≡ pos 0) × (new.machine ≡ hung_up old.machine.stage old.machine)) (result ≡ pos 2) }
{
    let Some(mut core) = till.take(alloc) else {
        return CallStatus::Empty.number();
    };
    core.machine.hung_up();
    till.put(alloc, core);
    CallStatus::Good.number()
}

/// Its owner knows what it was to be told.
#[unsafe(no_mangle)]
pub extern "C" fn escpos_till_told(alloc: Global, till: &mut TillHandle) -> i32
    ensures { OnHandle till.old.value till.new.value
        (λ old new. (result ≡ pos 0) × (new.machine ≡ told old.machine.stage old.machine)) (result ≡ pos 2) }
{
    let Some(mut core) = till.take(alloc) else {
        return CallStatus::Empty.number();
    };
    core.machine.told();
    till.put(alloc, core);
    CallStatus::Good.number()
}

/// The number of the receipt that was taken last, here or in an older ledger; 0 if none was.
#[unsafe(no_mangle)]
pub extern "C" fn escpos_till_receipts(
    alloc: Global,
    till: &mut TillHandle,
    receipts: &mut usize,
) -> i32
    ensures same { till.new.value ≡ till.old.value }
    ensures told { MatchOption till.old.value ((result ≡ pos 2) × (receipts.new ≡ 0))
        (λ core. (result ≡ pos 0) × ((entries : List Entry) → IsBookOf core.machine.book entries → receipts.new ≡ earlier entries + length (states entries))) }
{
    let Some(core) = till.take(alloc) else {
        *receipts = 0;
        return CallStatus::Empty.number();
    };
    *receipts = core.receipts();
    till.put(alloc, core);
    CallStatus::Good.number()
}

/// Where the receipt of this number stands.
#[unsafe(no_mangle)]
pub extern "C" fn escpos_till_standing(
    alloc: Global,
    till: &mut TillHandle,
    number: usize,
    standing: &mut Standing,
) -> i32
    ensures same { till.new.value ≡ till.old.value }
    ensures told { MatchOption till.old.value ((result ≡ pos 2) × (standing.new ≡ standing_at None))
        (λ core. (result ≡ pos 0)
        × ((entries : List Entry) → IsBookOf core.machine.book entries → standing.new ≡ standing_of (earlier entries) (states entries) number)) }
{
    let Some(core) = till.take(alloc) else {
        *standing = Standing::none();
        return CallStatus::Empty.number();
    };
    *standing = core.standing(number);
    till.put(alloc, core);
    CallStatus::Good.number()
}

/// Whether the printer says, over the link that there is, that it prints nothing for now.
#[unsafe(no_mangle)]
pub extern "C" fn escpos_till_is_paused(alloc: Global, till: &mut TillHandle, is: &mut bool) -> i32
    ensures same { till.new.value ≡ till.old.value }
    ensures told { MatchOption till.old.value ((result ≡ pos 2) × (is.new ≡ false))
        (λ core. (result ≡ pos 0) × (IsTrue is.new ↔ IsPausing core.machine.stage)) }
{
    let Some(core) = till.take(alloc) else {
        *is = false;
        return CallStatus::Empty.number();
    };
    *is = core.machine.is_paused();
    till.put(alloc, core);
    CallStatus::Good.number()
}

/// The next mark number.
#[unsafe(no_mangle)]
pub extern "C" fn escpos_till_next_mark(alloc: Global, till: &mut TillHandle, mark: &mut u32) -> i32
    ensures same { till.new.value ≡ till.old.value }
    ensures told { MatchOption till.old.value ((result ≡ pos 2) × (mark.new ≡ 0))
        (λ core. (result ≡ pos 0) × (mark.new ≡ core.machine.book.next)) }
{
    let Some(core) = till.take(alloc) else {
        *mark = 0;
        return CallStatus::Empty.number();
    };
    *mark = core.machine.next_mark();
    till.put(alloc, core);
    CallStatus::Good.number()
}

// The handle holds nothing.
fn empty(told: &mut Told) -> i32
    ensures { (result ≡ pos 2) × (told.new ≡ nothing_told) }
{
    *told = Told::nothing();
    CallStatus::Empty.number()
}
