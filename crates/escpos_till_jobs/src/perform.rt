//! What a till asks for is done: its ledger is opened, the word is done, and the ledger is closed again.
//!
//! Where ledgers are kept, and how lines to printers are made, is given: the program gives its files and its network.

ghost use Rattle.std.specs.Prelude.{◌≡◌, ◌≢◌, ◌+◌, ◌≤◌, ℕ, List, None, Result, Some, IfErr, IfOk, IsTrue};
ghost use Rattle.escpos_job_parts.specs.declared.input.TheConstants.{INPUT_LIMIT};
ghost use Rattle.escpos_till.specs.declared.store.NoStore.{NoStore as WhyNone};
ghost use Rattle.escpos_till_jobs.specs.Outputs.{output_of};
ghost use Rattle.escpos_till_jobs.specs.Performing.{CancelsAt, DeliversAt, IfShared, ListsAt, OfCancel, OfDeliver, OfList, OfQueue, OfQueueAgain, OfQueueRaw, OfReading, OfRenew, QueuesAgainAt, QueuesAt, UnlessDeliver, UnlessReading, UnlessRenew, UnlessShared, way};
ghost use Rattle.escpos_till_jobs.specs.Raw.{QueuesRawAt};
ghost use Rattle.escpos_till_jobs.specs.Renewing.{RenewsAt, new_place};
ghost use Rattle.escpos_till_jobs.specs.Words.{FindsStates, InLedger, NoLedgerIn, place};

use crate::deliver::Delivery;
use crate::lines::Lines;
use crate::link_line::{NoLine, Waits};
use crate::listing::{list_unless, raise_first};
use crate::opening::{open_machine, refuse_store};
use crate::outcome::Outcome;
use crate::queue::read_content;
use crate::raw::{read_raw, refuse_raw};
use crate::renew::{NewLedgers, renew_ledger};
use crate::task::{LedgerPath, TillTask};
use crate::word::{Word, do_with};
use escpos_io::{ByteIn, ByteOut};
use escpos_job_parts::receipt_input::refuse_input;
use escpos_job_parts::status::Status;
use escpos_till::{NoStore, PrinterLine, Store, Surroundings, TillMachine};
use std::alloc::Global;

/// Where ledgers are kept, each in a store of its own.
pub trait Ledgers<S> {
    // At this path it opened this store, or there is none for this reason, and then it is so.
    ghost opened: { Self → List ℕ → Result S WhyNone → Self → Type 0 };

    // It closed this store, and then it is so.
    ghost closed: { Self → S → Self → Type 0 };

    /// Opens the store at a path; one that isn't there is made.
    fn open(&mut self, path: &LedgerPath<'_>) -> Result<S, NoStore>
        ensures { opened self.old path.now result self.new };

    /// Closes a store. What it has kept outlives a crash already.
    fn close(&mut self, store: S)
        ensures { closed self.old store self.new };

    /// Whether the store that is open has been so for long, and is to be closed, so that whoever waits for it has a turn.
    fn is_turn_over(&self) -> bool;
}

/// Does what a till asks of a ledger, and returns how it went.
///
/// A receipt is read before the ledger is opened, so that one that is refused leaves no new ledger; at most 16,777,217 bytes are pulled. For
/// any other task the input isn't read, and only a delivery has a line made, with its wait. It opens its
/// ledger by `shared`, whose stores may let go of it meanwhile, and so does a renewal, which writes the new ledger by `news`; any other task
/// opens it by `ledgers`, and has it to itself.
pub fn perform_till<
    S: Store + Drop,
    F: Ledgers<S>,
    T: Store,
    G: Ledgers<T>,
    N: NewLedgers<S>,
    L: PrinterLine + Drop,
    P: Lines<L>,
    R: ByteIn,
    W: ByteOut,
>(
    alloc: Global,
    ledgers: &mut F,
    shared: &mut G,
    news: &mut N,
    lines: &mut P,
    task: TillTask<'_>,
    input: &mut R,
    output: &mut W,
) -> Status
    ensures queue { OfQueue (QueuesAt (place F.opened F.closed S.faithful S.holds S.leaves S.says) ⟦<NoLine as PrinterLine>⟧.did (R.to_come input.old) (R.failed input.new)
        ledgers.old (output_of (W.written output.old) (W.failed output.old)) ledgers.new (output_of (W.written output.new) (W.failed output.new)) result) task.entry }
    ensures queue_raw { OfQueueRaw (QueuesRawAt (place F.opened F.closed S.faithful S.holds S.leaves S.says) ⟦<NoLine as PrinterLine>⟧.did (R.to_come input.old) (R.failed input.new)
        ledgers.old (output_of (W.written output.old) (W.failed output.old)) ledgers.new (output_of (W.written output.new) (W.failed output.new)) result) task.entry }
    ensures queue_again { OfQueueAgain (QueuesAgainAt (place F.opened F.closed S.faithful S.holds S.leaves S.says) ⟦<NoLine as PrinterLine>⟧.did
        ledgers.old (output_of (W.written output.old) (W.failed output.old)) ledgers.new (output_of (W.written output.new) (W.failed output.new)) result) task.entry }
    ensures deliver { OfDeliver (λ path delivery wait. DeliversAt (place G.opened G.closed T.faithful T.holds T.leaves T.says) (way P.made P.ended) L.did wait
        shared.old lines.old (output_of (W.written output.old) (W.failed output.old)) shared.new lines.new (output_of (W.written output.new) (W.failed output.new)) result path delivery) task.entry }
    ensures cancel { OfCancel (CancelsAt (place F.opened F.closed S.faithful S.holds S.leaves S.says) ⟦<NoLine as PrinterLine>⟧.did
        ledgers.old (output_of (W.written output.old) (W.failed output.old)) ledgers.new (output_of (W.written output.new) (W.failed output.new)) result) task.entry }
    ensures list { OfList (ListsAt (place F.opened F.closed S.faithful S.holds S.leaves S.says) ⟦<NoLine as PrinterLine>⟧.did
        ledgers.old (output_of (W.written output.old) (W.failed output.old)) ledgers.new (output_of (W.written output.new) (W.failed output.new)) result) task.entry }
    ensures renew { OfRenew (RenewsAt (place G.opened G.closed T.faithful T.holds T.leaves T.says) (new_place N.begun N.finished S.faithful S.holds)
        shared.old news.old (output_of (W.written output.old) (W.failed output.old)) shared.new news.new (output_of (W.written output.new) (W.failed output.new)) result) task.entry }
    ensures no_line { UnlessDeliver (lines.new ≡ lines.old) task.entry }
    ensures not_shared { UnlessShared (shared.new ≡ shared.old) task.entry }
    ensures no_other { IfShared (ledgers.new ≡ ledgers.old) task.entry }
    ensures no_new { UnlessRenew (news.new ≡ news.old) task.entry }
    ensures unread { UnlessReading (input.new ≡ input.old) task.entry }
    ensures input_not_hidden { OfReading (IsTrue (R.failed input.new) → result ≡ Status.Device) task.entry }
    ensures pulls { OfReading (R.pull_count input.new ≤ R.pull_count input.old + INPUT_LIMIT + 1) task.entry }
    ensures not_hidden { result ≢ Status.Device → ¬ IsTrue (W.failed output.old) → ¬ IsTrue (W.failed output.new) }
    ensures never_usage { result ≢ Status.Usage }
{
    match task {
        TillTask::Queue {
            ledger,
            options,
            key,
        } => match read_content(alloc, &options, input) {
            Ok(content) => {
                do_at(
                    alloc,
                    ledgers,
                    &ledger,
                    NoLine,
                    Word::Queue { content, key },
                    output,
                )
                .1
            }
            Err(fault) => refuse_input(fault, output),
        },
        TillTask::QueueRaw { ledger, width, key } => match read_raw(alloc, width, input) {
            Ok(content) => {
                do_at(
                    alloc,
                    ledgers,
                    &ledger,
                    NoLine,
                    Word::Queue { content, key },
                    output,
                )
                .1
            }
            Err(fault) => refuse_raw(fault, output),
        },
        TillTask::QueueAgain { ledger, number } => {
            do_at(alloc, ledgers, &ledger, NoLine, Word::Again(number), output).1
        }
        TillTask::Deliver {
            ledger,
            delivery,
            wait,
        } => deliver_at(alloc, shared, lines, &ledger, delivery, wait, output),
        TillTask::Cancel { ledger, number } => {
            do_at(
                alloc,
                ledgers,
                &ledger,
                NoLine,
                Word::Cancel(number),
                output,
            )
            .1
        }
        TillTask::Renew { ledger, new } => {
            renew_ledger(alloc, shared, news, &ledger, &new, output)
        }
        TillTask::List { ledger, first } => { list_at(alloc, ledgers, &ledger, first, output) }
    }
}

// Raises the next mark number of the ledger at a path, if one is given, and lists where its receipts stand. The ledger is closed before anything
// is printed, so that nobody who reads slowly keeps it from others.
fn list_at<S: Store, F: Ledgers<S>, W: ByteOut>(
    alloc: Global,
    ledgers: &mut F,
    path: &LedgerPath<'_>,
    first: Option<u32>,
    output: &mut W,
) -> Status
    ensures lists { ListsAt (place F.opened F.closed S.faithful S.holds S.leaves S.says) ⟦<NoLine as PrinterLine>⟧.did
        ledgers.old (output_of (W.written output.old) (W.failed output.old)) ledgers.new (output_of (W.written output.new) (W.failed output.new)) result path.now first }
    ensures not_hidden { result ≢ Status.Device → ¬ IsTrue (W.failed output.old) → ¬ IsTrue (W.failed output.new) }
    ensures never_usage { result ≢ Status.Usage }
{
    match ledgers.open(path) {
        Ok(store) => {
            let mut around = Surroundings {
                store,
                line: NoLine,
            };
            let found = find_states(alloc, &mut around, first);
            let Surroundings { store, .. } = around;
            ledgers.close(store);
            match found {
                Ok((machine, instead)) => list_unless(&machine, instead, output),
                Err(why) => refuse_store(why, output),
            }
        }
        Err(why) => refuse_store(why, output),
    }
}

// The machine of the ledger that a store has, once its next mark number is raised, if one is given; and what came instead.
fn find_states<S: Store, L: PrinterLine>(
    alloc: Global,
    around: &mut Surroundings<S, L>,
    first: Option<u32>,
) -> Result<(TillMachine, Option<Outcome>), NoStore>
    ensures found { IfOk result (λ it. FindsStates S.faithful S.holds S.leaves S.says L.did first around.old it.0 it.1 around.new) }
    ensures none { IfErr result (λ why. NoLedgerIn S.faithful S.holds S.leaves S.says around.old.store why around.new.store × (around.new.line ≡ around.old.line)) }
{
    match open_machine(alloc, &mut around.store) {
        Ok(machine) => {
            let mut machine = machine;
            let instead = raise_first(&mut machine, around, first);
            Ok((machine, instead))
        }
        Err(why) => Err(why),
    }
}

// Delivers the receipts that wait in the ledger at a path, over a line to the printer at the delivery's address. If a wait is given, no wait over
// that lasts longer than so many seconds, but for a printer that says that it prints nothing for now.
fn deliver_at<S: Store, F: Ledgers<S>, L: PrinterLine + Drop, P: Lines<L>, W: ByteOut>(
    alloc: Global,
    ledgers: &mut F,
    lines: &mut P,
    path: &LedgerPath<'_>,
    delivery: Delivery<'_>,
    wait: Option<u32>,
    output: &mut W,
) -> Status
    ensures does { DeliversAt (place F.opened F.closed S.faithful S.holds S.leaves S.says) (way P.made P.ended) L.did wait
        ledgers.old lines.old (output_of (W.written output.old) (W.failed output.old)) ledgers.new lines.new (output_of (W.written output.new) (W.failed output.new)) result path.now delivery.entry }
    ensures not_hidden { result ≢ Status.Device → ¬ IsTrue (W.failed output.old) → ¬ IsTrue (W.failed output.new) }
    ensures never_usage { result ≢ Status.Usage }
{
    let waits = Waits {
        wait,
        patience: delivery.patience,
    };
    let line = lines.line(delivery.address, waits);
    let (line, status) = do_at(alloc, ledgers, path, line, Word::Deliver(delivery), output);
    lines.end(line);
    status
}

/// Opens the ledger at a path, does a word with it over a line, and closes it. The line is given back.
pub fn do_at<S: Store, F: Ledgers<S>, L: PrinterLine + Drop, W: ByteOut>(
    alloc: Global,
    ledgers: &mut F,
    path: &LedgerPath<'_>,
    line: L,
    word: Word<'_>,
    output: &mut W,
) -> (L, Status)
    ensures does { InLedger (place F.opened F.closed S.faithful S.holds S.leaves S.says) L.did path.now word.entry
        ledgers.old line (output_of (W.written output.old) (W.failed output.old)) ledgers.new result.0 (output_of (W.written output.new) (W.failed output.new)) result.1 }
    ensures not_hidden { result.1 ≢ Status.Device → ¬ IsTrue (W.failed output.old) → ¬ IsTrue (W.failed output.new) }
    ensures never_usage { result.1 ≢ Status.Usage }
{
    match ledgers.open(path) {
        Ok(store) => {
            let mut around = Surroundings { store, line };
            let status = do_with(alloc, &mut around, word, output);
            let Surroundings { store, line } = around;
            ledgers.close(store);
            (line, status)
        }
        Err(why) => (line, refuse_store(why, output)),
    }
}
