//! The printer's core: it is fed pieces of a stream, prints, and keeps its answers until they are taken.
//!
//! Everything that changes a printer is in this module. A byte is examined before it is taken: what it would complete
//! decides whether it may be taken now, and room on the page is made for that command. So a byte that isn't taken changes
//! nothing, except that a fault drops the half command. Runs of characters and of dots need no such look at each byte, and are
//! taken together.

ghost use Rattle.std.specs.Prelude.{◌≡◌, ◌≤◌, ◌<◌, ◌+◌, ℕ, List, [], ◌∷◌, ◌++◌, length, map, take, drop, slice_get, not, true, false, IfOk, OnOk, OnErr, IfErr, IsOk};
ghost use Rattle.std.specs.List.{AllPass};
ghost use Rattle.escpos_command.specs.declared.command.Command.{Command};
ghost use Rattle.escpos_command.specs.declared.command.Command.TheVariants.{Char};
ghost use Rattle.escpos_command.specs.Parameters.{is_character};
ghost use Rattle.escpos_command.specs.Answers.{spell_answers};
ghost use Rattle.escpos_command.specs.Laws.{longest_spelling};
ghost use Rattle.escpos_decode.specs.Push.{IsRest};
ghost use Rattle.escpos_paper.specs.declared.item.Item.{Item};
ghost use Rattle.escpos_paper.specs.Page.{SheetIs};
ghost use Rattle.escpos_paper.specs.Torn.{bare};
ghost use Rattle.escpos_printer.specs.Blocks.{MayWait, most_waiting};
ghost use Rattle.escpos_printer.specs.Replies.{after_change, automatic_after, is_offline};
ghost use Rattle.escpos_printer.specs.Feeds.{Feeds, Took, HasCause, IsPlace, IsLeft};
ghost use Rattle.escpos_printer.specs.FeedSteps.{is_command, obstacle};

use crate::condition::Condition;
use crate::waiting::{MOST_WAITING, is_full, put_change, put_reply};
use arrayvec::ArrayVec;
use circular_buffer::HeapCircularBuffer;
use escpos_command::{Answer, Command, FaultReason, LineWidth, Reporting};
use escpos_decode::{Ahead, DecodeFault, Decoder, Step};
use escpos_paper::{Item, MOST_ITEMS, Page};
use std::alloc::{AllocError, Global};
use std::marker::Model;

// The most bytes of the answers that wait: an answer has at most 7, and a block 4.
const MOST_ANSWER_BYTES: usize = 116;

const _: () = prove!(MOST_ANSWER_BYTES == 116);

/// A printer: its page, the half command, the answers that wait, what its sensors say, and whether it tells that unasked.
#[derive(Drop)]
pub struct Printer {
    page: Page,
    decoder: Decoder,
    waiting: HeapCircularBuffer<Answer>,
    condition: Condition,
    reporting: Reporting,
}

impl Model for Printer {
    ghost use Rattle.std.specs.Prelude.{◌≡◌, ◌+◌};
    ghost use Rattle.escpos_decode.specs.Push.{IsRest};
    ghost use Rattle.escpos_printer.specs.Blocks.{MayWait, most_waiting};
    ghost use Rattle.escpos_printer.specs.Feeds.{PrinterView};

    ghost Value = { PrinterView };

    ghost view = { λ p. record {
      sheet = p.page.sheet;
      half = p.decoder;
      waiting = p.waiting.items;
      condition = p.condition;
      automatic = p.reporting;
    } };

    // A printer holds nothing or a half command, and at most 16 answers and a block wait.
    ghost invariant = { λ p. IsRest p.decoder × (p.waiting.capacity ≡ most_waiting + 1) × MayWait p.waiting.items };
}

/// Why feeding a piece ended.
#[derive(Clone, Copy, Debug, PartialEq, Eq)]
pub enum FeedStop {
    /// The piece has ended: all its bytes were taken.
    All,
    /// The next byte would complete a status request or a mark, and 16 answers wait, besides a block.
    AnswersFull,
    /// The next byte would complete a command other than a status request, and the printer is offline.
    Offline,
    /// No command continues with the next byte, the one at this place of the piece. The half command is dropped. The byte
    /// is not consumed. Skip it to continue; fed again, it is read as the start of a command.
    Fault { at: usize, why: FaultReason },
    /// Out of memory for the next byte, which isn't consumed.
    Memory,
}

/// How far a piece was fed.
#[derive(Clone, Copy, Debug, PartialEq, Eq)]
pub struct Fed {
    /// The number of bytes that were taken.
    pub consumed: usize,
    /// Why the printer took no more.
    pub stop: FeedStop,
}

impl Printer {
    /// A printer with nothing on its paper, switched on in this condition, that prints lines of this width. Automatic status is
    /// off. Allocates room for 17 answers and nothing else; fails only if that does.
    pub fn new(alloc: Global, condition: Condition, width: LineWidth) -> Result<Self, AllocError>
        ensures sheet { IfOk result (λ printer. SheetIs width printer.sheet [] []) }
        ensures half { IfOk result (λ printer. printer.half ≡ []) }
        ensures waiting { IfOk result (λ printer. printer.waiting ≡ []) }
        ensures condition { IfOk result (λ printer. printer.condition ≡ condition) }
        ensures automatic { IfOk result (λ printer. printer.automatic ≡ 0) }
    {
        let waiting = HeapCircularBuffer::with_capacity(alloc, MOST_WAITING + 1)?;
        Ok(Printer {
            page: Page::new(alloc, width),
            decoder: Decoder::new(alloc),
            waiting,
            condition,
            reporting: Reporting::off(),
        })
    }

    /// Takes the bytes of a piece, up to the first that can't be taken now.
    ///
    /// A byte that isn't taken changes nothing, except that a fault drops the half command. Of several causes at one byte
    /// the result is the first of these: Fault, Offline, AnswersFull, Memory.
    pub fn feed(&mut self, piece: &[u8]) -> Fed
        ensures { Feeds self.old piece.now result.consumed result.stop self.new }
    {
        let mut consumed = self.feed_text(piece);
        while consumed < piece.len() {
            if let Err(stop) = self.feed_byte(piece[consumed], consumed) {
                return Fed { consumed, stop };
            }
            consumed += 1;
            consumed += self.feed_dots(&piece[consumed..]);
            consumed += self.feed_text(&piece[consumed..]);
        }
        Fed {
            consumed,
            stop: FeedStop::All,
        }
    }

    // Takes one byte, which stands at place `at` of its piece.
    fn feed_byte(&mut self, byte: u8, at: usize) -> Result<(), FeedStop>
        ensures taken { OnOk result ((commands : List Command) × Took self.old (byte ∷ []) commands self.new) }
        ensures stopped { IfErr result (λ stop. HasCause stop self.old byte × IsPlace stop at × IsLeft stop self.old self.new) }
    {
        let ahead = self.decoder.look(byte);
        if let Some(stop) = obstacle(ahead, self.condition.is_offline(), is_full(&self.waiting)) {
            return Err(stop);
        }
        if make_room(&mut self.page, ahead).is_err() {
            return Err(FeedStop::Memory);
        }
        match self.decoder.push(byte) {
            Ok(Step::More) => Ok(()),
            Ok(Step::Done(command)) => {
                put_reply(&mut self.waiting, self.condition, &command);
                self.reporting = reporting_after(self.reporting, &command);
                self.page.apply(command).unwrap();
                Ok(())
            }
            Err(DecodeFault::Fault { why, .. }) => Err(FeedStop::Fault { at, why }),
            Err(DecodeFault::Memory) => Err(FeedStop::Memory),
        }
    }

    // Takes the dots of a raster at the start of `bytes`, all but the raster's last byte, and returns how many bytes it
    // took.
    fn feed_dots(&mut self, bytes: &[u8]) -> usize
        ensures count { result ≤ length bytes.now }
        ensures taken { Took self.old (take result bytes.now) [] self.new }
    {
        self.decoder.push_dots(bytes)
    }

    // Takes the characters at the start of `bytes`, and returns how many it took: none where the printer is offline, and
    // not all of them where an allocation failed.
    fn feed_text(&mut self, bytes: &[u8]) -> usize
        ensures count { result ≤ length bytes.now }
        ensures taken { Took self.old (take result bytes.now) (map Char (take result bytes.now)) self.new }
    {
        if self.condition.is_offline() {
            return 0;
        }
        let count = self.decoder.characters(bytes);
        print_text(&mut self.page, &bytes[..count])
    }

    // Proof only: gives the caller these facts: the printer holds nothing or a half command, and no more answers wait than may.
    pub(crate) fn is_sound(&self)
        ensures rest { IsRest self.now.half }
        ensures room { MayWait self.now.waiting }
    {
        // Proof only: the contracts of these calls, and the printer's invariant.
        let _ = self.decoder.pending_len();
        let _ = self.waiting.len();
    }

    /// Returns the answer that has waited longest. Allocates nothing.
    pub fn take_answer(&mut self) -> Option<Answer>
        ensures answer { result ≡ slice_get self.old.waiting 0 }
        ensures left { self.new ≡ record { sheet = self.old.sheet; half = self.old.half; waiting = drop 1 self.old.waiting; condition = self.old.condition; automatic = self.old.automatic } }
    {
        self.waiting.pop_front()
    }

    // The bytes of the answers that wait, one answer after another.
    pub(crate) fn answer_bytes(&self) -> ArrayVec<u8, MOST_ANSWER_BYTES>
        ensures { result.items ≡ spell_answers self.now.waiting }
    {
        // Proof only: at most 16 answers wait, and a block.
        self.is_sound();
        let mut bytes = ArrayVec::new();
        for at in 0..self.waiting.len() {
            let answer = self.waiting_at(at).bytes();
            bytes.try_extend_from_slice(answer.as_slice()).unwrap();
        }
        bytes
    }

    // The answer at this place of those that wait.
    fn waiting_at(&self, at: usize) -> Answer
        requires { at < length self.now.waiting }
        ensures { slice_get self.now.waiting at ≡ Some result }
    {
        *self.waiting.get(at).unwrap()
    }

    /// The number of answers that wait, at most 16 and a block. Allocates nothing.
    pub fn waiting(&self) -> usize
        ensures value { result ≡ length self.now.waiting }
        ensures most { result ≤ most_waiting + 1 }
    {
        self.waiting.len()
    }

    /// Sets what the sensors say. If they said something else, and automatic status is on, the block of the condition waits: in
    /// the place of a block that waits, otherwise after all answers. Allocates nothing.
    pub fn set_condition(&mut self, condition: Condition)
        ensures { self.new ≡ record { sheet = self.old.sheet; half = self.old.half; waiting = after_change self.old.automatic self.old.condition condition self.old.waiting; condition = condition; automatic = self.old.automatic } }
    {
        put_change(&mut self.waiting, self.reporting, self.condition, condition);
        self.condition = condition;
    }

    /// What the sensors say. Allocates nothing.
    pub fn condition(&self) -> Condition
        ensures { result ≡ self.now.condition }
    {
        self.condition
    }

    /// Whether the printer is online: its cover is closed, and its paper hasn't ended. Allocates nothing.
    pub fn is_online(&self) -> bool
        ensures { result ≡ not (is_offline self.now.condition) }
    {
        !self.condition.is_offline()
    }

    /// Switches the printer off and on: the half command, the answers that wait and the line are dropped, and the styles
    /// are those of power-on; automatic status is off. What is printed stays, and so do the condition and the width of a line.
    /// Allocates nothing.
    pub fn restart(&mut self)
        ensures sheet { SheetIs self.old.sheet.line_dots self.new.sheet self.old.sheet.items [] }
        ensures half { self.new.half ≡ [] }
        ensures waiting { self.new.waiting ≡ [] }
        ensures condition { self.new.condition ≡ self.old.condition }
        ensures automatic { self.new.automatic ≡ 0 }
    {
        self.page.restart();
        self.decoder.clear();
        self.waiting.clear();
        self.reporting = Reporting::off();
    }

    /// Drops what is printed on the paper, and leaves everything else as it is. Allocates nothing.
    pub fn tear_off(&mut self)
        ensures { self.new ≡ record { sheet = bare self.old.sheet; half = self.old.half; waiting = self.old.waiting; condition = self.old.condition; automatic = self.old.automatic } }
    {
        self.page.tear_off();
    }

    /// How wide a line is: the width that the printer was made with. Allocates nothing.
    pub fn line_width(&self) -> LineWidth
        ensures { result ≡ self.now.sheet.line_dots }
    {
        self.page.line_width()
    }

    /// What is printed on the paper and wasn't torn off, from top to bottom. Allocates nothing.
    pub fn items(&self) -> &[Item]
        ensures items { result.now ≡ self.now.sheet.items }
        // Every sheet is one that commands leave, on paper that held some items.
        ensures reached { (kept : List Item) × (cs : List Command) × SheetIs self.now.sheet.line_dots self.now.sheet kept cs }
    {
        self.page.items()
    }

    /// The number of bytes of the half command, at most 524,176. Allocates nothing.
    pub fn pending_len(&self) -> usize
        ensures value { result ≡ length self.now.half }
        ensures rest { IsRest self.now.half }
        ensures short { result < longest_spelling }
    {
        self.decoder.pending_len()
    }
}

// Prints characters on the page, and returns how many: not all of them where an allocation failed.
fn print_text(page: &mut Page, text: &[u8]) -> usize
    requires characters { AllPass is_character text.now }
    ensures count { result ≤ length text.now }
    ensures printed { (width : ℕ) (kept : List Item) (cs : List Command) → SheetIs width page.old.sheet kept cs →
        SheetIs width page.new.sheet kept (cs ++ map Char (take result text.now)) }
{
    let mut printed = 0;
    while printed < text.len() {
        match page.apply_text(&text[printed..]) {
            Ok(count) => printed += count,
            Err(AllocError) => return printed,
        }
    }
    printed
}

// Makes room on the page if a command is about to be completed.
fn make_room(page: &mut Page, ahead: Ahead) -> Result<(), AllocError>
    ensures same { page.new.sheet ≡ page.old.sheet }
    ensures room { OnOk result (is_command ahead ≡ true → MOST_ITEMS ≤ page.new.room) }
    ensures command { OnErr result (is_command ahead ≡ true) }
    ensures no_memory { MOST_ITEMS ≤ page.old.room → IsOk result }
    ensures unchanged { is_command ahead ≡ false → page.new ≡ page.old }
{
    match ahead {
        Ahead::Nothing => Ok(()),
        Ahead::Status | Ahead::Mark | Ahead::Other => page.ready(),
    }
}

// The setting of automatic status after a command.
fn reporting_after(reporting: Reporting, command: &Command) -> Reporting
    ensures { result ≡ automatic_after reporting (command.now ∷ []) }
{
    match command {
        Command::AutomaticStatus(setting) => *setting,
        _ => reporting,
    }
}

// Why this command may not be completed now. Out of memory isn't among the reasons.
fn obstacle(ahead: Ahead, offline: bool, full: bool) -> Option<FeedStop>
    ensures { result ≡ obstacle ahead offline full }
{
    match ahead {
        Ahead::Nothing => None,
        Ahead::Status if full => Some(FeedStop::AnswersFull),
        Ahead::Status => None,
        Ahead::Mark | Ahead::Other if offline => Some(FeedStop::Offline),
        Ahead::Mark if full => Some(FeedStop::AnswersFull),
        Ahead::Mark | Ahead::Other => None,
    }
}
