//! The decoder: it takes one byte at a time, and knows where in the command table it stands.
//!
//! Between commands it holds nothing. Within a command it holds its state with the parameters read so far, the content or
//! the dots read so far, and how many bytes of them are still to come. The half command that contracts speak of is computed
//! from these; it isn't kept.

ghost use Rattle.std.specs.Prelude.{ℕ, List, ◌≡◌, ◌<◌, ◌≤◌, [], ◌∷◌, ◌++◌, length, map, take, IsTrue, IfSome, Ok, Err, None, false};
ghost use Rattle.std.specs.List.{AllPass};
ghost use Rattle.escpos_command.specs.Parameters.{is_character};
ghost use Rattle.escpos_command.specs.declared.command.Command.{Command};
ghost use Rattle.escpos_command.specs.declared.command.Command.TheVariants.{Char, Set};
ghost use Rattle.escpos_command.specs.Grammar.{Reads};
ghost use Rattle.escpos_command.specs.CommandTable.{IsCommand, Spells};
ghost use Rattle.escpos_command.specs.Laws.{longest_spelling};
ghost use Rattle.escpos_command.specs.Places.{reason_after};
ghost use Rattle.escpos_decode.specs.State.{NextIs, command_of, completed, has_content, holds};
ghost use Rattle.escpos_decode.specs.Push.{IsRest, PushIs, GoesOn, AheadIs, begins_content};
ghost use Rattle.escpos_decode.specs.declared.decoder.DecodeFault.TheVariants.{Memory};
ghost use Rattle.escpos_decode.specs.declared.decoder.Step.TheVariants.{Done};

use crate::state::{Ending, Next, State};
use escpos_command::{
    Bars, Character, Command, FaultReason, Graphics, QrData, Raster, Setting, SettingKind,
    TabStops, laws,
};
use std::alloc::{AllocError, Global};
use std::marker::Model;
use std::mem;

/// A resumable decoder. Its model is its half command: the bytes that begin a command which isn't whole yet.
#[derive(Drop)]
pub struct Decoder {
    state: State,
    content: Vec<u8>,
    // The byte that was looked at, if nothing was taken since.
    looked: Option<Look>,
    alloc: Global,
}

// A byte, and where it leads from where the decoder stands.
#[derive(Drop)]
struct Look {
    byte: u8,
    next: Next,
}

impl Model for Decoder {
    ghost use Rattle.std.specs.Prelude.{List, ℕ, ◌+◌, ◌≤◌, ◌++◌, IfSome, vec_len, vec_capacity};
    ghost use Rattle.escpos_decode.specs.State.{NextIs, prefix_of, wanted_at, IsAt};

    ghost Value = { List ℕ };

    ghost view = { λ d. prefix_of d.state ++ d.content.items };

    // A decoder may stand at this state, and has room for the bytes of content that are still to come there. A byte that was
    // looked at leads on from there.
    ghost invariant = { λ d. IsAt d.state d.content.items × (vec_len d.content + wanted_at d.state ≤ vec_capacity d.content)
        × IfSome d.looked (λ look. NextIs look.next d.state d.content.items look.byte) };
}

/// What a byte that isn't refused makes of the half command.
#[derive(Debug, Drop, PartialEq, Eq)]
pub enum Step {
    /// The byte continues a command, which isn't whole yet.
    More,
    /// The byte ends this command.
    Done(Command),
}

/// What a byte would complete.
#[derive(Clone, Copy, Debug, PartialEq, Eq)]
pub enum Ahead {
    /// No command: the byte would continue one, or it would be refused.
    Nothing,
    /// A status request.
    Status,
    /// A mark.
    Mark,
    /// Any other command.
    Other,
}

/// Why a byte isn't taken.
#[derive(Clone, Copy, Debug, PartialEq, Eq)]
pub enum DecodeFault {
    /// No spelling begins with the half command and this byte. `at` is the number of bytes of the half command before it.
    /// The half command is dropped, and the next byte is read as the start of a command.
    Fault { at: usize, why: FaultReason },
    /// Out of memory for the content of a barcode, the dots of a raster or of graphics, the data of a QR code or tab stops. The
    /// decoder is unchanged and the byte isn't taken. It comes only for a byte that isn't refused, and only within a barcode, a
    /// raster, tab stops or a function of GS ( k, GS ( L or GS 8 L.
    Memory,
}

impl DecodeFault {
    ghost use Rattle.escpos_decode.specs.Push.{number_of_fault};

    /// The number that programs print: 1 to 5 for a fault's reason, 6 for out of memory.
    pub fn number(self) -> u8
        ensures { result ≡ number_of_fault self }
    {
        match self {
            DecodeFault::Fault { why, .. } => why.number(),
            DecodeFault::Memory => 6,
        }
    }
}

impl From<AllocError> for DecodeFault {
    ghost use Rattle.escpos_decode.specs.declared.decoder.DecodeFault.TheVariants.{Memory};

    ghost from_gives = { λ _ fault. fault ≡ Memory };

    fn from(_error: AllocError) -> Self {
        DecodeFault::Memory
    }
}

impl Decoder {
    /// A decoder with no half command. Allocates nothing.
    pub fn new(alloc: Global) -> Self
        ensures { result ≡ [] }
    {
        Decoder {
            state: State::Start,
            content: Vec::new(alloc),
            looked: None,
            alloc,
        }
    }

    /// Takes one byte. `DecodeFault` says what each fault leaves. After `look` of this byte the table isn't searched again.
    #[inline]
    pub fn push(&mut self, byte: u8) -> Result<Step, DecodeFault>
        ensures step { PushIs result self.old byte self.new }
        // Whatever bytes of a stream came before, the stream is read up to this byte, or refused at its place.
        ensures stream { GoesOn result self.old byte self.new }
        ensures rest { IsRest self.new }
        // Only the content of a barcode, the dots of a raster or of graphics, the data of a QR code and tab stops are allocated.
        ensures memory { result ≡ Err Memory → IsTrue (begins_content (self.old ++ byte ∷ [])) }
    {
        let step = self.step(byte);
        // Proof only: the half command is nothing or the start of a spelling.
        self.is_rest();
        step
    }

    // Takes one byte, as `push` does.
    #[inline]
    fn step(&mut self, byte: u8) -> Result<Step, DecodeFault>
        ensures step { PushIs result self.old byte self.new }
        ensures memory { result ≡ Err Memory → IsTrue (begins_content (self.old ++ byte ∷ [])) }
    {
        match self.character(byte) {
            Some(character) => Ok(Step::Done(Command::Char(character))),
            None => self.take(byte),
        }
    }

    /// The character that the byte is, if the decoder is between commands. Such a byte need not be pushed: it leaves the
    /// decoder as it is. Most bytes of a receipt are characters, for which the table isn't needed.
    #[inline]
    pub(crate) fn character(&self, byte: u8) -> Option<Character>
        ensures step { IfSome result (λ character. PushIs (Ok (Done (Char character))) self.now byte self.now) }
        ensures stream { IfSome result (λ character. GoesOn (Ok (Done (Char character))) self.now byte self.now) }
    {
        // Proof only: readings join.
        laws::joined_readings();
        match self.state {
            State::Start => Character::new(byte),
            _ => None,
        }
    }

    /// How many characters stand at the start of `bytes`, if the decoder is between commands; otherwise 0. They need not be
    /// pushed: they leave the decoder as it is. Most bytes of a receipt are characters, for which the table isn't needed.
    #[inline]
    pub fn characters(&self, bytes: &[u8]) -> usize
        ensures count { result ≤ length bytes.now }
        ensures characters { AllPass is_character (take result bytes.now) }
        ensures between { 1 ≤ result → self.now ≡ [] }
        // Whatever bytes of a stream came before, it is read on by as many of these characters as are taken.
        ensures stream { (n : ℕ) (a : List ℕ) (cs : List Command) → n ≤ result → Reads a cs self.now →
            Reads (a ++ take n bytes.now) (cs ++ map Char (take n bytes.now)) self.now }
    {
        match self.state {
            State::Start => leading_characters(bytes),
            _ => 0,
        }
    }

    /// The setting of two letters and a parameter at the start of `bytes`, if the decoder is between commands. Its three bytes need not
    /// be pushed: they leave the decoder as it is. Most commands of a receipt are such settings.
    #[inline]
    pub fn setting(&self, bytes: &[u8]) -> Option<Setting>
        ensures between { IfSome result (λ setting. self.now ≡ []) }
        ensures spelled { IfSome result (λ setting. (3 ≤ length bytes.now) × Spells (Set setting) (take 3 bytes.now)) }
    {
        match self.state {
            State::Start => leading_setting(bytes),
            _ => None,
        }
    }

    /// Takes the dots of a raster or of graphics at the start of `bytes`, all but their last byte, and returns how many bytes it
    /// took: 0 where the half command has no dots to come, or only one byte of them. No such byte is refused or ends a
    /// command. Allocates nothing.
    pub fn push_dots(&mut self, bytes: &[u8]) -> usize
        ensures count { result ≤ length bytes.now }
        ensures grown { self.new ≡ self.old ++ take result bytes.now }
        ensures stream { (a : List ℕ) (cs : List Command) → Reads a cs self.old → Reads (a ++ take result bytes.now) cs self.new }
    {
        let (state, count) = self.state.past_dots(bytes.len());
        if count == 0 {
            return 0;
        }
        self.looked = None;
        self.content.extend_from_slice(&bytes[..count]).unwrap();
        self.state = state;
        count
    }

    // Takes one byte by the table, or by what was looked up there.
    #[inline(never)]
    fn take(&mut self, byte: u8) -> Result<Step, DecodeFault>
        ensures step { PushIs result self.old byte self.new }
        ensures memory { result ≡ Err Memory → IsTrue (begins_content (self.old ++ byte ∷ [])) }
    {
        match led_to(&mut self.looked, self.state, self.content.as_slice(), byte) {
            Next::Refused => Err(self.refuse()),
            Next::To(state) => {
                self.state = state;
                Ok(Step::More)
            }
            Next::Room(state, count) => {
                self.content.reserve(count)?;
                self.state = state;
                Ok(Step::More)
            }
            Next::Grow(state) => match self.content.push(byte) {
                Ok(()) => {
                    self.state = state;
                    Ok(Step::More)
                }
                Err(_) => Err(DecodeFault::Memory),
            },
            Next::Keep(state) => {
                self.content.push_reserved(byte);
                self.state = state;
                Ok(Step::More)
            }
            Next::Done(command) => {
                self.state = State::Start;
                Ok(Step::Done(command))
            }
            Next::Last(ending) => {
                self.content.push_reserved(byte);
                self.state = State::Start;
                Ok(Step::Done(end(&mut self.content, ending, self.alloc)))
            }
            Next::Closes(ending) => {
                self.state = State::Start;
                Ok(Step::Done(end(&mut self.content, ending, self.alloc)))
            }
        }
    }

    // Drops the half command, and returns the fault of the byte after it.
    fn refuse(&mut self) -> DecodeFault
        ensures fault { result ≡ DecodeFault.Fault (length self.old) (reason_after self.old) }
        ensures empty { self.new ≡ [] }
    {
        let at = self.state.prefix_len() + self.content.len();
        let why = self.state.reason(self.content.as_slice());
        self.clear();
        DecodeFault::Fault { at, why }
    }

    // Proof only: gives the caller this fact: the decoder holds nothing or a half command.
    #[inline]
    fn is_rest(&self)
        ensures { IsRest self.now }
    {
        // Proof only: where bytes lead in the tree is what they are; the decoder's invariant.
        let _ = &self.state;
    }

    /// What `push` of the byte would complete. The half command stays as it is. Allocates nothing.
    #[inline]
    pub fn look(&mut self, byte: u8) -> Ahead
        ensures ahead { AheadIs result self.old byte }
        ensures same { self.new ≡ self.old }
    {
        let next = self.state.next(self.content.as_slice(), byte);
        let ahead = completed(&next);
        self.looked = Some(Look { byte, next });
        ahead
    }

    /// The number of bytes of the half command, at most 524,176: fewer than the longest spelling has. Allocates nothing.
    pub fn pending_len(&self) -> usize
        ensures value { result ≡ length self.now }
        ensures rest { IsRest self.now }
        ensures short { result < longest_spelling }
    {
        // Proof only: a half command is shorter than the longest spelling.
        laws::unique_spellings();
        self.is_rest();
        self.state.prefix_len() + self.content.len()
    }

    /// Drops the half command and frees its memory. The next byte is read as the start of a command. Allocates nothing.
    pub fn clear(&mut self)
        ensures { self.new ≡ [] }
    {
        self.state = State::Start;
        self.looked = None;
        self.content = Vec::new(self.alloc);
    }
}

// Where the byte leads from this state and content. Nothing is kept of what was looked up. A reader looks at no byte, and nothing
// is moved for it.
#[inline]
fn led_to(looked: &mut Option<Look>, state: State, content: &[u8], byte: u8) -> Next
    requires held { IsTrue (holds state) }
    requires empty { has_content state ≡ false → content.now ≡ [] }
    requires looked { IfSome looked.old (λ look. NextIs look.next state content.now look.byte) }
    ensures next { NextIs result state content.now byte }
    ensures none { looked.new ≡ None }
{
    if looked.is_none() {
        return state.next(content, byte);
    }
    led_after_look(looked, state, content, byte)
}

// The same: what was looked up, if it was this byte.
#[inline(never)]
fn led_after_look(looked: &mut Option<Look>, state: State, content: &[u8], byte: u8) -> Next
    requires held { IsTrue (holds state) }
    requires empty { has_content state ≡ false → content.now ≡ [] }
    requires looked { IfSome looked.old (λ look. NextIs look.next state content.now look.byte) }
    ensures next { NextIs result state content.now byte }
    ensures none { looked.new ≡ None }
{
    match looked.take() {
        Some(look) if look.byte == byte => look.next,
        _ => state.next(content, byte),
    }
}

// How many characters stand at the start of `bytes`.
#[inline]
fn leading_characters(bytes: &[u8]) -> usize
    ensures count { result ≤ length bytes.now }
    ensures characters { AllPass is_character (take result bytes.now) }
{
    match bytes.iter().position(|byte| !is_character(*byte)) {
        Some(count) => count,
        None => bytes.len(),
    }
}

// The setting of two letters and a parameter at the start of `bytes`.
#[inline]
fn leading_setting(bytes: &[u8]) -> Option<Setting>
    ensures spelled { IfSome result (λ setting. (3 ≤ length bytes.now) × Spells (Set setting) (take 3 bytes.now)) }
{
    if bytes.len() < 3 {
        return None;
    }
    match SettingKind::with_prefix(bytes[0], bytes[1], None) {
        Some(kind) => Setting::new(kind, Some(bytes[2])),
        None => None,
    }
}

// Whether the byte is that of a character.
#[inline]
fn is_character(byte: u8) -> bool
    ensures { result ≡ is_character byte }
{
    byte >= 0x20
}

// What a step completes.
#[inline]
fn completed(next: &Next) -> Ahead
    ensures { result ≡ completed next.now }
{
    match next {
        Next::Done(Command::Status(_)) => Ahead::Status,
        Next::Done(Command::Mark(_)) => Ahead::Mark,
        Next::Done(_) | Next::Last(_) | Next::Closes(_) => Ahead::Other,
        Next::Refused | Next::To(_) | Next::Room(..) | Next::Grow(_) | Next::Keep(_) => {
            Ahead::Nothing
        }
    }
}

// The command of a content that has ended. It takes the content, and none is left.
#[inline(never)]
fn end(content: &mut Vec<u8>, ending: Ending, alloc: Global) -> Command
    requires { IsCommand (command_of ending content.old.items) }
    ensures command { result ≡ command_of ending content.old.items }
    ensures left { content.new.items ≡ [] }
{
    let content = mem::replace(content, Vec::new(alloc));
    match ending {
        Ending::Bars(form, symbology) => match Bars::new(form, symbology, content) {
            Ok(bars) => Command::Bars(bars),
            Err(_) => unreachable!(),
        },
        Ending::Raster {
            scale,
            width,
            height,
        } => match Raster::new(scale, u16::from(width), height, content) {
            Ok(raster) => Command::Raster(raster),
            Err(_) => unreachable!(),
        },
        Ending::QrStore => match QrData::new(content) {
            Ok(stored) => Command::QrStore(stored),
            Err(_) => unreachable!(),
        },
        Ending::Graphics(head) => match Graphics::new(head, content) {
            Ok(stored) => Command::GraphicsStore(stored),
            Err(_) => unreachable!(),
        },
        Ending::TabStops => match TabStops::new(content) {
            Ok(stops) => Command::TabStops(stops),
            Err(_) => unreachable!(),
        },
    }
}
