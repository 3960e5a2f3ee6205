//! Receipts read from text in JSON: an array whose entries give the commands, one after another.

ghost use Rattle.std.specs.Prelude.{◌≡◌, ◌≢◌, ℕ, List, [], ◌∷◌, ◌<◌, None, Ok, Err, IfErr, ◌≤◌, ◌+◌, ◌++◌, ◌⊎◌, length, IfOk, IfSome, MatchOption, OnOk, IsErrOf, map, flat_map, vec_len, vec_capacity};
ghost use Rattle.escpos_command.specs.declared.command.Command.{Command};
ghost use Rattle.escpos_receipt.specs.SpelledText.{IsTextBytes, lines_commands};
ghost use Rattle.escpos_receipt.specs.declared.options.ReceiptOptions.{ReceiptOptions};
ghost use Rattle.escpos_receipt.specs.EntryCommands.{IsValueOf, commands_in, commands_meant};
ghost use Rattle.serde_json.specs.Data.{array};
ghost use Rattle.serde_json.specs.Find.{as_array};
ghost use Rattle.serde_json.specs.View.{items_view, view};
ghost use Rattle.serde_json.specs.Errors.{IsMemory};
ghost use Rattle.escpos_receipt.specs.Describes.{Describes, DescribesWith, Give, IsFaultWith, IsJsonFault, IsRefusedArray, IsRefusedEntry};
ghost use Rattle.escpos_receipt.specs.Entries.{in_force, meaning};
ghost use Rattle.escpos_receipt.specs.EntryCommands.{force_after};
ghost use Rattle.escpos_receipt.specs.EntryErrors.{error_at};
ghost use Rattle.escpos_receipt.specs.Options.{usual_options};
ghost use Rattle.escpos_receipt.specs.Printable.{IsPrintable};
ghost use Rattle.escpos_receipt.specs.ReadBack.{PrintsAsWritten};
ghost use Rattle.escpos_receipt.specs.Whole.{Whole};

use crate::codes::are_printable;
use crate::entries::are_whole;
use crate::entry::{Entry, EntryFault, Meaning, read_entry};
use crate::in_force::InForce;
use crate::laws;
use crate::options::ReceiptOptions;
use crate::receipt::{Receipt, ReceiptFault};
use escpos_command::{Character, Command, ESC, LF, SettingKind};
use serde_json::{Category, Value};
use std::alloc::{AllocError, Global};
use std::marker::Model;

/// Why a text gives no receipt: the first reason that applies. 5 comes first; then, at the first entry that is refused, 6,
/// 7 or 8, with its place, counted from 0; then why its commands aren't a receipt, 1 to 4 or 9; then 10.
#[derive(Clone, Copy, Debug, PartialEq, Eq)]
pub enum JsonFault {
    /// 1 to 4, or 9: the commands that the text describes aren't a receipt.
    NotWhole(ReceiptFault),
    /// 5: it isn't JSON in UTF-8, or it nests deeper than 127.
    NotJson,
    /// 6: the entry at this place has no member of the table, more than one, or one with a value that it may not have. Or
    /// the text isn't an array; then the place is 0.
    BadShape { at: usize },
    /// 7: the text of the entry at this place has a control character.
    ControlByte { at: usize },
    /// 8: the text of the entry at this place has this character, which no code table of the choice has.
    NoCharacter { at: usize, character: char },
    /// 10: a printer with lines of the width that the options have leaves out the barcode or the QR code of the command at this
    /// place: it is wider than the line, or there is none with this content.
    NotPrintable { at: usize },
}

impl JsonFault {
    ghost use Rattle.escpos_receipt.specs.Refusals.{json_character, json_name, json_number, json_place};

    /// The number that programs print.
    pub fn number(self) -> u8
        ensures { result ≡ json_number self }
    {
        match self {
            JsonFault::NotWhole(fault) => fault.number(),
            JsonFault::NotJson => 5,
            JsonFault::BadShape { .. } => 6,
            JsonFault::ControlByte { .. } => 7,
            JsonFault::NoCharacter { .. } => 8,
            JsonFault::NotPrintable { .. } => 10,
        }
    }

    /// The name that programs print.
    pub fn name(self) -> &'static str
        ensures value { result.now ≡ json_name self }
        ensures short { length result.now ≤ 12 }
    {
        match self {
            JsonFault::NotWhole(fault) => fault.name(),
            JsonFault::NotJson => "NotJson",
            JsonFault::BadShape { .. } => "BadShape",
            JsonFault::ControlByte { .. } => "ControlByte",
            JsonFault::NoCharacter { .. } => "NoCharacter",
            JsonFault::NotPrintable { .. } => "NotPrintable",
        }
    }

    /// The place of the entry that is refused, or of the command that can't stand where it does or isn't printed, counted from 0;
    /// `None` for the other faults.
    pub fn place(self) -> Option<usize>
        ensures { result ≡ json_place self }
    {
        match self {
            JsonFault::NotWhole(fault) => fault.place(),
            JsonFault::BadShape { at }
            | JsonFault::ControlByte { at }
            | JsonFault::NoCharacter { at, .. }
            | JsonFault::NotPrintable { at } => Some(at),
            JsonFault::NotJson => None,
        }
    }

    /// The character that no code table of the choice has, for `NoCharacter`; `None` for the other faults.
    pub fn character(self) -> Option<char>
        ensures { result ≡ json_character self }
    {
        match self {
            JsonFault::NoCharacter { character, .. } => Some(character),
            _ => None,
        }
    }
}

/// Why no receipt was read.
#[derive(Clone, Copy, Debug, PartialEq, Eq)]
pub enum JsonError {
    /// The text gives no receipt.
    Refused(JsonFault),
    /// Out of memory. It may come in place of any other result.
    Memory,
}

impl From<AllocError> for JsonError {
    ghost use Rattle.std.specs.Prelude.{◌≡◌};
    ghost use Rattle.escpos_receipt.specs.declared.json.JsonError.TheVariants.{Memory};

    ghost from_gives = { λ _ error. error ≡ Memory };

    fn from(_error: AllocError) -> Self {
        JsonError::Memory
    }
}

impl EntryFault {
    // The error of a text whose entry at this place gives no commands.
    fn at(self, at: usize) -> JsonError
        ensures { result ≡ error_at at self }
    {
        match self {
            EntryFault::BadShape => JsonError::Refused(JsonFault::BadShape { at }),
            EntryFault::ControlByte => JsonError::Refused(JsonFault::ControlByte { at }),
            EntryFault::NoCharacter(character) => {
                JsonError::Refused(JsonFault::NoCharacter { at, character })
            }
            EntryFault::Memory => JsonError::Memory,
        }
    }
}

/// A receipt's text in JSON, once it was read: its value alone, so that the text may be dropped. The model is that value.
#[derive(Drop)]
pub struct ReceiptText {
    value: Value,
}

impl Model for ReceiptText {
    ghost use Rattle.serde_json.specs.declared.value.Value.{Value as json};
    ghost use Rattle.serde_json.specs.contracts.value.Value as e;
    ghost use Rattle.std.specs.Coded.{codes};

    ghost Value = { json };

    ghost coded = { Prim.hlevel (codes, e.the_row.coded) };

    ghost view = { λ t. t.value };
}

impl ReceiptText {
    /// Reads a text as JSON.
    pub fn new(alloc: Global, text: &[u8]) -> Result<Self, JsonError>
        ensures value { IfOk result (λ json. IsValueOf text.now json) }
        ensures refused { (fault : JsonFault) → IsErrOf result (JsonError.Refused fault) → (options : ReceiptOptions) → IsFaultWith options fault text.now }
    {
        match Value::from_slice(alloc, text) {
            Ok(value) => Ok(ReceiptText { value }),
            Err(error) => Err(error_of(&error)),
        }
    }

    /// What the entries of a receipt give, one after another. Texts in ASCII stay where they are.
    pub fn entries(
        &self,
        alloc: Global,
        options: &ReceiptOptions,
    ) -> Result<Vec<Entry<'_>>, JsonError>
        ensures commands { IfOk result (λ given. (text : List ℕ) → IsValueOf text self.now → DescribesWith options.now text (flat_map commands_in given.items)) }
        ensures whole { IfOk result (λ given. Whole (flat_map commands_in given.items)) }
        ensures printable { IfOk result (λ given. IsPrintable options.now.width (flat_map commands_in given.items)) }
        ensures refused { (fault : JsonFault) → IsErrOf result (JsonError.Refused fault) → (text : List ℕ) → IsValueOf text self.now
            → IsFaultWith options.now fault text }
    {
        whole_entries(alloc, options, values_of(&self.value)?)
    }

    /// The receipt.
    pub fn receipt(&self, alloc: Global, options: &ReceiptOptions) -> Result<Receipt, JsonError>
        ensures receipt { IfOk result (λ receipt. (text : List ℕ) → IsValueOf text self.now → DescribesWith options.now text receipt) }
        ensures whole { IfOk result (λ receipt. Whole receipt) }
        ensures printable { IfOk result (λ receipt. IsPrintable options.now.width receipt) }
        ensures refused { (fault : JsonFault) → IsErrOf result (JsonError.Refused fault) → (text : List ℕ) → IsValueOf text self.now
            → IsFaultWith options.now fault text }
    {
        receipt_of(alloc, options, values_of(&self.value)?)
    }
}

impl Receipt {
    /// The receipt that a text in JSON describes: an array of objects with one member each, as docs/PROFILE.md has them.
    pub fn from_json(alloc: Global, text: &[u8]) -> Result<Self, JsonError>
        ensures receipt { IfOk result (λ receipt. Describes text.now receipt × Whole receipt) }
        ensures printable { IfOk result (λ receipt. IsPrintable usual_options.width receipt) }
        ensures as_written { IfOk result (λ receipt. PrintsAsWritten usual_options text.now receipt) }
        ensures refused { (fault : JsonFault) → IsErrOf result (JsonError.Refused fault) → IsJsonFault fault text.now }
    {
        Receipt::from_json_with(alloc, &ReceiptOptions::usual(), text)
    }

    /// The same with these options.
    pub fn from_json_with(
        alloc: Global,
        options: &ReceiptOptions,
        text: &[u8],
    ) -> Result<Self, JsonError>
        ensures receipt { IfOk result (λ receipt. DescribesWith options.now text.now receipt × Whole receipt) }
        ensures printable { IfOk result (λ receipt. IsPrintable options.now.width receipt) }
        ensures as_written { IfOk result (λ receipt. PrintsAsWritten options.now text.now receipt) }
        ensures refused { (fault : JsonFault) → IsErrOf result (JsonError.Refused fault) → IsFaultWith options.now fault text.now }
    {
        // Proof only: what the text describes prints its strings as they are written.
        laws::printed_as_written();
        match ReceiptText::new(alloc, text) {
            Ok(json) => json.receipt(alloc, options),
            Err(error) => Err(error),
        }
    }
}

// The error of a text that couldn't be read as JSON.
fn error_of(error: &serde_json::Error) -> JsonError
    ensures memory { IsMemory error.now → result ≡ JsonError.Memory }
    ensures refused { ¬ IsMemory error.now → result ≡ JsonError.Refused JsonFault.NotJson }
{
    match error.classify() {
        Category::Memory => JsonError::Memory,
        _ => JsonError::Refused(JsonFault::NotJson),
    }
}

// The values of an array.
fn values_of(value: &Value) -> Result<&[Value], JsonError>
    ensures values { IfOk result (λ values. view value.now ≡ array (items_view values.now)) }
    ensures refused { IfErr result (λ why. (why ≡ JsonError.Refused (JsonFault.BadShape 0)) × (as_array (view value.now) ≡ None)) }
{
    match value.as_array() {
        Some(values) => Ok(values.as_slice()),
        None => Err(JsonError::Refused(JsonFault::BadShape { at: 0 })),
    }
}

// What the values give as entries, if that is a receipt of which no code is left out.
fn whole_entries<'a>(
    alloc: Global,
    options: &ReceiptOptions,
    values: &'a [Value],
) -> Result<Vec<Entry<'a>>, JsonError>
    ensures commands { IfOk result (λ given. Give options.now (map view values.now) (flat_map commands_in given.items)) }
    ensures whole { IfOk result (λ given. Whole (flat_map commands_in given.items)) }
    ensures printable { IfOk result (λ given. IsPrintable options.now.width (flat_map commands_in given.items)) }
    ensures refused { (fault : JsonFault) → IsErrOf result (JsonError.Refused fault) → IsRefusedArray options.now fault (map view values.now) }
{
    match entries_if_whole(alloc, options, values) {
        Ok(Some(entries)) => return Ok(entries),
        Ok(None) => {}
        Err(error) => return Err(error),
    }
    match receipt_of(alloc, options, values) {
        Ok(_) => unreachable!(),
        Err(error) => Err(error),
    }
}

// The same; `None` if it is no such receipt. Then the entries are dropped before anyone asks why.
fn entries_if_whole<'a>(
    alloc: Global,
    options: &ReceiptOptions,
    values: &'a [Value],
) -> Result<Option<Vec<Entry<'a>>>, JsonError>
    ensures commands { IfOk result (λ given. IfSome given (λ given. Give options.now (map view values.now) (flat_map commands_in given.items))) }
    ensures whole { IfOk result (λ given. IfSome given (λ given. Whole (flat_map commands_in given.items))) }
    ensures printable { IfOk result (λ given. IfSome given (λ given. IsPrintable options.now.width (flat_map commands_in given.items))) }
    ensures none { IfOk result (λ given. given ≡ None → (commands : List Command) × Give options.now (map view values.now) commands
        × (Whole commands → ¬ IsPrintable options.now.width commands)) }
    ensures refused { (fault : JsonFault) → IsErrOf result (JsonError.Refused fault) → IsRefusedEntry options.now fault (map view values.now) }
{
    let entries = read_values::<Entry<'a>>(alloc, options, values)?;
    Ok(if are_whole(&entries) && are_printable(options.width, &entries) {
        Some(entries)
    } else {
        None
    })
}

// The receipt of the commands that the values give.
fn receipt_of(
    alloc: Global,
    options: &ReceiptOptions,
    values: &[Value],
) -> Result<Receipt, JsonError>
    ensures commands { IfOk result (λ receipt. Give options.now (map view values.now) receipt × Whole receipt) }
    ensures printable { IfOk result (λ receipt. IsPrintable options.now.width receipt) }
    ensures refused { (fault : JsonFault) → IsErrOf result (JsonError.Refused fault) → IsRefusedArray options.now fault (map view values.now) }
{
    let commands = match read_values::<Command>(alloc, options, values) {
        Ok(commands) => commands,
        Err(error) => return Err(error),
    };
    match Receipt::new(commands) {
        Ok(receipt) => match receipt.not_printable(options.width) {
            None => Ok(receipt),
            Some(at) => Err(JsonError::Refused(JsonFault::NotPrintable { at })),
        },
        Err((fault, _)) => Err(JsonError::Refused(JsonFault::NotWhole(fault))),
    }
}

// What the value at this place means as an entry.
fn read_at<'a>(
    alloc: Global,
    at: usize,
    in_force: &mut InForce,
    value: &'a Value,
) -> Result<Meaning<'a>, JsonError>
    ensures commands { IfOk result (λ given. meaning in_force.old (view value.now) ≡ Ok (commands_meant given)) }
    ensures next { IfOk result (λ given. in_force.new ≡ force_after in_force.old (view value.now) (commands_meant given)) }
    ensures refused { IfErr result (λ error. (why : EntryFault) × (error ≡ error_at at why)
        × (why ≢ EntryFault.Memory → meaning in_force.old (view value.now) ≡ Err why)) }
{
    match read_entry(alloc, in_force, value) {
        Ok(entry) => Ok(entry),
        Err(fault) => Err(fault.at(at)),
    }
}

// What entries of a text are read as: commands, or entries that give them.
trait ReadAs<'a>: Sized {
    // The commands that some of these are.
    ghost commands: { List Self → List Command };

    // None, which are no commands.
    fn none(alloc: Global) -> Vec<Self>
        ensures { commands result.items ≡ [] };

    // Adds what gives the commands of one entry of the text.
    fn add(given: &mut Vec<Self>, meaning: Meaning<'a>) -> Result<(), AllocError>
        ensures { OnOk result (commands given.new.items ≡ commands given.old.items ++ commands_meant meaning.entry) };
}

impl<'a> ReadAs<'a> for Entry<'a> {
    ghost commands = { flat_map commands_in };

    fn none(alloc: Global) -> Vec<Self> {
        Vec::new(alloc)
    }

    fn add(given: &mut Vec<Self>, meaning: Meaning<'a>) -> Result<(), AllocError> {
        match meaning {
            Meaning::Entry(entry) => {
                given.reserve(1)?;
                given.push_reserved(entry);
            }
            Meaning::QrCode(code) => {
                given.reserve(4)?;
                given.push_reserved(Entry::Command(Command::QrSize(code.size)));
                given.push_reserved(Entry::Command(Command::QrLevel(code.level)));
                given.push_reserved(Entry::Command(Command::QrStore(code.stored)));
                given.push_reserved(Entry::Command(Command::QrPrint));
            }
            Meaning::Choice => {}
        }
        Ok(())
    }
}

impl<'a> ReadAs<'a> for Command {
    ghost commands = { λ commands. commands };

    fn none(alloc: Global) -> Vec<Self> {
        Vec::new(alloc)
    }

    fn add(given: &mut Vec<Self>, meaning: Meaning<'a>) -> Result<(), AllocError> {
        match meaning {
            Meaning::Entry(Entry::Text(text)) => add_text(given, text.bytes(), 0),
            Meaning::Entry(Entry::Line(text)) => {
                add_text(given, text.bytes(), 1)?;
                given.push_reserved(Command::LineFeed);
                Ok(())
            }
            Meaning::Entry(Entry::Command(command)) => {
                given.reserve(1)?;
                given.push_reserved(command);
                Ok(())
            }
            Meaning::QrCode(code) => {
                given.reserve(4)?;
                given.push_reserved(Command::QrSize(code.size));
                given.push_reserved(Command::QrLevel(code.level));
                given.push_reserved(Command::QrStore(code.stored));
                given.push_reserved(Command::QrPrint);
                Ok(())
            }
            Meaning::Choice => Ok(()),
        }
    }
}

// What the values give, one after another.
fn read_values<'a, T: ReadAs<'a> + Drop>(
    alloc: Global,
    options: &ReceiptOptions,
    values: &'a [Value],
) -> Result<Vec<T>, JsonError>
    ensures commands { IfOk result (λ given. Give options.now (map view values.now) (T.commands given.items)) }
    ensures refused { (fault : JsonFault) → IsErrOf result (JsonError.Refused fault) → IsRefusedEntry options.now fault (map view values.now) }
{
    let mut in_force = options.in_force();
    let mut given = T::none(alloc);
    for (at, value) in values.iter().enumerate() {
        let meaning = match read_at(alloc, at, &mut in_force, value) {
            Ok(meaning) => meaning,
            Err(error) => return Err(error),
        };
        match T::add(&mut given, meaning) {
            Ok(()) => {}
            Err(_) => return Err(JsonError::Memory),
        }
    }
    Ok(given)
}

// Adds the commands that these bytes spell, and makes room for `more` commands after them.
fn add_text(commands: &mut Vec<Command>, text: &[u8], more: usize) -> Result<(), AllocError>
    requires spelled { IsTextBytes text.now }
    requires few { more ≤ 1 }
    ensures added { OnOk result (commands.new.items ≡ commands.old.items ++ lines_commands text.now) }
    ensures room { OnOk result (vec_len commands.new + more ≤ vec_capacity commands.new) }
{
    commands.reserve(text.len() + more)?;
    let mut rest = text;
    while let Some((command, following)) = first_of_text(rest) {
        commands.push_reserved(command);
        rest = following;
    }
    Ok(())
}

// The first of the commands that these bytes spell, and the bytes of the others.
#[tactic(auto, unfolding(escpos_command::specs::SettingTable::table))]
fn first_of_text(text: &[u8]) -> Option<(Command, &[u8])>
    requires { IsTextBytes text.now }
    ensures first { IfSome result (λ first. (lines_commands text.now ≡ first.0 ∷ lines_commands first.1.now) × IsTextBytes first.1.now × (length first.1.now < length text.now)) }
    ensures none { result ≡ None → text.now ≡ [] }
{
    let (byte, rest) = first_byte(text)?;
    if byte == ESC {
        let (_, rest) = first_byte(rest)?;
        let (number, rest) = first_byte(rest)?;
        return Some((Command::set(SettingKind::Table, number)?, rest));
    }
    if byte == LF {
        return Some((Command::LineFeed, rest));
    }
    Some((Command::Char(Character::new(byte)?), rest))
}

// The first of these bytes, and the others.
fn first_byte(text: &[u8]) -> Option<(u8, &[u8])>
    ensures { MatchOption result (text.now ≡ []) (λ first. text.now ≡ first.0 ∷ first.1.now) }
{
    match text {
        [] => None,
        [byte, rest @ ..] => Some((*byte, rest)),
    }
}
