//! The entries of a receipt's text in JSON: which commands each gives, or why it gives none.
//!
//! The definition is the table in `specs/Entries.antt`. `member` has the names of the members; `json_value` reads their
//! values, and `json_object` those with several parts.

ghost use Rattle.std.specs.Prelude.{◌≡◌, ◌≢◌, [], ◌∷◌, ◌++◌, length, Ok, Err, Some, None, IfOk, IfErr, IfSome, map, option_map};
ghost use Rattle.serde_json.specs.Find.{as_str};
ghost use Rattle.serde_json.specs.View.{view};
ghost use Rattle.escpos_receipt.specs.EntryCommands.{commands_meant, force_after, force_after_member, line_step, with_commands};
ghost use Rattle.escpos_receipt.specs.Entries.{command_of, commands_of, meaning, member_of, only_member, text_in};
ghost use Rattle.escpos_command.specs.declared.command.Command.TheVariants.{Set};

use crate::in_force::InForce;
use crate::json_names::{ALIGNMENTS, CUTS, FONTS, HRI_POSITIONS};
use crate::json_object::{bars_in, feed_cut_in, pulse_in, raster_in, size_in, spacing_in};
use crate::json_value::{byte_in, choice_in, named, switch_in, tables_in};
use crate::layout::layout_in;
use crate::member::{MEMBERS, Member};
use crate::qr_code::{QrCode, qr_in};
use crate::spelled_text::SpelledText;
use escpos_command::{Command, Cut, FeedLines, FeedUnits, SettingKind};
use escpos_text::{Choice, Encoding, TextFault, first_not_plain, write_text};
use serde_json::Value;
use std::alloc::{AllocError, Global};

/// Why an entry gives no commands.
#[derive(Clone, Copy, Debug, PartialEq, Eq)]
pub enum EntryFault {
    /// It isn't an object with one member of the table and a value that this member may have.
    BadShape,
    /// The first character of its text that can't be printed is a control character, below 20 hexadecimal.
    ControlByte,
    /// The first character of its text that can't be printed is this one: no code table of the choice has it.
    NoCharacter(char),
    /// Out of memory.
    Memory,
}

impl From<AllocError> for EntryFault {
    ghost use Rattle.std.specs.Prelude.{◌≡◌};
    ghost use Rattle.escpos_receipt.specs.declared.entry.EntryFault.TheVariants.{Memory};

    ghost from_gives = { λ _ fault. fault ≡ Memory };

    fn from(_error: AllocError) -> Self {
        EntryFault::Memory
    }
}

impl EntryFault {
    ghost use Rattle.std.specs.Prelude.{◌≡◌};
    ghost use Rattle.escpos_receipt.specs.Entries.{fault_of};

    /// Why an entry gives no commands, by why its text can't be printed.
    pub(crate) fn of_text(fault: TextFault) -> Self
        ensures { result ≡ fault_of fault }
    {
        match fault {
            TextFault::Control(_) => EntryFault::ControlByte,
            TextFault::NoCharacter(character) => EntryFault::NoCharacter(character),
            TextFault::Memory => EntryFault::Memory,
        }
    }
}

/// What an entry gives: a text, or one other command.
#[derive(Drop)]
pub enum Entry<'a> {
    /// Characters with their code tables, or the lines of a layout.
    Text(SpelledText<'a>),
    /// The same, and then the line feed that prints them.
    Line(SpelledText<'a>),
    /// One command.
    Command(Command),
}

/// What an entry of the text means.
#[derive(Drop)]
pub enum Meaning<'a> {
    /// Characters, or one command.
    Entry(Entry<'a>),
    /// A QR code: the commands that set it up and print it.
    QrCode(QrCode),
    /// The code tables to choose from are others. That prints nothing.
    Choice,
}

/// Reads an entry, and leaves what is in force after it. After an `Err` what is left isn't said. Only texts that aren't ASCII, layouts,
/// the content of a barcode or a QR code, and the dots of a raster are allocated.
pub fn read_entry<'a>(
    alloc: Global,
    in_force: &mut InForce,
    entry: &'a Value,
) -> Result<Meaning<'a>, EntryFault>
    ensures commands { IfOk result (λ given. meaning in_force.old (view entry.now) ≡ Ok (commands_meant given)) }
    ensures next { IfOk result (λ given. in_force.new ≡ force_after in_force.old (view entry.now) (commands_meant given)) }
    ensures refused { IfErr result (λ fault. fault ≢ EntryFault.Memory → meaning in_force.old (view entry.now) ≡ Err fault) }
{
    match member_of(entry) {
        Some((member, value)) => read_member(alloc, in_force, member, value),
        None => Err(EntryFault::BadShape),
    }
}

// The only member of an entry, if it is one of the table, and its value.
fn member_of(entry: &Value) -> Option<(Member, &Value)>
    ensures { option_map (λ m. (m.0, view m.1.now)) result ≡ member_of (view entry.now) }
{
    let (name, value) = only_member(entry)?;
    let member = named(name, &MEMBERS)?;
    Some((member, value))
}

// Reads a member with this value.
fn read_member<'a>(
    alloc: Global,
    in_force: &mut InForce,
    member: Member,
    value: &'a Value,
) -> Result<Meaning<'a>, EntryFault>
    ensures commands { IfOk result (λ given. commands_of in_force.old member (view value.now) ≡ Ok (commands_meant given)) }
    ensures next { IfOk result (λ given. in_force.new ≡ force_after_member in_force.old member (view value.now) (commands_meant given)) }
    ensures refused { IfErr result (λ fault. fault ≢ EntryFault.Memory → commands_of in_force.old member (view value.now) ≡ Err fault) }
{
    match member {
        Member::Text => match text_in(alloc, &mut in_force.encoding, value) {
            Ok(text) => {
                in_force.line.follow_text(&text);
                Ok(Meaning::Entry(Entry::Text(text)))
            }
            Err(fault) => Err(fault),
        },
        Member::Line => match text_in(alloc, &mut in_force.encoding, value) {
            Ok(text) => {
                in_force.line.follow_line(&text);
                Ok(Meaning::Entry(Entry::Line(text)))
            }
            Err(fault) => Err(fault),
        },
        Member::Pair | Member::Row | Member::Rule | Member::Wrap => {
            match layout_in(alloc, in_force, member, value) {
                Ok(text) => {
                    in_force.line.follow_text(&text);
                    Ok(Meaning::Entry(Entry::Text(text)))
                }
                Err(fault) => Err(fault),
            }
        }
        Member::Qr => match qr_in(alloc, value) {
            Ok(code) => {
                in_force.line.follow_code();
                Ok(Meaning::QrCode(code))
            }
            Err(fault) => Err(fault),
        },
        Member::Tables => match tables_in(value) {
            Some(choice) => {
                in_force.encoding.choice = choice;
                Ok(Meaning::Choice)
            }
            None => Err(EntryFault::BadShape),
        },
        _ => match command_of(alloc, member, value) {
            Ok(command) => {
                follow(&mut in_force.encoding, &command);
                in_force.line.follow(&command);
                Ok(Meaning::Entry(Entry::Command(command)))
            }
            Err(fault) => Err(fault),
        },
    }
}

// Sets the encoding as a command does.
fn follow(encoding: &mut Encoding, command: &Command)
    ensures { encoding.new ≡ with_commands encoding.old (command.now ∷ []) }
{
    match command {
        Command::Set(setting) => set(encoding, setting.kind(), setting.parameter()),
        Command::Init => {
            encoding.table = 0;
            encoding.set = 0;
        }
        _ => {}
    }
}

// Sets the encoding as a setting of this kind with this parameter does.
fn set(encoding: &mut Encoding, kind: SettingKind, parameter: Option<u8>)
    ensures { encoding.new ≡ with_commands encoding.old (Set (kind, parameter) ∷ []) }
{
    match kind {
        SettingKind::Table => encoding.table = parameter.unwrap_or(0),
        SettingKind::CharacterSet => encoding.set = parameter.unwrap_or(0),
        _ => {}
    }
}

// The name and the value of an object's only member.
fn only_member(entry: &Value) -> Option<(&str, &Value)>
    ensures { option_map (λ m. (m.0.now, view m.1.now)) result ≡ only_member (view entry.now) }
{
    let members = entry.as_object()?;
    if members.len() != 1 {
        return None;
    }
    let (name, value) = members.first_key_value()?;
    Some((name.as_str(), value))
}

// The characters of a text with their code tables. A text in ASCII that the character set doesn't change stays where it stands.
fn text_in<'a>(
    alloc: Global,
    encoding: &mut Encoding,
    value: &'a Value,
) -> Result<SpelledText<'a>, EntryFault>
    ensures text { IfOk result (λ text. text_in encoding.old (as_str (view value.now)) ≡ Ok text) }
    ensures next { IfOk result (λ text. encoding.new ≡ with_commands encoding.old text) }
    ensures refused { IfErr result (λ fault. fault ≢ EntryFault.Memory → text_in encoding.old (as_str (view value.now)) ≡ Err fault) }
{
    let Some(text) = value.as_str() else {
        return Err(EntryFault::BadShape);
    };
    match first_not_plain(encoding.set, text.as_bytes()) {
        None => Ok(SpelledText::given(text.as_bytes())),
        Some(_) => written(alloc, encoding, text),
    }
}

// The same for a text that has other characters.
fn written<'a>(
    alloc: Global,
    encoding: &mut Encoding,
    text: &str,
) -> Result<SpelledText<'a>, EntryFault>
    ensures text { IfOk result (λ given. text_in encoding.old (Some text.now) ≡ Ok given) }
    ensures next { IfOk result (λ given. encoding.new ≡ with_commands encoding.old given) }
    ensures refused { IfErr result (λ fault. fault ≢ EntryFault.Memory → text_in encoding.old (Some text.now) ≡ Err fault) }
{
    let mut bytes = Vec::new(alloc);
    // Most texts take no more: a character other than ASCII has two bytes at least in UTF-8, and one here.
    bytes.reserve(text.len())?;
    match write_text(alloc, encoding, text, &mut bytes) {
        Ok(()) => Ok(SpelledText::made(bytes)),
        Err(fault) => Err(EntryFault::of_text(fault)),
    }
}

// The command of a member with this value.
fn command_of(alloc: Global, member: Member, value: &Value) -> Result<Command, EntryFault>
    ensures command { IfOk result (λ command. command_of member (view value.now) ≡ Some command) }
    ensures refused { IfErr result (λ fault. fault ≢ EntryFault.Memory → (fault ≡ EntryFault.BadShape) × (command_of member (view value.now) ≡ None)) }
    ensures no_memory { member ≢ Member.Bars → member ≢ Member.Raster → IfErr result (λ fault. fault ≢ EntryFault.Memory) }
{
    match member {
        Member::Bars => bars_in(alloc, value),
        Member::Raster => raster_in(alloc, value),
        _ => short_command_of(member, value).ok_or(EntryFault::BadShape),
    }
}

// The same, for a member whose command has no content.
#[tactic(auto, unfolding(escpos_command::specs::SettingTable::table))]
fn short_command_of(member: Member, value: &Value) -> Option<Command>
    requires no_bars { member ≢ Member.Bars }
    requires no_raster { member ≢ Member.Raster }
    ensures { result ≡ command_of member (view value.now) }
{
    Some(match member {
        Member::Feed => Command::FeedLines(FeedLines::new(byte_in(value, 0, 255)?)),
        Member::Units => Command::FeedUnits(FeedUnits::new(byte_in(value, 0, 255)?)),
        Member::Spacing => spacing_in(value)?,
        Member::Pulse => Command::Pulse(pulse_in(value)?),
        Member::Mode => Command::set(SettingKind::Mode, byte_in(value, 0, 255)?)?,
        Member::Bold => Command::set(SettingKind::Emphasis, value.as_bool()? as u8)?,
        Member::Strike => Command::set(SettingKind::DoubleStrike, switch_in(value)?)?,
        Member::Reverse => Command::set(SettingKind::Reverse, switch_in(value)?)?,
        Member::Underline => Command::set(SettingKind::Underline, byte_in(value, 0, 2)?)?,
        Member::Font => Command::set(SettingKind::Font, choice_in(value, &FONTS)?)?,
        Member::Table => Command::set(SettingKind::Table, byte_in(value, 0, 255)?)?,
        Member::CharacterSet => Command::set(SettingKind::CharacterSet, byte_in(value, 0, 17)?)?,
        Member::Align => Command::set(SettingKind::Align, choice_in(value, &ALIGNMENTS)?)?,
        Member::Upside => Command::set(SettingKind::UpsideDown, switch_in(value)?)?,
        Member::Size => Command::set(SettingKind::Size, size_in(value)?)?,
        Member::BarHeight => Command::set(SettingKind::BarHeight, byte_in(value, 1, 255)?)?,
        Member::BarWidth => Command::set(SettingKind::BarWidth, byte_in(value, 2, 6)?)?,
        Member::Hri => Command::set(SettingKind::HriPlace, choice_in(value, &HRI_POSITIONS)?)?,
        Member::HriFont => Command::set(SettingKind::HriFont, choice_in(value, &FONTS)?)?,
        Member::Cut => Command::Cut(Cut::new(choice_in(value, &CUTS)?)?),
        Member::FeedCut => Command::Cut(feed_cut_in(value)?),
        Member::Text
        | Member::Line
        | Member::Pair
        | Member::Row
        | Member::Rule
        | Member::Wrap
        | Member::Tables
        | Member::Bars
        | Member::Raster
        | Member::Qr => return None,
    })
}
