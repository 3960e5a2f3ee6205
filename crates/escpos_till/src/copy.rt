//! The line that comes before a receipt which may be on the paper already.

ghost use Rattle.std.specs.Prelude.{◌≡◌, ◌++◌, List, map, IfOk, OnOk};
ghost use Rattle.escpos_command.specs.declared.command.Command.TheVariants.{Char};
ghost use Rattle.std.specs.List.{AllPass};
ghost use Rattle.std.specs.Option.{SomeIff};
ghost use Rattle.escpos_till.specs.Copy.{IsCopyText, copy_line, is_copy_character};

use arrayvec::ArrayVec;
use escpos_command::{Character, Command, SettingKind, laws};
use escpos_receipt::Receipt;
use std::alloc::{AllocError, Global};
use std::marker::Model;

/// The most characters of a copy's text: those of a line.
pub const COPY_CHARACTERS: usize = 42;

const _: () = prove!(COPY_CHARACTERS == 42);

/// The text of a line that says that a receipt is printed again: 1 to 42 characters, each 20 to 7E hexadecimal. The model is
/// the list of their bytes.
#[derive(Debug, Drop)]
pub struct CopyText<'a> {
    text: &'a [u8],
}

impl<'a> Model for CopyText<'a> {
    ghost use Rattle.std.specs.Prelude.{ℕ, List};
    ghost use Rattle.escpos_till.specs.Copy.{IsCopyText};

    ghost Value = { List ℕ };

    ghost view = { λ t. t.text.now };

    ghost invariant = { λ t. IsCopyText t.text.now };
}

impl<'a> CopyText<'a> {
    /// The text of these bytes; `None` if there is none, or there are more than 42, or one of them isn't 20 to 7E.
    pub fn new(text: &'a [u8]) -> Option<Self>
        ensures { SomeIff result (IsCopyText text.now) text.now }
    {
        let short = !text.is_empty() && text.len() <= COPY_CHARACTERS;
        if short && text.iter().all(|byte| is_copy_character(*byte)) {
            Some(CopyText { text })
        } else {
            None
        }
    }

    /// Its bytes, each of which is a character.
    pub fn text(&self) -> &'a [u8]
        ensures same { result.now ≡ self.now }
        ensures is { IsCopyText result.now }
    {
        self.text
    }
}

/// The text of a line that says that a receipt is printed again, kept. The model is the list of their bytes.
#[derive(Debug, Drop)]
pub struct CopyLine {
    text: ArrayVec<u8, COPY_CHARACTERS>,
}

impl Model for CopyLine {
    ghost use Rattle.std.specs.Prelude.{ℕ, List};
    ghost use Rattle.escpos_till.specs.Copy.{IsCopyText};

    ghost Value = { List ℕ };

    ghost view = { λ t. t.text.items };

    ghost invariant = { λ t. IsCopyText t.text.items };
}

impl CopyLine {
    /// Keeps a text. Allocates nothing.
    pub fn of(text: &CopyText<'_>) -> Self
        ensures { result ≡ text.now }
    {
        match ArrayVec::try_from(text.text()) {
            Ok(text) => CopyLine { text },
            Err(_) => unreachable!(),
        }
    }

    /// The text.
    pub fn text(&self) -> CopyText<'_>
        ensures same { result ≡ self.now }
        ensures is { IsCopyText result }
    {
        CopyText::new(self.text.as_slice()).unwrap()
    }

    /// The same once more. Allocates nothing.
    pub fn copy(&self) -> Self
        ensures { result ≡ self.now }
    {
        CopyLine::of(&self.text())
    }
}

// Whether a copy's text may have the character.
fn is_copy_character(byte: u8) -> bool
    ensures { result ≡ is_copy_character byte }
{
    matches!(byte, 0x20..=0x7E)
}

// The receipt with the line before it that says that it is printed again.
pub(crate) fn with_copy(
    alloc: Global,
    text: &CopyText<'_>,
    receipt: &Receipt,
) -> Result<Receipt, AllocError>
    ensures { IfOk result (λ again. again ≡ copy_line text.now ++ receipt.now) }
{
    // Proof only: what a copy's text is.
    let _ = text.text();
    let mut commands = Vec::new(alloc);
    push_copy_line(&mut commands, text)?;
    push_all(&mut commands, receipt.commands())?;
    match Receipt::new(commands) {
        Ok(again) => Ok(again),
        Err(_) => unreachable!(),
    }
}

// Adds the line.
#[tactic(auto, unfolding(escpos_command::specs::SettingTable::table))]
fn push_copy_line(commands: &mut Vec<Command>, text: &CopyText<'_>) -> Result<(), AllocError>
    ensures { OnOk result (commands.new.items ≡ commands.old.items ++ copy_line text.now) }
{
    commands.push(Command::set(SettingKind::Align, 1).unwrap())?;
    commands.push(Command::set(SettingKind::Emphasis, 1).unwrap())?;
    push_characters(commands, text.text())?;
    commands.push(Command::LineFeed)?;
    commands.push(Command::set(SettingKind::Emphasis, 0).unwrap())?;
    commands.push(Command::set(SettingKind::Align, 0).unwrap())?;
    Ok(())
}

// Adds characters.
fn push_characters(commands: &mut Vec<Command>, text: &[u8]) -> Result<(), AllocError>
    requires { AllPass is_copy_character text.now }
    ensures { OnOk result (commands.new.items ≡ commands.old.items ++ map Char text.now) }
{
    for byte in text {
        match Character::new(*byte) {
            Some(character) => commands.push(Command::Char(character))?,
            None => unreachable!(),
        }
    }
    Ok(())
}

// Adds the same commands.
fn push_all(commands: &mut Vec<Command>, others: &[Command]) -> Result<(), AllocError>
    ensures { OnOk result (commands.new.items ≡ commands.old.items ++ others.now) }
{
    for command in others {
        commands.push(laws::same_clone(command)?)?;
    }
    Ok(())
}
