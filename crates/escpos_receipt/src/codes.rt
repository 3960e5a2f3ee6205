//! Whether a printer prints the barcodes and QR codes of commands, or leaves them out.
//!
//! `specs/Printable.antt` looks back in the list of commands; the code keeps the settings that decide it.

ghost use Rattle.std.specs.Prelude.{◌≡◌, ◌↔◌, List, [], ◌++◌, IsTrue, false, MatchOption, length, ◌≤◌, flat_map, option_map};
ghost use Rattle.escpos_command.specs.declared.command.Command.{Command};
ghost use Rattle.escpos_command.specs.declared.command.Command.TheVariants.{Set};
ghost use Rattle.escpos_barcode.specs.QrSizes.{qr_modules};
ghost use Rattle.escpos_receipt.specs.CodeSteps.{code_settings_after, kept};
ghost use Rattle.escpos_receipt.specs.EntryCommands.{commands_in};
ghost use Rattle.escpos_receipt.specs.Printable.{IsFirstLeftOut, IsPrintable, code_settings, code_settings_in, has_bars, has_side, is_left_out};

use crate::entry::Entry;
use escpos_barcode::{qr_modules, runs};
use escpos_command::{Bars, Command, Correction, LineWidth, QrData, SettingKind};
use escpos_paper::{Settings, added_digit};

// The settings that say how large barcodes and QR codes are, with the data that is stored for QR codes.
#[derive(Clone, Copy)]
struct Codes<'a> {
    module_width: u8,
    size: u8,
    correction: Correction,
    stored: Option<&'a QrData>,
}

impl<'a> Codes<'a> {
    // Those of a printer just switched on.
    fn power_on() -> Self
        ensures { kept result ≡ code_settings [] }
    {
        let settings = Settings::power_on();
        Codes {
            module_width: settings.bars.module_width,
            size: settings.codes.size,
            correction: settings.codes.correction,
            stored: None,
        }
    }

    // After a setting of this kind with this parameter.
    fn set(&mut self, kind: SettingKind, parameter: Option<u8>)
        ensures { kept self.new ≡ code_settings_after (kept self.old) (Set (kind, parameter)) }
    {
        if let SettingKind::BarWidth = kind {
            self.module_width = parameter.unwrap_or(0);
        }
    }

    // After one more command.
    fn follow(&mut self, command: &'a Command)
        ensures { kept self.new ≡ code_settings_after (kept self.old) command.now }
    {
        match command {
            Command::Set(setting) => self.set(setting.kind(), setting.parameter()),
            Command::QrSize(size) => self.size = size.byte(),
            Command::QrLevel(level) => self.correction = level.correction(),
            Command::QrStore(content) => self.stored = Some(content),
            Command::Init => *self = Codes::power_on(),
            _ => {}
        }
    }

    // Whether a printer with lines of this width leaves out the code that the command would print.
    fn leaves_out(&self, width: LineWidth, command: &Command) -> bool
        ensures { result ≡ is_left_out width (kept self.now) command.now }
    {
        match command {
            Command::Bars(bars) => !has_bars(width, self.module_width, bars),
            Command::QrPrint => match self.stored {
                Some(content) => !has_side(width, self.size, self.correction, content),
                None => false,
            },
            _ => false,
        }
    }

    // After one more entry, if none of its codes is left out.
    fn follow_entry(&mut self, width: LineWidth, entry: &'a Entry<'_>) -> bool
        ensures printable { IsTrue result → (before : List Command) → kept self.old ≡ code_settings before → IsPrintable width before
            → IsPrintable width (before ++ commands_in entry.now) × (kept self.new ≡ code_settings (before ++ commands_in entry.now)) }
        ensures left_out { result ≡ false → (before following : List Command) → kept self.old ≡ code_settings before
            → ¬ IsPrintable width (before ++ (commands_in entry.now ++ following)) }
    {
        match entry {
            Entry::Text(text) => {
                // Proof only: what a text is.
                text.in_order();
                true
            }
            Entry::Line(text) => {
                // Proof only: what a text is.
                text.in_order();
                true
            }
            Entry::Command(command) => {
                let is_printed = !self.leaves_out(width, command);
                self.follow(command);
                is_printed
            }
        }
    }
}

// Whether the barcode has bars that fit on a line of this width.
fn has_bars(width: LineWidth, module_width: u8, bars: &Bars) -> bool
    ensures { result ≡ has_bars width module_width bars.now }
{
    let added = added_digit(bars);
    runs(width, bars.symbology(), module_width, bars.content(), added).is_some()
}

// Whether there is a QR code of the content that fits on a line of this width.
fn has_side(width: LineWidth, size: u8, correction: Correction, content: &QrData) -> bool
    ensures { result ≡ has_side width size (qr_modules correction content.now) }
{
    match qr_modules(correction, content.as_slice()) {
        Some(modules) => usize::from(size) * modules <= usize::from(width.dots()),
        None => false,
    }
}

/// Whether a printer with lines of this width, these settings and this data stored for QR codes leaves out the barcode or the QR code that
/// the command would print. False for a command that prints none. Allocates nothing.
pub fn is_left_out(
    width: LineWidth,
    settings: &Settings,
    stored: Option<&QrData>,
    command: &Command,
) -> bool
    ensures { result ≡ is_left_out width (code_settings_in settings.now (option_map (λ content. content.now) stored.entry)) command.now }
{
    let codes = Codes {
        module_width: settings.bars.module_width,
        size: settings.codes.size,
        correction: settings.codes.correction,
        stored,
    };
    codes.leaves_out(width, command)
}

/// The place of the first of the commands, counted from 0, whose barcode or QR code a printer with lines of this width leaves out.
pub fn first_left_out(width: LineWidth, commands: &[Command]) -> Option<usize>
    ensures { MatchOption result (IsPrintable width commands.now) (λ at. IsFirstLeftOut width commands.now at) }
{
    let mut codes = Codes::power_on();
    for (at, command) in commands.iter().enumerate() {
        if codes.leaves_out(width, command) {
            return Some(at);
        }
        codes.follow(command);
    }
    None
}

/// Whether a printer with lines of this width leaves out none of the codes of the entries.
pub fn are_printable(width: LineWidth, entries: &[Entry<'_>]) -> bool
    ensures { IsTrue result ↔ IsPrintable width (flat_map commands_in entries.now) }
{
    let mut codes = Codes::power_on();
    for entry in entries {
        if !codes.follow_entry(width, entry) {
            return false;
        }
    }
    true
}
