//! Sensors that say what stands in a file: three digits, as `--condition` has them.

ghost use Rattle.std.specs.Prelude.{◌≡◌, ◌<◌, ◌⊎◌, ◌++◌, [], ◌∷◌, IfSome, Some};
ghost use Rattle.std.specs.Duration.{as_nanos};
ghost use Rattle.escpos_command.specs.declared.bytes.TheConstants.{LF};
ghost use Rattle.escpos_printer.specs.declared.condition.Condition.{Condition};
ghost use Rattle.escpos_job_parts.specs.Conditions.{condition_text};

use crate::watch::Conditions;
use escpos_addresses::address::AddressText;
use escpos_addresses::printer_link::Printers;
use escpos_command::LF;
use escpos_job_parts::condition::condition_of;
use escpos_printer::Condition;
use std::io;
use std::io::Read;
use std::time::Duration;

/// How long a wait between two looks lasts, in milliseconds.
const PAUSE: u64 = 50;

/// How long a wait between two looks lasts: less than a tenth of a second.
pub(crate) fn pause_time() -> Duration
    ensures { as_nanos result < 100_000_000 }
{
    Duration::from_millis(PAUSE)
}

/// More bytes than the text of a condition and its newline have.
const FILE_BYTES: usize = 8;

/// Sensors whose condition is in a file. While it can't be read, or doesn't hold three digits, they say what they said before.
#[derive(Drop)]
pub struct ConditionFile<'n, N> {
    net: &'n N,
    path: AddressText,
    last: Condition,
}

impl<'n, N> ConditionFile<'n, N> {
    /// The sensors of the file with this path, which say `condition` until it is first read.
    pub fn new(net: &'n N, path: AddressText, condition: Condition) -> Self
        ensures net { result.net.now ≡ net.now }
        ensures path { result.path ≡ path }
        ensures condition { result.last ≡ condition }
    {
        ConditionFile {
            net,
            path,
            last: condition,
        }
    }
}

impl<N: Printers> ConditionFile<'_, N> {
    // What the file says, if it can be read and says it.
    fn read(&self) -> io::Result<Option<Condition>> {
        let mut file = self.net.open_file(self.path.text()?)?;
        let mut piece = [0; FILE_BYTES];
        let count = file.read(&mut piece)?;
        Ok(condition_in(&piece[..count]))
    }
}

impl<N: Printers> Conditions for ConditionFile<'_, N> {
    ghost use Rattle.std.specs.Prelude.{None};

    ghost to_say = { λ _. None };

    fn look(&mut self) -> Condition {
        if let Ok(Some(condition)) = self.read() {
            self.last = condition;
        }
        self.last
    }

    fn pause(&mut self) {
        self.net.pause(pause_time());
    }
}

/// What the sensors say in a file with this text: cover open, paper near its end, paper ended; a digit 0 or 1 each, and perhaps a
/// newline after them. `None` for other texts.
pub fn condition_in(text: &[u8]) -> Option<Condition>
    ensures read { IfSome result (λ condition. (text.now ≡ condition_text condition) ⊎ (text.now ≡ condition_text condition ++ LF ∷ [])) }
    ensures given { (condition : Condition) → text.now ≡ condition_text condition → result ≡ Some condition }
    ensures given_line { (condition : Condition) → text.now ≡ condition_text condition ++ LF ∷ [] → result ≡ Some condition }
{
    match text {
        [digits @ .., last] if *last == LF => condition_of(digits),
        digits => condition_of(digits),
    }
}
