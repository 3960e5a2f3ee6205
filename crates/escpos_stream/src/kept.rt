//! The commands of a stream that are its receipt's, each with the place of its first byte.

ghost use Rattle.std.specs.Prelude.{◌≡◌, ◌≢◌, true, false, [], ◌∷◌, ◌++◌, IsTrue, List};
ghost use Rattle.escpos_command.specs.declared.command.Command.{Command};
ghost use Rattle.escpos_command.specs.Settings.{is_init};
ghost use Rattle.escpos_stream.specs.Steps.{EndsOtherwise, Kept as IsKept, KeptSoFar};
ghost use Rattle.escpos_stream.specs.Streams.{is_question};
ghost use Rattle.std.proofs.Common.{refl};

use escpos_command::Command;
use escpos_decode::Consumer;
use std::alloc::{AllocError, Global};

/// The commands, and the places of their first bytes.
#[derive(Drop)]
pub struct Kept {
    pub commands: Vec<Command>,
    pub places: Vec<usize>,
}

impl Kept {
    /// None yet. Allocates nothing.
    pub fn new(alloc: Global) -> Self
        ensures commands { result.commands.items ≡ [] }
        ensures places { result.places.items ≡ [] }
    {
        Kept {
            commands: Vec::new(alloc),
            places: Vec::new(alloc),
        }
    }

    // Whether the next command is left out: a question, or an Init at the beginning.
    fn leaves_out(&self, command: &Command) -> bool
        ensures question { is_question command.now ≡ true → result ≡ true }
        ensures other { is_question command.now ≡ false → self.now.commands.items ≡ [] → result ≡ is_init command.now }
        ensures within { is_question command.now ≡ false → self.now.commands.items ≢ [] → result ≡ false }
    {
        match command {
            Command::AutomaticStatus(_) | Command::Status(_) => true,
            Command::Init => self.commands.is_empty(),
            _ => false,
        }
    }

    /// Leaves out each Init at the end.
    pub fn end(&mut self)
        ensures kept { (cs : List Command) → KeptSoFar cs self.old.commands.items self.old.places.items → IsKept cs self.new.commands.items self.new.places.items }
        ensures ends { EndsOtherwise self.new.commands.items }
    {
        while ends_in_init(self.commands.as_slice()) {
            self.commands.pop();
            self.places.pop();
        }
    }
}

// Whether the last of the commands is an Init.
fn ends_in_init(commands: &[Command]) -> bool
    ensures init { IsTrue result → (before : List Command) × (c : Command) × (commands.now ≡ before ++ c ∷ []) × IsTrue (is_init c) }
    ensures other { result ≡ false → EndsOtherwise commands.now }
{
    match commands {
        [.., last] => is_init(last),
        [] => false,
    }
}

// Whether the command is an Init.
fn is_init(command: &Command) -> bool
    ensures { result ≡ is_init command.now }
{
    matches!(command, Command::Init)
}

// What is kept takes each command, or leaves it out.
impl Consumer<()> for Kept {
    type Refusal = AllocError;

    ghost accepted = { λ start now cs. start.0.commands.items ≡ [] → start.0.places.items ≡ [] → KeptSoFar cs now.0.commands.items now.0.places.items };

    ghost refused = { λ last now _. Unit {0} };

    fn take(&mut self, command: Command, place: usize, _output: &mut ()) -> Result<(), AllocError> {
        if self.leaves_out(&command) {
            return Ok(());
        }
        self.commands.reserve(1)?;
        self.places.reserve(1)?;
        self.commands.push_reserved(command);
        self.places.push_reserved(place);
        Ok(())
    }

    ghost nothing = { λ start no_commands no_places. record {
      opening = [];
      kept = [];
      split = refl;
      opens = tt;
      first = λ p more e. absurd cc;
      commands_are = no_commands;
      places_are = no_places;
    } };
}
