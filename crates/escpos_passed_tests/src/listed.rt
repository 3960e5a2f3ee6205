//! Tokens as a list of letters: c for a command, and p for one that is passed over.

ghost use Rattle.std.specs.Prelude.{⊤};

use escpos_command::Command;
use escpos_passed::{Row, TokenConsumer};
use std::alloc::{AllocError, Global};

#[derive(Debug, Drop)]
pub struct Listed {
    letters: Vec<u8>,
}

impl Listed {
    pub fn new(alloc: Global) -> Self {
        Listed {
            letters: Vec::new(alloc),
        }
    }

    pub fn letters(&self) -> &[u8] {
        self.letters.as_slice()
    }

    pub fn clear(&mut self) {
        self.letters.clear();
    }

    fn push(&mut self, letter: u8) -> Result<(), AllocError> {
        match self.letters.push(letter) {
            Ok(()) => Ok(()),
            Err(_) => Err(AllocError),
        }
    }
}

// What it takes, no clause says: a test compares it with a text.
impl TokenConsumer<()> for Listed {
    type Refusal = AllocError;

    ghost accepted = { λ start now ts. ⊤ };

    ghost refused = { λ last now refusal. ⊤ };

    fn take(
        &mut self,
        _command: Command,
        _place: usize,
        _output: &mut (),
    ) -> Result<(), AllocError> {
        self.push(b'c')
    }

    fn take_text(
        &mut self,
        _text: &[u8],
        _place: usize,
        _output: &mut (),
    ) -> Result<usize, AllocError> {
        match self.push(b'c') {
            Ok(()) => Ok(1),
            Err(error) => Err(error),
        }
    }

    fn pass(
        &mut self,
        _row: &Row,
        _bytes: &[u8],
        _place: usize,
        _output: &mut (),
    ) -> Result<(), AllocError> {
        self.push(b'p')
    }

    ghost nothing = { λ start. tt };
}
