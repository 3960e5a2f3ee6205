//! What the answers of a printer meet.

ghost use Rattle.std.specs.Prelude.{◌≡◌, ◌&&◌};
ghost use Rattle.escpos_probe.specs.Answers.{after_answer, is_mark_answer, is_status_answer};

use crate::answer::Answer;
use crate::question::{MARK_ANSWER, Shows};

/// What the answers so far show.
#[derive(Clone, Copy, Debug, PartialEq, Eq)]
pub struct Premises {
    /// Nothing came unasked.
    pub quiet: bool,
    /// A mark was answered with its process ID. (Reference: GS ( H, function 48.)
    pub marks: bool,
    /// Each of the four requests for status was answered with a status byte. (Reference: DLE EOT.)
    pub status: bool,
}

impl Premises {
    /// Whether the printer answers marks, and sends nothing unasked. Then the headline's premises about its answers are met, which also
    /// allow blocks of automatic status.
    pub fn are_met(self) -> bool
        ensures { result ≡ (self.quiet && self.marks) }
    {
        self.quiet && self.marks
    }

    /// What is shown once this answer has come to a question that shows this.
    pub fn after(self, shows: Shows, answer: &Answer) -> Self
        ensures { result ≡ after_answer shows answer.now self }
    {
        match shows {
            Shows::Status => Premises {
                quiet: self.quiet,
                marks: self.marks,
                status: self.status && is_status_answer(answer.bytes()),
            },
            Shows::Marks => Premises {
                quiet: self.quiet,
                marks: answer.bytes() == MARK_ANSWER,
                status: self.status,
            },
            Shows::Nothing => self,
        }
    }
}

// Whether an answer is one status byte.
fn is_status_answer(bytes: &[u8]) -> bool
    ensures { result ≡ is_status_answer bytes.now }
{
    match bytes {
        [byte] => {
            let byte = *byte;
            byte / 2 % 2 == 1 && byte / 16 % 2 == 1 && byte % 2 != 1 && byte / 128 % 2 != 1
        }
        _ => false,
    }
}
