//! What the sensors of a printer say, and how it answers accordingly.

ghost use Rattle.std.specs.Prelude.{◌≡◌, option_to_list, IsTrue};
ghost use Rattle.escpos_command.specs.Answers.{is_status_byte};
ghost use Rattle.escpos_printer.specs.Replies.{condition_block, differs, is_change, is_offline, where_set, status, reply};

use escpos_command::{Answer, AutomaticStatus, Command, StatusKind};

/// What the sensors of a printer say. (Reference: DLE EOT.)
#[derive(Clone, Copy, Debug, PartialEq, Eq)]
pub struct Condition {
    /// The cover is open.
    pub cover_open: bool,
    /// The paper is near its end.
    pub near_end: bool,
    /// The paper has ended.
    pub paper_end: bool,
}

impl Condition {
    /// Whether the printer is offline: its cover is open, or its paper has ended.
    pub fn is_offline(self) -> bool
        ensures { result ≡ is_offline self }
    {
        self.cover_open || self.paper_end
    }

    /// The status byte of this kind. (Reference: DLE EOT.)
    pub fn status(self, kind: StatusKind) -> u8
        ensures value { result ≡ status kind self }
        ensures is_answer { IsTrue (is_status_byte result) }
    {
        match kind.byte() {
            1 => 0x12 + where_set(self.is_offline(), 0x08),
            2 => 0x12 + where_set(self.cover_open, 0x04) + where_set(self.paper_end, 0x20),
            4 => 0x12 + where_set(self.near_end, 0x0C) + where_set(self.paper_end, 0x60),
            _ => 0x12,
        }
    }

    /// The block of automatic status that tells this condition. (Reference: GS a.)
    pub fn automatic_status(self) -> AutomaticStatus
        ensures { result ≡ condition_block self }
    {
        let first = 0x10 + where_set(self.is_offline(), 0x08) + where_set(self.cover_open, 0x20);
        let third = where_set(self.near_end, 0x03) + where_set(self.paper_end, 0x0C);
        AutomaticStatus::new([first, 0x00, third, 0x00]).unwrap()
    }

    /// Whether the sensors say something else at the other time.
    pub fn is_change(self, other: Condition) -> bool
        ensures { result ≡ is_change self other }
    {
        differs(self.cover_open, other.cover_open)
            || differs(self.near_end, other.near_end)
            || differs(self.paper_end, other.paper_end)
    }

    /// The answer to a command: a status byte to a status request, its id to a mark, and the block of this condition to GS a
    /// that switches automatic status on. There is none to all others.
    pub fn reply(self, command: &Command) -> Option<Answer>
        ensures { option_to_list result ≡ reply self command.now }
    {
        match command {
            Command::Status(kind) => Some(Answer::Status(self.status(*kind))),
            Command::Mark(id) => Some(Answer::Mark(*id)),
            Command::AutomaticStatus(reporting) => {
                if reporting.is_on() {
                    Some(Answer::Condition(self.automatic_status()))
                } else {
                    None
                }
            }
            _ => None,
        }
    }
}

// Whether one of two is set and the other isn't.
fn differs(a: bool, b: bool) -> bool
    ensures { result ≡ differs a b }
{
    if a { !b } else { b }
}

// These bits if they are set, otherwise 0.
fn where_set(set: bool, bits: u8) -> u8
    ensures { result ≡ where_set set bits }
{
    if set { bits } else { 0 }
}
