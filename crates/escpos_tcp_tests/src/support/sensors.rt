//! Sensors that say one thing after another, and a host that halts.

use escpos_job_parts::condition::ONLINE;
use escpos_printer::Condition;
use escpos_tcp_jobs::watch::Conditions;
use std::io;
use std::io::{ErrorKind, Read};

// Sensors that say these in turn, and then the last of them.
#[derive(Drop)]
pub struct InTurn<'a> {
    pub conditions: &'a [Condition],
    pub looks: usize,
    pub pauses: usize,
}

impl<'a> InTurn<'a> {
    pub fn new(conditions: &'a [Condition]) -> Self {
        InTurn {
            conditions,
            looks: 0,
            pauses: 0,
        }
    }
}

impl Conditions for InTurn<'_> {
    ghost use Rattle.std.specs.Prelude.{None};

    ghost to_say = { λ _. None };

    fn look(&mut self) -> Condition {
        let at = self.looks.min(self.conditions.len().saturating_sub(1));
        self.looks = self.looks.saturating_add(1);
        match self.conditions.get(at) {
            Some(condition) => *condition,
            None => ONLINE,
        }
    }

    fn pause(&mut self) {
        self.pauses = self.pauses.saturating_add(1);
    }
}

// A host that sends these bytes, where 0xFF stands for a wait in which no byte comes, and 0xFE for a link that fails.
#[derive(Drop)]
pub struct Halting<'a> {
    pub bytes: &'a [u8],
}

impl Read for Halting<'_> {
    fn read(&mut self, piece: &mut [u8]) -> io::Result<usize> {
        let [first, rest @ ..] = self.bytes else {
            return Ok(0);
        };
        self.bytes = rest;
        match *first {
            0xFF => Err(io::Error::from(ErrorKind::WouldBlock)),
            0xFE => Err(io::Error::from(ErrorKind::ConnectionReset)),
            byte => {
                let Some(place) = piece.first_mut() else {
                    return Ok(0);
                };
                *place = byte;
                Ok(1)
            }
        }
    }
}
