//! Parameters of commands that act on a line or on the paper, and of those that the printer answers.

ghost use Rattle.std.specs.Prelude.{◌≡◌, ℕ, IsTrue, Some, None};
ghost use Rattle.std.specs.Option.{SomeIff};
ghost use Rattle.escpos_command.specs.Parameters.{is_graphics_print, is_old_cut, is_byte, is_cut, is_pulse, is_status_kind};
ghost use Rattle.escpos_command.specs.Meanings.{leaves_a_point, all_but_drawer, reports};

use std::marker::Model;

/// How many lines the paper is fed after the line. (Reference: ESC d.)
#[derive(Clone, Copy, Debug, PartialEq, Eq)]
pub struct FeedLines {
    byte: u8,
}

impl Model for FeedLines {
    ghost Value = { ℕ };

    ghost view = { λ p. p.byte };

    ghost invariant = { λ p. IsTrue (is_byte p.byte) };

    ghost inverse = { λ n. record { byte = n } };
}

impl FeedLines {
    /// The feed of this many lines.
    pub fn new(byte: u8) -> Self
        ensures { result ≡ byte }
    {
        FeedLines { byte }
    }

    /// The number of lines, 0 to 255.
    pub fn byte(self) -> u8
        ensures kept { result ≡ self }
        ensures range { IsTrue (is_byte result) }
    {
        self.byte
    }
}

/// How many motion units the paper is fed after the line. (Reference: ESC J.)
#[derive(Clone, Copy, Debug, PartialEq, Eq)]
pub struct FeedUnits {
    byte: u8,
}

impl Model for FeedUnits {
    ghost Value = { ℕ };

    ghost view = { λ p. p.byte };

    ghost invariant = { λ p. IsTrue (is_byte p.byte) };

    ghost inverse = { λ n. record { byte = n } };
}

impl FeedUnits {
    /// The feed of this many motion units.
    pub fn new(byte: u8) -> Self
        ensures { result ≡ byte }
    {
        FeedUnits { byte }
    }

    /// The number of motion units, 0 to 255.
    pub fn byte(self) -> u8
        ensures kept { result ≡ self }
        ensures range { IsTrue (is_byte result) }
    {
        self.byte
    }
}

/// A pulse to the connector of the cash drawer: its pin (0 and 48 pin 2, 1 and 49 pin 5), and how long it is on and then
/// off, in units of 2 milliseconds. (Reference: ESC p.)
#[derive(Clone, Copy, Debug, PartialEq, Eq)]
pub struct Pulse {
    pin: u8,
    on: u8,
    off: u8,
}

impl Model for Pulse {
    ghost use Rattle.std.specs.Prelude.{ℕ, IsTrue};
    ghost use Rattle.escpos_command.specs.Parameters.{is_pulse};

    ghost Value = { ℕ × ℕ × ℕ };

    ghost view = { λ p. (p.pin, p.on, p.off) };

    ghost invariant = { λ p. IsTrue (is_pulse (p.pin, p.on, p.off)) };

    ghost inverse = { λ v. record { pin = v.0; on = v.1; off = v.2 } };
}

impl Pulse {
    /// The pulse of the bytes m, t1 and t2; `None` for all pins but 0, 1, 48 and 49.
    pub fn new(pin: u8, on: u8, off: u8) -> Option<Self>
        ensures { SomeIff result (IsTrue (is_pulse (pin, on, off))) (pin, on, off) }
    {
        match pin {
            0 | 1 | 48 | 49 => Some(Pulse { pin, on, off }),
            _ => None,
        }
    }

    /// The byte of the pin as sent: 0, 1, 48 or 49.
    pub fn pin(self) -> u8
        ensures kept { result ≡ self.0 }
        ensures range { IsTrue (is_pulse self) }
    {
        self.pin
    }

    /// How long the pulse is on, in units of 2 milliseconds, 0 to 255.
    pub fn on(self) -> u8
        ensures { result ≡ self.1 }
    {
        self.on
    }

    /// How long the pulse is off, in units of 2 milliseconds, 0 to 255.
    pub fn off(self) -> u8
        ensures { result ≡ self.2 }
    {
        self.off
    }
}

/// How the paper is cut. (Reference: GS V.)
///
/// Function A cuts at once: mode 0 or 48 through, 1 or 49 with one point left uncut. Function B first feeds the paper to
/// the cutting position and some motion units beyond it: mode 65 through, 66 with one point left uncut. Functions C (modes 97
/// and 98) and D (103 and 104) are as function B on paper.
#[derive(Clone, Copy, Debug, PartialEq, Eq)]
pub struct Cut {
    mode: u8,
    feed: Option<u8>,
}

impl Model for Cut {
    ghost use Rattle.std.specs.Prelude.{ℕ, IsTrue, Option};
    ghost use Rattle.escpos_command.specs.Parameters.{is_cut};

    ghost Value = { ℕ × Option ℕ };

    ghost view = { λ c. (c.mode, c.feed) };

    ghost invariant = { λ c. IsTrue (is_cut c.mode c.feed) };

    ghost inverse = { λ v. record { mode = v.0; feed = v.1 } };
}

impl Cut {
    /// A cut at once; `None` for all modes but 0, 1, 48 and 49.
    pub fn new(mode: u8) -> Option<Self>
        ensures { SomeIff result (IsTrue (is_cut mode None)) (mode, None) }
    {
        match mode {
            0 | 1 | 48 | 49 => Some(Cut { mode, feed: None }),
            _ => None,
        }
    }

    /// A cut after a feed of `feed` motion units; `None` for all modes but 65, 66, 97, 98, 103 and 104.
    pub fn with_feed(mode: u8, feed: u8) -> Option<Self>
        ensures { SomeIff result (IsTrue (is_cut mode (Some feed))) (mode, Some feed) }
    {
        match mode {
            65 | 66 | 97 | 98 | 103 | 104 => Some(Cut {
                mode,
                feed: Some(feed),
            }),
            _ => None,
        }
    }

    /// The mode as sent: 0, 1, 48 or 49 for a cut at once, 65, 66, 97, 98, 103 or 104 for one after a feed.
    pub fn mode(self) -> u8
        ensures kept { result ≡ self.0 }
        ensures range { IsTrue (is_cut self.0 self.1) }
    {
        self.mode
    }

    /// How many motion units beyond the cutting position the paper is fed before the cut, 0 to 255; `None` for a cut at
    /// once.
    pub fn feed(self) -> Option<u8>
        ensures { result ≡ self.1 }
    {
        self.feed
    }

    /// Whether one point is left uncut.
    pub fn is_partial(self) -> bool
        ensures { result ≡ leaves_a_point self.0 }
    {
        matches!(self.mode, 1 | 49 | 66 | 98 | 104)
    }
}

/// A cut of the older form, which leaves some points uncut: ESC i one, ESC m three. (Reference: ESC i, ESC m.)
#[derive(Clone, Copy, Debug, PartialEq, Eq)]
pub struct OldCut {
    letter: u8,
}

impl Model for OldCut {
    ghost use Rattle.std.specs.Prelude.{ℕ, IsTrue};
    ghost use Rattle.escpos_command.specs.Parameters.{is_old_cut};

    ghost Value = { ℕ };

    ghost view = { λ c. c.letter };

    ghost invariant = { λ c. IsTrue (is_old_cut c.letter) };

    ghost inverse = { λ n. record { letter = n } };
}

impl OldCut {
    /// The cut of this letter; `None` for all but i and m.
    pub fn new(letter: u8) -> Option<Self>
        ensures { SomeIff result (IsTrue (is_old_cut letter)) letter }
    {
        match letter {
            b'i' | b'm' => Some(OldCut { letter }),
            _ => None,
        }
    }

    /// The letter as sent: i or m.
    pub fn letter(self) -> u8
        ensures kept { result ≡ self }
        ensures range { IsTrue (is_old_cut self) }
    {
        self.letter
    }
}

/// The function by which graphics that are stored are printed: 50, sent as 2 or 50. (Reference: GS ( L, function 50.)
#[derive(Clone, Copy, Debug, PartialEq, Eq)]
pub struct GraphicsFunction {
    byte: u8,
}

impl Model for GraphicsFunction {
    ghost use Rattle.std.specs.Prelude.{ℕ, IsTrue};
    ghost use Rattle.escpos_command.specs.Parameters.{is_graphics_print};

    ghost Value = { ℕ };

    ghost view = { λ f. f.byte };

    ghost invariant = { λ f. IsTrue (is_graphics_print f.byte) };

    ghost inverse = { λ n. record { byte = n } };
}

impl GraphicsFunction {
    /// The function of this byte; `None` for all but 2 and 50.
    pub fn new(byte: u8) -> Option<Self>
        ensures { SomeIff result (IsTrue (is_graphics_print byte)) byte }
    {
        match byte {
            2 | 50 => Some(GraphicsFunction { byte }),
            _ => None,
        }
    }

    /// The byte as sent: 2 or 50.
    pub fn byte(self) -> u8
        ensures kept { result ≡ self }
        ensures range { IsTrue (is_graphics_print self) }
    {
        self.byte
    }
}

/// Whether the printer tells its condition unasked: 0 not, any other number at each change. (Reference: GS a, whose bits choose
/// between changes; here any bit chooses all.)
#[derive(Clone, Copy, Debug, PartialEq, Eq)]
pub struct Reporting {
    byte: u8,
}

impl Model for Reporting {
    ghost Value = { ℕ };

    ghost view = { λ p. p.byte };

    ghost invariant = { λ p. IsTrue (is_byte p.byte) };

    ghost inverse = { λ n. record { byte = n } };
}

impl Reporting {
    /// The setting of a printer that was just switched on: 0, not.
    pub fn off() -> Self
        ensures { result ≡ 0 }
    {
        Reporting { byte: 0 }
    }

    /// The setting by which a till is told of each change but the drawer's: going offline and online (bit 1), errors (bit 2), the
    /// paper (bit 3).
    pub fn all_but_drawer() -> Self
        ensures { result ≡ all_but_drawer }
    {
        Reporting { byte: 0x0E }
    }

    /// The setting of this byte.
    pub fn new(byte: u8) -> Self
        ensures { result ≡ byte }
    {
        Reporting { byte }
    }

    /// The byte as sent.
    pub fn byte(self) -> u8
        ensures kept { result ≡ self }
        ensures range { IsTrue (is_byte result) }
    {
        self.byte
    }

    /// Whether the printer tells its condition: any bit is set.
    pub fn is_on(self) -> bool
        ensures { result ≡ reports self }
    {
        self.byte != 0
    }
}

/// Which status is asked for: 1 the printer, 2 why it is offline, 3 errors, 4 the paper.
/// (Reference: DLE EOT.)
#[derive(Clone, Copy, Debug, PartialEq, Eq)]
pub struct StatusKind {
    byte: u8,
}

impl Model for StatusKind {
    ghost Value = { ℕ };

    ghost view = { λ p. p.byte };

    ghost invariant = { λ p. IsTrue (is_status_kind p.byte) };

    ghost inverse = { λ n. record { byte = n } };
}

impl StatusKind {
    /// The kind of this number; `None` for all but 1 to 4.
    pub fn new(byte: u8) -> Option<Self>
        ensures { SomeIff result (IsTrue (is_status_kind byte)) byte }
    {
        if matches!(byte, 1..=4) {
            Some(StatusKind { byte })
        } else {
            None
        }
    }

    /// The number, 1 to 4.
    pub fn byte(self) -> u8
        ensures kept { result ≡ self }
        ensures range { IsTrue (is_status_kind result) }
    {
        self.byte
    }
}
