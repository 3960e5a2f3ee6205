//! Why a printer prints nothing for now, as it tells unasked over a link.

ghost use Rattle.std.specs.Prelude.{◌≡◌, ◌≤◌, length};
ghost use Rattle.escpos_till.specs.Pauses.{IsAfterBlock, name_of, not_paused, pause_of, told_name};

use escpos_command::AutomaticStatus;

/// Why a printer prints nothing for now. (Reference: GS a.)
#[derive(Clone, Copy, Debug, PartialEq, Eq)]
pub enum Pause {
    /// Its paper has ended.
    PaperEnded,
    /// Its cover is open, and it has paper.
    CoverOpen,
    /// It is offline for another reason.
    Offline,
}

impl Pause {
    /// Why a printer that has sent this block prints nothing; `None` if it is online.
    pub fn of(block: AutomaticStatus) -> Option<Self>
        ensures { result ≡ pause_of block }
    {
        if !block.is_offline() {
            None
        } else if block.is_paper_end() {
            Some(Pause::PaperEnded)
        } else if block.is_cover_open() {
            Some(Pause::CoverOpen)
        } else {
            Some(Pause::Offline)
        }
    }

    /// The name that programs print where a receipt waits for this reason.
    pub fn name(self) -> &'static str
        ensures value { result.now ≡ name_of self }
        ensures short { length result.now ≤ 12 }
    {
        match self {
            Pause::PaperEnded => "PaperEnded",
            Pause::CoverOpen => "CoverOpen",
            Pause::Offline => "Offline",
        }
    }

    /// What programs print while a receipt is being sent.
    pub fn text(self) -> &'static str
        ensures value { result.now ≡ told_name self }
        ensures short { length result.now ≤ 12 }
    {
        match self {
            Pause::PaperEnded => "paper ended",
            Pause::CoverOpen => "cover open",
            Pause::Offline => "offline",
        }
    }
}

/// What a printer has told of its condition on a link.
#[derive(Clone, Copy, Debug, PartialEq, Eq)]
pub struct Paused {
    /// Why it prints nothing for now; `None` while it is online, and before it has told anything.
    pub why: Option<Pause>,
    /// Whether the machine's owner is still to be told of that.
    pub is_news: bool,
}

impl Paused {
    /// Nothing is told yet.
    pub fn not() -> Self
        ensures { result ≡ not_paused }
    {
        Paused {
            why: None,
            is_news: false,
        }
    }

    /// The printer has sent this block. That it prints nothing is news, unless it was told before.
    pub fn after(self, block: AutomaticStatus) -> Self
        ensures { IsAfterBlock self block result }
    {
        let why = Pause::of(block);
        if why == self.why {
            return self;
        }
        Paused {
            why,
            is_news: why.is_some(),
        }
    }
}
