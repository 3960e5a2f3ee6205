//! The host that a handle holds, and the numbers in which C is told of it.

ghost use Rattle.std.specs.Prelude.{◌≡◌, ◌+◌, [], min, length, IfSome};
ghost use Rattle.escpos_host.specs.Machine.{Down, RefusesLinkUp, RefusesNudge, RefusesSubmit, state_of};
ghost use Rattle.escpos_c.specs.HostCalls.{AsksKind, Called, HearsBytes, LinksUp, Nudges, Submits};
ghost use Rattle.escpos_c.specs.Status.{number_of_status};
ghost use Rattle.escpos_c.specs.HostNumbers.{IsEventNumber, IsMarkNumber, event_kind, state_number, told_reason, told_status};

use crate::call_status::CallStatus;
use crate::refusal::{NO_KIND, NO_REASON};
use escpos_command::{MarkId, StatusKind};
use escpos_host::{Host, HostError, HostEvent, HostState, Receipt};
use std::alloc::Global;

/// What C is told of the bytes that were heard: how many, and the event that they end with.
#[derive(Clone, Copy, Debug, PartialEq, Eq)]
pub struct Told {
    pub consumed: usize,
    pub event: u32,
    pub number: usize,
}

/// A host, and how many receipts were recorded before it was made.
#[derive(Drop)]
pub struct HostCore {
    pub host: Host,
    pub before: usize,
}

impl HostCore {
    /// A host on the heap, which goes on after `before` records; `None` if the allocation failed.
    pub fn boxed(alloc: Global, first_mark: u32, before: usize) -> Option<Box<HostCore>>
        ensures host { IfSome result (λ core. core.value.host ≡ record { phase = Down; out = []; half = []; next = first_mark; heard = 0; records = []; left = [] }) }
        ensures before { IfSome result (λ core. core.value.before ≡ before) }
    {
        let core = HostCore {
            host: Host::resume(alloc, first_mark, 0, Vec::new(alloc)),
            before,
        };
        match Box::new(alloc, core) {
            Ok(core) => Some(core),
            Err(_) => None,
        }
    }

    /// Opens a link, as `Host::link_up` does.
    pub fn link_up(&mut self, reason: &mut u32) -> CallStatus
        ensures { Called LinksUp RefusesLinkUp (number_of_status result) reason.new self.old self.new }
    {
        answer(self.host.link_up(), reason)
    }

    /// Puts one more opening mark out, as `Host::nudge` does.
    pub fn nudge(&mut self, reason: &mut u32) -> CallStatus
        ensures { Called Nudges RefusesNudge (number_of_status result) reason.new self.old self.new }
    {
        answer(self.host.nudge(), reason)
    }

    /// Puts a status request out, as `Host::ask` does, if there is this kind.
    pub fn ask(&mut self, kind: u8, reason: &mut u32) -> CallStatus
        ensures { AsksKind kind (number_of_status result) reason.new self.old self.new }
    {
        match StatusKind::new(kind) {
            Some(kind) => answer(self.host.ask(kind), reason),
            None => {
                *reason = NO_KIND;
                CallStatus::Refused
            }
        }
    }

    /// Puts a receipt out, as `Host::submit` does. A receipt that is refused is dropped.
    pub fn submit(&mut self, receipt: Receipt, reason: &mut u32) -> CallStatus
        ensures { Called (Submits receipt) RefusesSubmit (number_of_status result) reason.new self.old self.new }
    {
        match self.host.submit(receipt) {
            Ok(()) => answer(Ok(()), reason),
            Err((why, _)) => answer(Err(why), reason),
        }
    }

    /// Hears answers up to the first event, as `Host::heard` does.
    pub fn hear(&mut self, bytes: &[u8]) -> Told
        ensures { HearsBytes bytes.now result.consumed result.event result.number self.old self.new }
    {
        let heard = self.host.heard(bytes);
        Told {
            consumed: heard.consumed,
            event: event_kind(heard.event),
            number: self.number(heard.event),
        }
    }

    /// The number of the host's state.
    pub fn state(&self) -> u32
        ensures { result ≡ state_number (state_of self.now.host.phase) }
    {
        state_number(self.host.state())
    }

    /// How many receipts are recorded, those of before among them.
    pub fn records(&self) -> usize
        ensures { result ≡ min (self.now.before + length self.now.host.records) usize.MAX }
    {
        self.before.saturating_add(self.host.records().len())
    }

    // The number that comes with an event.
    fn number(&self, event: HostEvent) -> usize
        ensures { IsEventNumber self.now.before event result }
    {
        match event {
            HostEvent::None | HostEvent::Opened => 0,
            HostEvent::Recorded(number) => self.before.saturating_add(number),
            HostEvent::Status(byte) => usize::from(byte),
            HostEvent::BadAnswer { at } => at,
            HostEvent::Late(id) => mark_number(id) as usize,
            HostEvent::Condition(block) => u32::from_be_bytes(block.bytes()) as usize,
        }
    }
}

// The kind of an event.
fn event_kind(event: HostEvent) -> u32
    ensures { result ≡ event_kind event }
{
    match event {
        HostEvent::None => 0,
        HostEvent::Opened => 1,
        HostEvent::Recorded(_) => 2,
        HostEvent::Status(_) => 3,
        HostEvent::BadAnswer { .. } => 4,
        HostEvent::Late(_) => 5,
        HostEvent::Condition(_) => 6,
    }
}

// The number of the mark with this id, or 0.
fn mark_number(id: MarkId) -> u32
    ensures { IsMarkNumber id result }
{
    match id.number() {
        Some(number) => number,
        None => 0,
    }
}

// The number of a state.
fn state_number(state: HostState) -> u32
    ensures { result ≡ state_number state }
{
    match state {
        HostState::Down => 0,
        HostState::Opening => 1,
        HostState::Ready => 2,
        HostState::Sending => 3,
    }
}

// The status of a host's call, and its reason if it is refused.
fn answer(ended: Result<(), HostError>, reason: &mut u32) -> CallStatus
    ensures status { result ≡ told_status ended }
    ensures reason { reason.new ≡ told_reason ended }
{
    match ended {
        Ok(()) => {
            *reason = NO_REASON;
            CallStatus::Good
        }
        Err(HostError::Memory) => {
            *reason = NO_REASON;
            CallStatus::Memory
        }
        Err(why) => {
            *reason = u32::from(why.number());
            CallStatus::Refused
        }
    }
}
