//! A line to a printer over links that are each a source of answers and a sink.
//!
//! How a link is opened is left to whoever dials: over a network to a printer's address, or in memory.

ghost use Rattle.std.specs.Prelude.{◌≡◌, ◌≢◌, ◌≤◌, ◌*◌, Bool, length, take, Option, None, Some, IfErr, IfOk, IfSome, MatchOption, OnOk, IsTrue};
ghost use Rattle.std.specs.Duration.{as_nanos};
ghost use Rattle.escpos_till.specs.Driver.{Breaks, Ends, Gives, HangsUp, Links, Misses, Puts};
ghost use Rattle.escpos_till_jobs.specs.declared.link_line.Link.{Link as Opened};
ghost use Rattle.escpos_till_jobs.specs.LinkLine.{Dials, DialsTheSame, HasNoLink, IsPaced, LinkDid, OverLink, sink, source};

use crate::watched::Watched;
use escpos_addresses::address::Address;
use escpos_addresses::printer_link::{LinkReader, LinkWriter, PrinterLink, Printers};
use escpos_addresses::wait::Within;
use escpos_host::SendFault;
use escpos_io::{ByteIn, ByteOut, Failed, Incoming, Outgoing, put_all};
use escpos_till::PrinterLine;
use std::time::Duration;

/// A link: a source of answers, and a sink.
#[derive(Drop)]
pub struct Link<R, W> {
    /// Gives answers.
    pub reader: R,
    /// Takes what is put.
    pub writer: W,
}

impl<R: ByteIn, W: ByteOut> Link<R, W> {
    // Puts bytes. At `Err` some of them may be put.
    fn put(&mut self, bytes: &[u8]) -> Result<(), SendFault>
        ensures puts { OnOk result (LinkDid (source R.to_come R.ended R.failed R.timed_out) (sink W.written W.failed W.timed_out) self.old (Puts bytes.now) self.new) }
        ensures breaks { IfErr result (λ why. LinkDid (source R.to_come R.ended R.failed R.timed_out) (sink W.written W.failed W.timed_out) self.old (Breaks bytes.now why) self.new) }
    {
        match put_all(bytes, &mut self.writer) {
            Ok(()) => Ok(()),
            Err(_) => Err(SendFault::of_writer(&self.writer)),
        }
    }

    // Waits for bytes of answers. Their end is told as `Ended`.
    fn pull(&mut self, room: &mut [u8]) -> Result<usize, SendFault>
        ensures within { IfOk result (λ count. count ≤ length room.old) }
        ensures gives { IfOk result (λ count. LinkDid (source R.to_come R.ended R.failed R.timed_out) (sink W.written W.failed W.timed_out) self.old (Gives (length room.old) (take count room.new)) self.new) }
        ensures ends { IfErr result (λ why. LinkDid (source R.to_come R.ended R.failed R.timed_out) (sink W.written W.failed W.timed_out) self.old (Ends why) self.new) }
    {
        match self.reader.pull(room) {
            Ok(0) if !room.is_empty() => Err(SendFault::Ended),
            Ok(count) => Ok(count),
            Err(Failed) => Err(SendFault::of_reader(&self.reader)),
        }
    }
}

/// Opens links to a printer.
pub trait Dial<R: ByteIn, W: ByteOut> {
    // It opened this link, or none, and then it is so.
    ghost dialled: { Self → Option (Opened R W) → Self → Type 0 };

    // It made this link wait so, which is that one then, and then it is so.
    ghost paced: { Self → Opened R W → Bool → Opened R W → Self → Type 0 };

    // It closed this link, and then it is so.
    ghost closed: { Self → Opened R W → Self → Type 0 };

    /// Opens a link; `None` if there is none.
    fn dial(&mut self) -> Option<Link<R, W>>
        ensures { dialled self.old result self.new };

    /// Makes a link that it opened wait for a printer that says that it prints nothing for now, if `patient` is true, and for any other
    /// printer otherwise. What is put stays so, and so does what is to come.
    fn pace(&mut self, link: Link<R, W>, patient: bool) -> Link<R, W>
        ensures paced { paced self.old link patient result self.new }
        ensures source { R.to_come result.reader ≡ R.to_come link.reader }
        ensures sink { W.written result.writer ≡ W.written link.writer };

    /// Whether the link that it opened last takes as many bytes at once as are put at a time.
    fn takes_at_once(&self) -> bool;

    /// Whether bytes of answers are there on it, or come within a moment.
    fn gives_soon(&self) -> bool;

    /// Closes a link that it opened.
    fn close(&mut self, link: Link<R, W>)
        ensures { closed self.old link self.new };
}

/// A line over the links that are dialled.
#[derive(Drop)]
pub struct LinkLine<R: ByteIn, W: ByteOut, D: Dial<R, W>> {
    dialler: D,
    link: Option<Link<R, W>>,
    // the link waits for a printer that prints nothing for now
    patient: bool,
}

impl<R: ByteIn, W: ByteOut, D: Dial<R, W>> LinkLine<R, W, D> {
    /// A line over which no link is open.
    pub fn new(dialler: D) -> Self
        ensures dialler { result.dialler ≡ dialler }
        ensures link { result.link ≡ None }
    {
        LinkLine {
            dialler,
            link: None,
            patient: false,
        }
    }

    // Takes the link out, if one is open, and makes it wait so.
    fn take_paced(&mut self, patient: bool) -> Option<Link<R, W>>
        ensures none { result ≡ None → (self.old.link ≡ None) × (self.new ≡ self.old) }
        ensures patient { IfSome result (λ _. self.new.patient ≡ patient) }
        ensures some { IfSome result (λ link. (self.new.link ≡ None) × ((before : Opened R W) × (self.old.link ≡ Some before)
            × IsPaced D.paced self.old.patient self.new.patient self.old.dialler before link self.new.dialler
            × (R.to_come link.reader ≡ R.to_come before.reader) × (W.written link.writer ≡ W.written before.writer))) }
    {
        let link = self.link.take()?;
        if patient == self.patient {
            return Some(link);
        }
        self.patient = patient;
        Some(self.dialler.pace(link, patient))
    }
}

impl<R: ByteIn + Drop, W: ByteOut + Drop, D: Dial<R, W>> PrinterLine for LinkLine<R, W, D> {
    ghost did = { OverLink
        (source R.to_come R.ended R.failed R.timed_out)
        (sink W.written W.failed W.timed_out)
        D.dialled
        D.paced
        D.closed };

    fn connect(&mut self) -> bool {
        self.patient = false;
        self.link = self.dialler.dial();
        self.link.is_some()
    }

    fn put(&mut self, bytes: &[u8], patient: bool) -> Result<(), SendFault> {
        let Some(mut link) = self.take_paced(patient) else {
            return Err(SendFault::WriteFault);
        };
        let put = link.put(bytes);
        self.link = Some(link);
        put
    }

    fn pull(&mut self, room: &mut [u8], patient: bool) -> Result<usize, SendFault> {
        let Some(mut link) = self.take_paced(patient) else {
            return Err(SendFault::Ended);
        };
        let pulled = link.pull(room);
        self.link = Some(link);
        pulled
    }

    fn takes_at_once(&self) -> bool {
        self.dialler.takes_at_once()
    }

    fn gives_soon(&self) -> bool {
        self.dialler.gives_soon()
    }

    fn hang_up(&mut self) {
        if let Some(link) = self.link.take() {
            self.dialler.close(link);
        }
    }
}

/// How long a printer is waited for, in seconds.
#[derive(Clone, Copy, Debug, PartialEq, Eq)]
pub struct Waits {
    /// No wait lasts longer; `None` if each lasts as long as it takes.
    pub wait: Option<u32>,
    /// No wait lasts longer than this while the printer says that it prints nothing for now.
    pub patience: u32,
}

impl Waits {
    // No wait lasts longer, for a printer that prints nothing for now or for any other.
    fn limit(self, patient: bool) -> Option<Duration>
        ensures patient { IsTrue patient → IfSome result (λ limit. as_nanos limit ≡ self.patience * 1000000000) }
        ensures limited { IsTrue patient → result ≢ None }
        ensures wait { ¬ IsTrue patient → MatchOption result (self.wait ≡ None) (λ limit. IfSome self.wait (λ seconds. as_nanos limit ≡ seconds * 1000000000)) }
    {
        let seconds = if patient {
            Some(self.patience)
        } else {
            self.wait
        };
        seconds.map(|seconds| Duration::from_secs(u64::from(seconds)))
    }
}

/// Dials a printer's address over a network, or opens its device file.
#[derive(Drop)]
pub struct AtAddress<'n, N> {
    net: &'n N,
    address: Address,
    waits: Waits,
    // the link that it opened last
    watched: Watched,
}

impl<'n, N: Printers> AtAddress<'n, N> {
    /// Dials this address, with links that wait so.
    pub fn new(net: &'n N, address: Address, waits: Waits) -> Self
        ensures { Dials net.now address waits result }
    {
        AtAddress {
            net,
            address,
            waits,
            watched: Watched::nothing(),
        }
    }
}

impl<N: Printers> Dial<Incoming<LinkReader>, Outgoing<LinkWriter>> for AtAddress<'_, N> {
    // Which link it opens is the system's own; address, network and waits stay.
    ghost dialled = { λ old link new. DialsTheSame old new };

    // What a link waits for is the system's own; it stays between the same ends.
    ghost paced = { λ old link patient paced new. new ≡ old };

    ghost closed = { λ old link new. DialsTheSame old new };

    fn dial(&mut self) -> Option<Link<Incoming<LinkReader>, Outgoing<LinkWriter>>> {
        let connected = match self.waits.wait {
            Some(seconds) => self.address.connect(&Within::new(self.net, seconds)),
            None => self.address.connect(self.net),
        };
        match connected {
            Ok(PrinterLink { reader, writer }) => {
                self.watched = Watched::link(&reader);
                Some(Link {
                    reader: Incoming::new(reader),
                    writer: Outgoing::new(writer),
                })
            }
            Err(_) => {
                self.watched = Watched::nothing();
                None
            }
        }
    }

    fn pace(
        &mut self,
        link: Link<Incoming<LinkReader>, Outgoing<LinkWriter>>,
        patient: bool,
    ) -> Link<Incoming<LinkReader>, Outgoing<LinkWriter>>
        ensures paced { self.new ≡ self.old }
        ensures source { ⟦<Incoming<LinkReader> as ByteIn>⟧.to_come result.reader ≡ ⟦<Incoming<LinkReader> as ByteIn>⟧.to_come link.reader }
        ensures sink { ⟦<Outgoing<LinkWriter> as ByteOut>⟧.written result.writer ≡ ⟦<Outgoing<LinkWriter> as ByteOut>⟧.written link.writer }
    {
        if link.reader.has_failed() || link.reader.has_ended() || link.writer.has_failed() {
            return link;
        }
        let limit = self.waits.limit(patient);
        let Link { reader, writer } = link;
        let mut reader = reader.into_inner();
        reader.wait_within(limit);
        let mut writer = writer.into_inner();
        writer.wait_within(limit);
        Link {
            reader: Incoming::new(reader),
            writer: Outgoing::new(writer),
        }
    }

    fn takes_at_once(&self) -> bool {
        self.watched.takes_at_once()
    }

    fn gives_soon(&self) -> bool {
        self.watched.gives_soon()
    }

    // Both of its ways are closed.
    fn close(&mut self, link: Link<Incoming<LinkReader>, Outgoing<LinkWriter>>)
        ensures { DialsTheSame self.old self.new }
    {
        self.watched = Watched::nothing();
        drop(link);
    }
}

/// A line over which there is no link, for a till that delivers nothing.
#[derive(Drop)]
pub struct NoLine;

impl PrinterLine for NoLine {
    ghost did = { λ old deed new. HasNoLink deed × (new ≡ old) };

    fn connect(&mut self) -> bool {
        false
    }

    fn put(&mut self, _bytes: &[u8], _patient: bool) -> Result<(), SendFault> {
        Err(SendFault::WriteFault)
    }

    fn pull(&mut self, _room: &mut [u8], _patient: bool) -> Result<usize, SendFault> {
        Err(SendFault::Ended)
    }

    fn takes_at_once(&self) -> bool {
        true
    }

    fn gives_soon(&self) -> bool {
        true
    }

    fn hang_up(&mut self) {}
}
