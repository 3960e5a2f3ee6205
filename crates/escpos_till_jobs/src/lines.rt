//! How lines to printers are made: over a network, a line for each address.

ghost use Rattle.std.specs.Prelude.{◌≡◌, None};
ghost use Rattle.escpos_addresses.specs.declared.address.Address.{Address as Where};
ghost use Rattle.escpos_till_jobs.specs.declared.link_line.Waits.{Waits as HowLong};
ghost use Rattle.escpos_till_jobs.specs.LinkLine.{Dials};

use crate::link_line::{AtAddress, LinkLine, Waits};
use escpos_addresses::address::Address;
use escpos_addresses::printer_link::{LinkReader, LinkWriter, Printers};
use escpos_io::{Incoming, Outgoing};

/// How lines to printers are made.
pub trait Lines<L> {
    // For this address, and with these waits, it made this line, and then it is so.
    ghost made: { Self → Where → HowLong → L → Self → Type 0 };

    // It took this line back, and then it is so.
    ghost ended: { Self → L → Self → Type 0 };

    /// Makes a line to the printer at an address, with waits so long.
    fn line(&mut self, address: Address, waits: Waits) -> L
        ensures { made self.old address waits result self.new };

    /// Takes a line back that it made.
    fn end(&mut self, line: L)
        ensures { ended self.old line self.new };
}

/// A line over a network.
pub type NetworkLine<'n, N> = LinkLine<
    Incoming<LinkReader>,
    Outgoing<LinkWriter>,
    AtAddress<'n, N>,
>;

/// Lines over a network.
#[derive(Drop)]
pub struct NetworkLines<'n, N> {
    net: &'n N,
}

impl<'n, N: Printers> NetworkLines<'n, N> {
    /// Lines over this network.
    pub fn new(net: &'n N) -> Self
        ensures { result.net.now ≡ net.now }
    {
        NetworkLines { net }
    }
}

impl<'n, N: Printers> Lines<NetworkLine<'n, N>> for NetworkLines<'n, N> {
    ghost made = { λ old address waits line new. (new ≡ old) × (line.link ≡ None) × Dials old.net.now address waits line.dialler };

    ghost ended = { λ old line new. new ≡ old };

    fn line(&mut self, address: Address, waits: Waits) -> NetworkLine<'n, N> {
        LinkLine::new(AtAddress::new(self.net, address, waits))
    }

    // A link that is open over it is closed.
    fn end(&mut self, line: NetworkLine<'n, N>)
        ensures { self.new ≡ self.old }
    {
        drop(line);
    }
}
