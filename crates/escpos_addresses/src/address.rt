//! Where a printer is reached: an IP address or a host's name, and a port; or its device file.

ghost use Rattle.std.specs.Prelude.{◌≡◌, ◌↔◌, ◌≤◌, ◌++◌, drop, length, IfOk, IfSome, IsTrue, Some};
ghost use Rattle.std.specs.Net.Grammar.{IsSocketText};
ghost use Rattle.escpos_addresses.specs.Address.{IsAddress, IsPort, after_colon, are_all, before_colon, is_device_text, is_host_name};
ghost use Rattle.escpos_addresses.specs.Address.{is_host_character, is_number_character};
ghost use Rattle.escpos_addresses.specs.PrinterLinks.{IsByDevice, Suits};

use crate::printer_link::{PrinterLink, Printers};
use itoa::Buffer;
use std::marker::Model;
use std::net::{Net, SocketAddr, SocketAddrV4, TcpListener, TcpStream};
use std::{io, str};

/// The longest text of a name and a port, or of a device file: a name has at most 253 characters (RFC 1035), a port five.
pub const MOST_TEXT: usize = 259;

const _: () = prove!(MOST_TEXT == 259);

/// Where a printer is reached, or listens.
#[derive(Clone, Copy, Debug, Drop, PartialEq, Eq)]
pub enum Address {
    /// An IPv4 or IPv6 address, and a port.
    Numeric(SocketAddr),
    /// A host's name and a port.
    Named(AddressText),
    /// A device file that is read and written.
    Device(AddressText),
}

/// The text of an address: a host's name and a port, as `printer.shop:9100`, or a device file, as `file:/dev/usb/lp0`. A name is looked up at each
/// connection. Or a file's path that is as short. The model is the list of its bytes.
#[derive(Clone, Copy, Debug, Drop, PartialEq, Eq)]
pub struct AddressText {
    bytes: [u8; MOST_TEXT],
    len: usize,
}

impl Model for AddressText {
    ghost use Rattle.std.specs.Prelude.{◌≡◌, ◌≤◌, ◌-◌, ◌++◌, ℕ, List, take, drop, length, replicate};
    ghost use Rattle.std.proofs.Common.{ap, sym, ◌∙◌, arith};
    ghost use Rattle.std.proofs.lemmas.List.{length-take-le, take-append-drop};
    ghost use Rattle.escpos_addresses.specs.declared.address.TheConstants.{MOST_TEXT};

    ghost Value = { List ℕ };

    ghost view = { λ a. take a.len a.bytes };

    ghost invariant = { λ a. (a.len ≤ MOST_TEXT) × (length a.bytes ≡ MOST_TEXT) × (drop a.len a.bytes ≡ replicate (MOST_TEXT - a.len) 0) };

    ghost inverse = { λ text. record { bytes = text ++ replicate (MOST_TEXT - length text) 0; len = length text } };

    ghost inverse_ok = { λ a h. let same = length-take-le a.len a.bytes (omega (arith, h.0, h.1)) in
        let whole = ap (λ n. take a.len a.bytes ++ replicate (MOST_TEXT - n) 0) same ∙ ap (λ rest. take a.len a.bytes ++ rest) (sym h.2) ∙ take-append-drop a.len a.bytes in
        λ t. record { bytes = whole t; len = same t } };
}

impl AddressText {
    // The address with this text, which fits.
    fn new(text: &str) -> Self
        requires { length text.now ≤ MOST_TEXT }
        ensures { result ≡ text.now }
    {
        let mut bytes = [0; MOST_TEXT];
        put(&mut bytes, text.as_bytes());
        AddressText {
            bytes,
            len: text.len(),
        }
    }

    /// This text, if it has at most 259 bytes.
    pub fn of(text: &str) -> Option<Self>
        ensures read { IfSome result (λ same. (same ≡ text.now) × (length text.now ≤ MOST_TEXT)) }
        ensures taken { length text.now ≤ MOST_TEXT → result ≡ Some text.now }
    {
        if text.len() <= MOST_TEXT {
            Some(AddressText::new(text))
        } else {
            None
        }
    }

    /// Its text.
    pub fn text(&self) -> io::Result<&str>
        ensures { IfOk result (λ text. text.now ≡ self.now) }
    {
        match str::from_utf8(&self.bytes[..self.len]) {
            Ok(text) => Ok(text),
            Err(_) => Err(io::Error::from(io::ErrorKind::InvalidInput)),
        }
    }
}

impl From<SocketAddrV4> for Address {
    fn from(address: SocketAddrV4) -> Self {
        Address::Numeric(SocketAddr::V4(address))
    }
}

impl Address {
    /// The address that this text says: `A.B.C.D:P`, `[A:B::C]:P`, `NAME:P` or `file:/PATH`. `None` for any other text.
    pub fn of_text(text: &str) -> Option<Address>
        ensures read { IfSome result (IsAddress text.now) }
        ensures taken { (address : Address) → IsAddress text.now address → result ≡ Some address }
    {
        match text.parse::<SocketAddr>() {
            Ok(SocketAddr::V4(address)) => if has_port(text) {
                Some(Address::Numeric(SocketAddr::V4(address)))
            } else {
                None
            },
            Ok(SocketAddr::V6(address)) => Some(Address::Numeric(SocketAddr::V6(address))),
            Err(_) => other(text),
        }
    }

    /// Connects to it, or opens its file. Each address of a name is tried in turn; the error is that of the last, or of the look-up.
    pub fn connect<N: Printers>(&self, net: &N) -> io::Result<PrinterLink>
        ensures { IfOk result (λ link. Suits self.now link) }
    {
        match self {
            Address::Numeric(address) => {
                PrinterLink::over_tcp(TcpStream::connect(net, *address)?)
            }
            Address::Named(name) => {
                PrinterLink::over_tcp(TcpStream::connect(net, name.text()?)?)
            }
            Address::Device(file) => {
                let device = net.open_device(path_of(file.text()?), None)?;
                Ok(PrinterLink::by_device(device))
            }
        }
    }

    /// Listens at it. Nothing can be listened for at a device file: `Unsupported`.
    pub fn listen<N: Net<Stream = TcpStream, Listener = TcpListener>>(
        &self,
        net: &N,
    ) -> io::Result<TcpListener>
        ensures { IfOk result (λ _. ¬ IsByDevice self.now) }
    {
        match self {
            Address::Numeric(address) => TcpListener::bind(net, *address),
            Address::Named(name) => TcpListener::bind(net, name.text()?),
            Address::Device(_) => Err(io::Error::from(io::ErrorKind::Unsupported)),
        }
    }
}

// The address that a text says which isn't an IP address and a port.
fn other(text: &str) -> Option<Address>
    ensures read { IfSome result (λ address. ((number : SocketAddr) → ¬ IsSocketText text.now number) → IsAddress text.now address) }
    ensures taken { (address : Address) → ((number : SocketAddr) → ¬ IsSocketText text.now number) → IsAddress text.now address → result ≡ Some address }
{
    if is_device_text(text.as_bytes()) {
        device(text)
    } else {
        named(text)
    }
}

// The address of a device file with this text, if it isn't too long.
fn device(text: &str) -> Option<Address>
    ensures read { IfSome result (λ address. (length text.now ≤ MOST_TEXT) × (Address.Device text.now ≡ address)) }
    ensures taken { length text.now ≤ MOST_TEXT → result ≡ Some (Address.Device text.now) }
{
    Some(Address::Device(AddressText::of(text)?))
}

// What follows the first colon of a device file's text: its path.
fn path_of(text: &str) -> &str
    ensures { result.now ≡ after_colon text.now }
{
    match text.split_once(':') {
        Some((_, path)) => path,
        None => "",
    }
}

// Whether a text is that of a device file.
fn is_device_text(text: &[u8]) -> bool
    ensures { result ≡ is_device_text text.now }
{
    text.starts_with(b"file:/")
}

// The address of a host's name and a port, if this is one.
fn named(text: &str) -> Option<Address>
    ensures read { IfSome result (λ address. IsTrue (is_host_name (before_colon text.now)) × IsPort (after_colon text.now) × (length text.now ≤ MOST_TEXT)
        × (Address.Named text.now ≡ address)) }
    ensures taken { IsTrue (is_host_name (before_colon text.now)) → IsPort (after_colon text.now) → length text.now ≤ MOST_TEXT
        → result ≡ Some (Address.Named text.now) }
{
    if text.len() <= MOST_TEXT && has_name(text) && has_port(text) {
        Some(Address::Named(AddressText::new(text)))
    } else {
        None
    }
}

// Whether a host's name stands before the first colon.
fn has_name(text: &str) -> bool
    ensures { IsTrue result ↔ IsTrue (is_host_name (before_colon text.now)) }
{
    match text.split_once(':') {
        Some((host, _)) => is_host_name(host.as_bytes()),
        None => is_host_name(text.as_bytes()),
    }
}

// Whether a port stands after the first colon.
fn has_port(text: &str) -> bool
    ensures { IsTrue result ↔ IsPort (after_colon text.now) }
{
    match text.split_once(':') {
        Some((_, port)) => is_port(port),
        None => false,
    }
}

// Copies a text to the start of these bytes. It must fit.
fn put(bytes: &mut [u8], text: &[u8])
    requires { length text.now ≤ length bytes.old }
    ensures { bytes.new ≡ text.now ++ drop (length text.now) bytes.old }
{
    bytes[..text.len()].copy_from_slice(text);
}

// Whether these digits are a port, in decimal.
fn is_port(digits: &str) -> bool
    ensures { IsTrue result ↔ IsPort digits.now }
{
    match digits.parse::<u16>() {
        Ok(port) => Buffer::new().format(port) == digits,
        Err(_) => false,
    }
}

// Whether this is the name of a host.
fn is_host_name(host: &[u8]) -> bool
    ensures { result ≡ is_host_name host.now }
{
    let [first, ..] = host else {
        return false;
    };
    first.is_ascii_alphanumeric()
        && are_host_characters(host)
        && (first.is_ascii_alphabetic() || !are_number_characters(host))
}

// Whether a host's name may have all of these characters.
fn are_host_characters(bytes: &[u8]) -> bool
    ensures { result ≡ are_all is_host_character bytes.now }
{
    match bytes {
        [first, rest @ ..] => is_host_character(*first) && are_host_characters(rest),
        [] => true,
    }
}

// Whether a number in some form may have all of these characters.
fn are_number_characters(bytes: &[u8]) -> bool
    ensures { result ≡ are_all is_number_character bytes.now }
{
    match bytes {
        [first, rest @ ..] => is_number_character(*first) && are_number_characters(rest),
        [] => true,
    }
}

fn is_host_character(byte: u8) -> bool
    ensures { result ≡ is_host_character byte }
{
    byte.is_ascii_alphanumeric() || byte == b'-' || byte == b'.' || byte == b'_'
}

fn is_number_character(byte: u8) -> bool
    ensures { result ≡ is_number_character byte }
{
    byte.is_ascii_hexdigit() || byte == b'x' || byte == b'X' || byte == b'.'
}
