//! What `probe` is asked to do.

use escpos_addresses::address::Address;

/// Ask the printer at this address what it answers, where each byte is waited for `wait` seconds; two where nothing is given.
#[derive(Clone, Copy, Debug, PartialEq, Eq)]
pub struct ProbeTask {
    pub address: Address,
    pub wait: Option<u32>,
}
