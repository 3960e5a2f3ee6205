//! What is asked of the program over a link, as the rows of the tests have it.

use escpos_addresses::address::{Address, AddressText};
use escpos_command::LineWidth;
use escpos_job_parts::condition::ONLINE;
use escpos_jobs::task::Task;
use escpos_printer::Condition;
use escpos_receipt::ReceiptOptions;
use escpos_text::Replacement;

/// The text of a receipt of one line.
pub const RECEIPT: &[u8] = b"[{\"line\":\"Hi\"}]";

/// What is asked for at an address. Lines are of the usual width, no wait has a limit, and the first mark is 0, where nothing else is
/// said.
#[derive(Clone, Copy)]
pub enum Asked<'a> {
    /// A printer in this condition, for so many links, or until no other is accepted.
    Emulate(Option<u32>, Condition),
    /// A printer of lines of so many dots.
    EmulateWide(Option<u32>, u16),
    /// A printer in this condition, until this file says another.
    EmulateBy(Option<u32>, Condition, &'a str),
    /// A receipt, after so many opening marks.
    Send(u32),
    /// The same, where a wait lasts so many seconds.
    SendWithin(u32, u32),
    /// A receipt in lines of so many dots, with this byte for a character that no code table has, after one opening mark.
    SendWide(u16, u8),
    /// The status of a printer.
    Status,
    /// The same, where a wait lasts so many seconds.
    StatusWithin(u32),
    /// A receipt goes round.
    Loop,
    /// The same in lines of so many dots.
    LoopWide(u16),
}

/// The task, if there are lines of such a width and such a byte.
pub fn task_of(address: Address, asked: Asked) -> Option<Task> {
    match asked {
        Asked::Emulate(links, condition) => {
            Some(emulate(address, links, condition, LineWidth::usual(), None))
        }
        Asked::EmulateWide(links, dots) => {
            Some(emulate(address, links, ONLINE, LineWidth::new(dots)?, None))
        }
        Asked::EmulateBy(links, condition, path) => {
            let file = AddressText::of(path)?;
            Some(emulate(address, links, condition, LineWidth::usual(), Some(file)))
        }
        Asked::Send(openings) => Some(send(address, openings, None, ReceiptOptions::usual())),
        Asked::SendWithin(openings, wait) => {
            Some(send(address, openings, Some(wait), ReceiptOptions::usual()))
        }
        Asked::SendWide(dots, byte) => {
            let options = ReceiptOptions {
                width: LineWidth::new(dots)?,
                replacement: Some(Replacement::new(byte)?),
            };
            Some(send(address, 1, None, options))
        }
        Asked::Status => Some(Task::Status {
            address,
            wait: None,
        }),
        Asked::StatusWithin(wait) => Some(Task::Status {
            address,
            wait: Some(wait),
        }),
        Asked::Loop => Some(Task::Loop {
            width: LineWidth::usual(),
        }),
        Asked::LoopWide(dots) => Some(Task::Loop {
            width: LineWidth::new(dots)?,
        }),
    }
}

fn emulate(
    address: Address,
    links: Option<u32>,
    condition: Condition,
    width: LineWidth,
    file: Option<AddressText>,
) -> Task {
    Task::Emulate {
        address,
        links,
        condition,
        width,
        file,
    }
}

fn send(address: Address, openings: u32, wait: Option<u32>, options: ReceiptOptions) -> Task {
    Task::Send {
        address,
        first: 0,
        openings,
        wait,
        options,
    }
}
