//! What the program may be asked to do, and why arguments name no task. `perform` does it.

use escpos_addresses::address::{Address, AddressText};
use escpos_command::LineWidth;
use escpos_job_parts::form::Form;
use escpos_printer::Condition;
use escpos_receipt::ReceiptOptions;
use thiserror::Error;

/// What the program is asked to do.
#[derive(Clone, Copy, Debug, PartialEq, Eq)]
pub enum Task {
    /// List the commands of a byte stream that is given in this form; with `pass` those too that are passed over.
    Check {
        form: Form,
        pass: bool,
    },
    /// Write the paper that such a stream prints in lines of this width; with `pass` commands whose length is known are passed over.
    Render {
        form: Form,
        pass: bool,
        width: LineWidth,
    },
    /// Write that paper as plain text.
    RenderText {
        form: Form,
        pass: bool,
        width: LineWidth,
    },
    /// Draw that paper.
    Draw {
        form: Form,
        pass: bool,
        width: LineWidth,
    },
    /// Write the bytes of the commands of a receipt that is read with these options, in this form.
    Encode {
        form: Form,
        options: ReceiptOptions,
    },
    /// Write the entries of a receipt that print a picture in lines of this width, black where its gray value is below the threshold, or
    /// by error diffusion.
    Image {
        width: LineWidth,
        threshold: Option<u8>,
    },
    /// Play a script of what happens on a line.
    Play,
    /// Be a printer at this address whose sensors say this, and that prints lines of this width: for `links` links, and write its
    /// paper; or, where no number is given, until it is ended, and write what each link printed once it has ended. Where a file is
    /// given, the sensors say what it says once it is first read.
    Emulate {
        address: Address,
        links: Option<u32>,
        condition: Condition,
        width: LineWidth,
        file: Option<AddressText>,
    },
    /// Send a receipt that is read with these options to the printer at this address, with `openings` opening marks from the number
    /// `first` on, where no wait lasts longer than `wait` seconds, if that is given.
    Send {
        address: Address,
        first: u32,
        openings: u32,
        wait: Option<u32>,
        options: ReceiptOptions,
    },
    /// Ask the printer at this address for its status, where no wait lasts longer than `wait` seconds, if that is given.
    Status {
        address: Address,
        wait: Option<u32>,
    },
    /// Send a receipt over a link of which the program is both ends, to a printer that prints lines of this width.
    Loop {
        width: LineWidth,
    },
}

/// Why the arguments name no task.
#[derive(Clone, Copy, Debug, Drop, PartialEq, Eq, Error)]
pub enum NoTask {
    /// The first argument is no task, there is no argument, or there is one too many.
    #[error("the words name no task")]
    Usage,
    /// The arguments ask what the program is for.
    #[error("help was asked for")]
    Help,
    /// Out of memory while the arguments were read.
    #[error("there wasn't enough memory")]
    Memory,
}
