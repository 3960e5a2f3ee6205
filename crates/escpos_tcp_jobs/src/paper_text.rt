//! Paper as text, kept until it may be printed.
//!
//! An item takes hundreds of bytes of memory, its text about ten. So where paper must wait, as that of `emulate` until its
//! last link has ended, it is torn off the printer from time to time, and only its text is kept.

ghost use Rattle.std.specs.Prelude.{◌≡◌, ◌++◌, [], List, IsTrue, OnErr, OnOk};
ghost use Rattle.std.specs.Io.KnownBytes.{Appends};
ghost use Rattle.escpos_paper.specs.declared.item.Item.{Item};
ghost use Rattle.escpos_paper.specs.ItemsText.{items_text};
ghost use Rattle.escpos_printer.specs.LinkInParts.{under};

use escpos_io::{ByteOut, Device, Failed, put_all};
use escpos_paper::{Item, write_items};
use escpos_printer::Printer;
use std::alloc::Global;
use std::marker::Model;

/// The text of what was torn off a printer's paper, a line for each item. Its model is the list of its bytes.
#[derive(Drop)]
pub struct PaperText {
    kept: Kept,
}

impl Model for PaperText {
    ghost use Rattle.std.specs.Prelude.{ℕ, List};

    ghost Value = { List ℕ };

    ghost view = { λ p. p.kept.bytes.items };
}

impl PaperText {
    /// No text. Allocates nothing.
    pub fn new(alloc: Global) -> Self
        ensures { result ≡ [] }
    {
        PaperText {
            kept: Kept {
                bytes: Vec::new(alloc),
                failed: false,
            },
        }
    }

    /// The bytes of the text.
    pub fn as_slice(&self) -> &[u8]
        ensures { result.now ≡ self.now }
    {
        self.kept.bytes.as_slice()
    }

    /// Tears the paper off, and appends its text to what is kept. If the allocation for the text fails, the paper stays,
    /// now and at later calls.
    pub fn tear_off(&mut self, printer: &mut Printer)
        ensures { (gone : List Item) × (self.new ≡ self.old ++ items_text gone) × (printer.old ≡ under gone printer.new) }
    {
        let before = self.kept.bytes.len();
        if write_items(printer.items(), &mut self.kept).is_ok() {
            printer.tear_off();
        } else {
            self.kept.bytes.truncate(before);
        }
    }

    /// Prints the text that is kept, then that of `items`. `Err` comes only if `output` has failed.
    pub fn put_above<W: ByteOut>(&self, items: &[Item], output: &mut W) -> Result<(), Device>
        ensures put { OnOk result (Appends (W.written output.old) (W.written output.new) (self.now ++ items_text items.now)) }
        ensures failed { OnErr result (IsTrue (W.failed output.new)) }
        ensures not_failed { OnOk result (¬ IsTrue (W.failed output.old) → ¬ IsTrue (W.failed output.new)) }
    {
        put_all(self.as_slice(), output)?;
        write_items(items, output)
    }
}

// Bytes in memory as a sink. It fails when memory runs out.
#[derive(Drop)]
struct Kept {
    bytes: Vec<u8>,
    failed: bool,
}

impl ByteOut for Kept {
    ghost use Rattle.std.specs.Prelude.{Some, false};

    ghost written = { λ kept. Some kept.bytes.items };

    ghost failed = { λ kept. kept.failed };

    ghost timed_out = { λ _. false };

    fn put(&mut self, piece: &[u8]) -> Result<usize, Failed> {
        if self.failed || self.bytes.extend_from_slice(piece).is_err() {
            self.failed = true;
            return Err(Failed);
        }
        Ok(piece.len())
    }

    fn has_failed(&self) -> bool {
        self.failed
    }

    // nothing is waited for
    fn has_timed_out(&self) -> bool {
        false
    }
}
