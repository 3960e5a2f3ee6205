//! A stream of bytes as a receipt.

ghost use Rattle.std.specs.Prelude.{◌≡◌, ◌<◌, ℕ, IfOk, IfSome, IsErrOf, List, length};
ghost use Rattle.escpos_command.specs.declared.command.Command.{Command};
ghost use Rattle.escpos_command.specs.CommandTable.{AreCommands};
ghost use Rattle.escpos_receipt.specs.Printable.{IsPrintable};
ghost use Rattle.escpos_receipt.specs.Refusals.{receipt_place};
ghost use Rattle.escpos_receipt.specs.Whole.{Whole};
ghost use Rattle.escpos_stream.specs.declared.fault.StreamError.{StreamError};
ghost use Rattle.escpos_stream.specs.declared.fault.StreamFault.{StreamFault};
ghost use Rattle.escpos_stream.specs.Streams.{IsStreamFault, Placed, StreamGives, StreamKeeps, commands_of, moved, places_of};

use crate::fault::{StreamError, StreamFault};
use crate::kept::Kept;
use escpos_command::LineWidth;
use escpos_decode::{Decoder, Stop, read_piece};
use escpos_receipt::{Receipt, ReceiptFault};
use std::alloc::{AllocError, Global};

/// The receipt that a stream is, on lines of this width: its commands without those that ask for answers (GS a and DLE EOT), and without
/// each ESC @ at the beginning and at the end. What another library makes as a receipt begins with ESC @.
///
/// The errors are why it is none, and `Memory`.
pub fn stream_receipt(alloc: Global, width: LineWidth, bytes: &[u8]) -> Result<Receipt, StreamError>
    ensures receipt { IfOk result (λ receipt. StreamGives bytes.now receipt × Whole receipt × AreCommands receipt) }
    ensures printable { IfOk result (λ receipt. IsPrintable width receipt) }
    ensures refused { (fault : StreamFault) → IsErrOf result (StreamError.Refused fault) → IsStreamFault width fault bytes.now }
{
    let kept = read_kept(alloc, bytes)?;
    match Receipt::new(kept.commands) {
        Ok(receipt) => match receipt.not_printable(width) {
            None => Ok(receipt),
            Some(at) => Err(StreamError::Refused(StreamFault::NotPrintable {
                at: kept.places[at],
            })),
        },
        Err((fault, _)) => Err(StreamError::Refused(StreamFault::NotWhole(moved(
            fault,
            kept.places.as_slice(),
        )))),
    }
}

// The commands of a stream that are kept, with their places.
fn read_kept(alloc: Global, bytes: &[u8]) -> Result<Kept, StreamError>
    ensures kept { IfOk result (λ kept. (placed : List Placed) × StreamKeeps bytes.now placed × (kept.commands.items ≡ commands_of placed) × (kept.places.items ≡ places_of placed)) }
    ensures refused { (fault : StreamFault) → IsErrOf result (StreamError.Refused fault) → (width : ℕ) → IsStreamFault width fault bytes.now }
{
    let mut decoder = Decoder::new(alloc);
    let mut kept = Kept::new(alloc);
    match read_piece(&mut decoder, bytes, &mut kept, &mut ()) {
        Ok(()) => {}
        Err(Stop::Fault { at, why }) => {
            return Err(StreamError::Refused(StreamFault::Refused { at, why }));
        }
        Err(Stop::Memory | Stop::Refused(AllocError)) => return Err(StreamError::Memory),
    }
    let half = decoder.pending_len();
    if half > 0 {
        return Err(StreamError::Refused(StreamFault::CutShort {
            at: bytes.len() - half,
        }));
    }
    kept.end();
    Ok(kept)
}

// The same reason, with the place of the command's first byte.
fn moved(fault: ReceiptFault, places: &[usize]) -> ReceiptFault
    requires { IfSome (receipt_place fault) (λ at. at < length places.now) }
    ensures { result ≡ moved places.now fault }
{
    match fault {
        ReceiptFault::Empty => ReceiptFault::Empty,
        ReceiptFault::Forbidden { at } => ReceiptFault::Forbidden { at: places[at] },
        ReceiptFault::TextLeft => ReceiptFault::TextLeft,
        ReceiptFault::MidLine { at } => ReceiptFault::MidLine { at: places[at] },
        ReceiptFault::RealTime { at } => ReceiptFault::RealTime { at: places[at] },
    }
}
