//! Proof only: the laws of receipts. The contract of each function is the law; when run, it does nothing. A law is proved with this
//! crate, and another crate cites it by calling the function.

ghost use Rattle.std.specs.Prelude.{ℕ, List};
ghost use Rattle.escpos_command.specs.declared.command.Command.{Command};
ghost use Rattle.escpos_command.specs.CommandTable.{spell};
ghost use Rattle.escpos_real_time.specs.RealTime.{HoldsRealTime};
ghost use Rattle.escpos_receipt.specs.declared.options.ReceiptOptions.{ReceiptOptions};
ghost use Rattle.escpos_receipt.specs.Describes.{DescribesWith};
ghost use Rattle.escpos_receipt.specs.ReadBack.{PrintsAsWritten};
ghost use Rattle.escpos_receipt.specs.Whole.{Whole};

/// No real-time command: nothing that a receipt sends is one, nor holds one, so a printer does for it what its commands say and
/// nothing else.
pub fn no_real_time()
    ensures { (cs : List Command) → Whole cs → HoldsRealTime (spell cs) → ⊥ }
{}

/// What is printed reads as what was written: the cells that a receipt prints for a string of its text, read by the character set
/// and the code table of each, are the characters of the string's composed form, one after another; or what stands for one that no
/// table of the choice has. The lines of a layout are printed as they are laid out, each as one row. Any other entry prints no
/// character.
pub fn printed_as_written()
    ensures { (options : ReceiptOptions) (text : List ℕ) (cs : List Command) → DescribesWith options text cs → PrintsAsWritten options text cs }
{
    escpos_layout::laws::printed_lines();
    escpos_layout::laws::narrow_lines();
}
