//! The reasons for which a text is no receipt, in a table of those that differ.

use escpos_receipt::{JsonFault, ReceiptFault};

// Reasons that differ: in their kind, in the place alone, or in the reason inside.
const FAULTS: [JsonFault; 18] = [
    JsonFault::NotWhole(ReceiptFault::Empty),
    JsonFault::NotWhole(ReceiptFault::TextLeft),
    JsonFault::NotWhole(ReceiptFault::MidLine { at: 1 }),
    JsonFault::NotWhole(ReceiptFault::MidLine { at: 2 }),
    JsonFault::NotWhole(ReceiptFault::RealTime { at: 1 }),
    JsonFault::NotWhole(ReceiptFault::RealTime { at: 2 }),
    JsonFault::NotWhole(ReceiptFault::Forbidden { at: 1 }),
    JsonFault::NotWhole(ReceiptFault::Forbidden { at: 2 }),
    JsonFault::NotPrintable { at: 1 },
    JsonFault::NotPrintable { at: 2 },
    JsonFault::NotJson,
    JsonFault::BadShape { at: 1 },
    JsonFault::BadShape { at: 2 },
    JsonFault::ControlByte { at: 1 },
    JsonFault::ControlByte { at: 2 },
    JsonFault::NoCharacter {
        at: 1,
        character: '漢',
    },
    JsonFault::NoCharacter {
        at: 2,
        character: '漢',
    },
    JsonFault::NoCharacter {
        at: 2,
        character: '字',
    },
];

/// Reasons that differ: in their kind, in the place alone, or in the reason inside.
pub fn faults() -> &'static [JsonFault] {
    &FAULTS
}
