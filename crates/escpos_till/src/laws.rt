//! Proof only: the laws of a ledger's keys. The contract of the function is the law; when run, it does nothing.

ghost use Rattle.std.specs.Prelude.{ℕ, ◌≡◌, ◌<◌, ◌≤◌, List, ◌++◌};
ghost use Rattle.escpos_till.specs.declared.entry.Entry.{Entry};
ghost use Rattle.escpos_till.specs.Entries.{HasKey, IsLedger, last_number};

/// One key is one receipt: in a ledger no two receipts have the same key, and no receipt has two. A receipt that has a key was taken,
/// here or in an older ledger, and whatever is added later, it has that key.
pub fn one_key_is_one_receipt()
    ensures one_receipt { (entries : List Entry) (key : List ℕ) (m n : ℕ) → IsLedger entries → HasKey entries key m → HasKey entries key n → m ≡ n }
    ensures one_key { (entries : List Entry) (key other : List ℕ) (number : ℕ) → IsLedger entries → HasKey entries key number → HasKey entries other number → key ≡ other }
    ensures taken { (entries : List Entry) (key : List ℕ) (number : ℕ) → HasKey entries key number → (0 < number) × (number ≤ last_number entries) }
    ensures stays { (entries more : List Entry) (key : List ℕ) (number : ℕ) → HasKey entries key number → HasKey (entries ++ more) key number }
{}
