//! Proof only: the laws of real-time commands. The contract of each function is the law; when run, it does nothing. A law is
//! proved with this crate, and another crate cites it by calling the function.

ghost use Rattle.std.specs.Prelude.{◌⊎◌, ℕ, List, [], ◌∷◌, ◌++◌};
ghost use Rattle.escpos_command.specs.declared.command.Command.{Command};
ghost use Rattle.escpos_command.specs.CommandTable.{IsCommand, row, spell};
ghost use Rattle.escpos_real_time.specs.RealTime.{HoldsRealTime};

/// Held by one: where a real-time command stands in the bytes of commands, it stands in one of them. None stands across the
/// end of a command, since no command begins with a byte that a real-time command has after its first.
pub fn held_by_one()
    ensures { (cs : List Command) (c : Command) → IsCommand c → HoldsRealTime (spell (cs ++ c ∷ [])) → HoldsRealTime (spell cs) ⊎ HoldsRealTime (row c) }
{}

/// Holds within: bytes hold what a part of them holds.
pub fn holds_within()
    ensures { (before bytes following : List ℕ) → HoldsRealTime bytes → HoldsRealTime (before ++ (bytes ++ following)) }
{}
