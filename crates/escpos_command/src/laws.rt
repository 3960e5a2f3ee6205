//! Proof only: the laws of the grammar. The contract of each function is the law; when run, most do nothing. A law is
//! proved with this crate, and another crate cites it by calling the function. (`in_range` asks the command for its parts,
//! whose contract gives the law; `same_clone` clones the command.)

ghost use Rattle.std.specs.Prelude.{ℕ, ◌≡◌, ◌≢◌, ◌+◌, ◌<◌, ◌≤◌, ◌⊎◌, List, [], ◌∷◌, ◌++◌, length, slice_index, IsTrue, IfOk, Option};
ghost use Rattle.escpos_command.specs.declared.fault.FaultReason.{FaultReason};
ghost use Rattle.escpos_command.specs.CommandTable.{Spells, IsCommand, row, spell};
ghost use Rattle.escpos_command.specs.Grammar.{Viable, Half, Reads, FaultAt};
ghost use Rattle.escpos_command.specs.Parameters.{is_mark_id};
ghost use Rattle.escpos_command.specs.SettingTable.{table, row_for, row_prefix, is_setting};
ghost use Rattle.escpos_command.specs.Reference.{reference};
ghost use Rattle.escpos_command.specs.declared.setting.SettingKind.{SettingKind};
ghost use Rattle.escpos_command.specs.Digits.{mark_count, mark_of};
ghost use Rattle.escpos_command.specs.Tree.{Tree, dead, leaf, node, walk, grammar};
ghost use Rattle.escpos_command.specs.Profiles.{ViableIn, ReadsIn, FaultAtIn, IsReadIn, IsRefusedIn};
ghost use Rattle.escpos_command.specs.EarlierProfiles.{in_profile, IsNew};
ghost use Rattle.escpos_command.specs.Marks.{IsMarkOrNone, marks};
ghost use Rattle.escpos_command.specs.declared.bytes.TheConstants.{GS};
ghost use Rattle.escpos_command.specs.Answers.{AnswerSpells, Hears, kind_of, kind_by};
ghost use Rattle.escpos_command.specs.declared.answer.Answer.{Answer};
ghost use Rattle.escpos_command.specs.declared.command.Command.TheVariants as kind;
ghost use Rattle.escpos_command.specs.Laws.{longest_spelling, IsRead, IsRefused};

use crate::command::Command;
use std::alloc::AllocError;

/// Unique spellings: each command has one spelling, of at most 524,177 bytes; two commands with one spelling
/// are equal; no spelling begins another.
pub fn unique_spellings()
    ensures spelled { (c : Command) → IsCommand c → Spells c (row c) × (length (row c) ≤ longest_spelling) }
    ensures one_spelling { (c : Command) (a b : List ℕ) → Spells c a → Spells c b → a ≡ b }
    ensures one_command { (c d : Command) (a : List ℕ) → Spells c a → Spells d a → c ≡ d }
    ensures no_prefix { (c d : Command) (a more : List ℕ) → Spells c a → Spells d (a ++ more) → more ≡ [] }
{}

/// One reading: each byte list has either exactly one reading, or a fault at exactly one place.
pub fn one_reading()
    ensures read_or_refused { (bs : List ℕ) → IsRead bs ⊎ IsRefused bs }
    ensures one_reading { (bs : List ℕ) (cs ds : List Command) (x y : List ℕ) →
        Reads bs cs x → Reads bs ds y → (cs ≡ ds) × (x ≡ y) }
    ensures one_fault { (bs : List ℕ) (cs ds : List Command) (x y : List ℕ) (k l : ℕ) (why also : FaultReason) →
        FaultAt bs cs x k why → FaultAt bs ds y l also → (cs ≡ ds) × (x ≡ y) × (k ≡ l) × (why ≡ also) }
    ensures not_both { (bs : List ℕ) → IsRead bs → IsRefused bs → ⊥ }
{}

/// Joined readings: a reading goes on where it stopped, and so does a fault, so it doesn't matter where a stream is cut. If
/// the whole reads as commands with nothing left, the first part gives the first of them.
pub fn joined_readings()
    ensures reading { (a b : List ℕ) (cs ds : List Command) (r s : List ℕ) →
        Reads a cs r → Reads (r ++ b) ds s → Reads (a ++ b) (cs ++ ds) s }
    ensures fault { (a b : List ℕ) (cs ds : List Command) (r s : List ℕ) (k : ℕ) (why : FaultReason) →
        Reads a cs r → FaultAt (r ++ b) ds s k why → FaultAt (a ++ b) (cs ++ ds) s (length (spell cs) + k) why }
    ensures first_fault { (a more : List ℕ) (cs : List Command) (r : List ℕ) (k : ℕ) (why : FaultReason) →
        FaultAt a cs r k why → FaultAt (a ++ more) cs r k why }
    ensures cut { (a b : List ℕ) (all some : List Command) (r : List ℕ) → Reads (a ++ b) all [] → Reads a some r
        → (others : List Command) × (all ≡ some ++ others) × Reads (r ++ b) others [] }
{}

/// The earlier profiles of this project, by their numbers from 1 on, which lacked what came later: each reads or refuses each byte list;
/// what it read is read so by the whole table; and where it refused a byte, that byte is refused for the same reason, unless it is new.
/// What is new is taken now, and wasn't then.
pub fn earlier_profiles()
    ensures read_or_refused { (n : ℕ) → 1 ≤ n → (bs : List ℕ) → IsReadIn (in_profile n) bs ⊎ IsRefusedIn (in_profile n) bs }
    ensures read { (n : ℕ) (bs : List ℕ) (cs : List Command) (rest : List ℕ) → ReadsIn (in_profile n) bs cs rest → Reads bs cs rest }
    ensures refused { (n : ℕ) → 1 ≤ n → (bs : List ℕ) (cs : List Command) (rest : List ℕ) (k : ℕ) (why : FaultReason) →
        FaultAtIn (in_profile n) bs cs rest k why → FaultAt bs cs rest k why ⊎ IsNew n rest (slice_index bs k) }
    ensures new { (n : ℕ) → 1 ≤ n → (rest : List ℕ) (b : ℕ) → IsNew n rest b →
        Viable (rest ++ b ∷ []) × (ViableIn (in_profile n) (rest ++ b ∷ []) → ⊥) }
{}

/// The table of settings: its rows have the letters of the Reference, and allow the same parameters.
pub fn setting_table()
    ensures letters { (which : SettingKind) → row_prefix (row_for table which) ≡ (reference which).letters }
    ensures parameters { (which : SettingKind) (parameter : Option ℕ) → is_setting table (which, parameter) ≡ (reference which).allows parameter }
{}

/// Mark numbers: each has an id of its own.
pub fn mark_numbers()
    ensures ids { (n : ℕ) → n < mark_count → IsTrue (is_mark_id (mark_of n)) }
    ensures one_number { (m n : ℕ) → m < mark_count → n < mark_count → mark_of m ≡ mark_of n → m ≡ n }
{}

/// Resynchronisation: a prefix of a mark, sent after anything, is read as no mark, except where nothing stood before it and
/// the prefix is the whole mark; then it is read as that mark. So each mark that is read stands at its own place.
pub fn resynchronisation()
    ensures { (half q more id : List ℕ) (cs : List Command) (rest : List ℕ) → (half ≡ []) ⊎ Half half → IsTrue (is_mark_id id) → q ≢ []
        → row (kind.Mark id) ≡ q ++ more → Reads (half ++ q) cs rest → IsMarkOrNone half more id cs }
{}

/// Reporting: a prefix of a request for automatic status, sent after anything, is read as no mark; so it may be put before marks.
pub fn reporting()
    ensures { (half q more : List ℕ) (n : ℕ) (cs : List Command) (rest : List ℕ) → (half ≡ []) ⊎ Half half → n ≢ GS → q ≢ []
        → row (kind.AutomaticStatus n) ≡ q ++ more → Reads (half ++ q) cs rest → marks cs ≡ [] }
{}

/// Answers: each has its own bytes, no answer begins another, and a list of bytes is heard in at most one way. The first
/// byte tells the kind of an answer, so answers of two kinds share no prefix. A hearing goes on where it stopped. Where bytes are whole answers and are cut anywhere, the first part gives the first of these
/// answers, and the others follow from there.
pub fn answers()
    ensures one_answer { (a b : Answer) (bs : List ℕ) → AnswerSpells a bs → AnswerSpells b bs → a ≡ b }
    ensures no_prefix { (a b : Answer) (bs more : List ℕ) → AnswerSpells a bs → AnswerSpells b (bs ++ more) → more ≡ [] }
    ensures first_byte { (a : Answer) (first : ℕ) (more : List ℕ) → AnswerSpells a (first ∷ more) → kind_of a ≡ kind_by first }
    ensures one_kind { (a b : Answer) (bs x y : List ℕ) → bs ≢ [] → AnswerSpells a (bs ++ x) → AnswerSpells b (bs ++ y) → kind_of a ≡ kind_of b }
    ensures one_hearing { (bs : List ℕ) (some others : List Answer) (x y : List ℕ) → Hears bs some x → Hears bs others y → (some ≡ others) × (x ≡ y) }
    ensures joined { (a b : List ℕ) (some others : List Answer) (r s : List ℕ) → Hears a some r → Hears (r ++ b) others s → Hears (a ++ b) (some ++ others) s }
    ensures cut { (a b : List ℕ) (all some : List Answer) (r : List ℕ) → Hears (a ++ b) all [] → Hears a some r
        → (others : List Answer) × (all ≡ some ++ others) × Hears (r ++ b) others [] }
{}

/// The tree of bytes: where a byte list leads in the tree is what the definitions say of the list. So a reader that walks
/// the tree is a reader of the grammar.
pub fn tree()
    ensures spelling { (c : Command) (bs : List ℕ) → walk grammar bs ≡ leaf c → Spells c bs }
    ensures half { (bs : List ℕ) (next : ℕ → Tree) → bs ≢ [] → walk grammar bs ≡ node next → Half bs }
    ensures refused { (bs : List ℕ) → walk grammar bs ≡ dead → Viable bs → ⊥ }
{}

/// Commands are in range: the parameters of a value of `Command` are those that the command table allows.
pub fn in_range(command: &Command)
    ensures { IsCommand command.now }
{
    // Proof only: the contract of `parts` is the law.
    let _ = command.parts();
}

/// A clone of a command is that command. The error is a failed allocation.
pub fn same_clone(command: &Command) -> Result<Command, AllocError>
    ensures { IfOk result (λ same. same ≡ command.now) }
{
    command.clone()
}
