//! Proof only: the laws of the larger table. The contract of each function is the law; when run, they do nothing.

ghost use Rattle.std.specs.Prelude.{ℕ, Bool, ◌≡◌, ◌⊎◌, List, [], ◌∷◌, ◌++◌, map, take};
ghost use Rattle.escpos_command.specs.declared.command.Command.{Command};
ghost use Rattle.escpos_command.specs.declared.fault.FaultReason.{FaultReason};
ghost use Rattle.escpos_command.specs.Grammar.{Reads};
ghost use Rattle.escpos_passed.specs.Tokens.{Token, taken, IsToken, bytes_of, ReadsTokens, FaultAfter, ReadsWith, FaultWith};
ghost use Rattle.escpos_passed.specs.Laws.{IsReadAll, IsRefusedAll};

/// Tokens: two of the same bytes are equal, and the bytes of none begin those of another.
pub fn tokens()
    ensures one_token { (t u : Token) → IsToken t → IsToken u → bytes_of t ≡ bytes_of u → t ≡ u }
    ensures no_prefix { (t u : Token) (more : List ℕ) → IsToken t → IsToken u → bytes_of u ≡ bytes_of t ++ more → more ≡ [] }
{}

/// One reading: each byte list has either exactly one reading, or a fault at exactly one place.
pub fn one_reading()
    ensures read_or_refused { (bs : List ℕ) → IsReadAll bs ⊎ IsRefusedAll bs }
    ensures one_reading { (bs : List ℕ) (ts us : List Token) (x y : List ℕ) → ReadsTokens bs ts x → ReadsTokens bs us y → (ts ≡ us) × (x ≡ y) }
    ensures one_fault { (bs : List ℕ) (ts us : List Token) (k l : ℕ) (why also : FaultReason) →
        FaultAfter bs ts k why → FaultAfter bs us l also → (ts ≡ us) × (k ≡ l) × (why ≡ also) }
    ensures not_both { (bs : List ℕ) → IsReadAll bs → IsRefusedAll bs → ⊥ }
{}

/// With or without passing over: there is one reading, one fault, and not both; and a reading without its last token is one of fewer
/// bytes.
pub fn one_reading_with()
    ensures one_reading { (pass : Bool) (bs : List ℕ) (ts us : List Token) (x y : List ℕ) → ReadsWith pass bs ts x → ReadsWith pass bs us y → (ts ≡ us) × (x ≡ y) }
    ensures one_fault { (pass : Bool) (bs : List ℕ) (ts us : List Token) (k l : ℕ) (why also : FaultReason) →
        FaultWith pass bs ts k why → FaultWith pass bs us l also → (ts ≡ us) × (k ≡ l) × (why ≡ also) }
    ensures without_the_last { (pass : Bool) (bytes : List ℕ) (k : ℕ) (ts : List Token) (t : Token) →
        ReadsWith pass (take k bytes) (ts ++ t ∷ []) [] → (j : ℕ) × ReadsWith pass (take j bytes) ts [] }
    ensures not_both { (pass : Bool) (bs : List ℕ) (ts us : List Token) (x : List ℕ) (k : ℕ) (why : FaultReason) → ReadsWith pass bs ts x → FaultWith pass bs us k why → ⊥ }
{}

/// The smaller table: what it reads is read so.
pub fn smaller_table()
    ensures { (bs : List ℕ) (cs : List Command) (rest : List ℕ) → Reads bs cs rest → ReadsTokens bs (map taken cs) rest }
{}
