//! Proof only: the law of what stands under a picture. The contract is the law; when run, the function does nothing.

ghost use Rattle.std.specs.Prelude.{◌≡◌, ◌<◌, ◌^◌, ◌++◌, ℕ, List, codes, IsTrue};
ghost use Rattle.std.specs.List.{list_all};
ghost use Rattle.escpos_command.specs.declared.fault.FaultReason.{FaultReason};
ghost use Rattle.escpos_picture.specs.Escaping.{is_plain};
ghost use Rattle.escpos_job_parts.specs.Lines.{end_line, fault_line};
ghost use Rattle.escpos_stream_jobs.specs.Draw.{some_words};

/// Whatever was read, the last line and the words on what was passed over mean nothing to a reader of the document: but for the line
/// end they have no control character and none of & < > " '. So they stand in a picture as they are. Their numbers are at most those of bytes, which are fewer than 2^64.
pub fn last_lines_are_plain()
    ensures ends { (count half : ℕ) → count < 2 ^ 64 → half < 2 ^ 64 →
        (text : List ℕ) × (end_line count half ≡ text ++ codes "\n") × IsTrue (list_all is_plain text) }
    ensures faults { (place : ℕ) (why : FaultReason) → place < 2 ^ 64 →
        (text : List ℕ) × (fault_line place why ≡ text ++ codes "\n") × IsTrue (list_all is_plain text) }
    ensures words { (n : ℕ) → n < 2 ^ 64 → (text : List ℕ) × (some_words n ≡ text ++ codes "\n") × IsTrue (list_all is_plain text) }
{}
