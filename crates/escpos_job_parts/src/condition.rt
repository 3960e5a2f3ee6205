//! What a printer's sensors say, as a text: the three digits of `--condition`, of a script, and of a file that is watched.

ghost use Rattle.std.specs.Prelude.{◌≡◌, Bool, Some, IfSome};
ghost use Rattle.escpos_printer.specs.declared.condition.Condition.{Condition};
ghost use Rattle.escpos_job_parts.specs.Conditions.{condition_text, sensor_digit};

use escpos_printer::Condition;

/// The condition of a printer that is online and has paper.
pub const ONLINE: Condition = Condition {
    cover_open: false,
    near_end: false,
    paper_end: false,
};

/// What the sensors say, in a text: cover open, paper near its end, paper ended; a digit 0 or 1 each. `None` for other texts.
pub fn condition_of(text: &[u8]) -> Option<Condition>
    ensures read { IfSome result (λ condition. text.now ≡ condition_text condition) }
    ensures given { (condition : Condition) → text.now ≡ condition_text condition → result ≡ Some condition }
{
    let [cover_open, near_end, paper_end] = text else {
        return None;
    };
    Some(Condition {
        cover_open: flag_of(*cover_open)?,
        near_end: flag_of(*near_end)?,
        paper_end: flag_of(*paper_end)?,
    })
}

// A digit 0 or 1.
fn flag_of(digit: u8) -> Option<bool>
    ensures read { IfSome result (λ set. digit ≡ sensor_digit set) }
    ensures given { (set : Bool) → digit ≡ sensor_digit set → result ≡ Some set }
{
    match digit {
        b'0' => Some(false),
        b'1' => Some(true),
        _ => None,
    }
}
