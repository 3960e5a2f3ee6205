//! The task of `image`: the width of a line, and a threshold.

ghost use Rattle.std.specs.Prelude.{◌≡◌, ℕ, Option, IfErr, IfOk, IfSome, codes};
ghost use Rattle.clap.specs.Words.{found_of, one_of, rows_of};
ghost use Rattle.escpos_jobs.specs.declared.task.Task.{Task};
ghost use Rattle.escpos_arguments.specs.Arguments.{AsksBy, InRange, IsThreshold};
ghost use Rattle.escpos_arguments.specs.ClapAnswers.{IsNumberIn};

use crate::arguments::number_given;
use crate::width::width_or_usual;
use clap::ArgMatches;
use escpos_jobs::task::{NoTask, Task};

/// The greatest threshold: a dot is black where its gray value, 0 to 255, is below it.
pub const MOST_THRESHOLD: u8 = 255;

const _: () = prove!(MOST_THRESHOLD == 255);

// The task of `image` with the arguments that follow it.
pub(crate) fn image_asked(given: &ArgMatches) -> Result<Task, NoTask>
    ensures asks { IfOk result (AsksBy (codes "image") (rows_of (found_of given.now))) }
    ensures ranges { IfOk result InRange }
    ensures taken { (task : Task) → AsksBy (codes "image") (rows_of (found_of given.now)) task → InRange task → result ≡ Ok task }
    ensures usage { IfErr result (λ why. why ≡ NoTask.Usage) }
{
    let width = width_or_usual(given)?;
    let threshold = threshold_given(given)?;
    Ok(Task::Image { width, threshold })
}

// The gray value that dots are compared with, if that is given.
fn threshold_given(given: &ArgMatches) -> Result<Option<u8>, NoTask>
    ensures read { IfOk result (IsNumberIn (one_of (codes "threshold") (rows_of (found_of given.now)))) }
    ensures range { IfOk result (λ threshold. IfSome threshold IsThreshold) }
    ensures taken { (threshold : Option ℕ) → IsNumberIn (one_of (codes "threshold") (rows_of (found_of given.now))) threshold
        → IfSome threshold IsThreshold → result ≡ Ok threshold }
    ensures usage { IfErr result (λ why. why ≡ NoTask.Usage) }
{
    match number_given(given, "threshold")? {
        Some(number) => if 1 <= number && number <= u32::from(MOST_THRESHOLD) {
            Ok(Some(number as u8))
        } else {
            Err(NoTask::Usage)
        },
        None => Ok(None),
    }
}
