//! The width of a line among the arguments, and the tasks that print on paper and need no address.

ghost use Rattle.std.specs.Prelude.{◌≡◌, ◌↔◌, ℕ, Option, IfErr, IfOk, IfSome, IsTrue, codes};
ghost use Rattle.std.specs.Option.{SomeIff};
ghost use Rattle.clap.specs.Words.{found_of, one_of, rows_of};
ghost use Rattle.escpos_command.specs.LineWidths.{is_line_width};
ghost use Rattle.escpos_jobs.specs.declared.task.Task.{Task};
ghost use Rattle.escpos_arguments.specs.Arguments.{AsksBy, GivesWidth, HasNoWidth, InRange};
ghost use Rattle.escpos_arguments.specs.ClapAnswers.{IsNumberIn};

use crate::arguments::{has_flag, number_given};
use crate::form::{form_given, pass_given};
use clap::ArgMatches;
use escpos_command::LineWidth;
use escpos_jobs::task::{NoTask, Task};

// The task of `render` with the arguments that follow it.
pub(crate) fn render_asked(given: &ArgMatches) -> Result<Task, NoTask>
    ensures asks { IfOk result (AsksBy (codes "render") (rows_of (found_of given.now))) }
    ensures ranges { IfOk result InRange }
    ensures taken { (task : Task) → AsksBy (codes "render") (rows_of (found_of given.now)) task → InRange task → result ≡ Ok task }
    ensures usage { IfErr result (λ why. why ≡ NoTask.Usage) }
{
    let form = form_given(given);
    let pass = pass_given(given);
    let width = width_or_usual(given)?;
    if has_flag(given, "text") {
        Ok(Task::RenderText { form, pass, width })
    } else {
        Ok(Task::Render { form, pass, width })
    }
}

// The task of `draw` with the arguments that follow it.
pub(crate) fn draw_asked(given: &ArgMatches) -> Result<Task, NoTask>
    ensures asks { IfOk result (AsksBy (codes "draw") (rows_of (found_of given.now))) }
    ensures ranges { IfOk result InRange }
    ensures taken { (task : Task) → AsksBy (codes "draw") (rows_of (found_of given.now)) task → InRange task → result ≡ Ok task }
    ensures usage { IfErr result (λ why. why ≡ NoTask.Usage) }
{
    let form = form_given(given);
    let pass = pass_given(given);
    let width = width_or_usual(given)?;
    Ok(Task::Draw { form, pass, width })
}

// The task of `loop` with the arguments that follow it.
pub(crate) fn loop_asked(given: &ArgMatches) -> Result<Task, NoTask>
    ensures asks { IfOk result (AsksBy (codes "loop") (rows_of (found_of given.now))) }
    ensures ranges { IfOk result InRange }
    ensures taken { (task : Task) → AsksBy (codes "loop") (rows_of (found_of given.now)) task → InRange task → result ≡ Ok task }
    ensures usage { IfErr result (λ why. why ≡ NoTask.Usage) }
{
    let width = width_or_usual(given)?;
    Ok(Task::Loop { width })
}

// The width of a line; where that isn't given, the usual one.
pub(crate) fn width_or_usual(given: &ArgMatches) -> Result<LineWidth, NoTask>
    ensures read { IfOk result (GivesWidth (rows_of (found_of given.now))) }
    ensures range { IfOk result (λ width. IsTrue (is_line_width width)) }
    ensures taken { (width : ℕ) → GivesWidth (rows_of (found_of given.now)) width → IsTrue (is_line_width width) → result ≡ Ok width }
    ensures usage { IfErr result (λ why. why ≡ NoTask.Usage) }
{
    let width = width_given(given)?;
    Ok(width.unwrap_or(LineWidth::usual()))
}

// Whether no width of a line is given.
pub(crate) fn has_no_width(given: &ArgMatches) -> bool
    ensures { IsTrue result ↔ HasNoWidth (rows_of (found_of given.now)) }
{
    matches!(number_given(given, "width"), Ok(None))
}

// The width of a line, if that is given.
fn width_given(given: &ArgMatches) -> Result<Option<LineWidth>, NoTask>
    ensures read { IfOk result (IsNumberIn (one_of (codes "width") (rows_of (found_of given.now)))) }
    ensures range { IfOk result (λ width. IfSome width (λ dots. IsTrue (is_line_width dots))) }
    ensures taken { (width : Option ℕ) → IsNumberIn (one_of (codes "width") (rows_of (found_of given.now))) width
        → IfSome width (λ dots. IsTrue (is_line_width dots)) → result ≡ Ok width }
    ensures usage { IfErr result (λ why. why ≡ NoTask.Usage) }
{
    match number_given(given, "width")? {
        Some(dots) => match line_width(dots) {
            Some(width) => Ok(Some(width)),
            None => Err(NoTask::Usage),
        },
        None => Ok(None),
    }
}

// The width of a line of so many dots, if a line may have them.
fn line_width(dots: u32) -> Option<LineWidth>
    ensures { SomeIff result (IsTrue (is_line_width dots)) dots }
{
    match u16::try_from(dots) {
        Ok(dots) => LineWidth::new(dots),
        Err(_) => None,
    }
}
