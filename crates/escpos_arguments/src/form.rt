//! The form of a stream among the arguments, and the task of `check`, which may be given it alone.

ghost use Rattle.std.specs.Prelude.{◌≡◌, Bool, codes};
ghost use Rattle.clap.specs.Words.{found_of, rows_of};
ghost use Rattle.escpos_job_parts.specs.declared.form.Form.{Form as StreamForm};
ghost use Rattle.escpos_jobs.specs.declared.task.Task.{Task};
ghost use Rattle.escpos_arguments.specs.Arguments.{AsksBy, GivesForm, GivesPass};

use crate::arguments::has_flag;
use clap::ArgMatches;
use escpos_job_parts::form::Form;
use escpos_jobs::task::Task;

// The task of `check` with the arguments that follow it.
pub(crate) fn check_asked(given: &ArgMatches) -> Task
    ensures asks { AsksBy (codes "check") (rows_of (found_of given.now)) result }
    ensures taken { (task : Task) → AsksBy (codes "check") (rows_of (found_of given.now)) task → result ≡ task }
{
    Task::Check {
        form: form_given(given),
        pass: pass_given(given),
    }
}

// Whether commands are passed over: with `--pass`.
pub(crate) fn pass_given(given: &ArgMatches) -> bool
    ensures read { GivesPass (rows_of (found_of given.now)) result }
    ensures taken { (pass : Bool) → GivesPass (rows_of (found_of given.now)) pass → result ≡ pass }
{
    has_flag(given, "pass")
}

// The form of the stream: the bytes themselves with `--raw`, otherwise hexadecimal.
pub(crate) fn form_given(given: &ArgMatches) -> Form
    ensures read { GivesForm (rows_of (found_of given.now)) result }
    ensures taken { (form : StreamForm) → GivesForm (rows_of (found_of given.now)) form → result ≡ form }
{
    if has_flag(given, "raw") {
        Form::Raw
    } else {
        Form::Hexadecimal
    }
}
