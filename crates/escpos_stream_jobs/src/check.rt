//! The job `check`: a byte stream as a listing of its commands. Each line is given to the output as its command comes.

ghost use Rattle.std.specs.Prelude.{◌≡◌, ◌≢◌, ◌⊎◌, ◌+◌, ◌≤◌, ◌++◌, [], ℕ, List, Option, IfSome, IsTrue};
ghost use Rattle.std.proofs.Common.{subst, sym, append-nil};
ghost use Rattle.escpos_io.specs.Gather.{Carries};
ghost use Rattle.escpos_stream_jobs.specs.declared.job.Obstacle.TheVariants as obstacle;
ghost use Rattle.escpos_job_parts.specs.Ending.{IsFair, job_end};
ghost use Rattle.escpos_stream_jobs.specs.Obstacle.{memory_is_no_device};
ghost use Rattle.escpos_stream_jobs.specs.Check.{Checks, listing_shape, token_lines};

use crate::job::{Job, Obstacle, run};
use crate::passed_line::put_passed_line;
use escpos_command::{Command, LineWidth};
use escpos_io::{ByteIn, ByteOut, Gather};
use escpos_job_parts::form::Form;
use escpos_job_parts::lines::{LINE_BYTES, Last, append_character, put_line};
use escpos_job_parts::places::PlaceText;
use escpos_job_parts::status::Status;
use escpos_passed::{Row, TokenConsumer};
use std::alloc::Global;

/// Reads a stream in this form from `input` and lists its commands on `output`; with `pass` those too that are passed over.
///
/// `run` says which status comes when. With `Memory` the line `memory` follows the lines of the commands so far.
pub fn check<R: ByteIn, W: ByteOut>(
    alloc: Global,
    form: Form,
    pass: bool,
    input: &mut R,
    output: &mut W,
) -> Status
    ensures checks { IfSome (R.to_come input.old) (λ given. Checks form pass (job_end (W.written output.old) (W.written output.new) (W.failed output.new) result) given) }
    ensures fair { IsFair result (R.failed input.new) (W.failed output.old, W.failed output.new)
        (R.pull_count input.old, R.pull_count input.new) }
    ensures nothing_put { IsTrue (R.failed input.new) → output.new ≡ output.old }
{
    run::<R, W, Listing>(alloc, form, pass, LineWidth::usual(), input, output)
}

// The lines that aren't printed yet, and the text of the last character's place.
#[derive(Drop)]
struct Listing {
    gather: Gather,
    places: PlaceText,
}

impl<W: ByteOut> TokenConsumer<W> for Listing {
    type Refusal = Obstacle;

    ghost accepted = { λ start now ts.
        ((first : Option (List ℕ)) (total : List ℕ) → Carries first (W.written start.1) start.0.gather total
        → Carries first (W.written now.1) now.0.gather (total ++ token_lines 0 ts))
        × (¬ IsTrue (W.failed start.1) → ¬ IsTrue (W.failed now.1)) };

    ghost refused = { λ last now refusal. (refusal ≡ obstacle.Device) × IsTrue (W.failed now.1) };

    fn take(&mut self, command: Command, place: usize, output: &mut W) -> Result<(), Obstacle> {
        match put_line(&mut self.gather, place, &command, output) {
            Ok(()) => Ok(()),
            Err(_) => Err(Obstacle::Device),
        }
    }

    fn take_text(&mut self, text: &[u8], place: usize, output: &mut W) -> Result<usize, Obstacle> {
        if let Err(_) = self.gather.room(LINE_BYTES, output) {
            return Err(Obstacle::Device);
        }
        append_character(&mut self.gather, &mut self.places, place, text[0]);
        Ok(1)
    }

    fn pass(
        &mut self,
        row: &Row,
        bytes: &[u8],
        place: usize,
        output: &mut W,
    ) -> Result<(), Obstacle> {
        match put_passed_line(&mut self.gather, place, row, bytes, output) {
            Ok(()) => Ok(()),
            Err(_) => Err(Obstacle::Device),
        }
    }

    ghost nothing = { λ start. (
      λ first total carried. subst (Carries first (W.written start.1) start.0.gather) (sym (append-nil total)) carried,
      λ well. well,
    ) };
}

impl<W: ByteOut> Job<W> for Listing {
    ghost shape = { λ width. listing_shape };

    ghost is_new = { λ width listing. (sink : Option (List ℕ)) → Carries sink sink listing.gather [] };

    ghost gather = { λ listing. listing.gather };

    // A listing is the same for paper of any width.
    fn new(_alloc: Global, _width: LineWidth) -> Self {
        Listing {
            gather: Gather::new(),
            places: PlaceText::new(),
        }
    }

    // Each has a line of its own.
    fn told(_passed: usize) -> usize {
        0
    }

    fn last(count: usize, half: usize) -> Last {
        Last::End { count, half }
    }

    fn into_gather(self) -> Gather {
        self.gather
    }

    ghost carried = { λ width start now ts new taken. taken.0 (W.written start.1) [] (new (W.written start.1)) };

    ghost well = { λ start now ts taken. taken.1 };

    ghost no_memory = { λ start last now ts taken left. absurd (memory_is_no_device left.0) };

    ghost no_device = { λ last now left. left.1 };
}
