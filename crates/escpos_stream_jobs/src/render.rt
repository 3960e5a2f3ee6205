//! The job `render`: what a byte stream prints, as text. The text of each item is given to the output as soon as it is
//! printed.

ghost use Rattle.std.specs.Prelude.{◌≡◌, ◌≢◌, ◌⊎◌, ◌+◌, ◌≤◌, ◌<◌, ◌++◌, [], ℕ, List, Option, OnOk, IfErr, IfSome, IsTrue, flat_map};
ghost use Rattle.std.proofs.Common.{ap, inl, inr, subst, sym, append-nil};
ghost use Rattle.escpos_command.specs.declared.command.Command.{Command};
ghost use Rattle.escpos_io.specs.Gather.{Carries};
ghost use Rattle.escpos_passed.specs.Tokens.{commands_of};
ghost use Rattle.escpos_paper.specs.Torn.{TornIs, bare};
ghost use Rattle.escpos_paper.specs.declared.paper.TheConstants.{MOST_ITEMS};
ghost use Rattle.escpos_stream_jobs.specs.declared.job.Obstacle.TheVariants as obstacle;
ghost use Rattle.escpos_job_parts.specs.Ending.{IsFair, job_end};
ghost use Rattle.escpos_stream_jobs.specs.Render.{Renders, RendersText, text_shape};
ghost use Rattle.escpos_stream_jobs.specs.RenderSteps.{IsRendered};
ghost use Rattle.escpos_stream_jobs.specs.Obstacle.{device_is_no_memory, memory_is_no_device};

use crate::item_form::{ItemForm, Plain, Styled};
use crate::job::{Job, Obstacle, run};
use escpos_command::{Command, LineWidth};
use escpos_io::{ByteIn, ByteOut, Gather};
use escpos_job_parts::form::Form;
use escpos_job_parts::lines::Last;
use escpos_job_parts::status::Status;
use escpos_paper::{Item, Page};
use escpos_passed::{Row, TokenConsumer};
use std::alloc::Global;
use std::marker::PhantomData;

/// Reads a stream in this form from `input` and writes the paper that it prints, in lines of this width, to `output`, an item
/// a line, and the last line of the listing after a fault or with a half command at the end. With `pass` commands whose length is
/// known are passed over, and a line before the last one says how many were, if some.
///
/// `run` says which status comes when. With `Memory` the line `memory` follows the items of the commands so far. No item is
/// kept once the next command is read.
pub fn render<R: ByteIn, W: ByteOut>(
    alloc: Global,
    form: Form,
    pass: bool,
    width: LineWidth,
    input: &mut R,
    output: &mut W,
) -> Status
    ensures renders { IfSome (R.to_come input.old) (λ given. Renders form pass width (job_end (W.written output.old) (W.written output.new) (W.failed output.new) result) given) }
    ensures fair { IsFair result (R.failed input.new) (W.failed output.old, W.failed output.new)
        (R.pull_count input.old, R.pull_count input.new) }
    ensures nothing_put { IsTrue (R.failed input.new) → output.new ≡ output.old }
{
    run::<R, W, Rendering<Styled>>(alloc, form, pass, width, input, output)
}

/// Reads a stream in this form from `input` and writes the paper that it prints, in lines of this width, to `output` as plain
/// text: as `render` does, but each row in the characters that its cells show, in UTF-8, and U+FFFD for each that isn't known.
pub fn render_text<R: ByteIn, W: ByteOut>(
    alloc: Global,
    form: Form,
    pass: bool,
    width: LineWidth,
    input: &mut R,
    output: &mut W,
) -> Status
    ensures renders { IfSome (R.to_come input.old) (λ given. RendersText form pass width (job_end (W.written output.old) (W.written output.new) (W.failed output.new) result) given) }
    ensures fair { IsFair result (R.failed input.new) (W.failed output.old, W.failed output.new)
        (R.pull_count input.old, R.pull_count input.new) }
    ensures nothing_put { IsTrue (R.failed input.new) → output.new ≡ output.old }
{
    run::<R, W, Rendering<Plain>>(alloc, form, pass, width, input, output)
}

// The paper that the commands so far have printed on, all of which is torn off, and the text of it, in the form `F`, that isn't
// printed yet.
#[derive(Drop)]
struct Rendering<F: ItemForm> {
    page: Page,
    gather: Gather,
    form: PhantomData<F>,
}

impl<F: ItemForm, W: ByteOut> TokenConsumer<W> for Rendering<F> {
    type Refusal = Obstacle;

    ghost accepted = { λ start now ts.
        ((width : ℕ) (first : Option (List ℕ)) (before : List Command) → IsRendered F.text width first (W.written start.1) start.0.gather start.0.page.sheet before
        → IsRendered F.text width first (W.written now.1) now.0.gather now.0.page.sheet (before ++ commands_of ts))
        × (¬ IsTrue (W.failed start.1) → ¬ IsTrue (W.failed now.1)) };

    ghost refused = { λ last now refusal.
        ((refusal ≡ obstacle.Memory) × (last.0.page.room < MOST_ITEMS) × (now.1 ≡ last.1) × (now.0.gather ≡ last.0.gather) × (now.0.page.sheet ≡ last.0.page.sheet))
        ⊎ ((refusal ≡ obstacle.Device) × IsTrue (W.failed now.1)) };

    fn take(&mut self, command: Command, _place: usize, output: &mut W) -> Result<(), Obstacle> {
        if self.page.apply(command).is_err() {
            return Err(Obstacle::Memory);
        }
        self.print(output)
    }

    fn take_text(&mut self, text: &[u8], _place: usize, output: &mut W) -> Result<usize, Obstacle> {
        let Ok(count) = self.page.apply_text(text) else {
            return Err(Obstacle::Memory);
        };
        match self.print(output) {
            Ok(()) => Ok(count),
            Err(why) => Err(why),
        }
    }

    // What it prints isn't known.
    fn pass(
        &mut self,
        _row: &Row,
        _bytes: &[u8],
        _place: usize,
        _output: &mut W,
    ) -> Result<(), Obstacle> {
        Ok(())
    }

    ghost nothing = { λ start. (
      λ width first before is. subst (IsRendered F.text width first (W.written start.1) start.0.gather start.0.page.sheet) (sym (append-nil before)) is,
      λ well. well,
    ) };
}

impl<F: ItemForm, W: ByteOut> Job<W> for Rendering<F> {
    ghost shape = { λ width. text_shape F.text width };

    ghost is_new = { λ width rendering. ((sink : Option (List ℕ)) → Carries sink sink rendering.gather []) × TornIs width rendering.page [] [] };

    ghost gather = { λ rendering. rendering.gather };

    fn new(alloc: Global, width: LineWidth) -> Self {
        Rendering {
            page: Page::new(alloc, width),
            gather: Gather::new(),
            form: PhantomData,
        }
    }

    fn told(passed: usize) -> usize {
        passed
    }

    fn last(count: usize, half: usize) -> Last {
        if half == 0 {
            Last::Nothing
        } else {
            Last::End { count, half }
        }
    }

    fn into_gather(self) -> Gather {
        self.gather
    }

    ghost carried = { λ width start now ts new taken.
        (taken.0 width (W.written start.1) [] (record { torn = ap (λ s. s.items) new.1; sheet_is = new.1; carried = new.0 (W.written start.1) })).carried };

    ghost well = { λ start now ts taken. taken.1 };

    ghost no_memory = { λ start last now ts taken left. elim left [
      | inl same ↦ (
        λ width first before is. subst (λ o. IsRendered F.text width first (W.written o) now.0.gather now.0.page.sheet (before ++ commands_of ts)) (sym same.2)
            (subst (λ g. IsRendered F.text width first (W.written last.1) g now.0.page.sheet (before ++ commands_of ts)) (sym same.3)
            (subst (λ s. IsRendered F.text width first (W.written last.1) last.0.gather s (before ++ commands_of ts)) (sym same.4) (taken.0 width first before is))),
        λ well. subst (λ o. ¬ IsTrue (W.failed o)) (sym same.2) (taken.1 well),
      )
      | inr failed ↦ absurd (memory_is_no_device failed.0)
    ] };

    ghost no_device = { λ last now left. elim left [ inl same ↦ absurd (device_is_no_memory same.0) | inr failed ↦ failed.1 ] };
}

impl<F: ItemForm> Rendering<F> {
    // Gives the text of what is printed on the page to the gather, and tears it off.
    fn print<W: ByteOut>(&mut self, output: &mut W) -> Result<(), Obstacle>
        ensures given { OnOk result ((first : Option (List ℕ)) (total : List ℕ) → Carries first (W.written output.old) self.old.gather total
            → Carries first (W.written output.new) self.new.gather (total ++ flat_map F.text self.old.page.sheet.items)) }
        ensures torn { OnOk result (self.new.page.sheet ≡ bare self.old.page.sheet) }
        ensures failed { IfErr result (λ why. (why ≡ obstacle.Device) × IsTrue (W.failed output.new)) }
        ensures not_failed { OnOk result (¬ IsTrue (W.failed output.old) → ¬ IsTrue (W.failed output.new)) }
    {
        match give_items::<F, W>(self.page.items(), &mut self.gather, output) {
            Ok(()) => {
                self.page.tear_off();
                Ok(())
            }
            Err(why) => Err(why),
        }
    }
}

// Gives the text of items to the gather.
fn give_items<F: ItemForm, W: ByteOut>(
    items: &[Item],
    gather: &mut Gather,
    output: &mut W,
) -> Result<(), Obstacle>
    ensures given { OnOk result ((first : Option (List ℕ)) (total : List ℕ) → Carries first (W.written output.old) gather.old total
        → Carries first (W.written output.new) gather.new (total ++ flat_map F.text items.now)) }
    ensures failed { IfErr result (λ why. (why ≡ obstacle.Device) × IsTrue (W.failed output.new)) }
    ensures not_failed { OnOk result (¬ IsTrue (W.failed output.old) → ¬ IsTrue (W.failed output.new)) }
{
    for item in items {
        if F::put(item, gather, output).is_err() {
            return Err(Obstacle::Device);
        }
    }
    Ok(())
}
