//! The job `draw`: what a byte stream prints, as a picture.
//!
//! The height of the document stands in its first line, so the stream is read twice: once to measure what it prints, and once to
//! draw it. The drawing of each item is given to the output as soon as it is printed.

ghost use Rattle.std.specs.Prelude.{◌≡◌, ◌≢◌, ◌⊎◌, ◌+◌, ◌≤◌, ◌<◌, ◌++◌, [], length, not, ℕ, List, Option, OnOk, IfErr, IfSome, IsTrue, ⊤, codes};
ghost use Rattle.std.proofs.Common.{subst, sym, append-nil, refl};
ghost use Rattle.escpos_command.specs.declared.command.Command.{Command};
ghost use Rattle.escpos_io.specs.Gather.{Carries};
ghost use Rattle.escpos_io.specs.Giving.{IsGiven};
ghost use Rattle.escpos_io.specs.Putting.{passage};
ghost use Rattle.escpos_passed.specs.Tokens.{Token, commands_of};
ghost use Rattle.escpos_paper.specs.Styles.{is_empty};
ghost use Rattle.escpos_paper.specs.Printed.{printed};
ghost use Rattle.escpos_paper.specs.Torn.{TornIs, bare};
ghost use Rattle.escpos_picture.specs.Places.{top, place_after_all};
ghost use Rattle.escpos_picture.specs.Groups.{drawings};
ghost use Rattle.escpos_picture.specs.Document.{foot, head, last_tag};
ghost use Rattle.escpos_picture.specs.declared.pen.TheConstants.{DEEPEST};
ghost use Rattle.escpos_stream_jobs.specs.declared.job.Obstacle.TheVariants as obstacle;
ghost use Rattle.escpos_job_parts.specs.Ending.{IsFair, PrintsText, job_end, memory_line};
ghost use Rattle.escpos_stream_jobs.specs.Render.{half_line};
ghost use Rattle.escpos_job_parts.specs.LastText.{last_text};
ghost use Rattle.escpos_stream_jobs.specs.Draw.{Draws, DrawsInput, IsOutcome, passed_words, some_words, under_text};
ghost use Rattle.escpos_stream_jobs.specs.DrawSteps.{IsDrawn, IsMeasured};

use crate::job::Obstacle;
use escpos_command::{Command, LineWidth};
use escpos_io::{ByteIn, ByteOut, Device, GATHERED_BYTES, Gather, Piece, append_number};
use escpos_job_parts::ending::{MEMORY, refuse, say, status_of};
use escpos_job_parts::form::Form;
use escpos_job_parts::input::stream_input;
use escpos_job_parts::lines::Last;
use escpos_job_parts::status::Status;
use escpos_paper::Page;
use escpos_passed::{End, Row, Stop, TokenConsumer, read_tokens};
use escpos_picture::laws::drawings_in_turn;
use escpos_picture::{HEAD_BYTES, LAST_TAG_BYTES, Pen, append_head, append_last_tag, put_items};
use std::alloc::Global;

/// Reads a stream in this form from `input` and writes the paper that it prints, in lines of this width, to `output` as a
/// picture, an SVG document, with the last line of the listing under it after a fault or with a half command at the end. With `pass` commands whose length is
/// known are passed over, and the words before that line say how many were, if some.
///
/// The statuses are those of `render`, and so is the one line in place of a picture where the input is too long or isn't
/// hexadecimal. With `Memory` the line `memory` follows the head of the picture and the items of the commands so far, or comes
/// alone. The picture isn't kept.
pub fn draw<R: ByteIn, W: ByteOut>(
    alloc: Global,
    form: Form,
    pass: bool,
    width: LineWidth,
    input: &mut R,
    output: &mut W,
) -> Status
    ensures draws { IfSome (R.to_come input.old) (λ given. DrawsInput form pass width (job_end (W.written output.old) (W.written output.new) (W.failed output.new) result) given) }
    ensures fair { IsFair result (R.failed input.new) (W.failed output.old, W.failed output.new)
        (R.pull_count input.old, R.pull_count input.new) }
    ensures nothing_put { IsTrue (R.failed input.new) → output.new ≡ output.old }
{
    match stream_input(alloc, form, input) {
        Ok(bytes) => draw_bytes(alloc, pass, width, &bytes, output),
        Err(fault) => refuse(fault, output),
    }
}

// Draws what these bytes print in lines of this width.
fn draw_bytes<W: ByteOut>(
    alloc: Global,
    pass: bool,
    width: LineWidth,
    bytes: &[u8],
    output: &mut W,
) -> Status
    ensures draws { Draws width pass (job_end (W.written output.old) (W.written output.new) (W.failed output.new) result) bytes.now }
    ensures device { result ≡ Status.Device → IsTrue (W.failed output.new) }
    ensures not_hidden { result ≢ Status.Device → ¬ IsTrue (W.failed output.old) → ¬ IsTrue (W.failed output.new) }
    ensures never_usage { result ≢ Status.Usage }
{
    match measure(alloc, pass, width, bytes) {
        Some(measured) => draw_measured(alloc, pass, width, bytes, measured, output),
        None => say(MEMORY, output, Status::Memory),
    }
}

// What the first reading finds: how far down the paper the items go, and whether a line comes under them.
#[derive(Clone, Copy, Debug, PartialEq, Eq)]
struct Measured {
    down: usize,
    has_last: bool,
}

// What stands under the paper: how many commands were passed over, and the last line.
#[derive(Clone, Copy, Debug, PartialEq, Eq)]
struct Under {
    passed: usize,
    last: Last,
}

// Gives what stands under the paper.
fn put_under<W: ByteOut>(gather: &mut Gather, under: Under, output: &mut W) -> Result<(), Device>
    ensures given { OnOk result ((first : Option (List ℕ)) (text : List ℕ) → Carries first (W.written output.old) gather.old text
        → Carries first (W.written output.new) gather.new (text ++ under_text under)) }
    ensures failed { IfErr result (λ _. IsTrue (W.failed output.new)) }
    ensures not_failed { OnOk result (¬ IsTrue (W.failed output.old) → ¬ IsTrue (W.failed output.new)) }
{
    put_words(gather, under.passed, output)?;
    under.last.put(gather, output)
}

// Gives the words on commands that were passed over; nothing where none was.
fn put_words<W: ByteOut>(gather: &mut Gather, passed: usize, writer: &mut W) -> Result<(), Device>
    ensures { IsGiven result (passage (W.written writer.old) (W.written writer.new) (W.failed writer.old) (W.failed writer.new))
        gather.old gather.new (passed_words passed) }
{
    if passed == 0 {
        return Ok(());
    }
    gather.room(64, writer)?;
    append_words(gather, passed);
    Ok(())
}

// Appends the words on some commands that were passed over.
fn append_words(gather: &mut Gather, passed: usize)
    requires { length gather.old.kept + 64 ≤ GATHERED_BYTES }
    ensures kept { gather.new.kept ≡ gather.old.kept ++ some_words passed }
    ensures same_count { gather.new.written ≡ gather.old.written }
{
    gather.extend(b"passed ");
    append_number(gather, passed);
    gather.extend(b": the paper may differ\n");
}

// Measures what these bytes print in lines of this width. `None`: out of memory.
fn measure(alloc: Global, pass: bool, width: LineWidth, bytes: &[u8]) -> Option<Measured>
    ensures outcome { IfSome result (λ measured. (all : List Token) × (last : List ℕ) × IsOutcome pass bytes.now all last
        × (measured.down ≡ (place_after_all (top width) (printed width (commands_of all))).down) × (measured.has_last ≡ not (is_empty last))) }
    ensures small { IfSome result (λ measured. measured.down ≤ DEEPEST) }
{
    let mut measuring = Measuring {
        page: Page::new(alloc, width),
        pen: Pen::new(width),
    };
    match read_tokens(alloc, pass, bytes, &mut measuring, &mut ()) {
        Ok(End { passed, half }) => Some(measuring.measured(Under {
            passed,
            last: half_last(bytes.len(), half),
        })),
        Err(Stop::Fault { at, why, passed }) => Some(measuring.measured(Under {
            passed,
            last: Last::Fault { place: at, why },
        })),
        Err(_) => None,
    }
}

// The paper that the commands so far have printed on, all of which is torn off, and the place after it.
#[derive(Drop)]
struct Measuring {
    page: Page,
    pen: Pen,
}

impl Measuring {
    // What is found where this stands under the paper.
    fn measured(self, under: Under) -> Measured
        ensures down { result.down ≡ self.pen.down }
        ensures last { result.has_last ≡ not (is_empty (under_text under)) }
        ensures small { result.down ≤ DEEPEST }
    {
        Measured {
            down: self.pen.down(),
            has_last: has_line(under),
        }
    }
}

impl TokenConsumer<()> for Measuring {
    // Out of memory.
    type Refusal = ();

    ghost accepted = { λ start now ts. (width : ℕ) (before : List Command) → IsMeasured width start.0.page.sheet start.0.pen before
        → IsMeasured width now.0.page.sheet now.0.pen (before ++ commands_of ts) };

    ghost refused = { λ last now refusal. ⊤ };

    fn take(&mut self, command: Command, _place: usize, _output: &mut ()) -> Result<(), ()> {
        // Proof only: what the command prints comes after what was printed before.
        drawings_in_turn();
        if self.page.apply(command).is_err() {
            return Err(());
        }
        self.pen.pass_all(self.page.items());
        self.page.tear_off();
        Ok(())
    }

    fn take_text(&mut self, text: &[u8], _place: usize, _output: &mut ()) -> Result<usize, ()> {
        // Proof only: what the characters print comes after what was printed before.
        drawings_in_turn();
        let Ok(count) = self.page.apply_text(text) else {
            return Err(());
        };
        self.pen.pass_all(self.page.items());
        self.page.tear_off();
        Ok(count)
    }

    // What it prints isn't known.
    fn pass(
        &mut self,
        _row: &Row,
        _bytes: &[u8],
        _place: usize,
        _output: &mut (),
    ) -> Result<(), ()> {
        Ok(())
    }

    ghost nothing = { λ start width before is. subst (IsMeasured width start.0.page.sheet start.0.pen) (sym (append-nil before)) is };
}

// Draws what these bytes print, of which the first reading found this.
fn draw_measured<W: ByteOut>(
    alloc: Global,
    pass: bool,
    width: LineWidth,
    bytes: &[u8],
    measured: Measured,
    output: &mut W,
) -> Status
    requires outcome { (all : List Token) × (last : List ℕ) × IsOutcome pass bytes.now all last
        × (measured.down ≡ (place_after_all (top width) (printed width (commands_of all))).down) × (measured.has_last ≡ not (is_empty last)) }
    requires small { measured.down ≤ DEEPEST }
    ensures draws { Draws width pass (job_end (W.written output.old) (W.written output.new) (W.failed output.new) result) bytes.now }
    ensures device { result ≡ Status.Device → IsTrue (W.failed output.new) }
    ensures not_hidden { result ≢ Status.Device → ¬ IsTrue (W.failed output.old) → ¬ IsTrue (W.failed output.new) }
    ensures never_usage { result ≢ Status.Usage }
{
    let mut drawing = Drawing::new(alloc, width, measured);
    match read_tokens(alloc, pass, bytes, &mut drawing, output) {
        Ok(End { passed, half }) => finish(
            drawing,
            Under {
                passed,
                last: half_last(bytes.len(), half),
            },
            output,
            status_of(half),
        ),
        Err(Stop::Fault { at, why, passed }) => finish(
            drawing,
            Under {
                passed,
                last: Last::Fault { place: at, why },
            },
            output,
            Status::Refused,
        ),
        Err(Stop::Memory) => end_short(drawing, output),
        Err(Stop::Refused(Obstacle::Memory)) => end_short(drawing, output),
        Err(Stop::Refused(Obstacle::Device)) => Status::Device,
    }
}

// The paper that the commands so far have printed on, all of which is torn off, the place after it, and the drawing of it that
// isn't printed yet.
#[derive(Drop)]
struct Drawing {
    page: Page,
    pen: Pen,
    gather: Gather,
    // How far down the paper all items go.
    down: usize,
}

impl Drawing {
    // A drawing with nothing but its head.
    fn new(alloc: Global, width: LineWidth, measured: Measured) -> Self
        requires { measured.down ≤ DEEPEST }
        ensures drawn { (sink : Option (List ℕ)) → IsDrawn width (head width measured.down measured.has_last) sink sink result.gather result.page.sheet result.pen [] }
        ensures down { result.down ≡ measured.down }
    {
        let mut gather = Gather::new();
        append_head(&mut gather, width, measured.down, measured.has_last);
        Drawing {
            page: Page::new(alloc, width),
            pen: Pen::new(width),
            gather,
            down: measured.down,
        }
    }

    // Gives the drawing of what is printed on the page to the gather, and tears it off.
    fn print<W: ByteOut>(&mut self, output: &mut W) -> Result<(), Obstacle>
        ensures given { OnOk result ((first : Option (List ℕ)) (total : List ℕ) → Carries first (W.written output.old) self.old.gather total
            → Carries first (W.written output.new) self.new.gather (total ++ drawings self.old.pen self.old.page.sheet.items)) }
        ensures place { OnOk result (self.new.pen ≡ place_after_all self.old.pen self.old.page.sheet.items) }
        ensures torn { OnOk result (self.new.page.sheet ≡ bare self.old.page.sheet) }
        ensures same { OnOk result (self.new.down ≡ self.old.down) }
        ensures failed { IfErr result (λ why. (why ≡ obstacle.Device) × IsTrue (W.failed output.new)) }
        ensures not_failed { OnOk result (¬ IsTrue (W.failed output.old) → ¬ IsTrue (W.failed output.new)) }
    {
        if put_items(&mut self.gather, &mut self.pen, self.page.items(), output).is_err() {
            return Err(Obstacle::Device);
        }
        self.page.tear_off();
        Ok(())
    }
}

impl<W: ByteOut> TokenConsumer<W> for Drawing {
    type Refusal = Obstacle;

    ghost accepted = { λ start now ts.
        ((width : ℕ) (text : List ℕ) (first : Option (List ℕ)) (before : List Command) → IsDrawn width text first (W.written start.1) start.0.gather start.0.page.sheet start.0.pen before
        → IsDrawn width text first (W.written now.1) now.0.gather now.0.page.sheet now.0.pen (before ++ commands_of ts))
        × (now.0.down ≡ start.0.down)
        × (¬ IsTrue (W.failed start.1) → ¬ IsTrue (W.failed now.1)) };

    ghost refused = { λ last now refusal.
        ((refusal ≡ obstacle.Memory) × (now.1 ≡ last.1) × (now.0.gather ≡ last.0.gather) × (now.0.page.sheet ≡ last.0.page.sheet) × (now.0.pen ≡ last.0.pen))
        ⊎ ((refusal ≡ obstacle.Device) × IsTrue (W.failed now.1)) };

    fn take(&mut self, command: Command, _place: usize, output: &mut W) -> Result<(), Obstacle> {
        // Proof only: what the command prints is drawn after what was drawn before.
        drawings_in_turn();
        if self.page.apply(command).is_err() {
            return Err(Obstacle::Memory);
        }
        self.print(output)
    }

    fn take_text(&mut self, text: &[u8], _place: usize, output: &mut W) -> Result<usize, Obstacle> {
        // Proof only: what the characters print is drawn after what was drawn before.
        drawings_in_turn();
        let Ok(count) = self.page.apply_text(text) else {
            return Err(Obstacle::Memory);
        };
        match self.print(output) {
            Ok(()) => Ok(count),
            Err(why) => Err(why),
        }
    }

    // What it prints isn't known.
    fn pass(
        &mut self,
        _row: &Row,
        _bytes: &[u8],
        _place: usize,
        _output: &mut W,
    ) -> Result<(), Obstacle> {
        Ok(())
    }

    ghost nothing = { λ start. (
      λ width text first before is. subst (IsDrawn width text first (W.written start.1) start.0.gather start.0.page.sheet start.0.pen) (sym (append-nil before)) is,
      refl,
      λ well. well,
    ) };
}

// The last line where `count` bytes are read and the last `half` of them are a half command.
fn half_last(count: usize, half: usize) -> Last
    ensures { last_text result ≡ half_line count half }
{
    if half == 0 {
        Last::Nothing
    } else {
        Last::End { count, half }
    }
}

// Prints all of a drawing that isn't printed yet, and its foot with a last line. Returns the status that is given, or `Device` if
// `output` has failed.
fn finish<W: ByteOut>(drawing: Drawing, under: Under, output: &mut W, status: Status) -> Status
    requires { drawing.down ≤ DEEPEST }
    ensures says { (first : Option (List ℕ)) (text : List ℕ) → Carries first (W.written output.old) drawing.gather text →
        PrintsText (job_end first (W.written output.new) (W.failed output.new) result) (text ++ foot drawing.down (under_text under)) status }
    ensures not_hidden { result ≢ Status.Device → ¬ IsTrue (W.failed output.old) → ¬ IsTrue (W.failed output.new) }
{
    let down = drawing.down;
    let mut gather = drawing.gather;
    if put_foot(&mut gather, down, under, output).is_err() {
        return Status::Device;
    }
    end(gather, output, status)
}

// Prints all of a drawing that isn't printed yet, and the line that says that an allocation failed.
fn end_short<W: ByteOut>(drawing: Drawing, output: &mut W) -> Status
    ensures says { (first : Option (List ℕ)) (text : List ℕ) → Carries first (W.written output.old) drawing.gather text →
        PrintsText (job_end first (W.written output.new) (W.failed output.new) result) (text ++ memory_line) Status.Memory }
    ensures not_hidden { result ≢ Status.Device → ¬ IsTrue (W.failed output.old) → ¬ IsTrue (W.failed output.new) }
{
    let mut gather = drawing.gather;
    if gather.put(MEMORY, output).is_err() {
        return Status::Device;
    }
    end(gather, output, Status::Memory)
}

// Puts all that is kept back. Returns the status that is given, or `Device` if `output` has failed.
fn end<W: ByteOut>(gather: Gather, output: &mut W, status: Status) -> Status
    ensures says { (first : Option (List ℕ)) (text : List ℕ) → Carries first (W.written output.old) gather text →
        PrintsText (job_end first (W.written output.new) (W.failed output.new) result) text status }
    ensures not_hidden { result ≢ Status.Device → ¬ IsTrue (W.failed output.old) → ¬ IsTrue (W.failed output.new) }
{
    let mut gather = gather;
    match gather.flush(output) {
        Ok(()) => status,
        Err(_) => Status::Device,
    }
}

// Gives the foot of a document with a last line.
fn put_foot<W: ByteOut>(
    gather: &mut Gather,
    down: usize,
    under: Under,
    output: &mut W,
) -> Result<(), Device>
    requires { down ≤ DEEPEST }
    ensures given { OnOk result ((first : Option (List ℕ)) (text : List ℕ) → Carries first (W.written output.old) gather.old text
        → Carries first (W.written output.new) gather.new (text ++ foot down (under_text under))) }
    ensures failed { IfErr result (λ _. IsTrue (W.failed output.new)) }
    ensures not_failed { OnOk result (¬ IsTrue (W.failed output.old) → ¬ IsTrue (W.failed output.new)) }
{
    if has_line(under) {
        put_last_line(gather, down, under, output)
    } else {
        gather.put(b"</svg>\n", output)
    }
}

// Whether something stands under the paper.
fn has_line(under: Under) -> bool
    ensures { result ≡ not (is_empty (under_text under)) }
{
    under.passed > 0 || has_last(under.last)
}

// Whether there is a last line.
fn has_last(last: Last) -> bool
    ensures { result ≡ not (is_empty (last_text last)) }
{
    match last {
        Last::Nothing => false,
        Last::End { .. } => true,
        Last::Fault { .. } => true,
        Last::Memory => true,
    }
}

// Gives the foot of a document with a last line, where there is one.
fn put_last_line<W: ByteOut>(
    gather: &mut Gather,
    down: usize,
    under: Under,
    output: &mut W,
) -> Result<(), Device>
    requires { down ≤ DEEPEST }
    ensures given { OnOk result ((first : Option (List ℕ)) (text : List ℕ) → Carries first (W.written output.old) gather.old text
        → Carries first (W.written output.new) gather.new (text ++ (last_tag down ++ under_text under ++ codes "</text>\n</svg>\n"))) }
    ensures failed { IfErr result (λ _. IsTrue (W.failed output.new)) }
    ensures not_failed { OnOk result (¬ IsTrue (W.failed output.old) → ¬ IsTrue (W.failed output.new)) }
{
    gather.room(LAST_TAG_BYTES, output)?;
    append_last_tag(gather, down);
    put_under(gather, under, output)?;
    gather.put(b"</text>\n</svg>\n", output)
}
