//! The jobs of the program over memory, and each call that reads for one.
//!
//! A job that is refused memory has put the first lines of what it puts with ample memory, and then the line `memory`. It is done
//! again over the same input.

use crate::support::tasks::{Named, task};
use escpos_command::LineWidth;
use escpos_host::{JsonError, Receipt};
use escpos_io::{ByteIn, MemoryIn, MemoryOut};
use escpos_job_parts::form::Form;
use escpos_job_parts::input::{InputFault, stream_input};
use escpos_job_parts::receipt_input::{NoReceipt, read_receipt};
use escpos_job_parts::status::Status;
use escpos_link::Event;
use escpos_receipt::ReceiptOptions;
use escpos_script::play::play;
use escpos_script::script::{NoEvent, event_of};
use escpos_stream_jobs::check::check;
use escpos_stream_jobs::draw::draw;
use escpos_stream_jobs::encode::encode;
use escpos_stream_jobs::image::image;
use escpos_stream_jobs::render::{render, render_text};
use escpos_test_jobs::{NoNetwork, is_whole, run_job};
use escpos_test_receipts::{S, are_line};
use std::alloc::Global;
use std::process::Abort;

// A line, a barcode, a raster, a QR code and a half command, in hexadecimal; what is listed of them, and what they print.
const STREAM_TEXT: &[u8] =
    b"48690A 1d6b0335353132333435 00 1D763000010002 00f00f 1d286b05003150304142 1d286b0300315130 48690a48690a48690a1B";

const LISTED_STREAM: (&[u8], Status) = (
    b"0 char 48\n1 char 69\n2 lf\n3 bars 03 35353132333435\n14 raster 00 1 2\n\
      24 qrstore 4142\n34 qrprint\n\
      42 char 48\n43 char 69\n44 lf\n45 char 48\n46 char 69\n47 lf\n48 char 48\n49 char 69\n50 lf\nend 52 pending 1\n",
    Status::Refused,
);

const RENDERED_STREAM: (&[u8], Status) = (
    b"row left Hi\nfeed 1\nbars left ean8 162 3 none A 55123457\nraster left normal 1 2 f00f\n\
      qr left 2 3 L AB\nrow left Hi\nfeed 1\nrow left Hi\nfeed 1\nrow left Hi\nfeed 1\nend 52 pending 1\n",
    Status::Refused,
);

// A line, a raster and a half command, in hexadecimal and as bytes, and what is drawn of them: 64 dots of margins, 30 of the line
// with its feed and 2 of the raster, and 40 for the line under the paper.
const DRAWN_TEXT: &[u8] = b"48690A 1D763000010002 00f00f 1B";

const DRAWN_BYTES: &[u8] = b"Hi\n\x1Dv0\x00\x01\x00\x02\x00\xF0\x0F\x1B";

const DRAWN_STREAM: (&[u8], Status) = (
    b"\
<svg xmlns=\"http://www.w3.org/2000/svg\" version=\"1.1\" width=\"576\" height=\"136\" viewBox=\"0 0 576 136\" xml:space=\"preserve\">
<style type=\"text/css\">
.paper{fill:#fff}
text{font-family:\"DejaVu Sans Mono\",Menlo,Consolas,monospace;font-size:20px;white-space:pre}
.B{font-size:15px}
.bold{font-weight:bold}
.white{fill:#fff}
.second{fill:#c00}
.middle{text-anchor:middle}
.bars path,.raster path{stroke:#000;shape-rendering:crispEdges}
.raster{clip-path:url(#line)}
.box,.cut circle,.cut path{fill:none;stroke:#000;stroke-width:2}
.dashes{stroke-dasharray:8 6}
.last{fill:#a00}
</style>
<clipPath id=\"line\"><path d=\"M0 0h512v8190H0z\"/></clipPath>
<rect class=\"paper\" width=\"576\" height=\"96\"/>
<g class=\"row\" transform=\"translate(32,50)\"><text x=\"0\" textLength=\"24\">Hi</text></g>
<g class=\"feed\"/>
<g class=\"raster\" transform=\"translate(32,62)\"><g transform=\"scale(1,1)\">
<path d=\"M0 0.5h4m4 0m-8 1m4 0h4\"/>
</g></g>
<text class=\"last\" x=\"32\" y=\"122\">end 14 pending 1
</text>
</svg>
",
    Status::Refused,
);

// A receipt in JSON, and the bytes of its commands in hexadecimal.
const RECEIPT_TEXT: &[u8] =
    b"[{\"line\":\"Hi\"},{\"bars\":{\"kind\":\"ean8\",\"content\":\"5512345\"}},\
    {\"raster\":{\"scale\":\"normal\",\"x\":1,\"y\":2,\"dots\":\"f00f\"}},\
    {\"qr\":{\"content\":\"AB\",\"size\":3,\"level\":\"L\"}},{\"size\":[2,2]},{\"cut\":\"full\"}]";

const ENCODED_LINE: (&[u8], Status) = (
    b"48690a1d6b4407353531323334351d76300001000200f00f1d286b03003143031d286b03003145301d286b050031503041421d286b03003151301d21111d5600\n",
    Status::Good,
);

// The same stream and the same receipt as bytes.
const STREAM_BYTES: &[u8] =
    b"Hi\n\x1Dk\x035512345\x00\x1Dv0\x00\x01\x00\x02\x00\xF0\x0F\x1D(k\x05\x001P0AB\x1D(k\x03\x001Q0Hi\nHi\nHi\n\x1B";

const ENCODED_BYTES: (&[u8], Status) = (
    b"Hi\n\x1DkD\x075512345\x1Dv0\x00\x01\x00\x02\x00\xF0\x0F\x1D(k\x03\x001C\x03\x1D(k\x03\x001E0\x1D(k\x05\x001P0AB\x1D(k\x03\x001Q0\x1D!\x11\x1DV\x00",
    Status::Good,
);

// A picture, and the entry of a receipt that prints it.
const PICTURE: &[u8] = b"P1 8 2 11110000 00001111";

const PICTURE_ENTRY: (&[u8], Status) = (
    b"{\"raster\":{\"scale\":\"normal\",\"x\":1,\"y\":2,\"dots\":\"f00f\"}}\n",
    Status::Good,
);

// A script, and what is put of it.
const SCRIPT: &[u8] =
    b"linkup\nnudge\nmove 99\ndeliver 99\nhandover\nhandover\nanswer 14\nask 1\nsubmit [{\"line\":\"Hi\"}]\n\
      submit []\nmove 99\ndeliver 99\nhandover\nhandover\nanswer 8\nsubmit [{\"line\":\"Yo\"}]\nmove 99\ndeliver 99\ndrop\nlinkup\n";

const PLAYED: (&[u8], Status) = (
    b"ok\nok\nmoved 22\nfed 22 all\nhanded on\nhanded on\nheard 14 opened\nok\nok\n\
      receipt refused 1 Empty\nmoved 19\nfed 19 all\nhanded on\nhanded on\nheard 8 recorded 0\nok\nmoved 16\nfed 16 all\nok\nok\n\
      paper\nrow left Hi\nfeed 1\nrow left Yo\nfeed 1\nrecords 1\n",
    Status::Good,
);

// A job by its own call, or what is asked for by `perform`, without a network.
#[derive(Clone, Copy)]
enum Job {
    Check(Form),
    Render(Form),
    RenderText(Form),
    Draw(Form),
    Encode(Form),
    Image,
    Play,
    Perform(Named),
}

// Each job by its own call stands in a function of its own, so that `do_job` knows nothing of what the job's contract says. Those over
// a stream may pass over commands, and meet none.
fn checks(alloc: Global, form: Form, source: &mut MemoryIn, sink: &mut MemoryOut) -> Status {
    check(alloc, form, true, source, sink)
}

fn renders(alloc: Global, form: Form, source: &mut MemoryIn, sink: &mut MemoryOut) -> Status {
    render(alloc, form, true, LineWidth::usual(), source, sink)
}

fn renders_text(alloc: Global, form: Form, source: &mut MemoryIn, sink: &mut MemoryOut) -> Status {
    render_text(alloc, form, true, LineWidth::usual(), source, sink)
}

fn draws(alloc: Global, form: Form, source: &mut MemoryIn, sink: &mut MemoryOut) -> Status {
    draw(alloc, form, true, LineWidth::usual(), source, sink)
}

fn encodes(alloc: Global, form: Form, source: &mut MemoryIn, sink: &mut MemoryOut) -> Status {
    encode(alloc, form, &ReceiptOptions::usual(), source, sink)
}

fn makes_entry(alloc: Global, source: &mut MemoryIn, sink: &mut MemoryOut) -> Status {
    image(alloc, LineWidth::usual(), None, source, sink)
}

fn plays(alloc: Global, source: &mut MemoryIn, sink: &mut MemoryOut) -> Status {
    play(alloc, source, sink)
}

fn do_job(alloc: Global, job: Job, source: &mut MemoryIn, sink: &mut MemoryOut) -> Status {
    match job {
        Job::Check(form) => checks(alloc, form, source, sink),
        Job::Render(form) => renders(alloc, form, source, sink),
        Job::RenderText(form) => renders_text(alloc, form, source, sink),
        Job::Draw(form) => draws(alloc, form, source, sink),
        Job::Encode(form) => encodes(alloc, form, source, sink),
        Job::Image => makes_entry(alloc, source, sink),
        Job::Play => plays(alloc, source, sink),
        Job::Perform(named) => run_job(&NoNetwork, alloc, Ok(task(named)), source, sink),
    }
}

// A job over this text puts this. Answers no where memory is refused.
fn puts(rt: &impl Abort, alloc: Global, job: Job, text: &[u8], wanted: (&[u8], Status)) -> bool {
    let mut room = [0; 2048];
    let mut source = MemoryIn::new(text, 16);
    let mut sink = MemoryOut::new(&mut room);
    let status = do_job(alloc, job, &mut source, &mut sink);
    is_whole((sink.written(), status), wanted).expect(rt, "what a job puts")
}

// The same. Where memory is refused, it is done again.
fn puts_at_last(rt: &impl Abort, alloc: Global, job: Job, text: &[u8], wanted: (&[u8], Status)) {
    let each = &job;
    if !puts(rt, alloc, *each, text, wanted) {
        assert!(rt; puts(rt, alloc, *each, text, wanted));
    }
}

#[test]
fn check_refused(rt: HostRuntime) {
    let job = Job::Check(Form::Hexadecimal);
    puts_at_last(&rt, rt.alloc(), job, STREAM_TEXT, LISTED_STREAM);
}

#[test]
fn render_refused(rt: HostRuntime) {
    let job = Job::Render(Form::Hexadecimal);
    puts_at_last(&rt, rt.alloc(), job, STREAM_TEXT, RENDERED_STREAM);
}

#[test]
fn draw_refused(rt: HostRuntime) {
    let job = Job::Draw(Form::Hexadecimal);
    puts_at_last(&rt, rt.alloc(), job, DRAWN_TEXT, DRAWN_STREAM);
}

#[test]
fn draw_raw_refused(rt: HostRuntime) {
    let job = Job::Draw(Form::Raw);
    puts_at_last(&rt, rt.alloc(), job, DRAWN_BYTES, DRAWN_STREAM);
}

#[test]
fn encode_refused(rt: HostRuntime) {
    let job = Job::Encode(Form::Hexadecimal);
    puts_at_last(&rt, rt.alloc(), job, RECEIPT_TEXT, ENCODED_LINE);
}

#[test]
fn check_raw_refused(rt: HostRuntime) {
    let job = Job::Check(Form::Raw);
    puts_at_last(&rt, rt.alloc(), job, STREAM_BYTES, LISTED_STREAM);
}

#[test]
fn render_raw_refused(rt: HostRuntime) {
    let job = Job::Render(Form::Raw);
    puts_at_last(&rt, rt.alloc(), job, STREAM_BYTES, RENDERED_STREAM);
}

#[test]
fn encode_raw_refused(rt: HostRuntime) {
    let job = Job::Encode(Form::Raw);
    puts_at_last(&rt, rt.alloc(), job, RECEIPT_TEXT, ENCODED_BYTES);
}

#[test]
fn render_text_refused(rt: HostRuntime) {
    let job = Job::RenderText(Form::Hexadecimal);
    puts_at_last(&rt, rt.alloc(), job, STREAM_TEXT, RENDERED_STREAM);
}

#[test]
fn render_text_raw_refused(rt: HostRuntime) {
    let job = Job::RenderText(Form::Raw);
    puts_at_last(&rt, rt.alloc(), job, STREAM_BYTES, RENDERED_STREAM);
}

#[test]
fn image_refused(rt: HostRuntime) {
    puts_at_last(&rt, rt.alloc(), Job::Image, PICTURE, PICTURE_ENTRY);
}

#[test]
fn play_refused(rt: HostRuntime) {
    puts_at_last(&rt, rt.alloc(), Job::Play, SCRIPT, PLAYED);
}

// What is asked for, over which text, and what is put.
const PERFORMED: [(Named, &[u8], (&[u8], Status)); 10] = [
    (Named::Check, STREAM_TEXT, LISTED_STREAM),
    (Named::Render, STREAM_TEXT, RENDERED_STREAM),
    (Named::Draw, DRAWN_TEXT, DRAWN_STREAM),
    (Named::Encode, RECEIPT_TEXT, ENCODED_LINE),
    (Named::RawCheck, STREAM_BYTES, LISTED_STREAM),
    (Named::RawRender, STREAM_BYTES, RENDERED_STREAM),
    (Named::RawEncode, RECEIPT_TEXT, ENCODED_BYTES),
    (Named::RenderText, STREAM_TEXT, RENDERED_STREAM),
    (Named::Image, PICTURE, PICTURE_ENTRY),
    (Named::Play, SCRIPT, PLAYED),
];

#[test]
fn perform_refused(rt: HostRuntime) {
    for (named, text, wanted) in &PERFORMED {
        puts_at_last(&rt, rt.alloc(), Job::Perform(*named), text, *wanted);
    }
}

// A line, a barcode and a raster.
const STREAM: &[u8] = b"Hi\n\x1Dk\x035512345\x00\x1Dv0\x00\x01\x00\x02\x00\xF0\x0F";

// The bytes of an input in this form. Where memory is refused the source hasn't failed, and there are none.
fn input_of(rt: &impl Abort, alloc: Global, text: &[u8], form: Form) -> Option<Vec<u8>> {
    let mut source = MemoryIn::new(text, 7);
    match stream_input(alloc, form, &mut source) {
        Ok(bytes) => Some(bytes),
        Err(fault) => {
            assert!(rt; fault == InputFault::Memory);
            assert!(rt; !source.has_failed());
            None
        }
    }
}

// An input in this form has these bytes. Where memory is refused, a new source is read.
fn has_bytes(rt: &impl Abort, alloc: Global, text: &[u8], form: Form, wanted: &[u8]) {
    let bytes = match input_of(rt, alloc, text, form) {
        Some(bytes) => bytes,
        None => input_of(rt, alloc, text, form).expect(rt, "bytes"),
    };
    assert!(rt; bytes.as_slice() == wanted);
}

#[test]
fn hexadecimal_input_refused(rt: HostRuntime) {
    let text = b"48690A 1d6b0335353132333435 00 1D763000010002 00f00f";
    has_bytes(&rt, rt.alloc(), text, Form::Hexadecimal, STREAM);
}

#[test]
fn raw_input_refused(rt: HostRuntime) {
    has_bytes(&rt, rt.alloc(), STREAM, Form::Raw, STREAM);
}

// The receipt that an input describes. Where memory is refused the source hasn't failed, and there is none.
fn described(rt: &impl Abort, alloc: Global) -> Option<Receipt> {
    let mut source = MemoryIn::new(S.0, 7);
    match read_receipt(alloc, &ReceiptOptions::usual(), &mut source) {
        Ok(receipt) => Some(receipt),
        Err(fault) => {
            assert!(rt;
                matches!(
                    fault,
                    NoReceipt::Input(InputFault::Memory) | NoReceipt::Text(JsonError::Memory)
                )
            );
            assert!(rt; !source.has_failed());
            None
        }
    }
}

// The same. Where memory is refused, a new source is read.
fn described_at_last(rt: &impl Abort, alloc: Global) -> Receipt {
    match described(rt, alloc) {
        Some(receipt) => receipt,
        None => described(rt, alloc).expect(rt, "a receipt"),
    }
}

#[test]
fn read_receipt_refused(rt: HostRuntime) {
    let receipt = described_at_last(&rt, rt.alloc());
    assert!(&rt; are_line(receipt.commands(), S.1));
}

// The event of a line of a script. Where memory is refused, the line is read again.
fn event_at_last(rt: &impl Abort, alloc: Global, line: &[u8]) -> Event {
    match event_of(alloc, line) {
        Ok(event) => event,
        Err(why) => {
            assert!(rt; why == NoEvent::Memory);
            event_of(alloc, line).expect(rt, "an event")
        }
    }
}

// Whether an event submits a receipt of this line.
fn submits_line(event: &Event, line: &[u8]) -> bool {
    match event {
        Event::Submit(receipt) => are_line(receipt.commands(), line),
        _ => false,
    }
}

#[test]
fn event_of_refused(rt: HostRuntime) {
    let event = event_at_last(&rt, rt.alloc(), b"submit [{\"line\":\"Hi\"}]");
    assert!(&rt; submits_line(&event, S.1));
}
