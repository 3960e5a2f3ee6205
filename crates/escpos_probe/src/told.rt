//! The lines that tell what a printer answers.

ghost use Rattle.std.specs.Prelude.{◌≡◌, ◌+◌, ◌*◌, ◌<◌, ◌≤◌, ◌++◌, length};
ghost use Rattle.escpos_probe.specs.Lines.{answer_text, digit, fact_line, premises_text, spaced};

use crate::answer::Answer;
use crate::premises::Premises;
use escpos_io::{GATHERED_BYTES, Gather};

/// Appends what follows the name of what was asked: the bytes of the answer in hexadecimal, or `no answer`.
pub fn append_answer(gather: &mut Gather, answer: &Answer)
    requires { length gather.old.kept + 512 ≤ GATHERED_BYTES }
    ensures kept { gather.new.kept ≡ gather.old.kept ++ answer_text answer.now }
    ensures same_count { gather.new.written ≡ gather.old.written }
{
    if answer.bytes().is_empty() {
        gather.extend(b": no answer\n");
        return;
    }
    gather.push(b':');
    append_bytes(gather, answer.bytes());
    gather.push(b'\n');
}

// Appends bytes in hexadecimal, a blank before each.
fn append_bytes(gather: &mut Gather, bytes: &[u8])
    requires { length gather.old.kept + 3 * length bytes.now ≤ GATHERED_BYTES }
    ensures kept { gather.new.kept ≡ gather.old.kept ++ spaced bytes.now }
    ensures long { length gather.new.kept ≡ length gather.old.kept + 3 * length bytes.now }
    ensures same_count { gather.new.written ≡ gather.old.written }
{
    for byte in bytes {
        gather.extend(&[b' ', digit(*byte / 16), digit(*byte % 16)]);
    }
}

// The hexadecimal digit of a number below 16.
fn digit(number: u8) -> u8
    requires { number < 16 }
    ensures { result ≡ digit number }
{
    if number < 10 {
        b'0' + number
    } else {
        b'A' + (number - 10)
    }
}

/// Appends what the answers show, a line for each.
pub fn append_premises(gather: &mut Gather, premises: Premises)
    requires { length gather.old.kept + 512 ≤ GATHERED_BYTES }
    ensures kept { gather.new.kept ≡ gather.old.kept ++ premises_text premises }
    ensures same_count { gather.new.written ≡ gather.old.written }
{
    append_fact(gather, b"sends nothing unasked: ", premises.quiet);
    append_fact(gather, b"answers marks: ", premises.marks);
    append_fact(gather, b"tells its status: ", premises.status);
}

// Appends a line that says whether something is so.
fn append_fact(gather: &mut Gather, fact: &[u8], is_so: bool)
    requires { length gather.old.kept + length fact.now + 4 ≤ GATHERED_BYTES }
    ensures kept { gather.new.kept ≡ gather.old.kept ++ fact_line fact.now is_so }
    ensures same_count { gather.new.written ≡ gather.old.written }
{
    gather.extend(fact);
    if is_so {
        gather.extend(b"yes\n");
    } else {
        gather.extend(b"no\n");
    }
}
