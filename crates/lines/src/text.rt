// The texts of the lines: fields, each behind the one before. Not by write!: no contract says that it ends well, and a line cannot fail.
ghost use Rattle.std.specs.Prelude.{◌≡◌, [], ◌++◌, ◌+◌, ◌<◌, ◌≤◌, length};
ghost use Rattle.meaning.specs.Answers.{as_shape, as_verdict, as_answer};
ghost use Rattle.meaning.specs.Lines.{digits, verdict_line, answer_line, newline};

use crate::ROOM;
use arrayvec::ArrayString;
use meaning::{Ran, Refusal, Shape};

// Appends a field: what stands before it, and its decimal digits, at most ten of a word.
fn push_field(line: &mut ArrayString<ROOM>, lead: &str, n: usize)
    requires { length line.old.bytes + length lead.now + 20 ≤ 64 }
    ensures bytes { line.new.bytes ≡ line.old.bytes ++ lead.now ++ digits n }
    ensures bound { length line.new.bytes ≤ length line.old.bytes + length lead.now + 20 }
    ensures word { n < 4294967296 → length line.new.bytes ≤ length line.old.bytes + length lead.now + 10 }
{
    let mut digits = itoa::Buffer::new();
    line.push_str(lead);
    line.push_str(digits.format(n));
}

// Appends the text of a shape to an empty line.
fn push_shape(line: &mut ArrayString<ROOM>, shape: Shape)
    requires { line.old.bytes ≡ [] }
    ensures bytes { line.new.bytes ≡ verdict_line (as_shape shape) }
    ensures bound { length line.new.bytes < 64 }
{
    match shape {
        Shape::Flat { depth, reached } => {
            push_field(line, "accepted flat ", depth as usize);
            push_field(line, " ", reached as usize);
        }
        Shape::Stacked { reached } => push_field(line, "accepted stacked ", reached as usize),
    }
}

// The line of a verdict.
pub(crate) fn verdict_line(verdict: Result<Shape, Refusal>) -> ArrayString<ROOM>
    ensures { result.bytes ≡ verdict_line (as_verdict verdict) ++ newline }
{
    let mut line = ArrayString::new();
    match verdict {
        Ok(shape) => push_shape(&mut line, shape),
        Err(refusal) => {
            push_field(&mut line, "refused ", refusal.fault.number() as usize);
            push_field(&mut line, " at ", refusal.place);
        }
    }
    line.push_str("\n");
    line
}

// The line of an answer.
pub(crate) fn answer_line(answer: Result<Ran, Refusal>) -> ArrayString<ROOM>
    ensures { result.bytes ≡ answer_line (as_answer answer) ++ newline }
{
    let mut line = ArrayString::new();
    match answer {
        Ok(ran) => {
            push_field(&mut line, "", ran.end.number() as usize);
            push_field(&mut line, " ", ran.end.value() as usize);
            push_field(&mut line, " ", ran.steps as usize);
            push_field(&mut line, " ", ran.place as usize);
            push_field(&mut line, " ", ran.frames as usize);
        }
        Err(refusal) => {
            push_field(&mut line, "", refusal.fault.number() as usize);
            push_field(&mut line, " 0 0 ", refusal.place);
            push_field(&mut line, " ", 0);
        }
    }
    line.push_str("\n");
    line
}
