// Verdict and answer as words, and checking and running with them for programs in other languages.
#![tactic(auto)]

ghost use Rattle.std.specs.Prelude.{◌≡◌, ◌≤◌, IfErr};
ghost use Rattle.meaning.specs.Answers.{verdict_of, run_of, as_verdict, as_answer};
ghost use Rattle.export.specs.Words.{verdict_words, answer_words};
ghost use Rattle.export.specs.Words as words;

use meaning::{Ran, Refusal, Shape};

// The words of a verdict.
fn verdict_words(verdict: Result<Shape, Refusal>) -> [u32; 4]
    requires { IfErr verdict (λ r. r.place ≤ 4096) }
    ensures { result ≡ verdict_words (as_verdict verdict) }
{
    match verdict {
        Ok(Shape::Flat { depth, reached }) => [0, depth, reached, 0],
        Ok(Shape::Stacked { reached }) => [1, reached, 0, 0],
        Err(refusal) => [2, refusal.fault.number(), refusal.place as u32, 0],
    }
}

// The words of an answer: its number in the table, value, steps, place and frames.
fn answer_words(answer: Result<Ran, Refusal>) -> [u32; 5]
    requires { IfErr answer (λ r. r.place ≤ 4096) }
    ensures { result ≡ answer_words (as_answer answer) }
{
    match answer {
        Ok(ran) => [
            ran.end.number(),
            ran.end.value(),
            ran.steps,
            ran.place,
            ran.frames,
        ],
        Err(refusal) => [refusal.fault.number(), 0, 0, refusal.place as u32, 0],
    }
}

// Writes the words of a file's verdict.
pub fn base_check(file: &[u8], out: &mut [u32; 4])
    ensures { out.new ≡ verdict_words (verdict_of file.now) }
{
    *out = verdict_words(checker::check(file));
}

// Runs a file on arguments over a lent store, in a lent work area, within a budget of steps, and writes the words of the answer.
pub fn base_run(
    file: &[u8],
    args: &[u32],
    store: &mut [u32],
    work: &mut [u32],
    budget: u32,
    out: &mut [u32; 5],
)
    ensures { words.Ran (run_of file.now args.now store.old work.old budget) out.new store.new work.new }
{
    *out = answer_words(machine::run(file, args, store, work, budget));
}
