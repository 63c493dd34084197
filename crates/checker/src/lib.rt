// The checker: a file's verdict, and what the machine needs of an accepted file.
#![tactic(auto)]

mod bodies;
mod calls;
mod ownership;
mod reading;
mod sets;
mod slots;

ghost use Rattle.std.specs.Prelude.{◌≡◌, ◌≤◌, IfErr};
ghost use Rattle.meaning.specs.Answers.{as_verdict, verdict_of};
ghost use Rattle.checker.specs.Judging.{as_judged, judged_of};

use crate::bodies::check_file;
use crate::calls::shape_of;
use meaning::{Refusal, Shape};
use standing::Table;

// The table of declarations of an accepted file; or why it is refused, 1 to 12.
pub fn judge(file: &[u8]) -> Result<Table, Refusal>
    ensures judged { as_judged result ≡ judged_of file.now }
    ensures placed { IfErr result (λ r. r.place ≤ 4096) }
{
    let mut table = Table::empty();
    let mut calls = [0; 32];
    check_file(file, &mut table, &mut calls)?;
    Ok(table)
}

// The verdict on a file: its shape, or why it is refused.
pub fn check(file: &[u8]) -> Result<Shape, Refusal>
    ensures told { as_verdict result ≡ verdict_of file.now }
    ensures placed { IfErr result (λ r. r.place ≤ 4096) }
{
    let mut table = Table::empty();
    let mut calls = [0; 32];
    check_file(file, &mut table, &mut calls)?;
    Ok(shape_of(&calls))
}
