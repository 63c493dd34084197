// The machine: a start tested, and a file run over a lent store.
#![tactic(auto)]

mod frame;
mod start;
mod step;

ghost use Rattle.std.specs.Prelude.{◌≡◌, ◌≤◌, IfErr};
ghost use Rattle.meaning.specs.Answers.{as_answer, ended, run_of};
ghost use Rattle.machine.specs.Running.{unfit_of, Opened};

use crate::frame::{Store, Work};
use crate::start::{clear, start_answer, wipe};
use crate::step::execute;
use checker::judge;
use meaning::{Fault, Ran, Refusal};
use standing::Rules;

// The store or the work area has a wrong size.
#[tactic(auto, unfolding(crate::specs::Running::unfit_of, meaning::specs::Choice::pick))]
fn unfit(store: usize, work: usize) -> bool
    ensures { result ≡ unfit_of store work }
{
    store % Store::CELL != 0 || Store::CELLS * Store::CELL < store || work < Work::WORDS
}

// The start tested, and the file run where it is not refused. Store and work area go on as they are lent.
fn begin(
    rules: Rules,
    args: &[u32],
    store: &mut [u32],
    work: &mut [u32],
    budget: u32,
) -> Result<Ran, Refusal>
    requires { Opened rules.file.now rules.table.now.words args.now store.old work.old }
    ensures answered { ended (as_answer result) store.new work.new ≡ run_of rules.entry.file.now args.now store.old work.old budget }
    ensures placed { IfErr result (λ r. r.place ≤ 4096) }
{
    if let Err(fault) = start_answer(rules, args, store, work) {
        wipe(work);
        return Err(Refusal { fault, place: 0 });
    }
    clear(work, Work::ENDS, rules.file.len() / Work::APART + 1);
    let ran = execute(rules, args, store, work, budget);
    wipe(work);
    Ok(ran)
}

// A file run on arguments over a lent store, in a lent work area, within a budget of steps; or why it is refused.
pub fn run(
    file: &[u8],
    args: &[u32],
    store: &mut [u32],
    work: &mut [u32],
    budget: u32,
) -> Result<Ran, Refusal>
    ensures answered { ended (as_answer result) store.new work.new ≡ run_of file.now args.now store.old work.old budget }
    ensures placed { IfErr result (λ r. r.place ≤ 4096) }
{
    let table = judge(file)?;
    if unfit(store.len(), work.len()) {
        return Err(Refusal {
            fault: Fault::WrongSize,
            place: 0,
        });
    }
    if args.len() != table.parameters(0) {
        return Err(Refusal {
            fault: Fault::WrongCount,
            place: 0,
        });
    }
    let rules = Rules {
        file,
        table: &table,
    };
    begin(rules, args, store, work, budget)
}
