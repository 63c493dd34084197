// Bodies, read and checked in one pass, which notes their calls too. Behind a fault of the ownership check the rest is still read, since a
// file that does not read is refused for that, wherever its other faults stand.
ghost use Rattle.std.specs.Prelude.{◌≡◌, ◌+◌, ◌≤◌, ◌<◌, length, replicate};
ghost use Rattle.meaning.specs.Marks.{place_of, find_mark};
ghost use Rattle.standing.specs.Bytes.{mark_at};
ghost use Rattle.checker.specs.ReadingBytes.{path, known_count};
ghost use Rattle.checker.specs.Opening.{Bodied};
ghost use Rattle.checker.specs.Noting.{note_at};
ghost use Rattle.checker.specs.Paths.{Head, Placed, term, list};
ghost use Rattle.checker.specs.Bits.{bits_of};
ghost use Rattle.checker.specs.Slots.{spent_by, digit};
ghost use Rattle.checker.specs.Ownership.{as_taken};
ghost use Rattle.checker.specs.Bodies.{Passable, number_in, place_in, fault_after, place_after, NodeTaken, Checked, CheckedAll, CheckedBody, Finished};

use crate::ownership::{
    Modes, bind_all, bound_kind, branch_slots, head, repeats, result_sort, seeing, take_record,
};
use crate::reading::{
    Header, Path, Then, expect_mark, read_branch, read_end, read_header, read_node,
};
use crate::sets::{lowest, without_lowest};
use crate::slots::{Sort, fresh_slots, used};
use meaning::{BYTES, Fault, Mark, Refusal, Slot};
use standing::{Rules, Table};

// What is noted in the pass: the calls of a body, as bits, and the first fault of the ownership check.
#[derive(Clone, Copy, Debug, PartialEq, Eq)]
pub(crate) struct Notes {
    pub calls: u64,
    pub fault: Option<Refusal>,
}

impl Notes {
    // Notes the call of the record at a place, if it is one: a CL by the number of its function, a TL by 32 more.
    #[tactic(auto, using(std::proofs::lemmas::Bool::Decides::nat_tests), unfolding(crate::specs::Noting::note_at, meaning::specs::Choice::pick))]
    fn call(&mut self, rules: Rules, at: usize, mark: Mark)
        requires { at ≤ 4096 }
        ensures calls { self.new.calls ≡ note_at rules.entry.file.now at (place_of mark) self.old.calls }
        ensures fault { self.new.fault ≡ self.old.fault }
    {
        let function = rules.byte(at + 2) % 32;
        match mark {
            Mark::CL => self.calls = seeing(self.calls, function),
            Mark::TL => self.calls = seeing(self.calls, 32 + function),
            _ => {}
        }
    }

    // Notes a fault, if there is one and it is the first.
    #[tactic(auto, using(crate::proofs::bodies::Telling::or_number, crate::proofs::bodies::Telling::or_place))]
    fn fault(&mut self, fault: Option<Refusal>)
        ensures calls { self.new.calls ≡ self.old.calls }
        ensures number { number_in self.new.fault ≡ fault_after (number_in self.old.fault) (number_in fault) }
        ensures place { place_in self.new.fault ≡ place_after (number_in self.old.fault) (place_in self.old.fault) (number_in fault) (place_in fault) }
    {
        self.fault = self.fault.or(fault);
    }
}

// The slots of a set become used.
fn spend(slots: &mut [Slot; 32], spent: u32)
    ensures { slots.new ≡ spent_by (bits_of 32 spent) slots.old }
{
    let mut todo = spent;
    while todo != 0 {
        let slot = lowest(todo);
        slots[slot].kind = used(slots[slot].kind);
        todo = without_lowest(todo);
    }
}

// What a record takes becomes used; or its fault is noted.
fn spend_taken(taken: Result<u32, Refusal>, slots: &mut [Slot; 32], notes: &mut Notes)
    ensures slots { slots.new ≡ spent_by (bits_of 32 (as_taken taken).spent) slots.old }
    ensures calls { notes.new.calls ≡ notes.old.calls }
    ensures number { number_in notes.new.fault ≡ fault_after (number_in notes.old.fault) (as_taken taken).number }
    ensures place { place_in notes.new.fault ≡ place_after (number_in notes.old.fault) (place_in notes.old.fault) (as_taken taken).number (as_taken taken).place }
{
    match taken {
        Ok(spent) => spend(slots, spent),
        Err(refusal) => notes.fault(Some(refusal)),
    }
}

// A node's record is taken: of the slots, those that it takes are spent, and the one that it binds, if there is one, is bound; its call is
// noted, and its fault. Slots and counts: see the head of ownership.rt.
fn take_node(
    rules: Rules,
    at: usize,
    mark: Mark,
    sort: Sort,
    bound: usize,
    after: usize,
    slots: &mut [Slot; 32],
    notes: &mut Notes,
)
    requires { (at ≤ 4096) × (place_of mark ≡ find_mark (mark_at rules.file.now at)) × (bound ≤ 32) × (after ≤ 32) }
    ensures { NodeTaken rules.entry.file.now rules.entry.table.now.words at sort bound after slots.old notes.old slots.new notes.new }
{
    notes.call(rules, at, mark);
    let taken = take_record(rules, at, mark, sort, slots, bound);
    spend_taken(taken, slots, notes);
    if bound < after {
        slots[bound] = Slot {
            kind: bound_kind(rules, at, mark),
            place: at as u16,
        };
    }
}

// The term at a place: one node, and the terms that follow it, two of an IF from the same slots.
#[cycle(check_branches_check_term)]
fn check_term(
    rules: Rules,
    at: usize,
    sort: Sort,
    slots: [Slot; 32],
    path: Path,
    notes: &mut Notes,
) -> Result<usize, Refusal>
    requires { Passable rules.file.now rules.table.now.words at path × Placed rules.file.now rules.table.now.words (term at) path slots }
    ensures { Checked rules.entry.file.now rules.entry.table.now.words at sort slots path notes.old notes.new result }
{
    let node = read_node(rules, at, path)?;
    let mut inner = slots;
    take_node(
        rules,
        at,
        node.mark,
        sort,
        path.slots,
        node.path.slots,
        &mut inner,
        notes,
    );
    // The end of a term that follows is an Ok of its own: a Result that is handed on is copied with its padding, in pieces that the processor waits for.
    match node.then {
        Then::Leaf(next) => Ok(next),
        Then::One(next) => {
            let end = check_term(rules, next, sort, inner, node.path, notes)?;
            Ok(end)
        }
        Then::Two(next) => {
            let second = check_term(rules, next, sort, inner, node.path, notes)?;
            let end = check_term(rules, second, sort, inner, node.path, notes)?;
            Ok(end)
        }
        Then::Many(next, count, credit) => {
            check_branches(rules, next, count, credit, sort, inner, node.path, notes)
        }
    }
}

// So many branches from a place on, each from the same slots.
#[cycle(check_branches_check_term)]
fn check_branches(
    rules: Rules,
    start: usize,
    count: usize,
    credit: bool,
    sort: Sort,
    slots: [Slot; 32],
    path: Path,
    notes: &mut Notes,
) -> Result<usize, Refusal>
    requires { Passable rules.file.now rules.table.now.words start path × Placed rules.file.now rules.table.now.words (list start count (digit credit)) path slots }
    ensures { CheckedAll rules.entry.file.now rules.entry.table.now.words start count (digit credit) sort slots path notes.old notes.new result }
{
    let mut at = start;
    let mut seen: u64 = 0;
    'branches: for _ in 0..count {
        let after = read_branch(rules, at, credit, path.slots)?;
        let constructor = rules.byte(at + 2);
        notes.fault(repeats(seen, constructor, at + 2));
        let inner = branch_slots(rules, constructor, at, credit, slots, path.slots);
        let behind = Path {
            slots: after,
            nodes: path.nodes,
        };
        at = check_term(rules, at + 3, sort, inner, behind, notes)?;
        seen = seeing(seen, constructor);
    }
    Ok(at)
}

// BD and the body of a function, from its parameters.
fn check_body(rules: Rules, at: usize, f: usize, notes: &mut Notes) -> Result<usize, Refusal>
    requires { Passable rules.file.now rules.table.now.words at (path 0 0) × (f < 32) × (known_count rules.table.now.words f ≤ 8) × Head rules.file.now rules.table.now.words f }
    ensures { CheckedBody rules.entry.file.now rules.entry.table.now.words at f notes.old notes.new result }
{
    let start = expect_mark(rules.file, at, Mark::BD)?;
    let parameters = Modes::of_parameters(rules.table, f);
    let slots = bind_all(
        rules,
        parameters,
        head(rules.table, f),
        fresh_slots(),
        0,
        false,
    );
    let path = Path {
        slots: parameters.count,
        nodes: 0,
    };
    check_term(rules, start, result_sort(rules, f), slots, path, notes)
}

// The bodies of all functions, behind the header, each one's place into the table and its calls into a word, and the end of the file. The table
// is being written, so it goes beside the file.
fn check_bodies(
    file: &[u8],
    table: &mut Table,
    calls: &mut [u64; 32],
    header: Header,
) -> Result<(), Refusal>
    requires { (length file.now ≤ 4096) × Bodied file.now table.old.words header.count 0 header.at × (calls.old ≡ replicate 32 0) }
    ensures { Finished file.now table.new.words calls.new result }
{
    let mut at = header.at;
    let mut fault = None;
    for f in 0..header.count {
        let mut notes = Notes { calls: 0, fault };
        let next = check_body(Rules { file, table }, at, f, &mut notes)?;
        table.words[Table::BODIES + f] = (at + 2) as u32;
        calls[f] = notes.calls;
        fault = notes.fault;
        at = next;
    }
    read_end(file, at)?;
    match fault {
        Some(refusal) => Err(refusal),
        None => Ok(()),
    }
}

// The whole file, with what it declares in the table, which is written here, and the calls of each body in a word; or why it is refused.
pub(crate) fn check_file(
    file: &[u8],
    table: &mut Table,
    calls: &mut [u64; 32],
) -> Result<(), Refusal>
    requires { (table.old.words ≡ replicate 128 255) × (calls.old ≡ replicate 32 0) }
    ensures { Finished file.now table.new.words calls.new result }
{
    if BYTES < file.len() {
        return Err(Refusal {
            fault: Fault::TooLong,
            place: 0,
        });
    }
    let header = read_header(file, table)?;
    check_bodies(file, table, calls, header)
}
