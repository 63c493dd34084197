// One node a step, and the run of so many steps. The store and the work area go through as `run` is lent them, and the state beside them by value,
// so that it stays in registers.
ghost use Rattle.std.specs.Prelude.{◌≡◌, ℕ, ◌+◌, ◌-◌, ◌*◌, ◌/◌, ◌<◌, ◌≤◌, true, false, length, drop, slice_index};
ghost use Rattle.meaning.specs.Marks.{mark_of, place_of};
ghost use Rattle.meaning.specs.Plain.{flag};
ghost use Rattle.meaning.specs.Answers.{number, as_end, value_of};
ghost use Rattle.meaning.specs.declared.RunEnd.{RunEnd};
ghost use Rattle.meaning.specs.Machine.{run};
ghost use Rattle.meaning.specs.InPlace.{begins};
ghost use Rattle.standing.specs.Bytes.{mark_at, arity_in, params_in, body_in};
ghost use Rattle.machine.specs.Layout.{slot_in, on, at_work, goes, ended, nu_of, at_of, ar_of, gv_of, tl_of, cl_of, mk_of, mk_store, con_of, opened_of, first_of};
ghost use Rattle.machine.specs.Skips.{Safe, then_of, next_of, opens_of, Skips, SkipsAll, SkipsMany, EndNeeds, kept_at, EndFound, BranchFound};
ghost use Rattle.machine.specs.Needs.{Room, MkNeeds, CallNeeds, OpenNeeds};
ghost use Rattle.machine.specs.Represents.{Fit, Reached, Begun};
ghost use Rattle.machine.specs.Steps.{Opened, Chosen, Comes, Stepped, Node, by_distance, ending, place_of as place_at, answer_of};

use crate::frame::{
    Frame, State, Store, Work, bind, byte, fill, go_to, hand_over, load, pass_on, slot,
};
use meaning::{MARK, Mark, Ran, RunEnd};
use standing::{Rules, Table, mark_at};
use sums::sum;

// How far a term is passed over: the byte reached, and the terms that are open there.
#[derive(Clone, Copy)]
pub struct Passed {
    pub at: usize,
    pub terms: usize,
}

// A run that goes on: its state, and the nodes that are left to it.
#[derive(Clone, Copy)]
pub struct Pause {
    pub state: State,
    pub left: u32,
}

// The arity of a declared constructor. Not by Table's method, which tests its index: a step has no test of bounds. So too the next two.
fn arity(table: &Table, con: usize) -> usize
    requires { con < 64 }
    ensures { (result ≡ arity_in table.now.words con) × (result < 256) }
{
    table.words[con] as usize % Table::PLACE
}

// The count of parameters of a declared function.
fn parameter_count(table: &Table, f: usize) -> usize
    requires { f < 32 }
    ensures { (result ≡ params_in table.now.words f) × (result < 256) }
{
    table.words[Table::FUNCTIONS + f] as usize % Table::PLACE
}

// The place of a declared function's body.
fn body(table: &Table, f: usize) -> usize
    requires { f < 32 }
    ensures { (result ≡ body_in table.now.words f) × (result < 4294967296) }
{
    table.words[Table::BODIES + f] as usize
}

// NU: bind a constant.
#[tactic(auto, unfolding(crate::specs::Layout::nu_of))]
fn number(file: &[u8], work: &mut [u32], s: State) -> State
    requires { Room 4 file.now (at_work s work.old) × (s.frame.bound < 32) }
    ensures { at_work result work.new ≡ nu_of file.now (at_work s work.old) }
{
    let at = s.frame.at;
    let n = byte(file, at + 2) * 256 + byte(file, at + 3);
    bind(work, s, n as u32, at + 4)
}

// AR: bind the result of an operation, or end the run where it is outside 0..65,535.
fn arith(file: &[u8], work: &mut [u32], s: State) -> Option<State>
    requires { Room 5 file.now (at_work s work.old) × (s.frame.bound < 32) }
    ensures { goes RunEnd.OutOfRange s result work.new ≡ ar_of file.now (at_work s work.old) }
{
    let at = s.frame.at;
    let base = s.frame.depth * Frame::SLOTS;
    let a = slot(file, work, base, at + 3);
    let b = slot(file, work, base, at + 4);
    let v = sum(byte(file, at + 2), a, b);
    if 65535 < v {
        return None;
    }
    Some(bind(work, s, v as u32, at + 5))
}

// AT: bind an atom.
#[tactic(auto, unfolding(crate::specs::Layout::at_of))]
fn atom(file: &[u8], work: &mut [u32], s: State) -> State
    requires { Room 3 file.now (at_work s work.old) × (s.frame.bound < 32) }
    ensures { at_work result work.new ≡ at_of file.now (at_work s work.old) }
{
    let at = s.frame.at;
    let c = byte(file, at + 2);
    bind(work, s, c as u32, at + 3)
}

// GV: the value goes to the frame below, which goes on, or ends the run.
#[tactic(auto, unfolding(crate::specs::Layout::gv_of, meaning::specs::Choice::pick))]
fn give(file: &[u8], work: &mut [u32], s: State) -> Option<State>
    requires { Room 3 file.now (at_work s work.old) × (0 < s.frame.depth → slice_index work.old (1024 + (s.frame.depth - 1) * 2 + 1) < 32) }
    ensures { goes (RunEnd.Done (slot_in file.now work.new (s.frame.depth * 32) (s.frame.at + 2))) s result work.new ≡ gv_of file.now (at_work s work.old) }
{
    let v = slot(file, work, s.frame.depth * Frame::SLOTS, s.frame.at + 2);
    if s.frame.depth == 0 {
        return None;
    }
    let depth = s.frame.depth - 1;
    let q = Work::SAVED + depth * 2;
    let at = work[q] as usize;
    let bound = work[q + 1] as usize;
    let back = State {
        frame: Frame { at, depth, bound },
        ..s
    };
    Some(bind(work, back, v, at))
}

// TL: the called function's frame takes the place of the caller's.
#[tactic(auto, unfolding(crate::specs::Layout::tl_of))]
fn tail(rules: Rules, work: &mut [u32], s: State) -> State
    requires { CallNeeds rules.file.now rules.table.now.words (at_work s work.old) }
    ensures { at_work result work.new ≡ tl_of rules.entry.file.now rules.entry.table.now.words (at_work s work.old) }
{
    let at = s.frame.at;
    let base = s.frame.depth * Frame::SLOTS;
    let g = byte(rules.file, at + 2);
    let n = parameter_count(rules.table, g);
    pass_on(rules.file, work, base, at + 3, n);
    State {
        frame: Frame {
            at: body(rules.table, g),
            bound: n,
            ..s.frame
        },
        ..s
    }
}

// CL: a frame for the called function; the caller's waits below it.
fn call(rules: Rules, work: &mut [u32], s: State) -> Option<State>
    requires { CallNeeds rules.file.now rules.table.now.words (at_work s work.old) }
    ensures { goes RunEnd.NoFrame s result work.new ≡ cl_of rules.entry.file.now rules.entry.table.now.words (at_work s work.old) }
{
    let at = s.frame.at;
    let depth = s.frame.depth;
    if Frame::MAX - 1 <= depth {
        return None;
    }
    let base = depth * Frame::SLOTS;
    let g = byte(rules.file, at + 2);
    let n = parameter_count(rules.table, g);
    let q = Work::SAVED + depth * 2;
    work[q] = (at + 3 + n) as u32;
    work[q + 1] = s.frame.bound as u32;
    if n == 1 {
        let v = slot(rules.file, work, base, at + 3);
        work[base + Frame::SLOTS] = v;
    } else {
        hand_over(rules.file, work, base, at + 3, base + Frame::SLOTS, n);
    }
    Some(State {
        frame: Frame {
            at: body(rules.table, g),
            depth: depth + 1,
            bound: n,
        },
        most: s.most.max(depth + 2),
    })
}

// MK: write the credit's cell, and bind it.
#[tactic(auto, unfolding(crate::specs::Layout::mk_of, crate::specs::Layout::mk_store))]
fn make(rules: Rules, store: &mut [u32], work: &mut [u32], s: State) -> State
    requires { MkNeeds rules.file.now rules.table.now.words store.old (at_work s work.old) }
    ensures { (store.new ≡ mk_store rules.entry.file.now rules.entry.table.now.words store.old (at_work s work.old)) × (at_work result work.new ≡ mk_of rules.entry.file.now rules.entry.table.now.words (at_work s work.old)) }
{
    let at = s.frame.at;
    let base = s.frame.depth * Frame::SLOTS;
    let con = byte(rules.file, at + 2);
    let k = arity(rules.table, con);
    let w = slot(rules.file, work, base, at + 3);
    let p = (w - Store::FIRST) as usize * Store::CELL;
    store[p] = con as u32;
    fill(rules.file, store, work, base, at + 4, p + 1, k);
    bind(work, s, w, at + 4 + k)
}

// What follows a node: the byte where it begins, and the terms that are open there.
fn follows(rules: Rules, at: usize) -> Passed
    requires { Safe rules.file.now at }
    ensures { (result.at ≡ next_of (then_of rules.entry.file.now rules.entry.table.now.words at)) × (result.terms ≡ opens_of (then_of rules.entry.file.now rules.entry.table.now.words at)) }
{
    let m = mark_at(rules.file, at).unwrap_or(Mark::Other);
    let past = at + MARK + usize::from(m.row().fields);
    match m {
        Mark::AT => Passed { at: past, terms: 1 },
        Mark::MK => Passed {
            at: past + rules.table.arity(byte(rules.file, at + 2)),
            terms: 1,
        },
        Mark::CL => Passed {
            at: past + rules.table.parameters(byte(rules.file, at + 2)),
            terms: 1,
        },
        Mark::TL => Passed {
            at: past + rules.table.parameters(byte(rules.file, at + 2)),
            terms: 0,
        },
        Mark::OP => Passed {
            at: past,
            terms: byte(rules.file, at + 3),
        },
        Mark::LK => Passed {
            at: past,
            terms: byte(rules.file, at + 3),
        },
        Mark::BR => Passed { at: past, terms: 1 },
        Mark::NU => Passed { at: past, terms: 1 },
        Mark::AR => Passed { at: past, terms: 1 },
        Mark::IF => Passed { at: past, terms: 2 },
        _ => Passed { at: past, terms: 0 },
    }
}

// One record passed over: it closes a term, and opens those that follow it.
fn pass_record(rules: Rules, p: Passed) -> Passed
    requires { (0 < p.terms) × ((next : ℕ) × SkipsMany rules.file.now rules.table.now.words p.at p.terms next) }
    ensures { (result.at ≡ next_of (then_of rules.entry.file.now rules.entry.table.now.words p.at)) × (result.terms ≡ (p.terms - 1) + opens_of (then_of rules.entry.file.now rules.entry.table.now.words p.at)) }
{
    let f = follows(rules, p.at);
    Passed {
        at: f.at,
        terms: p.terms - 1 + f.terms,
    }
}

// The byte after the term at a place: the terms that are open are counted until none is.
fn skip_term(rules: Rules, at: usize) -> usize
    requires { (next : ℕ) × Skips rules.file.now rules.table.now.words at next }
    ensures { Skips rules.entry.file.now rules.entry.table.now.words at result }
{
    let mut p = Passed { at, terms: 1 };
    while 0 < p.terms {
        p = pass_record(rules, p);
    }
    p.at
}

// The end of the term at a place, where a word of the work area keeps it.
#[tactic(auto, unfolding(crate::specs::Skips::kept_at, meaning::specs::Choice::pick))]
fn kept(work: &[u32], at: usize) -> Option<usize>
    requires { 1088 + at / 2 < length work.now }
    ensures { result ≡ kept_at work.now at }
{
    let word = work[Work::ENDS + at / Work::APART] as usize;
    if word / Work::PLACE == at {
        return Some(word % Work::PLACE);
    }
    None
}

// The byte after the term at a place, if it is known: an end is worked out once a run, where it is to be, and a word of the work area keeps the
// place with it.
fn end_of<const WORK_OUT: bool>(rules: Rules, work: &mut [u32], at: usize) -> Option<usize>
    requires { EndNeeds rules.file.now rules.table.now.words work.old × (0 < at) × ((next : ℕ) × Skips rules.file.now rules.table.now.words at next × (next ≤ 4096)) }
    ensures { EndFound WORK_OUT rules.entry.file.now rules.entry.table.now.words at work.old result work.new }
{
    let known = kept(work, at);
    if known.is_some() || !WORK_OUT {
        return known;
    }
    let next = skip_term(rules, at);
    work[Work::ENDS + at / Work::APART] = (at * Work::PLACE + next) as u32;
    Some(next)
}

// Where the branch of a constructor has its term, if there is one and the ends before it are known.
fn find_branch<const WORK_OUT: bool>(
    rules: Rules,
    work: &mut [u32],
    at: usize,
    count: usize,
    con: usize,
) -> Option<usize>
    requires { EndNeeds rules.file.now rules.table.now.words work.old × ((next : ℕ) × SkipsAll rules.file.now rules.table.now.words at count next × (next ≤ 4096)) }
    ensures { BranchFound WORK_OUT rules.entry.file.now rules.entry.table.now.words con at count work.old result work.new }
{
    let mut p = at;
    for _ in 0..count {
        if byte(rules.file, p + 2) == con {
            return Some(p + 3);
        }
        p = end_of::<WORK_OUT>(rules, work, p + 3)?;
    }
    None
}

// The constructor of a tree word.
#[tactic(auto, unfolding(crate::specs::Layout::con_of, meaning::specs::Choice::pick))]
fn constructor(store: &[u32], w: u32) -> usize
    requires { 65536 ≤ w → (w - 65536) * 5 + 5 ≤ length store.now }
    ensures { result ≡ con_of store.now w }
{
    if w < Store::FIRST {
        return w as usize;
    }
    store[(w - Store::FIRST) as usize * Store::CELL] as usize
}

// The branch that was found, with the fields bound, and the credit if there is one.
#[tactic(auto, unfolding(crate::specs::Layout::opened_of, meaning::specs::Choice::pick))]
fn opened(
    table: &Table,
    store: &[u32],
    work: &mut [u32],
    s: State,
    w: u32,
    con: usize,
    b: usize,
    credit: bool,
) -> State
    requires { (s.frame.depth ≤ 31) × (4096 ≤ length work.old) × (con < 64) × (arity_in table.now.words con ≤ 4) × (65536 ≤ w → (w - 65536) * 5 + 5 ≤ length store.now) × (65536 ≤ w → s.frame.bound + arity_in table.now.words con + flag credit ≤ 32) }
    ensures { at_work result work.new ≡ opened_of table.now.words store.now (at_work s work.old) w con b (flag credit) }
{
    if w < Store::FIRST {
        return go_to(s, b);
    }
    let k = arity(table, con);
    let to = s.frame.depth * Frame::SLOTS + s.frame.bound;
    let p = (w - Store::FIRST) as usize * Store::CELL;
    load(store, work, p + 1, to, k);
    if credit {
        work[to + k] = w;
    }
    State {
        frame: Frame {
            at: b,
            bound: s.frame.bound + k + usize::from(credit),
            ..s.frame
        },
        ..s
    }
}

// OP and LK: the branch that fits; OP binds a credit too.
fn take_branch<const WORK_OUT: bool>(
    rules: Rules,
    store: &[u32],
    work: &mut [u32],
    s: State,
    credit: bool,
) -> Option<State>
    requires { OpenNeeds rules.file.now rules.table.now.words store.now (at_work s work.old) (flag credit) }
    ensures { Comes WORK_OUT RunEnd.NoBranch (Opened rules.entry.file.now rules.entry.table.now.words store.now (flag credit) (at_work s work.old)) (work.new ≡ work.old) s result work.new }
{
    let at = s.frame.at;
    let w = slot(rules.file, work, s.frame.depth * Frame::SLOTS, at + 2);
    let con = constructor(store, w);
    let count = byte(rules.file, at + 3);
    let b = find_branch::<WORK_OUT>(rules, work, at + 4, count, con)?;
    Some(opened(rules.table, store, work, s, w, con, b, credit))
}

// IF: the first term if the number is not 0.
fn choose<const WORK_OUT: bool>(rules: Rules, work: &mut [u32], s: State) -> Option<State>
    requires { Room 3 rules.file.now (at_work s work.old) × EndNeeds rules.file.now rules.table.now.words work.old × ((next : ℕ) × Skips rules.file.now rules.table.now.words (s.frame.at + 3) next × (next ≤ 4096)) }
    ensures { Comes WORK_OUT RunEnd.NoBranch (Chosen rules.entry.file.now rules.entry.table.now.words (at_work s work.old)) (work.new ≡ work.old) s result work.new }
{
    let first = s.frame.at + 3;
    let v = slot(
        rules.file,
        work,
        s.frame.depth * Frame::SLOTS,
        s.frame.at + 2,
    );
    if v != 0 {
        return Some(go_to(s, first));
    }
    let second = end_of::<WORK_OUT>(rules, work, first)?;
    Some(go_to(s, second))
}

// A node's mark by how far its second letter is from its first, which is another for each of the ten nodes. Each of the
// 32 distances has its arm, so that none is tested for being too large.
#[tactic(auto, unfolding(crate::specs::Steps::by_distance, meaning::specs::Choice::pick))]
fn by_distance(distance: usize) -> Mark
    ensures { place_of result ≡ by_distance distance }
{
    match distance {
        0 => Mark::Other,
        1 => Mark::OP,
        2 => Mark::Other,
        3 => Mark::Other,
        4 => Mark::Other,
        5 => Mark::Other,
        6 => Mark::Other,
        7 => Mark::NU,
        8 => Mark::Other,
        9 => Mark::CL,
        10 => Mark::Other,
        11 => Mark::Other,
        12 => Mark::Other,
        13 => Mark::Other,
        14 => Mark::Other,
        15 => Mark::GV,
        16 => Mark::Other,
        17 => Mark::AR,
        18 => Mark::Other,
        19 => Mark::AT,
        20 => Mark::Other,
        21 => Mark::Other,
        22 => Mark::Other,
        23 => Mark::Other,
        24 => Mark::TL,
        25 => Mark::Other,
        26 => Mark::Other,
        27 => Mark::Other,
        28 => Mark::Other,
        29 => Mark::IF,
        30 => Mark::MK,
        31 => Mark::LK,
        _ => Mark::Other,
    }
}

// The mark of the node at a place.
fn node_mark(file: &[u8], at: usize) -> Mark
    requires { (at + 2 ≤ length file.now) × Node (mark_at file.now at) }
    ensures { result ≡ mark_of (mark_at file.now at) }
{
    by_distance((byte(file, at + 1) + 256 - byte(file, at)) % 32)
}

// One node, and the state after it. There is none where the node ends the run, or where an end of a term that it needs is not known and not to be
// worked out, in which case it is left as it was.
fn step<const WORK_OUT: bool>(
    rules: Rules,
    store: &mut [u32],
    work: &mut [u32],
    s: State,
) -> Option<State>
    requires { Fit rules.file.now rules.table.now.words store.old (at_work s work.old) }
    ensures { Stepped WORK_OUT rules.entry.file.now rules.entry.table.now.words store.old s work.old result store.new work.new }
{
    match node_mark(rules.file, s.frame.at) {
        Mark::GV => give(rules.file, work, s),
        Mark::AT => Some(atom(rules.file, work, s)),
        Mark::MK => Some(make(rules, store, work, s)),
        Mark::CL => call(rules, work, s),
        Mark::TL => Some(tail(rules, work, s)),
        Mark::OP => take_branch::<WORK_OUT>(rules, store, work, s, true),
        Mark::LK => take_branch::<WORK_OUT>(rules, store, work, s, false),
        Mark::NU => Some(number(rules.file, work, s)),
        Mark::AR => arith(rules.file, work, s),
        Mark::IF => choose::<WORK_OUT>(rules, work, s),
        _ => Some(s),
    }
}

// How the node ends the run that no state follows.
fn ending(file: &[u8], work: &[u32], s: State) -> RunEnd
    requires { Room 3 file.now (at_work s work.now) × Node (mark_at file.now s.frame.at) }
    ensures { result ≡ ending file.now (at_work s work.now) }
{
    match node_mark(file, s.frame.at) {
        Mark::GV => RunEnd::Done(slot(file, work, s.frame.depth * Frame::SLOTS, s.frame.at + 2)),
        Mark::CL => RunEnd::NoFrame,
        Mark::AR => RunEnd::OutOfRange,
        _ => RunEnd::NoBranch,
    }
}

// The place of an end: none where the run is done.
#[tactic(auto, using(crate::proofs::step::Tries::place_undone), unfolding(crate::specs::Steps::place_of, meaning::specs::Choice::pick))]
fn place(end: RunEnd, s: State) -> usize
    ensures { result ≡ place_at (ended (on s) (number (as_end end)) (value_of end)) }
{
    match end {
        RunEnd::Done(_) => 0,
        _ => s.frame.at,
    }
}

// The first state: function 0's body with the arguments as its slots.
#[tactic(auto, unfolding(crate::specs::Layout::first_of))]
fn first_state(table: &Table, args: &[u32], work: &mut [u32]) -> State
    requires { (length args.now ≤ 32) × (4096 ≤ length work.old) }
    ensures { at_work result work.new ≡ first_of table.now.words args.now work.old }
{
    State {
        frame: Frame::fresh(table.body(0), args, work),
        most: 1,
    }
}

// At most so many nodes by the ends that are known: up to the first that ends the run or needs an end that is not known.
fn known_steps(rules: Rules, store: &mut [u32], work: &mut [u32], s: State, limit: u32) -> Pause
    requires { Fit rules.file.now rules.table.now.words store.old (at_work s work.old) }
    ensures { (result.left ≤ limit) × Reached rules.entry.file.now rules.entry.table.now.words store.old (at_work s work.old) limit result.left store.new (at_work result.state work.new) × (drop 4096 work.new ≡ drop 4096 work.old) }
{
    let mut cur = s;
    let mut left = limit;
    // Counted down by hand: counting up to the limit, calls and arithmetic took a tenth longer.
    while 0 < left {
        match step::<false>(rules, store, work, cur) {
            Some(next) => cur = next,
            None => return Pause { state: cur, left },
        }
        left -= 1;
    }
    Pause { state: cur, left }
}

// At most so many nodes.
fn go(rules: Rules, store: &mut [u32], work: &mut [u32], s: State, limit: u32) -> Ran
    requires { Fit rules.file.now rules.table.now.words store.old (at_work s work.old) }
    ensures { ((f : Fit rules.entry.file.now rules.entry.table.now.words store.old (at_work s work.old)) → answer_of result store.new ≡ run f.file limit f.st 0 s.most) × (drop 4096 work.new ≡ drop 4096 work.old) }
{
    let mut t = known_steps(rules, store, work, s, limit);
    while 0 < t.left {
        let left = t.left - 1;
        match step::<true>(rules, store, work, t.state) {
            Some(next) => t = known_steps(rules, store, work, next, left),
            None => {
                let end = ending(rules.file, work, t.state);
                return Ran {
                    end,
                    place: place(end, t.state) as u32,
                    steps: limit - left,
                    frames: t.state.most as u32,
                };
            }
        }
    }
    Ran {
        end: RunEnd::BudgetSpent,
        place: t.state.frame.at as u32,
        steps: limit,
        frames: t.state.most as u32,
    }
}

// At most so many nodes of function 0.
pub(crate) fn execute(
    rules: Rules,
    args: &[u32],
    store: &mut [u32],
    work: &mut [u32],
    limit: u32,
) -> Ran
    requires { Begun rules.file.now rules.table.now.words args.now store.old work.old }
    ensures { ((b : Begun rules.entry.file.now rules.entry.table.now.words args.now store.old work.old) → answer_of result store.new ≡ run b.file limit (begins b.file args.now store.old) 0 1) × (drop 4096 work.new ≡ drop 4096 work.old) }
{
    let s = first_state(rules.table, args, work);
    go(rules, store, work, s, limit)
}
