// The ownership check: what a record takes, spends and binds, or its fault. The slots of the path are document 01's array, with the count of those
// bound beside it: lent where a record takes of them, and by value where the checks of terms and branches hand them on.
// Bounds of places and counts stand in each contract: a type for them would be opened at each sum.
ghost use Rattle.std.specs.Prelude.{◌≡◌, false, ◌+◌, ◌*◌, ◌^◌, ◌%◌, ◌<◌, ◌≤◌, get_or, MatchResult};
ghost use Rattle.std.specs.Int.Bits.{bit_or};
ghost use Rattle.meaning.specs.Marks.{place_of};
ghost use Rattle.standing.specs.Bytes.{byte_at, arity_in, fields_in, params_in, modes_in, result_in};
ghost use Rattle.checker.specs.Bits.{bits_of};
ghost use Rattle.checker.specs.Slots.{sort_at, sort_number, digit, mode_of};
ghost use Rattle.checker.specs.Ownership.{fine, as_taken, unbound_at, repeated, take_kind, take_of, bars_of, list_of, close_of, make_of, call_of, give_of, tail_of, pair_of, taken_of, kind_by, bound_of, credits_of, branch_of};

use crate::sets::{has, with};
use crate::slots::{Mode, Sort, Want, current, left_over};
use meaning::{Fault, Kind, Mark, Refusal, Slot};
use standing::{Rules, Table};

// The modes of parameters or fields: where the byte of the first stands, how many they are, and whether the trees of fields are owned.
#[derive(Clone, Copy)]
pub(crate) struct Modes {
    first: usize,
    pub(crate) count: usize,
    owned: bool,
    ghost low: { (first < 16777216) × (count < 256) },
}

impl Modes {
    // The modes of a function's parameters.
    pub(crate) fn of_parameters(table: &Table, f: usize) -> Modes
        ensures { (result.first ≡ modes_in table.now.words f) × (result.count ≡ params_in table.now.words f) × (result.owned ≡ false) }
    {
        Modes {
            first: table.modes(f),
            count: table.parameters(f),
            owned: false,
        }
    }

    // The modes of a constructor's fields, by their sorts.
    pub(crate) fn of_fields(table: &Table, c: usize, owned: bool) -> Modes
        ensures { (result.first ≡ fields_in table.now.words c) × (result.count ≡ arity_in table.now.words c) × (result.owned ≡ owned) }
    {
        Modes {
            first: table.sorts(c),
            count: table.arity(c),
            owned,
        }
    }

    // The mode at an index.
    fn at(self, rules: Rules, j: usize) -> Mode
        requires { j < 256 }
        ensures { result ≡ mode_of (byte_at rules.entry.file.now (self.first + j) * (1 + digit self.owned)) }
    {
        Mode::of(rules.byte(self.first + j), self.owned)
    }
}

// The sort of a function's result.
pub(crate) fn result_sort(rules: Rules, f: usize) -> Sort
    ensures { result ≡ sort_at (result_in rules.entry.file.now rules.entry.table.now.words f) }
{
    Sort::from(rules.result(f))
}

// One slot of a kind, named at a place, on the way through a record.
#[tactic(auto, unfolding(crate::specs::Ownership::take_kind, meaning::specs::Choice::pick))]
fn take_kind(
    kind: Kind,
    i: usize,
    place: usize,
    want: Want,
    barred: bool,
    spent: u32,
) -> Result<u32, Refusal>
    requires { i < 32 }
    ensures { as_taken result ≡ take_kind kind i place want barred spent }
{
    want.test(current(kind, has(spent, i)), barred)
        .map_err(|fault| Refusal { fault, place })?;
    if want.spends() {
        return Ok(with(spent, i));
    }
    Ok(spent)
}

// The slot that is named at a place, if it is bound.
fn named(rules: Rules, at: usize, bound: usize) -> Result<usize, Refusal>
    ensures { MatchResult result (λ i. (i ≡ byte_at rules.entry.file.now at) × (i < bound)) (λ r. (bound ≤ byte_at rules.entry.file.now at) × (r ≡ unbound_at at)) }
{
    let i = rules.byte(at);
    if bound <= i {
        return Err(Refusal {
            fault: Fault::NotBound,
            place: at,
        });
    }
    Ok(i)
}

// The slot that is named at a place.
#[tactic(auto, unfolding(crate::specs::Ownership::take_of, meaning::specs::Choice::pick))]
fn take(
    rules: Rules,
    at: usize,
    want: Want,
    slots: &[Slot; 32],
    bound: usize,
) -> Result<u32, Refusal>
    requires { bound ≤ 32 }
    ensures { as_taken result ≡ take_of slots.now bound (byte_at rules.entry.file.now at) at want false 0 }
{
    let i = named(rules, at, bound)?;
    take_kind(slots[i].kind, i, at, want, false, 0)
}

// Does the slot count as used because it stands earlier in the list? One that is to be spent does.
fn bars(want: Want, earlier: u32, i: usize) -> bool
    requires { i < 32 }
    ensures { result ≡ bars_of want earlier i }
{
    want.spends() && has(earlier, i)
}

// A list of slots, from a place on, for a list of modes; `spent` are the slots that are spent before it.
fn take_list(
    rules: Rules,
    modes: Modes,
    at: usize,
    mut spent: u32,
    slots: &[Slot; 32],
    bound: usize,
) -> Result<u32, Refusal>
    requires { (bound ≤ 32) × (at ≤ 4100) }
    ensures { as_taken result ≡ list_of rules.entry.file.now slots.now bound (1 + digit modes.owned) modes.count modes.first at 0 spent }
{
    let mut earlier: u32 = 0;
    for j in 0..modes.count {
        let i = named(rules, at + j, bound)?;
        let want = modes.at(rules, j).want();
        let barred = bars(want, earlier, i);
        spent = take_kind(slots[i].kind, i, at + j, want, barred, spent)?;
        earlier = with(earlier, i);
    }
    Ok(spent)
}

// MK: the credit, then the fields.
#[tactic(auto, unfolding(crate::specs::Ownership::make_of, crate::specs::Ownership::on_fine, meaning::specs::Choice::pick))]
fn take_make(rules: Rules, at: usize, slots: &[Slot; 32], bound: usize) -> Result<u32, Refusal>
    requires { (bound ≤ 32) × (at ≤ 4096) }
    ensures { as_taken result ≡ make_of rules.entry.file.now rules.entry.table.now.words at slots.now bound }
{
    let fields = Modes::of_fields(rules.table, rules.byte(at + 2), true);
    let spent = take(
        rules,
        at + 3,
        Want::Credit(fields.count as u8),
        slots,
        bound,
    )?;
    take_list(rules, fields, at + 4, spent, slots, bound)
}

// CL: the arguments.
#[tactic(auto, unfolding(crate::specs::Ownership::call_of))]
fn take_call(rules: Rules, at: usize, slots: &[Slot; 32], bound: usize) -> Result<u32, Refusal>
    requires { (bound ≤ 32) × (at ≤ 4096) }
    ensures { as_taken result ≡ call_of rules.entry.file.now rules.entry.table.now.words at slots.now bound }
{
    let parameters = Modes::of_parameters(rules.table, rules.byte(at + 2));
    take_list(rules, parameters, at + 3, 0, slots, bound)
}

// A leaf's record has spent what it takes: nothing is left over.
#[tactic(auto, unfolding(crate::specs::Ownership::close_of, crate::specs::Ownership::on_fine, meaning::specs::Choice::pick))]
fn close(spent: u32, at: usize, slots: &[Slot; 32], bound: usize) -> Result<u32, Refusal>
    requires { bound ≤ 32 }
    ensures { as_taken result ≡ close_of (fine spent) at slots.now bound }
{
    if left_over(slots, bound, spent) {
        return Err(Refusal {
            fault: Fault::LeftOver,
            place: at,
        });
    }
    Ok(0)
}

// GV: the value.
#[tactic(auto, using(crate::proofs::ownership::Turns::given_want), unfolding(crate::specs::Ownership::give_of, crate::specs::Ownership::close_of, crate::specs::Ownership::on_fine, meaning::specs::Choice::pick))]
fn take_give(
    rules: Rules,
    at: usize,
    sort: Sort,
    slots: &[Slot; 32],
    bound: usize,
) -> Result<u32, Refusal>
    requires { (bound ≤ 32) × (at ≤ 4096) }
    ensures { as_taken result ≡ give_of rules.entry.file.now at slots.now bound (sort_number sort) }
{
    let spent = take(rules, at + 2, sort.mode().want(), slots, bound)?;
    close(spent, at, slots, bound)
}

// TL: the result's sort, then the arguments.
#[tactic(auto, unfolding(crate::specs::Ownership::tail_of, crate::specs::Ownership::close_of, crate::specs::Ownership::on_fine, crate::specs::Slots::sort_at, meaning::specs::Choice::pick))]
fn take_tail(
    rules: Rules,
    at: usize,
    sort: Sort,
    slots: &[Slot; 32],
    bound: usize,
) -> Result<u32, Refusal>
    requires { (bound ≤ 32) × (at ≤ 4096) }
    ensures { as_taken result ≡ tail_of rules.entry.file.now rules.entry.table.now.words at slots.now bound (sort_number sort) }
{
    if result_sort(rules, rules.byte(at + 2)) != sort {
        return Err(Refusal {
            fault: Fault::WrongKind,
            place: at + 2,
        });
    }
    let spent = take_call(rules, at, slots, bound)?;
    close(spent, at, slots, bound)
}

// AR: the two numbers.
#[tactic(auto, unfolding(crate::specs::Ownership::pair_of, crate::specs::Ownership::on_fine, meaning::specs::Choice::pick))]
fn take_pair(rules: Rules, at: usize, slots: &[Slot; 32], bound: usize) -> Result<u32, Refusal>
    requires { (bound ≤ 32) × (at ≤ 4096) }
    ensures { as_taken result ≡ pair_of rules.entry.file.now at slots.now bound }
{
    take(rules, at + 3, Want::Number, slots, bound)?;
    take(rules, at + 4, Want::Number, slots, bound)
}

// What the record of a node takes: its slots, and where the path ends, that nothing is left over.
#[tactic(auto, unfolding(crate::specs::Ownership::taken_of, meaning::specs::Choice::pick))]
pub(crate) fn take_record(
    rules: Rules,
    at: usize,
    mark: Mark,
    sort: Sort,
    slots: &[Slot; 32],
    bound: usize,
) -> Result<u32, Refusal>
    requires { (bound ≤ 32) × (at ≤ 4096) }
    ensures { as_taken result ≡ taken_of rules.entry.file.now rules.entry.table.now.words at slots.now bound (place_of mark) (sort_number sort) }
{
    match mark {
        Mark::GV => take_give(rules, at, sort, slots, bound),
        Mark::MK => take_make(rules, at, slots, bound),
        Mark::CL => take_call(rules, at, slots, bound),
        Mark::TL => take_tail(rules, at, sort, slots, bound),
        Mark::OP => take(rules, at + 2, Want::Owned, slots, bound),
        Mark::LK => take(rules, at + 2, Want::Looked, slots, bound),
        Mark::AR => take_pair(rules, at, slots, bound),
        Mark::IF => take(rules, at + 2, Want::Number, slots, bound),
        _ => Ok(0),
    }
}

// The kind of slot that a node binds, if it binds one.
#[tactic(auto, using(crate::proofs::ownership::Turns::given_is), unfolding(crate::specs::Ownership::kind_by, meaning::specs::Choice::pick))]
pub(crate) fn bound_kind(rules: Rules, at: usize, mark: Mark) -> Kind
    requires { at ≤ 4096 }
    ensures { result ≡ kind_by rules.entry.file.now rules.entry.table.now.words at (place_of mark) }
{
    match mark {
        Mark::CL => result_sort(rules, rules.byte(at + 2)).mode().kind(),
        Mark::NU | Mark::AR => Kind::Number,
        _ => Kind::Owned,
    }
}

// Slots bound one after the other by the record at a place, for a list of modes, and behind them, where there is a credit, one of as many fields.
pub(crate) fn bind_all(
    rules: Rules,
    modes: Modes,
    at: usize,
    mut slots: [Slot; 32],
    bound: usize,
    credit: bool,
) -> [Slot; 32]
    requires { (bound + modes.count + digit credit ≤ 32) × (at ≤ 4096) }
    ensures { result ≡ bound_of rules.entry.file.now (1 + digit modes.owned) at modes.count modes.first bound slots (digit credit) }
{
    let place = at as u16;
    for j in 0..modes.count {
        let kind = modes.at(rules, j).kind();
        slots[bound + j] = Slot { kind, place };
    }
    if credit {
        let kind = Kind::Credit(modes.count as u8);
        slots[bound + modes.count] = Slot { kind, place };
    }
    slots
}

// The slots that a branch starts from. OP's fields are owned, with a credit unless there are none.
#[tactic(auto, unfolding(crate::specs::Ownership::branch_of, crate::specs::Ownership::credits_of, meaning::specs::Choice::pick))]
pub(crate) fn branch_slots(
    rules: Rules,
    c: usize,
    at: usize,
    credit: bool,
    slots: [Slot; 32],
    bound: usize,
) -> [Slot; 32]
    requires { (at ≤ 4096) × (bound + arity_in rules.table.now.words c + credits_of (arity_in rules.table.now.words c) (digit credit) ≤ 32) }
    ensures { result ≡ branch_of rules.entry.file.now rules.entry.table.now.words c at (digit credit) slots bound }
{
    let fields = Modes::of_fields(rules.table, c, credit);
    let credit = credit && fields.count != 0;
    bind_all(rules, fields, at, slots, bound, credit)
}

// Is the constructor in the set? A trait over this width and that of sets.rt would hold the same two bodies for each; by way of this one, `has` would
// need that the low digits are the same, and `with` a cast back.
#[tactic(auto, using(crate::proofs::sets::Digits::has_bit))]
pub(crate) fn sees(seen: u64, c: usize) -> bool
    requires { c < 64 }
    ensures { result ≡ get_or (bits_of 64 seen) c false }
{
    (seen >> (c as u64)) % 2 == 1
}

// The fault of a constructor that has a second branch: that it is in the set.
#[tactic(auto, unfolding(crate::specs::Ownership::repeated, meaning::specs::Choice::pick))]
pub(crate) fn repeats(seen: u64, c: usize, place: usize) -> Option<Refusal>
    requires { c < 64 }
    ensures { result ≡ repeated seen c place }
{
    sees(seen, c).then_some(Refusal {
        fault: Fault::ConstructorTwice,
        place,
    })
}

// The set with the constructor; see `sees`.
pub(crate) fn seeing(seen: u64, c: usize) -> u64
    requires { c < 64 }
    ensures { result ≡ bit_or seen (2 ^ c) }
{
    seen | (1 << (c as u64))
}

// The place of a function's mark, by that of its first mode.
pub(crate) fn head(table: &Table, f: usize) -> usize
    requires { 3 ≤ modes_in table.now.words f }
    ensures { result + 3 ≡ modes_in table.now.words f }
{
    table.modes(f) - 3
}
