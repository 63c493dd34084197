// The slots of a path: what a record may ask of one, and slots spent and bound.
ghost use Rattle.std.specs.Prelude.{◌≡◌, ◌+◌, ◌*◌, ◌≤◌, replicate};
ghost use Rattle.meaning.specs.Ownership.{fits, sized, remains, leftover};
ghost use Rattle.checker.specs.Bits.{bits_of};
ghost use Rattle.checker.specs.Slots.{kind_of, used_in, used_kind, now_kind, want_of, spends_of, test_of, fault_in, sort_at, digit, mode_of, mode_want, mode_kind, given, slots_of, spent_by, unbound};

use crate::sets::has;
use meaning::{Fault, Kind, Slot};

// The sort of a function's result.
#[derive(Clone, Copy, Debug, PartialEq, Eq)]
pub(crate) enum Sort {
    Number,
    Tree,
}

impl From<usize> for Sort {
    ghost from_gives = { λ byte sort. sort ≡ sort_at byte };

    // The sort that a byte says.
    #[tactic(auto, unfolding(crate::specs::Slots::sort_at, meaning::specs::Choice::pick))]
    fn from(byte: usize) -> Sort {
        match byte {
            0 => Sort::Number,
            _ => Sort::Tree,
        }
    }
}

impl Sort {
    // A result is given back, and bound, as a number or as an owned tree.
    pub(crate) fn mode(self) -> Mode
        ensures { result ≡ given self }
    {
        match self {
            Sort::Number => Mode::Number,
            Sort::Tree => Mode::Owned,
        }
    }
}

// How a parameter or a field is handed over: as a number, a lent tree or an owned one. The machine's Mode is an argument's byte alone; what this one
// has are methods over Want and Kind, which in a crate below both would be three functions beside the type.
#[derive(Clone, Copy, Debug, PartialEq, Eq)]
pub(crate) enum Mode {
    Number,
    Lent,
    Owned,
}

impl Mode {
    // The mode that a byte says. A parameter's byte is its mode, and a field's its sort, whose tree is lent, or owned where `owned` is set.
    #[tactic(auto, using(crate::proofs::ownership::Turns::mode_owned), unfolding(crate::specs::Slots::mode_of, meaning::specs::Choice::pick))]
    pub(crate) fn of(byte: usize, owned: bool) -> Mode
        ensures { result ≡ mode_of (byte * (1 + digit owned)) }
    {
        match byte {
            0 => Mode::Number,
            1 if !owned => Mode::Lent,
            _ => Mode::Owned,
        }
    }

    // What is asked of the slot that is handed over.
    pub(crate) fn want(self) -> Want
        ensures { result ≡ mode_want self }
    {
        match self {
            Mode::Number => Want::Number,
            Mode::Lent => Want::Lent,
            Mode::Owned => Want::Owned,
        }
    }

    // The kind of slot that is bound by it.
    pub(crate) fn kind(self) -> Kind
        ensures { result ≡ mode_kind self }
    {
        match self {
            Mode::Number => Kind::Number,
            Mode::Lent => Kind::Lent,
            Mode::Owned => Kind::Owned,
        }
    }
}

// What a record asks of a slot: a number, a lent tree to look at, a tree to lend, an owned tree, or a credit of a size.
#[derive(Clone, Copy, Debug, PartialEq, Eq)]
pub(crate) enum Want {
    Number,
    Looked,
    Lent,
    Owned,
    Credit(u8),
}

impl Want {
    // Is a slot of the kind what is asked for, used or not?
    fn suits(self, kind: Kind) -> bool
        ensures { result ≡ fits (want_of self) (kind_of kind) }
    {
        match self {
            Want::Number => kind == Kind::Number,
            Want::Looked => kind == Kind::Lent,
            Want::Lent => matches!(kind, Kind::Lent | Kind::Owned | Kind::UsedOwned),
            Want::Owned => matches!(kind, Kind::Owned | Kind::UsedOwned),
            Want::Credit(_) => matches!(kind, Kind::Credit(_) | Kind::UsedCredit(_)),
        }
    }

    // Is a credit of the size that is asked for?
    fn right_size(self, kind: Kind) -> bool
        ensures { result ≡ sized (want_of self) (kind_of kind) }
    {
        match (self, kind) {
            (Want::Credit(size), Kind::Credit(held) | Kind::UsedCredit(held)) => size == held,
            _ => true,
        }
    }

    // A slot's test, for its kind, its use and its size in this order. `barred`: it counts as used.
    #[tactic(auto, unfolding(crate::specs::Slots::test_of, meaning::specs::Choice::pick))]
    pub(crate) fn test(self, kind: Kind, barred: bool) -> Result<(), Fault>
        ensures { fault_in result ≡ test_of kind self barred }
    {
        if !self.suits(kind) {
            return Err(Fault::WrongKind);
        }
        if barred || matches!(kind, Kind::UsedOwned | Kind::UsedCredit(_)) {
            return Err(Fault::Used);
        }
        if !self.right_size(kind) {
            return Err(Fault::OtherSize);
        }
        Ok(())
    }

    // Does the slot become used?
    pub(crate) fn spends(self) -> bool
        ensures { result ≡ spends_of self }
    {
        matches!(self, Want::Owned | Want::Credit(_))
    }
}

// A kind after it was spent.
pub(crate) fn used(kind: Kind) -> Kind
    ensures { result ≡ used_kind kind }
{
    match kind {
        Kind::Owned => Kind::UsedOwned,
        Kind::Credit(size) => Kind::UsedCredit(size),
        _ => kind,
    }
}

// A kind as it is now, spent or not.
pub(crate) fn current(kind: Kind, gone: bool) -> Kind
    ensures { result ≡ now_kind gone kind }
{
    if gone { used(kind) } else { kind }
}

// Is it an owned tree or a credit that is not used? A test with a name, since the answer to a condition is one equation.
fn is_left(kind: Kind) -> bool
    ensures { result ≡ remains (record { kind = kind_of kind; used = used_in kind }) }
{
    matches!(kind, Kind::Owned | Kind::Credit(_))
}

// Is an owned slot or a credit left among the bound ones, those of the set spent? Slots and count: see the head of ownership.rt.
pub(crate) fn left_over(slots: &[Slot; 32], bound: usize, spent: u32) -> bool
    requires { bound ≤ 32 }
    ensures { result ≡ leftover (slots_of bound (spent_by (bits_of 32 spent) slots.now)) }
{
    for i in 0..bound {
        let slot = slots[i];
        let kind = current(slot.kind, has(spent, i));
        if is_left(kind) {
            return true;
        }
    }
    false
}

// Slots of which none is bound.
pub(crate) fn fresh_slots() -> [Slot; 32]
    ensures { result ≡ replicate 32 unbound }
{
    [Slot {
        kind: Kind::Number,
        place: 0,
    }; 32]
}
