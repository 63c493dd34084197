// Sets of at most 32 members, as the bits of a word: of slots in the ownership check, of functions in the calls.
// A set is the u32 itself, as document 01 has it: the definitions of the ownership check speak of that number (`Taken.spent`), and a type round it
// would be opened and closed at each of its uses.
#![tactic(auto, using(crate::proofs::sets::Digits::laws))]

ghost use Rattle.std.specs.Prelude.{◌≡◌, true, false, ◌^◌, ◌<◌, ◌≤◌, set, get_or};
ghost use Rattle.std.specs.Int.Bits.{bit_or};
ghost use Rattle.meaning.specs.Sets.{first, how_many, zip, or, except};
ghost use Rattle.checker.specs.Bits.{bits_of};

// Is i a member? `sees` (ownership.rt) is its twin over 64 bits.
pub(crate) fn has(x: u32, i: usize) -> bool
    requires { i < 32 }
    ensures { result ≡ get_or (bits_of 32 x) i false }
{
    (x >> (i as u32)) % 2 == 1
}

// One member more. `seeing` (ownership.rt) is its twin over 64 bits.
pub(crate) fn with(x: u32, i: usize) -> u32
    requires { i < 32 }
    ensures { (result ≡ bit_or x (2 ^ i)) × (bits_of 32 result ≡ set (bits_of 32 x) i true) }
{
    x | (1 << (i as u32))
}

// The smallest member, or 32.
pub(crate) fn lowest(x: u32) -> usize
    ensures { (result ≡ first (bits_of 32 x)) × (result ≤ 32) × (0 < x → result < 32) }
{
    u32::trailing_zeros(x) as usize
}

// The smallest member taken out.
pub(crate) fn without_lowest(x: u32) -> u32
    requires { 0 < x }
    ensures { (bits_of 32 result ≡ set (bits_of 32 x) (first (bits_of 32 x)) false) × (result < x) }
{
    x & (x - 1)
}

// How many members a set has.
pub(crate) fn count_of(x: u32) -> u32
    ensures { (result ≡ how_many (bits_of 32 x)) × (result ≤ 32) }
{
    u32::count_ones(x)
}

// The members of both.
pub(crate) fn either(x: u32, y: u32) -> u32
    ensures { bits_of 32 result ≡ zip or (bits_of 32 x) (bits_of 32 y) }
{
    x | y
}

// The members of x that are not in y.
pub(crate) fn except(x: u32, y: u32) -> u32
    ensures { bits_of 32 result ≡ except (bits_of 32 x) (bits_of 32 y) }
{
    (x | y) ^ y
}
