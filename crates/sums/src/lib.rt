// AR's operations on two numbers, exact in 64 bits.
#![tactic(auto)]

ghost use Rattle.std.specs.Prelude.{◌≡◌};
ghost use Rattle.sums.specs.Sums.{sum_of};

// What stands for a difference below 0: the least number that is outside 0..65,535.
const OUTSIDE: u64 = 65536;

// The difference of two numbers, or a number over 65,535 where it is below 0.
fn difference(a: u32, b: u32) -> u64
    ensures { result ≡ sum_of 1 a b }
{
    if b <= a { u64::from(a - b) } else { OUTSIDE }
}

// AR's operations: the exact result, or a number over 65,535 where that is outside 0..65,535. What needs no jump is worked out before the
// operation is chosen. The operation is AR's byte as the file has it: an enum would be made from it at each step only to be matched here.
pub fn sum(op: usize, a: u32, b: u32) -> u64
    ensures { result ≡ sum_of op a b }
{
    let minus = difference(a, b);
    let below = u64::from(a < b);
    let equal = u64::from(a == b);
    match op {
        0 => u64::from(a) + u64::from(b),
        1 => minus,
        2 => below,
        _ => equal,
    }
}
