// Which function calls which and how, as a square, and the verdict that follows from it: flat with its depth, or stacked.
ghost use Rattle.std.specs.Prelude.{◌≡◌, ◌<◌, ◌≤◌};
ghost use Rattle.meaning.specs.Outcome.{ok};
ghost use Rattle.meaning.specs.Calls.{row, reach, through, best, relax, rounds, settle, judge};
ghost use Rattle.meaning.specs.Answers.{told, as_shape};
ghost use Rattle.checker.specs.Bits.{bits_of};
ghost use Rattle.checker.specs.Square.{way_of, row_of, square_of, Low};

use crate::ownership::sees;
use crate::sets::{count_of, either, except, has, lowest, with, without_lowest};
use meaning::{How, Shape};
use std::array;

// ---- the square

// How a body calls a function, by what is noted of its calls: a call that waits wins over a tail call.
#[tactic(auto, unfolding(crate::specs::Square::way_of, meaning::specs::Choice::pick))]
fn way(calls: u64, g: usize) -> How
    requires { g < 32 }
    ensures { result ≡ way_of calls g }
{
    if sees(calls, g) {
        How::Waits
    } else if sees(calls, 32 + g) {
        How::Tail
    } else {
        How::Never
    }
}

// A function's row.
fn row_of(calls: u64) -> [How; 32]
    ensures { result ≡ row_of calls }
{
    array::from_fn(|g| way(calls, g))
}

// The square of the calls of all bodies.
fn square_of(calls: &[u64; 32]) -> [[How; 32]; 32]
    ensures { result ≡ square_of calls.now }
{
    let mut square = [[How::Never; 32]; 32];
    for (f, row) in square.iter_mut().enumerate() {
        if calls[f] != 0 {
            *row = row_of(calls[f]);
        }
    }
    square
}

// ---- the functions reached

// The functions that a function calls.
fn callees(square: &[[How; 32]; 32], f: usize) -> u32
    requires { f < 32 }
    ensures { bits_of 32 result ≡ row square.now f }
{
    let mut out: u32 = 0;
    for (g, how) in square[f].iter().enumerate() {
        if *how != How::Never {
            out = with(out, g);
        }
    }
    out
}

// The functions reached from function 0: trailing zeros pick the next to visit, and 32 visits are enough.
fn reach(square: [[How; 32]; 32]) -> u32
    ensures { bits_of 32 result ≡ reach square }
{
    let mut todo: u32 = 1;
    let mut seen: u32 = 1;
    for _ in 0..u32::BITS {
        if todo == 0 {
            return seen;
        }
        let f = lowest(todo);
        let calls = callees(&square, f);
        todo = either(without_lowest(todo), except(calls, seen));
        seen = either(calls, seen);
    }
    seen
}

// ---- the depth

// The most calls that wait on a walk that begins with an entry's call, where n wait behind it.
fn through(how: How, n: u8) -> u8
    requires { n < 255 }
    ensures { result ≡ through how n }
{
    // Two comparisons: with a match, a check in which all functions are reached took half as long again.
    if how == How::Waits {
        n + 1
    } else if how == How::Tail {
        n
    } else {
        0
    }
}

// The same over all calls of a function, where the table has what waits on walks from each callee.
#[tactic(auto, using(crate::proofs::calls::Rounds::best_more), unfolding(meaning::specs::Calls::best))]
fn best(square: &[[How; 32]; 32], f: usize, table: [u8; 32]) -> u8
    requires { (f < 32) × Low table }
    ensures { result ≡ best 32 square.now f table }
{
    let mut most: u8 = 0;
    for (g, how) in square[f].iter().enumerate() {
        most = most.max(through(*how, table[g]));
    }
    most
}

// A round: the table of walks of one call more, for the functions that are reached.
fn relax(square: [[How; 32]; 32], seen: u32, table: [u8; 32]) -> [u8; 32]
    requires { Low table }
    ensures { result ≡ relax square (bits_of 32 seen) table }
{
    array::from_fn(|f| {
        if has(seen, f) {
            best(&square, f, table)
        } else {
            0
        }
    })
}

// Round by round until one changes nothing; where as many rounds as functions are reached do not settle it, the file is stacked.
fn settle(square: [[How; 32]; 32], seen: u32, reached: u32) -> Shape
    requires { reached ≤ 32 }
    ensures { as_shape result ≡ told (ok (settle square (bits_of 32 seen) reached (rounds reached square (bits_of 32 seen)))) }
{
    let mut table: [u8; 32] = [0; 32];
    for _ in 0..=reached {
        let next = relax(square, seen, table);
        if next == table {
            return Shape::Flat {
                depth: u32::from(table[0]) + 1,
                reached,
            };
        }
        table = next;
    }
    Shape::Stacked { reached }
}

// The verdict on a square.
#[tactic(auto, unfolding(meaning::specs::Calls::judge))]
fn judge(square: [[How; 32]; 32]) -> Shape
    ensures { as_shape result ≡ told (ok (judge square)) }
{
    let seen = reach(square);
    settle(square, seen, count_of(seen))
}

// Flat with its depth, or stacked, and how many functions are reached: by the calls of each body.
pub(crate) fn shape_of(calls: &[u64; 32]) -> Shape
    ensures { as_shape result ≡ told (ok (judge (square_of calls.now))) }
{
    judge(square_of(calls))
}
