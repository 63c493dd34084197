// A frame of the machine, the cells of the lent store, the layout of the lent work area, the state of a run, and a frame's slots in the work area.
// Copying takes from where, to where and how many: so many parameters.
ghost use Rattle.std.specs.Prelude.{◌≡◌, ◌+◌, ◌/◌, ◌<◌, ◌≤◌, true, length, replicate};
ghost use Rattle.standing.specs.Bytes.{byte_at};
ghost use Rattle.machine.specs.Layout.{slot_in, on, at_work, moved, bound, laid, gathered, words, Rising, Apart};

// The top frame: the place of its term, the frames below it, and its slots that are bound.
#[derive(Clone, Copy)]
pub struct Frame {
    pub at: usize,
    pub depth: usize,
    pub bound: usize,
}

impl Frame {
    // A frame's base is its depth times this, one product, worked out where it is needed.
    pub const SLOTS: usize = 32;

    pub const MAX: usize = 32;

    // The first frame at a term, with no slots.
    fn empty(at: usize) -> Frame
        ensures { (result.at ≡ at) × (result.depth ≡ 0) × (result.bound ≡ 0) }
    {
        Frame {
            at,
            depth: 0,
            bound: 0,
        }
    }

    // The first frame with fresh slots: the words given.
    pub(crate) fn fresh(at: usize, args: &[u32], work: &mut [u32]) -> Frame
        requires { (length args.now ≤ 32) × (32 ≤ length work.old) }
        ensures { (result.at ≡ at) × (result.depth ≡ 0) × (result.bound ≡ length args.now) × (work.new ≡ laid work.old 0 args.now) }
    {
        load(args, work, 0, Work::SLOTS, args.len());
        Frame {
            bound: args.len(),
            ..Frame::empty(at)
        }
    }
}

// The lent store, by its count of cells: at most CELLS, of CELL words each. A word from FIRST on names a cell; a word below NUMBERS is a number.
#[derive(Clone, Copy)]
pub struct Store {
    pub cells: usize,
}

impl Store {
    pub const CELLS: usize = 1024;

    pub const CELL: usize = 5;

    pub const FIRST: u32 = 65536;

    pub const NUMBERS: u32 = 65536;

    // The store of so many words: the whole cells in them.
    pub(crate) fn of(words: usize) -> Store
        ensures { result.cells ≡ words / 5 }
    {
        Store {
            cells: words / Store::CELL,
        }
    }
}

// The layout of the lent work area's first WORDS words.
// In the start check the namings of each cell are counted from FIRST_WALK on, and by the second walk from SECOND_WALK on; the cells that a walk
// has queued lie QUEUE words behind its counts.
// In the steps slot i of frame d lies at SLOTS + 32 * d + i; the place where frame d goes on at SAVED + 2 * d, and behind it its count of slots;
// the end of the term at p, once it was passed over, at ENDS + p / APART, as p * PLACE + its end.
#[derive(Clone, Copy)]
pub struct Work {}

impl Work {
    pub const WORDS: usize = 4096;

    pub const FIRST_WALK: usize = 0;

    pub const QUEUE: usize = Store::CELLS;

    pub const SECOND_WALK: usize = 2 * Store::CELLS;

    pub const SLOTS: usize = 0;

    pub const SAVED: usize = Frame::MAX * Frame::SLOTS;

    pub const ENDS: usize = Work::SAVED + 2 * Frame::MAX;

    pub const APART: usize = 2;

    pub const PLACE: usize = 8192;
}

// The state of a run that goes on: the top frame, and the greatest number of frames so far.
#[derive(Clone, Copy)]
pub struct State {
    pub frame: Frame,
    pub most: usize,
}

// The byte at a place.
// Not standing's byte_at, which tests its bound: with it a step took three to five times as long.
pub(crate) fn byte(file: &[u8], at: usize) -> usize
    requires { at < length file.now }
    ensures { (result ≡ byte_at file.now at) × (result < 256) }
{
    usize::from(file[at])
}

// The word of the slot that a byte names.
pub(crate) fn slot(file: &[u8], work: &[u32], base: usize, at: usize) -> u32
    requires { (at < length file.now) × (base + 256 ≤ length work.now) }
    ensures { result ≡ slot_in file.now work.now base at }
{
    let i = byte(file, at);
    work[base + i]
}

// The state at another term, with the same slots.
pub(crate) fn go_to(s: State, at: usize) -> State
    ensures { on result ≡ moved (on s) at }
{
    State {
        frame: Frame { at, ..s.frame },
        ..s
    }
}

// A word bound to the next slot, and the term that follows.
pub(crate) fn bind(work: &mut [u32], s: State, v: u32, next: usize) -> State
    requires { (s.frame.depth ≤ 31) × (s.frame.bound < 32) × (1024 ≤ length work.old) }
    ensures { at_work result work.new ≡ bound (at_work s work.old) v next }
{
    work[s.frame.depth * Frame::SLOTS + s.frame.bound] = v;
    State {
        frame: Frame {
            at: next,
            bound: s.frame.bound + 1,
            ..s.frame
        },
        ..s
    }
}

// The words of n slots that are named from a place on, at most eight: the array's end is no slot's.
pub(crate) fn gather(file: &[u8], work: &[u32], base: usize, at: usize, n: usize) -> [u32; 8]
    requires { (at + n ≤ length file.now) × (base + 256 ≤ length work.now) × (n ≤ 8) }
    ensures { result ≡ laid (replicate 8 0) 0 (gathered file.now work.now base at n) }
{
    let mut out = [0u32; 8];
    fill(file, &mut out, work, base, at, 0, n);
    out
}

// The words of n slots, laid one by one; none is laid over before it is read. `fill` is the same between two areas; here it is one.
pub(crate) fn hand_over(file: &[u8], work: &mut [u32], base: usize, at: usize, to: usize, n: usize)
    requires { (at + n ≤ length file.now) × (base + 256 ≤ length work.old) × (to + n ≤ length work.old) × Apart file.now base at to n }
    ensures { work.new ≡ laid work.old to (gathered file.now work.old base at n) }
{
    for j in 0..n {
        let v = slot(file, work, base, at + j);
        work[to + j] = v;
    }
}

// Whether no slot that is named from a place on stands before its turn.
pub(crate) fn rising(file: &[u8], at: usize, n: usize) -> bool
    requires { at + n ≤ length file.now }
    ensures { result ≡ true → Rising file.now at n }
{
    for j in 1..n {
        if byte(file, at + j) < j {
            return false;
        }
    }
    true
}

// The words of n slots, laid as the first slots of the same frame; two without a loop.
pub(crate) fn pass_on(file: &[u8], work: &mut [u32], base: usize, at: usize, n: usize)
    requires { (at + n ≤ length file.now) × (base + 256 ≤ length work.old) × (n ≤ 8) }
    ensures { work.new ≡ laid work.old base (gathered file.now work.old base at n) }
{
    if n == 2 {
        let first = slot(file, work, base, at);
        let second = slot(file, work, base, at + 1);
        work[base] = first;
        work[base + 1] = second;
        return;
    }
    let in_place = rising(file, at, n);
    if in_place {
        hand_over(file, work, base, at, base, n);
        return;
    }
    let values = gather(file, work, base, at, n);
    work[base..base + n].copy_from_slice(&values[..n]);
}

// The words of a slice from a place on, laid in the work area; two, the commonest, without a loop. By copy_from_slice, a call within the loop of the
// steps, a step took three to six times as long.
pub(crate) fn load(from: &[u32], work: &mut [u32], p: usize, to: usize, k: usize)
    requires { (p + k ≤ length from.now) × (to + k ≤ length work.old) }
    ensures { work.new ≡ laid work.old to (words from.now p k) }
{
    if k == 2 {
        work[to] = from[p];
        work[to + 1] = from[p + 1];
        return;
    }
    for j in 0..k {
        work[to + j] = from[p + j];
    }
}

// The words of k slots, laid in another place than the work area; two without a loop.
pub(crate) fn fill(
    file: &[u8],
    store: &mut [u32],
    work: &[u32],
    base: usize,
    at: usize,
    p: usize,
    k: usize,
)
    requires { (at + k ≤ length file.now) × (base + 256 ≤ length work.now) × (p + k ≤ length store.old) }
    ensures { store.new ≡ laid store.old p (gathered file.now work.now base at k) }
{
    if k == 2 {
        store[p] = slot(file, work, base, at);
        store[p + 1] = slot(file, work, base, at + 1);
        return;
    }
    for j in 0..k {
        store[p + j] = slot(file, work, base, at + j);
    }
}
