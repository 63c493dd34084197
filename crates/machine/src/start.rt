// The start of a run: its arguments are tested, and each cell that they reach, before a step is made.
ghost use Rattle.std.specs.Prelude.{◌≡◌, ◌+◌, ◌-◌, ◌/◌, ◌<◌, ◌≤◌, ◌==◌, length, slice_index};
ghost use Rattle.meaning.specs.Syntax.{File};
ghost use Rattle.standing.specs.Table.{Declared};
ghost use Rattle.machine.specs.StartWords.{Coded, bit_at, code_from, number_fine, numbers_fine, cell_fine, word_fine, mode_byte, mode_at, number_arg, all_from};
ghost use Rattle.machine.specs.StartArea.{area, bump, goal_of, cleared, used_once, Passed, Meant};
ghost use Rattle.meaning.specs.Answers.{wiped};

use crate::frame::{Store, Work};
use meaning::{CONSTRUCTORS, Fault};
use standing::{Rules, Table, byte_at};

// How a function takes an argument: the byte that says so. The checker's Mode (slots.rt) is also a field's, with methods over its own types.
#[derive(Clone, Copy, Debug, PartialEq, Eq)]
enum Mode {
    Number = 0,
    Lent = 1,
    Owned = 2,
}

// A field of a constructor, by its word in the table: 1 a tree, 16 a number, 0 past the arity; a code is
// summed from these. The word is handed in, which the table's methods would look up for each field.
#[tactic(auto, unfolding(crate::specs::StartWords::bit_at, meaning::specs::Choice::pick))]
fn bit_of(file: &[u8], word: u32, i: u32) -> u32
    requires { i < 4 }
    ensures { (result ≡ bit_at file.now word i) × (result ≤ 16) }
{
    if word % 256 <= i {
        return 0;
    }
    if byte_at(file, (word / 256 + i) as usize) == 0 {
        return 16;
    }
    1
}

// A constructor's code: bit i where its field i is a tree, bit 4 + i where it is a number.
#[tactic(auto, unfolding(crate::specs::StartWords::code_from))]
fn code_of(file: &[u8], word: u32) -> u32
    ensures { result ≡ code_from file.now word 4 0 }
{
    bit_of(file, word, 0)
        + 2 * (bit_of(file, word, 1) + 2 * (bit_of(file, word, 2) + 2 * bit_of(file, word, 3)))
}

// The code of each declared constructor, by its number, written into a buffer.
fn codes_of<'a>(rules: Rules, codes: &'a mut [u32; CONSTRUCTORS]) -> &'a [u32]
    ensures { (tree : File) → Declared tree rules.entry.file.now rules.entry.table.now.words → Coded tree result.now }
{
    for i in 0..CONSTRUCTORS {
        let word = rules.table.words[i];
        if word % 256 == Table::NONE {
            return &codes[..i];
        }
        codes[i] = code_of(rules.file, word);
    }
    codes
}

// A word whose bit is not set, or a number.
#[tactic(auto, unfolding(crate::specs::StartWords::number_fine, meaning::specs::Choice::pick))]
fn number_fine(bits: u32, w: u32) -> bool
    ensures { result ≡ number_fine bits w }
{
    bits % 2 == 0 || w < Store::NUMBERS
}

// Of four words from a place on, those whose bit is set are numbers. `name_fields` goes along a cell's words likewise, but changes the walk: one
// function for both would need a closure over it, as long as the loop.
fn numbers_in(store: &[u32], at: usize, bits: u32) -> bool
    requires { at + 4 ≤ length store.now }
    ensures { result ≡ numbers_fine store.now 4 bits at }
{
    let mut rest = bits;
    for w in &store[at..at + 4] {
        if rest == 0 {
            break;
        }
        if !number_fine(rest, *w) {
            return false;
        }
        rest /= 2;
    }
    true
}

// The n words from a place on are zero.
pub(crate) fn clear(work: &mut [u32], base: usize, n: usize)
    requires { base + n ≤ length work.old }
    ensures { work.new ≡ cleared base n work.old }
{
    work[base..base + n].fill(0);
}

// Every word of the layout is zero, and the rest is untouched.
pub(crate) fn wipe(work: &mut [u32])
    requires { 4096 ≤ length work.old }
    ensures { work.new ≡ wiped 4096 work.old }
{
    work[..Work::WORDS].fill(0);
}

// What a start is tested on: the file with the table of its declarations, and the arguments of its first function.
#[derive(Clone, Copy)]
struct Start<'a> {
    rules: Rules<'a>,
    args: &'a [u32],
    ghost few: { length args.now ≤ 255 },
}

impl<'a> Start<'a> {
    // The first function takes an argument so.
    fn takes(&self, i: usize, mode: Mode) -> bool
        requires { i < length self.now.args.now }
        ensures { result ≡ (mode_at self.now.rules.file.now self.now.rules.table.now.words i == mode_byte mode) }
    {
        self.rules.byte(self.rules.table.modes(0) + i) == mode as usize
    }

    // An argument of another mode, or a number.
    #[tactic(auto, unfolding(crate::specs::StartWords::number_arg, meaning::specs::Choice::pick))]
    fn number_arg(&self, i: usize) -> bool
        requires { i < length self.now.args.now }
        ensures { result ≡ number_arg (mode_at self.now.rules.file.now self.now.rules.table.now.words i) (slice_index self.now.args.now i) }
    {
        !self.takes(i, Mode::Number) || self.args[i] < Store::NUMBERS
    }

    // Every number argument is a number.
    fn numbers_fine(&self) -> bool
        ensures { result ≡ all_from (λ i. number_arg (mode_at self.now.rules.file.now self.now.rules.table.now.words i) (slice_index self.now.args.now i)) (length self.now.args.now) 0 }
    {
        for i in 0..self.args.len() {
            if !self.number_arg(i) {
                return false;
            }
        }
        true
    }
}

// A walk over the cells of a store, by the codes of the constructors: the place of its counts in the work area, and how many cells it has queued.
#[derive(Drop)]
struct Walk<'a> {
    codes: &'a [u32],
    store: &'a [u32],
    work: &'a mut [u32],
    base: usize,
    tail: usize,
    ghost fits: { (length store.now ≤ 5120) × (4096 ≤ length work.now) × (base ≤ 2048) × (tail ≤ 1024) },
}

impl<'a> Walk<'a> {
    ghost use Rattle.machine.specs.StartWalk.{area_of, Kept, Names, NamesField, NamesFields, Expands, Drains, NamesArg, NamesArgs, Reaches, Frees};

    // A walk begins: no naming of a cell of the store is counted, and none is queued.
    #[tactic(auto, using(crate::proofs::start::Cleared::wiped_cleared))]
    fn begin(&mut self, base: usize)
        requires { base ≤ 2048 }
        ensures kept { Kept self.old self.new }
        ensures base { self.new.base ≡ base }
        ensures begun { area_of self.new ≡ area (cleared base (length self.old.store.now / 5) self.old.work.now) 0 }
    {
        clear(self.work, base, Store::of(self.store.len()).cells);
        self.base = base;
        self.tail = 0;
    }

    // A cell in the store, of a constructor of arity 1 or more, whose number fields are numbers.
    #[tactic(auto, unfolding(crate::specs::StartWords::cell_fine, meaning::specs::Choice::pick))]
    fn cell_fine(&self, c: usize) -> bool
        requires { c < 4294967296 }
        ensures { result ≡ cell_fine self.now.codes.now self.now.store.now c }
    {
        let at = Store::CELL * c;
        if self.store.len() < at + Store::CELL {
            return false;
        }
        match self.codes.get(self.store[at] as usize) {
            None | Some(0) => false,
            Some(code) => numbers_in(self.store, at + 1, code / 16),
        }
    }

    // A tree word that is not malformed.
    #[tactic(auto, unfolding(crate::specs::StartWords::word_fine, meaning::specs::Choice::pick))]
    fn word_fine(&self, w: u32) -> bool
        ensures { result ≡ word_fine self.now.codes.now self.now.store.now w }
    {
        if Store::FIRST <= w {
            return self.cell_fine((w - Store::FIRST) as usize);
        }
        self.codes.get(w as usize) == Some(&0)
    }

    // The naming of a cell that queues it: the first in the first walk, and the last, by the first walk's count, in the second.
    #[tactic(auto, unfolding(crate::specs::StartArea::goal_of, meaning::specs::Choice::pick))]
    fn goal(&self, c: usize) -> u32
        requires { c < 1024 }
        ensures { result ≡ goal_of self.now.base self.now.work.now c }
    {
        if self.base == Work::FIRST_WALK {
            return 1;
        }
        self.work[c]
    }

    // One more naming of a cell; a cell that is queued makes the queue longer by one.
    #[tactic(auto, using(crate::proofs::start::Cleared::wiped_set), unfolding(crate::specs::StartArea::bump_to, crate::specs::StartArea::counted, meaning::specs::Choice::pick))]
    fn bump(&mut self, c: usize)
        requires { c < 1024 }
        ensures kept { Kept self.old self.new }
        ensures base { self.new.base ≡ self.old.base }
        ensures bumped { area_of self.new ≡ bump self.old.base (area_of self.old) c }
    {
        let goal = self.goal(c);
        let count = self.work[self.base + c].wrapping_add(1);
        self.work[self.base + c] = count;
        if count != goal || Store::CELLS <= self.tail {
            return;
        }
        self.work[self.base + Work::QUEUE + self.tail] = c as u32;
        self.tail += 1;
    }

    // The cell that a word names, if it names one.
    #[inline(always)]
    #[tactic(auto, using(crate::proofs::start::Fine::word_small), unfolding(crate::specs::StartArea::name_at, meaning::specs::Choice::pick))]
    fn name(&mut self, w: u32) -> Result<(), Fault>
        ensures { Names self.old self.new result w }
    {
        if !self.word_fine(w) {
            return Err(Fault::Malformed);
        }
        if Store::FIRST <= w {
            self.bump((w - Store::FIRST) as usize);
        }
        Ok(())
    }

    // The cell that a word names, if its bit is set.
    #[tactic(auto, unfolding(crate::specs::StartWords::field_fine, crate::specs::StartArea::field_at, meaning::specs::Choice::pick))]
    fn name_field(&mut self, bits: u32, w: u32) -> Result<(), Fault>
        ensures { NamesField self.old self.new result bits w }
    {
        if bits % 2 == 1 {
            return self.name(w);
        }
        Ok(())
    }

    // Of four words from a place on, the cells that those name whose bit is set; see `numbers_in`.
    fn name_fields(&mut self, at: usize, bits: u32) -> Result<(), Fault>
        requires { at + 4 ≤ length self.old.store.now }
        ensures { NamesFields self.old self.new result at bits }
    {
        let words = &self.store[at..at + 4];
        let mut rest = bits;
        for w in words {
            if rest == 0 {
                break;
            }
            self.name_field(rest, *w)?;
            rest /= 2;
        }
        Ok(())
    }

    // The cells that a cell names.
    #[tactic(auto, unfolding(crate::specs::StartWords::inside_fine, crate::specs::StartArea::expand_at, meaning::specs::Choice::pick))]
    fn expand(&mut self, c: usize) -> Result<(), Fault>
        requires { c < 4294967296 }
        ensures { Expands self.old self.new result c }
    {
        let at = Store::CELL * c;
        if self.store.len() < at + Store::CELL {
            return Ok(());
        }
        match self.codes.get(self.store[at] as usize) {
            None => Ok(()),
            Some(code) => self.name_fields(at + 1, code % 16),
        }
    }

    // Cells are expanded in the order in which they were queued, from one on.
    fn drain(&mut self, from: usize) -> Result<(), Fault>
        ensures { Drains self.old self.new result from }
    {
        for head in from..Store::CELLS {
            if self.tail <= head {
                return Ok(());
            }
            let c = self.work[self.base + Work::QUEUE + head];
            self.expand(c as usize)?;
        }
        Ok(())
    }

    // The cell that an argument names, if it is of a mode.
    #[tactic(auto, unfolding(crate::specs::StartWords::tree_arg, crate::specs::StartArea::arg_at, meaning::specs::Choice::pick))]
    fn name_arg(&mut self, start: &Start, mode: Mode, i: usize) -> Result<(), Fault>
        requires { i < length start.now.args.now }
        ensures { NamesArg start.now self.old self.new result mode i }
    {
        if start.takes(i, mode) {
            return self.name(start.args[i]);
        }
        Ok(())
    }

    // The cells that the arguments of a mode name.
    fn name_args(&mut self, start: &Start, mode: Mode) -> Result<(), Fault>
        ensures { NamesArgs start.now self.old self.new result mode }
    {
        for i in 0..start.args.len() {
            self.name_arg(start, mode, i)?;
        }
        Ok(())
    }

    // The further cells that the arguments of a mode reach.
    fn reach(&mut self, start: &Start, mode: Mode) -> Result<(), Fault>
        ensures { Reaches start.now self.old self.new result mode }
    {
        let from = self.tail;
        self.name_args(start, mode)?;
        self.drain(from)
    }

    // The second walk, over the cells that no cycle holds back: each is queued at its last naming.
    fn free(&mut self, start: &Start) -> Result<(), Fault>
        ensures { Frees start.now self.old self.new result }
    {
        self.begin(Work::SECOND_WALK);
        self.name_args(start, Mode::Owned)?;
        self.name_args(start, Mode::Lent)?;
        self.drain(0)
    }

    // A cell is one of the store's, and has been named once.
    #[tactic(auto, unfolding(crate::specs::StartArea::used_once, meaning::specs::Choice::pick))]
    fn named_once(&self, c: usize) -> bool
        ensures { result ≡ used_once self.now.work.now c }
    {
        c < Store::CELLS && self.work[c] <= 1
    }

    // None of the queued cells from one on, up to another, has been named twice.
    fn used_once(&self, from: usize, to: usize) -> bool
        requires { to ≤ 1024 }
        ensures { result ≡ all_from (λ i. used_once self.now.work.now (slice_index self.now.work.now (1024 + i))) (to - from) from }
    {
        for i in from..to {
            if !self.named_once(self.work[Work::QUEUE + i] as usize) {
                return false;
            }
        }
        true
    }

    // The start's fault, if it has one.
    fn fault(&mut self, start: &Start) -> Result<(), Fault>
        requires passed { Passed start.now.rules.file.now start.now.rules.table.now.words start.now.args.now self.old.store.now self.old.work.now }
        requires coded { (tree : File) → Declared tree start.now.rules.file.now start.now.rules.table.now.words → Coded tree self.old.codes.now }
        ensures meant { Meant start.now.rules.file.now start.now.rules.table.now.words start.now.args.now self.old.store.now self.old.work.now result }
        ensures kept { Kept self.old self.new }
    {
        if !start.numbers_fine() {
            return Err(Fault::Malformed);
        }
        self.begin(Work::FIRST_WALK);
        self.reach(start, Mode::Owned)?;
        let owned = self.tail;
        self.reach(start, Mode::Lent)?;
        let all = self.tail;
        if !self.used_once(0, owned) {
            return Err(Fault::NamedTwice);
        }
        if self.used_once(owned, all) {
            return Ok(());
        }
        self.free(start)?;
        if self.tail < all {
            return Err(Fault::ReachesItself);
        }
        Ok(())
    }
}

// The start's fault, if it has one; only the first 4,096 words of the work area are changed.
pub(crate) fn start_answer(
    rules: Rules,
    args: &[u32],
    store: &[u32],
    work: &mut [u32],
) -> Result<(), Fault>
    requires { Passed rules.file.now rules.table.now.words args.now store.now work.old }
    ensures meant { Meant rules.entry.file.now rules.entry.table.now.words args.now store.now work.old result }
    ensures behind { wiped 4096 work.new ≡ wiped 4096 work.old }
{
    let mut codes = [0; CONSTRUCTORS];
    let mut walk = Walk {
        codes: codes_of(rules, &mut codes),
        store,
        work,
        base: Work::FIRST_WALK,
        tail: 0,
    };
    walk.fault(&Start { rules, args })
}
