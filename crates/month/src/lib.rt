// The month in numbers: from the answer number, steps and frames of each run, the counts by answer number and four figures.
#![tactic(auto)]

ghost use Rattle.std.specs.Prelude.{◌≡◌, ◌≤◌, ◌%◌, ◌↔◌, Bool, ℕ, map, length, get_or, count_by, IsOk, IfOk, IfErr};
ghost use Rattle.std.specs.Iterator.{ActsAs, ActsAsAt};
ghost use Rattle.month.specs.declared.Run.{Run};
ghost use Rattle.month.specs.Month.{numbers, among, run, runs_of, known, ended, count, counts_of, steps_of, greatest, least, nine_tenths, refusal_number, said, reported, figures, month_of};

use std::error::Error;
use std::fmt;

// The words of a run: its answer number, steps and frames.
const RUN_WORDS: usize = 3;

// The most words of a month: 4,096 runs.
const MOST_WORDS: usize = 4096 * RUN_WORDS;

// The count of answer numbers in the table.
const NUMBER_COUNT: usize = 22;

// The answer numbers of a run in document 01's table.
const NUMBERS: [u32; NUMBER_COUNT] = [
    0, 1, 2, 3, 4, 5, 6, 7, 8, 9, 10, 11, 12, 20, 21, 22, 23, 24, 31, 32, 33, 34,
];

// The figures of a month; `counts` are in the order of the table of answer numbers.
#[derive(Clone, Copy, Debug, PartialEq, Eq)]
pub struct Summary {
    pub counts: [u32; NUMBER_COUNT],
    pub least: u32,
    pub greatest: u32,
    pub most: u32,
    pub frames: u32,
}

// Why a month is refused: over 4,096 runs or a part of one, or an answer number that is not in the table.
#[derive(Clone, Copy, Debug, PartialEq, Eq)]
pub enum Refusal {
    WrongLength = 80,
    UnknownNumber = 81,
}

impl Refusal {
    // The refusal's number.
    pub fn number(self) -> u32
        ensures { result ≡ refusal_number self }
    {
        self as u32
    }
}

impl fmt::Display for Refusal {
    ghost use Rattle.std.specs.Prelude.{Some};
    ghost use Rattle.month.specs.Month.{refusal_text};

    ghost output = { λ r. Some (refusal_text r) };

    fn fmt<W: fmt::Write>(&self, f: &mut fmt::Formatter<W>) -> fmt::Result {
        f.write_str(match self {
            Refusal::WrongLength => "over 4,096 runs, or a part of one",
            Refusal::UnknownNumber => "an answer number not in the table",
        })
    }
}

impl Error for Refusal {}

// The answer number whose count stands at a place of the counts; past the table, 0.
pub fn number_at(i: usize) -> u32
    ensures { result ≡ get_or numbers i 0 }
{
    NUMBERS.get(i).copied().unwrap_or(0)
}

// Is it in the table of answer numbers? `contains` with the contract that a closure needs.
fn in_table(number: u32) -> bool
    ensures { result ≡ among number numbers }
{
    NUMBERS.contains(&number)
}

// One run. Its answer number is a word of the month, as it was kept: it may be none of the table's, which is refused.
#[derive(Clone, Copy)]
struct Run {
    number: u32,
    steps: u32,
    frames: u32,
}

impl Run {
    // The run of three words.
    fn from_words(words: &[u32]) -> Run
        requires { length words.now ≡ 3 }
        ensures { result ≡ run (get_or words.now 0 0) (get_or words.now 1 0) (get_or words.now 2 0) }
    {
        Run {
            number: words[0],
            steps: words[1],
            frames: words[2],
        }
    }
}

// The runs of a month, in words.
#[derive(Clone, Copy)]
struct Runs<'a> {
    words: &'a [u32],
    ghost few: { length words.now ≤ 12288 },
}

impl<'a> Runs<'a> {
    // The runs in words, three a run; refused over 4,096 runs or a part of one.
    fn from_words(words: &'a [u32]) -> Result<Runs<'a>, Refusal>
        ensures found { IfOk result (λ r. r.words.now ≡ words.now) }
        ensures whole { IsOk result ↔ ((length words.now ≤ 12288) × (length words.now % 3 ≡ 0)) }
        ensures refused { IfErr result (λ e. e ≡ Refusal.WrongLength) }
    {
        if words.len() > MOST_WORDS || words.len() % RUN_WORDS != 0 {
            return Err(Refusal::WrongLength);
        }
        Ok(Runs { words })
    }

    // The words of each run, as arrays: of a `for` over these the compiler makes vector code, and of a chain of adapters it doesn't.
    fn triples(&self) -> &'a [[u32; RUN_WORDS]]
        ensures value { map (λ w. run (get_or w 0 0) (get_or w 1 0) (get_or w 2 0)) result.now ≡ runs_of self.now.words.now }
        ensures few { length result.now ≤ 4096 }
    {
        self.words.as_chunks::<RUN_WORDS>().0
    }

    // Is every run's answer number in the table?
    fn all_known(&self) -> bool
        ensures { result ≡ known (runs_of self.now.words.now) }
    {
        self.triples()
            .iter()
            .all(|words| in_table(Run::from_words(words).number))
    }

    // How many runs pass a test.
    fn count<F: FnMut(&Run) -> bool>(&self, mut test: F) -> u32
        requires { (f : F) (x : _) → F.pre f x }
        ensures value { (t : Run → Bool) → ActsAsAt F.FnMut test t → result ≡ count_by t (runs_of self.now.words.now) }
        ensures upper_bound { result ≤ 4096 }
    {
        let mut counted = 0;
        for words in self.triples() {
            counted += u32::from(test(&Run::from_words(words)));
        }
        counted
    }

    // How many runs have the answer number.
    fn count_of(&self, number: u32) -> u32
        ensures { result ≡ count number (runs_of self.now.words.now) }
    {
        self.count(|run| run.number == number)
    }

    // The counts of all answer numbers in the table's order.
    fn counts(&self) -> [u32; NUMBER_COUNT]
        ensures { result ≡ counts_of (runs_of self.now.words.now) }
    {
        NUMBERS.map(|number| self.count_of(number))
    }

    // The greatest of a figure over the runs that ended with 0 (a number: it is a word of the month); with no such run, 0. The others count as 0, so
    // that no run is branched on.
    fn greatest<F: FnMut(Run) -> u32>(&self, mut figure: F) -> u32
        requires { (f : F) (x : _) → F.pre f x }
        ensures { (f : Run → ℕ) → ActsAs F.FnMut figure f → result ≡ greatest (map f (ended (runs_of self.now.words.now))) }
    {
        let mut greatest = 0;
        for words in self.triples() {
            let run = Run::from_words(words);
            greatest = greatest.max(if run.number == 0 { figure(run) } else { 0 });
        }
        greatest
    }

    // The least steps of the runs that ended with 0; with no such run, 0. The others count as the greatest, so that no run is branched on.
    fn least_steps(&self) -> u32
        ensures { result ≡ least (steps_of (runs_of self.now.words.now)) }
    {
        let greatest = self.greatest(|run| run.steps);
        let mut least = greatest;
        for words in self.triples() {
            let run = Run::from_words(words);
            least = least.min(if run.number == 0 { run.steps } else { greatest });
        }
        least
    }

    // The smallest step count that at least nine tenths of the runs that ended with 0 don't exceed, looked for by halves below the greatest.
    fn nine_tenths(&self, top: u32) -> u32
        requires { top ≡ greatest (steps_of (runs_of self.now.words.now)) }
        ensures { result ≡ nine_tenths (steps_of (runs_of self.now.words.now)) }
    {
        let wanted = 9 * self.count(|run| run.number == 0);
        let mut low: u32 = 0;
        let mut high = top;
        while low < high {
            let middle = low + (high - low) / 2;
            // `&`: with `&&` the loop branches on each run.
            let within = self.count(|run| (run.number == 0) & (run.steps <= middle));
            if wanted <= 10 * within {
                high = middle;
            } else {
                low = middle + 1;
            }
        }
        low
    }

    // The figures of runs whose answer numbers are all known.
    fn figures(&self) -> Summary
        ensures { reported result ≡ figures (runs_of self.now.words.now) }
    {
        let greatest = self.greatest(|run| run.steps);
        Summary {
            counts: self.counts(),
            least: self.least_steps(),
            greatest,
            most: self.nine_tenths(greatest),
            frames: self.greatest(|run| run.frames),
        }
    }
}

// The month in numbers, of three words a run: answer number, steps and frames.
pub fn month(runs: &[u32]) -> Result<Summary, Refusal>
    ensures { said result ≡ month_of runs.now }
{
    let runs = Runs::from_words(runs)?;
    if !runs.all_known() {
        return Err(Refusal::UnknownNumber);
    }
    Ok(runs.figures())
}
