// `base_check` and `base_run` for programs in other languages: a static library over the library `export`, with the same promises. Slices come as a pointer and a length, arrays as a pointer.
#![tactic(auto)]

ghost use Rattle.std.specs.Prelude.{◌≡◌};
ghost use Rattle.meaning.specs.Answers.{verdict_of, run_of};
ghost use Rattle.export.specs.Words.{verdict_words, Ran};

// Writes the words of a file's verdict.
#[unsafe(no_mangle)]
pub extern "C" fn base_check(file: &[u8], out: &mut [u32; 4])
    ensures { out.new ≡ verdict_words (verdict_of file.now) }
{
    export::base_check(file, out);
}

// Runs a file on arguments over a lent store, in a lent work area, within a budget of steps, and writes the words of the answer.
#[unsafe(no_mangle)]
pub extern "C" fn base_run(
    file: &[u8],
    args: &[u32],
    store: &mut [u32],
    work: &mut [u32],
    budget: u32,
    out: &mut [u32; 5],
)
    ensures { Ran (run_of file.now args.now store.old work.old budget) out.new store.new work.new }
{
    export::base_run(file, args, store, work, budget, out);
}
