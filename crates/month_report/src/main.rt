// The month's program: reads a count of words and the words of a month's runs from standard input, high byte first, and prints the month in numbers.
#![tactic(auto)]

use month::{Refusal, Summary};
use std::io;
use std::io::{Read, Write};
use streams::BUFFER;

// The most words of an input: one run more than a month may have, so that the refusal 80 can show.
const MOST: usize = 12291;

// The words of an input, with their count before them.
const WORDS: usize = 1 + MOST;

// Room for a refusal's line, of at most 46 bytes.
const LINE: usize = 64;

// What an answer number means, as `number_at` gives it, and the end of its line.
fn meaning(number: u32) -> &'static str {
    match number {
        0 => "run done\n",
        1 => "file over 4,096 bytes\n",
        2 => "file ends early\n",
        3 => "a mark not allowed here\n",
        4 => "field out of range\n",
        5 => "a limit passed\n",
        6 => "bytes after the end\n",
        7 => "slot not bound\n",
        8 => "wrong kind of slot\n",
        9 => "slot used\n",
        10 => "credit of another size\n",
        11 => "something left over\n",
        12 => "constructor twice in one branch list\n",
        20 => "store or work area of a wrong size\n",
        21 => "wrong number of arguments\n",
        22 => "an argument or a place is malformed\n",
        23 => "an owned cell is named twice\n",
        24 => "a cell reaches itself\n",
        31 => "no branch fits\n",
        32 => "budget spent\n",
        33 => "no frame left\n",
        34 => "a sum or a difference outside 0..65,535\n",
        _ => "\n",
    }
}

// Prints a count of at most four digits in four columns. Each blank is a write of its own, as each part of a line is.
fn say_right<W: Write>(output: &mut W, count: u32) -> io::Result<()> {
    for bound in [1000, 100, 10] {
        if count < bound {
            write!(output, " ")?;
        }
    }
    write!(output, "{count}")
}

// Prints a line for each answer number that occurs.
fn say_counts<W: Write>(output: &mut W, counts: &[u32]) -> io::Result<()> {
    for (i, &count) in counts.iter().enumerate() {
        if count > 0 {
            let number = month::number_at(i);
            let meaning = meaning(number);
            say_right(output, count)?;
            write!(output, "  answer {number}: {meaning}")?;
        }
    }
    Ok(())
}

// Prints the month in numbers.
fn say_summary<W: Write>(output: &mut W, summary: Summary) -> io::Result<()> {
    let Summary {
        counts,
        least,
        greatest,
        most,
        frames,
    } = summary;
    say_counts(output, &counts)?;
    writeln!(output, "over the runs done:")?;
    writeln!(output, "  least steps: {least}")?;
    writeln!(output, "  greatest steps: {greatest}")?;
    writeln!(output, "  steps that nine tenths don't exceed: {most}")?;
    writeln!(output, "  greatest frames: {frames}")
}

// Prints a refusal's line, in one write.
fn say_refusal<W: Write>(output: &mut W, refusal: Refusal) -> io::Result<()> {
    let mut line = [0; LINE];
    let mut rest = &mut line[..];
    writeln!(rest, "refused {}: {refusal}", refusal.number())?;
    let left = rest.len();
    output.write_all(&line[..LINE.saturating_sub(left)])
}

// Prints the month in numbers, or its refusal.
fn say_month<W: Write>(output: &mut W, month: Result<Summary, Refusal>) -> io::Result<()> {
    match month {
        Ok(summary) => say_summary(output, summary),
        Err(refusal) => say_refusal(output, refusal),
    }
}

// Prints the month of an input, or that the input is bad.
fn report<W: Write>(output: &mut W, input: &[u8]) -> io::Result<()> {
    let mut words = [0; WORDS];
    lines::read_words(input, &mut words);
    let count = words[0] as usize;
    if count > MOST || input.len() != 4 + 4 * count {
        return writeln!(output, "bad input");
    }
    say_month(output, month::month(&words[1..1 + count]))
}

// Reads an input to its end, and prints its month, in many lines where `streams::answer` lays one. The buffer has more bytes than the longest input, of
// 4 + 4 * 12,291, and a longer one is bad whatever its bytes are: so what does not fit is not missed.
fn answer<R: Read, W: Write>(input: &mut R, output: &mut W) -> io::Result<()> {
    let mut bytes = [0; BUFFER];
    let n = streams::read_full(input, &mut bytes)?;
    report(output, &bytes[..n])
}

fn main(rt: HostRuntime) -> io::Result<()> {
    answer(&mut rt.stdin(), &mut rt.stdout())
}
