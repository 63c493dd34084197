// The checking program: reads a rule file from standard input, and prints its line.
#![tactic(auto)]

ghost use Rattle.std.specs.Prelude.{OnOk, IfSome};
ghost use Rattle.std.specs.Io.KnownBytes.{Appends};
ghost use Rattle.meaning.specs.Lines.{check_line};

use lines::ROOM;
use std::io;
use std::io::{Read, Write};
use streams::Program;

// The checking program: a file is answered with its line.
struct Checking {}

impl Program for Checking {
    ghost line = { λ _. check_line };

    fn lay(&self, file: &[u8], room: &mut [u8; ROOM]) -> usize {
        lines::check_line(file, room)
    }
}

// Reads a rule file to its end, and writes its line. A file over 4,096 bytes is refused by 1 whatever its bytes are: so what does not fit the buffer is not missed.
fn answer<R: Read, W: Write>(input: &mut R, output: &mut W) -> io::Result<()>
    ensures { OnOk result (IfSome (R.remaining input.old) (λ file. Appends (W.contents output.old) (W.contents output.new) (check_line file))) }
{
    streams::answer(input, output, &Checking {})
}

fn main(rt: HostRuntime) -> io::Result<()> {
    answer(&mut rt.stdin(), &mut rt.stdout())
}
