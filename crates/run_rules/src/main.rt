// The running program: reads a request from standard input, and prints its line.
#![tactic(auto)]

ghost use Rattle.std.specs.Prelude.{OnOk, IfSome};
ghost use Rattle.std.specs.Io.KnownBytes.{Appends};
ghost use Rattle.meaning.specs.Lines.{run_line};

use lines::ROOM;
use std::io;
use std::io::{Read, Write};
use streams::Program;

// The running program: a request is answered with the line of its run.
struct Running {}

impl Program for Running {
    ghost line = { λ _. run_line };

    fn lay(&self, request: &[u8], room: &mut [u8; ROOM]) -> usize {
        lines::run_line(request, room)
    }
}

// Reads a request to its end, and writes its line. No request has over 24,649 bytes (16 + 4,097 + 4 * 9 + 20 * 1,025), and a longer input is bad whatever its bytes are: so what does not fit the buffer is not missed.
fn answer<R: Read, W: Write>(input: &mut R, output: &mut W) -> io::Result<()>
    ensures { OnOk result (IfSome (R.remaining input.old) (λ request. Appends (W.contents output.old) (W.contents output.new) (run_line request))) }
{
    streams::answer(input, output, &Running {})
}

fn main(rt: HostRuntime) -> io::Result<()> {
    answer(&mut rt.stdin(), &mut rt.stdout())
}
