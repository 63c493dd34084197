// A program's input, read until a buffer is full or the input ends, and its answer to it.
#![tactic(auto)]

ghost use Rattle.std.specs.Prelude.{◌≡◌, IfOk, IfSome, List, OnOk, ℕ, length, take};
ghost use Rattle.std.specs.Io.{ReadsAtMost};
ghost use Rattle.std.specs.Io.KnownBytes.{Appends, Consumes};
ghost use Rattle.lines.specs.Writing.{Line};
ghost use Rattle.streams.specs.Answering.{SameWhenCut};

use lines::ROOM;
use std::io;
use std::io::{Read, Write};

// The bytes of the buffer that an input is read into.
pub const BUFFER: usize = 65536;

// Reads until the buffer is full or the input ends, and answers how many bytes were put at the buffer's start. A read that fails is answered as it failed.
pub fn read_full<R: Read>(input: &mut R, buf: &mut [u8]) -> io::Result<usize>
    ensures bound { ReadsAtMost result buf.new }
    ensures taken { IfOk result (λ n. Consumes (R.remaining input.old) (R.remaining input.new) (take n buf.new)) }
    ensures first { IfOk result (λ n. IfSome (R.remaining input.old) (λ bytes. take n buf.new ≡ take (length buf.old) bytes)) }
{
    let mut filled = 0;
    // Reads follow each other here, not places: read_exact says nothing of an input that ends early, and read_to_end fills a Vec, which needs a heap.
    while filled < buf.len() {
        let n = input.read(&mut buf[filled..])?;
        if n == 0 {
            break;
        }
        filled += n;
    }
    Ok(filled)
}

// What a program answers an input with: a line, laid at the front of a room.
pub trait Program {
    // The line of an input.
    ghost line: { Self → List ℕ → List ℕ };

    // Lays the line of an input at the front of a room, and answers how many bytes it has.
    fn lay(&self, input: &[u8], room: &mut [u8; ROOM]) -> usize
        ensures { Line (line self.now input.now) room.old room.new result };
}

// Writes the line of an input.
pub fn write_line<W: Write, P: Program>(output: &mut W, input: &[u8], program: &P) -> io::Result<()>
    ensures { OnOk result (Appends (W.contents output.old) (W.contents output.new) (P.line program.now input.now)) }
{
    let mut room = [0; ROOM];
    let count = program.lay(input, &mut room);
    output.write_all(&room[..count])
}

// Reads an input to its end, or until the buffer is full, and writes its line.
pub fn answer<R: Read, W: Write, P: Program>(
    input: &mut R,
    output: &mut W,
    program: &P,
) -> io::Result<()>
    ensures { SameWhenCut (P.line program.now) → OnOk result (IfSome (R.remaining input.old) (λ bytes. Appends (W.contents output.old) (W.contents output.new) (P.line program.now bytes))) }
{
    let mut bytes = [0; BUFFER];
    let n = read_full(input, &mut bytes)?;
    write_line(output, &bytes[..n], program)
}
