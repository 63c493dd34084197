// What the programs print, and what the running program reads: bytes in, bytes out.
#![tactic(auto)]

mod input;
mod text;
mod word;

ghost use Rattle.std.specs.Prelude.{◌≤◌, length};
ghost use Rattle.meaning.specs.Lines.{check_line, run_line};
ghost use Rattle.lines.specs.Writing.{Line};

use input::Request;
pub use word::read_words;

// The bytes of a line's room: more than the longest line takes, which has five numbers of ten digits.
pub const ROOM: usize = 64;

// Lays a line at the front of the room, and answers how many bytes it has.
fn lay(line: &str, out: &mut [u8; ROOM]) -> usize
    requires { length line.now ≤ 64 }
    ensures { Line line.now out.old out.new result }
{
    let bytes = line.as_bytes();
    out[..bytes.len()].copy_from_slice(bytes);
    bytes.len()
}

// Writes what the checking program prints, given a file, and answers how many bytes that are.
pub fn check_line(file: &[u8], out: &mut [u8; ROOM]) -> usize
    ensures { Line (check_line file.now) out.old out.new result }
{
    lay(text::verdict_line(checker::check(file)).as_str(), out)
}

// Writes what the running program prints, given an input, and answers how many bytes that are.
pub fn run_line(input: &[u8], out: &mut [u8; ROOM]) -> usize
    ensures { Line (run_line input.now) out.old out.new result }
{
    let Some(request) = Request::parse(input) else {
        return lay("bad input\n", out);
    };
    lay(text::answer_line(request.answer()).as_str(), out)
}
