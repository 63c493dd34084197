// Runs the cases that stand on standard input, and prints a line for each. A case is a kind (0: a file to check, another: a request to run), the length of its bytes in three bytes, high byte first, and the bytes.
#![tactic(auto)]

ghost use Rattle.std.specs.Prelude.{◌≡◌, OnOk};
ghost use Rattle.std.specs.Io.KnownBytes.{Appends};
ghost use Rattle.cases.specs.Kinds.{kind_of, line_by_kind};

use lines::ROOM;
use std::io;
use std::io::{Read, Write};
use streams::{BUFFER, Program};

// What a case asks for.
#[derive(Clone, Copy, Debug, PartialEq, Eq)]
enum Kind {
    Check,
    Run,
}

impl From<u8> for Kind {
    ghost from_gives = { λ byte kind. kind ≡ kind_of byte };

    fn from(byte: u8) -> Kind {
        match byte {
            0 => Kind::Check,
            _ => Kind::Run,
        }
    }
}

impl Program for Kind {
    ghost line = { line_by_kind };

    fn lay(&self, input: &[u8], room: &mut [u8; ROOM]) -> usize {
        match *self {
            Kind::Check => lines::check_line(input, room),
            Kind::Run => lines::run_line(input, room),
        }
    }
}

// What stands before a case's bytes.
#[derive(Clone, Copy, Debug, PartialEq, Eq)]
struct Head {
    kind: Kind,
    length: usize,
}

// Reads the head of the next case, if there is one.
fn next_head<R: Read>(input: &mut R) -> io::Result<Option<Head>> {
    let mut head = [0u8; 4];
    if streams::read_full(input, &mut head)? < head.len() {
        return Ok(None);
    }
    let [kind, high, middle, low] = head;
    Ok(Some(Head {
        kind: Kind::from(kind),
        length: u32::from_be_bytes([0, high, middle, low]) as usize,
    }))
}

// Prints the line of a case.
fn print_line<W: Write>(output: &mut W, kind: Kind, input: &[u8]) -> io::Result<()>
    ensures { OnOk result (Appends (W.contents output.old) (W.contents output.new) (line_by_kind kind input.now)) }
{
    streams::write_line(output, input, &kind)
}

// Reads a case's bytes, and prints its line; a case that says more bytes than the buffer has gets none.
fn print_case<R: Read, W: Write>(input: &mut R, output: &mut W, head: Head) -> io::Result<()> {
    if head.length > BUFFER {
        return Ok(());
    }
    let mut bytes = [0u8; BUFFER];
    let n = streams::read_full(input, &mut bytes[..head.length])?;
    print_line(output, head.kind, &bytes[..n])
}

// A proved loop has to end, and nothing says that the input does: so it counts up to a number of cases that no run uses up.
fn main(rt: HostRuntime) -> io::Result<()> {
    let mut input = rt.stdin();
    let mut output = rt.stdout();
    for _ in 0..u32::MAX {
        let Some(head) = next_head(&mut input)? else {
            break;
        };
        print_case(&mut input, &mut output, head)?;
    }
    Ok(())
}
