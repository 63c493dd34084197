// The input of the running program: four counts, then a file and words.
ghost use Rattle.std.specs.Prelude.{◌≡◌};
ghost use Rattle.meaning.specs.Answers.{as_answer};
ghost use Rattle.meaning.specs.Lines.{answer_of, decoded};
ghost use Rattle.lines.specs.Requests.{parsed};

use crate::word::{copy_words, word_at};
use meaning::{Ran, Refusal};
use std::marker::Model;

// The bytes of the four counts.
const COUNTS: usize = 16;

// The most bytes of a file, one more than is accepted, so that the refusal 1 can show; the most arguments, and the most cells.
const FILE: usize = 4097;

const ARGUMENTS: usize = 9;

const CELLS: usize = 1025;

// The words of a cell, and of the work area.
const CELL: usize = 5;

const WORK: usize = 4096;

// A run that an input asks for, with the bytes of the argument words and of the cells' words.
#[derive(Drop)]
pub(crate) struct Request<'a> {
    file: &'a [u8],
    arguments: &'a [u8],
    cells: &'a [u8],
    budget: u32,
}

impl<'a> Model for Request<'a> {
    ghost use Rattle.std.specs.Prelude.{◌≤◌, ◌/◌, length};
    ghost use Rattle.meaning.specs.Lines as asked;
    ghost use Rattle.meaning.specs.Lines.{words_in};

    ghost Value = { asked.Request };

    ghost view = { λ r. record {
      file = r.file.now;
      args = words_in r.arguments.now 0 (length r.arguments.now / 4);
      store = words_in r.cells.now 0 (length r.cells.now / 4);
      budget = r.budget;
    } };

    ghost invariant = { λ r. (length r.arguments.now ≤ 36) × (length r.cells.now ≤ 20500) };
}

impl<'a> Request<'a> {
    // What an input asks for; nothing if a count is over its limit or the input is not as long as it says.
    pub(crate) fn parse(input: &'a [u8]) -> Option<Request<'a>>
        ensures { parsed result ≡ decoded input.now }
    {
        let (counts, rest) = input.split_at_checked(COUNTS)?;
        let file = word_at(counts, 0) as usize;
        let arguments = word_at(counts, 4) as usize;
        let cells = word_at(counts, 8) as usize;
        if file > FILE || arguments > ARGUMENTS || cells > CELLS {
            return None;
        }
        if rest.len() != file + 4 * arguments + 4 * CELL * cells {
            return None;
        }
        let (file, rest) = rest.split_at(file);
        let (arguments, cells) = rest.split_at(4 * arguments);
        Some(Request {
            file,
            arguments,
            cells,
            budget: word_at(counts, 12),
        })
    }

    // The answer to the run, over a work area of zeros.
    pub(crate) fn answer(&self) -> Result<Ran, Refusal>
        ensures { as_answer result ≡ answer_of self.now }
    {
        let mut arguments = [0; ARGUMENTS];
        let arguments = &mut arguments[..self.arguments.len() / 4];
        copy_words(self.arguments, arguments);
        let mut store = [0; CELL * CELLS];
        let store = &mut store[..self.cells.len() / 4];
        copy_words(self.cells, store);
        machine::run(self.file, arguments, store, &mut [0; WORK], self.budget)
    }
}
