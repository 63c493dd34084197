// How a file lies in bytes: its bytes and marks by their place, and the table of what it declares. The relation to trees stands in specs/, the proof
// that reading gives it in proofs/.
#![tactic(auto)]

ghost use Rattle.std.specs.Prelude.{◌≡◌, ◌+◌, ◌*◌, ◌/◌, ◌%◌, ◌<◌, ◌≤◌, get_or, replicate};
ghost use Rattle.standing.specs.Bytes.{byte_at, read_number, number_at, arity_in, fields_in, params_in, modes_in, body_in, result_in};

use meaning::{Mark, find_mark};

// The byte at a place, 0 past the end.
pub fn byte_at(file: &[u8], at: usize) -> usize
    ensures { (result ≡ byte_at file.now at) × (result < 256) }
{
    usize::from(file.get(at).copied().unwrap_or(0))
}

// The mark at a place; none where the file ends within it.
#[tactic(auto, using(crate::proofs::Entries::early, crate::proofs::Entries::marked))]
pub fn mark_at(file: &[u8], at: usize) -> Option<Mark>
    ensures { read_number result ≡ number_at file.now at }
{
    if file.len() < 2 || file.len() - 2 < at {
        return None;
    }
    Some(find_mark(u16::from_be_bytes([file[at], file[at + 1]])))
}

// The table of a file's declarations: a word for each constructor, then one for each function, then the place of each body. A word holds a count,
// of fields or of parameters, and the place of the byte of the first of them.
#[derive(Clone, Copy, PartialEq, Eq)]
pub struct Table {
    pub words: [u32; Table::WORDS],
}

impl Table {
    pub const WORDS: usize = 128;

    pub const FUNCTIONS: usize = 64;

    pub const BODIES: usize = 96;

    // The word where nothing is declared: a count over every limit.
    pub const NONE: u32 = 255;

    // A word is its count, and so many times its place.
    pub const PLACE: usize = 256;

    // A table that declares nothing.
    pub fn empty() -> Table
        ensures { result.words ≡ replicate 128 255 }
    {
        Table {
            words: [Table::NONE; Table::WORDS],
        }
    }

    // The word at an index behind a place, 0 past the table.
    fn word(&self, from: usize, i: usize) -> usize
        requires { from ≤ 96 }
        ensures { (result ≡ get_or self.now.words (from + i) 0) × (result < 4294967296) }
    {
        if i < Table::WORDS - from {
            return self.words[from + i] as usize;
        }
        0
    }

    // A constructor's arity.
    pub fn arity(&self, c: usize) -> usize
        ensures { (result ≡ arity_in self.now.words c) × (result < 256) }
    {
        self.word(0, c) % Table::PLACE
    }

    // The place of the sort of a constructor's first field.
    pub fn sorts(&self, c: usize) -> usize
        ensures { (result ≡ fields_in self.now.words c) × (result < 16777216) }
    {
        self.word(0, c) / Table::PLACE
    }

    // A function's count of parameters.
    pub fn parameters(&self, f: usize) -> usize
        ensures { (result ≡ params_in self.now.words f) × (result < 256) }
    {
        self.word(Table::FUNCTIONS, f) % Table::PLACE
    }

    // The place of the mode of a function's first parameter.
    pub fn modes(&self, f: usize) -> usize
        ensures { (result ≡ modes_in self.now.words f) × (result < 16777216) }
    {
        self.word(Table::FUNCTIONS, f) / Table::PLACE
    }

    // The place of a function's body.
    pub fn body(&self, f: usize) -> usize
        ensures { (result ≡ body_in self.now.words f) × (result < 4294967296) }
    {
        self.word(Table::BODIES, f)
    }
}

impl From<[u32; Table::WORDS]> for Table {
    ghost from_gives = { λ words table. table.words ≡ words };

    fn from(words: [u32; Table::WORDS]) -> Table {
        Table { words }
    }
}

// The word of a constructor or a function with so many fields or parameters, the first one's byte at a place.
pub fn entry_word(count: u8, place: u16) -> u32
    ensures { result ≡ count + 256 * place }
{
    u32::from(count) + 256 * u32::from(place)
}

// A rule file: its bytes, and the table of what it declares.
#[derive(Clone, Copy)]
pub struct Rules<'a> {
    pub file: &'a [u8],
    pub table: &'a Table,
}

impl Rules<'_> {
    // The byte at a place, 0 past the end.
    pub fn byte(self, at: usize) -> usize
        ensures { (result ≡ byte_at self.entry.file.now at) × (result < 256) }
    {
        byte_at(self.file, at)
    }

    // The byte of the sort of a function's result; the checker makes a Sort of it.
    pub fn result(self, f: usize) -> usize
        ensures { (result ≡ result_in self.entry.file.now self.entry.table.now.words f) × (result < 256) }
    {
        byte_at(self.file, self.table.modes(f) + self.table.parameters(f))
    }
}
