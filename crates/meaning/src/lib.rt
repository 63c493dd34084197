// What code and definitions share of document 01: the table of marks, the limits, a slot, a call, and the answers.
#![tactic(auto)]

ghost use Rattle.std.specs.Prelude.{◌≡◌, ◌<◌, ◌≤◌};
ghost use Rattle.meaning.specs.Marks.{place_of, row_at, size_at, binds_at, find_mark};
ghost use Rattle.meaning.specs.Keys.{key_of, by_key};
ghost use Rattle.meaning.specs.Answers.{fault_number, number, as_end, value_of};

// The mark of a record, in the order of the table of marks; or of none. Other is a case and no None, since a mark that was read may be none of these,
// and the definitions share the type.
#[derive(Clone, Copy, Debug, PartialEq, Eq)]
pub enum Mark {
    CN,
    FN,
    BD,
    ND,
    GV,
    AT,
    MK,
    CL,
    TL,
    OP,
    LK,
    BR,
    NU,
    AR,
    IF,
    Other,
}

// A record's mark, the count of its fixed fields in bytes, and the count of slots that it binds.
#[derive(Clone, Copy, Debug, PartialEq, Eq)]
pub struct MarkRow {
    pub mark: u16,
    pub fields: u8,
    pub binds: u8,
}

const MARKS: [MarkRow; 15] = [
    MarkRow {
        mark: 0x434E,
        fields: 1,
        binds: 0,
    },
    MarkRow {
        mark: 0x464E,
        fields: 2,
        binds: 0,
    },
    MarkRow {
        mark: 0x4244,
        fields: 0,
        binds: 0,
    },
    MarkRow {
        mark: 0x4E44,
        fields: 0,
        binds: 0,
    },
    MarkRow {
        mark: 0x4756,
        fields: 1,
        binds: 0,
    },
    MarkRow {
        mark: 0x4154,
        fields: 1,
        binds: 1,
    },
    MarkRow {
        mark: 0x4D4B,
        fields: 2,
        binds: 1,
    },
    MarkRow {
        mark: 0x434C,
        fields: 1,
        binds: 1,
    },
    MarkRow {
        mark: 0x544C,
        fields: 1,
        binds: 0,
    },
    MarkRow {
        mark: 0x4F50,
        fields: 2,
        binds: 0,
    },
    MarkRow {
        mark: 0x4C4B,
        fields: 2,
        binds: 0,
    },
    MarkRow {
        mark: 0x4252,
        fields: 1,
        binds: 0,
    },
    MarkRow {
        mark: 0x4E55,
        fields: 2,
        binds: 1,
    },
    MarkRow {
        mark: 0x4152,
        fields: 3,
        binds: 1,
    },
    MarkRow {
        mark: 0x4946,
        fields: 1,
        binds: 0,
    },
];

// The bytes of a mark.
pub const MARK: usize = 2;

// The limits of a file: bytes, constructors, functions, slots and nodes on any path, branches in a list, and what one record may say.
pub const BYTES: usize = 4096;

pub const CONSTRUCTORS: usize = 64;

pub const FUNCTIONS: usize = 32;

pub const SLOTS: usize = 32;

pub const NODES: usize = 64;

pub const BRANCHES: u8 = 64;

pub const FIELDS: u8 = 4;

pub const PARAMETERS: u8 = 8;

// The table where it is looked up.
static TABLE: [MarkRow; 15] = MARKS;

// The row at a place in the table of marks; past the table, a row of zeros.
#[tactic(auto, unfolding(crate::specs::Marks::row_at))]
pub fn mark_row(i: usize) -> MarkRow
    ensures { result ≡ row_at i }
{
    TABLE.get(i).copied().unwrap_or(MarkRow {
        mark: 0,
        fields: 0,
        binds: 0,
    })
}

impl Mark {
    // The mark's place in the table, 15 for none.
    pub fn place(self) -> usize
        ensures { result ≡ place_of self }
    {
        self as usize
    }

    // The mark's row in the table.
    pub fn row(self) -> MarkRow
        ensures { result ≡ row_at (place_of self) }
    {
        mark_row(self.place())
    }
}

// How many slots a record binds; a branch binds by its constructor, and its row says 0.
#[tactic(auto, unfolding(crate::specs::Marks::row_at))]
pub fn binds(i: usize) -> usize
    ensures { (result ≡ binds_at i) × (result ≤ 5) }
{
    usize::from(mark_row(i).binds)
}

// The bytes of a record's mark and fixed fields.
#[tactic(auto, unfolding(crate::specs::Marks::row_at))]
pub fn size(i: usize) -> usize
    ensures { (result ≡ size_at i) × (result ≤ 5) }
{
    MARK + usize::from(mark_row(i).fields)
}

// A mark's key is below 64, and another for each mark of the table: its first letter and four times its second. A constant's value may call no
// function, so each is written out.
const CN_KEY: u16 = (MARKS[0].mark / 256 + MARKS[0].mark % 256 * 4) % 64;

const FN_KEY: u16 = (MARKS[1].mark / 256 + MARKS[1].mark % 256 * 4) % 64;

const BD_KEY: u16 = (MARKS[2].mark / 256 + MARKS[2].mark % 256 * 4) % 64;

const ND_KEY: u16 = (MARKS[3].mark / 256 + MARKS[3].mark % 256 * 4) % 64;

const GV_KEY: u16 = (MARKS[4].mark / 256 + MARKS[4].mark % 256 * 4) % 64;

const AT_KEY: u16 = (MARKS[5].mark / 256 + MARKS[5].mark % 256 * 4) % 64;

const MK_KEY: u16 = (MARKS[6].mark / 256 + MARKS[6].mark % 256 * 4) % 64;

const CL_KEY: u16 = (MARKS[7].mark / 256 + MARKS[7].mark % 256 * 4) % 64;

const TL_KEY: u16 = (MARKS[8].mark / 256 + MARKS[8].mark % 256 * 4) % 64;

const OP_KEY: u16 = (MARKS[9].mark / 256 + MARKS[9].mark % 256 * 4) % 64;

const LK_KEY: u16 = (MARKS[10].mark / 256 + MARKS[10].mark % 256 * 4) % 64;

const BR_KEY: u16 = (MARKS[11].mark / 256 + MARKS[11].mark % 256 * 4) % 64;

const NU_KEY: u16 = (MARKS[12].mark / 256 + MARKS[12].mark % 256 * 4) % 64;

const AR_KEY: u16 = (MARKS[13].mark / 256 + MARKS[13].mark % 256 * 4) % 64;

const IF_KEY: u16 = (MARKS[14].mark / 256 + MARKS[14].mark % 256 * 4) % 64;

// The mark with a key, if there is one in the table.
#[tactic(auto, unfolding(crate::specs::Keys::by_key, crate::specs::Keys::place_in))]
fn by_key(key: u16) -> Mark
    ensures { place_of result ≡ by_key key }
{
    match key {
        CN_KEY => Mark::CN,
        FN_KEY => Mark::FN,
        BD_KEY => Mark::BD,
        ND_KEY => Mark::ND,
        GV_KEY => Mark::GV,
        AT_KEY => Mark::AT,
        MK_KEY => Mark::MK,
        CL_KEY => Mark::CL,
        TL_KEY => Mark::TL,
        OP_KEY => Mark::OP,
        LK_KEY => Mark::LK,
        BR_KEY => Mark::BR,
        NU_KEY => Mark::NU,
        AR_KEY => Mark::AR,
        IF_KEY => Mark::IF,
        _ => Mark::Other,
    }
}

// The mark of the table that has this mark's key: itself, if it is one of the table.
pub fn keyed_mark(mark: u16) -> Mark
    ensures { place_of result ≡ by_key (key_of mark) }
{
    by_key((mark / 256 + mark % 256 * 4) % 64)
}

// The mark of two bytes as one number: by its key, and then by its row.
pub fn find_mark(mark: u16) -> Mark
    ensures { place_of result ≡ find_mark mark }
{
    let keyed = keyed_mark(mark);
    if keyed.row().mark == mark {
        keyed
    } else {
        Mark::Other
    }
}

// A slot is a number, lent, owned, a credit of a size, or used; a used one keeps the kind that it had.
#[derive(Clone, Copy, Debug, PartialEq, Eq)]
pub enum Kind {
    Number,
    Lent,
    Owned,
    Credit(u8),
    UsedOwned,
    UsedCredit(u8),
}

// A slot with the place of the mark that bound it.
#[derive(Clone, Copy, Debug, PartialEq, Eq)]
pub struct Slot {
    pub kind: Kind,
    pub place: u16,
}

// How one function calls another: not at all, by tail calls only, or by a call that waits.
#[derive(Clone, Copy, Debug, PartialEq, Eq)]
pub enum How {
    Never,
    Tail,
    Waits,
}

// A call written in a body.
#[derive(Clone, Copy, Debug, PartialEq, Eq)]
pub struct Call {
    pub caller: usize,
    pub callee: usize,
    pub how: How,
}

// Why a file or a start is refused, by its number in document 01's table of answers.
#[derive(Clone, Copy, Debug, PartialEq, Eq)]
pub enum Fault {
    TooLong = 1,
    EndsEarly = 2,
    MarkNotAllowed = 3,
    OutOfRange = 4,
    LimitPassed = 5,
    BytesBehind = 6,
    NotBound = 7,
    WrongKind = 8,
    Used = 9,
    OtherSize = 10,
    LeftOver = 11,
    ConstructorTwice = 12,
    WrongSize = 20,
    WrongCount = 21,
    Malformed = 22,
    NamedTwice = 23,
    ReachesItself = 24,
}

impl Fault {
    // The fault's number in document 01's table.
    pub fn number(self) -> u32
        ensures { result ≡ fault_number self }
    {
        self as u32
    }
}

// A refusal: the first fault, and its place.
#[derive(Clone, Copy, Debug, PartialEq, Eq)]
pub struct Refusal {
    pub fault: Fault,
    pub place: usize,
}

// The shape of an accepted file: flat with its depth, or stacked, and how many functions are reached.
#[derive(Clone, Copy, Debug, PartialEq, Eq)]
pub enum Shape {
    Flat { depth: u32, reached: u32 },
    Stacked { reached: u32 },
}

// How a run ends that was made: with a value, with no branch that fits, with the budget spent, for want of a frame, or at a sum or a difference
// outside 0..65,535.
#[derive(Clone, Copy, Debug, PartialEq, Eq)]
pub enum RunEnd {
    Done(u32),
    NoBranch,
    BudgetSpent,
    NoFrame,
    OutOfRange,
}

impl RunEnd {
    // The end's number in document 01's table; an end with a value has no number of its own to be cast.
    pub fn number(self) -> u32
        ensures { result ≡ number (as_end self) }
    {
        match self {
            RunEnd::Done(_) => 0,
            RunEnd::NoBranch => 31,
            RunEnd::BudgetSpent => 32,
            RunEnd::NoFrame => 33,
            RunEnd::OutOfRange => 34,
        }
    }

    // The value of a run that is done, 0 at another end.
    pub fn value(self) -> u32
        ensures { result ≡ value_of self }
    {
        match self {
            RunEnd::Done(value) => value,
            _ => 0,
        }
    }
}

// A run that was made: its end and the place of it, 0 where it is done; its steps, and the greatest number of frames.
#[derive(Clone, Copy, Debug, PartialEq, Eq)]
pub struct Ran {
    pub end: RunEnd,
    pub place: u32,
    pub steps: u32,
    pub frames: u32,
}
