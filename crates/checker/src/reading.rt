// Reading: answers 1 to 6, over the bytes. No tree is built; what the file declares goes into one table of 128 words.
ghost use Rattle.std.specs.Prelude.{◌≡◌, [], ◌+◌, ◌<◌, ◌≤◌, length, ◌↔◌, IsTrue, IfOk, Err};
ghost use Rattle.meaning.specs.Marks.{place_of, find_mark};
ghost use Rattle.standing.specs.Bytes.{mark_at, number_at};
ghost use Rattle.checker.specs.Read.{refusal, as_read, as_mark};
ghost use Rattle.checker.specs.Node.{as_then, as_node};
ghost use Rattle.checker.specs.Slots.{digit};
ghost use Rattle.checker.specs.ReadingBytes.{room, known_arity, known_count, byte_read, mark_read, atom_field, make_fields, call_fields, open_fields, sum_fields, fields_at, follows_at, limited, node_at, more_of, branch_at, small_bytes, counted_at, fun_at, expect_at, end_at};
ghost use Rattle.checker.specs.Opening.{table_with, HeaderRead, Counted, RecordsRead, mark_number, limit_of, first_of, fields_of};

use meaning::{
    BRANCHES, CONSTRUCTORS, FIELDS, FUNCTIONS, Fault, MARK, Mark, NODES, PARAMETERS, Refusal,
    SLOTS, binds,
};
use standing::{Rules, Table, byte_at, entry_word, mark_at};

// The greatest byte of a sort, and of a mode.
const SORT: u8 = 1;

const MODE: u8 = 2;

// The slots and the nodes on a path, from the body's start.
#[derive(Clone, Copy, Debug, PartialEq, Eq)]
pub(crate) struct Path {
    pub slots: usize,
    pub nodes: usize,
}

// What follows a node, and where; of branches also how many, and whether each binds a credit.
#[derive(Clone, Copy, Debug, PartialEq, Eq)]
pub(crate) enum Then {
    Leaf(usize),
    One(usize),
    Two(usize),
    Many(usize, usize, bool),
}

// A node that was read: its mark, what follows it, and the path with it.
#[derive(Clone, Copy, Debug, PartialEq, Eq)]
pub(crate) struct Node {
    pub mark: Mark,
    pub then: Then,
    pub path: Path,
}

// A refusal.
fn refuse<T>(fault: Fault, place: usize) -> Result<T, Refusal>
    ensures { result ≡ Err (refusal fault place) }
{
    Err(Refusal { fault, place })
}

// The byte at a place; a file that ends before it is refused.
#[tactic(auto, unfolding(crate::specs::ReadingBytes::byte_read, meaning::specs::Choice::pick))]
fn read_byte(file: &[u8], at: usize) -> Result<u8, Refusal>
    ensures { as_read result ≡ byte_read file.now at }
{
    file.get(at).copied().ok_or(Refusal {
        fault: Fault::EndsEarly,
        place: file.len(),
    })
}

// The mark at a place; a file that ends within it is refused.
#[tactic(auto, using(crate::proofs::reading::Marking::marked, crate::proofs::reading::Marking::unmarked), unfolding(meaning::specs::Choice::pick))]
fn read_mark(file: &[u8], at: usize) -> Result<Mark, Refusal>
    ensures { as_mark result ≡ mark_read file.now at }
{
    mark_at(file, at).ok_or(Refusal {
        fault: Fault::EndsEarly,
        place: file.len(),
    })
}

// The place behind a mark that must stand here.
#[tactic(auto, unfolding(crate::specs::ReadingBytes::expect_at, crate::specs::ReadingBytes::mark_read, meaning::specs::Choice::pick))]
pub(crate) fn expect_mark(file: &[u8], at: usize, mark: Mark) -> Result<usize, Refusal>
    ensures { as_read result ≡ expect_at file.now at (place_of mark) }
{
    if read_mark(file, at)? != mark {
        return refuse(Fault::MarkNotAllowed, at);
    }
    Ok(at + MARK)
}

// The arity of a constructor; over every limit where it is not declared, so that one test refuses both.
#[tactic(auto, unfolding(crate::specs::ReadingBytes::known_arity, meaning::specs::Choice::pick))]
fn arity(table: &Table, constructor: u8) -> usize
    ensures { result ≡ known_arity table.now.words constructor }
{
    if usize::from(constructor) < CONSTRUCTORS {
        table.arity(usize::from(constructor))
    } else {
        Table::NONE as usize
    }
}

// How many parameters a function has; over every limit where it is not declared, as `arity` has it.
#[tactic(auto, unfolding(crate::specs::ReadingBytes::known_count, meaning::specs::Choice::pick))]
fn parameters(table: &Table, function: u8) -> usize
    ensures { result ≡ known_count table.now.words function }
{
    if usize::from(function) < FUNCTIONS {
        table.parameters(usize::from(function))
    } else {
        Table::NONE as usize
    }
}

// So many more bytes at a place.
#[tactic(auto, unfolding(crate::specs::ReadingBytes::room, meaning::specs::Choice::pick))]
fn room_for(file: &[u8], at: usize, count: usize) -> Result<usize, Refusal>
    requires { (at ≤ length file.now) × (count ≤ 255) }
    ensures { as_read result ≡ room file.now at count }
{
    if file.len() < at + count {
        return refuse(Fault::EndsEarly, file.len());
    }
    Ok(at + count)
}

// AT's field: a constructor of arity 0.
#[tactic(auto, unfolding(crate::specs::ReadingBytes::atom_field, crate::specs::ReadingBytes::byte_read, meaning::specs::Choice::pick))]
fn atom_field(rules: Rules, at: usize) -> Result<usize, Refusal>
    ensures { as_read result ≡ atom_field rules.entry.file.now rules.entry.table.now.words at }
{
    if arity(rules.table, read_byte(rules.file, at)?) != 0 {
        return refuse(Fault::OutOfRange, at);
    }
    Ok(at + 1)
}

// MK's fields: a constructor of arity 1 or more, a credit slot, and a slot for each field.
#[tactic(auto, unfolding(crate::specs::ReadingBytes::make_fields, crate::specs::ReadingBytes::byte_read, meaning::specs::Choice::pick))]
fn make_fields(rules: Rules, at: usize) -> Result<usize, Refusal>
    ensures { as_read result ≡ make_fields rules.entry.file.now rules.entry.table.now.words at }
{
    let fields = arity(rules.table, read_byte(rules.file, at)?);
    if fields == 0 || usize::from(FIELDS) < fields {
        return refuse(Fault::OutOfRange, at);
    }
    room_for(rules.file, at + 1, fields + 1)
}

// CL's and TL's fields: a function, and a slot for each parameter.
#[tactic(auto, unfolding(crate::specs::ReadingBytes::call_fields, crate::specs::ReadingBytes::byte_read, meaning::specs::Choice::pick))]
fn call_fields(rules: Rules, at: usize) -> Result<usize, Refusal>
    ensures { as_read result ≡ call_fields rules.entry.file.now rules.entry.table.now.words at }
{
    let count = parameters(rules.table, read_byte(rules.file, at)?);
    if usize::from(PARAMETERS) < count {
        return refuse(Fault::OutOfRange, at);
    }
    room_for(rules.file, at + 1, count)
}

// OP's and LK's fields: a slot, and how many branches.
#[tactic(auto, unfolding(crate::specs::ReadingBytes::open_fields, crate::specs::ReadingBytes::byte_read, meaning::specs::Choice::pick))]
fn open_fields(file: &[u8], at: usize) -> Result<usize, Refusal>
    requires { at ≤ length file.now }
    ensures { as_read result ≡ open_fields file.now at }
{
    let branches = read_byte(file, at + 1)?;
    if branches == 0 || BRANCHES < branches {
        return refuse(Fault::OutOfRange, at + 1);
    }
    Ok(at + 2)
}

// AR's fields: one of four operations, and two slots.
#[tactic(auto, unfolding(crate::specs::ReadingBytes::sum_fields, crate::specs::ReadingBytes::byte_read, meaning::specs::Choice::pick))]
fn sum_fields(file: &[u8], at: usize) -> Result<usize, Refusal>
    ensures { as_read result ≡ sum_fields file.now at }
{
    if 3 < read_byte(file, at)? {
        return refuse(Fault::OutOfRange, at);
    }
    room_for(file, at + 1, 2)
}

// The place behind the fixed fields of the node with this mark, which stands at a place.
#[tactic(auto, unfolding(crate::specs::ReadingBytes::fields_at, meaning::specs::Choice::pick))]
fn fields(rules: Rules, at: usize, mark: Mark) -> Result<usize, Refusal>
    requires { at + 2 ≤ length rules.file.now }
    ensures { as_read result ≡ fields_at rules.entry.file.now rules.entry.table.now.words at (place_of mark) }
{
    let start = at + MARK;
    match mark {
        Mark::GV | Mark::IF => room_for(rules.file, start, 1),
        Mark::AT => atom_field(rules, start),
        Mark::MK => make_fields(rules, start),
        Mark::CL | Mark::TL => call_fields(rules, start),
        Mark::OP | Mark::LK => open_fields(rules.file, start),
        Mark::NU => room_for(rules.file, start, 2),
        Mark::AR => sum_fields(rules.file, start),
        Mark::CN | Mark::FN | Mark::BD | Mark::ND | Mark::BR | Mark::Other => {
            refuse(Fault::MarkNotAllowed, at)
        }
    }
}

// What follows the node with this mark at a place, from the next place on.
#[tactic(auto, unfolding(crate::specs::ReadingBytes::follows_at, meaning::specs::Choice::pick))]
fn follows(file: &[u8], at: usize, mark: Mark, next: usize) -> Then
    requires { at + 2 ≤ length file.now }
    ensures { as_then result ≡ follows_at file.now at (place_of mark) next }
{
    match mark {
        Mark::GV | Mark::TL => Then::Leaf(next),
        Mark::OP => Then::Many(next, byte_at(file, at + 3), true),
        Mark::LK => Then::Many(next, byte_at(file, at + 3), false),
        Mark::IF => Then::Two(next),
        _ => Then::One(next),
    }
}

// The node with this mark at a place, behind its fields: its limits, and what follows it from the next place on. It takes what was read of the
// node, and the path to it, one by one: a struct would be made for this call alone.
#[tactic(auto, unfolding(crate::specs::ReadingBytes::limited, crate::specs::ReadingBytes::binds_of, meaning::specs::Choice::pick, meaning::specs::Marks::row_at))]
fn limits(file: &[u8], at: usize, mark: Mark, path: Path, next: usize) -> Result<Node, Refusal>
    requires { (at + 2 ≤ length file.now) × (path.slots ≤ 32) × (path.nodes ≤ 64) }
    ensures limited { as_node path result ≡ limited file.now at (place_of mark) path next }
    ensures mark { IfOk result (λ node. node.mark ≡ mark) }
{
    let slots = path.slots + binds(mark.place());
    if NODES <= path.nodes || SLOTS < slots {
        return refuse(Fault::LimitPassed, at);
    }
    Ok(Node {
        mark,
        then: follows(file, at, mark, next),
        path: Path {
            slots,
            nodes: path.nodes + 1,
        },
    })
}

// The node at a place: its mark, its fields, its limits, and what follows it.
#[tactic(auto, unfolding(crate::specs::ReadingBytes::node_at, crate::specs::ReadingBytes::node_of, crate::specs::ReadingBytes::after_fields, crate::specs::ReadingBytes::mark_read, meaning::specs::Choice::pick))]
pub(crate) fn read_node(rules: Rules, at: usize, path: Path) -> Result<Node, Refusal>
    requires { (path.slots ≤ 32) × (path.nodes ≤ 64) }
    ensures node { as_node path result ≡ node_at rules.entry.file.now rules.entry.table.now.words at path }
    ensures mark { IfOk result (λ node. place_of node.mark ≡ find_mark (mark_at rules.entry.file.now at)) }
{
    let mark = read_mark(rules.file, at)?;
    let next = fields(rules, at, mark)?;
    limits(rules.file, at, mark, path, next)
}

// How many slots a branch of so many fields binds.
#[tactic(auto, unfolding(crate::specs::ReadingBytes::more_of, meaning::specs::Choice::pick))]
fn bound_by(fields: usize, credit: bool) -> usize
    requires { fields ≤ 4 }
    ensures { (result ≡ more_of fields (digit credit)) × (result ≤ 5) }
{
    if fields == 0 {
        0
    } else {
        fields + usize::from(credit)
    }
}

// A branch's record at a place: the slots after it, of so many before it.
#[tactic(auto, unfolding(crate::specs::ReadingBytes::branch_by, crate::specs::ReadingBytes::branch_fields_by, crate::specs::ReadingBytes::fitting, crate::specs::ReadingBytes::expect_at, crate::specs::ReadingBytes::byte_read, meaning::specs::Choice::pick))]
pub(crate) fn read_branch(
    rules: Rules,
    at: usize,
    credit: bool,
    slots: usize,
) -> Result<usize, Refusal>
    requires { slots ≤ 32 }
    ensures { as_read result ≡ branch_at rules.entry.file.now rules.entry.table.now.words at (digit credit) slots }
{
    let place = expect_mark(rules.file, at, Mark::BR)?;
    let fields = arity(rules.table, read_byte(rules.file, place)?);
    if usize::from(FIELDS) < fields {
        return refuse(Fault::OutOfRange, place);
    }
    let after = slots + bound_by(fields, credit);
    if SLOTS < after {
        return refuse(Fault::LimitPassed, at);
    }
    Ok(after)
}

// So many bytes from a place on, each at most the greatest.
#[tactic(auto, using(crate::proofs::reading::Steps::small_none, crate::proofs::reading::Steps::small_turn), unfolding(crate::specs::ReadingBytes::byte_read, meaning::specs::Choice::pick))]
fn small_bytes(file: &[u8], at: usize, count: u8, greatest: u8) -> Result<usize, Refusal>
    requires { at ≤ length file.now }
    ensures ends { as_read result ≡ small_bytes count file.now at greatest }
    ensures inside { IfOk result (λ end. (at ≤ end) × (end ≤ length file.now)) }
{
    let end = at + usize::from(count);
    for place in at..end {
        if greatest < read_byte(file, place)? {
            return refuse(Fault::OutOfRange, place);
        }
    }
    Ok(end)
}

// How many bytes follow, at most so many, and then the bytes, each at most the greatest.
#[tactic(auto, unfolding(crate::specs::ReadingBytes::counted_at, crate::specs::ReadingBytes::byte_read, meaning::specs::Choice::pick))]
fn counted_bytes(file: &[u8], at: usize, most: u8, greatest: u8) -> Result<usize, Refusal>
    ensures ends { as_read result ≡ counted_at file.now at most greatest }
    ensures inside { IfOk result (λ end. (at < end) × (end ≤ length file.now)) }
{
    let count = read_byte(file, at)?;
    if most < count {
        return refuse(Fault::OutOfRange, at);
    }
    small_bytes(file, at + 1, count, greatest)
}

// The records of a header: those that declare constructors, and those that declare functions.
#[derive(Clone, Copy, Debug, PartialEq, Eq)]
enum Records {
    Constructors,
    Functions,
}

impl Records {
    // The mark of each.
    fn mark(self) -> Mark
        ensures { place_of result ≡ mark_number self }
    {
        match self {
            Records::Constructors => Mark::CN,
            Records::Functions => Mark::FN,
        }
    }

    // Whether one stands at a place.
    #[tactic(auto, using(meaning::proofs::Table::one_place, meaning::proofs::Table::place_below), unfolding(standing::specs::Bytes::number_at, meaning::specs::Choice::pick))]
    fn stands(self, file: &[u8], at: usize) -> bool
        ensures stands { IsTrue result ↔ (number_at file.now at ≡ mark_number self) }
        ensures inside { IsTrue result → at + 2 ≤ length file.now }
    {
        mark_at(file, at) == Some(self.mark())
    }

    // How many there may be.
    fn limit(self) -> usize
        ensures { result ≡ limit_of self }
    {
        match self {
            Records::Constructors => CONSTRUCTORS,
            Records::Functions => FUNCTIONS,
        }
    }

    // The word of the first one in the table.
    fn first(self) -> usize
        ensures { result ≡ first_of self }
    {
        match self {
            Records::Constructors => 0,
            Records::Functions => Table::FUNCTIONS,
        }
    }

    // The place behind the fields of one: a constructor's sorts, or a function's modes and the sort of its result.
    #[tactic(auto, unfolding(crate::specs::ReadingBytes::con_at, crate::specs::ReadingBytes::fun_at, crate::specs::ReadingBytes::on_next, meaning::specs::Choice::pick))]
    fn fields(self, file: &[u8], at: usize) -> Result<usize, Refusal>
        ensures ends { as_read result ≡ fields_of self file.now at }
        ensures inside { IfOk result (λ end. (at < end) × (end ≤ length file.now)) }
    {
        match self {
            Records::Constructors => counted_bytes(file, at, FIELDS, SORT),
            Records::Functions => {
                let result = counted_bytes(file, at, PARAMETERS, MODE)?;
                small_bytes(file, result, 1, SORT)
            }
        }
    }
}

// How many records were read, and the place behind them.
#[derive(Clone, Copy, Debug, PartialEq, Eq)]
pub(crate) struct Header {
    pub count: usize,
    pub at: usize,
}

// The records of one kind from a place on; each one's word goes into the table. Here the table is being written, so it goes beside the file and not
// with it in Rules.
fn read_records(
    file: &[u8],
    table: &mut Table,
    start: usize,
    records: Records,
) -> Result<Header, Refusal>
    requires { (length file.now ≤ 4096) × Counted records file.now table.old.words 0 start }
    ensures { RecordsRead records file.now table.new.words result }
{
    let mut count: usize = 0;
    let mut at: usize = start;
    // The new form, a `for`, is no plainer: the records end where another mark stands, and not after a count.
    while records.stands(file, at) {
        let place = at + MARK;
        let next = records.fields(file, place)?;
        if records.limit() <= count {
            return refuse(Fault::LimitPassed, at);
        }
        table.words[records.first() + count] = entry_word(file[place], (place + 1) as u16);
        count += 1;
        at = next;
    }
    Ok(Header { count, at })
}

// The constructors and the functions of a file, with what they declare in the table, up to the first body: how many functions there are, and its place.
// The table is being written.
pub(crate) fn read_header(file: &[u8], table: &mut Table) -> Result<Header, Refusal>
    requires { (length file.now ≤ 4096) × (table.old.words ≡ table_with [] [] []) }
    ensures { HeaderRead file.now table.new.words result }
{
    let constructors = read_records(file, table, 0, Records::Constructors)?;
    let functions = read_records(file, table, constructors.at, Records::Functions)?;
    if functions.count == 0 {
        read_mark(file, functions.at)?;
        return refuse(Fault::MarkNotAllowed, functions.at);
    }
    Ok(functions)
}

// ND, and nothing behind it: the place behind it, where the file ends.
#[tactic(auto, unfolding(crate::specs::ReadingBytes::end_at, crate::specs::ReadingBytes::on_next, crate::specs::ReadingBytes::finish_at, meaning::specs::Choice::pick))]
pub(crate) fn read_end(file: &[u8], at: usize) -> Result<usize, Refusal>
    ensures { as_read result ≡ end_at file.now at }
{
    let end = expect_mark(file, at, Mark::ND)?;
    if end < file.len() {
        return refuse(Fault::BytesBehind, end);
    }
    Ok(end)
}
