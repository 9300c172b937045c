// Reading a sheet: the limits, what the calls answer, and the public calls, which take every sheet and write nothing: `read`, `look` and
// `look_part`. The other names that are shown ask for something; they are for the crates above, which meet it.
#![tactic(auto)]

mod formulas;
mod numbers;
mod quantifiers;
mod records;
mod views;

ghost use Rattle.std.specs.Prelude.{◌≡◌, ◌+◌};
ghost use Rattle.reading.specs.Records.{kind_of};
ghost use Rattle.reading.specs.Answers.{refusal_no};
ghost use Rattle.reading.specs.Views.{comparison_case_no, shape_size, kind_named};
ghost use Rattle.reading.specs.Quantifiers.{look, look_part};

pub use formulas::read;
pub use numbers::u16_at;
pub use quantifiers::{first_quantifier, last_quantifier, look_part};
pub use views::{
    binder_at, coefficient_at, members_at, past, record_bytes, row_at, shape_at, window_at,
};

// A sheet: at most this many bytes, nested at most this deep.
pub const SHEET_BYTES: usize = 16384;

pub const SHEET_LEVELS: usize = 24;

// A result, and what the test at fractions and the look take.
pub const RESULT_BYTES: usize = 65536;

pub const RESULT_LEVELS: usize = 25;

// Bytes that are known to be a formula's are read to this depth, whatever limit they were accepted by.
pub const TREE_LEVELS: usize = RESULT_LEVELS;

// Whose limits a sheet is read by: a sheet's, or a result's, which the test at fractions and the look take too.
#[derive(Clone, Copy)]
pub enum Limit {
    Sheet,
    Result,
}

// Coefficients, constants, lo and hi lie in -MOST..MOST.
pub const MOST: u32 = 1073741823;

// The greatest variable's number.
pub const LAST_VARIABLE: u16 = 7;

// The number of the answer where nothing is refused.
pub const DONE: usize = 0;

// Why a sheet, a step or a test is refused, by the numbers of the table of answers.
#[derive(Clone, Copy, Debug, PartialEq, Eq)]
pub enum Refusal {
    SmallBuffer = 1,
    LongSheet = 2,
    CutShort = 3,
    WrongKind = 4,
    WrongLength = 5,
    WrongVariable = 6,
    WrongNumber = 7,
    DeepNesting = 8,
    BytesAfter = 9,
    ManyTerms = 10,
    BigNumber = 11,
    LongResult = 12,
    Quantified = 13,
    WrongValue = 14,
}

impl Refusal {
    pub fn number(self) -> usize
        ensures { result ≡ refusal_no self }
    {
        self as usize
    }
}

// A refusal and its place.
#[derive(Clone, Copy, Debug, PartialEq, Eq)]
pub struct Refused {
    pub why: Refusal,
    pub place: usize,
}

// The length of a record of each kind.
pub const ATOM_BYTES: usize = 40;

pub const NOT_BYTES: usize = 4;

pub const LIST_BYTES: usize = 6;

pub const QUANTIFIER_BYTES: usize = 6;

pub const WINDOW_BYTES: usize = 14;

// sum < 0, sum <= 0, sum = 0, by the numbers of their kinds.
#[derive(Clone, Copy)]
pub enum Comparison {
    Less = 1,
    AtMost = 2,
    Equal = 3,
}

impl Comparison {
    pub fn number(self) -> u16
        ensures { result ≡ comparison_case_no self }
    {
        self as u16
    }
}

// The kind of a record: a list is ALLOF or not, a quantifier EVERY or not.
#[derive(Clone, Copy)]
pub enum Shape {
    Atom(Comparison),
    Not,
    List(bool),
    Quantifier(bool),
    Window,
}

// A number that is no kind's.
#[derive(Clone, Copy)]
pub struct UnknownKind;

impl TryFrom<u16> for Shape {
    type Error = UnknownKind;

    ghost try_from_gives = { λ kind r. kind_named r ≡ kind_of kind };

    fn try_from(kind: u16) -> Result<Self, UnknownKind> {
        match kind {
            1 => Ok(Shape::Atom(Comparison::Less)),
            2 => Ok(Shape::Atom(Comparison::AtMost)),
            3 => Ok(Shape::Atom(Comparison::Equal)),
            4 => Ok(Shape::Not),
            5 => Ok(Shape::List(true)),
            6 => Ok(Shape::List(false)),
            7 => Ok(Shape::Quantifier(false)),
            8 => Ok(Shape::Quantifier(true)),
            9 => Ok(Shape::Window),
            _ => Err(UnknownKind),
        }
    }
}

impl Shape {
    // How many bytes a record of the kind has.
    pub fn bytes(self) -> usize
        ensures { result ≡ shape_size self }
    {
        match self {
            Shape::Atom(_) => ATOM_BYTES,
            Shape::Not => NOT_BYTES,
            Shape::List(_) => LIST_BYTES,
            Shape::Quantifier(_) => QUANTIFIER_BYTES,
            Shape::Window => WINDOW_BYTES,
        }
    }
}

// A WINDOW: lo <= variable <= hi.
#[derive(Clone, Copy)]
pub struct Window {
    pub variable: usize,
    pub lo: i64,
    pub hi: i64,
}

// A quantifier: EVERY or SOME, and its variable.
#[derive(Clone, Copy)]
pub struct Binder {
    pub every: bool,
    pub variable: usize,
}

// A part of the caller's bytes.
#[derive(Clone, Copy)]
pub struct Part {
    pub at: usize,
    pub length: usize,
}

// The body of the last quantifier, as that part of the caller's bytes: empty where there is none, and where the sheet is refused. It is the part
// that begins at the look's offset, and no other with the same bytes.
pub fn look(s: &[u8]) -> &[u8]
    ensures result_value { result.now ≡ look s.now }
    ensures ref_ptr_value { (result.ref_ptr.0 ≡ s.entry.ref_ptr.0) × (result.ref_ptr.1 ≡ (look_part s.now).at + s.entry.ref_ptr.1) }
{
    let part = look_part(s);
    let at = part.at;
    let end = at + part.length;
    &s[at..end]
}
