// The replacement of a quantifier: the list of the copies of its body at all points, closed by the list rule.
#![tactic(auto)]

mod copying;
mod gathering;
mod listing;
mod marking;
mod replacing;
mod surveying;
mod trying;

use exact::Point;
pub use gathering::{Terms, gather};
pub use replacing::body_of;

// A number outside -M..M.
#[derive(Clone, Copy, Debug, PartialEq, Eq)]
pub struct TooBig;

// More boundary terms than a step may have.
#[derive(Clone, Copy, Debug, PartialEq, Eq)]
pub struct TooMany;

// Why the replacement of a quantifier was not made: a number was too big, or the output has no room for one copy more.
#[derive(Clone, Copy, Debug, PartialEq, Eq)]
pub enum Unmade {
    Big,
    Short,
}

impl From<TooBig> for Unmade {
    ghost use Rattle.std.specs.Prelude.{◌≡◌};
    ghost use Rattle.replacement.specs.declared.Unmade.{Unmade};

    ghost from_gives = { λ _ e. e ≡ Unmade.Big };

    fn from(_e: TooBig) -> Unmade {
        Unmade::Big
    }
}

// How a formula came out at a point: true or false; or kept, with the end of its bytes in the output.
#[derive(Clone, Copy, Debug, PartialEq, Eq)]
pub enum Came {
    Decided(bool),
    Kept(usize),
}

// A formula that was copied: how many bytes it has itself, and how it came out.
#[derive(Clone, Copy, Debug, PartialEq, Eq)]
pub struct Copied {
    pub used: usize,
    pub came: Came,
}

// A list that is being written from `start` on: ALLOF or ANYOF, where the next member goes, how many members are kept, and whether one has
// decided it.
#[derive(Clone, Copy)]
pub struct Open {
    pub all: bool,
    pub start: usize,
    pub end: usize,
    pub kept: usize,
    pub fixed: bool,
}

// What is seen of a body before its copies are made: the greatest size of a coefficient of x and of any other number, in the atoms that have x.
#[derive(Clone, Copy)]
pub struct Survey {
    pub most: u64,
    pub other: u64,
}

// What may be counted on while a formula is copied: no number comes out too big; and the table of marks tells which atoms come out as they are. The
// table is the caller's, lent to be written and then to be read, so that it was written is told beside it: an Option of it would be made of that flag.
#[derive(Clone, Copy)]
pub struct Way {
    pub calm: bool,
    pub marked: bool,
}

// One pass over a formula: at which point it is copied, what may be counted on, and the marks of its atoms.
#[derive(Clone, Copy)]
pub struct Pass<'a> {
    pub point: Point,
    pub way: Way,
    pub marks: &'a [bool],
}

// A body: its variable, how many bytes it has, and what may be counted on.
#[derive(Clone, Copy)]
pub struct Body {
    pub x: usize,
    pub bytes: usize,
    pub way: Way,
}

// What copies are made of: the bytes that begin with the body, what is known of it, and the marks of its atoms.
#[derive(Clone, Copy)]
pub struct Source<'a> {
    pub bytes: &'a [u8],
    pub body: Body,
    pub marks: &'a [bool],
}

// The list of the copies while it is written, and whether it is longer than any result may be. One that is may still be decided, and then its length
// does not matter: so the two stand side by side.
#[derive(Clone, Copy)]
pub struct Copies {
    pub list: Open,
    pub over: bool,
}
