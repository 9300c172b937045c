// Exact arithmetic: greatest common divisors, reduced rows, boundary terms, midpoints, and an atom at a point. No public call of the product stands
// here: what is shown is for the crate above and for the program that runs stored cases, and asks for sizes that these meet.
#![tactic(auto)]

mod atom;
mod number;
mod row;
mod term;

pub use atom::{Compares, atom_at, comparison_of, holds};
pub use number::{abs, gcd, neg};
pub use row::{all_within, all_zero, gcd_all, negated, reduce, same_row, single, within_all};
pub use term::{bound_of, left, midpoint, term_of};

// M: coefficients, constants, lo and hi lie in -M..M.
pub const MOST: u64 = reading::MOST as u64;

// Where a point lies: below all numbers, above all, at a fraction, which is eight coefficients, a constant and a denominator, or nowhere (the
// finishing pass).
#[derive(Clone, Copy, Debug, PartialEq, Eq)]
pub enum Place {
    Below,
    Above,
    At([i64; 10]),
    Nowhere,
}

// A point for the variable x.
#[derive(Clone, Copy, Debug, PartialEq, Eq)]
pub struct Point {
    pub x: usize,
    pub place: Place,
}

// How an atom comes out at a point: decided, as nine numbers in -M..M, or as nine of which one is larger.
#[derive(Clone, Copy, Debug, PartialEq, Eq)]
pub enum Put {
    Decided(bool),
    New([i64; 9]),
    Large([i64; 9]),
}
