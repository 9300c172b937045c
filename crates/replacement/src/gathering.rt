// The boundary terms of a body: ten numbers each, in a table of at most 64. A term stands where it first appears and is not taken again.
ghost use Rattle.std.specs.Prelude.{cond, length, eqb, ◌<◌};
ghost use Rattle.reading.specs.Limits.{M, variables};
ghost use Rattle.reading.specs.Formula.{atom_size, window_size, encode, IsList};
ghost use Rattle.reading.specs.Reading.{tree_of};
ghost use Rattle.exact.specs.Numbers.{at, is_zero, Within, Each};
ghost use Rattle.exact.specs.Terms.{term_of, bound_of};
ghost use Rattle.rules.specs.Points.{insert, gather};
ghost use Rattle.replacement.specs.Gathering.{Table, Gathers, Collected};

use crate::TooMany;
use arrayvec::ArrayVec;
use exact::{bound_of, same_row, term_of};
use reading::{
    ATOM_BYTES, LIST_BYTES, NOT_BYTES, Shape, WINDOW_BYTES, Window, members_at, row_at, shape_at,
    window_at,
};

// The boundary terms of one step: ten numbers each, at most 64.
pub type Terms = ArrayVec<[i64; 10], 64>;

// t after the terms, unless it is among them.
fn add(ts: &mut Terms, t: [i64; 10]) -> Result<(), TooMany>
    requires table { Table ts.old.items }
    requires each { Each M t }
    ensures { Collected tt (insert t ts.old.items) ts.new.items result }
{
    if ts.iter().any(|u| same_row(u, &t)) {
        return Ok(());
    }
    if ts.is_full() {
        return Err(TooMany);
    }
    ts.push(t);
    Ok(())
}

// The term of an atom that has x; the length of its record.
fn of_atom(ns: [i64; 9], x: usize, ts: &mut Terms) -> Result<usize, TooMany>
    requires x_lt_variables { x < variables }
    requires each { Each M ns }
    requires table { Table ts.old.items }
    ensures { Collected atom_size (cond (is_zero (at ns x)) ts.old.items (insert (term_of ns x) ts.old.items)) ts.new.items result }
{
    if ns[x] != 0 {
        add(ts, term_of(ns, x))?;
    }
    Ok(ATOM_BYTES)
}

// The terms of a window on x: lo, then hi; the length of its record.
fn of_window(w: Window, x: usize, ts: &mut Terms) -> Result<usize, TooMany>
    requires within { Within M w.lo }
    requires within_2 { Within M w.hi }
    requires table { Table ts.old.items }
    ensures { Collected window_size (cond (eqb w.variable x) (insert (bound_of w.hi) (insert (bound_of w.lo) ts.old.items)) ts.old.items) ts.new.items result }
{
    if w.variable == x {
        add(ts, bound_of(w.lo))?;
        add(ts, bound_of(w.hi))?;
    }
    Ok(WINDOW_BYTES)
}

// The terms and those in x of the formula that s begins with; its length. A quantifier is never met.
#[cycle(gather_gather_list)]
pub fn gather(s: &[u8], x: usize, ts: &mut Terms) -> Result<usize, TooMany>
    requires { Gathers s.now x ts.old.items }
    ensures { Collected (length (encode (tree_of s.now))) (gather x (tree_of s.now) ts.old.items) ts.new.items result }
{
    match shape_at(s) {
        Shape::Atom(_) => of_atom(row_at(s), x, ts),
        Shape::Not => Ok(NOT_BYTES + gather(&s[NOT_BYTES..], x, ts)?),
        Shape::List(_) => gather_list(s, x, ts),
        Shape::Quantifier(_) => Err(TooMany),
        Shape::Window => of_window(window_at(s), x, ts),
    }
}

// The same for a list, member by member.
#[cycle(gather_gather_list)]
fn gather_list(s: &[u8], x: usize, ts: &mut Terms) -> Result<usize, TooMany>
    requires gathers { Gathers s.now x ts.old.items }
    requires list { IsList (tree_of s.now) }
    ensures { Collected (length (encode (tree_of s.now))) (gather x (tree_of s.now) ts.old.items) ts.new.items result }
{
    let mut at: usize = LIST_BYTES;
    for _ in 0..members_at(s) {
        at += gather(&s[at..], x, ts)?;
    }
    Ok(at)
}
