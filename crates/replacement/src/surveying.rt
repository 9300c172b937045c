// A look over a body before its copies are made, record by record: how large the numbers are of the atoms that have x.
ghost use Rattle.std.specs.Prelude.{◌≡◌, true, ℕ, ◌≤◌, ◌<◌, nat_abs, length};
ghost use Rattle.reading.specs.Limits.{M, variables};
ghost use Rattle.reading.specs.Formula.{Comparison, atom, window, encode, Free};
ghost use Rattle.reading.specs.Reading.{tree_of, Begins};
ghost use Rattle.exact.specs.Numbers.{Within, Each};
ghost use Rattle.exact.specs.Terms.{left_at};
ghost use Rattle.rules.specs.Tame.{tame};
ghost use Rattle.replacement.specs.Surveying.{Small, Grows, Sees, SeesLeaf};

use crate::Survey;
use exact::{MOST, abs};
use reading::{Shape, Window, record_bytes, row_at, shape_at, window_at};

// The greatest size of a number of the row, that of x left out.
fn others(ns: &[i64], x: usize) -> u64
    requires { Each M ns.now }
    ensures { ((i : ℕ) → nat_abs (left_at ns.now x i) ≤ result) × (result ≤ M) }
{
    let mut m: u64 = 0;
    for (i, z) in ns.iter().enumerate() {
        if i != x {
            m = m.max(abs(*z));
        }
    }
    m
}

// An atom more.
fn of_atom(ns: [i64; 9], x: usize, v: Survey) -> Survey
    requires x_lt_variables { x < variables }
    requires each { Each M ns }
    requires small { Small v }
    ensures { Grows v result × ((c : Comparison) → Sees x result (atom c ns)) }
{
    let a = ns[x];
    if a == 0 {
        return v;
    }
    Survey {
        most: v.most.max(abs(a)),
        other: v.other.max(others(&ns, x)),
    }
}

// A WINDOW more.
fn of_window(w: Window, x: usize, v: Survey) -> Survey
    requires within { Within M w.lo }
    requires within_2 { Within M w.hi }
    requires small { Small v }
    ensures { Grows v result × Sees x result (window w.variable w.lo w.hi) }
{
    if w.variable != x {
        return v;
    }
    Survey {
        most: v.most.max(1),
        other: v.other.max(abs(w.lo).max(abs(w.hi))),
    }
}

// The record more that s begins with.
fn seen(s: &[u8], x: usize, v: Survey) -> Survey
    requires begins { Begins s.now (tree_of s.now) }
    requires x_lt_variables { x < variables }
    requires small { Small v }
    ensures { Grows v result × SeesLeaf x result (tree_of s.now) }
{
    match shape_at(s) {
        Shape::Atom(_) => of_atom(row_at(s), x, v),
        Shape::Window => of_window(window_at(s), x, v),
        Shape::Not => v,
        Shape::List(_) => v,
        Shape::Quantifier(_) => v,
    }
}

// The formula s. The way goes from record to record by their lengths, so no index is counted.
pub fn survey(s: &[u8], x: usize) -> Survey
    requires begins { Begins s.now (tree_of s.now) × Free (tree_of s.now) }
    requires s_len { length s.now ≡ length (encode (tree_of s.now)) }
    requires x_lt_variables { x < variables }
    ensures { Small result × Sees x result (tree_of s.now) }
{
    let mut v = Survey { most: 0, other: 0 };
    let mut at = 0;
    while at < s.len() {
        v = seen(&s[at..], x, v);
        at += record_bytes(&s[at..]);
    }
    v
}

// Whether no number of a step can be too big: 4·a·a·t at most M, where t counts as 1 if it is 0.
pub fn is_tame(v: Survey) -> bool
    requires { Small v }
    ensures { result ≡ true → tame v.most v.other ≡ true }
{
    let a = v.most;
    let num = 2 * v.other.max(1) * a;
    if MOST < num {
        return false;
    }
    2 * a * num <= MOST
}
