// The table of marks of a body: for each of its atoms, whether it comes out as it is at every point. The atom that begins where n bytes are left has its
// mark at n / 40: two atoms are at least 40 bytes apart.
ghost use Rattle.std.specs.Prelude.{◌≡◌, ◌*◌, ◌<◌, length, true};
ghost use Rattle.reading.specs.Limits.{M, variables};
ghost use Rattle.reading.specs.Formula.{Free};
ghost use Rattle.reading.specs.Reading.{tree_of, Begins, Exactly};
ghost use Rattle.reading.specs.Views.{IsAtom};
ghost use Rattle.exact.specs.Numbers.{Each};
ghost use Rattle.replacement.specs.Marking.{is_plain, Unchanged, Marked};

use exact::{all_zero, gcd_all};
use reading::{Shape, coefficient_at, record_bytes, row_at, shape_at};

// Whether an atom that keeps its sum comes out as it is: a variable is left, and the numbers are divided.
fn is_plain(ns: [i64; 9]) -> bool
    requires { Each M ns }
    ensures { result ≡ is_plain ns }
{
    !all_zero(&ns[..8]) && gcd_all(&ns) == 1
}

// Whether the atom at the start of s comes out as it is, by its numbers.
pub fn is_unchanged(s: &[u8], x: usize) -> bool
    requires begins { Begins s.now (tree_of s.now) }
    requires atom { IsAtom (tree_of s.now) }
    requires x_lt_variables { x < variables }
    ensures { result ≡ true → Unchanged x (tree_of s.now) }
{
    coefficient_at(s, x) == 0 && is_plain(row_at(s))
}

// The mark of the record at the start of s.
fn mark_of(s: &[u8], x: usize) -> bool
    requires begins { Begins s.now (tree_of s.now) }
    requires x_lt_variables { x < variables }
    ensures { result ≡ true → Unchanged x (tree_of s.now) }
{
    match shape_at(s) {
        Shape::Atom(_) => is_unchanged(s, x),
        Shape::Not => false,
        Shape::List(_) => false,
        Shape::Quantifier(_) => false,
        Shape::Window => false,
    }
}

// The marks of the formula s. The way goes from record to record by their lengths, so no index is counted.
pub fn mark(s: &[u8], x: usize, marks: &mut [bool])
    requires exactly { Exactly s.now (tree_of s.now) × Free (tree_of s.now) }
    requires x_lt_variables { x < variables }
    requires s_len_bound { length s.now < 40 * length marks.old }
    ensures { Marked x marks.new (length s.now) (tree_of s.now) }
{
    let mut at = 0;
    while at < s.len() {
        let i = (s.len() - at) / 40;
        marks[i] = mark_of(&s[at..], x);
        at += record_bytes(&s[at..]);
    }
}
