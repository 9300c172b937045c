// What the record says that a formula begins with: its kind, and the fields of each kind. The crates above see a record by these alone. Each takes the
// bytes themselves and asks that they begin with a formula, as docs/PROMISES.md shows them: a type for such bytes would ask its maker for the same.
ghost use Rattle.std.specs.Prelude.{◌≡◌, ◌<◌, get_or, pos};
ghost use Rattle.reading.specs.Limits.{variables};
ghost use Rattle.reading.specs.Formula.{count, size, follow, label_of, IsList};
ghost use Rattle.reading.specs.Reading.{tree_of, Begins};
ghost use Rattle.reading.specs.Views.{shape_of, IsAtom, IsWindow, IsQuantifier, numbers_of, members_of, window_of, binder_of, Follow, Passed};

use crate::numbers::{int_at, nine, u16_at};
use crate::{Binder, Shape, Window};

// The kind.
pub fn shape_at(s: &[u8]) -> Shape
    requires { Begins s.now (tree_of s.now) }
    ensures { result ≡ shape_of (tree_of s.now) }
{
    Shape::try_from(u16_at(s, 2)).unwrap_or(Shape::Window)
}

// The nine numbers of an atom.
pub fn row_at(s: &[u8]) -> [i64; 9]
    requires begins { Begins s.now (tree_of s.now) }
    requires atom { IsAtom (tree_of s.now) }
    ensures { result ≡ numbers_of (tree_of s.now) }
{
    nine(s)
}

// The coefficient of x in an atom.
pub fn coefficient_at(s: &[u8], x: usize) -> i64
    requires begins { Begins s.now (tree_of s.now) }
    requires atom { IsAtom (tree_of s.now) }
    requires x_lt_variables { x < variables }
    ensures { result ≡ get_or (numbers_of (tree_of s.now)) x (pos 0) }
{
    int_at(s, 4 + 4 * x)
}

// How many members a list has.
pub fn members_at(s: &[u8]) -> usize
    requires begins { Begins s.now (tree_of s.now) }
    requires list { IsList (tree_of s.now) }
    ensures { result ≡ count (members_of (tree_of s.now)) }
{
    u16_at(s, 4) as usize
}

// A WINDOW.
pub fn window_at(s: &[u8]) -> Window
    requires begins { Begins s.now (tree_of s.now) }
    requires window { IsWindow (tree_of s.now) }
    ensures { result ≡ window_of (tree_of s.now) }
{
    Window {
        variable: u16_at(s, 4) as usize,
        lo: int_at(s, 6),
        hi: int_at(s, 10),
    }
}

// A quantifier.
pub fn binder_at(s: &[u8]) -> Binder
    requires begins { Begins s.now (tree_of s.now) }
    requires quantifier { IsQuantifier (tree_of s.now) }
    ensures { result ≡ binder_of (tree_of s.now) }
{
    Binder {
        every: u16_at(s, 2) == 8,
        variable: u16_at(s, 4) as usize,
    }
}

// How many bytes the record has.
pub fn record_bytes(s: &[u8]) -> usize
    requires { Begins s.now (tree_of s.now) }
    ensures { result ≡ size (label_of (tree_of s.now)) }
{
    u16_at(s, 0) as usize
}

// How many formulas follow it.
pub fn followers(s: &[u8]) -> usize
    requires { Begins s.now (tree_of s.now) }
    ensures { result ≡ follow (label_of (tree_of s.now)) }
{
    match shape_at(s) {
        Shape::Atom(_) | Shape::Window => 0,
        Shape::Not | Shape::Quantifier(_) => 1,
        Shape::List(_) => members_at(s),
    }
}

// Where `left` formulas end that stand from `at` on, record by record.
pub fn past(s: &[u8], at: usize, left: usize) -> usize
    requires { Follow s.now at left }
    ensures { Passed s.now at left result }
{
    let mut p = at;
    let mut k = left;
    // No index is counted: a record adds the formulas that follow it to those that are left.
    while k > 0 {
        k = k - 1 + followers(&s[p..]);
        p += record_bytes(&s[p..]);
    }
    p
}
