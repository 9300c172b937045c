// A copy of a formula at a point, in one pass: NOT is pushed inward, WINDOW is opened, each atom is decided or written, and the list rule is applied
// on the way.
ghost use Rattle.std.specs.Prelude.{true, false, ◌≡◌, ◌+◌, ◌≤◌, ◌<◌, length};
ghost use Rattle.reading.specs.Limits.{M, variables};
ghost use Rattle.reading.specs.Formula.{atom, list, encode, atom_size, window_size};
ghost use Rattle.reading.specs.Reading.{tree_of, Begins};
ghost use Rattle.reading.specs.Views.{comparison_in, shape_of, IsAtom};
ghost use Rattle.exact.specs.Numbers.{Within, Each};
ghost use Rattle.exact.specs.Atoms.{spot_of, Ready};
ghost use Rattle.rules.specs.Pushing.{two, push_atom, push_window, push};
ghost use Rattle.replacement.specs.Listing.{Wrote};
ghost use Rattle.replacement.specs.Marking.{Unchanged, HasMarks};
ghost use Rattle.replacement.specs.Copying.{came, Asks};

use crate::marking::is_unchanged;
use crate::{Came, Copied, Open, Pass, TooBig};
use exact::{Point, Put, atom_at, negated, single};
use reading::{
    ATOM_BYTES, Comparison, LIST_BYTES, NOT_BYTES, Shape, WINDOW_BYTES, Window, members_at, past,
    row_at, shape_at, window_at,
};

// One atom at the point, written at `to` where it stays; used is the length of its source.
fn atom(
    c: Comparison,
    ns: [i64; 9],
    q: Point,
    out: &mut [u8],
    to: usize,
    used: usize,
) -> Result<Copied, TooBig>
    requires each { Each M ns }
    requires ready { Ready q }
    requires atom_size_in_bounds { to + atom_size ≤ length out.old }
    ensures { Wrote (came (spot_of q) (atom (comparison_in c) ns)) used to out.old out.new result }
{
    let came = match atom_at(c, ns, q) {
        Put::Decided(v) => Came::Decided(v),
        Put::New(k) => {
            writing::put_atom(out, to, c.number(), &k);
            Came::Kept(to + ATOM_BYTES)
        }
        Put::Large(_) => return Err(TooBig),
    };
    Ok(Copied { used, came })
}

// A list of two atoms of one comparison.
fn pair(
    all: bool,
    c: Comparison,
    a: [i64; 9],
    b: [i64; 9],
    q: Point,
    out: &mut [u8],
    to: usize,
    used: usize,
) -> Result<Copied, TooBig>
    requires each { Each M a }
    requires each_2 { Each M b }
    requires ready { Ready q }
    requires to_in_bounds { to + 86 ≤ length out.old }
    ensures { Wrote (came (spot_of q) (list all (two (atom (comparison_in c) a) (atom (comparison_in c) b)))) used to out.old out.new result }
{
    let none = Open::opened(all, to);
    let first = atom(c, a, q, out, none.end, 0)?;
    let one = none.taken(first.came);
    let second = atom(c, b, q, out, one.end, 0)?;
    Ok(one.taken(second.came).closed(out, used))
}

// A WINDOW, under NOT or not.
fn window(w: Window, neg: bool, q: Point, out: &mut [u8], to: usize) -> Result<Copied, TooBig>
    requires variable_lt_variables { w.variable < variables }
    requires within { Within M w.lo }
    requires within_2 { Within M w.hi }
    requires to_in_bounds { to + 86 ≤ length out.old }
    requires ready { Ready q }
    ensures { Wrote (came (spot_of q) (push_window neg w.variable w.lo w.hi)) window_size to out.old out.new result }
{
    let Window { variable, lo, hi } = w;
    if neg {
        pair(
            false,
            Comparison::Less,
            single(variable, 1, exact::neg(lo)),
            single(variable, -1, hi),
            q,
            out,
            to,
            WINDOW_BYTES,
        )
    } else {
        pair(
            true,
            Comparison::AtMost,
            single(variable, -1, lo),
            single(variable, 1, exact::neg(hi)),
            q,
            out,
            to,
            WINDOW_BYTES,
        )
    }
}

// An atom under NOT.
fn denied(
    c: Comparison,
    ns: [i64; 9],
    q: Point,
    out: &mut [u8],
    to: usize,
) -> Result<Copied, TooBig>
    requires each { Each M ns }
    requires to_in_bounds { to + 86 ≤ length out.old }
    requires ready { Ready q }
    ensures { Wrote (came (spot_of q) (push_atom true (comparison_in c) ns)) atom_size to out.old out.new result }
{
    match c {
        Comparison::Less => atom(Comparison::AtMost, negated(ns), q, out, to, ATOM_BYTES),
        Comparison::AtMost => atom(Comparison::Less, negated(ns), q, out, to, ATOM_BYTES),
        Comparison::Equal => pair(
            false,
            Comparison::Less,
            ns,
            negated(ns),
            q,
            out,
            to,
            ATOM_BYTES,
        ),
    }
}

// An atom, under NOT or not.
fn literal(
    c: Comparison,
    ns: [i64; 9],
    neg: bool,
    q: Point,
    out: &mut [u8],
    to: usize,
) -> Result<Copied, TooBig>
    requires each { Each M ns }
    requires to_in_bounds { to + 86 ≤ length out.old }
    requires ready { Ready q }
    ensures { Wrote (came (spot_of q) (push_atom neg (comparison_in c) ns)) atom_size to out.old out.new result }
{
    if neg {
        denied(c, ns, q, out, to)
    } else {
        atom(c, ns, q, out, to, ATOM_BYTES)
    }
}

impl Pass<'_> {
    // Whether the atom at the start of s comes out as it is: by its mark where there is a table, else by its numbers.
    fn stays(&self, s: &[u8], neg: bool) -> bool
        requires begins { Begins s.now (tree_of s.now) }
        requires atom { IsAtom (tree_of s.now) }
        requires x_lt_variables { self.now.point.x < variables }
        requires has_marks { self.now.way.marked ≡ true → HasMarks self.now.point.x s.now self.now.marks.now }
        ensures { result ≡ true → (neg ≡ false) × Unchanged self.now.point.x (tree_of s.now) }
    {
        if neg {
            false
        } else if self.way.marked {
            self.marks[s.len() / 40]
        } else {
            is_unchanged(s, self.point.x)
        }
    }

    // The atom at the start of s; where it comes out as it is, its own bytes.
    fn leaf(
        &self,
        s: &[u8],
        c: Comparison,
        neg: bool,
        out: &mut [u8],
        to: usize,
    ) -> Result<Copied, TooBig>
        requires asks { Asks s.now neg self.now.way self.now.point to (length out.old) self.now.marks.now }
        requires s_value { shape_of (tree_of s.now) ≡ Shape.Atom c }
        ensures { Wrote (came (spot_of self.now.point) (push neg (tree_of s.now))) (length (encode (tree_of s.now))) to out.old out.new result }
    {
        if self.stays(s, neg) {
            writing::paste(out, to, &s[..ATOM_BYTES]);
            return Ok(Copied {
                used: ATOM_BYTES,
                came: Came::Kept(to + ATOM_BYTES),
            });
        }
        literal(c, row_at(s), neg, self.point, out, to)
    }

    // The formula at the start of s, under NOT or not, written from `to` on. A quantifier is never met.
    #[cycle(copied_copied_list)]
    pub fn copied(&self, s: &[u8], neg: bool, out: &mut [u8], to: usize) -> Result<Copied, TooBig>
        requires { Asks s.now neg self.now.way self.now.point to (length out.old) self.now.marks.now }
        ensures { Wrote (came (spot_of self.now.point) (push neg (tree_of s.now))) (length (encode (tree_of s.now))) to out.old out.new result }
    {
        match shape_at(s) {
            Shape::Atom(c) => self.leaf(s, c, neg, out, to),
            Shape::Not => {
                let r = self.copied(&s[NOT_BYTES..], !neg, out, to)?;
                Ok(Copied {
                    used: NOT_BYTES + r.used,
                    ..r
                })
            }
            Shape::List(all) => self.copied_list(s, all, neg, out, to),
            Shape::Quantifier(_) => Err(TooBig),
            Shape::Window => window(window_at(s), neg, self.point, out, to),
        }
    }

    // The list at the start of s, ALLOF or not, each member under NOT or not. Where no number comes out too big, a list that is decided skips its other
    // members.
    #[cycle(copied_copied_list)]
    fn copied_list(
        &self,
        s: &[u8],
        all: bool,
        neg: bool,
        out: &mut [u8],
        to: usize,
    ) -> Result<Copied, TooBig>
        requires asks { Asks s.now neg self.now.way self.now.point to (length out.old) self.now.marks.now }
        requires s_value { shape_of (tree_of s.now) ≡ Shape.List all }
        ensures { Wrote (came (spot_of self.now.point) (push neg (tree_of s.now))) (length (encode (tree_of s.now))) to out.old out.new result }
    {
        let n = members_at(s);
        let mut l = Open::opened(all != neg, to);
        let mut at: usize = LIST_BYTES;
        for i in 0..n {
            let r = self.copied(&s[at..], neg, out, l.end)?;
            at += r.used;
            l = l.taken(r.came);
            if self.way.calm && l.fixed {
                return Ok(Copied {
                    used: past(s, at, n - 1 - i),
                    came: Came::Decided(!l.all),
                });
            }
        }
        Ok(l.closed(out, at))
    }
}
