// The replacement of a quantifier over a body: what is known of the body, its copies at all points, and the list rule over them.
ghost use Rattle.std.specs.Prelude.{false, ◌≡◌, ◌*◌, ◌≤◌, ◌<◌, length};
ghost use Rattle.reading.specs.Limits.{variables};
ghost use Rattle.reading.specs.Formula.{list, none, Free};
ghost use Rattle.reading.specs.Reading.{tree_of, Exactly};
ghost use Rattle.rules.specs.Pushing.{push};
ghost use Rattle.rules.specs.Points.{points, terms};
ghost use Rattle.replacement.specs.Gathering.{Table};
ghost use Rattle.replacement.specs.Trying.{Copiable, Sure};
ghost use Rattle.replacement.specs.Replacing.{Told, Put, Closable, Replaces, MadeOf};

use crate::{Body, Came, Copies, Source, Unmade, Way, marking, surveying};
use reading::RESULT_BYTES;

// From so many boundary terms on it pays to mark the atoms that come out as they are.
const ENOUGH_TERMS: usize = 4;

// The true or the false record at the start of out; its length.
fn sure(out: &mut [u8], v: bool) -> usize
    requires { 6 ≤ length out.old }
    ensures { Put (list v none) out.new result }
{
    writing::put_list(out, 0, v, 0);
    6
}

// The list of the copies closed by the list rule, as a formula at the start of out; its length, or one more than a result may have. No number is
// judged here, so closing never comes out big.
fn replaced(c: Copies, out: &mut [u8]) -> usize
    requires { Closable c (length out.old) }
    ensures { Replaces c out.old out.new result }
{
    if c.list.fixed {
        return sure(out, !c.list.all);
    }
    if c.over {
        return RESULT_BYTES + 1;
    }
    match c.list.closed(out, 0).came {
        Came::Decided(v) => sure(out, v),
        Came::Kept(e) => e,
    }
}

impl Source<'_> {
    // The replacement of a quantifier over the body, at the start of out; ts are the body's boundary terms.
    pub fn made(&self, ts: &[[i64; 10]], all: bool, out: &mut [u8]) -> Result<usize, Unmade>
        requires copiable { Copiable self.now.bytes.now self.now.body (length out.old) self.now.marks.now }
        requires table { Table ts.now × (ts.now ≡ terms self.now.body.x (tree_of self.now.bytes.now)) }
        requires sure { Sure self.now.body (points self.now.body.x (terms self.now.body.x (tree_of self.now.bytes.now))) (push false (tree_of self.now.bytes.now)) }
        ensures { MadeOf all self.now.body (tree_of self.now.bytes.now) (length out.old) out.new result }
    {
        Ok(replaced(self.all_copies(ts, all, out)?, out))
    }
}

// What is known of the body s, of n terms, for the variable x; its marks, from so many terms on that they pay.
pub fn body_of(s: &[u8], x: usize, n: usize, marks: &mut [bool]) -> Body
    requires exactly { Exactly s.now (tree_of s.now) × Free (tree_of s.now) }
    requires x_lt_variables { x < variables }
    requires s_len_bound { length s.now < 40 * length marks.old }
    ensures { Told (tree_of s.now) x (length s.now) marks.new result }
{
    let v = surveying::survey(s, x);
    let marked = ENOUGH_TERMS <= n;
    if marked {
        marking::mark(s, x, marks);
    }
    Body {
        x,
        bytes: s.len(),
        way: Way {
            calm: surveying::is_tame(v),
            marked,
        },
    }
}
