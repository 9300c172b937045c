// The copies of a body at all points: at -infinity and, where there is a boundary term, at +infinity and at the midpoint of each two terms. A
// number that is too big ends the work at once, and so does a copy that decides the list where no number can be too big.
ghost use Rattle.reading.specs.Formula.{none};
ghost use Rattle.std.specs.Prelude.{[], ◌∷◌, length, false, ◌≡◌, ◌+◌, ◌<◌};
ghost use Rattle.exact.specs.Atoms.{Bounded, spot_by, here};
ghost use Rattle.rules.specs.Pushing.{push};
ghost use Rattle.rules.specs.Points.{midpoints, all_midpoints, points};
ghost use Rattle.replacement.specs.Listing.{going, tally};
ghost use Rattle.replacement.specs.Gathering.{Row, Table};
ghost use Rattle.replacement.specs.Trying.{joined_of, ends_of, Tells, Tries, try_all, Sure, Copiable, Holding};
ghost use Rattle.exact.specs.Terms.{midpoint};
ghost use Rattle.reading.specs.Reading.{tree_of};

use crate::{Came, Copies, Open, Pass, Source, Unmade};
use exact::{Place, Point, midpoint, within_all};

// Where the list may end: a result, and the six bytes that a list left with one member gives back.
const LIST_END: usize = reading::RESULT_BYTES + 6;

impl Copies {
    // The list after one copy.
    fn joined(self, r: Came) -> Copies
        requires { self.list.kept + 1 < 18446744073709551616 }
        ensures { result ≡ joined_of self r }
    {
        match r {
            Came::Decided(v) => Copies {
                list: self.list.decided(v),
                ..self
            },
            Came::Kept(e) => {
                if self.over {
                    self
                } else if LIST_END < e {
                    Copies { over: true, ..self }
                } else {
                    Copies {
                        list: self.list.kept(e),
                        ..self
                    }
                }
            }
        }
    }

    // Whether the copies end here: the list is decided, and no number can be too big.
    fn ends(self, calm: bool) -> bool
        ensures { result ≡ ends_of self calm }
    {
        calm && self.list.fixed
    }
}

impl Source<'_> {
    // One copy more, at the place, where there is room for it.
    fn with_copy(&self, place: Place, c: Copies, out: &mut [u8]) -> Result<Copies, Unmade>
        requires copiable { Copiable self.now.bytes.now self.now.body (length out.old) self.now.marks.now }
        requires bounded { Bounded place }
        requires sure { Sure self.now.body (spot_by place self.now.body.x ∷ []) (push false (tree_of self.now.bytes.now)) }
        requires holding { Holding c out.old }
        ensures { Tries self.now.body.bytes c (try_all (spot_by place self.now.body.x ∷ []) (push false (tree_of self.now.bytes.now))) out.old out.new result }
    {
        let to = c.list.end;
        if out.len() < to + 7 * self.body.bytes {
            return Err(Unmade::Short);
        }
        let pass = Pass {
            point: Point {
                x: self.body.x,
                place,
            },
            way: self.body.way,
            marks: self.marks,
        };
        let r = pass.copied(self.bytes, false, out, to)?;
        Ok(c.joined(r.came))
    }

    // The copy at the midpoint of the terms t and u, unless one of the midpoint's own numbers is too big.
    fn at_midpoint(
        &self,
        t: &[i64; 10],
        u: &[i64; 10],
        c: Copies,
        out: &mut [u8],
    ) -> Result<Copies, Unmade>
        requires copiable { Copiable self.now.bytes.now self.now.body (length out.old) self.now.marks.now }
        requires rows { (Row t.now) × (Row u.now) }
        requires sure { Sure self.now.body (here self.now.body.x (midpoint t.now u.now) ∷ []) (push false (tree_of self.now.bytes.now)) }
        requires holding { Holding c out.old }
        ensures { Tries self.now.body.bytes c (try_all (here self.now.body.x (midpoint t.now u.now) ∷ []) (push false (tree_of self.now.bytes.now))) out.old out.new result }
    {
        let n = midpoint(t, u);
        if !within_all(&n) {
            return Err(Unmade::Big);
        }
        self.with_copy(Place::At(n), c, out)
    }

    // The copies at the midpoints of the term t with each term of us.
    fn row_of(
        &self,
        t: &[i64; 10],
        us: &[[i64; 10]],
        c: Copies,
        out: &mut [u8],
    ) -> Result<Copies, Unmade>
        requires copiable { Copiable self.now.bytes.now self.now.body (length out.old) self.now.marks.now }
        requires row { Row t.now }
        requires table { Table us.now }
        requires sure { Sure self.now.body (midpoints self.now.body.x t.now us.now) (push false (tree_of self.now.bytes.now)) }
        requires holding { Holding c out.old }
        ensures { Tries self.now.body.bytes c (try_all (midpoints self.now.body.x t.now us.now) (push false (tree_of self.now.bytes.now))) out.old out.new result }
    {
        let calm = self.body.way.calm;
        let mut d = c;
        for u in us {
            d = self.at_midpoint(t, u, d, out)?;
            if d.ends(calm) {
                return Ok(d);
            }
        }
        Ok(d)
    }

    // The copies at the midpoints of each two terms: of each with itself and each later one.
    fn rows(&self, ts: &[[i64; 10]], c: Copies, out: &mut [u8]) -> Result<Copies, Unmade>
        requires copiable { Copiable self.now.bytes.now self.now.body (length out.old) self.now.marks.now }
        requires table { Table ts.now }
        requires sure { Sure self.now.body (all_midpoints self.now.body.x ts.now) (push false (tree_of self.now.bytes.now)) }
        requires holding { Holding c out.old }
        ensures { Tries self.now.body.bytes c (try_all (all_midpoints self.now.body.x ts.now) (push false (tree_of self.now.bytes.now))) out.old out.new result }
    {
        let calm = self.body.way.calm;
        let mut d = c;
        for (i, t) in ts.iter().enumerate() {
            d = self.row_of(t, &ts[i..], d, out)?;
            if d.ends(calm) {
                return Ok(d);
            }
        }
        Ok(d)
    }

    // The list of the copies at all points of the body's variable; ts are its boundary terms.
    pub(crate) fn all_copies(
        &self,
        ts: &[[i64; 10]],
        all: bool,
        out: &mut [u8],
    ) -> Result<Copies, Unmade>
        requires copiable { Copiable self.now.bytes.now self.now.body (length out.old) self.now.marks.now }
        requires table { Table ts.now }
        requires sure { Sure self.now.body (points self.now.body.x ts.now) (push false (tree_of self.now.bytes.now)) }
        ensures { Tells all (tally all (going false none) (try_all (points self.now.body.x ts.now) (push false (tree_of self.now.bytes.now)))) self.now.body.bytes (length out.old) out.old out.new result }
    {
        let calm = self.body.way.calm;
        let c = Copies {
            list: Open::opened(all, 0),
            over: false,
        };
        let d = self.with_copy(Place::Below, c, out)?;
        if d.ends(calm) {
            return Ok(d);
        }
        if ts.is_empty() {
            return Ok(d);
        }
        let e = self.with_copy(Place::Above, d, out)?;
        if e.ends(calm) {
            return Ok(e);
        }
        self.rows(ts, e, out)
    }
}
