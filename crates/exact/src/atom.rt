// An atom at a point: it comes out true, false or as one new atom.
ghost use Rattle.std.specs.Prelude.{◌≡◌, ◌<◌, length};
ghost use Rattle.reading.specs.Limits.{M, variables};
ghost use Rattle.reading.specs.Formula.{Comparison as Rules};
ghost use Rattle.reading.specs.Views.{comparison_case, comparison_in};
ghost use Rattle.exact.specs.Numbers.{Each};
ghost use Rattle.exact.specs.Atoms.{holds, far_of, comparison_of, put_of, settled, point_of, atom_at, spot_of, Ready};

use crate::{Place, Point, Put, number, row, term};
use reading::Comparison;

// What says which comparison an atom has: the comparison itself, or the number of its kind.
pub trait Compares {
    ghost compared: { Self → Rules };

    fn comparison(self) -> Comparison
        ensures { comparison_in result ≡ compared self };
}

impl Compares for Comparison {
    ghost compared = { comparison_in };

    fn comparison(self) -> Comparison {
        self
    }
}

impl Compares for u8 {
    ghost compared = { comparison_of };

    fn comparison(self) -> Comparison {
        comparison_of(self)
    }
}

// The comparison of each number: LESS of 1, ATMOST of 2, EQUAL of 3 and of every other.
pub fn comparison_of(kind: u8) -> Comparison
    ensures { result ≡ comparison_case (comparison_of kind) }
{
    match kind {
        1 => Comparison::Less,
        2 => Comparison::AtMost,
        _ => Comparison::Equal,
    }
}

// The comparison of z with 0.
pub fn holds<C: Compares>(c: C, z: i64) -> bool
    ensures { result ≡ holds (C.compared c) z }
{
    match c.comparison() {
        Comparison::Less => z < 0,
        Comparison::AtMost => z <= 0,
        Comparison::Equal => z == 0,
    }
}

// An atom whose sum is done: decided where no variable is left, otherwise divided.
pub fn settled(c: Comparison, ns: [i64; 9]) -> Put
    requires { Each 9223372036854775807 ns }
    ensures { result ≡ put_of (settled (comparison_in c) ns) }
{
    if row::all_zero(&ns[..8]) {
        return Put::Decided(holds(c, ns[8]));
    }
    let mut b = ns;
    row::reduce(&mut b);
    let fits = row::within_all(&b);
    if fits { Put::New(b) } else { Put::Large(b) }
}

// The atom's sum at the point n/d, not reduced: a·n + d·t.
pub fn at_point(ns: &[i64; 9], x: usize, n: &[i64; 10]) -> [i64; 9]
    requires x_is_low { x < variables }
    requires each { Each M ns.now }
    requires each_2 { Each M n.now }
    ensures { result ≡ point_of ns.now x n.now }
{
    let a = ns[x];
    let d = n[9];
    let mut m = [0i64; 9];
    for i in 0..9 {
        let t = term::left(ns, x, i);
        let sum = number::mul_add(a, n[i], d, t);
        m[i] = sum;
    }
    m
}

// Whether a comparison holds far out, where the sum falls below all numbers or rises above all.
fn far(c: Comparison, falls: bool) -> bool
    ensures { result ≡ far_of (comparison_in c) falls }
{
    match c {
        Comparison::Less | Comparison::AtMost => falls,
        Comparison::Equal => false,
    }
}

// The atom at the point. Without the point's variable it keeps its sum.
pub fn atom_at<C: Compares>(c: C, ns: [i64; 9], q: Point) -> Put
    requires each { Each M ns }
    requires ready { Ready q }
    ensures { result ≡ put_of (atom_at (spot_of q) (C.compared c) ns) }
{
    compared_at(c.comparison(), ns, q)
}

fn compared_at(c: Comparison, ns: [i64; 9], q: Point) -> Put
    requires each { Each M ns }
    requires ready { Ready q }
    ensures { result ≡ put_of (atom_at (spot_of q) (comparison_in c) ns) }
{
    let a = ns[q.x];
    if a == 0 {
        return settled(c, ns);
    }
    match q.place {
        Place::Nowhere => settled(c, ns),
        Place::At(n) => settled(c, at_point(&ns, q.x, &n)),
        Place::Below => Put::Decided(far(c, !(a < 0))),
        Place::Above => Put::Decided(far(c, a < 0)),
    }
}
