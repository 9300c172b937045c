// Boundary terms and their midpoints: ten numbers, the denominator last. A row is made with its numbers unreduced, and then reduced.
ghost use Rattle.std.specs.Prelude.{◌≡◌, ◌<◌, length};
ghost use Rattle.reading.specs.Limits.{M, variables};
ghost use Rattle.exact.specs.Numbers.{Within, Each, tab};
ghost use Rattle.exact.specs.Terms.{left_at, turned, term_at, term_of, bound_of, mid_of, midpoint};

use crate::{number, row};

// Number i of an atom, with that of x left out.
pub fn left(ns: &[i64], x: usize, i: usize) -> i64
    requires { i < length ns.now }
    ensures { result ≡ left_at ns.now x i }
{
    if i == x {
        return 0;
    }
    ns[i]
}

// z, or -z.
fn turned(turn: bool, z: i64) -> i64
    requires { Within M z }
    ensures { result ≡ turned turn z }
{
    if turn {
        return number::neg(z);
    }
    z
}

// -t/a from ax + t, not reduced.
fn term_raw(ns: &[i64; 9], x: usize) -> [i64; 10]
    requires x_is_low { x < variables }
    requires each { Each M ns.now }
    ensures { result ≡ tab 10 (term_at ns.now x) }
{
    let mut m = [0i64; 10];
    let a = ns[x];
    let below = a < 0;
    for i in 0..9 {
        m[i] = turned(!below, left(ns, x, i));
    }
    m[9] = turned(below, a);
    m
}

// The boundary term of an atom for the variable x.
pub fn term_of(ns: [i64; 9], x: usize) -> [i64; 10]
    requires each { Each M ns }
    requires x_lt_variables { x < variables }
    ensures { result ≡ term_of ns x }
{
    let mut m = term_raw(&ns, x);
    row::reduce(&mut m);
    m
}

// The boundary term c of a window.
pub fn bound_of(c: i64) -> [i64; 10]
    ensures { result ≡ bound_of c }
{
    let mut m = [0i64; 10];
    m[8] = c;
    m[9] = 1;
    m
}

// The midpoint of two terms, not reduced.
fn mid_raw(t: &[i64], u: &[i64]) -> [i64; 10]
    requires t_len { (length t.now ≡ 10) × (length u.now ≡ 10) }
    requires each { Each M t.now }
    requires each_2 { Each M u.now }
    ensures { result ≡ mid_of t.now u.now }
{
    let mut m = [0i64; 10];
    let d = t[9];
    let e = u[9];
    for i in 0..9 {
        m[i] = number::mul_add(t[i], e, u[i], d);
    }
    let denominator = number::twice(d, e);
    m[9] = denominator;
    m
}

// The midpoint of two terms. Its size is judged by the caller, now that it is reduced.
pub fn midpoint(t: &[i64], u: &[i64]) -> [i64; 10]
    requires t_len { (length t.now ≡ 10) × (length u.now ≡ 10) }
    requires each { Each M t.now }
    requires each_2 { Each M u.now }
    ensures { result ≡ midpoint t.now u.now }
{
    let mut m = mid_raw(t, u);
    row::reduce(&mut m);
    m
}
