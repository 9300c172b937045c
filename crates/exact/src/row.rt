// Rows of whole numbers: the walks stand here once, over slices, and serve the nine numbers of an atom and the ten of a term. A row is an array or a
// part of one, with a clause on its sizes, and no type of its own: rows stand in a record that was read, in an atom and in a table of terms, and a
// type would ask for a copy at each of these borders.
ghost use Rattle.std.specs.Prelude.{◌≡◌, ℕ, ◌<◌, ◌≤◌, length};
ghost use Rattle.reading.specs.Limits.{M};
ghost use Rattle.exact.specs.Numbers.{at, Each, Stepped, all_in, same_row, minus, single};
ghost use Rattle.exact.specs.Divisor.{gcds, quots, reduced};
ghost use Rattle.exact.specs.Atoms.{all_zero};

use crate::{MOST, number};

// The greatest common divisor of the numbers of a row; once it is 1 the others do not matter.
pub fn gcd_all(s: &[i64]) -> u64
    requires { Each 9223372036854775807 s.now }
    ensures { result ≡ gcds s.now }
{
    let mut g: u64 = 0;
    for x in s {
        let a = x.unsigned_abs();
        if a != 0 {
            g = number::gcd(a, g);
            if g == 1 {
                return 1;
            }
        }
    }
    g
}

// Each number of a row, as the step makes it.
fn map_all<F: Fn(i64) -> i64>(s: &mut [i64], step: F)
    requires each { Each 9223372036854775807 s.old }
    requires callable { (i : ℕ) → i < length s.old → F.pre step (at s.old i) }
    ensures { Stepped (F.post step) s.old s.new }
{
    for x in s.iter_mut() {
        *x = step(*x);
    }
}

// A row divided by its greatest common divisor; zeros stay as they are, and so does a row whose divisor is 1.
pub fn reduce(s: &mut [i64])
    requires { Each 9223372036854775807 s.old }
    ensures { s.new ≡ reduced s.old }
{
    let g = gcd_all(s);
    if g > 1 {
        map_all(s, |x| number::quot(x, g));
    }
}

// Whether each number of a row lies in -most..most.
pub fn all_within(s: &[i64], most: u64) -> bool
    ensures { result ≡ all_in most s.now }
{
    s.iter().all(|x| x.unsigned_abs() <= most)
}

// Whether each number of a row lies in -M..M.
pub fn within_all(s: &[i64]) -> bool
    ensures { result ≡ all_in M s.now }
{
    all_within(s, MOST)
}

// Whether each number of a row is 0.
pub fn all_zero(s: &[i64]) -> bool
    ensures { result ≡ all_zero s.now }
{
    s.iter().all(|x| *x == 0)
}

// Whether two rows are the same. (`==` of slices takes more than twice as long on rows as short as these.)
pub fn same_row(a: &[i64], b: &[i64]) -> bool
    ensures { result ≡ same_row a.now b.now }
{
    a.len() == b.len() && a.iter().zip(b).all(|(x, y)| x == y)
}

// The nine numbers of an atom with each sign turned.
pub fn negated(ns: [i64; 9]) -> [i64; 9]
    requires { Each 9223372036854775807 ns }
    ensures { result ≡ minus ns }
{
    let mut b = ns;
    map_all(&mut b, |x| number::neg(x));
    b
}

// Nine numbers: a for the variable v, and the constant c.
pub fn single(v: usize, a: i64, c: i64) -> [i64; 9]
    requires { v < 8 }
    ensures { result ≡ single v a c }
{
    let mut m = [0i64; 9];
    m[v] = a;
    m[8] = c;
    m
}
