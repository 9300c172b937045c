// Runs numeric cases over `exact` and prints a line for each. A case is a letter and whole numbers, with blanks between: G and two numbers (their
// greatest common divisor); R and nine (whether they lie in -M..M, and reduced); S and two rows of nine (whether they are the same); T, a
// variable and nine (the boundary term); M and two rows of ten (the midpoint, and whether it lies in -M..M); A, a kind, a point's kind (0 to
// 3: below, above, a fraction, none), a variable, nine and ten (the atom at the point,
// or `large` where a number of it lies outside -M..M). `-` stands for a case that `exact` does not take.
#![tactic(auto)]

ghost use Rattle.std.specs.Prelude.{◌<◌, ◌≤◌, length, IfOk};
ghost use Rattle.reading.specs.Limits.{M};
ghost use Rattle.exact.specs.Numbers.{Within, Each};
ghost use Rattle.exact.specs.Atoms.{Bounded, Ready};

use exact::{Place, Point, Put, abs, within_all};
use std::io;

// Past the blanks.
fn skip(s: &[u8]) -> &[u8]
    ensures { length result.now ≤ length s.now }
{
    match s.iter().position(|b| *b > 32) {
        Some(at) => &s[at..],
        None => &s[s.len()..],
    }
}

// The digits that come first, as far as they fit in an i64, and what follows.
fn natural(s: &[u8]) -> (u64, &[u8])
    ensures value_bound { result.0 ≤ 9223372036854775807 }
    ensures rest { length result.1.now ≤ length s.now }
{
    let mut value: u64 = 0;
    for (at, b) in s.iter().enumerate() {
        if *b < 48 || *b > 57 || value > 922337203685477579 {
            return (value, &s[at..]);
        }
        value = value * 10 + (*b - 48) as u64;
    }
    (value, &s[s.len()..])
}

// A whole number, with a minus or without, and what follows.
fn integer(s: &[u8]) -> (i64, &[u8])
    ensures within { Within 9223372036854775807 result.0 }
    ensures rest { length result.1.now ≤ length s.now }
{
    let digits = skip(s);
    if let Some((45, after)) = digits.split_first() {
        let (value, rest) = natural(after);
        return (exact::neg(value as i64), rest);
    }
    let (value, rest) = natural(digits);
    (value as i64, rest)
}

// Fills a row with the numbers that come first; what follows.
fn fill<'a>(s: &'a [u8], out: &mut [i64]) -> &'a [u8]
    requires each { Each 9223372036854775807 out.old }
    ensures rest { length result.now ≤ length s.now }
    ensures each_2 { Each 9223372036854775807 out.new }
{
    let mut rest = s;
    for x in out.iter_mut() {
        let (value, after) = integer(rest);
        *x = value;
        rest = after;
    }
    rest
}

fn show_row(rt: &impl Print, s: &[i64]) -> io::Result<()> {
    for z in s {
        print!(rt; " {z}")?;
    }
    Ok(())
}

fn show_truth(rt: &impl Print, b: bool) -> io::Result<()> {
    print!(rt; "{}", if b { " yes" } else { " no" })
}

fn case_gcd<'a>(rt: &impl Print, s: &'a [u8]) -> io::Result<&'a [u8]>
    ensures { IfOk result (λ rest. length rest.now ≤ length s.now) }
{
    let (x, rest) = integer(s);
    let (y, rest) = integer(rest);
    print!(rt; " {}", exact::gcd(abs(x), abs(y)))?;
    Ok(rest)
}

fn case_row<'a>(rt: &impl Print, s: &'a [u8]) -> io::Result<&'a [u8]>
    ensures { IfOk result (λ rest. length rest.now ≤ length s.now) }
{
    let mut w = [0i64; 9];
    let rest = fill(s, &mut w);
    show_truth(rt, within_all(&w))?;
    exact::reduce(&mut w);
    show_row(rt, &w)?;
    Ok(rest)
}

fn case_same<'a>(rt: &impl Print, s: &'a [u8]) -> io::Result<&'a [u8]>
    ensures { IfOk result (λ rest. length rest.now ≤ length s.now) }
{
    let mut a = [0i64; 9];
    let mut b = [0i64; 9];
    let rest = fill(s, &mut a);
    let rest = fill(rest, &mut b);
    show_truth(rt, exact::same_row(&a, &b))?;
    Ok(rest)
}

fn case_term<'a>(rt: &impl Print, s: &'a [u8]) -> io::Result<&'a [u8]>
    ensures { IfOk result (λ rest. length rest.now ≤ length s.now) }
{
    let mut ns = [0i64; 9];
    let (v, rest) = integer(s);
    let rest = fill(rest, &mut ns);
    let x = abs(v) as usize;
    if within_all(&ns) && x < 8 && ns[x] != 0 {
        show_row(rt, &exact::term_of(ns, x))?;
    } else {
        print!(rt; " -")?;
    }
    Ok(rest)
}

fn case_mid<'a>(rt: &impl Print, s: &'a [u8]) -> io::Result<&'a [u8]>
    ensures { IfOk result (λ rest. length rest.now ≤ length s.now) }
{
    let mut t = [0i64; 10];
    let mut u = [0i64; 10];
    let rest = fill(s, &mut t);
    let rest = fill(rest, &mut u);
    if within_all(&t) && within_all(&u) {
        let m = exact::midpoint(&t, &u);
        show_row(rt, &m)?;
        show_truth(rt, within_all(&m))?;
    } else {
        print!(rt; " -")?;
    }
    Ok(rest)
}

// The place of a point's number; n are the numbers of a fraction.
fn place_of(k: u64, n: [i64; 10]) -> Place
    requires { Each M n }
    ensures { Bounded result }
{
    match k {
        0 => Place::Below,
        1 => Place::Above,
        2 => Place::At(n),
        _ => Place::Nowhere,
    }
}

// The atom at the point, or that a number of it lies outside -M..M.
fn show_atom(rt: &impl Print, kind: u8, ns: [i64; 9], q: Point) -> io::Result<()>
    requires each { Each M ns }
    requires ready { Ready q }
{
    match exact::atom_at(kind, ns, q) {
        Put::Decided(v) => print!(rt; " {v}"),
        Put::New(k) => show_row(rt, &k),
        Put::Large(_) => print!(rt; " large"),
    }
}

fn case_atom<'a>(rt: &impl Print, s: &'a [u8]) -> io::Result<&'a [u8]>
    ensures { IfOk result (λ rest. length rest.now ≤ length s.now) }
{
    let (kind, rest) = integer(s);
    let (place, rest) = integer(rest);
    let (x, rest) = integer(rest);
    let mut ns = [0i64; 9];
    let mut n = [0i64; 10];
    let rest = fill(rest, &mut ns);
    let rest = fill(rest, &mut n);
    if within_all(&ns) && within_all(&n) && abs(x) < 8 && abs(kind) < 4 {
        let q = Point {
            x: abs(x) as usize,
            place: place_of(abs(place), n),
        };
        show_atom(rt, abs(kind) as u8, ns, q)?;
    } else {
        print!(rt; " -")?;
    }
    Ok(rest)
}

fn one_case<'a>(rt: &impl Print, letter: u8, s: &'a [u8]) -> io::Result<&'a [u8]>
    ensures { IfOk result (λ rest. length rest.now ≤ length s.now) }
{
    match letter {
        71 => case_gcd(rt, s),
        82 => case_row(rt, s),
        83 => case_same(rt, s),
        84 => case_term(rt, s),
        77 => case_mid(rt, s),
        65 => case_atom(rt, s),
        _ => Ok(s),
    }
}

fn all_cases(rt: &impl Print, s: &[u8]) -> io::Result<()> {
    let mut rest = skip(s);
    while let Some((letter, after)) = rest.split_first() {
        let left = one_case(rt, *letter, after)?;
        println!(rt)?;
        rest = skip(left);
    }
    Ok(())
}

fn main(rt: HostRuntime) -> io::Result<()> {
    let mut buffer = [0u8; 65536];
    let n = streams::read_full(&mut rt.reader(), &mut buffer)?;
    all_cases(&rt, &buffer[..n])
}
