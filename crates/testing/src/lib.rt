// The test of a quantifier-free sheet at eight whole numbers over one denominator, given as nine numbers. It writes nothing.
#![tactic(auto)]

ghost use Rattle.std.specs.Prelude.{◌≡◌, ◌&&◌, ◌+◌, ◌<◌, ◌+ℤ◌, ◌*ℤ◌};
ghost use Rattle.std.specs.Int.Signed.{le_z};
ghost use Rattle.reading.specs.Limits.{M, variables, most_value};
ghost use Rattle.reading.specs.Formula.{not_size};
ghost use Rattle.reading.specs.Reading.{tree_of};
ghost use Rattle.reading.specs.Views.{shape_of};
ghost use Rattle.exact.specs.Numbers.{at, Within, Each};
ghost use Rattle.testing.specs.Testing.{denied_of, holds_of, Testable, trial_of};
ghost use Rattle.rules.specs.Test.{sum_at, join, allowed, tested};

use reading::{
    ATOM_BYTES, LIST_BYTES, Limit, NOT_BYTES, Refusal, Refused, Shape, WINDOW_BYTES, Window,
    first_quantifier, members_at, read, row_at, shape_at, window_at,
};

// Whether a formula holds at given fractions, and its length.
#[derive(Clone, Copy)]
pub struct Holds {
    pub used: usize,
    pub holds: bool,
}

// The values and the denominator of a test lie in -MOST_VALUE..MOST_VALUE.
const MOST_VALUE: u64 = 1000000;

// t + a·v.
fn added(t: i64, a: i64, v: i64) -> i64
    requires within { Within 4611686018427387904 t }
    requires within_2 { Within M a }
    requires within_3 { Within most_value v }
    ensures { result ≡ t +ℤ a *ℤ v }
{
    t + a * v
}

// An atom's sum at the values, times the denominator.
fn sum(ns: [i64; 9], w: [i64; 9]) -> i64
    requires each { Each M ns }
    requires each_2 { Each most_value w }
    ensures { result ≡ sum_at ns w }
{
    let mut t: i64 = 0;
    for (i, a) in ns.iter().enumerate() {
        t = added(t, *a, w[i]);
    }
    t
}

// Whether the variable of a window lies between its ends, all times the denominator.
fn in_window(b: Window, w: [i64; 9]) -> bool
    requires variable_lt_variables { b.variable < variables }
    requires within { Within M b.lo }
    requires within_2 { Within M b.hi }
    requires each { Each most_value w }
    ensures { result ≡ (le_z (b.lo *ℤ at w 8) (at w b.variable) && le_z (at w b.variable) (b.hi *ℤ at w 8)) }
{
    let q = w[8];
    let p = w[b.variable];
    let lo = added(0, b.lo, q);
    let hi = added(0, b.hi, q);
    lo <= p && p <= hi
}

// The answer for a formula under NOT.
fn denied(h: Holds) -> Holds
    requires { not_size + h.used < 18446744073709551616 }
    ensures { result ≡ denied_of h }
{
    Holds {
        used: NOT_BYTES + h.used,
        holds: !h.holds,
    }
}

// A list with one member more: ALLOF is true until a member is false, ANYOF false until one is true.
fn joined(all: bool, holds: bool, member: bool) -> bool
    ensures { result ≡ join all holds member }
{
    if all {
        holds && member
    } else {
        holds || member
    }
}

// Whether the formula that s begins with holds at the values, and its length. A quantifier is never met.
#[cycle(holds_at_holds_list)]
fn holds_at(s: &[u8], w: [i64; 9]) -> Holds
    requires { Testable s.now w }
    ensures { result ≡ holds_of w (tree_of s.now) }
{
    match shape_at(s) {
        Shape::Atom(c) => Holds {
            used: ATOM_BYTES,
            holds: exact::holds(c, sum(row_at(s), w)),
        },
        Shape::Not => denied(holds_at(&s[NOT_BYTES..], w)),
        Shape::List(all) => holds_list(s, all, w),
        Shape::Quantifier(_) => Holds {
            used: 0,
            holds: false,
        },
        Shape::Window => Holds {
            used: WINDOW_BYTES,
            holds: in_window(window_at(s), w),
        },
    }
}

// The same for a list, member by member.
#[cycle(holds_at_holds_list)]
fn holds_list(s: &[u8], all: bool, w: [i64; 9]) -> Holds
    requires testable { Testable s.now w }
    requires s_value { shape_of (tree_of s.now) ≡ Shape.List all }
    ensures { result ≡ holds_of w (tree_of s.now) }
{
    let mut holds = all;
    let mut used: usize = LIST_BYTES;
    for _ in 0..members_at(s) {
        let h = holds_at(&s[used..], w);
        holds = joined(all, holds, h.holds);
        used += h.used;
    }
    Holds { used, holds }
}

// Whether the values are in their range, and the denominator above 0.
fn allowed(w: [i64; 9]) -> bool
    ensures { result ≡ allowed w }
{
    exact::all_within(&w, MOST_VALUE) && 0 < w[8]
}

// The test: 2 to 9, then 13 at the first quantifier, then 14; else whether the sheet holds at the eight values over the denominator w[8].
pub fn test(sheet: &[u8], w: [i64; 9]) -> Result<bool, Refused>
    ensures { trial_of result ≡ tested sheet.now w }
{
    read(sheet, Limit::Result)?;
    if let Some(place) = first_quantifier(sheet) {
        return Err(Refused {
            why: Refusal::Quantified,
            place,
        });
    }
    if !allowed(w) {
        return Err(Refused {
            why: Refusal::WrongValue,
            place: 0,
        });
    }
    Ok(holds_at(sheet, w).holds)
}
