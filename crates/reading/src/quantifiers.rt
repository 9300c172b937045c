// The first and the last quantifier of an accepted formula in reading order, by one walk over its records, and the look.
ghost use Rattle.std.specs.Prelude.{◌≡◌, length};
ghost use Rattle.reading.specs.Formula.{encode};
ghost use Rattle.reading.specs.Reading.{tree_of, Begins, Exactly};
ghost use Rattle.reading.specs.Quantifiers.{nothing, seek, found_of, first_in, last_in, is_quantifier, look_part};

use crate::formulas::{formula_at, read};
use crate::numbers::u16_at;
use crate::{Limit, Part, QUANTIFIER_BYTES, TREE_LEVELS};

// Whether the number is the kind of a quantifier. It is looked at for each record that a walk passes, so no kind is named first.
fn is_quantifier(kind: u16) -> bool
    ensures { result ≡ is_quantifier kind }
{
    7 <= kind && kind <= 8
}

// The offset of the last quantifier's record, or of the first's, where there is one.
fn seek(s: &[u8], last: bool) -> Option<usize>
    requires { Exactly s.now (tree_of s.now) }
    ensures { result ≡ found_of (seek last nothing 0 (tree_of s.now)) }
{
    let mut found = None;
    let mut at = 0;
    // No index is counted: each turn goes on by the length that the record says.
    while at < s.len() {
        if is_quantifier(u16_at(s, at + 2)) {
            found = Some(at);
            if !last {
                return found;
            }
        }
        at += u16_at(s, at) as usize;
    }
    found
}

pub fn last_quantifier(s: &[u8]) -> Option<usize>
    requires { Exactly s.now (tree_of s.now) }
    ensures { result ≡ found_of (last_in (tree_of s.now)) }
{
    seek(s, true)
}

pub fn first_quantifier(s: &[u8]) -> Option<usize>
    requires { Exactly s.now (tree_of s.now) }
    ensures { result ≡ found_of (first_in (tree_of s.now)) }
{
    seek(s, false)
}

// How many bytes the formula takes that s begins with.
pub fn formula_length(s: &[u8]) -> usize
    requires { Begins s.now (tree_of s.now) }
    ensures { result ≡ length (encode (tree_of s.now)) }
{
    formula_at(s, TREE_LEVELS).unwrap_or(0)
}

// The look: where the body of the last quantifier begins and how long it is.
pub fn look_part(s: &[u8]) -> Part
    ensures { result ≡ look_part s.now }
{
    let nothing = Part { at: 0, length: 0 };
    let Ok(_) = read(s, Limit::Result) else {
        return nothing;
    };
    let Some(o) = last_quantifier(s) else {
        return nothing;
    };
    let at = o + QUANTIFIER_BYTES;
    Part {
        at,
        length: formula_length(&s[at..]),
    }
}
