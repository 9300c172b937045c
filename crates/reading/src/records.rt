// One record: its kind decides, and its length is checked against it. The refusals 3 to 7 are judged here, in this order:
// fewer than four bytes (3), kind (4), length (5), fields cut (3), variable (6), numbers (7).
ghost use Rattle.std.specs.Prelude.{◌≡◌, ◌≤◌, length};
ghost use Rattle.reading.specs.Records.{by_kind, head};
ghost use Rattle.reading.specs.Answers.{head_told, head_of};
ghost use Rattle.reading.specs.Views.{shape_kind, shape_size};

use crate::numbers::{nums_ok, u16_at};
use crate::{LAST_VARIABLE, Refusal, Shape};

// A record: its kind, and how many formulas follow it.
#[derive(Clone, Copy)]
pub struct Record {
    pub shape: Shape,
    pub follow: usize,
}

// The record of that kind that s begins with, by its fields, once all its bytes are there.
fn fields_at(s: &[u8], shape: Shape) -> Result<Record, Refusal>
    requires { shape_size shape ≤ length s.now }
    ensures { head_told result ≡ head_of (by_kind (shape_kind shape) (shape_size shape) s.now) }
{
    let follow = match shape {
        Shape::Atom(_) => {
            if !nums_ok::<9>(s, 4) {
                return Err(Refusal::WrongNumber);
            }
            0
        }
        Shape::Not => 1,
        Shape::List(_) => u16_at(s, 4) as usize,
        Shape::Quantifier(_) => {
            if LAST_VARIABLE < u16_at(s, 4) {
                return Err(Refusal::WrongVariable);
            }
            1
        }
        Shape::Window => {
            if LAST_VARIABLE < u16_at(s, 4) {
                return Err(Refusal::WrongVariable);
            }
            if !nums_ok::<2>(s, 6) {
                return Err(Refusal::WrongNumber);
            }
            0
        }
    };
    Ok(Record { shape, follow })
}

// The record of that kind and of its length, by its bytes: they run out, or its fields decide.
#[tactic(auto, using(crate::proofs::Heads::cut_told))]
fn whole_at(s: &[u8], shape: Shape, bytes: usize) -> Result<Record, Refusal>
    requires { bytes ≡ shape_size shape }
    ensures { head_told result ≡ head_of (by_kind (shape_kind shape) (shape_size shape) s.now) }
{
    if s.len() < bytes {
        return Err(Refusal::CutShort);
    }
    fields_at(s, shape)
}

// The record that s begins with.
pub fn record_at(s: &[u8]) -> Result<Record, Refusal>
    ensures { head_told result ≡ head_of (head s.now) }
{
    if s.len() < 4 {
        return Err(Refusal::CutShort);
    }
    let Ok(shape) = Shape::try_from(u16_at(s, 2)) else {
        return Err(Refusal::WrongKind);
    };
    let bytes = shape.bytes();
    if u16_at(s, 0) as usize != bytes {
        return Err(Refusal::WrongLength);
    }
    whole_at(s, shape, bytes)
}
