// Sheets in boxes, one after the other: what a box is, the line that is told of its sheet, and the totals.
#![tactic(auto)]

ghost use Rattle.std.specs.Prelude.{◌≡◌, ◌+◌, ◌<◌, ◌≤◌, length};
ghost use Rattle.rules.specs.Eliminate.{eliminate};
ghost use Rattle.rules.specs.Counts.{counted};
ghost use Rattle.boxes.specs.Boxes.{boxed, box_in, line_told, line_by, added};

use elimination::Counted;
use reading::{DONE, u16_at};
use std::fmt;

// The bytes of a box before its sheet, and the kind that it has.
pub const BOX_BYTES: usize = 4;

const BOX_KIND: u16 = 16;

// A box that is cut short, of another kind or of a length under 4.
#[derive(Clone, Copy, Debug, PartialEq, Eq)]
pub struct BadBox;

// What is told of a sheet, after its number. These are the numbers that stand on the line, as they are printed and added up: `added` takes any of them.
#[derive(Clone, Copy)]
pub struct Line {
    pub answer: usize,
    pub verdict: usize,
    pub steps: usize,
    pub terms: usize,
    pub length: usize,
}

impl From<Counted> for Line {
    ghost from_gives = { λ c l. l ≡ line_told c };

    fn from(c: Counted) -> Self {
        let (answer, verdict, length) = match c.reply {
            Ok(delivered) => (DONE, delivered.verdict.number(), delivered.length),
            Err(refused) => (refused.why.number(), 3, 0),
        };
        Line {
            answer,
            verdict,
            steps: c.tally.steps,
            terms: c.tally.terms,
            length,
        }
    }
}

impl fmt::Display for Line {
    fn fmt<W: fmt::Write>(&self, f: &mut fmt::Formatter<W>) -> fmt::Result {
        write!(
            f,
            "{} {} {} {} {}",
            self.answer, self.verdict, self.steps, self.terms, self.length
        )
    }
}

// How many boxes had answer 0, and verdict 0, 1 and 2; and the sum of the results' lengths.
#[derive(Clone, Copy, Default)]
pub struct Totals {
    pub done: u64,
    pub no: u64,
    pub yes: u64,
    pub free: u64,
    pub sum: u64,
}

impl fmt::Display for Totals {
    fn fmt<W: fmt::Write>(&self, f: &mut fmt::Formatter<W>) -> fmt::Result {
        write!(
            f,
            "{} {} {} {} {}",
            self.done, self.no, self.yes, self.free, self.sum
        )
    }
}

// How many bytes the box has that s begins with; none where nothing is left.
pub fn box_at(s: &[u8]) -> Result<Option<usize>, BadBox>
    ensures { boxed result ≡ box_in s.now }
{
    if s.is_empty() {
        return Ok(None);
    }
    if s.len() < BOX_BYTES || u16_at(s, 2) != BOX_KIND {
        return Err(BadBox);
    }
    let n = u16_at(s, 0) as usize;
    if n < BOX_BYTES || s.len() < n {
        return Err(BadBox);
    }
    Ok(Some(n))
}

// The line of a sheet, by way of two buffers.
pub fn line_of(sheet: &[u8], res: &mut [u8], work: &mut [u8]) -> Line
    ensures { result ≡ line_by (eliminate sheet.now res.old work.old) (counted sheet.now res.old work.old) }
{
    Line::from(elimination::eliminate_counted(sheet, res, work))
}

// The totals with a line more.
pub fn added(t: Totals, l: Line) -> Totals
    requires { (t.done < 9223372036854775808) × ((t.no < 9223372036854775808) × ((t.yes < 9223372036854775808) × ((t.free < 9223372036854775808) × ((t.sum < 9223372036854775808) × (l.length < 9223372036854775808))))) }
    ensures { result ≡ added t l }
{
    if l.answer != 0 {
        return t;
    }
    Totals {
        done: t.done + 1,
        no: t.no + u64::from(l.verdict == 0),
        yes: t.yes + u64::from(l.verdict == 1),
        free: t.free + u64::from(l.verdict == 2),
        sum: t.sum + l.length as u64,
    }
}
