// The run over all quantifiers: while one is left, the last is replaced.
ghost use Rattle.std.specs.Prelude.{length};
ghost use Rattle.elimination.specs.Stepping.{held};
ghost use Rattle.elimination.specs.Running.{Underway, Runs, RanCounts};

use crate::{Short, Stop, Tally, stepping};
use reading::{Refused, last_quantifier};

// While a quantifier is left in the first bytes of cur, the last one is replaced; the tally goes on from what was counted before. It answers the
// length of the formula with no quantifier left.
pub fn steps(
    cur: &mut [u8],
    work: &mut [u8],
    room: &mut [u8],
    len: usize,
    tally: &mut Tally,
) -> Result<Result<usize, Refused>, Short>
    requires { Underway len cur.old work.old tally.old }
    ensures runs { Runs (held len cur.old) (length room.old) cur.old cur.new work.old work.new result }
    ensures counts { RanCounts (held len cur.old) tally.old cur.new result tally.new }
{
    let mut n = len;
    let mut found = last_quantifier(&cur[..n]);
    while let Some(o) = found {
        match stepping::one_step(cur, work, room, n, o, tally) {
            Ok(m) => n = m,
            Err(Stop::Refused(why)) => return Ok(Err(Refused { why, place: o })),
            Err(Stop::Short) => return Err(Short { reached: n }),
        }
        tally.steps += 1;
        found = last_quantifier(&cur[..n]);
    }
    Ok(Ok(n))
}
