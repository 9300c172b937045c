// One step over the formula in a buffer: the last quantifier is replaced, body and all, and the bytes after it move to where the replacement ends.
ghost use Rattle.std.specs.Prelude.{◌≡◌, ◌+◌, ◌-◌, ◌*◌, ◌≤◌, ◌<◌, length, Some};
ghost use Rattle.reading.specs.Limits.{result_bytes, most_terms};
ghost use Rattle.reading.specs.Quantifiers.{last_in, found_of};
ghost use Rattle.rules.specs.Points.{points, terms};
ghost use Rattle.rules.specs.Counts.{larger, terms_at};
ghost use Rattle.elimination.specs.Stepping.{held, stepped, Stands, Tried, Steps, Poised, Joins};

use crate::{Stop, Tally};
use reading::{LIST_BYTES, QUANTIFIER_BYTES, RESULT_BYTES, Refusal, binder_at};
use replacement::{Body, Source, Terms};
use writing::copy_over;

// Room for the marks of any body.
const MARKS: usize = 1640;

// A step that is to be made: the quantifier at o in a formula of len bytes, what is told of its body, its boundary terms, and the body's marks.
#[derive(Clone, Copy)]
struct Step<'a> {
    len: usize,
    o: usize,
    every: bool,
    body: Body,
    ts: &'a [[i64; 10]],
    marks: &'a [bool],
}

// The first r bytes of out in place of those of cur from o on, and behind them the tail.
fn join(cur: &mut [u8], o: usize, out: &[u8], r: usize, tail: &[u8]) -> Result<usize, Stop>
    requires o_bound { o + length tail.now ≤ result_bytes }
    requires result_bytes_in_bounds { (result_bytes ≤ length cur.old) × (result_bytes ≤ length out.now + length tail.now) }
    ensures { Joins o r cur.old cur.new out.now tail.now (stepped result) }
{
    if RESULT_BYTES - tail.len() - o < r {
        return Err(Stop::Refused(Refusal::LongResult));
    }
    let middle = o + r;
    let end = middle + tail.len();
    copy_over(&mut cur[o..middle], &out[..r]);
    copy_over(&mut cur[middle..end], tail);
    Ok(end)
}

// The buffers stay parameters, and the two steps two functions: the copies of the one are written into the very buffer that keeps the bytes after the
// quantifier, and a struct that lends the buffers would have each contract say besides that it lends the same ones afterwards.

// The step at the quantifier at o, whose copies are written into the work buffer, behind the bytes that stand after the quantifier.
fn step_beside(cur: &mut [u8], work: &mut [u8], step: Step) -> Result<usize, Stop>
    requires result_bytes_in_bounds { result_bytes ≤ length work.old }
    requires poised { Poised step cur.old }
    ensures { Tried (held step.entry.len cur.old) cur.old cur.new work.old work.new (stepped result) }
{
    let from = step.o + QUANTIFIER_BYTES;
    let e = from + step.body.bytes;
    let rest = step.len - e;
    copy_over(&mut work[..rest], &cur[e..step.len]);
    let source = Source {
        bytes: &cur[from..e],
        body: step.body,
        marks: step.marks,
    };
    let r = source.made(step.ts, step.every, &mut work[rest..RESULT_BYTES])?;
    let (tail, out) = work.split_at(rest);
    join(cur, step.o, out, r, tail)
}

// The step at the quantifier at o, whose copies are written into the room.
fn step_apart(cur: &mut [u8], work: &mut [u8], room: &mut [u8], step: Step) -> Result<usize, Stop>
    requires result_bytes_in_bounds { result_bytes ≤ length work.old }
    requires poised { Poised step cur.old }
    ensures { Steps (held step.entry.len cur.old) (length room.old) cur.old cur.new work.old work.new (stepped result) }
{
    if room.len() < RESULT_BYTES + LIST_BYTES + 7 * step.body.bytes {
        return Err(Stop::Short);
    }
    let from = step.o + QUANTIFIER_BYTES;
    let e = from + step.body.bytes;
    let rest = step.len - e;
    let source = Source {
        bytes: &cur[from..e],
        body: step.body,
        marks: step.marks,
    };
    let r = source.made(step.ts, step.every, room)?;
    copy_over(&mut work[..rest], &cur[e..step.len]);
    join(cur, step.o, room, r, &work[..rest])
}

// Whether the work buffer has room for the copies of a body of b bytes at all points of n terms, with the bytes that stand after it.
fn fits_beside(b: usize, n: usize, rest: usize) -> bool
    requires { (b ≤ result_bytes) × ((n ≤ most_terms) × (rest ≤ result_bytes)) }
{
    let points = 2 + n * (n + 1) / 2;
    rest + LIST_BYTES + 7 * b * points <= RESULT_BYTES
}

// The step at the quantifier at o, with its boundary terms: in the work buffer, or in the room.
fn step_with(cur: &mut [u8], work: &mut [u8], room: &mut [u8], step: Step) -> Result<usize, Stop>
    requires result_bytes_in_bounds { result_bytes ≤ length work.old }
    requires poised { Poised step cur.old }
    ensures { Steps (held step.entry.len cur.old) (length room.old) cur.old cur.new work.old work.new (stepped result) }
{
    let rest = step.len - (step.o + QUANTIFIER_BYTES + step.body.bytes);
    if fits_beside(step.body.bytes, step.ts.len(), rest) {
        let tried = step_beside(cur, work, step);
        let Err(Stop::Short) = tried else {
            return tried;
        };
    }
    step_apart(cur, work, room, step)
}

// The step at the last quantifier, at o, of the formula in the first len bytes of cur.
pub fn one_step(
    cur: &mut [u8],
    work: &mut [u8],
    room: &mut [u8],
    len: usize,
    o: usize,
    tally: &mut Tally,
) -> Result<usize, Stop>
    requires stands { Stands len cur.old }
    requires result_bytes_in_bounds { result_bytes ≤ length work.old }
    requires cur_value { found_of (last_in (held len cur.old)) ≡ Some o }
    ensures stepped { Steps (held len cur.old) (length room.old) cur.old cur.new work.old work.new (stepped result) }
    ensures counted { tally.new ≡ record tally.old { terms = larger tally.old.terms (terms_at (last_in (held len cur.old))) } }
{
    let b = binder_at(&cur[o..len]);
    let from = o + QUANTIFIER_BYTES;
    let mut ts = Terms::new();
    let Ok(used) = replacement::gather(&cur[from..len], b.variable, &mut ts) else {
        return Err(Stop::Refused(Refusal::ManyTerms));
    };
    tally.terms = tally.terms.max(ts.len());
    let mut marks = [false; MARKS];
    let e = from + used;
    let body = replacement::body_of(&cur[from..e], b.variable, ts.len(), &mut marks);
    let step = Step {
        len,
        o,
        every: b.every,
        body,
        ts: &ts,
        marks: &marks,
    };
    step_with(cur, work, room, step)
}
