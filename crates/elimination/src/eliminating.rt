// The elimination of a sheet: what reading refuses, the run, the finishing pass, and what the buffers hold afterwards.
ghost use Rattle.std.specs.Prelude.{cond, ◌≡◌, ◌≤◌, ltb, length, take, drop};
ghost use Rattle.reading.specs.AnswerNumbers.{long_result};
ghost use Rattle.reading.specs.Limits.{result_bytes, result_levels};
ghost use Rattle.reading.specs.Reading.{tree_of, Exactly};
ghost use Rattle.rules.specs.Lists.{known};
ghost use Rattle.rules.specs.Levels.{Wide};
ghost use Rattle.rules.specs.Steps.{eliminated};
ghost use Rattle.rules.specs.Counts.{counted};
ghost use Rattle.elimination.specs.Stepping.{held};
ghost use Rattle.elimination.specs.Finishing.{Unquantified};
ghost use Rattle.elimination.specs.Running.{Underway, tallied, CountsAll};
ghost use Rattle.elimination.specs.Verdicts.{verdict_no};
ghost use Rattle.elimination.specs.Eliminating.{Accepted, Gives, Carries, CarriedCounts, Uncounts, untallied, sheet_room};
ghost use Rattle.rules.specs.Eliminate.{cleared, eliminate, eliminate_in, refused, delivered, verdict_by, by_run, room_bytes};

use crate::{Counted, Delivered, Reply, Short, Tally, Verdict, finishing, running};
use reading::{LIST_BYTES, Limit, RESULT_BYTES, Refusal, Refused, Shape, read, shape_at};

// Room for the copies of a body, for a list up to six bytes longer than a result and then for a copy, which has at most seven times the bytes of the
// body: in a formula of up to 4,680 bytes, of up to 9,361, of up to 18,723, as long as a sheet may be, and in any formula.
const NEAR_ROOM: usize = 98304;

const MIDDLE_ROOM: usize = 131072;

const SHEET_ROOM: usize = 196608;

const ROOM: usize = 524288;

// A buffer or a room that is too short.
const SMALL_BUFFER: Refused = Refused {
    why: Refusal::SmallBuffer,
    place: 0,
};

// Zeros in the bytes that an elimination may write.
fn clear(d: &mut [u8])
    requires { result_bytes ≤ length d.old }
    ensures { d.new ≡ cleared d.old }
{
    d[..RESULT_BYTES].fill(0);
}

// The true or the false record alone have six bytes.
fn verdict(res: &[u8], len: usize) -> Verdict
    requires len_in_bounds { len ≤ length res.now }
    requires exactly { Exactly (take len res.now) (held len res.now) }
    ensures { verdict_no result ≡ verdict_by (known (held len res.now)) }
{
    if len != LIST_BYTES {
        return Verdict::Open;
    }
    let Shape::List(all) = shape_at(&res[..len]) else {
        unreachable!()
    };
    if all { Verdict::Yes } else { Verdict::No }
}

// What is delivered once the finishing pass came to `end` bytes, for a sheet of `sheet` bytes.
fn given(res: &mut [u8], work: &mut [u8], end: usize, sheet: usize) -> Reply
    requires result_bytes_in_bounds { (result_bytes ≤ length res.old) × (result_bytes ≤ length work.old) }
    requires exactly { end ≤ result_bytes → Exactly (take end res.old) (held end res.old) }
    ensures { Gives (cond (ltb result_bytes end) (refused long_result sheet (cleared res.old) (cleared work.old)) (delivered (held end res.old) res.old work.old)) result res.new work.new }
{
    clear(work);
    if end > RESULT_BYTES {
        clear(res);
        return Err(Refused {
            why: Refusal::LongResult,
            place: sheet,
        });
    }
    res[end..RESULT_BYTES].fill(0);
    Ok(Delivered {
        verdict: verdict(res, end),
        length: end,
    })
}

// The buffers stay parameters: a struct that lends them would have each contract below say besides that it lends the same ones afterwards.

// The finishing pass and what is delivered, for a sheet of `sheet` bytes.
fn ended(
    res: &mut [u8],
    work: &mut [u8],
    room: &mut [u8],
    len: usize,
    sheet: usize,
) -> Result<Reply, Short>
    requires unquantified { Unquantified len res.old }
    requires wide { Wide result_levels (held len res.old) }
    requires result_bytes_in_bounds { result_bytes ≤ length work.old }
    ensures carries { Carries (held len res.old) sheet (length room.old) res.old res.new work.old work.new result }
    ensures uncounts { Uncounts res.new result }
{
    let Some(end) = finishing::finish(res, work, room, len) else {
        return Err(Short { reached: len });
    };
    Ok(given(res, work, end, sheet))
}

// What is left of an elimination, once the formula in the first len bytes of the result buffer is reached.
fn carried(
    res: &mut [u8],
    work: &mut [u8],
    room: &mut [u8],
    len: usize,
    sheet: usize,
    tally: &mut Tally,
) -> Result<Reply, Short>
    requires { Underway len res.old work.old tally.old }
    ensures carries { Carries (held len res.old) sheet (length room.old) res.old res.new work.old work.new result }
    ensures counts { CarriedCounts (held len res.old) tally.old res.new result tally.new }
{
    match running::steps(res, work, room, len, tally)? {
        Ok(n) => ended(res, work, room, n, sheet),
        Err(refused) => {
            clear(res);
            clear(work);
            Ok(Err(refused))
        }
    }
}

// The same in a room of its own, which stays out of the callers' stack.
#[inline(never)]
fn carried_in<const ROOM: usize>(
    res: &mut [u8],
    work: &mut [u8],
    len: usize,
    sheet: usize,
    tally: &mut Tally,
) -> Result<Reply, Short>
    requires underway { Underway len res.old work.old tally.old }
    requires room_bound { ROOM ≤ room_bytes }
    ensures carries { Carries (held len res.old) sheet ROOM res.old res.new work.old work.new result }
    ensures counts { CarriedCounts (held len res.old) tally.old res.new result tally.new }
{
    let mut room = [0u8; ROOM];
    carried(res, work, &mut room, len, sheet, tally)
}

// The same in the least of these rooms that is enough for all copies of a formula that is no longer than a sheet. A longer one begins with the smallest:
// its last quantifier may stand over a short part of it.
fn carried_on(
    res: &mut [u8],
    work: &mut [u8],
    len: usize,
    sheet: usize,
    tally: &mut Tally,
) -> Result<Reply, Short>
    requires { Underway len res.old work.old tally.old }
    ensures carries { Carries (held len res.old) sheet sheet_room res.old res.new work.old work.new result }
    ensures counts { CarriedCounts (held len res.old) tally.old res.new result tally.new }
{
    let most = RESULT_BYTES + LIST_BYTES + 7 * len;
    if NEAR_ROOM < most && most <= MIDDLE_ROOM {
        return carried_in::<MIDDLE_ROOM>(res, work, len, sheet, tally);
    }
    if MIDDLE_ROOM < most && most <= SHEET_ROOM {
        return carried_in::<SHEET_ROOM>(res, work, len, sheet, tally);
    }
    carried_in::<NEAR_ROOM>(res, work, len, sheet, tally)
}

// The same in as much room as any formula asks for.
fn carried_out(
    res: &mut [u8],
    work: &mut [u8],
    len: usize,
    sheet: usize,
    tally: &mut Tally,
) -> Reply
    requires { Underway len res.old work.old tally.old }
    ensures gives { Gives (by_run sheet (eliminated (held len res.old)) res.old work.old) result res.new work.new }
    ensures counts { CountsAll (held len res.old) tally.old tally.new }
{
    carried_in::<ROOM>(res, work, len, sheet, tally).unwrap()
}

// The elimination of a sheet that reading accepts, as far as the room allows.
fn begun(
    sheet: &[u8],
    res: &mut [u8],
    work: &mut [u8],
    room: &mut [u8],
    tally: &mut Tally,
) -> Result<Reply, Short>
    requires accepted { Accepted sheet.now }
    requires result_bytes_in_bounds { (result_bytes ≤ length res.old) × (result_bytes ≤ length work.old) }
    requires untallied { tally.old ≡ untallied }
    ensures carries { Carries (tree_of sheet.now) (length sheet.now) (length room.old) res.old res.new work.old work.new result }
    ensures counts { CarriedCounts (tree_of sheet.now) untallied res.new result tally.new }
{
    let len = sheet.len();
    writing::copy_over(&mut res[..len], sheet);
    carried(res, work, room, len, len, tally)
}

// The elimination of a sheet that reading accepts: with no room beside the work buffer, and with more where that is too little. To clear room takes
// longer than most steps.
fn accepted(sheet: &[u8], res: &mut [u8], work: &mut [u8], tally: &mut Tally) -> Reply
    requires accepted { Accepted sheet.now }
    requires result_bytes_in_bounds { (result_bytes ≤ length res.old) × (result_bytes ≤ length work.old) }
    requires untallied { tally.old ≡ untallied }
    ensures gives { Gives (by_run (length sheet.now) (eliminated (tree_of sheet.now)) res.old work.old) result res.new work.new }
    ensures counts { CountsAll (tree_of sheet.now) untallied tally.new }
{
    match begun(sheet, res, work, &mut [], tally) {
        Ok(reply) => reply,
        Err(near) => match carried_on(res, work, near.reached, sheet.len(), tally) {
            Ok(reply) => reply,
            Err(far) => carried_out(res, work, far.reached, sheet.len(), tally),
        },
    }
}

// The elimination of all quantifiers of a sheet, which is counted in the tally.
fn eliminate_tallied(sheet: &[u8], res: &mut [u8], work: &mut [u8], tally: &mut Tally) -> Reply
    requires { tally.old ≡ untallied }
    ensures gives { Gives (eliminate sheet.now res.old work.old) result res.new work.new }
    ensures counts { tallied tally.new ≡ counted sheet.now res.old work.old }
{
    if res.len() < RESULT_BYTES || work.len() < RESULT_BYTES {
        return Err(SMALL_BUFFER);
    }
    read(sheet, Limit::Sheet)?;
    accepted(sheet, res, work, tally)
}

// The elimination of all quantifiers of a sheet, with what was counted.
pub fn eliminate_counted(sheet: &[u8], res: &mut [u8], work: &mut [u8]) -> Counted
    ensures gives { Gives (eliminate sheet.now res.old work.old) result.reply res.new work.new }
    ensures counts { tallied result.tally ≡ counted sheet.now res.old work.old }
{
    let mut tally = Tally::default();
    let reply = eliminate_tallied(sheet, res, work, &mut tally);
    Counted { reply, tally }
}

// The elimination of all quantifiers of a sheet.
pub fn eliminate(sheet: &[u8], res: &mut [u8], work: &mut [u8]) -> Reply
    ensures { Gives (eliminate sheet.now res.old work.old) result res.new work.new }
{
    eliminate_tallied(sheet, res, work, &mut Tally::default())
}

// The same with the caller's room for the copies, on little stack.
pub fn eliminate_in(sheet: &[u8], res: &mut [u8], work: &mut [u8], room: &mut [u8]) -> Reply
    ensures gives { Gives (eliminate_in (length room.old) sheet.now res.old work.old) result res.new work.new }
    ensures rest { drop room_bytes room.new ≡ drop room_bytes room.old }
{
    if res.len() < RESULT_BYTES || work.len() < RESULT_BYTES || room.len() < ROOM {
        return Err(SMALL_BUFFER);
    }
    read(sheet, Limit::Sheet)?;
    begun(sheet, res, work, &mut room[..ROOM], &mut Tally::default()).unwrap()
}
