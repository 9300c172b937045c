// The finishing pass over a formula with no quantifier left, in a buffer.
ghost use Rattle.std.specs.Prelude.{◌≡◌, ◌*◌, ◌≤◌, length};
ghost use Rattle.reading.specs.Limits.{result_bytes};
ghost use Rattle.elimination.specs.Stepping.{held};
ghost use Rattle.elimination.specs.Finishing.{Unquantified, FinishesIn, Finishes};

use exact::{Place, Point};
use reading::{LIST_BYTES, RESULT_BYTES};
use replacement::{Came, Pass, Way};

// The point of the finishing pass.
const NO_POINT: Point = Point {
    x: 0,
    place: Place::Nowhere,
};

// The finishing pass over the first len bytes of cur, by way of `out`. It answers the result's length, which may be above the limit.
fn finish_in(cur: &mut [u8], len: usize, out: &mut [u8]) -> usize
    requires unquantified { Unquantified len cur.old }
    requires len_in_bounds { 7 * len ≤ length out.old }
    ensures { FinishesIn (held len cur.old) cur.old cur.new result }
{
    let pass = Pass {
        point: NO_POINT,
        way: Way {
            calm: true,
            marked: false,
        },
        marks: &[],
    };
    let Ok(r) = pass.copied(&cur[..len], false, out, 0) else {
        unreachable!()
    };
    match r.came {
        Came::Decided(v) => {
            writing::put_list(cur, 0, v, 0);
            LIST_BYTES
        }
        Came::Kept(e) => {
            if e <= RESULT_BYTES {
                writing::copy_over(&mut cur[..e], &out[..e]);
            }
            e
        }
    }
}

// The finishing pass, in the work buffer or in the room, where one of them is long enough: a copy has at most seven times the bytes. It answers the
// result's length, which may be above the limit.
pub fn finish(cur: &mut [u8], work: &mut [u8], room: &mut [u8], len: usize) -> Option<usize>
    requires unquantified { Unquantified len cur.old }
    requires result_bytes_in_bounds { result_bytes ≤ length work.old }
    ensures { Finishes (held len cur.old) (length room.old) cur.old cur.new work.old work.new result }
{
    if 7 * len <= RESULT_BYTES {
        return Some(finish_in(cur, len, &mut work[..RESULT_BYTES]));
    }
    if 7 * len <= room.len() {
        return Some(finish_in(cur, len, room));
    }
    None
}
