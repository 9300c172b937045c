// What C links: the calls of `desk` under their names, each with the clause that it has there.
#![tactic(auto)]

ghost use Rattle.std.specs.Prelude.{[], ◌∷◌};
ghost use Rattle.desk.specs.Promises.{Eliminates, EliminatesIn, CountsAlong, TestsAt, ReadsAs, LooksAt};

use desk::{Counted, Part, Place, Reply, Tested};

// The sheet's condition with every quantifier gone, at the start of the result buffer.
#[unsafe(no_mangle)]
pub extern "C" fn vb_eliminate(sheet: &[u8], res: &mut [u8], work: &mut [u8]) -> Reply
    ensures { Eliminates sheet.now res.old work.old result res.new work.new }
{
    desk::vb_eliminate(sheet, res, work)
}

// The same with the steps that are finished and the most boundary terms of a step that has at most 64.
#[unsafe(no_mangle)]
pub extern "C" fn vb_count(sheet: &[u8], res: &mut [u8], work: &mut [u8]) -> Counted
    ensures { CountsAlong sheet.now res.old work.old result res.new work.new }
{
    desk::vb_count(sheet, res, work)
}

// The same in the caller's room, on little stack.
#[unsafe(no_mangle)]
pub extern "C" fn vb_eliminate_in(
    sheet: &[u8],
    res: &mut [u8],
    work: &mut [u8],
    room: &mut [u8],
) -> Reply
    ensures { EliminatesIn sheet.now res.old work.old room.old result res.new work.new room.new }
{
    desk::vb_eliminate_in(sheet, res, work, room)
}

// Whether a quantifier-free sheet holds at p0/q .. p7/q.
#[unsafe(no_mangle)]
pub extern "C" fn vb_test(
    sheet: &[u8],
    p0: i64,
    p1: i64,
    p2: i64,
    p3: i64,
    p4: i64,
    p5: i64,
    p6: i64,
    p7: i64,
    q: i64,
) -> Tested
    ensures { TestsAt sheet.now (p0 ∷ p1 ∷ p2 ∷ p3 ∷ p4 ∷ p5 ∷ p6 ∷ p7 ∷ q ∷ []) result }
{
    desk::vb_test(sheet, p0, p1, p2, p3, p4, p5, p6, p7, q)
}

// Number and place of the answer under the limits of a result.
#[unsafe(no_mangle)]
pub extern "C" fn vb_read(sheet: &[u8]) -> Place
    ensures { ReadsAs sheet.now result }
{
    desk::vb_read(sheet)
}

// Where the body of the last quantifier stands in the sheet.
#[unsafe(no_mangle)]
pub extern "C" fn vb_look(sheet: &[u8]) -> Part
    ensures { LooksAt sheet.now result }
{
    desk::vb_look(sheet)
}
