// The calls that C makes, as `desk_c` exports them: each a line over the proved call below, with the same promise and no `requires`.
#![tactic(auto)]

ghost use Rattle.std.specs.Prelude.{◌≡◌, [], ◌∷◌};
ghost use Rattle.reading.specs.Answers.{told, answer_of};
ghost use Rattle.testing.specs.Testing.{trial_of};
ghost use Rattle.desk.specs.Promises.{Numbered, gave_test, gave_place, Eliminates, EliminatesIn, CountsAlong, TestsAt, ReadsAs, LooksAt};

use elimination::Delivered;
use reading::{Limit, Refused};

#[repr(C)]
#[derive(Clone, Copy)]
pub struct Reply {
    pub number: u64,
    pub verdict: u64,
    pub place: u64,
    pub length: u64,
}

impl From<Result<Delivered, Refused>> for Reply {
    ghost from_gives = { λ reply r. Numbered reply r };

    fn from(reply: Result<Delivered, Refused>) -> Self {
        let (number, verdict, place, length) = match reply {
            Ok(done) => (0, done.verdict.number() as u64, 0, done.length as u64),
            Err(no) => (no.why.number() as u64, 3, no.place as u64, 0),
        };
        Reply {
            number,
            verdict,
            place,
            length,
        }
    }
}

#[repr(C)]
#[derive(Clone, Copy)]
pub struct Counted {
    pub number: u64,
    pub verdict: u64,
    pub place: u64,
    pub length: u64,
    pub steps: u64,
    pub terms: u64,
}

#[repr(C)]
#[derive(Clone, Copy)]
pub struct Tested {
    pub number: u64,
    pub verdict: u64,
    pub place: u64,
}

impl From<Result<bool, Refused>> for Tested {
    ghost from_gives = { λ said t. gave_test t ≡ trial_of said };

    fn from(said: Result<bool, Refused>) -> Self {
        let (number, verdict, place) = match said {
            Ok(holds) => (0, u64::from(holds), 0),
            Err(not) => (not.why.number() as u64, 3, not.place as u64),
        };
        Tested {
            number,
            verdict,
            place,
        }
    }
}

#[repr(C)]
#[derive(Clone, Copy)]
pub struct Place {
    pub number: u64,
    pub place: u64,
}

impl From<Result<usize, Refused>> for Place {
    ghost from_gives = { λ read a. gave_place a ≡ answer_of (told read) };

    fn from(read: Result<usize, Refused>) -> Self {
        let (number, place) = match read {
            Ok(_) => (0, 0),
            Err(refused) => (refused.why.number() as u64, refused.place as u64),
        };
        Place { number, place }
    }
}

#[repr(C)]
#[derive(Clone, Copy)]
pub struct Part {
    pub at: u64,
    pub length: u64,
}

// The sheet's condition with every quantifier gone, at the start of the result buffer.
pub fn vb_eliminate(sheet: &[u8], res: &mut [u8], work: &mut [u8]) -> Reply
    ensures { Eliminates sheet.now res.old work.old result res.new work.new }
{
    Reply::from(elimination::eliminate(sheet, res, work))
}

// The same with the steps that are finished and the most boundary terms of a step that has at most 64.
pub fn vb_count(sheet: &[u8], res: &mut [u8], work: &mut [u8]) -> Counted
    ensures { CountsAlong sheet.now res.old work.old result res.new work.new }
{
    let counted = elimination::eliminate_counted(sheet, res, work);
    let whole = Reply::from(counted.reply);
    Counted {
        number: whole.number,
        verdict: whole.verdict,
        place: whole.place,
        length: whole.length,
        steps: counted.tally.steps as u64,
        terms: counted.tally.terms as u64,
    }
}

// The same in the caller's room, on little stack.
pub fn vb_eliminate_in(sheet: &[u8], res: &mut [u8], work: &mut [u8], room: &mut [u8]) -> Reply
    ensures { EliminatesIn sheet.now res.old work.old room.old result res.new work.new room.new }
{
    Reply::from(elimination::eliminate_in(sheet, res, work, room))
}

// Whether a quantifier-free sheet holds at p0/q .. p7/q.
pub fn vb_test(
    sheet: &[u8],
    p0: i64,
    p1: i64,
    p2: i64,
    p3: i64,
    p4: i64,
    p5: i64,
    p6: i64,
    p7: i64,
    q: i64,
) -> Tested
    ensures { TestsAt sheet.now (p0 ∷ p1 ∷ p2 ∷ p3 ∷ p4 ∷ p5 ∷ p6 ∷ p7 ∷ q ∷ []) result }
{
    Tested::from(testing::test(sheet, [p0, p1, p2, p3, p4, p5, p6, p7, q]))
}

// Number and place of the answer under the limits of a result.
pub fn vb_read(sheet: &[u8]) -> Place
    ensures { ReadsAs sheet.now result }
{
    Place::from(reading::read(sheet, Limit::Result))
}

// Where the body of the last quantifier stands in the sheet.
pub fn vb_look(sheet: &[u8]) -> Part
    ensures { LooksAt sheet.now result }
{
    let part = reading::look_part(sheet);
    Part {
        at: part.at as u64,
        length: part.length as u64,
    }
}
