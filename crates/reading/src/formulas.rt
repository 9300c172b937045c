// A formula: its record, and then the formulas that follow it, read by the same rule one level further in. Then a whole sheet.
ghost use Rattle.std.specs.Prelude.{◌≡◌};
ghost use Rattle.reading.specs.Limits.{bytes_of, levels_of};
ghost use Rattle.reading.specs.Reading.{formula_in};
ghost use Rattle.reading.specs.Answers.{told, reply_of, reading};

use crate::records::record_at;
use crate::{Limit, RESULT_BYTES, RESULT_LEVELS, Refusal, Refused, SHEET_BYTES, SHEET_LEVELS};

// The formula that s begins with, of at most `levels` levels: how many bytes it takes. A formula inside it is the part of s from its record on.
pub fn formula_at(s: &[u8], levels: usize) -> Result<usize, Refused>
    ensures { told result ≡ reply_of (formula_in levels s.now) }
{
    let record = match record_at(s) {
        Ok(record) => record,
        Err(why) => return Err(Refused { why, place: 0 }),
    };
    if levels == 0 {
        return Err(Refused {
            why: Refusal::DeepNesting,
            place: 0,
        });
    }
    let mut at = record.shape.bytes();
    for _ in 0..record.follow {
        match formula_at(&s[at..], levels - 1) {
            Ok(used) => at += used,
            Err(inner) => {
                return Err(Refused {
                    why: inner.why,
                    place: at + inner.place,
                });
            }
        }
    }
    Ok(at)
}

impl Limit {
    // The bytes, and the levels, that a sheet may have.
    fn bounds(self) -> (usize, usize)
        ensures bytes { result.0 ≡ bytes_of self }
        ensures levels { result.1 ≡ levels_of self }
    {
        match self {
            Limit::Sheet => (SHEET_BYTES, SHEET_LEVELS),
            Limit::Result => (RESULT_BYTES, RESULT_LEVELS),
        }
    }
}

// A whole sheet of at most `bytes` bytes and `levels` levels. One that is longer is not walked.
fn read_within(s: &[u8], bytes: usize, levels: usize) -> Result<usize, Refused>
    ensures { told result ≡ reading bytes levels s.now }
{
    if bytes < s.len() {
        return Err(Refused {
            why: Refusal::LongSheet,
            place: 0,
        });
    }
    let used = formula_at(s, levels)?;
    if used < s.len() {
        return Err(Refused {
            why: Refusal::BytesAfter,
            place: used,
        });
    }
    Ok(used)
}

// A whole sheet: how many bytes it takes, or why and where it is refused.
pub fn read(s: &[u8], limit: Limit) -> Result<usize, Refused>
    ensures { told result ≡ reading (bytes_of limit) (levels_of limit) s.now }
{
    let (bytes, levels) = limit.bounds();
    read_within(s, bytes, levels)
}
