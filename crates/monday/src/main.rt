// The Monday list: reads sheets in boxes from standard input, one after the other, and prints a line for each: its number from 1, answer, verdict, steps
// finished, most boundary terms, result length. A bad box ends the list with 15 and its offset. The last line has the totals: how many had answer 0, how many
// verdicts 0, 1 and 2, and the sum of result lengths. Where standard error is a terminal, it shows how many boxes are done.
#![tactic(auto)]

ghost use Rattle.std.specs.Prelude.{◌≡◌, false, ◌≤◌, ◌<◌, length};

use boxes::{BOX_BYTES, BadBox, Line, Totals};
use std::io;
use std::io::{IsTerminal, Read};

// How far the list has come: its boxes, the bytes that they take, and the totals.
#[derive(Clone, Copy, Default)]
struct State {
    boxes: u64,
    at: u64,
    totals: Totals,
}

// How many boxes are done, on a terminal, now and then.
fn show(terminal: &impl Print, is: bool, done: u64) -> io::Result<()> {
    if is && done % 64 == 0 {
        return print!(terminal; "\r{done} boxes");
    }
    Ok(())
}

// The line on the terminal is left.
fn leave(terminal: &impl Print, is: bool) -> io::Result<()> {
    if is {
        return println!(terminal);
    }
    Ok(())
}

// The bytes of the next box, at the start of the buffer; how many there are.
fn fetch<R: Read>(reader: &mut R, buffer: &mut [u8]) -> io::Result<usize>
    requires { 4 ≤ length buffer.old }
{
    let got = streams::read_full(reader, &mut buffer[..BOX_BYTES])?;
    if got < BOX_BYTES {
        return Ok(got);
    }
    let n = reading::u16_at(buffer, 0) as usize;
    if n < BOX_BYTES || buffer.len() < n {
        return Ok(BOX_BYTES);
    }
    Ok(BOX_BYTES + streams::read_full(reader, &mut buffer[BOX_BYTES..n])?)
}

// Whether a number is near the end of its range, which in a list that a machine can read none ever is.
fn large(n: u64) -> bool
    ensures { result ≡ false → n < 4611686018427387904 }
{
    4611686018427387904 <= n
}

// The list with a line more, for a box of n bytes; none where a number of it is large.
fn counted(s: State, l: Line, n: usize) -> Option<State> {
    let t = s.totals;
    if large(t.done) || large(t.no) || large(t.yes) || large(t.free) || large(t.sum) {
        return None;
    }
    if large(l.length as u64) || large(s.boxes) || large(s.at) || large(n as u64) {
        return None;
    }
    Some(State {
        boxes: s.boxes + 1,
        at: s.at + n as u64,
        totals: boxes::added(t, l),
    })
}

// What the first k bytes of the buffer are, which is told: the end of the list, a bad box, or a box and its line. The list goes on after a box alone.
fn turn(
    rt: &impl Print,
    buffer: &[u8],
    k: usize,
    res: &mut [u8],
    work: &mut [u8],
    s: State,
) -> io::Result<Option<State>> {
    let Some(bytes) = buffer.get(..k) else {
        return Ok(None);
    };
    match boxes::box_at(bytes) {
        Ok(None) => {
            println!(rt; "{}", s.totals)?;
            Ok(None)
        }
        Err(BadBox) => {
            println!(rt; "15 {}", s.at)?;
            println!(rt; "{}", s.totals)?;
            Ok(None)
        }
        Ok(Some(n)) => {
            let Some(sheet) = buffer.get(BOX_BYTES..n) else {
                return Ok(None);
            };
            let l = boxes::line_of(sheet, res, work);
            let Some(next) = counted(s, l, n) else {
                return Ok(None);
            };
            println!(rt; "{} {l}", next.boxes)?;
            Ok(Some(next))
        }
    }
}

fn main(rt: HostRuntime) -> io::Result<()> {
    let mut buffer = [0u8; 65536];
    let mut result = [0u8; 65536];
    let mut work = [0u8; 65536];
    let mut reader = rt.reader();
    let terminal = rt.stderr();
    let is_terminal = terminal.is_terminal();
    let mut s = State::default();
    for _ in 0..1099511627776u64 {
        let k = fetch(&mut reader, &mut buffer)?;
        let Some(next) = turn(&rt, &buffer, k, &mut result, &mut work, s)? else {
            return leave(&terminal, is_terminal);
        };
        s = next;
        show(&terminal, is_terminal, s.boxes)?;
    }
    Ok(())
}
