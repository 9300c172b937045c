// Reads cases from standard input, each its length in four bytes and then its bytes, and prints a line for each: number and place under the
// sheet's limits, number and place under the look's, where the look's part begins and how long it is; then from the part itself its length and,
// where it is not empty, the checksum of its bytes (FNV-1a, 64 bits).
#![tactic(auto)]

use reading::{Limit, Refused};
use std::io;

// The part that the look gives back.
fn body(rt: &impl Print, s: &[u8]) -> io::Result<()> {
    cases::show(rt, s.len(), b"")?;
    if s.len() == 0 {
        return Ok(());
    }
    print!(rt; " {}", cases::checksum(s))
}

// Number and place: 0 and 0 where nothing is refused.
fn told(read: Result<usize, Refused>) -> (usize, usize) {
    match read {
        Ok(_) => (reading::DONE, 0),
        Err(r) => (r.why.number(), r.place),
    }
}

// The six numbers are one write.
fn line(rt: &impl Print, s: &[u8]) -> io::Result<()> {
    let (sheet, at) = told(reading::read(s, Limit::Sheet));
    let (result, place) = told(reading::read(s, Limit::Result));
    let part = reading::look_part(s);
    print!(rt;
        "{sheet} {at} {result} {place} {} {} ",
        part.at, part.length
    )?;
    body(rt, reading::look(s))?;
    println!(rt)
}

fn main(rt: HostRuntime) -> io::Result<()> {
    let mut buffer = [0u8; 65600];
    let mut reader = rt.reader();
    for _ in 0..20000 {
        let Some(n) = cases::fetch(&mut reader, &mut buffer)? else {
            break;
        };
        line(&rt, &buffer[..n])?;
    }
    Ok(())
}
