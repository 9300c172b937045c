// Reads a sheet from standard input, more of it than any limit, and prints one line: answer, verdict, place, result length.
#![tactic(auto)]

use std::io;

fn main(rt: HostRuntime) -> io::Result<()> {
    let mut sheet = [0u8; 65600];
    let mut result = [0u8; 65536];
    let mut work = [0u8; 65536];
    let n = streams::read_full(&mut rt.reader(), &mut sheet)?;
    match elimination::eliminate(&sheet[..n], &mut result, &mut work) {
        Ok(done) => println!(rt; "0 {} 0 {}", done.verdict.number(), done.length),
        Err(no) => println!(rt; "{} 3 {} 0", no.why.number(), no.place),
    }
}
