// Reads sheets from standard input, each its length in four bytes and then its bytes, and prints a line for each: answer, verdict, place, length,
// and the result in hex where it has at most 600 bytes, else the word fnv and the checksum of its bytes (FNV-1a, 64 bits).
#![tactic(auto)]

use std::io;

fn hex(rt: &impl Print, s: &[u8]) -> io::Result<()> {
    for b in s {
        print!(rt; "{:02x}", *b)?;
    }
    Ok(())
}

// The result's bytes, or their checksum.
fn bytes(rt: &impl Print, s: &[u8]) -> io::Result<()> {
    if s.len() == 0 {
        return Ok(());
    }
    if s.len() <= 600 {
        print!(rt; " ")?;
        return hex(rt, s);
    }
    print!(rt; " fnv {}", cases::checksum(s))
}

fn line(rt: &impl Print, sheet: &[u8], res: &mut [u8], work: &mut [u8]) -> io::Result<()> {
    match elimination::eliminate(sheet, res, work) {
        Ok(done) => {
            print!(rt; "0 {} 0 {}", done.verdict.number(), done.length)?;
            if let Some(result) = res.get(..done.length) {
                bytes(rt, result)?;
            }
        }
        Err(no) => print!(rt; "{} 3 {} 0", no.why.number(), no.place)?,
    }
    println!(rt)
}

fn main(rt: HostRuntime) -> io::Result<()> {
    let mut buffer = [0u8; 65600];
    let mut result = [0u8; 65536];
    let mut work = [0u8; 65536];
    let mut reader = rt.reader();
    for _ in 0..20000 {
        let Some(n) = cases::fetch(&mut reader, &mut buffer)? else {
            break;
        };
        line(&rt, &buffer[..n], &mut result, &mut work)?;
    }
    Ok(())
}
