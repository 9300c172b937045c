// Reads sheets from standard input, each its length in four bytes, its bytes and nine numbers of eight bytes, and prints a line for each: number,
// verdict and place of the test at those eight values over the ninth.
#![tactic(auto)]

use reading::Refused;
use std::io;
use std::io::Read;

// The next number of the stream, of eight bytes.
fn next_value<R: Read>(reader: &mut R) -> io::Result<i64> {
    let mut s = [0u8; 8];
    streams::read_full(reader, &mut s)?;
    Ok(i64::from_le_bytes(s))
}

fn next_values<R: Read>(reader: &mut R) -> io::Result<[i64; 9]> {
    let mut w = [0i64; 9];
    for v in &mut w {
        *v = next_value(reader)?;
    }
    Ok(w)
}

// Number, verdict and place of the test.
fn line(rt: &impl Print, tested: Result<bool, Refused>) -> io::Result<()> {
    match tested {
        Ok(holds) => println!(rt; "0 {} 0", u8::from(holds)),
        Err(r) => println!(rt; "{} 3 {}", r.why.number(), r.place),
    }
}

fn main(rt: HostRuntime) -> io::Result<()> {
    let mut buffer = [0u8; 65600];
    let mut reader = rt.reader();
    for _ in 0..20000 {
        let Some(n) = cases::fetch(&mut reader, &mut buffer)? else {
            break;
        };
        let values = next_values(&mut reader)?;
        line(&rt, testing::test(&buffer[..n], values))?;
    }
    Ok(())
}
