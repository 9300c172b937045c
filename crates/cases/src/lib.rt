// What the gate's programs share: the next case of a stream, numbers on a line, and the checksum of bytes.
#![tactic(auto)]

ghost use Rattle.std.specs.Prelude.{◌+◌, ◌<◌, ◌≤◌, length, IfOk, IfSome};

use std::io;
use std::io::Read;

// A number, and what follows it.
pub fn show(rt: &impl Print, n: usize, after: &[u8]) -> io::Result<()> {
    print!(rt; "{n}")?;
    rt.write_all(after)
}

// The number in the four bytes of s from i on.
pub fn number_at(s: &[u8], i: usize) -> u64
    requires { i + 4 ≤ length s.now }
    ensures { result < 4294967296 }
{
    u64::from(u32::from_le_bytes([s[i], s[i + 1], s[i + 2], s[i + 3]]))
}

// The length of the next case, which stands before it in four bytes; none where the input has ended.
fn next_length<R: Read>(reader: &mut R) -> io::Result<Option<usize>> {
    let mut head = [0u8; 4];
    let got = streams::read_full(reader, &mut head)?;
    if got < 4 {
        return Ok(None);
    }
    Ok(Some(number_at(&head, 0) as usize))
}

// How many bytes the next case has, which are at the start of the buffer then; none where there is no further case, or no room for it.
pub fn fetch<R: Read>(reader: &mut R, buffer: &mut [u8]) -> io::Result<Option<usize>>
    ensures { IfOk result (λ case. IfSome case (λ n. n ≤ length buffer.new)) }
{
    let Some(n) = next_length(reader)? else {
        return Ok(None);
    };
    if buffer.len() < n {
        return Ok(None);
    }
    streams::read_full(reader, &mut buffer[..n])?;
    Ok(Some(n))
}

// The checksum of the bytes (FNV-1a, 64 bits).
pub fn checksum(s: &[u8]) -> u64 {
    s.iter().fold(14695981039346656037, |h, b| {
        (h ^ u64::from(*b)).wrapping_mul(1099511628211)
    })
}
