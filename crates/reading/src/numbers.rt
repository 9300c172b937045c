// The numbers in a sheet's bytes: little-endian, two bytes unsigned, four bytes signed.
ghost use Rattle.std.specs.Prelude.{◌≡◌, ◌+◌, ◌*◌, ◌≤◌, length};
ghost use Rattle.reading.specs.Bytes.{le2, int4, ints};
ghost use Rattle.reading.specs.Records.{in_m, all_m};

use crate::MOST;

const LEAST: i64 = -(MOST as i64);

pub fn u16_at(s: &[u8], i: usize) -> u16
    requires { i + 2 ≤ length s.now }
    ensures { result ≡ le2 s.now i }
{
    u16::from_le_bytes([s[i], s[i + 1]])
}

// The signed number in four bytes.
pub fn int_at(s: &[u8], i: usize) -> i64
    requires { i + 4 ≤ length s.now }
    ensures { result ≡ int4 s.now i }
{
    i64::from(i32::from_le_bytes([s[i], s[i + 1], s[i + 2], s[i + 3]]))
}

// The nine numbers of the atom that s begins with.
pub fn nine(s: &[u8]) -> [i64; 9]
    requires { 40 ≤ length s.now }
    ensures { result ≡ ints 9 4 s.now }
{
    let mut m = [0i64; 9];
    for (i, z) in m.iter_mut().enumerate() {
        *z = int_at(s, 4 + 4 * i);
    }
    m
}

// Whether a number lies in -MOST..MOST: by its two ends, which is one test of the machine, where its size would first be found.
fn in_m(z: i64) -> bool
    ensures { result ≡ in_m z }
{
    LEAST <= z && z <= MOST as i64
}

// Whether N signed numbers from `at` on do. The count is a const parameter so that the few tests are made one after the other, and no loop.
pub fn nums_ok<const N: usize>(s: &[u8], at: usize) -> bool
    requires { at + 4 * N ≤ length s.now }
    ensures { result ≡ all_m N at s.now }
{
    for i in 0..N {
        if !in_m(int_at(s, at + 4 * i)) {
            return false;
        }
    }
    true
}
