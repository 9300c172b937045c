// Writing numbers and records at a place of a buffer. Each promise is an equation with `lay`, so it also says that nothing else changes.
#![tactic(auto)]

ghost use Rattle.std.specs.Prelude.{◌≡◌, ◌+◌, ◌-◌, ◌≤◌, ◌<◌, length};
ghost use Rattle.std.specs.Int.{w32};
ghost use Rattle.std.proofs.Common.{of_z};
ghost use Rattle.reading.specs.Limits.{M};
ghost use Rattle.reading.specs.Bytes.{bytes2, bytes4, int_bytes, zeros};
ghost use Rattle.reading.specs.Formula.{list_no};
ghost use Rattle.exact.specs.Numbers.{Within, Each};
ghost use Rattle.writing.specs.Writing.{lay, atom_bytes, list_bytes};

// Bytes, laid over those that stand from `at` on.
pub fn paste(d: &mut [u8], at: usize, b: &[u8])
    requires { at + length b.now ≤ length d.old }
    ensures { d.new ≡ lay at b.now d.old }
{
    d[at..at + b.len()].copy_from_slice(b);
}

// Bytes in the place of as many others, one after the other: where their number is not known before, `copy_from_slice` has an archive for C ask for
// memmove from outside.
pub fn copy_over(d: &mut [u8], b: &[u8])
    requires { length b.now ≡ length d.old }
    ensures { d.new ≡ b.now }
{
    for (i, x) in b.iter().enumerate() {
        d[i] = *x;
    }
}

// Bytes of an array, laid from `at` on: its few bytes are stores, and no copy of a slice.
fn put<const N: usize>(d: &mut [u8], at: usize, b: &[u8; N])
    requires { at + N ≤ length d.old }
    ensures { d.new ≡ lay at b.now d.old }
{
    for (i, x) in b.iter().enumerate() {
        d[at + i] = *x;
    }
}

pub fn put_u16(d: &mut [u8], at: usize, n: u16)
    requires { at + 2 ≤ length d.old }
    ensures { d.new ≡ lay at (bytes2 n) d.old }
{
    put(d, at, &n.to_le_bytes());
}

pub fn put_u32(d: &mut [u8], at: usize, n: u32)
    requires { at + 4 ≤ length d.old }
    ensures { d.new ≡ lay at (bytes4 n) d.old }
{
    put(d, at, &n.to_le_bytes());
}

// A signed number in four bytes.
pub fn put_int(d: &mut [u8], at: usize, x: i64)
    requires at_in_bounds { at + 4 ≤ length d.old }
    requires within { Within M x }
    ensures { d.new ≡ lay at (bytes4 (of_z w32 x)) d.old }
{
    put(d, at, &(x as i32).to_le_bytes());
}

pub fn put_nums(d: &mut [u8], at: usize, k: &[i64; 9])
    requires at_in_bounds { at + 36 ≤ length d.old }
    requires each { Each M k.now }
    ensures { d.new ≡ lay at (int_bytes k.now) d.old }
{
    for (i, x) in k.iter().enumerate() {
        put_int(d, at + 4 * i, *x);
    }
}

// An atom of the kind, with its nine numbers. Any number is laid as the kind, so that what rewrites sheets can write other atoms too.
pub fn put_atom(d: &mut [u8], at: usize, kind: u16, k: &[i64; 9])
    requires at_in_bounds { at + 40 ≤ length d.old }
    requires each { Each M k.now }
    ensures { d.new ≡ lay at (atom_bytes kind k.now) d.old }
{
    put_u16(d, at, 40);
    put_u16(d, at + 2, kind);
    put_nums(d, at + 4, k);
}

fn list_no(all: bool) -> u16
    ensures { result ≡ list_no all }
{
    if all { 5 } else { 6 }
}

// The record of an ALLOF or an ANYOF of n formulas.
pub fn put_list(d: &mut [u8], at: usize, all: bool, n: usize)
    requires { (at + 6 ≤ length d.old) × (n < 65536) }
    ensures { d.new ≡ lay at (list_bytes all n) d.old }
{
    put_u16(d, at, 6);
    put_u16(d, at + 2, list_no(all));
    put_u16(d, at + 4, n as u16);
}

// Zeros up to, but not at, the place `to`.
pub fn put_zeros(d: &mut [u8], from: usize, to: usize)
    requires { (from ≤ to) × (to ≤ length d.old) }
    ensures { d.new ≡ lay from (zeros (to - from)) d.old }
{
    d[from..to].fill(0);
}
