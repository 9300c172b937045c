// One whole number at a time. Each function says its result in ℤ, without bounds, and asks for the sizes at which no step leaves an i64.
ghost use Rattle.std.specs.Prelude.{◌≡◌, ◌<◌, ◌≤◌, pos, nat_abs, neg_ℤ, ◌+ℤ◌, ◌*ℤ◌};
ghost use Rattle.std.specs.Int.Signed.{quot_z};
ghost use Rattle.reading.specs.Limits.{M};
ghost use Rattle.exact.specs.Numbers.{Within};
ghost use Rattle.exact.specs.Divisor.{gcd_of};

// The greatest common divisor, by Euclid's algorithm: a `while`, since it counts no index and no range gives its turns.
pub fn gcd(a: u64, b: u64) -> u64
    ensures { result ≡ gcd_of a b }
{
    let mut x = a;
    let mut y = b;
    while y != 0 {
        let r = x % y;
        x = y;
        y = r;
    }
    x
}

pub fn neg(x: i64) -> i64
    requires { Within 9223372036854775807 x }
    ensures { result ≡ neg_ℤ x }
{
    -x
}

// The size of x.
pub fn abs(x: i64) -> u64
    ensures { result ≡ nat_abs x }
{
    x.unsigned_abs()
}

// x over g.
pub fn quot(x: i64, g: u64) -> i64
    requires within { Within 9223372036854775807 x }
    requires g_nonzero { (0 < g) × (g ≤ 9223372036854775807) }
    ensures { result ≡ quot_z x (pos g) }
{
    x / (g as i64)
}

// a·n + d·t.
pub fn mul_add(a: i64, n: i64, d: i64, t: i64) -> i64
    requires within { Within M a }
    requires within_2 { Within M n }
    requires within_3 { Within M d }
    requires within_4 { Within M t }
    ensures { result ≡ a *ℤ n +ℤ d *ℤ t }
{
    a * n + d * t
}

// 2·d·e.
pub fn twice(d: i64, e: i64) -> i64
    requires within { Within M d }
    requires within_2 { Within M e }
    ensures { result ≡ pos 2 *ℤ d *ℤ e }
{
    2 * d * e
}
