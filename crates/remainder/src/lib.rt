// Rust's `%` and `rem_euclid` of f64, for every pair of floats.
// The processor has no such operation and a compiler calls C's fmod for it; here the digits are divided as whole
// numbers.
#![tactic(auto)]

ghost use Rattle.std.specs.Prelude.{◌≡◌, ◌-◌, ◌*◌, ◌%◌, ◌^◌, ◌<◌, ◌≤◌, false, not, T};
ghost use Rattle.std.specs.Float.{binary64};
ghost use Rattle.std.specs.Float.Ieee.{round, rem, lt};
ghost use Rattle.remainder.specs.Euclid.{zero, absolute_of, rem_euclid};
ghost use Rattle.remainder.specs.Digits.{Divided};

// Rust's f64::abs.
fn absolute(x: f64) -> f64
    ensures { result ≡ absolute_of x }
{
    if x < 0.0 {
        return -x;
    }
    if x == 0.0 { 0.0 } else { x }
}

// How many places above the smallest value the digits stand. A field of 0 (a subnormal number) counts as 1.
fn place(field: u64) -> u64
    ensures { result ≡ field - 1 }
{
    if field == 0 { 0 } else { field - 1 }
}

// The remainder of m followed by k zeros, divided by n digit by digit.
fn long_division(m: u64, k: u64, n: u64) -> u64
    requires fact_1 { 0 < n }
    requires fact_2 { n < 2 ^ 53 }
    ensures { result ≡ m * 2 ^ k % n }
{
    let mut r = m % n;
    for _ in 0..k {
        r = r * 2 % n;
    }
    r
}

// The value r * 2^(j - 1074) as a float. The first product is exact, so that only the second rounds.
fn scaled(r: u64, j: u64) -> f64
    requires fact_1 { r < 2 ^ 53 }
    requires fact_2 { j ≤ 2045 }
    ensures { result ≡ round binary64 false (r * 2 ^ j) (2 ^ 1074) }
{
    std::num::nearest_u64_to_f64(r) * 2.220446049250313e-16 * f64::from_bits((j + 1) << 52)
}

// The remainder of two numbers above zero, the second at most as large as the first.
fn divided(a: f64, b: f64) -> f64
    requires { Divided a b }
    ensures { result ≡ rem binary64 a b }
{
    let u = f64::to_bits(a);
    let v = f64::to_bits(b);
    let i = place(u >> 52);
    let j = place(v >> 52);
    let r = long_division(u - (i << 52), i - j, v - (j << 52));
    scaled(r, j)
}

// The remainder if neither is below zero. It is a NaN if a is infinite or a NaN, or b is a zero or a NaN.
fn above(a: f64, b: f64) -> f64
    requires fact_1 { T (not (lt a zero)) }
    requires fact_2 { T (not (lt b zero)) }
    ensures { result ≡ rem binary64 a b }
{
    if a < b {
        return a;
    }
    if 0.0 < b {
        if a < 1.0 / 0.0 {
            return divided(a, b);
        }
        return 0.0 / 0.0;
    }
    0.0 / 0.0
}

// Rust's x % y. The remainder has the sign of x; that of y does not matter.
pub fn remainder(x: f64, y: f64) -> f64
    ensures { result ≡ rem binary64 x y }
{
    let b = absolute(y);
    if x < 0.0 { -above(-x, b) } else { above(x, b) }
}

// Rust's f64::rem_euclid. Fast paths: a number from 0 to below y is its own remainder, and from one below twice y, y is
// subtracted, which is exact.
pub fn rem_euclid(x: f64, y: f64) -> f64
    ensures { result ≡ rem_euclid x y }
{
    if 0.0 <= x {
        if x < y {
            return x;
        }
        if 0.0 < y {
            let d = x - y;
            if d < y {
                return d;
            }
        }
    }
    let r = remainder(x, y);
    if r < 0.0 { r + absolute(y) } else { r }
}
