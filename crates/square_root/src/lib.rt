// The square root of an f64, rounded once (K4).
// A guess is made and checked. Where the check decides nothing, 55 digits are found by restoring steps and rounded; the
// last of them is odd if the root is not exact.
#![tactic(auto)]

mod quick;

ghost use Rattle.std.specs.Prelude.{◌≡◌, ◌^◌, ◌≤◌, true, if◌then◌else◌, nat_le};
ghost use Rattle.std.specs.Float.{binary64};
ghost use Rattle.std.specs.Float.Ieee.Positive.{positive};
ghost use Rattle.rounding.specs.Operations.{root};
ghost use Rattle.square_root.specs.Digits.{RootDigits};

// A comparison as a number, 1 if t <= a.
fn digit(a: u64, t: u64) -> u64
    ensures { result ≡ (if nat_le t a then 1 else 0) }
{
    if t <= a { 1 } else { 0 }
}

// The root of z * 2^46. Two digits of z give one digit of the root, as on paper: s is the root of what has been brought
// down so far, r the remainder, y what is still to come.
fn root_digits(z: u64) -> u64
    requires { 2 ^ 62 ≤ z }
    ensures { RootDigits z result }
{
    let mut s: u64 = 0;
    let mut r: u64 = 0;
    let mut y: u64 = z;
    for _ in 0..55u64 {
        let a: u64 = r * 4 + (y >> 62);
        let t: u64 = s * 4 + 1;
        let d: u64 = digit(a, t);
        s = s * 2 + d;
        r = a - d * t;
        y = y << 2;
    }
    float_digits::sticky(s, r)
}

// An even power of two is taken out, whose root is a power of two: x is z * 2^46 * 4^(k - 1076), where z is m or 2 m
// and k is what `pack` is handed.
fn restored(x: f64) -> f64
    requires { positive x ≡ true }
    ensures { result ≡ root binary64 x }
{
    let p = float_digits::unpack(f64::to_bits(x));
    let w = root_digits(p.m << ((p.e + 1) & 1));
    float_digits::pack(0, w, (p.e + 969) >> 1)
}

fn positive_root(x: f64) -> f64
    requires { positive x ≡ true }
    ensures { result ≡ root binary64 x }
{
    let bits = f64::to_bits(x);
    let y = quick::digits_of(bits);
    if y == 0 {
        return restored(x);
    }
    f64::from_bits(((((bits >> 52) + 1021) >> 1) << 52) + y)
}

// A zero, plus infinity and a NaN are their own roots. A number below zero has none and gives a NaN.
pub fn square_root(x: f64) -> f64
    ensures { result ≡ root binary64 x }
{
    if 0.0 < x {
        if x < 1.0 / 0.0 {
            return positive_root(x);
        }
        return x;
    }
    if x == 0.0 {
        return x;
    }
    0.0 / 0.0
}
