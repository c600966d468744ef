// The root's 53 digits by a guess in floats, about which nothing is promised, and a check in whole numbers that says
// whether they are the nearest.
ghost use Rattle.std.specs.Prelude.{◌≡◌, ◌+◌, ◌*◌, ◌^◌, ◌<◌, ◌≤◌};
ghost use Rattle.square_root.specs.Digits.{Nearest, Quick};

use crate::digit;

// v lies from 1 to 4, and g within a 25th of its root. One step of Halley's method leaves a hundred thousandth of that,
// and two of Heron's all but the rounding. The last one aims a quarter of a place low, so that the guess is the nearest
// or the one below it.
fn guess(v: f64, g: f64) -> f64 {
    let h = g * g;
    let a = g * (h + 3.0 * v) / (3.0 * h + v);
    let b = (a + v / a) * 0.5;
    b + ((v / b - b) * 0.5 - 0.00000000000000005551115123125783)
}

// The remainder c * 2^54 - s * s, worked out by halves of s; 2^63 or more if it does not fit.
fn rest(c: u64, s: u64) -> u64
    requires { s < 2 ^ 54 }
    ensures { result < 2 ^ 63 → s * s + result ≡ c * 2 ^ 54 }
{
    let h: u64 = s >> 27;
    let l: u64 = s & 0x7ff_ffff;
    let a = std::num::wrapping_sub_u64(c, h * h);
    let b = std::num::wrapping_sub_u64(a << 27, h * l * 2);
    let r = std::num::wrapping_sub_u64(b << 27, l * l);
    if a < 0x4000_0000 {
        if b < 0x10_0000_0000 {
            return r;
        }
    }
    0x8000_0000_0000_0000
}

// The whole number nearest to the root of c * 2^52, if it is the digits of g or one more; otherwise 0.
fn nearest(c: u64, g: f64) -> u64
    ensures { 0 < result → Nearest c result }
{
    if g < 2.0 {
        let y: u64 = (f64::to_bits(g) & 0xf_ffff_ffff_ffff) + 0x10_0000_0000_0000;
        let r = rest(c, 2 * y - 1);
        if r < 16 * y + 8 {
            return y + digit(r, 8 * y);
        }
    }
    0
}

// The root's digits for the pattern of a value from 2^-1022 on, or 0 if the check fails. The last digit of the exponent
// field says whether 2^52 or 2^53 times an even power of two is taken out.
pub(crate) fn digits_of(bits: u64) -> u64
    ensures { 0 < result → Quick bits result }
{
    let field: u64 = bits >> 52;
    if field == 0 {
        return 0;
    }
    let d: u64 = (bits & 0xf_ffff_ffff_ffff) + 0x10_0000_0000_0000;
    let odd: u64 = (field + 1) & 1;
    let v: u64 = d + ((odd + 0x3fe) << 52);
    nearest(
        d << odd,
        guess(
            f64::from_bits(v),
            f64::from_bits((v >> 1) + 0x1ff7_7000_0000_0000),
        ),
    )
}
