// The digits of an f64 taken out of its bit pattern, and digits put back into a pattern with one rounding.
#![tactic(auto)]

ghost use Rattle.std.specs.Prelude.{◌≡◌};
ghost use Rattle.float_digits.specs.Pattern.{plain, unpacked, with_sticky, magnitude_of, packed};

// The number (-1)^s * m * 2^(e - 1137), where m has 63 digits.
#[derive(Clone, Copy)]
pub struct Scaled {
    pub s: u64,
    pub m: u64,
    pub e: u64,
}

// Whether x is finite and not zero, so that its digits can be taken out.
pub fn is_plain(x: f64) -> bool
    ensures { result ≡ plain x }
{
    if x < 1.0 / 0.0 {
        if -1.0 / 0.0 < x {
            return x != 0.0;
        }
    }
    false
}

// For a plain value the law `scaling` says what the result means.
pub fn unpack(bits: u64) -> Scaled
    ensures { result ≡ unpacked bits }
{
    let b: u64 = bits & 0x7fff_ffff_ffff_ffff;
    // How many places above the smallest value the digits stand. A field of 0 (a subnormal number) counts as 1.
    let k = (b >> 52).saturating_sub(1);
    let d: u64 = b - (k << 52);
    let z: u64 = u64::leading_zeros(d) as u64;
    Scaled {
        s: bits >> 63,
        m: d << (z - 1),
        e: k + 64 - z,
    }
}

// Makes the last digit odd if anything was cut off: rounding needs to know no more (law `jammed` of `rounding`).
pub fn sticky(w: u64, rest: u64) -> u64
    ensures { result ≡ with_sticky w rest }
{
    if rest == 0 { w } else { w | 1 }
}

// Rounds w / 4 to the nearest whole number, a tie to even, by adding 1, and one more if the quotient is odd. A carry
// out of the digits adds one to the exponent field, as it should.
fn magnitude(w: u64, k: u64) -> u64
    ensures { result ≡ magnitude_of w k }
{
    if k >= 2046 {
        return 0x7ff0_0000_0000_0000;
    }
    let v: u64 = w & 0x7f_ffff_ffff_ffff;
    let q: u64 = (v + (1 + ((v >> 2) & 1))) >> 2;
    (k << 52) + q
}

// For a w of 55 digits the law `packed-rounds` says what the result means.
pub fn pack(s: u64, w: u64, k: u64) -> f64
    ensures { result ≡ packed s w k }
{
    f64::from_bits((s << 63) + magnitude(w, k))
}
