// The fused multiply-add of f32, rounded once (K4).
// The product of two f32 is exact as an f64, so that only the sum of two f64 has to be rounded with care.
#![tactic(auto)]

ghost use Rattle.std.specs.Prelude.{◌≡◌};
ghost use Rattle.std.specs.Float.{binary32};
ghost use Rattle.std.specs.Float.Ieee.{add};
ghost use Rattle.rounding.specs.Operations.{fused};
ghost use Rattle.fused32.specs.Parts.{SumOf, Ordered, Above, Tested};

use narrowing::narrow;

// x + y rounded once, where x is not below zero, y is no larger in size, and s is x + y as an f64. The difference s - x
// is exact, so it tells on which side of x + y the float s lies. If s is not exact and its last digit is even, its
// neighbour towards x + y is taken: an odd last digit is neither an f32's nor a midpoint's, so it rounds to f32 as x +
// y does.
fn odd_sum(x: f64, y: f64, s: f64) -> f32
    requires fact_1 { Ordered x y }
    requires fact_2 { SumOf x y s }
    ensures { result ≡ add binary32 x y }
{
    let z = s - x;
    if z == y {
        return narrow(s);
    }
    let n: u64 = f64::to_bits(s);
    if n & 1 == 1 {
        return narrow(s);
    }
    if z < y {
        return narrow(f64::from_bits(n + 1));
    }
    narrow(f64::from_bits(n - 1))
}

// The sum p + c rounded once, where s, which is p + c as an f64, is above zero. Then the larger of the two has no minus
// sign, as `odd_sum` needs it.
fn positive_sum(p: f64, c: f64, s: f64) -> f32
    requires { Above p c s }
    ensures { result ≡ add binary32 p c }
{
    if p < c {
        return odd_sum(c, p, s);
    }
    odd_sum(p, c, s)
}

// Whether s rounds to the same f32 as every number whose nearest f64 is s: s is not finite, or at least as large as the
// smallest normal f32 and no midpoint of two f32 (its lower 29 digits are not one half).
fn is_clear(s: f64) -> bool
    ensures { Tested s result }
{
    if s != s {
        return true;
    }
    let m: u64 = f64::to_bits(s) & 0x7fff_ffff_ffff_ffff;
    if m < 0x3810_0000_0000_0000 {
        return false;
    }
    m & 0x1fff_ffff != 0x1000_0000
}

// K4, K5. p + c of any two f64, rounded once to an f32: quickly where rounding twice cannot go wrong.
pub fn sum32(p: f64, c: f64) -> f32
    ensures { result ≡ add binary32 p c }
{
    let s = p + c;
    if is_clear(s) {
        return narrow(s);
    }
    if 0.0 < s {
        return positive_sum(p, c, s);
    }
    if s < 0.0 {
        return -positive_sum(-p, -c, -s);
    }
    narrow(s) // an exact zero, with its sign
}

// K4, K5. 000's mul_add for f32: a * b + c, rounded once.
pub fn fused32(a: f32, b: f32, c: f32) -> f32
    ensures { result ≡ fused binary32 a b c }
{
    let x = std::num::f32_to_f64_with_nan(a);
    let y = std::num::f32_to_f64_with_nan(b);
    let z = std::num::f32_to_f64_with_nan(c);
    sum32(x * y, z)
}
