// One tap of the original's f32 loop: a fused step whose sum is held as an f64 that is an f32 (K4). There is a fast
// path for an f64 sum that is plain.
#![tactic(auto)]

ghost use Rattle.std.specs.Prelude.{◌≡◌, true};
ghost use Rattle.std.specs.Float.{binary32, binary64};
ghost use Rattle.std.specs.Float.Ieee.{add, mul};
ghost use Rattle.rounding.specs.Operations.{fused};
ghost use Rattle.fused_step.specs.Steps.{Numbers, Plain, in_order, plain};

use fused32::sum32;

// Whether neither is a NaN. The two can be ordered only then, so comparing them is enough.
pub fn are_numbers(x: f32, c: f32) -> bool
    ensures value { result ≡ in_order x c }
    ensures numbers { result ≡ true → Numbers x c }
{
    if x < c { true } else { x >= c }
}

// `n` is an f64's pattern to which half of an f32's last digit has been added. The answer is true if the f64's exponent
// field was 897 to 1149, so that it is as large as a normal f32, and the f64 was no midpoint of two f32.
pub fn is_plain(n: u64) -> bool
    ensures value { result ≡ plain n }
    ensures plain { result ≡ true → Plain n }
{
    if n & 0x1fff_ffff == 0 {
        return false;
    }
    let m = n & 0x7fff_ffff_ffff_ffff;
    if m < 0x3810_0000_1000_0000 {
        return false;
    }
    m < 0x47e0_0000_1000_0000
}

// The step off the fast path: the product is exact in f64, and the sum of the two is rounded once.
fn any_step(x: f32, c: f32, sum: f64) -> f64
    ensures { result ≡ fused binary32 x c sum }
{
    let a = std::num::f32_to_f64_with_nan(x);
    let b = std::num::f32_to_f64_with_nan(c);
    std::num::f32_to_f64_with_nan(sum32(a * b, sum))
}

// A step whose f64 sum s is not plain. A zero is exact and stays as it is, sign included; testing for it keeps silence
// fast.
fn rare_step(x: f32, c: f32, sum: f64, s: f64) -> f64
    requires { s ≡ add binary64 (mul binary64 x c) sum }
    ensures { result ≡ fused binary32 x c sum }
{
    if s == 0.0 {
        return s;
    }
    any_step(x, c, sum)
}

// The value x * c + sum rounded once to an f32, for any f64 sum. The chain keeps its f32 sums as f64, so no step widens
// or narrows them. The product is exact in f64. If the f64 sum is plain, half of the last digit that an f32 keeps is
// added to its pattern and the digits that an f32 lacks are cut off; a carry goes up into the exponent field. No tie is
// possible there, so the result is the nearest f32.
pub fn step(x: f32, c: f32, sum: f64) -> f64
    ensures { result ≡ fused binary32 x c sum }
{
    if !are_numbers(x, c) {
        return any_step(x, c, sum);
    }
    let s = (x as f64) * (c as f64) + sum;
    if s != s {
        return any_step(x, c, sum);
    }
    let n: u64 = f64::to_bits(s) + 0x1000_0000;
    if is_plain(n) {
        return f64::from_bits(n & 0xffff_ffff_e000_0000);
    }
    rare_step(x, c, sum, s)
}
