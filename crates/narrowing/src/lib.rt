// The nearest f32 of an f64, worked out on bit patterns: Rust's `x as f32`.
#![tactic(auto)]

ghost use Rattle.std.specs.Prelude.{◌≡◌, ◌≤◌};
ghost use Rattle.rounding.specs.Operations.{narrowed};
ghost use Rattle.narrowing.specs.Nearest.{Rounds};

// Both patterns are without the sign bit.
fn magnitude(b: u64) -> u64
    requires { b ≤ 0x7ff0_0000_0000_0000 }
    ensures { Rounds b result }
{
    if b >= 0x3810_0000_0000_0000 {
        // From 2^128 on the result is an infinity.
        if b >= 0x47f0_0000_0000_0000 {
            return 0x7f80_0000;
        }
        // The result is a normal f32. The exponent field falls by 896, and the lower 29 digits are cut off: half a unit
        // less one is added, and one more if the last digit that stays is odd, so that a tie goes to even. A carry
        // moves up into the field.
        return (b - 0x3800_0000_0000_0000 + (0x0fff_ffff + ((b >> 29) & 1))) >> 29;
    }
    // Below 2^-126 an f32 counts units of 2^-149. These are the last digits of a sum with 2^-97, so the sum rounds to
    // them. A tie goes to the even one in both, because 2^-97 is an even number of units.
    f64::to_bits(f64::from_bits(b) + f64::from_bits(0x39e0_0000_0000_0000)) - 0x39e0_0000_0000_0000
}

// K4, K5. The nearest f32, a tie to the one whose last digit is even; a NaN gives a NaN.
pub fn narrow(x: f64) -> f32
    ensures { result ≡ narrowed x }
{
    if x != x {
        return 0.0f32 / 0.0f32;
    }
    let n: u64 = f64::to_bits(x);
    let r: u64 = magnitude(n & 0x7fff_ffff_ffff_ffff);
    f32::from_bits((((n >> 63) << 31) + r) as u32)
}
