// Floats as bit patterns and back, and the one NaN that may leave the port at each width (O3).
// A compiled NaN may have any NaN's pattern, so each float that leaves is tested and a NaN is replaced by
// 7FF8000000000000 or 7FC00000.
#![tactic(auto)]

ghost use Rattle.std.specs.Prelude.{◌≡◌};
ghost use Rattle.std.specs.Float.Ieee as Ieee;
ghost use Rattle.std.specs.Float.{binary32, binary64};

// The number itself; a NaN with any pattern becomes the one NaN that is handed out. In the logic there is one NaN, so
// nothing changes there; compiled, `0.0 / 0.0` is the constant 7FF8000000000000 (`oracle/hostile` checks it).
pub fn one_nan(y: f64) -> f64
    ensures { result ≡ y }
{
    if y != y {
        return 0.0 / 0.0;
    }
    y
}

// The same for f32, whose NaN is 7FC00000.
pub fn one_nan_f32(b: f32) -> f32
    ensures { result ≡ b }
{
    if b != b {
        return 0.0 / 0.0;
    }
    b
}

// Rust's f64::to_bits, except that every NaN gives the same pattern: the language does not define `to_bits` at a NaN.
pub fn bits_of(x: f64) -> u64
    ensures { result ≡ Ieee.to_bits binary64 x }
{
    if x != x {
        return 0x7ff8_0000_0000_0000;
    }
    f64::to_bits(x)
}

// Rust's f64::from_bits. A pattern is a NaN's if, without the sign, it lies above an infinity's; `from_bits` is not
// defined there.
pub fn float_of(n: u64) -> f64
    ensures { result ≡ Ieee.of_bits binary64 n }
{
    if n % 0x8000_0000_0000_0000 > 0x7ff0_0000_0000_0000 {
        return 0.0 / 0.0;
    }
    f64::from_bits(n)
}

// Rust's f32::to_bits, except that every NaN gives the same pattern.
pub fn bits_of_f32(a: f32) -> u32
    ensures { result ≡ Ieee.to_bits binary32 a }
{
    if a != a {
        return 0x7fc0_0000;
    }
    f32::to_bits(a)
}

// Rust's f32::from_bits; NaN patterns are tested first, as in `float_of`.
pub fn float_of_f32(n: u32) -> f32
    ensures { result ≡ Ieee.of_bits binary32 n }
{
    if n % 0x8000_0000 > 0x7f80_0000 {
        return 0.0 / 0.0;
    }
    f32::from_bits(n)
}
