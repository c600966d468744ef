// Rust's `max`, `min` and `clamp` of floats.
// Where the second argument of `max` or `min` is a constant, its test for a NaN folds away.
#![tactic(auto)]

ghost use Rattle.std.specs.Prelude.{◌≡◌};
ghost use Rattle.min_max.specs.Choice.{larger, smaller, clamped};

// Rust's f64::max.
pub fn max(x: f64, least: f64) -> f64
    ensures { result ≡ larger x least }
{
    if x > least {
        return x;
    }
    if least == least { least } else { x }
}

// Rust's f64::min.
pub fn min(x: f64, most: f64) -> f64
    ensures { result ≡ smaller x most }
{
    if x < most {
        return x;
    }
    if most == most { most } else { x }
}

// Rust's f32::min.
pub fn min_f32(a: f32, b: f32) -> f32
    ensures { result ≡ smaller a b }
{
    if a < b {
        return a;
    }
    if b == b { b } else { a }
}

// Rust's f64::clamp. Rust panics if low is above high or one of them is a NaN; here the same two tests are made in the
// same order, and x is given if both fail.
pub fn clamp(x: f64, low: f64, high: f64) -> f64
    ensures { result ≡ clamped x low high }
{
    if x < low {
        return low;
    }
    if x > high { high } else { x }
}

// Rust's f32::clamp.
pub fn clamp_f32(a: f32, low: f32, high: f32) -> f32
    ensures { result ≡ clamped a low high }
{
    if a < low {
        return low;
    }
    if a > high { high } else { a }
}
