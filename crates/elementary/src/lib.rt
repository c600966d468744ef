// Sine, cosine and powers of two (E1 to E5).
// They are the port's own, and they do not divide, since a rendering needs a dozen cosines for each sample.
// docs/ELEMENTARY.md has the steps.
#![tactic(auto)]

mod quarters; // arguments beyond 1 in size, by quarter turns
mod values; // the values, for arguments in range

ghost use Rattle.std.specs.Prelude.{◌≡◌, ◌&&◌};
ghost use Rattle.std.specs.Float.Ieee as Ieee;
ghost use Rattle.elementary.specs.Answers.{or_zero, sine_of, cosine_of, exp2_of};
ghost use Rattle.elementary.specs.Close.{SineClose, CosineClose, PowerClose, Each};

use refusal::Refusal;
use values::{cosine_at, power_at, sine_at};

// Whether x is a number from -b to b.
pub(crate) fn inside(x: f64, b: f64) -> bool
    ensures { result ≡ Ieee.le (Ieee.neg b) x && Ieee.le x b }
{
    if x >= -b { x <= b } else { false }
}

// The original's f64::sin (000); an argument beyond 256 is refused by 1.
pub fn sine(x: f64) -> Result<f64, Refusal>
    ensures value { result ≡ sine_of x }
    ensures each { Each result (SineClose x) }
{
    if inside(x, 256.0) {
        Ok(sine_at(x))
    } else {
        Err(Refusal::Setting)
    }
}

// The original's f64::cos (001); an argument beyond 256 is refused by 1.
pub fn cosine(x: f64) -> Result<f64, Refusal>
    ensures value { result ≡ cosine_of x }
    ensures each { Each result (CosineClose x) }
{
    if inside(x, 256.0) {
        Ok(cosine_at(x))
    } else {
        Err(Refusal::Setting)
    }
}

// The original's f64::powf (001), whose base is always 2; an exponent beyond 1 is refused by 1.
pub fn exp2(x: f64) -> Result<f64, Refusal>
    ensures value { result ≡ exp2_of x }
    ensures each { Each result (PowerClose x) }
{
    if inside(x, 1.0) {
        Ok(power_at(x))
    } else {
        Err(Refusal::Setting)
    }
}

// The cosine as a plain number, 0.0 if refused, so that it comes back in a register. It is for a caller whose arguments
// are in range.
pub fn cosine_or_zero(x: f64) -> f64
    ensures { result ≡ or_zero (cosine_of x) }
{
    if inside(x, 256.0) { cosine_at(x) } else { 0.0 }
}

// The power of two as a plain number, for the same reason.
pub fn exp2_or_zero(x: f64) -> f64
    ensures { result ≡ or_zero (exp2_of x) }
{
    if inside(x, 1.0) { power_at(x) } else { 0.0 }
}
