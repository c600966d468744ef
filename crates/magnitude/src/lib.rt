// How large a float is: the tests of a range, and the laws (proofs/) that carry a bound through one rounding.
#![tactic(auto)]

ghost use Rattle.std.specs.Prelude.{◌≡◌, ◌&&◌};
ghost use Rattle.std.specs.Float.Ieee as Ieee;
ghost use Rattle.std.specs.Float.Ieee.Scale.{finite};

// Rust's f64::is_finite. A number minus itself is zero; an infinity or a NaN minus itself is a NaN. `>=` compiles to
// one jump, `==` to two.
pub fn is_finite(x: f64) -> bool
    ensures { result ≡ finite x }
{
    x - x >= 0.0f64
}

// Rust's f32::is_finite.
pub fn is_finite_f32(x: f32) -> bool
    ensures { result ≡ finite x }
{
    x - x >= 0.0f32
}

// Whether x lies from low to high, both included. No comparison with a NaN holds, so a NaN never does.
pub fn within(x: f64, low: f64, high: f64) -> bool
    ensures { result ≡ (Ieee.le low x && Ieee.le x high) }
{
    if low <= x { x <= high } else { false }
}
