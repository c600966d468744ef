// The integer part of a position and the fraction that is left (K3).
#![tactic(auto)]

ghost use Rattle.std.specs.Prelude.{◌≡◌, ◌^◌};
ghost use Rattle.std.specs.Float.Ieee as Ieee;
ghost use Rattle.std.specs.Float.{binary64};
ghost use Rattle.magnitude.specs.Bounds.{AtMost};
ghost use Rattle.integer_part.specs.Parts.{floor_of, fraction_of};

use constants::LIMIT_F64;

// Rust's `x as i64`: rounded towards zero; if x lies outside of i64, the nearer end of its range; 0 at a NaN.
fn truncated(x: f64) -> i64
    ensures { result ≡ Ieee.to_signed 63 x }
{
    if x < 9223372036854775808.0 {
        if x >= -9223372036854775808.0 {
            return std::num::truncating_f64_to_i64(x);
        }
        return i64::MIN;
    }
    if x == x { i64::MAX } else { 0 }
}

// For an x that may have digits behind the point: it is cut towards zero, and one less is taken if that lies above x.
fn stepped(x: f64) -> i64
    requires { AtMost (2 ^ 52) x }
    ensures { result ≡ floor_of x }
{
    let t = std::num::truncating_f64_to_i64(x);
    if x < (t as f64) { t - 1 } else { t }
}

// From 2^52 on every f64 is a whole number, so the cast alone is the floor.
fn beyond(x: f64) -> i64
    ensures { result ≡ floor_of x }
{
    if magnitude::within(x, -4503599627370496.0, 4503599627370496.0) {
        stepped(x)
    } else {
        truncated(x)
    }
}

// The floor as a float, without a cast. Between 2^52 and 2^53 the floats are the whole numbers, so adding 3 * 2^51
// rounds x to a neighbouring whole number, which is the floor, or one too many if it lies above x.
fn floored(x: f64) -> f64
    requires { AtMost (2 ^ 36) x }
    ensures { result ≡ Ieee.of_int binary64 (floor_of x) }
{
    let t = x + 6755399441055744.0;
    let step = if x < t - 6755399441055744.0 { 1.0 } else { 0.0 };
    t - step - 6755399441055744.0
}

// Rust's `x.floor() as i64` (K3). The fast path covers all positions of a reader; its test is that of
// `ring::position_ok`, so that the compiler does it once for both.
pub fn floor(x: f64) -> i64
    ensures { result ≡ floor_of x }
{
    if magnitude::within(x, -LIMIT_F64, LIMIT_F64) {
        floored(x) as i64
    } else {
        beyond(x)
    }
}

// 000's `position - integer as f64`.
pub fn fraction(x: f64) -> f64
    ensures { result ≡ fraction_of x }
{
    if magnitude::within(x, -LIMIT_F64, LIMIT_F64) {
        x - floored(x)
    } else {
        x - std::num::nearest_i64_to_f64(beyond(x))
    }
}
