// The fused multiply-add of f64 by ordinary float operations, for a factor from 0 to 1 (K4).
// It computes a number below and a number above the exact sum. Where both round alike, that is the answer; otherwise
// the result is a NaN, and the caller goes the slow way.
#![tactic(auto)]

ghost use Rattle.std.specs.Prelude.{◌≡◌, not, T};
ghost use Rattle.std.specs.Float.{nan};
ghost use Rattle.std.specs.Float.Ieee.{is_nan};
ghost use Rattle.near_fused.specs.Parts.{high as high_of, sized, Sure};
ghost use Rattle.near_fused.specs.Step.{ordered_of, inside_of, near_of};

// Keeps the upper 26 digits: the product of two such numbers is exact.
fn high(x: f64) -> f64
    requires { T (not (is_nan x)) }
    ensures { result ≡ high_of x }
{
    f64::from_bits((f64::to_bits(x) >> 27) << 27)
}

fn size(x: f64) -> f64
    requires { T (not (is_nan x)) }
    ensures { result ≡ sized x }
{
    f64::from_bits(f64::to_bits(x) & 0x7fff_ffff_ffff_ffff)
}

// Whether neither is a NaN, which has no defined pattern.
fn ordered(x: f64, y: f64) -> bool
    ensures { result ≡ ordered_of x y }
{
    if x <= y { true } else { y < x }
}

fn inside(mu: f64) -> bool
    ensures { result ≡ inside_of mu }
{
    if mu <= 1.0 { 0.0 <= mu } else { false }
}

fn none() -> f64
    ensures { result ≡ nan }
{
    0.0 / 0.0
}

// v * mu + c rounded once, or a NaN. In it p and s are the upper parts of the product and of the sum. What s lost of p
// + c is computed exactly (a two-sum), the rest of the product nearly; a 2^70th of the terms is more than all errors
// together.
pub fn near_fused(v: f64, mu: f64, c: f64) -> f64
    ensures value { result ≡ near_of v mu c }
    ensures sure { Sure v mu c result }
{
    if inside(mu) {
        if ordered(v, c) {
            let mh = high(mu);
            let ml = mu - mh;
            let vh = high(v);
            let vl = v - vh;
            let p = vh * mh;
            let rest = vh * ml + vl * mu;
            let s = p + c;
            let z = s - p;
            let u = (p - (s - z)) + (c - z) + rest;
            let e = (size(v) + size(c)) * 8.470329472543003e-22 + 1.0261342003245941e-289;
            let r = s + (u + e);
            if r <= s + (u - e) {
                return r;
            }
            return none();
        }
        return none();
    }
    none()
}
