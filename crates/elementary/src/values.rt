// E1, E2, E4. The three functions, for arguments in range.
ghost use Rattle.std.specs.Prelude.{◌≡◌, T};
ghost use Rattle.polynomials.specs.Range.{at_most};
ghost use Rattle.elementary.specs.Reduction.{pick};
ghost use Rattle.elementary.specs.Answers.{sine_at, cosine_at, power_at};
ghost use Rattle.elementary.specs.Close.{SineClose, CosineClose, PowerClose};

use crate::inside;
use crate::quarters::turn;
use polynomials::{cosine_near, power_near, sine_near};

// The sine of r plus q quarter turns.
fn choose(q: u64, r: f64) -> f64
    ensures { result ≡ pick q r }
{
    if q == 0 {
        return sine_near(r);
    }
    if q == 1 {
        return cosine_near(r);
    }
    if q == 2 {
        -sine_near(r)
    } else {
        -cosine_near(r)
    }
}

pub(crate) fn sine_at(x: f64) -> f64
    requires { T (at_most 256 x) }
    ensures { (result ≡ sine_at x) × SineClose x result }
{
    if inside(x, 1.0) {
        return sine_near(x);
    }
    let t = turn(x);
    choose(t.quarter, t.rest)
}

pub(crate) fn cosine_at(x: f64) -> f64
    requires { T (at_most 256 x) }
    ensures { (result ≡ cosine_at x) × CosineClose x result }
{
    if inside(x, 1.0) {
        return cosine_near(x);
    }
    let t = turn(x);
    choose((t.quarter + 1) % 4, t.rest)
}

pub(crate) fn power_at(x: f64) -> f64
    requires { T (at_most 1 x) }
    ensures { (result ≡ power_at x) × PowerClose x result }
{
    if x > 0.5 {
        return 2.0 * power_near(x - 1.0);
    }
    if x < -0.5 {
        0.5 * power_near(x + 1.0)
    } else {
        power_near(x)
    }
}
