// The oscillators' functions on floats alone, with no refusal (001, M4, M5).
// An engine that has tested its settings once calls these at every sample.
#![tactic(auto)]

ghost use Rattle.std.specs.Prelude.{◌≡◌};
ghost use Rattle.oscillator_arithmetic.specs.Arithmetic.{cos, pow2, speed_delta, advance_phase, shape_primitive};
ghost use Rattle.oscillator_arithmetic.specs.Arithmetic.{amplitude_of};

use oscillator_ranges::TAU;

// f64::cos, and 0.0 if that is refused, which no phase from -51 to 51 is.
fn cosine(x: f64) -> f64
    ensures { result ≡ cos x }
{
    elementary::cosine_or_zero(x)
}

// 2.0_f64.powf, and 0.0 if that is refused, which no exponent from -1 to 1 is.
pub fn power_of_two(x: f64) -> f64
    ensures { result ≡ pow2 x }
{
    elementary::exp2_or_zero(x)
}

pub fn speed_delta(depth_cents: f64) -> f64
    ensures { result ≡ speed_delta depth_cents }
{
    power_of_two(depth_cents / 1200.0) - 1.0
}

pub fn advance_phase(phase: f64, rate_hz: f64, sample_rate: f64) -> f64
    ensures { result ≡ advance_phase phase rate_hz sample_rate }
{
    let step = TAU * min_max::max(rate_hz, 0.0) / sample_rate;
    remainder::rem_euclid(phase + step, TAU)
}

// The original (001) computes the cosine of the phase three times; here it is computed once.
pub fn shape_primitive(phase: f64, shape: f64) -> f64
    ensures { result ≡ shape_primitive phase shape }
{
    let sine = cosine(phase);
    let third = cosine(3.0 * phase);
    let s = min_max::clamp(shape, -1.0, 1.0);
    if s < 0.0 {
        let rounded_square = 1.125 * sine + (0.125 / 3.0) * third;
        return sine + (-s) * (rounded_square - sine);
    }
    let fifth = cosine(5.0 * phase);
    let triangle = (sine - third / 27.0 + fifth / 125.0) / (259.0 / 225.0);
    sine + s * (triangle - sine)
}

// The factor of the shape in oscillator_delay. It does not depend on the phase, so an engine computes it once for both
// sides.
pub fn amplitude(rate_hz: f64, depth_cents: f64, sample_rate: f64) -> f64
    ensures { result ≡ amplitude_of rate_hz depth_cents sample_rate }
{
    let delta = speed_delta(min_max::max(depth_cents, 0.0));
    delta * sample_rate / (TAU * min_max::max(rate_hz, 0.001))
}
