// The original's oscillator functions (001), each with its refusal.
// An argument outside its range (`oscillator_ranges`) is refused by 1; otherwise the answer is what
// `oscillator_arithmetic` computes.
#![tactic(auto)]

ghost use Rattle.std.specs.Prelude.{◌≡◌, ◌&&◌};
ghost use Rattle.oscillators.specs.Answers.{answered_by, speed_delta_of, advance_phase_of, shape_primitive_of};
ghost use Rattle.oscillators.specs.Answers.{oscillator_delay_of, excursion_of, rate_delta_of};

use oscillator_ranges as ranges;
use oscillator_ranges::TAU;
use refusal::Refusal;
use refusal_order::both;

// The greatest magnitude of a shape: the rounded square reaches it at phase zero.
pub const MAX_SHAPE_PRIMITIVE: f64 = 7.0 / 6.0;

// The value, or refusal 1 if an argument is out of range.
fn answered(ok: bool, value: f64) -> Result<f64, Refusal>
    ensures { result ≡ answered_by ok value }
{
    if ok { Ok(value) } else { Err(Refusal::Setting) }
}

// How much faster (or, below zero, slower) a depth in cents makes the playback.
pub fn speed_delta(depth_cents: f64) -> Result<f64, Refusal>
    ensures { result ≡ speed_delta_of depth_cents }
{
    answered(
        ranges::depth_ok(depth_cents),
        oscillator_arithmetic::speed_delta(depth_cents),
    )
}

pub fn advance_phase(phase: f64, rate_hz: f64, sample_rate: f64) -> Result<f64, Refusal>
    ensures { result ≡ advance_phase_of phase rate_hz sample_rate }
{
    let rates = both(
        ranges::rate_ok(rate_hz),
        ranges::sample_rate_ok(sample_rate),
    );
    answered(
        both(ranges::cycle_ok(phase), rates),
        oscillator_arithmetic::advance_phase(phase, rate_hz, sample_rate),
    )
}

// The original's antiderivatives of the speed waves: a rounded square at -1, a sine at 0, a triangle at 1, and blends
// between them.
pub fn shape_primitive(phase: f64, shape: f64) -> Result<f64, Refusal>
    ensures { result ≡ shape_primitive_of phase shape }
{
    answered(
        both(ranges::phase_ok(phase), magnitude::is_finite(shape)),
        oscillator_arithmetic::shape_primitive(phase, shape),
    )
}

pub fn oscillator_delay(
    phase: f64,
    rate_hz: f64,
    depth_cents: f64,
    shape: f64,
    sample_rate: f64,
) -> Result<f64, Refusal>
    ensures { result ≡ oscillator_delay_of phase rate_hz depth_cents shape sample_rate }
{
    let wave = both(ranges::phase_ok(phase), magnitude::is_finite(shape));
    let swing = both(ranges::rate_ok(rate_hz), ranges::depth_ok(depth_cents));
    let amplitude = oscillator_arithmetic::amplitude(rate_hz, depth_cents, sample_rate);
    answered(
        both(wave, both(swing, ranges::sample_rate_ok(sample_rate))),
        amplitude * oscillator_arithmetic::shape_primitive(phase, shape),
    )
}

// An upper bound, in samples, for how far one oscillator moves the delay, whatever its shape.
pub fn maximum_delay_excursion_samples(
    max_depth_cents: f64,
    min_rate_hz: f64,
    sample_rate: f64,
) -> Result<f64, Refusal>
    ensures { result ≡ excursion_of max_depth_cents min_rate_hz sample_rate }
{
    let rates = both(
        ranges::minimum_rate_ok(min_rate_hz),
        ranges::sample_rate_ok(sample_rate),
    );
    let delta = oscillator_arithmetic::speed_delta(max_depth_cents);
    answered(
        both(ranges::depth_ok(max_depth_cents), rates),
        delta * sample_rate * MAX_SHAPE_PRIMITIVE / (TAU * min_rate_hz),
    )
}

// M4. An upper bound for the speed-up that oscillators of these depths cause together at full drift, when they are
// blended at constant power.
pub fn maximum_rate_delta(depths_cents: &[f64]) -> Result<f64, Refusal>
    ensures { result ≡ rate_delta_of depths_cents.now }
{
    let mut sum: f64 = -0.0;
    for depth in depths_cents {
        if !ranges::depth_ok(*depth) {
            return Err(Refusal::Setting);
        }
        let delta = oscillator_arithmetic::speed_delta(*depth);
        sum = sum + delta * delta;
    }
    Ok(square_root::square_root(sum) * 1.4142135623730951)
}
