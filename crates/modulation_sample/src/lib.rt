// The parts of one step of the engine: the offsets that it renders and the phases that it advances (001, M5).
// Settings and state have been tested before, in `modulation`.
#![tactic(auto)]

ghost use Rattle.std.specs.Prelude.{◌≡◌, ◌&&◌, ◌==◌};
ghost use Rattle.std.specs.Float.Ieee as Ieee;
ghost use Rattle.std.specs.Float.{binary64};
ghost use Rattle.modulation_sample.specs.Sample.{default_offset, multiplier_of, offset_of, stepped_by};

use bit_patterns::bits_of;
use modulation_engine::ModulationEngine;
use modulation_params::ModulationParams;
use smooth_random::Next as Drift;

#[derive(Clone, Copy)]
pub struct StereoDelayOffset {
    pub left: f64,
    pub right: f64,
}

// The delay offsets of a sample, or the number of a refusal.
#[derive(Clone, Copy)]
pub enum Offset {
    Delay(StereoDelayOffset),
    Refused(u8),
}

// The engine after the step, and the offsets before it.
#[derive(Clone, Copy)]
pub struct Next {
    pub engine: ModulationEngine,
    pub offset: Offset,
}

// 001's StereoDelayOffset::default.
pub fn default_offset() -> StereoDelayOffset
    ensures { result ≡ default_offset }
{
    StereoDelayOffset {
        left: 0.0,
        right: 0.0,
    }
}

// At full drift an oscillator's rate may wander by half an octave.
fn multiplier(drift_amount: f64, value: f64) -> f64
    ensures { result ≡ multiplier_of drift_amount value }
{
    let drift = min_max::clamp(drift_amount, 0.0, 1.0);
    oscillator_arithmetic::power_of_two(0.5 * drift * value)
}

// Whether two floats are the same bit pattern. The comparison as numbers comes first because it settles most cases.
fn same(a: f64, b: f64) -> bool
    ensures { result ≡ (Ieee.eq a b && Ieee.to_bits binary64 a == Ieee.to_bits binary64 b) }
{
    if a == b {
        bits_of(a) == bits_of(b)
    } else {
        false
    }
}

// Whether both pairs have the same bit patterns.
fn pairs(a: f64, b: f64, c: f64, d: f64) -> bool
    ensures { result ≡ ((Ieee.eq a b && Ieee.to_bits binary64 a == Ieee.to_bits binary64 b)
        && (Ieee.eq c d && Ieee.to_bits binary64 c == Ieee.to_bits binary64 d)) }
{
    if same(a, b) { same(c, d) } else { false }
}

// The original (001) calls oscillator_delay for each side. The factors of the shapes are the same on both sides, and so
// is everything else if the stereo amount is 0; then it is rendered once.
pub fn render(engine: ModulationEngine, params: ModulationParams) -> StereoDelayOffset
    ensures { result ≡ offset_of engine params }
{
    let side = min_max::clamp(params.stereo_amount, 0.0, 1.0) * 1.5707963267948966;
    let wow = oscillator_arithmetic::amplitude(
        params.wow_rate_hz,
        params.wow_depth_cents,
        engine.sample_rate,
    );
    let flutter = oscillator_arithmetic::amplitude(
        params.flutter_rate_hz,
        params.flutter_depth_cents,
        engine.sample_rate,
    );
    let wow_left = engine.wow_phase + (-side);
    let wow_right = engine.wow_phase + side;
    let flutter_left = engine.flutter_phase + (-side);
    let flutter_right = engine.flutter_phase + side;
    let left = wow * oscillator_arithmetic::shape_primitive(wow_left, params.wow_shape)
        + flutter * oscillator_arithmetic::shape_primitive(flutter_left, params.flutter_shape);
    if pairs(wow_left, wow_right, flutter_left, flutter_right) {
        return StereoDelayOffset { left, right: left };
    }
    let right = wow * oscillator_arithmetic::shape_primitive(wow_right, params.wow_shape)
        + flutter * oscillator_arithmetic::shape_primitive(flutter_right, params.flutter_shape);
    StereoDelayOffset { left, right }
}

// Advances each phase by its rate and its drift, and keeps the generators as the draws left them.
pub fn stepped(
    mut engine: ModulationEngine,
    params: ModulationParams,
    wow: Drift,
    flutter: Drift,
) -> ModulationEngine
    ensures { result ≡ stepped_by wow flutter engine params }
{
    let wow_rate = params.wow_rate_hz * multiplier(params.drift_amount, wow.value);
    let flutter_rate = params.flutter_rate_hz * multiplier(params.drift_amount, flutter.value);
    let wow_random = wow.random;
    let flutter_random = flutter.random;
    engine.wow_phase = oscillator_arithmetic::advance_phase(
        engine.wow_phase,
        wow_rate,
        engine.sample_rate,
    );
    engine.flutter_phase = oscillator_arithmetic::advance_phase(
        engine.flutter_phase,
        flutter_rate,
        engine.sample_rate,
    );
    engine.wow_drift = wow_random;
    engine.flutter_drift = flutter_random;
    engine
}
