// The original's ModulationParams (001): the eight settings as one record, their defaults and their ranges (G7, F9).
#![tactic(auto)]

ghost use Rattle.std.specs.Prelude.{◌≡◌, ◌&&◌};
ghost use Rattle.modulation_params.specs.Settings.{params_ok, default_params};

use oscillator_ranges as ranges;
use refusal_order::both;

#[derive(Clone, Copy)]
pub struct ModulationParams {
    pub wow_rate_hz: f64,
    pub wow_depth_cents: f64,
    // -1 is the rounded square, 0 the sine, +1 the triangle.
    pub wow_shape: f64,
    pub flutter_rate_hz: f64,
    pub flutter_depth_cents: f64,
    // -1 is the rounded square, 0 the sine, +1 the triangle.
    pub flutter_shape: f64,
    // How much both oscillators' rates wander at random, from 0 to 1.
    pub drift_amount: f64,
    // How far the phases of left and right stand apart: from 0 to 1 for 0 to 180 degrees.
    pub stereo_amount: f64,
}

// 001's ModulationParams::default.
pub fn default_params() -> ModulationParams
    ensures { result ≡ default_params }
{
    ModulationParams {
        wow_rate_hz: 0.55,
        wow_depth_cents: 8.0,
        wow_shape: 0.0,
        flutter_rate_hz: 12.0,
        flutter_depth_cents: 0.0,
        flutter_shape: 0.0,
        drift_amount: 0.0,
        stereo_amount: 0.0,
    }
}

impl ModulationParams {
    // G7. All eight are finite, and the rates and depths are in their ranges.
    pub fn in_range(self) -> bool
        ensures { result ≡ params_ok self }
    {
        let wow = both(
            ranges::rate_ok(self.wow_rate_hz),
            ranges::depth_ok(self.wow_depth_cents),
        );
        let flutter = both(
            ranges::rate_ok(self.flutter_rate_hz),
            ranges::depth_ok(self.flutter_depth_cents),
        );
        let shapes = both(
            magnitude::is_finite(self.wow_shape),
            magnitude::is_finite(self.flutter_shape),
        );
        let amounts = both(
            magnitude::is_finite(self.drift_amount),
            magnitude::is_finite(self.stereo_amount),
        );
        both(both(wow, flutter), both(shapes, amounts))
    }
}
