// The engine's state (001) as 15 words in the order of its fields, a float as its bit pattern.
// In this form another language, or a line of text, can hold it. `engine_calls` has the engine's calls on such words.
#![tactic(auto)]

ghost use Rattle.std.specs.Prelude.{◌≡◌};
ghost use Rattle.packed_engine.specs.Words.{random_of, engine_of, words_of, words_left, params_of};

use bit_patterns::{bits_of, float_of};
use modulation_engine::ModulationEngine;
use modulation_params::ModulationParams;
use smooth_random::SmoothRandom;

fn random_of(
    seed: u64,
    state: u64,
    current: u64,
    next: u64,
    position: u64,
    pace: u64,
) -> SmoothRandom
    ensures { result ≡ random_of seed state current next position pace }
{
    SmoothRandom {
        initial_seed: seed,
        state,
        current: float_of(current),
        next: float_of(next),
        position: float_of(position),
        segment_rate_scale: float_of(pace),
    }
}

pub fn engine_of(w: [u64; 15]) -> ModulationEngine
    ensures { result ≡ engine_of w }
{
    let wow = random_of(w[3], w[4], w[5], w[6], w[7], w[8]);
    let flutter = random_of(w[9], w[10], w[11], w[12], w[13], w[14]);
    ModulationEngine {
        sample_rate: float_of(w[0]),
        wow_phase: float_of(w[1]),
        flutter_phase: float_of(w[2]),
        wow_drift: wow,
        flutter_drift: flutter,
    }
}

pub fn words_of(e: ModulationEngine) -> [u64; 15]
    ensures { result ≡ words_of e }
{
    let wow = e.wow_drift;
    let flutter = e.flutter_drift;
    [
        bits_of(e.sample_rate),
        bits_of(e.wow_phase),
        bits_of(e.flutter_phase),
        wow.initial_seed,
        wow.state,
        bits_of(wow.current),
        bits_of(wow.next),
        bits_of(wow.position),
        bits_of(wow.segment_rate_scale),
        flutter.initial_seed,
        flutter.state,
        bits_of(flutter.current),
        bits_of(flutter.next),
        bits_of(flutter.position),
        bits_of(flutter.segment_rate_scale),
    ]
}

// D1c. The words that a call leaves, for each refusal number, 0 for none.
pub fn words_left(number: u8, after: ModulationEngine, words: [u64; 15]) -> [u64; 15]
    ensures { result ≡ words_left number after words }
{
    if number == 0 { words_of(after) } else { words }
}

// F9. The settings from eight floats, in 001's order.
pub fn settings_of(
    wow_rate_hz: f64,
    wow_depth_cents: f64,
    wow_shape: f64,
    flutter_rate_hz: f64,
    flutter_depth_cents: f64,
    flutter_shape: f64,
    drift_amount: f64,
    stereo_amount: f64,
) -> ModulationParams
    ensures { result ≡ params_of wow_rate_hz wow_depth_cents wow_shape flutter_rate_hz flutter_depth_cents
        flutter_shape drift_amount stereo_amount }
{
    ModulationParams {
        wow_rate_hz,
        wow_depth_cents,
        wow_shape,
        flutter_rate_hz,
        flutter_depth_cents,
        flutter_shape,
        drift_amount,
        stereo_amount,
    }
}
