// The tests of a call whose caller has tested its sets (W4).
ghost use Rattle.std.specs.Prelude.{◌≡◌, true, false, not, pos, is_nan};
ghost use Rattle.std.specs.Float.{fin};
ghost use Rattle.std.specs.Float.Ieee.{le};
ghost use Rattle.std.specs.Float.Ieee.Scale.{finite};
ghost use Rattle.quality_variable_delay.specs.Reader.{verdict};

use super::QualityVariableDelayF32;
use super::calls::again;
use super::refusing::refusal;
use super::state::fading;
use constants::{LIMIT, LIMIT_F64};

// Whether the call's three floats are in range. A delay between two finite numbers is finite.
fn in_range(input: f32, delay: f64, playback_rate: f64) -> bool
    ensures { result ≡ true
        → (le (fin false 0 (pos 0)) delay ≡ true) × (le delay (fin false 1 (pos 36)) ≡ true)
        × (finite input ≡ true) × (not (is_nan playback_rate) ≡ true) }
{
    if delay >= 0.0 {
        if delay <= LIMIT_F64 {
            if magnitude::is_finite_f32(input) {
                return bank_choice::is_number(playback_rate);
            }
        }
    }
    false
}

// The fast path's test: true only if nothing is refused. An empty ring never has the length that settings need.
fn clear(
    state: QualityVariableDelayF32,
    bank: bool,
    lent: bool,
    len: usize,
    input: f32,
    delay: f64,
    playback_rate: f64,
) -> bool
    ensures { result ≡ true → verdict bank lent state len input delay playback_rate ≡ 0 }
{
    if bank {
        if lent {
            if state.accepted < LIMIT {
                if quality_fade::length_ok(state.crossfade_samples) {
                    if returning_fade::place_ok(fading(state)) {
                        if in_range(input, delay, playback_rate) {
                            if len != 0 {
                                return len == ring::length_for(state.maximum, state.margin);
                            }
                        }
                    }
                }
            }
        }
    }
    false
}

// `refusal` with a fast path: most calls are accepted.
pub(crate) fn number(
    state: QualityVariableDelayF32,
    bank: bool,
    lent: bool,
    len: usize,
    input: f32,
    delay: f64,
    playback_rate: f64,
) -> u8
    ensures { result ≡ verdict bank lent state len input delay playback_rate }
{
    if clear(state, bank, lent, len, input, delay, playback_rate) {
        return 0;
    }
    refusal(again(state), bank, lent, len, input, delay, playback_rate)
}
