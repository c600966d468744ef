// The fast path: true only if nothing is refused. It returns at the first failing test, and `due` then finds the
// number.
ghost use Rattle.std.specs.Prelude.{◌≡◌, ◌*◌, true, ◌==◌};
ghost use Rattle.ring.specs.Length.{settings_ok, length_for};
ghost use Rattle.bank_choice.specs.Rates.{bank_ok, steps_of};
ghost use Rattle.sinc_bank_f32.specs.Sets.{set_length};
ghost use Rattle.quality_variable_delay.specs.Bank.{due_of};

use super::QualityVariableDelayF32;
use super::state::fading;
use constants::{LIMIT, LIMIT_F64};

// Whether a ring of `len` and a bank of `lent` f32 values have the lengths that their settings need. An empty one never
// has.
fn filled(maximum: usize, margin: usize, len: usize, max_rate: f64, lent: usize) -> bool
    ensures { result ≡ true
        → (settings_ok maximum margin ≡ true) × ((len == length_for maximum margin) ≡ true)
        × (bank_ok max_rate ≡ true) × ((lent == steps_of max_rate * set_length) ≡ true) }
{
    if len != 0 {
        if lent != 0 {
            if len == ring::length_for(maximum, margin) {
                return lent == sinc_bank_f32::bank_length(max_rate);
            }
        }
    }
    false
}

// Whether nothing is refused. A delay between two finite numbers is finite, so that needs no test of its own.
pub(crate) fn served(
    state: QualityVariableDelayF32,
    lent: usize,
    max_rate: f64,
    len: usize,
    input: f32,
    delay: f64,
    playback_rate: f64,
) -> bool
    ensures { result ≡ true → due_of lent max_rate state len input delay playback_rate ≡ 0 }
{
    if state.accepted < LIMIT {
        if quality_fade::length_ok(state.crossfade_samples) {
            if returning_fade::place_ok(fading(state)) {
                if delay >= 0.0 {
                    if delay <= LIMIT_F64 {
                        if magnitude::is_finite_f32(input) {
                            if bank_choice::is_number(playback_rate) {
                                return filled(state.maximum, state.margin, len, max_rate, lent);
                            }
                        }
                    }
                }
            }
        }
    }
    false
}
