// The refusal of a call, once it is known which tests its bank passes.
ghost use Rattle.std.specs.Prelude.{◌≡◌, ◌&&◌};
ghost use Rattle.quality_variable_delay.specs.Reader.{verdict};

use super::QualityVariableDelayF32;
use super::state::fading;
use constants::{LIMIT, LIMIT_F64};
use refusal_order::both;

// The number of the refusal in 01's order, 0 for none. `bank` says that the bank's rate is in range, `lent` that its
// sets have their length.
pub fn refusal(
    state: QualityVariableDelayF32,
    bank: bool,
    lent: bool,
    len: usize,
    input: f32,
    delay: f64,
    playback_rate: f64,
) -> u8
    ensures { result ≡ verdict bank lent state len input delay playback_rate }
{
    let n = state.accepted;
    let needed = ring::length_for(state.maximum, state.margin);
    let t1 = both(
        needed != 0,
        both(quality_fade::length_ok(state.crossfade_samples), bank),
    );
    let t2 = both(len == needed, lent);
    let t3 = both(n <= LIMIT, returning_fade::place_ok(fading(state)));
    let t4 = magnitude::is_finite_f32(input);
    let t5 = both(magnitude::is_finite(delay), delay >= 0.0);
    let t6 = delay <= LIMIT_F64;
    let t7 = bank_choice::is_number(playback_rate);
    let t8 = n < LIMIT;
    answer::first(t1, t2, t3, t4, t5, t6, t7, t8)
}
