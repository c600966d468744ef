// The fast path's test: true only if all qualities are Draft and nothing is refused. It returns at the first failing
// test, and `due` then finds the number.
ghost use Rattle.std.specs.Prelude.{◌≡◌, true, false, not, ◌*◌, ◌^◌, ◌<◌, ◌≤◌, eqb, pos};
ghost use Rattle.std.specs.Float.{fin};
ghost use Rattle.std.specs.Float.Ieee.{le, is_nan};
ghost use Rattle.std.specs.Float.Ieee.Scale.{finite};
ghost use Rattle.ring.specs.Length.{settings_ok, length_for};
ghost use Rattle.bank_choice.specs.Rates.{bank_ok, steps_of};
ghost use Rattle.sinc_bank_f32.specs.Sets.{set_length};
ghost use Rattle.quality_variable_delay.specs.Bank.{due_of};
ghost use Rattle.quality_codes.specs.Codes.{decoded, state_of};

use super::lent;
use constants::{LIMIT, LIMIT_F64};

// Whether all three qualities are Draft and the fade's numbers are in range. A state in which no fade runs never goes
// back (W9g).
fn draft(
    current: u8,
    target: u8,
    quality: u8,
    crossfade_position: u32,
    crossfade_samples: u32,
    rule: u8,
    direction: u8,
) -> bool
    ensures { result ≡ true
        → (current ≡ 0) × (target ≡ 0) × (quality ≡ 0) × (direction ≡ 0) × (rule ≤ 1)
        × (crossfade_samples ≤ 16777216) × (crossfade_position ≤ crossfade_samples) }
{
    if current == 0 {
        if target == 0 {
            if quality == 0 {
                if direction == 0 {
                    if rule <= 1 {
                        if crossfade_samples <= 16777216 {
                            return crossfade_position <= crossfade_samples;
                        }
                    }
                }
            }
        }
    }
    false
}

// Whether there is room and the call's three floats are in range. A delay between two finite numbers is finite, and
// only a NaN differs from itself.
fn in_range(accepted: u64, input: f32, delay: f64, playback_rate: f64) -> bool
    ensures { result ≡ true
        → (accepted < 2 ^ 36) × (le (fin false 0 (pos 0)) delay ≡ true) × (le delay (fin false 1 (pos 36)) ≡ true)
        × (finite input ≡ true) × (not (is_nan playback_rate) ≡ true) }
{
    if accepted < LIMIT {
        if delay >= 0.0 {
            if delay <= LIMIT_F64 {
                if magnitude::is_finite_f32(input) {
                    return playback_rate == playback_rate;
                }
            }
        }
    }
    false
}

// Whether a ring of `len` and a bank of `lent` f32 values have the lengths that their settings need. An empty one never
// has.
fn filled(maximum: usize, margin: usize, len: usize, max_rate: f64, lent: usize) -> bool
    ensures { result ≡ true
        → (settings_ok maximum margin ≡ true) × (eqb len (length_for maximum margin) ≡ true)
        × (bank_ok max_rate ≡ true) × (eqb lent (steps_of max_rate * set_length) ≡ true) }
{
    if len != 0 {
        if len == ring::length_for(maximum, margin) {
            return lent::fits(max_rate, lent);
        }
    }
    false
}

pub(crate) fn plain(
    maximum: usize,
    margin: usize,
    accepted: u64,
    current: u8,
    target: u8,
    crossfade_position: u32,
    crossfade_samples: u32,
    rule: u8,
    direction: u8,
    len: usize,
    lent: usize,
    max_rate: f64,
    input: f32,
    delay: f64,
    quality: u8,
    playback_rate: f64,
) -> bool
    ensures { result ≡ true
        → (current ≡ 0) × (target ≡ 0) × (quality ≡ 0) × (direction ≡ 0) × (rule ≤ 1)
        × (due_of lent max_rate
        (decoded (state_of maximum margin accepted current target crossfade_position crossfade_samples rule
        direction))
        len input delay playback_rate
        ≡ 0) }
{
    if draft(
        current,
        target,
        quality,
        crossfade_position,
        crossfade_samples,
        rule,
        direction,
    ) {
        if in_range(accepted, input, delay, playback_rate) {
            return filled(maximum, margin, len, max_rate, lent);
        }
    }
    false
}
