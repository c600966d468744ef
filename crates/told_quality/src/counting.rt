// The absent taps of one call, from the state before it, the count after it, and what it asked for.
ghost use Rattle.std.specs.Prelude.{◌≡◌};
ghost use Rattle.returning_fade.specs.Step.{step_of};
ghost use Rattle.bank_choice.specs.Inner.{choice_of};
ghost use Rattle.quality_variable_delay.specs.State.{fade_part};
ghost use Rattle.told_quality.specs.Inner.{counted_of};

use absent_taps::Absent;
use quality_fade::{Fade, Turn};
use quality_mode::QualityMode;
use quality_variable_delay::QualityVariableDelayF32;
use returning_fade::RuledFade;

// The turn that an accepted call takes, by the reader's rule.
fn turn(state: QualityVariableDelayF32, quality: QualityMode) -> Turn
    ensures { result ≡ (step_of (fade_part state) quality).turn }
{
    let current = state.current_quality;
    let target = state.target_quality;
    let rule = state.rule;
    let direction = state.direction;
    let fading = RuledFade {
        rule: rule,
        direction: direction,
        fade: Fade {
            current: current,
            target: target,
            crossfade_position: state.crossfade_position,
            crossfade_samples: state.crossfade_samples,
        },
    };
    let t = returning_fade::step(fading, quality);
    t.turn
}

// The absent taps of a call that found `state` and left the count `after`, in a ring of `len`. A call that leaves the
// count as it was is refused, and has three zeros.
pub fn of_call(
    state: QualityVariableDelayF32,
    len: usize,
    after: u64,
    max_rate: f64,
    delay: f64,
    quality: QualityMode,
    playback_rate: f64,
) -> Absent
    ensures { result ≡ counted_of len state.accepted after delay (choice_of max_rate playback_rate)
        (step_of (fade_part state) quality).turn }
{
    let before = state.accepted;
    if before == after {
        return absent_taps::nothing();
    }
    let position = std::num::nearest_u64_to_f64(before) - delay;
    absent_qualities::of_turn(
        bank_choice::choice_or_zero(max_rate, playback_rate),
        turn(state, quality),
        len,
        after,
        position,
    )
}
