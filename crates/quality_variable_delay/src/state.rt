// What a quality reader's state holds of its qualities.
ghost use Rattle.std.specs.Prelude.{◌≡◌};
ghost use Rattle.quality_variable_delay.specs.State.{fade_part};

use super::QualityVariableDelayF32;
use quality_fade::Fade;
use returning_fade::RuledFade;

pub(crate) fn fading(state: QualityVariableDelayF32) -> RuledFade
    ensures { result ≡ fade_part state }
{
    let current = state.current_quality;
    let target = state.target_quality;
    let rule = state.rule;
    let direction = state.direction;
    RuledFade {
        rule: rule,
        direction: direction,
        fade: Fade {
            current: current,
            target: target,
            crossfade_position: state.crossfade_position,
            crossfade_samples: state.crossfade_samples,
        },
    }
}
