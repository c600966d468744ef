// The original's rule for a change of quality (000, 'Changing quality' in 01): the requested quality becomes the
// target, and a fade to it starts again from the current one.
ghost use Rattle.std.specs.Prelude.{◌≡◌, false, ◌<◌};
ghost use Rattle.quality_fade.specs.Fade.{fade_of};
ghost use Rattle.quality_fade.specs.Step.{asked_of, plain_of, turn_of};

use super::{Fade, Turn};
use quality_mode::QualityMode;

// The state after a quality was requested.
pub fn ask(state: Fade, asked: QualityMode) -> Fade
    ensures { result ≡ asked_of state asked }
{
    let current = state.current;
    let target = state.target;
    if quality_mode::same(asked, target) {
        return state;
    }
    left(current, asked, 0, state.crossfade_samples)
}

// Whether the call reads one quality only.
fn plain(state: Fade) -> bool
    ensures { result ≡ plain_of state }
{
    let current = state.current;
    let target = state.target;
    if quality_mode::same(current, target) {
        true
    } else {
        state.crossfade_samples == 0
    }
}

fn left(
    current: QualityMode,
    target: QualityMode,
    crossfade_position: u32,
    crossfade_samples: u32,
) -> Fade
    ensures { result ≡ fade_of current target crossfade_position crossfade_samples }
{
    Fade {
        current: current,
        target: target,
        crossfade_position: crossfade_position,
        crossfade_samples: crossfade_samples,
    }
}

// The call itself, on the state that `ask` gives for its quality.
pub(crate) fn turn(state: Fade) -> Turn
    requires { plain_of state ≡ false → state.crossfade_position < state.crossfade_samples }
    ensures { result ≡ turn_of state }
{
    let current = state.current;
    let target = state.target;
    if plain(state) {
        return Turn {
            state: left(
                target,
                target,
                state.crossfade_position,
                state.crossfade_samples,
            ),
            mixed: false,
            from: target,
            to: target,
            weight: 0,
        };
    }
    let weight = state.crossfade_position + 1;
    // Q1. The last mixed call makes the target current.
    let next = if state.crossfade_samples <= weight {
        target
    } else {
        current
    };
    Turn {
        state: left(next, target, weight, state.crossfade_samples),
        mixed: true,
        from: current,
        to: target,
        weight: weight,
    }
}
