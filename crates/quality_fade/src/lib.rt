// The change of quality, without samples: which qualities an accepted call reads, and what it leaves of the current and
// target quality, the crossfade's position and its length (Q1 to Q3).
#![tactic(auto)]

mod ported; // 000's rule

ghost use Rattle.std.specs.Prelude.{◌≡◌};
ghost use Rattle.quality_fade.specs.Fade.{length_ok, place_ok, open_of, reset_of};
ghost use Rattle.quality_fade.specs.Step.{step_of};

use quality_mode::QualityMode;

#[derive(Clone, Copy)]
pub struct Fade {
    pub current: QualityMode,
    pub target: QualityMode,
    pub crossfade_position: u32,
    pub crossfade_samples: u32,
}

// What an accepted call does: the state it leaves, whether it mixes, the two qualities it reads (the same one twice if
// it does not mix), and the weight of the second, in parts of crossfade_samples.
#[derive(Clone, Copy)]
pub struct Turn {
    pub state: Fade,
    pub mixed: bool,
    pub from: QualityMode,
    pub to: QualityMode,
    pub weight: u32,
}

// G2. The length is at most 2^24, so that a weight and the length are both exact as f32 values.
pub fn length_ok(crossfade_samples: u32) -> bool
    ensures { result ≡ length_ok crossfade_samples }
{
    crossfade_samples <= 16777216
}

// The position is at most the length, and below it while a fade runs (G2).
pub fn place_ok(state: Fade) -> bool
    ensures { result ≡ place_ok state }
{
    let current = state.current;
    let target = state.target;
    if quality_mode::same(current, target) {
        state.crossfade_position <= state.crossfade_samples
    } else {
        state.crossfade_position < state.crossfade_samples
    }
}

// One accepted call that requests a quality. A state out of range is left as it is, because its position plus 1 might
// overflow.
pub fn step(state: Fade, asked: QualityMode) -> Turn
    ensures { result ≡ step_of state asked }
{
    if length_ok(state.crossfade_samples) {
        if place_ok(state) {
            return ported::turn(ported::ask(state, asked));
        }
    }
    let target = state.target;
    Turn {
        state: state,
        mixed: false,
        from: target,
        to: target,
        weight: 0,
    }
}

// Q3. After opening, the one quality is current and target, and nothing is left to fade.
pub fn open(quality: QualityMode, crossfade_samples: u32) -> Fade
    ensures { result ≡ open_of quality crossfade_samples }
{
    Fade {
        current: quality,
        target: quality,
        crossfade_position: crossfade_samples,
        crossfade_samples: crossfade_samples,
    }
}

// A reset makes the target current and leaves nothing to fade (Q3).
pub fn reset(state: Fade) -> Fade
    ensures { result ≡ reset_of state }
{
    let target = state.target;
    open(target, state.crossfade_samples)
}
