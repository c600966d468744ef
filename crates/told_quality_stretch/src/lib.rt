// A whole stretch of the quality reader with the sums of its absent taps of each kind (W3g). It calls the stretch as it
// is and counts beside it, so that a call that does not need the numbers pays nothing.
#![tactic(auto)]

ghost use Rattle.std.specs.Prelude.{◌≡◌};
ghost use Rattle.bank_choice.specs.Inner.{choice_of};
ghost use Rattle.quality_variable_delay.specs.State.{fade_part};
ghost use Rattle.fade_absent.specs.Sums.{sums_of};
ghost use Rattle.told_quality_stretch.specs.Told.{leaves, told_of};

use absent_taps::Absent;
use quality_fade::Fade;
use quality_mode::QualityMode;
use quality_variable_delay::QualityVariableDelayF32;
use returning_fade::RuledFade;

// A stretch's answer with the sums of its absent taps.
#[derive(Drop)]
pub struct ToldStretchedQ {
    pub state: QualityVariableDelayF32,
    pub done: usize,
    pub refusal: u8,
    pub absent: Absent,
}

// The sums over the first `done` items of a stretch that finds `state` and a ring of `len`.
pub fn absent_of(
    state: QualityVariableDelayF32,
    len: usize,
    max_rate: f64,
    delays: &[f64],
    done: usize,
    quality: QualityMode,
    playback_rate: f64,
) -> Absent
    ensures { result ≡ sums_of len state.accepted (fade_part state) (choice_of max_rate playback_rate) quality
        delays.now done }
{
    let current = state.current_quality;
    let target = state.target_quality;
    let rule = state.rule;
    let direction = state.direction;
    let fade = RuledFade {
        rule: rule,
        direction: direction,
        fade: Fade {
            current: current,
            target: target,
            crossfade_position: state.crossfade_position,
            crossfade_samples: state.crossfade_samples,
        },
    };
    let choice = bank_choice::choice_or_zero(max_rate, playback_rate);
    fade_absent::absent_in(len, state.accepted, fade, choice, quality, delays, done)
}

pub fn process_stretch_told<'a>(
    state: QualityVariableDelayF32,
    ring: &mut [f32],
    sets: &'a [f32],
    max_rate: f64,
    inputs: &'a [f32],
    delays: &'a [f64],
    quality: QualityMode,
    playback_rate: f64,
    out: &mut [f32],
) -> ToldStretchedQ
    ensures { leaves result ring.new out.new ≡ told_of sets.now max_rate quality
        playback_rate state ring.old inputs.now delays.now out.old }
{
    let len = ring.len();
    let a = quality_stretch::process_stretch(
        state,
        &mut ring[..],
        sets,
        max_rate,
        inputs,
        delays,
        quality,
        playback_rate,
        &mut out[..],
    );
    let after = a.state;
    let absent = absent_of(state, len, max_rate, delays, a.done, quality, playback_rate);
    ToldStretchedQ {
        state: after,
        done: a.done,
        refusal: a.refusal,
        absent: absent,
    }
}
