// One item of a stretch: a single call while a fade runs, and what is tested to see that none does.
ghost use Rattle.std.specs.Prelude.{◌≡◌};
ghost use Rattle.answer.specs.Answers.{number_f32_of, value_f32_of};
ghost use Rattle.quality_variable_delay.specs.State.{fade_part};
ghost use Rattle.quality_stretch.specs.Reader.{call_of};
ghost use Rattle.quality_stretch.specs.Inner.{at_rest};

use super::StretchedQ;
use answer::AnswerF32;
use quality_fade::Fade;
use quality_mode::{QualityMode, same};
use quality_variable_delay::QualityVariableDelayF32;
use refusal_order::both;
use returning_fade::RuledFade;

// The answer of a single call as plain numbers.
#[derive(Drop)]
pub(crate) struct Heard {
    pub state: QualityVariableDelayF32,
    pub number: u8,
    pub sample: f32,
}

pub(crate) fn fading(state: QualityVariableDelayF32) -> RuledFade
    ensures { result ≡ fade_part state }
{
    let current = state.current_quality;
    let target = state.target_quality;
    let rule = state.rule;
    let direction = state.direction;
    RuledFade {
        rule: rule,
        direction: direction,
        fade: Fade {
            current: current,
            target: target,
            crossfade_position: state.crossfade_position,
            crossfade_samples: state.crossfade_samples,
        },
    }
}

pub(crate) fn ended(state: QualityVariableDelayF32, done: usize, refusal: u8) -> StretchedQ
    ensures { result ≡ record { state = state; done = done; refusal = refusal } }
{
    StretchedQ {
        state: state,
        done: done,
        refusal: refusal,
    }
}

// Whether no fade runs and none starts with this quality, at a rate that is a number.
pub(crate) fn at_rest(state: QualityVariableDelayF32, quality: QualityMode, rate: f64) -> bool
    ensures { result ≡ at_rest state quality rate }
{
    let current = state.current_quality;
    let target = state.target_quality;
    both(
        both(same(current, quality), same(target, quality)),
        bank_choice::is_number(rate),
    )
}

fn number(a: AnswerF32) -> u8
    ensures { result ≡ number_f32_of a }
{
    match a {
        AnswerF32::Sample(_) => 0,
        AnswerF32::Refused(k) => k,
    }
}

fn value(a: AnswerF32) -> f32
    ensures { result ≡ value_f32_of a }
{
    match a {
        AnswerF32::Sample(v) => bit_patterns::one_nan_f32(v),
        AnswerF32::Refused(_) => 0.0,
    }
}

pub(crate) fn single<'a>(
    state: QualityVariableDelayF32,
    ring: &mut [f32],
    sets: &'a [f32],
    max_rate: f64,
    input: f32,
    delay: f64,
    quality: QualityMode,
    playback_rate: f64,
) -> Heard
    ensures state_value { result.state ≡ (call_of sets.now max_rate quality playback_rate state
        ring.old input delay).state }
    ensures number_value { result.number ≡ (call_of sets.now max_rate quality playback_rate state
        ring.old input delay).number }
    ensures sample_value { result.sample ≡ (call_of sets.now max_rate quality playback_rate state
        ring.old input delay).sample }
    ensures ring_after { ring.new ≡ (call_of sets.now max_rate quality playback_rate state
        ring.old input delay).ring }
{
    let p = quality_variable_delay::process_sample_rate_aware(
        state,
        ring,
        sets,
        max_rate,
        input,
        delay,
        quality,
        playback_rate,
    );
    let after = p.state;
    let answer = p.answer;
    Heard {
        state: after,
        number: number(answer),
        sample: value(answer),
    }
}
