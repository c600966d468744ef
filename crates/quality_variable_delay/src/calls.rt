// One call of a quality reader over a bank of lent sets.
ghost use Rattle.std.specs.Prelude.{◌≡◌};
ghost use Rattle.quality_variable_delay.specs.Bank.{due_of, processed, ring_left};

use super::refusing::refusal;
use super::{ProcessedQ, QualityVariableDelayF32, served, storing};
use quality_mode::QualityMode;

// The number of the refusal, 0 for none, with a bank of `lent` f32 values.
pub fn due(
    state: QualityVariableDelayF32,
    lent: usize,
    max_rate: f64,
    len: usize,
    input: f32,
    delay: f64,
    playback_rate: f64,
) -> u8
    ensures { result ≡ due_of lent max_rate state len input delay playback_rate }
{
    let needed = sinc_bank_f32::bank_length(max_rate);
    refusal(
        state,
        needed != 0,
        lent == needed,
        len,
        input,
        delay,
        playback_rate,
    )
}

// The same state, made anew. `due` takes a state in memory, and a call on the fast path need not put it there.
pub(crate) fn again(state: QualityVariableDelayF32) -> QualityVariableDelayF32
    ensures { result ≡ state }
{
    let current = state.current_quality;
    let target = state.target_quality;
    let rule = state.rule;
    let direction = state.direction;
    QualityVariableDelayF32 {
        maximum: state.maximum,
        margin: state.margin,
        accepted: state.accepted,
        current_quality: current,
        target_quality: target,
        crossfade_position: state.crossfade_position,
        crossfade_samples: state.crossfade_samples,
        rule: rule,
        direction: direction,
    }
}

// `due` with a fast path: most calls are accepted, and fewer tests than the order of refusals has can show it.
fn tested(
    state: QualityVariableDelayF32,
    lent: usize,
    max_rate: f64,
    len: usize,
    input: f32,
    delay: f64,
    playback_rate: f64,
) -> u8
    ensures { result ≡ due_of lent max_rate state len input delay playback_rate }
{
    if served::served(state, lent, max_rate, len, input, delay, playback_rate) {
        return 0;
    }
    due(
        again(state),
        lent,
        max_rate,
        len,
        input,
        delay,
        playback_rate,
    )
}

// The original's process_sample_rate_aware (000): it refuses by number, or stores the sample and then reads. A refused
// call forgets the quality that it requested.
pub fn process_sample_rate_aware<'a>(
    state: QualityVariableDelayF32,
    ring: &mut [f32],
    sets: &'a [f32],
    max_rate: f64,
    input: f32,
    delay: f64,
    quality: QualityMode,
    playback_rate: f64,
) -> ProcessedQ
    ensures value { result ≡
        processed sets.now max_rate state ring.old input delay quality playback_rate }
    ensures ring_after { ring.new ≡
        ring_left sets.now max_rate state ring.old input delay playback_rate }
{
    let no = tested(
        state,
        sets.len(),
        max_rate,
        ring.len(),
        input,
        delay,
        playback_rate,
    );
    if no != 0 {
        return ProcessedQ {
            state: state,
            answer: answer::answered_f32(no, 0.0),
        };
    }
    storing::accepted(
        state,
        &mut ring[..],
        sets,
        max_rate,
        input,
        delay,
        quality,
        playback_rate,
    )
}

// 000's process_sample, which reads at the bank's maximum rate.
pub fn process_sample<'a>(
    state: QualityVariableDelayF32,
    ring: &mut [f32],
    sets: &'a [f32],
    max_rate: f64,
    input: f32,
    delay: f64,
    quality: QualityMode,
) -> ProcessedQ
    ensures value { result ≡
        processed sets.now max_rate state ring.old input delay quality max_rate }
    ensures ring_after { ring.new ≡
        ring_left sets.now max_rate state ring.old input delay max_rate }
{
    process_sample_rate_aware(
        state,
        &mut ring[..],
        sets,
        max_rate,
        input,
        delay,
        quality,
        max_rate,
    )
}
