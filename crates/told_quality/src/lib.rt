// The reader whose quality may change, with the number of a call's absent taps of each kind (W7c, W7g). It calls the
// reader as it is and counts beside it, so that a call that does not need the numbers pays nothing.
#![tactic(auto)]

mod counting; // the numbers of one call

ghost use Rattle.std.specs.Prelude.{◌≡◌};
ghost use Rattle.quality_variable_delay.specs.Bank.{ring_left};
ghost use Rattle.told_quality.specs.Told.{told_of};

use absent_taps::Absent;
use answer::AnswerF32;
pub use counting::of_call;
use quality_mode::QualityMode;
use quality_variable_delay::QualityVariableDelayF32;

// The reader's answer with the numbers of its absent taps.
#[derive(Drop)]
pub struct ToldQ {
    pub state: QualityVariableDelayF32,
    pub answer: AnswerF32,
    pub absent: Absent,
}

pub fn process_sample_rate_aware_told<'a>(
    state: QualityVariableDelayF32,
    ring: &mut [f32],
    sets: &'a [f32],
    max_rate: f64,
    input: f32,
    delay: f64,
    quality: QualityMode,
    playback_rate: f64,
) -> ToldQ
    ensures value { result ≡
        told_of sets.now max_rate state ring.old input delay quality playback_rate }
    ensures ring_after { ring.new ≡
        ring_left sets.now max_rate state ring.old input delay playback_rate }
{
    let len = ring.len();
    let p = quality_variable_delay::process_sample_rate_aware(
        state,
        &mut ring[..],
        sets,
        max_rate,
        input,
        delay,
        quality,
        playback_rate,
    );
    let after = p.state;
    let answer = p.answer;
    let absent = of_call(
        state,
        len,
        after.accepted,
        max_rate,
        delay,
        quality,
        playback_rate,
    );
    ToldQ {
        state: after,
        answer: answer,
        absent: absent,
    }
}

// The call without a rate, which reads at the bank's maximum rate, as the reader's own does.
pub fn process_sample_told<'a>(
    state: QualityVariableDelayF32,
    ring: &mut [f32],
    sets: &'a [f32],
    max_rate: f64,
    input: f32,
    delay: f64,
    quality: QualityMode,
) -> ToldQ
    ensures value { result ≡
        told_of sets.now max_rate state ring.old input delay quality max_rate }
    ensures ring_after { ring.new ≡
        ring_left sets.now max_rate state ring.old input delay max_rate }
{
    let playback_rate = max_rate;
    process_sample_rate_aware_told(
        state,
        &mut ring[..],
        sets,
        max_rate,
        input,
        delay,
        quality,
        playback_rate,
    )
}
