// An accepted call: what it stores, reads and leaves.
ghost use Rattle.std.specs.Prelude.{◌≡◌, ◌+◌, ◌^◌, ◌<◌, length};
ghost use Rattle.variable_delay.specs.Reader.{stored, position_of};
ghost use Rattle.bank_read.specs.Bank.{bank_at};
ghost use Rattle.returning_fade.specs.Rules.{ruled};
ghost use Rattle.quality_variable_delay.specs.State.{joined};
ghost use Rattle.quality_variable_delay.specs.Reader.{processed_by};
ghost use Rattle.quality_variable_delay.specs.Bank.{due_of};

use super::state::fading;
use super::{ProcessedQ, QualityVariableDelayF32, turns};
use quality_fade::Fade;
use quality_mode::QualityMode;
use returning_fade::Direction;

// F1. The state is made anew, with one sample more and the qualities that the turn leaves.
pub(crate) fn after(
    state: QualityVariableDelayF32,
    direction: Direction,
    fade: Fade,
) -> QualityVariableDelayF32
    requires { state.accepted < 2 ^ 36 }
    ensures { result ≡
        joined (record { maximum = state.maximum; margin = state.margin; accepted = state.accepted + 1 })
        (ruled state.rule direction fade) }
{
    let current = fade.current;
    let target = fade.target;
    let rule = state.rule;
    QualityVariableDelayF32 {
        maximum: state.maximum,
        margin: state.margin,
        accepted: state.accepted + 1,
        current_quality: current,
        target_quality: target,
        crossfade_position: fade.crossfade_position,
        crossfade_samples: fade.crossfade_samples,
        rule: rule,
        direction: direction,
    }
}

// K1. Stores sample i at its place, and gives the position to be read.
pub(crate) fn store(i: u64, ring: &mut [f32], input: f32, delay: f64) -> f64
    requires { (i < 2 ^ 36) × (0 < length ring.old) }
    ensures value { result ≡ position_of i delay }
    ensures ring_after { ring.new ≡ stored i ring.old input }
{
    let at = ring::place(i, ring.len());
    ring[at] = input;
    (i as i64) as f64 - delay
}

// A call that nothing refuses: it stores the sample and then reads.
pub(crate) fn accepted<'a>(
    state: QualityVariableDelayF32,
    ring: &mut [f32],
    sets: &'a [f32],
    max_rate: f64,
    input: f32,
    delay: f64,
    quality: QualityMode,
    playback_rate: f64,
) -> ProcessedQ
    requires { due_of (length sets.now) max_rate state (length ring.old) input delay playback_rate ≡ 0 }
    ensures value { result ≡ processed_by (bank_at sets.now max_rate playback_rate) 0 state
        ring.old input delay quality }
    ensures ring_after { ring.new ≡ stored state.accepted ring.old input }
{
    let i = state.accepted;
    let position = store(i, &mut ring[..], input, delay);
    let ruled = returning_fade::step(fading(state), quality);
    let turn = ruled.turn;
    let direction = ruled.direction;
    let left = turn.state;
    let y = turns::output(
        turn,
        sets,
        max_rate,
        playback_rate,
        &ring[..],
        i + 1,
        position,
    );
    ProcessedQ {
        state: after(state, direction, left),
        answer: answer::answered_f32(0, y),
    }
}
