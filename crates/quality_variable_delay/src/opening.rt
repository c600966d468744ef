// Opening a quality reader over a lent ring, and resetting it.
ghost use Rattle.std.specs.Prelude.{◌≡◌, length};
ghost use Rattle.returning_fade.specs.declared.Rule.TheVariants.{Ported, Returning};
ghost use Rattle.quality_variable_delay.specs.Opening.{reset_verdict, renewed, fresh, reset_of, ring_reset};

use super::state::fading;
use super::{Opened, QualityVariableDelayF32};
use constants::LIMIT;
use quality_mode::QualityMode;
use refusal_order::both;
use returning_fade::{Direction, Rule};

fn open_by(
    rule: Rule,
    maximum: usize,
    margin: usize,
    quality: QualityMode,
    crossfade_samples: u32,
    ring: &mut [f32],
) -> Opened
    ensures value { result ≡
        reset_of (fresh rule maximum margin quality crossfade_samples) (length ring.old) }
    ensures ring_after { ring.new ≡
        ring_reset (fresh rule maximum margin quality crossfade_samples) ring.old }
{
    let state = QualityVariableDelayF32 {
        maximum: maximum,
        margin: margin,
        accepted: 0,
        current_quality: quality,
        target_quality: quality,
        crossfade_position: crossfade_samples,
        crossfade_samples: crossfade_samples,
        rule: rule,
        direction: Direction::Onwards,
    };
    reset(state, &mut ring[..])
}

// 000's QualityVariableDelayF32::new over a lent ring, by 000's own rule for a change of quality. It refuses by 1 or 2,
// or zeroes the ring.
pub fn open(
    maximum: usize,
    margin: usize,
    quality: QualityMode,
    crossfade_samples: u32,
    ring: &mut [f32],
) -> Opened
    ensures value { result ≡
        reset_of (fresh Ported maximum margin quality crossfade_samples) (length ring.old) }
    ensures ring_after { ring.new ≡
        ring_reset (fresh Ported maximum margin quality crossfade_samples) ring.old }
{
    open_by(
        Rule::Ported,
        maximum,
        margin,
        quality,
        crossfade_samples,
        &mut ring[..],
    )
}

// W9a. The same by the second rule.
pub fn open_returning(
    maximum: usize,
    margin: usize,
    quality: QualityMode,
    crossfade_samples: u32,
    ring: &mut [f32],
) -> Opened
    ensures value { result ≡
        reset_of (fresh Returning maximum margin quality crossfade_samples) (length ring.old) }
    ensures ring_after { ring.new ≡
        ring_reset (fresh Returning maximum margin quality crossfade_samples) ring.old }
{
    open_by(
        Rule::Returning,
        maximum,
        margin,
        quality,
        crossfade_samples,
        &mut ring[..],
    )
}

// The number of the refusal of a reset, 0 for none.
pub fn reset_refusal(state: QualityVariableDelayF32, len: usize) -> u8
    ensures { result ≡ reset_verdict state len }
{
    let needed = ring::length_for(state.maximum, state.margin);
    let t1 = both(
        needed != 0,
        quality_fade::length_ok(state.crossfade_samples),
    );
    let t2 = len == needed;
    let t3 = both(
        state.accepted <= LIMIT,
        returning_fade::place_ok(fading(state)),
    );
    answer::first(t1, t2, t3, true, true, true, true, true)
}

// Q3. The state has accepted nothing, and the target is current; the rule stays.
fn renew(state: QualityVariableDelayF32) -> QualityVariableDelayF32
    ensures { result ≡ renewed state }
{
    let ruled = fading(state);
    let rule = ruled.rule;
    let fade = quality_fade::reset(ruled.fade);
    let current = fade.current;
    let target = fade.target;
    QualityVariableDelayF32 {
        maximum: state.maximum,
        margin: state.margin,
        accepted: 0,
        current_quality: current,
        target_quality: target,
        crossfade_position: fade.crossfade_position,
        crossfade_samples: fade.crossfade_samples,
        rule: rule,
        direction: Direction::Onwards,
    }
}

// The original's QualityVariableDelayF32::reset (000): it refuses by 1, 2 or 3, or zeroes the ring and the count and
// ends any fade.
pub fn reset(state: QualityVariableDelayF32, ring: &mut [f32]) -> Opened
    ensures value { result ≡ reset_of state (length ring.old) }
    ensures ring_after { ring.new ≡ ring_reset state ring.old }
{
    let no = reset_refusal(state, ring.len());
    if no != 0 {
        return Opened::Refused(no);
    }
    ring::clear_f32(&mut ring[..]);
    let state = renew(state);
    Opened::Reader(state)
}
