// `call` for C: it writes the new state and the sample (0.0 if refused) through pointers, and returns the number of the
// refusal, 0 for none.
ghost use Rattle.std.specs.Prelude.{◌≡◌};
ghost use Rattle.answer_parts.specs.Left.{leaves};
ghost use Rattle.quality_codes.specs.Codes.{state_of};
ghost use Rattle.quality_codes.specs.Left.{changed, left_by};

use super::Coded;
use super::calls::call;

pub fn call_through<'a>(
    maximum: usize,
    margin: usize,
    accepted: &mut u64,
    current: &mut u8,
    target: &mut u8,
    crossfade_position: &mut u32,
    crossfade_samples: u32,
    rule: u8,
    direction: &mut u8,
    ring: &mut [f32],
    sets: &'a [f32],
    max_rate: f64,
    input: f32,
    delay: f64,
    quality: u8,
    playback_rate: f64,
    sample: &mut f32,
) -> u8
    ensures { leaves result sample.new
        (changed accepted.new current.new target.new crossfade_position.new
        direction.new)
        ring.new
        ≡ left_by sets.now max_rate
        (state_of maximum margin accepted.old current.old target.old
        crossfade_position.old crossfade_samples rule direction.old)
        ring.old input delay quality playback_rate }
{
    let state = Coded {
        maximum: maximum,
        margin: margin,
        accepted: *accepted,
        current: *current,
        target: *target,
        crossfade_position: *crossfade_position,
        crossfade_samples: crossfade_samples,
        rule: rule,
        direction: *direction,
    };
    let c = call(
        state,
        &mut ring[..],
        sets,
        max_rate,
        input,
        delay,
        quality,
        playback_rate,
    );
    let after = c.state;
    *accepted = after.accepted;
    *current = after.current;
    *target = after.target;
    *crossfade_position = after.crossfade_position;
    *direction = after.direction;
    *sample = c.sample;
    c.number
}
