// The quality reader's call on plain numbers, with the number of its absent taps of each kind (W7c, W7g). The call is
// quality_codes' own, and the taps are counted beside it.
#![tactic(auto)]

ghost use Rattle.std.specs.Prelude.{◌≡◌};
ghost use Rattle.absent_taps.specs.Absent.{absent_of};
ghost use Rattle.answer_parts.specs.Left.{leaves};
ghost use Rattle.quality_codes.specs.Codes.{state_of};
ghost use Rattle.quality_codes.specs.Left.{changed};
ghost use Rattle.told_codes.specs.Left.{leaves_told, left_by};

use quality_codes::Coded;

// For C: it writes the new state, the sample (0.0 if refused) and the three numbers (zeros if refused) through
// pointers, and returns the number of the refusal, 0 for none.
pub fn call_through<'a>(
    maximum: usize,
    margin: usize,
    accepted: &mut u64,
    current: &mut u8,
    target: &mut u8,
    crossfade_position: &mut u32,
    crossfade_samples: u32,
    rule: u8,
    direction: &mut u8,
    ring: &mut [f32],
    sets: &'a [f32],
    max_rate: f64,
    input: f32,
    delay: f64,
    quality: u8,
    playback_rate: f64,
    sample: &mut f32,
    unwritten: &mut u64,
    ahead: &mut u64,
    overwritten: &mut u64,
) -> u8
    ensures { leaves_told
        (leaves result sample.new
        (changed accepted.new current.new target.new crossfade_position.new
        direction.new)
        ring.new)
        (absent_of unwritten.new ahead.new overwritten.new)
        ≡ left_by sets.now max_rate
        (state_of maximum margin accepted.old current.old target.old
        crossfade_position.old crossfade_samples rule direction.old)
        ring.old input delay quality playback_rate }
{
    let state = Coded {
        maximum: maximum,
        margin: margin,
        accepted: *accepted,
        current: *current,
        target: *target,
        crossfade_position: *crossfade_position,
        crossfade_samples: crossfade_samples,
        rule: rule,
        direction: *direction,
    };
    let len = ring.len();
    let c = quality_codes::call(
        state,
        &mut ring[..],
        sets,
        max_rate,
        input,
        delay,
        quality,
        playback_rate,
    );
    let after = c.state;
    let absent = told_quality::of_call(
        quality_codes::decode(state),
        len,
        after.accepted,
        max_rate,
        delay,
        quality_codes::mode(quality),
        playback_rate,
    );
    *accepted = after.accepted;
    *current = after.current;
    *target = after.target;
    *crossfade_position = after.crossfade_position;
    *direction = after.direction;
    *sample = c.sample;
    *unwritten = absent.unwritten;
    *ahead = absent.ahead;
    *overwritten = absent.overwritten;
    c.number
}
