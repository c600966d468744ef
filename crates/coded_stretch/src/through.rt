// `process_stretch` for C: it writes what is left of the state and the number of items done through pointers, and
// returns the number of the refusal, 0 for none.
ghost use Rattle.std.specs.Prelude.{◌≡◌};
ghost use Rattle.quality_codes.specs.Codes.{state_of};
ghost use Rattle.quality_codes.specs.Left.{changed};
ghost use Rattle.coded_stretch.specs.Coded.{leaves, left_of, changed_by};

use super::process_stretch;
use quality_codes::Coded;

pub fn stretch_through<'a>(
    maximum: usize,
    margin: usize,
    accepted: &mut u64,
    current: &mut u8,
    target: &mut u8,
    crossfade_position: &mut u32,
    crossfade_samples: u32,
    rule: u8,
    direction: &mut u8,
    ring: &mut [f32],
    sets: &'a [f32],
    max_rate: f64,
    inputs: &'a [f32],
    delays: &'a [f64],
    quality: u8,
    playback_rate: f64,
    out: &mut [f32],
    done: &mut usize,
) -> u8
    ensures { leaves result done.new
        (changed accepted.new current.new target.new crossfade_position.new
        direction.new)
        ring.new out.new
        ≡ changed_by (left_of sets.now max_rate quality playback_rate
        (state_of maximum margin accepted.old current.old target.old
        crossfade_position.old crossfade_samples rule direction.old)
        ring.old inputs.now delays.now out.old) }
{
    let state = Coded {
        maximum: maximum,
        margin: margin,
        accepted: *accepted,
        current: *current,
        target: *target,
        crossfade_position: *crossfade_position,
        crossfade_samples: crossfade_samples,
        rule: rule,
        direction: *direction,
    };
    let a = process_stretch(
        state,
        &mut ring[..],
        sets,
        max_rate,
        inputs,
        delays,
        quality,
        playback_rate,
        &mut out[..],
    );
    let after = a.state;
    *accepted = after.accepted;
    *current = after.current;
    *target = after.target;
    *crossfade_position = after.crossfade_position;
    *direction = after.direction;
    *done = a.done;
    a.refusal
}
