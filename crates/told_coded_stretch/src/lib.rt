// A whole stretch of the quality reader on plain numbers, with the sums of its absent taps of each kind (W3g, W9h). The
// stretch is coded_stretch's own, and the taps are counted beside it.
#![tactic(auto)]

ghost use Rattle.std.specs.Prelude.{◌≡◌};
ghost use Rattle.absent_taps.specs.Absent.{absent_of};
ghost use Rattle.quality_codes.specs.Codes.{state_of};
ghost use Rattle.quality_codes.specs.Left.{changed};
ghost use Rattle.coded_stretch.specs.Coded.{leaves};
ghost use Rattle.told_coded_stretch.specs.Told.{leaves_told, told_of};

use quality_codes::Coded;

// For C: it writes what is left of the state, the number of items done and the three sums through pointers, and returns
// the number of the refusal, 0 for none.
pub fn stretch_told_through<'a>(
    maximum: usize,
    margin: usize,
    accepted: &mut u64,
    current: &mut u8,
    target: &mut u8,
    crossfade_position: &mut u32,
    crossfade_samples: u32,
    rule: u8,
    direction: &mut u8,
    ring: &mut [f32],
    sets: &'a [f32],
    max_rate: f64,
    inputs: &'a [f32],
    delays: &'a [f64],
    quality: u8,
    playback_rate: f64,
    out: &mut [f32],
    done: &mut usize,
    unwritten: &mut u64,
    ahead: &mut u64,
    overwritten: &mut u64,
) -> u8
    ensures { leaves_told (leaves result done.new
        (changed accepted.new current.new target.new crossfade_position.new
        direction.new)
        ring.new out.new)
        (absent_of unwritten.new ahead.new overwritten.new)
        ≡ told_of sets.now max_rate quality playback_rate
        (state_of maximum margin accepted.old current.old target.old
        crossfade_position.old crossfade_samples rule direction.old)
        ring.old inputs.now delays.now out.old }
{
    let state = Coded {
        maximum: maximum,
        margin: margin,
        accepted: *accepted,
        current: *current,
        target: *target,
        crossfade_position: *crossfade_position,
        crossfade_samples: crossfade_samples,
        rule: rule,
        direction: *direction,
    };
    let len = ring.len();
    let a = coded_stretch::process_stretch(
        state,
        &mut ring[..],
        sets,
        max_rate,
        inputs,
        delays,
        quality,
        playback_rate,
        &mut out[..],
    );
    let after = a.state;
    let absent = told_quality_stretch::absent_of(
        quality_codes::decode(state),
        len,
        max_rate,
        delays,
        a.done,
        quality_codes::mode(quality),
        playback_rate,
    );
    *accepted = after.accepted;
    *current = after.current;
    *target = after.target;
    *crossfade_position = after.crossfade_position;
    *direction = after.direction;
    *done = a.done;
    *unwritten = absent.unwritten;
    *ahead = absent.ahead;
    *overwritten = absent.overwritten;
    a.refusal
}
