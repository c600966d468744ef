// A whole stretch of the quality reader, with one quality and one rate, without and with the sums of its absent taps
// (W3, W3f, W3g).
ghost use Rattle.std.specs.Prelude.{◌≡◌};
ghost use Rattle.quality_codes.specs.Codes.{state_of};
ghost use Rattle.quality_codes.specs.Left.{changed};
ghost use Rattle.absent_taps.specs.Absent.{absent_of};
ghost use Rattle.coded_stretch.specs.Coded.{leaves, left_of, changed_by};
ghost use Rattle.told_coded_stretch.specs.Told.{leaves_told, told_of};

#[unsafe(no_mangle)]
pub extern "C" fn fugnadri_quality_stretch<'a>(
    maximum: usize,
    margin: usize,
    accepted: &mut u64,
    current: &mut u8,
    target: &mut u8,
    crossfade_position: &mut u32,
    crossfade_samples: u32,
    rule: u8,
    direction: &mut u8,
    ring: &mut [f32],
    sets: &'a [f32],
    max_rate: f64,
    inputs: &'a [f32],
    delays: &'a [f64],
    quality: u8,
    playback_rate: f64,
    out: &mut [f32],
    done: &mut usize,
) -> u8
    ensures { leaves result done.new
        (changed accepted.new current.new target.new crossfade_position.new
        direction.new)
        ring.new out.new
        ≡ changed_by (left_of sets.now max_rate quality playback_rate
        (state_of maximum margin accepted.old current.old target.old
        crossfade_position.old crossfade_samples rule direction.old)
        ring.old inputs.now delays.now out.old) }
{
    coded_stretch::stretch_through(
        maximum,
        margin,
        accepted,
        current,
        target,
        crossfade_position,
        crossfade_samples,
        rule,
        direction,
        ring,
        sets,
        max_rate,
        inputs,
        delays,
        quality,
        playback_rate,
        out,
        done,
    )
}

#[unsafe(no_mangle)]
pub extern "C" fn fugnadri_quality_stretch_told<'a>(
    maximum: usize,
    margin: usize,
    accepted: &mut u64,
    current: &mut u8,
    target: &mut u8,
    crossfade_position: &mut u32,
    crossfade_samples: u32,
    rule: u8,
    direction: &mut u8,
    ring: &mut [f32],
    sets: &'a [f32],
    max_rate: f64,
    inputs: &'a [f32],
    delays: &'a [f64],
    quality: u8,
    playback_rate: f64,
    out: &mut [f32],
    done: &mut usize,
    unwritten: &mut u64,
    ahead: &mut u64,
    overwritten: &mut u64,
) -> u8
    ensures { leaves_told (leaves result done.new
        (changed accepted.new current.new target.new crossfade_position.new
        direction.new)
        ring.new out.new)
        (absent_of unwritten.new ahead.new overwritten.new)
        ≡ told_of sets.now max_rate quality playback_rate
        (state_of maximum margin accepted.old current.old target.old
        crossfade_position.old crossfade_samples rule direction.old)
        ring.old inputs.now delays.now out.old }
{
    told_coded_stretch::stretch_told_through(
        maximum,
        margin,
        accepted,
        current,
        target,
        crossfade_position,
        crossfade_samples,
        rule,
        direction,
        ring,
        sets,
        max_rate,
        inputs,
        delays,
        quality,
        playback_rate,
        out,
        done,
        unwritten,
        ahead,
        overwritten,
    )
}
