// A call of the quality reader for C (Q1, Q2): it takes the state's numbers, the ring and the bank's sets, writes the
// sample (0.0 if refused) and the changed numbers of the state through pointers, and returns the refusal number, 0 for
// none.
ghost use Rattle.std.specs.Prelude.{◌≡◌};
ghost use Rattle.answer_parts.specs.Left.{leaves};
ghost use Rattle.quality_codes.specs.Codes.{state_of};
ghost use Rattle.quality_codes.specs.Left.{changed, left_by};

#[unsafe(no_mangle)]
pub extern "C" fn fugnadri_quality_process<'a>(
    maximum: usize,
    margin: usize,
    accepted: &mut u64,
    current: &mut u8,
    target: &mut u8,
    crossfade_position: &mut u32,
    crossfade_samples: u32,
    rule: u8,
    direction: &mut u8,
    ring: &mut [f32],
    sets: &'a [f32],
    max_rate: f64,
    input: f32,
    delay: f64,
    quality: u8,
    sample: &mut f32,
) -> u8
    ensures { leaves result sample.new
        (changed accepted.new current.new target.new crossfade_position.new
        direction.new)
        ring.new
        ≡ left_by sets.now max_rate
        (state_of maximum margin accepted.old current.old target.old
        crossfade_position.old crossfade_samples rule direction.old)
        ring.old input delay quality max_rate }
{
    quality_codes::call_through(
        maximum,
        margin,
        accepted,
        current,
        target,
        crossfade_position,
        crossfade_samples,
        rule,
        direction,
        ring,
        sets,
        max_rate,
        input,
        delay,
        quality,
        max_rate,
        sample,
    )
}

#[unsafe(no_mangle)]
pub extern "C" fn fugnadri_quality_process_rate_aware<'a>(
    maximum: usize,
    margin: usize,
    accepted: &mut u64,
    current: &mut u8,
    target: &mut u8,
    crossfade_position: &mut u32,
    crossfade_samples: u32,
    rule: u8,
    direction: &mut u8,
    ring: &mut [f32],
    sets: &'a [f32],
    max_rate: f64,
    input: f32,
    delay: f64,
    quality: u8,
    playback_rate: f64,
    sample: &mut f32,
) -> u8
    ensures { leaves result sample.new
        (changed accepted.new current.new target.new crossfade_position.new
        direction.new)
        ring.new
        ≡ left_by sets.now max_rate
        (state_of maximum margin accepted.old current.old target.old
        crossfade_position.old crossfade_samples rule direction.old)
        ring.old input delay quality playback_rate }
{
    quality_codes::call_at_once(
        maximum,
        margin,
        accepted,
        current,
        target,
        crossfade_position,
        crossfade_samples,
        rule,
        direction,
        ring,
        sets,
        max_rate,
        input,
        delay,
        quality,
        playback_rate,
        sample,
    )
}
