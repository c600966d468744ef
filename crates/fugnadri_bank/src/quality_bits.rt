// The calls of `quality` that write the sample as a bit pattern (O3). Both use `call_through`, so that the functions of
// `quality` have one caller each and are compiled into their exports: otherwise Draft's fast path costs a tenth more.
ghost use Rattle.std.specs.Prelude.{◌≡◌};
ghost use Rattle.std.specs.Float.{binary32};
ghost use Rattle.answer_parts.specs.Left.{leaves, in_bits};
ghost use Rattle.quality_codes.specs.Codes.{state_of};
ghost use Rattle.quality_codes.specs.Left.{changed, left_by};

use quality_codes::call_through;

#[unsafe(no_mangle)]
pub extern "C" fn fugnadri_quality_process_bits<'a>(
    maximum: usize,
    margin: usize,
    accepted: &mut u64,
    current: &mut u8,
    target: &mut u8,
    crossfade_position: &mut u32,
    crossfade_samples: u32,
    rule: u8,
    direction: &mut u8,
    ring: &mut [f32],
    sets: &'a [f32],
    max_rate: f64,
    input: f32,
    delay: f64,
    quality: u8,
    sample: &mut u32,
) -> u8
    ensures { leaves result sample.new
        (changed accepted.new current.new target.new crossfade_position.new
        direction.new)
        ring.new
        ≡ in_bits binary32 (left_by sets.now max_rate
        (state_of maximum margin accepted.old current.old target.old
        crossfade_position.old crossfade_samples rule direction.old)
        ring.old input delay quality max_rate) }
{
    let mut y: f32 = 0.0;
    let no = call_through(
        maximum,
        margin,
        accepted,
        current,
        target,
        crossfade_position,
        crossfade_samples,
        rule,
        direction,
        ring,
        sets,
        max_rate,
        input,
        delay,
        quality,
        max_rate,
        &mut y,
    );
    *sample = bit_patterns::bits_of_f32(y);
    no
}

#[unsafe(no_mangle)]
pub extern "C" fn fugnadri_quality_process_rate_aware_bits<'a>(
    maximum: usize,
    margin: usize,
    accepted: &mut u64,
    current: &mut u8,
    target: &mut u8,
    crossfade_position: &mut u32,
    crossfade_samples: u32,
    rule: u8,
    direction: &mut u8,
    ring: &mut [f32],
    sets: &'a [f32],
    max_rate: f64,
    input: f32,
    delay: f64,
    quality: u8,
    playback_rate: f64,
    sample: &mut u32,
) -> u8
    ensures { leaves result sample.new
        (changed accepted.new current.new target.new crossfade_position.new
        direction.new)
        ring.new
        ≡ in_bits binary32 (left_by sets.now max_rate
        (state_of maximum margin accepted.old current.old target.old
        crossfade_position.old crossfade_samples rule direction.old)
        ring.old input delay quality playback_rate) }
{
    let mut y: f32 = 0.0;
    let no = call_through(
        maximum,
        margin,
        accepted,
        current,
        target,
        crossfade_position,
        crossfade_samples,
        rule,
        direction,
        ring,
        sets,
        max_rate,
        input,
        delay,
        quality,
        playback_rate,
        &mut y,
    );
    *sample = bit_patterns::bits_of_f32(y);
    no
}
