// A desk's call for C (W4): it takes the desk's and the mode's numbers, the state's numbers, the ring and the room,
// writes the sample (0.0 if refused) and the changed numbers of the state through pointers, and returns the refusal
// number, 0 for none. Opening and reset are the quality reader's.
ghost use Rattle.std.specs.Prelude.{◌≡◌};
ghost use Rattle.answer_parts.specs.Left.{leaves};
ghost use Rattle.quality_codes.specs.Codes.{state_of};
ghost use Rattle.quality_codes.specs.Left.{changed};
ghost use Rattle.set_room.specs.Room.{room_of};
ghost use Rattle.desk_codes.specs.Calls.{desk_left};

#[unsafe(no_mangle)]
pub extern "C" fn fugnadri_desk_process<'a>(
    desk: u8,
    mode: u8,
    maximum: usize,
    margin: usize,
    accepted: &mut u64,
    current: &mut u8,
    target: &mut u8,
    crossfade_position: &mut u32,
    crossfade_samples: u32,
    rule: u8,
    direction: &mut u8,
    ring: &mut [f32],
    rates: &'a [f64],
    marks: &'a [u8],
    slots: &'a [f32],
    max_rate: f64,
    input: f32,
    delay: f64,
    quality: u8,
    sample: &mut f32,
) -> u8
    ensures { leaves result sample.new
        (changed accepted.new current.new target.new crossfade_position.new
        direction.new)
        ring.new
        ≡ desk_left desk mode (room_of rates.now marks.now slots.now) max_rate
        (state_of maximum margin accepted.old current.old target.old
        crossfade_position.old crossfade_samples rule direction.old)
        ring.old input delay quality max_rate }
{
    desk_codes::call_through(
        desk,
        mode,
        maximum,
        margin,
        accepted,
        current,
        target,
        crossfade_position,
        crossfade_samples,
        rule,
        direction,
        ring,
        rates,
        marks,
        slots,
        max_rate,
        input,
        delay,
        quality,
        max_rate,
        sample,
    )
}

#[unsafe(no_mangle)]
pub extern "C" fn fugnadri_desk_process_rate_aware<'a>(
    desk: u8,
    mode: u8,
    maximum: usize,
    margin: usize,
    accepted: &mut u64,
    current: &mut u8,
    target: &mut u8,
    crossfade_position: &mut u32,
    crossfade_samples: u32,
    rule: u8,
    direction: &mut u8,
    ring: &mut [f32],
    rates: &'a [f64],
    marks: &'a [u8],
    slots: &'a [f32],
    max_rate: f64,
    input: f32,
    delay: f64,
    quality: u8,
    playback_rate: f64,
    sample: &mut f32,
) -> u8
    ensures { leaves result sample.new
        (changed accepted.new current.new target.new crossfade_position.new
        direction.new)
        ring.new
        ≡ desk_left desk mode (room_of rates.now marks.now slots.now) max_rate
        (state_of maximum margin accepted.old current.old target.old
        crossfade_position.old crossfade_samples rule direction.old)
        ring.old input delay quality playback_rate }
{
    desk_codes::call_through(
        desk,
        mode,
        maximum,
        margin,
        accepted,
        current,
        target,
        crossfade_position,
        crossfade_samples,
        rule,
        direction,
        ring,
        rates,
        marks,
        slots,
        max_rate,
        input,
        delay,
        quality,
        playback_rate,
        sample,
    )
}
