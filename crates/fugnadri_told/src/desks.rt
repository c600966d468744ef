// A desk's reader over a room that two desks share (W4): the sum of the absent taps of every reading that a call makes.
ghost use Rattle.std.specs.Prelude.{◌≡◌};
ghost use Rattle.absent_taps.specs.Absent.{absent_of};
ghost use Rattle.answer_parts.specs.Left.{leaves};
ghost use Rattle.quality_codes.specs.Codes.{state_of};
ghost use Rattle.quality_codes.specs.Left.{changed};
ghost use Rattle.set_room.specs.Room.{room_of};
ghost use Rattle.told_codes.specs.Left.{leaves_told};
ghost use Rattle.told_desk_codes.specs.Left.{desk_left_told};

use told_desk_codes::call_through;

// The call without a rate reads at the maximum rate.
#[unsafe(no_mangle)]
pub extern "C" fn fugnadri_desk_process_told<'a>(
    desk: u8,
    mode: u8,
    maximum: usize,
    margin: usize,
    accepted: &mut u64,
    current: &mut u8,
    target: &mut u8,
    crossfade_position: &mut u32,
    crossfade_samples: u32,
    rule: u8,
    direction: &mut u8,
    ring: &mut [f32],
    rates: &'a [f64],
    marks: &'a [u8],
    slots: &'a [f32],
    max_rate: f64,
    input: f32,
    delay: f64,
    quality: u8,
    sample: &mut f32,
    unwritten: &mut u64,
    ahead: &mut u64,
    overwritten: &mut u64,
) -> u8
    ensures { leaves_told
        (leaves result sample.new
        (changed accepted.new current.new target.new crossfade_position.new
        direction.new)
        ring.new)
        (absent_of unwritten.new ahead.new overwritten.new)
        ≡ desk_left_told desk mode (room_of rates.now marks.now slots.now) max_rate
        (state_of maximum margin accepted.old current.old target.old
        crossfade_position.old crossfade_samples rule direction.old)
        ring.old input delay quality max_rate }
{
    call_through(
        desk,
        mode,
        maximum,
        margin,
        accepted,
        current,
        target,
        crossfade_position,
        crossfade_samples,
        rule,
        direction,
        ring,
        rates,
        marks,
        slots,
        max_rate,
        input,
        delay,
        quality,
        max_rate,
        sample,
        unwritten,
        ahead,
        overwritten,
    )
}

#[unsafe(no_mangle)]
pub extern "C" fn fugnadri_desk_process_rate_aware_told<'a>(
    desk: u8,
    mode: u8,
    maximum: usize,
    margin: usize,
    accepted: &mut u64,
    current: &mut u8,
    target: &mut u8,
    crossfade_position: &mut u32,
    crossfade_samples: u32,
    rule: u8,
    direction: &mut u8,
    ring: &mut [f32],
    rates: &'a [f64],
    marks: &'a [u8],
    slots: &'a [f32],
    max_rate: f64,
    input: f32,
    delay: f64,
    quality: u8,
    playback_rate: f64,
    sample: &mut f32,
    unwritten: &mut u64,
    ahead: &mut u64,
    overwritten: &mut u64,
) -> u8
    ensures { leaves_told
        (leaves result sample.new
        (changed accepted.new current.new target.new crossfade_position.new
        direction.new)
        ring.new)
        (absent_of unwritten.new ahead.new overwritten.new)
        ≡ desk_left_told desk mode (room_of rates.now marks.now slots.now) max_rate
        (state_of maximum margin accepted.old current.old target.old
        crossfade_position.old crossfade_samples rule direction.old)
        ring.old input delay quality playback_rate }
{
    call_through(
        desk,
        mode,
        maximum,
        margin,
        accepted,
        current,
        target,
        crossfade_position,
        crossfade_samples,
        rule,
        direction,
        ring,
        rates,
        marks,
        slots,
        max_rate,
        input,
        delay,
        quality,
        playback_rate,
        sample,
        unwritten,
        ahead,
        overwritten,
    )
}
