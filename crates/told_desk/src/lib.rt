// A desk's reader with the number of a call's absent taps of each kind (W4, W7c). It calls the reader as it is and
// counts beside it, so that a call that does not need the numbers pays nothing.
#![tactic(auto)]

ghost use Rattle.std.specs.Prelude.{◌≡◌};
ghost use Rattle.set_room.specs.Room.{room_of};
ghost use Rattle.desk_delay.specs.Desk.{caller_of, desk_ring};
ghost use Rattle.told_desk.specs.Told.{desk_told};

use bessel::Mode;
use quality_mode::QualityMode;
use quality_variable_delay::QualityVariableDelayF32;
use room_marks::Desk;
use told_quality::ToldQ;

pub fn process_sample_rate_aware_told<'a>(
    desk: Desk,
    mode: Mode,
    state: QualityVariableDelayF32,
    ring: &mut [f32],
    rates: &'a [f64],
    marks: &'a [u8],
    slots: &'a [f32],
    max_rate: f64,
    input: f32,
    delay: f64,
    quality: QualityMode,
    playback_rate: f64,
) -> ToldQ
    ensures value { result ≡
        desk_told (caller_of desk mode) (room_of rates.now marks.now slots.now)
        max_rate state ring.old input delay quality playback_rate }
    ensures ring_after { ring.new ≡
        desk_ring (caller_of desk mode) (room_of rates.now marks.now slots.now)
        max_rate state ring.old input delay playback_rate }
{
    let len = ring.len();
    let p = desk_delay::process_sample_rate_aware(
        desk,
        mode,
        state,
        &mut ring[..],
        rates,
        marks,
        slots,
        max_rate,
        input,
        delay,
        quality,
        playback_rate,
    );
    let after = p.state;
    let answer = p.answer;
    let absent = told_quality::of_call(
        state,
        len,
        after.accepted,
        max_rate,
        delay,
        quality,
        playback_rate,
    );
    ToldQ {
        state: after,
        answer: answer,
        absent: absent,
    }
}

// The call without a rate, which reads at the maximum rate, as the reader's own does.
pub fn process_sample_told<'a>(
    desk: Desk,
    mode: Mode,
    state: QualityVariableDelayF32,
    ring: &mut [f32],
    rates: &'a [f64],
    marks: &'a [u8],
    slots: &'a [f32],
    max_rate: f64,
    input: f32,
    delay: f64,
    quality: QualityMode,
) -> ToldQ
    ensures value { result ≡
        desk_told (caller_of desk mode) (room_of rates.now marks.now slots.now)
        max_rate state ring.old input delay quality max_rate }
    ensures ring_after { ring.new ≡
        desk_ring (caller_of desk mode) (room_of rates.now marks.now slots.now)
        max_rate state ring.old input delay max_rate }
{
    process_sample_rate_aware_told(
        desk,
        mode,
        state,
        &mut ring[..],
        rates,
        marks,
        slots,
        max_rate,
        input,
        delay,
        quality,
        max_rate,
    )
}
