// The quality reader over a room of tables that two desks share (W4): a desk reads the sets that it holds itself, and
// every sample is the one that the quality reader gives over a bank of its own.
#![tactic(auto)]

mod looking; // where a desk's two sets lie, and whether the room is as it must be
mod refused; // the refusal of a call whose room is out of range
mod set_rates; // the rates of a bank's sets

ghost use Rattle.std.specs.Prelude.{◌≡◌};
ghost use Rattle.set_room.specs.Room.{room_of};
ghost use Rattle.desk_delay.specs.Desk.{caller_of, desk_verdict, desk_call, desk_ring};

use bessel::Mode;
use quality_mode::QualityMode;
use quality_variable_delay::{ProcessedQ, QualityVariableDelayF32};
use room_marks::Desk;

// The number of the refusal, 0 for none.
pub fn due<'a>(
    desk: Desk,
    mode: Mode,
    state: QualityVariableDelayF32,
    rates: &'a [f64],
    marks: &'a [u8],
    slots: &'a [f32],
    max_rate: f64,
    len: usize,
    input: f32,
    delay: f64,
    playback_rate: f64,
) -> u8
    ensures { result ≡
        desk_verdict (caller_of desk mode) (room_of rates.now marks.now slots.now)
        max_rate state len input delay playback_rate }
{
    let found = looking::look(
        desk,
        mode,
        rates,
        marks,
        slots.len(),
        max_rate,
        playback_rate,
    );
    let v = quality_variable_delay::refusal(
        state,
        magnitude::within(max_rate, 1.0, 2.0),
        found.lent,
        len,
        input,
        delay,
        playback_rate,
    );
    refused::in_room(found.whole, v)
}

// The original's process_sample_rate_aware (000) for a desk, over the slots that it holds in a mode: it refuses by
// number, or stores the sample and then reads.
pub fn process_sample_rate_aware<'a>(
    desk: Desk,
    mode: Mode,
    state: QualityVariableDelayF32,
    ring: &mut [f32],
    rates: &'a [f64],
    marks: &'a [u8],
    slots: &'a [f32],
    max_rate: f64,
    input: f32,
    delay: f64,
    quality: QualityMode,
    playback_rate: f64,
) -> ProcessedQ
    ensures value { result ≡
        desk_call (caller_of desk mode) (room_of rates.now marks.now slots.now)
        max_rate state ring.old input delay quality playback_rate }
    ensures ring_after { ring.new ≡
        desk_ring (caller_of desk mode) (room_of rates.now marks.now slots.now)
        max_rate state ring.old input delay playback_rate }
{
    let found = looking::look(
        desk,
        mode,
        rates,
        marks,
        slots.len(),
        max_rate,
        playback_rate,
    );
    let choice = found.choice;
    let bank = magnitude::within(max_rate, 1.0, 2.0);
    if found.whole {
        return quality_variable_delay::process_chosen(
            state,
            &mut ring[..],
            slots,
            choice,
            bank,
            found.lent,
            input,
            delay,
            quality,
            playback_rate,
        );
    }
    refused::refused(
        state,
        bank,
        found.lent,
        ring.len(),
        input,
        delay,
        playback_rate,
    )
}

// 000's process_sample, which reads at the maximum rate.
pub fn process_sample<'a>(
    desk: Desk,
    mode: Mode,
    state: QualityVariableDelayF32,
    ring: &mut [f32],
    rates: &'a [f64],
    marks: &'a [u8],
    slots: &'a [f32],
    max_rate: f64,
    input: f32,
    delay: f64,
    quality: QualityMode,
) -> ProcessedQ
    ensures value { result ≡
        desk_call (caller_of desk mode) (room_of rates.now marks.now slots.now)
        max_rate state ring.old input delay quality max_rate }
    ensures ring_after { ring.new ≡
        desk_ring (caller_of desk mode) (room_of rates.now marks.now slots.now)
        max_rate state ring.old input delay max_rate }
{
    process_sample_rate_aware(
        desk,
        mode,
        state,
        &mut ring[..],
        rates,
        marks,
        slots,
        max_rate,
        input,
        delay,
        quality,
        max_rate,
    )
}
