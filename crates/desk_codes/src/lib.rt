// A desk's call on plain numbers, for callers that can only pass numbers (W4). A desk is 1 or 2, a mode 0 or 1, and a
// quality its place in the original's list, from 0; any other number as an argument is refused by 1.
#![tactic(auto)]

mod through; // a call whose numbers come and go through pointers

ghost use Rattle.std.specs.Prelude.{◌≡◌};
ghost use Rattle.set_room.specs.Room.{room_of};
ghost use Rattle.desk_codes.specs.Calls.{desk_called, desk_ring_called};

use quality_codes::{Called, Coded, apart, decode, fields_ok, odd};
use refusal_order::both;
pub use through::call_through;

pub fn call<'a>(
    desk: u8,
    mode: u8,
    state: Coded,
    ring: &mut [f32],
    rates: &'a [f64],
    marks: &'a [u8],
    slots: &'a [f32],
    max_rate: f64,
    input: f32,
    delay: f64,
    quality: u8,
    playback_rate: f64,
) -> Called
    ensures value { result ≡
        desk_called desk mode (room_of rates.now marks.now slots.now) max_rate state
        ring.old input delay quality playback_rate }
    ensures ring_after { ring.new ≡
        desk_ring_called desk mode (room_of rates.now marks.now slots.now) max_rate
        state ring.old input delay quality playback_rate }
{
    let asked = both(
        quality <= 3,
        both(room_marks::known(desk), bessel::known(mode)),
    );
    let named = room_marks::of_number(desk);
    let built = bessel::of_code(mode);
    if both(asked, fields_ok(state)) {
        let q = quality_codes::mode(quality);
        let p = desk_delay::process_sample_rate_aware(
            named,
            built,
            decode(state),
            &mut ring[..],
            rates,
            marks,
            slots,
            max_rate,
            input,
            delay,
            q,
            playback_rate,
        );
        return apart(p);
    }
    let v = desk_delay::due(
        named,
        built,
        decode(state),
        rates,
        marks,
        slots,
        max_rate,
        ring.len(),
        input,
        delay,
        playback_rate,
    );
    Called {
        state: state,
        number: odd(asked, v),
        sample: 0.0,
    }
}
