// A quality reader's call on plain numbers.
ghost use Rattle.std.specs.Prelude.{◌≡◌};
ghost use Rattle.quality_codes.specs.Calls.{taken_apart, called_of, ring_called};

use super::codes::{decode, encode, fields_ok, mode, odd};
use super::{Called, Coded};
use quality_variable_delay::ProcessedQ;
use refusal_order::both;

// What a reader's call answers, as plain numbers.
pub fn apart(p: ProcessedQ) -> Called
    ensures { result ≡ taken_apart p }
{
    let d = p.state;
    let a = p.answer;
    Called {
        state: encode(d),
        number: answer_parts::number_f32(a),
        sample: answer_parts::value_f32(a),
    }
}

pub fn call<'a>(
    state: Coded,
    ring: &mut [f32],
    sets: &'a [f32],
    max_rate: f64,
    input: f32,
    delay: f64,
    quality: u8,
    playback_rate: f64,
) -> Called
    ensures value { result ≡
        called_of sets.now max_rate state ring.old input delay quality playback_rate }
    ensures ring_after { ring.new ≡
        ring_called sets.now max_rate state ring.old input delay quality playback_rate }
{
    let asked = quality <= 3;
    if both(asked, fields_ok(state)) {
        let q = mode(quality);
        let p = quality_variable_delay::process_sample_rate_aware(
            decode(state),
            &mut ring[..],
            sets,
            max_rate,
            input,
            delay,
            q,
            playback_rate,
        );
        return apart(p);
    }
    let v = quality_variable_delay::due(
        decode(state),
        sets.len(),
        max_rate,
        ring.len(),
        input,
        delay,
        playback_rate,
    );
    Called {
        state: state,
        number: odd(asked, v),
        sample: 0.0,
    }
}
