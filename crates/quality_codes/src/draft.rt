// The fast path for a call in which all qualities are Draft and nothing is refused (Q2), by either rule: no state is
// made, and only the count is written.
ghost use Rattle.std.specs.Prelude.{◌≡◌, true, ◌+◌, ◌-◌, ◌%◌, ◌^◌, ◌<◌, length};
ghost use Rattle.std.specs.Int.Bits.{bit_and};
ghost use Rattle.ring.specs.Places.{position_ok};
ghost use Rattle.cubic_farrow_f32.specs.Draft.{draft_at};
ghost use Rattle.variable_delay.specs.Reader.{stored, position_of};
ghost use Rattle.answer_parts.specs.Left.{leaves};
ghost use Rattle.quality_codes.specs.Codes.{state_of};
ghost use Rattle.quality_codes.specs.Left.{changed, left_by};

use super::plainly;
use super::through::call_through;
use answer_parts::handing::put_f32;

// K1. Stores sample i at its place, which a mask of the ring's length gives, and then reads.
fn read(i: u64, ring: &mut [f32], input: f32, delay: f64) -> f32
    requires { (i < 2 ^ 36) × (0 < length ring.old) × (bit_and i (length ring.old - 1) ≡ i % length ring.old)
        × (position_ok (position_of i delay) ≡ true) }
    ensures value { result ≡ draft_at (stored i ring.old input) (i + 1) (position_of i delay) }
    ensures ring_after { ring.new ≡ stored i ring.old input }
{
    let at = (i & (ring.len() as u64 - 1)) as usize;
    ring[at] = input;
    cubic_farrow_f32::read(&ring[..], i + 1, (i as i64) as f64 - delay)
}

pub fn call_at_once<'a>(
    maximum: usize,
    margin: usize,
    accepted: &mut u64,
    current: &mut u8,
    target: &mut u8,
    crossfade_position: &mut u32,
    crossfade_samples: u32,
    rule: u8,
    direction: &mut u8,
    ring: &mut [f32],
    sets: &'a [f32],
    max_rate: f64,
    input: f32,
    delay: f64,
    quality: u8,
    playback_rate: f64,
    sample: &mut f32,
) -> u8
    ensures { leaves result sample.new
        (changed accepted.new current.new target.new crossfade_position.new
        direction.new)
        ring.new
        ≡ left_by sets.now max_rate
        (state_of maximum margin accepted.old current.old target.old
        crossfade_position.old crossfade_samples rule direction.old)
        ring.old input delay quality playback_rate }
{
    let i = *accepted;
    if plainly::plain(
        maximum,
        margin,
        i,
        *current,
        *target,
        *crossfade_position,
        crossfade_samples,
        rule,
        *direction,
        ring.len(),
        sets.len(),
        max_rate,
        input,
        delay,
        quality,
        playback_rate,
    ) {
        let y = read(i, &mut ring[..], input, delay);
        put_f32(y, i + 1, accepted, sample);
        return 0;
    }
    call_through(
        maximum,
        margin,
        accepted,
        current,
        target,
        crossfade_position,
        crossfade_samples,
        rule,
        direction,
        &mut ring[..],
        &sets[..],
        max_rate,
        input,
        delay,
        quality,
        playback_rate,
        sample,
    )
}
