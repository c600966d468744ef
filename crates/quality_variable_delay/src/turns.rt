// What an accepted call's turn reads of a bank of lent sets.
ghost use Rattle.std.specs.Prelude.{◌≡◌, ◌*◌, true, length};
ghost use Rattle.ring.specs.Places.{position_ok};
ghost use Rattle.bank_choice.specs.Rates.{bank_ok, steps_of};
ghost use Rattle.sinc_bank_f32.specs.Sets.{set_length};
ghost use Rattle.bank_read.specs.Bank.{bank_at};
ghost use Rattle.quality_variable_delay.specs.Reader.{weight_of, mixed_of, output_of};

use quality_fade::Turn;
use quality_mode::QualityMode;

// 000's `from + (to - from) * mix.min(1.0)`.
pub(crate) fn mix(from: f32, to: f32, weight: u32, crossfade_samples: u32) -> f32
    ensures { result ≡ mixed_of from to (weight_of weight crossfade_samples) }
{
    let share = std::num::nearest_u32_to_f32(weight)
        / std::num::nearest_u32_to_f32(crossfade_samples);
    from + (to - from) * min_max::min_f32(share, 1.0)
}

// What a turn reads. The two readings of a mixed call share one choice of sets; a plain call in Draft makes no choice,
// because choosing divides.
pub(crate) fn output<'a>(
    turn: Turn,
    sets: &'a [f32],
    max_rate: f64,
    playback_rate: f64,
    source: &'a [f32],
    count: u64,
    position: f64,
) -> f32
    requires { (bank_ok max_rate ≡ true) × (length sets.now ≡ steps_of max_rate * set_length)
        × (position_ok position ≡ true) }
    ensures { result ≡
        output_of (bank_at sets.now max_rate playback_rate) turn source.now count position }
{
    let from = turn.from;
    let to = turn.to;
    let left = turn.state;
    if turn.mixed {
        let shared = bank_choice::choice_or_zero(max_rate, playback_rate);
        let a = bank_read::read(sets, shared, from, source, count, position);
        let b = bank_read::read(sets, shared, to, source, count, position);
        return mix(a, b, turn.weight, left.crossfade_samples);
    }
    if quality_mode::same(to, QualityMode::Draft) {
        return cubic_farrow_f32::read(source, count, position);
    }
    let choice = bank_choice::choice_or_zero(max_rate, playback_rate);
    bank_read::read(sets, choice, to, source, count, position)
}
