// What two lent tables of f32 read at one position, as a blend of two sets needs it (T4, T5).
ghost use Rattle.std.specs.Prelude.{◌≡◌};
ghost use Rattle.sinc_read_f32.specs.Reading.{read_of};

use crate::abreast::held;
use crate::kernel::read;
use fused_chain::Pair;

// Both readings, each as `read` gives it. If every tap is held they are made at once, otherwise one after the other.
pub fn read_pair<'a>(
    one: &'a [f32],
    two: &'a [f32],
    taps: usize,
    phases: usize,
    source: &'a [f32],
    count: u64,
    position: f64,
) -> Pair
    ensures a_value { result.a ≡ read_of one.now taps phases source.now count position }
    ensures b_value { result.b ≡ read_of two.now taps phases source.now count position }
{
    if one.len() == two.len() {
        if sinc_read::refusal(taps, phases, one.len(), position) == 0 {
            let between = sinc_phases::phase_at(position, phases);
            let phase = between.phase;
            let blend = narrowing::narrow(between.blend);
            let first = sinc_phases::first_tap(position, taps);
            let start = ring::run_start(source.len(), count, first, taps as u64);
            let place = start.place;
            if start.held {
                return held(one, two, taps, phase, blend, source, place);
            }
        }
    }
    let a = read(one, taps, phases, source, count, position);
    let b = read(two, taps, phases, source, count, position);
    Pair { a: a, b: b }
}
