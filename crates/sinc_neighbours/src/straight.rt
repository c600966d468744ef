// Readings whose taps are all held and stand side by side in the ring.
ghost use Rattle.std.specs.Prelude.{◌≡◌, true, ◌+◌, ◌%◌, length, get_or};
ghost use Rattle.std.specs.Float.{nan};
ghost use Rattle.answer.specs.Answers.{zero-f};
ghost use Rattle.loop_laws.specs.Loops.{fold};
ghost use Rattle.sinc_read_f32.specs.Sums.{tap_turn};
ghost use Rattle.sinc_neighbours.specs.Straight.{Lies, Straight};

use fused_chain::{Pair, neighbours};

// Where the taps of a reading stand and how they are weighted, valid if `fine`.
#[derive(Drop)]
pub(crate) struct Side {
    pub(crate) fine: bool,
    pub(crate) place: usize,
    pub(crate) phase: usize,
    pub(crate) blend: f32,
}

// Looks for a reading's taps. It finds none if the reading is refused, if a tap is absent, or if they go round the
// ring's end.
pub(crate) fn found<'a>(
    table: &'a [f32],
    taps: usize,
    phases: usize,
    source: &'a [f32],
    count: u64,
    position: f64,
) -> Side
    ensures { result.fine ≡ true → Straight table.now taps phases source.now count position
        result.place result.phase result.blend }
{
    if sinc_read::refusal(taps, phases, table.len(), position) == 0 {
        let between = sinc_phases::phase_at(position, phases);
        let phase = between.phase;
        let blend = narrowing::narrow(between.blend);
        let first = sinc_phases::first_tap(position, taps);
        let start = ring::run_start(source.len(), count, first, taps as u64);
        let place = start.place;
        if start.held {
            if taps <= source.len() - place {
                return Side {
                    fine: true,
                    place: place,
                    phase: phase,
                    blend: blend,
                };
            }
        }
    }
    Side {
        fine: false,
        place: 0,
        phase: 0,
        blend: 0.0,
    }
}

// Makes both sums at once.
pub(crate) fn over<'a>(
    table: &'a [f32],
    taps: usize,
    source: &'a [f32],
    place: usize,
    phase: usize,
    blend: f32,
    other_place: usize,
    other_phase: usize,
    other: f32,
) -> Pair
    requires { (Lies (length table.now) taps (length source.now) place phase)
        × (Lies (length table.now) taps (length source.now) other_place other_phase) }
    ensures a_value { result.a ≡ fold
        (tap_turn (λ k. get_or source.now ((place + k) % length source.now) nan)
        table.now blend taps phase) zero-f taps }
    ensures b_value { result.b ≡ fold
        (tap_turn (λ k. get_or source.now ((other_place + k) % length source.now) nan)
        table.now other taps other_phase) zero-f taps }
{
    let row = phase * taps;
    let next = row + taps;
    let last = place + taps;
    let other_row = other_phase * taps;
    let other_next = other_row + taps;
    let other_last = other_place + taps;
    neighbours(
        &source[place..last],
        &table[row..],
        &table[next..],
        blend,
        &source[other_place..other_last],
        &table[other_row..],
        &table[other_next..],
        other,
        0.0,
        0.0,
    )
}
