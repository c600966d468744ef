// Taps that are all held, read by two tables over the same samples: two chains at once.
ghost use Rattle.std.specs.Prelude.{◌≡◌, ◌+◌, ◌*◌, ◌%◌, ◌≤◌, ◌<◌, length, get_or};
ghost use Rattle.std.specs.Float.{nan};
ghost use Rattle.answer.specs.Answers.{zero-f};
ghost use Rattle.loop_laws.specs.Loops.{fold};
ghost use Rattle.sinc_read_f32.specs.Sums.{tap_turn, run_turn};

use fused_chain::{Pair, chains};

// Makes the turns of two chains over adjacent samples, from two sums on. The rows start at the same two places in each
// table.
fn over<'a>(
    samples: &'a [f32],
    one: &'a [f32],
    two: &'a [f32],
    row: usize,
    next: usize,
    blend: f32,
    a: f32,
    b: f32,
) -> Pair
    requires { (row + length samples.now ≤ length one.now) × (next + length samples.now ≤ length one.now)
        × (row + length samples.now ≤ length two.now) × (next + length samples.now ≤ length two.now) }
    ensures a_value { result.a ≡
        fold (run_turn samples.now one.now row next blend) a (length samples.now) }
    ensures b_value { result.b ≡
        fold (run_turn samples.now two.now row next blend) b (length samples.now) }
{
    chains(
        samples,
        &one[row..],
        &one[next..],
        &two[row..],
        &two[next..],
        blend,
        a,
        b,
    )
}

// Reads taps that are all held, the first at `place`: in one run, or in one up to the ring's end and one from its
// start.
pub(crate) fn held<'a>(
    one: &'a [f32],
    two: &'a [f32],
    taps: usize,
    phase: usize,
    blend: f32,
    source: &'a [f32],
    place: usize,
) -> Pair
    requires { (phase * taps + taps + taps ≤ length one.now) × (phase * taps + taps + taps ≤ length two.now)
        × (taps ≤ length source.now) × (place < length source.now) }
    ensures a_value { result.a ≡ fold
        (tap_turn (λ k. get_or source.now ((place + k) % length source.now) nan)
        one.now blend taps phase) zero-f taps }
    ensures b_value { result.b ≡ fold
        (tap_turn (λ k. get_or source.now ((place + k) % length source.now) nan)
        two.now blend taps phase) zero-f taps }
{
    let row = phase * taps;
    let next = row + taps;
    let left = source.len() - place;
    if taps <= left {
        let last = place + taps;
        return over(&source[place..last], one, two, row, next, blend, 0.0, 0.0);
    }
    let before = over(&source[place..], one, two, row, next, blend, 0.0, 0.0);
    let wrapped = taps - left;
    over(
        &source[0..wrapped],
        one,
        two,
        row + left,
        next + left,
        blend,
        before.a,
        before.b,
    )
}
