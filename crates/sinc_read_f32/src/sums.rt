// The sum over taps that are held, as chains over adjacent samples.
ghost use Rattle.std.specs.Prelude.{◌≡◌, ◌+◌, ◌*◌, ◌%◌, ◌≤◌, ◌<◌, length, get_or};
ghost use Rattle.std.specs.Float.{nan};
ghost use Rattle.answer.specs.Answers.{zero-f};
ghost use Rattle.loop_laws.specs.Loops.{fold};
ghost use Rattle.sinc_read_f32.specs.Sums.{tap_turn, run_turn};

use fused_chain::chain;

// Makes the turns over adjacent samples, from a sum on. The rows start at two places of the table and are longer than
// the samples, so the chain ends with its samples.
fn over<'a>(
    samples: &'a [f32],
    table: &'a [f32],
    row: usize,
    next: usize,
    blend: f32,
    sum: f32,
) -> f32
    requires { (row + length samples.now ≤ length table.now)
        × (next + length samples.now ≤ length table.now) }
    ensures { result ≡ fold (run_turn samples.now table.now row next blend) sum
        (length samples.now) }
{
    chain(samples, &table[row..], &table[next..], blend, sum)
}

// Reads the first n taps, which are all held, the first at `place`: in one chain, or in one up to the ring's end and
// one from its start.
pub(crate) fn held<'a>(
    table: &'a [f32],
    taps: usize,
    phase: usize,
    blend: f32,
    source: &'a [f32],
    place: usize,
    n: usize,
) -> f32
    requires { (phase * taps + taps + taps ≤ length table.now) × (n ≤ taps) × (n ≤ length source.now)
        × (place < length source.now) }
    ensures { result ≡ fold
        (tap_turn (λ k. get_or source.now ((place + k) % length source.now) nan)
        table.now blend taps phase) zero-f n }
{
    let row = phase * taps;
    let next = row + taps;
    let left = source.len() - place;
    if n <= left {
        let last = place + n;
        return over(&source[place..last], table, row, next, blend, 0.0);
    }
    let before = over(&source[place..], table, row, next, blend, 0.0);
    let wrapped = n - left;
    over(
        &source[0..wrapped],
        table,
        row + left,
        next + left,
        blend,
        before,
    )
}
