// The sum over the taps: in runs if all are held, one by one if some are absent.
ghost use Rattle.std.specs.Prelude.{◌≡◌, ◌+◌, ◌*◌, ◌^◌, ◌≤◌, ◌<◌, ◌%◌, pos, ◌+ℤ◌, length, get_or};
ghost use Rattle.std.specs.Int.Signed.{mag};
ghost use Rattle.std.specs.Float.{nan};
ghost use Rattle.answer.specs.Answers.{zero-f};
ghost use Rattle.loop_laws.specs.Loops.{fold};
ghost use Rattle.ring.specs.Taps.{tap_of};
ghost use Rattle.sinc_read.specs.Sums.{run_turn, tap_turn};

// Adds n taps whose samples stand side by side. Nothing is tested, divided or wrapped for each tap.
fn run<'a>(
    table: &'a [f64],
    row: usize,
    next: usize,
    blend: f64,
    source: &'a [f64],
    place: usize,
    n: usize,
    sum: f64,
) -> f64
    requires { (row + n ≤ length table.now) × (next + n ≤ length table.now)
        × (place + n ≤ length source.now) }
    ensures { result ≡ fold (run_turn table.now row next blend source.now place) sum n }
{
    let mut sum = sum;
    for k in 0..n {
        let a = table[row + k];
        sum = sum + source[place + k] * (a + blend * (table[next + k] - a));
    }
    sum
}

// Adds taps that are all held, the first at a place: in one run, or in one up to the ring's end and one from its start.
pub(crate) fn held<'a>(
    table: &'a [f64],
    taps: usize,
    phase: usize,
    blend: f64,
    source: &'a [f64],
    place: usize,
) -> f64
    requires { (phase * taps + taps + taps ≤ length table.now) × (taps ≤ length source.now)
        × (place < length source.now) }
    ensures { result ≡ fold
        (tap_turn (λ k. get_or source.now ((place + k) % length source.now) nan)
        table.now blend taps phase) zero-f taps }
{
    let row = phase * taps;
    let next = row + taps;
    let left = source.len() - place;
    if taps <= left {
        return run(table, row, next, blend, source, place, taps, 0.0);
    }
    let before = run(table, row, next, blend, source, place, left, 0.0);
    run(
        table,
        row + left,
        next + left,
        blend,
        source,
        0,
        taps - left,
        before,
    )
}

// Tap k, counted from the first.
fn tap_after(source: &[f64], count: u64, first: i64, k: usize) -> f64
    requires { (mag first ≤ 2 ^ 37) × (k ≤ 128) }
    ensures { result ≡ tap_of source.now count (first +ℤ pos k) }
{
    ring::tap(source, count, first + (k as i64))
}

// Adds taps of which some are not held, each with its test.
pub(crate) fn one_by_one<'a>(
    table: &'a [f64],
    taps: usize,
    phase: usize,
    blend: f64,
    source: &'a [f64],
    count: u64,
    first: i64,
) -> f64
    requires { (phase * taps + taps + taps ≤ length table.now) × (taps ≤ 128) × (mag first ≤ 2 ^ 37) }
    ensures { result ≡ fold
        (tap_turn (λ k. tap_of source.now count (first +ℤ pos k)) table.now blend taps phase)
        zero-f taps }
{
    let row = phase * taps;
    let next = row + taps;
    let mut sum = 0.0;
    for k in 0..taps {
        let a = table[row + k];
        let x = tap_after(source, count, first, k);
        sum = sum + x * (a + blend * (table[next + k] - a));
    }
    sum
}
