// The sum over taps of which some are absent.
ghost use Rattle.std.specs.Prelude.{◌≡◌, ℕ, ◌+◌, ◌*◌, ◌^◌, ◌≤◌, ◌<◌, pos, ◌+ℤ◌, length, Float};
ghost use Rattle.std.specs.Int.Signed.{mag};
ghost use Rattle.answer.specs.Answers.{zero-f};
ghost use Rattle.loop_laws.specs.Loops.{fold};
ghost use Rattle.ring.specs.Taps.{tap_of};
ghost use Rattle.sinc_read_f32.specs.Sums.{tap_turn};

use crate::sums::held;
use fused_step::step;
use narrowing::narrow;

// Tap k, counted from the first.
fn tap_after(source: &[f32], count: u64, first: i64, k: usize) -> f32
    requires { (mag first ≤ 2 ^ 37) × (k ≤ 128) }
    ensures { result ≡ tap_of source.now count (first +ℤ pos k) }
{
    ring::tap_f32(source, count, first + (k as i64))
}

// Reads taps of which any may be absent, one by one. The sum is held as an f64 that is an f32, as in a chain.
fn one_by_one<'a>(
    table: &'a [f32],
    taps: usize,
    phase: usize,
    blend: f32,
    source: &'a [f32],
    count: u64,
    first: i64,
) -> f32
    requires { (phase * taps + taps + taps ≤ length table.now) × (taps ≤ 128) × (mag first ≤ 2 ^ 37) }
    ensures { result ≡ fold
        (tap_turn (λ k. tap_of source.now count (first +ℤ pos k)) table.now blend taps phase)
        zero-f taps }
{
    let row = phase * taps;
    let next = row + taps;
    let mut held: f64 = 0.0;
    for k in 0..taps {
        let a = table[row + k];
        let x = tap_after(source, count, first, k);
        held = step(x, a + blend * (table[next + k] - a), held);
    }
    narrow(held)
}

// The number of samples there are from an index on, up to `most`.
fn ahead(count: u64, index: i64, most: usize) -> usize
    ensures { (result ≤ most) × ((i : ℕ) → index ≡ pos i → result < most → count ≤ i + result) }
{
    if index < 0 {
        return 0;
    }
    let i = index as u64;
    if count < i {
        return 0;
    }
    let n = count - i;
    if n < most as u64 {
        return n as usize;
    }
    most
}

// Makes the turns over absent taps, from `from` to the last. A product with zero is exact, so a product and a sum give
// what the fused step gives.
fn silent<'a>(table: &'a [f32], taps: usize, phase: usize, blend: f32, from: usize, sum: f32) -> f32
    requires { (phase * taps + taps + taps ≤ length table.now) × (from ≤ taps) }
    ensures { (x : ℕ → Float) → ((k : ℕ) → from ≤ k → k < taps → x k ≡ zero-f)
        → sum ≡ fold (tap_turn x table.now blend taps phase) zero-f from
        → result ≡ fold (tap_turn x table.now blend taps phase) zero-f taps }
{
    let row = phase * taps;
    let next = row + taps;
    let mut sum = sum;
    for k in from..taps {
        let a = table[row + k];
        sum = 0.0 * (a + blend * (table[next + k] - a)) + sum;
    }
    sum
}

// Reads taps of which some are absent. At a short delay the first taps are held and the rest are ahead of the newest
// sample, so a chain reads the held ones where they stand and no tap is tested. Otherwise the taps are read one by one.
pub(crate) fn scattered<'a>(
    table: &'a [f32],
    taps: usize,
    phase: usize,
    blend: f32,
    source: &'a [f32],
    count: u64,
    first: i64,
) -> f32
    requires { (phase * taps + taps + taps ≤ length table.now) × (taps ≤ 128) × (mag first ≤ 2 ^ 37) }
    ensures { result ≡ fold
        (tap_turn (λ k. tap_of source.now count (first +ℤ pos k)) table.now blend taps phase)
        zero-f taps }
{
    let n = ahead(count, first, taps);
    if n > 0 {
        let start = ring::run_start(source.len(), count, first, n as u64);
        let place = start.place;
        if start.held {
            let sum = held(table, taps, phase, blend, source, place, n);
            return silent(table, taps, phase, blend, n, sum);
        }
    }
    one_by_one(table, taps, phase, blend, source, count, first)
}
