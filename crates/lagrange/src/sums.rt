// The sum over the taps, for eight nodes at a time.
ghost use Rattle.std.specs.Prelude.{◌≡◌, true, ◌+◌, ◌*◌, ◌^◌, ◌≤◌, ◌<◌, min, pos, ◌+ℤ◌, length, get_or};
ghost use Rattle.std.specs.Int.Signed.{mag};
ghost use Rattle.std.specs.Float.{nan};
ghost use Rattle.loop_laws.specs.Loops.{fold};
ghost use Rattle.ring.specs.Taps.{tap_of};
ghost use Rattle.lagrange.specs.Kernel.{turn_of, zero-f};
ghost use Rattle.lagrange.specs.Eights.{tap_turn, SideBySide};

use crate::lanes::weights;
use ring::Start;

// Tap k, counted from the first.
fn tap_after(source: &[f64], count: u64, base: i64, k: u64) -> f64
    requires { (mag base ≤ 2 ^ 37) × (k ≤ 16) }
    ensures { result ≡ tap_of source.now count (base +ℤ pos k) }
{
    ring::tap(source, count, base + (k as i64))
}

fn one_by_one(
    source: &[f64],
    count: u64,
    base: i64,
    first: u64,
    w: [f64; 8],
    n: usize,
    sum: f64,
) -> f64
    requires { (mag base ≤ 2 ^ 37) × (first + n ≤ 16) × (n ≤ 8) }
    ensures { result ≡ fold (tap_turn (λ k. tap_of source.now count (base +ℤ pos (first + k))) w) sum n }
{
    let mut sum = sum;
    for k in 0..n {
        sum += tap_after(source, count, base, first + k as u64) * w[k];
    }
    sum
}

// Adds taps that stand side by side from a place on, without a test for each.
fn run(source: &[f64], place: usize, w: [f64; 8], n: usize, sum: f64) -> f64
    requires { (place + n ≤ length source.now) × (n ≤ 8) }
    ensures { result ≡ fold (tap_turn (λ k. get_or source.now (place + k) nan) w) sum n }
{
    let mut sum = sum;
    for k in 0..n {
        sum += source[place + k] * w[k];
    }
    sum
}

// Whether all taps are held side by side, and where the first stands.
fn start(source: &[f64], count: u64, base: i64, taps: u64) -> Start
    requires { (1 ≤ taps) × (taps ≤ 16) }
    ensures { result.held ≡ true → SideBySide source.now count base taps result.place }
{
    let s = ring::run_start(source.len(), count, base, taps);
    let p = s.place;
    if s.held {
        if p + taps as usize <= source.len() {
            return s;
        }
    }
    Start {
        held: false,
        place: 0,
    }
}

// Adds the next eight taps, or those that are left.
fn block(
    source: &[f64],
    count: u64,
    base: i64,
    local: f64,
    pairs: u64,
    s: Start,
    f: u64,
    sum: f64,
) -> f64
    requires { (mag base ≤ 2 ^ 37) × (f < pairs) × (pairs ≤ 8)
        × (s.held ≡ true → SideBySide source.now count base (2 * pairs) s.place)
        × (sum ≡ fold (turn_of source.now count base local (2 * pairs)) zero-f (2 * f)) }
    ensures { result ≡
        fold (turn_of source.now count base local (2 * pairs)) zero-f (2 * min (f + 4) pairs) }
{
    let w = weights(f, local, pairs);
    let n = 2 * (pairs - f).min(4);
    let p = s.place;
    if s.held {
        return run(source, p + 2 * f as usize, w, n as usize, sum);
    }
    one_by_one(source, count, base, 2 * f, w, n as usize, sum)
}

// The outer loop of 000, with eight turns at a time, so that it is at most two blocks.
pub(crate) fn sum(source: &[f64], count: u64, base: i64, local: f64, pairs: u64) -> f64
    requires { (mag base ≤ 2 ^ 37) × (1 ≤ pairs) × (pairs ≤ 8) }
    ensures { result ≡ fold (turn_of source.now count base local (2 * pairs)) zero-f (2 * pairs) }
{
    let s = start(source, count, base, 2 * pairs);
    let front = block(source, count, base, local, pairs, s, 0, 0.0);
    if pairs <= 4 {
        return front;
    }
    block(source, count, base, local, pairs, s, 4, front)
}
