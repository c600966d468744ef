// What a lent table of f32 reads for two neighbouring samples of a stretch, by two chains at once where it can be (W3).
#![tactic(auto)]

mod straight; // taps that stand side by side

ghost use Rattle.std.specs.Prelude.{◌≡◌};
ghost use Rattle.sinc_read_f32.specs.Reading.{read_of};
ghost use Rattle.sinc_neighbours.specs.Apart.{apart_of};

use fused_chain::Pair;
use sinc_read_f32::read;
use straight::{found, over};

// Whether the taps of a reading stay clear of the place that a further sample takes, which makes the count `after`. If
// so, the reading gives the same after that sample is stored.
pub fn apart(len: usize, after: u64, position: f64, taps: usize) -> bool
    ensures { result ≡ apart_of len after position taps }
{
    let first = sinc_phases::first_tap(position, taps);
    let start = ring::run_start(len, after, first, taps as u64);
    start.held
}

// Both readings, each as `read` gives it. If the taps of each stand side by side they are made at once, otherwise one
// after the other.
pub fn read_neighbours<'a>(
    table: &'a [f32],
    taps: usize,
    phases: usize,
    source: &'a [f32],
    count: u64,
    position: f64,
    next_count: u64,
    next_position: f64,
) -> Pair
    ensures a_value { result.a ≡ read_of table.now taps phases source.now count position }
    ensures b_value { result.b ≡ read_of table.now taps phases source.now next_count
        next_position }
{
    let p = found(table, taps, phases, source, count, position);
    let q = found(table, taps, phases, source, next_count, next_position);
    if p.fine {
        if q.fine {
            return over(
                table, taps, source, p.place, p.phase, p.blend, q.place, q.phase, q.blend,
            );
        }
    }
    let a = read(table, taps, phases, source, count, position);
    let b = read(table, taps, phases, source, next_count, next_position);
    Pair { a: a, b: b }
}
