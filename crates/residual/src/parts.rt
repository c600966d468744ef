// W13. The squares of a block's differences. A difference below 2^24 is high * 2^12 + low, each part below 2^12; so the
// sums of 256 products of two parts fit 32 bits, and a compiler for plain x86-64 takes four differences at once.
ghost use Rattle.std.specs.Prelude.{◌≡◌, ◌≤◌, length};
ghost use mathlib.Core.List.{foldl};
ghost use Rattle.residual.specs.Report.{differences};
ghost use Rattle.residual.specs.Blocks.{Space, no_parts, part_of, sum_of_parts, added_to};
ghost use Rattle.residual.specs.Tallies.{Alike, Room};

use crate::steps::{carry, distance};
use crate::tally::Tally;
use refusal_order::both;

// The sums of high * high, of high * low and of low * low; `quiet` if no difference is above the bound.
#[derive(Clone, Copy)]
pub struct Parts {
    pub highs: u32,
    pub mixed: u32,
    pub lows: u32,
    pub quiet: bool,
}

// Adds one more difference.
fn part(p: Parts, d: u32, top: u32) -> Parts
    requires { Space p 1 }
    ensures { result ≡ part_of top p d }
{
    // For a difference below 2^24 the remainder changes nothing; it shows the compiler that the part fits 16 bits.
    let high = d / 4096 % 4096;
    let low = d % 4096;
    Parts {
        highs: p.highs + high * high,
        mixed: p.mixed + high * low,
        lows: p.lows + low * low,
        quiet: both(p.quiet, d <= top),
    }
}

pub(crate) fn squared(a: &[i32], b: &[i32], top: u32) -> Parts
    requires { Alike a.now b.now × (length a.now ≤ 256) }
    ensures { result ≡ foldl (part_of top) no_parts (differences a.now b.now) }
{
    let mut now = Parts {
        highs: 0,
        mixed: 0,
        lows: 0,
        quiet: true,
    };
    for i in 0..a.len() {
        now = part(now, distance(a[i], b[i]), top);
    }
    now
}

// Adds the sum that the three sums make to a tally. No difference was above its largest, so that only the number
// changes besides.
pub(crate) fn added(t: Tally, n: usize, p: Parts) -> Tally
    requires { Room t n }
    ensures { result ≡ added_to t n (sum_of_parts p) }
{
    let sum = p.highs as u64 * 0x100_0000 + p.mixed as u64 * 0x2000 + p.lows as u64;
    let low = std::num::wrapping_add_u64(t.low, sum);
    let high = t.high + carry(low, sum);
    Tally {
        number: t.number + n as u64,
        largest: t.largest,
        index: t.index,
        high: high,
        low: low,
    }
}
