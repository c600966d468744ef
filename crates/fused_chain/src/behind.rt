// A run of taps with its sum kept biased, so that each tap waits for one addition only. It serves the taps after the
// middle, where the sum keeps its exponent.
ghost use Rattle.fused_chain.specs.Blocks.{Ready, Runs};

use crate::Run;
use crate::taps::multiplied;
use biased_sum::{advance, with_bias};
use refusal_order::both;

// Makes the turns from `from` up to `to` at most, four at a time, as long as the sum keeps its exponent and its sign.
pub(crate) fn biased_run<'a>(
    xs: &'a [f32],
    row0: &'a [f32],
    row1: &'a [f32],
    blend: f32,
    from: usize,
    to: usize,
    sum: f64,
) -> Run
    requires { Ready xs.now row0.now row1.now from to sum }
    ensures { Runs xs.now row0.now row1.now blend from to sum result.k
        result.sum }
{
    let t = with_bias(sum);
    if !t.fine {
        return Run { k: from, sum: sum };
    }
    let bias = t.bias;
    let low = t.low;
    let high = t.high;
    let mut held = t.sum;
    let mut k: usize = from;
    // By hand: each exit hands on the turn k, so that a `for` over the blocks of four would work it out at each.
    while to - k >= 4 {
        let p = multiplied(xs, row0, row1, blend, k);
        let r = advance(p.a, p.b, p.c, p.d, low, high, held);
        if !both(p.fine, r.fine) {
            return Run {
                k: k,
                sum: held - bias,
            };
        }
        held = r.sum;
        k += 4;
    }
    Run {
        k: k,
        sum: held - bias,
    }
}
