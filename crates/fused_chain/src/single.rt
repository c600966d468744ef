// One chain, from its start to its end.
ghost use Rattle.std.specs.Prelude.{◌≡◌, length};
ghost use Rattle.fused_chain.specs.Chain.{chain_of, run_length};

use crate::behind::biased_run;
use crate::lengths::{ahead, least, stretch};
use crate::turns::{one_by_one, plainly};
use narrowing::narrow;

// K4, K5. 000's `for k in 0..taps` of the f32 reading, over a run of samples and two rows of a table, from a given sum
// on. Up to the middle, where the coefficients grow, the sum changes its exponent at most turns; after it, at few.
pub fn chain<'a>(xs: &'a [f32], row0: &'a [f32], row1: &'a [f32], blend: f32, sum: f32) -> f32
    ensures { result ≡ chain_of xs.now row0.now row1.now blend sum
        (run_length (length xs.now) (length row0.now) (length row1.now)) }
{
    let n = least(xs.len(), least(row0.len(), row1.len()));
    let middle = ahead(n / 2, 4, n);
    let wide = std::num::f32_to_f64_with_nan(sum);
    let mut held = plainly(xs, row0, row1, blend, 0, middle, wide);
    let mut k = middle;
    // By hand: how far a turn goes is what its run and its sums tell, and not a count.
    while k < n {
        let r = biased_run(xs, row0, row1, blend, k, n, held);
        let to = stretch(r.k, n, r.sum);
        held = one_by_one(xs, row0, row1, blend, r.k, to, r.sum);
        k = to;
    }
    narrow(held)
}
