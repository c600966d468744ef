// The turns of a chain up to a place that the caller chooses.
ghost use Rattle.fused_chain.specs.Blocks.{Ready, Carries};

use crate::before::plain_run;
use crate::lengths::stretch;
use fused_step::step;

// Makes the turns from `from` up to `to`, one at a time.
pub(crate) fn one_by_one<'a>(
    xs: &'a [f32],
    row0: &'a [f32],
    row1: &'a [f32],
    blend: f32,
    from: usize,
    to: usize,
    sum: f64,
) -> f64
    requires { Ready xs.now row0.now row1.now from to sum }
    ensures { Carries xs.now row0.now row1.now blend from to sum result }
{
    let mut held = sum;
    for k in from..to {
        let a = row0[k];
        held = step(xs[k], a + blend * (row1[k] - a), held);
    }
    held
}

// Makes the turns from `from` up to `to`, four at a time where their sums are plain.
pub(crate) fn plainly<'a>(
    xs: &'a [f32],
    row0: &'a [f32],
    row1: &'a [f32],
    blend: f32,
    from: usize,
    to: usize,
    sum: f64,
) -> f64
    requires { Ready xs.now row0.now row1.now from to sum }
    ensures { Carries xs.now row0.now row1.now blend from to sum result }
{
    let mut held = sum;
    let mut k: usize = from;
    // By hand: how far a turn goes is what its run and its sums tell, and not a count.
    while k < to {
        let r = plain_run(xs, row0, row1, blend, k, to, held);
        let end = stretch(r.k, to, r.sum);
        held = one_by_one(xs, row0, row1, blend, r.k, end, r.sum);
        k = end;
    }
    held
}
