// Runs of taps of two chains with samples, rows and a blend each, four taps of each at a time, so that the processor
// works on one chain while it waits for the other. Both stop where either one must.
ghost use Rattle.fused_chain.specs.Blocks.{Ready, Runs};

use crate::abreast::Reached;
use crate::before::four_rounded;
use crate::taps::multiplied;
use biased_sum::{advance, with_bias};
use refusal_order::both;

// Makes the turns before the middle as long as both sums are plain.
pub(crate) fn plain_runs<'a>(
    xs: &'a [f32],
    a0: &'a [f32],
    a1: &'a [f32],
    blend: f32,
    ys: &'a [f32],
    b0: &'a [f32],
    b1: &'a [f32],
    other: f32,
    from: usize,
    to: usize,
    a: f64,
    b: f64,
) -> Reached
    requires { (Ready xs.now a0.now a1.now from to a) × (Ready ys.now b0.now b1.now from to b) }
    ensures runs { Runs xs.now a0.now a1.now blend from to a result.k result.a }
    ensures runs_2 { Runs ys.now b0.now b1.now other from to b result.k result.b }
{
    if !both(a - a == 0.0, b - b == 0.0) {
        return Reached {
            k: from,
            a: a,
            b: b,
        };
    }
    let mut s = a;
    let mut t = b;
    let mut k: usize = from;
    // By hand: each exit hands on the turn k, so that a `for` over the blocks of four would work it out at each.
    while to - k >= 4 {
        let p = multiplied(xs, a0, a1, blend, k);
        let q = multiplied(ys, b0, b1, other, k);
        if !both(p.fine, q.fine) {
            return Reached { k: k, a: s, b: t };
        }
        let u = four_rounded(p.a, p.b, p.c, p.d, s);
        let v = four_rounded(q.a, q.b, q.c, q.d, t);
        if !both(u.fine, v.fine) {
            return Reached { k: k, a: s, b: t };
        }
        s = u.sum;
        t = v.sum;
        k += 4;
    }
    Reached { k: k, a: s, b: t }
}

// Makes the turns after the middle as long as both sums keep their exponent and their sign.
pub(crate) fn biased_runs<'a>(
    xs: &'a [f32],
    a0: &'a [f32],
    a1: &'a [f32],
    blend: f32,
    ys: &'a [f32],
    b0: &'a [f32],
    b1: &'a [f32],
    other: f32,
    from: usize,
    to: usize,
    a: f64,
    b: f64,
) -> Reached
    requires { (Ready xs.now a0.now a1.now from to a) × (Ready ys.now b0.now b1.now from to b) }
    ensures runs { Runs xs.now a0.now a1.now blend from to a result.k result.a }
    ensures runs_2 { Runs ys.now b0.now b1.now other from to b result.k result.b }
{
    let f = with_bias(a);
    let g = with_bias(b);
    if !both(f.fine, g.fine) {
        return Reached {
            k: from,
            a: a,
            b: b,
        };
    }
    let mut s = f.sum;
    let mut t = g.sum;
    let mut k: usize = from;
    // By hand: each exit hands on the turn k, so that a `for` over the blocks of four would work it out at each.
    while to - k >= 4 {
        let p = multiplied(xs, a0, a1, blend, k);
        let q = multiplied(ys, b0, b1, other, k);
        let u = advance(p.a, p.b, p.c, p.d, f.low, f.high, s);
        let v = advance(q.a, q.b, q.c, q.d, g.low, g.high, t);
        if !both(both(p.fine, u.fine), both(q.fine, v.fine)) {
            return Reached {
                k: k,
                a: s - f.bias,
                b: t - g.bias,
            };
        }
        s = u.sum;
        t = v.sum;
        k += 4;
    }
    Reached {
        k: k,
        a: s - f.bias,
        b: t - g.bias,
    }
}
