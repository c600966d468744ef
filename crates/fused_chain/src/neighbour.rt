// Two chains with samples, rows and a blend each, as two neighbouring samples of a stretch need them (W3). They run
// side by side, so that the processor works on one while it waits for the other.
ghost use Rattle.std.specs.Prelude.{◌≡◌, ◌<◌, ◌≤◌, length};
ghost use Rattle.fused_chain.specs.Blocks.{Ready, Runs};
ghost use Rattle.fused_chain.specs.Chain.{chain_of, run_length};

use crate::abreast::Reached;
use crate::beside::{biased_runs, plain_runs};
use crate::lengths::{ahead, least, stretch};
use crate::pair::Pair;
use crate::turns::one_by_one;
use narrowing::narrow;

// Up to where the turn k is of one kind: before the middle, or behind it.
fn until(k: usize, middle: usize, n: usize) -> usize
    requires { middle ≤ n }
    ensures { (result ≤ n) × (k < n → k < result) }
{
    if k < middle { middle } else { n }
}

// Makes turns of both chains, as the part of the run asks.
fn runs<'a>(
    xs: &'a [f32],
    a0: &'a [f32],
    a1: &'a [f32],
    blend: f32,
    ys: &'a [f32],
    b0: &'a [f32],
    b1: &'a [f32],
    other: f32,
    from: usize,
    to: usize,
    middle: usize,
    a: f64,
    b: f64,
) -> Reached
    requires { (Ready xs.now a0.now a1.now from to a) × (Ready ys.now b0.now b1.now from to b) }
    ensures runs { Runs xs.now a0.now a1.now blend from to a result.k result.a }
    ensures runs_2 { Runs ys.now b0.now b1.now other from to b result.k result.b }
{
    if from < middle {
        return plain_runs(xs, a0, a1, blend, ys, b0, b1, other, from, to, a, b);
    }
    biased_runs(xs, a0, a1, blend, ys, b0, b1, other, from, to, a, b)
}

// Computes two chains of the same length.
fn together<'a>(
    xs: &'a [f32],
    a0: &'a [f32],
    a1: &'a [f32],
    blend: f32,
    ys: &'a [f32],
    b0: &'a [f32],
    b1: &'a [f32],
    other: f32,
    a: f32,
    b: f32,
    n: usize,
) -> Pair
    requires { ((n ≤ length xs.now) × (n ≤ length a0.now) × (n ≤ length a1.now))
        × ((n ≤ length ys.now) × (n ≤ length b0.now) × (n ≤ length b1.now)) }
    ensures a_value { result.a ≡ chain_of xs.now a0.now a1.now blend a n }
    ensures b_value { result.b ≡ chain_of ys.now b0.now b1.now other b n }
{
    let middle = ahead(n / 2, 4, n);
    let mut s = std::num::f32_to_f64_with_nan(a);
    let mut t = std::num::f32_to_f64_with_nan(b);
    let mut k: usize = 0;
    // By hand: how far a turn goes is what its run and its sums tell, and not a count.
    while k < n {
        let end = until(k, middle, n);
        let r = runs(xs, a0, a1, blend, ys, b0, b1, other, k, end, middle, s, t);
        let to = stretch(r.k, end, r.a);
        s = one_by_one(xs, a0, a1, blend, r.k, to, r.a);
        t = one_by_one(ys, b0, b1, other, r.k, to, r.b);
        k = to;
    }
    Pair {
        a: narrow(s),
        b: narrow(t),
    }
}

// Both chains, each as `chain` gives it. If one ends before the other, which no reader causes, each is computed by
// itself, tap by tap.
pub fn neighbours<'a>(
    xs: &'a [f32],
    a0: &'a [f32],
    a1: &'a [f32],
    blend: f32,
    ys: &'a [f32],
    b0: &'a [f32],
    b1: &'a [f32],
    other: f32,
    a: f32,
    b: f32,
) -> Pair
    ensures a_value { result.a ≡ chain_of xs.now a0.now a1.now blend a
        (run_length (length xs.now) (length a0.now) (length a1.now)) }
    ensures b_value { result.b ≡ chain_of ys.now b0.now b1.now other b
        (run_length (length ys.now) (length b0.now) (length b1.now)) }
{
    let n = least(xs.len(), least(a0.len(), a1.len()));
    let m = least(ys.len(), least(b0.len(), b1.len()));
    if n == m {
        return together(xs, a0, a1, blend, ys, b0, b1, other, a, b, n);
    }
    let from_a = std::num::f32_to_f64_with_nan(a);
    let from_b = std::num::f32_to_f64_with_nan(b);
    let s = one_by_one(xs, a0, a1, blend, 0, n, from_a);
    let t = one_by_one(ys, b0, b1, other, 0, m, from_b);
    Pair {
        a: narrow(s),
        b: narrow(t),
    }
}
