// Two chains over the same samples, as a blend of two tables needs them (T4, T5). They run side by side, so that the
// processor works on one while it waits for the other.
ghost use Rattle.std.specs.Prelude.{◌≡◌, ◌≤◌, length};
ghost use Rattle.fused_chain.specs.Blocks.{Ready, Carries};
ghost use Rattle.fused_chain.specs.Chain.{chain_of, run_length};

use crate::abreast::{Reached, biased_runs, plain_runs};
use crate::lengths::{ahead, least, stretch};
use crate::turns::one_by_one;
use narrowing::narrow;

#[derive(Drop)]
pub struct Pair {
    pub a: f32,
    pub b: f32,
}

// Makes the turns of both chains up to `to`, four of each at a time where both sums are plain.
fn plainly<'a>(
    xs: &'a [f32],
    a0: &'a [f32],
    a1: &'a [f32],
    b0: &'a [f32],
    b1: &'a [f32],
    blend: f32,
    to: usize,
    a: f64,
    b: f64,
) -> Reached
    requires { (Ready xs.now a0.now a1.now 0 to a) × (Ready xs.now b0.now b1.now 0 to b) }
    ensures carries { Carries xs.now a0.now a1.now blend 0 to a result.a }
    ensures carries_2 { Carries xs.now b0.now b1.now blend 0 to b result.b }
{
    let mut s = a;
    let mut t = b;
    let mut k: usize = 0;
    // By hand: how far a turn goes is what its run and its sums tell, and not a count.
    while k < to {
        let r = plain_runs(xs, a0, a1, b0, b1, blend, k, to, s, t);
        let end = stretch(r.k, to, r.a);
        s = one_by_one(xs, a0, a1, blend, r.k, end, r.a);
        t = one_by_one(xs, b0, b1, blend, r.k, end, r.b);
        k = end;
    }
    Reached { k: k, a: s, b: t }
}

// Computes two chains of the same length.
fn together<'a>(
    xs: &'a [f32],
    a0: &'a [f32],
    a1: &'a [f32],
    b0: &'a [f32],
    b1: &'a [f32],
    blend: f32,
    a: f32,
    b: f32,
    n: usize,
) -> Pair
    requires { (n ≤ length xs.now) × (n ≤ length a0.now) × (n ≤ length a1.now) × (n ≤ length b0.now)
        × (n ≤ length b1.now) }
    ensures a_value { result.a ≡ chain_of xs.now a0.now a1.now blend a n }
    ensures b_value { result.b ≡ chain_of xs.now b0.now b1.now blend b n }
{
    let middle = ahead(n / 2, 4, n);
    let from_a = std::num::f32_to_f64_with_nan(a);
    let from_b = std::num::f32_to_f64_with_nan(b);
    let before = plainly(xs, a0, a1, b0, b1, blend, middle, from_a, from_b);
    let mut s = before.a;
    let mut t = before.b;
    let mut k = middle;
    // By hand: how far a turn goes is what its run and its sums tell, and not a count.
    while k < n {
        let r = biased_runs(xs, a0, a1, b0, b1, blend, k, n, s, t);
        let to = stretch(r.k, n, r.a);
        s = one_by_one(xs, a0, a1, blend, r.k, to, r.a);
        t = one_by_one(xs, b0, b1, blend, r.k, to, r.b);
        k = to;
    }
    Pair {
        a: narrow(s),
        b: narrow(t),
    }
}

// Both chains, each as `chain` gives it. If one ends before the other, which no reader causes, each is computed by
// itself, tap by tap: calling `chain` here would add its stack to this function's.
pub fn chains<'a>(
    xs: &'a [f32],
    a0: &'a [f32],
    a1: &'a [f32],
    b0: &'a [f32],
    b1: &'a [f32],
    blend: f32,
    a: f32,
    b: f32,
) -> Pair
    ensures a_value { result.a ≡ chain_of xs.now a0.now a1.now blend a
        (run_length (length xs.now) (length a0.now) (length a1.now)) }
    ensures b_value { result.b ≡ chain_of xs.now b0.now b1.now blend b
        (run_length (length xs.now) (length b0.now) (length b1.now)) }
{
    let n = least(xs.len(), least(a0.len(), a1.len()));
    let m = least(xs.len(), least(b0.len(), b1.len()));
    if n == m {
        return together(xs, a0, a1, b0, b1, blend, a, b, n);
    }
    let from_a = std::num::f32_to_f64_with_nan(a);
    let from_b = std::num::f32_to_f64_with_nan(b);
    let s = one_by_one(xs, a0, a1, blend, 0, n, from_a);
    let t = one_by_one(xs, b0, b1, blend, 0, m, from_b);
    Pair {
        a: narrow(s),
        b: narrow(t),
    }
}
