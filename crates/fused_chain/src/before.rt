// A run of taps whose sums are rounded on their bit patterns, four at a time. It serves the taps before the middle,
// where the sum changes its exponent at most steps.
ghost use Rattle.std.specs.Prelude.{◌≡◌, true, T};
ghost use Rattle.std.specs.Float.Ieee.Scale.{finite};
ghost use Rattle.fused_chain.specs.Blocks.{Ready, Runs, FiniteFour};
ghost use Rattle.fused_chain.specs.Rounding.{Nearest, FourNearest};

use crate::Run;
use crate::taps::{Moved, multiplied};
use fused_step::is_plain;

// Rounds p + sum once to an f32, if the f64 sum is plain.
fn rounded(p: f64, sum: f64) -> Moved
    requires { (T (finite p)) × (T (finite sum)) }
    ensures { result.fine ≡ true → Nearest p sum result.sum }
{
    let s = p + sum;
    let n: u64 = f64::to_bits(s) + 0x1000_0000;
    if is_plain(n) {
        let near = f64::from_bits(n & 0xffff_ffff_e000_0000);
        return Moved {
            fine: true,
            sum: near,
        };
    }
    Moved {
        fine: false,
        sum: s,
    }
}

pub(crate) fn four_rounded(a: f64, b: f64, c: f64, d: f64, sum: f64) -> Moved
    requires fact_1 { FiniteFour a b c d }
    requires fact_2 { T (finite sum) }
    ensures { result.fine ≡ true → FourNearest a b c d sum result.sum }
{
    let s = rounded(a, sum);
    if !s.fine {
        return s;
    }
    let t = rounded(b, s.sum);
    if !t.fine {
        return t;
    }
    let u = rounded(c, t.sum);
    if !u.fine {
        return u;
    }
    rounded(d, u.sum)
}

// Makes the turns from `from` up to `to` at most, as long as the sums are plain.
pub(crate) fn plain_run<'a>(
    xs: &'a [f32],
    row0: &'a [f32],
    row1: &'a [f32],
    blend: f32,
    from: usize,
    to: usize,
    sum: f64,
) -> Run
    requires { Ready xs.now row0.now row1.now from to sum }
    ensures { Runs xs.now row0.now row1.now blend from to sum result.k
        result.sum }
{
    if sum - sum != 0.0 {
        return Run { k: from, sum: sum };
    }
    let mut held = sum;
    let mut k: usize = from;
    // By hand: each exit hands on the turn k, so that a `for` over the blocks of four would work it out at each.
    while to - k >= 4 {
        let p = multiplied(xs, row0, row1, blend, k);
        if !p.fine {
            return Run { k: k, sum: held };
        }
        let r = four_rounded(p.a, p.b, p.c, p.d, held);
        if !r.fine {
            return Run { k: k, sum: held };
        }
        held = r.sum;
        k += 4;
    }
    Run { k: k, sum: held }
}
