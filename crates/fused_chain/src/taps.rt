// Four taps at a time. Their products do not depend on the sum, so no tap waits for them.
ghost use Rattle.std.specs.Prelude.{◌≡◌, ◌+◌, ◌<◌, ◌≤◌, true, ◌&&◌, length, slice_index_or};
ghost use Rattle.std.specs.Float.{nan};
ghost use Rattle.fused_chain.specs.Chain.{coefficient_of};
ghost use Rattle.fused_step.specs.Steps.{Numbers};
ghost use Rattle.fused_chain.specs.Blocks.{Product, Multiplied};

use fused_step::are_numbers;
use refusal_order::both;

// A sample and its coefficient.
#[derive(Drop)]
pub(crate) struct Tap {
    pub(crate) x: f32,
    pub(crate) c: f32,
}

// Four products, valid if `fine`.
#[derive(Drop)]
pub(crate) struct Products {
    pub(crate) fine: bool,
    pub(crate) a: f64,
    pub(crate) b: f64,
    pub(crate) c: f64,
    pub(crate) d: f64,
}

// A sum after some turns, valid if `fine`.
#[derive(Drop)]
pub(crate) struct Moved {
    pub(crate) fine: bool,
    pub(crate) sum: f64,
}

pub(crate) fn tap_at<'a>(
    xs: &'a [f32],
    row0: &'a [f32],
    row1: &'a [f32],
    blend: f32,
    k: usize,
) -> Tap
    requires { (k < length xs.now) × (k < length row0.now) × (k < length row1.now) }
    ensures { (result.x ≡ slice_index_or xs.now k nan)
        × (result.c ≡ coefficient_of blend (slice_index_or row0.now k nan) (slice_index_or row1.now k nan)) }
{
    let a = row0[k];
    let c = a + blend * (row1[k] - a);
    Tap { x: xs[k], c: c }
}

fn multiply(x: f32, c: f32) -> f64
    requires { Numbers x c }
    ensures { Product x c result }
{
    (x as f64) * (c as f64)
}

// The products of the taps from k on. They do not wait for one another, and one test is enough for all four: their sum
// is finite only if each of them is.
pub(crate) fn multiplied<'a>(
    xs: &'a [f32],
    row0: &'a [f32],
    row1: &'a [f32],
    blend: f32,
    k: usize,
) -> Products
    requires { (k + 4 ≤ length xs.now) × (k + 4 ≤ length row0.now) × (k + 4 ≤ length row1.now) }
    ensures { result.fine ≡ true
        → Multiplied xs.now row0.now row1.now blend k result.a result.b result.c result.d }
{
    let s = tap_at(xs, row0, row1, blend, k);
    let t = tap_at(xs, row0, row1, blend, k + 1);
    let u = tap_at(xs, row0, row1, blend, k + 2);
    let v = tap_at(xs, row0, row1, blend, k + 3);
    if !both(
        both(are_numbers(s.x, s.c), are_numbers(t.x, t.c)),
        both(are_numbers(u.x, u.c), are_numbers(v.x, v.c)),
    ) {
        return Products {
            fine: false,
            a: 0.0,
            b: 0.0,
            c: 0.0,
            d: 0.0,
        };
    }
    let a = multiply(s.x, s.c);
    let b = multiply(t.x, t.c);
    let c = multiply(u.x, u.c);
    let d = multiply(v.x, v.c);
    let z = (a + c) + (b + d);
    Products {
        fine: z - z == 0.0,
        a: a,
        b: b,
        c: c,
        d: d,
    }
}
