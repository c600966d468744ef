// The original's Farrow8 (000): eight-point Lagrange interpolation in fixed Farrow form, over a slice, a count and a
// position.
#![tactic(auto)]

mod steps;
mod taps;

ghost use Rattle.std.specs.Prelude.{◌≡◌, true, cond};
ghost use Rattle.answer.specs.Answers.{answer_of};
ghost use Rattle.ring.specs.Places.{position_ok};
ghost use Rattle.farrow8.specs.Kernel.{farrow_at, read_of};

use answer::Answer;
use farrow8_powers::sums;
use steps::{over, quick, slow};
use taps::{one_by_one, side_by_side};

// Fast path: if the eight taps are held side by side they are read without a test for each. Outside the range of
// positions the answer is 0.0. The two ways of `over` are written out here, because a function that takes the sums
// would copy them before handing them on.
pub fn read(source: &[f64], count: u64, position: f64) -> f64
    ensures { result ≡ read_of source.now count position }
{
    if ring::position_ok(position) {
        let i = integer_part::floor(position);
        let mu = integer_part::fraction(position);
        let run = ring::run_start(source.len(), count, i - 3, 8);
        let p = run.place;
        if run.held {
            if p + 8 <= source.len() {
                let s = sums(side_by_side(source, p));
                let r = quick(s, mu);
                if magnitude::is_finite(r) {
                    return r;
                }
                return slow(s, mu);
            }
        }
        return over(sums(one_by_one(source, count, i)), mu);
    }
    0.0
}

// N1. A position out of range is refused by 1.
pub fn sample(source: &[f64], count: u64, position: f64) -> Answer
    ensures { result ≡ answer_of (cond (position_ok position) 0 1) (read_of source.now count position) }
{
    if ring::position_ok(position) {
        answer::answered(0, read(source, count, position))
    } else {
        answer::answered(1, 0.0)
    }
}
