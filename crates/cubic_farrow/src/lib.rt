// The original's CubicFarrow (000): a cubic reading over a slice, a count and a position.
#![tactic(auto)]

ghost use Rattle.std.specs.Prelude.{◌≡◌, true, cond, ◌+◌, ◌≤◌, ◌^◌, pos, ◌+ℤ◌, ◌-ℤ◌, length, get_or};
ghost use Rattle.std.specs.Int.Signed.{mag};
ghost use Rattle.std.specs.Float.{binary64, nan};
ghost use Rattle.answer.specs.Answers.{answer_of};
ghost use Rattle.ring.specs.Taps.{tap_of};
ghost use Rattle.ring.specs.Places.{position_ok};
ghost use Rattle.cubic_farrow.specs.Cubic.{weighed, cubic_at, read_of};

use answer::Answer;

// The Lagrange basis for the nodes -1, 0, 1, 2. The signs of c0 and c2 are moved outside, which is exact, so that (mu +
// 1) * mu is computed once and nothing is negated.
pub fn weigh(mu: f64, xm1: f64, x0: f64, x1: f64, x2: f64) -> f64
    ensures { result ≡ weighed binary64 mu xm1 x0 x1 x2 }
{
    let middle = (mu + 1.0) * mu;
    let c0 = mu * (mu - 1.0) * (mu - 2.0) / 6.0;
    let c1 = (mu + 1.0) * (mu - 1.0) * (mu - 2.0) / 2.0;
    let c2 = middle * (mu - 2.0) / 2.0;
    let c3 = middle * (mu - 1.0) / 6.0;
    -(xm1 * c0) + x0 * c1 - x1 * c2 + x2 * c3
}

// Four taps that stand side by side are read without a test for each.
fn side_by_side(source: &[f64], p: usize, mu: f64) -> f64
    requires { p + 4 ≤ length source.now }
    ensures { result ≡ weighed binary64 mu (get_or source.now p nan) (get_or source.now (p + 1) nan)
        (get_or source.now (p + 2) nan) (get_or source.now (p + 3) nan) }
{
    weigh(mu, source[p], source[p + 1], source[p + 2], source[p + 3])
}

// The four taps around an index, each with its test.
fn one_by_one(source: &[f64], count: u64, i: i64, mu: f64) -> f64
    requires { mag i ≤ 2 ^ 36 }
    ensures { result ≡ weighed binary64 mu (tap_of source.now count (i -ℤ pos 1))
        (tap_of source.now count i) (tap_of source.now count (i +ℤ pos 1))
        (tap_of source.now count (i +ℤ pos 2)) }
{
    let xm1 = ring::tap(source, count, i - 1);
    let x0 = ring::tap(source, count, i);
    let x1 = ring::tap(source, count, i + 1);
    let x2 = ring::tap(source, count, i + 2);
    weigh(mu, xm1, x0, x1, x2)
}

fn at(source: &[f64], count: u64, position: f64) -> f64
    requires { position_ok position ≡ true }
    ensures { result ≡ cubic_at source.now count position }
{
    let i = integer_part::floor(position);
    let mu = position - (i as f64);
    one_by_one(source, count, i, mu)
}

// Fast path: if the four taps are held side by side they are read without a test for each. Outside the range of
// positions the answer is 0.0.
pub fn read(source: &[f64], count: u64, position: f64) -> f64
    ensures { result ≡ read_of source.now count position }
{
    if ring::position_ok(position) {
        let first = integer_part::floor(position) - 1;
        let s = ring::run_start(source.len(), count, first, 4);
        let p = s.place;
        if s.held {
            if p + 4 <= source.len() {
                return side_by_side(source, p, integer_part::fraction(position));
            }
        }
        return at(source, count, position);
    }
    0.0
}

// N1. A position out of range is refused by 1.
pub fn sample(source: &[f64], count: u64, position: f64) -> Answer
    ensures { result ≡ answer_of (cond (position_ok position) 0 1) (read_of source.now count position) }
{
    if ring::position_ok(position) {
        answer::answered(0, at(source, count, position))
    } else {
        answer::answered(1, 0.0)
    }
}
