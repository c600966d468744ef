// The original's Lagrange<TAPS> (000) over a slice, a count and a position, with the taps as a number.
#![tactic(auto)]

mod lanes; // the weights, eight at a time
mod sums; // the sum over the taps

ghost use Rattle.std.specs.Prelude.{◌≡◌, ◌&&◌, cond};
ghost use Rattle.answer.specs.Answers.{answer_of};
ghost use Rattle.ring.specs.Places.{position_ok};
ghost use Rattle.lagrange.specs.Kernel.{taps_ok, read_of};

use answer::Answer;

// G5. A number of taps is even and lies from 2 to 16.
pub fn taps_ok(taps: u64) -> bool
    ensures { result ≡ taps_ok taps }
{
    taps <= 16 && 2 <= taps && taps % 2 == 0
}

// G3, G5. Both the taps and the position are in range.
pub fn in_range(position: f64, taps: u64) -> bool
    ensures { result ≡ (taps_ok taps && position_ok position) }
{
    taps_ok(taps) && ring::position_ok(position)
}

// If the taps or the position are out of range the reading is zero.
pub fn read(source: &[f64], count: u64, position: f64, taps: u64) -> f64
    ensures { result ≡ read_of taps source.now count position }
{
    if in_range(position, taps) {
        let base = integer_part::floor(position) - (taps / 2 - 1) as i64;
        let local = position - (base as f64);
        sums::sum(source, count, base, local, taps / 2)
    } else {
        0.0
    }
}

// N1. Taps or a position out of range are refused by 1.
pub fn sample(source: &[f64], count: u64, position: f64, taps: u64) -> Answer
    ensures { result ≡
        answer_of (cond (taps_ok taps && position_ok position) 0 1) (read_of taps source.now count position) }
{
    if in_range(position, taps) {
        answer::answered(0, read(source, count, position, taps))
    } else {
        answer::answered(1, 0.0)
    }
}
