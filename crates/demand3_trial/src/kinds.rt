// The whole samples and delays that are tried: random ones, and ones that look bad for rounding.
use crate::whole::{below_zero, minus, plus, times};

// Knuth's linear congruential generator, of which the upper digits are used.
pub fn next(g: u64) -> u64 {
    plus(times(g, 6364136223846793005), 1442695040888963407)
}

// Whole samples of a kind, in units of 2^-23: any, the two ends, ends and near ends with the signs of the weights, or
// small ones.
pub fn sample(kind: u64, i: usize, g: u64) -> u64 {
    let at = i % 4;
    let up = at == 1 || at == 2;
    match kind {
        0 => minus(g >> 40, 8388608),
        1 => if below_zero(g) {
            8388608
        } else {
            minus(0, 8388608)
        },
        2 => {
            let s = minus(8388608, g >> 54);
            if up { s } else { minus(0, s) }
        }
        _ => minus(g >> 60, 8),
    }
}

// Whole delays of a kind, in units of 2^-16: below four samples, within the ring, about the ring's end, or any.
pub fn delay(kind: u64, g: u64) -> u64 {
    let r = g >> 12;
    match kind {
        0 => r % 262144,
        1 => r % 4194304,
        2 => 3932160 + r % 524288,
        _ => r,
    }
}

pub fn sample_float(s: u64) -> f64 {
    (std::num::nearest_u64_to_f64(plus(s, 8388608)) - 8388608.0) / 8388608.0
}
