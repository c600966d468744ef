// The exact value of a call, from the whole samples alone, by the weights of document 01.
use crate::whole::{Wide, below_zero, minus, plus, times, upper};

pub const RING: usize = 64;

// 01's weights for the fraction m / 65536, over 6 * 65536^3.
fn weight(k: u64, m: u64) -> u64 {
    let a = plus(m, 65536);
    let b = minus(m, 65536);
    let c = minus(m, 131072);
    match k {
        0 => minus(0, times(times(m, b), c)),
        1 => times(3, times(times(a, b), c)),
        2 => minus(0, times(3, times(times(a, m), c))),
        _ => times(times(a, m), b),
    }
}

// Sample z of the first `count` samples, 0 if the ring does not hold it. A z below zero has wrapped around and so lies
// above every count.
fn neighbour(told: &[u64], count: u64, z: u64) -> u64 {
    if z >= count || count - z > RING as u64 {
        return 0;
    }
    told.get(z as usize).copied().unwrap_or(0)
}

// Adds one more term s * w, by the halves of w.
fn with(e: Wide, s: u64, w: u64) -> Wide {
    Wide {
        a: plus(e.a, times(s, upper(w))),
        b: plus(e.b, times(s, w % 0x1_0000_0000)),
    }
}

// The exact value at the delay d / 65536 behind the last of `count` samples, in 1 / (6 * 65536^3 * 2^23).
pub fn exact(told: &[u64], count: u64, d: u64) -> Wide {
    let n = minus(times(minus(count, 1), 65536), d);
    let m = n % 65536;
    let q = n / 65536;
    let i = if below_zero(n) {
        minus(q, 0x1_0000_0000_0000)
    } else {
        q
    };
    let first = minus(i, 1);
    (0..4).fold(
        Wide { a: 0, b: 0 },
        |e, k| with(e, neighbour(told, count, plus(first, k)), weight(k, m)),
    )
}
