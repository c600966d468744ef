// How far an answer lies from the exact value: its bits are taken apart, and the two are compared as whole numbers.
use crate::whole::{Wide, below_zero, minus, plus, size, times};

// Distances are counted in units of 1 / (6 * 65536^3 * 2^23); 2^-54 is so many of them.
pub const UNIT: u64 = 786432;

// An answer by its bits: its magnitude in units of 2^-71, and 1 if digits below that were cut off.
#[derive(Clone, Copy)]
struct Given {
    magnitude: Wide,
    cut: u64,
}

// The value d * 2^(e - 1075), from its digits d and its binary exponent e, for a magnitude below 8.
fn taken_apart(d: u64, e: u64) -> Given {
    if e >= 1004 {
        let k = e - 1004;
        let low = wrapping_u64::shl(d % 0x1_0000_0000, k);
        return Given {
            magnitude: Wide {
                a: plus(wrapping_u64::shl(d / 0x1_0000_0000, k), low / 0x1_0000_0000),
                b: low % 0x1_0000_0000,
            },
            cut: 0,
        };
    }
    let k = 1004 - e;
    let w = if k < 64 { d >> k } else { 0 };
    Given {
        magnitude: Wide {
            a: w / 0x1_0000_0000,
            b: w % 0x1_0000_0000,
        },
        cut: u64::from(wrapping_u64::shl(w, k) != d),
    }
}

// How far an answer lies from the exact value, in units of 1 / (6 * 65536^3 * 2^23); up to 6 units more if digits were
// cut off. The largest word means that it lies too far away for a word.
pub fn distance(v: f64, e: Wide) -> u64 {
    let bits = bit_patterns::bits_of(v);
    let exponent = bits / 0x10_0000_0000_0000 % 0x800;
    if exponent >= 1026 {
        return u64::MAX;
    }
    let digits = if exponent == 0 {
        0
    } else {
        bits % 0x10_0000_0000_0000 + 0x10_0000_0000_0000
    };
    let g = taken_apart(digits, exponent);
    let w = g.magnitude;
    let six = if below_zero(bits) { minus(0, 6) } else { 6 };
    let p = minus(times(six, w.a), e.a);
    let q = minus(times(six, w.b), e.b);
    // q is below 2^58, so a larger p is far away, and with a smaller one the sum fits a word.
    if size(p) >= 0x800_0000 {
        return u64::MAX;
    }
    plus(size(plus(times(p, 0x1_0000_0000), q)), times(6, g.cut))
}
