// Whole numbers as words modulo 2^64, where those from 2^63 on stand for the negative ones, and wider numbers by
// halves.

pub fn plus(a: u64, b: u64) -> u64 {
    a.wrapping_add(b)
}

pub fn minus(a: u64, b: u64) -> u64 {
    a.wrapping_sub(b)
}

pub fn times(a: u64, b: u64) -> u64 {
    wrapping_u64::wrapping_mul(a, b)
}

pub fn below_zero(a: u64) -> bool {
    a >= 0x8000_0000_0000_0000
}

pub fn size(a: u64) -> u64 {
    if below_zero(a) { minus(0, a) } else { a }
}

// The number is a * 2^32 + b.
#[derive(Clone, Copy)]
pub struct Wide {
    pub a: u64,
    pub b: u64,
}

// The floor of w / 2^32; the remainder is w % 2^32.
pub fn upper(w: u64) -> u64 {
    let q = w / 0x1_0000_0000;
    if below_zero(w) {
        minus(q, 0x1_0000_0000)
    } else {
        q
    }
}
