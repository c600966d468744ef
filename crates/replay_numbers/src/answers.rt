// The function that a letter names, at three words.
use bit_patterns::{bits_of, bits_of_f32, float_of, float_of_f32};
use magnitude::{is_finite, is_finite_f32, within};

// A small letter is a function of f32; a capital one is a function of f64 or of words. No other letter has a function.
pub fn answer(letter: u8, a: u64, b: u64, c: u64) -> Option<u64> {
    match letter {
        b'M' => Some(wrapping_u64::wrapping_mul(a, b)),
        b'S' => Some(wrapping_u64::shl(a, b)),
        b'a'..=b'z' => single(letter, low_half(a), low_half(b), low_half(c)),
        _ => double(letter, float_of(a), float_of(b), float_of(c)),
    }
}

fn double(letter: u8, x: f64, y: f64, z: f64) -> Option<u64> {
    match letter {
        b'B' => Some(bits_of(x)),
        b'C' => Some(bits_of(min_max::clamp(x, y, z))),
        b'E' => Some(u64::from(is_finite(x))),
        b'F' => Some(bits_of(fused64::fused64(x, y, z))),
        b'G' => Some(bits_of(min_max::max(x, y))),
        b'I' => Some(u64::from(within(x, y, z))),
        b'L' => Some(bits_of(min_max::min(x, y))),
        b'N' => Some(wide(narrowing::narrow(x))),
        b'P' => Some(bits_of(integer_part::fraction(x))),
        b'R' => Some(bits_of(square_root::square_root(x))),
        // The number in two's complement.
        b'W' => Some(integer_part::floor(x).cast_unsigned()),
        _ => None,
    }
}

fn single(letter: u8, x: f32, y: f32, z: f32) -> Option<u64> {
    match letter {
        b'b' => Some(wide(x)),
        b'c' => Some(wide(min_max::clamp_f32(x, y, z))),
        b'e' => Some(u64::from(is_finite_f32(x))),
        b'f' => Some(wide(fused32::fused32(x, y, z))),
        b'l' => Some(wide(min_max::min_f32(x, y))),
        _ => None,
    }
}

fn low_half(n: u64) -> f32 {
    float_of_f32((n % 0x1_0000_0000) as u32)
}

fn wide(x: f32) -> u64 {
    u64::from(bits_of_f32(x))
}
