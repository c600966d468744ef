// W2. One sample rounded to its stored digits, and whether it fits. Nothing is clipped: a sample that does not fit has
// no digits, and its word is 0.
#![tactic(auto)]

ghost use Rattle.std.specs.Prelude.{◌≡◌};
ghost use Rattle.sample_kind.specs.declared.SampleKind.TheVariants.{Pcm16, Pcm24, Float32};
ghost use Rattle.stored_samples.specs.Stored.{fits_in, word_of};

use refusal_order::both;

pub mod narrow_samples;

// In units of 2^-15 the ends are -32768.5, a tie that goes to the even -32768 and fits, and 32767.5, a tie that goes to
// 32768 and does not. A NaN passes neither test.
pub fn fits16(x: f64) -> bool
    ensures { result ≡ fits_in Pcm16 x }
{
    both(-1.0000152587890625 <= x, x < 0.9999847412109375)
}

// The same ends in units of 2^-23: -8388608.5 and 8388607.5.
pub fn fits24(x: f64) -> bool
    ensures { result ≡ fits_in Pcm24 x }
{
    both(
        -1.000000059604644775390625 <= x,
        x < 0.999999940395355224609375,
    )
}

// 2^128 - 2^103 is the midpoint above the largest f32: from there on the nearest f32 is an infinity.
pub fn fits_float(x: f64) -> bool
    ensures { result ≡ fits_in Float32 x }
{
    both(
        -340282356779733661637539395458142568448.0 < x,
        x < 340282356779733661637539395458142568448.0,
    )
}

// The product x × 2^15 is exact, and adding 3 × 2^51 brings it to where the f64s are the whole numbers, so the sum
// rounds to the nearest, a tie to the even one. Its last digits are the stored ones, in two's complement, since 2^51 is
// a multiple of 2^16.
pub fn stored16(x: f64) -> u32
    ensures { result ≡ word_of Pcm16 x }
{
    if fits16(x) {
        (f64::to_bits(x * 32768.0 + 6755399441055744.0) % 0x1_0000) as u32
    } else {
        0
    }
}

pub fn stored24(x: f64) -> u32
    ensures { result ≡ word_of Pcm24 x }
{
    if fits24(x) {
        (f64::to_bits(x * 8388608.0 + 6755399441055744.0) % 0x100_0000) as u32
    } else {
        0
    }
}

pub fn stored_float(x: f64) -> u32
    ensures { result ≡ word_of Float32 x }
{
    if fits_float(x) {
        f32::to_bits(narrowing::narrow(x))
    } else {
        0
    }
}
