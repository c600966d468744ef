// W2. The same for a sample that is an f32. The definitions are the same, because they are over floats of any width.
ghost use Rattle.std.specs.Prelude.{◌≡◌};
ghost use Rattle.sample_kind.specs.declared.SampleKind.TheVariants.{Pcm16, Pcm24, Float32};
ghost use Rattle.stored_samples.specs.Stored.{fits_in, word_of};

use magnitude::is_finite_f32;
use refusal_order::both;

pub fn fits16_f32(x: f32) -> bool
    ensures { result ≡ fits_in Pcm16 x }
{
    both(-1.0000152587890625 <= x, x < 0.9999847412109375)
}

// No f32 lies between -1 - 2^-24, the end for an f64, and -1.
pub fn fits24_f32(x: f32) -> bool
    ensures { result ≡ fits_in Pcm24 x }
{
    both(-1.0 <= x, x < 0.999999940395355224609375)
}

pub fn fits_float_f32(x: f32) -> bool
    ensures { result ≡ fits_in Float32 x }
{
    is_finite_f32(x)
}

// As for an f64, with 3 × 2^22: the f32s from 2^23 to 2^24 are the whole numbers.
pub fn stored16_f32(x: f32) -> u32
    ensures { result ≡ word_of Pcm16 x }
{
    if fits16_f32(x) {
        f32::to_bits(x * 32768.0 + 12582912.0) % 0x1_0000
    } else {
        0
    }
}

// An f32 has too few digits for 24 digits and what is added, so the sum is an f64.
pub fn stored24_f32(x: f32) -> u32
    ensures { result ≡ word_of Pcm24 x }
{
    if fits24_f32(x) {
        (f64::to_bits(x as f64 * 8388608.0 + 6755399441055744.0) % 0x100_0000) as u32
    } else {
        0
    }
}

pub fn stored_float_f32(x: f32) -> u32
    ensures { result ≡ word_of Float32 x }
{
    if fits_float_f32(x) {
        f32::to_bits(x)
    } else {
        0
    }
}
