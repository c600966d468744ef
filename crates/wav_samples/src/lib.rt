// W1. The samples in the data of a WAVE file: one at a given place, or all of one channel written to a lent slice.
#![tactic(auto)]

ghost use Rattle.std.specs.Prelude.{◌≡◌};
ghost use Rattle.std.specs.Float.{binary32, binary64};
ghost use Rattle.std.specs.Float.Ieee.{of_bits};
ghost use Rattle.wav_samples.specs.Samples.{sample_of};

mod by_frame; // the loop over the frames, into any type
pub mod filling;
mod floats; // floats into f64, a block at a time
mod frames; // all kinds into f64
mod frames_f32; // into f32
mod no_nan; // whether a block of floats holds no NaN
mod places; // the bytes of a sample whose place is known to lie in the part

use little_endian::{three, two};
use sample_kind::SampleKind;
use word_bytes::low_first_u32;

// W1k. The sample whose first byte stands at `at`. Bytes past the end count as 0.
pub fn sample(kind: SampleKind, part: &[u8], at: usize) -> f64
    ensures { result ≡ sample_of binary64 kind part.now at }
{
    match kind {
        SampleKind::Pcm16 => whole_samples::pcm16(two(part, at)),
        SampleKind::Pcm24 => whole_samples::pcm24(three(part, at)),
        SampleKind::Float32 => widened(low_first_u32(part, at)),
    }
}

pub fn sample_f32(kind: SampleKind, part: &[u8], at: usize) -> f32
    ensures { result ≡ sample_of binary32 kind part.now at }
{
    match kind {
        SampleKind::Pcm16 => whole_samples::pcm16_f32(two(part, at)),
        SampleKind::Pcm24 => whole_samples::pcm24_f32(three(part, at)),
        SampleKind::Float32 => bit_patterns::float_of_f32(low_first_u32(part, at)),
    }
}

// The f64 of an f32's pattern: the same number, or the one NaN.
pub(crate) fn widened(n: u32) -> f64
    ensures { result ≡ of_bits binary32 n }
{
    if n % 0x8000_0000 > 0x7f80_0000 {
        return 0.0 / 0.0;
    }
    f32::from_bits(n) as f64
}
