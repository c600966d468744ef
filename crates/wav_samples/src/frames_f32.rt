// W1. One channel's samples into f32.
ghost use Rattle.std.specs.Prelude.{◌≡◌, length};
ghost use Rattle.std.specs.Float.{binary32};
ghost use Rattle.sample_kind.specs.Kinds.{frame_of};
ghost use Rattle.wav_samples.specs.Samples.{sample_of};
ghost use Rattle.wav_samples.specs.Filling.{frames_of};
ghost use Rattle.wav_samples.specs.Frames.{Framed};

use crate::by_frame::{fill_by, pcm};
use bit_patterns::float_of_f32;
use sample_kind::SampleKind;
use whole_samples::{pcm16_f32, pcm24_f32};

pub(crate) fn frames(kind: SampleKind, channels: u8, first: usize, part: &[u8], out: &mut [f32])
    requires { Framed kind channels first (length part.now) (length out.old) }
    ensures { out.new
        ≡ frames_of (sample_of binary32 kind part.now) (frame_of kind channels) first
        (length out.old) }
{
    match kind {
        SampleKind::Float32 => {
            if channels == 1 {
                fill_by::<_, _, 4>(4, first, part, out, float_of_f32);
            } else {
                fill_by::<_, _, 4>(8, first, part, out, float_of_f32);
            }
        }
        SampleKind::Pcm16 | SampleKind::Pcm24 => pcm(
            kind, channels, first, part, out, pcm16_f32, pcm24_f32,
        ),
    }
}
