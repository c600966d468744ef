// W1. One channel's samples into f64.
ghost use Rattle.std.specs.Prelude.{◌≡◌, length};
ghost use Rattle.std.specs.Float.{binary64};
ghost use Rattle.sample_kind.specs.Kinds.{frame_of};
ghost use Rattle.wav_samples.specs.Samples.{sample_of};
ghost use Rattle.wav_samples.specs.Filling.{frames_of};
ghost use Rattle.wav_samples.specs.Frames.{Framed};

use crate::by_frame::pcm;
use crate::floats::{of_one, of_two};
use sample_kind::SampleKind;
use whole_samples::{pcm16, pcm24};

pub(crate) fn frames(kind: SampleKind, channels: u8, first: usize, part: &[u8], out: &mut [f64])
    requires { Framed kind channels first (length part.now) (length out.old) }
    ensures { out.new
        ≡ frames_of (sample_of binary64 kind part.now) (frame_of kind channels) first
        (length out.old) }
{
    match kind {
        SampleKind::Float32 => {
            if channels == 1 {
                of_one(first, part, out);
            } else {
                of_two(first, part, out);
            }
        }
        SampleKind::Pcm16 | SampleKind::Pcm24 => pcm(
            kind, channels, first, part, out, pcm16, pcm24,
        ),
    }
}
