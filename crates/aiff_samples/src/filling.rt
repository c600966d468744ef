// W12. One channel's samples, frame by frame, written to a lent slice with one place for each frame of the part. A
// float kind, which no AIFF has, is refused by 1.
ghost use Rattle.std.specs.Prelude.{◌≡◌, ℕ, length};
ghost use Rattle.std.specs.Float.{binary32, binary64};
ghost use Rattle.high_first.specs.High.{big_number};
ghost use Rattle.sample_kind.specs.declared.SampleKind.{SampleKind};
ghost use Rattle.sample_kind.specs.declared.SampleKind.TheVariants.{Pcm16, Pcm24};
ghost use Rattle.sample_kind.specs.Kinds.{width_of, frame_of};
ghost use Rattle.wav_samples.specs.Filling.{whole_verdict, frames_of, filled_by};
ghost use Rattle.wav_samples.specs.Frames.{Gives};
ghost use Rattle.aiff_samples.specs.Samples.{filled, filled_whole};

use crate::by_frame::pcm;
use sample_kind::{SampleKind, frame_width};
use wav_samples::filling::whole_refusal;
use whole_samples::{pcm16, pcm16_f32, pcm24, pcm24_f32, whole16, whole24};

pub fn fill(kind: SampleKind, channels: u8, channel: u8, part: &[u8], out: &mut [f64]) -> u8
    ensures value { result ≡ whole_verdict kind channels channel (length part.now) (length out.old) }
    ensures out_after { out.new
        ≡ filled binary64 kind channels channel part.now (length out.old) out.old }
{
    fill_by(kind, channels, channel, part, out, pcm16, pcm24)
}

pub fn fill_f32(kind: SampleKind, channels: u8, channel: u8, part: &[u8], out: &mut [f32]) -> u8
    ensures value { result ≡ whole_verdict kind channels channel (length part.now) (length out.old) }
    ensures out_after { out.new
        ≡ filled binary32 kind channels channel part.now (length out.old) out.old }
{
    fill_by(kind, channels, channel, part, out, pcm16_f32, pcm24_f32)
}

// Samples in units of 2^-23, the unit of the residual and of demand 3: 24 bits are stored as they are, 16 bits are
// multiplied by 256.
pub fn fill_whole(kind: SampleKind, channels: u8, channel: u8, part: &[u8], out: &mut [i32]) -> u8
    ensures value { result ≡ whole_verdict kind channels channel (length part.now) (length out.old) }
    ensures out_after { out.new
        ≡ filled_whole kind channels channel part.now (length out.old) out.old }
{
    fill_by(kind, channels, channel, part, out, whole16, whole24)
}

// The same into any type, by functions that say what a stored number of 16 and of 24 bits is in it.
fn fill_by<T: Copy, S: Fn(u32) -> T, L: Fn(u32) -> T>(
    kind: SampleKind,
    channels: u8,
    channel: u8,
    part: &[u8],
    out: &mut [T],
    of16: S,
    of24: L,
) -> u8
    requires callable16 { S.IsAlwaysCallable of16 }
    requires callable24 { L.IsAlwaysCallable of24 }
    ensures value { result ≡ whole_verdict kind channels channel (length part.now) (length out.old) }
    ensures out_after { (means : SampleKind → ℕ → T)
        → Gives (S.post of16) (means Pcm16) → Gives (L.post of24) (means Pcm24)
        → out.new
        ≡ filled_by (whole_verdict kind channels channel (length part.now) (length out.old))
        (frames_of (λ (at : ℕ). means kind (big_number (width_of kind) part.now at)) (frame_of kind channels)
        (frame_of kind channel) (length out.old))
        out.old }
{
    let refused = whole_refusal(kind, channels, channel, part.len(), out.len());
    if refused != 0 {
        return refused;
    }
    pcm(
        kind,
        channels,
        frame_width(kind, channel),
        part,
        out,
        of16,
        of24,
    );
    0
}
