// W1. One channel's samples, frame by frame, written to a lent slice with one place for each frame of the part.
ghost use Rattle.std.specs.Prelude.{◌≡◌, length};
ghost use Rattle.std.specs.Float.{binary32, binary64};
ghost use Rattle.wav_samples.specs.Filling.{refused_by, verdict, whole_verdict, filled, filled_whole};
ghost use Rattle.wav_samples.specs.Samples.{is_pcm};

use crate::{by_frame, frames, frames_f32};
use sample_kind::{SampleKind, frame_width};
use whole_samples::{whole16, whole24};

pub fn fill(kind: SampleKind, channels: u8, channel: u8, part: &[u8], out: &mut [f64]) -> u8
    ensures value { result ≡ verdict kind channels channel (length part.now) (length out.old) }
    ensures out_after { out.new
        ≡ filled binary64 kind channels channel part.now (length out.old) out.old }
{
    let refused = refusal(true, kind, channels, channel, part.len(), out.len());
    if refused != 0 {
        return refused;
    }
    frames::frames(kind, channels, frame_width(kind, channel), part, out);
    0
}

pub fn fill_f32(kind: SampleKind, channels: u8, channel: u8, part: &[u8], out: &mut [f32]) -> u8
    ensures value { result ≡ verdict kind channels channel (length part.now) (length out.old) }
    ensures out_after { out.new
        ≡ filled binary32 kind channels channel part.now (length out.old) out.old }
{
    let refused = refusal(true, kind, channels, channel, part.len(), out.len());
    if refused != 0 {
        return refused;
    }
    frames_f32::frames(kind, channels, frame_width(kind, channel), part, out);
    0
}

// W1e. Samples in units of 2^-23, the unit of the residual and of demand 3: 24 bits are stored as they are, 16 bits are
// multiplied by 256. Float samples are refused, because they are no whole numbers.
pub fn fill_whole(kind: SampleKind, channels: u8, channel: u8, part: &[u8], out: &mut [i32]) -> u8
    ensures value { result ≡ whole_verdict kind channels channel (length part.now) (length out.old) }
    ensures out_after { out.new
        ≡ filled_whole kind channels channel part.now (length out.old) out.old }
{
    let refused = refusal(is_pcm(kind), kind, channels, channel, part.len(), out.len());
    if refused != 0 {
        return refused;
    }
    by_frame::pcm(
        kind,
        channels,
        frame_width(kind, channel),
        part,
        out,
        whole16,
        whole24,
    );
    0
}

// The refusal when whole numbers are wanted, or floats from a layout that stores only PCM.
pub fn whole_refusal(kind: SampleKind, channels: u8, channel: u8, size: usize, n: usize) -> u8
    ensures { result ≡ whole_verdict kind channels channel size n }
{
    refusal(is_pcm(kind), kind, channels, channel, size, n)
}

fn is_pcm(kind: SampleKind) -> bool
    ensures { result ≡ is_pcm kind }
{
    match kind {
        SampleKind::Pcm16 => true,
        SampleKind::Pcm24 => true,
        SampleKind::Float32 => false,
    }
}

fn refusal(asked: bool, kind: SampleKind, channels: u8, channel: u8, size: usize, n: usize) -> u8
    ensures { result ≡ refused_by asked kind channels channel size n }
{
    if !asked {
        return 1;
    }
    if channels > 2 {
        return 1;
    }
    if channel >= channels {
        return 1;
    }
    let frame = frame_width(kind, channels);
    if size % frame != 0 {
        return 2;
    }
    if size / frame != n {
        return 2;
    }
    0
}
