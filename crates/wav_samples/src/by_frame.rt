// W1. One channel's samples into any type, frame by frame, by a function that says what a stored number is in it. A
// compiler makes a loop of its own for each type, and for each number of bytes of a sample and of a frame, so that it
// can convert several samples at a time.
ghost use Rattle.std.specs.Prelude.{◌≡◌, ℕ, ◌+◌, ◌*◌, ◌<◌, ◌≤◌, true, length};
ghost use Rattle.sample_kind.specs.declared.SampleKind.{SampleKind};
ghost use Rattle.sample_kind.specs.declared.SampleKind.TheVariants.{Pcm16, Pcm24};
ghost use Rattle.sample_kind.specs.Kinds.{width_of, frame_of};
ghost use Rattle.wav_format.specs.Format.{number};
ghost use Rattle.wav_samples.specs.Samples.{is_pcm};
ghost use Rattle.wav_samples.specs.Filling.{frames_of};
ghost use Rattle.wav_samples.specs.Frames.{Framed, Within, Gives};

use crate::places::number_at;
use sample_kind::SampleKind;

// Sample k is what `value` gives for the number of WIDTH bytes that stands `first` bytes behind the beginning of frame
// k.
pub(crate) fn fill_by<T: Copy, F: Fn(u32) -> T, const WIDTH: usize>(
    frame: usize,
    first: usize,
    part: &[u8],
    out: &mut [T],
    value: F,
)
    requires width { (2 ≤ WIDTH) × (WIDTH ≤ 4) }
    requires within { Within (length part.now) (length out.old) frame first WIDTH }
    requires callable { (k : ℕ) → k < length out.old → F.pre value (number WIDTH part.now (k * frame + first)) }
    ensures { (means : ℕ → T) → Gives (F.post value) means
        → out.new ≡ frames_of (λ (at : ℕ). means (number WIDTH part.now at)) frame first (length out.old) }
{
    for (k, sample) in out.iter_mut().enumerate() {
        *sample = value(number_at::<WIDTH>(part, k * frame + first));
    }
}

// Samples of 16 and of 24 bits. Each call passes the bytes of a frame as a constant.
pub(crate) fn pcm<T: Copy, S: Fn(u32) -> T, L: Fn(u32) -> T>(
    kind: SampleKind,
    channels: u8,
    first: usize,
    part: &[u8],
    out: &mut [T],
    of16: S,
    of24: L,
)
    requires pcm { is_pcm kind ≡ true }
    requires framed { Framed kind channels first (length part.now) (length out.old) }
    requires callable16 { S.IsAlwaysCallable of16 }
    requires callable24 { L.IsAlwaysCallable of24 }
    ensures { (means : SampleKind → ℕ → T) → Gives (S.post of16) (means Pcm16) → Gives (L.post of24) (means Pcm24)
        → out.new
        ≡ frames_of (λ (at : ℕ). means kind (number (width_of kind) part.now at)) (frame_of kind channels) first
        (length out.old) }
{
    match kind {
        SampleKind::Pcm16 => {
            if channels == 1 {
                fill_by::<_, _, 2>(2, first, part, out, of16);
            } else {
                fill_by::<_, _, 2>(4, first, part, out, of16);
            }
        }
        SampleKind::Pcm24 => {
            if channels == 1 {
                fill_by::<_, _, 3>(3, first, part, out, of24);
            } else {
                fill_by::<_, _, 3>(6, first, part, out, of24);
            }
        }
        SampleKind::Float32 => {}
    }
}
