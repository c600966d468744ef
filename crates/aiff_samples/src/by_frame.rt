// W12. One channel's samples into any type, frame by frame, by functions that say what a stored number is in it. A
// compiler makes a loop of its own for each type, and for each number of bytes of a sample and of a frame, so that it
// can convert several samples at a time.
ghost use Rattle.std.specs.Prelude.{◌≡◌, ℕ, true, length};
ghost use Rattle.high_first.specs.High.{big_number};
ghost use Rattle.sample_kind.specs.declared.SampleKind.{SampleKind};
ghost use Rattle.sample_kind.specs.declared.SampleKind.TheVariants.{Pcm16, Pcm24};
ghost use Rattle.sample_kind.specs.Kinds.{width_of, frame_of};
ghost use Rattle.wav_samples.specs.Samples.{is_pcm};
ghost use Rattle.wav_samples.specs.Filling.{frames_of};
ghost use Rattle.wav_samples.specs.Frames.{Whole, Framed, Gives};

use crate::places::{three_at, three_of_four_at, two_at};
use sample_kind::SampleKind;

// Each call passes the bytes of a frame as a constant.
pub(crate) fn pcm<T: Copy, S: Fn(u32) -> T, L: Fn(u32) -> T>(
    kind: SampleKind,
    channels: u8,
    first: usize,
    part: &[u8],
    out: &mut [T],
    of16: S,
    of24: L,
)
    requires pcm { is_pcm kind ≡ true }
    requires framed { Framed kind channels first (length part.now) (length out.old) }
    requires callable16 { S.IsAlwaysCallable of16 }
    requires callable24 { L.IsAlwaysCallable of24 }
    ensures { (means : SampleKind → ℕ → T) → Gives (S.post of16) (means Pcm16) → Gives (L.post of24) (means Pcm24)
        → out.new
        ≡ frames_of (λ (at : ℕ). means kind (big_number (width_of kind) part.now at)) (frame_of kind channels) first
        (length out.old) }
{
    match kind {
        SampleKind::Pcm16 => {
            if channels == 1 {
                fill_twos(2, first, part, out, of16);
            } else {
                fill_twos(4, first, part, out, of16);
            }
        }
        SampleKind::Pcm24 => {
            if channels == 1 {
                fill_threes(3, first, part, out, of24);
            } else {
                fill_threes(6, first, part, out, of24);
            }
        }
        SampleKind::Float32 => {}
    }
}

fn fill_twos<T: Copy, F: Fn(u32) -> T>(
    frame: usize,
    first: usize,
    part: &[u8],
    out: &mut [T],
    value: F,
)
    requires whole { Whole (length part.now) (length out.old) frame first 2 }
    requires callable { F.IsAlwaysCallable value }
    ensures { (means : ℕ → T) → Gives (F.post value) means
        → out.new ≡ frames_of (λ (at : ℕ). means (big_number 2 part.now at)) frame first (length out.old) }
{
    for (k, sample) in out.iter_mut().enumerate() {
        *sample = value(two_at(part, k * frame + first));
    }
}

// Every sample but the last is followed by a byte of the part, so one load of four bytes can read it.
fn fill_threes<T: Copy, F: Fn(u32) -> T>(
    frame: usize,
    first: usize,
    part: &[u8],
    out: &mut [T],
    value: F,
)
    requires whole { Whole (length part.now) (length out.old) frame first 3 }
    requires callable { F.IsAlwaysCallable value }
    ensures { (means : ℕ → T) → Gives (F.post value) means
        → out.new ≡ frames_of (λ (at : ℕ). means (big_number 3 part.now at)) frame first (length out.old) }
{
    if out.is_empty() {
        return;
    }
    let last = out.len() - 1;
    for k in 0..last {
        out[k] = value(three_of_four_at(part, k * frame + first));
    }
    out[last] = value(three_at(part, last * frame + first));
}
