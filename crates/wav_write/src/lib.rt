// W2, W10e. Samples written as a WAV file into a lent buffer: RIFF if the file fits it, otherwise RF64 or BW64, up to
// 2^40 bytes of samples. A refusal has a number and leaves the buffer as it was.
#![tactic(auto)]

ghost use Rattle.std.specs.Prelude.{◌≡◌, length};
ghost use Rattle.wav_write.specs.Writing.{answer_of, written};

mod frame; // what stands around the samples
mod narrow_samples; // the same for samples that are f32s

use frame::{early, finish};
use long_header::{Form, header_length_for};
pub use narrow_samples::write_f32;
use sample_kind::{SampleKind, width};

// The length of the written file, or the number of the refusal.
#[derive(Clone, Copy)]
pub enum Written {
    Length(usize),
    Refused(u8),
}

// Refuses by 1, 19, 13, 14 or 15, or writes the file. The samples are written first, because only they can still be
// refused: so each is read once, and a refusal comes before anything is written.
pub fn write(
    form: Form,
    kind: SampleKind,
    channels: u8,
    rate: u32,
    samples: &[f64],
    out: &mut [u8],
) -> Written
    ensures value { result ≡ answer_of kind channels rate samples.now (length out.old) }
    ensures out_after { out.new ≡ written form kind channels rate samples.now out.old }
{
    let count = samples.len();
    let refused = early(kind, channels, rate, count, out.len());
    if refused != 0 {
        return Written::Refused(refused);
    }
    let start = header_length_for(kind, count);
    let end = start + count * width(kind);
    let unfit = wav_store::store(kind, samples, &mut out[start..end]);
    if unfit != 0 {
        return Written::Refused(unfit);
    }
    let length = finish(form, kind, channels, rate, count, &mut out[..]);
    Written::Length(length)
}
