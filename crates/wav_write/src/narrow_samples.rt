// W2, W10e. A file of samples that are f32s.
ghost use Rattle.std.specs.Prelude.{◌≡◌, length};
ghost use Rattle.wav_write.specs.Writing.{answer_of, written};

use crate::Written;
use crate::frame::{early, finish};
use long_header::{Form, header_length_for};
use sample_kind::{SampleKind, width};

// Does for f32 samples what `write` does for f64: refuses by 1, 19, 13, 14 or 15, or writes the file.
pub fn write_f32(
    form: Form,
    kind: SampleKind,
    channels: u8,
    rate: u32,
    samples: &[f32],
    out: &mut [u8],
) -> Written
    ensures value { result ≡ answer_of kind channels rate samples.now (length out.old) }
    ensures out_after { out.new ≡ written form kind channels rate samples.now out.old }
{
    let count = samples.len();
    let refused = early(kind, channels, rate, count, out.len());
    if refused != 0 {
        return Written::Refused(refused);
    }
    let start = header_length_for(kind, count);
    let end = start + count * width(kind);
    let unfit = wav_store::store_f32(kind, samples, &mut out[start..end]);
    if unfit != 0 {
        return Written::Refused(unfit);
    }
    let length = finish(form, kind, channels, rate, count, &mut out[..]);
    Written::Length(length)
}
