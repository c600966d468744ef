// W2. The same for samples that are f32s.
ghost use Rattle.std.specs.Prelude.{◌≡◌, ◌*◌, length};
ghost use Rattle.sample_kind.specs.Kinds.{width_of};
ghost use Rattle.wav_store.specs.Storing.{bytes_of};

use crate::placing::place_words;
use sample_kind::SampleKind;
use stored_samples::narrow_samples::{stored_float_f32, stored16_f32, stored24_f32};

pub(crate) fn place_f32(kind: SampleKind, samples: &[f32], out: &mut [u8])
    requires { length out.old ≡ length samples.now * width_of kind }
    ensures { out.new ≡ bytes_of kind samples.now }
{
    match kind {
        SampleKind::Pcm16 => place_words::<f32, 2, _>(samples, &mut out[..], |x| stored16_f32(x)),
        SampleKind::Pcm24 => place_words::<f32, 3, _>(samples, &mut out[..], |x| stored24_f32(x)),
        SampleKind::Float32 => place_words::<f32, 4, _>(
            samples,
            &mut out[..],
            |x| stored_float_f32(x),
        ),
    }
}
