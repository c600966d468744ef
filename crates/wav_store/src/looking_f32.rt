// W2e. The same for samples that are f32s.
ghost use Rattle.std.specs.Prelude.{◌≡◌};
ghost use Rattle.wav_store.specs.Storing.{all_fit};

use crate::looking::all_pass;
use sample_kind::SampleKind;
use stored_samples::narrow_samples::{fits_float_f32, fits16_f32, fits24_f32};

pub(crate) fn all_fit_f32(kind: SampleKind, samples: &[f32]) -> bool
    ensures { result ≡ all_fit kind samples.now }
{
    match kind {
        SampleKind::Pcm16 => all_pass(samples, |x| fits16_f32(x)),
        SampleKind::Pcm24 => all_pass(samples, |x| fits24_f32(x)),
        SampleKind::Float32 => all_pass(samples, |x| fits_float_f32(x)),
    }
}
