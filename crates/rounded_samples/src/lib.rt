// W2. Samples as a kind stores them: the place of the first that it cannot hold (15), and samples rounded to whole
// numbers of 24 bits, as the residual compares them.
#![tactic(auto)]

ghost use Rattle.std.specs.Prelude.{◌≡◌, length};
ghost use Rattle.loop_laws.specs.Loops.{list_of};
ghost use Rattle.stored_samples.specs.Stored.{fits_in};
ghost use Rattle.rounded_samples.specs.Rounded.{misfit_in, rounded_of, rounded_at};

use sample_kind::SampleKind;
use stored_samples::narrow_samples::{fits_float_f32, fits16_f32, fits24_f32, stored24_f32};
use whole_samples::whole24;
use woven::sample_at;

// The place of the first sample that does not fit, or the number of samples if all fit.
pub fn first_misfit(kind: SampleKind, samples: &[f32]) -> usize
    ensures { result ≡ misfit_in kind samples.now }
{
    samples
        .iter()
        .position(|x| !fits(kind, *x))
        .unwrap_or(samples.len())
}

fn fits(kind: SampleKind, x: f32) -> bool
    ensures { result ≡ fits_in kind x }
{
    match kind {
        SampleKind::Pcm16 => fits16_f32(x),
        SampleKind::Pcm24 => fits24_f32(x),
        SampleKind::Float32 => fits_float_f32(x),
    }
}

fn rounded(x: f32) -> i32
    ensures { result ≡ rounded_of x }
{
    whole24(stored24_f32(x))
}

// Fills a slice with samples as whole numbers of 24 bits, 0 for one that does not fit or is not there.
pub fn round_off(samples: &[f32], out: &mut [i32])
    ensures { out.new ≡ list_of (rounded_at samples.now) (length out.old) }
{
    for (k, x) in out.iter_mut().enumerate() {
        *x = rounded(sample_at(samples, k));
    }
}
