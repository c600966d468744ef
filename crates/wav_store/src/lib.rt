// W2. A block of samples as stored bytes. All samples are tested before any is written, so that a refusal writes
// nothing.
#![tactic(auto)]

ghost use Rattle.std.specs.Prelude.{◌≡◌, ◌*◌, eqb, length};
ghost use Rattle.sample_kind.specs.Kinds.{width_of};
ghost use Rattle.wav_store.specs.Storing.{verdict, stored};

mod floats; // the nearest f32 of an f64
mod looking; // whether every sample fits
mod looking_f32;
mod placing; // the bytes of samples that fit
mod placing_f32;
mod turns; // sixteen floats at a time

use refusal_order::both;
use sample_kind::{SampleKind, width};

// Refuses by 2 or 15, or writes the bytes of the samples.
pub fn store(kind: SampleKind, samples: &[f64], out: &mut [u8]) -> u8
    ensures value { result ≡ verdict kind samples.now (length out.old) }
    ensures out_after { out.new ≡ stored kind samples.now out.old }
{
    if whole(kind, samples.len(), out.len()) {
        let seen = looking::seen(kind, samples);
        if seen == 0 {
            return 15;
        }
        if seen == 1 {
            placing::place(kind, samples, &mut out[..]);
            return 0;
        }
        placing::place_plain(samples, &mut out[..]);
        return 0;
    }
    2
}

pub fn store_f32(kind: SampleKind, samples: &[f32], out: &mut [u8]) -> u8
    ensures value { result ≡ verdict kind samples.now (length out.old) }
    ensures out_after { out.new ≡ stored kind samples.now out.old }
{
    if whole(kind, samples.len(), out.len()) {
        if looking_f32::all_fit_f32(kind, samples) {
            placing_f32::place_f32(kind, samples, &mut out[..]);
            return 0;
        }
        return 15;
    }
    2
}

// Whether a slice of `size` bytes is as long as `count` samples. It divides, because a product could overflow.
fn whole(kind: SampleKind, count: usize, size: usize) -> bool
    ensures { result ≡ eqb size (count * width_of kind) }
{
    let wide = width(kind);
    both(size % wide == 0, size / wide == count)
}
