// W2. Sixteen samples at a time, read before they are written, so that a compiler takes several at once. If their
// digits show that all of them are at least 2^-125 they take fewer steps, so that a silence slows down only its own
// blocks.
ghost use Rattle.std.specs.Prelude.{◌≡◌, true, ◌+◌, ◌≤◌, length};
ghost use Rattle.std.proofs.lemmas.List.Edits.{sets};
ghost use Rattle.std.specs.Float.{binary64};
ghost use Rattle.std.specs.Float.Ieee.{to_bits};
ghost use Rattle.sample_kind.specs.declared.SampleKind.TheVariants.{Float32};
ghost use Rattle.stored_samples.specs.Stored.{fits_in, word_of};
ghost use Rattle.word_bytes.specs.Bytes.{low_bytes};
ghost use Rattle.wav_store.specs.Inner.{AtThese, Computes, Placed, Next, PlainFrom, Turn, four};

use crate::floats::{nearest_float, nearest_plain};

pub(crate) fn sixteen(samples: &[f64], i: usize, out: &mut [u8])
    requires { Turn 16 samples.now out.old i }
    ensures { Placed Float32 samples.now out.new (i + 16) }
{
    if every(samples, i) == 0x3c00_0000_0000_0000 {
        sixteen_by(samples, i, &mut out[..], |x| nearest_plain(x));
    } else {
        sixteen_by(samples, i, &mut out[..], |x| nearest_float(x));
    }
}

fn sixteen_by<F: Fn(f64) -> u32>(samples: &[f64], i: usize, out: &mut [u8], nearest: F)
    requires turn { Turn 16 samples.now out.old i }
    requires callable { AtThese (F.pre nearest) samples.now i (i + 16) }
    requires right { Computes (F.post nearest) (word_of Float32) }
    ensures { Placed Float32 samples.now out.new (i + 16) }
{
    four(samples, i, &mut out[..], &nearest);
    four(samples, i + 4, &mut out[..], &nearest);
    four(samples, i + 8, &mut out[..], &nearest);
    four(samples, i + 12, &mut out[..], &nearest);
}

// A sample that fits is not a NaN, so it has a bit pattern.
fn pattern(x: f64) -> u64
    requires { fits_in Float32 x ≡ true }
    ensures { result ≡ to_bits binary64 x }
{
    f64::to_bits(x)
}

// The digits that all sixteen samples have.
fn every(samples: &[f64], i: usize) -> u64
    requires { Next 16 samples.now i }
    ensures { result ≡ four → PlainFrom 16 samples.now i }
{
    let mut all: u64 = 0x3c00_0000_0000_0000;
    for k in 0..16 {
        all &= pattern(samples[i + k]);
    }
    all
}

fn four<F: Fn(f64) -> u32>(samples: &[f64], i: usize, out: &mut [u8], nearest: &F)
    requires turn { Turn 4 samples.now out.old i }
    requires callable { AtThese (F.pre nearest.now) samples.now i (i + 4) }
    requires right { Computes (F.post nearest.now) (word_of Float32) }
    ensures { Placed Float32 samples.now out.new (i + 4) }
{
    let a = nearest(samples[i]);
    let b = nearest(samples[i + 1]);
    let c = nearest(samples[i + 2]);
    let d = nearest(samples[i + 3]);
    let at = i * 4;
    put(at, a, &mut out[..]);
    put(at + 4, b, &mut out[..]);
    put(at + 8, c, &mut out[..]);
    put(at + 12, d, &mut out[..]);
}

fn put(at: usize, w: u32, out: &mut [u8])
    requires { at + 4 ≤ length out.old }
    ensures { out.new ≡ sets out.old at (low_bytes 4 w) }
{
    out[at] = (w % 256) as u8;
    out[at + 1] = (w / 256 % 256) as u8;
    out[at + 2] = (w / 256 / 256 % 256) as u8;
    out[at + 3] = (w / 256 / 256 / 256 % 256) as u8;
}
