// W2. Writes the bytes of samples that fit, the low byte first.
ghost use Rattle.std.specs.Prelude.{◌≡◌, ℕ, ◌*◌, length};
ghost use Rattle.sample_kind.specs.declared.SampleKind.TheVariants.{Float32};
ghost use Rattle.word_bytes.specs.Bytes.{low_bytes};
ghost use Rattle.wav_store.specs.Inner.{AtEach, Computes, Ready, PlainReady, words_of};
ghost use Rattle.wav_store.specs.Storing.{bytes_of};

use crate::floats::{nearest_float, nearest_plain};
use crate::turns::sixteen;
use sample_kind::SampleKind;
use stored_samples::{stored16, stored24};

pub(crate) fn place(kind: SampleKind, samples: &[f64], out: &mut [u8])
    requires { Ready kind samples.now out.old }
    ensures { out.new ≡ bytes_of kind samples.now }
{
    match kind {
        SampleKind::Pcm16 => place_words::<f64, 2, _>(samples, &mut out[..], |x| stored16(x)),
        SampleKind::Pcm24 => place_words::<f64, 3, _>(samples, &mut out[..], |x| stored24(x)),
        SampleKind::Float32 => place_float(samples, &mut out[..]),
    }
}

// The lowest WIDTH bytes of each sample's word.
pub(crate) fn place_words<T: Copy, const WIDTH: usize, F: Fn(T) -> u32>(
    samples: &[T],
    out: &mut [u8],
    word: F,
)
    requires long { length out.old ≡ length samples.now * WIDTH }
    requires callable { AtEach (F.pre word) samples.now }
    ensures { (v : T → ℕ) → Computes (F.post word) v → out.new ≡ words_of WIDTH v samples.now }
{
    // By index, because std does not say what is written through `chunks_exact_mut`.
    for (i, x) in samples.iter().enumerate() {
        let at = i * WIDTH;
        put_low(word(*x), &mut out[at..at + WIDTH]);
    }
}

// Writes the lowest bytes of a word, as many as the slice takes. What word_bytes writes is a u64, which costs a sample
// of 24 bits an instruction more.
fn put_low(w: u32, out: &mut [u8])
    ensures { out.new ≡ low_bytes (length out.old) w }
{
    let mut rest = w;
    for byte in out.iter_mut() {
        *byte = (rest % 256) as u8;
        rest /= 256;
    }
}

// Sixteen samples at a time, and then those that are left.
fn place_float(samples: &[f64], out: &mut [u8])
    requires { Ready Float32 samples.now out.old }
    ensures { out.new ≡ bytes_of Float32 samples.now }
{
    let turns = samples.len() / 16;
    for turn in 0..turns {
        sixteen(samples, turn * 16, &mut out[..]);
    }
    let done = turns * 16;
    place_words::<f64, 4, _>(&samples[done..], &mut out[done * 4..], |x| nearest_float(x));
}

pub(crate) fn place_plain(samples: &[f64], out: &mut [u8])
    requires { PlainReady samples.now out.old }
    ensures { out.new ≡ bytes_of Float32 samples.now }
{
    place_words::<f64, 4, _>(samples, &mut out[..], |x| nearest_plain(x));
}
