// W2e. Every sample is tested, without an early exit, so that a compiler takes several at once.
ghost use Rattle.std.specs.Prelude.{◌≡◌, Bool, cond};
ghost use Rattle.std.specs.Float.Ieee as Ieee;
ghost use Rattle.std.specs.List.{list_all};
ghost use Rattle.sample_kind.specs.declared.SampleKind.TheVariants.{Float32};
ghost use Rattle.wav_store.specs.Inner.{Computes, Seen, Tells, two};

use refusal_order::both;
use sample_kind::SampleKind;
use stored_samples::{fits_float, fits16, fits24};

// 0 if some sample does not fit; 1 if all do; 2 if they are to be stored as floats and their digits show that all are
// at least 2^-125, so that storing them takes fewer steps.
pub(crate) fn seen(kind: SampleKind, samples: &[f64]) -> u8
    ensures { Seen kind samples.now result }
{
    match kind {
        SampleKind::Pcm16 => number(all_pass(samples, |x| fits16(x))),
        SampleKind::Pcm24 => number(all_pass(samples, |x| fits24(x))),
        SampleKind::Float32 => seen_float(samples),
    }
}

fn number(ok: bool) -> u8
    ensures { result ≡ cond ok 1 0 }
{
    if ok { 1 } else { 0 }
}

// Whether all samples pass a test.
pub(crate) fn all_pass<T: Copy, F: Fn(T) -> bool>(samples: &[T], passes: F) -> bool
    requires { F.IsAlwaysCallable passes }
    ensures { (test : T → Bool) → Computes (F.post passes) test → result ≡ list_all test samples.now }
{
    samples.iter().fold(true, |ok, x| both(ok, passes(*x)))
}

// A NaN becomes 2, because it is not less than 2.
fn below_two(x: f64) -> f64
    ensures { result ≡ cond (Ieee.lt x two) x two }
{
    if x < 2.0 { x } else { 2.0 }
}

fn cut(x: f64) -> u64
    ensures { Tells x result }
{
    f64::to_bits(below_two(x))
}

// `some` has the digits that any sample has, `every` those that all have. For a magnitude below 2 the exponent's first
// digit is 0, and from 2^-63 on the next four are 1. So one pass shows that most blocks fit and are large enough; the
// others are tested again.
fn seen_float(samples: &[f64]) -> u8
    ensures { Seen Float32 samples.now result }
{
    let mut some: u64 = 0;
    let mut every: u64 = 0x3c00_0000_0000_0000;
    for x in samples {
        let b = cut(*x);
        some |= b;
        every &= b;
    }
    if some / 0x4000_0000_0000_0000 % 2 == 0 {
        if every == 0x3c00_0000_0000_0000 {
            return 2;
        }
        return 1;
    }
    number(all_pass(samples, |x| fits_float(x)))
}
