// W2d. The nearest f32 of an f64, by float operations and without a branch, so that a compiler takes several samples at
// once.
ghost use Rattle.std.specs.Prelude.{◌≡◌, true, cond};
ghost use Rattle.std.specs.Float.Ieee as Ieee;
ghost use Rattle.sample_kind.specs.declared.SampleKind.TheVariants.{Float32};
ghost use Rattle.stored_samples.specs.Stored.{fits_in, word_of};
ghost use Rattle.wav_store.specs.Inner.{least_added, Plain};

// What is added to a sample is at least 3 × 2^-98, because below 2^-126 an f32's last unit is always 2^-149.
fn larger(c: f64) -> f64
    ensures { result ≡ cond (Ieee.lt least_added c) c least_added }
{
    let least = f64::from_bits(0x39e8_0000_0000_0000);
    if least < c { c } else { least }
}

// The exponent field alone is the power of two 2^e at or below |x|, or 0. When c = 3 × 2^(e+28) is added, the sum lies
// where an f64's last unit is 2^(e-23), the f32's: the sum rounds there, a tie to the even one, and c is taken off
// again. A zero has then lost its sign, so x's is put on.
pub(crate) fn nearest_float(x: f64) -> u32
    requires { fits_in Float32 x ≡ true }
    ensures { result ≡ word_of Float32 x }
{
    let b = f64::to_bits(x);
    let power = f64::from_bits(b / 0x10_0000_0000_0000 % 0x800 * 0x10_0000_0000_0000);
    let c = larger(power * 805306368.0);
    let y = x + c - c;
    let sign = b / 0x8000_0000_0000_0000 * 0x8000_0000_0000_0000;
    let n = f64::to_bits(y) % 0x8000_0000_0000_0000 + sign;
    f32::to_bits(f64::from_bits(n) as f32)
}

// The same for a sample of at least 2^-125: what is added is never below the least, and what is left of the sum is not
// zero, so it keeps its sign.
pub(crate) fn nearest_plain(x: f64) -> u32
    requires { Plain x }
    ensures { result ≡ word_of Float32 x }
{
    let b = f64::to_bits(x);
    let c = f64::from_bits(b / 0x10_0000_0000_0000 % 0x800 * 0x10_0000_0000_0000) * 805306368.0;
    f32::to_bits((x + c - c) as f32)
}
