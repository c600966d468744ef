// C4, O3. Writes a reader's sample and count through pointers.
ghost use Rattle.std.specs.Prelude.{◌≡◌};
ghost use Rattle.answer.specs.Answers.{number_of, value_of, number_f32_of, value_f32_of};

use answer::{Answer, AnswerF32};

// Writes the sample, then the count, then the one NaN's pattern if the sample is a NaN. Because the store of the count
// stands in between, the compiler jumps over the last store if the sample is a number (two instructions); otherwise it
// would select between two floats in six.
pub fn put(y: f64, count: u64, accepted: &mut u64, sample: &mut f64)
    ensures sample_after { sample.new ≡ y }
    ensures accepted_after { accepted.new ≡ count }
{
    *sample = y;
    *accepted = count;
    if y != y {
        *sample = bit_patterns::one_nan(y);
    }
}

// The same for a reader's answer; returns the refusal number, 0 for none.
pub fn handed(a: Answer, count: u64, accepted: &mut u64, sample: &mut f64) -> u8
    ensures value { result ≡ number_of a }
    ensures sample_after { sample.new ≡ value_of a }
    ensures accepted_after { accepted.new ≡ count }
{
    match a {
        Answer::Sample(y) => {
            put(y, count, accepted, sample);
            0
        }
        Answer::Refused(k) => {
            *sample = 0.0;
            *accepted = count;
            k
        }
    }
}

pub fn put_f32(y: f32, count: u64, accepted: &mut u64, sample: &mut f32)
    ensures sample_after { sample.new ≡ y }
    ensures accepted_after { accepted.new ≡ count }
{
    *sample = y;
    *accepted = count;
    if y != y {
        *sample = bit_patterns::one_nan_f32(y);
    }
}

pub fn handed_f32(a: AnswerF32, count: u64, accepted: &mut u64, sample: &mut f32) -> u8
    ensures value { result ≡ number_f32_of a }
    ensures sample_after { sample.new ≡ value_f32_of a }
    ensures accepted_after { accepted.new ≡ count }
{
    match a {
        AnswerF32::Sample(y) => {
            put_f32(y, count, accepted, sample);
            0
        }
        AnswerF32::Refused(k) => {
            *sample = 0.0;
            *accepted = count;
            k
        }
    }
}
