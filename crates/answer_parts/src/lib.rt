// What the static libraries' exports share: an answer or an opening taken apart into plain numbers, 0 for no refusal
// (C4).
// Here a sample leaves as a float, so here a NaN gets its one pattern (O3, `bit_patterns::one_nan`).
#![tactic(auto)]

ghost use Rattle.std.specs.Prelude.{◌≡◌};
ghost use Rattle.answer.specs.Answers.{number_of, value_of, number_f32_of, value_f32_of};
ghost use Rattle.variable_delay.specs.Opening as opening;
ghost use Rattle.answer_parts.specs.States.{count_of};

use answer::{Answer, AnswerF32};
use variable_delay::Opened;

pub mod handing; // writes a reader's answer and count through pointers
pub mod values; // the same for the elementary functions and the oscillators

pub fn number(a: Answer) -> u8
    ensures { result ≡ number_of a }
{
    match a {
        Answer::Sample(_) => 0,
        Answer::Refused(k) => k,
    }
}

// The sample, with 0.0 for a refusal and the one NaN for every NaN.
pub fn value(a: Answer) -> f64
    ensures { result ≡ value_of a }
{
    match a {
        Answer::Sample(v) => bit_patterns::one_nan(v),
        Answer::Refused(_) => 0.0,
    }
}

pub fn number_f32(a: AnswerF32) -> u8
    ensures { result ≡ number_f32_of a }
{
    match a {
        AnswerF32::Sample(_) => 0,
        AnswerF32::Refused(k) => k,
    }
}

pub fn value_f32(a: AnswerF32) -> f32
    ensures { result ≡ value_f32_of a }
{
    match a {
        AnswerF32::Sample(v) => bit_patterns::one_nan_f32(v),
        AnswerF32::Refused(_) => 0.0,
    }
}

pub fn opened_number(o: Opened) -> u8
    ensures { result ≡ opening.number_of o }
{
    match o {
        Opened::Reader(_) => 0,
        Opened::Refused(k) => k,
    }
}

// The count of the reader that was opened; if that was refused, the count as it was.
pub fn opened_count(before: u64, o: Opened) -> u64
    ensures { result ≡ count_of before o }
{
    match o {
        Opened::Reader(d) => d.accepted,
        Opened::Refused(_) => before,
    }
}
