// Sine, cosine and 2^x for C (E2 to E4). Each returns the refusal number, 0 for none, and writes the value (0.0 if
// refused) through a pointer. A second form of each returns the value alone.
ghost use Rattle.std.specs.Prelude.{◌≡◌};
ghost use Rattle.elementary.specs.Answers.{sine_of, cosine_of, exp2_of, refusal_of};
ghost use Rattle.answer_parts.specs.Values.{value_of};

use answer_parts::values::{handed, value};

#[unsafe(no_mangle)]
pub extern "C" fn fugnadri_sine(x: f64, res: &mut f64) -> u8
    ensures value { result ≡ refusal_of (sine_of x) }
    ensures res_after { res.new ≡ value_of (sine_of x) }
{
    handed(elementary::sine(x), res)
}

#[unsafe(no_mangle)]
pub extern "C" fn fugnadri_sine_value(x: f64) -> f64
    ensures { result ≡ value_of (sine_of x) }
{
    value(elementary::sine(x))
}

#[unsafe(no_mangle)]
pub extern "C" fn fugnadri_cosine(x: f64, res: &mut f64) -> u8
    ensures value { result ≡ refusal_of (cosine_of x) }
    ensures res_after { res.new ≡ value_of (cosine_of x) }
{
    handed(elementary::cosine(x), res)
}

#[unsafe(no_mangle)]
pub extern "C" fn fugnadri_cosine_value(x: f64) -> f64
    ensures { result ≡ value_of (cosine_of x) }
{
    value(elementary::cosine(x))
}

#[unsafe(no_mangle)]
pub extern "C" fn fugnadri_exp2(x: f64, res: &mut f64) -> u8
    ensures value { result ≡ refusal_of (exp2_of x) }
    ensures res_after { res.new ≡ value_of (exp2_of x) }
{
    handed(elementary::exp2(x), res)
}

#[unsafe(no_mangle)]
pub extern "C" fn fugnadri_exp2_value(x: f64) -> f64
    ensures { result ≡ value_of (exp2_of x) }
{
    value(elementary::exp2(x))
}
