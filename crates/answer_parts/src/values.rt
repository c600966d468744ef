// Takes an answer of the elementary functions or the oscillators apart: the refusal number, 0 for none, and the value,
// 0.0 if refused (C4).
ghost use Rattle.std.specs.Prelude.{◌≡◌};
ghost use Rattle.refusal.specs.Numbers.{refusal_of};
ghost use Rattle.answer_parts.specs.Values.{value_of};

use refusal::Refusal;

pub fn value(a: Result<f64, Refusal>) -> f64
    ensures { result ≡ value_of a }
{
    a.unwrap_or(0.0)
}

// Writes the value through a pointer and returns the refusal number, 0 for none.
pub fn handed(a: Result<f64, Refusal>, res: &mut f64) -> u8
    ensures value { result ≡ refusal_of a }
    ensures res_after { res.new ≡ value_of a }
{
    *res = value(a);
    refusal::number_of(&a)
}
