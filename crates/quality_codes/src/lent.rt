// Whether a bank has the length that its sets need. One division of a whole number by a constant is enough; the ceiling
// need not be computed.
ghost use Rattle.std.specs.Prelude.{◌≡◌, true, ◌*◌, ◌^◌, ◌<◌, max, eqb};
ghost use Rattle.magnitude.specs.Bounds.{AtMost};
ghost use Rattle.bank_choice.specs.Rates.{bank_ok, ceiling_of, steps_of};
ghost use Rattle.sinc_bank_f32.specs.Sets.{set_length};

use constants::SET_LENGTH;

// Whether n is the ceiling of x, and at least 1: x lies above n - 1 and is at most n.
fn counted(x: f64, n: u64) -> bool
    requires { AtMost 50 x × (n < 2 ^ 44) }
    ensures { result ≡ true → n ≡ max 1 (ceiling_of x) }
{
    if n <= 1 {
        if 1.0 < x {
            return false;
        }
        return n == 1;
    }
    let k = n - 1;
    if ((k as i64) as f64) < x {
        if ((n as i64) as f64) < x {
            return false;
        }
        return true;
    }
    false
}

pub(crate) fn fits(max_rate: f64, lent: usize) -> bool
    ensures { result ≡ true → (bank_ok max_rate ≡ true) × (eqb lent (steps_of max_rate * set_length) ≡ true) }
{
    let n = lent / SET_LENGTH;
    if n * SET_LENGTH == lent {
        if magnitude::within(max_rate, 1.0, 2.0) {
            return counted((max_rate - 1.0) / 0.02, n as u64);
        }
    }
    false
}
