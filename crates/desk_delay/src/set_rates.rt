// T3. The rates of a bank's sets, for a caller that has counted the sets: bank_choice's `set_rate` counts them anew at
// each call, and a desk's call needs two rates.
ghost use Rattle.std.specs.Prelude.{◌≡◌};
ghost use Rattle.bank_choice.specs.Rates.{rate_of, sets_of, set_rate_of};

fn rate(max_rate: f64, steps: usize, i: usize) -> f64
    ensures { result ≡ rate_of max_rate steps i }
{
    1.0 + (max_rate - 1.0) * std::num::nearest_u64_to_f64(i as u64)
        / std::num::nearest_u64_to_f64(steps as u64)
}

pub(crate) fn set_rate(max_rate: f64, n: usize, set: usize) -> f64
    requires { n ≡ sets_of max_rate }
    ensures { result ≡ set_rate_of max_rate set }
{
    if set < n {
        rate(max_rate, n, set + 1)
    } else {
        0.0
    }
}
