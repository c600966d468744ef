// T3. How many sets a bank has, and the rate of each.
ghost use Rattle.std.specs.Prelude.{◌≡◌, max, true};
ghost use Rattle.magnitude.specs.Bounds.{AtMost};
ghost use Rattle.bank_choice.specs.Rates.{bank_ok, ceiling_of, steps_of, rate_of, sets_of, set_rate_of};

// The least whole number not below x, at least 1: the floor, and one more if that lies below x.
fn ceiling(x: f64) -> u64
    requires { AtMost 50 x }
    ensures { result ≡ max 1 (ceiling_of x) }
{
    if x > 1.0 {
        let t = integer_part::floor(x) as u64;
        if ((t as i64) as f64) < x {
            return t + 1;
        }
        return t;
    }
    1
}

fn sets(max_rate: f64) -> usize
    requires { bank_ok max_rate ≡ true }
    ensures { result ≡ steps_of max_rate }
{
    ceiling((max_rate - 1.0) / 0.02) as usize
}

// T3. How many sets a bank has; 0 if its rate is out of range.
pub fn steps(max_rate: f64) -> usize
    ensures { result ≡ sets_of max_rate }
{
    if magnitude::within(max_rate, 1.0, 2.0) {
        sets(max_rate)
    } else {
        0
    }
}

// The rate of set i, counted from 1.
pub fn rate(max_rate: f64, steps: usize, i: usize) -> f64
    ensures { result ≡ rate_of max_rate steps i }
{
    1.0 + (max_rate - 1.0) * std::num::nearest_u64_to_f64(i as u64)
        / std::num::nearest_u64_to_f64(steps as u64)
}

// T3. The rate of a set, counted from 0; zero if there is no such set.
pub fn set_rate(max_rate: f64, set: usize) -> f64
    ensures { result ≡ set_rate_of max_rate set }
{
    let n = steps(max_rate);
    if set < n {
        rate(max_rate, n, set + 1)
    } else {
        0.0
    }
}
