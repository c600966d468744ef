// The original's partition_point over the sets' rates (T4). The rates are computed and not stored, so a guess is made
// and moved by a step or two either way.
ghost use Rattle.std.specs.Prelude.{◌≡◌, ℕ, ◌<◌, ◌≤◌, true};
ghost use Rattle.bank_choice.specs.Rates.{bank_ok, steps_of};
ghost use Rattle.bank_choice.specs.Choosing.{slower_of, partition_of};

use crate::rates;

// Whether set k, counted from 0, is slower than r.
fn slower(max_rate: f64, steps: usize, r: f64, k: usize) -> bool
    requires { k < steps }
    ensures { result ≡ slower_of max_rate steps r k }
{
    rates::rate(max_rate, steps, k + 1) < r
}

// Some set near the one that is looked for. Whichever it is, the walks below end at the right one.
fn guess(max_rate: f64, steps: usize, r: f64) -> usize
    requires { 0 < steps }
    ensures { result < steps }
{
    let x = integer_part::floor(
        (r - 1.0) * std::num::nearest_u64_to_f64(steps as u64) / (max_rate - 1.0),
    );
    if x < 0 {
        return 0;
    }
    let g = x as usize;
    if g < steps { g } else { steps - 1 }
}

// Goes down from k past the sets that are not slower. The rates grow from set to set, so that every set before the end
// is slower.
fn down(max_rate: f64, steps: usize, r: f64, k: usize) -> usize
    requires { (bank_ok max_rate ≡ true) × (steps ≡ steps_of max_rate) × (k < steps) }
    ensures { (result ≤ k) × ((j : ℕ) → j < result → slower_of max_rate steps r j ≡ true) }
{
    for e in (0..k).rev() {
        if slower(max_rate, steps, r, e) {
            return e + 1;
        }
    }
    0
}

// Goes up from k past the sets that are slower.
fn up(max_rate: f64, steps: usize, r: f64, k: usize) -> usize
    requires { (k ≤ steps) × ((j : ℕ) → j < k → slower_of max_rate steps r j ≡ true) }
    ensures { result ≡ partition_of max_rate steps r }
{
    for e in k..steps {
        if !slower(max_rate, steps, r, e) {
            return e;
        }
    }
    steps
}

// How many sets, counted from the first, are slower than r. Fast path: for a rate near 1 the first set alone decides.
pub(crate) fn among(max_rate: f64, steps: usize, r: f64) -> usize
    requires { (bank_ok max_rate ≡ true) × (steps ≡ steps_of max_rate) }
    ensures { result ≡ partition_of max_rate steps r }
{
    if slower(max_rate, steps, r, 0) {
        up(
            max_rate,
            steps,
            r,
            down(max_rate, steps, r, guess(max_rate, steps, r)),
        )
    } else {
        0
    }
}
