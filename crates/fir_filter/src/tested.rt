// The sum over the lags of a phase without the coefficients of 0.0, for histories that hold an infinity or a NaN.
ghost use Rattle.std.specs.Prelude.{◌≡◌, length};
ghost use Rattle.fir_filter.specs.Filters.{add_to};
ghost use Rattle.fir_filter.specs.Runs.{run_of, lags_sum, Visits, TwoRuns};

use crate::sums::least;

fn add_to(coefficient: f64, sample: f64, sum: f64) -> f64
    ensures { result ≡ add_to coefficient sample sum }
{
    if coefficient == 0.0 {
        sum
    } else {
        sum + coefficient * sample
    }
}

// A run that leaves out the coefficients of 0.0.
fn tested_run<'a>(
    coefficients: &'a [f64],
    history: &'a [f64],
    index: usize,
    step: usize,
    above: usize,
    count: usize,
    start: f64,
) -> f64
    requires { Visits (length coefficients.now) (length history.now) index step above count }
    ensures { result ≡ run_of add_to coefficients.now history.now index step above start count }
{
    let mut sum = start;
    let mut i = index;
    for p in (above - count..above).rev() {
        sum = add_to(coefficients[i], history[p], sum);
        i += step;
    }
    sum
}

// The two runs.
pub(crate) fn tested<'a>(
    coefficients: &'a [f64],
    history: &'a [f64],
    head: usize,
    step: usize,
    phase: usize,
    lags: usize,
) -> f64
    requires { TwoRuns (length coefficients.now) (length history.now) head step phase lags }
    ensures { result ≡ lags_sum add_to coefficients.now history.now head step phase lags }
{
    let first = least(lags, head + 1);
    let sum = tested_run(coefficients, history, phase, step, head + 1, first, 0.0);
    tested_run(
        coefficients,
        history,
        phase + first * step,
        step,
        history.len(),
        lags - first,
        sum,
    )
}
