// The four phases of a factor of 4 summed in one pass, so that each sample is read once for all of them.
ghost use Rattle.std.specs.Prelude.{◌≡◌, ◌+◌, length};
ghost use Rattle.fir_filter.specs.Runs.{plain_to, run_of, lags_sum, Visits, TwoRuns};
ghost use Rattle.fir_filter.specs.Pairs.{four_of};

use crate::Four;
use crate::sums::least;

// A run of all four. What the last one visits is there for the others too. The compiler makes two chains of them.
fn quad_run<'a>(
    coefficients: &'a [f64],
    history: &'a [f64],
    index: usize,
    above: usize,
    count: usize,
    start: Four,
) -> Four
    requires { Visits (length coefficients.now) (length history.now) (index + 3) 4 above count }
    ensures { result
        ≡ four_of
        (run_of plain_to coefficients.now history.now index 4 above start.first count)
        (run_of plain_to coefficients.now history.now (index + 1) 4 above start.second count)
        (run_of plain_to coefficients.now history.now (index + 2) 4 above start.third count)
        (run_of plain_to coefficients.now history.now (index + 3) 4 above start.fourth count) }
{
    let mut a = start.first;
    let mut b = start.second;
    let mut c = start.third;
    let mut d = start.fourth;
    let mut i = index;
    for p in (above - count..above).rev() {
        let x = history[p];
        a = a + coefficients[i] * x;
        b = b + coefficients[i + 1] * x;
        c = c + coefficients[i + 2] * x;
        d = d + coefficients[i + 3] * x;
        i += 4;
    }
    Four {
        first: a,
        second: b,
        third: c,
        fourth: d,
    }
}

// The sums of all four over the lags that all have.
pub(crate) fn quads<'a>(
    coefficients: &'a [f64],
    history: &'a [f64],
    head: usize,
    lags: usize,
) -> Four
    requires { TwoRuns (length coefficients.now) (length history.now) head 4 3 lags }
    ensures { result
        ≡ four_of (lags_sum plain_to coefficients.now history.now head 4 0 lags)
        (lags_sum plain_to coefficients.now history.now head 4 1 lags)
        (lags_sum plain_to coefficients.now history.now head 4 2 lags)
        (lags_sum plain_to coefficients.now history.now head 4 3 lags) }
{
    let first = least(lags, head + 1);
    let start = Four {
        first: 0.0,
        second: 0.0,
        third: 0.0,
        fourth: 0.0,
    };
    let all = quad_run(coefficients, history, 0, head + 1, first, start);
    quad_run(
        coefficients,
        history,
        first * 4,
        history.len(),
        lags - first,
        all,
    )
}
