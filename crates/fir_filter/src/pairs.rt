// A phase of a factor of 2 and the next one summed in one pass, so that each sample is read once for both.
ghost use Rattle.std.specs.Prelude.{◌≡◌, ◌+◌, ◌-◌, ◌%◌, ◌<◌, length};
ghost use Rattle.fir_filter.specs.Runs.{plain_to, run_of, lags_sum, Visits, TwoRuns};
ghost use Rattle.fir_filter.specs.Pairs.{two_of, last_of};

use crate::Two;
use crate::sums::{four, least};

// A run of both phases. What the second one visits is there for the first too. The compiler makes one chain of both;
// four turns at once spare the loop's own instructions.
fn two_run<'a>(
    coefficients: &'a [f64],
    history: &'a [f64],
    index: usize,
    above: usize,
    count: usize,
    first: f64,
    second: f64,
) -> Two
    requires { Visits (length coefficients.now) (length history.now) (index + 1) 2 above count }
    ensures { result
        ≡ two_of
        (run_of plain_to coefficients.now history.now index 2 above first count)
        (run_of plain_to coefficients.now history.now (index + 1) 2 above second count) }
{
    let end = above - count;
    let mut a = first;
    let mut b = second;
    let mut i = index;
    let mut p = above;
    // By hand: a `for` over the blocks of four takes about eight instructions more a call, by callgrind.
    while end + 4 <= p {
        a = four(coefficients, history, i, 2, p, a);
        b = four(coefficients, history, i + 1, 2, p, b);
        p -= 4;
        i += 8;
    }
    // By hand: it goes on from where the blocks stopped, and was measured with them.
    while end < p {
        p -= 1;
        let x = history[p];
        a = a + coefficients[i] * x;
        b = b + coefficients[i + 1] * x;
        i += 2;
    }
    Two {
        first: a,
        second: b,
    }
}

// The sums of both over the lags that both have.
pub(crate) fn two<'a>(
    coefficients: &'a [f64],
    history: &'a [f64],
    head: usize,
    phase: usize,
    lags: usize,
) -> Two
    requires { TwoRuns (length coefficients.now) (length history.now) head 2 (phase + 1) lags }
    ensures { result
        ≡ two_of (lags_sum plain_to coefficients.now history.now head 2 phase lags)
        (lags_sum plain_to coefficients.now history.now head 2 (phase + 1) lags) }
{
    let first = least(lags, head + 1);
    let both = two_run(coefficients, history, phase, head + 1, first, 0.0, 0.0);
    two_run(
        coefficients,
        history,
        phase + first * 2,
        history.len(),
        lags - first,
        both.first,
        both.second,
    )
}

// The place of a lag.
fn place_of(head: usize, lag: usize, len: usize) -> usize
    requires { (head < len) × (lag < len) }
    ensures { result ≡ (head + len - lag) % len }
{
    if lag <= head {
        head - lag
    } else {
        head + (len - lag)
    }
}

// The first phase's sum with one lag more, if it has a coefficient there.
pub(crate) fn last<'a>(
    coefficients: &'a [f64],
    history: &'a [f64],
    head: usize,
    step: usize,
    phase: usize,
    lag: usize,
    sum: f64,
) -> f64
    requires { TwoRuns (length coefficients.now) (length history.now) head step (phase + 1) lag }
    ensures { result ≡ last_of coefficients.now history.now head step phase lag sum }
{
    if lag >= history.len() {
        return sum;
    }
    let i = lag * step + phase;
    if i >= coefficients.len() {
        return sum;
    }
    let p = place_of(head, lag, history.len());
    sum + coefficients[i] * history[p]
}
