// The sum over the lags of a phase. From the head down to place 0, and from the last place down to behind the head, the
// samples stand side by side, so that no tap needs a remainder.
ghost use Rattle.std.specs.Prelude.{◌≡◌, cond, ◌/◌, ◌<◌, leb, length};
ghost use Rattle.fir_filter.specs.Runs.{plain_to, run_of, lags_sum, Lags, Visits, TwoRuns};

// The smaller of two numbers.
pub(crate) fn least(a: usize, b: usize) -> usize
    ensures { result ≡ cond (leb a b) a b }
{
    if a <= b { a } else { b }
}

// A quotient by a factor. The filters' factors are powers of two, so that the compiler shifts.
fn quotient(x: usize, factor: usize) -> usize
    requires { 0 < factor }
    ensures { result ≡ x / factor }
{
    if factor == 1 {
        return x;
    }
    if factor == 2 {
        return x / 2;
    }
    if factor == 4 {
        return x / 4;
    }
    x / factor
}

// How many lags of a phase have a coefficient.
pub(crate) fn lags(taps: usize, len: usize, step: usize, phase: usize) -> usize
    ensures { Lags taps len step phase result }
{
    if phase >= taps {
        return 0;
    }
    if step == 0 {
        return len;
    }
    let last = quotient(taps - 1 - phase, step);
    if last < len { last + 1 } else { len }
}

// Four turns of a run that adds every product.
pub(crate) fn four<'a>(
    coefficients: &'a [f64],
    history: &'a [f64],
    i: usize,
    step: usize,
    p: usize,
    sum: f64,
) -> f64
    requires { Visits (length coefficients.now) (length history.now) i step p 4 }
    ensures { result ≡ run_of plain_to coefficients.now history.now i step p sum 4 }
{
    let j = i + step;
    let k = j + step;
    let l = k + step;
    let a = sum + coefficients[i] * history[p - 1];
    let b = a + coefficients[j] * history[p - 2];
    let c = b + coefficients[k] * history[p - 3];
    c + coefficients[l] * history[p - 4]
}

// A run that adds every product.
fn plain_run<'a>(
    coefficients: &'a [f64],
    history: &'a [f64],
    index: usize,
    step: usize,
    above: usize,
    count: usize,
    start: f64,
) -> f64
    requires { Visits (length coefficients.now) (length history.now) index step above count }
    ensures { result ≡ run_of plain_to coefficients.now history.now index step above start count }
{
    let mut sum = start;
    let mut i = index;
    for p in (above - count..above).rev() {
        sum = sum + coefficients[i] * history[p];
        i += step;
    }
    sum
}

// The same for neighbouring coefficients, which a decimating filter reads. Eight turns at once spare the loop's own
// instructions, and the compiler multiplies two at a time.
fn straight_run<'a>(
    coefficients: &'a [f64],
    history: &'a [f64],
    index: usize,
    above: usize,
    count: usize,
    start: f64,
) -> f64
    requires { Visits (length coefficients.now) (length history.now) index 1 above count }
    ensures { result ≡ run_of plain_to coefficients.now history.now index 1 above start count }
{
    let end = above - count;
    let mut sum = start;
    let mut i = index;
    let mut p = above;
    // By hand: a `for` over the blocks of eight takes about ten instructions more a call, by callgrind.
    while end + 8 <= p {
        let half = four(coefficients, history, i, 1, p, sum);
        sum = four(coefficients, history, i + 4, 1, p - 4, half);
        p -= 8;
        i += 8;
    }
    // By hand: it goes on from where the blocks stopped, and was measured with them.
    while end < p {
        p -= 1;
        sum = sum + coefficients[i] * history[p];
        i += 1;
    }
    sum
}

// The sum over all lags of a decimating filter, with every product.
fn straight<'a>(
    coefficients: &'a [f64],
    history: &'a [f64],
    head: usize,
    phase: usize,
    lags: usize,
) -> f64
    requires { TwoRuns (length coefficients.now) (length history.now) head 1 phase lags }
    ensures { result ≡ lags_sum plain_to coefficients.now history.now head 1 phase lags }
{
    let first = least(lags, head + 1);
    let sum = straight_run(coefficients, history, phase, head + 1, first, 0.0);
    straight_run(
        coefficients,
        history,
        phase + first,
        history.len(),
        lags - first,
        sum,
    )
}

// The sum over all lags that have a coefficient, with every product.
pub(crate) fn plain<'a>(
    coefficients: &'a [f64],
    history: &'a [f64],
    head: usize,
    step: usize,
    phase: usize,
    lags: usize,
) -> f64
    requires { TwoRuns (length coefficients.now) (length history.now) head step phase lags }
    ensures { result ≡ lags_sum plain_to coefficients.now history.now head step phase lags }
{
    if step == 1 {
        return straight(coefficients, history, head, phase, lags);
    }
    let first = least(lags, head + 1);
    let sum = plain_run(coefficients, history, phase, step, head + 1, first, 0.0);
    plain_run(
        coefficients,
        history,
        phase + first * step,
        step,
        history.len(),
        lags - first,
        sum,
    )
}
