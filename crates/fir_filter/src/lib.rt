// 000's PolyphaseUpsampler and DecimatingFir over a lent history: `keep` for what their `new` leaves out, `push` and
// `output` (W11a, W11g).
// The decimating filter has the factor 1 and the phase 0. Where 000 holds a head, the number of pushes is handed in.
#![tactic(auto)]

mod fours; // the four phases of a factor of 4 in one pass
mod pairs; // two phases in one pass
mod sums; // the sum over the lags, as two straight runs
mod tested; // the same without the coefficients of 0.0

ghost use Rattle.std.specs.Prelude.{◌≡◌, ◌+◌, ◌%◌, ◌<◌, length};
ghost use Rattle.fir_filter.specs.Filters.{kept_of, kept_in, pushed, output_of};
ghost use Rattle.fir_filter.specs.Pairs.{two_of, four_of};

// The outputs of a phase and the next one.
#[derive(Drop)]
pub struct Two {
    pub first: f64,
    pub second: f64,
}

// The outputs of the first four phases.
#[derive(Clone, Copy)]
pub struct Four {
    pub first: f64,
    pub second: f64,
    pub third: f64,
    pub fourth: f64,
}

fn kept(coefficient: f64) -> f64
    ensures { result ≡ kept_of coefficient }
{
    if coefficient > 1.0e-15 {
        return coefficient;
    }
    if coefficient < -1.0e-15 {
        return coefficient;
    }
    0.0
}

// Leaves out the coefficients that 000's `new` leaves out: each whose magnitude is not above 1.0e-15 becomes 0.0.
pub fn keep(coefficients: &mut [f64])
    ensures { coefficients.new ≡ kept_in coefficients.old }
{
    for c in coefficients.iter_mut() {
        *c = kept(*c);
    }
}

// The place of the next sample: the head is the number of pushes modulo the length, and it moves before the write.
fn next_place(pushes: u64, len: usize) -> usize
    requires { 0 < len }
    ensures { result ≡ (pushes + 1) % len }
{
    let next = ring::place(pushes, len) + 1;
    if next == len { 0 } else { next }
}

// 000's `push` of a sample that is known to be a number, after a number of pushes. In place of that number its
// remainder by the history's length will do, which saves a division.
pub fn push_number(history: &mut [f64], pushes: u64, input: f64)
    ensures { history.new ≡ pushed history.old pushes input }
{
    if history.len() == 0 {
        return;
    }
    let at = next_place(pushes, history.len());
    history[at] = input;
}

// The same for any sample: a NaN that arose inside a reader goes into the lent history as the one NaN (O3).
pub fn push(history: &mut [f64], pushes: u64, input: f64)
    ensures { history.new ≡ pushed history.old pushes input }
{
    push_number(&mut history[..], pushes, bit_patterns::one_nan(input));
}

// 000's `output` of a phase, after a number of pushes, whose remainder by the history's length will do here too.
// A finite sum over all coefficients met no infinity and no NaN, so that those of 0.0 added nothing to it. Only where
// it is not finite is each coefficient tested. A factor above the number of taps leaves the first lag alone, as that
// number itself does.
pub fn output<'a>(
    coefficients: &'a [f64],
    history: &'a [f64],
    pushes: u64,
    factor: usize,
    phase: usize,
) -> f64
    ensures { result ≡ output_of coefficients.now history.now pushes factor phase }
{
    if history.len() == 0 {
        return 0.0;
    }
    let head = ring::place(pushes, history.len());
    let step = sums::least(factor, coefficients.len());
    let lags = sums::lags(coefficients.len(), history.len(), step, phase);
    let sum = sums::plain(coefficients, history, head, step, phase, lags);
    if magnitude::is_finite(sum) {
        return sum;
    }
    tested::tested(coefficients, history, head, step, phase, lags)
}

// Each phase by itself.
fn singly<'a>(
    coefficients: &'a [f64],
    history: &'a [f64],
    pushes: u64,
    factor: usize,
    phase: usize,
) -> Two
    requires { phase < length coefficients.now }
    ensures { result
        ≡ two_of (output_of coefficients.now history.now pushes factor phase)
        (output_of coefficients.now history.now pushes factor (phase + 1)) }
{
    Two {
        first: output(coefficients, history, pushes, factor, phase),
        second: output(coefficients, history, pushes, factor, phase + 1),
    }
}

// `output` of a phase and the next one. Both phases of a factor of 2 are summed in one pass, which costs less.
pub fn outputs<'a>(
    coefficients: &'a [f64],
    history: &'a [f64],
    pushes: u64,
    factor: usize,
    phase: usize,
) -> Two
    ensures { result
        ≡ two_of (output_of coefficients.now history.now pushes factor phase)
        (output_of coefficients.now history.now pushes factor (phase + 1)) }
{
    if phase >= coefficients.len() {
        return Two {
            first: 0.0,
            second: 0.0,
        };
    }
    if factor != 2 {
        return singly(coefficients, history, pushes, factor, phase);
    }
    if coefficients.len() < 2 {
        return singly(coefficients, history, pushes, factor, phase);
    }
    if history.len() == 0 {
        return singly(coefficients, history, pushes, factor, phase);
    }
    let head = ring::place(pushes, history.len());
    let lags = sums::lags(coefficients.len(), history.len(), 2, phase + 1);
    let both = pairs::two(coefficients, history, head, phase, lags);
    let first = pairs::last(coefficients, history, head, 2, phase, lags, both.first);
    let second = both.second;
    if magnitude::is_finite(first) {
        if magnitude::is_finite(second) {
            return Two {
                first: first,
                second: second,
            };
        }
    }
    singly(coefficients, history, pushes, factor, phase)
}

// The first four phases, each by itself.
fn four_singly<'a>(coefficients: &'a [f64], history: &'a [f64], pushes: u64, factor: usize) -> Four
    ensures { result
        ≡ four_of (output_of coefficients.now history.now pushes factor 0)
        (output_of coefficients.now history.now pushes factor 1)
        (output_of coefficients.now history.now pushes factor 2)
        (output_of coefficients.now history.now pushes factor 3) }
{
    Four {
        first: output(coefficients, history, pushes, factor, 0),
        second: output(coefficients, history, pushes, factor, 1),
        third: output(coefficients, history, pushes, factor, 2),
        fourth: output(coefficients, history, pushes, factor, 3),
    }
}

// `output` of the first four phases. Those of a factor of 4 are summed in one pass, which costs less.
pub fn four_outputs<'a>(
    coefficients: &'a [f64],
    history: &'a [f64],
    pushes: u64,
    factor: usize,
) -> Four
    ensures { result
        ≡ four_of (output_of coefficients.now history.now pushes factor 0)
        (output_of coefficients.now history.now pushes factor 1)
        (output_of coefficients.now history.now pushes factor 2)
        (output_of coefficients.now history.now pushes factor 3) }
{
    if factor != 4 {
        return four_singly(coefficients, history, pushes, factor);
    }
    if coefficients.len() < 4 {
        return four_singly(coefficients, history, pushes, factor);
    }
    if history.len() == 0 {
        return four_singly(coefficients, history, pushes, factor);
    }
    let head = ring::place(pushes, history.len());
    let lags = sums::lags(coefficients.len(), history.len(), 4, 3);
    let all = fours::quads(coefficients, history, head, lags);
    let first = pairs::last(coefficients, history, head, 4, 0, lags, all.first);
    let second = pairs::last(coefficients, history, head, 4, 1, lags, all.second);
    let third = pairs::last(coefficients, history, head, 4, 2, lags, all.third);
    let fourth = all.fourth;
    if magnitude::is_finite(first) {
        if magnitude::is_finite(second) {
            if magnitude::is_finite(third) {
                if magnitude::is_finite(fourth) {
                    return Four {
                        first: first,
                        second: second,
                        third: third,
                        fourth: fourth,
                    };
                }
            }
        }
    }
    four_singly(coefficients, history, pushes, factor)
}
