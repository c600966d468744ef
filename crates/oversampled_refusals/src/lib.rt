// What an oversampled reader refuses, whatever its filters are: 01's numbers in 01's order, with the limits of Wish 11
// (W11h).
#![tactic(auto)]

ghost use Rattle.std.specs.Prelude.{◌≡◌, true, ◌&&◌, ◌*◌, ◌≤◌, eqb, leb, ltb};
ghost use Rattle.filter_settings.specs.Ranges.{factor_ok};
ghost use Rattle.oversampled_refusals.specs.Outer.{outer_limit, counts_ok, verdict, reset_verdict};

use refusal_order::both;

// 2^34: the largest number of outer samples and the largest outer delay, so that four times either is at most 2^36.
pub const OUTER_LIMIT: u64 = 17179869184;

pub const OUTER_LIMIT_F64: f64 = 17179869184.0;

// What a state holds beside its settings: both accepted numbers and the delay of the last accepted call.
#[derive(Clone, Copy)]
pub struct Outer {
    pub accepted: u64,
    pub inner: u64,
    pub previous: f64,
}

// The inner number is at most the factor times the outer one, which is small enough for the product.
fn inner_ok(factor: usize, accepted: u64, inner: u64) -> bool
    requires { accepted ≤ outer_limit }
    ensures { factor_ok factor ≡ true → result ≡ leb inner (factor * accepted) }
{
    if factor == 2 {
        return inner <= 2 * accepted;
    }
    inner <= 4 * accepted
}

// The two numbers are in range.
fn counts_ok(factor: usize, accepted: u64, inner: u64) -> bool
    ensures { factor_ok factor ≡ true → result ≡ counts_ok factor accepted inner }
{
    if accepted <= OUTER_LIMIT {
        return inner_ok(factor, accepted, inner);
    }
    false
}

// They are in range, and the reader is not full: one test of the outer number serves both.
fn counts_pass(factor: usize, accepted: u64, inner: u64) -> bool
    ensures { factor_ok factor ≡ true → result ≡ (counts_ok factor accepted inner && ltb accepted outer_limit) }
{
    if accepted < OUTER_LIMIT {
        return inner_ok(factor, accepted, inner);
    }
    false
}

// Fast path: whether no refusal is due, by fewer tests. A delay from 0 to 2^34 is finite.
fn passes(own: bool, lent: bool, factor: usize, outer: Outer, input: f64, delay: f64) -> bool
    ensures { result ≡ eqb (verdict own lent factor outer input delay) 0 }
{
    let t1 = both(filter_settings::factor_ok(factor), own);
    let t3 = both(
        counts_pass(factor, outer.accepted, outer.inner),
        magnitude::within(outer.previous, 0.0, OUTER_LIMIT_F64),
    );
    let t4 = both(
        magnitude::is_finite(input),
        magnitude::within(delay, 0.0, OUTER_LIMIT_F64),
    );
    both(both(t1, lent), both(t3, t4))
}

// The number of the refusal, 0 for none. `own` says that the other settings are in range, `lent` that every lent slice
// has its length.
pub fn refusal(own: bool, lent: bool, factor: usize, outer: Outer, input: f64, delay: f64) -> u8
    ensures { result ≡ verdict own lent factor outer input delay }
{
    if passes(own, lent, factor, outer, input, delay) {
        return 0;
    }
    let t1 = both(filter_settings::factor_ok(factor), own);
    let t3 = both(
        counts_ok(factor, outer.accepted, outer.inner),
        magnitude::within(outer.previous, 0.0, OUTER_LIMIT_F64),
    );
    let t4 = magnitude::is_finite(input);
    let t5 = both(magnitude::is_finite(delay), delay >= 0.0);
    let t6 = delay <= OUTER_LIMIT_F64;
    let t8 = outer.accepted < OUTER_LIMIT;
    answer::first(t1, lent, t3, t4, t5, t6, true, t8)
}

// The same for a reset, which has no input and no delay. A full reader may be reset.
pub fn reset_refusal(own: bool, lent: bool, factor: usize, outer: Outer) -> u8
    ensures { result ≡ reset_verdict own lent factor outer }
{
    let t1 = both(filter_settings::factor_ok(factor), own);
    let t3 = both(
        counts_ok(factor, outer.accepted, outer.inner),
        magnitude::within(outer.previous, 0.0, OUTER_LIMIT_F64),
    );
    answer::first(t1, lent, t3, true, true, true, true, true)
}
