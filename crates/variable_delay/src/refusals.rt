// The number by which a call is refused, and a quicker test for a call that is not.
ghost use Rattle.std.specs.Prelude.{◌≡◌, ◌&&◌, eqb};
ghost use Rattle.variable_delay.specs.Reader.{verdict};
ghost use Rattle.variable_delay.specs.Inner.{due_of};

use super::VariableDelay;
use constants::{LIMIT, LIMIT_F64};
use refusal_order::both;

// N1 to N6, N8. The number of the refusal, in 01's order, 0 for none.
pub fn refusal(
    state: VariableDelay,
    own: bool,
    lent: bool,
    len: usize,
    input: f64,
    delay: f64,
) -> u8
    ensures { result ≡ verdict own lent state len input delay }
{
    let needed = ring::length_for(state.maximum, state.margin);
    due(needed, own, lent, len, state.accepted, input, delay)
}

// The same from the length that the settings need, which is 0 if they are out of range.
pub(crate) fn due(
    needed: usize,
    own: bool,
    lent: bool,
    len: usize,
    accepted: u64,
    input: f64,
    delay: f64,
) -> u8
    ensures { result ≡ due_of needed own lent len accepted input delay }
{
    let t1 = both(needed != 0, own);
    let t2 = both(len == needed, lent);
    let t3 = accepted <= LIMIT;
    let t4 = magnitude::is_finite(input);
    let t5 = both(magnitude::is_finite(delay), delay >= 0.0);
    let t6 = delay <= LIMIT_F64;
    let t8 = accepted < LIMIT;
    answer::first(t1, t2, t3, t4, t5, t6, true, t8)
}

// Whether nothing is refused, by fewer tests: a delay from 0 to 2^36 is finite, and a count below 2^36 is in range.
pub(crate) fn passes(
    needed: usize,
    own: bool,
    lent: bool,
    len: usize,
    accepted: u64,
    input: f64,
    delay: f64,
) -> bool
    ensures { result ≡ eqb (due_of needed own lent len accepted input delay) 0 }
{
    let t1 = both(needed != 0, own);
    let t2 = both(len == needed, lent);
    let t4 = both(
        magnitude::is_finite(input),
        magnitude::within(delay, 0.0, LIMIT_F64),
    );
    both(both(t1, t2), both(accepted < LIMIT, t4))
}
