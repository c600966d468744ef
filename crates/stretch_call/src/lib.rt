// What a whole stretch tests (W3): 1 to 3 once, before its first item, and 4 to 8 at each item. It holds for the
// readers of every kernel in both widths, whose state is a VariableDelay.
#![tactic(auto)]

ghost use Rattle.std.specs.Prelude.{◌≡◌, eqb};
ghost use Rattle.stretch_call.specs.Items.{before_items, item_due};

use constants::{LIMIT, LIMIT_F64};
use refusal_order::both;
use variable_delay::VariableDelay;

// The state after a stretch, the number of items done, and the number of the refusal that ended it, 0 for none.
#[derive(Drop)]
pub struct StretchAnswer {
    pub state: VariableDelay,
    pub done: usize,
    pub refusal: u8,
}

// W3c. The refusal before the first item, 0 for none. `own` and `lent` are the tests of the kernel's own settings and
// of its lent table; the others are the lengths of the ring and of the stretch.
pub fn refused_first(
    state: VariableDelay,
    own: bool,
    lent: bool,
    len: usize,
    inputs: usize,
    delays: usize,
    out: usize,
) -> u8
    ensures { result ≡ before_items own lent state len inputs delays out }
{
    let needed = ring::length_for(state.maximum, state.margin);
    let t1 = both(needed != 0, own);
    let fits = both(len == needed, lent);
    let t2 = both(fits, both(delays == inputs, out == inputs));
    let t3 = state.accepted <= LIMIT;
    answer::first(t1, t2, t3, true, true, true, true, true)
}

// Whether an item is accepted, by fewer tests than there are numbers: a delay from 0 to 2^36 is finite.
pub fn passes(accepted: u64, input: f64, delay: f64) -> bool
    ensures { result ≡ eqb (item_due accepted input delay) 0 }
{
    let fine = both(
        magnitude::is_finite(input),
        magnitude::within(delay, 0.0, LIMIT_F64),
    );
    both(accepted < LIMIT, fine)
}

// The refusal of an item, in 01's order, 0 for none.
pub fn due(accepted: u64, input: f64, delay: f64) -> u8
    ensures { result ≡ item_due accepted input delay }
{
    let t4 = magnitude::is_finite(input);
    let t5 = both(magnitude::is_finite(delay), delay >= 0.0);
    let t6 = delay <= LIMIT_F64;
    let t8 = accepted < LIMIT;
    answer::first(true, true, true, t4, t5, t6, true, t8)
}
