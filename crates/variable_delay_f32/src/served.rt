// Fast path: true only if the call is not refused. It returns at the first failing test; `refusal` works out the
// number.
ghost use Rattle.std.specs.Prelude.{◌≡◌, true};
ghost use Rattle.variable_delay.specs.Reader.{verdict};

use constants::{LIMIT, LIMIT_F64};
use variable_delay::VariableDelay;

// Whether nothing is refused. A delay between two finite numbers is finite, and an empty ring never has the length that
// settings need.
pub(crate) fn served(
    state: VariableDelay,
    own: bool,
    lent: bool,
    len: usize,
    input: f32,
    delay: f64,
) -> bool
    ensures { result ≡ true → verdict own lent state len input delay ≡ 0 }
{
    if own {
        if lent {
            if state.accepted < LIMIT {
                if delay >= 0.0 {
                    if delay <= LIMIT_F64 {
                        if magnitude::is_finite_f32(input) {
                            if len != 0 {
                                return len == ring::length_for(state.maximum, state.margin);
                            }
                        }
                    }
                }
            }
        }
    }
    false
}
