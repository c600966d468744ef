// The number by which a call is refused.
ghost use Rattle.std.specs.Prelude.{◌≡◌, ◌*◌, true, ◌&&◌, if◌then◌else◌};
ghost use Rattle.ring.specs.Length.{settings_ok, length_for};
ghost use Rattle.filter_settings.specs.Ranges.{factor_ok};
ghost use Rattle.oversampled_delay.specs.Reader.{outer_of, due_of};

use super::{Lengths, OversampledVariableDelay};
use kernels::Kernel;
use oversampled_refusals::Outer;
use refusal_order::both;

// The length of the inner ring, or 0 if a setting is out of range. The maximum is tested before it is multiplied.
pub fn inner_length(factor: usize, maximum: usize, margin: usize) -> usize
    ensures { result ≡
        (if factor_ok factor && settings_ok (factor * maximum) margin
        then length_for (factor * maximum) margin else 0) }
{
    if maximum > 0x100_0000 {
        return 0;
    }
    if factor == 2 {
        return ring::length_for(2 * maximum, margin);
    }
    if factor == 4 {
        return ring::length_for(4 * maximum, margin);
    }
    0
}

pub(crate) fn outer(state: OversampledVariableDelay) -> Outer
    ensures { result ≡ outer_of state }
{
    Outer {
        accepted: state.accepted,
        inner: state.inner,
        previous: state.previous,
    }
}

// N1 to N6, N8. The number of the refusal, in 01's order, 0 for none.
pub fn refusal(
    state: OversampledVariableDelay,
    kernel: Kernel,
    lengths: Lengths,
    input: f64,
    delay: f64,
) -> u8
    ensures { result ≡ due_of kernel state lengths input delay }
{
    let needed = inner_length(state.factor, state.maximum, state.margin);
    let history = filter_settings::history_length(state.taps, state.factor);
    let no = kernels::refusal(kernel, lengths.table);
    let own = both(
        both(filter_settings::taps_ok(state.taps), needed != 0),
        no != 1,
    );
    let held = both(
        both(lengths.up == history, lengths.down == state.taps),
        lengths.ring == needed,
    );
    let lent = both(both(lengths.coefficients == state.taps, held), no != 2);
    oversampled_refusals::refusal(own, lent, state.factor, outer(state), input, delay)
}
