// The number by which a call is refused.
ghost use Rattle.std.specs.Prelude.{◌≡◌};
ghost use Rattle.cascaded_delay.specs.Reader.{held_ok, outer_of, due_of};
ghost use Rattle.ring.specs.Length.{length_for};

use super::{CascadedOversampledVariableDelay4x, Lengths};
use kernels::Kernel;
use oversampled_refusals::Outer;
use refusal_order::both;

pub(crate) fn outer(state: CascadedOversampledVariableDelay4x) -> Outer
    ensures { result ≡ outer_of state }
{
    Outer {
        accepted: state.accepted,
        inner: state.inner,
        previous: state.previous,
    }
}

// Whether the histories and the inner ring have their lengths; `needed` is the ring's.
pub(crate) fn held(
    up1: usize,
    up2: usize,
    down2: usize,
    down1: usize,
    ring: usize,
    needed: usize,
) -> bool
    ensures { result ≡ held_ok needed up1 up2 down2 down1 ring }
{
    let ups = both(up1 == 33, up2 == 33);
    let downs = both(down2 == 65, down1 == 129);
    both(both(ups, downs), ring == needed)
}

// N1 to N6, N8. The number of the refusal, in 01's order, 0 for none.
pub fn refusal(
    state: CascadedOversampledVariableDelay4x,
    kernel: Kernel,
    lengths: Lengths,
    input: f64,
    delay: f64,
) -> u8
    ensures { result ≡ due_of kernel state lengths input delay }
{
    let needed = oversampled_delay::inner_length(4, state.maximum, state.margin);
    let no = kernels::refusal(kernel, lengths.table);
    let own = both(needed != 0, no != 1);
    let kept = held(
        lengths.up1,
        lengths.up2,
        lengths.down2,
        lengths.down1,
        lengths.ring,
        needed,
    );
    let filters = both(lengths.halfband == 65, lengths.last == 129);
    let lent = both(both(filters, kept), no != 2);
    oversampled_refusals::refusal(own, lent, 4, outer(state), input, delay)
}
