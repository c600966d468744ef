// The direct oversampled reader, with the sums of its absent taps.
ghost use Rattle.std.specs.Prelude.{◌≡◌};
ghost use Rattle.oversampled_delay.specs.Reader.{lent_of};
ghost use Rattle.told_oversampled.specs.Direct.{leaves_told, leaves_once, told_of};
ghost use Rattle.told_oversampled.specs.Reckoned.{phases_accepted};

use crate::Told;
use crate::readings::{Accepted, accepts, start, summed};
use kernels::Kernel;
use oversampled_delay::OversampledVariableDelay;

// Which inner samples of a call were accepted. If all were, as the inner accepted number says, no filter is asked
// again. `up` is the upsampler's history after the call.
fn phases_accepted<'a>(
    all: bool,
    coefficients: &'a [f64],
    up: &'a [f64],
    pushes: u64,
    factor: usize,
) -> Accepted
    ensures { result ≡ phases_accepted all coefficients.now up.now pushes factor }
{
    if all {
        return Accepted {
            first: true,
            second: true,
            third: true,
            fourth: true,
        };
    }
    Accepted {
        first: accepts(coefficients, up, pushes, factor, 0),
        second: accepts(coefficients, up, pushes, factor, 1),
        third: accepts(coefficients, up, pushes, factor, 2),
        fourth: accepts(coefficients, up, pushes, factor, 3),
    }
}

// `oversampled_delay::process_sample`, with the sums over its inner readings.
pub fn oversampled_told<'a>(
    state: OversampledVariableDelay,
    kernel: Kernel,
    table: &'a [f64],
    coefficients: &'a [f64],
    up: &mut [f64],
    down: &mut [f64],
    ring: &mut [f64],
    input: f64,
    delay: f64,
) -> Told
    ensures { leaves_told (leaves_once result.state result.answer up.new down.new
        ring.new) result.absent ≡
        told_of kernel state (lent_of table.now coefficients.now up.old
        down.old ring.old) input delay }
{
    let len = ring.len();
    let p = oversampled_delay::process_sample(
        state,
        kernel,
        table,
        coefficients,
        &mut up[..],
        &mut down[..],
        &mut ring[..],
        input,
        delay,
    );
    let after = p.state;
    let answer = p.answer;
    if after.accepted == state.accepted {
        return Told {
            state: after,
            answer: answer,
            absent: absent_taps::nothing(),
        };
    }
    let all = after.inner == state.inner + state.factor as u64;
    let accepted = phases_accepted(all, coefficients, &up[..], after.accepted, state.factor);
    let from = start(state.accepted, state.previous, delay);
    let absent = summed(
        accepted,
        state.factor,
        state.inner,
        from,
        delay,
        len,
        kernels::taps(kernel),
    );
    Told {
        state: after,
        answer: answer,
        absent: absent,
    }
}
