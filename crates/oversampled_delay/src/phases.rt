// The phases of an accepted call: at each the inner reader takes one sample and gives one.
ghost use Rattle.std.specs.Prelude.{◌≡◌, ◌+◌, ◌<◌, length};
ghost use Rattle.fir_filter.specs.Filters.{output_of};
ghost use Rattle.high_delay.specs.Between.{num, high_delay};
ghost use Rattle.kernels.specs.Kernels.{read_by};
ghost use Rattle.oversampled_delay.specs.Phases.{Ready, inner_of, turn_of, high_of, phase_of, phases_of};
ghost use Rattle.oversampled_delay.specs.Inside.{OnlyFour, Tested};
ghost use Rattle.oversampled_delay.specs.Upsampled.{of_phase, Upsampled};

use super::{OversampledVariableDelay, inside};
use fir_filter::Four;
use kernels::Kernel;
use variable_delay::VariableDelay;

// What the upsampler gives at a phase, of the four that it gave at once.
fn of_phase(four: Four, k: usize) -> f64
    ensures { result ≡ of_phase four k }
{
    match k {
        0 => four.first,
        1 => four.second,
        2 => four.third,
        _ => four.fourth,
    }
}

// What the upsampler gives at all phases of a factor of up to 4, in one pass where the factor is 2 or 4.
fn upsampled<'a>(coefficients: &'a [f64], up: &'a [f64], pushes: u64, factor: usize) -> Four
    ensures { Upsampled coefficients.now up.now pushes factor result }
{
    if factor == 2 {
        let two = fir_filter::outputs(coefficients, up, pushes, 2, 0);
        return Four {
            first: two.first,
            second: two.second,
            third: 0.0,
            fourth: 0.0,
        };
    }
    fir_filter::four_outputs(coefficients, up, pushes, factor)
}

// One phase: what the upsampler gave, times the factor, goes to the inner reader; what that reads goes to the
// decimating filter.
fn phase<'a>(
    state: OversampledVariableDelay,
    kernel: Kernel,
    table: &'a [f64],
    coefficients: &'a [f64],
    up: &'a [f64],
    raised: f64,
    rate: f64,
    down: &mut [f64],
    ring: &mut [f64],
    from: f64,
    delay: f64,
    inner: u64,
    k: usize,
) -> u64
    requires { (Ready state) × (k < state.factor) × (rate ≡ num state.factor)
        × (raised ≡ output_of coefficients.now up.now (state.accepted + 1) state.factor k)
        × (OnlyFour (inner_of state inner) (length ring.old) (high_delay from delay (k + 1) state.factor)) }
    ensures value { result ≡
        (phase_of (turn_of (read_by kernel table.now) state coefficients.now up.now from
        delay) k (high_of inner down.old ring.old)).inner }
    ensures down_after { down.new ≡
        (phase_of (turn_of (read_by kernel table.now) state coefficients.now up.now from
        delay) k (high_of inner down.old ring.old)).down }
    ensures ring_after { ring.new ≡
        (phase_of (turn_of (read_by kernel table.now) state coefficients.now up.now from
        delay) k (high_of inner down.old ring.old)).ring }
{
    let factor = state.factor;
    let y = inside::phase_delay(from, delay, k + 1, rate);
    let s = inside::step(
        VariableDelay {
            maximum: factor * state.maximum,
            margin: state.margin,
            accepted: inner,
        },
        kernel,
        table,
        &mut ring[..],
        raised * rate,
        y,
    );
    fir_filter::push(
        &mut down[..],
        factor as u64 * state.accepted + k as u64,
        s.sample,
    );
    s.accepted
}

// All phases of a call, in turn.
pub(crate) fn phases<'a>(
    state: OversampledVariableDelay,
    kernel: Kernel,
    table: &'a [f64],
    coefficients: &'a [f64],
    up: &'a [f64],
    down: &mut [f64],
    ring: &mut [f64],
    from: f64,
    delay: f64,
) -> u64
    requires { (Ready state) × (Tested state (length ring.old) from delay) }
    ensures value { result ≡
        (phases_of (turn_of (read_by kernel table.now) state coefficients.now up.now from
        delay) (high_of state.inner down.old ring.old) state.factor).inner }
    ensures down_after { down.new ≡
        (phases_of (turn_of (read_by kernel table.now) state coefficients.now up.now from
        delay) (high_of state.inner down.old ring.old) state.factor).down }
    ensures ring_after { ring.new ≡
        (phases_of (turn_of (read_by kernel table.now) state coefficients.now up.now from
        delay) (high_of state.inner down.old ring.old) state.factor).ring }
{
    let factor = state.factor;
    let four = upsampled(coefficients, up, state.accepted + 1, factor);
    let rate = inside::rate_of(factor);
    let mut inner = state.inner;
    for k in 0..factor {
        inner = phase(
            state,
            kernel,
            table,
            coefficients,
            up,
            of_phase(four, k),
            rate,
            &mut down[..],
            &mut ring[..],
            from,
            delay,
            inner,
            k,
        );
    }
    inner
}
