// Opens an oversampled reader over what is lent to it, and resets it.
ghost use Rattle.std.specs.Prelude.{◌≡◌, ◌&&◌, length};
ghost use Rattle.variable_delay.specs.Opening.{cleared_by};
ghost use Rattle.oversampled_refusals.specs.Outer.{reset_verdict};
ghost use Rattle.oversampled_delay.specs.Reader.{settings_ok, held_ok, outer_of};
ghost use Rattle.oversampled_delay.specs.Opening.{fresh, reset_due, open_due, opened_by, designed_by};

use super::refusals::{inner_length, outer};
use super::{Opened, OversampledVariableDelay};
use refusal_order::both;

// The number of the refusal of a reset or an opening, 0 for none. `designed` says that the coefficients, if they are
// lent, have their length.
fn renewal_refusal(
    state: OversampledVariableDelay,
    designed: bool,
    up: usize,
    down: usize,
    ring: usize,
) -> u8
    ensures { result ≡
        reset_verdict (settings_ok state) (designed && held_ok state up down ring) state.factor (outer_of state) }
{
    let needed = inner_length(state.factor, state.maximum, state.margin);
    let history = filter_settings::history_length(state.taps, state.factor);
    let own = both(filter_settings::taps_ok(state.taps), needed != 0);
    let held = both(both(up == history, down == state.taps), ring == needed);
    oversampled_refusals::reset_refusal(own, both(designed, held), state.factor, outer(state))
}

// A reader that has accepted nothing.
fn renewed(maximum: usize, margin: usize, factor: usize, taps: usize) -> OversampledVariableDelay
    ensures { result ≡ fresh maximum margin factor taps }
{
    OversampledVariableDelay {
        maximum,
        margin,
        factor,
        taps,
        accepted: 0,
        inner: 0,
        previous: 0.0,
    }
}

// 000's reset: refuses by 1, 2 or 3, or zeroes the histories, the inner ring, both counts and the previous delay.
pub fn reset(
    state: OversampledVariableDelay,
    up: &mut [f64],
    down: &mut [f64],
    ring: &mut [f64],
) -> Opened
    ensures value { result ≡ opened_by (reset_due state (length up.old) (length down.old)
        (length ring.old)) state }
    ensures up_after { up.new ≡ cleared_by (reset_due state (length up.old)
        (length down.old) (length ring.old)) up.old }
    ensures down_after { down.new ≡ cleared_by (reset_due state (length up.old)
        (length down.old) (length ring.old)) down.old }
    ensures ring_after { ring.new ≡ cleared_by (reset_due state (length up.old)
        (length down.old) (length ring.old)) ring.old }
{
    let no = renewal_refusal(state, true, up.len(), down.len(), ring.len());
    if no != 0 {
        return Opened::Refused(no);
    }
    ring::clear(&mut up[..]);
    ring::clear(&mut down[..]);
    ring::clear(&mut ring[..]);
    Opened::Reader(renewed(state.maximum, state.margin, state.factor, state.taps))
}

// 000's `new`: refuses by 1 or 2, or designs the filters and zeroes the rest. 000 makes one list of coefficients for
// each filter; here both read the same.
pub fn open(
    maximum: usize,
    margin: usize,
    factor: usize,
    taps: usize,
    coefficients: &mut [f64],
    up: &mut [f64],
    down: &mut [f64],
    ring: &mut [f64],
) -> Opened
    ensures value { result ≡ opened_by (open_due (fresh maximum margin factor taps) (length coefficients.old)
        (length up.old) (length down.old) (length ring.old))
        (fresh maximum margin factor taps) }
    ensures coefficients_after { coefficients.new ≡ designed_by (open_due (fresh maximum margin factor taps)
        (length coefficients.old) (length up.old) (length down.old)
        (length ring.old)) (fresh maximum margin factor taps) coefficients.old }
    ensures up_after { up.new ≡ cleared_by (open_due (fresh maximum margin factor taps)
        (length coefficients.old) (length up.old) (length down.old)
        (length ring.old)) up.old }
    ensures down_after { down.new ≡ cleared_by (open_due (fresh maximum margin factor taps)
        (length coefficients.old) (length up.old) (length down.old)
        (length ring.old)) down.old }
    ensures ring_after { ring.new ≡ cleared_by (open_due (fresh maximum margin factor taps)
        (length coefficients.old) (length up.old) (length down.old)
        (length ring.old)) ring.old }
{
    let state = renewed(maximum, margin, factor, taps);
    let no = renewal_refusal(
        state,
        coefficients.len() == taps,
        up.len(),
        down.len(),
        ring.len(),
    );
    if no != 0 {
        return Opened::Refused(no);
    }
    let cutoff = 0.9 / std::num::nearest_u64_to_f64(factor as u64);
    lowpass::design_lowpass(taps, cutoff, 10.0, &mut coefficients[..]);
    fir_filter::keep(&mut coefficients[..]);
    ring::clear(&mut up[..]);
    ring::clear(&mut down[..]);
    ring::clear(&mut ring[..]);
    Opened::Reader(state)
}
