// Opens a cascaded reader over what is lent to it, and resets it.
ghost use Rattle.std.specs.Prelude.{◌≡◌, ◌&&◌, eqb, length};
ghost use Rattle.variable_delay.specs.Opening.{cleared_by};
ghost use Rattle.cascaded_delay.specs.Reader.{needed_by, held_ok};
ghost use Rattle.cascaded_delay.specs.Opening.{fresh, renew_due, opened_by, halfband_of, last_of, written_by};

use super::refusals::{held, outer};
use super::{CascadedOversampledVariableDelay4x, Opened};
use refusal_order::both;

// The number of the refusal of a reset or an opening, 0 for none. `designed` says that the coefficients, if they are
// lent, have their lengths.
fn renewal_refusal(
    state: CascadedOversampledVariableDelay4x,
    designed: bool,
    up1: usize,
    up2: usize,
    down2: usize,
    down1: usize,
    ring: usize,
) -> u8
    ensures { result ≡ renew_due state (designed && held_ok (needed_by state) up1 up2 down2 down1 ring) }
{
    let needed = oversampled_delay::inner_length(4, state.maximum, state.margin);
    let kept = held(up1, up2, down2, down1, ring, needed);
    oversampled_refusals::reset_refusal(needed != 0, both(designed, kept), 4, outer(state))
}

// A reader that has accepted nothing.
fn renewed(maximum: usize, margin: usize) -> CascadedOversampledVariableDelay4x
    ensures { result ≡ fresh maximum margin }
{
    CascadedOversampledVariableDelay4x {
        maximum: maximum,
        margin: margin,
        accepted: 0,
        inner: 0,
        previous: 0.0,
    }
}

// 000's reset: refuses by 1, 2 or 3, or zeroes the histories, the inner ring, both counts and the previous delay.
pub fn reset(
    state: CascadedOversampledVariableDelay4x,
    up1: &mut [f64],
    up2: &mut [f64],
    down2: &mut [f64],
    down1: &mut [f64],
    ring: &mut [f64],
) -> Opened
    ensures value { result ≡ opened_by (renew_due state (held_ok (needed_by state) (length up1.old)
        (length up2.old) (length down2.old) (length down1.old)
        (length ring.old))) state }
    ensures up1_after { up1.new ≡ cleared_by (renew_due state (held_ok (needed_by state) (length up1.old)
        (length up2.old) (length down2.old) (length down1.old)
        (length ring.old))) up1.old }
    ensures up2_after { up2.new ≡ cleared_by (renew_due state (held_ok (needed_by state) (length up1.old)
        (length up2.old) (length down2.old) (length down1.old)
        (length ring.old))) up2.old }
    ensures down2_after { down2.new ≡ cleared_by (renew_due state (held_ok (needed_by state) (length up1.old)
        (length up2.old) (length down2.old) (length down1.old)
        (length ring.old))) down2.old }
    ensures down1_after { down1.new ≡ cleared_by (renew_due state (held_ok (needed_by state) (length up1.old)
        (length up2.old) (length down2.old) (length down1.old)
        (length ring.old))) down1.old }
    ensures ring_after { ring.new ≡ cleared_by (renew_due state (held_ok (needed_by state) (length up1.old)
        (length up2.old) (length down2.old) (length down1.old)
        (length ring.old))) ring.old }
{
    let no = renewal_refusal(
        state,
        true,
        up1.len(),
        up2.len(),
        down2.len(),
        down1.len(),
        ring.len(),
    );
    if no != 0 {
        return Opened::Refused(no);
    }
    ring::clear(&mut up1[..]);
    ring::clear(&mut up2[..]);
    ring::clear(&mut down2[..]);
    ring::clear(&mut down1[..]);
    ring::clear(&mut ring[..]);
    Opened::Reader(renewed(state.maximum, state.margin))
}

// 000's `new`: refuses by 1 or 2, or designs the filters and zeroes the rest.
pub fn open(
    maximum: usize,
    margin: usize,
    halfband: &mut [f64],
    last: &mut [f64],
    up1: &mut [f64],
    up2: &mut [f64],
    down2: &mut [f64],
    down1: &mut [f64],
    ring: &mut [f64],
) -> Opened
    ensures value { result ≡ opened_by (renew_due (fresh maximum margin) (eqb (length halfband.old) 65
        && eqb (length last.old) 129 && (held_ok (needed_by (fresh maximum margin)) (length up1.old)
        (length up2.old) (length down2.old) (length down1.old)
        (length ring.old)))) (fresh maximum margin) }
    ensures halfband_after { halfband.new ≡ written_by (renew_due (fresh maximum margin)
        (eqb (length halfband.old) 65
        && eqb (length last.old) 129 && (held_ok (needed_by (fresh maximum margin)) (length up1.old)
        (length up2.old) (length down2.old) (length down1.old)
        (length ring.old)))) halfband_of halfband.old }
    ensures last_after { last.new ≡ written_by (renew_due (fresh maximum margin)
        (eqb (length halfband.old) 65
        && eqb (length last.old) 129 && (held_ok (needed_by (fresh maximum margin)) (length up1.old)
        (length up2.old) (length down2.old) (length down1.old)
        (length ring.old)))) last_of last.old }
    ensures up1_after { up1.new ≡ cleared_by (renew_due (fresh maximum margin)
        (eqb (length halfband.old) 65
        && eqb (length last.old) 129 && (held_ok (needed_by (fresh maximum margin)) (length up1.old)
        (length up2.old) (length down2.old) (length down1.old)
        (length ring.old)))) up1.old }
    ensures up2_after { up2.new ≡ cleared_by (renew_due (fresh maximum margin)
        (eqb (length halfband.old) 65
        && eqb (length last.old) 129 && (held_ok (needed_by (fresh maximum margin)) (length up1.old)
        (length up2.old) (length down2.old) (length down1.old)
        (length ring.old)))) up2.old }
    ensures down2_after { down2.new ≡ cleared_by (renew_due (fresh maximum margin)
        (eqb (length halfband.old) 65
        && eqb (length last.old) 129 && (held_ok (needed_by (fresh maximum margin)) (length up1.old)
        (length up2.old) (length down2.old) (length down1.old)
        (length ring.old)))) down2.old }
    ensures down1_after { down1.new ≡ cleared_by (renew_due (fresh maximum margin)
        (eqb (length halfband.old) 65
        && eqb (length last.old) 129 && (held_ok (needed_by (fresh maximum margin)) (length up1.old)
        (length up2.old) (length down2.old) (length down1.old)
        (length ring.old)))) down1.old }
    ensures ring_after { ring.new ≡ cleared_by (renew_due (fresh maximum margin)
        (eqb (length halfband.old) 65
        && eqb (length last.old) 129 && (held_ok (needed_by (fresh maximum margin)) (length up1.old)
        (length up2.old) (length down2.old) (length down1.old)
        (length ring.old)))) ring.old }
{
    let state = renewed(maximum, margin);
    let no = renewal_refusal(
        state,
        both(halfband.len() == 65, last.len() == 129),
        up1.len(),
        up2.len(),
        down2.len(),
        down1.len(),
        ring.len(),
    );
    if no != 0 {
        return Opened::Refused(no);
    }
    lowpass::design_lowpass(65, 0.5, 10.0, &mut halfband[..]);
    fir_filter::keep(&mut halfband[..]);
    lowpass::design_lowpass(129, 0.45, 10.0, &mut last[..]);
    fir_filter::keep(&mut last[..]);
    ring::clear(&mut up1[..]);
    ring::clear(&mut up2[..]);
    ring::clear(&mut down2[..]);
    ring::clear(&mut down1[..]);
    ring::clear(&mut ring[..]);
    Opened::Reader(state)
}
