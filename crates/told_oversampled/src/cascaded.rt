// The cascaded oversampled reader, with the sums of its absent taps.
ghost use Rattle.std.specs.Prelude.{◌≡◌, ◌^◌, ◌<◌, ◌≤◌, true, length};
ghost use Rattle.std.specs.Float.{binary64};
ghost use Rattle.std.specs.Float.Ieee.{fits};
ghost use Rattle.kernels.specs.Kernels.{taps_of};
ghost use Rattle.cascaded_delay.specs.Reader.{lent_of, from_of};
ghost use Rattle.told_oversampled.specs.Cascaded.{leaves_told, leaves_twice, told_of};
ghost use Rattle.told_oversampled.specs.Reckoned.{saved_of, quarters_accepted, reckoned_inside};

use crate::ToldTwice;
use crate::readings::{Accepted, accepts, start, summed};
use absent_taps::Absent;
use cascaded_delay::CascadedOversampledVariableDelay4x;
use kernels::Kernel;

// What stands in the second upsampler's history where the second half of the next call writes. The first half's samples
// are made with it. A number of calls or a length that is out of range, so that the call is refused, gives 0.0.
fn saved(up2: &[f64], accepted: u64) -> f64
    ensures { result ≡ saved_of up2.now accepted }
{
    if accepted >= 0x4_0000_0000 {
        return 0.0;
    }
    if up2.len() == 0 {
        return 0.0;
    }
    up2[ring::place(2 * accepted + 2, up2.len())]
}

// Which inner samples of a call were accepted. If all were, as the inner accepted number says, no filter is asked
// again. `up2` is the second upsampler's history after the call; for the first half what was saved is put back for a
// moment.
fn quarters_accepted<'a>(
    all: bool,
    halfband: &'a [f64],
    up2: &mut [f64],
    accepted: u64,
    before: f64,
) -> Accepted
    requires { (accepted < 2 ^ 34) × (length up2.old ≡ 33) }
    ensures value { result ≡ quarters_accepted all halfband.now up2.old accepted before }
    ensures up2_unchanged { up2.new ≡ up2.old }
{
    if all {
        return Accepted {
            first: true,
            second: true,
            third: true,
            fourth: true,
        };
    }
    let after = saved(&up2[..], accepted);
    let third = accepts(halfband, &up2[..], 2 * accepted + 2, 2, 0);
    let fourth = accepts(halfband, &up2[..], 2 * accepted + 2, 2, 1);
    fir_filter::push(&mut up2[..], 2 * accepted + 1, before);
    let first = accepts(halfband, &up2[..], 2 * accepted + 1, 2, 0);
    let second = accepts(halfband, &up2[..], 2 * accepted + 1, 2, 1);
    fir_filter::push(&mut up2[..], 2 * accepted + 1, after);
    Accepted {
        first: first,
        second: second,
        third: third,
        fourth: fourth,
    }
}

// The sums of an accepted call, from the state before it and what it left: the inner accepted number and the second
// upsampler's history.
fn absent_inside<'a>(
    state: CascadedOversampledVariableDelay4x,
    inner: u64,
    kernel: Kernel,
    halfband: &'a [f64],
    up2: &mut [f64],
    before: f64,
    delay: f64,
    len: usize,
) -> Absent
    requires { (state.accepted < 2 ^ 34) × (state.inner ≤ 2 ^ 36) × (taps_of kernel ≤ 128)
        × (length up2.old ≡ 33) }
    ensures value { result ≡
        reckoned_inside state inner kernel halfband.now up2.old before delay len }
    ensures delay_value { fits binary64 (from_of state delay) ≡ true }
    ensures up2_unchanged { up2.new ≡ up2.old }
{
    let all = inner == state.inner + 4;
    let accepted = quarters_accepted(all, halfband, &mut up2[..], state.accepted, before);
    let from = start(state.accepted, state.previous, delay);
    summed(
        accepted,
        4,
        state.inner,
        from,
        delay,
        len,
        kernels::taps(kernel),
    )
}

// `cascaded_delay::process_sample`, with the sums over its inner readings.
pub fn cascaded_told<'a>(
    state: CascadedOversampledVariableDelay4x,
    kernel: Kernel,
    table: &'a [f64],
    halfband: &'a [f64],
    last: &'a [f64],
    up1: &mut [f64],
    up2: &mut [f64],
    down2: &mut [f64],
    down1: &mut [f64],
    ring: &mut [f64],
    input: f64,
    delay: f64,
) -> ToldTwice
    ensures { leaves_told (leaves_twice result.state result.answer up1.new up2.new
        down2.new down1.new ring.new) result.absent ≡
        told_of kernel state (lent_of table.now halfband.now last.now up1.old
        up2.old down2.old down1.old ring.old) input delay }
{
    let len = ring.len();
    let before = saved(&up2[..], state.accepted);
    let p = cascaded_delay::process_sample(
        state,
        kernel,
        table,
        halfband,
        last,
        &mut up1[..],
        &mut up2[..],
        &mut down2[..],
        &mut down1[..],
        &mut ring[..],
        input,
        delay,
    );
    let after = p.state;
    let answer = p.answer;
    if after.accepted == state.accepted {
        return ToldTwice {
            state: after,
            answer: answer,
            absent: absent_taps::nothing(),
        };
    }
    let absent = absent_inside(
        state,
        after.inner,
        kernel,
        halfband,
        &mut up2[..],
        before,
        delay,
        len,
    );
    ToldTwice {
        state: after,
        answer: answer,
        absent: absent,
    }
}
