// The cascaded oversampled reader for C (W11): its opening, its reset and one call, as those of the direct one.
ghost use Rattle.std.specs.Prelude.{◌≡◌};
ghost use Rattle.cascaded_delay.specs.Reader.{lent_of, called};
ghost use Rattle.oversampled_codes.specs.Codes.{kernel_of, numbers};
ghost use Rattle.oversampled_codes.specs.Left.{leaves, renews};
ghost use Rattle.oversampled_codes.specs.CascadedLeft.{held_twice, cascaded_state, cascaded_left};
ghost use Rattle.oversampled_codes.specs.CascadedLeft.{designs_twice, cascaded_opened, cascaded_reset};

use answer_parts::handing::handed;
use cascaded_delay::CascadedOversampledVariableDelay4x;
use oversampled_codes::{Numbers, cascaded, named};

#[unsafe(no_mangle)]
pub extern "C" fn fugnadri_cascaded_open(
    maximum: usize,
    margin: usize,
    accepted: &mut u64,
    inner: &mut u64,
    previous: &mut f64,
    halfband: &mut [f64],
    last: &mut [f64],
    up1: &mut [f64],
    up2: &mut [f64],
    down2: &mut [f64],
    down1: &mut [f64],
    ring: &mut [f64],
) -> u8
    ensures { renews result (numbers accepted.new inner.new previous.new)
        (designs_twice halfband.new last.new (held_twice up1.new up2.new
        down2.new down1.new ring.new))
        ≡ cascaded_opened (numbers accepted.old inner.old previous.old) maximum margin
        halfband.old last.old up1.old up2.old down2.old
        down1.old ring.old }
{
    let before = Numbers {
        accepted: *accepted,
        inner: *inner,
        previous: *previous,
    };
    let o = cascaded_delay::open(
        maximum,
        margin,
        &mut halfband[..],
        &mut last[..],
        &mut up1[..],
        &mut up2[..],
        &mut down2[..],
        &mut down1[..],
        &mut ring[..],
    );
    let after = cascaded::opened_numbers(before, o);
    *accepted = after.accepted;
    *inner = after.inner;
    *previous = after.previous;
    cascaded::opened_number(o)
}

#[unsafe(no_mangle)]
pub extern "C" fn fugnadri_cascaded_reset(
    maximum: usize,
    margin: usize,
    accepted: &mut u64,
    inner: &mut u64,
    previous: &mut f64,
    up1: &mut [f64],
    up2: &mut [f64],
    down2: &mut [f64],
    down1: &mut [f64],
    ring: &mut [f64],
) -> u8
    ensures { renews result (numbers accepted.new inner.new previous.new)
        (held_twice up1.new up2.new down2.new down1.new ring.new)
        ≡ cascaded_reset (cascaded_state maximum margin
        (numbers accepted.old inner.old previous.old))
        up1.old up2.old down2.old down1.old ring.old }
{
    let before = Numbers {
        accepted: *accepted,
        inner: *inner,
        previous: *previous,
    };
    let state = CascadedOversampledVariableDelay4x {
        maximum: maximum,
        margin: margin,
        accepted: before.accepted,
        inner: before.inner,
        previous: before.previous,
    };
    let o = cascaded_delay::reset(
        state,
        &mut up1[..],
        &mut up2[..],
        &mut down2[..],
        &mut down1[..],
        &mut ring[..],
    );
    let after = cascaded::opened_numbers(before, o);
    *accepted = after.accepted;
    *inner = after.inner;
    *previous = after.previous;
    cascaded::opened_number(o)
}

#[unsafe(no_mangle)]
pub extern "C" fn fugnadri_cascaded_process<'a>(
    maximum: usize,
    margin: usize,
    accepted: &mut u64,
    inner: &mut u64,
    previous: &mut f64,
    kernel: u8,
    points: usize,
    phases: usize,
    table: &'a [f64],
    halfband: &'a [f64],
    last: &'a [f64],
    up1: &mut [f64],
    up2: &mut [f64],
    down2: &mut [f64],
    down1: &mut [f64],
    ring: &mut [f64],
    input: f64,
    delay: f64,
    sample: &mut f64,
) -> u8
    ensures { leaves result sample.new
        (numbers accepted.new inner.new previous.new)
        (held_twice up1.new up2.new down2.new down1.new ring.new)
        ≡ cascaded_left (called (kernel_of kernel points phases)
        (cascaded_state maximum margin (numbers accepted.old inner.old previous.old))
        (lent_of table.now halfband.now last.now up1.old up2.old
        down2.old down1.old ring.old) input delay) }
{
    let state = CascadedOversampledVariableDelay4x {
        maximum: maximum,
        margin: margin,
        accepted: *accepted,
        inner: *inner,
        previous: *previous,
    };
    let k = named(kernel, points, phases);
    let p = cascaded_delay::process_sample(
        state,
        k,
        table,
        halfband,
        last,
        &mut up1[..],
        &mut up2[..],
        &mut down2[..],
        &mut down1[..],
        &mut ring[..],
        input,
        delay,
    );
    let after = p.state;
    let a = p.answer;
    *inner = after.inner;
    *previous = after.previous;
    handed(a, after.accepted, accepted, sample)
}
