// The static library of the oversampled readers that report their absent taps, for C and Rust (W11f).
// It stands apart from `fugnadri_oversampled`, so that a call that does not need the numbers pays nothing. Each export
// is the reader's own call and writes the sums over its inner readings, by kind, through three pointers: zeros if it is
// refused.
#![tactic(auto)]

ghost use Rattle.std.specs.Prelude.{◌≡◌};
ghost use Rattle.absent_taps.specs.Absent.{absent_of};
ghost use Rattle.oversampled_delay.specs.Reader as direct;
ghost use Rattle.cascaded_delay.specs.Reader as cascaded;
ghost use Rattle.oversampled_codes.specs.Codes.{kernel_of, numbers};
ghost use Rattle.oversampled_codes.specs.Left.{leaves, held_once, direct_state};
ghost use Rattle.oversampled_codes.specs.CascadedLeft.{held_twice, cascaded_state};
ghost use Rattle.fugnadri_oversampled_told.specs.Exports.{tells, direct_told, cascaded_told};

use answer_parts::handing::handed;
use cascaded_delay::CascadedOversampledVariableDelay4x;
use oversampled_codes::named;
use oversampled_delay::OversampledVariableDelay;

#[unsafe(no_mangle)]
pub extern "C" fn fugnadri_oversampled_process_told<'a>(
    maximum: usize,
    margin: usize,
    factor: usize,
    taps: usize,
    accepted: &mut u64,
    inner: &mut u64,
    previous: &mut f64,
    kernel: u8,
    points: usize,
    phases: usize,
    table: &'a [f64],
    coefficients: &'a [f64],
    up: &mut [f64],
    down: &mut [f64],
    ring: &mut [f64],
    input: f64,
    delay: f64,
    sample: &mut f64,
    unwritten: &mut u64,
    ahead: &mut u64,
    overwritten: &mut u64,
) -> u8
    ensures { tells (leaves result sample.new
        (numbers accepted.new inner.new previous.new)
        (held_once up.new down.new ring.new))
        (absent_of unwritten.new ahead.new overwritten.new)
        ≡ direct_told (kernel_of kernel points phases)
        (direct_state maximum margin factor taps
        (numbers accepted.old inner.old previous.old))
        (direct.lent_of table.now coefficients.now up.old down.old
        ring.old) input delay }
{
    let state = OversampledVariableDelay {
        maximum: maximum,
        margin: margin,
        factor: factor,
        taps: taps,
        accepted: *accepted,
        inner: *inner,
        previous: *previous,
    };
    let k = named(kernel, points, phases);
    let t = told_oversampled::oversampled_told(
        state,
        k,
        table,
        coefficients,
        &mut up[..],
        &mut down[..],
        &mut ring[..],
        input,
        delay,
    );
    let after = t.state;
    let a = t.answer;
    let absent = t.absent;
    *inner = after.inner;
    *previous = after.previous;
    *unwritten = absent.unwritten;
    *ahead = absent.ahead;
    *overwritten = absent.overwritten;
    handed(a, after.accepted, accepted, sample)
}

#[unsafe(no_mangle)]
pub extern "C" fn fugnadri_cascaded_process_told<'a>(
    maximum: usize,
    margin: usize,
    accepted: &mut u64,
    inner: &mut u64,
    previous: &mut f64,
    kernel: u8,
    points: usize,
    phases: usize,
    table: &'a [f64],
    halfband: &'a [f64],
    last: &'a [f64],
    up1: &mut [f64],
    up2: &mut [f64],
    down2: &mut [f64],
    down1: &mut [f64],
    ring: &mut [f64],
    input: f64,
    delay: f64,
    sample: &mut f64,
    unwritten: &mut u64,
    ahead: &mut u64,
    overwritten: &mut u64,
) -> u8
    ensures { tells (leaves result sample.new
        (numbers accepted.new inner.new previous.new)
        (held_twice up1.new up2.new down2.new down1.new ring.new))
        (absent_of unwritten.new ahead.new overwritten.new)
        ≡ cascaded_told (kernel_of kernel points phases)
        (cascaded_state maximum margin (numbers accepted.old inner.old previous.old))
        (cascaded.lent_of table.now halfband.now last.now up1.old
        up2.old down2.old down1.old ring.old) input delay }
{
    let state = CascadedOversampledVariableDelay4x {
        maximum: maximum,
        margin: margin,
        accepted: *accepted,
        inner: *inner,
        previous: *previous,
    };
    let k = named(kernel, points, phases);
    let t = told_oversampled::cascaded_told(
        state,
        k,
        table,
        halfband,
        last,
        &mut up1[..],
        &mut up2[..],
        &mut down2[..],
        &mut down1[..],
        &mut ring[..],
        input,
        delay,
    );
    let after = t.state;
    let a = t.answer;
    let absent = t.absent;
    *inner = after.inner;
    *previous = after.previous;
    *unwritten = absent.unwritten;
    *ahead = absent.ahead;
    *overwritten = absent.overwritten;
    handed(a, after.accepted, accepted, sample)
}
