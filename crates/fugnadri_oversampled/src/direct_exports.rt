// The direct oversampled reader for C (W11): its opening, its reset and one call. The settings pass as numbers; both
// accepted numbers and the previous delay come and go through pointers. Each returns the refusal number, 0 for none.
ghost use Rattle.std.specs.Prelude.{◌≡◌};
ghost use Rattle.oversampled_delay.specs.Reader.{lent_of, called};
ghost use Rattle.oversampled_codes.specs.Codes.{kernel_of, numbers};
ghost use Rattle.oversampled_codes.specs.Left.{leaves, held_once, direct_state, direct_left};
ghost use Rattle.oversampled_codes.specs.Left.{renews, designs, direct_opened, direct_reset};

use answer_parts::handing::handed;
use oversampled_codes::{Numbers, direct, named};
use oversampled_delay::OversampledVariableDelay;

#[unsafe(no_mangle)]
pub extern "C" fn fugnadri_oversampled_open(
    maximum: usize,
    margin: usize,
    factor: usize,
    taps: usize,
    accepted: &mut u64,
    inner: &mut u64,
    previous: &mut f64,
    coefficients: &mut [f64],
    up: &mut [f64],
    down: &mut [f64],
    ring: &mut [f64],
) -> u8
    ensures { renews result (numbers accepted.new inner.new previous.new)
        (designs coefficients.new (held_once up.new down.new ring.new))
        ≡ direct_opened (numbers accepted.old inner.old previous.old) maximum margin
        factor taps coefficients.old up.old down.old ring.old }
{
    let before = Numbers {
        accepted: *accepted,
        inner: *inner,
        previous: *previous,
    };
    let o = oversampled_delay::open(
        maximum,
        margin,
        factor,
        taps,
        &mut coefficients[..],
        &mut up[..],
        &mut down[..],
        &mut ring[..],
    );
    let after = direct::opened_numbers(before, o);
    *accepted = after.accepted;
    *inner = after.inner;
    *previous = after.previous;
    direct::opened_number(o)
}

#[unsafe(no_mangle)]
pub extern "C" fn fugnadri_oversampled_reset(
    maximum: usize,
    margin: usize,
    factor: usize,
    taps: usize,
    accepted: &mut u64,
    inner: &mut u64,
    previous: &mut f64,
    up: &mut [f64],
    down: &mut [f64],
    ring: &mut [f64],
) -> u8
    ensures { renews result (numbers accepted.new inner.new previous.new)
        (held_once up.new down.new ring.new)
        ≡ direct_reset (direct_state maximum margin factor taps
        (numbers accepted.old inner.old previous.old))
        up.old down.old ring.old }
{
    let before = Numbers {
        accepted: *accepted,
        inner: *inner,
        previous: *previous,
    };
    let state = OversampledVariableDelay {
        maximum: maximum,
        margin: margin,
        factor: factor,
        taps: taps,
        accepted: before.accepted,
        inner: before.inner,
        previous: before.previous,
    };
    let o = oversampled_delay::reset(state, &mut up[..], &mut down[..], &mut ring[..]);
    let after = direct::opened_numbers(before, o);
    *accepted = after.accepted;
    *inner = after.inner;
    *previous = after.previous;
    direct::opened_number(o)
}

// One call. A kernel has the number 0 for Cubic, 1 for Lagrange, 2 for Farrow8 and 3 for the windowed sinc; its taps
// and phases stand beside it. The sample is 0.0 if the call is refused (O3).
#[unsafe(no_mangle)]
pub extern "C" fn fugnadri_oversampled_process<'a>(
    maximum: usize,
    margin: usize,
    factor: usize,
    taps: usize,
    accepted: &mut u64,
    inner: &mut u64,
    previous: &mut f64,
    kernel: u8,
    points: usize,
    phases: usize,
    table: &'a [f64],
    coefficients: &'a [f64],
    up: &mut [f64],
    down: &mut [f64],
    ring: &mut [f64],
    input: f64,
    delay: f64,
    sample: &mut f64,
) -> u8
    ensures { leaves result sample.new
        (numbers accepted.new inner.new previous.new)
        (held_once up.new down.new ring.new)
        ≡ direct_left (called (kernel_of kernel points phases)
        (direct_state maximum margin factor taps
        (numbers accepted.old inner.old previous.old))
        (lent_of table.now coefficients.now up.old down.old
        ring.old) input delay) }
{
    let state = OversampledVariableDelay {
        maximum: maximum,
        margin: margin,
        factor: factor,
        taps: taps,
        accepted: *accepted,
        inner: *inner,
        previous: *previous,
    };
    let k = named(kernel, points, phases);
    let p = oversampled_delay::process_sample(
        state,
        k,
        table,
        coefficients,
        &mut up[..],
        &mut down[..],
        &mut ring[..],
        input,
        delay,
    );
    let after = p.state;
    let a = p.answer;
    *inner = after.inner;
    *previous = after.previous;
    handed(a, after.accepted, accepted, sample)
}
