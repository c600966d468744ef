// Whole stretches of the readers without a table. Each returns the refusal number, 0 for none, and writes the number of
// items done, the count, the ring and the outputs of the items done.
ghost use Rattle.std.specs.Prelude.{◌≡◌, true};
ghost use Rattle.cubic_farrow.specs.Cubic.{cubic_at};
ghost use Rattle.farrow8.specs.Kernel.{farrow_at};
ghost use Rattle.lagrange.specs.Kernel.{taps_ok, lagrange_at};
ghost use Rattle.stretch_call.specs.Items.{delay_reader};
ghost use Rattle.answer_parts.specs.States.{state_of};
ghost use Rattle.fugnadri_stretches.specs.Exports.{leaves, left_of};

use variable_delay::VariableDelay;

#[unsafe(no_mangle)]
pub extern "C" fn fugnadri_cubic_stretch(
    maximum: usize,
    margin: usize,
    accepted: &mut u64,
    ring: &mut [f64],
    inputs: &[f64],
    delays: &[f64],
    out: &mut [f64],
    done: &mut usize,
) -> u8
    ensures { leaves result done.new accepted.new ring.new out.new
        ≡ left_of (delay_reader cubic_at true true)
        (state_of maximum margin accepted.old) ring.old
        inputs.now delays.now out.old }
{
    let state = VariableDelay {
        maximum: maximum,
        margin: margin,
        accepted: *accepted,
    };
    let a = cubic_stretch::process_stretch(state, &mut ring[..], inputs, delays, &mut out[..]);
    let after = a.state;
    *accepted = after.accepted;
    *done = a.done;
    a.refusal
}

#[unsafe(no_mangle)]
pub extern "C" fn fugnadri_farrow8_stretch(
    maximum: usize,
    margin: usize,
    accepted: &mut u64,
    ring: &mut [f64],
    inputs: &[f64],
    delays: &[f64],
    out: &mut [f64],
    done: &mut usize,
) -> u8
    ensures { leaves result done.new accepted.new ring.new out.new
        ≡ left_of (delay_reader farrow_at true true)
        (state_of maximum margin accepted.old) ring.old
        inputs.now delays.now out.old }
{
    let state = VariableDelay {
        maximum: maximum,
        margin: margin,
        accepted: *accepted,
    };
    let a = farrow8_stretch::process_stretch(state, &mut ring[..], inputs, delays, &mut out[..]);
    let after = a.state;
    *accepted = after.accepted;
    *done = a.done;
    a.refusal
}

#[unsafe(no_mangle)]
pub extern "C" fn fugnadri_lagrange_stretch(
    maximum: usize,
    margin: usize,
    accepted: &mut u64,
    ring: &mut [f64],
    inputs: &[f64],
    delays: &[f64],
    taps: u64,
    out: &mut [f64],
    done: &mut usize,
) -> u8
    ensures { leaves result done.new accepted.new ring.new out.new
        ≡ left_of (delay_reader (lagrange_at taps) (taps_ok taps) true)
        (state_of maximum margin accepted.old) ring.old
        inputs.now delays.now out.old }
{
    let state = VariableDelay {
        maximum: maximum,
        margin: margin,
        accepted: *accepted,
    };
    let a = lagrange_stretch::process_stretch(
        state,
        &mut ring[..],
        inputs,
        delays,
        &mut out[..],
        taps,
    );
    let after = a.state;
    *accepted = after.accepted;
    *done = a.done;
    a.refusal
}
