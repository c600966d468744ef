// Whole stretches of the readers without a table that report their absent taps (W3g): the same, and three sums by kind
// over the items done.
ghost use Rattle.std.specs.Prelude.{◌≡◌, true};
ghost use Rattle.cubic_farrow.specs.Cubic.{cubic_at};
ghost use Rattle.farrow8.specs.Kernel.{farrow_at};
ghost use Rattle.lagrange.specs.Kernel.{taps_ok, lagrange_at};
ghost use Rattle.stretch_call.specs.Items.{delay_reader};
ghost use Rattle.answer_parts.specs.States.{state_of};
ghost use Rattle.absent_taps.specs.Absent.{absent_of};
ghost use Rattle.fugnadri_stretches.specs.Exports.{leaves, tells, told_of};

use variable_delay::VariableDelay;

#[unsafe(no_mangle)]
pub extern "C" fn fugnadri_cubic_stretch_told(
    maximum: usize,
    margin: usize,
    accepted: &mut u64,
    ring: &mut [f64],
    inputs: &[f64],
    delays: &[f64],
    out: &mut [f64],
    done: &mut usize,
    unwritten: &mut u64,
    ahead: &mut u64,
    overwritten: &mut u64,
) -> u8
    ensures { tells (leaves result done.new accepted.new ring.new out.new)
        (absent_of unwritten.new ahead.new overwritten.new)
        ≡ told_of (delay_reader cubic_at true true) 4
        (state_of maximum margin accepted.old) ring.old
        inputs.now delays.now out.old }
{
    let state = VariableDelay {
        maximum: maximum,
        margin: margin,
        accepted: *accepted,
    };
    let a = told_stretches::cubic_told(state, &mut ring[..], inputs, delays, &mut out[..]);
    let after = a.state;
    let absent = a.absent;
    *unwritten = absent.unwritten;
    *ahead = absent.ahead;
    *overwritten = absent.overwritten;
    *accepted = after.accepted;
    *done = a.done;
    a.refusal
}

#[unsafe(no_mangle)]
pub extern "C" fn fugnadri_farrow8_stretch_told(
    maximum: usize,
    margin: usize,
    accepted: &mut u64,
    ring: &mut [f64],
    inputs: &[f64],
    delays: &[f64],
    out: &mut [f64],
    done: &mut usize,
    unwritten: &mut u64,
    ahead: &mut u64,
    overwritten: &mut u64,
) -> u8
    ensures { tells (leaves result done.new accepted.new ring.new out.new)
        (absent_of unwritten.new ahead.new overwritten.new)
        ≡ told_of (delay_reader farrow_at true true) 8
        (state_of maximum margin accepted.old) ring.old
        inputs.now delays.now out.old }
{
    let state = VariableDelay {
        maximum: maximum,
        margin: margin,
        accepted: *accepted,
    };
    let a = told_stretches::farrow8_told(state, &mut ring[..], inputs, delays, &mut out[..]);
    let after = a.state;
    let absent = a.absent;
    *unwritten = absent.unwritten;
    *ahead = absent.ahead;
    *overwritten = absent.overwritten;
    *accepted = after.accepted;
    *done = a.done;
    a.refusal
}

#[unsafe(no_mangle)]
pub extern "C" fn fugnadri_lagrange_stretch_told(
    maximum: usize,
    margin: usize,
    accepted: &mut u64,
    ring: &mut [f64],
    inputs: &[f64],
    delays: &[f64],
    taps: u64,
    out: &mut [f64],
    done: &mut usize,
    unwritten: &mut u64,
    ahead: &mut u64,
    overwritten: &mut u64,
) -> u8
    ensures { tells (leaves result done.new accepted.new ring.new out.new)
        (absent_of unwritten.new ahead.new overwritten.new)
        ≡ told_of (delay_reader (lagrange_at taps) (taps_ok taps) true) taps
        (state_of maximum margin accepted.old) ring.old
        inputs.now delays.now out.old }
{
    let state = VariableDelay {
        maximum: maximum,
        margin: margin,
        accepted: *accepted,
    };
    let a = told_stretches::lagrange_told(state, &mut ring[..], inputs, delays, &mut out[..], taps);
    let after = a.state;
    let absent = a.absent;
    *unwritten = absent.unwritten;
    *ahead = absent.ahead;
    *overwritten = absent.overwritten;
    *accepted = after.accepted;
    *done = a.done;
    a.refusal
}
