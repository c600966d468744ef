// The readers without a table.
ghost use Rattle.std.specs.Prelude.{◌≡◌, true};
ghost use Rattle.cubic_farrow.specs.Cubic.{cubic_at};
ghost use Rattle.farrow8.specs.Kernel.{farrow_at};
ghost use Rattle.lagrange.specs.Kernel.{taps_ok, lagrange_at};
ghost use Rattle.answer_parts.specs.States.{state_of};
ghost use Rattle.absent_taps.specs.Absent.{absent_of};
ghost use Rattle.fugnadri_told.specs.Exports.{leaves, left_by};

use answer_parts::handing::handed;
use variable_delay::VariableDelay;

#[unsafe(no_mangle)]
pub extern "C" fn fugnadri_cubic_process_told(
    maximum: usize,
    margin: usize,
    accepted: &mut u64,
    ring: &mut [f64],
    input: f64,
    delay: f64,
    sample: &mut f64,
    unwritten: &mut u64,
    ahead: &mut u64,
    overwritten: &mut u64,
) -> u8
    ensures { leaves result sample.new accepted.new ring.new
        (absent_of unwritten.new ahead.new overwritten.new)
        ≡ left_by true cubic_at 4 (state_of maximum margin accepted.old)
        ring.old input delay }
{
    let state = VariableDelay {
        maximum: maximum,
        margin: margin,
        accepted: *accepted,
    };
    let t = told_delays::cubic_told(state, &mut ring[..], input, delay);
    let after = t.state;
    let a = t.answer;
    let absent = t.absent;
    *unwritten = absent.unwritten;
    *ahead = absent.ahead;
    *overwritten = absent.overwritten;
    handed(a, after.accepted, accepted, sample)
}

#[unsafe(no_mangle)]
pub extern "C" fn fugnadri_farrow8_process_told(
    maximum: usize,
    margin: usize,
    accepted: &mut u64,
    ring: &mut [f64],
    input: f64,
    delay: f64,
    sample: &mut f64,
    unwritten: &mut u64,
    ahead: &mut u64,
    overwritten: &mut u64,
) -> u8
    ensures { leaves result sample.new accepted.new ring.new
        (absent_of unwritten.new ahead.new overwritten.new)
        ≡ left_by true farrow_at 8 (state_of maximum margin accepted.old)
        ring.old input delay }
{
    let state = VariableDelay {
        maximum: maximum,
        margin: margin,
        accepted: *accepted,
    };
    let t = told_delays::farrow8_told(state, &mut ring[..], input, delay);
    let after = t.state;
    let a = t.answer;
    let absent = t.absent;
    *unwritten = absent.unwritten;
    *ahead = absent.ahead;
    *overwritten = absent.overwritten;
    handed(a, after.accepted, accepted, sample)
}

#[unsafe(no_mangle)]
pub extern "C" fn fugnadri_lagrange_process_told(
    maximum: usize,
    margin: usize,
    accepted: &mut u64,
    ring: &mut [f64],
    input: f64,
    delay: f64,
    taps: u64,
    sample: &mut f64,
    unwritten: &mut u64,
    ahead: &mut u64,
    overwritten: &mut u64,
) -> u8
    ensures { leaves result sample.new accepted.new ring.new
        (absent_of unwritten.new ahead.new overwritten.new)
        ≡ left_by (taps_ok taps) (lagrange_at taps) taps (state_of maximum margin accepted.old)
        ring.old input delay }
{
    let state = VariableDelay {
        maximum: maximum,
        margin: margin,
        accepted: *accepted,
    };
    let t = told_delays::lagrange_told(state, &mut ring[..], input, delay, taps);
    let after = t.state;
    let a = t.answer;
    let absent = t.absent;
    *unwritten = absent.unwritten;
    *ahead = absent.ahead;
    *overwritten = absent.overwritten;
    handed(a, after.accepted, accepted, sample)
}
