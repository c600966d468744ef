// The readers over a lent table.
ghost use Rattle.std.specs.Prelude.{◌≡◌};
ghost use Rattle.answer_parts.specs.States.{state_of};
ghost use Rattle.absent_taps.specs.Absent.{absent_of};
ghost use Rattle.fugnadri_told.specs.Exports.{leaves, left_of_table, left_of_table_f32};

use answer_parts::handing::{handed, handed_f32};
use variable_delay::VariableDelay;

#[unsafe(no_mangle)]
pub extern "C" fn fugnadri_windowed_sinc_process_told<'a>(
    maximum: usize,
    margin: usize,
    accepted: &mut u64,
    ring: &mut [f64],
    input: f64,
    delay: f64,
    table: &'a [f64],
    taps: usize,
    phases: usize,
    sample: &mut f64,
    unwritten: &mut u64,
    ahead: &mut u64,
    overwritten: &mut u64,
) -> u8
    ensures { leaves result sample.new accepted.new ring.new
        (absent_of unwritten.new ahead.new overwritten.new)
        ≡ left_of_table table.now taps phases (state_of maximum margin accepted.old)
        ring.old input delay }
{
    let state = VariableDelay {
        maximum: maximum,
        margin: margin,
        accepted: *accepted,
    };
    let t = told_delays::sinc_told(state, &mut ring[..], input, delay, table, taps, phases);
    let after = t.state;
    let a = t.answer;
    let absent = t.absent;
    *unwritten = absent.unwritten;
    *ahead = absent.ahead;
    *overwritten = absent.overwritten;
    handed(a, after.accepted, accepted, sample)
}

#[unsafe(no_mangle)]
pub extern "C" fn fugnadri_windowed_sinc_f32_process_told<'a>(
    maximum: usize,
    margin: usize,
    accepted: &mut u64,
    ring: &mut [f32],
    input: f32,
    delay: f64,
    table: &'a [f32],
    taps: usize,
    phases: usize,
    sample: &mut f32,
    unwritten: &mut u64,
    ahead: &mut u64,
    overwritten: &mut u64,
) -> u8
    ensures { leaves result sample.new accepted.new ring.new
        (absent_of unwritten.new ahead.new overwritten.new)
        ≡ left_of_table_f32 table.now taps phases (state_of maximum margin accepted.old)
        ring.old input delay }
{
    let state = VariableDelay {
        maximum: maximum,
        margin: margin,
        accepted: *accepted,
    };
    let t = told_delays::sinc_f32_told(state, &mut ring[..], input, delay, table, taps, phases);
    let after = t.state;
    let a = t.answer;
    let absent = t.absent;
    *unwritten = absent.unwritten;
    *ahead = absent.ahead;
    *overwritten = absent.overwritten;
    handed_f32(a, after.accepted, accepted, sample)
}
