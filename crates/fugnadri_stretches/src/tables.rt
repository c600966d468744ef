// Whole stretches of the reader over a windowed sinc table, without and with the sums of its absent taps.
ghost use Rattle.std.specs.Prelude.{◌≡◌};
ghost use Rattle.answer_parts.specs.States.{state_of};
ghost use Rattle.absent_taps.specs.Absent.{absent_of};
ghost use Rattle.fugnadri_stretches.specs.Exports.{leaves, left_of, tells, told_of, table_reader};

use variable_delay::VariableDelay;

#[unsafe(no_mangle)]
pub extern "C" fn fugnadri_windowed_sinc_stretch<'a>(
    maximum: usize,
    margin: usize,
    accepted: &mut u64,
    ring: &mut [f64],
    inputs: &[f64],
    delays: &[f64],
    table: &'a [f64],
    taps: usize,
    phases: usize,
    out: &mut [f64],
    done: &mut usize,
) -> u8
    ensures { leaves result done.new accepted.new ring.new out.new
        ≡ left_of (table_reader table.now taps phases)
        (state_of maximum margin accepted.old) ring.old
        inputs.now delays.now out.old }
{
    let state = VariableDelay {
        maximum: maximum,
        margin: margin,
        accepted: *accepted,
    };
    let a = sinc_stretch::process_stretch(
        state,
        &mut ring[..],
        inputs,
        delays,
        &mut out[..],
        table,
        taps,
        phases,
    );
    let after = a.state;
    *accepted = after.accepted;
    *done = a.done;
    a.refusal
}

#[unsafe(no_mangle)]
pub extern "C" fn fugnadri_windowed_sinc_stretch_told<'a>(
    maximum: usize,
    margin: usize,
    accepted: &mut u64,
    ring: &mut [f64],
    inputs: &[f64],
    delays: &[f64],
    table: &'a [f64],
    taps: usize,
    phases: usize,
    out: &mut [f64],
    done: &mut usize,
    unwritten: &mut u64,
    ahead: &mut u64,
    overwritten: &mut u64,
) -> u8
    ensures { tells (leaves result done.new accepted.new ring.new out.new)
        (absent_of unwritten.new ahead.new overwritten.new)
        ≡ told_of (table_reader table.now taps phases) taps
        (state_of maximum margin accepted.old) ring.old
        inputs.now delays.now out.old }
{
    let state = VariableDelay {
        maximum: maximum,
        margin: margin,
        accepted: *accepted,
    };
    let a = told_stretches::sinc_told(
        state,
        &mut ring[..],
        inputs,
        delays,
        &mut out[..],
        table,
        taps,
        phases,
    );
    let after = a.state;
    let absent = a.absent;
    *unwritten = absent.unwritten;
    *ahead = absent.ahead;
    *overwritten = absent.overwritten;
    *accepted = after.accepted;
    *done = a.done;
    a.refusal
}
