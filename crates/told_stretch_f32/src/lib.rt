// A whole stretch of VariableDelayF32 over a windowed sinc table, with the sums of its absent taps of each kind (W3g).
// It calls the stretch as it is and counts beside it, so that a call that does not need the numbers pays nothing.
#![tactic(auto)]

ghost use Rattle.std.specs.Prelude.{◌≡◌};
ghost use Rattle.told_stretches.specs.Told.{leaves};
ghost use Rattle.told_stretch_f32.specs.Told.{told_of};

use told_stretches::ToldStretch;
use variable_delay::VariableDelay;

pub fn sinc_told<'a>(
    state: VariableDelay,
    ring: &mut [f32],
    inputs: &'a [f32],
    delays: &'a [f64],
    out: &mut [f32],
    table: &'a [f32],
    taps: usize,
    phases: usize,
) -> ToldStretch
    ensures { leaves result ring.new out.new ≡ told_of table.now taps phases state
        ring.old inputs.now delays.now out.old }
{
    let len = ring.len();
    let a = sinc_stretch_f32::process_stretch(
        state,
        &mut ring[..],
        inputs,
        delays,
        &mut out[..],
        table,
        taps,
        phases,
    );
    let after = a.state;
    let absent = stretch_absent::absent_in(len, state.accepted, delays, a.done, taps as u64);
    ToldStretch {
        state: after,
        done: a.done,
        refusal: a.refusal,
        absent: absent,
    }
}
