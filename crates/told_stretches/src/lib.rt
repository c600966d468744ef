// Whole stretches of the delay readers of every kernel at f64, with the sums of their absent taps of each kind (W3g).
// Each calls the stretch as it is and counts beside it, so that a call that does not need the numbers pays nothing.
#![tactic(auto)]

mod tables; // the reader over a lent table

ghost use Rattle.std.specs.Prelude.{◌≡◌, true};
ghost use Rattle.cubic_farrow.specs.Cubic.{cubic_at};
ghost use Rattle.farrow8.specs.Kernel.{farrow_at};
ghost use Rattle.lagrange.specs.Kernel.{taps_ok, lagrange_at};
ghost use Rattle.told_stretches.specs.Told.{leaves, told_of};

use absent_taps::Absent;
pub use tables::sinc_told;
use variable_delay::VariableDelay;

// A stretch's answer with the sums of its absent taps.
#[derive(Drop)]
pub struct ToldStretch {
    pub state: VariableDelay,
    pub done: usize,
    pub refusal: u8,
    pub absent: Absent,
}

pub fn cubic_told(
    state: VariableDelay,
    ring: &mut [f64],
    inputs: &[f64],
    delays: &[f64],
    out: &mut [f64],
) -> ToldStretch
    ensures { leaves result ring.new out.new ≡ told_of cubic_at true true 4 state
        ring.old inputs.now delays.now out.old }
{
    let len = ring.len();
    let a = cubic_stretch::process_stretch(state, &mut ring[..], inputs, delays, &mut out[..]);
    let after = a.state;
    let absent = stretch_absent::absent_in(len, state.accepted, delays, a.done, 4);
    ToldStretch {
        state: after,
        done: a.done,
        refusal: a.refusal,
        absent: absent,
    }
}

pub fn farrow8_told(
    state: VariableDelay,
    ring: &mut [f64],
    inputs: &[f64],
    delays: &[f64],
    out: &mut [f64],
) -> ToldStretch
    ensures { leaves result ring.new out.new ≡ told_of farrow_at true true 8 state
        ring.old inputs.now delays.now out.old }
{
    let len = ring.len();
    let a = farrow8_stretch::process_stretch(state, &mut ring[..], inputs, delays, &mut out[..]);
    let after = a.state;
    let absent = stretch_absent::absent_in(len, state.accepted, delays, a.done, 8);
    ToldStretch {
        state: after,
        done: a.done,
        refusal: a.refusal,
        absent: absent,
    }
}

pub fn lagrange_told(
    state: VariableDelay,
    ring: &mut [f64],
    inputs: &[f64],
    delays: &[f64],
    out: &mut [f64],
    taps: u64,
) -> ToldStretch
    ensures { leaves result ring.new out.new ≡ told_of (lagrange_at taps) (taps_ok taps) true taps
        state ring.old inputs.now delays.now out.old }
{
    let len = ring.len();
    let a = lagrange_stretch::process_stretch(
        state,
        &mut ring[..],
        inputs,
        delays,
        &mut out[..],
        taps,
    );
    let after = a.state;
    let absent = stretch_absent::absent_in(len, state.accepted, delays, a.done, taps);
    ToldStretch {
        state: after,
        done: a.done,
        refusal: a.refusal,
        absent: absent,
    }
}
