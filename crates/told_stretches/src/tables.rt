// A whole stretch of the reader over a windowed sinc table, with the sums of its absent taps.
ghost use Rattle.std.specs.Prelude.{◌≡◌, ◌&&◌, eqb, length};
ghost use Rattle.sinc_settings.specs.Ranges.{taps_ok, phases_ok};
ghost use Rattle.sinc_settings.specs.Refusals.{table_length};
ghost use Rattle.sinc_read.specs.Reading.{sinc_at};
ghost use Rattle.told_stretches.specs.Told.{leaves, told_of};

use crate::ToldStretch;
use variable_delay::VariableDelay;

pub fn sinc_told<'a>(
    state: VariableDelay,
    ring: &mut [f64],
    inputs: &[f64],
    delays: &[f64],
    out: &mut [f64],
    table: &'a [f64],
    taps: usize,
    phases: usize,
) -> ToldStretch
    ensures { leaves result ring.new out.new ≡ told_of (sinc_at table.now taps phases)
        (taps_ok taps && phases_ok phases) (eqb (length table.now) (table_length taps phases)) taps
        state ring.old inputs.now delays.now out.old }
{
    let len = ring.len();
    let a = sinc_stretch::process_stretch(
        state,
        &mut ring[..],
        inputs,
        delays,
        &mut out[..],
        table,
        taps,
        phases,
    );
    let after = a.state;
    let absent = stretch_absent::absent_in(len, state.accepted, delays, a.done, taps as u64);
    ToldStretch {
        state: after,
        done: a.done,
        refusal: a.refusal,
        absent: absent,
    }
}
