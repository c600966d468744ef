// The readers over a windowed sinc table, with the numbers of their absent taps, in both widths.
ghost use Rattle.std.specs.Prelude.{◌≡◌, ◌&&◌, eqb, length};
ghost use Rattle.sinc_settings.specs.Ranges.{taps_ok, phases_ok};
ghost use Rattle.sinc_settings.specs.Refusals.{table_length};
ghost use Rattle.sinc_read.specs.Reading.{sinc_at};
ghost use Rattle.sinc_read_f32.specs.Reading.{sinc_f32_at};
ghost use Rattle.variable_delay.specs.Reader.{verdict, ring_after};
ghost use Rattle.told_delays.specs.Told.{told_by, told_f32_by};

use crate::{Told, ToldF32};
use variable_delay::VariableDelay;

pub fn sinc_told<'a>(
    state: VariableDelay,
    ring: &mut [f64],
    input: f64,
    delay: f64,
    table: &'a [f64],
    taps: usize,
    phases: usize,
) -> Told
    ensures value { result ≡ told_by (sinc_at table.now taps phases) taps
        (verdict (taps_ok taps && phases_ok phases)
        (eqb (length table.now) (table_length taps phases)) state
        (length ring.old) input delay) state ring.old input delay }
    ensures ring_after { ring.new ≡ ring_after
        (verdict (taps_ok taps && phases_ok phases)
        (eqb (length table.now) (table_length taps phases)) state
        (length ring.old) input delay) state ring.old input }
{
    let len = ring.len();
    let p = sinc_delay::process_sample(state, &mut ring[..], input, delay, table, taps, phases);
    let after = p.state;
    let answer = p.answer;
    let absent = told_call::of_call(len, state.accepted, after.accepted, delay, taps as u64);
    Told {
        state: after,
        answer: answer,
        absent: absent,
    }
}

pub fn sinc_f32_told<'a>(
    state: VariableDelay,
    ring: &mut [f32],
    input: f32,
    delay: f64,
    table: &'a [f32],
    taps: usize,
    phases: usize,
) -> ToldF32
    ensures value { result ≡ told_f32_by (sinc_f32_at table.now taps phases) taps
        (verdict (taps_ok taps && phases_ok phases)
        (eqb (length table.now) (table_length taps phases)) state
        (length ring.old) input delay) state ring.old input delay }
    ensures ring_after { ring.new ≡ ring_after
        (verdict (taps_ok taps && phases_ok phases)
        (eqb (length table.now) (table_length taps phases)) state
        (length ring.old) input delay) state ring.old input }
{
    let len = ring.len();
    let p = sinc_delay_f32::process_sample(state, &mut ring[..], input, delay, table, taps, phases);
    let after = p.state;
    let answer = p.answer;
    let absent = told_call::of_call(len, state.accepted, after.accepted, delay, taps as u64);
    ToldF32 {
        state: after,
        answer: answer,
        absent: absent,
    }
}
