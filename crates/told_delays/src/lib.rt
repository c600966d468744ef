// The delay readers of every kernel, with the number of a call's absent taps of each kind (W7c). Each calls the reader
// as it is and counts beside it, so that a call that does not need the numbers pays nothing.
#![tactic(auto)]

mod tables; // the readers over a lent table

ghost use Rattle.std.specs.Prelude.{◌≡◌, true, length};
ghost use Rattle.variable_delay.specs.Reader.{verdict, ring_after};
ghost use Rattle.cubic_farrow.specs.Cubic.{cubic_at};
ghost use Rattle.farrow8.specs.Kernel.{farrow_at};
ghost use Rattle.lagrange.specs.Kernel.{taps_ok, lagrange_at};
ghost use Rattle.told_delays.specs.Told.{told_by};

use absent_taps::Absent;
use answer::{Answer, AnswerF32};
pub use tables::{sinc_f32_told, sinc_told};
use variable_delay::VariableDelay;

// A reader's answer with the numbers of its absent taps.
#[derive(Drop)]
pub struct Told {
    pub state: VariableDelay,
    pub answer: Answer,
    pub absent: Absent,
}

#[derive(Drop)]
pub struct ToldF32 {
    pub state: VariableDelay,
    pub answer: AnswerF32,
    pub absent: Absent,
}

pub fn cubic_told(state: VariableDelay, ring: &mut [f64], input: f64, delay: f64) -> Told
    ensures value { result ≡ told_by cubic_at 4 (verdict true true state (length ring.old) input delay)
        state ring.old input delay }
    ensures ring_after { ring.new ≡
        ring_after (verdict true true state (length ring.old) input delay) state ring.old input }
{
    let len = ring.len();
    let p = cubic_delay::process_sample(state, &mut ring[..], input, delay);
    let after = p.state;
    let answer = p.answer;
    let absent = told_call::of_call(len, state.accepted, after.accepted, delay, 4);
    Told {
        state: after,
        answer: answer,
        absent: absent,
    }
}

pub fn farrow8_told(state: VariableDelay, ring: &mut [f64], input: f64, delay: f64) -> Told
    ensures value { result ≡ told_by farrow_at 8 (verdict true true state (length ring.old) input delay)
        state ring.old input delay }
    ensures ring_after { ring.new ≡
        ring_after (verdict true true state (length ring.old) input delay) state ring.old input }
{
    let len = ring.len();
    let p = farrow8_delay::process_sample(state, &mut ring[..], input, delay);
    let after = p.state;
    let answer = p.answer;
    let absent = told_call::of_call(len, state.accepted, after.accepted, delay, 8);
    Told {
        state: after,
        answer: answer,
        absent: absent,
    }
}

pub fn lagrange_told(
    state: VariableDelay,
    ring: &mut [f64],
    input: f64,
    delay: f64,
    taps: u64,
) -> Told
    ensures value { result ≡ told_by (lagrange_at taps) taps
        (verdict (taps_ok taps) true state (length ring.old) input delay) state
        ring.old input delay }
    ensures ring_after { ring.new ≡ ring_after
        (verdict (taps_ok taps) true state (length ring.old) input delay) state ring.old input }
{
    let len = ring.len();
    let p = lagrange_delay::process_sample(state, &mut ring[..], input, delay, taps);
    let after = p.state;
    let answer = p.answer;
    let absent = told_call::of_call(len, state.accepted, after.accepted, delay, taps);
    Told {
        state: after,
        answer: answer,
        absent: absent,
    }
}
