// The original's VariableDelayF32 (000): `variable_delay` over a ring of f32.
// The state and the answer of an opening are variable_delay's; the delay and the position stay f64.
#![tactic(auto)]

mod served; // a quick test for calls that are not refused

ghost use Rattle.std.specs.Prelude.{◌≡◌, ◌&&◌, length};
ghost use Rattle.variable_delay.specs.Reader.{verdict, ring_after};
ghost use Rattle.variable_delay.specs.Inner.{accepted_of};
ghost use Rattle.variable_delay.specs.Opening.{opened_of, ring_opened, reset_of, ring_reset};

use answer::AnswerF32;
use constants::{LIMIT, LIMIT_F64};
use refusal_order::both;
use variable_delay::{Accepted, Opened, VariableDelay};

#[derive(Drop)]
pub struct ProcessedF32 {
    pub state: VariableDelay,
    pub answer: AnswerF32,
}

// 000's VariableDelayF32::new over a lent ring: refuses by 1 or 2, or zeroes the ring.
pub fn open(maximum: usize, margin: usize, ring: &mut [f32]) -> Opened
    ensures value { result ≡ opened_of maximum margin (length ring.old) }
    ensures ring_after { ring.new ≡ ring_opened maximum margin ring.old }
{
    reset(
        VariableDelay {
            maximum: maximum,
            margin: margin,
            accepted: 0,
        },
        &mut ring[..],
    )
}

// 000's VariableDelayF32::reset: refuses by 1, 2 or 3, or zeroes the ring and the count.
pub fn reset(state: VariableDelay, ring: &mut [f32]) -> Opened
    ensures value { result ≡ reset_of state (length ring.old) }
    ensures ring_after { ring.new ≡ ring_reset state ring.old }
{
    let needed = ring::length_for(state.maximum, state.margin);
    let t1 = needed != 0;
    let t2 = ring.len() == needed;
    let t3 = state.accepted <= LIMIT;
    let no = answer::first(t1, t2, t3, true, true, true, true, true);
    if no != 0 {
        return Opened::Refused(no);
    }
    ring::clear_f32(&mut ring[..]);
    Opened::Reader(VariableDelay {
        maximum: state.maximum,
        margin: state.margin,
        accepted: 0,
    })
}

// N1 to N6, N8. The number of the refusal, in 01's order, 0 for none. Most calls are accepted, and fewer tests are
// enough to show that.
pub fn refusal(
    state: VariableDelay,
    own: bool,
    lent: bool,
    len: usize,
    input: f32,
    delay: f64,
) -> u8
    ensures { result ≡ verdict own lent state len input delay }
{
    if served::served(state, own, lent, len, input, delay) {
        return 0;
    }
    let n = state.accepted;
    let needed = ring::length_for(state.maximum, state.margin);
    let t1 = both(needed != 0, own);
    let t2 = both(len == needed, lent);
    let t3 = n <= LIMIT;
    let t4 = magnitude::is_finite_f32(input);
    let t5 = both(magnitude::is_finite(delay), delay >= 0.0);
    let t6 = delay <= LIMIT_F64;
    let t8 = n < LIMIT;
    answer::first(t1, t2, t3, t4, t5, t6, true, t8)
}

// Refuses, or stores the sample; the caller then reads at the position.
pub fn accept(
    state: VariableDelay,
    own: bool,
    lent: bool,
    ring: &mut [f32],
    input: f32,
    delay: f64,
) -> Accepted
    ensures value { result ≡ accepted_of (verdict own lent state (length ring.old) input delay) state delay }
    ensures ring_after { ring.new ≡
        ring_after (verdict own lent state (length ring.old) input delay) state ring.old input }
{
    let len = ring.len();
    let no = refusal(state, own, lent, len, input, delay);
    if no != 0 {
        return Accepted {
            refusal: no,
            count: 0,
            position: 0.0,
        };
    }
    let i = state.accepted;
    let at = ring::place(i, len);
    ring[at] = input;
    Accepted {
        refusal: 0,
        count: i + 1,
        position: (i as i64) as f64 - delay,
    }
}
