// The original's VariableDelay (000): the state of a delay reader, what it refuses, and what an accepted call stores.
// The readers of all kernels are made of this.
#![tactic(auto)]

mod opening; // open and reset
mod refusals; // what is refused

ghost use Rattle.std.specs.Prelude.{◌≡◌, length};
ghost use Rattle.variable_delay.specs.Reader.{verdict, ring_after};
ghost use Rattle.variable_delay.specs.Inner.{accepted_of};

use answer::Answer;
pub use opening::{open, reset};
pub use refusals::refusal;
use refusals::{due, passes};

// The settings and the number of samples accepted since opening or reset (000's write_index).
#[derive(Clone, Copy)]
pub struct VariableDelay {
    pub maximum: usize,
    pub margin: usize,
    pub accepted: u64,
}

#[derive(Clone, Copy)]
pub enum Opened {
    Reader(VariableDelay),
    Refused(u8),
}

#[derive(Clone, Copy)]
pub struct Processed {
    pub state: VariableDelay,
    pub answer: Answer,
}

#[derive(Clone, Copy)]
pub struct Accepted {
    pub refusal: u8,
    pub count: u64,
    pub position: f64,
}

// Refuses, or stores the sample; the caller then reads at the position. The length is a power of two, so a mask gives
// the sample's place (K1).
pub fn accept(
    state: VariableDelay,
    own: bool,
    lent: bool,
    ring: &mut [f64],
    input: f64,
    delay: f64,
) -> Accepted
    ensures value { result ≡ accepted_of (verdict own lent state (length ring.old) input delay) state delay }
    ensures ring_after { ring.new ≡
        ring_after (verdict own lent state (length ring.old) input delay) state ring.old input }
{
    let len = ring.len();
    let needed = ring::length_for(state.maximum, state.margin);
    let i = state.accepted;
    if passes(needed, own, lent, len, i, input, delay) {
        let at = (i & (len as u64 - 1)) as usize;
        ring[at] = input;
        return Accepted {
            refusal: 0,
            count: i + 1,
            position: (i as i64) as f64 - delay,
        };
    }
    Accepted {
        refusal: due(needed, own, lent, len, i, input, delay),
        count: 0,
        position: 0.0,
    }
}
