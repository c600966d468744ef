// The original's OversampledVariableDelay (000): a delay reader at 2 or 4 times the rate, between a filter that raises
// the rate and one that lowers it again.
// The filters' coefficients and histories, the inner reader's ring and its kernel's table are lent.
#![tactic(auto)]

mod calls; // process_sample
mod inside; // the inner reader's call at a phase
mod opening; // open and reset
mod phases; // the phases of an accepted call
mod refusals; // what is refused

use answer::Answer;
pub use calls::process_sample;
pub use opening::{open, reset};
pub use refusals::{inner_length, refusal};

// The settings, both accepted numbers since opening or reset, and the delay of the last accepted call. 000's heads are
// remainders of the number of pushes, and its `initialized` says that a call was accepted.
#[derive(Clone, Copy)]
pub struct OversampledVariableDelay {
    pub maximum: usize,
    pub margin: usize,
    pub factor: usize,
    pub taps: usize,
    pub accepted: u64,
    pub inner: u64,
    pub previous: f64,
}

// The lengths of what is lent to a call.
#[derive(Drop)]
pub struct Lengths {
    pub table: usize,
    pub coefficients: usize,
    pub up: usize,
    pub down: usize,
    pub ring: usize,
}

#[derive(Clone, Copy)]
pub enum Opened {
    Reader(OversampledVariableDelay),
    Refused(u8),
}

#[derive(Drop)]
pub struct Processed {
    pub state: OversampledVariableDelay,
    pub answer: Answer,
}
