// The quality reader's call, opening and reset on plain numbers. A quality is its place in the original's list, from 0;
// a number above 3 names none. The number 0 stands for the ported rule and for the direction onwards, 1 for the
// returning rule and for the direction back (W9h).
#![tactic(auto)]

mod calls; // a call
mod codes; // a quality, a rule, a direction and a state as numbers
mod draft; // a call that is plain in Draft
mod lent; // whether a bank has its length
mod plainly; // the tests of that fast path
mod renewing; // opening and reset
mod through; // a call whose numbers come and go through pointers

pub use calls::{apart, call};
pub use codes::{decode, encode, fields_ok, mode, odd};
pub use draft::call_at_once;
pub use renewing::renew;
pub use through::call_through;

// A quality reader's state in plain numbers. The names are the original's (000), and what is not a number there is
// given by its number.
#[derive(Clone, Copy)]
pub struct Coded {
    pub maximum: usize,
    pub margin: usize,
    pub accepted: u64,
    pub current: u8,
    pub target: u8,
    pub crossfade_position: u32,
    pub crossfade_samples: u32,
    pub rule: u8,
    pub direction: u8,
}

// What a call gives. The number of the refusal is 0 for none, and the sample is 0.0 if the call is refused.
#[derive(Drop)]
pub struct Called {
    pub state: Coded,
    pub number: u8,
    pub sample: f32,
}
