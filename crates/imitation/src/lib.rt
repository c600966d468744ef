// What a stretch of a transfer becomes when it is read back at a wandering delay.
// An engine gives the delays of the frames, and one channel's samples are read at them by a windowed sinc of 32 taps
// and 64 phases.
#![tactic(auto)]

mod delays; // the delays of the frames, from the engine
mod reading; // the samples of a channel, each read at its delay

pub use delays::{Wandered, wander};
pub use reading::{Ended, read_stretch};
