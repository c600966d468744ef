// The original's WindowedSinc (000) as a kernel: a lent table, read over a slice, a count and a position.
#![tactic(auto)]

mod kernel; // what is read and what is refused
mod sums; // the sum over the taps

pub use kernel::{read, refusal, sample};
