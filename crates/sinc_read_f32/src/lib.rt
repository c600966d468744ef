// The original's WindowedSincF32 (000) as a kernel: a lent table of f32, read over a slice of f32, a count and a
// position.
#![tactic(auto)]

mod abreast; // two chains over taps that are all held
mod absent; // the sum where some taps are absent
mod kernel; // what is read and what is refused
mod pair; // what two tables read at once
mod sums; // the sum where they are held

pub use kernel::{read, sample};
pub use pair::read_pair;
