// The original's f32 loop over a run of taps: a chain of fused steps, each rounded once (K4).
#![tactic(auto)]

mod abreast; // two runs at once
mod before; // before the run's middle
mod behind; // behind it
mod beside; // two runs at once, with samples of their own
mod lengths; // how far to go
mod neighbour; // two chains at once, with samples of their own
mod pair; // two chains at once
mod single; // one chain
mod taps; // four at once
mod turns; // up to a place, in four or one by one

pub use neighbour::neighbours;
pub use pair::{Pair, chains};
pub use single::chain;

// How far a run got, and its sum there.
#[derive(Drop)]
pub(crate) struct Run {
    pub(crate) k: usize,
    pub(crate) sum: f64,
}
