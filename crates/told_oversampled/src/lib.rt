// The oversampled readers, with the numbers of absent taps summed over a call's inner readings (W11f). Each calls the
// reader as it is and counts beside it, so that a call that does not need the numbers pays nothing.
#![tactic(auto)]

mod cascaded; // the cascaded reader
mod direct; // the direct reader
mod readings; // the sums over the inner readings

use absent_taps::Absent;
use answer::Answer;
pub use cascaded::cascaded_told;
use cascaded_delay::CascadedOversampledVariableDelay4x;
pub use direct::oversampled_told;
use oversampled_delay::OversampledVariableDelay;

// A reader's answer with the sums of its absent taps.
#[derive(Drop)]
pub struct Told {
    pub state: OversampledVariableDelay,
    pub answer: Answer,
    pub absent: Absent,
}

#[derive(Drop)]
pub struct ToldTwice {
    pub state: CascadedOversampledVariableDelay4x,
    pub answer: Answer,
    pub absent: Absent,
}
