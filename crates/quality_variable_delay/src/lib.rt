// The original's QualityVariableDelayF32 (000): a delay reader over a ring of f32 whose quality may change from call to
// call, with a fade from the old quality to the new one, by 000's rule or by one that goes back without a jump (W9).
#![tactic(auto)]

mod calls; // process_sample and process_sample_rate_aware
mod chosen; // the same over two sets that the caller chose
mod cleared; // the tests of that
mod opening; // new, by either rule, and reset
mod refusing; // the refusal that is due
mod served; // a call of which nothing is to be refused
mod state; // what a state holds of its qualities
mod storing; // an accepted call
mod turns; // what a turn reads

use answer::AnswerF32;
pub use calls::{due, process_sample, process_sample_rate_aware};
pub use chosen::process_chosen;
pub use opening::{open, open_returning, reset, reset_refusal};
use quality_mode::QualityMode;
pub use refusing::refusal;
use returning_fade::{Direction, Rule};

// F1. The qualities are fields, which are written anew when a fade starts or ends. Opening chooses the rule (W9a).
#[derive(Clone, Copy)]
pub struct QualityVariableDelayF32 {
    pub maximum: usize,
    pub margin: usize,
    pub accepted: u64,
    pub current_quality: QualityMode,
    pub target_quality: QualityMode,
    pub crossfade_position: u32,
    pub crossfade_samples: u32,
    pub rule: Rule,
    pub direction: Direction,
}

#[derive(Drop)]
pub enum Opened {
    Reader(QualityVariableDelayF32),
    Refused(u8),
}

#[derive(Drop)]
pub struct ProcessedQ {
    pub state: QualityVariableDelayF32,
    pub answer: AnswerF32,
}
