// The original's CascadedOversampledVariableDelay4x (000): four-times oversampling as two stages of two, with a filter
// of 65 taps for both upsamplers and the first decimating filter, and one of 129 for the last.
// The coefficients, the histories, the inner reader's ring and its kernel's table are lent.
#![tactic(auto)]

mod calls; // process_sample
mod halves; // the two halves of an accepted call
mod opening; // open and reset
mod refusals; // what is refused

ghost use Rattle.std.specs.Prelude.{◌≡◌};
ghost use Rattle.cascaded_delay.specs.Opening.{latency};

use answer::Answer;
pub use calls::process_sample;
pub use opening::{open, reset};
pub use refusals::refusal;

// The settings, both accepted numbers since opening or reset, and the delay of the last accepted call.
#[derive(Clone, Copy)]
pub struct CascadedOversampledVariableDelay4x {
    pub maximum: usize,
    pub margin: usize,
    pub accepted: u64,
    pub inner: u64,
    pub previous: f64,
}

// The lengths of what is lent to a call.
#[derive(Drop)]
pub struct Lengths {
    pub table: usize,
    pub halfband: usize,
    pub last: usize,
    pub up1: usize,
    pub up2: usize,
    pub down2: usize,
    pub down1: usize,
    pub ring: usize,
}

#[derive(Clone, Copy)]
pub enum Opened {
    Reader(CascadedOversampledVariableDelay4x),
    Refused(u8),
}

#[derive(Drop)]
pub struct Processed {
    pub state: CascadedOversampledVariableDelay4x,
    pub answer: Answer,
}

// W11j. 000's latency_samples: 16 for the first upsampler, 8 for the second, 8 and 32 for the decimating filters.
pub fn latency_samples() -> f64
    ensures { result ≡ latency }
{
    64.0
}
