// W1. The body of a `fmt `: how its tag is read, which kinds are listed, and the test for refusal 13.
#![tactic(auto)]

mod format;
mod tags;

pub use format::{format_ok, kind_of};
pub use tags::tag_of;
