// The static library of the readers that report their absent taps, for C and Rust (W7c). It stands apart from
// `fugnadri`, `fugnadri_tables`, `fugnadri_bank` and `fugnadri_room`, so that in those each kernel keeps its one caller
// and a call that does not need the numbers pays nothing. Each export is the reader's own call and writes the numbers
// of its absent taps, by kind, through three pointers: zeros if the call is refused.
#![tactic(auto)]

pub mod desks;
pub mod quality;
pub mod readers;
pub mod tables;
