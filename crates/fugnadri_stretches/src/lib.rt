// The static library of whole stretches, for C and Rust (W3): one call for slices of inputs and delays. It stands apart
// from the libraries of the single calls, so that in each a kernel keeps its one caller.
#![tactic(auto)]

pub mod quality;
pub mod readers;
pub mod tables;
pub mod tables_f32;
pub mod told;
