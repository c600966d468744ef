// AIFF files read as plain numbers: what the static library fugnadri_aiff_c exports for C and Rust (W12). There is no
// enum and no struct. Each function accepts every input, and its contract is that of the function it calls.
#![tactic(auto)]

pub mod files;
pub mod samples;
