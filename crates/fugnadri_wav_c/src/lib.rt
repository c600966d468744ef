// The static library that reads WAV files for C and Rust: RIFF, and from their headers RF64 and BW64 (W1, W10). Numbers
// are passed by value, a slice as a pointer and a length, a `&mut` number as a pointer; there is no enum and no struct.
// Each export calls the function of `fugnadri_wav` that bears its name, and has its clauses.
#![tactic(auto)]

mod files;
mod headers;
mod samples;
mod turns;
