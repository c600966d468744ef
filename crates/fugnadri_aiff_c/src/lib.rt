// The static library that reads AIFF files for C and Rust (W12). Numbers are passed by value, a slice as a pointer and
// a length, a `&mut` number as a pointer; there is no enum and no struct. Each export calls the function of
// `fugnadri_aiff` that bears its name, and has its clauses.
#![tactic(auto)]

mod files;
mod samples;
