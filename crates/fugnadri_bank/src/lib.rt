// The static library of the bank and of the reader whose quality may change, for C and Rust.
// Numbers pass as themselves, a slice as a pointer and a length, a `&mut` number as a pointer; there is no enum and no
// struct. A quality is its place in the original's list, from 0. Each function accepts every input.
#![tactic(auto)]

pub mod bank;
pub mod modes;
pub mod quality;
pub mod quality_bits;
pub mod quality_openings;
