// The static library of the f64 kernels and the delay readers over them, for C and Rust.
// Numbers pass as themselves, a slice as a pointer and a length, a `&mut` number as a pointer; there is no enum and no
// struct. Each function accepts every input, and its contract is that of the function it calls.
#![tactic(auto)]

pub mod cubic_exports;
pub mod farrow8_exports;
pub mod lagrange_exports;
pub mod openings;
