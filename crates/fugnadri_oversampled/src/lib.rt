// The static library of the oversampled readers and their filters, for C and Rust (W11).
// Numbers pass as themselves, a slice as a pointer and a length, a `&mut` number as a pointer; there is no enum and no
// struct. Each function accepts every input, and its contract is that of the function it calls.
#![tactic(auto)]

pub mod cascaded_exports;
pub mod direct_exports;
pub mod filters;
