// The static library of the windowed sinc tables and the delay readers over them, for C and Rust.
// Numbers pass as themselves, a slice as a pointer and a length, a `&mut` number as a pointer; there is no enum and no
// struct. Each function accepts every input, and its contract is that of the function it calls.
#![tactic(auto)]

pub mod modes;
pub mod openings;
pub mod readers;
pub mod readers_f32;
pub mod readings;
pub mod tables;
