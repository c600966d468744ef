// The static library of the number functions, for C and Rust.
// Numbers pass as themselves, a `&mut` number as a pointer. Each function accepts every input, and its contract is that
// of the function it calls.
#![tactic(auto)]

pub mod bits;
pub mod elementary_three;
pub mod numbers;
