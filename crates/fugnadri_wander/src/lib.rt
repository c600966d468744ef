// The static library of the oscillators and the engine, for C and Rust.
// Numbers pass as themselves, a slice as a pointer and a length, a `&mut` number or array as a pointer; there is no
// enum and no struct. Each function accepts every input, and its contract is that of the function it calls.
#![tactic(auto)]

pub mod shapes;
pub mod wander;
