// The static library of the room of tables that two desks share, for C and Rust.
// Numbers pass as themselves, a slice as a pointer and a length, a `&mut` number as a pointer; there is no enum and no
// struct. A desk is 1 or 2, a mode 0 or 1. Each function accepts every input.
#![tactic(auto)]

pub mod desks;
pub mod rooms; // a room: opening it, asking for a set, giving it up
