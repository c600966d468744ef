// One rounding to f32 or f64 in IEEE 754's sense: the definitions (specs/) and laws (proofs/) that other crates cite.
// There is no code.

#![tactic(auto)]
