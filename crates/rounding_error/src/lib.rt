// Signed fractions and the error of one rounding, for f32 and f64: definitions (specs/) and laws (proofs/).
// There is no code.

#![tactic(auto)]
