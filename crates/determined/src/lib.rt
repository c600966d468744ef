// The proof that the contracts of readers, openings and table builders leave nothing open: they determine the whole
// answer and all that is written (C1).
// There is no code.

#![tactic(auto)]
