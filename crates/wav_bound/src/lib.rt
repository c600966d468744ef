// The proof that PCM samples of a file are the whole samples that demand 3 speaks of (W1, D3).
// There is no code.

#![tactic(auto)]
