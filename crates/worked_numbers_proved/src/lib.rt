// The nine worked numbers of document 01 that are marked P, as one theorem (C3).
// There is no code.

#![tactic(auto)]
