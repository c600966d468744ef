// What holds in a room over many calls of two desks: no set changes while it is held, and none is there twice (W4e,
// W4f).
// There is no code.

#![tactic(auto)]
