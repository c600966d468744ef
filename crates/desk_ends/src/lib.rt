// A desk's call at the ends of its ranges, and the order of its refusals, as laws over the definitions (W4).
// There is no code.

#![tactic(auto)]
