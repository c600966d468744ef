// Sentences of document 01 that say more than one contract does, each proved as a law over the contracts' definitions.
// They say which refusal is given, what a refusal leaves, what holds at the ends of the ranges, and what a plain slice
// reads. There is no code.

#![tactic(auto)]
