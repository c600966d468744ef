// What a desk hears over many calls of two desks in one room: what it would hear alone, with its own calls and what it
// was granted (W4g).
// There is no code.

#![tactic(auto)]
