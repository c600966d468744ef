// Laws only: a header that was written is read back, with sizes up to 2^40 (W10d), and one that fits RIFF is that of
// Wish 2 (W10e).

#![tactic(auto)]
