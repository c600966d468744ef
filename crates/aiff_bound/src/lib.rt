// Laws only: the samples of an AIFF are the whole samples that demand 3 speaks of (W12d, D3).

#![tactic(auto)]
